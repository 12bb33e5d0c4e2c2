// The calls for programs in other languages: numbers, slices and references to numbers only. None asks anything of its caller but that slices are what they say.
#![tactic(auto)]

ghost use Rattle.std.specs.Prelude.{◌≡◌, true, IfOk};
ghost use Rattle.model.specs.Check.{Fits};
ghost use Rattle.model.specs.Sizes.{counts_ok};
ghost use Rattle.root.specs.Root.{root_of};
ghost use Rattle.root.specs.Rule.{number as rootNumber, value as rootValue, RootSays};
ghost use Rattle.tables.specs.Decode.{tables};
ghost use Rattle.simulator.specs.Start.{start_all};
ghost use Rattle.simulator.specs.Run.{run_tables, Owned};
ghost use Rattle.fesolopi.specs.Codes.{boxed, start_given, start_given_by, ended, ended_by};
ghost use Rattle.fesolopi.specs.Needed.{needed, needed_for, told_needed};

use cell::Grid;
use layout::{INPUT, ORDER};
use model::{Domain, End, StartError};
use myvec::MyVec;
use tables::Sizes;
use tables::lengths::Lengths;

// The number of a run that spent its budget: far above those of refusals.
const SPENT: u64 = 100;

// A start. 0: accepted; 1, 2, 4: refused, and nothing is changed; 5 to 9: accepted and halted. Where it is 4, `grain` is the lowest bad grain.
#[unsafe(no_mangle)]
pub extern "C" fn fesolopi_start(
    l0: f64,
    l1: f64,
    periodic0: bool,
    periodic1: bool,
    count: u64,
    room: u64,
    inputs: &[f64],
    lists: &mut [u64],
    grains: &mut [f64],
    queue: &mut [u64],
    events: &mut [f64],
    order: &mut [u8],
    grain: &mut u64,
) -> u64
    ensures fits { Fits (boxed l0 l1 periodic0 periodic1) }
    ensures order_after { start_given result grain.new (tables lists.new grains.new queue.new events.new order.new)
        ≡ start_given_by (start_all (boxed l0 l1 periodic0 periodic1) count room inputs.now
        (tables lists.old grains.old queue.old events.old order.old)) }
{
    let domain = Domain {
        lengths: MyVec { x: l0, y: l1 },
        periodic0,
        periodic1,
    };
    *grain = 0;
    match simulator::start::start(
        domain, count, room, inputs, lists, grains, queue, events, order,
    ) {
        Ok(()) => 0,
        Err(StartError::BadGrain(bad)) => {
            *grain = bad;
            4
        }
        Err(e) => u64::from(e),
    }
}

// A run. 0: synchronised; `SPENT`: the budget is spent; 5 to 9: halted; 2, 3, 10: refused, and nothing is changed. `clock` and `done` are the report's.
#[unsafe(no_mangle)]
pub extern "C" fn fesolopi_run(
    lists: &mut [u64],
    grains: &mut [f64],
    queue: &mut [u64],
    events: &mut [f64],
    order: &mut [u8],
    rate: f64,
    budget: u32,
    clock: &mut f64,
    done: &mut u64,
) -> u64
    ensures owned { Owned budget (tables lists.old grains.old queue.old events.old order.old) }
    ensures order_after { ended result clock.new done.new (tables lists.new grains.new queue.new events.new order.new)
        ≡ ended_by (run_tables rate budget (tables lists.old grains.old queue.old events.old order.old)) }
{
    let report = simulator::run::run(lists, grains, queue, events, order, rate, budget);
    *clock = report.clock;
    *done = report.events;
    match report.end {
        Ok(End::Synchronised) => 0,
        Ok(End::Spent) => SPENT,
        Err(e) => u64::from(e),
    }
}

// How long the tables of a start must be; or why it would be refused, whatever its tables.
fn table_lengths(domain: Domain, count: u64, room: u64) -> Result<Lengths, StartError>
    ensures told { told_needed count result ≡ needed_for domain count room }
    ensures counts { IfOk result (λ need. counts_ok room count ≡ true) }
{
    if !cell::box_ok(domain) {
        return Err(StartError::BoxOutOfRange);
    }
    if !checks::counts_ok(count, room) {
        return Err(StartError::TooShort);
    }
    Ok(tables::lengths::needed(Sizes {
        grains: count as usize,
        cells: Grid::new(domain).cells(),
        room: room as usize,
    }))
}

// How long the tables of a start must be. 0 and the lengths; or 1 or 2, where it would be refused so whatever its tables, and zeros.
#[unsafe(no_mangle)]
pub extern "C" fn fesolopi_needed(
    l0: f64,
    l1: f64,
    count: u64,
    room: u64,
    inputs: &mut u64,
    lists: &mut u64,
    grains: &mut u64,
    queue: &mut u64,
    events: &mut u64,
    order: &mut u64,
) -> u64
    ensures { needed result inputs.new lists.new grains.new queue.new events.new order.new
        ≡ needed_for (boxed l0 l1 true true) count room }
{
    let domain = Domain {
        lengths: MyVec { x: l0, y: l1 },
        periodic0: true,
        periodic1: true,
    };
    *inputs = 0;
    *lists = 0;
    *grains = 0;
    *queue = 0;
    *events = 0;
    *order = 0;
    match table_lengths(domain, count, room) {
        Ok(need) => {
            *inputs = count * INPUT as u64;
            *lists = need.lists as u64;
            *grains = need.grains as u64;
            *queue = need.queue as u64;
            *events = need.events as u64;
            *order = ORDER as u64;
            0
        }
        Err(e) => u64::from(e),
    }
}

// The square root. 0 and the root; or 5 and +0, where there is none.
#[unsafe(no_mangle)]
pub extern "C" fn fesolopi_square_root(d: f64, root: &mut f64) -> u64
    ensures value { result ≡ rootNumber (root_of d) }
    ensures root_after { root.new ≡ rootValue (root_of d) }
    ensures root_says { RootSays d result root.new }
{
    let (number, value) = match root::square_root(d) {
        Some(x) => (0, x),
        None => (5, 0.0),
    };
    *root = value;
    number
}
