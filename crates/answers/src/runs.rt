// A start, and a run through the synchronisation at 0 and another to the next, over five tables.
ghost use Rattle.std.specs.Prelude.{◌≡◌, ◌++◌, map, ◌*◌, ◌≤◌, drop};
ghost use Rattle.chunks.specs.Flat.{flat};
ghost use Rattle.tables.specs.Decode.{tables, grains_of, grains_part};
ghost use Rattle.running.specs.Ran.{told_tables};
ghost use Rattle.listing_text.specs.Columns.{columns, most_kept};
ghost use Rattle.listing_text.specs.Grammar.{columns_of};
ghost use Rattle.simulator.specs.Start.{start_all};
ghost use Rattle.answers.specs.Answer.{shown_grain, room};
ghost use Rattle.answers.specs.Runs.{told_all, start_before, go_on, simulated, blank};

use crate::rows;
use listing_text::{KEPT, MOST};
use model::{Domain, End, Report, StartError};

// The cells that are served, and the events that a cell holds.
const CELLS: usize = 9;

const ROOM: usize = 64;

// How long the tables of those cells are, for as many grains as are kept.
const LISTS: usize = layout::LISTS_HEAD + MOST * layout::HOME + CELLS * layout::MEMBERS;

const GRAINS: usize = layout::GRAINS_HEAD + MOST * layout::GRAIN;

const QUEUE: usize = CELLS * (ROOM * layout::PLACE_NUMS + layout::PLACES);

const EVENTS: usize = CELLS * (ROOM * layout::PLACE_REALS);

// The events that a run may do.
const BUDGET: u32 = 65536;

// A run, behind a run that synchronised.
fn go_on(
    report: Report,
    lists: &mut [u64],
    grains: &mut [f64],
    queue: &mut [u64],
    events: &mut [f64],
    order: &mut [u8],
    rate: f64,
) -> Report
    ensures { told_tables result (tables lists.new grains.new queue.new events.new order.new)
        ≡ go_on rate (told_tables report (tables lists.old grains.old queue.old events.old order.old)) }
{
    match report.end {
        Ok(End::Synchronised) => simulator::run::run(
            lists, grains, queue, events, order, rate, BUDGET,
        ),
        Ok(End::Spent) | Err(_) => report,
    }
}

// A start, and both runs behind it.
fn simulate(
    domain: Domain,
    count: u64,
    rate: f64,
    inputs: &[f64],
    lists: &mut [u64],
    grains: &mut [f64],
    queue: &mut [u64],
    events: &mut [f64],
    order: &mut [u8],
) -> Result<Report, StartError>
    ensures told { told_all result (tables lists.new grains.new queue.new events.new order.new)
        ≡ simulated domain count rate inputs.now (tables lists.old grains.old queue.old events.old order.old) }
    ensures started { start_before result ≡ (start_all domain count room inputs.now (tables lists.old grains.old queue.old events.old order.old)).answer }
{
    simulator::start::start(
        domain,
        count,
        ROOM as u64,
        inputs,
        lists,
        grains,
        queue,
        events,
        order,
    )?;
    let first = simulator::run::run(lists, grains, queue, events, order, rate, BUDGET);
    Ok(go_on(first, lists, grains, queue, events, order, rate))
}

// The same on tables of those lengths, and the grains' numbers as bits.
pub(crate) fn serve(
    domain: Domain,
    n: usize,
    rate: f64,
    inputs: &[f64; KEPT],
    bits: &mut [u64; KEPT],
) -> Result<Report, StartError>
    requires { n ≤ most_kept }
    ensures value { told_all result (simulated domain n rate inputs.now blank).after ≡ simulated domain n rate inputs.now blank }
    ensures started { start_before result ≡ (start_all domain n room inputs.now blank).answer }
    ensures bits_after { bits.new ≡ flat columns_of (map shown_grain (grains_of n (grains_part (simulated domain n rate inputs.now blank).after.grains))) ++ drop (n * columns) bits.old }
{
    let mut lists = [0u64; LISTS];
    let mut grains = [0f64; GRAINS];
    let mut queue = [0u64; QUEUE];
    let mut events = [0f64; EVENTS];
    let mut order = [0u8; layout::ORDER];
    let served = simulate(
        domain,
        n as u64,
        rate,
        inputs,
        &mut lists,
        &mut grains,
        &mut queue,
        &mut events,
        &mut order,
    );
    rows::show(&grains, n, bits);
    served
}
