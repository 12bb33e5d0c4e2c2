// The steps of a run whose tables passed the checks: events until one is a synchronisation or the budget is spent, and then the clock and the halt mark.
#![tactic(auto)]

ghost use Rattle.std.specs.Prelude.{◌≡◌, true};
ghost use Rattle.model.specs.Sizes.{rated};
ghost use Rattle.model.specs.State.{State};
ghost use Rattle.model.specs.Run.{run_from};
ghost use Rattle.tables.specs.Decode.{tables, decoded};
ghost use Rattle.checks.specs.Answered.{Answered};
ghost use Rattle.acts.specs.Tell.{SameTables};
ghost use Rattle.step.specs.World.{Some};
ghost use Rattle.running.specs.Going.{Lent, Gone};
ghost use Rattle.running.specs.Ran.{told_tables, ran_over};

use acts::queue::Queues;
use cell::Grid;
use layout::{GRAINS_HEAD, LISTS_HEAD, ORDER};
use model::{End, Report, RunError};
use step::{Stepped, World};
use tables::headers;

// The steps, over the parts of the tables behind their headers.
fn run_steps(
    lists: &mut [u64],
    grains: &mut [f64],
    queues: &mut Queues,
    mut w: World,
    rate: f64,
    budget: u32,
) -> Report
    requires { Some (Lent w lists.old grains.old queues.old.queue.now queues.old.events.now queues.old.order.now) × (rated rate ≡ true) }
    ensures same { SameTables queues.old queues.new }
    ensures gone { (s : State) → Lent w lists.old grains.old queues.old.queue.now queues.old.events.now queues.old.order.now s
        → Gone w lists.new grains.new queues.new.queue.now queues.new.events.now queues.new.order.now result (run_from rate budget 0 s) }
{
    for done in 0..budget {
        match step::step(lists, grains, queues, &mut w, rate) {
            Stepped {
                done: Ok(()),
                sync: false,
            } => {}
            Stepped {
                done: Ok(()),
                sync: true,
            } => {
                return Report {
                    end: Ok(End::Synchronised),
                    clock: w.clock,
                    events: u64::from(done) + 1,
                };
            }
            Stepped {
                done: Err(halt),
                ..
            } => {
                return Report {
                    end: Err(RunError::Halted(halt)),
                    clock: w.clock,
                    events: u64::from(done),
                };
            }
        }
    }
    Report {
        end: Ok(End::Spent),
        clock: w.clock,
        events: u64::from(budget),
    }
}

// The same over the parts that are lent.
fn over_parts(
    lists: &mut [u64],
    grains: &mut [f64],
    queue: &mut [u64],
    events: &mut [f64],
    order: &mut [u8],
    w: World,
    rate: f64,
    budget: u32,
) -> Report
    requires { Some (Lent w lists.old grains.old queue.old events.old order.old) × (rated rate ≡ true) }
    ensures { (s : State) → Lent w lists.old grains.old queue.old events.old order.old s
        → Gone w lists.new grains.new queue.new events.new order.new result (run_from rate budget 0 s) }
{
    let mut queues = Queues {
        queue,
        events,
        order,
    };
    run_steps(lists, grains, &mut queues, w, rate, budget)
}

// The tables have passed the checks: the steps are done on the parts behind the headers, and then the clock and the halt mark are written.
pub fn work(
    lists: &mut [u64],
    grains: &mut [f64],
    queue: &mut [u64],
    events: &mut [f64],
    order: &mut [u8],
    rate: f64,
    budget: u32,
) -> Report
    requires { Answered rate (tables lists.old grains.old queue.old events.old order.old) 0 }
    ensures { told_tables result (tables lists.new grains.new queue.new events.new order.new)
        ≡ ran_over (run_from rate budget 0 (decoded (tables lists.old grains.old queue.old events.old order.old)))
        (tables lists.old grains.old queue.old events.old order.old) }
{
    let sizes = headers::sizes_of(lists);
    let domain = headers::domain_of(lists, grains);
    let w = World {
        sizes,
        domain,
        grid: Grid::new(domain),
        clock: headers::clock(grains),
    };
    let need = tables::lengths::needed(sizes);
    let report = over_parts(
        &mut lists[LISTS_HEAD..need.lists],
        &mut grains[GRAINS_HEAD..need.grains],
        &mut queue[..need.queue],
        &mut events[..need.events],
        &mut order[..ORDER],
        w,
        rate,
        budget,
    );
    headers::set_mark(lists, report.end.err().map_or(0, u64::from));
    headers::set_clock(grains, report.clock);
    report
}
