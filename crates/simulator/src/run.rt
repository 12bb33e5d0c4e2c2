// A run: its checks, and behind them what crate running does.
ghost use Rattle.tables.specs.Decode.{tables};
ghost use Rattle.simulator.specs.Run.{RunPromise};

use model::Report;

// Events until one is a synchronisation or the budget is spent; 2, the number of an earlier halt, 3 or 10 where the tables or the rate do not allow it.
pub fn run(
    lists: &mut [u64],
    grains: &mut [f64],
    queue: &mut [u64],
    events: &mut [f64],
    order: &mut [u8],
    rate: f64,
    budget: u32,
) -> Report
    ensures { RunPromise rate budget (tables lists.old grains.old queue.old events.old order.old) result
        (tables lists.new grains.new queue.new events.new order.new) }
{
    match checks::check(lists, grains, queue, events, order, rate) {
        Ok(()) => running::work(lists, grains, queue, events, order, rate, budget),
        Err(e) => Report {
            end: Err(e),
            clock: 0.0,
            events: 0,
        },
    }
}
