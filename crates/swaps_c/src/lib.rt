// The benchmark's call, exported under its name: it is the one of crate swaps.
#![tactic(auto)]

ghost use Rattle.std.specs.Prelude.{◌≡◌};
ghost use Rattle.scheduler.specs.Inside.{head_in};
ghost use Rattle.swaps.specs.Asked.{head_given, order_after, swaps_told};

// The cell's head went from empty, or from a time, to what the tables have now: its update's swaps. `REFUSED`: an argument is out of range, and nothing is changed.
#[unsafe(no_mangle)]
pub extern "C" fn swaps_of_update(
    order: &mut [u8],
    queue: &[u64],
    events: &[f64],
    cells: u64,
    room: u64,
    cell: u64,
    empty: bool,
    time: f64,
) -> u64
    ensures order_after { order.new ≡ order_after (head_in events.now queue.now room) order.old cells room cell (head_given empty time) }
    ensures value { result ≡ swaps_told (head_in events.now queue.now room) order.old cells room cell (head_given empty time) }
{
    swaps::swaps_of_update(order, queue, events, cells, room, cell, empty, time)
}
