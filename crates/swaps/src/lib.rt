// One update of the heap in tables that a caller lends, and its swaps: for the benchmark, which hands in each update that a run makes. Public to nobody.
#![tactic(auto)]

ghost use Rattle.std.specs.Prelude.{◌≡◌};
ghost use Rattle.scheduler.specs.Inside.{head_in};
ghost use Rattle.swaps.specs.Asked.{in_range, head_given, order_after, swaps_told};

use layout::ORDER;
use scheduler::head::Head;
use tables::Sizes;

// What is told where there was no update: no update makes so many swaps.
const REFUSED: u64 = 256;

// How many cells there may be, and how many events a cell may hold.
const MOST_CELLS: u64 = 256;

const MOST_ROOM: u64 = 256;

fn in_range(order: usize, cells: u64, room: u64, cell: u64) -> bool
    ensures { result ≡ in_range order cells room cell }
{
    order == ORDER && cells <= MOST_CELLS && room <= MOST_ROOM && cell < MOST_CELLS
}

fn head_given(empty: bool, time: f64) -> Head
    ensures { result ≡ head_given empty time }
{
    (!empty).then_some(time)
}

// The cell's head went from empty, or from a time, to what the tables have now: its update's swaps. `REFUSED`: an argument is out of range, and nothing is changed.
#[unsafe(no_mangle)]
pub extern "C" fn swaps_of_update(
    order: &mut [u8],
    queue: &[u64],
    events: &[f64],
    cells: u64,
    room: u64,
    cell: u64,
    empty: bool,
    time: f64,
) -> u64
    ensures order_after { order.new ≡ order_after (head_in events.now queue.now room) order.old cells room cell (head_given empty time) }
    ensures value { result ≡ swaps_told (head_in events.now queue.now room) order.old cells room cell (head_given empty time) }
{
    if !in_range(order.len(), cells, room, cell) {
        return REFUSED;
    }
    let z = Sizes {
        grains: 0,
        cells: cells as usize,
        room: room as usize,
    };
    let before = head_given(empty, time);
    acts::heap::update(order, queue, events, z, cell as usize, before) as u64
}
