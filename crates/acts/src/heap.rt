// The heap's update, in its table.
ghost use Rattle.std.specs.Prelude.{◌≡◌, ◌<◌, ◌≤◌, length};
ghost use Rattle.scheduler.specs.Heap.{updated, update_swaps};
ghost use Rattle.scheduler.specs.Inside.{head_in, heads_of};
ghost use Rattle.layout.specs.Widths.{order_wide};
ghost use Rattle.tables.specs.Layout.{order_bytes};
ghost use Rattle.tables.specs.Decode.{scheduler_of};
ghost use Rattle.acts.specs.Queues.{shifted_to};

use layout::HEAP;
use scheduler::head::{Head, Heads, is_earlier};
use tables::Sizes;

// Where the cell at a heap index goes first, read in place: that index where it stays.
fn shifted_to(heads: Heads, heap: &[u8], at: usize, later: bool) -> usize
    requires { at < 256 }
    ensures { result ≡ shifted_to (heads_of heads.entry) heap.now (length heap.now) at later }
{
    if later {
        heads.child(heap, at)
    } else {
        heads.parent(heap, at)
    }
}

// A cell's head went from `before` to what the tables have now: it finds its place again, by so many swaps. A shift that isn't needed moves no byte.
pub fn update(
    order: &mut [u8],
    queue: &[u64],
    events: &[f64],
    z: Sizes,
    cell: usize,
    before: Head,
) -> usize
    requires { (length order.old ≡ order_wide) × (z.cells ≤ 256) × (cell < 256) × (z.room ≤ 256) }
    ensures { (order.new ≡ order_bytes (updated (head_in events.now queue.now z.room) (scheduler_of z.cells order.old) cell before (head_in events.now queue.now z.room cell)))
        × (result ≡ update_swaps (head_in events.now queue.now z.room) (scheduler_of z.cells order.old) cell before (head_in events.now queue.now z.room cell)) }
{
    let heads = Heads {
        times: events,
        held: queue,
        room: z.room,
    };
    let after = heads.head(cell);
    let at = usize::from(order[HEAP + cell]);
    let to = shifted_to(heads, &order[..z.cells], at, is_earlier(before, after));
    if to == at {
        return 0;
    }
    let s = tables::heap::load(order, z.cells);
    let (scheduler, swaps) = s.update(heads, cell, before, after);
    tables::heap::store(order, scheduler);
    swaps
}
