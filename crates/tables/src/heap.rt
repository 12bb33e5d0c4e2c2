// The scheduler in its table: the heap's bytes, then the lookups'.
ghost use Rattle.std.specs.Prelude.{◌≡◌, length};
ghost use Rattle.layout.specs.Widths.{heap_wide, order_wide};
ghost use Rattle.tables.specs.Layout.{order_bytes};
ghost use Rattle.tables.specs.Decode.{scheduler_of};

use layout::{HEAP, ORDER};
use scheduler::Scheduler;

fn bytes(t: &[u8]) -> [u8; HEAP]
    requires { length t.now ≡ heap_wide }
    ensures { result ≡ t.now }
{
    let mut a = [0u8; HEAP];
    a.copy_from_slice(t);
    a
}

// The scheduler that a table holds.
pub fn load(order: &[u8], cells: usize) -> Scheduler
    requires { length order.now ≡ order_wide }
    ensures { result ≡ scheduler_of cells order.now }
{
    let heap = bytes(&order[0..HEAP]);
    let lookups = bytes(&order[HEAP..ORDER]);
    Scheduler {
        heap,
        lookups,
        cells,
    }
}

pub fn store(order: &mut [u8], s: Scheduler)
    requires { length order.old ≡ order_wide }
    ensures { order.new ≡ order_bytes s }
{
    order[0..HEAP].copy_from_slice(&s.heap);
    order[HEAP..ORDER].copy_from_slice(&s.lookups);
}
