// Every place of the lent tables becomes 0, and then their headers and the heap are written.
ghost use Rattle.std.specs.Prelude.{◌≡◌, ◌≤◌, length};
ghost use Rattle.layout.specs.Widths.{lists_head_wide, grains_head_wide, order_wide};
ghost use Rattle.tables.specs.Decode.{tables};
ghost use Rattle.starting.specs.Cleared.{headed};

use layout::ORDER;
use model::Domain;
use scheduler::Scheduler;
use tables::{Sizes, headers};

// All places 0, but the counts, the box, and the cells numbered in the heap and in the lookups.
pub(crate) fn clear(
    lists: &mut [u64],
    grains: &mut [f64],
    queue: &mut [u64],
    events: &mut [f64],
    order: &mut [u8],
    z: Sizes,
    domain: Domain,
)
    requires { (lists_head_wide ≤ length lists.old) × (grains_head_wide ≤ length grains.old) × (order_wide ≤ length order.old) × (z.cells ≤ 256) }
    ensures { tables lists.new grains.new queue.new events.new order.new
        ≡ headed z domain (tables lists.old grains.old queue.old events.old order.old) }
{
    lists.fill(0);
    headers::put_lists_head(lists, 0, z, domain);
    grains.fill(0.0);
    headers::put_grains_head(grains, domain, 0.0);
    queue.fill(0);
    events.fill(0.0);
    order.fill(0);
    tables::heap::store(&mut order[..ORDER], Scheduler::new(z.cells));
}
