// How long the lent tables must be.
ghost use Rattle.std.specs.Prelude.{◌≡◌, ◌≤◌};
ghost use Rattle.tables.specs.Lengths.{lengths_for, long};

use crate::Sizes;

// For some counts; that of the heap is always the same.
#[derive(Clone, Copy)]
pub struct Lengths {
    pub lists: usize,
    pub grains: usize,
    pub queue: usize,
    pub events: usize,
}

pub fn needed(z: Sizes) -> Lengths
    requires { (z.grains ≤ 256) × (z.cells ≤ 256) × (z.room ≤ 256) }
    ensures { result ≡ lengths_for z }
{
    Lengths {
        lists: layout::LISTS_HEAD + z.grains * layout::HOME + z.cells * layout::MEMBERS,
        grains: layout::GRAINS_HEAD + z.grains * layout::GRAIN,
        queue: layout::queue_from(z.room, z.cells),
        events: layout::events_from(z.room, z.cells),
    }
}

// Are tables of these lengths long enough?
pub fn long(
    z: Sizes,
    lists: usize,
    grains: usize,
    queue: usize,
    events: usize,
    order: usize,
) -> bool
    requires { (z.grains ≤ 256) × (z.cells ≤ 256) × (z.room ≤ 256) }
    ensures { result ≡ long z lists grains queue events order }
{
    let need = needed(z);
    need.lists <= lists
        && need.grains <= grains
        && need.queue <= queue
        && need.events <= events
        && layout::ORDER <= order
}
