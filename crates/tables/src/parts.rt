// Where each row stands in its table, behind the header.
ghost use Rattle.std.specs.Prelude.{◌≡◌, ◌≤◌};
ghost use Rattle.tables.specs.Parts.{home_part, member_part, queue_part, events_part};

use crate::Sizes;
use layout::{HOME, MEMBERS};

// A part of a table: from a place to before a place.
#[derive(Clone, Copy)]
pub struct Part {
    pub from: usize,
    pub to: usize,
}

// A grain's row of cells, and a cell's row of grains.
pub fn home_part(grain: usize) -> Part
    requires { grain ≤ 256 }
    ensures { result ≡ home_part grain }
{
    let from = layout::home_from(grain);
    Part {
        from,
        to: from + HOME,
    }
}

pub fn member_part(z: Sizes, cell: usize) -> Part
    requires { (z.grains ≤ 256) × (cell ≤ 256) }
    ensures { result ≡ member_part z cell }
{
    let from = layout::members_from(z.grains, cell);
    Part {
        from,
        to: from + MEMBERS,
    }
}

// A cell's row of events: its count and numbers, and its floats.
pub fn queue_part(z: Sizes, cell: usize) -> Part
    requires { (z.room ≤ 256) × (cell ≤ 256) }
    ensures { result ≡ queue_part z cell }
{
    let from = layout::queue_from(z.room, cell);
    Part {
        from,
        to: from + layout::queue_wide(z.room),
    }
}

pub fn events_part(z: Sizes, cell: usize) -> Part
    requires { (z.room ≤ 256) × (cell ≤ 256) }
    ensures { result ≡ events_part z cell }
{
    let from = layout::events_from(z.room, cell);
    Part {
        from,
        to: from + layout::events_wide(z.room),
    }
}
