// How wide everything in the lent tables is, and where each part begins: no other crate has these numbers.
#![tactic(auto)]

ghost use Rattle.std.specs.Prelude.{◌≡◌, ◌≤◌};
ghost use Rattle.layout.specs.Widths.{queue_wide, events_wide, queue_from, events_from, home_from, members_from};

// The headers of the table of lists and of that of grains.
pub const LISTS_HEAD: usize = 6;

pub const GRAINS_HEAD: usize = 3;

// A grain's floats, and those that it starts with.
pub const GRAIN: usize = 7;

pub const INPUT: usize = 6;

// A row begins with its count, and its places follow.
pub const COUNT: usize = 0;

pub const PLACES: usize = 1;

// The places for a grain's cells and for a cell's grains, and each row with its count.
pub const HOME_ROOM: usize = 8;

pub const MEMBER_ROOM: usize = 32;

pub const HOME: usize = HOME_ROOM + PLACES;

pub const MEMBERS: usize = MEMBER_ROOM + PLACES;

// An event's numbers and floats.
pub const PLACE_NUMS: usize = 4;

pub const PLACE_REALS: usize = 10;

// The heap's bytes, and those of the heap with its lookups.
pub const HEAP: usize = 256;

pub const ORDER: usize = 2 * HEAP;

// A row of events: its count and its places' numbers, and their floats.
pub fn queue_wide(room: usize) -> usize
    requires { room ≤ 256 }
    ensures { result ≡ queue_wide room }
{
    room * PLACE_NUMS + PLACES
}

pub fn events_wide(room: usize) -> usize
    requires { room ≤ 256 }
    ensures { result ≡ events_wide room }
{
    room * PLACE_REALS
}

// Where a cell's row of events begins, which is where that of the cell before it ends.
pub fn queue_from(room: usize, cell: usize) -> usize
    requires { (room ≤ 256) × (cell ≤ 256) }
    ensures { result ≡ queue_from room cell }
{
    cell * queue_wide(room)
}

pub fn events_from(room: usize, cell: usize) -> usize
    requires { (room ≤ 256) × (cell ≤ 256) }
    ensures { result ≡ events_from room cell }
{
    cell * events_wide(room)
}

// Where a grain's row of cells begins behind the header, and a cell's row of grains behind those of all grains.
pub fn home_from(grain: usize) -> usize
    requires { grain ≤ 256 }
    ensures { result ≡ home_from grain }
{
    grain * HOME
}

pub fn members_from(grains: usize, cell: usize) -> usize
    requires { (grains ≤ 256) × (cell ≤ 256) }
    ensures { result ≡ members_from grains cell }
{
    grains * HOME + cell * MEMBERS
}
