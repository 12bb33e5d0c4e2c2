// The headers: of lists the mark, the counts of grains, cells and event places, and two flags; of grains the box's lengths and the clock. No other file has their places.
ghost use Rattle.std.specs.Prelude.{◌≡◌, ◌≤◌, length};
ghost use Rattle.layout.specs.Widths.{lists_head_wide, grains_head_wide};
ghost use Rattle.tables.specs.Decode.{mark as markIn, sizes_of, box_in, clock_in, flags_fine};
ghost use Rattle.tables.specs.Encode.{lists_head, grains_head, over, with_mark, with_clock};

use crate::Sizes;
use model::Domain;
use myvec::MyVec;

// ---- read

pub fn mark(lists: &[u64]) -> u64
    requires { lists_head_wide ≤ length lists.now }
    ensures { result ≡ markIn lists.now }
{
    lists[0]
}

pub fn sizes_of(lists: &[u64]) -> Sizes
    requires { lists_head_wide ≤ length lists.now }
    ensures { result ≡ sizes_of lists.now }
{
    Sizes {
        grains: lists[1] as usize,
        cells: lists[2] as usize,
        room: lists[3] as usize,
    }
}

// Is each flag 0 or 1?
pub fn flags_fine(lists: &[u64]) -> bool
    requires { lists_head_wide ≤ length lists.now }
    ensures { result ≡ flags_fine lists.now }
{
    lists[4] <= 1 && lists[5] <= 1
}

pub fn domain_of(lists: &[u64], grains: &[f64]) -> Domain
    requires { (lists_head_wide ≤ length lists.now) × (grains_head_wide ≤ length grains.now) }
    ensures { result ≡ box_in lists.now grains.now }
{
    Domain {
        lengths: MyVec {
            x: grains[0],
            y: grains[1],
        },
        periodic0: lists[4] == 1,
        periodic1: lists[5] == 1,
    }
}

pub fn clock(grains: &[f64]) -> f64
    requires { grains_head_wide ≤ length grains.now }
    ensures { result ≡ clock_in grains.now }
{
    grains[2]
}

// ---- written

pub fn put_lists_head(lists: &mut [u64], mark: u64, z: Sizes, domain: Domain)
    requires { lists_head_wide ≤ length lists.old }
    ensures { lists.new ≡ over (lists_head mark z domain) lists.old }
{
    lists[0] = mark;
    lists[1] = z.grains as u64;
    lists[2] = z.cells as u64;
    lists[3] = z.room as u64;
    lists[4] = u64::from(domain.periodic0);
    lists[5] = u64::from(domain.periodic1);
}

pub fn put_grains_head(grains: &mut [f64], domain: Domain, clock: f64)
    requires { grains_head_wide ≤ length grains.old }
    ensures { grains.new ≡ over (grains_head domain clock) grains.old }
{
    grains[0] = domain.lengths.x;
    grains[1] = domain.lengths.y;
    grains[2] = clock;
}

pub fn set_mark(lists: &mut [u64], mark: u64)
    requires { lists_head_wide ≤ length lists.old }
    ensures { lists.new ≡ with_mark mark lists.old }
{
    lists[0] = mark;
}

pub fn set_clock(grains: &mut [f64], clock: f64)
    requires { grains_head_wide ≤ length grains.old }
    ensures { grains.new ≡ with_clock clock grains.old }
{
    grains[2] = clock;
}
