// The counts of check 2: how many grains, cells and events a cell there may be.
ghost use Rattle.std.specs.Prelude.{◌≡◌};
ghost use Rattle.model.specs.Sizes.{counts_ok, cells_ok};
ghost use Rattle.checks.specs.Check.{ranged};

use tables::Sizes;

// Document 01's sizes.
const MOST_GRAINS: u64 = 256;

const LEAST_ROOM: u64 = 16;

const MOST_ROOM: u64 = 256;

const FEWEST_CELLS: usize = 9;

const MOST_CELLS: usize = 256;

// Are the counts of grains and of events a cell in range?
pub fn counts_ok(grains: u64, room: u64) -> bool
    ensures { result ≡ counts_ok room grains }
{
    grains <= MOST_GRAINS && LEAST_ROOM <= room && room <= MOST_ROOM
}

// Is a count of cells in range?
fn cells_ok(cells: usize) -> bool
    ensures { result ≡ cells_ok cells }
{
    FEWEST_CELLS <= cells && cells <= MOST_CELLS
}

// Are the counts of some tables in range?
pub(crate) fn ranged(z: Sizes) -> bool
    ensures { result ≡ ranged z }
{
    counts_ok(z.grains as u64, z.room as u64) && cells_ok(z.cells)
}
