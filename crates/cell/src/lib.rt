// Cells: how many there are in each direction, their indices, bounds, neighbours and positions, and the periodic correction that goes by a position.
#![tactic(auto)]

ghost use Rattle.std.specs.Prelude.{◌≡◌, ◌+◌, ◌-◌, ◌*◌, ◌%◌, ◌<◌, ◌≤◌, pos};
ghost use Rattle.std.specs.Float.Ieee as Ieee;
ghost use Rattle.std.specs.Float.{binary64};
ghost use Rattle.model.specs.Sizes.{length_ok, box_ok};
ghost use Rattle.model.specs.Sizes as sizes;
ghost use Rattle.model.specs.Grid.{cells_of};
ghost use Rattle.model.specs.Grid as model-grid;
ghost use Rattle.model.specs.Periodic.{corrected};
ghost use Rattle.model.specs.Periodic as correction;
ghost use Rattle.cell.specs.Cell.{grid_of, Laid, cell_of, cell_along, across_in, index_in, cell_in, beside_in, edge_of, position_of, along_in, IsCell};

use model::{CellPosition, Domain};
use myvec::MyVec;

// ---- numbers

// Rust's `x as usize`, for every x: 0 for a NaN and what is below 0, the largest number where x is past it.
pub fn cut(x: f64) -> usize
    ensures { result ≡ Ieee.to_unsigned 64 x }
{
    std::num::saturating_f64_to_usize(x)
}

// A small number as a float.
pub fn count(n: usize) -> f64
    requires { n ≤ 256 }
    ensures { result ≡ Ieee.of_int binary64 (pos n) }
{
    n as f64
}

// Whether a number lies in a range, ends included; a NaN lies in none.
pub fn within(low: f64, high: f64, x: f64) -> bool
    ensures { result ≡ sizes.within low high x }
{
    (low..=high).contains(&x)
}

// The shortest and the longest box length, both accepted.
const SHORTEST: f64 = 9.0;

const LONGEST: f64 = 48.0;

// Whether a box length is in range.
pub fn length_ok(length: f64) -> bool
    ensures { result ≡ length_ok length }
{
    within(SHORTEST, LONGEST, length)
}

// Whether both lengths are in range: refusal 1 where not.
pub fn box_ok(domain: Domain) -> bool
    ensures { result ≡ box_ok domain }
{
    length_ok(domain.lengths.x) && length_ok(domain.lengths.y)
}

// ---- the grid

// The fewest cells in a direction.
const FEWEST_ACROSS: usize = 3;

// Cells in a direction of this length.
pub fn cells(length: f64) -> usize
    ensures { result ≡ cells_of length }
{
    cut(length / Domain::CELL_SIZE).max(FEWEST_ACROSS)
}

// How many cells a box has in each direction.
#[derive(Clone, Copy, Debug, PartialEq, Eq)]
pub struct Grid {
    pub n0: usize,
    pub n1: usize,
}

impl Grid {
    #[tactic(auto, unfolding(model::specs::Grid::across))]
    pub fn new(domain: Domain) -> Self
        ensures { result ≡ grid_of domain }
    {
        Self {
            n0: cells(domain.lengths.x),
            n1: cells(domain.lengths.y),
        }
    }

    // Cells across in a direction.
    pub fn across(self, dim: usize) -> usize
        ensures { result ≡ across_in self dim }
    {
        if dim == 0 { self.n0 } else { self.n1 }
    }

    // How many cells the box has.
    pub fn cells(self) -> usize
        requires { (self.n0 ≤ 16) × (self.n1 ≤ 16) }
        ensures { result ≡ self.n0 * self.n1 }
    {
        self.n0 * self.n1
    }

    // A cell's index in a direction.
    pub fn index(self, dim: usize, cell: usize) -> usize
        requires { 0 < self.n0 }
        ensures { result ≡ index_in self dim cell }
    {
        if dim == 0 {
            cell % self.n0
        } else {
            cell / self.n0
        }
    }

    // The cell with these two indices.
    pub fn cell_at(self, i0: usize, i1: usize) -> usize
        requires { (self.n0 ≤ 16) × (i0 ≤ 256) × (i1 ≤ 256) }
        ensures { result ≡ cell_in self i0 i1 }
    {
        i0 + self.n0 * i1
    }

    // The cell that has another index in a direction.
    fn beside(self, dim: usize, cell: usize, index: usize) -> usize
        requires { (0 < self.n0) × (self.n0 ≤ 16) × (cell ≤ 256) × (index ≤ 256) }
        ensures { result ≡ beside_in self dim cell index }
    {
        if dim == 0 {
            self.cell_at(index, cell / self.n0)
        } else {
            self.cell_at(cell % self.n0, index)
        }
    }
}

// ---- the periodic correction

// A difference of positions brought to the nearer side.
fn nearer(dpos: f64, length: f64) -> f64
    ensures { result ≡ correction.nearer length dpos }
{
    if dpos < -length / 2.0 {
        dpos + length
    } else if length / 2.0 < dpos {
        dpos - length
    } else {
        dpos
    }
}

// The same in a cell at an edge; it ignores the periodicity flag.
pub fn correct_periodicity(dpos: f64, length: f64, position: CellPosition) -> f64
    ensures { result ≡ corrected length position dpos }
{
    match position {
        CellPosition::Centre => dpos,
        CellPosition::NegativeEdge | CellPosition::PositiveEdge => nearer(dpos, length),
    }
}

// ---- a cell

// The lower edge of the cell with this index among n cells of a length; at n the upper edge of the last.
pub fn edge(length: f64, n: usize, index: usize) -> f64
    requires { (n ≤ 256) × (index ≤ 256) }
    ensures { result ≡ edge_of length n index }
{
    length / count(n) * count(index)
}

// Where the cell with this index lies among n.
pub fn position(n: usize, index: usize) -> CellPosition
    requires { 0 < n }
    ensures { result ≡ position_of n index }
{
    if index == 0 {
        CellPosition::NegativeEdge
    } else if index == n - 1 {
        CellPosition::PositiveEdge
    } else {
        CellPosition::Centre
    }
}

// The indices below and above one of n, which wrap at both edges.
pub fn index_below(n: usize, index: usize) -> usize
    requires { index < n }
    ensures { result ≡ (index + (n - 1)) % n }
{
    if index == 0 { n - 1 } else { index - 1 }
}

pub fn index_above(n: usize, index: usize) -> usize
    requires { index < n }
    ensures { result ≡ (index + 1) % n }
{
    if index == n - 1 { 0 } else { index + 1 }
}

// What a cell is in one direction: its bounds, its position, and its neighbours.
#[derive(Clone, Copy)]
pub struct CellAlong {
    pub low: f64,
    pub high: f64,
    pub position: CellPosition,
    pub below: usize,
    pub above: usize,
}

impl CellAlong {
    pub fn new(domain: Domain, grid: Grid, dim: usize, cell: usize) -> Self
        requires { Laid domain grid × (cell < model-grid.cells domain) }
        ensures { result ≡ cell_along dim domain cell }
    {
        let n = grid.across(dim);
        let i = grid.index(dim, cell);
        let length = domain.lengths.along(dim);
        Self {
            low: edge(length, n, i),
            high: edge(length, n, i + 1),
            position: position(n, i),
            below: grid.beside(dim, cell, index_below(n, i)),
            above: grid.beside(dim, cell, index_above(n, i)),
        }
    }
}

// A cell: its index, and what it is in each direction.
#[derive(Clone, Copy)]
pub struct Cell {
    pub index: usize,
    pub x: CellAlong,
    pub y: CellAlong,
}

impl Cell {
    #[tactic(auto, unfolding(crate::specs::Cell::cell_of))]
    pub fn new(domain: Domain, grid: Grid, index: usize) -> Self
        requires { Laid domain grid × (index < model-grid.cells domain) }
        ensures { result ≡ cell_of domain index }
    {
        Self {
            index,
            x: CellAlong::new(domain, grid, 0, index),
            y: CellAlong::new(domain, grid, 1, index),
        }
    }

    // What the cell is in a direction.
    pub fn along(self, dim: usize) -> CellAlong
        ensures { result ≡ along_in self dim }
    {
        if dim == 0 { self.x } else { self.y }
    }

    // A difference of positions, corrected in each direction by the position of the cell.
    pub fn apart(self, domain: Domain, dpos: MyVec) -> MyVec
        requires { IsCell domain self }
        ensures { result ≡ correction.apart domain self.index dpos }
    {
        MyVec::new(
            correct_periodicity(dpos.x, domain.lengths.x, self.x.position),
            correct_periodicity(dpos.y, domain.lengths.y, self.y.position),
        )
    }
}
