// A grain in one direction of a cell: what the moves and the walls ask.
ghost use Rattle.std.specs.Prelude.{◌≡◌};
ghost use Rattle.cell.specs.Cell.{IsCell};
ghost use Rattle.event.specs.Course.{course_of, edge_in, shut_in, no_wall_in, gap_in, dt_in, ahead, crossing_in, reflection_in, aside_in};

use cell::{Cell, CellAlong};
use model::{CellPosition, Domain, Particle};

#[derive(Clone, Copy)]
pub struct Course {
    pub periodic: bool,
    pub length: f64,
    pub pos: f64,
    pub vel: f64,
    pub rad: f64,
    pub cell: CellAlong,
}

impl Course {
    pub fn new(domain: Domain, cell: Cell, dim: usize, p: Particle) -> Self
        requires { IsCell domain cell }
        ensures { result ≡ course_of dim domain cell.index p }
    {
        Self {
            periodic: domain.periodic(dim),
            length: domain.lengths.along(dim),
            pos: p.pos.along(dim),
            vel: p.vel.along(dim),
            rad: p.rad,
            cell: cell.along(dim),
        }
    }

    // Whether the side that it moves to is an edge of the box.
    fn at_edge(self) -> bool
        ensures { result ≡ edge_in self }
    {
        match self.cell.position {
            CellPosition::NegativeEdge => self.vel < 0.0,
            CellPosition::Centre => false,
            CellPosition::PositiveEdge => !(self.vel < 0.0),
        }
    }

    // Whether it moves to no other cell: it is still, or at an edge that is not periodic.
    fn shut(self) -> bool
        ensures { result ≡ shut_in self }
    {
        self.vel == 0.0 || !self.periodic && self.at_edge()
    }

    // Whether there is no wall that it moves to: the direction is periodic, it is still, or in no edge cell on that side.
    fn no_wall(self) -> bool
        ensures { result ≡ no_wall_in self }
    {
        self.periodic || self.vel == 0.0 || !self.at_edge()
    }

    // How far it is to where it touches the bound that it moves to from inside; with rad negated, from outside.
    fn gap(self, rad: f64) -> f64
        ensures { result ≡ gap_in self rad }
    {
        if self.vel < 0.0 {
            self.cell.low + rad - self.pos
        } else {
            self.cell.high - rad - self.pos
        }
    }

    // The time to get there, by the nearer way round.
    fn dt(self, rad: f64) -> f64
        ensures { result ≡ dt_in self rad }
    {
        cell::correct_periodicity(self.gap(rad), self.length, self.cell.position) / self.vel
    }

    // The time until it is there, if it moves to another cell and that lies ahead.
    pub fn crossing(self, rad: f64) -> Option<f64>
        ensures { result ≡ crossing_in self rad }
    {
        if self.shut() {
            return None;
        }
        ahead(self.dt(rad))
    }

    // The time until it touches the wall that it moves to, if there is one and that lies ahead.
    pub fn reflection(self) -> Option<f64>
        ensures { result ≡ reflection_in self }
    {
        if self.no_wall() {
            return None;
        }
        ahead(self.gap(self.rad) / self.vel)
    }

    // The neighbour that it moves to.
    pub fn aside(self) -> usize
        ensures { result ≡ aside_in self }
    {
        if self.vel < 0.0 {
            self.cell.below
        } else {
            self.cell.above
        }
    }
}

// A time that lies ahead: none that is not above 0.
fn ahead(dt: f64) -> Option<f64>
    ensures { result ≡ ahead dt }
{
    if dt <= 0.0 { None } else { Some(dt) }
}
