// The types of document 01 that code and definitions share: the box, a grain, a pending event, the place that holds one, and the answers.
#![tactic(auto)]

ghost use Rattle.std.specs.Prelude.{◌≡◌};
ghost use Rattle.model.specs.Grid.{box_of, periodic};
ghost use Rattle.model.specs.Stepping.{grain_of, landed};

mod refusal;

use myvec::MyVec;
pub use refusal::{Halt, NoHalt, RootRefused, RunError, StartError};

// The box: its lengths, and in which directions it is periodic.
#[derive(Clone, Copy)]
pub struct Domain {
    pub lengths: MyVec,
    pub periodic0: bool,
    pub periodic1: bool,
}

impl Domain {
    // The size that cells have at least.
    pub const CELL_SIZE: f64 = 3.0;

    pub fn new(lengths: MyVec, periodic0: bool, periodic1: bool) -> Self
        ensures { result ≡ box_of lengths periodic0 periodic1 }
    {
        Self {
            lengths,
            periodic0,
            periodic1,
        }
    }

    // Whether it is periodic in a direction, 0 or 1.
    pub fn periodic(self, dim: usize) -> bool
        ensures { result ≡ periodic dim self }
    {
        if dim == 0 {
            self.periodic0
        } else {
            self.periodic1
        }
    }
}

// A grain: where it was, how fast, at what time, its value, and its radius, which it keeps for life.
#[derive(Clone, Copy)]
pub struct Particle {
    pub pos: MyVec,
    pub vel: MyVec,
    pub time: f64,
    pub val: f64,
    pub rad: f64,
}

impl Particle {
    // The radii that a grain may bring.
    pub const LEAST_RADIUS: f64 = 0.25;

    pub const GREATEST_RADIUS: f64 = 0.5;

    pub fn new(pos: MyVec, vel: MyVec, time: f64, val: f64, rad: f64) -> Self
        ensures { result ≡ grain_of pos vel time val rad }
    {
        Self {
            pos,
            vel,
            time,
            val,
            rad,
        }
    }

    // The same grain at another place and time.
    pub fn landed(self, pos: MyVec, time: f64) -> Self
        ensures { result ≡ landed pos time self }
    {
        Self { pos, time, ..self }
    }
}

// Where a cell lies in a direction.
#[derive(Clone, Copy, Debug, PartialEq, Eq)]
pub enum CellPosition {
    NegativeEdge,
    Centre,
    PositiveEdge,
}

// What is to happen, with the grains that it names and the floats that its kind needs.
#[derive(Clone, Copy)]
pub enum Event {
    InterParticleCollision {
        p: u64,
        q: u64,
        p_pos: MyVec,
        q_pos: MyVec,
        p_vel: MyVec,
        q_vel: MyVec,
        val: f64,
    },
    MoveToNeighbour {
        p: u64,
        pos: MyVec,
        cell: u64,
    },
    MoveOutOfCell {
        p: u64,
        pos: MyVec,
        cell: u64,
    },
    WallReflection {
        p: u64,
        pos: MyVec,
        vel: MyVec,
        val: f64,
    },
    Synchronisation,
}

impl Event {
    // How much of the approaching speed a collision gives back.
    pub const RESTITUTION: f64 = 0.99;
}

// An event and when it happens.
#[derive(Clone, Copy)]
pub struct Pending {
    pub time: f64,
    pub event: Event,
}

// What a place of the tables holds: four numbers and ten floats.
#[derive(Clone, Copy)]
pub struct Place {
    pub kind: u64,
    pub p: u64,
    pub q: u64,
    pub cell: u64,
    pub time: f64,
    pub a: MyVec,
    pub b: MyVec,
    pub c: MyVec,
    pub d: MyVec,
    pub val: f64,
}

// What can happen to a grain at a cell's bounds.
#[derive(Clone, Copy, Debug, PartialEq, Eq)]
pub enum Bound {
    ToNeighbour,
    OutOfCell,
    Wall,
}

// When two grains touch: never, after a time, or the root is refused.
pub type Contact = Result<Option<f64>, RootRefused>;

// What the scheduling of one kind finds: no event, one that is due, or a refused root.
pub type Plan = Result<Option<Pending>, RootRefused>;

// How a run ends that is not refused.
#[derive(Clone, Copy, Debug, PartialEq, Eq)]
pub enum End {
    Synchronised,
    // The budget is spent.
    Spent,
}

// What a run answers: how it ended, or why it did not, the clock, and the events done.
#[derive(Clone, Copy)]
pub struct Report {
    pub end: Result<End, RunError>,
    pub clock: f64,
    pub events: u64,
}
