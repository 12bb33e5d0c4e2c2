// schedule_events, the five executions, one step, and init_events, over the lent tables behind their headers.
#![tactic(auto)]

ghost use Rattle.step.specs.Placed.{Placed};

mod execute; // execute.rt: the five executions, and one step
pub mod init; // init.rt: init_events
mod schedule; // schedule.rt: what is to happen in a cell

use cell::Grid;
pub use execute::step;
use model::{Domain, Halt};
use tables::Sizes;

// The tables' sizes, the box, its grid, and the clock.
#[derive(Clone, Copy)]
pub struct World {
    pub sizes: Sizes,
    pub domain: Domain,
    pub grid: Grid,
    pub clock: f64,
    ghost placed: { Placed sizes domain grid },
}

// What a step answers: what halted it, if anything did, and whether its event was a synchronisation.
#[derive(Clone, Copy, Debug, PartialEq, Eq)]
pub struct Stepped {
    pub done: Result<(), Halt>,
    pub sync: bool,
}
