// When a grain enters the neighbour of a cell that it moves to in a direction.
ghost use Rattle.std.specs.Prelude.{◌≡◌, Ok};
ghost use Rattle.model.specs.Moves.{to_neighbour};
ghost use Rattle.model.specs.Reports.{plan_told};
ghost use Rattle.cell.specs.Cell.{IsCell};

use crate::course::Course;
use cell::Cell;
use model::{Domain, Event, Particle, Pending};

pub fn schedule(
    domain: Domain,
    time: f64,
    cell: Cell,
    dim: usize,
    i: u64,
    p: Particle,
) -> Option<Pending>
    requires { IsCell domain cell }
    ensures { plan_told (Ok result) ≡ plan_told (to_neighbour dim domain time cell.index i p) }
{
    let course = Course::new(domain, cell, dim, p);
    let dt = course.crossing(course.rad)?;
    Some(Pending {
        time: time + dt,
        event: Event::MoveToNeighbour {
            p: i,
            pos: particle::get_new_pos(domain, p.pos, p.vel, dt),
            cell: course.aside() as u64,
        },
    })
}
