// When a grain reflects at a wall in a direction, and what it then is.
ghost use Rattle.std.specs.Prelude.{◌≡◌, Ok};
ghost use Rattle.model.specs.Constants.{wall_of};
ghost use Rattle.model.specs.Walls.{wall};
ghost use Rattle.model.specs.Reports.{plan_told};
ghost use Rattle.cell.specs.Cell.{IsCell};
ghost use Rattle.event.specs.Course.{wall_val_in};

use crate::course::Course;
use cell::Cell;
use model::{Domain, Event, Particle, Pending};

// The value that the low or the high wall of a direction fixes: the same in every box and direction.
fn wall_of(domain: Domain, dim: usize, low: bool) -> f64
    ensures { result ≡ wall_of domain dim low }
{
    if low { 0.0 } else { 1.0 }
}

// The factor of wall plus old.
const WALL_FACTOR: f64 = 0.5;

// A grain's value after its reflection.
fn new_val(domain: Domain, dim: usize, course: Course, val: f64) -> f64
    ensures { result ≡ wall_val_in domain dim course val }
{
    WALL_FACTOR * (wall_of(domain, dim, course.vel < 0.0) + val)
}

pub fn schedule(
    domain: Domain,
    time: f64,
    cell: Cell,
    dim: usize,
    i: u64,
    p: Particle,
) -> Option<Pending>
    requires { IsCell domain cell }
    ensures { plan_told (Ok result) ≡ plan_told (wall dim domain time cell.index i p) }
{
    let course = Course::new(domain, cell, dim, p);
    let dt = course.reflection()?;
    Some(Pending {
        time: time + dt,
        event: Event::WallReflection {
            p: i,
            pos: particle::get_new_pos(domain, p.pos, p.vel, dt),
            vel: p.vel.bent(dim, -course.vel),
            val: new_val(domain, dim, course, p.val),
        },
    })
}
