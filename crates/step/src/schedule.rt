// What is to happen in a cell: a grain's events there, as event.rs schedules them.
ghost use Rattle.std.specs.Prelude.{◌≡◌, ℕ, ◌<◌, Ok};
ghost use Rattle.halting.specs.Out.{then, each, each_of};
ghost use Rattle.halting.specs.Every.{All};
ghost use Rattle.cell.specs.Cell.{IsCell};
ghost use Rattle.model.specs.Doing.{schedule_collision, schedule_by, boundaries, schedule_events, again as againIn};
ghost use Rattle.model.specs.Refusals.{number_of};
ghost use Rattle.model.specs.Reports.{plan_told};
ghost use Rattle.model.specs.Rows.{finder, others};
ghost use Rattle.acts.specs.Tell.{SameTables};
ghost use Rattle.step.specs.World.{Celled, Seen, Held, Some, Does};

use crate::World;
use acts::queue::Queues;
use acts::{links, store};
use cell::Cell;
use model::{Bound, Halt, Particle, Pending};
use tables::grains::get_grain;

// The collision of two grains.
fn schedule_collision(
    grains: &[f64],
    queues: &mut Queues,
    w: World,
    cell: Cell,
    p: usize,
    q: usize,
) -> Result<(), Halt>
    requires { Some (Seen w grains.now queues.old) × Celled w cell × (p < w.sizes.grains) × (q < w.sizes.grains) }
    ensures same { SameTables queues.old queues.new }
    ensures does { Does (Seen w grains.now queues.old) (Seen w grains.now queues.new) (number_of result) (schedule_collision cell.index p q) }
{
    let a = get_grain(grains, p);
    let b = get_grain(grains, q);
    let plan = event::inter_particle_collision::schedule(
        w.domain, w.clock, cell, p as u64, q as u64, a, b,
    );
    queues.put(w.sizes, cell.index, plan)
}

// The collisions of a grain with each of a list.
pub fn schedule_collisions(
    list: &[u64],
    grains: &[f64],
    queues: &mut Queues,
    w: World,
    cell: Cell,
    p: usize,
) -> Result<(), Halt>
    requires { Some (Seen w grains.now queues.old) × Celled w cell × (p < w.sizes.grains) × All (λ (q : ℕ). q < w.sizes.grains) list.now }
    ensures same { SameTables queues.old queues.new }
    ensures does { Does (Seen w grains.now queues.old) (Seen w grains.now queues.new) (number_of result) (each_of (schedule_collision cell.index p) list.now) }
{
    for &q in list {
        schedule_collision(grains, queues, w, cell, p, q as usize)?;
    }
    Ok(())
}

// What a grain does at one of a cell's bounds in a direction.
fn plan_bound(kind: Bound, dim: usize, w: World, cell: Cell, i: u64, p: Particle) -> Option<Pending>
    requires { IsCell w.domain cell }
    ensures { plan_told (Ok result) ≡ plan_told (finder kind dim w.domain w.clock cell.index i p) }
{
    match kind {
        Bound::ToNeighbour => event::move_to_neighbour::schedule(
            w.domain, w.clock, cell, dim, i, p,
        ),
        Bound::OutOfCell => event::move_out_of_cell::schedule(w.domain, w.clock, cell, dim, i, p),
        Bound::Wall => event::wall_reflection::schedule(w.domain, w.clock, cell, dim, i, p),
    }
}

// One kind of these in both directions.
fn schedule_bound(
    grains: &[f64],
    queues: &mut Queues,
    w: World,
    cell: Cell,
    p: usize,
    kind: Bound,
) -> Result<(), Halt>
    requires { Some (Seen w grains.now queues.old) × Celled w cell × (p < w.sizes.grains) }
    ensures same { SameTables queues.old queues.new }
    ensures does { Does (Seen w grains.now queues.old) (Seen w grains.now queues.new) (number_of result) (each (schedule_by (finder kind) cell.index p) 2 0) }
{
    let a = get_grain(grains, p);
    for dim in 0..2 {
        let plan = plan_bound(kind, dim, w, cell, p as u64, a);
        queues.put(w.sizes, cell.index, Ok(plan))?;
    }
    Ok(())
}

// All kinds.
pub fn schedule_bounds(
    grains: &[f64],
    queues: &mut Queues,
    w: World,
    cell: Cell,
    p: usize,
) -> Result<(), Halt>
    requires { Some (Seen w grains.now queues.old) × Celled w cell × (p < w.sizes.grains) }
    ensures same { SameTables queues.old queues.new }
    ensures does { Does (Seen w grains.now queues.old) (Seen w grains.now queues.new) (number_of result) (boundaries cell.index p) }
{
    for kind in [Bound::ToNeighbour, Bound::OutOfCell, Bound::Wall] {
        schedule_bound(grains, queues, w, cell, p, kind)?;
    }
    Ok(())
}

// A grain's events in a cell that lists these grains, all of them stepped to the clock.
fn schedule_stepped(
    list: &[u64],
    grains: &[f64],
    queues: &mut Queues,
    w: World,
    cell: Cell,
    p: usize,
) -> Result<(), Halt>
    requires { Some (Seen w grains.now queues.old) × Celled w cell × (p < w.sizes.grains) × All (λ (q : ℕ). q < w.sizes.grains) list.now }
    ensures same { SameTables queues.old queues.new }
    ensures does { Does (Seen w grains.now queues.old) (Seen w grains.now queues.new) (number_of result)
        (λ s. then (each_of (schedule_collision cell.index p) (others p list.now) s) (boundaries cell.index p)) }
{
    for &q in list {
        if q != p as u64 {
            schedule_collision(grains, queues, w, cell, p, q as usize)?;
        }
    }
    schedule_bounds(grains, queues, w, cell, p)
}

// A grain's events in a cell: the others there step to the clock, then what is to happen is found.
pub fn schedule_events(
    lists: &[u64],
    grains: &mut [f64],
    queues: &mut Queues,
    w: World,
    p: usize,
    cell: usize,
) -> Result<(), Halt>
    requires { Some (Held w lists.now grains.old queues.old) × (p < w.sizes.grains) × (cell < w.sizes.cells) }
    ensures same { SameTables queues.old queues.new }
    ensures does { Does (Held w lists.now grains.old queues.old) (Held w lists.now grains.new queues.new) (number_of result) (schedule_events p cell) }
{
    let members = links::members_of(lists, w.sizes, cell);
    store::step_others(grains, w.sizes, w.domain, w.clock, members, p as u64)?;
    let cell = Cell::new(w.domain, w.grid, cell);
    schedule_stepped(members, grains, queues, w, cell, p)
}

// In each cell that lists the grain.
pub fn again(
    lists: &[u64],
    grains: &mut [f64],
    queues: &mut Queues,
    w: World,
    p: usize,
) -> Result<(), Halt>
    requires { Some (Held w lists.now grains.old queues.old) × (p < w.sizes.grains) }
    ensures same { SameTables queues.old queues.new }
    ensures does { Does (Held w lists.now grains.old queues.old) (Held w lists.now grains.new queues.new) (number_of result) (againIn p) }
{
    for &cell in links::cells_of(lists, w.sizes, p) {
        schedule_events(lists, grains, queues, w, p, cell as usize)?;
    }
    Ok(())
}
