// init_events: the events that a start schedules, cell by cell.
ghost use Rattle.std.specs.Prelude.{ℕ, ◌<◌};
ghost use Rattle.halting.specs.Out.{each, each_of};
ghost use Rattle.halting.specs.Every.{All};
ghost use Rattle.model.specs.Doing.{boundaries, pairs as pairsIn, sync_in, init_cell};
ghost use Rattle.model.specs.Refusals.{number_of};
ghost use Rattle.acts.specs.Tell.{IsReady, InQueues, SameTables};
ghost use Rattle.step.specs.World.{Celled, Seen, Held, Some, Does};

use crate::{World, schedule};
use acts::links;
use acts::queue::Queues;
use cell::Cell;
use model::Halt;
use tables::Sizes;

// The first synchronisation, in cell 0.
fn sync_in(queues: &mut Queues, z: Sizes, cell: usize) -> Result<(), Halt>
    requires { IsReady z queues.old × (cell < z.cells) }
    ensures same { SameTables queues.old queues.new }
    ensures does { Does (InQueues z queues.old) (InQueues z queues.new) (number_of result) (sync_in cell) }
{
    if cell != 0 {
        return Ok(());
    }
    queues.insert(
        z,
        0,
        tables::places::place_of(event::synchronisation::schedule(0.0)),
    )
}

// The collisions of each of a list with those after it.
fn pairs(
    list: &[u64],
    grains: &[f64],
    queues: &mut Queues,
    w: World,
    cell: Cell,
) -> Result<(), Halt>
    requires { Some (Seen w grains.now queues.old) × Celled w cell × All (λ (q : ℕ). q < w.sizes.grains) list.now }
    ensures same { SameTables queues.old queues.new }
    ensures does { Does (Seen w grains.now queues.old) (Seen w grains.now queues.new) (number_of result) (pairsIn cell.index list.now) }
{
    for (i, &p) in list.iter().enumerate() {
        schedule::schedule_collisions(&list[i + 1..], grains, queues, w, cell, p as usize)?;
    }
    Ok(())
}

// What each of a list does at the cell's bounds.
fn bounds_each(
    list: &[u64],
    grains: &[f64],
    queues: &mut Queues,
    w: World,
    cell: Cell,
) -> Result<(), Halt>
    requires { Some (Seen w grains.now queues.old) × Celled w cell × All (λ (q : ℕ). q < w.sizes.grains) list.now }
    ensures same { SameTables queues.old queues.new }
    ensures does { Does (Seen w grains.now queues.old) (Seen w grains.now queues.new) (number_of result) (each_of (λ p. boundaries cell.index p) list.now) }
{
    for &p in list {
        schedule::schedule_bounds(grains, queues, w, cell, p as usize)?;
    }
    Ok(())
}

// In one cell.
pub fn init_cell(
    lists: &[u64],
    grains: &[f64],
    queues: &mut Queues,
    w: World,
    cell: usize,
) -> Result<(), Halt>
    requires { Some (Held w lists.now grains.now queues.old) × (cell < w.sizes.cells) }
    ensures same { SameTables queues.old queues.new }
    ensures does { Does (Held w lists.now grains.now queues.old) (Held w lists.now grains.now queues.new) (number_of result) (init_cell cell) }
{
    sync_in(queues, w.sizes, cell)?;
    let members = links::members_of(lists, w.sizes, cell);
    let cell = Cell::new(w.domain, w.grid, cell);
    pairs(members, grains, queues, w, cell)?;
    bounds_each(members, grains, queues, w, cell)
}

// In all cells.
pub fn init_events(lists: &[u64], grains: &[f64], queues: &mut Queues, w: World) -> Result<(), Halt>
    requires { Some (Held w lists.now grains.now queues.old) }
    ensures same { SameTables queues.old queues.new }
    ensures does { Does (Held w lists.now grains.now queues.old) (Held w lists.now grains.now queues.new) (number_of result) (each init_cell w.sizes.cells 0) }
{
    for cell in 0..w.sizes.cells {
        init_cell(lists, grains, queues, w, cell)?;
    }
    Ok(())
}
