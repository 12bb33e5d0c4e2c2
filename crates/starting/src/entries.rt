// A grain enters cells one after another, up to the first that refuses it.
ghost use Rattle.halting.specs.Out.{each_of};
ghost use Rattle.model.specs.FromPToC.{between};
ghost use Rattle.model.specs.State.{State};
ghost use Rattle.model.specs.Acts.{enter as enterAct};
ghost use Rattle.model.specs.Refusals.{number_of};
ghost use Rattle.particle.specs.Spans.{cells_in};
ghost use Rattle.acts.specs.Tell.{InLists, ListsTold};
ghost use Rattle.starting.specs.Entries.{row_cells, grid_cells, Enters};

use acts::links;
use model::Halt;
use particle::{Span, Spans};
use step::World;

// The cells of row j in a span.
fn enter_span(lists: &mut [u64], w: World, grain: usize, j: usize, cells: Span) -> Result<(), Halt>
    requires { Enters w.sizes lists.old grain (row_cells w.grid.n0 (between cells.lo cells.hi) j) }
    ensures { (s : State) → InLists w.sizes lists.old s
        → ListsTold w.sizes lists.new (number_of result) (each_of (enterAct grain) (row_cells w.grid.n0 (between cells.lo cells.hi) j) s) }
{
    for i in cells.lo..cells.hi {
        links::enter(lists, w.sizes, grain, i + w.grid.n0 * j)?;
    }
    Ok(())
}

// The cells of row j in two spans.
fn enter_row(lists: &mut [u64], w: World, grain: usize, x: Spans, j: usize) -> Result<(), Halt>
    requires { Enters w.sizes lists.old grain (row_cells w.grid.n0 (cells_in x) j) }
    ensures { (s : State) → InLists w.sizes lists.old s
        → ListsTold w.sizes lists.new (number_of result) (each_of (enterAct grain) (row_cells w.grid.n0 (cells_in x) j) s) }
{
    enter_span(lists, w, grain, j, x.first)?;
    enter_span(lists, w, grain, j, x.second)
}

// The rows of a span.
fn enter_rows(lists: &mut [u64], w: World, grain: usize, x: Spans, rows: Span) -> Result<(), Halt>
    requires { Enters w.sizes lists.old grain (grid_cells w.grid.n0 (cells_in x) (between rows.lo rows.hi)) }
    ensures { (s : State) → InLists w.sizes lists.old s
        → ListsTold w.sizes lists.new (number_of result) (each_of (enterAct grain) (grid_cells w.grid.n0 (cells_in x) (between rows.lo rows.hi)) s) }
{
    for j in rows.lo..rows.hi {
        enter_row(lists, w, grain, x, j)?;
    }
    Ok(())
}

// The cells that a grain touches: the spans x in direction 0, y in direction 1.
pub(crate) fn enter_all(
    lists: &mut [u64],
    w: World,
    grain: usize,
    x: Spans,
    y: Spans,
) -> Result<(), Halt>
    requires { Enters w.sizes lists.old grain (grid_cells w.grid.n0 (cells_in x) (cells_in y)) }
    ensures { (s : State) → InLists w.sizes lists.old s
        → ListsTold w.sizes lists.new (number_of result) (each_of (enterAct grain) (grid_cells w.grid.n0 (cells_in x) (cells_in y)) s) }
{
    enter_rows(lists, w, grain, x, y.first)?;
    enter_rows(lists, w, grain, x, y.second)
}
