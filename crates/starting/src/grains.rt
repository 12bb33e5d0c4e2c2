// Grains go in one after another, each with its start numbers at time 0, and then into its cells.
ghost use Rattle.std.specs.Prelude.{◌<◌};
ghost use Rattle.halting.specs.Out.{each};
ghost use Rattle.model.specs.State.{State};
ghost use Rattle.model.specs.Doing.{goes_in};
ghost use Rattle.model.specs.Refusals.{number_of};
ghost use Rattle.tables.specs.Inputs.{inputs_of};
ghost use Rattle.starting.specs.Grains.{InBoth, BothTold, Going};

use crate::{entries, inputs};
use model::Halt;
use step::World;

// Grain i.
fn goes_in(
    inputs: &[f64],
    lists: &mut [u64],
    grains: &mut [f64],
    w: World,
    i: usize,
) -> Result<(), Halt>
    requires { Going w inputs.now lists.old grains.old × (i < w.sizes.grains) }
    ensures { (s : State) → InBoth w lists.old grains.old s
        → BothTold w lists.new grains.new (number_of result) (goes_in (inputs_of w.sizes.grains inputs.now) i s) }
{
    let p = inputs::get_input(inputs, w.sizes.grains, i);
    acts::store::store(grains, w.sizes, i, p)?;
    let x = particle::touched(w.domain.lengths.x, w.grid.n0, p.rad, p.pos.x);
    let y = particle::touched(w.domain.lengths.y, w.grid.n1, p.rad, p.pos.y);
    entries::enter_all(lists, w, i, x, y)
}

// All of them.
pub(crate) fn go_in(
    inputs: &[f64],
    lists: &mut [u64],
    grains: &mut [f64],
    w: World,
) -> Result<(), Halt>
    requires { Going w inputs.now lists.old grains.old }
    ensures { (s : State) → InBoth w lists.old grains.old s
        → BothTold w lists.new grains.new (number_of result) (each (goes_in (inputs_of w.sizes.grains inputs.now)) w.sizes.grains 0 s) }
{
    for i in 0..w.sizes.grains {
        goes_in(inputs, lists, grains, w, i)?;
    }
    Ok(())
}
