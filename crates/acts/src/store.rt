// The grains' numbers: storing them, and stepping one grain, those of a list or all to the clock.
ghost use Rattle.std.specs.Prelude.{ℕ, ◌<◌, length};
ghost use Rattle.halting.specs.Every.{All};
ghost use Rattle.halting.specs.Out.{each, each_of};
ghost use Rattle.model.specs.State.{State};
ghost use Rattle.model.specs.Acts.{store as storeAct};
ghost use Rattle.model.specs.Doing.{step_grain};
ghost use Rattle.model.specs.Refusals.{number_of};
ghost use Rattle.model.specs.Rows.{others};
ghost use Rattle.tables.specs.Holds.{Ranged};
ghost use Rattle.acts.specs.Tell.{At, InGrains, Grains, GrainsTold};

use model::{Domain, Halt, Particle};
use tables::Sizes;

// A grain gets new numbers, unless one is not finite: 5.
pub fn store(grains: &mut [f64], z: Sizes, g: usize, p: Particle) -> Result<(), Halt>
    requires { Grains z grains.old × Ranged z × (g < z.grains) }
    ensures { (s : State) → InGrains z grains.old s → GrainsTold z grains.new (number_of result) (storeAct g p s) }
{
    if !particle::fine_grain(p) {
        return Err(Halt::NotFinite);
    }
    tables::grains::put_grain(grains, g, p);
    Ok(())
}

// A grain steps to the clock.
pub fn step_grain(
    grains: &mut [f64],
    z: Sizes,
    domain: Domain,
    clock: f64,
    g: usize,
) -> Result<(), Halt>
    requires { Grains z grains.old × Ranged z × (g < z.grains) }
    ensures { (s : State) → InGrains z grains.old s → At domain clock s → GrainsTold z grains.new (number_of result) (step_grain g s) }
{
    let p = tables::grains::get_grain(grains, g);
    store(grains, z, g, particle::stepped(domain, clock, p))
}

// All grains of a list but p step to the clock.
pub fn step_others(
    grains: &mut [f64],
    z: Sizes,
    domain: Domain,
    clock: f64,
    list: &[u64],
    p: u64,
) -> Result<(), Halt>
    requires { Grains z grains.old × Ranged z × All (λ (g : ℕ). g < z.grains) list.now }
    ensures { (s : State) → InGrains z grains.old s → At domain clock s
        → GrainsTold z grains.new (number_of result) (each_of step_grain (others p list.now) s) }
{
    for &g in list {
        if g != p {
            step_grain(grains, z, domain, clock, g as usize)?;
        }
    }
    Ok(())
}

// All grains step to the clock, in index order.
pub fn step_all(grains: &mut [f64], z: Sizes, domain: Domain, clock: f64) -> Result<(), Halt>
    requires { Grains z grains.old × Ranged z }
    ensures { (s : State) → InGrains z grains.old s → At domain clock s
        → GrainsTold z grains.new (number_of result) (each step_grain (length s.grains) 0 s) }
{
    for g in 0..z.grains {
        step_grain(grains, z, domain, clock, g)?;
    }
    Ok(())
}
