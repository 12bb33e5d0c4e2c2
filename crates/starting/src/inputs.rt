// The start numbers of the grains: position, velocity, value and radius of each.
ghost use Rattle.std.specs.Prelude.{◌≡◌, ◌*◌, ◌<◌, ◌≤◌, length, get_or, MatchOption};
ghost use Rattle.layout.specs.Widths.{input_wide};
ghost use Rattle.model.specs.Sizes.{first_bad};
ghost use Rattle.model.specs.State.{zero_g};
ghost use Rattle.tables.specs.Inputs.{inputs_of};

use layout::INPUT;
use model::{Domain, Particle};
use tables::grains::read_input;

// Grain i of n.
pub(crate) fn get_input(inputs: &[f64], n: usize, i: usize) -> Particle
    requires { (n * input_wide ≤ length inputs.now) × (i < n) }
    ensures { result ≡ get_or (inputs_of n inputs.now) i zero_g }
{
    read_input(&inputs[i * INPUT..])
}

// The lowest of n grains whose numbers are out of range.
pub fn first_bad(domain: Domain, inputs: &[f64], n: usize) -> Option<usize>
    requires { n * input_wide ≤ length inputs.now }
    ensures { MatchOption result (first_bad domain (inputs_of n inputs.now) ≡ n) (λ i. (first_bad domain (inputs_of n inputs.now) ≡ i) × (i < n)) }
{
    (0..n).find(|&i| !particle::grain_ok(domain, get_input(inputs, n, i)))
}
