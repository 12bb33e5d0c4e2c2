// Tests of the grains.
ghost use Rattle.std.specs.Prelude.{◌≡◌, ◌*◌, ◌≤◌, length};
ghost use Rattle.layout.specs.Widths.{grain_wide};
ghost use Rattle.model.specs.Check.{all, timely};
ghost use Rattle.tables.specs.Decode.{grain_at, grains_of};

use layout::GRAIN;

// Are the numbers of a grain finite, and its time at most t?
fn timely(reals: &[f64], t: f64) -> bool
    requires { length reals.now ≡ grain_wide }
    ensures { result ≡ timely t (grain_at reals.now) }
{
    let p = tables::grains::read_grain(reals);
    particle::fine_grain(p) && p.time <= t
}

// The same for each of n grains.
pub fn settled(reals: &[f64], n: usize, t: f64) -> bool
    requires { n * grain_wide ≤ length reals.now }
    ensures { result ≡ all (timely t) (grains_of n reals.now) }
{
    reals[..n * GRAIN]
        .chunks_exact(GRAIN)
        .all(|grain| timely(grain, t))
}
