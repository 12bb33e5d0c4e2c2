// The grains' floats: position, velocity, time, value and radius of each; and those that it starts with, all but the time.
ghost use Rattle.std.specs.Prelude.{◌≡◌, ◌+◌, ◌*◌, ◌<◌, ◌≤◌, List, length, set, get_or};
ghost use Rattle.layout.specs.Widths.{grain_wide, input_wide};
ghost use Rattle.model.specs.declared.Particle.{Particle as Grain};
ghost use Rattle.model.specs.State.{zero_g};
ghost use Rattle.tables.specs.declared.Sizes.{Sizes as Counts};
ghost use Rattle.tables.specs.Layout.{grain_reals};
ghost use Rattle.tables.specs.Holds.{Grained};
ghost use Rattle.tables.specs.Inputs.{input_at};

use layout::GRAIN;
use model::Particle;
use myvec::MyVec;

// One grain, in a part of its own.
pub fn read_grain(s: &[f64]) -> Particle
    requires { length s.now ≡ grain_wide }
    ensures { (p : Grain) → s.now ≡ grain_reals p → result ≡ p }
{
    Particle {
        pos: MyVec { x: s[0], y: s[1] },
        vel: MyVec { x: s[2], y: s[3] },
        time: s[4],
        val: s[5],
        rad: s[6],
    }
}

pub fn write_grain(s: &mut [f64], p: Particle)
    requires { length s.old ≡ grain_wide }
    ensures { s.new ≡ grain_reals p }
{
    s[0] = p.pos.x;
    s[1] = p.pos.y;
    s[2] = p.vel.x;
    s[3] = p.vel.y;
    s[4] = p.time;
    s[5] = p.val;
    s[6] = p.rad;
}

// The first grain of the start numbers, at time 0.
pub fn read_input(inputs: &[f64]) -> Particle
    requires { input_wide ≤ length inputs.now }
    ensures { result ≡ input_at inputs.now }
{
    Particle {
        pos: MyVec {
            x: inputs[0],
            y: inputs[1],
        },
        vel: MyVec {
            x: inputs[2],
            y: inputs[3],
        },
        time: 0.0,
        val: inputs[4],
        rad: inputs[5],
    }
}

// Grain i of the table.
pub fn get_grain(t: &[f64], i: usize) -> Particle
    requires { (i < 256) × (i * grain_wide + grain_wide ≤ length t.now) }
    ensures { (z : Counts) (gs : List Grain) → Grained z t.now gs → result ≡ get_or gs i zero_g }
{
    let a = i * GRAIN;
    let b = a + GRAIN;
    read_grain(&t[a..b])
}

pub fn put_grain(t: &mut [f64], i: usize, p: Particle)
    requires { (i < 256) × (i * grain_wide + grain_wide ≤ length t.old) }
    ensures { (z : Counts) (gs : List Grain) → Grained z t.old gs → Grained z t.new (set gs i p) }
{
    let a = i * GRAIN;
    let b = a + GRAIN;
    write_grain(&mut t[a..b], p);
}
