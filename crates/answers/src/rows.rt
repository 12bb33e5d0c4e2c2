// The grains' numbers: from the bits that were read to the floats that a start takes, and from a table's floats to the bits that are listed.
ghost use Rattle.std.specs.Prelude.{◌≡◌, ◌++◌, map, ◌+◌, ◌*◌, ◌≤◌, length, drop};
ghost use Rattle.chunks.specs.Flat.{flat};
ghost use Rattle.layout.specs.Widths.{grains_head_wide, grain_wide};
ghost use Rattle.tables.specs.Decode.{grain_at, grains_of, grains_part};
ghost use Rattle.listing_text.specs.Columns.{columns};
ghost use Rattle.listing_text.specs.Grammar.{columns_of};
ghost use Rattle.answers.specs.Answer.{float, shown_grain};

use layout::{GRAIN, GRAINS_HEAD};
use listing_text::COLUMNS;
use tables::grains::read_grain;
use text::{bits_of_float, float_of_bits};

// The floats of some bits.
pub(crate) fn floats(bits: &[u64], out: &mut [f64])
    requires { length bits.now ≡ length out.old }
    ensures { out.new ≡ map float bits.now }
{
    for (i, &b) in bits.iter().enumerate() {
        out[i] = float_of_bits(b);
    }
}

// The numbers of a table's first grain, as bits: its time is left out.
fn show_one(grains: &[f64], bits: &mut [u64])
    requires { (grain_wide ≤ length grains.now) × (columns ≤ length bits.old) }
    ensures { bits.new ≡ columns_of (shown_grain (grain_at grains.now)) ++ drop columns bits.old }
{
    let p = read_grain(&grains[0..GRAIN]);
    bits[0] = bits_of_float(p.pos.x);
    bits[1] = bits_of_float(p.pos.y);
    bits[2] = bits_of_float(p.vel.x);
    bits[3] = bits_of_float(p.vel.y);
    bits[4] = bits_of_float(p.val);
    bits[5] = bits_of_float(p.rad);
}

// Those of the first n grains.
fn show_rows(grains: &[f64], n: usize, bits: &mut [u64])
    requires { (n * grain_wide ≤ length grains.now) × (n * columns ≤ length bits.old) }
    ensures { bits.new ≡ flat columns_of (map shown_grain (grains_of n grains.now)) ++ drop (n * columns) bits.old }
{
    for i in 0..n {
        show_one(&grains[i * GRAIN..], &mut bits[i * COLUMNS..]);
    }
}

// The same of a table with its header.
pub(crate) fn show(grains: &[f64], n: usize, bits: &mut [u64])
    requires { (grains_head_wide + n * grain_wide ≤ length grains.now) × (n * columns ≤ length bits.old) }
    ensures { bits.new ≡ flat columns_of (map shown_grain (grains_of n (grains_part grains.now))) ++ drop (n * columns) bits.old }
{
    show_rows(&grains[GRAINS_HEAD..], n, bits);
}
