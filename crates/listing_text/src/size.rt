// What the listing program does not serve.
ghost use Rattle.std.specs.Prelude.{◌≡◌};
ghost use Rattle.listing_text.specs.Size.{long_length, too_large};

use crate::columns::MOST;

// A length from 12 to 48. A NaN is none.
fn long_length(l: f64) -> bool
    ensures { result ≡ long_length l }
{
    12.0 <= l && l <= 48.0
}

// More grains than are kept, or a length from 12 to 48, whatever the other one is.
pub fn too_large(n: u64, l0: f64, l1: f64) -> bool
    ensures { result ≡ too_large n l0 l1 }
{
    n > MOST as u64 || long_length(l0) || long_length(l1)
}
