// Upper-case hexadecimal digits, and floats by their bits.
ghost use Rattle.std.specs.Prelude.{◌≡◌, ◌<◌, SomeIff};
ghost use Rattle.std.specs.Float.{binary64};
ghost use Rattle.std.specs.Float.Ieee.{of_bits, to_bits};
ghost use Rattle.text.specs.Numerals.{glyph, hex_val};

use std::num::{f64_from_bits_with_nan, f64_to_bits_with_nan};

// The value of a digit, and of no other byte.
pub fn hex_value(b: u8) -> Option<u64>
    ensures { SomeIff result (hex_val b < 16) (hex_val b) }
{
    match b {
        b'0'..=b'9' => Some(u64::from(b - b'0')),
        b'A'..=b'F' => Some(u64::from(b - b'A') + 10),
        _ => None,
    }
}

// A digit's byte.
pub(crate) fn hex_glyph(d: u64) -> u8
    requires { d < 16 }
    ensures { result ≡ glyph d }
{
    if d < 10 {
        b'0' + d as u8
    } else {
        b'A' + (d - 10) as u8
    }
}

// A bit pattern's float; a NaN for the pattern of any NaN.
pub fn float_of_bits(b: u64) -> f64
    ensures { result ≡ of_bits binary64 b }
{
    f64_from_bits_with_nan(b)
}

// A float's bit pattern; one of a NaN's for any NaN.
pub fn bits_of_float(x: f64) -> u64
    ensures { result ≡ to_bits binary64 x }
{
    f64_to_bits_with_nan(x)
}
