// Texts of numbers: digits, fields and lines written into a buffer, and any text that a plan shows read byte by byte.
#![tactic(auto)]

mod hex;
mod reader;
mod writer;

pub use hex::{bits_of_float, float_of_bits, hex_value};
pub use reader::{NUMBERS, Reader, TextPlan, start};
pub use writer::Writer;
