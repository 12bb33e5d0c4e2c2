// The answer, on standard output.
ghost use Rattle.pipes.specs.Writes.{HandedOut};
ghost use Rattle.answers.specs.Read.{OfAnswer, answered};

use crate::put::answer;
use listing_text::Reader;
use pipes::hand_out;
use std::io::{Stderr, Stdout};

// The text that the reader was fed is over: its answer is handed out, and whether all of it was taken. A write that fails is said on
// standard error.
pub fn write_answer(mut to: Stdout, said: Stderr, reader: Reader) -> bool
    ensures of_answer { OfAnswer reader (λ a. HandedOut a result) }
    ensures handed_out { HandedOut (answered reader) result }
{
    let mut out = [0u8; 4096];
    let n = answer(reader, &mut out);
    hand_out(&mut to, said, &out[..n])
}
