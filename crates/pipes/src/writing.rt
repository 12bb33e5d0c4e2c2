// Bytes on standard output.
ghost use Rattle.std.specs.Prelude.{length};
ghost use Rattle.pipes.specs.Writes.{Took, Grown, HandedOut, WrittenOut};

use std::io::{Stderr, Write};

// One write: how many of the first bytes it took. A failure is said on standard error, and a write that takes nothing too.
fn write_some<W: Write>(out: &mut W, said: Stderr, bytes: &[u8]) -> Option<usize>
    ensures took { Took bytes.now result }
    ensures grown { Grown (W.contents out.old) (W.contents out.new) bytes.now result }
{
    match out.write(bytes) {
        Ok(0) => {
            let _ = eprintln!(said; "standard output: nothing was taken");
            None
        }
        Ok(n) => Some(n),
        Err(e) => {
            let _ = eprintln!(said; "standard output: {e}");
            None
        }
    }
}

// All of the bytes, by as many writes as it takes: false at the first that takes nothing or fails.
pub fn hand_out<W: Write>(out: &mut W, said: Stderr, bytes: &[u8]) -> bool
    ensures handed_out { HandedOut bytes.now result }
    ensures written { WrittenOut (W.contents out.old) (W.contents out.new) bytes.now result }
{
    let mut rest = bytes;
    while !rest.is_empty() {
        let Some(n) = write_some(out, said, rest) else {
            return false;
        };
        rest = &rest[n..];
    }
    true
}
