// What a read means.
ghost use Rattle.std.specs.Prelude.{◌≡◌, length};
ghost use Rattle.std.specs.Io.KnownBytes.{ReadConsumes};
ghost use Rattle.pipes.specs.Counts.{Moved};
ghost use Rattle.pipes.specs.Reads.{read_by, heard_as};

use std::io::{Read, Stderr};

// A read failed. Its cause was said on standard error.
#[derive(Clone, Copy, Debug, PartialEq, Eq)]
pub struct ReadFailed;

// One read: how many bytes it gave, 0 where the input is over. A failure is said on standard error.
pub fn read_some<R: Read>(input: &mut R, said: Stderr, buf: &mut [u8]) -> Result<usize, ReadFailed>
    ensures moved { Moved (length buf.new) result }
    ensures consumed { ReadConsumes (R.remaining input.old) (R.remaining input.new) result buf.new }
{
    match input.read(buf) {
        Ok(n) => Ok(n),
        Err(e) => {
            let _ = eprintln!(said; "standard input: {e}");
            Err(ReadFailed)
        }
    }
}

// What a read gave that answered so and left the buffer so: the bytes at its front; none where the input is over.
pub fn hear(got: Result<usize, ReadFailed>, buf: &[u8]) -> Result<Option<&[u8]>, ReadFailed>
    ensures { heard_as result ≡ read_by got buf.now }
{
    match got? {
        0 => Ok(None),
        n => Ok(Some(&buf[..n.min(buf.len())])),
    }
}
