// The listing program: reads a text from standard input and writes its answer to standard output. A read or a write that fails is said on
// standard error; after a failed read there is no answer.
#![tactic(auto)]

ghost use Rattle.std.specs.Prelude.{[], ◌∷◌, ◌≡◌};
ghost use Rattle.pipes.specs.Reads.{read_by};
ghost use Rattle.listing_text.specs.Reading.{start_of};
ghost use Rattle.listing.specs.Turns.{turn_of, Turned, most_reads, Responded};

use answers::write_answer;
use listing_text::{Reader, feed_all, start};
use pipes::{ReadFailed, hear};
use std::io::{Stderr, Stdin, Stdout};

// What has been read: more may follow, the text is over, or a read failed.
#[derive(Clone, Copy)]
enum Turn {
    Reading(Reader),
    Ended(Reader),
    Failed(Reader),
}

// Nothing was read.
fn opened() -> Turn
    ensures { result ≡ turn_of start_of [] }
{
    Turn::Reading(start())
}

// What a read makes of the reader, by what it gave back and the buffer that it left.
fn took(reader: Reader, got: Result<usize, ReadFailed>, buf: &[u8]) -> Turn
    ensures { result ≡ turn_of reader (read_by got buf.now ∷ []) }
{
    match hear(got, buf) {
        Ok(Some(s)) => Turn::Reading(feed_all(reader, s)),
        Ok(None) => Turn::Ended(reader),
        Err(ReadFailed) => Turn::Failed(reader),
    }
}

// Reads once.
fn read_some(mut input: Stdin, said: Stderr, reader: Reader) -> Turn
    ensures { Turned 1 reader result }
{
    let mut buf = [0; 4096];
    let got = pipes::read_some(&mut input, said, &mut buf);
    took(reader, got, &buf)
}

// Reads to the end. (Nothing says that an input ends, and a proved loop does: it makes at most more reads than any run uses up.)
fn read_all(input: Stdin, said: Stderr) -> Turn
    ensures { Turned most_reads start_of result }
{
    let mut turn = opened();
    for _ in 0..u64::MAX {
        let Turn::Reading(reader) = turn else {
            break;
        };
        turn = read_some(input, said, reader);
    }
    turn
}

// Reads to the end and hands out the answer; whether all of it was taken.
fn respond(input: Stdin, out: Stdout, said: Stderr) -> bool
    ensures { Responded result }
{
    match read_all(input, said) {
        Turn::Ended(reader) => write_answer(out, said, reader),
        _ => false,
    }
}

fn main(rt: HostRuntime) {
    respond(rt.stdin(), rt.stdout(), rt.stderr());
}
