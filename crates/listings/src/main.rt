// Answers many texts, those that the oracle writes (tools/vectors). On standard input a byte 0 ends each text, a byte 1 stands for a thousand lines
// of one grain, and any other byte for itself. The answers follow one another on standard output.
#![tactic(auto)]

use answers::write_answer;
use listing_text::{Reader, feed_all, start};
use pipes::{hear, read_some};
use std::io::{Stderr, Stdout};

// A thousand lines of a still grain.
fn feed_lines(reader: Reader) -> Reader {
    let mut state = reader;
    for _ in 0..1000u64 {
        state = feed_all(
            state,
            b"4012000000000000,4012000000000000,0000000000000000,0000000000000000,3FE0000000000000,3FE0000000000000\r\n",
        );
    }
    state
}

// One byte.
fn take(out: Stdout, said: Stderr, reader: Reader, b: u8) -> Reader {
    match b {
        0 => {
            write_answer(out, said, reader);
            start()
        }
        1 => feed_lines(reader),
        _ => reader.feed(b),
    }
}

// A part of the input.
fn take_all(out: Stdout, said: Stderr, reader: Reader, s: &[u8]) -> Reader {
    let mut state = reader;
    for &b in s {
        state = take(out, said, state, b);
    }
    state
}

fn main(rt: HostRuntime) {
    let mut input = rt.stdin();
    let said = rt.stderr();
    let mut state = start();
    for _ in 0..u64::MAX {
        let mut buf = [0; 4096];
        let got = read_some(&mut input, said, &mut buf);
        let Ok(Some(s)) = hear(got, &buf) else {
            break;
        };
        state = take_all(rt.stdout(), said, state, s);
    }
}
