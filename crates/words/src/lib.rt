// Words of 64 bits on standard input, each 16 upper-case hexadecimal digits and one byte behind them; and the line that a comparison writes.
#![tactic(auto)]

ghost use Rattle.std.specs.Prelude.{◌≤◌, length};

use std::io::{Read, Stdin, Stdout};
use text::hex_value;

// What stands on standard input is no word: it is cut off, or one of its digits is none.
#[derive(Clone, Copy, Debug, PartialEq, Eq)]
pub struct BadWord;

// The word that 16 digits spell.
fn spelled(digits: &[u8]) -> Option<u64> {
    let mut word = 0u64;
    for &b in digits {
        word = (word << 4) + hex_value(b)?;
    }
    Some(word)
}

// Reads until the buffer is full, the input ends or a read fails; how many bytes came.
fn read_full(mut input: Stdin, buf: &mut [u8]) -> usize
    ensures { result ≤ length buf.new }
{
    let mut done = 0;
    while done < buf.len() {
        match input.read(&mut buf[done..]) {
            Ok(n) if n > 0 => done += n,
            _ => break,
        }
    }
    done
}

// The next word, where the input has not ended.
pub fn read(input: Stdin) -> Result<Option<u64>, BadWord> {
    let mut text = [0u8; 17];
    match read_full(input, &mut text) {
        0 => Ok(None),
        17 => spelled(&text[..16]).map(Some).ok_or(BadWord),
        _ => Err(BadWord),
    }
}

// The next word, where there is one and it is good.
pub fn next(input: Stdin) -> Option<u64> {
    read(input).ok().flatten()
}

// Fills a table with the next words, up to the first that is none.
pub fn fill(input: Stdin, t: &mut [u64]) -> Option<()> {
    for place in t {
        *place = next(input)?;
    }
    Some(())
}

// The next words, up to the first that is none.
pub fn array<const N: usize>(input: Stdin) -> Option<[u64; N]> {
    let mut words = [0; N];
    fill(input, &mut words)?;
    Some(words)
}

// One line: how many were compared, of what, and how many differ.
pub fn report(out: Stdout, compared: u64, what: &str, differ: u64) {
    let _ = print!(out; "{compared} ");
    let _ = print!(out; "{what}");
    let _ = println!(out; ", {differ} differ");
}
