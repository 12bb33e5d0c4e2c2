// Compares the square root with a second program's answers (tools/roots): a line of standard input has a float's bits and its root's,
// a NaN's for a root that is refused. Writes how many were compared, and how many differ.
#![tactic(auto)]

use std::io::Stdin;
use text::{bits_of_float, float_of_bits};
use words::BadWord;

// Whether the square root of x's float has the bits y; it is refused where they are a NaN's.
fn agrees(x: u64, y: u64) -> bool {
    match root::square_root(float_of_bits(x)) {
        Some(v) => !v.is_nan() && bits_of_float(v) == y,
        None => float_of_bits(y).is_nan(),
    }
}

// Whether the next line has a float's root, where the input has not ended; one that is cut off has not.
fn next(input: Stdin) -> Option<bool> {
    match words::read(input) {
        Ok(Some(x)) => Some(words::next(input).is_some_and(|y| agrees(x, y))),
        Ok(None) => None,
        Err(BadWord) => Some(false),
    }
}

fn main(rt: HostRuntime) {
    let input = rt.stdin();
    let mut compared = 0u64;
    let mut differ = 0u64;
    for _ in 0..1000000u64 {
        let Some(same) = next(input) else {
            break;
        };
        compared += 1;
        if !same {
            differ += 1;
        }
    }
    words::report(rt.stdout(), compared, "roots", differ);
}
