// The answer, in the order of document 01: malformed, too large, refused or spent, or the listing.
ghost use Rattle.std.specs.Prelude.{◌≡◌, ◌≤◌};
ghost use Rattle.text.specs.Put.{Put};
ghost use Rattle.listing_text.specs.Columns.{most_kept};
ghost use Rattle.answers.specs.Read.{OfAnswer, answered};
ghost use Rattle.answers.specs.Runs.{box_read, how_ended, clock_at, spelt, served, judged};

use crate::{rows, runs};
use listing_text::{Answer, KEPT, Reader, put_answer, put_listing, too_large};
use model::{Domain, End, Report, StartError};
use myvec::MyVec;
use text::{NUMBERS, bits_of_float, float_of_bits};

// The box that was read.
fn box_of(numbers: &[u64; NUMBERS]) -> Domain
    ensures { result ≡ box_read numbers.now }
{
    let lengths = MyVec::new(float_of_bits(numbers[0]), float_of_bits(numbers[1]));
    Domain::new(lengths, numbers[2] == 1, numbers[3] == 1)
}

// The listing of n grains, or the line that says why there is none.
fn put_report(
    out: &mut [u8; 4096],
    served: Result<Report, StartError>,
    bits: &[u64; KEPT],
    n: usize,
) -> usize
    ensures { Put 0 (spelt (how_ended served) (clock_at served) n bits.now) out.old out.new result }
{
    match served {
        Ok(report) => match report.end {
            Ok(End::Synchronised) => put_listing(out, bits_of_float(report.clock), bits, n),
            Ok(End::Spent) => put_answer(out, Answer::Spent),
            Err(error) => put_answer(out, Answer::Refused(u64::from(error))),
        },
        Err(error) => put_answer(out, Answer::Refused(u64::from(error))),
    }
}

// The answer to n grains in a box.
fn put_served(
    out: &mut [u8; 4096],
    domain: Domain,
    rate: f64,
    grains: &[u64; KEPT],
    n: usize,
) -> usize
    requires { n ≤ most_kept }
    ensures { Put 0 (served domain rate grains.now n) out.old out.new result }
{
    let mut inputs = [0f64; KEPT];
    rows::floats(grains, &mut inputs);
    let mut bits = [0u64; KEPT];
    let served = runs::serve(domain, n, rate, &inputs, &mut bits);
    put_report(out, served, &bits, n)
}

// The answer to a text of the form, of the numbers that were read.
fn put_judged(out: &mut [u8; 4096], numbers: &[u64; NUMBERS], grains: &[u64; KEPT], n: u64) -> usize
    ensures { Put 0 (judged numbers.now grains.now n) out.old out.new result }
{
    let domain = box_of(numbers);
    if too_large(n, domain.lengths.x, domain.lengths.y) {
        return put_answer(out, Answer::TooLarge);
    }
    put_served(out, domain, float_of_bits(numbers[4]), grains, n as usize)
}

// The answer to the text that the reader was fed, written to the start of `out`; how many bytes it has. (The second promise is of any reader, fed or not.)
pub fn answer(reader: Reader, out: &mut [u8; 4096]) -> usize
    ensures of_answer { OfAnswer reader (λ a. Put 0 a out.old out.new result) }
    ensures put { Put 0 (answered reader) out.old out.new result }
{
    let whole = reader.closed();
    if !whole.fine() {
        return put_answer(out, Answer::Malformed);
    }
    put_judged(out, &whole.text.numbers, &whole.grains, whole.text.n)
}
