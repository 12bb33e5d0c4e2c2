// The lines that the listing program writes, put into a buffer.
ghost use Rattle.std.specs.Prelude.{◌≡◌, [], ◌∷◌, map, ◌+◌, ◌*◌, ◌<◌, ◌≤◌, length};
ghost use Rattle.text.specs.Bytes.{bytes};
ghost use Rattle.text.specs.Numerals.{hex, decimal};
ghost use Rattle.text.specs.Lines.{line, field_wide};
ghost use Rattle.text.specs.Put.{Put, Puts};
ghost use Rattle.listing_text.specs.Columns.{columns, listing_line_wide};
ghost use Rattle.listing_text.specs.Answers.{listing_line, answer_of};
ghost use Rattle.listing_text.specs.Rows.{first_grain, rows_listing};

use crate::columns::{COLUMNS, KEPT, MOST};
use text::Writer;

// An answer of one line.
#[derive(Clone, Copy)]
pub enum Answer {
    Malformed,
    TooLarge,
    Refused(u64),
    Spent,
}

impl Answer {
    ghost use Rattle.listing_text.specs.Answers.{answer_of};

    // Its line.
    fn put(self, writer: &mut Writer)
        requires { writer.old.at + 30 ≤ length writer.old.out.now }
        ensures { Puts (answer_of self) writer.old writer.new }
    {
        match self {
            Answer::Malformed => writer.bytes(b"malformed\r\n"),
            Answer::TooLarge => writer.bytes(b"too large\r\n"),
            Answer::Refused(number) => {
                writer.bytes(b"refused,");
                writer.decimal(number);
                writer.bytes(b"\r\n");
            }
            Answer::Spent => writer.bytes(b"spent\r\n"),
        }
    }
}

// A line of numbers.
fn put_numbers(writer: &mut Writer, numbers: &[u64])
    requires room { writer.old.at + (length numbers.now * field_wide + 1) ≤ length writer.old.out.now }
    requires some { 0 < length numbers.now }
    ensures { Puts (line (map hex numbers.now)) writer.old writer.new }
{
    let last = numbers.len() - 1;
    for &number in &numbers[..last] {
        writer.field(number, b',');
    }
    writer.field(numbers[last], b'\r');
    writer.byte(b'\n');
}

// The listing's line for the grain with the index i, of its numbers.
fn put_line(writer: &mut Writer, time: u64, i: usize, row: &[u64])
    requires room { writer.old.at + listing_line_wide ≤ length writer.old.out.now }
    requires whole { length row.now ≡ columns }
    requires index { i < 1000 }
    ensures { Puts (listing_line time i (first_grain row.now)) writer.old writer.new }
{
    writer.field(time, b',');
    writer.decimal(i as u64);
    writer.byte(b',');
    put_numbers(writer, row);
}

// The listing of the first n rows, with its header; nothing for more rows than are kept.
pub fn put_listing(out: &mut [u8; 4096], time: u64, numbers: &[u64; KEPT], n: usize) -> usize
    ensures { Put 0 (rows_listing time n numbers.now) out.old out.new result }
{
    if n > MOST {
        return 0;
    }
    let mut writer = Writer::new(out);
    writer.bytes(b"time,index,x,y,vx,vy,val,rad\r\n");
    for i in 0..n {
        put_line(
            &mut writer,
            time,
            i,
            &numbers[i * COLUMNS..(i + 1) * COLUMNS],
        );
    }
    writer.at
}

// An answer of one line.
pub fn put_answer(out: &mut [u8; 4096], answer: Answer) -> usize
    ensures { Put 0 (answer_of answer) out.old out.new result }
{
    let mut writer = Writer::new(out);
    answer.put(&mut writer);
    writer.at
}
