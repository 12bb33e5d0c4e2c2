// Replays starts and the runs behind them, and shows all that they leave; the oracle says what that is (tools/vectors). Standard input has
// the number of starts, and then for each, in words:
//
//   the lengths of the five tables lent, and of the inputs; l0 l1 p0 p1 count room; the inputs
//   1 rate budget times      so many runs one after another
//   2 table place word       a place of a table, 0 to 4, is overwritten
//   3                        every place that is not zero is shown
//   0                        the end
//
// A start and each run write a line: the answer, and a checksum of every place of the tables lent. The tables are not cleared in between.
#![tactic(auto)]

ghost use Rattle.std.specs.Prelude.{◌<◌, ◌≤◌};

use model::{Domain, End, Report, StartError};
use myvec::MyVec;
use std::io::{Stdin, Stdout};
use text::{bits_of_float, float_of_bits};

// ---- what is read

// What a place of a table holds, by its bits.
trait Word: Copy {
    fn of_bits(bits: u64) -> Self;

    fn bits(self) -> u64;
}

impl Word for u64 {
    fn of_bits(bits: u64) -> u64 {
        bits
    }

    fn bits(self) -> u64 {
        self
    }
}

impl Word for f64 {
    fn of_bits(bits: u64) -> f64 {
        float_of_bits(bits)
    }

    fn bits(self) -> u64 {
        bits_of_float(self)
    }
}

impl Word for u8 {
    fn of_bits(bits: u64) -> u8 {
        (bits % 256) as u8
    }

    fn bits(self) -> u64 {
        u64::from(self)
    }
}

// The next word. What is none counts as the largest.
fn next<T: Word>(input: Stdin) -> T {
    T::of_bits(words::next(input).unwrap_or(u64::MAX))
}

// The next word as a length, at most as much as there is.
fn next_length(input: Stdin, most: usize) -> usize
    ensures { result ≤ most }
{
    let n: u64 = next(input);
    most.min(n as usize)
}

fn next_domain(input: Stdin) -> Domain {
    let x = next(input);
    let y = next(input);
    let periodic0 = next::<u64>(input) == 1;
    let periodic1 = next::<u64>(input) == 1;
    Domain::new(MyVec::new(x, y), periodic0, periodic1)
}

// ---- what is written

// A number, behind a space.
fn number(out: Stdout, n: u64) {
    let _ = print!(out; " {n:x}");
}

// A name, and the number that stands beside it.
fn named(out: Stdout, name: &str, n: u64) {
    let _ = print!(out; "{name}");
    number(out, n);
}

fn end_line(out: Stdout) {
    let _ = println!(out; "");
}

// One half of a word goes into a checksum: a multiplication with carry, which is a polynomial of the halves modulo the prime 67108794·2^32 - 1.
fn mixed(sum: u64, half: u64) -> u64
    requires { half < 4294967296 }
{
    sum % 4294967296 * 67108794 + sum / 4294967296 + half
}

// The places of a table go into the checksum, one after another. If they are shown, then those that are not zero, behind the table's name.
fn summed<T: Word>(out: Stdout, name: &str, t: &[T], show: bool, first: u64) -> u64 {
    if show {
        let _ = println!(out; "{name}");
    }
    let mut sum = first;
    for (place, &x) in t.iter().enumerate() {
        let bits = x.bits();
        if show && bits != 0 {
            number(out, place as u64);
            number(out, bits);
            end_line(out);
        }
        sum = mixed(mixed(sum, bits % 4294967296), bits / 4294967296);
    }
    sum
}

fn answer_start(out: Stdout, started: Result<(), StartError>) {
    match started {
        Ok(()) => {
            let _ = print!(out; "accepted");
        }
        Err(StartError::BadGrain(grain)) => named(out, "grain", grain),
        Err(StartError::Halted(halt)) => named(out, "halted", u64::from(halt)),
        Err(error) => named(out, "refused", u64::from(error)),
    }
}

fn answer_run(out: Stdout, report: Report) {
    match report.end {
        Ok(End::Synchronised) => {
            let _ = print!(out; "synchronised");
        }
        Ok(End::Spent) => {
            let _ = print!(out; "spent");
        }
        Err(error) => named(out, "refused", u64::from(error)),
    }
    number(out, bits_of_float(report.clock));
    number(out, report.events);
}

// ---- the tables

fn put<T: Word>(t: &mut [T], place: usize, bits: u64) {
    if let Some(x) = t.get_mut(place) {
        *x = T::of_bits(bits);
    }
}

#[derive(Drop)]
struct Tables<'a> {
    lists: &'a mut [u64],
    grains: &'a mut [f64],
    queue: &'a mut [u64],
    events: &'a mut [f64],
    order: &'a mut [u8],
}

impl Tables<'_> {
    // The checksum ends a line; where the tables are shown, they stand before it.
    fn close(&self, out: Stdout, show: bool) {
        let a = summed(out, "lists", self.lists, show, 1);
        let b = summed(out, "grains", self.grains, show, a);
        let c = summed(out, "queue", self.queue, show, b);
        let d = summed(out, "events", self.events, show, c);
        let e = summed(out, "order", self.order, show, d);
        if show {
            let _ = print!(out; "all");
        }
        number(out, e);
        end_line(out);
    }

    // A place of one of them is overwritten, if it is there.
    fn put(&mut self, table: u64, place: usize, bits: u64) {
        match table {
            0 => put(self.lists, place, bits),
            1 => put(self.grains, place, bits),
            2 => put(self.queue, place, bits),
            3 => put(self.events, place, bits),
            _ => put(self.order, place, bits),
        }
    }

    fn run(&mut self, rate: f64, budget: u32) -> Report {
        simulator::run::run(
            self.lists,
            self.grains,
            self.queue,
            self.events,
            self.order,
            rate,
            budget,
        )
    }

    fn start(
        &mut self,
        domain: Domain,
        count: u64,
        room: u64,
        inputs: &[f64],
    ) -> Result<(), StartError> {
        simulator::start::start(
            domain,
            count,
            room,
            inputs,
            self.lists,
            self.grains,
            self.queue,
            self.events,
            self.order,
        )
    }
}

// ---- the commands

fn runs(input: Stdin, out: Stdout, tables: &mut Tables<'_>) {
    let rate = next(input);
    let budget = next::<u64>(input) % 4294967296;
    let times = next::<u64>(input) % 65536;
    for _ in 0..times {
        answer_run(out, tables.run(rate, budget as u32));
        tables.close(out, false);
    }
}

fn overwrite(input: Stdin, tables: &mut Tables<'_>) {
    let table = next(input);
    let place: u64 = next(input);
    let bits = next(input);
    tables.put(table, place as usize, bits);
}

fn commands(input: Stdin, out: Stdout, tables: &mut Tables<'_>) {
    for _ in 0..100000u64 {
        match next::<u64>(input) {
            1 => runs(input, out, tables),
            2 => overwrite(input, tables),
            3 => tables.close(out, true),
            _ => break,
        }
    }
}

fn start(input: Stdin, out: Stdout, inputs: &mut [f64], tables: &mut Tables<'_>) {
    let domain = next_domain(input);
    let count = next(input);
    let room = next(input);
    for x in inputs.iter_mut() {
        *x = next(input);
    }
    answer_start(out, tables.start(domain, count, room, inputs));
    tables.close(out, false);
}

// A start and the commands behind it, over the first places of each table.
fn replay(
    input: Stdin,
    out: Stdout,
    inputs: &mut [f64],
    lists: &mut [u64],
    grains: &mut [f64],
    queue: &mut [u64],
    events: &mut [f64],
    order: &mut [u8],
) {
    let a = next_length(input, lists.len());
    let b = next_length(input, grains.len());
    let c = next_length(input, queue.len());
    let d = next_length(input, events.len());
    let e = next_length(input, order.len());
    let n = next_length(input, inputs.len());
    let mut tables = Tables {
        lists: &mut lists[..a],
        grains: &mut grains[..b],
        queue: &mut queue[..c],
        events: &mut events[..d],
        order: &mut order[..e],
    };
    start(input, out, &mut inputs[..n], &mut tables);
    commands(input, out, &mut tables);
}

fn main(rt: HostRuntime) {
    let input = rt.stdin();
    let out = rt.stdout();
    let mut inputs = [0.0; 1560];
    let mut lists = [0; 10768];
    let mut grains = [0.0; 2048];
    let mut queue = [0; 33040];
    let mut events = [0.0; 81936];
    let mut order = [0; 520];
    let starts = next::<u64>(input) % 1000;
    for _ in 0..starts {
        replay(
            input,
            out,
            &mut inputs,
            &mut lists,
            &mut grains,
            &mut queue,
            &mut events,
            &mut order,
        );
    }
}
