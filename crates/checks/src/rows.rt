// Tests of rows of numbers, each a count and then its places, one row after another.
ghost use Rattle.std.specs.Prelude.{◌≡◌, ◌*◌, ◌≤◌, ◌<◌, ◌&&◌, ℕ, ltb, length, get_or, take, drop};
ghost use Rattle.layout.specs.Widths.{count_at, places_at, home_room, member_room, row_wide};
ghost use Rattle.model.specs.State.{has, live_at, none};
ghost use Rattle.model.specs.Check.{all, walk, once, numbers, back_row, housed, linked};
ghost use Rattle.checks.specs.Check.{counts_within};
ghost use Rattle.checks.specs.Inside.{Rowed};

use layout::{COUNT, PLACES};
use tables::rows::{has, live_of};

// Is each number below n, and does none come twice?
fn once_below(numbers: &[u64], n: u64) -> bool
    ensures { result ≡ (all (λ x. ltb x n) numbers.now && once numbers.now) }
{
    numbers
        .iter()
        .enumerate()
        .all(|(i, &x)| x < n && !has(&numbers[i + 1..], x))
}

// The numbers in use of a row, whose count is within it.
fn in_use(row: &[u64]) -> &[u64]
    requires { get_or row.now count_at 0 < length row.now }
    ensures { result.now ≡ take (get_or row.now count_at 0) (drop places_at row.now) }
{
    live_of(row)
}

// Is each count of n rows, which are `width` wide, at most `room`?
pub fn counted(rows: &[u64], width: usize, room: usize, n: usize) -> bool
    requires { (1 ≤ width) × (n * width ≤ length rows.now) }
    ensures { result ≡ counts_within room width n rows.now }
{
    rows[..n * width]
        .chunks_exact(width)
        .all(|row| row[COUNT] <= room as u64)
}

// So many rows, each with room for so many numbers, and each count within it.
#[derive(Clone, Copy)]
pub struct Rows<'a> {
    pub numbers: &'a [u64],
    pub room: usize,
    pub count: usize,
    ghost rowed: { Rowed room (row_wide room) count numbers.now },
    ghost room_most: { room ≤ 256 },
    ghost count_most: { count ≤ 256 },
}

impl<'a> Rows<'a> {
    ghost use Rattle.checks.specs.Held.{rows_in};

    // The numbers in use of row i.
    pub fn live(&self, i: usize) -> &'a [u64]
        requires { i < self.now.count }
        ensures { result.now ≡ live_at (rows_in self.now) i }
    {
        let width = self.room + PLACES;
        let from = i * width;
        live_of(&self.numbers[from..from + width])
    }

    // Are the numbers of each row below n, and once each?
    fn side(&self, n: u64) -> bool
        ensures { result ≡ all (numbers n self.now.room) (rows_in self.now) }
    {
        self.numbers
            .chunks_exact(self.room + PLACES)
            .all(|row| once_below(in_use(row), n))
    }

    // Does each row list some?
    fn housed(&self) -> bool
        ensures { result ≡ all housed (rows_in self.now) }
    {
        self.numbers
            .chunks_exact(self.room + PLACES)
            .all(|row| !in_use(row).is_empty())
    }

    // Does row c list x? A row that there is not lists none.
    fn lists(&self, c: u64, x: u64) -> bool
        ensures { result ≡ has x (live_at (rows_in self.now) c) }
    {
        c < self.count as u64 && has(self.live(c as usize), x)
    }

    // Do the rows that some numbers name list x?
    fn listed_by(&self, numbers: &[u64], x: u64) -> bool
        ensures { result ≡ all (λ c. has x (live_at (rows_in self.now) c)) numbers.now }
    {
        numbers.iter().all(|&c| self.lists(c, x))
    }

    // Does each row of the others that a row lists, list that row?
    fn back(&self, others: &Rows) -> bool
        ensures { result ≡ walk (back_row (rows_in others.now)) 0 (rows_in self.now) }
    {
        self.numbers
            .chunks_exact(self.room + PLACES)
            .enumerate()
            .all(|(i, row)| others.listed_by(in_use(row), i as u64))
    }

    // These are the rows of the grains: do grains and cells list each other, once each, and is each grain in some cell?
    pub fn linked(&self, members: &Rows) -> bool
        requires { (self.now.room ≡ home_room) × (members.now.room ≡ member_room) }
        ensures { result ≡ linked self.now.count members.now.count (rows_in self.now) (rows_in members.now) }
    {
        self.side(members.count as u64)
            && members.side(self.count as u64)
            && self.back(members)
            && members.back(self)
            && self.housed()
    }
}
