// Rows of numbers: a count, the numbers in use in order, and the places beyond.
ghost use Rattle.std.specs.Prelude.{◌≡◌, true, ℕ, ◌+◌, ◌<◌, ◌≤◌, List, ◌∷◌, ◌++◌, length, take};
ghost use Rattle.model.specs.State.{Row, has, but, pushed, pulled};
ghost use Rattle.tables.specs.Layout.{places, row_nums};
ghost use Rattle.tables.specs.Parts.{lent};
ghost use Rattle.tables.specs.Rows.{InNums, count_in};

use crate::parts::Part;
use layout::{COUNT, PLACES};

// How many places of a row are in use: its first number. A row of events has it too.
pub fn count_of(row: &[u64]) -> usize
    requires { 0 < length row.now }
    ensures { result ≡ count_in row.now }
{
    row[COUNT] as usize
}

// The numbers in use of a row.
pub fn live_of(row: &[u64]) -> &[u64]
    requires { (r : Row ℕ) × (row.now ≡ row_nums r) }
    ensures { (r : Row ℕ) → row.now ≡ row_nums r → result.now ≡ r.live }
{
    let n = count_of(row);
    &row[PLACES..PLACES + n]
}

// Is x among some numbers?
pub fn has(nums: &[u64], x: u64) -> bool
    ensures { result ≡ has x nums.now }
{
    nums.iter().any(|&y| y == x)
}

// The first of n + 1 numbers goes, the others move down, and the place given up is cleared.
pub fn pull(nums: &mut [u64], n: usize)
    requires { n < length nums.old }
    ensures { (live spare : List ℕ) (x : ℕ) → n ≡ length live → nums.old ≡ x ∷ live ++ spare → nums.new ≡ live ++ 0 ∷ spare }
{
    nums.copy_within(1..n + 1, 0);
    nums[n] = 0;
}

// The first x of n numbers, where there is one, goes.
pub fn remove(nums: &mut [u64], n: usize, x: u64)
    requires { (n ≤ length nums.old) × (has x (take n nums.old) ≡ true) }
    ensures { (live spare : List ℕ) → n ≡ length live → nums.old ≡ live ++ spare → nums.new ≡ but x live ++ 0 ∷ spare }
{
    let found = nums[..n].iter().position(|&y| y == x);
    if let Some(i) = found {
        pull(&mut nums[i..], n - 1 - i);
    }
}

// A row with room lists one more, at the end.
pub fn add_to(row: &mut [u64], x: u64)
    requires { InNums row.old (λ r. length r.live < length (places r)) }
    ensures { (r : Row ℕ) → row.old ≡ row_nums r → row.new ≡ row_nums (pushed x r) }
{
    let n = row[COUNT] as usize;
    row[n + PLACES] = x;
    row[COUNT] = (n + 1) as u64;
}

// A row that lists x does so once less.
pub fn drop_from(row: &mut [u64], x: u64)
    requires { InNums row.old (λ r. has x r.live ≡ true) }
    ensures { (r : Row ℕ) → row.old ≡ row_nums r → row.new ≡ row_nums (pulled x r) }
{
    let n = row[COUNT] as usize;
    remove(&mut row[PLACES..], n, x);
    row[COUNT] = (n - 1) as u64;
}
