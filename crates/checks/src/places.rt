// Tests of rows of events: a count and the places' numbers in one table, their floats in another.
ghost use Rattle.std.specs.Prelude.{◌≡◌, ℕ, ◌*◌, ◌≤◌, ◌<◌, List, [], not, ◌&&◌, eqb, length, get_or, Float};
ghost use Rattle.layout.specs.Widths.{place_nums_wide, place_reals_wide, queue_wide, events_from, member_room};
ghost use Rattle.model.specs.Events.{event_of};
ghost use Rattle.model.specs.State.{has, live_at, none};
ghost use Rattle.model.specs.Standing.{syncs, one_if};
ghost use Rattle.model.specs.Check.{all, rising, named, held, queue_ok, queued};
ghost use Rattle.tables.specs.Decode.{place_at, places_of};
ghost use Rattle.checks.specs.Inside.{Rowed, Used};

use crate::rows::Rows;
use layout::{PLACE_NUMS, PLACE_REALS, PLACES};
use model::Event;
use tables::places;
use tables::rows::{count_of, has};

// Are the times of some places in order, from t on?
fn rising(reals: &[f64], t: f64) -> bool
    ensures { (k : ℕ) (q : List ℕ) → length reals.now ≡ k * place_reals_wide → result ≡ rising t (places_of k q reals.now) }
{
    let mut from = t;
    for place in reals.chunks_exact(PLACE_REALS) {
        let time = places::first_time(place);
        if from <= time {
            from = time;
        } else {
            return false;
        }
    }
    true
}

// Are two different grains among some members?
fn both_named(members: &[u64], p: u64, q: u64) -> bool
    ensures { result ≡ (has p members.now && (has q members.now && not (eqb p q))) }
{
    has(members, p) && has(members, q) && p != q
}

// An event of cell c of n, which lists these members: does it name only grains and cells that it may?
fn named(e: Event, members: &[u64], n: u64, c: u64) -> bool
    ensures { result ≡ named n c members.now e }
{
    match e {
        Event::InterParticleCollision { p, q, .. } => both_named(members, p, q),
        Event::MoveToNeighbour { p, cell, .. } => has(members, p) && cell < n,
        Event::MoveOutOfCell { p, cell, .. } => has(members, p) && cell == c,
        Event::WallReflection { p, .. } => has(members, p),
        Event::Synchronisation => c == 0,
    }
}

// One place: its kind is one, its floats are fine, and it names what it may.
fn held(nums: &[u64], reals: &[f64], members: &[u64], n: u64, c: u64) -> bool
    requires { (length nums.now ≡ place_nums_wide) × (length reals.now ≡ place_reals_wide) }
    ensures { result ≡ held n c members.now (place_at nums.now reals.now) }
{
    let s = places::get_head(nums, reals);
    places::known_kind(s) && places::fine_place(s) && named(places::event_of(s), members, n, c)
}

// The same for each of some places.
fn all_held(nums: &[u64], reals: &[f64], members: &[u64], n: u64, c: u64) -> bool
    requires { (k : ℕ) × (length nums.now ≡ k * place_nums_wide) × (length reals.now ≡ k * place_reals_wide) }
    ensures { (k : ℕ) → length nums.now ≡ k * place_nums_wide → length reals.now ≡ k * place_reals_wide
        → result ≡ all (held n c members.now) (places_of k nums.now reals.now) }
{
    nums.chunks_exact(PLACE_NUMS)
        .zip(reals.chunks_exact(PLACE_REALS))
        .all(|(nums, reals)| held(nums, reals, members, n, c))
}

// Does a place hold a synchronisation?
fn is_sync(nums: &[u64]) -> bool
    requires { length nums.now ≡ place_nums_wide }
    ensures { result ≡ eqb (one_if (event_of (get_or nums.now 0 0) (place_at nums.now []))) 1 }
{
    places::first_sync(nums) == 1
}

// How many of some places hold one.
fn syncs(nums: &[u64]) -> usize
    ensures { (k : ℕ) (e : List Float) → length nums.now ≡ k * place_nums_wide → result ≡ syncs (places_of k nums.now e) }
{
    nums.chunks_exact(PLACE_NUMS)
        .filter(|place| is_sync(place))
        .count()
}

// The rows of events of so many cells, each with room for so many, and each count within it.
#[derive(Clone, Copy)]
pub struct EventRows<'a> {
    pub numbers: &'a [u64],
    pub reals: &'a [f64],
    pub room: usize,
    pub count: usize,
    ghost rowed: { Rowed room (queue_wide room) count numbers.now },
    ghost reals_whole: { length reals.now ≡ events_from room count },
    ghost room_most: { room ≤ 256 },
    ghost count_most: { count ≤ 256 },
}

impl<'a> EventRows<'a> {
    ghost use Rattle.checks.specs.Held.{rows_in, queues_in};

    // The numbers and the floats of the places in use of cell c.
    fn live(&self, c: usize) -> (&'a [u64], &'a [f64])
        requires { c < self.now.count }
        ensures { Used result.0.now result.1.now (live_at (queues_in self.now) c) }
    {
        let from = layout::queue_from(self.room, c);
        let used = count_of(&self.numbers[from..]);
        let nums = &self.numbers[from + PLACES..];
        let reals = &self.reals[layout::events_from(self.room, c)..];
        (&nums[..used * PLACE_NUMS], &reals[..used * PLACE_REALS])
    }

    // The row of cell c: in time order from t on, and each event held.
    fn queue_ok(&self, members: &Rows, c: usize, t: f64) -> bool
        requires { (c < self.now.count) × (members.now.count ≡ self.now.count) }
        ensures { result ≡ queue_ok t self.now.room self.now.count c (live_at (rows_in members.now) c) (get_or (queues_in self.now) c none) }
    {
        let (nums, reals) = self.live(c);
        rising(reals, t) && all_held(nums, reals, members.live(c), self.count as u64, c as u64)
    }

    // The same for each cell, and one synchronisation, in cell 0.
    pub fn queued(&self, members: &Rows, t: f64) -> bool
        requires { (0 < self.now.count) × (members.now.count ≡ self.now.count) }
        ensures { result ≡ queued t self.now.room self.now.count (rows_in members.now) (queues_in self.now) }
    {
        (0..self.count).all(|c| self.queue_ok(members, c, t)) && syncs(self.live(0).0) == 1
    }
}
