// Events, and the places that hold them: a run of places is a part of each of two lent tables. No other file has a place's numbers, but for the head's time, which the scheduler asks, nor the numbers of the kinds.
ghost use Rattle.std.specs.Prelude.{◌≡◌, ℕ, ◌+◌, ◌-◌, ◌*◌, ◌<◌, ◌≤◌, List, ◌∷◌, ◌++◌, Float, length, replicate, get_or, set};
ghost use Rattle.layout.specs.Widths.{place_nums_wide, place_reals_wide};
ghost use Rattle.model.specs.Events.{place_of, event_of, names, insert_by, keep_by, gone_by, zero_p, fine_place};
ghost use Rattle.model.specs.declared.Place.{Place as PlaceV};
ghost use Rattle.model.specs.Standing.{one_if};
ghost use Rattle.model.specs.Check.{kind_ok};
ghost use Rattle.tables.specs.Decode.{place_at};
ghost use Rattle.tables.specs.Holds.{Run};
ghost use Rattle.tables.specs.Places.{Passed, Keeping};

use layout::{PLACE_NUMS, PLACE_REALS};
use model::{Event, Pending, Place};
use myvec::MyVec;

// Whether every number of a place is finite, and its time below f64::MAX.
pub fn fine_place(s: Place) -> bool
    ensures { result ≡ fine_place s }
{
    let time = s.time;
    particle::is_finite(time)
        && (time < f64::MAX
            && (particle::fine_vec(s.a)
                && (particle::fine_vec(s.b)
                    && (particle::fine_vec(s.c)
                        && (particle::fine_vec(s.d) && particle::is_finite(s.val))))))
}

pub fn zero_place() -> Place
    ensures { result ≡ zero_p }
{
    let zero = MyVec { x: 0.0, y: 0.0 };
    Place {
        kind: 0,
        p: 0,
        q: 0,
        cell: 0,
        time: 0.0,
        a: zero,
        b: zero,
        c: zero,
        d: zero,
        val: 0.0,
    }
}

// How an event is written at a place: what its kind does not need is 0.
pub fn place_of(e: Pending) -> Place
    ensures { result ≡ place_of e }
{
    let time = e.time;
    let event = e.event;
    let zero = MyVec { x: 0.0, y: 0.0 };
    match event {
        Event::InterParticleCollision {
            p,
            q,
            p_pos,
            q_pos,
            p_vel,
            q_vel,
            val,
        } => Place {
            kind: 1,
            p,
            q,
            cell: 0,
            time,
            a: p_pos,
            b: q_pos,
            c: p_vel,
            d: q_vel,
            val,
        },
        Event::MoveToNeighbour { p, pos, cell } => Place {
            kind: 2,
            p,
            q: 0,
            cell,
            time,
            a: pos,
            b: zero,
            c: zero,
            d: zero,
            val: 0.0,
        },
        Event::MoveOutOfCell { p, pos, cell } => Place {
            kind: 3,
            p,
            q: 0,
            cell,
            time,
            a: pos,
            b: zero,
            c: zero,
            d: zero,
            val: 0.0,
        },
        Event::WallReflection { p, pos, vel, val } => Place {
            kind: 4,
            p,
            q: 0,
            cell: 0,
            time,
            a: pos,
            b: zero,
            c: vel,
            d: zero,
            val,
        },
        Event::Synchronisation => Place {
            kind: 5,
            p: 0,
            q: 0,
            cell: 0,
            time,
            a: zero,
            b: zero,
            c: zero,
            d: zero,
            val: 0.0,
        },
    }
}

// The event that a place holds.
pub fn event_of(s: Place) -> Event
    ensures { result ≡ event_of s.kind s }
{
    match s.kind {
        1 => Event::InterParticleCollision {
            p: s.p,
            q: s.q,
            p_pos: s.a,
            q_pos: s.b,
            p_vel: s.c,
            q_vel: s.d,
            val: s.val,
        },
        2 => Event::MoveToNeighbour {
            p: s.p,
            pos: s.a,
            cell: s.cell,
        },
        3 => Event::MoveOutOfCell {
            p: s.p,
            pos: s.a,
            cell: s.cell,
        },
        4 => Event::WallReflection {
            p: s.p,
            pos: s.a,
            vel: s.c,
            val: s.val,
        },
        _ => Event::Synchronisation,
    }
}

// Whether a place's event names a grain.
pub fn names_grain(s: Place, g: u64) -> bool
    ensures { result ≡ names (event_of s.kind s) g }
{
    match s.kind {
        1 => s.p == g || s.q == g,
        2..=4 => s.p == g,
        _ => false,
    }
}

// Is a place's kind one of the five?
pub fn known_kind(s: Place) -> bool
    ensures { result ≡ kind_ok s }
{
    matches!(s.kind, 1..=5)
}

// Of the first of a run of places: its time, and 1 where it holds a synchronisation, else 0.
pub fn first_time(reals: &[f64]) -> f64
    requires { place_reals_wide ≤ length reals.now }
    ensures { (q : List ℕ) → result ≡ (place_at q reals.now).time }
{
    reals[0]
}

pub fn first_sync(nums: &[u64]) -> usize
    requires { place_nums_wide ≤ length nums.now }
    ensures { (e : List Float) → result ≡ one_if (event_of (get_or nums.now 0 0) (place_at nums.now e)) }
{
    match nums[0] {
        1..=4 => 0,
        _ => 1,
    }
}

// The first of a run of places.
pub fn get_head(nums: &[u64], reals: &[f64]) -> Place
    requires { (place_nums_wide ≤ length nums.now) × (place_reals_wide ≤ length reals.now) }
    ensures { (s : PlaceV) (ps : List PlaceV) → Run nums.now reals.now (s ∷ ps) → result ≡ s }
{
    Place {
        kind: nums[0],
        p: nums[1],
        q: nums[2],
        cell: nums[3],
        time: reals[0],
        a: MyVec {
            x: reals[1],
            y: reals[2],
        },
        b: MyVec {
            x: reals[3],
            y: reals[4],
        },
        c: MyVec {
            x: reals[5],
            y: reals[6],
        },
        d: MyVec {
            x: reals[7],
            y: reals[8],
        },
        val: reals[9],
    }
}

pub fn put_head(nums: &mut [u64], reals: &mut [f64], s: Place)
    requires { (place_nums_wide ≤ length nums.old) × (place_reals_wide ≤ length reals.old) }
    ensures { (x : PlaceV) (ps : List PlaceV) → Run nums.old reals.old (x ∷ ps)
        → Run nums.new reals.new (s ∷ ps) }
{
    nums[0] = s.kind;
    nums[1] = s.p;
    nums[2] = s.q;
    nums[3] = s.cell;
    reals[0] = s.time;
    reals[1] = s.a.x;
    reals[2] = s.a.y;
    reals[3] = s.b.x;
    reals[4] = s.b.y;
    reals[5] = s.c.x;
    reals[6] = s.c.y;
    reals[7] = s.d.x;
    reals[8] = s.d.y;
    reals[9] = s.val;
}

// Place i of a run.
fn get_place(nums: &[u64], reals: &[f64], i: usize) -> Place
    requires { (i < 256) × (i * place_nums_wide + place_nums_wide ≤ length nums.now) × (i * place_reals_wide + place_reals_wide ≤ length reals.now) }
    ensures { (ps : List PlaceV) → Run nums.now reals.now ps → result ≡ get_or ps i zero_p }
{
    let a = i * PLACE_NUMS;
    let b = a + PLACE_NUMS;
    let c = i * PLACE_REALS;
    let d = c + PLACE_REALS;
    get_head(&nums[a..b], &reals[c..d])
}

fn put_place(nums: &mut [u64], reals: &mut [f64], i: usize, s: Place)
    requires { (i < 256) × (i * place_nums_wide + place_nums_wide ≤ length nums.old) × (i * place_reals_wide + place_reals_wide ≤ length reals.old) }
    ensures { (ps : List PlaceV) → Run nums.old reals.old ps → Run nums.new reals.new (set ps i s) }
{
    let a = i * PLACE_NUMS;
    let b = a + PLACE_NUMS;
    let c = i * PLACE_REALS;
    let d = c + PLACE_REALS;
    put_head(&mut nums[a..b], &mut reals[c..d], s);
}

// In front of n places, one more: each moves up by one, the last first, over the first place beyond them.
fn push(nums: &mut [u64], reals: &mut [f64], n: usize, s: Place)
    requires { (n < 256) × (place_nums_wide * (n + 1) ≤ length nums.old) × (place_reals_wide * (n + 1) ≤ length reals.old) }
    ensures { (live rest : List PlaceV) (x : PlaceV) → n ≡ length live
        → Run nums.old reals.old (live ++ x ∷ rest)
        → Run nums.new reals.new (s ∷ live ++ rest) }
{
    nums.copy_within(..PLACE_NUMS * n, PLACE_NUMS);
    reals.copy_within(..PLACE_REALS * n, PLACE_REALS);
    put_head(nums, reals, s);
}

// How many of n places, from the first on, are not later than s.
fn passed(nums: &[u64], reals: &[f64], n: usize, s: Place) -> usize
    requires { (n < 256) × (place_nums_wide * n ≤ length nums.now) × (place_reals_wide * n ≤ length reals.now) }
    ensures { (result ≤ n) × ((live rest : List PlaceV) → n ≡ length live → Run nums.now reals.now (live ++ rest) → Passed s live result) }
{
    for i in 0..n {
        let next = get_place(nums, reals, i);
        if !(next.time <= s.time) {
            return i;
        }
    }
    n
}

// Among n places in time order, one more: after every one that is not later.
pub fn insert(nums: &mut [u64], reals: &mut [f64], n: usize, s: Place)
    requires { (n < 256) × (place_nums_wide * (n + 1) ≤ length nums.old) × (place_reals_wide * (n + 1) ≤ length reals.old) }
    ensures { (live rest : List PlaceV) (x : PlaceV) → n ≡ length live
        → Run nums.old reals.old (live ++ x ∷ rest)
        → Run nums.new reals.new (insert_by s live ++ rest) }
{
    let i = passed(nums, reals, n, s);
    let a = i * PLACE_NUMS;
    let b = i * PLACE_REALS;
    push(&mut nums[a..], &mut reals[b..], n - i, s);
}

// The first place goes: n more move down by one, and the place given up is cleared.
pub fn pull(nums: &mut [u64], reals: &mut [f64], n: usize)
    requires { (n < 256) × (place_nums_wide * (n + 1) ≤ length nums.old) × (place_reals_wide * (n + 1) ≤ length reals.old) }
    ensures { (live rest : List PlaceV) (x : PlaceV) → n ≡ length live
        → Run nums.old reals.old (x ∷ live ++ rest)
        → Run nums.new reals.new (live ++ zero_p ∷ rest) }
{
    nums.copy_within(PLACE_NUMS..PLACE_NUMS * (n + 1), 0);
    reals.copy_within(PLACE_REALS..PLACE_REALS * (n + 1), 0);
    put_place(nums, reals, n, zero_place());
}

// Of i places `kept` are kept already: the next one moves down behind them, unless it names g. How many are kept then.
fn keep_one(nums: &mut [u64], reals: &mut [f64], i: usize, kept: usize, g: u64) -> usize
    requires { (kept ≤ i) × (i < 256) × (i * place_nums_wide + place_nums_wide ≤ length nums.old) × (i * place_reals_wide + place_reals_wide ≤ length reals.old) }
    ensures { (result ≤ kept + 1) × ((live rest : List PlaceV) → i < length live
        → Keeping g live rest i kept nums.old reals.old → Keeping g live rest (i + 1) result nums.new reals.new) }
{
    let next = get_place(nums, reals, i);
    if names_grain(next, g) {
        return kept;
    }
    put_place(nums, reals, kept, next);
    kept + 1
}

// Of n places those that do not name g move down, in order, over those that do: how many they are.
fn keep(nums: &mut [u64], reals: &mut [f64], n: usize, g: u64) -> usize
    requires { (n ≤ 256) × (place_nums_wide * n ≤ length nums.old) × (place_reals_wide * n ≤ length reals.old) }
    ensures { (result ≤ n) × ((live rest : List PlaceV) → n ≡ length live
        → Run nums.old reals.old (live ++ rest) → Keeping g live rest n result nums.new reals.new) }
{
    let mut kept = 0usize;
    for i in 0..n {
        kept = keep_one(nums, reals, i, kept, g);
    }
    kept
}

// The places from one on to before n are cleared.
fn clear(nums: &mut [u64], reals: &mut [f64], from: usize, n: usize)
    requires { (from ≤ n) × (n ≤ 256) × (place_nums_wide * n ≤ length nums.old) × (place_reals_wide * n ≤ length reals.old) }
    ensures { (kept given rest : List PlaceV) → from ≡ length kept → n ≡ length kept + length given
        → Run nums.old reals.old (kept ++ (given ++ rest))
        → Run nums.new reals.new (kept ++ (replicate (n - from) zero_p ++ rest)) }
{
    for i in from..n {
        put_place(nums, reals, i, zero_place());
    }
}

// Of n places those that do not name g, in order; the places given up are cleared. How many are left.
pub fn cancel(nums: &mut [u64], reals: &mut [f64], n: usize, g: u64) -> usize
    requires { (n ≤ 256) × (place_nums_wide * n ≤ length nums.old) × (place_reals_wide * n ≤ length reals.old) }
    ensures { (result ≤ n) × ((live rest : List PlaceV) → n ≡ length live
        → Run nums.old reals.old (live ++ rest)
        → (result ≡ length (keep_by g live)) × Run nums.new reals.new (keep_by g live ++ (replicate (gone_by g live) zero_p ++ rest))) }
{
    let kept = keep(nums, reals, n, g);
    clear(nums, reals, kept, n);
    kept
}
