// Rows of events: a count, the events in use in time order, and the places beyond; a row is a part of each of two lent tables.
ghost use Rattle.std.specs.Prelude.{◌≡◌, ◌+◌, ◌<◌, ◌≤◌, length};
ghost use Rattle.model.specs.declared.Place.{Place as PlaceV};
ghost use Rattle.model.specs.Events.{head_place};
ghost use Rattle.model.specs.State.{Row};
ghost use Rattle.tables.specs.Layout.{places};
ghost use Rattle.tables.specs.Queues.{placed, without, headless, RowIn, InParts};

use crate::places;
use layout::{COUNT, PLACES};
use model::Place;

// A row with room holds one more event, after every one that is not later.
pub fn insert(nums: &mut [u64], reals: &mut [f64], e: Place)
    requires { InParts nums.old reals.old (λ r. length r.live < length (places r)) }
    ensures { (r : Row PlaceV) → RowIn nums.old reals.old r → RowIn nums.new reals.new (placed e r) }
{
    let n = nums[COUNT] as usize;
    places::insert(&mut nums[PLACES..], reals, n, e);
    nums[COUNT] = (n + 1) as u64;
}

// The events that name a grain go.
pub fn cancel(nums: &mut [u64], reals: &mut [f64], g: u64)
    requires { InParts nums.old reals.old (λ r. length r.live ≤ length (places r)) }
    ensures { (r : Row PlaceV) → RowIn nums.old reals.old r → RowIn nums.new reals.new (without g r) }
{
    let n = nums[COUNT] as usize;
    let kept = places::cancel(&mut nums[PLACES..], reals, n, g);
    nums[COUNT] = kept as u64;
}

// The first event of a row that holds one goes.
pub fn take(nums: &mut [u64], reals: &mut [f64]) -> Place
    requires { InParts nums.old reals.old (λ r. 0 < length r.live) }
    ensures { (r : Row PlaceV) → RowIn nums.old reals.old r
        → (result ≡ head_place r.live) × RowIn nums.new reals.new (headless r) }
{
    let n = nums[COUNT] as usize;
    let first = places::get_head(&nums[PLACES..], reals);
    places::pull(&mut nums[PLACES..], reals, n - 1);
    nums[COUNT] = (n - 1) as u64;
    first
}
