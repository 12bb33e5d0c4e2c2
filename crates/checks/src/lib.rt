// What a run tests before it does anything, over the lent tables: 2, the halt mark, 3, 10.
#![tactic(auto)]

ghost use Rattle.std.specs.Prelude.{◌≡◌, ◌*◌, take, drop};
ghost use Rattle.layout.specs.Widths.{heap_wide, home_wide, members_wide};
ghost use Rattle.model.specs.Sizes.{rated};
ghost use Rattle.scheduler.specs.Inside.{head_in};
ghost use Rattle.model.specs.Check.{settled, heaped};
ghost use Rattle.model.specs.Refusals.{check_number};
ghost use Rattle.tables.specs.Decode.{tables, mark, box_in, clock_in, grains_part, grains_of, homes_part, members_part};
ghost use Rattle.tables.specs.Lengths.{queue_need};
ghost use Rattle.checks.specs.Check.{sized_by, legible_by, standing};
ghost use Rattle.checks.specs.Answered.{Answered};
ghost use Rattle.checks.specs.Inside.{Sized};

use layout::{GRAIN, GRAINS_HEAD, HEAP, HOME, HOME_ROOM, LISTS_HEAD, MEMBER_ROOM, MEMBERS, ORDER};
use model::{Halt, RunError};
use places::EventRows;
use rows::Rows;
use scheduler::head::Heads;
use tables::{Sizes, headers};

mod counts;
mod domain;
mod grains;
mod heap;
mod places;
mod rows;

pub use counts::counts_ok;

// Check 2: are the counts in range, and the tables as long as they need?
pub fn sized(lists: &[u64], grains: usize, queue: usize, events: usize, order: usize) -> bool
    ensures { result ≡ sized_by lists.now grains queue events order }
{
    if lists.len() < LISTS_HEAD {
        return false;
    }
    let z = headers::sizes_of(lists);
    counts::ranged(z) && tables::lengths::long(z, lists.len(), grains, queue, events, order)
}

// Check 3: is the sync rate in range?
pub fn rated(rate: f64) -> bool
    ensures { result ≡ rated rate }
{
    cell::within(0.00000095367431640625, 1048576.0, rate)
}

// The lent tables, with the counts that they give: as long as these need.
#[derive(Clone, Copy)]
pub struct Lent<'a> {
    pub lists: &'a [u64],
    pub grains: &'a [f64],
    pub queue: &'a [u64],
    pub events: &'a [f64],
    pub order: &'a [u8],
    pub sizes: Sizes,
    ghost sized: { Sized sizes (tables lists.now grains.now queue.now events.now order.now) },
}

impl<'a> Lent<'a> {
    ghost use Rattle.checks.specs.Held.{tables_in};

    // The rows of the grains' cells, and those of the cells' grains.
    fn homes(&self) -> &'a [u64]
        ensures { result.now ≡ take (self.now.sizes.grains * home_wide) (homes_part self.now.lists.now) }
    {
        &self.lists[LISTS_HEAD..LISTS_HEAD + self.sizes.grains * HOME]
    }

    fn members(&self) -> &'a [u64]
        ensures { result.now ≡ take (self.now.sizes.cells * members_wide) (members_part self.now.sizes.grains self.now.lists.now) }
    {
        let from = LISTS_HEAD + self.sizes.grains * HOME;
        &self.lists[from..from + self.sizes.cells * MEMBERS]
    }

    // The rows of the cells' events.
    fn queue(&self) -> &'a [u64]
        ensures { result.now ≡ take (queue_need self.now.sizes) self.now.queue.now }
    {
        &self.queue[..layout::queue_from(self.sizes.room, self.sizes.cells)]
    }

    // Are the flags 0 or 1, and is every list count within its room?
    fn legible(&self) -> bool
        ensures { result ≡ legible_by self.now.sizes self.now.lists.now self.now.queue.now }
    {
        let Sizes {
            grains,
            cells,
            room,
        } = self.sizes;
        headers::flags_fine(self.lists)
            && rows::counted(&self.lists[LISTS_HEAD..], HOME, HOME_ROOM, grains)
            && rows::counted(
                &self.lists[LISTS_HEAD + grains * HOME..],
                MEMBERS,
                MEMBER_ROOM,
                cells,
            )
            && rows::counted(self.queue, layout::queue_wide(room), room, cells)
    }

    // The headers and the grains: no mark, a finite clock, a box in range with these cells, and grains that are finite and not past the clock.
    fn settled(&self) -> bool
        ensures { result ≡ settled (mark self.now.lists.now) (clock_in self.now.grains.now) (box_in self.now.lists.now self.now.grains.now) self.now.sizes.cells (grains_of self.now.sizes.grains (grains_part self.now.grains.now)) }
    {
        let clock = headers::clock(self.grains);
        headers::mark(self.lists) == 0
            && (particle::is_finite(clock)
                && (domain::boxed(
                    headers::domain_of(self.lists, self.grains),
                    self.sizes.cells,
                ) && grains::settled(&self.grains[GRAINS_HEAD..], self.sizes.grains, clock)))
    }

    // The heap: inverse to its lookups on the cells, and in order.
    fn heaped(&self) -> bool
        ensures { result ≡ heaped (head_in self.now.events.now self.now.queue.now self.now.sizes.room) self.now.sizes.cells (take heap_wide self.now.order.now) (take heap_wide (drop heap_wide self.now.order.now)) }
    {
        let heap = &self.order[..HEAP];
        let lookups = &self.order[HEAP..ORDER];
        let heads = Heads {
            times: self.events,
            held: self.queue,
            room: self.sizes.room,
        };
        let n = self.sizes.cells;
        heap::inverse(heap, lookups, n)
            && heap::inverse(lookups, heap, n)
            && heap::ordered(heap, heads, n)
    }

    // Check 10: do the standing facts hold?
    pub fn standing(&self) -> bool
        ensures { result ≡ standing (tables_in self.now) }
    {
        if !self.legible() {
            return false;
        }
        let Sizes {
            grains,
            cells,
            room,
        } = self.sizes;
        let homes = Rows {
            numbers: self.homes(),
            room: HOME_ROOM,
            count: grains,
        };
        let members = Rows {
            numbers: self.members(),
            room: MEMBER_ROOM,
            count: cells,
        };
        let queues = EventRows {
            numbers: self.queue(),
            reals: &self.events[..layout::events_from(room, cells)],
            room,
            count: cells,
        };
        self.settled()
            && (homes.linked(&members)
                && (queues.queued(&members, headers::clock(self.grains)) && self.heaped()))
    }
}

// What refuses a run: short tables, an earlier halt, a rate out of range or a broken standing fact, in that order.
pub fn check(
    lists: &[u64],
    grains: &[f64],
    queue: &[u64],
    events: &[f64],
    order: &[u8],
    rate: f64,
) -> Result<(), RunError>
    ensures { Answered rate (tables lists.now grains.now queue.now events.now order.now) (check_number result) }
{
    if !sized(lists, grains.len(), queue.len(), events.len(), order.len()) {
        return Err(RunError::TooShort);
    }
    if let Ok(halt) = Halt::try_from(headers::mark(lists)) {
        return Err(RunError::Halted(halt));
    }
    if !rated(rate) {
        return Err(RunError::RateOutOfRange);
    }
    let lent = Lent {
        lists,
        grains,
        queue,
        events,
        order,
        sizes: headers::sizes_of(lists),
    };
    if !lent.standing() {
        return Err(RunError::Broken);
    }
    Ok(())
}
