// The acts on the cells' queues, each with its heap update.
ghost use Rattle.std.specs.Prelude.{◌≡◌, ℕ, ◌<◌, length, get_or};
ghost use Rattle.halting.specs.Out.{each_of};
ghost use Rattle.halting.specs.Every.{All};
ghost use Rattle.layout.specs.Widths.{queue_from, events_from};
ghost use Rattle.model.specs.State.{State};
ghost use Rattle.model.specs.Acts.{insert as insertAct, put as putAct, cancel as cancelAct, first, head, taken};
ghost use Rattle.model.specs.Refusals.{number_of};
ghost use Rattle.tables.specs.Holds.{Ranged};
ghost use Rattle.acts.specs.Queues.{RowOf};
ghost use Rattle.acts.specs.Tell.{IsReady, InQueues, QueuesTold, SameTables};

use crate::heap;
use model::{Halt, Place, Plan};
use scheduler::head::{Head, Heads};
use tables::parts::Part;
use tables::{Sizes, parts, places, queues, rows};

// The cells' queues of events, and the heap over them, in the tables that are lent.
#[derive(Drop)]
pub struct Queues<'a> {
    pub queue: &'a mut [u64],
    pub events: &'a mut [f64],
    pub order: &'a mut [u8],
}

// Where a cell's row stands: its numbers in one table, their floats in another; and its head.
#[derive(Clone, Copy)]
pub struct CellRow {
    pub nums: Part,
    pub reals: Part,
    pub head: Head,
}

fn row_of(queue: &[u64], events: &[f64], z: Sizes, cell: usize) -> CellRow
    requires { Ranged z × (cell < z.cells) × (length queue.now ≡ queue_from z.room z.cells) × (length events.now ≡ events_from z.room z.cells) }
    ensures { RowOf z queue.now events.now cell result }
{
    CellRow {
        nums: parts::queue_part(z, cell),
        reals: parts::events_part(z, cell),
        head: Heads {
            times: events,
            held: queue,
            room: z.room,
        }
        .head(cell),
    }
}

impl Queues<'_> {
    // An insertion: 5 before 6, and nothing changed where it is refused.
    pub fn insert(&mut self, z: Sizes, cell: usize, e: Place) -> Result<(), Halt>
        requires { IsReady z self.old × (cell < z.cells) }
        ensures same { SameTables self.old self.new }
        ensures told { (s : State) → InQueues z self.old s → QueuesTold z self.new (number_of result) (insertAct cell e s) }
    {
        if !places::fine_place(e) {
            return Err(Halt::NotFinite);
        }
        let queue = &mut *self.queue;
        let events = &mut *self.events;
        let order = &mut *self.order;
        let CellRow { nums, reals, head } = row_of(queue, events, z, cell);
        let Part { from: a, to: b } = nums;
        let Part { from: p, to: q } = reals;
        if z.room <= rows::count_of(&queue[a..b]) {
            return Err(Halt::QueueFull);
        }
        queues::insert(&mut queue[a..b], &mut events[p..q], e);
        heap::update(order, queue, events, z, cell, head);
        Ok(())
    }

    // What the scheduling of one kind found goes in.
    pub fn put(&mut self, z: Sizes, cell: usize, plan: Plan) -> Result<(), Halt>
        requires { IsReady z self.old × (cell < z.cells) }
        ensures same { SameTables self.old self.new }
        ensures told { (s : State) → InQueues z self.old s → QueuesTold z self.new (number_of result) (putAct cell plan s) }
    {
        match plan? {
            None => Ok(()),
            Some(e) => self.insert(z, cell, places::place_of(e)),
        }
    }

    // The events of a cell that name a grain go.
    pub fn cancel(&mut self, z: Sizes, cell: usize, g: u64)
        requires { IsReady z self.old × (cell < z.cells) }
        ensures same { SameTables self.old self.new }
        ensures told { (s : State) → InQueues z self.old s → QueuesTold z self.new 0 (cancelAct g cell s) }
    {
        let queue = &mut *self.queue;
        let events = &mut *self.events;
        let order = &mut *self.order;
        let CellRow { nums, reals, head } = row_of(queue, events, z, cell);
        let Part { from: a, to: b } = nums;
        let Part { from: p, to: q } = reals;
        queues::cancel(&mut queue[a..b], &mut events[p..q], g);
        heap::update(order, queue, events, z, cell, head);
    }

    // They go in each cell of a list, one after another.
    pub fn cancel_each(&mut self, z: Sizes, list: &[u64], g: u64)
        requires { IsReady z self.old × All (λ (c : ℕ). c < z.cells) list.now }
        ensures same { SameTables self.old self.new }
        ensures told { (s : State) → InQueues z self.old s → QueuesTold z self.new 0 (each_of (λ c. cancelAct g c) list.now s) }
    {
        for &cell in list {
            self.cancel(z, cell as usize, g);
        }
    }

    // The head of a cell that holds an event goes. The clock is the caller's.
    pub fn take(&mut self, z: Sizes, cell: usize) -> Place
        requires { IsReady z self.old × (cell < z.cells) × (0 < get_or self.old.queue.now (queue_from z.room cell) 0) }
        ensures same { SameTables self.old self.new }
        ensures taken { (s : State) → InQueues z self.old s → cell ≡ first s → (result ≡ head s) × InQueues z self.new (taken s) }
    {
        let queue = &mut *self.queue;
        let events = &mut *self.events;
        let order = &mut *self.order;
        let CellRow { nums, reals, head } = row_of(queue, events, z, cell);
        let Part { from: a, to: b } = nums;
        let Part { from: p, to: q } = reals;
        let first = queues::take(&mut queue[a..b], &mut events[p..q]);
        heap::update(order, queue, events, z, cell, head);
        first
    }
}
