// The scheduler: a minimum heap of cell numbers by head time, with its inverse.
#![tactic(auto)]

ghost use Rattle.std.specs.Prelude.{◌≡◌, ◌≤◌, ◌<◌};
ghost use Rattle.scheduler.specs.Heap.{swap_at, downshifted, downshift_swaps, upshifted, upshift_swaps, updated, update_swaps, start_heap};
ghost use Rattle.scheduler.specs.Inside.{heads_of};

pub mod head;

use crate::head::{Head, Heads, is_earlier};

#[derive(Drop)]
pub struct Scheduler {
    pub heap: [u8; 256],
    pub lookups: [u8; 256],
    pub cells: usize,
}

impl Scheduler {
    pub fn new(cells: usize) -> Scheduler
        requires { cells ≤ 256 }
        ensures { result ≡ start_heap cells }
    {
        let mut heap = [0u8; 256];
        let mut lookups = [0u8; 256];
        for i in 0..cells {
            heap[i] = i as u8;
            lookups[i] = i as u8;
        }
        Scheduler {
            heap,
            lookups,
            cells,
        }
    }

    // The cell's head went from before to after: it finds its place again, by so many swaps.
    pub fn update(mut self, heads: Heads, cell: usize, before: Head, after: Head) -> (Self, usize)
        requires { (self.cells ≤ 256) × (cell < 256) }
        ensures { (result.0 ≡ updated (heads_of heads.entry) self cell before after)
            × (result.1 ≡ update_swaps (heads_of heads.entry) self cell before after) }
    {
        let at = usize::from(self.lookups[cell]);
        let swaps = if is_earlier(before, after) {
            self.downshift(heads, at)
        } else {
            self.upshift(heads, at)
        };
        (self, swaps)
    }

    // The cells at two heap indices change places, in the heap and in the lookups.
    fn swap(&mut self, a: usize, b: usize)
        requires { (a < 256) × (b < 256) }
        ensures { self.new ≡ swap_at self.old a b }
    {
        let i = usize::from(self.heap[a]);
        let j = usize::from(self.heap[b]);
        self.heap.swap(a, b);
        let p = self.lookups[i];
        let q = self.lookups[j];
        self.lookups[i] = q;
        self.lookups[j] = p;
    }

    // The cell at p goes down while a child's head is earlier. Gives the swaps.
    fn downshift(&mut self, heads: Heads, p: usize) -> usize
        requires { self.old.cells ≤ 256 }
        ensures { (self.new ≡ downshifted (heads_of heads.entry) self.old p)
            × (result ≡ downshift_swaps (heads_of heads.entry) self.old p) }
    {
        if self.cells <= p {
            return 0;
        }
        let q = heads.child(&self.heap[..self.cells], p);
        if q == p {
            return 0;
        }
        self.swap(p, q);
        let below = self.downshift(heads, q);
        1 + below
    }

    // The cell at c goes up while its head is earlier than its parent's. Gives the swaps.
    fn upshift(&mut self, heads: Heads, c: usize) -> usize
        requires { self.old.cells ≤ 256 }
        ensures { (self.new ≡ upshifted (heads_of heads.entry) self.old c)
            × (result ≡ upshift_swaps (heads_of heads.entry) self.old c) }
    {
        let p = heads.parent(&self.heap[..self.cells], c);
        if p == c {
            return 0;
        }
        self.swap(c, p);
        let above = self.upshift(heads, p);
        1 + above
    }
}
