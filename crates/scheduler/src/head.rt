// A cell's head, as the question for it is answered: none where the cell holds no event, else the time of its first.
ghost use Rattle.std.specs.Prelude.{◌≡◌, ◌≤◌, ◌<◌, length};
ghost use Rattle.scheduler.specs.Head.{earlier, no_later};

pub type Head = Option<f64>;

// Is the one head earlier than the other? Every time is earlier than none, and none is earlier than nothing.
pub fn is_earlier(a: Head, b: Head) -> bool
    ensures { result ≡ earlier a b }
{
    match (a, b) {
        (None, _) => false,
        (Some(_), None) => true,
        (Some(t), Some(u)) => t < u,
    }
}

// Is the one head no later than the other? Nothing is later than none.
pub fn is_no_later(a: Head, b: Head) -> bool
    ensures { result ≡ no_later a b }
{
    match (a, b) {
        (_, None) => true,
        (None, Some(_)) => false,
        (Some(t), Some(u)) => t <= u,
    }
}

// The tables that heads stand in: how many events each cell holds, and their times. A cell has room for so many.
#[derive(Clone, Copy)]
pub struct Heads<'a> {
    pub times: &'a [f64],
    pub held: &'a [u64],
    pub room: usize,
    ghost small: { room ≤ 256 },
}

impl<'a> Heads<'a> {
    ghost use Rattle.scheduler.specs.Heap.{time_in, child_in, parent_in};
    ghost use Rattle.scheduler.specs.Inside.{heads_of};

    // The head of a cell: none where it holds no event, else its first place's time.
    #[tactic(auto, using(crate::proofs::Heads::head_past, crate::proofs::Heads::head_none, crate::proofs::Heads::head_some), unfolding(crate::specs::Inside::head_in))]
    pub fn head(self, cell: usize) -> Head
        requires { cell < 256 }
        ensures { result ≡ heads_of self.entry cell }
    {
        let at = layout::queue_from(self.room, cell);
        let p = layout::events_from(self.room, cell);
        match (self.held.get(at), self.times.get(p)) {
            (Some(&count), Some(&time)) if 0 < count => Some(time),
            _ => None,
        }
    }

    // The head at an index of a heap, whose cells in use are lent: none past its end.
    #[tactic(auto, unfolding(crate::specs::Heap::time_in))]
    fn at(self, heap: &[u8], index: usize) -> Head
        ensures { result ≡ time_in (heads_of self.entry) heap.now (length heap.now) index }
    {
        let cell = *heap.get(index)?;
        self.head(usize::from(cell))
    }

    // Of p's children the one that it changes places with, by their heads; or p, where the shift ends.
    #[tactic(auto, unfolding(crate::specs::Heap::child_in))]
    pub fn child(self, heap: &[u8], p: usize) -> usize
        requires { p < 256 }
        ensures { result ≡ child_in (heads_of self.entry) heap.now (length heap.now) p }
    {
        let l = 2 * p + 1;
        let r = 2 * p + 2;
        let (tp, tl, tr) = (self.at(heap, p), self.at(heap, l), self.at(heap, r));
        if is_earlier(tl, tp) && is_no_later(tl, tr) {
            l
        } else if is_earlier(tr, tp) && is_earlier(tr, tl) {
            r
        } else {
            p
        }
    }

    // The parent that c changes places with, or c where the shift ends.
    #[tactic(auto, unfolding(crate::specs::Heap::parent_in))]
    pub fn parent(self, heap: &[u8], c: usize) -> usize
        ensures { result ≡ parent_in (heads_of self.entry) heap.now (length heap.now) c }
    {
        if c == 0 || heap.len() <= c {
            return c;
        }
        let p = (c - 1) / 2;
        if is_earlier(self.at(heap, c), self.at(heap, p)) {
            p
        } else {
            c
        }
    }
}
