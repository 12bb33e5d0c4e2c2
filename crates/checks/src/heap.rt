// Tests of the heap and its lookups.
ghost use Rattle.std.specs.Prelude.{◌≡◌, ◌≤◌, ◌<◌, length};
ghost use Rattle.halting.specs.Every.{every};
ghost use Rattle.scheduler.specs.Inside.{heads_of};
ghost use Rattle.model.specs.Check.{leads_back, inverse, in_order};

use scheduler::head::{Heads, is_earlier};

// Is number i of `a` below n, and does `b` lead back from it?
fn leads_back(a: &[u8], b: &[u8], n: usize, i: usize) -> bool
    requires { (i < n) × (n ≤ length a.now) × (n ≤ length b.now) }
    ensures { result ≡ leads_back a.now b.now n i }
{
    let c = usize::from(a[i]);
    c < n && usize::from(b[c]) == i
}

// The same for each of the first n.
pub fn inverse(a: &[u8], b: &[u8], n: usize) -> bool
    requires { (n ≤ length a.now) × (n ≤ length b.now) }
    ensures { result ≡ inverse n a.now b.now }
{
    (0..n).all(|i| leads_back(a, b, n, i))
}

// Is the head of the cell at heap index i no earlier than its parent's?
fn in_order(heap: &[u8], heads: Heads, n: usize, i: usize) -> bool
    requires { (i < n) × (n ≤ length heap.now) }
    ensures { result ≡ in_order (heads_of heads.entry) heap.now n i }
{
    if i == 0 {
        return true;
    }
    let child = heads.head(usize::from(heap[i]));
    let parent = heads.head(usize::from(heap[(i - 1) / 2]));
    !is_earlier(child, parent)
}

// The same for each of the first n.
pub fn ordered(heap: &[u8], heads: Heads, n: usize) -> bool
    requires { n ≤ length heap.now }
    ensures { result ≡ every (in_order (heads_of heads.entry) heap.now n) n 0 }
{
    (0..n).all(|i| in_order(heap, heads, n, i))
}
