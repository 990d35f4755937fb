// What a walk reads of a pool, and what it reads there.
ghost use Rattle.std.specs.Prelude.{◌≡◌, List, ℕ};
ghost use Rattle.nodes.specs.Layout.{st};
ghost use Rattle.nodes.specs.Range.{In, Cells};
ghost use Rattle.nodes.specs.Walk.{below, closed_s, view_s, child_r};

use super::memory;
use super::walk::Slot;

// The words and the masks of a pool of n cells. The book says nothing of a slot, so what is promised of one holds whatever the book.
#[derive(Clone, Copy)]
pub struct View<'a> {
    pub slots: &'a [u32],
    pub masks: &'a [u64],
    pub n: usize,
    pub ghost fit: { Cells n slots.now masks.now },
}

impl View<'_> {
    // Slot k of node x, which is no branch.
    fn closed(&self, x: usize, k: usize) -> Slot
        requires { In self.now.n x k }
        ensures { (book : List ℕ) → result ≡ closed_s (st self.now.n self.now.slots.now self.now.masks.now book) x k }
    {
        let w = memory::word(self.slots, x, k);
        if memory::val(self.masks, self.n, x, k) {
            Slot::Tile(w)
        } else {
            Slot::Hidden(w)
        }
    }

    // Slot k of node x of a level. The child mask of a leaf is not looked at.
    pub fn slot(&self, level: usize, x: usize, k: usize) -> Slot
        requires { In self.now.n x k }
        ensures { (book : List ℕ) → result ≡ view_s (below level) (st self.now.n self.now.slots.now self.now.masks.now book) x k }
    {
        if level > 0 && memory::kid(self.masks, x, k) {
            Slot::Branch(memory::word(self.slots, x, k) as usize)
        } else {
            self.closed(x, k)
        }
    }

    // The cell that slot k of node x, above the leaves, leads to: none where it is no branch, or its link leaves the pool.
    pub fn child(&self, x: usize, k: usize) -> Option<usize>
        requires { In self.now.n x k }
        ensures { (book : List ℕ) → result ≡ child_r self.now.n (st self.now.n self.now.slots.now self.now.masks.now book) x k }
    {
        if !memory::kid(self.masks, x, k) {
            return None;
        }
        let c = memory::word(self.slots, x, k) as usize;
        (c < self.n).then_some(c)
    }
}
