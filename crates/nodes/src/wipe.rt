// The top of a seat as a whole: all that hangs below it is released, and every slot is given one word.
ghost use Rattle.std.specs.Prelude.{◌≡◌, List, [], ◌∷◌, ℕ, ◌+◌, ◌-◌, ◌<◌};
ghost use Rattle.nodes.specs.Layout.{st};
ghost use Rattle.nodes.specs.Pool.{Same, state};
ghost use Rattle.nodes.specs.Range.{In, Stands, Booked};
ghost use Rattle.nodes.specs.Each.{each_s};
ghost use Rattle.nodes.specs.Wipe.{return_s, unlink_s, shed_m, wipe_m, empty_m};

use super::cells;
use super::geometry::{Level, Top};
use super::memory::{CELL, TOP_MASKS, TOPS};
use super::pool::Pool;

// Cell c is given back, if it is one of the pool's and the stack is not full.
fn give_back(book: &mut [u32], n: usize, c: usize)
    requires { Booked n book.old }
    ensures { (slots masks : List ℕ) → st n slots masks book.new ≡ return_s n c (st n slots masks book.old) }
{
    if c < n && cells::count(book) < n {
        cells::give(book, n, c);
    }
}

impl Pool<'_> {
    // The cells that the slots of cell c link to are given back, from the first to the last: no other slot is looked at, and none is written.
    fn give_linked(&mut self, c: usize)
        requires { c < self.old.n }
        ensures kept { Same self.old self.new }
        ensures turned { state self.new ≡ each_s (unlink_s self.old.n (8 + c)) 64 (state self.old) }
    {
        for i in bitset::on_in(self.masks[TOP_MASKS + c]) {
            let d = self.slots[TOPS + CELL * c + i] as usize;
            give_back(self.book, self.n, d);
        }
    }

    // Cell c, of level 1, is about to be given back. Nothing hangs below a leaf, and what a free cell holds is never read: so its leaves are given back as they are, and the
    // cell is written as one piece.
    fn empty_middle(&mut self, c: usize)
        requires { c < self.old.n }
        ensures kept { Same self.old self.new }
        ensures turned { state self.new ≡ empty_m self.old.n 1 (8 + c) (state self.old) }
    {
        self.give_linked(c);
        self.blank(c, floats::far_word(false), false);
    }

    // Cell c, of a level, is about to be given back: nothing hangs below it any more.
    fn empty(&mut self, level: usize, c: usize)
        requires { (level < 2) × (c < self.old.n) }
        ensures kept { Same self.old self.new }
        ensures turned { state self.new ≡ empty_m self.old.n level (8 + c) (state self.old) }
    {
        if level > 0 {
            self.empty_middle(c);
        }
    }

    // What hangs below slot k of node x of a level above the leaves. A link that leaves the pool is not followed; the cell is emptied before it is given back, so that
    // nothing below it is lost.
    pub fn shed(&mut self, level: usize, x: usize, k: usize)
        requires { (Stands self.old.n level x) × (In self.old.n x k) × (0 < level) }
        ensures kept { Same self.old self.new }
        ensures turned { state self.new ≡ shed_m (empty_m self.old.n (level - 1)) self.old.n x k (state self.old) }
    {
        let Some(c) = self.child(x, k) else {
            return;
        };
        self.empty(level - 1, c);
        self.release(x, k);
    }

    // Every slot of the top of a seat holds the word w, active or hidden, and has no branch.
    pub fn wipe(&mut self, seat: usize, w: u32, active: bool)
        requires { seat < 8 }
        ensures kept { Same self.old self.new }
        ensures turned { state self.new ≡ wipe_m 3 (2 ∷ 2 ∷ []) self.old.n w active seat (state self.old) }
    {
        for k in 0..Top::SIZE {
            self.shed(2, seat, k);
            self.set_slot(seat, k, w, false, active);
        }
    }
}
