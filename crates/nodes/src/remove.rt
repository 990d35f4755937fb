// The remove of a voxel: the walk down splits tiles, and the way back releases what has become empty.
ghost use Rattle.std.specs.Prelude.{◌≡◌, not, List, ℕ, ◌+◌, ◌*◌, ◌<◌, length};
ghost use Rattle.bitset.specs.Set.{bit_of, every};
ghost use Rattle.nodes.specs.Change.{hide_s};
ghost use Rattle.nodes.specs.Layout.{st, word_of, slots_length};
ghost use Rattle.nodes.specs.Pool.{Same, state};
ghost use Rattle.nodes.specs.Range.{In, Masked, Stands};
ghost use Rattle.nodes.specs.Remove.{alone_s, bare_s, shut_m, remove_m};
ghost use Rattle.nodes.specs.Split.{go_on_r, split_r, split_s};
ghost use Rattle.nodes.specs.Walk.{branching, below, point_of};

use super::memory::{BOTH_TOP_MASKS, TOP_MASKS};
use super::pool::Pool;
use super::walk::Slot;
use super::{geometry, memory};

// The slot whose word is at place i is hidden and keeps its word. The promise holds whatever the words and the book.
pub fn hide_at(masks: &mut [u64], n: usize, i: usize)
    requires { (Masked n masks.old) × (i < slots_length n) }
    ensures { (slots book : List ℕ) (x k : ℕ) → In n x k → i ≡ word_of x k → st n slots masks.new book ≡ hide_s x k (st n slots masks.old book) }
{
    bitset::set(masks, 64 * (TOP_MASKS + n) + i, false);
}

// Another bit of the value masks is on in the word that has that of place i. In a cell that word is the cell's own: another slot is active there, and stays so
// where that one is hidden.
pub fn shared(masks: &[u64], n: usize, i: usize) -> bool
    requires { (Masked n masks.now) × (i < slots_length n) }
    ensures { result ≡ not (alone_s n masks.now i) }
{
    bitset::without(masks[TOP_MASKS + n + i / 64], i) != 0
}

// None of the 64 bits of word i is on.
fn clear(masks: &[u64], i: usize) -> bool
    requires { i < length masks.now }
    ensures { result ≡ every (λ j. not (bit_of masks.now (64 * i + j))) 64 }
{
    masks[i] == 0
}

// No slot of cell c of a level is active or a branch. A cell's 64 value bits are one word and its 64 child bits another; the child mask of a leaf is not
// looked at.
pub fn bare(masks: &[u64], n: usize, level: usize, c: usize) -> bool
    requires { (Masked n masks.now) × (c < n) }
    ensures { (slots book : List ℕ) → result ≡ bare_s (below level) (st n slots masks.now book) (8 + c) }
{
    clear(masks, BOTH_TOP_MASKS + n + c) && (level == 0 || clear(masks, TOP_MASKS + c))
}

// Where a remove goes on from a slot that is no tile: to a cell, or nowhere.
fn go_on(n: usize, s: Slot) -> Option<usize>
    ensures { result ≡ go_on_r n s }
{
    let Slot::Branch(c) = s else {
        return None;
    };
    (c < n).then_some(c)
}

impl Pool<'_> {
    // Slot k of node x is hidden and keeps its word.
    pub fn hide(&mut self, x: usize, k: usize)
        requires { In self.old.n x k }
        ensures kept { Same self.old self.new }
        ensures turned { state self.new ≡ hide_s x k (state self.old) }
    {
        hide_at(self.masks, self.n, memory::word_of(x, k));
    }

    // No slot of cell c of a level is active or a branch.
    pub(crate) fn bare(&self, level: usize, c: usize) -> bool
        requires { c < self.now.n }
        ensures { result ≡ bare_s (below level) (state self.now) (8 + c) }
    {
        bare(self.masks, self.n, level, c)
    }

    // The cell below slot k of node x, of a level, is released if it is bare. Nothing is done where the link leaves the pool, or the stack is full.
    pub fn shut(&mut self, level: usize, x: usize, k: usize)
        requires { In self.old.n x k }
        ensures kept { Same self.old self.new }
        ensures turned { state self.new ≡ shut_m (below level) self.old.n x k (state self.old) }
    {
        let c = self.word(x, k) as usize;
        if c < self.n && self.bare(level, c) {
            self.release(x, k);
        }
    }

    // What a remove does at slot k of node x above the leaves, where it is s: a tile becomes a branch of such tiles, and a hidden slot ends the walk. A tile that is
    // not finite is carried nowhere.
    fn split(&mut self, x: usize, k: usize, s: Slot) -> Option<usize>
        requires { In self.old.n x k }
        ensures kept { Same self.old self.new }
        ensures turned { state self.new ≡ split_s self.old.n x k (state self.old) s }
        ensures answer { result ≡ split_r self.old.n (state self.old) s }
    {
        let Slot::Tile(u) = s else {
            return go_on(self.n, s);
        };
        if floats::finite_word(u) {
            self.grow(x, k, u, true)
        } else {
            None
        }
    }

    // The voxel v below node x of a level is removed. A branch that was there and is then empty is released; one that was split off on the way has other tiles left,
    // so it is not looked at.
    pub fn remove(&mut self, level: usize, x: usize, v: usize)
        requires { Stands self.old.n level x }
        ensures kept { Same self.old self.new }
        ensures turned { state self.new ≡ remove_m (branching level) (below level) self.old.n (point_of v) x (state self.old) }
    {
        let k = geometry::slot_in(level, v);
        if level == 0 {
            self.hide(x, k);
            return;
        }
        let old = self.kid(x, k);
        let s = self.slot(level, x, k);
        let Some(c) = self.split(x, k, s) else {
            return;
        };
        self.remove(level - 1, 8 + c, v);
        if old {
            self.shut(level - 1, x, k);
        }
    }
}
