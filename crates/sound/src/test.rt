// The test that a pool is sound. Each mark, each place of the stack and each slot that counts is looked at, and nothing is trusted: a place of the stack and a link are
// each below the pool's bounds before they are used as a place. Each place of the stack below the count of free cells, and each link, names a cell, whose use mark has
// to name it in turn: so no two of them name one cell. Hence each cell is free or linked to, as its use mark says, exactly if these places and links are as many as the
// cells. They are counted, and no use mark is followed back to the place that it names. Every call on the whole pool makes this test first, so it is written for speed:
// slots are tested by groups of 64, links are counted by the words of the child masks, and the cells that no call has had yet are tested by groups of 64 too.
ghost use Rattle.std.specs.Prelude.{◌≡◌, true, false, ◌&&◌, ℕ, ◌+◌, ◌*◌, ◌≤◌, ◌<◌, length, get_or, ltb, eqb};
ghost use Rattle.floats.specs.Value.{is_finite};
ghost use Rattle.bitset.specs.Set.{every, word_bit};
ghost use Rattle.grid.specs.Node.{sum};
ghost use Rattle.nodes.specs.Layout.{Sized, st};
ghost use Rattle.nodes.specs.Range.{In};
ghost use Rattle.nodes.specs.Test.{fork_b, live_b, stacked_b, link_b, node_b, sound_b};
ghost use Rattle.sound.specs.Slots.{value_b, branch_b, either_b, group};
ghost use Rattle.sound.specs.Own.{own_b};
ghost use Rattle.sound.specs.Links.{tally, links_of};

use nodes::cells;
use nodes::geometry::{Level, Top};
use nodes::memory::{HEAD, TOP_MASKS, TOP_WORDS, USED, USED_BY_TOPS};

// The lent pool of n cells: the lengths of its slices belong together.
#[derive(Clone, Copy)]
struct Whole<'a> {
    slots: &'a [u32],
    masks: &'a [u64],
    book: &'a [u32],
    n: usize,
    ghost fits: { Sized n slots.now masks.now book.now },
}

// Both slices hold the 64 numbers from first on. There is no way out before the last, so that the machine may test several at once.
fn in_turn(tags: &[u32], places: &[u32], first: u32) -> bool
    requires tags { length tags.now ≡ 64 }
    requires places { length places.now ≡ 64 }
    requires first { first < 65536 }
    ensures { result ≡ every (λ i. eqb (get_or tags.now i 0) (first + i) && eqb (get_or places.now i 0) (first + i)) 64 }
{
    let all = tags.iter().zip(places).zip(first..first + 64);
    all.fold(true, |ok, ((t, s), c)| ok & (*t == c) & (*s == c))
}

// The 64 words are finite values. There is no way out before the last, so that the machine may test several at once: the words are joined, each raised so that its
// sign is set if it is not finite, and one sign is tested.
fn finite(words: &[u32]) -> bool
    requires { length words.now ≡ 64 }
    ensures { result ≡ every (λ i. is_finite (get_or words.now i 0)) 64 }
{
    let all = words.iter().fold(0, |all, w| all | floats::raised(*w));
    !floats::negative_word(all)
}

// How many bits of the word are on.
fn bits(w: u64) -> usize
    ensures { result ≡ tally (word_bit w) 64 }
{
    w.count_ones() as usize
}

// How many bits of the 64 words are on.
fn all_bits(words: &[u64]) -> usize
    requires { length words.now ≡ 64 }
    ensures { result ≡ sum 64 (λ j. tally (word_bit (get_or words.now j 0)) 64) }
{
    words.iter().map(|w| bits(*w)).sum()
}

impl Whole<'_> {
    ghost use Rattle.sound.specs.Whole.{state};

    // The number of free cells, as recorded.
    fn count(&self) -> usize
        ensures { result ≡ (state self.now).count }
    {
        cells::count(self.book)
    }

    // Each filled mark is 0 or 1.
    fn all_marks(&self) -> bool
        ensures { result ≡ every (λ t. ltb ((state self.now).mark t) 2) 8 }
    {
        self.book[..8].iter().all(|m| *m < 2)
    }

    // The 64 cells from p on are free, each at its own place of the stack. There is no way out before the last, so that the machine may test several at once.
    fn own(&self, p: usize) -> bool
        requires { p + 64 ≤ self.now.n }
        ensures { result ≡ every (λ i. own_b (state self.now) (p + i)) 64 }
    {
        let tags = HEAD + p;
        let places = HEAD + self.n + p;
        in_turn(
            &self.book[tags..tags + 64],
            &self.book[places..places + 64],
            p as u32,
        )
    }

    // So many cells, from the first on, are free at their own places of the stack. Preparing leaves them so, and the last ones are handed out first: these are the
    // cells that no call has had yet, but for a last group.
    fn untouched(&self) -> usize
        requires { (state self.now).count ≤ self.now.n }
        ensures below { result ≤ (state self.now).count }
        ensures own { (c : ℕ) → c < result → own_b (state self.now) c ≡ true }
    {
        let m = self.count() / 64;
        for j in 0..m {
            if !self.own(64 * j) {
                return 64 * j;
            }
        }
        64 * m
    }

    // Place i of the stack names a cell whose use mark is i.
    fn stacked(&self, i: usize) -> bool
        requires { i < self.now.n }
        ensures { result ≡ stacked_b self.now.n (state self.now) i }
    {
        let c = cells::stacked(self.book, self.n, i);
        c < self.n && cells::tag(self.book, c) == i
    }

    // Each place of the stack below the count of free cells, where those below `from` are known to pass.
    fn all_stacked(&self, from: usize) -> bool
        requires few { (state self.now).count ≤ self.now.n }
        requires below { from ≤ (state self.now).count }
        requires passed { every (stacked_b self.now.n (state self.now)) from ≡ true }
        ensures { result ≡ every (stacked_b self.now.n (state self.now)) (state self.now).count }
    {
        (from..self.count()).all(|i| self.stacked(i))
    }

    // Cell c may have branches: a top links to it. A use mark from 65,536 on names a slot, and below 69,632 a slot of a top.
    fn forks(&self, c: usize) -> bool
        requires { c < self.now.n }
        ensures { result ≡ fork_b (state self.now) (8 + c) }
    {
        let u = cells::tag(self.book, c);
        USED <= u && u < USED_BY_TOPS
    }

    // Cell c counts: it is used.
    fn lives(&self, c: usize) -> bool
        requires { c < self.now.n }
        ensures { result ≡ live_b (state self.now) (8 + c) }
    {
        USED <= cells::tag(self.book, c)
    }

    // The links of the tops: theirs are the first 64 words of the child masks.
    fn top_links(&self) -> usize
        ensures { result ≡ sum 8 (links_of (state self.now)) }
    {
        all_bits(&self.masks[..TOP_MASKS])
    }

    // The links of cell c: one word of the child masks, which only counts if the cell may have branches.
    fn cell_links(&self, c: usize) -> usize
        requires { c < self.now.n }
        ensures { result ≡ links_of (state self.now) (8 + c) }
    {
        if self.forks(c) {
            bits(self.masks[TOP_MASKS + c])
        } else {
            0
        }
    }

    // The links of all nodes, where the cells below `from` are known to have no branches.
    fn all_links(&self, from: usize) -> usize
        requires below { from ≤ self.now.n }
        requires bare { (c : ℕ) → c < from → fork_b (state self.now) (8 + c) ≡ false }
        ensures { result ≡ sum (8 + self.now.n) (links_of (state self.now)) }
    {
        let mut all = self.top_links();
        for c in from..self.n {
            all += self.cell_links(c);
        }
        all
    }

    // The branch at slot k of node x links to a cell of the pool whose use mark names the slot, and is no active value.
    fn link(&self, x: usize, k: usize) -> bool
        requires { In self.now.n x k }
        ensures { result ≡ link_b self.now.n (state self.now) x k }
    {
        let c = nodes::memory::word(self.slots, x, k) as usize;
        if self.n <= c {
            return false;
        }
        cells::tag(self.book, c) == USED + (Top::SIZE * x + k)
            && !nodes::memory::val(self.masks, self.n, x, k)
    }

    // Each slot of group j of node x holds a finite value. A group is 64 slots, which have one word in each mask.
    fn values(&self, x: usize, j: usize) -> bool
        requires { In self.now.n x (64 * j) }
        ensures { result ≡ group (value_b (state self.now) x) j }
    {
        let p = nodes::memory::word_of(x, 64 * j);
        finite(&self.slots[p..p + 64])
    }

    // The word of the child mask that has group j of node x.
    fn kids(&self, x: usize, j: usize) -> u64
        requires { In self.now.n x (64 * j) }
        ensures { (i : ℕ) → i < 64 → word_bit result i ≡ (state self.now).kid x (64 * j + i) }
    {
        self.masks[nodes::memory::word_of(x, 64 * j) / 64]
    }

    // The branches of group j of node x, from the first to the last: no other slot is looked at.
    fn links(&self, x: usize, j: usize) -> bool
        requires { In self.now.n x (64 * j) }
        ensures { result ≡ group (branch_b self.now.n (state self.now) x) j }
    {
        for i in bitset::on_in(self.kids(x, j)) {
            if !self.link(x, 64 * j + i) {
                return false;
            }
        }
        true
    }

    // Group j of node x, which may have branches. A link that stays in the pool is a number below 65,536, which is a finite word too: so all 64 words are tested as
    // values, and the branches once more as links.
    fn eithers(&self, x: usize, j: usize) -> bool
        requires { In self.now.n x (64 * j) }
        ensures { result ≡ group (either_b self.now.n (state self.now) x) j }
    {
        self.values(x, j) && self.links(x, j)
    }

    // Top t, which has eight groups.
    fn top(&self, t: usize) -> bool
        requires { t < 8 }
        ensures { result ≡ node_b self.now.n (state self.now) t }
    {
        (0..TOP_WORDS).all(|j| self.eithers(t, j))
    }

    fn tops(&self) -> bool
        ensures { result ≡ every (node_b self.now.n (state self.now)) 8 }
    {
        (0..8).all(|t| self.top(t))
    }

    // Cell c, which is one group. What a free cell holds does not matter, so none of its slots is read. A used one holds finite words, branches or not (`eithers`).
    fn cell(&self, c: usize) -> bool
        requires { c < self.now.n }
        ensures { result ≡ node_b self.now.n (state self.now) (8 + c) }
    {
        if !self.lives(c) {
            return true;
        }
        if !self.values(8 + c, 0) {
            return false;
        }
        !self.forks(c) || self.links(8 + c, 0)
    }

    // Each cell, where those below `from` are known to pass.
    fn all_cells(&self, from: usize) -> bool
        requires below { from ≤ self.now.n }
        requires passed { every (λ c. node_b self.now.n (state self.now) (8 + c)) from ≡ true }
        ensures { result ≡ every (λ c. node_b self.now.n (state self.now) (8 + c)) self.now.n }
    {
        (from..self.n).all(|c| self.cell(c))
    }

    // The places of the stack that count, and the links of all nodes, are as many as the cells. No cell below `from` has branches.
    fn counted(&self, from: usize) -> bool
        requires few { (state self.now).count ≤ self.now.n }
        requires below { from ≤ self.now.n }
        requires bare { (c : ℕ) → c < from → fork_b (state self.now) (8 + c) ≡ false }
        ensures { result ≡ eqb ((state self.now).count + sum (8 + self.now.n) (links_of (state self.now))) self.now.n }
    {
        self.count() + self.all_links(from) == self.n
    }

    // The whole pool. The count comes first: no place of the stack is read where it is above the number of cells. The links are counted before they are tested: what
    // their number says of the cells holds if each passes, and else the pool is not sound anyway.
    fn sound(&self) -> bool
        ensures { result ≡ sound_b self.now.n (state self.now) }
    {
        if self.n < self.count() {
            return false;
        }
        if !self.all_marks() {
            return false;
        }
        let from = self.untouched();
        if !self.all_stacked(from) {
            return false;
        }
        if !self.counted(from) {
            return false;
        }
        if !self.tops() {
            return false;
        }
        self.all_cells(from)
    }
}

// The pool of n cells that the slices hold is sound. The slices come apart, as the calls have them.
pub fn sound(slots: &[u32], masks: &[u64], book: &[u32], n: usize) -> bool
    requires { Sized n slots.now masks.now book.now }
    ensures { result ≡ sound_b n (st n slots.now masks.now book.now) }
{
    Whole {
        slots,
        masks,
        book,
        n,
    }
    .sound()
}
