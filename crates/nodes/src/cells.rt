// The changes that every call on a pool is made of: a slot is given a word, a branch is added or released, a seat is marked.
ghost use Rattle.std.specs.Prelude.{◌≡◌, true, false, cond, List, ℕ, ◌+◌, ◌-◌, ◌/◌, ◌<◌, ◌≤◌, length, get_or, eqb};
ghost use Rattle.bitset.specs.Set.{bit_of};
ghost use Rattle.nodes.specs.Layout.{st, word_of, count_place, stack_place, tag_place, slots_length};
ghost use Rattle.nodes.specs.Change.{put_s, attach_s, claim_s, release_s, mark_s, next};
ghost use Rattle.nodes.specs.Range.{In, Cells, Masked, Booked};
ghost use Rattle.nodes.specs.Steps.{slot_s, cell_s, take_s, give_s, Spare, room_s};
ghost use Rattle.nodes.specs.Walk.{ready_s};
ghost use Rattle.nodes.specs.Pool.{Same, state};

use super::geometry::{Level, Top};
use super::memory;
use super::memory::{BOTH_TOP_MASKS, CELL, COUNT, HEAD, TOP_MASKS, TOPS, USED};
use super::pool::Pool;

// The slot whose word is at place i holds the word w, active or hidden. Its bit in the child mask stays. The promise holds whatever
// the book: so it is over two slices and no method of a pool.
pub fn put_at(slots: &mut [u32], masks: &mut [u64], n: usize, i: usize, w: u32, active: bool)
    requires { (Cells n slots.old masks.old) × (i < slots_length n) }
    ensures { (book : List ℕ) (x k : ℕ) → In n x k → i ≡ word_of x k → st n slots.new masks.new book ≡ put_s x k w active (st n slots.old masks.old book) }
{
    slots[i] = w;
    bitset::set(masks, 64 * (TOP_MASKS + n) + i, active);
}

// The same of slot k of node x.
pub fn put(slots: &mut [u32], masks: &mut [u64], n: usize, x: usize, k: usize, w: u32, active: bool)
    requires { (Cells n slots.old masks.old) × In n x k }
    ensures { (book : List ℕ) → st n slots.new masks.new book ≡ put_s x k w active (st n slots.old masks.old book) }
{
    put_at(slots, masks, n, memory::word_of(x, k), w, active);
}

// The 64 words of cell c.
fn fill(slots: &mut [u32], c: usize, w: u32)
    requires { (c < 65536) × (slots_length (c + 1) ≤ length slots.old) }
    ensures { (i : ℕ) → get_or slots.new i 0 ≡ cond (eqb (i / 64) (64 + c)) w (get_or slots.old i 0) }
{
    let base = TOPS + CELL * c;
    slots[base..base + CELL].fill(w);
}

// The masks of cell c: no child, and all values on or off.
fn paint(masks: &mut [u64], n: usize, c: usize, on: bool)
    requires { (Masked n masks.old) × (c < n) }
    ensures { (j : ℕ) → bit_of masks.new j ≡ cond (eqb (j / 64) (128 + n + c)) on (cond (eqb (j / 64) (64 + c)) false (bit_of masks.old j)) }
{
    masks[TOP_MASKS + c] = 0;
    masks[BOTH_TOP_MASKS + n + c] = if on { u64::MAX } else { 0 };
}

// The slots of cell c all hold w, active or hidden.
pub fn blank(slots: &mut [u32], masks: &mut [u64], n: usize, c: usize, w: u32, active: bool)
    requires { (Cells n slots.old masks.old) × (c < n) }
    ensures { (book : List ℕ) → st n slots.new masks.new book ≡ cell_s c w active (st n slots.old masks.old book) }
{
    fill(slots, c, w);
    paint(masks, n, c, active);
}

// The number of free cells, as recorded.
pub fn count(book: &[u32]) -> usize
    requires { count_place < length book.now }
    ensures { result ≡ get_or book.now count_place 0 }
{
    book[COUNT] as usize
}

// Place i of the stack of free cells.
pub fn stacked(book: &[u32], n: usize, i: usize) -> usize
    requires { (Booked n book.now) × (i < n) }
    ensures { result ≡ get_or book.now (stack_place n i) 0 }
{
    book[HEAD + n + i] as usize
}

// The use mark of cell c.
pub fn tag(book: &[u32], c: usize) -> usize
    requires { tag_place c < length book.now }
    ensures { result ≡ get_or book.now (tag_place c) 0 }
{
    book[HEAD + c] as usize
}

// The next free cell is taken: its use mark names slot k of node x.
fn take(book: &mut [u32], n: usize, x: usize, k: usize) -> usize
    requires { (Booked n book.old) × (Spare n book.old) × In n x k }
    ensures { (result < n) × ((slots masks : List ℕ) → (st n slots masks book.new ≡ take_s x k (st n slots masks book.old)) × (result ≡ next (st n slots masks book.old))) }
{
    let last = count(book) - 1;
    let c = stacked(book, n, last);
    book[COUNT] = last as u32;
    book[HEAD + c] = (USED + (Top::SIZE * x + k)) as u32;
    c
}

// Cell c goes on top of the stack of free cells.
pub fn give(book: &mut [u32], n: usize, c: usize)
    requires { (Booked n book.old) × (get_or book.old count_place 0 < n) × (c < n) }
    ensures { (slots masks : List ℕ) → st n slots masks book.new ≡ give_s c (st n slots masks book.old) }
{
    let free = count(book);
    book[HEAD + n + free] = c as u32;
    book[HEAD + c] = free as u32;
    book[COUNT] = (free + 1) as u32;
}

// The filled mark of seat t.
pub fn set_mark(book: &mut [u32], t: usize, m: u32)
    requires { (t < 8) × (t < length book.old) }
    ensures { (n : ℕ) (slots masks : List ℕ) → st n slots masks book.new ≡ mark_s t m (st n slots masks book.old) }
{
    book[t] = m;
}

impl Pool<'_> {
    // Slot k of node x holds the word w, active or hidden. Its bit in the child mask stays.
    pub fn put(&mut self, x: usize, k: usize, w: u32, active: bool)
        requires { In self.old.n x k }
        ensures kept { Same self.old self.new }
        ensures turned { state self.new ≡ put_s x k w active (state self.old) }
    {
        put(self.slots, self.masks, self.n, x, k, w, active);
    }

    // The slot's word and both its bits.
    pub fn set_slot(&mut self, x: usize, k: usize, w: u32, kid: bool, val: bool)
        requires { In self.old.n x k }
        ensures kept { Same self.old self.new }
        ensures turned { state self.new ≡ slot_s x k w kid val (state self.old) }
    {
        memory::set_word(self.slots, x, k, w);
        memory::set_kid(self.masks, x, k, kid);
        memory::set_val(self.masks, self.n, x, k, val);
    }

    // The slots of cell c all hold w, active or hidden.
    pub fn blank(&mut self, c: usize, w: u32, active: bool)
        requires { c < self.old.n }
        ensures kept { Same self.old self.new }
        ensures turned { state self.new ≡ cell_s c w active (state self.old) }
    {
        blank(self.slots, self.masks, self.n, c, w, active);
    }

    // The number of free cells, as recorded.
    pub(crate) fn count(&self) -> usize
        ensures { result ≡ (state self.now).count }
    {
        count(self.book)
    }

    // The next free cell can be had.
    pub fn ready(&self) -> bool
        ensures { result ≡ ready_s self.now.n (state self.now) }
    {
        let free = count(self.book);
        free > 0 && free <= self.n && stacked(self.book, self.n, free - 1) < self.n
    }

    // A branch is added below slot k of node x: a free cell, whose slots all hold w, active or hidden. The answer is the cell's number.
    pub fn attach(&mut self, x: usize, k: usize, w: u32, active: bool) -> usize
        requires { In self.old.n x k × (ready_s self.old.n (state self.old) ≡ true) }
        ensures kept { Same self.old self.new }
        ensures turned { state self.new ≡ attach_s x k w active (state self.old) }
        ensures cell { result ≡ next (state self.old) }
    {
        let c = take(self.book, self.n, x, k);
        self.blank(c, w, active);
        self.set_slot(x, k, c as u32, true, false);
        c
    }

    // The same, but the cell's slots are as they were: it is for whoever writes them all.
    pub fn claim(&mut self, x: usize, k: usize) -> usize
        requires { In self.old.n x k × (ready_s self.old.n (state self.old) ≡ true) }
        ensures kept { Same self.old self.new }
        ensures turned { state self.new ≡ claim_s x k (state self.old) }
        ensures cell { (result < self.old.n) × (result ≡ next (state self.old)) }
    {
        let c = take(self.book, self.n, x, k);
        self.set_slot(x, k, c as u32, true, false);
        c
    }

    // The cell below slot k of node x is free again, and the slot is hidden with +far. Nothing is done where the link leaves the pool, or the stack is full.
    pub fn release(&mut self, x: usize, k: usize)
        requires { In self.old.n x k }
        ensures kept { Same self.old self.new }
        ensures turned { state self.new ≡ cond (room_s self.old.n x k (state self.old)) (release_s x k (state self.old)) (state self.old) }
    {
        let c = self.word(x, k) as usize;
        if c < self.n && self.count() < self.n {
            give(self.book, self.n, c);
            self.set_slot(x, k, floats::far_word(false), false, false);
        }
    }
}
