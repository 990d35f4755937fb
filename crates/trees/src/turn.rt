// Prune, cut and flip: one walk over every slot, child first.
ghost use Rattle.std.specs.Prelude.{◌≡◌, cond, not, ◌&&◌, List, ℕ, ◌+◌, ◌-◌, ◌*◌, ◌/◌, ◌%◌, ◌<◌, ◌≤◌, length, get_or, eqb};
ghost use Rattle.bitset.specs.Set.{bit_of, word_bit};
ghost use Rattle.floats.specs.Value.{negated};
ghost use Rattle.nodes.specs.Layout.{st, slots_length};
ghost use Rattle.nodes.specs.Pool.{Same, state};
ghost use Rattle.nodes.specs.Range.{In, Stands, Slotted, Masked};
ghost use Rattle.nodes.specs.Walk.{branching, below};
ghost use Rattle.trees.specs.Slot.{word_s};
ghost use Rattle.trees.specs.Turn.{cuts, hide_if_s, flat_s, back_s, turn_at, turn_m};

use super::slot;
use floats::Test;
use nodes::memory::{BOTH_TOP_MASKS, CELL, TOPS};
use nodes::pool::Pool;
use nodes::{geometry, memory};

// What is done to every slot of a node and of all that hangs below it. It stays an enum, since the specs take it apart and one proof serves the three.
#[derive(Clone, Copy)]
pub enum Work {
    Prune,
    Cut(Test),
    Flip,
}

// A word that is finite and passes the test.
fn cuts(t: Test, w: u32) -> bool
    ensures { result ≡ cuts t w }
{
    floats::finite_word(w) && floats::passed(t, w)
}

// Slot k of node x, which is no branch, is hidden if it is active and passes the test.
#[tactic(auto, unfolding(crate::specs::Turn::hide_if_s))]
fn hide_if(pool: &mut Pool, x: usize, k: usize, t: Test)
    requires { In pool.old.n x k }
    ensures kept { Same pool.old pool.new }
    ensures turned { state pool.new ≡ hide_if_s t x k (state pool.old) }
{
    if pool.val(x, k) && cuts(t, pool.word(x, k)) {
        pool.hide(x, k);
    }
}

// The value of slot k of node x, with the other sign.
fn flip(slots: &mut [u32], n: usize, x: usize, k: usize)
    requires { (Slotted n slots.old) × In n x k }
    ensures { (masks book : List ℕ) → st n slots.new masks book ≡ word_s x k (negated ((st n slots.old masks book).slot x k)) (st n slots.old masks book) }
{
    let w = memory::word(slots, x, k);
    slot::set_value(slots, n, x, k, floats::negated_word(w));
}

// What is done at slot k of node x, which is no branch.
#[tactic(auto, unfolding(crate::specs::Turn::flat_s))]
fn flat(pool: &mut Pool, x: usize, k: usize, work: Work)
    requires { In pool.old.n x k }
    ensures kept { Same pool.old pool.new }
    ensures turned { state pool.new ≡ flat_s work x k (state pool.old) }
{
    match work {
        Work::Prune => (),
        Work::Cut(t) => hide_if(pool, x, k, t),
        Work::Flip => flip(pool.slots, pool.n, x, k),
    }
}

// The 64 words of cell c, each with the other sign.
fn flip_words(slots: &mut [u32], c: usize)
    requires { (c < 65536) × (slots_length (c + 1) ≤ length slots.old) }
    ensures { (i : ℕ) → get_or slots.new i 0
        ≡ cond (eqb (i / 64) (64 + c)) (negated (get_or slots.old (64 * (64 + c) + i % 64) 0)) (get_or slots.old i 0) }
{
    let a = TOPS + CELL * c;
    let cell = &mut slots[a..a + CELL];
    for w in cell.iter_mut() {
        *w = floats::negated_word(*w);
    }
}

// The bit of slot i, if its word is cut.
fn cut_bit(t: Test, w: u32, i: usize) -> u64
    ensures { (k : ℕ) → word_bit result k ≡ cuts t w && eqb (k % 64) (i % 64) }
{
    if cuts(t, w) { bitset::value_mask(i) } else { 0 }
}

// The bits of the slots of cell c whose words are cut.
fn cut_bits(slots: &[u32], c: usize, t: Test) -> u64
    requires { (c < 65536) × (slots_length (c + 1) ≤ length slots.now) }
    ensures { (k : ℕ) → word_bit result k ≡ cuts t (get_or slots.now (64 * (64 + c) + k % 64) 0) }
{
    let a = TOPS + CELL * c;
    let mut bits = 0;
    for (i, w) in slots[a..a + CELL].iter().enumerate() {
        bits |= cut_bit(t, *w, i);
    }
    bits
}

// The values of cell c without those of the bits.
fn drop_values(masks: &mut [u64], n: usize, c: usize, bits: u64)
    requires { (Masked n masks.old) × (c < n) }
    ensures { (j : ℕ) → bit_of masks.new j
        ≡ cond (eqb (j / 64) (128 + n + c)) (bit_of masks.old (64 * (128 + n + c) + j % 64) && not (word_bit bits j)) (bit_of masks.old j) }
{
    masks[BOTH_TOP_MASKS + n + c] = masks[BOTH_TOP_MASKS + n + c] & !bits;
}

// What is done at every slot of leaf x, as one piece. A prune does nothing there.
fn leaf(pool: &mut Pool, x: usize, work: Work)
    requires { Stands pool.old.n 0 x }
    ensures kept { Same pool.old pool.new }
    ensures turned { state pool.new ≡ turn_m (branching 0) (below 0) work pool.old.n x (state pool.old) }
{
    match work {
        Work::Prune => (),
        Work::Cut(t) => {
            let slots = &mut *pool.slots;
            drop_values(pool.masks, pool.n, x - 8, cut_bits(slots, x - 8, t));
        }
        Work::Flip => flip_words(pool.slots, x - 8),
    }
}

// What is done on the way back from the cell below slot k of node x, of a level: a prune and a cut release it if it is empty.
#[tactic(auto, unfolding(crate::specs::Turn::back_s))]
fn back(pool: &mut Pool, level: usize, x: usize, k: usize, work: Work)
    requires { In pool.old.n x k }
    ensures kept { Same pool.old pool.new }
    ensures turned { state pool.new ≡ back_s work (below level) pool.old.n x k (state pool.old) }
{
    match work {
        Work::Prune | Work::Cut(_) => pool.shut(level, x, k),
        Work::Flip => (),
    }
}

// What is done at slot k of node x of a level above the leaves. A leaf is done here: a call of `turn` for each would make a prune slower by a fifth.
#[cycle(turn_turn_slot)]
fn turn_slot(pool: &mut Pool, level: usize, x: usize, k: usize, work: Work)
    requires { (Stands pool.old.n level x) × (In pool.old.n x k) × (0 < level) }
    ensures kept { Same pool.old pool.new }
    ensures turned { state pool.new
        ≡ turn_at work (below (level - 1)) (turn_m (branching (level - 1)) (below (level - 1)) work pool.old.n) pool.old.n x k (state pool.old) }
{
    let Some(c) = pool.child(x, k) else {
        return flat(pool, x, k, work);
    };
    if level == 1 {
        leaf(pool, 8 + c, work);
        return back(pool, 0, x, k, work);
    }
    turn(pool, level - 1, 8 + c, work);
    back(pool, level - 1, x, k, work);
}

// Every slot of node x of a level, and all that hangs below it.
#[cycle(turn_turn_slot)]
pub fn turn(pool: &mut Pool, level: usize, x: usize, work: Work)
    requires { Stands pool.old.n level x }
    ensures kept { Same pool.old pool.new }
    ensures turned { state pool.new ≡ turn_m (branching level) (below level) work pool.old.n x (state pool.old) }
{
    if level == 0 {
        return leaf(pool, x, work);
    }
    for k in 0..geometry::size_in(level) {
        turn_slot(pool, level, x, k, work);
    }
}
