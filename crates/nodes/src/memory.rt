// The places of words and bits, and what is read and stored there.
ghost use Rattle.std.specs.Prelude.{◌≡◌, cond, ℕ, ◌+◌, ◌*◌, ◌<◌, length, get_or, set, eqb};
ghost use Rattle.bitset.specs.Set.{bit_of};
ghost use Rattle.nodes.specs.Layout.{word_of, kid_bit, val_bit};
ghost use Rattle.nodes.specs.Range.{Masked, Placed};

use super::geometry::{Leaf, Level, Top};

// The words of the tops of the eight seats, which stand first, and of a cell.
pub const TOPS: usize = 8 * Top::SIZE;

pub const CELL: usize = Leaf::SIZE;

// A mask has a word for 64 slots: these are the words of a top, those of all tops, and those of all tops in both masks. A cell has one in each.
pub const TOP_WORDS: usize = Top::SIZE / 64;

pub const TOP_MASKS: usize = 8 * TOP_WORDS;

pub const BOTH_TOP_MASKS: usize = 2 * TOP_MASKS;

// The book: the marks of the seats and the count of free cells are its head; the use marks of the cells follow, and the stack.
pub const COUNT: usize = 8;

pub const HEAD: usize = 9;

// A use mark from here on names the slot that links to the cell, and below the second number a slot of a top.
pub const USED: usize = 65536;

pub const USED_BY_TOPS: usize = USED + TOPS;

// Cells are nodes from 8 on: where the words of node 0 would be, were it a cell.
const NODES: usize = TOPS - 8 * CELL;

// The place of a slot's word, and of its bit among the child bits and among the value bits.
pub fn word_of(x: usize, k: usize) -> usize
    requires { (x < 65544) × (k < 512) }
    ensures { result ≡ word_of x k }
{
    if x < 8 {
        Top::SIZE * x + k
    } else {
        NODES + CELL * x + k
    }
}

// The word of slot k of node x: a cell number or a value.
pub fn word(slots: &[u32], x: usize, k: usize) -> u32
    requires { Placed x k (length slots.now) }
    ensures { result ≡ get_or slots.now (word_of x k) 0 }
{
    let i = word_of(x, k);
    slots[i]
}

// Its bit in the child mask.
pub fn kid(masks: &[u64], x: usize, k: usize) -> bool
    requires { Placed x k (64 * length masks.now) }
    ensures { result ≡ bit_of masks.now (kid_bit x k) }
{
    bitset::at(masks, word_of(x, k))
}

// Its bit in the value mask: the value bits stand after all the child bits.
pub fn val(masks: &[u64], n: usize, x: usize, k: usize) -> bool
    requires { (Masked n masks.now) × Placed x k (64 * (64 + n)) }
    ensures { result ≡ bit_of masks.now (val_bit n x k) }
{
    bitset::at(masks, 64 * (TOP_MASKS + n) + word_of(x, k))
}

pub fn set_word(slots: &mut [u32], x: usize, k: usize, w: u32)
    requires { Placed x k (length slots.old) }
    ensures { slots.new ≡ set slots.old (word_of x k) w }
{
    let i = word_of(x, k);
    slots[i] = w;
}

pub fn set_kid(masks: &mut [u64], x: usize, k: usize, on: bool)
    requires { Placed x k (64 * length masks.old) }
    ensures { (j : ℕ) → bit_of masks.new j ≡ cond (eqb j (kid_bit x k)) on (bit_of masks.old j) }
{
    bitset::set(masks, word_of(x, k), on);
}

pub fn set_val(masks: &mut [u64], n: usize, x: usize, k: usize, on: bool)
    requires { (Masked n masks.old) × Placed x k (64 * (64 + n)) }
    ensures { (j : ℕ) → bit_of masks.new j ≡ cond (eqb j (val_bit n x k)) on (bit_of masks.old j) }
{
    bitset::set(masks, 64 * (TOP_MASKS + n) + word_of(x, k), on);
}

// Bit k of mask word q, by the bit's weight: two tests of one bit then reckon it once.
pub fn bit_in(masks: &[u64], q: usize, k: usize) -> bool
    requires { (q < length masks.now) × (k < 64) }
    ensures { result ≡ bit_of masks.now (64 * q + k) }
{
    masks[q] & bitset::value_mask(k) != 0
}
