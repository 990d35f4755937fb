// Two leaves joined. No value is tested: a sound pool has none that is not finite.
ghost use Rattle.std.specs.Prelude.{◌≡◌, true, cond, ◌||◌, List, ℕ, ◌+◌, ◌-◌, ◌*◌, ◌/◌, ◌%◌, ◌<◌, ◌≤◌, length, get_or, eqb};
ghost use Rattle.bitset.specs.Set.{bit_of};
ghost use Rattle.floats.specs.Value.{is_finite};
ghost use Rattle.grid.specs.Combine.{joined};
ghost use Rattle.nodes.specs.Layout.{st, slots_length};
ghost use Rattle.nodes.specs.Range.{Stands, Cells, Masked};
ghost use Rattle.nodes.specs.Walk.{branching, below};
ghost use Rattle.trees.specs.Combine.{join_o, FiniteLeaf, combine_m};

use super::take::Join;
use nodes::memory::{BOTH_TOP_MASKS, CELL, TOPS};

impl Join {
    // "union takes minima, subtract the maximum of a and -b, intersect maxima".
    #[tactic(auto, using(floats::proofs::Finite::finite_negated))]
    fn join_words(self, v: u32, w: u32) -> u32
        requires { (is_finite v ≡ true) × (is_finite w ≡ true) }
        ensures { result ≡ joined (join_o self) v w }
    {
        match self {
            Join::Union => floats::least_word(v, w),
            Join::Subtract => floats::most_word(v, floats::negated_word(w)),
            Join::Intersect => floats::most_word(v, w),
        }
    }
}

// The 64 words of cell c, joined with those of cell d.
fn join_values(slots: &mut [u32], c: usize, d: usize, join: Join)
    requires { (c < 65536) × (d < 65536) × (slots_length (c + 1) ≤ length slots.old) × (slots_length (d + 1) ≤ length slots.old) × (FiniteLeaf slots.old c) × (FiniteLeaf slots.old d) }
    ensures { (i : ℕ) → get_or slots.new i 0
        ≡ cond (eqb (i / 64) (64 + c)) (joined (join_o join) (get_or slots.old (64 * (64 + c) + i % 64) 0) (get_or slots.old (64 * (64 + d) + i % 64) 0)) (get_or slots.old i 0) }
{
    let a = TOPS + CELL * c;
    let b = TOPS + CELL * d;
    for i in 0..CELL {
        slots[a + i] = join.join_words(slots[a + i], slots[b + i]);
    }
}

// The values of cell c, joined with those of cell d: "masks are joined".
fn join_masks(masks: &mut [u64], n: usize, c: usize, d: usize)
    requires { (Masked n masks.old) × (c < n) × (d < n) }
    ensures { (j : ℕ) → bit_of masks.new j
        ≡ cond (eqb (j / 64) (128 + n + c)) (bit_of masks.old (64 * (128 + n + c) + j % 64) || bit_of masks.old (64 * (128 + n + d) + j % 64)) (bit_of masks.old j) }
{
    masks[BOTH_TOP_MASKS + n + c] |= masks[BOTH_TOP_MASKS + n + d];
}

// Leaf y joined into leaf x, as one piece. The promise holds whatever the book: so it is over two slices and not over a pool.
pub fn join_leaf(slots: &mut [u32], masks: &mut [u64], n: usize, x: usize, y: usize, join: Join)
    requires { (Cells n slots.old masks.old) × (Stands n 0 x) × (Stands n 0 y) × (FiniteLeaf slots.old (x - 8)) × (FiniteLeaf slots.old (y - 8)) }
    ensures { (book : List ℕ) → st n slots.new masks.new book ≡ combine_m (branching 0) (below 0) (join_o join) n x y (st n slots.old masks.old book) }
{
    join_values(slots, x - 8, y - 8, join);
    join_masks(masks, n, x - 8, y - 8);
}
