// One slot of a node: whether it is hidden, and its value changed.
ghost use Rattle.std.specs.Prelude.{◌≡◌, List, ℕ, ◌<◌};
ghost use Rattle.nodes.specs.Layout.{st};
ghost use Rattle.nodes.specs.Range.{In, Slotted, Masked};
ghost use Rattle.nodes.specs.Walk.{below};
ghost use Rattle.trees.specs.Slot.{hidden_s, word_s};

use nodes::memory;

// Slot k of node x, of any level above the leaves, is neither active nor a branch.
pub fn hidden(masks: &[u64], n: usize, x: usize, k: usize) -> bool
    requires { (Masked n masks.now) × In n x k }
    ensures { (slots book : List ℕ) (l : ℕ) → 0 < l → result ≡ hidden_s (below l) (st n slots masks.now book) x k }
{
    if memory::val(masks, n, x, k) {
        return false;
    }
    !memory::kid(masks, x, k)
}

// Slot k of node x holds the word w, and is active, hidden or a branch as before.
pub fn set_value(slots: &mut [u32], n: usize, x: usize, k: usize, w: u32)
    requires { (Slotted n slots.old) × In n x k }
    ensures { (masks book : List ℕ) → st n slots.new masks book ≡ word_s x k w (st n slots.old masks book) }
{
    memory::set_word(slots, x, k, w);
}
