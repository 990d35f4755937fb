// A leaf as one piece of words. A sign is carried as the far word that has it.
ghost use Rattle.std.specs.Prelude.{◌≡◌, [], ◌+◌, ◌<◌, ◌≤◌};
ghost use Rattle.bitset.specs.Set.{word_bit};
ghost use Rattle.floats.specs.Value.{negative, far_with};
ghost use Rattle.signs.specs.Seen.{LeafShows};

use super::rows::Carry;
use nodes::geometry::{Leaf, Level};

// The 64 words from place p on, with their value bits.
#[derive(Clone, Copy)]
pub struct LeafWords {
    pub p: usize,
    pub v: u64,
    pub ghost low: { p < 0x1_0000_0000 },
}

// The far word with the sign of w.
fn far_like(w: u32) -> u32
    ensures { result ≡ far_with (negative w) }
{
    floats::far_word(floats::negative_word(w))
}

impl LeafWords {
    // Slot k is active.
    fn on(self, k: usize) -> bool
        ensures { result ≡ word_bit self.v k }
    {
        self.v & bitset::value_mask(k) != 0
    }
}

impl Carry for LeafWords {
    type Sign = u32;

    ghost branches = { λ it. 2 };

    ghost deeper = { λ it. [] };

    ghost room = { λ it m. it.p + 64 ≤ m };

    ghost shows = { λ it q m. LeafShows it.p it.v q m };

    ghost carried = { far_with };

    fn side(self) -> usize {
        1 << Leaf::BRANCHING
    }

    fn start(self, slots: &[u32]) -> u32 {
        if self.v == 0 {
            return floats::far_word(false);
        }
        let k = u64::leading_zeros(self.v) as usize;
        far_like(slots[self.p + k])
    }

    fn behind(self, slots: &[u32], k: usize, before: u32) -> u32 {
        let here = far_like(slots[self.p + k]);
        if self.on(k) { here } else { before }
    }

    fn write(self, slots: &mut [u32], k: usize, sign: u32) {
        let w = slots[self.p + k];
        slots[self.p + k] = if self.on(k) { w } else { sign };
    }
}
