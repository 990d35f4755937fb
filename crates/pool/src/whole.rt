// Preparing and counting the pool, and whether a seat is empty. Preparing alone changes memory, and only once the lengths are known to belong together.
ghost use Rattle.std.specs.Prelude.{◌≡◌, List, [], ◌∷◌, ℕ, ◌<◌};
ghost use Rattle.grid.specs.Whole.{is_empty};
ghost use Rattle.seats.specs.Call.{One, IsEmpty, Prepare, Count};
ghost use Rattle.nodes.specs.State.{tree};
ghost use Rattle.nodes.specs.Layout.{st};
ghost use Rattle.nodes.specs.Range.{Masked};
ghost use Rattle.voxels.specs.Answers.{mem_of, Says, done_of, whether_of};
ghost use Rattle.pool.specs.Count.{count_of};

use super::guard;
use nodes::geometry::{Level, Top};
use nodes::memory::{COUNT, TOP_MASKS, TOP_WORDS};
use sound::lengths;
use voxels::refusal::Refusal;

// Every cell is freed and every seat emptied, whatever the memory held. Refused only where the lengths do not belong together.
pub fn prepare(slots: &mut [u32], masks: &mut [u64], book: &mut [u32]) -> Result<(), Refusal>
    ensures { Says done_of Prepare (mem_of slots.old masks.old book.old) result (mem_of slots.new masks.new book.new) }
{
    let n = lengths::cells(slots.len(), masks.len(), book.len()).ok_or(Refusal::Lengths)?;
    sound::prepare::prepare(slots, masks, book, n);
    Ok(())
}

// The free cells. The recorded count is a true one, since the pool was tested.
pub fn count(slots: &[u32], masks: &[u64], book: &[u32]) -> Result<u32, Refusal>
    ensures { Says count_of Count (mem_of slots.now masks.now book.now) result (mem_of slots.now masks.now book.now) }
{
    guard::guard(slots, masks, book, Ok(()))?;
    Ok(book[COUNT])
}

// Both masks of the top of seat t are empty: no slot of it is a branch or an active tile. A top has 8 words in each mask, and the tops come first.
pub fn both_empty(masks: &[u64], n: usize, t: usize) -> bool
    requires { (Masked n masks.now) × (t < 8) }
    ensures { (slots book : List ℕ) → result ≡ is_empty 3 (2 ∷ 2 ∷ []) (tree 3 (2 ∷ 2 ∷ []) (st n slots masks.now book) t) }
{
    let a = TOP_WORDS * t;
    if !bitset::is_empty(&masks[a..a + TOP_WORDS], Top::SIZE) {
        return false;
    }
    let b = TOP_MASKS + n + a;
    bitset::is_empty(&masks[b..b + TOP_WORDS], Top::SIZE)
}

// Whether a seat is empty: a look at the masks of its top, once the whole pool is known to be sound.
pub fn is_empty(slots: &[u32], masks: &[u64], book: &[u32], seat: u32) -> Result<bool, Refusal>
    ensures { Says whether_of (One seat IsEmpty) (mem_of slots.now masks.now book.now) result (mem_of slots.now masks.now book.now) }
{
    let n = guard::guard(slots, masks, book, guard::one_given(seat, true))?;
    Ok(both_empty(masks, n, seat as usize))
}
