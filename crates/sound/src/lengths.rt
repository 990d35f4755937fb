// The test of the lent lengths.
ghost use Rattle.std.specs.Prelude.{◌≡◌, ◌&&◌, cond, length, ltb, eqb, Some, None};
ghost use Rattle.means.specs.Mem.{Mem, fits, cells_of};
ghost use Rattle.nodes.specs.Layout.{slots_length, masks_length, book_length};

use nodes::memory::{BOTH_TOP_MASKS, CELL, HEAD, TOPS};

// The lengths are those of a pool of n cells, from 1 to 65,535.
fn fit(n: usize, slots: usize, masks: usize, book: usize) -> bool
    ensures { result ≡ (ltb 0 n && (ltb n 65536 && (eqb slots (slots_length n) && (eqb masks (masks_length n) && eqb book (book_length n))))) }
{
    0 < n
        && n < 65536
        && slots == TOPS + CELL * n
        && masks == BOTH_TOP_MASKS + 2 * n
        && book == HEAD + 2 * n
}

// The number of cells for which three slices of these lengths belong together. The length of the slots alone gives the only number that there can be.
pub fn cells(slots: usize, masks: usize, book: usize) -> Option<usize>
    ensures { (m : Mem) → length m.slots ≡ slots → length m.masks ≡ masks → length m.book ≡ book → result ≡ cond (fits m) (Some (cells_of m)) None }
{
    let n = slots.saturating_sub(TOPS) / CELL;
    fit(n, slots, masks, book).then_some(n)
}
