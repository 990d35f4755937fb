// Preparing: every cell is freed, and every seat emptied. What a free cell holds is never read, so no word of a cell is written, and the cost is that of eight tops and
// of the book.
ghost use Rattle.std.specs.Prelude.{ℕ, ◌+◌, ◌≤◌, ◌<◌, length};
ghost use Rattle.nodes.specs.Layout.{Sized, st};
ghost use Rattle.nodes.specs.Range.{Masked, Booked};
ghost use Rattle.means.specs.Level.{Same};
ghost use Rattle.means.specs.Prepared.{Ready};
ghost use Rattle.sound.specs.Runs.{Run, Emptied, Freed};

use nodes::memory::{BOTH_TOP_MASKS, COUNT, HEAD, TOP_MASKS, TOPS};

// The len words from lo on become w.
fn fill(ws: &mut [u32], lo: usize, len: usize, w: u32)
    requires { lo + len ≤ length ws.old }
    ensures { Run lo len (λ i. w) ws.old ws.new }
{
    ws[lo..lo + len].fill(w);
}

// The len words from lo on become 0, 1, 2 and so on.
fn count_up(ws: &mut [u32], lo: usize, len: usize)
    requires { (lo + len ≤ length ws.old) × (len < 65536) }
    ensures { Run lo len (λ i. i) ws.old ws.new }
{
    for (i, w) in ws[lo..lo + len].iter_mut().enumerate() {
        *w = i as u32;
    }
}

// No slot of a top is a branch or an active value: the words of the tops stand first among the child masks and first among the value masks.
fn empty_tops(masks: &mut [u64], n: usize)
    requires { Masked n masks.old }
    ensures { Emptied n masks.old masks.new }
{
    bitset::zeroes(&mut masks[0..TOP_MASKS]);
    let a = TOP_MASKS + n;
    let e = BOTH_TOP_MASKS + n;
    bitset::zeroes(&mut masks[a..e]);
}

// No seat is marked, and every cell is free: cell c at place c of the stack, which its use mark says.
fn free_all(book: &mut [u32], n: usize)
    requires { Booked n book.old }
    ensures { Freed n book.new }
{
    fill(book, 0, COUNT, 0);
    count_up(book, HEAD, n);
    count_up(book, HEAD + n, n);
    book[COUNT] = n as u32;
}

// Afterwards the pool is ready, and every slot of a cell is as it was.
pub fn prepare(slots: &mut [u32], masks: &mut [u64], book: &mut [u32], n: usize)
    requires { Sized n slots.old masks.old book.old }
    ensures ready { Ready n (st n slots.new masks.new book.new) }
    ensures kept { (x : ℕ) → 8 ≤ x → Same (st n slots.old masks.old book.old) (st n slots.new masks.new book.new) x }
{
    fill(slots, 0, TOPS, floats::far_word(false));
    empty_tops(masks, n);
    free_all(book, n);
}
