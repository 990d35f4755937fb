// The free cells that a call on one voxel needs. Only as many places of the stack are looked at as are needed and recorded, and nothing is taken yet: the second of two
// cells is found before the first is taken.
ghost use Rattle.std.specs.Prelude.{◌≡◌, ◌||◌, List, ℕ, ◌-◌, ◌≤◌, ◌<◌, ltb, leb};
ghost use Rattle.bitset.specs.Set.{every};
ghost use Rattle.nodes.specs.Layout.{st};
ghost use Rattle.nodes.specs.Range.{Booked};
ghost use Rattle.voxels.specs.Answers.{afford_s};

use super::refusal::Refusal;
use nodes::cells;

// The free cell number j from the top of the stack, if so many are recorded, is one of the pool's.
fn linked(book: &[u32], n: usize, free: usize, j: usize) -> bool
    requires { (Booked n book.now) × (free ≤ n) }
    ensures { (slots masks : List ℕ) → result ≡ leb free j || ltb ((st n slots masks book.now).stack (free - 1 - j)) n }
{
    free <= j || cells::stacked(book, n, free - 1 - j) < n
}

fn all_linked(book: &[u32], n: usize, free: usize, need: usize) -> bool
    requires { (Booked n book.now) × (free ≤ n) }
    ensures { (slots masks : List ℕ) → result ≡ every (λ j. leb free j || ltb ((st n slots masks book.now).stack (free - 1 - j)) n) need }
{
    (0..need).all(|j| linked(book, n, free, j))
}

// Damaged if a link among the cells needed leaves the pool, or else NoCells if there are too few. A count above the cells puts the first place outside.
pub fn afford(book: &[u32], n: usize, need: usize) -> Result<(), Refusal>
    requires { Booked n book.now }
    ensures { (slots masks : List ℕ) → result ≡ afford_s n (st n slots masks book.now) need }
{
    if need == 0 {
        return Ok(());
    }
    let free = cells::count(book);
    if n < free || !all_linked(book, n, free, need) {
        return Err(Refusal::Damaged);
    }
    if free < need {
        return Err(Refusal::NoCells);
    }
    Ok(())
}
