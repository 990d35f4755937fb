// The tests that the calls on the whole pool have in common, in the order of the refusals.
ghost use Rattle.std.specs.Prelude.{◌≡◌};
ghost use Rattle.voxels.specs.Answers.{mem_of};
ghost use Rattle.pool.specs.Guard.{one_given, two_given, Guarded};

use sound::{lengths, test};
use voxels::refusal::Refusal;

// The refusal that the arguments of a call on one seat give, where `finite` tells of its values.
pub fn one_given(seat: u32, finite: bool) -> Result<(), Refusal>
    ensures { result ≡ one_given seat finite }
{
    if 7 < seat {
        return Err(Refusal::Seat);
    }
    if !finite {
        return Err(Refusal::Value);
    }
    Ok(())
}

// The same of a call on two seats that gives no values.
pub fn two_given(first: u32, second: u32) -> Result<(), Refusal>
    ensures { result ≡ two_given first second }
{
    if 7 < first || 7 < second {
        return Err(Refusal::Seat);
    }
    if first == second {
        return Err(Refusal::SameSeat);
    }
    Ok(())
}

// The first refusal of a call on the whole pool up to 5, where `given` is that of its arguments; if there is none, the number of cells.
#[tactic(auto, unfolding(crate::specs::Guard::guard_of))]
pub fn guard(
    slots: &[u32],
    masks: &[u64],
    book: &[u32],
    given: Result<(), Refusal>,
) -> Result<usize, Refusal>
    ensures { Guarded (mem_of slots.now masks.now book.now) given result }
{
    let n = lengths::cells(slots.len(), masks.len(), book.len()).ok_or(Refusal::Lengths)?;
    given?;
    if !test::sound(slots, masks, book, n) {
        return Err(Refusal::Damaged);
    }
    Ok(n)
}
