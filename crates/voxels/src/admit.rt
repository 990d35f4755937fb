// What every call on one seat tests first.
ghost use Rattle.std.specs.Prelude.{◌≡◌, ◌<◌, IfOk};
ghost use Rattle.nodes.specs.Layout.{Sized};
ghost use Rattle.voxels.specs.Answers.{mem_of, admitted_s};

use super::refusal::Refusal;
use sound::lengths;

// The number of cells, where the lent lengths belong together and there is such a seat.
pub fn admitted(slots: &[u32], masks: &[u64], book: &[u32], seat: u32) -> Result<usize, Refusal>
    ensures told { result ≡ admitted_s (mem_of slots.now masks.now book.now) seat }
    ensures fit { IfOk result (λ n. Sized n slots.now masks.now book.now × (seat < 8)) }
{
    let n = lengths::cells(slots.len(), masks.len(), book.len()).ok_or(Refusal::Lengths)?;
    if 7 < seat {
        return Err(Refusal::Seat);
    }
    Ok(n)
}
