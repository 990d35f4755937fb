// The sign at a voxel of a filled seat.
ghost use Rattle.std.specs.Prelude.{◌≡◌, List, [], ◌∷◌, ℕ, ◌<◌};
ghost use Rattle.grid.specs.Geometry.{Point};
ghost use Rattle.seats.specs.Call.{One, Sign};
ghost use Rattle.nodes.specs.Place.{seen};
ghost use Rattle.nodes.specs.Walk.{reach_s, voxel_of, voxels};
ghost use Rattle.voxels.specs.Answers.{mem_of, Says, EndsAt, InPool, whether_of, signed_r};

use super::admit::admitted;
use super::refusal::Refusal;
use super::voxel::reached;
use nodes::geometry;
use nodes::seek::End;
use nodes::view::View;

// Whether the value at the end of a walk is negative, which only a filled seat tells. A broken path is refused first, filled or not. -0 is negative, so the sign bit is
// looked at and no number compared.
fn signed(pool: &View<'_>, end: Option<End>, filled: bool) -> Result<bool, Refusal>
    requires { InPool pool.now.n end }
    ensures { (book : List ℕ) (p : Point) (i : ℕ) → EndsAt pool.now.n (seen pool.now book) i p end
        → result ≡ signed_r (reach_s 3 (2 ∷ 2 ∷ []) pool.now.n (seen pool.now book) i p) filled }
{
    let (_, w) = reached(pool, end)?;
    if !filled {
        return Err(Refusal::Unfilled);
    }
    Ok(floats::negative_word(w))
}

// Whether the value at a voxel of a filled seat, active or hidden, is negative. A mark of 1 alone is set.
pub fn sign(
    slots: &[u32],
    masks: &[u64],
    book: &[u32],
    seat: u32,
    v: usize,
) -> Result<bool, Refusal>
    requires { v < voxels }
    ensures { (p : Point) → v ≡ voxel_of p → Says whether_of (One seat (Sign p)) (mem_of slots.now masks.now book.now) result (mem_of slots.now masks.now book.now) }
{
    let n = admitted(slots, masks, book, seat)?;
    let t = seat as usize;
    let pool = View { slots, masks, n };
    signed(&pool, pool.seek(t, geometry::path(v)), book[t] == 1)
}
