// The calls on two seats. Each tests what it was given and then the whole pool before it changes anything.
ghost use Rattle.std.specs.Prelude.{◌≡◌, ◌&&◌, [], ◌∷◌, ◌<◌, length, eqb, slice_index};
ghost use Rattle.grid.specs.Combine as grid;
ghost use Rattle.seats.specs.Call.{Two, Copy, Combine};
ghost use Rattle.nodes.specs.Change.{mark_s};
ghost use Rattle.nodes.specs.Place.{seen};
ghost use Rattle.nodes.specs.Pool.{Same, state};
ghost use Rattle.nodes.specs.Range.{Booked};
ghost use Rattle.trees.specs.Copy.{copy_m};
ghost use Rattle.trees.specs.Combine.{join_o};
ghost use Rattle.means.specs.Joined.{combined_s};
ghost use Rattle.csg.specs.Joinable.{Joinable};
ghost use Rattle.voxels.specs.Answers.{mem_of, Says, done_of};
ghost use Rattle.pool.specs.Guard.{Admitted, room_of, filled_of};

use super::{guard, seat, whole};
use nodes::cells;
use nodes::pool::Pool;
use nodes::view::View;
use trees::below;
use trees::take::Join;
use voxels::refusal::Refusal;

// Refusal 8 or 9 of a copy: the target has to be empty, and the pool to have as many free cells as the source reaches.
fn room(pool: &View<'_>, book: &[u32], from: usize, to: usize) -> Result<(), Refusal>
    requires { (Booked pool.now.n book.now) × (from < 8) × (to < 8) }
    ensures { result ≡ room_of pool.now.n (seen pool.now book.now) from to }
{
    if !whole::both_empty(pool.masks, pool.n, to) {
        return Err(Refusal::Occupied);
    }
    if cells::count(book) < below::reached(pool, 2, from) {
        return Err(Refusal::NoCells);
    }
    Ok(())
}

// The refusal of a copy, or the number of cells.
fn copy_barred(
    slots: &[u32],
    masks: &[u64],
    book: &[u32],
    from: u32,
    to: u32,
) -> Result<usize, Refusal>
    ensures { Admitted (Two Copy from to) (mem_of slots.now masks.now book.now) result }
{
    let n = guard::guard(slots, masks, book, guard::two_given(from, to))?;
    room(&View { slots, masks, n }, book, from as usize, to as usize)?;
    Ok(n)
}

// The copy, where nothing refuses it.
fn copy_unmark(pool: &mut Pool, from: usize, to: usize)
    requires { (from < 8) × (to < 8) }
    ensures kept { Same pool.old pool.new }
    ensures turned { state pool.new ≡ mark_s to 0 (copy_m 3 (2 ∷ 2 ∷ []) pool.old.n from to (state pool.old)) }
{
    trees::copy::copy(pool, 2, from, to);
    cells::set_mark(pool.book, to, 0);
}

// The second seat becomes what the first is, hidden values too, and is not filled.
pub fn copy(
    slots: &mut [u32],
    masks: &mut [u64],
    book: &mut [u32],
    from: u32,
    to: u32,
) -> Result<(), Refusal>
    ensures { Says done_of (Two Copy from to) (mem_of slots.old masks.old book.old) result (mem_of slots.new masks.new book.new) }
{
    let n = copy_barred(slots, masks, book, from, to)?;
    let mut pool = Pool {
        slots,
        masks,
        book,
        n,
    };
    copy_unmark(&mut pool, from as usize, to as usize);
    Ok(())
}

// Whether both seats are filled, which only a mark of 1 says.
fn both_filled(book: &[u32], a: usize, b: usize) -> bool
    requires { (a < length book.now) × (b < length book.now) }
    ensures { result ≡ eqb (slice_index book.now a) 1 && eqb (slice_index book.now b) 1 }
{
    book[a] == 1 && book[b] == 1
}

// Refusal 6 or 7 of a combination: both seats have to be filled, and no branch of them may be empty.
fn filled(pool: &View<'_>, book: &[u32], a: usize, b: usize) -> Result<(), Refusal>
    requires { (Booked pool.now.n book.now) × (a < 8) × (b < 8) }
    ensures { result ≡ filled_of pool.now.n (seen pool.now book.now) a b }
{
    if !both_filled(book, a, b) {
        return Err(Refusal::Unfilled);
    }
    seat::solid(pool, a)?;
    seat::solid(pool, b)
}

// The refusal of a combination, which is the same for the three operations, or the number of cells.
fn combine_barred(
    slots: &[u32],
    masks: &[u64],
    book: &[u32],
    a: u32,
    b: u32,
) -> Result<usize, Refusal>
    ensures { (o : grid.Operation) → Admitted (Two (Combine o) a b) (mem_of slots.now masks.now book.now) result }
{
    let n = guard::guard(slots, masks, book, guard::two_given(a, b))?;
    filled(&View { slots, masks, n }, book, a as usize, b as usize)?;
    Ok(n)
}

// Seat b is joined into seat a, and then cleared: the cells of it that a did not take are free.
fn combined(pool: &mut Pool, a: usize, b: usize, join: Join)
    requires { Joinable pool.old.n 2 (state pool.old) a b }
    ensures kept { Same pool.old pool.new }
    ensures turned { state pool.new ≡ combined_s (join_o join) pool.old.n a b (state pool.old) }
{
    csg::combine::combine(pool, 2, a, b, join);
    pool.wipe(b, floats::far_word(false), false);
}

// The combination, where nothing refuses it: b is not filled after it.
fn combine_unmark(pool: &mut Pool, a: usize, b: usize, join: Join)
    requires { Joinable pool.old.n 2 (state pool.old) a b }
    ensures kept { Same pool.old pool.new }
    ensures turned { state pool.new ≡ mark_s b 0 (combined_s (join_o join) pool.old.n a b (state pool.old)) }
{
    combined(pool, a, b, join);
    cells::set_mark(pool.book, b, 0);
}

// Seat a is combined with seat b, and stays filled; b ends as after a clear.
pub fn combine(
    slots: &mut [u32],
    masks: &mut [u64],
    book: &mut [u32],
    a: u32,
    b: u32,
    join: Join,
) -> Result<(), Refusal>
    ensures { Says done_of (Two (Combine (join_o join)) a b) (mem_of slots.old masks.old book.old) result (mem_of slots.new masks.new book.new) }
{
    let n = combine_barred(slots, masks, book, a, b)?;
    let mut pool = Pool {
        slots,
        masks,
        book,
        n,
    };
    combine_unmark(&mut pool, a as usize, b as usize, join);
    Ok(())
}
