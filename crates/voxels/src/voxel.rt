// The calls on one voxel of a seat, by the number of the voxel. Each tests what it was given, and walks to the voxel and looks at the path and at the free cells that it
// needs before it changes anything.
ghost use Rattle.std.specs.Prelude.{◌≡◌, true, cond, List, [], ◌∷◌, ℕ, ◌<◌};
ghost use Rattle.grid.specs.Geometry.{Point};
ghost use Rattle.seats.specs.Call.{One, Lookup, Insert, Remove};
ghost use Rattle.floats.specs.Value.{is_finite, equal};
ghost use Rattle.nodes.specs.Layout.{st, Sized};
ghost use Rattle.nodes.specs.Place.{seen};
ghost use Rattle.nodes.specs.Change.{mark_s};
ghost use Rattle.nodes.specs.Walk.{insert_m, reach_s, point_of, voxel_of, voxels};
ghost use Rattle.nodes.specs.Remove.{remove_m};
ghost use Rattle.nodes.specs.Range.{Booked};
ghost use Rattle.voxels.specs.Answers.{mem_of, Says, EndsAt, InPool, found_of, done_of, reached_r, shown_r, insert_blocked, remove_blocked};

use super::admit::admitted;
use super::free;
use super::refusal::Refusal;
use nodes::pool::Pool;
use nodes::seek::End;
use nodes::view::View;
use nodes::{cells, geometry, remove};

// The end of a walk, and the word there, which has to be finite.
pub fn reached(pool: &View<'_>, end: Option<End>) -> Result<(End, u32), Refusal>
    requires { InPool pool.now.n end }
    ensures { result ≡ reached_r pool.now.slots.now end }
{
    let end = end.ok_or(Refusal::Damaged)?;
    let word = pool.slots[end.place];
    if !floats::finite_word(word) {
        return Err(Refusal::Damaged);
    }
    Ok((end, word))
}

// The answer at the end of a walk.
fn shown(pool: &View<'_>, end: Option<End>) -> Result<Option<f32>, Refusal>
    requires { InPool pool.now.n end }
    ensures { (book : List ℕ) (p : Point) (i : ℕ) → EndsAt pool.now.n (seen pool.now book) i p end
        → result ≡ shown_r (reach_s 3 (2 ∷ 2 ∷ []) pool.now.n (seen pool.now book) i p) }
{
    let (at, w) = reached(pool, end)?;
    if pool.active_at(at.place) {
        return Ok(Some(floats::float_of(w)));
    }
    Ok(None)
}

// The value of an active tile or voxel.
pub fn lookup(
    slots: &[u32],
    masks: &[u64],
    book: &[u32],
    seat: u32,
    v: usize,
) -> Result<Option<f32>, Refusal>
    requires { v < voxels }
    ensures { (p : Point) → v ≡ voxel_of p → Says found_of (One seat (Lookup p)) (mem_of slots.now masks.now book.now) result (mem_of slots.now masks.now book.now) }
{
    let n = admitted(slots, masks, book, seat)?;
    let pool = View { slots, masks, n };
    shown(&pool, pool.seek(seat as usize, geometry::path(v)))
}

// The cells that an insert of w needs where the walk ended at an active or a hidden slot of the word u: one for each level below it, and none where it holds w.
fn need_insert(level: usize, active: bool, u: u32, w: u32) -> usize
    requires { (is_finite u ≡ true) × (is_finite w ≡ true) }
    ensures { result ≡ cond active (cond (equal u w) 0 level) level }
{
    if active && floats::equal_words(u, w) {
        0
    } else {
        level
    }
}

// How an insert is refused at the end of its walk. At a leaf no cell is needed, and nothing more is read.
fn insert_blocked(pool: &View<'_>, book: &[u32], end: Option<End>, w: u32) -> Result<(), Refusal>
    requires { (Booked pool.now.n book.now) × InPool pool.now.n end × (is_finite w ≡ true) }
    ensures { (p : Point) (i : ℕ) → EndsAt pool.now.n (seen pool.now book.now) i p end
        → result ≡ insert_blocked pool.now.n (seen pool.now book.now) p w i }
{
    let (at, u) = reached(pool, end)?;
    if at.level == 0 {
        return Ok(());
    }
    let active = pool.active_at(at.place);
    free::afford(book, pool.n, need_insert(at.level, active, u, w))
}

// The insert by a walk that changes slots on its way. Here alone the slices become a pool: where the first walk ended at a leaf they are written as C lends them, since a pool
// that methods reach through memory costs such an insert up to an eighth of its time.
fn insert_by_walk(
    slots: &mut [u32],
    masks: &mut [u64],
    book: &mut [u32],
    n: usize,
    seat: usize,
    v: usize,
    w: u32,
)
    requires { (Sized n slots.old masks.old book.old) × (seat < 8) × (is_finite w ≡ true) }
    ensures { st n slots.new masks.new book.new ≡ insert_m 3 (2 ∷ 2 ∷ []) n (point_of v) w seat (st n slots.old masks.old book.old) }
{
    let mut pool = Pool {
        slots,
        masks,
        book,
        n,
    };
    pool.insert(2, seat, v, w);
}

// The insert, where nothing refuses it and its walk ended there. At a leaf the slot is known, and no second walk is made.
fn insert_unmark(
    slots: &mut [u32],
    masks: &mut [u64],
    book: &mut [u32],
    n: usize,
    seat: usize,
    v: usize,
    w: u32,
    end: Option<End>,
)
    requires { (Sized n slots.old masks.old book.old) × (is_finite w ≡ true) × EndsAt n (st n slots.old masks.old book.old) seat (point_of v) end }
    ensures { st n slots.new masks.new book.new ≡ mark_s seat 0 (insert_m 3 (2 ∷ 2 ∷ []) n (point_of v) w seat (st n slots.old masks.old book.old)) }
{
    match end {
        Some(at) if at.level == 0 => cells::put_at(slots, masks, n, at.place, w, true),
        _ => insert_by_walk(slots, masks, book, n, seat, v, w),
    }
    cells::set_mark(book, seat, 0);
}

// The voxel becomes active with the value of the word w, and the seat is no longer filled.
pub fn insert(
    slots: &mut [u32],
    masks: &mut [u64],
    book: &mut [u32],
    seat: u32,
    v: usize,
    w: u32,
) -> Result<(), Refusal>
    requires { v < voxels }
    ensures { (p : Point) → v ≡ voxel_of p → Says done_of (One seat (Insert p w)) (mem_of slots.old masks.old book.old) result (mem_of slots.new masks.new book.new) }
{
    let n = admitted(slots, masks, book, seat)?;
    if !floats::finite_word(w) {
        return Err(Refusal::Value);
    }
    let view = View { slots, masks, n };
    let end = view.seek(seat as usize, geometry::path(v));
    insert_blocked(&view, book, end, w)?;
    insert_unmark(slots, masks, book, n, seat as usize, v, w, end);
    Ok(())
}

// The cells that a remove needs: one for each level below an active slot.
fn need_remove(level: usize, active: bool) -> usize
    ensures { result ≡ cond active level 0 }
{
    if active { level } else { 0 }
}

// How a remove is refused at the end of its walk. At a leaf no cell is needed, and nothing more is read.
fn remove_blocked(pool: &View<'_>, book: &[u32], end: Option<End>) -> Result<(), Refusal>
    requires { (Booked pool.now.n book.now) × InPool pool.now.n end }
    ensures { (p : Point) (i : ℕ) → EndsAt pool.now.n (seen pool.now book.now) i p end
        → result ≡ remove_blocked pool.now.n (seen pool.now book.now) p i }
{
    let (at, _) = reached(pool, end)?;
    if at.level == 0 {
        return Ok(());
    }
    free::afford(
        book,
        pool.n,
        need_remove(at.level, pool.active_at(at.place)),
    )
}

// The remove by a walk that changes slots on its way. Here alone the slices become a pool.
fn remove_by_walk(
    slots: &mut [u32],
    masks: &mut [u64],
    book: &mut [u32],
    n: usize,
    seat: usize,
    v: usize,
)
    requires { (Sized n slots.old masks.old book.old) × (seat < 8) }
    ensures { st n slots.new masks.new book.new ≡ remove_m 3 (2 ∷ 2 ∷ []) n (point_of v) seat (st n slots.old masks.old book.old) }
{
    let mut pool = Pool {
        slots,
        masks,
        book,
        n,
    };
    pool.remove(2, seat, v);
}

// The remove, where nothing refuses it and its walk ended there. At a leaf in which another slot is active no branch is released, and no second walk is made.
fn remove_unmark(
    slots: &mut [u32],
    masks: &mut [u64],
    book: &mut [u32],
    n: usize,
    seat: usize,
    v: usize,
    end: Option<End>,
)
    requires { (Sized n slots.old masks.old book.old) × EndsAt n (st n slots.old masks.old book.old) seat (point_of v) end }
    ensures { st n slots.new masks.new book.new ≡ mark_s seat 0 (remove_m 3 (2 ∷ 2 ∷ []) n (point_of v) seat (st n slots.old masks.old book.old)) }
{
    match end {
        Some(at) if at.level == 0 && remove::shared(masks, n, at.place) => {
            remove::hide_at(masks, n, at.place)
        }
        _ => remove_by_walk(slots, masks, book, n, seat, v),
    }
    cells::set_mark(book, seat, 0);
}

// The voxel is hidden, a branch left empty on its path is released, and the seat is no longer filled.
pub fn remove(
    slots: &mut [u32],
    masks: &mut [u64],
    book: &mut [u32],
    seat: u32,
    v: usize,
) -> Result<(), Refusal>
    requires { v < voxels }
    ensures { (p : Point) → v ≡ voxel_of p → Says done_of (One seat (Remove p)) (mem_of slots.old masks.old book.old) result (mem_of slots.new masks.new book.new) }
{
    let n = admitted(slots, masks, book, seat)?;
    let view = View { slots, masks, n };
    let end = view.seek(seat as usize, geometry::path(v));
    remove_blocked(&view, book, end)?;
    remove_unmark(slots, masks, book, n, seat as usize, v, end);
    Ok(())
}
