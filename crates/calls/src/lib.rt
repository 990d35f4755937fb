// The calls for C, on the three lent slices of a pool. Each takes numbers and slices alone and asks nothing of its caller: what does not fit is refused, and a refused
// call has changed no lent word. A slice is a pointer and a count of elements in C, and a point is three signed coordinates, of which the low 7 bits count. calls_c exports
// them under these names.
#![tactic(auto)]

ghost use Rattle.std.specs.Prelude.{◌≡◌};
ghost use Rattle.floats.specs.declared.Test.TheVariants.{Below, Above, Between};
ghost use Rattle.grid.specs.Combine.{union, subtract, intersect};
ghost use Rattle.seats.specs.Call.{Call, One, Two, Lookup, Sign, Insert, Remove, Fill, Cut, Clear, Prune, Flip, FillSigns, IsEmpty, Copy, Combine, Prepare, Count};
ghost use Rattle.means.specs.Mem.{Mem};
ghost use Rattle.voxels.specs.Answers.{mem_of, Says, done_of, code_of};
ghost use Rattle.calls.specs.Forms.{point_at, code_only, code_f, answer_f, count_f, truth_f, Answered, sizes_of};

use floats::Test;
use nodes::memory::{BOTH_TOP_MASKS, CELL, HEAD, TOPS};
use pool::seat::Task;
use pool::{pair, seat, whole};
use trees::take::Join;
use trees::turn::Work;
use voxels::refusal::Refusal;
use voxels::{sign, voxel};

// Code 0: found, and value is it. Codes 1 to 9: the refusal of that number. Code 10: nothing there. The value is +0 where the code is not 0.
#[repr(C)]
#[derive(Clone, Copy)]
pub struct GridAnswer {
    pub code: u32,
    pub value: f32,
}

// Code 0: number is the answer, 1 for yes and 0 for no where it is one of the two. Codes 1 to 9: the refusal of that number, and number is 0.
#[repr(C)]
#[derive(Clone, Copy)]
pub struct GridNumber {
    pub code: u32,
    pub number: u32,
}

// Code 0: the lengths of the three slices. Code 1: there is no such pool, and the lengths are 0.
#[repr(C)]
#[derive(Clone, Copy)]
pub struct GridSizes {
    pub code: u32,
    pub slots: u32,
    pub masks: u32,
    pub book: u32,
}

impl GridAnswer {
    fn without(code: u32) -> GridAnswer
        ensures { result ≡ code_only code }
    {
        GridAnswer {
            code,
            value: f32::from_bits(0),
        }
    }
}

impl From<Result<Option<f32>, Refusal>> for GridAnswer {
    ghost from_gives = { λ found a. a ≡ answer_f found };

    fn from(found: Result<Option<f32>, Refusal>) -> GridAnswer {
        match found {
            Ok(Some(value)) => GridAnswer { code: 0, value },
            Ok(None) => GridAnswer::without(10),
            Err(e) => GridAnswer::without(e.number()),
        }
    }
}

impl From<Result<u32, Refusal>> for GridNumber {
    ghost from_gives = { λ count n. n ≡ count_f count };

    fn from(count: Result<u32, Refusal>) -> GridNumber {
        match count {
            Ok(number) => GridNumber { code: 0, number },
            Err(e) => GridNumber {
                code: e.number(),
                number: 0,
            },
        }
    }
}

impl From<Result<bool, Refusal>> for GridNumber {
    ghost from_gives = { λ whether n. n ≡ truth_f whether };

    fn from(whether: Result<bool, Refusal>) -> GridNumber {
        GridNumber::from(whether.map(u32::from))
    }
}

// The code of a call that answers with nothing else: 0 where it is done. So the promise of the call is kept in C.
fn code(done: Result<(), Refusal>) -> u32
    ensures { (c : Call) (m m' : Mem) → Says done_of c m done m' → Says code_of c m result m' }
{
    match done {
        Ok(()) => 0,
        Err(e) => e.number(),
    }
}

// The lengths of the slices of a pool of so many cells. No memory is lent yet.
pub fn yoldrick_sizes(cells: u32) -> GridSizes
    ensures { result ≡ sizes_of cells }
{
    match cells as usize {
        n @ 1..=65535 => GridSizes {
            code: 0,
            slots: (TOPS + CELL * n) as u32,
            masks: (BOTH_TOP_MASKS + 2 * n) as u32,
            book: (HEAD + 2 * n) as u32,
        },
        _ => GridSizes {
            code: 1,
            slots: 0,
            masks: 0,
            book: 0,
        },
    }
}

// Every cell is freed and every seat emptied, whatever the memory held.
pub fn yoldrick_prepare(slots: &mut [u32], masks: &mut [u64], book: &mut [u32]) -> u32
    ensures { Answered Prepare (mem_of slots.old masks.old book.old) result (mem_of slots.new masks.new book.new) }
{
    code(whole::prepare(slots, masks, book))
}

// The free cells of the pool.
pub fn yoldrick_free_cells(slots: &[u32], masks: &[u64], book: &[u32]) -> GridNumber
    ensures { Answered Count (mem_of slots.now masks.now book.now) result (mem_of slots.now masks.now book.now) }
{
    GridNumber::from(whole::count(slots, masks, book))
}

// Whether the seat has neither a branch nor an active tile.
pub fn yoldrick_is_empty(slots: &[u32], masks: &[u64], book: &[u32], seat: u32) -> GridNumber
    ensures { Answered (One seat IsEmpty) (mem_of slots.now masks.now book.now) result (mem_of slots.now masks.now book.now) }
{
    GridNumber::from(whole::is_empty(slots, masks, book, seat))
}

// The value of the active tile or voxel at (x, y, z).
pub fn yoldrick_lookup(
    slots: &[u32],
    masks: &[u64],
    book: &[u32],
    seat: u32,
    x: i32,
    y: i32,
    z: i32,
) -> GridAnswer
    ensures { Answered (One seat (Lookup (point_at x y z))) (mem_of slots.now masks.now book.now) result (mem_of slots.now masks.now book.now) }
{
    let v = nodes::geometry::voxel(x, y, z);
    GridAnswer::from(voxel::lookup(slots, masks, book, seat, v))
}

// Whether the value at (x, y, z), active or hidden, is negative, in a seat that is filled.
pub fn yoldrick_sign(
    slots: &[u32],
    masks: &[u64],
    book: &[u32],
    seat: u32,
    x: i32,
    y: i32,
    z: i32,
) -> GridNumber
    ensures { Answered (One seat (Sign (point_at x y z))) (mem_of slots.now masks.now book.now) result (mem_of slots.now masks.now book.now) }
{
    let v = nodes::geometry::voxel(x, y, z);
    GridNumber::from(sign::sign(slots, masks, book, seat, v))
}

// The voxel at (x, y, z) becomes active with the value of these bits. They are not a float here, since the bits of a NaN are not kept by a float, and what is refused as
// not finite is refused only after the lengths and the seat.
pub fn yoldrick_insert(
    slots: &mut [u32],
    masks: &mut [u64],
    book: &mut [u32],
    seat: u32,
    x: i32,
    y: i32,
    z: i32,
    bits: u32,
) -> u32
    ensures { Answered (One seat (Insert (point_at x y z) bits)) (mem_of slots.old masks.old book.old) result (mem_of slots.new masks.new book.new) }
{
    let v = nodes::geometry::voxel(x, y, z);
    code(voxel::insert(slots, masks, book, seat, v, bits))
}

// The voxel at (x, y, z) is no longer active, and a branch that this leaves empty is released.
pub fn yoldrick_remove(
    slots: &mut [u32],
    masks: &mut [u64],
    book: &mut [u32],
    seat: u32,
    x: i32,
    y: i32,
    z: i32,
) -> u32
    ensures { Answered (One seat (Remove (point_at x y z))) (mem_of slots.old masks.old book.old) result (mem_of slots.new masks.new book.new) }
{
    let v = nodes::geometry::voxel(x, y, z);
    code(voxel::remove(slots, masks, book, seat, v))
}

// Every voxel of the seat becomes active with the value of these bits, and its cells are free.
pub fn yoldrick_fill(
    slots: &mut [u32],
    masks: &mut [u64],
    book: &mut [u32],
    seat: u32,
    bits: u32,
) -> u32
    ensures { Answered (One seat (Fill bits)) (mem_of slots.old masks.old book.old) result (mem_of slots.new masks.new book.new) }
{
    code(seat::change(slots, masks, book, seat, Task::Fill(bits)))
}

// The seat is empty, and its cells are free.
pub fn yoldrick_clear(slots: &mut [u32], masks: &mut [u64], book: &mut [u32], seat: u32) -> u32
    ensures { Answered (One seat Clear) (mem_of slots.old masks.old book.old) result (mem_of slots.new masks.new book.new) }
{
    code(seat::change(slots, masks, book, seat, Task::Clear))
}

// Every empty branch of the seat is released.
pub fn yoldrick_prune(slots: &mut [u32], masks: &mut [u64], book: &mut [u32], seat: u32) -> u32
    ensures { Answered (One seat Prune) (mem_of slots.old masks.old book.old) result (mem_of slots.new masks.new book.new) }
{
    code(seat::change(slots, masks, book, seat, Task::Turn(Work::Prune)))
}

// Every active value strictly below the bound is hidden, and what is then empty is released.
pub fn yoldrick_cut_below(
    slots: &mut [u32],
    masks: &mut [u64],
    book: &mut [u32],
    seat: u32,
    high: f32,
) -> u32
    ensures { Answered (One seat (Cut (Below high))) (mem_of slots.old masks.old book.old) result (mem_of slots.new masks.new book.new) }
{
    code(seat::change(
        slots,
        masks,
        book,
        seat,
        Task::Turn(Work::Cut(Test::Below(high))),
    ))
}

// Every active value strictly above the bound is hidden, and what is then empty is released.
pub fn yoldrick_cut_above(
    slots: &mut [u32],
    masks: &mut [u64],
    book: &mut [u32],
    seat: u32,
    low: f32,
) -> u32
    ensures { Answered (One seat (Cut (Above low))) (mem_of slots.old masks.old book.old) result (mem_of slots.new masks.new book.new) }
{
    code(seat::change(
        slots,
        masks,
        book,
        seat,
        Task::Turn(Work::Cut(Test::Above(low))),
    ))
}

// Every active value from one bound to the other, both included, is hidden, and what is then empty is released.
pub fn yoldrick_cut_between(
    slots: &mut [u32],
    masks: &mut [u64],
    book: &mut [u32],
    seat: u32,
    low: f32,
    high: f32,
) -> u32
    ensures { Answered (One seat (Cut (Between low high))) (mem_of slots.old masks.old book.old) result (mem_of slots.new masks.new book.new) }
{
    code(seat::change(
        slots,
        masks,
        book,
        seat,
        Task::Turn(Work::Cut(Test::Between(low, high))),
    ))
}

// Every value of the seat, hidden ones too, has the other sign.
pub fn yoldrick_flip(slots: &mut [u32], masks: &mut [u64], book: &mut [u32], seat: u32) -> u32
    ensures { Answered (One seat Flip) (mem_of slots.old masks.old book.old) result (mem_of slots.new masks.new book.new) }
{
    code(seat::change(slots, masks, book, seat, Task::Turn(Work::Flip)))
}

// Every hidden slot of the seat gets a sign, and the seat is filled.
pub fn yoldrick_fill_signs(slots: &mut [u32], masks: &mut [u64], book: &mut [u32], seat: u32) -> u32
    ensures { Answered (One seat FillSigns) (mem_of slots.old masks.old book.old) result (mem_of slots.new masks.new book.new) }
{
    code(seat::change(slots, masks, book, seat, Task::Signs))
}

// The second seat becomes what the first is, in cells of its own.
pub fn yoldrick_copy(
    slots: &mut [u32],
    masks: &mut [u64],
    book: &mut [u32],
    from: u32,
    to: u32,
) -> u32
    ensures { Answered (Two Copy from to) (mem_of slots.old masks.old book.old) result (mem_of slots.new masks.new book.new) }
{
    code(pair::copy(slots, masks, book, from, to))
}

// Seat a becomes what is in a or in b, and b is empty.
pub fn yoldrick_union(slots: &mut [u32], masks: &mut [u64], book: &mut [u32], a: u32, b: u32) -> u32
    ensures { Answered (Two (Combine union) a b) (mem_of slots.old masks.old book.old) result (mem_of slots.new masks.new book.new) }
{
    code(pair::combine(slots, masks, book, a, b, Join::Union))
}

// Seat a becomes what is in a and not in b, and b is empty.
pub fn yoldrick_subtract(
    slots: &mut [u32],
    masks: &mut [u64],
    book: &mut [u32],
    a: u32,
    b: u32,
) -> u32
    ensures { Answered (Two (Combine subtract) a b) (mem_of slots.old masks.old book.old) result (mem_of slots.new masks.new book.new) }
{
    code(pair::combine(slots, masks, book, a, b, Join::Subtract))
}

// Seat a becomes what is in both a and b, and b is empty.
pub fn yoldrick_intersect(
    slots: &mut [u32],
    masks: &mut [u64],
    book: &mut [u32],
    a: u32,
    b: u32,
) -> u32
    ensures { Answered (Two (Combine intersect) a b) (mem_of slots.old masks.old book.old) result (mem_of slots.new masks.new book.new) }
{
    code(pair::combine(slots, masks, book, a, b, Join::Intersect))
}
