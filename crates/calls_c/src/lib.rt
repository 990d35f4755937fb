// What C calls: each function of calls under its own name, with the clauses that it has there. A crate that exports to C is no library for other crates, so this is
// one of its own.
#![tactic(auto)]

ghost use Rattle.floats.specs.declared.Test.TheVariants.{Below, Above, Between};
ghost use Rattle.grid.specs.Combine.{union, subtract, intersect};
ghost use Rattle.seats.specs.Call.{One, Two, Lookup, Sign, Insert, Remove, Fill, Cut, Clear, Prune, Flip, FillSigns, IsEmpty, Copy, Combine, Prepare, Count};
ghost use Rattle.voxels.specs.Answers.{mem_of};
ghost use Rattle.calls.specs.Forms.{point_at, Answered, sizes_of};
ghost use Rattle.std.specs.Prelude.{◌≡◌};

use calls::{GridAnswer, GridNumber, GridSizes};

// The lengths of the slices of a pool of so many cells. No memory is lent yet.
#[unsafe(no_mangle)]
pub extern "C" fn yoldrick_sizes(cells: u32) -> GridSizes
    ensures { result ≡ sizes_of cells }
{
    calls::yoldrick_sizes(cells)
}

// Every cell is freed and every seat emptied, whatever the memory held.
#[unsafe(no_mangle)]
pub extern "C" fn yoldrick_prepare(slots: &mut [u32], masks: &mut [u64], book: &mut [u32]) -> u32
    ensures { Answered Prepare (mem_of slots.old masks.old book.old) result (mem_of slots.new masks.new book.new) }
{
    calls::yoldrick_prepare(slots, masks, book)
}

// The free cells of the pool.
#[unsafe(no_mangle)]
pub extern "C" fn yoldrick_free_cells(slots: &[u32], masks: &[u64], book: &[u32]) -> GridNumber
    ensures { Answered Count (mem_of slots.now masks.now book.now) result (mem_of slots.now masks.now book.now) }
{
    calls::yoldrick_free_cells(slots, masks, book)
}

// Whether the seat has neither a branch nor an active tile.
#[unsafe(no_mangle)]
pub extern "C" fn yoldrick_is_empty(
    slots: &[u32],
    masks: &[u64],
    book: &[u32],
    seat: u32,
) -> GridNumber
    ensures { Answered (One seat IsEmpty) (mem_of slots.now masks.now book.now) result (mem_of slots.now masks.now book.now) }
{
    calls::yoldrick_is_empty(slots, masks, book, seat)
}

// The value of the active tile or voxel at (x, y, z).
#[unsafe(no_mangle)]
pub extern "C" fn yoldrick_lookup(
    slots: &[u32],
    masks: &[u64],
    book: &[u32],
    seat: u32,
    x: i32,
    y: i32,
    z: i32,
) -> GridAnswer
    ensures { Answered (One seat (Lookup (point_at x y z))) (mem_of slots.now masks.now book.now) result (mem_of slots.now masks.now book.now) }
{
    calls::yoldrick_lookup(slots, masks, book, seat, x, y, z)
}

// Whether the value at (x, y, z), active or hidden, is negative, in a seat that is filled.
#[unsafe(no_mangle)]
pub extern "C" fn yoldrick_sign(
    slots: &[u32],
    masks: &[u64],
    book: &[u32],
    seat: u32,
    x: i32,
    y: i32,
    z: i32,
) -> GridNumber
    ensures { Answered (One seat (Sign (point_at x y z))) (mem_of slots.now masks.now book.now) result (mem_of slots.now masks.now book.now) }
{
    calls::yoldrick_sign(slots, masks, book, seat, x, y, z)
}

// The voxel at (x, y, z) becomes active with the value of these bits. They are not a float here, since the bits of a NaN are not kept by a float, and what is refused as
// not finite is refused only after the lengths and the seat.
#[unsafe(no_mangle)]
pub extern "C" fn yoldrick_insert(
    slots: &mut [u32],
    masks: &mut [u64],
    book: &mut [u32],
    seat: u32,
    x: i32,
    y: i32,
    z: i32,
    bits: u32,
) -> u32
    ensures { Answered (One seat (Insert (point_at x y z) bits)) (mem_of slots.old masks.old book.old) result (mem_of slots.new masks.new book.new) }
{
    calls::yoldrick_insert(slots, masks, book, seat, x, y, z, bits)
}

// The voxel at (x, y, z) is no longer active, and a branch that this leaves empty is released.
#[unsafe(no_mangle)]
pub extern "C" fn yoldrick_remove(
    slots: &mut [u32],
    masks: &mut [u64],
    book: &mut [u32],
    seat: u32,
    x: i32,
    y: i32,
    z: i32,
) -> u32
    ensures { Answered (One seat (Remove (point_at x y z))) (mem_of slots.old masks.old book.old) result (mem_of slots.new masks.new book.new) }
{
    calls::yoldrick_remove(slots, masks, book, seat, x, y, z)
}

// Every voxel of the seat becomes active with the value of these bits, and its cells are free.
#[unsafe(no_mangle)]
pub extern "C" fn yoldrick_fill(
    slots: &mut [u32],
    masks: &mut [u64],
    book: &mut [u32],
    seat: u32,
    bits: u32,
) -> u32
    ensures { Answered (One seat (Fill bits)) (mem_of slots.old masks.old book.old) result (mem_of slots.new masks.new book.new) }
{
    calls::yoldrick_fill(slots, masks, book, seat, bits)
}

// The seat is empty, and its cells are free.
#[unsafe(no_mangle)]
pub extern "C" fn yoldrick_clear(
    slots: &mut [u32],
    masks: &mut [u64],
    book: &mut [u32],
    seat: u32,
) -> u32
    ensures { Answered (One seat Clear) (mem_of slots.old masks.old book.old) result (mem_of slots.new masks.new book.new) }
{
    calls::yoldrick_clear(slots, masks, book, seat)
}

// Every empty branch of the seat is released.
#[unsafe(no_mangle)]
pub extern "C" fn yoldrick_prune(
    slots: &mut [u32],
    masks: &mut [u64],
    book: &mut [u32],
    seat: u32,
) -> u32
    ensures { Answered (One seat Prune) (mem_of slots.old masks.old book.old) result (mem_of slots.new masks.new book.new) }
{
    calls::yoldrick_prune(slots, masks, book, seat)
}

// Every active value strictly below the bound is hidden, and what is then empty is released.
#[unsafe(no_mangle)]
pub extern "C" fn yoldrick_cut_below(
    slots: &mut [u32],
    masks: &mut [u64],
    book: &mut [u32],
    seat: u32,
    high: f32,
) -> u32
    ensures { Answered (One seat (Cut (Below high))) (mem_of slots.old masks.old book.old) result (mem_of slots.new masks.new book.new) }
{
    calls::yoldrick_cut_below(slots, masks, book, seat, high)
}

// Every active value strictly above the bound is hidden, and what is then empty is released.
#[unsafe(no_mangle)]
pub extern "C" fn yoldrick_cut_above(
    slots: &mut [u32],
    masks: &mut [u64],
    book: &mut [u32],
    seat: u32,
    low: f32,
) -> u32
    ensures { Answered (One seat (Cut (Above low))) (mem_of slots.old masks.old book.old) result (mem_of slots.new masks.new book.new) }
{
    calls::yoldrick_cut_above(slots, masks, book, seat, low)
}

// Every active value from one bound to the other, both included, is hidden, and what is then empty is released.
#[unsafe(no_mangle)]
pub extern "C" fn yoldrick_cut_between(
    slots: &mut [u32],
    masks: &mut [u64],
    book: &mut [u32],
    seat: u32,
    low: f32,
    high: f32,
) -> u32
    ensures { Answered (One seat (Cut (Between low high))) (mem_of slots.old masks.old book.old) result (mem_of slots.new masks.new book.new) }
{
    calls::yoldrick_cut_between(slots, masks, book, seat, low, high)
}

// Every value of the seat, hidden ones too, has the other sign.
#[unsafe(no_mangle)]
pub extern "C" fn yoldrick_flip(
    slots: &mut [u32],
    masks: &mut [u64],
    book: &mut [u32],
    seat: u32,
) -> u32
    ensures { Answered (One seat Flip) (mem_of slots.old masks.old book.old) result (mem_of slots.new masks.new book.new) }
{
    calls::yoldrick_flip(slots, masks, book, seat)
}

// Every hidden slot of the seat gets a sign, and the seat is filled.
#[unsafe(no_mangle)]
pub extern "C" fn yoldrick_fill_signs(
    slots: &mut [u32],
    masks: &mut [u64],
    book: &mut [u32],
    seat: u32,
) -> u32
    ensures { Answered (One seat FillSigns) (mem_of slots.old masks.old book.old) result (mem_of slots.new masks.new book.new) }
{
    calls::yoldrick_fill_signs(slots, masks, book, seat)
}

// The second seat becomes what the first is, in cells of its own.
#[unsafe(no_mangle)]
pub extern "C" fn yoldrick_copy(
    slots: &mut [u32],
    masks: &mut [u64],
    book: &mut [u32],
    from: u32,
    to: u32,
) -> u32
    ensures { Answered (Two Copy from to) (mem_of slots.old masks.old book.old) result (mem_of slots.new masks.new book.new) }
{
    calls::yoldrick_copy(slots, masks, book, from, to)
}

// Seat a becomes what is in a or in b, and b is empty.
#[unsafe(no_mangle)]
pub extern "C" fn yoldrick_union(
    slots: &mut [u32],
    masks: &mut [u64],
    book: &mut [u32],
    a: u32,
    b: u32,
) -> u32
    ensures { Answered (Two (Combine union) a b) (mem_of slots.old masks.old book.old) result (mem_of slots.new masks.new book.new) }
{
    calls::yoldrick_union(slots, masks, book, a, b)
}

// Seat a becomes what is in a and not in b, and b is empty.
#[unsafe(no_mangle)]
pub extern "C" fn yoldrick_subtract(
    slots: &mut [u32],
    masks: &mut [u64],
    book: &mut [u32],
    a: u32,
    b: u32,
) -> u32
    ensures { Answered (Two (Combine subtract) a b) (mem_of slots.old masks.old book.old) result (mem_of slots.new masks.new book.new) }
{
    calls::yoldrick_subtract(slots, masks, book, a, b)
}

// Seat a becomes what is in both a and b, and b is empty.
#[unsafe(no_mangle)]
pub extern "C" fn yoldrick_intersect(
    slots: &mut [u32],
    masks: &mut [u64],
    book: &mut [u32],
    a: u32,
    b: u32,
) -> u32
    ensures { Answered (Two (Combine intersect) a b) (mem_of slots.old masks.old book.old) result (mem_of slots.new masks.new book.new) }
{
    calls::yoldrick_intersect(slots, masks, book, a, b)
}
