// The sign fill: child first, then three rows in each node. A sign is true where it is negative.
ghost use Rattle.std.specs.Prelude.{◌≡◌, List, ℕ, ◌<◌};
ghost use Rattle.grid.specs.Node.{size};
ghost use Rattle.nodes.specs.Layout.{st, slots_length};
ghost use Rattle.nodes.specs.Range.{In, Stands, Cells, Masked};
ghost use Rattle.nodes.specs.Walk.{branching, below};
ghost use Rattle.signs.specs.Signs.{sign_s, behind_s, rows_m, fill_signs_m};
ghost use Rattle.signs.specs.Seen.{UpperShows};

use super::leaf::LeafWords;
use super::rows;
use super::rows::Carry;
use nodes::geometry::{Level, Middle, Top};
use nodes::memory::{BOTH_TOP_MASKS, CELL, TOPS};
use nodes::view::View;
use nodes::{geometry, memory};
use trees::slot;

// The sign of slot k of node x of a level: that of its word, or, where it leads to a cell, that of the cell's slot 0. The promise holds whatever the book, as do all of this
// file.
fn sign_of(view: &View, level: usize, x: usize, k: usize) -> bool
    requires { (Stands view.now.n level x) × In view.now.n x k }
    ensures { (book : List ℕ) → result ≡ sign_s (below level) view.now.n (st view.now.n view.now.slots.now view.now.masks.now book) x k }
{
    if level == 0 {
        return floats::negative_word(memory::word(view.slots, x, k));
    }
    let Some(c) = view.child(x, k) else {
        return floats::negative_word(memory::word(view.slots, x, k));
    };
    sign_of(view, level - 1, 8 + c, 0)
}

// The sign behind slot k of node x, which is no branch and gets the sign before it.
fn behind_flat(view: &View, x: usize, k: usize, before: bool) -> bool
    requires { In view.now.n x k }
    ensures { (book : List ℕ) → result ≡ behind_s (below 0) view.now.n (st view.now.n view.now.slots.now view.now.masks.now book) x k before }
{
    if memory::val(view.masks, view.n, x, k) {
        return floats::negative_word(memory::word(view.slots, x, k));
    }
    before
}

// Node x of a level above the leaves, by the masks of a pool of n cells. A sign is carried as it is.
#[derive(Clone, Copy)]
struct Upper<'a> {
    masks: &'a [u64],
    n: usize,
    level: usize,
    x: usize,
    ghost fit: { Masked n masks.now },
    ghost stands: { Stands n level x },
    ghost above: { 0 < level },
}

impl Carry for Upper<'_> {
    type Sign = bool;

    ghost branches = { λ it. branching it.level };

    ghost deeper = { λ it. below it.level };

    ghost room = { λ it m. m ≡ slots_length it.n };

    ghost shows = { λ it q m. UpperShows it.n it.x it.masks.now q };

    ghost carried = { λ g. g };

    fn side(self) -> usize {
        if self.level == 2 {
            1 << Top::BRANCHING
        } else {
            1 << Middle::BRANCHING
        }
    }

    fn start(self, slots: &[u32]) -> bool {
        let Upper { masks, n, level, x } = self;
        for k in 0..geometry::size_in(level) {
            if !slot::hidden(masks, n, x, k) {
                return sign_of(&View { slots, masks, n }, level, x, k);
            }
        }
        false
    }

    // A branch gives its last sign, that of its slot 63.
    fn behind(self, slots: &[u32], k: usize, before: bool) -> bool {
        let Upper { masks, n, level, x } = self;
        let view = View { slots, masks, n };
        let Some(c) = view.child(x, k) else {
            return behind_flat(&view, x, k, before);
        };
        sign_of(&view, level - 1, 8 + c, 63)
    }

    fn write(self, slots: &mut [u32], k: usize, sign: bool) {
        if slot::hidden(self.masks, self.n, self.x, k) {
            slot::set_value(slots, self.n, self.x, k, floats::far_word(sign));
        }
    }
}

// All rows of leaf x. A full leaf is left as it is. The masks are lent for reading alone, here and below: that no bit of them changes is said by the type.
fn leaf_rows(slots: &mut [u32], masks: &[u64], n: usize, x: usize)
    requires { (Cells n slots.old masks.now) × Stands n 0 x }
    ensures { (book : List ℕ) → st n slots.new masks.now book
        ≡ rows_m (branching 0) (below 0) n x (st n slots.old masks.now book) }
{
    let c = x - 8;
    let v = masks[BOTH_TOP_MASKS + n + c];
    if v == u64::MAX {
        return;
    }
    rows::rows(
        LeafWords {
            p: TOPS + CELL * c,
            v,
        },
        slots,
    );
}

// The sign fill of node x of a level and of all that hangs below it.
pub fn fill_signs(slots: &mut [u32], masks: &[u64], n: usize, level: usize, x: usize)
    requires { (Cells n slots.old masks.now) × Stands n level x }
    ensures { (book : List ℕ) → st n slots.new masks.now book
        ≡ fill_signs_m (branching level) (below level) n x (st n slots.old masks.now book) }
{
    if level == 0 {
        leaf_rows(slots, masks, n, x);
        return;
    }
    for k in 0..geometry::size_in(level) {
        let Some(c) = View { slots, masks, n }.child(x, k) else {
            continue;
        };
        fill_signs(slots, masks, n, level - 1, 8 + c);
    }
    rows::rows(Upper { masks, n, level, x }, slots);
}
