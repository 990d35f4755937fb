// What is done at one slot of two nodes that are joined, a and b: a's value stays, b's branch is taken over, or b's value settles a's slot.
ghost use Rattle.std.specs.Prelude.{◌≡◌, List, ℕ, ◌-◌, ◌<◌};
ghost use Rattle.floats.specs.Value.{far_with};
ghost use Rattle.grid.specs.Combine.{stays_with, settled_by};
ghost use Rattle.nodes.specs.Layout.{st};
ghost use Rattle.nodes.specs.Pool.{Same, state};
ghost use Rattle.nodes.specs.Range.{In, Stands, Booked};
ghost use Rattle.nodes.specs.Walk.{branching, below};
ghost use Rattle.nodes.specs.Wipe.{wipe_at, empty_m};
ghost use Rattle.trees.specs.Combine.{join_o, tag_s, take_child_s, take_m};

use super::turn;
use super::turn::Work;
use nodes::geometry::{Level, Top};
use nodes::memory::{HEAD, USED};
use nodes::pool::Pool;

// How tree b is joined into tree a. It stays an enum, since the specs take it apart and one proof serves the three.
#[derive(Clone, Copy)]
pub enum Join {
    Union,
    Subtract,
    Intersect,
}

impl Join {
    // The side of a, if it is no branch, with which it stays whatever b has: inside in a union, outside in the others.
    pub fn stays_with(self) -> bool
        ensures { result ≡ stays_with (join_o self) }
    {
        matches!(self, Join::Union)
    }

    // The side of b, if it is no branch, that settles what a is: b inside makes a union inside and removes in a subtraction, b outside removes in an intersection.
    pub fn settled_by(self) -> bool
        ensures { result ≡ settled_by (join_o self) }
    {
        matches!(self, Join::Union | Join::Subtract)
    }
}

// The use mark of cell c names slot k of node x.
fn set_tag(book: &mut [u32], n: usize, c: usize, x: usize, k: usize)
    requires { (Booked n book.old) × (c < n) × In n x k }
    ensures { (slots masks : List ℕ) → st n slots masks book.new ≡ tag_s c x k (st n slots masks book.old) }
{
    book[HEAD + c] = (USED + (Top::SIZE * x + k)) as u32;
}

// The branch of slot k of node y hangs below slot k of node x afterwards: the link and the use mark of the cell change, and slot k of node y is hidden with +far.
fn take_child(pool: &mut Pool, x: usize, y: usize, k: usize)
    requires { (In pool.old.n x k) × (In pool.old.n y k) × ((state pool.old).slot y k < pool.old.n) }
    ensures kept { Same pool.old pool.new }
    ensures turned { state pool.new ≡ take_child_s x y k (state pool.old) }
{
    let c = pool.word(y, k);
    set_tag(pool.book, pool.n, c as usize, x, k);
    pool.set_slot(y, k, floats::far_word(false), false, false);
    pool.set_slot(x, k, c, true, false);
}

// The branch of slot k of node y is taken over by slot k of node x of a level above the leaves; where it is subtracted, all of it is then flipped.
pub fn take_over(pool: &mut Pool, level: usize, x: usize, y: usize, k: usize, join: Join)
    requires { (Stands pool.old.n level x) × (0 < level) × (In pool.old.n x k) × (In pool.old.n y k) × ((state pool.old).slot y k < pool.old.n) }
    ensures kept { Same pool.old pool.new }
    ensures turned { state pool.new ≡ take_m (branching (level - 1)) (below (level - 1)) (join_o join) pool.old.n x y k (state pool.old) }
{
    let c = pool.word(y, k) as usize;
    take_child(pool, x, y, k);
    if let Join::Subtract = join {
        turn::turn(pool, level - 1, 8 + c, Work::Flip);
    }
}

// b settles slot k of node x of a level above the leaves: what hangs there is released, and it is inside (the source's make_child_inside) or hidden with +far (its
// remove_child), so that it has the side with which it would have stayed.
pub fn settle(pool: &mut Pool, level: usize, x: usize, k: usize, join: Join)
    requires { (Stands pool.old.n level x) × (In pool.old.n x k) × (0 < level) }
    ensures kept { Same pool.old pool.new }
    ensures turned { state pool.new
        ≡ wipe_at (empty_m pool.old.n (level - 1)) pool.old.n (far_with (stays_with (join_o join))) (stays_with (join_o join)) x k (state pool.old) }
{
    pool.shed(level, x, k);
    let inside = join.stays_with();
    pool.set_slot(x, k, floats::far_word(inside), false, inside);
}
