// Node y joined into node x. What is left below y is for a clear of it to release.
ghost use Rattle.std.specs.Prelude.{◌≡◌, ◌-◌, ◌<◌};
ghost use Rattle.nodes.specs.Pool.{Same, state};
ghost use Rattle.nodes.specs.Range.{In};
ghost use Rattle.nodes.specs.Walk.{branching, below};
ghost use Rattle.nodes.specs.Wipe.{empty_m};
ghost use Rattle.trees.specs.Combine.{join_o, stays_at, meet_value, combine_at, combine_m};
ghost use Rattle.means.specs.Level.{span};
ghost use Rattle.csg.specs.Joinable.{Joinable};

use nodes::geometry;
use nodes::pool::Pool;
use nodes::walk::Slot;
use trees::take::Join;
use trees::{leaf, take};

// Slot k of node x of a level above the leaves is no branch and stays whatever node y has: the source's is_inside_tile in a union, its is_outside_tile in the others.
fn stays(pool: &Pool, level: usize, x: usize, k: usize, join: Join) -> bool
    requires { (In pool.now.n x k) × (0 < level) }
    ensures { result ≡ stays_at (join_o join) (state pool.now) x k }
{
    let (Slot::Tile(w) | Slot::Hidden(w)) = pool.slot(level, x, k) else {
        return false;
    };
    floats::negative_word(w) == join.stays_with()
}

// Slot k of node y is no branch: it settles that of node x, or that one stays.
fn meet_value(pool: &mut Pool, level: usize, x: usize, y: usize, k: usize, join: Join)
    requires { (Joinable pool.old.n level (state pool.old) x y) × (0 < level) × (k < span level) }
    ensures kept { Same pool.old pool.new }
    ensures turned { state pool.new ≡ meet_value (empty_m pool.old.n (level - 1)) (join_o join) pool.old.n x y k (state pool.old) }
{
    if floats::negative_word(pool.word(y, k)) != join.settled_by() {
        return;
    }
    take::settle(pool, level, x, k, join);
}

// Slot k of node x of a level above the leaves. Where slot k of node y is a branch, it is taken over where that of node x is none, and else the two cells are joined: their
// links stay in the pool, since it is sound. Two leaves are joined at once, without a further call of combine.
#[cycle(combine)]
fn combine_slot(pool: &mut Pool, level: usize, x: usize, y: usize, k: usize, join: Join)
    requires { (Joinable pool.old.n level (state pool.old) x y) × (0 < level) × (k < span level) }
    ensures kept { Same pool.old pool.new }
    ensures turned { state pool.new
        ≡ combine_at (branching (level - 1)) (below (level - 1)) (join_o join) pool.old.n (combine_m (branching (level - 1)) (below (level - 1)) (join_o join) pool.old.n) x y k (state pool.old) }
{
    if stays(pool, level, x, k, join) {
        return;
    }
    let Slot::Branch(d) = pool.slot(level, y, k) else {
        meet_value(pool, level, x, y, k, join);
        return;
    };
    let Slot::Branch(c) = pool.slot(level, x, k) else {
        take::take_over(pool, level, x, y, k, join);
        return;
    };
    let a = 8 + c;
    let b = 8 + d;
    if level == 1 {
        leaf::join_leaf(pool.slots, pool.masks, pool.n, a, b, join);
        return;
    }
    combine(pool, level - 1, a, b, join);
}

// Every slot of node x of a level, with what hangs below it.
#[cycle(combine)]
pub fn combine(pool: &mut Pool, level: usize, x: usize, y: usize, join: Join)
    requires { Joinable pool.old.n level (state pool.old) x y }
    ensures kept { Same pool.old pool.new }
    ensures turned { state pool.new ≡ combine_m (branching level) (below level) (join_o join) pool.old.n x y (state pool.old) }
{
    if level == 0 {
        leaf::join_leaf(pool.slots, pool.masks, pool.n, x, y, join);
        return;
    }
    for k in 0..geometry::size_in(level) {
        combine_slot(pool, level, x, y, k, join);
    }
}
