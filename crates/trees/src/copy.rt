// One tree copied to another node: hidden values too, and a cell of its own for each branch.
ghost use Rattle.std.specs.Prelude.{◌≡◌, false, cond, ℕ, ◌+◌, ◌-◌, ◌*◌, ◌/◌, ◌%◌, ◌<◌, ◌≤◌, length, get_or, eqb};
ghost use Rattle.bitset.specs.Set.{bit_of};
ghost use Rattle.nodes.specs.State.{wide};
ghost use Rattle.nodes.specs.Pool.{Same, state};
ghost use Rattle.nodes.specs.Range.{In, Stands, Masked};
ghost use Rattle.nodes.specs.Walk.{branching, below};
ghost use Rattle.trees.specs.Copy.{lay_s, branch_at, branch_m, copy_m};

use nodes::memory::{CELL, TOP_MASKS};
use nodes::pool::Pool;
use nodes::{geometry, memory};

// The words of group g, to group h. A group is 64 slots, which have one word in each mask: the tops come first, with eight groups each, and then each cell is one.
fn copy_words(slots: &mut [u32], g: usize, h: usize)
    requires { (64 * g + 64 ≤ length slots.old) × (64 * h + 64 ≤ length slots.old) }
    ensures { (i : ℕ) → get_or slots.new i 0 ≡ cond (eqb (i / 64) h) (get_or slots.old (64 * g + i % 64) 0) (get_or slots.old i 0) }
{
    let from = CELL * g;
    slots.copy_within(from..from + CELL, CELL * h);
}

// The masks of group g, to group h: no child, and its values.
fn copy_masks(masks: &mut [u64], n: usize, g: usize, h: usize)
    requires { (Masked n masks.old) × (g < 64 + n) × (h < 64 + n) }
    ensures { (j : ℕ) → bit_of masks.new j
        ≡ cond (eqb (j / 64) (64 + n + h)) (bit_of masks.old (64 * (64 + n + g) + j % 64)) (cond (eqb (j / 64) h) false (bit_of masks.old j)) }
{
    let values = masks[TOP_MASKS + n + g];
    masks[h] = 0;
    masks[TOP_MASKS + n + h] = values;
}

// Every slot of node y becomes what that of node x is, but none is a branch: where x has one, y hides the link. Both nodes have m slots, which are copied as one piece.
fn lay(pool: &mut Pool, x: usize, y: usize, m: usize)
    requires { (x < 8 + pool.old.n) × (y < 8 + pool.old.n) × (wide x ≡ m) × (wide y ≡ m) }
    ensures kept { Same pool.old pool.new }
    ensures turned { state pool.new ≡ lay_s m x y (state pool.old) }
{
    let from = memory::word_of(x, 0) / 64;
    let to = memory::word_of(y, 0) / 64;
    for j in 0..m / 64 {
        let g = from + j;
        let h = to + j;
        copy_words(pool.slots, g, h);
        copy_masks(pool.masks, pool.n, g, h);
    }
}

// The next branch of node x after slot k, in the same word of the mask; where there is none, the first slot of the next word.
fn next_branch(pool: &Pool, x: usize, k: usize) -> usize
    requires { In pool.now.n x k }
    ensures { (k < result) × (result ≤ 64 * (k / 64) + 64) × ((i : ℕ) → k < i → i < result → (state pool.now).kid x i ≡ false) }
{
    let w = (pool.masks[memory::word_of(x, k) / 64] << (k % 64)) << 1;
    if w == 0 {
        return 64 * (k / 64) + 64;
    }
    k + 1 + u64::leading_zeros(w) as usize
}

// Where slot k of node x of a level leads to a cell, and a free one can be had, slot k of node y gets that. All its slots are written at once, so it need not be blank
// before. A leaf is then done: it has no branches, and a call of `copy` for each would make a copy slower by a fifth.
#[cycle(branch_branches)]
fn branch(pool: &mut Pool, level: usize, x: usize, y: usize, k: usize)
    requires { (Stands pool.old.n level x) × (Stands pool.old.n level y) × (In pool.old.n x k) × (In pool.old.n y k) × (0 < level) }
    ensures kept { Same pool.old pool.new }
    ensures turned { state pool.new ≡ branch_at (copy_m (branching (level - 1)) (below (level - 1)) pool.old.n) pool.old.n x y k (state pool.old) }
{
    let Some(c) = pool.child(x, k) else {
        return;
    };
    if !pool.ready() {
        return;
    }
    let d = pool.claim(y, k);
    lay(pool, 8 + c, 8 + d, CELL);
    if level > 1 {
        branches(pool, level - 1, 8 + c, 8 + d);
    }
}

// Every branch of node x of a level above the leaves, to node y. By while: in a pool that is not sound the copy may change the mask of x, so each step goes to the next branch in
// the mask as it then is. A `for` over the bits would look at it once, and one over the slots would stop at each.
#[cycle(branch_branches)]
fn branches(pool: &mut Pool, level: usize, x: usize, y: usize)
    requires { (Stands pool.old.n level x) × (Stands pool.old.n level y) × (0 < level) }
    ensures kept { Same pool.old pool.new }
    ensures turned { state pool.new ≡ branch_m (branching level) (below level) pool.old.n x y (state pool.old) }
{
    let m = geometry::size_in(level);
    let mut k = 0;
    while k < m {
        branch(pool, level, x, y, k);
        k = next_branch(pool, x, k);
    }
}

// Every slot of node y of a level becomes what that of node x is. A leaf has no branches.
pub fn copy(pool: &mut Pool, level: usize, x: usize, y: usize)
    requires { (Stands pool.old.n level x) × Stands pool.old.n level y }
    ensures kept { Same pool.old pool.new }
    ensures turned { state pool.new ≡ copy_m (branching level) (below level) pool.old.n x y (state pool.old) }
{
    lay(pool, x, y, geometry::size_in(level));
    if level > 0 {
        branches(pool, level, x, y);
    }
}
