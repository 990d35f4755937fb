// The walk to a voxel that inserts.
ghost use Rattle.std.specs.Prelude.{◌≡◌, true};
ghost use Rattle.floats.specs.Value.{is_finite};
ghost use Rattle.nodes.specs.Insert.{grow_s, grow_r, open_s, open_r, step_s, step_r};
ghost use Rattle.nodes.specs.Pool.{Same, state};
ghost use Rattle.nodes.specs.Range.{In, Stands};
ghost use Rattle.nodes.specs.Walk.{branching, below, point_of, stays, insert_m};

use super::geometry;
use super::pool::Pool;

// What a slot is: a branch to a cell, or a word that is active or hidden.
#[derive(Clone, Copy)]
pub enum Slot {
    Branch(usize),
    Tile(u32),
    Hidden(u32),
}

// An insert of w stops at a tile of u: it is equal, or it is not finite and is carried nowhere.
fn stays(u: u32, w: u32) -> bool
    requires { is_finite w ≡ true }
    ensures { result ≡ stays u w }
{
    !floats::finite_word(u) || floats::equal_words(u, w)
}

impl Pool<'_> {
    // A branch is added below slot k of node x, if a cell can be had.
    pub fn grow(&mut self, x: usize, k: usize, u: u32, active: bool) -> Option<usize>
        requires { In self.old.n x k }
        ensures kept { Same self.old self.new }
        ensures turned { state self.new ≡ grow_s self.old.n x k u active (state self.old) }
        ensures answer { result ≡ grow_r self.old.n (state self.old) }
    {
        if self.ready() {
            Some(self.attach(x, k, u, active))
        } else {
            None
        }
    }

    // What an insert does at slot k of node x above the leaves, where it is s and no tile: a hidden slot becomes a branch.
    fn open_up(&mut self, x: usize, k: usize, s: Slot) -> Option<usize>
        requires { In self.old.n x k }
        ensures kept { Same self.old self.new }
        ensures turned { state self.new ≡ open_s self.old.n x k (state self.old) s }
        ensures answer { result ≡ open_r self.old.n (state self.old) s }
    {
        let Slot::Branch(c) = s else {
            return self.grow(x, k, floats::far_word(false), false);
        };
        (c < self.n).then_some(c)
    }

    // What an insert of w does at slot k of node x above the leaves, where it is s: a tile of another value, or a hidden slot, becomes a branch.
    fn descend(&mut self, x: usize, k: usize, w: u32, s: Slot) -> Option<usize>
        requires { In self.old.n x k × (is_finite w ≡ true) }
        ensures kept { Same self.old self.new }
        ensures turned { state self.new ≡ step_s self.old.n w x k (state self.old) s }
        ensures answer { result ≡ step_r self.old.n w (state self.old) s }
    {
        let Slot::Tile(u) = s else {
            return self.open_up(x, k, s);
        };
        if stays(u, w) {
            None
        } else {
            self.grow(x, k, u, true)
        }
    }

    // The word w is inserted at voxel v below node x of a level. Where a cell is needed and none can be had the walk stops.
    pub fn insert(&mut self, level: usize, x: usize, v: usize, w: u32)
        requires { Stands self.old.n level x × (is_finite w ≡ true) }
        ensures kept { Same self.old self.new }
        ensures turned { state self.new ≡ insert_m (branching level) (below level) self.old.n (point_of v) w x (state self.old) }
    {
        let k = geometry::slot_in(level, v);
        if level == 0 {
            self.put(x, k, w, true);
            return;
        }
        let s = self.slot(level, x, k);
        if let Some(c) = self.descend(x, k, w, s) {
            self.insert(level - 1, 8 + c, v, w);
        }
    }
}
