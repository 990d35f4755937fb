// A pool of n cells in lent memory: three slices, whose lengths belong together.
ghost use Rattle.nodes.specs.Layout.{Sized};

use super::memory;
use super::view::View;
use super::walk::Slot;

#[derive(Drop)]
pub struct Pool<'a> {
    pub slots: &'a mut [u32],
    pub masks: &'a mut [u64],
    pub book: &'a mut [u32],
    pub n: usize,
    pub ghost sized: { Sized n slots.now masks.now book.now },
}

// What is read of a slot, by the state that the three slices hold. That is defined of the struct, so the struct's own names above cannot have it.
impl Pool<'_> {
    ghost use Rattle.std.specs.Prelude.{◌≡◌};
    ghost use Rattle.nodes.specs.Range.{In};
    ghost use Rattle.nodes.specs.Walk.{below, view_s, child_r};
    ghost use Rattle.nodes.specs.Pool.{state};

    // The word of slot k of node x: a cell number or a value.
    pub fn word(&self, x: usize, k: usize) -> u32
        requires { In self.now.n x k }
        ensures { result ≡ (state self.now).slot x k }
    {
        memory::word(self.slots, x, k)
    }

    // Its bit in the child mask.
    pub(crate) fn kid(&self, x: usize, k: usize) -> bool
        requires { In self.now.n x k }
        ensures { result ≡ (state self.now).kid x k }
    {
        memory::kid(self.masks, x, k)
    }

    // Its bit in the value mask.
    pub fn val(&self, x: usize, k: usize) -> bool
        requires { In self.now.n x k }
        ensures { result ≡ (state self.now).val x k }
    {
        memory::val(self.masks, self.n, x, k)
    }

    // Slot k of node x of a level. The child mask of a leaf is not looked at.
    pub fn slot(&self, level: usize, x: usize, k: usize) -> Slot
        requires { In self.now.n x k }
        ensures { result ≡ view_s (below level) (state self.now) x k }
    {
        View {
            slots: self.slots,
            masks: self.masks,
            n: self.n,
        }
        .slot(level, x, k)
    }

    // The cell that slot k of node x, above the leaves, leads to: none where it is no branch, or its link leaves the pool.
    pub fn child(&self, x: usize, k: usize) -> Option<usize>
        requires { In self.now.n x k }
        ensures { result ≡ child_r self.now.n (state self.now) x k }
    {
        View {
            slots: self.slots,
            masks: self.masks,
            n: self.n,
        }
        .child(x, k)
    }
}
