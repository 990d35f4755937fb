// The walk to a voxel that changes nothing. All of it is inlined where it is called, for its speed: so the slots on the way are reckoned by the caller, and the step from the
// top stands apart from those over cells.
ghost use Rattle.std.specs.Prelude.{◌≡◌, List, [], ◌∷◌, ℕ, ◌+◌, ◌*◌, ◌<◌, ◌≤◌};
ghost use Rattle.grid.specs.Geometry.{Point};
ghost use Rattle.nodes.specs.Layout.{word_of, slots_length};
ghost use Rattle.nodes.specs.Place.{path_of, lead_s, place_s, told_end, seen};
ghost use Rattle.nodes.specs.Range.{In};
ghost use Rattle.nodes.specs.Walk.{branching, below, voxels};

use super::memory;
use super::memory::{CELL, TOP_MASKS, TOP_WORDS};
use super::view::View;

// Where a walk ends: the level of the slot reached, 0 for a leaf's and 2 for a top's, and the place of its word.
#[derive(Clone, Copy)]
pub struct End {
    pub level: usize,
    pub place: usize,
}

// Where a slot leads: to a cell; to none, so that the walk ends here; or it breaks the path, being in both masks or linked out of the pool.
#[derive(Clone, Copy)]
pub enum Lead {
    Cell(usize),
    Here,
    Broken,
}

impl View<'_> {
    // Where the slot of bit k of mask word q leads.
    fn leads(&self, q: usize, k: usize) -> Lead
        requires { (q < 64 + self.now.n) × (k < 64) }
        ensures { (book : List ℕ) (x j : ℕ) → In self.now.n x j → 64 * q + k ≡ word_of x j → result ≡ lead_s self.now.n (seen self.now book) x j }
    {
        if !memory::bit_in(self.masks, q, k) {
            return Lead::Here;
        }
        if memory::bit_in(self.masks, TOP_MASKS + self.n + q, k) {
            return Lead::Broken;
        }
        let c = self.slots[CELL * q + k] as usize;
        if c < self.n {
            Lead::Cell(c)
        } else {
            Lead::Broken
        }
    }

    // The walk from cell c of a level on the path t. It is none where the path is broken.
    fn find(&self, level: usize, c: usize, t: usize) -> Option<End>
        requires { (level ≤ 1) × (c < self.now.n) }
        ensures { (book : List ℕ) (p : Point) → t ≡ path_of (branching level) (below level) p
            → result ≡ told_end (place_s (branching level) (below level) self.now.n (seen self.now book) (8 + c) p) }
    {
        let q = TOP_MASKS + c;
        let k = t % CELL;
        let here = End {
            level,
            place: CELL * q + k,
        };
        if level == 0 {
            return Some(here);
        }
        match self.leads(q, k) {
            Lead::Cell(d) => self.find(level - 1, d, t / CELL),
            Lead::Here => Some(here),
            Lead::Broken => None,
        }
    }

    // The walk in a seat on the path t. Every number below that of the voxels is the path of one.
    pub fn seek(&self, seat: usize, t: usize) -> Option<End>
        requires { (seat < 8) × (t < voxels) }
        ensures { (book : List ℕ) (p : Point) → t ≡ path_of 3 (2 ∷ 2 ∷ []) p
            → result ≡ told_end (place_s 3 (2 ∷ 2 ∷ []) self.now.n (seen self.now book) seat p) }
    {
        let q = TOP_WORDS * seat + t / CELL % TOP_WORDS;
        let k = t % CELL;
        match self.leads(q, k) {
            Lead::Cell(d) => self.find(1, d, t / (CELL * TOP_WORDS)),
            Lead::Here => Some(End {
                level: 2,
                place: CELL * q + k,
            }),
            Lead::Broken => None,
        }
    }

    // Whether the slot whose word is at place i is active.
    pub fn active_at(&self, i: usize) -> bool
        requires { i < slots_length self.now.n }
        ensures { (book : List ℕ) (x k : ℕ) → In self.now.n x k → i ≡ word_of x k → result ≡ (seen self.now book).val x k }
    {
        memory::bit_in(self.masks, TOP_MASKS + self.n + i / CELL, i % CELL)
    }
}
