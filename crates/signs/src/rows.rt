// The rows of a node. A sign is carried from slot to slot: along x, along y, and along z, where each hidden slot is written. The loops stand here once, for a node above
// the leaves and for a leaf.
ghost use Rattle.std.specs.Prelude.{◌≡◌, Bool, List, ℕ, ◌+◌, ◌*◌, ◌^◌, ◌<◌, ◌≤◌, length};
ghost use Rattle.grid.specs.Node.{size};
ghost use Rattle.signs.specs.Signs.{behind_s, start_s, write_s, row_z, row_y, rows_m};
ghost use Rattle.signs.specs.Seen.{Seen, seen, Sides};

// A node as its rows see it.
pub trait Carry: Copy {
    // What a sign is carried as.
    type Sign: Copy;

    // The branching of the node, and of those below it.
    ghost branches: { Self → ℕ };

    ghost deeper: { Self → List ℕ };

    // The node's words are among so many.
    ghost room: { Self → ℕ → Type 0 };

    // Among so many words the node is that one.
    ghost shows: { Self → Seen → ℕ → Type 0 };

    // A sign, as it is carried.
    ghost carried: { Bool → Self.Sign };

    // The slots of a row.
    fn side(self) -> usize
        ensures { Sides (branches self) result };

    // The sign of the first slot that is not hidden; positive where all are hidden.
    fn start(self, slots: &[u32]) -> Self::Sign
        requires { room self (length slots.now) }
        ensures { (q : Seen) → shows self q (length slots.now) → result ≡ carried (start_s (deeper self) q.n (seen q slots.now) q.x 0 (size (branches self))) };

    // The sign behind slot k, with the sign before it.
    fn behind(self, slots: &[u32], k: usize, before: Self::Sign) -> Self::Sign
        requires { (room self (length slots.now)) × (k < 2 ^ (3 * branches self)) }
        ensures { (q : Seen) (g : Bool) → shows self q (length slots.now) → before ≡ carried g → result ≡ carried (behind_s (deeper self) q.n (seen q slots.now) q.x k g) };

    // A hidden slot is written as far with the sign.
    fn write(self, slots: &mut [u32], k: usize, sign: Self::Sign)
        requires { (room self (length slots.old)) × (k < 2 ^ (3 * branches self)) }
        ensures { (q : Seen) (g : Bool) → shows self q (length slots.old) → sign ≡ carried g → seen q slots.new ≡ write_s (deeper self) q.x k g (seen q slots.old) };
}

// The row of z from slot i on: "k starts as j and slot (x,y,z) replaces it, else the hidden slot gets k".
fn row_z<C: Carry>(node: C, slots: &mut [u32], i: usize, sign: C::Sign)
    requires { (C.room node (length slots.old)) × (i + 2 ^ C.branches node ≤ 2 ^ (3 * C.branches node)) }
    ensures { (q : Seen) (g : Bool) → C.shows node q (length slots.old) → sign ≡ C.carried g
        → seen q slots.new ≡ row_z (C.branches node) (C.deeper node) q.n q.x i g (seen q slots.old) }
{
    let mut k = sign;
    for z in 0..node.side() {
        k = node.behind(slots, i + z, k);
        node.write(slots, i + z, k);
    }
}

// The rows of y from slot i on: "j starts as i and slot (x,y,0) replaces it".
#[tactic(auto, using(crate::proofs::Along::row_ends))]
fn row_y<C: Carry>(node: C, slots: &mut [u32], i: usize, sign: C::Sign)
    requires { (C.room node (length slots.old)) × (i + 2 ^ (2 * C.branches node) ≤ 2 ^ (3 * C.branches node)) }
    ensures { (q : Seen) (g : Bool) → C.shows node q (length slots.old) → sign ≡ C.carried g
        → seen q slots.new ≡ row_y (C.branches node) (C.deeper node) q.n q.x i g (seen q slots.old) }
{
    let m = node.side();
    let mut j = sign;
    for y in 0..m {
        j = node.behind(slots, i + y * m, j);
        row_z(node, slots, i + y * m, j);
    }
}

// All rows: "For each x in turn, slot (x,0,0) if not hidden replaces i".
#[tactic(auto, using(crate::proofs::Along::face_ends))]
pub fn rows<C: Carry>(node: C, slots: &mut [u32])
    requires { C.room node (length slots.old) }
    ensures { (q : Seen) → C.shows node q (length slots.old) → seen q slots.new ≡ rows_m (C.branches node) (C.deeper node) q.n q.x (seen q slots.old) }
{
    let m = node.side();
    let mut i = node.start(slots);
    for x in 0..m {
        i = node.behind(slots, x * (m * m), i);
        row_y(node, slots, x * (m * m), i);
    }
}
