// The three levels of a grid. A voxel comes as its number, x * 2^14 + y * 2^7 + z, with coordinates masked to 7 bits.
ghost use Rattle.std.specs.Prelude.{◌≡◌, [], ◌∷◌, ℕ, pos, ◌-◌, ◌<◌, ◌≤◌};
ghost use Rattle.grid.specs.Geometry.{masked, part, slot_of};
ghost use Rattle.grid.specs.Node.{size};
ghost use Rattle.nodes.specs.Level.{IsLevel, top_is, middle_is, leaf_is};
ghost use Rattle.nodes.specs.Place.{path_of};
ghost use Rattle.nodes.specs.Walk.{branching, below, point_of, voxel_at, voxels};

// A level, as the type of its nodes. Its constants are made of the branchings, and the law holds them to the meaning.
pub trait Level {
    // How often a node is halved along each axis: so its slots are 2^(3 * BRANCHING).
    const BRANCHING: usize;

    const SIZE: usize;

    // The same along each axis with all the levels below it.
    const BRANCHING_TOTAL: usize;

    ghost BRANCHING: { ℕ };

    ghost SIZE: { ℕ };

    ghost BRANCHING_TOTAL: { ℕ };

    // Its number: 2 is the top, 1 a middle node, 0 a leaf.
    ghost level: { ℕ };

    ghost law: { IsLevel level BRANCHING SIZE BRANCHING_TOTAL };

    // The slot of voxel v.
    final fn slot(v: usize) -> usize
        ensures is { result ≡ slot_of (branching level) (below level) (point_of v) }
        ensures within { result < SIZE }
    {
        let side = 1 << Self::BRANCHING;
        (digit::<Self>(v / LAYER) * side + digit::<Self>(v / SIDE)) * side + digit::<Self>(v)
    }
}

// The digit of a coordinate that tells the slots of a level apart: of its bits in the level's total, those that no level below it takes.
fn digit<L: Level>(c: usize) -> usize
    ensures { result ≡ part L.BRANCHING (L.BRANCHING_TOTAL - L.BRANCHING) (pos c) }
{
    c % (1 << L::BRANCHING_TOTAL) >> (L::BRANCHING_TOTAL - L::BRANCHING)
}

#[derive(Clone, Copy)]
pub struct Top;

#[derive(Clone, Copy)]
pub struct Middle;

#[derive(Clone, Copy)]
pub struct Leaf;

impl Level for Top {
    const BRANCHING: usize = 3;

    const SIZE: usize = 1 << (3 * Self::BRANCHING);

    const BRANCHING_TOTAL: usize = Self::BRANCHING + Middle::BRANCHING_TOTAL;

    ghost BRANCHING = { 3 };

    ghost SIZE = { 512 };

    ghost BRANCHING_TOTAL = { 7 };

    ghost level = { 2 };

    ghost law = { top_is };
}

impl Level for Middle {
    const BRANCHING: usize = 2;

    const SIZE: usize = 1 << (3 * Self::BRANCHING);

    const BRANCHING_TOTAL: usize = Self::BRANCHING + Leaf::BRANCHING_TOTAL;

    ghost BRANCHING = { 2 };

    ghost SIZE = { 64 };

    ghost BRANCHING_TOTAL = { 4 };

    ghost level = { 1 };

    ghost law = { middle_is };
}

impl Level for Leaf {
    const BRANCHING: usize = 2;

    const SIZE: usize = 1 << (3 * Self::BRANCHING);

    const BRANCHING_TOTAL: usize = Self::BRANCHING;

    ghost BRANCHING = { 2 };

    ghost SIZE = { 64 };

    ghost BRANCHING_TOTAL = { 2 };

    ghost level = { 0 };

    ghost law = { leaf_is };
}

// The slot of voxel v at a level: 2 is the top, 1 a middle node, 0 a leaf.
pub fn slot_in(level: usize, v: usize) -> usize
    requires { level ≤ 2 }
    ensures { result ≡ slot_of (branching level) (below level) (point_of v) }
{
    match level {
        2 => Top::slot(v),
        1 => Middle::slot(v),
        _ => Leaf::slot(v),
    }
}

// The slots of a node of a level.
pub fn size_in(level: usize) -> usize
    requires { level ≤ 2 }
    ensures { result ≡ size (branching level) }
{
    match level {
        2 => Top::SIZE,
        1 => Middle::SIZE,
        _ => Leaf::SIZE,
    }
}

// The low 7 bits of a signed coordinate: -1 is 127 and 128 is 0.
fn masked7(x: i32) -> usize
    ensures { (result ≡ masked 7 x) × (result < 128) }
{
    (x.cast_unsigned() % 128) as usize
}

// The voxels along a side of a grid, and in a layer.
const SIDE: usize = 1 << Top::BRANCHING_TOTAL;

const LAYER: usize = SIDE * SIDE;

// The number of the voxel at a point.
pub fn voxel(x: i32, y: i32, z: i32) -> usize
    ensures { (result ≡ voxel_at x y z) × (result < voxels) }
{
    masked7(x) * LAYER + masked7(y) * SIDE + masked7(z)
}

// The slots of voxel v on its way down: that of the top, and above it those of the middle node and of the leaf.
pub fn path(v: usize) -> usize
    ensures { (result ≡ path_of 3 (2 ∷ 2 ∷ []) (point_of v)) × (result < voxels) }
{
    Top::slot(v) + Top::SIZE * (Middle::slot(v) + Middle::SIZE * Leaf::slot(v))
}
