// The tabled cases T12 to T14 of document 01, run. Each line is made of what the calls answered.
#![tactic(auto)]

ghost use Rattle.std.specs.Prelude.{◌≤◌};

use std::io;

// Whether lent lengths that belong to n cells are accepted. This is the test that every call makes first. It is asked on lengths, since the slots of 65,535 cells take
// 16.8 MB and a program has only its stack, of 8 MB; fuzz/ asks it in C on real memory.
fn accepted(n: usize) -> bool
    requires { n ≤ 65536 }
{
    sound::lengths::cells(4096 + 64 * n, 128 + 2 * n, 9 + 2 * n) == Some(n)
}

// Writes n and the verdict.
fn write_verdict(rt: &impl Print, n: usize) -> io::Result<()>
    requires { n ≤ 65536 }
{
    let verdict = if accepted(n) { "accepted" } else { "refused" };
    print!(rt; "{n} {verdict}")
}

// Writes the answers to the three combinations of seat 2 with itself, in a prepared pool of one cell: also before 6, which a seat that is not filled would give.
fn write_itself(rt: &impl Print) -> io::Result<()> {
    let mut slots = [0u32; 4160];
    let mut masks = [0u64; 130];
    let mut book = [0u32; 11];
    let prepared = calls::yoldrick_prepare(&mut slots, &mut masks, &mut book);
    let union = calls::yoldrick_union(&mut slots, &mut masks, &mut book, 2, 2);
    let subtract = calls::yoldrick_subtract(&mut slots, &mut masks, &mut book, 2, 2);
    let intersect = calls::yoldrick_intersect(&mut slots, &mut masks, &mut book, 2, 2);
    print!(rt; "{prepared}, then {union}, {subtract}, {intersect}")
}

// A pool of three cells in memory of its own.
#[derive(Drop)]
struct Pool {
    slots: [u32; 4288],
    masks: [u64; 134],
    book: [u32; 15],
}

impl Pool {
    // The code of preparing it.
    fn prepared(&mut self) -> u32 {
        calls::yoldrick_prepare(&mut self.slots, &mut self.masks, &mut self.book)
    }

    // The code of an insert at (0, 0, z) in seat 0.
    fn insert(&mut self, z: i32, bits: u32) -> u32 {
        let Pool { slots, masks, book } = self;
        calls::yoldrick_insert(slots, masks, book, 0, 0, 0, z, bits)
    }

    // Whether the count of the free cells is accepted and says n.
    fn counts(&self, n: u32) -> bool {
        let free = calls::yoldrick_free_cells(&self.slots, &self.masks, &self.book);
        free.code == 0 && free.number == n
    }

    // The last free cell is used: an insert next to the first leaf takes it, after which none is free and another insert is refused with 9.
    fn used(&mut self) -> bool {
        let first = self.insert(4, 0x4000_0000);
        let none = self.counts(0);
        let second = self.insert(8, 0x4000_0000);
        first == 0 && none && second == 9
    }

    // It is released: after a remove it is free again.
    fn released(&mut self) -> bool {
        let Pool { slots, masks, book } = self;
        let code = calls::yoldrick_remove(slots, masks, book, 0, 0, 0, 4);
        let one = self.counts(1);
        code == 0 && one
    }

    // How many of 100 times the last free cell was used and then released.
    fn turns(&mut self) -> usize {
        (0..100).filter(|_| self.used() && self.released()).count()
    }
}

// The turns in a pool of three cells, of which a first voxel takes two.
fn last_cell() -> usize {
    let mut pool = Pool {
        slots: [0; 4288],
        masks: [0; 134],
        book: [0; 15],
    };
    if pool.prepared() != 0 || pool.insert(0, 0x3F80_0000) != 0 {
        return 0;
    }
    pool.turns()
}

fn main(rt: HostRuntime) -> io::Result<()> {
    print!(rt; "T12 ")?;
    write_verdict(&rt, 65535)?;
    print!(rt; ", ")?;
    write_verdict(&rt, 65536)?;
    print!(rt; "\nT13 prepare, then seat 2 with itself by union, subtract and intersect: ")?;
    write_itself(&rt)?;
    let times = last_cell();
    println!(rt; "\nT14 the last free cell is used and released {times} times")
}
