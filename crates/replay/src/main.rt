// Replays recorded answers of the Rust. data/steps has records of six words of 4 bytes, made by oracle/tests/records.rs from the Rust alone. The first word is four
// numbers: the kind of the step, the seat, the code owed and a 0; then come x, y, z, the bits given and the bits owed, low byte first. The program does each step on one
// pool and writes how many records there were, and how many were answered otherwise.
#![tactic(auto)]

ghost use Rattle.std.specs.Prelude.{◌≤◌, length, IfOk};

use std::fs::{self, File};
use std::io::{self, Read};

// A record as it was read.
type Words = [[u8; 4]; 6];

// What a step asks of the pool.
#[derive(Clone, Copy)]
enum Kind {
    Lookup,
    Insert,
    Remove,
    Fill,
    Clear,
}

// A number that is no kind of step.
#[derive(Clone, Copy)]
struct UnknownKind;

impl TryFrom<u8> for Kind {
    type Error = UnknownKind;

    fn try_from(number: u8) -> Result<Self, UnknownKind> {
        match number {
            0 => Ok(Kind::Lookup),
            1 => Ok(Kind::Insert),
            2 => Ok(Kind::Remove),
            3 => Ok(Kind::Fill),
            4 => Ok(Kind::Clear),
            _ => Err(UnknownKind),
        }
    }
}

// One step, and what the Rust answered.
#[derive(Clone, Copy)]
struct Record {
    kind: Kind,
    seat: u32,
    code: u32,
    x: i32,
    y: i32,
    z: i32,
    bits: u32,
    owed: u32,
}

impl TryFrom<Words> for Record {
    type Error = UnknownKind;

    fn try_from(words: Words) -> Result<Self, UnknownKind> {
        let [[kind, seat, code, _], x, y, z, bits, owed] = words;
        Ok(Record {
            kind: Kind::try_from(kind)?,
            seat: u32::from(seat),
            code: u32::from(code),
            x: i32::from_le_bytes(x),
            y: i32::from_le_bytes(y),
            z: i32::from_le_bytes(z),
            bits: u32::from_le_bytes(bits),
            owed: u32::from_le_bytes(owed),
        })
    }
}

// The lent memory of a pool of 4096 cells: no turn of the records needs more than 3998.
#[derive(Drop)]
struct Pool {
    slots: [u32; 266240],
    masks: [u64; 8320],
    book: [u32; 8201],
}

impl Pool {
    // Whether a lookup answers with the code and the bits owed, which are finite.
    fn shows(&self, r: Record) -> bool {
        let Pool { slots, masks, book } = self;
        let got = calls::yoldrick_lookup(slots, masks, book, r.seat, r.x, r.y, r.z);
        got.code == r.code
            && floats::finite_value(got.value)
            && floats::word_of(got.value) == r.owed
    }

    // Does the step: whether it is answered as recorded.
    fn agrees(&mut self, r: Record) -> bool {
        let Pool { slots, masks, book } = self;
        let code = match r.kind {
            Kind::Lookup => return self.shows(r),
            Kind::Insert => calls::yoldrick_insert(
                slots, masks, book, r.seat, r.x, r.y, r.z, r.bits,
            ),
            Kind::Remove => calls::yoldrick_remove(slots, masks, book, r.seat, r.x, r.y, r.z),
            Kind::Fill => calls::yoldrick_fill(slots, masks, book, r.seat, r.bits),
            Kind::Clear => calls::yoldrick_clear(slots, masks, book, r.seat),
        };
        code == r.code
    }

    // The same of a record as it was read. A kind that there is not is answered otherwise.
    fn agrees_with(&mut self, words: Words) -> bool {
        match Record::try_from(words) {
            Ok(r) => self.agrees(r),
            Err(UnknownKind) => false,
        }
    }

    // How many of the records are answered otherwise.
    fn differing(&mut self, records: &[Words]) -> usize {
        records.iter().filter(|r| !self.agrees_with(**r)).count()
    }
}

// The records done, and those that differ.
#[derive(Clone, Copy)]
struct Tally {
    seen: u64,
    bad: u64,
}

// Reads until b is full or the file ends: how many bytes there were. A read may give fewer than there are, and std counts them to the end only into a buffer on the heap.
fn filled(file: &mut File, b: &mut [u8]) -> io::Result<usize>
    ensures { IfOk result (λ n. n ≤ length b.new) }
{
    let mut n: usize = 0;
    while n < b.len() {
        let k = file.read(&mut b[n..])?;
        if k == 0 {
            return Ok(n);
        }
        n += k;
    }
    Ok(n)
}

// Reads to the end of the file. The buffer has a whole number of records. So many turns are more than the file has, and bound the loop.
fn all(file: &mut File, pool: &mut Pool) -> io::Result<Tally> {
    let mut tally = Tally { seen: 0, bad: 0 };
    let mut b = [0u8; 24000];
    for _ in 0..1_000_000 {
        let n = filled(file, &mut b)?;
        let (words, _) = b[..n].as_chunks::<4>();
        let (records, _) = words.as_chunks::<6>();
        if records.is_empty() {
            break;
        }
        tally.seen = tally.seen.wrapping_add(records.len() as u64);
        tally.bad = tally.bad.wrapping_add(pool.differing(records) as u64);
    }
    Ok(tally)
}

fn main(rt: HostRuntime) -> io::Result<()> {
    let mut file = fs::open(&rt, "steps")?;
    let mut pool = Pool {
        slots: [0; 266240],
        masks: [0; 8320],
        book: [0; 8201],
    };
    if calls::yoldrick_prepare(&mut pool.slots, &mut pool.masks, &mut pool.book) != 0 {
        return println!(rt; "not prepared");
    }
    let tally = all(&mut file, &mut pool)?;
    println!(rt; "{} records, {} differ", tally.seen, tally.bad)
}
