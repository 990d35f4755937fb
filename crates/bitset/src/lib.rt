// Sets of bits, the port of BitArray. A set is a slice of words that the caller lends, which may be a part of a longer one,
// and its size n, the number of its bits. Bit 0 is the top bit of word 0. The bits from n on, in the last word, are unused:
// `is_empty`, `is_full`, `eq` and `find_first_on` pass over them. A function that writes says of every bit of the lent words,
// used or not, what becomes of it.
//
// The source's `data` has no function here: the lent slice is the data.
#![tactic(auto)]

ghost use Rattle.std.specs.Prelude.{◌≡◌, true, false, cond, not, ◌&&◌, ◌||◌, ℕ, ◌+◌, ◌-◌, ◌*◌, ◌/◌, ◌<◌, ◌≤◌, length};
ghost use Rattle.std.specs.Prelude.{get_or, eqb, leb, ltb, MatchOption, EachIndex, ◌≢◌, Bool};
ghost use Rattle.std.specs.Bool.{xor};
ghost use Rattle.std.specs.Int.Bits.{bit_and};
ghost use Rattle.bitset.specs.Set.{Sized, Holds, weight, word_bit, bit_of, up, down, Has, every, empty, full, same};
ghost use Rattle.bitset.specs.Answers.{FirstOn, WordAt};
ghost use Rattle.bitset.specs.On.{TakesFirst};
ghost use Rattle.std.specs.Iterator.{at_most};

// Every word becomes value, so the unused bits are set too.
pub fn with(ws: &mut [u64], value: u64)
    ensures { (k : ℕ) → bit_of ws.new k ≡ ltb k (64 * length ws.old) && word_bit value k }
{
    ws.fill(value);
}

// Every bit is turned off.
pub fn zeroes(ws: &mut [u64])
    ensures { (k : ℕ) → bit_of ws.new k ≡ false }
{
    with(ws, 0);
}

// Every bit is turned on, unused ones too.
pub fn ones(ws: &mut [u64])
    ensures { (k : ℕ) → bit_of ws.new k ≡ ltb k (64 * length ws.old) }
{
    with(ws, 0xffff_ffff_ffff_ffff);
}

// The set in use is filled, as `ones` fills a new one.
pub fn on_all(ws: &mut [u64])
    ensures { (k : ℕ) → bit_of ws.new k ≡ ltb k (64 * length ws.old) }
{
    ones(ws);
}

// The set in use is emptied, as `zeroes` empties a new one.
pub fn off_all(ws: &mut [u64])
    ensures { (k : ℕ) → bit_of ws.new k ≡ false }
{
    zeroes(ws);
}

// The word at offset, where all its bits are below n. Whole words below n are n / 64, so no offset is too large to ask for.
pub fn word(ws: &[u64], n: usize, offset: usize) -> Option<u64>
    requires { Holds ws.now n }
    ensures { WordAt ws.now n offset result }
{
    if offset < n / 64 {
        Some(ws[offset])
    } else {
        None
    }
}

// The port of `word_mut`: stores value at offset where all the bits there are below n, and answers whether it did.
pub fn put_word(ws: &mut [u64], n: usize, offset: usize, value: u64) -> bool
    requires { Holds ws.old n }
    ensures there { result ≡ leb (64 * (offset + 1)) n }
    ensures stored { (k : ℕ) → bit_of ws.new k ≡ cond (result && eqb (k / 64) offset) (word_bit value k) (bit_of ws.old k) }
{
    let there = offset < n / 64;
    if there {
        ws[offset] = value;
    }
    there
}

// How many bits of the last word are unused.
pub fn unused_bits(words: usize, n: usize) -> usize
    requires { Sized words n }
    ensures { result ≡ 64 * words - n }
{
    words * 64 - n
}

// The mask that keeps the bits of the last word that are in use.
pub fn unused_mask(words: usize, n: usize) -> u64
    requires { Sized words n }
    ensures { (k : ℕ) → k < 64 → word_bit result k ≡ ltb (64 * (words - 1) + k) n }
{
    0xffff_ffff_ffff_ffff << unused_bits(words, n)
}

// The word that has bit i alone, i's weight.
pub fn value_mask(i: usize) -> u64
    ensures { result ≡ weight i }
{
    0x8000_0000_0000_0000 >> (i % 64)
}

// The word w without its bit i.
pub fn without(w: u64, i: usize) -> u64
    ensures { result ≡ bit_and w (0xffff_ffff_ffff_ffff - weight i) }
{
    w & !(1 << (63 - i % 64))
}

// The bits of a word that are on, from the first: `rest` has those that are still to come.
#[derive(Clone, Copy)]
pub struct OnBits {
    rest: u64,
}

// All bits of word that are on.
pub fn on_in(word: u64) -> OnBits
    ensures { result.rest ≡ word }
{
    OnBits { rest: word }
}

impl Iterator for OnBits {
    type Item = usize;

    ghost next_gives = { λ s r t. TakesFirst s.rest r t.rest };

    ghost remaining = { λ s. at_most s.rest };

    fn next(&mut self) -> Option<usize> {
        if self.rest == 0 {
            return None;
        }
        let i = u64::leading_zeros(self.rest) as usize;
        self.rest = without(self.rest, i);
        Some(i)
    }
}

// Bit i, as the lowest bit of its word moved down.
pub fn at(ws: &[u64], i: usize) -> bool
    requires { i < 64 * length ws.now }
    ensures { result ≡ bit_of ws.now i }
{
    let s = 63 - i % 64;
    (ws[i / 64] >> s) % 2 == 1
}

// Bit i is on.
pub fn is_on(ws: &[u64], i: usize) -> bool
    requires { i < 64 * length ws.now }
    ensures { result ≡ bit_of ws.now i }
{
    at(ws, i)
}

// Bit i is off.
pub fn is_off(ws: &[u64], i: usize) -> bool
    requires { i < 64 * length ws.now }
    ensures { result ≡ not (bit_of ws.now i) }
{
    !at(ws, i)
}

// Bit i becomes value.
pub fn set(ws: &mut [u64], i: usize, value: bool)
    requires { i < 64 * length ws.old }
    ensures { (k : ℕ) → bit_of ws.new k ≡ cond (eqb k i) value (bit_of ws.old k) }
{
    if value {
        on(ws, i);
    } else {
        off(ws, i);
    }
}

// Bit i is turned on, with no branch on what it was.
pub fn on(ws: &mut [u64], i: usize)
    requires { i < 64 * length ws.old }
    ensures { (k : ℕ) → bit_of ws.new k ≡ eqb k i || bit_of ws.old k }
{
    ws[i / 64] |= value_mask(i);
}

// Bit i is turned off, with no branch on what it was.
pub fn off(ws: &mut [u64], i: usize)
    requires { i < 64 * length ws.old }
    ensures { (k : ℕ) → bit_of ws.new k ≡ not (eqb k i) && bit_of ws.old k }
{
    ws[i / 64] &= !value_mask(i);
}

// The first word that is not 0.
fn first_word(ws: &[u64]) -> Option<usize>
    ensures { MatchOption result (EachIndex ws.now (λ q. get_or ws.now q 0 ≡ 0)) (λ i. (i < length ws.now) × (get_or ws.now i 0 ≢ 0) × ((q : ℕ) → q < i → get_or ws.now q 0 ≡ 0)) }
{
    ws.iter().position(|w| *w != 0)
}

// The first bit that is on. Where only unused bits are on the source answers with one of them, and this function with None:
// it looks only below n.
pub fn find_first_on(ws: &[u64], n: usize) -> Option<usize>
    requires { Holds ws.now n }
    ensures { FirstOn ws.now n result }
{
    let i = first_word(ws)?;
    let k = 64 * i + u64::leading_zeros(ws[i]) as usize;
    if k < n { Some(k) } else { None }
}

// The size of a set of n bits.
pub fn len(n: usize) -> usize
    ensures { result ≡ n }
{
    n
}

// No bit below n is on in a set of so many words, each as `word` gives it. All go into one, by or, so that there is one test and no branch on the way.
fn none_on<F: Fn(usize) -> u64>(words: usize, n: usize, word: F) -> bool
    requires sized { Sized words n }
    requires callable { (q : ℕ) → q < words → F.pre word q }
    ensures { (g : ℕ → Bool) → ((q w : ℕ) → q < words → F.post word q w → Has g q w) → result ≡ every (λ k. not (g k)) n }
{
    let last = words - 1;
    let mut joined = word(last) & unused_mask(words, n);
    for q in 0..last {
        joined |= word(q);
    }
    joined == 0
}

// No bit below n is on.
pub fn is_empty(ws: &[u64], n: usize) -> bool
    requires { Holds ws.now n }
    ensures { result ≡ empty ws.now n }
{
    none_on(ws.len(), n, |q| ws[q])
}

// Each bit below n is on: none is that is off.
pub fn is_full(ws: &[u64], n: usize) -> bool
    requires { Holds ws.now n }
    ensures { result ≡ full ws.now n }
{
    none_on(ws.len(), n, |q| !ws[q])
}

// The sets a and b have the same bits below n: none in which they differ.
pub fn eq(a: &[u64], b: &[u64], n: usize) -> bool
    requires holds { Holds a.now n }
    requires b_len { length b.now ≡ length a.now }
    ensures { result ≡ same a.now b.now n }
{
    none_on(a.len(), n, |q| a[q] ^ b[q])
}

// Each word becomes what `word` makes of its number and of what it was.
fn each<F: Fn(usize, u64) -> u64>(ws: &mut [u64], word: F)
    requires { (q v : ℕ) → q < length ws.old → F.pre word q v }
    ensures { EachIndex ws.new (λ q. F.post word q (get_or ws.old q 0) (get_or ws.new q 0)) }
{
    for (q, w) in ws.iter_mut().enumerate() {
        *w = word(q, *w);
    }
}

// a becomes the bits that are in both a and b, which have as many words.
pub fn and_assign(a: &mut [u64], b: &[u64])
    requires { length b.now ≡ length a.old }
    ensures { (k : ℕ) → bit_of a.new k ≡ bit_of a.old k && bit_of b.now k }
{
    each(a, |q, w| w & b[q]);
}

// a becomes the bits that are in a or in b.
pub fn or_assign(a: &mut [u64], b: &[u64])
    requires { length b.now ≡ length a.old }
    ensures { (k : ℕ) → bit_of a.new k ≡ bit_of a.old k || bit_of b.now k }
{
    each(a, |q, w| w | b[q]);
}

// a becomes the bits that are in just one of a and b.
pub fn xor_assign(a: &mut [u64], b: &[u64])
    requires { length b.now ≡ length a.old }
    ensures { (k : ℕ) → bit_of a.new k ≡ xor (bit_of a.old k) (bit_of b.now k) }
{
    each(a, |q, w| w ^ b[q]);
}

// out becomes the bits that are in both a and b. All three have as many words, and what out held does not matter.
pub fn and(a: &[u64], b: &[u64], out: &mut [u64])
    requires { (length a.now ≡ length out.old) × (length b.now ≡ length out.old) }
    ensures { (k : ℕ) → bit_of out.new k ≡ bit_of a.now k && bit_of b.now k }
{
    each(out, |q, _| a[q] & b[q]);
}

// out becomes the bits that are in a or in b.
pub fn or(a: &[u64], b: &[u64], out: &mut [u64])
    requires { (length a.now ≡ length out.old) × (length b.now ≡ length out.old) }
    ensures { (k : ℕ) → bit_of out.new k ≡ bit_of a.now k || bit_of b.now k }
{
    each(out, |q, _| a[q] | b[q]);
}

// out becomes the bits that are in just one of a and b.
pub fn xor(a: &[u64], b: &[u64], out: &mut [u64])
    requires { (length a.now ≡ length out.old) × (length b.now ≡ length out.old) }
    ensures { (k : ℕ) → bit_of out.new k ≡ xor (bit_of a.now k) (bit_of b.now k) }
{
    each(out, |q, _| a[q] ^ b[q]);
}

// out becomes the bits that are not in a, unused ones too.
pub fn not(a: &[u64], out: &mut [u64])
    requires { length a.now ≡ length out.old }
    ensures { (k : ℕ) → bit_of out.new k ≡ ltb k (64 * length out.old) && not (bit_of a.now k) }
{
    each(out, |q, _| !a[q]);
}

// Word q, and 0 past the end.
fn word_or_zero(ws: &[u64], q: usize) -> u64
    ensures { result ≡ get_or ws.now q 0 }
{
    ws.get(q).copied().unwrap_or(0)
}

// The 64 bits from bit p on: the rest of one word, and what the next has of them. The next word moves in two steps, since
// where p starts a word it has to move by 64, which no one shift does.
fn window(ws: &[u64], p: usize) -> u64
    ensures { (r : ℕ) → r < 64 → word_bit result r ≡ bit_of ws.now (p + r) }
{
    let q = p / 64;
    let o = p % 64;
    let here = word_or_zero(ws, q);
    let next = word_or_zero(ws, q + 1);
    (here << o) | ((next >> 1) >> (63 - o))
}

// Word q of the set whose bits all moved up by s.
fn moved_word(ws: &[u64], q: usize, s: usize) -> u64
    requires { q < 8 }
    ensures { (r : ℕ) → r < 64 → word_bit result r ≡ up ws.now s (64 * q + r) }
{
    let first = 64 * q;
    if s <= first {
        return window(ws, first - s);
    }
    if s < first + 64 {
        return word_or_zero(ws, 0) >> (s - first);
    }
    0
}

// Bit k moves to k + s, also among the unused bits, and past the last word it is lost. The size only bounds the number of
// words. The source, in a set of three or more words, overwrites words that it has yet to read: here the words are written from
// the last to the first, and each is read before it is written.
pub fn shr(ws: &mut [u64], n: usize, s: u32)
    requires { Holds ws.old n }
    ensures { (k : ℕ) → bit_of ws.new k ≡ ltb k (64 * length ws.old) && up ws.old s k }
{
    for q in (0..ws.len()).rev() {
        ws[q] = moved_word(ws, q, s as usize);
    }
}

// The bits from n on are turned off.
fn trim(ws: &mut [u64], n: usize)
    requires { Holds ws.old n }
    ensures { (k : ℕ) → bit_of ws.new k ≡ ltb k n && bit_of ws.old k }
{
    let last = ws.len() - 1;
    let mask = unused_mask(ws.len(), n);
    ws[last] &= mask;
}

// Bit k + s moves to k, in all the words of the slice. They are written from the first to the last.
fn move_down(ws: &mut [u64], s: usize)
    requires { (length ws.old ≤ 8) × (s < 0x1_0000_0000) }
    ensures { (k : ℕ) → bit_of ws.new k ≡ bit_of ws.old (k + s) }
{
    for q in 0..ws.len() {
        ws[q] = window(ws, 64 * q + s);
    }
}

// Bit k + s moves to k. Where s is 0 nothing changes; else no unused bit comes in, and none is left on.
pub fn shl(ws: &mut [u64], n: usize, s: u32)
    requires { Holds ws.old n }
    ensures { (k : ℕ) → bit_of ws.new k ≡ down ws.old n s k }
{
    if s == 0 {
        return;
    }
    trim(ws, n);
    move_down(ws, s as usize);
}
