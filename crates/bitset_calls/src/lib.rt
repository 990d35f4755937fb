// The bit sets for callers in C, on numbers and slices: each call first tests what it was given, and one that is refused has changed no lent word. A slice is
// a pointer and a count of words in C, and a size, an index, an offset or a count is a size_t. bitset_calls_c exports them under these names.
// Each call tests first and returns REFUSED in lines of its own: a closure for what is done, as `then` takes it, would say nothing of the lent words where it is not called.
#![tactic(auto)]

ghost use Rattle.std.specs.Prelude.{◌≡◌, false, cond, not, ◌&&◌, ◌||◌, ◌+◌, ◌-◌, ◌*◌, ◌/◌, ◌<◌, length, eqb, leb, ltb, IsTrue, ◌↔◌};
ghost use Rattle.std.specs.Bool.{xor};
ghost use Rattle.bitset.specs.Set.{Sized, weight, word_bit, bit_of, up, down, empty, full, same};
ghost use Rattle.bitset_calls.specs.Call.{sized, has, pair, triple, done, truth, stored, found_answer, Mask, First, Word, Reads, Writes};

// Code 0: done, and value is the answer, a bool as 0 or 1, and 0 where there is none. Code 1: refused. Code 2: nothing there.
#[repr(C)]
#[derive(Clone, Copy)]
pub struct BitsAnswer {
    pub code: u32,
    pub value: u64,
}

const DONE: BitsAnswer = BitsAnswer { code: 0, value: 0 };

const REFUSED: BitsAnswer = BitsAnswer { code: 1, value: 0 };

const NOTHING: BitsAnswer = BitsAnswer { code: 2, value: 0 };

impl From<u64> for BitsAnswer {
    ghost from_gives = { λ v r. r ≡ done v };

    fn from(value: u64) -> BitsAnswer {
        BitsAnswer { code: 0, value }
    }
}

impl From<bool> for BitsAnswer {
    ghost from_gives = { λ b r. r ≡ done (truth b) };

    fn from(b: bool) -> BitsAnswer {
        BitsAnswer::from(u64::from(b))
    }
}

impl From<Option<u64>> for BitsAnswer {
    ghost from_gives = { λ found r. r ≡ found_answer found };

    fn from(found: Option<u64>) -> BitsAnswer {
        found.map_or(NOTHING, BitsAnswer::from)
    }
}

// The words are just those that a set of n bits needs, and n is from 1 to 512.
#[tactic(auto, unfolding(crate::specs::Call::sized))]
fn sized(words: usize, n: usize) -> bool
    ensures is { result ≡ sized words n }
    ensures holds { IsTrue result ↔ Sized words n }
{
    0 < n && n <= 512 && words == (n + 63) / 64
}

// So they are, and i is a bit of the set.
#[tactic(auto, unfolding(crate::specs::Call::has))]
fn has(words: usize, n: usize, i: usize) -> bool
    ensures is { result ≡ has words n i }
    ensures within { IsTrue result → i < 64 * words }
{
    sized(words, n) && i < n
}

// So they are, and a second set has as many words.
#[tactic(auto, unfolding(crate::specs::Call::pair))]
fn pair(words: usize, second: usize, n: usize) -> bool
    ensures is { result ≡ pair words second n }
    ensures holds { IsTrue result → Sized words n }
    ensures same { IsTrue result → second ≡ words }
{
    sized(words, n) && second == words
}

// And a third.
#[tactic(auto, unfolding(crate::specs::Call::triple))]
fn triple(words: usize, second: usize, third: usize, n: usize) -> bool
    ensures is { result ≡ triple words second third n }
    ensures same { IsTrue result → (second ≡ words) × (third ≡ words) }
{
    pair(words, second, n) && third == words
}

// Every word becomes value, unused bits too.
pub fn yoldrick_bits_with(ws: &mut [u64], n: usize, value: u64) -> BitsAnswer
    ensures { Writes (sized (length ws.old) n) (done 0) (λ k. ltb k (64 * length ws.old) && word_bit value k) ws.old ws.new result }
{
    if !sized(ws.len(), n) {
        return REFUSED;
    }
    bitset::with(ws, value);
    DONE
}

pub fn yoldrick_bits_zeroes(ws: &mut [u64], n: usize) -> BitsAnswer
    ensures { Writes (sized (length ws.old) n) (done 0) (λ k. false) ws.old ws.new result }
{
    if !sized(ws.len(), n) {
        return REFUSED;
    }
    bitset::zeroes(ws);
    DONE
}

pub fn yoldrick_bits_ones(ws: &mut [u64], n: usize) -> BitsAnswer
    ensures { Writes (sized (length ws.old) n) (done 0) (λ k. ltb k (64 * length ws.old)) ws.old ws.new result }
{
    if !sized(ws.len(), n) {
        return REFUSED;
    }
    bitset::ones(ws);
    DONE
}

pub fn yoldrick_bits_on_all(ws: &mut [u64], n: usize) -> BitsAnswer
    ensures { Writes (sized (length ws.old) n) (done 0) (λ k. ltb k (64 * length ws.old)) ws.old ws.new result }
{
    if !sized(ws.len(), n) {
        return REFUSED;
    }
    bitset::on_all(ws);
    DONE
}

pub fn yoldrick_bits_off_all(ws: &mut [u64], n: usize) -> BitsAnswer
    ensures { Writes (sized (length ws.old) n) (done 0) (λ k. false) ws.old ws.new result }
{
    if !sized(ws.len(), n) {
        return REFUSED;
    }
    bitset::off_all(ws);
    DONE
}

// The word at offset; nothing where a bit of it is not below n.
pub fn yoldrick_bits_word(ws: &[u64], n: usize, offset: usize) -> BitsAnswer
    ensures { Reads (sized (length ws.now) n) (Word ws.now n offset result) result }
{
    if !sized(ws.len(), n) {
        return REFUSED;
    }
    BitsAnswer::from(bitset::word(ws, n, offset))
}

// The word at offset becomes value; nothing, and no change, where a bit of it is not below n.
pub fn yoldrick_bits_put_word(ws: &mut [u64], n: usize, offset: usize, value: u64) -> BitsAnswer
    ensures { Writes (sized (length ws.old) n) (stored (leb (64 * (offset + 1)) n))
        (λ k. cond (leb (64 * (offset + 1)) n && eqb (k / 64) offset) (word_bit value k) (bit_of ws.old k)) ws.old ws.new result }
{
    if !sized(ws.len(), n) {
        return REFUSED;
    }
    if bitset::put_word(ws, n, offset, value) {
        DONE
    } else {
        NOTHING
    }
}

// Of as many words as a set of n bits needs: how many bits of the last are unused.
pub fn yoldrick_bits_unused_bits(words: usize, n: usize) -> BitsAnswer
    ensures { Reads (sized words n) (result ≡ done (64 * words - n)) result }
{
    if !sized(words, n) {
        return REFUSED;
    }
    BitsAnswer::from(bitset::unused_bits(words, n) as u64)
}

// The bits of the last word that are in use.
pub fn yoldrick_bits_unused_mask(words: usize, n: usize) -> BitsAnswer
    ensures { Reads (sized words n) (Mask words n result) result }
{
    if !sized(words, n) {
        return REFUSED;
    }
    BitsAnswer::from(bitset::unused_mask(words, n))
}

// The word whose one bit is bit i's. Never refused.
pub fn yoldrick_bits_value_mask(i: usize) -> BitsAnswer
    ensures { result ≡ done (weight i) }
{
    BitsAnswer::from(bitset::value_mask(i))
}

pub fn yoldrick_bits_at(ws: &[u64], n: usize, i: usize) -> BitsAnswer
    ensures { Reads (has (length ws.now) n i) (result ≡ done (truth (bit_of ws.now i))) result }
{
    if !has(ws.len(), n, i) {
        return REFUSED;
    }
    BitsAnswer::from(bitset::at(ws, i))
}

pub fn yoldrick_bits_is_on(ws: &[u64], n: usize, i: usize) -> BitsAnswer
    ensures { Reads (has (length ws.now) n i) (result ≡ done (truth (bit_of ws.now i))) result }
{
    if !has(ws.len(), n, i) {
        return REFUSED;
    }
    BitsAnswer::from(bitset::is_on(ws, i))
}

pub fn yoldrick_bits_is_off(ws: &[u64], n: usize, i: usize) -> BitsAnswer
    ensures { Reads (has (length ws.now) n i) (result ≡ done (truth (not (bit_of ws.now i)))) result }
{
    if !has(ws.len(), n, i) {
        return REFUSED;
    }
    BitsAnswer::from(bitset::is_off(ws, i))
}

// Bit i becomes value: 0 is off, and any other number on.
pub fn yoldrick_bits_set(ws: &mut [u64], n: usize, i: usize, value: u32) -> BitsAnswer
    ensures { Writes (has (length ws.old) n i) (done 0) (λ k. cond (eqb k i) (not (eqb value 0)) (bit_of ws.old k)) ws.old ws.new result }
{
    if !has(ws.len(), n, i) {
        return REFUSED;
    }
    bitset::set(ws, i, value != 0);
    DONE
}

pub fn yoldrick_bits_on(ws: &mut [u64], n: usize, i: usize) -> BitsAnswer
    ensures { Writes (has (length ws.old) n i) (done 0) (λ k. eqb k i || bit_of ws.old k) ws.old ws.new result }
{
    if !has(ws.len(), n, i) {
        return REFUSED;
    }
    bitset::on(ws, i);
    DONE
}

pub fn yoldrick_bits_off(ws: &mut [u64], n: usize, i: usize) -> BitsAnswer
    ensures { Writes (has (length ws.old) n i) (done 0) (λ k. not (eqb k i) && bit_of ws.old k) ws.old ws.new result }
{
    if !has(ws.len(), n, i) {
        return REFUSED;
    }
    bitset::off(ws, i);
    DONE
}

// The first bit below n that is on, or nothing.
pub fn yoldrick_bits_find_first_on(ws: &[u64], n: usize) -> BitsAnswer
    ensures { Reads (sized (length ws.now) n) (First ws.now n result) result }
{
    if !sized(ws.len(), n) {
        return REFUSED;
    }
    BitsAnswer::from(bitset::find_first_on(ws, n).map(|k| k as u64))
}

pub fn yoldrick_bits_len(ws: &[u64], n: usize) -> BitsAnswer
    ensures { Reads (sized (length ws.now) n) (result ≡ done n) result }
{
    if !sized(ws.len(), n) {
        return REFUSED;
    }
    BitsAnswer::from(bitset::len(n) as u64)
}

pub fn yoldrick_bits_is_empty(ws: &[u64], n: usize) -> BitsAnswer
    ensures { Reads (sized (length ws.now) n) (result ≡ done (truth (empty ws.now n))) result }
{
    if !sized(ws.len(), n) {
        return REFUSED;
    }
    BitsAnswer::from(bitset::is_empty(ws, n))
}

pub fn yoldrick_bits_is_full(ws: &[u64], n: usize) -> BitsAnswer
    ensures { Reads (sized (length ws.now) n) (result ≡ done (truth (full ws.now n))) result }
{
    if !sized(ws.len(), n) {
        return REFUSED;
    }
    BitsAnswer::from(bitset::is_full(ws, n))
}

// a and b have the same bits below n.
pub fn yoldrick_bits_eq(a: &[u64], b: &[u64], n: usize) -> BitsAnswer
    ensures { Reads (pair (length a.now) (length b.now) n) (result ≡ done (truth (same a.now b.now n))) result }
{
    if !pair(a.len(), b.len(), n) {
        return REFUSED;
    }
    BitsAnswer::from(bitset::eq(a, b, n))
}

// a becomes a and b, bit by bit.
pub fn yoldrick_bits_and_assign(a: &mut [u64], b: &[u64], n: usize) -> BitsAnswer
    ensures { Writes (pair (length a.old) (length b.now) n) (done 0) (λ k. bit_of a.old k && bit_of b.now k) a.old a.new result }
{
    if !pair(a.len(), b.len(), n) {
        return REFUSED;
    }
    bitset::and_assign(a, b);
    DONE
}

pub fn yoldrick_bits_or_assign(a: &mut [u64], b: &[u64], n: usize) -> BitsAnswer
    ensures { Writes (pair (length a.old) (length b.now) n) (done 0) (λ k. bit_of a.old k || bit_of b.now k) a.old a.new result }
{
    if !pair(a.len(), b.len(), n) {
        return REFUSED;
    }
    bitset::or_assign(a, b);
    DONE
}

pub fn yoldrick_bits_xor_assign(a: &mut [u64], b: &[u64], n: usize) -> BitsAnswer
    ensures { Writes (pair (length a.old) (length b.now) n) (done 0) (λ k. xor (bit_of a.old k) (bit_of b.now k)) a.old a.new result }
{
    if !pair(a.len(), b.len(), n) {
        return REFUSED;
    }
    bitset::xor_assign(a, b);
    DONE
}

// out becomes a and b, bit by bit; what it held does not matter.
pub fn yoldrick_bits_and(a: &[u64], b: &[u64], out: &mut [u64], n: usize) -> BitsAnswer
    ensures { Writes (triple (length out.old) (length a.now) (length b.now) n) (done 0) (λ k. bit_of a.now k && bit_of b.now k) out.old out.new result }
{
    if !triple(out.len(), a.len(), b.len(), n) {
        return REFUSED;
    }
    bitset::and(a, b, out);
    DONE
}

pub fn yoldrick_bits_or(a: &[u64], b: &[u64], out: &mut [u64], n: usize) -> BitsAnswer
    ensures { Writes (triple (length out.old) (length a.now) (length b.now) n) (done 0) (λ k. bit_of a.now k || bit_of b.now k) out.old out.new result }
{
    if !triple(out.len(), a.len(), b.len(), n) {
        return REFUSED;
    }
    bitset::or(a, b, out);
    DONE
}

pub fn yoldrick_bits_xor(a: &[u64], b: &[u64], out: &mut [u64], n: usize) -> BitsAnswer
    ensures { Writes (triple (length out.old) (length a.now) (length b.now) n) (done 0) (λ k. xor (bit_of a.now k) (bit_of b.now k)) out.old out.new result }
{
    if !triple(out.len(), a.len(), b.len(), n) {
        return REFUSED;
    }
    bitset::xor(a, b, out);
    DONE
}

// out becomes the bits that are not in a, unused ones too.
pub fn yoldrick_bits_not(a: &[u64], out: &mut [u64], n: usize) -> BitsAnswer
    ensures { Writes (pair (length out.old) (length a.now) n) (done 0) (λ k. ltb k (64 * length out.old) && not (bit_of a.now k)) out.old out.new result }
{
    if !pair(out.len(), a.len(), n) {
        return REFUSED;
    }
    bitset::not(a, out);
    DONE
}

// Bit k + s moves to k: towards bit 0.
pub fn yoldrick_bits_shl(ws: &mut [u64], n: usize, s: u32) -> BitsAnswer
    ensures { Writes (sized (length ws.old) n) (done 0) (λ k. down ws.old n s k) ws.old ws.new result }
{
    if !sized(ws.len(), n) {
        return REFUSED;
    }
    bitset::shl(ws, n, s);
    DONE
}

// Bit k moves to k + s: away from bit 0.
pub fn yoldrick_bits_shr(ws: &mut [u64], n: usize, s: u32) -> BitsAnswer
    ensures { Writes (sized (length ws.old) n) (done 0) (λ k. ltb k (64 * length ws.old) && up ws.old s k) ws.old ws.new result }
{
    if !sized(ws.len(), n) {
        return REFUSED;
    }
    bitset::shr(ws, n, s);
    DONE
}
