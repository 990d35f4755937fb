// What C calls of the bit sets: each function of bitset_calls under its own name, with the clauses that it has there. A crate that exports to C is no library for
// other crates, so this is one of its own.
#![tactic(auto)]

ghost use Rattle.std.specs.Prelude.{◌≡◌, false, cond, not, ◌&&◌, ◌||◌, ◌+◌, ◌-◌, ◌*◌, ◌/◌, length, eqb, leb, ltb};
ghost use Rattle.std.specs.Bool.{xor};
ghost use Rattle.bitset.specs.Set.{weight, word_bit, bit_of, up, down, empty, full, same};
ghost use Rattle.bitset_calls.specs.Call.{sized, has, pair, triple, done, truth, stored, Mask, First, Word, Reads, Writes};

use bitset_calls::BitsAnswer;

// Every word becomes value, unused bits too.
#[unsafe(no_mangle)]
pub extern "C" fn yoldrick_bits_with(ws: &mut [u64], n: usize, value: u64) -> BitsAnswer
    ensures { Writes (sized (length ws.old) n) (done 0) (λ k. ltb k (64 * length ws.old) && word_bit value k) ws.old ws.new result }
{
    bitset_calls::yoldrick_bits_with(ws, n, value)
}

#[unsafe(no_mangle)]
pub extern "C" fn yoldrick_bits_zeroes(ws: &mut [u64], n: usize) -> BitsAnswer
    ensures { Writes (sized (length ws.old) n) (done 0) (λ k. false) ws.old ws.new result }
{
    bitset_calls::yoldrick_bits_zeroes(ws, n)
}

#[unsafe(no_mangle)]
pub extern "C" fn yoldrick_bits_ones(ws: &mut [u64], n: usize) -> BitsAnswer
    ensures { Writes (sized (length ws.old) n) (done 0) (λ k. ltb k (64 * length ws.old)) ws.old ws.new result }
{
    bitset_calls::yoldrick_bits_ones(ws, n)
}

#[unsafe(no_mangle)]
pub extern "C" fn yoldrick_bits_on_all(ws: &mut [u64], n: usize) -> BitsAnswer
    ensures { Writes (sized (length ws.old) n) (done 0) (λ k. ltb k (64 * length ws.old)) ws.old ws.new result }
{
    bitset_calls::yoldrick_bits_on_all(ws, n)
}

#[unsafe(no_mangle)]
pub extern "C" fn yoldrick_bits_off_all(ws: &mut [u64], n: usize) -> BitsAnswer
    ensures { Writes (sized (length ws.old) n) (done 0) (λ k. false) ws.old ws.new result }
{
    bitset_calls::yoldrick_bits_off_all(ws, n)
}

// The word at offset; nothing where a bit of it is not below n.
#[unsafe(no_mangle)]
pub extern "C" fn yoldrick_bits_word(ws: &[u64], n: usize, offset: usize) -> BitsAnswer
    ensures { Reads (sized (length ws.now) n) (Word ws.now n offset result) result }
{
    bitset_calls::yoldrick_bits_word(ws, n, offset)
}

// The word at offset becomes value; nothing, and no change, where a bit of it is not below n.
#[unsafe(no_mangle)]
pub extern "C" fn yoldrick_bits_put_word(
    ws: &mut [u64],
    n: usize,
    offset: usize,
    value: u64,
) -> BitsAnswer
    ensures { Writes (sized (length ws.old) n) (stored (leb (64 * (offset + 1)) n))
        (λ k. cond (leb (64 * (offset + 1)) n && eqb (k / 64) offset) (word_bit value k) (bit_of ws.old k)) ws.old ws.new result }
{
    bitset_calls::yoldrick_bits_put_word(ws, n, offset, value)
}

// Of as many words as a set of n bits needs: how many bits of the last are unused.
#[unsafe(no_mangle)]
pub extern "C" fn yoldrick_bits_unused_bits(words: usize, n: usize) -> BitsAnswer
    ensures { Reads (sized words n) (result ≡ done (64 * words - n)) result }
{
    bitset_calls::yoldrick_bits_unused_bits(words, n)
}

// The bits of the last word that are in use.
#[unsafe(no_mangle)]
pub extern "C" fn yoldrick_bits_unused_mask(words: usize, n: usize) -> BitsAnswer
    ensures { Reads (sized words n) (Mask words n result) result }
{
    bitset_calls::yoldrick_bits_unused_mask(words, n)
}

// The word whose one bit is bit i's. Never refused.
#[unsafe(no_mangle)]
pub extern "C" fn yoldrick_bits_value_mask(i: usize) -> BitsAnswer
    ensures { result ≡ done (weight i) }
{
    bitset_calls::yoldrick_bits_value_mask(i)
}

#[unsafe(no_mangle)]
pub extern "C" fn yoldrick_bits_at(ws: &[u64], n: usize, i: usize) -> BitsAnswer
    ensures { Reads (has (length ws.now) n i) (result ≡ done (truth (bit_of ws.now i))) result }
{
    bitset_calls::yoldrick_bits_at(ws, n, i)
}

#[unsafe(no_mangle)]
pub extern "C" fn yoldrick_bits_is_on(ws: &[u64], n: usize, i: usize) -> BitsAnswer
    ensures { Reads (has (length ws.now) n i) (result ≡ done (truth (bit_of ws.now i))) result }
{
    bitset_calls::yoldrick_bits_is_on(ws, n, i)
}

#[unsafe(no_mangle)]
pub extern "C" fn yoldrick_bits_is_off(ws: &[u64], n: usize, i: usize) -> BitsAnswer
    ensures { Reads (has (length ws.now) n i) (result ≡ done (truth (not (bit_of ws.now i)))) result }
{
    bitset_calls::yoldrick_bits_is_off(ws, n, i)
}

// Bit i becomes value: 0 is off, and any other number on.
#[unsafe(no_mangle)]
pub extern "C" fn yoldrick_bits_set(ws: &mut [u64], n: usize, i: usize, value: u32) -> BitsAnswer
    ensures { Writes (has (length ws.old) n i) (done 0) (λ k. cond (eqb k i) (not (eqb value 0)) (bit_of ws.old k)) ws.old ws.new result }
{
    bitset_calls::yoldrick_bits_set(ws, n, i, value)
}

#[unsafe(no_mangle)]
pub extern "C" fn yoldrick_bits_on(ws: &mut [u64], n: usize, i: usize) -> BitsAnswer
    ensures { Writes (has (length ws.old) n i) (done 0) (λ k. eqb k i || bit_of ws.old k) ws.old ws.new result }
{
    bitset_calls::yoldrick_bits_on(ws, n, i)
}

#[unsafe(no_mangle)]
pub extern "C" fn yoldrick_bits_off(ws: &mut [u64], n: usize, i: usize) -> BitsAnswer
    ensures { Writes (has (length ws.old) n i) (done 0) (λ k. not (eqb k i) && bit_of ws.old k) ws.old ws.new result }
{
    bitset_calls::yoldrick_bits_off(ws, n, i)
}

// The first bit below n that is on, or nothing.
#[unsafe(no_mangle)]
pub extern "C" fn yoldrick_bits_find_first_on(ws: &[u64], n: usize) -> BitsAnswer
    ensures { Reads (sized (length ws.now) n) (First ws.now n result) result }
{
    bitset_calls::yoldrick_bits_find_first_on(ws, n)
}

#[unsafe(no_mangle)]
pub extern "C" fn yoldrick_bits_len(ws: &[u64], n: usize) -> BitsAnswer
    ensures { Reads (sized (length ws.now) n) (result ≡ done n) result }
{
    bitset_calls::yoldrick_bits_len(ws, n)
}

#[unsafe(no_mangle)]
pub extern "C" fn yoldrick_bits_is_empty(ws: &[u64], n: usize) -> BitsAnswer
    ensures { Reads (sized (length ws.now) n) (result ≡ done (truth (empty ws.now n))) result }
{
    bitset_calls::yoldrick_bits_is_empty(ws, n)
}

#[unsafe(no_mangle)]
pub extern "C" fn yoldrick_bits_is_full(ws: &[u64], n: usize) -> BitsAnswer
    ensures { Reads (sized (length ws.now) n) (result ≡ done (truth (full ws.now n))) result }
{
    bitset_calls::yoldrick_bits_is_full(ws, n)
}

// a and b have the same bits below n.
#[unsafe(no_mangle)]
pub extern "C" fn yoldrick_bits_eq(a: &[u64], b: &[u64], n: usize) -> BitsAnswer
    ensures { Reads (pair (length a.now) (length b.now) n) (result ≡ done (truth (same a.now b.now n))) result }
{
    bitset_calls::yoldrick_bits_eq(a, b, n)
}

// a becomes a and b, bit by bit.
#[unsafe(no_mangle)]
pub extern "C" fn yoldrick_bits_and_assign(a: &mut [u64], b: &[u64], n: usize) -> BitsAnswer
    ensures { Writes (pair (length a.old) (length b.now) n) (done 0) (λ k. bit_of a.old k && bit_of b.now k) a.old a.new result }
{
    bitset_calls::yoldrick_bits_and_assign(a, b, n)
}

#[unsafe(no_mangle)]
pub extern "C" fn yoldrick_bits_or_assign(a: &mut [u64], b: &[u64], n: usize) -> BitsAnswer
    ensures { Writes (pair (length a.old) (length b.now) n) (done 0) (λ k. bit_of a.old k || bit_of b.now k) a.old a.new result }
{
    bitset_calls::yoldrick_bits_or_assign(a, b, n)
}

#[unsafe(no_mangle)]
pub extern "C" fn yoldrick_bits_xor_assign(a: &mut [u64], b: &[u64], n: usize) -> BitsAnswer
    ensures { Writes (pair (length a.old) (length b.now) n) (done 0) (λ k. xor (bit_of a.old k) (bit_of b.now k)) a.old a.new result }
{
    bitset_calls::yoldrick_bits_xor_assign(a, b, n)
}

// out becomes a and b, bit by bit; what it held does not matter.
#[unsafe(no_mangle)]
pub extern "C" fn yoldrick_bits_and(a: &[u64], b: &[u64], out: &mut [u64], n: usize) -> BitsAnswer
    ensures { Writes (triple (length out.old) (length a.now) (length b.now) n) (done 0) (λ k. bit_of a.now k && bit_of b.now k) out.old out.new result }
{
    bitset_calls::yoldrick_bits_and(a, b, out, n)
}

#[unsafe(no_mangle)]
pub extern "C" fn yoldrick_bits_or(a: &[u64], b: &[u64], out: &mut [u64], n: usize) -> BitsAnswer
    ensures { Writes (triple (length out.old) (length a.now) (length b.now) n) (done 0) (λ k. bit_of a.now k || bit_of b.now k) out.old out.new result }
{
    bitset_calls::yoldrick_bits_or(a, b, out, n)
}

#[unsafe(no_mangle)]
pub extern "C" fn yoldrick_bits_xor(a: &[u64], b: &[u64], out: &mut [u64], n: usize) -> BitsAnswer
    ensures { Writes (triple (length out.old) (length a.now) (length b.now) n) (done 0) (λ k. xor (bit_of a.now k) (bit_of b.now k)) out.old out.new result }
{
    bitset_calls::yoldrick_bits_xor(a, b, out, n)
}

// out becomes the bits that are not in a, unused ones too.
#[unsafe(no_mangle)]
pub extern "C" fn yoldrick_bits_not(a: &[u64], out: &mut [u64], n: usize) -> BitsAnswer
    ensures { Writes (pair (length out.old) (length a.now) n) (done 0) (λ k. ltb k (64 * length out.old) && not (bit_of a.now k)) out.old out.new result }
{
    bitset_calls::yoldrick_bits_not(a, out, n)
}

// Bit k + s moves to k: towards bit 0.
#[unsafe(no_mangle)]
pub extern "C" fn yoldrick_bits_shl(ws: &mut [u64], n: usize, s: u32) -> BitsAnswer
    ensures { Writes (sized (length ws.old) n) (done 0) (λ k. down ws.old n s k) ws.old ws.new result }
{
    bitset_calls::yoldrick_bits_shl(ws, n, s)
}

// Bit k moves to k + s: away from bit 0.
#[unsafe(no_mangle)]
pub extern "C" fn yoldrick_bits_shr(ws: &mut [u64], n: usize, s: u32) -> BitsAnswer
    ensures { Writes (sized (length ws.old) n) (done 0) (λ k. ltb k (64 * length ws.old) && up ws.old s k) ws.old ws.new result }
{
    bitset_calls::yoldrick_bits_shr(ws, n, s)
}
