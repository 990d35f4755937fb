// A 32-bit word as a value of a grid: the bits of an IEEE 754 binary32. A value in lent memory is a word, and is read as a float only where numbers are compared.
#![tactic(auto)]

ghost use Rattle.std.specs.Prelude.{◌≡◌, true, not, cond, ◌+◌, ◌%◌};
ghost use Rattle.std.specs.Float.{binary32};
ghost use Rattle.std.specs.Float.Ieee.{to_bits};
ghost use Rattle.std.specs.Float.Ieee.Scale.{finite};
ghost use Rattle.floats.specs.Value.{value, is_finite, negative, negated, far_with, equal, least, most};
ghost use Rattle.floats.specs.Test.{passes, bounded};

// The exponent is not all ones: the word is neither NaN nor infinite.
pub fn finite_word(w: u32) -> bool
    ensures { result ≡ is_finite w }
{
    w % 0x8000_0000 / 0x0080_0000 != 255
}

// Neither NaN nor infinite.
#[tactic(auto, using(crate::proofs::Finite::finite_is))]
pub fn finite_value(x: f32) -> bool
    ensures { result ≡ finite x }
{
    x.is_finite()
}

// The word without its sign, with 1 added to the exponent: this carries into the sign bit exactly if the exponent is all ones. So the sign of many raised words joined bit
// by bit tells whether all of the words are finite, and a loop over words vectorises.
pub fn raised(w: u32) -> u32
    ensures { (result ≡ w % 0x8000_0000 + 0x0080_0000) × (not (negative result) ≡ is_finite w) }
{
    w % 0x8000_0000 + 0x0080_0000
}

pub fn float_of(w: u32) -> f32
    requires { is_finite w ≡ true }
    ensures { result ≡ value w }
{
    f32::from_bits(w)
}

pub fn word_of(x: f32) -> u32
    requires { finite x ≡ true }
    ensures { result ≡ to_bits binary32 x }
{
    f32::to_bits(x)
}

// The sign bit: -0 is negative.
pub fn negative_word(w: u32) -> bool
    ensures { result ≡ negative w }
{
    0x8000_0000 <= w
}

// The same bits with the other sign.
pub fn negated_word(w: u32) -> u32
    ensures { result ≡ negated w }
{
    w ^ 0x8000_0000
}

// The largest finite value, with a sign.
pub fn far_word(negative: bool) -> u32
    ensures { result ≡ far_with negative }
{
    if negative { 0xff7f_ffff } else { 0x7f7f_ffff }
}

// Numeric equality: the two zeros are equal.
pub fn equal_words(v: u32, w: u32) -> bool
    requires v_value { is_finite v ≡ true }
    requires w_value { is_finite w ≡ true }
    ensures { result ≡ equal v w }
{
    float_of(v) == float_of(w)
}

fn chosen(first: bool, x: f32, y: f32) -> f32
    ensures { result ≡ cond first x y }
{
    if first { x } else { y }
}

// The choice falls on floats and not on their words, so that with a comparison of the two it is one instruction.
fn chosen_word(first: bool, x: f32, y: f32) -> u32
    requires x_value { finite x ≡ true }
    requires y_value { finite y ≡ true }
    ensures { result ≡ to_bits binary32 (cond first x y) }
{
    word_of(chosen(first, x, y))
}

// The two choices differ only where the words are the two zeros, and then joining their bits gives -0. There is no branch, so a loop over words vectorises.
#[tactic(auto, using(crate::proofs::Finite::finite_of))]
pub fn least_word(v: u32, w: u32) -> u32
    requires v_value { is_finite v ≡ true }
    requires w_value { is_finite w ≡ true }
    ensures { result ≡ least v w }
{
    let x = float_of(v);
    let y = float_of(w);
    chosen_word(x < y, x, y) | chosen_word(y < x, y, x)
}

// As least_word; the common bits of the two zeros are +0.
#[tactic(auto, using(crate::proofs::Finite::finite_of))]
pub fn most_word(v: u32, w: u32) -> u32
    requires v_value { is_finite v ≡ true }
    requires w_value { is_finite w ≡ true }
    ensures { result ≡ most v w }
{
    let x = float_of(v);
    let y = float_of(w);
    chosen_word(x < y, y, x) & chosen_word(y < x, x, y)
}

// The test of a cut, each case with its bounds.
#[derive(Clone, Copy)]
pub enum Test {
    Below(f32),
    Above(f32),
    Between(f32, f32),
}

pub fn passed(t: Test, w: u32) -> bool
    requires { is_finite w ≡ true }
    ensures { result ≡ passes t w }
{
    let x = float_of(w);
    match t {
        Test::Below(high) => x < high,
        Test::Above(low) => low < x,
        Test::Between(low, high) => low <= x && x <= high,
    }
}

// No bound is NaN or infinite.
pub fn bounded(t: Test) -> bool
    ensures { result ≡ bounded t }
{
    match t {
        Test::Below(high) => finite_value(high),
        Test::Above(low) => finite_value(low),
        Test::Between(low, high) => finite_value(low) && finite_value(high),
    }
}
