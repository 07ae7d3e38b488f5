//! Arithmetic on words.

ghost use Rattle.std.specs.Prelude.{◌≡◌, ◌-◌, ◌^◌, ◌+ℤ◌, ◌-ℤ◌, ◌*ℤ◌, ◌==◌, ◌||◌, ◌&&◌, false, not, int_div};
ghost use Rattle.tp_cpu.specs.Lower.{most_neg, signed, word_of, fits, shl, shr};

/// The most negative word.
pub const MOST_NEG: u32 = 0x8000_0000;

/// The low word of a whole number, and whether the number is outside the signed words.
#[derive(Clone, Copy)]
pub struct Narrowed {
    pub word: u32,
    pub over: bool,
}

#[inline(always)]
#[tactic(auto, using(crate::proofs::Whole::low_word))]
pub fn narrow(whole: i64) -> Narrowed
    ensures word { result.word ≡ word_of whole }
    ensures over { result.over ≡ not (fits whole) }
{
    let word = (whole.cast_unsigned() % 0x1_0000_0000) as u32;
    Narrowed {
        word,
        over: whole < -0x8000_0000 || 0x7FFF_FFFF < whole,
    }
}

/// Reads `word` as a signed number.
#[inline(always)]
pub fn wide(word: u32) -> i64
    ensures { result ≡ signed word }
{
    i64::from(word.cast_signed())
}

#[inline(always)]
pub fn add(b: u32, a: u32) -> Narrowed
    ensures word { result.word ≡ word_of (signed b +ℤ signed a) }
    ensures over { result.over ≡ not (fits (signed b +ℤ signed a)) }
{
    narrow(wide(b) + wide(a))
}

#[inline(always)]
pub fn sub(b: u32, a: u32) -> Narrowed
    ensures word { result.word ≡ word_of (signed b -ℤ signed a) }
    ensures over { result.over ≡ not (fits (signed b -ℤ signed a)) }
{
    narrow(wide(b) - wide(a))
}

#[inline(always)]
pub fn mul(b: u32, a: u32) -> Narrowed
    ensures word { result.word ≡ word_of (signed b *ℤ signed a) }
    ensures over { result.over ≡ not (fits (signed b *ℤ signed a)) }
{
    narrow(product(b, a))
}

#[inline(always)]
fn product(b: u32, a: u32) -> i64
    ensures { result ≡ signed b *ℤ signed a }
{
    wide(b) * wide(a)
}

/// Divides `b` by `a`, rounding towards zero. The caller leaves out quotients that are outside the signed words.
#[inline]
pub fn quotient(b: u32, a: u32) -> u32
    requires { ((a == 0) || ((b == most_neg) && (a == 2 ^ 32 - 1))) ≡ false }
    ensures { result ≡ word_of (int_div (signed b) (signed a)) }
{
    (b.cast_signed() / a.cast_signed()).cast_unsigned()
}

#[inline]
pub fn shl(word: u32, places: u32) -> u32
    ensures { result ≡ shl word places }
{
    if places < 32 { word << places } else { 0 }
}

#[inline]
pub fn shr(word: u32, places: u32) -> u32
    ensures { result ≡ shr word places }
{
    if places < 32 { word >> places } else { 0 }
}
