//! Sizes that were typed, as `64K`.

ghost use Rattle.std.specs.Prelude.{◌≡◌, ◌≢◌, ◌≤◌, ◌<◌, ◌^◌, ◌++◌, ℕ, None, IfOk, IfSome};
ghost use Rattle.std.specs.Fmt.{decimal};
ghost use Rattle.tp_words.specs.Size.{IsNoSize, IsNoSizeIn, IsSize, bytes_each, letter};

use crate::numbers::number_of;
use std::alloc::{AllocError, Global};

/// What a size is counted in.
#[derive(Clone, Copy)]
pub enum Measure {
    Bytes,
    Kilo,
    Mega,
    Giga,
}

/// The letter of a measure.
fn letter(measure: Measure) -> &'static str
    ensures { result.now ≡ letter measure }
{
    match measure {
        Measure::Bytes => "",
        Measure::Kilo => "K",
        Measure::Mega => "M",
        Measure::Giga => "G",
    }
}

/// How many bytes one of a measure is.
fn bytes_each(measure: Measure) -> u64
    ensures { result ≡ bytes_each measure }
{
    match measure {
        Measure::Bytes => 1,
        Measure::Kilo => 1 << 10,
        Measure::Mega => 1 << 20,
        Measure::Giga => 1 << 30,
    }
}

/// The number whose decimal is before these letters in a text that ends with them; `None`: there is none below 2^64.
fn number_before(alloc: Global, text: &str, letters: &str) -> Result<Option<u64>, AllocError>
    ensures some { IfOk result (λ found. IfSome found (λ number. (number < 2 ^ 64) × (text.now ≡ decimal number ++ letters.now))) }
    ensures none { IfOk result (λ found. found ≡ None → (number : ℕ) → number < 2 ^ 64 → text.now ≢ decimal number ++ letters.now) }
{
    let Some(front) = text.strip_suffix(letters) else {
        return Ok(None);
    };
    number_of(alloc, front)
}

/// The size that a text says in a measure, if it says one up to `most`.
fn size_in(
    alloc: Global,
    text: &str,
    measure: Measure,
    most: u64,
) -> Result<Option<u64>, AllocError>
    ensures some { IfOk result (λ found. IfSome found (λ size. (size ≤ most) × IsSize text.now size)) }
    ensures none { IfOk result (λ found. found ≡ None → IsNoSizeIn measure text.now most) }
{
    let Some(number) = number_before(alloc, text, letter(measure))? else {
        return Ok(None);
    };
    match number.checked_mul(bytes_each(measure)) {
        Some(size) if size <= most => Ok(Some(size)),
        _ => Ok(None),
    }
}

/// The size that a text says, if it says one up to `most`.
pub fn size_of(alloc: Global, text: &str, most: u64) -> Result<Option<u64>, AllocError>
    ensures some { IfOk result (λ found. IfSome found (λ size. (size ≤ most) × IsSize text.now size)) }
    ensures none { IfOk result (λ found. found ≡ None → IsNoSize text.now most) }
{
    if let Some(size) = size_in(alloc, text, Measure::Bytes, most)? {
        return Ok(Some(size));
    }
    if let Some(size) = size_in(alloc, text, Measure::Kilo, most)? {
        return Ok(Some(size));
    }
    if let Some(size) = size_in(alloc, text, Measure::Mega, most)? {
        return Ok(Some(size));
    }
    size_in(alloc, text, Measure::Giga, most)
}
