//! What was typed for an option, or at a place.

ghost use Rattle.std.specs.Prelude.{◌≡◌, ◌≤◌, ◌<◌, ◌⊎◌, ◌^◌, ◌≢◌, ◌∷◌, [], None, Some, IfErr, IfOk, IfSome, OnOk, codes, length, map, string_bytes};
ghost use Rattle.tp_words.specs.Lower.{decimal, option_map};
ghost use Rattle.tp_words.specs.Given.{given, IsGivenOr};
ghost use Rattle.tp_words.specs.Numbers.{Fits, IsNumberFault, IsPlaceFault, turns_option};
ghost use Rattle.tp_words.specs.Size.{IsAreaFault, IsAreaOf, IsSize, IsSizeFault};
ghost use Rattle.tp_words.specs.declared.arg_fault.ArgFault.TheVariants.{Missing};

use crate::arg_fault::ArgFault;
use crate::args::{MAX_AREA, MAX_TURNS};
use crate::numbers::{after_first, given_in, number_of};
use crate::sizes::size_of;
use std::alloc::{AllocError, Global};

/// What was typed for an option.
pub fn option_text<'a>(
    alloc: Global,
    words: &'a [String],
    id: &str,
) -> Result<Option<&'a str>, AllocError>
    ensures { IfOk result (λ text. option_map (λ typed. typed.now) text ≡ given id.now words.now) }
{
    let name = format!(in alloc; "--{id}")?;
    let ending = format!(in alloc; "--{id}=")?;
    Ok(given_in(after_first(words), name.as_str(), ending.as_str()))
}

/// The number that was typed for an option, which has to be in its range.
pub fn option_number(
    alloc: Global,
    words: &[String],
    id: &'static str,
    least: u64,
    most: u64,
) -> Result<Option<u64>, ArgFault>
    ensures range { IfOk result (λ found. IfSome found (λ number. (least ≤ number) × (number ≤ most))) }
    ensures typed { IfOk result (λ found. given id.now words.now ≡ option_map decimal found) }
    ensures fits { OnOk result (Fits words.now (record { id = id.now; least = least; most = most })) }
    ensures refused { IfErr result (IsNumberFault words.now (record { id = id.now; least = least; most = most })) }
{
    let Some(text) = option_text(alloc, words, id)? else {
        return Ok(None);
    };
    match number_of(alloc, text)? {
        Some(number) if least <= number && number <= most => Ok(Some(number)),
        _ => Err(ArgFault::Range { id, least, most }),
    }
}

/// The number of 32 bits that was typed for an option, which has to be in its range.
pub fn option_short(
    alloc: Global,
    words: &[String],
    id: &'static str,
    least: u64,
    most: u64,
) -> Result<Option<u32>, ArgFault>
    requires { most < 2 ^ 32 }
    ensures range { IfOk result (λ found. IfSome found (λ number. (least ≤ number) × (number ≤ most))) }
    ensures typed { IfOk result (λ found. given id.now words.now ≡ option_map decimal found) }
    ensures fits { OnOk result (Fits words.now (record { id = id.now; least = least; most = most })) }
    ensures refused { IfErr result (IsNumberFault words.now (record { id = id.now; least = least; most = most })) }
{
    match option_number(alloc, words, id, least, most)? {
        Some(number) => Ok(Some(number as u32)),
        None => Ok(None),
    }
}

/// The number that was typed for an option, which has to be in its range, or `fallback` if none was.
pub fn option_or(
    alloc: Global,
    words: &[String],
    id: &'static str,
    least: u64,
    most: u64,
    fallback: u64,
) -> Result<u64, ArgFault>
    requires range { (least ≤ fallback) × (fallback ≤ most) }
    ensures range { IfOk result (λ number. (least ≤ number) × (number ≤ most)) }
    ensures typed { IfOk result (λ number. IsGivenOr fallback number (given id.now words.now)) }
    ensures fits { OnOk result (Fits words.now (record { id = id.now; least = least; most = most })) }
    ensures refused { IfErr result (IsNumberFault words.now (record { id = id.now; least = least; most = most })) }
{
    match option_number(alloc, words, id, least, most)? {
        Some(number) => Ok(number),
        None => Ok(fallback),
    }
}

/// The text that was typed for an option.
pub fn option_string(
    alloc: Global,
    words: &[String],
    id: &str,
) -> Result<Option<String>, AllocError>
    ensures { IfOk result (λ text. given id.now words.now ≡ option_map string_bytes text) }
{
    match option_text(alloc, words, id)? {
        Some(text) => Ok(Some(String::from_str(alloc, text)?)),
        None => Ok(None),
    }
}

/// How many turns are made. `Missing` comes only if none were typed, and such a line isn't taken.
pub fn turns_of(alloc: Global, words: &[String]) -> Result<u32, ArgFault>
    ensures typed { IfOk result (λ turns. given (codes "turns") words.now ≡ Some (decimal turns)) }
    ensures fits { OnOk result (Fits words.now turns_option) }
    ensures refused { IfErr result (λ fault. IsNumberFault words.now turns_option fault ⊎ ((fault ≡ Missing) × (given (codes "turns") words.now ≡ None))) }
{
    match option_short(alloc, words, "turns", 0, MAX_TURNS)? {
        Some(turns) => Ok(turns),
        None => Err(ArgFault::Missing),
    }
}

/// How many bytes an area has, by the size that was typed for `name`.
fn size_area(alloc: Global, text: &str, name: &'static str) -> Result<u64, ArgFault>
    ensures range { IfOk result (λ area. area ≤ MAX_AREA) }
    ensures typed { IfOk result (IsSize text.now) }
    ensures refused { IfErr result (IsSizeFault name.now (Some text.now)) }
{
    match size_of(alloc, text, MAX_AREA)? {
        Some(size) => Ok(size),
        None => Err(ArgFault::Size(name)),
    }
}

/// How many bytes an area has: by `--area`, or else by the word of it; `None`: neither is given.
pub fn area_of(
    alloc: Global,
    words: &[String],
    place: Option<&str>,
) -> Result<Option<u64>, ArgFault>
    ensures range { IfOk result (λ area. IfSome area (λ area. area ≤ MAX_AREA)) }
    ensures typed { IfOk result (IsAreaOf (given (codes "area") words.now) (option_map (λ text. text.now) place.entry)) }
    ensures refused { IfErr result (IsAreaFault (given (codes "area") words.now) (option_map (λ text. text.now) place.entry)) }
{
    if let Some(text) = option_text(alloc, words, "area")? {
        return Ok(Some(size_area(alloc, text, "--area")?));
    }
    match place {
        Some(text) => Ok(Some(size_area(alloc, text, "AREA")?)),
        None => Ok(None),
    }
}

/// The number of a node or a port, at its place.
pub fn place_of(alloc: Global, text: &str) -> Result<u64, ArgFault>
    ensures typed { IfOk result (λ number. text.now ≡ decimal number) }
    ensures refused { IfErr result (IsPlaceFault text.now) }
{
    match number_of(alloc, text)? {
        Some(number) => Ok(number),
        None => Err(ArgFault::Number),
    }
}

/// The one place of a line that has one.
pub fn only<'a>(places: &[&'a str]) -> Option<&'a str>
    ensures some { IfSome result (λ text. map (λ place. place.now) places.now ≡ text.now ∷ []) }
    ensures none { result ≡ None → length (map (λ place. place.now) places.now) ≢ 1 }
{
    let (text, others) = places.split_first()?;
    if others.is_empty() { Some(*text) } else { None }
}

/// The places of a line that has two.
pub fn pair<'a>(places: &[&'a str]) -> Option<(&'a str, &'a str)>
    ensures some { IfSome result (λ pair. map (λ place. place.now) places.now ≡ pair.0.now ∷ pair.1.now ∷ []) }
    ensures none { result ≡ None → length (map (λ place. place.now) places.now) ≢ 2 }
{
    let (first, others) = places.split_first()?;
    let second = only(others)?;
    Some((*first, second))
}
