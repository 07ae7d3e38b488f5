//! Words and numbers that were typed.

ghost use Rattle.std.specs.Prelude.{◌≡◌, ◌≢◌, ◌<◌, ◌^◌, ℕ, None, IfOk, IfSome, drop, map, string_bytes};
ghost use Rattle.tp_words.specs.Lower.{decimal, option_map};
ghost use Rattle.tp_words.specs.Given.{all_given_in, given_in, has_flag, has_flag_in, value_in, value_of};
ghost use Rattle.tp_words.specs.Typed.{has_word, is_word};

use std::alloc::{AllocError, Global};

/// Whether a word is this one.
pub fn is_word(word: &String, text: &str) -> bool
    ensures { result ≡ is_word text.now word.now }
{
    word.as_bytes() == text.as_bytes()
}

/// Whether one of the words is this one.
pub fn has_word(words: &[String], text: &str) -> bool
    ensures { result ≡ has_word text.now words.now }
{
    for word in words {
        if is_word(word, text) {
            return true;
        }
    }
    false
}

/// The number whose decimal this text is; `None`: it is that of no number below 2^64.
pub fn number_of(alloc: Global, text: &str) -> Result<Option<u64>, AllocError>
    ensures small { IfOk result (λ found. IfSome found (λ number. number < 2 ^ 64)) }
    ensures some { IfOk result (λ found. IfSome found (λ number. text.now ≡ decimal number)) }
    ensures none { IfOk result (λ found. found ≡ None → (number : ℕ) → number < 2 ^ 64 → text.now ≢ decimal number) }
{
    let Ok(number) = text.parse::<u64>() else {
        return Ok(None);
    };
    let spelt = format!(in alloc; "{number}")?;
    if spelt.as_bytes() != text.as_bytes() {
        return Ok(None);
    }
    Ok(Some(number))
}

/// The words after the first one, which is the program's name.
pub fn after_first(words: &[String]) -> &[String]
    ensures { result.now ≡ drop 1 words.now }
{
    match words.split_first() {
        Some((_, rest)) => rest,
        None => words,
    }
}

/// What is after an ending such as `--turns=`, if a word begins with it.
fn value_in<'a>(word: &'a String, ending: &str) -> Option<&'a str>
    ensures { option_map (λ text. text.now) result ≡ value_in ending.now (string_bytes word.now) }
{
    word.as_str().strip_prefix(ending)
}

/// What was typed for the option of this name, whose ending is the name with `=` after it.
pub fn given_in<'a>(words: &'a [String], name: &str, ending: &str) -> Option<&'a str>
    ensures { option_map (λ text. text.now) result ≡ given_in name.now ending.now words.now }
{
    let (word, rest) = words.split_first()?;
    if is_word(word, "--") {
        return None;
    }
    if is_word(word, name) {
        return Some(rest.first()?.as_str());
    }
    match value_in(word, ending) {
        Some(text) => Some(text),
        None => given_in(rest, name, ending),
    }
}

/// What a word says for the option of this name, whose ending is the name with `=` after it; `rest` is after it.
fn value_of<'a>(word: &'a String, rest: &'a [String], name: &str, ending: &str) -> Option<&'a str>
    ensures { option_map (λ text. text.now) result ≡ value_of name.now ending.now word.now rest.now }
{
    if is_word(word, name) {
        return Some(rest.first()?.as_str());
    }
    value_in(word, ending)
}

/// All that was typed for the option of this name, whose ending is the name with `=` after it, in order.
pub fn all_given_in<'a>(
    alloc: Global,
    words: &'a [String],
    name: &str,
    ending: &str,
) -> Result<Vec<&'a str>, AllocError>
    ensures { IfOk result (λ texts. map (λ text. text.now) texts.items ≡ all_given_in name.now ending.now words.now) }
{
    let Some((word, rest)) = words.split_first() else {
        return Ok(Vec::new(alloc));
    };
    if is_word(word, "--") {
        return Ok(Vec::new(alloc));
    }
    let mut texts = all_given_in(alloc, rest, name, ending)?;
    if let Some(text) = value_of(word, rest, name, ending) {
        if texts.insert(0, text).is_err() {
            return Err(AllocError);
        }
    }
    Ok(texts)
}

/// Whether the flag of this name was typed: one of the words is it, and no word `--` is before that.
fn has_flag_in(words: &[String], name: &str) -> bool
    ensures { result ≡ has_flag_in name.now words.now }
{
    let Some((word, rest)) = words.split_first() else {
        return false;
    };
    !is_word(word, "--") && (is_word(word, name) || has_flag_in(rest, name))
}

/// Whether the flag of this name was typed in a line.
pub fn has_flag(words: &[String], name: &str) -> bool
    ensures { result ≡ has_flag name.now words.now }
{
    has_flag_in(after_first(words), name)
}
