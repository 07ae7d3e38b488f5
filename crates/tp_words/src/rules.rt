//! What the words of a line have to keep to, beside one another.

ghost use Rattle.std.specs.Prelude.{◌≡◌, ◌≤◌, ◌++◌, IfOk, codes, drop, is_some, length, map};
ghost use Rattle.tp_words.specs.Given.{given, has_flag};
ghost use Rattle.tp_words.specs.Lines.{any_typed, are_met, has_lone_bytes, is_kept, is_lawful, is_met, is_place_kind, is_repeated, is_repeated_as, is_there_as, is_typed, is_use_of, is_used, least_places, most_places, option_in};
ghost use Rattle.tp_words.specs.Rows.{row_of, rows_of};

use crate::found::option_text;
use crate::numbers::{after_first, has_flag, is_word};
use crate::reading::{has_value, option_in};
use crate::rows::{Kind, apart_of, id_of, is_needed, kind_of};
use crate::words::{Name, Word, form_of};
use std::alloc::{AllocError, Global};

/// Whether a word is the option of this name, with a value after an equals sign or without.
fn is_use_of(id: &str, word: &String) -> bool
    ensures { result ≡ is_use_of id.now (option_in word.now) }
{
    match option_in(word) {
        Some(text) => text == id.as_bytes() || has_value(id, text),
        None => false,
    }
}

/// Whether one of the words is that option, and no word `--` is before it.
pub fn is_used(id: &str, words: &[String]) -> bool
    ensures { result ≡ is_used id.now words.now }
{
    let Some((word, rest)) = words.split_first() else {
        return false;
    };
    !is_word(word, "--") && (is_use_of(id, word) || is_used(id, rest))
}

/// Whether two of them are.
fn is_repeated(id: &str, words: &[String]) -> bool
    ensures { result ≡ is_repeated id.now words.now }
{
    let Some((word, rest)) = words.split_first() else {
        return false;
    };
    if is_word(word, "--") {
        return false;
    }
    if is_use_of(id, word) {
        is_used(id, rest)
    } else {
        is_repeated(id, rest)
    }
}

/// Whether an option is repeated that may be there once.
fn is_repeated_as(word: &Word, words: &[String]) -> bool
    ensures { result ≡ is_repeated_as (row_of word.now).kind (row_of word.now).id words.now }
{
    match kind_of(word) {
        Kind::Place | Kind::Values => false,
        Kind::Flag | Kind::Value => is_repeated(id_of(word), after_first(words)),
    }
}

/// Whether the flag of this name was typed.
fn has_flag_of(alloc: Global, words: &[String], id: &str) -> Result<bool, AllocError>
    ensures { IfOk result (λ found. found ≡ has_flag (codes "--" ++ id.now) words.now) }
{
    let name = format!(in alloc; "--{id}")?;
    Ok(has_flag(words, name.as_str()))
}

/// Whether something was typed for the option of this name.
fn has_text(alloc: Global, words: &[String], id: &str) -> Result<bool, AllocError>
    ensures { IfOk result (λ found. found ≡ is_some (given id.now words.now)) }
{
    Ok(option_text(alloc, words, id)?.is_some())
}

/// Whether an option was typed.
fn is_typed(alloc: Global, words: &[String], id: &str) -> Result<bool, AllocError>
    ensures { IfOk result (λ found. found ≡ is_typed words.now id.now) }
{
    Ok(has_flag_of(alloc, words, id)? || has_text(alloc, words, id)?)
}

/// Whether one of these options was.
fn any_typed(alloc: Global, words: &[String], ids: &[&str]) -> Result<bool, AllocError>
    ensures { IfOk result (λ found. found ≡ any_typed words.now (map (λ id. id.now) ids.now)) }
{
    let Some((id, others)) = ids.split_first() else {
        return Ok(false);
    };
    Ok(is_typed(alloc, words, id)? || any_typed(alloc, words, others)?)
}

/// Whether what a word of a table is about was typed. `has_last`: there are more places than those that have to be there.
fn is_there(
    alloc: Global,
    words: &[String],
    has_last: bool,
    word: &Word,
) -> Result<bool, AllocError>
    ensures { IfOk result (λ found. found ≡ is_there_as (row_of word.now).kind words.now has_last (row_of word.now).id (row_of word.now).is_needed) }
{
    match kind_of(word) {
        Kind::Place => Ok(is_needed(word) || has_last),
        Kind::Flag => has_flag_of(alloc, words, id_of(word)),
        Kind::Value | Kind::Values => has_text(alloc, words, id_of(word)),
    }
}

/// Whether it is there if it has to be, isn't repeated if it may be there once, and no option is beside it that may not be.
fn is_met(alloc: Global, words: &[String], has_last: bool, word: &Word) -> Result<bool, AllocError>
    ensures { IfOk result (λ found. found ≡ is_met words.now has_last (row_of word.now)) }
{
    if !is_there(alloc, words, has_last, word)? {
        return Ok(!is_needed(word));
    }
    Ok(!is_repeated_as(word, words) && !any_typed(alloc, words, apart_of(word))?)
}

/// Whether that is so of each word of a table.
fn are_met(
    alloc: Global,
    words: &[String],
    has_last: bool,
    form: &[Word],
) -> Result<bool, AllocError>
    ensures { IfOk result (λ found. found ≡ are_met words.now has_last (map row_of form.now)) }
{
    let Some((word, others)) = form.split_first() else {
        return Ok(true);
    };
    Ok(is_met(alloc, words, has_last, word)? && are_met(alloc, words, has_last, others)?)
}

/// Whether a word of a table is a place.
fn is_place(word: &Word) -> bool
    ensures { result ≡ is_place_kind (row_of word.now).kind }
{
    matches!(kind_of(word), Kind::Place)
}

/// How many places have to be there.
fn least_places(form: &[Word]) -> usize
    ensures count { result ≡ least_places (map row_of form.now) }
    ensures few { result ≤ length form.now }
{
    let Some((word, others)) = form.split_first() else {
        return 0;
    };
    let others = least_places(others);
    if is_place(word) && is_needed(word) {
        others + 1
    } else {
        others
    }
}

/// How many may be there.
fn most_places(form: &[Word]) -> usize
    ensures count { result ≡ most_places (map row_of form.now) }
    ensures few { result ≤ length form.now }
{
    let Some((word, others)) = form.split_first() else {
        return 0;
    };
    let others = most_places(others);
    if is_place(word) { others + 1 } else { others }
}

/// Whether `--bytes` is there without `--watch`.
fn has_lone_bytes(alloc: Global, words: &[String]) -> Result<bool, AllocError>
    ensures { IfOk result (λ lone. lone ≡ has_lone_bytes words.now) }
{
    Ok(is_typed(alloc, words, "bytes")? && !is_typed(alloc, words, "watch")?)
}

/// Whether a trace has no option that goes with something else: of a device, or of an image.
fn is_lawful(
    alloc: Global,
    name: Name,
    has_last: bool,
    words: &[String],
) -> Result<bool, AllocError>
    ensures { IfOk result (λ lawful. lawful ≡ is_lawful name has_last words.now) }
{
    match name {
        Name::Try => Ok(!has_lone_bytes(alloc, words)?),
        Name::Trace if has_last => {
            Ok(!any_typed(alloc, words, &["in", "until", "watch", "bytes"])?)
        }
        Name::Trace => {
            Ok(!has_lone_bytes(alloc, words)? && !any_typed(alloc, words, &["from", "to"])?)
        }
        _ => Ok(true),
    }
}

/// Whether a line with this many places keeps the rules of a command.
pub fn is_kept(
    alloc: Global,
    name: Name,
    count: usize,
    words: &[String],
) -> Result<bool, AllocError>
    ensures { IfOk result (λ kept. kept ≡ is_kept name count words.now) }
{
    let form = form_of(name).words;
    let least = least_places(form);
    if count < least || most_places(form) < count {
        return Ok(false);
    }
    Ok(are_met(alloc, words, least < count, form)? && is_lawful(alloc, name, least < count, words)?)
}
