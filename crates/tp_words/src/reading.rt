//! One walk over a line: what each word of it is.

ghost use Rattle.std.specs.Prelude.{◌≡◌, IfOk, map};
ghost use Rattle.std.specs.Option.{option_map};
ghost use Rattle.tp_words.specs.Given.{value_in};
ghost use Rattle.tp_words.specs.Lines.{after_option, after_word, has_begun, has_equals, has_whole, is_begun_as, is_dashed, is_place, is_whole_as, may_end, option_in, read_in};
ghost use Rattle.tp_words.specs.Rows.{row_of};

use crate::numbers::is_word;
use crate::rows::{Kind, id_of, kind_of};
use crate::words::Word;
use std::alloc::{AllocError, Global};

/// What may come next in a line.
#[derive(Clone, Copy)]
pub enum Next {
    /// An option, a place, or the word `--`.
    Any,
    /// The value of an option.
    Value,
    /// Places only: the word `--` was before.
    Places,
}

/// Whether a word is no place: it begins with a dash, and has more.
fn is_dashed(word: &String) -> bool
    ensures { result ≡ is_dashed word.now }
{
    word.as_bytes().starts_with(b"-") && word.as_bytes().len() > 1
}

/// What is after the two dashes of an option.
pub fn option_in(word: &String) -> Option<&[u8]>
    ensures { option_map (λ text. text.now) result ≡ option_in word.now }
{
    word.as_bytes().strip_prefix(b"--")
}

/// Whether an option without its value is this text, or has its value in it.
pub fn has_value(id: &str, text: &[u8]) -> bool
    ensures { result ≡ has_equals (value_in id.now text.now) }
{
    match text.strip_prefix(id.as_bytes()) {
        Some(rest) => rest.starts_with(b"="),
        None => false,
    }
}

/// Whether an option is this text, together with its value if it has one.
fn is_whole(word: &Word, text: &[u8]) -> bool
    ensures { result ≡ is_whole_as (row_of word.now).kind (row_of word.now).id text.now }
{
    match kind_of(word) {
        Kind::Place => false,
        Kind::Flag => text == id_of(word).as_bytes(),
        Kind::Value | Kind::Values => has_value(id_of(word), text),
    }
}

/// Whether an option is this text, and its value is the next word.
fn is_begun(word: &Word, text: &[u8]) -> bool
    ensures { result ≡ is_begun_as (row_of word.now).kind (row_of word.now).id text.now }
{
    match kind_of(word) {
        Kind::Place | Kind::Flag => false,
        Kind::Value | Kind::Values => text == id_of(word).as_bytes(),
    }
}

/// Whether the text is an option of a command, together with its value if it has one.
fn has_whole(form: &[Word], text: &[u8]) -> bool
    ensures { result ≡ has_whole (map row_of form.now) text.now }
{
    let Some((word, others)) = form.split_first() else {
        return false;
    };
    is_whole(word, text) || has_whole(others, text)
}

/// Whether the text is an option of a command whose value is the next word.
fn has_begun(form: &[Word], text: &[u8]) -> bool
    ensures { result ≡ has_begun (map row_of form.now) text.now }
{
    let Some((word, others)) = form.split_first() else {
        return false;
    };
    is_begun(word, text) || has_begun(others, text)
}

/// What may come after an option; `None`: the command hasn't this option.
fn after_option(form: &[Word], word: &String) -> Option<Next>
    ensures { result ≡ after_option (map row_of form.now) (option_in word.now) }
{
    let text = option_in(word)?;
    if has_whole(form, text) {
        return Some(Next::Any);
    }
    if has_begun(form, text) {
        return Some(Next::Value);
    }
    None
}

/// What may come after a word; `None`: it may not be there.
fn after_word(form: &[Word], next: Next, word: &String) -> Option<Next>
    ensures { result ≡ after_word (map row_of form.now) next word.now }
{
    match next {
        Next::Any if is_word(word, "--") => Some(Next::Places),
        Next::Any if is_dashed(word) => after_option(form, word),
        Next::Any => Some(Next::Any),
        Next::Value if is_dashed(word) => None,
        Next::Value => Some(Next::Any),
        Next::Places => Some(Next::Places),
    }
}

/// Whether a word is a place.
fn is_place(next: Next, word: &String) -> bool
    ensures { result ≡ is_place next word.now }
{
    match next {
        Next::Any => !is_dashed(word),
        Next::Value => false,
        Next::Places => true,
    }
}

/// Whether a line may end here: no value is missing.
fn may_end(next: Next) -> bool
    ensures { result ≡ may_end next }
{
    match next {
        Next::Any | Next::Places => true,
        Next::Value => false,
    }
}

/// The places among the words after a command; `None`: one of the words may not be there, or a value is missing.
pub fn read_in<'a>(
    alloc: Global,
    form: &[Word],
    next: Next,
    words: &'a [String],
) -> Result<Option<Vec<&'a str>>, AllocError>
    ensures { IfOk result (λ found. option_map (λ places. map (λ text. text.now) places.items) found ≡ read_in (map row_of form.now) next words.now) }
{
    let Some((word, rest)) = words.split_first() else {
        return Ok(if may_end(next) {
            Some(Vec::new(alloc))
        } else {
            None
        });
    };
    let Some(then) = after_word(form, next, word) else {
        return Ok(None);
    };
    let Some(mut places) = read_in(alloc, form, then, rest)? else {
        return Ok(None);
    };
    if is_place(next, word) && places.insert(0, word.as_str()).is_err() {
        return Err(AllocError);
    }
    Ok(Some(places))
}
