//! Which lines the commands take.

ghost use Rattle.std.specs.Prelude.{◌≡◌, true, IfOk, IfSome, length, map, string_bytes};
ghost use Rattle.std.specs.Option.{option_map};
ghost use Rattle.tp_words.specs.Lines.{Taken, asks_help, begins_help, has_asking, is_asking, is_kept, is_stream, line_of, name_in, named, taken, taken_as, taken_in};

use crate::args::MAX_WORDS;
use crate::numbers::{after_first, has_flag, is_word};
use crate::reading::{Next, read_in};
use crate::rules::is_kept;
use crate::words::{COMMANDS, Name, form_of};
use std::alloc::{AllocError, Global};

/// What a line is taken as: the command, and the places after it.
#[derive(Drop)]
pub struct Line<'a> {
    pub name: Name,
    pub places: Vec<&'a str>,
}

/// The first of some commands that is typed so.
fn named(names: &[Name], word: &String) -> Option<Name>
    ensures { result ≡ named names.now (string_bytes word.now) }
{
    let (name, others) = names.split_first()?;
    if is_word(word, form_of(*name).name) {
        return Some(*name);
    }
    named(others, word)
}

/// Whether a line is about a stream: it is one of `run` with `--stream`.
fn is_stream(words: &[String], word: &String) -> bool
    ensures { result ≡ is_stream words.now word.now }
{
    is_word(word, "run") && has_flag(words, "--stream")
}

/// The command of a line.
fn name_in(words: &[String], word: &String) -> Option<Name>
    ensures { result ≡ name_in words.now word.now }
{
    if is_stream(words, word) {
        return Some(Name::Stream);
    }
    named(COMMANDS, word)
}

/// What the words after a command are taken as, if they keep its rules.
fn taken_as<'a>(
    alloc: Global,
    name: Name,
    words: &[String],
    line: &'a [String],
) -> Result<Option<Line<'a>>, AllocError>
    ensures taken { IfOk result (λ found. option_map line_of found ≡ taken_as (Some name) words.now line.now) }
    ensures kept { IfOk result (λ found. IfSome found (λ line. is_kept line.name (length line.places.items) words.now ≡ true)) }
{
    let Some(places) = read_in(alloc, form_of(name).words, Next::Any, line)? else {
        return Ok(None);
    };
    if is_kept(alloc, name, places.len(), words)? {
        Ok(Some(Line { name, places }))
    } else {
        Ok(None)
    }
}

/// What the words after the program's name are taken as.
fn taken_in<'a>(
    alloc: Global,
    words: &[String],
    rest: &'a [String],
) -> Result<Option<Line<'a>>, AllocError>
    ensures taken { IfOk result (λ found. option_map line_of found ≡ taken_in words.now rest.now) }
    ensures kept { IfOk result (λ found. IfSome found (λ line. is_kept line.name (length line.places.items) words.now ≡ true)) }
{
    let Some((word, line)) = rest.split_first() else {
        return Ok(None);
    };
    match name_in(words, word) {
        Some(name) => taken_as(alloc, name, words, line),
        None => Ok(None),
    }
}

/// What a line is taken as; `None`: no command takes it. Its first word is the program's name.
pub fn taken<'a>(alloc: Global, words: &'a [String]) -> Result<Option<Line<'a>>, AllocError>
    ensures taken { IfOk result (λ found. option_map line_of found ≡ taken words.now) }
    ensures kept { IfOk result (λ found. IfSome found (λ line. is_kept line.name (length line.places.items) words.now ≡ true)) }
{
    if words.len() > MAX_WORDS {
        return Ok(None);
    }
    taken_in(alloc, words, after_first(words))
}

/// Whether a word asks for help, or for the version.
fn is_asking(word: &String) -> bool
    ensures { result ≡ is_asking word.now }
{
    is_word(word, "--help")
        || is_word(word, "--version")
        || word.as_bytes().starts_with(b"-h")
        || word.as_bytes().starts_with(b"-V")
}

/// Whether one of the words does, and no word `--` is before it.
fn has_asking(words: &[String]) -> bool
    ensures { result ≡ has_asking words.now }
{
    let Some((word, rest)) = words.split_first() else {
        return false;
    };
    !is_word(word, "--") && (is_asking(word) || has_asking(rest))
}

/// Whether the words after the program's name ask for help.
fn begins_help(words: &[String]) -> bool
    ensures { result ≡ begins_help words.now }
{
    match words.first() {
        Some(word) => is_word(word, "help") || has_asking(words),
        None => false,
    }
}

/// Whether a line asks for help, or for the version.
pub fn asks_help(words: &[String]) -> bool
    ensures { result ≡ asks_help words.now }
{
    begins_help(after_first(words))
}
