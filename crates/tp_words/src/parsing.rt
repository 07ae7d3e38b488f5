//! What is told of a line that no command takes.

ghost use Rattle.std.specs.Prelude.{◌≡◌, ◌↔◌, true, IfErr, IfOk, IfSome, IsTrue, OnOk};
ghost use Rattle.tp_words.specs.Lower.{kind_of, OutOfMemory};
ghost use Rattle.tp_words.specs.Lines.{asks_help};
ghost use Rattle.tp_words.specs.Parsing.{IsMistake};
ghost use Rattle.tp_words.specs.Refused.{IsUntaken};

use crate::arg_fault::ArgFault;
use crate::line::asks_help;
use crate::shown::shown_words;
use crate::words::{Name, command};
use clap::error::ErrorKind;
use std::alloc::{AllocError, Global};

/// Whether `clap` ran out of memory.
fn wants_memory(error: &clap::Error) -> bool
    ensures { IsTrue result ↔ (kind_of error.now ≡ OutOfMemory) }
{
    error.kind() == ErrorKind::OutOfMemory
}

/// What `clap` says of words that it doesn't take; `None`: it takes them, or they ask for help.
fn mistake_in(
    alloc: Global,
    words: &[String],
    names: &[Name],
) -> Result<Option<clap::Error>, AllocError>
    ensures { IfOk result (λ found. IfSome found IsMistake) }
{
    match command(alloc, names)?.try_get_matches_from(words) {
        Ok(_matches) => Ok(None),
        Err(error) if wants_memory(&error) => Err(AllocError),
        Err(error) if error.use_stderr() => Ok(Some(error)),
        Err(_help) => Ok(None),
    }
}

/// What `clap` says of words that it doesn't take, with each word as messages show it. It doesn't take the words as they are shown either, since each
/// name of a command or an option consists of characters that are shown as they are.
fn shown_error(
    alloc: Global,
    words: &[String],
    names: &[Name],
    error: clap::Error,
) -> Result<clap::Error, AllocError>
    requires { IsMistake error }
    ensures { IfOk result IsMistake }
{
    let Some(shown) = shown_words(alloc, words)? else {
        return Ok(error);
    };
    match mistake_in(alloc, shown.as_slice(), names)? {
        Some(other) => Ok(other),
        None => Ok(error),
    }
}

/// What is told if `clap` doesn't take the words: out of memory, or its text, which is no fault if help or the version was asked for.
fn unfound(
    alloc: Global,
    words: &[String],
    names: &[Name],
    error: clap::Error,
) -> Result<String, ArgFault>
    ensures help { OnOk result (asks_help words.now ≡ true) }
    ensures refused { IfErr result (IsUntaken words.now) }
{
    if wants_memory(&error) {
        return Err(ArgFault::Memory);
    }
    if error.use_stderr() {
        return Err(ArgFault::Words(shown_error(alloc, words, names, error)?));
    }
    if !asks_help(words) {
        return Err(ArgFault::Missing);
    }
    Ok(format!(in alloc; "{error}")?)
}

/// What is told of a line that no command takes: how to call one of these commands if that is asked for, or else what is wrong, as `clap` says it.
pub fn untaken(alloc: Global, words: &[String], names: &[Name]) -> Result<String, ArgFault>
    ensures help { OnOk result (asks_help words.now ≡ true) }
    ensures refused { IfErr result (IsUntaken words.now) }
{
    let mut command = command(alloc, names)?;
    match command.try_get_matches_from_mut(words) {
        Ok(_matches) if asks_help(words) => Ok(command.render_help()?),
        Ok(_matches) => Err(ArgFault::Missing),
        Err(error) => unfound(alloc, words, names, error),
    }
}
