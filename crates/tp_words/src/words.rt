//! The words of each command, and what `clap` says of them.

ghost use Rattle.std.specs.Prelude.{◌≡◌, map};
ghost use Rattle.tp_words.specs.Rows.{command_text, row_of, rows_of};

use crate::forms::{
    BACKUP, CHECK, COMPACT, FORMAT, IMAGE, JOURNAL, NODES, PORT, RECOVER, RUN, SHOW, STATUS, STOP,
    TRACE, TRY, WAITS,
};
use crate::help::{
    BACKUP_REFUSALS, CHECK_REFUSALS, COMPACT_REFUSALS, FORMAT_REFUSALS, NODE_REFUSALS,
    OPENING_REFUSALS, RUN_REFUSALS, STATUS_REFUSALS, STOP_REFUSALS, TRACE_REFUSALS, TRY_REFUSALS,
    WAITS_REFUSALS,
};
use crate::stream_words::{STREAM, STREAM_REFUSALS};
use clap::{Arg, ArgAction, Command};
use std::alloc::{AllocError, Global};

/// The program's version, and the logic that it is made for, which several kits have. The last line is true of any build: `rt run` and `rt ci` prove
/// what they build, and `rt try` doesn't. What builds without proofs may put another text, as long, in its place.
const VERSION: &str =
    "0.1.0\nmade for Rattle's logic dac8208d650f15bf\nproved if rt run or rt ci built it";

/// A word of a command: its name, what its value is called if it has one, and what help says of it.
pub enum Word {
    /// A word that has to be there.
    Place(&'static str, &'static str),
    /// A last word that may be there, but not beside the options of these names.
    Instead(&'static str, &'static [&'static str], &'static str),
    /// An option without a value.
    Flag(&'static str, &'static str),
    /// An option without a value that has to be there.
    Mark(&'static str, &'static str),
    /// An option without a value that may not be there beside the options of these names.
    Unless(&'static str, &'static [&'static str], &'static str),
    /// An option with a value.
    Value(&'static str, &'static str, &'static str),
    /// An option with a value that has to be there.
    Needed(&'static str, &'static str, &'static str),
    /// An option with a value that may not be there beside the options of these names.
    Alone(&'static str, &'static str, &'static [&'static str], &'static str),
    /// An option with a value that may be there for several ports.
    Many(&'static str, &'static str, &'static str),
}

/// A command: its name, what it does, and its words.
#[derive(Clone, Copy)]
pub struct Form {
    pub name: &'static str,
    pub about: &'static str,
    pub words: &'static [Word],
}

/// A command by its name.
#[derive(Clone, Copy)]
pub enum Name {
    Try,
    Trace,
    Check,
    Format,
    Run,
    Stop,
    Compact,
    Backup,
    Recover,
    Show,
    Status,
    Waits,
    Node,
    Image,
    Journal,
    Port,
    /// `run` with `--stream`.
    Stream,
}

/// The commands, in the order in which help lists them.
pub const COMMANDS: &[Name] = &[
    Name::Try,
    Name::Trace,
    Name::Check,
    Name::Format,
    Name::Run,
    Name::Stop,
    Name::Compact,
    Name::Backup,
    Name::Recover,
    Name::Show,
    Name::Status,
    Name::Waits,
    Name::Node,
    Name::Image,
    Name::Journal,
    Name::Port,
];

/// `run` with `--stream`. `clap` reads it as a command of its own.
pub const STREAM_COMMANDS: &[Name] = &[Name::Stream];

/// The command of that name.
pub fn form_of(name: Name) -> Form
    ensures name { result.name.now ≡ command_text name }
    ensures rows { map row_of result.words.now ≡ rows_of name }
{
    match name {
        Name::Try => TRY,
        Name::Trace => TRACE,
        Name::Check => CHECK,
        Name::Format => FORMAT,
        Name::Run => RUN,
        Name::Stop => STOP,
        Name::Compact => COMPACT,
        Name::Backup => BACKUP,
        Name::Recover => RECOVER,
        Name::Show => SHOW,
        Name::Status => STATUS,
        Name::Waits => WAITS,
        Name::Node => NODES,
        Name::Image => IMAGE,
        Name::Journal => JOURNAL,
        Name::Port => PORT,
        Name::Stream => STREAM,
    }
}

/// What the help of that command says of its refusals.
fn refusals_of(name: Name) -> &'static str {
    match name {
        Name::Try => TRY_REFUSALS,
        Name::Trace => TRACE_REFUSALS,
        Name::Check => CHECK_REFUSALS,
        Name::Format => FORMAT_REFUSALS,
        Name::Run => RUN_REFUSALS,
        Name::Stop => STOP_REFUSALS,
        Name::Compact => COMPACT_REFUSALS,
        Name::Backup => BACKUP_REFUSALS,
        Name::Status => STATUS_REFUSALS,
        Name::Waits => WAITS_REFUSALS,
        Name::Stream => STREAM_REFUSALS,
        Name::Node => NODE_REFUSALS,
        Name::Recover | Name::Show | Name::Image | Name::Journal | Name::Port => OPENING_REFUSALS,
    }
}

/// An option without a value.
fn flag<'a>(alloc: Global, id: &'a str, help: &'a str) -> Arg<'a> {
    Arg::new(alloc, id)
        .long(id)
        .action(ArgAction::SetTrue)
        .help(help)
}

/// An option with a value.
fn option<'a>(alloc: Global, id: &'a str, value: &'a str, help: &'a str) -> Arg<'a> {
    Arg::new(alloc, id)
        .long(id)
        .action(ArgAction::Set)
        .value_name(value)
        .help(help)
}

/// A word as `clap` takes it.
fn arg_of<'a>(alloc: Global, word: &Word) -> Result<Arg<'a>, AllocError> {
    match *word {
        Word::Place(id, help) => Ok(
            Arg::new(alloc, id)
                .required(true)
                .action(ArgAction::Set)
                .help(help),
        ),
        Word::Instead(id, others, help) => {
            Arg::new(alloc, id)
                .action(ArgAction::Set)
                .help(help)
                .conflicts_with_all(others)
        }
        Word::Flag(id, help) => Ok(flag(alloc, id, help)),
        Word::Mark(id, help) => Ok(flag(alloc, id, help).required(true)),
        Word::Unless(id, others, help) => flag(alloc, id, help).conflicts_with_all(others),
        Word::Value(id, value, help) => Ok(option(alloc, id, value, help)),
        Word::Needed(id, value, help) => Ok(option(alloc, id, value, help).required(true)),
        Word::Alone(id, value, others, help) => {
            option(alloc, id, value, help).conflicts_with_all(others)
        }
        Word::Many(id, value, help) => {
            Ok(option(alloc, id, value, help).action(ArgAction::Append))
        }
    }
}

/// A command as `clap` takes it; its help ends with what it refuses.
#[inline(never)]
fn command_of<'a>(
    alloc: Global,
    form: &Form,
    refusals: &'static str,
) -> Result<Command<'a>, AllocError> {
    let mut command = Command::new(alloc, form.name)
        .about(form.about)
        .after_help(refusals);
    for word in form.words {
        let Ok(arg) = arg_of(alloc, word) else {
            return Err(AllocError);
        };
        let Ok(with_arg) = command.arg(arg) else {
            return Err(AllocError);
        };
        command = with_arg;
    }
    Ok(command)
}

/// The program, with no commands yet.
fn program<'a>(alloc: Global) -> Result<Command<'a>, AllocError> {
    Command::new(alloc, "tpnet")
        .subcommand_required(true)
        .bin_name("tpnet")
}

/// The words that `clap` takes for commands of these names.
pub fn command<'a>(alloc: Global, names: &[Name]) -> Result<Command<'a>, AllocError> {
    let mut command = program(alloc)?.version(VERSION).about(
        "A network of transputers whose computations survive any crash",
    );
    for name in names {
        let Ok(added) = command_of(alloc, &form_of(*name), refusals_of(*name)) else {
            return Err(AllocError);
        };
        let Ok(with_added) = command.subcommand(added) else {
            return Err(AllocError);
        };
        command = with_added;
    }
    Ok(command)
}
