//! What a command line asks for, whatever its command.

ghost use Rattle.std.specs.Prelude.{◌≡◌, ◌⊎◌, true, IfErr, IfOk, OnOk, map};
ghost use Rattle.tp_words.specs.Commands.{HasCommandPlaces, IsCommandInRange, WasCommandTyped};
ghost use Rattle.tp_words.specs.Explaining.{SaysExplaining, is_help};
ghost use Rattle.tp_words.specs.Lines.{asks_help, taken};
ghost use Rattle.tp_words.specs.Places.{IsTakenAs};
ghost use Rattle.tp_words.specs.Refused.{IsLineRefused, IsRefusedBy, IsRefusedLine, IsUntaken};
ghost use Rattle.tp_words.specs.declared.arg_fault.ArgFault.TheVariants.{Memory};
ghost use Rattle.tp_words.specs.declared.command.CommandFault.TheVariants.{Arg, Ends};

use crate::arg_fault::ArgFault;
use crate::args::{Asked, MAX_WORDS, asked_by};
use crate::backup_args::{Backup, backup_of};
use crate::explaining::{Explaining, explaining_of};
use crate::line::taken;
use crate::numbers::has_flag;
use crate::parsing::untaken;
use crate::stop_args::{StopRequest, request_of};
use crate::stream_args::{StreamRun, asked_stream};
use crate::stream_ends::EndsFault;
use crate::stream_words::{are_of_run, stream_option};
use crate::words::{COMMANDS, Name, STREAM_COMMANDS};
use std::alloc::{AllocError, Global};
use std::fmt;

/// What a command line asks for.
#[derive(Drop)]
pub enum Command {
    /// A stream of a device's network.
    Stream(StreamRun),
    /// That a stream is asked to end.
    Stop(StopRequest),
    /// A copy of a device.
    Backup(Backup),
    /// What any other command does, or how the program is called.
    Other(Asked),
}

/// A command line that was read.
#[derive(Drop)]
pub struct CommandLine {
    pub command: Command,
    /// What was typed of explanations.
    pub explaining: Explaining,
}

/// Why a command line asks for nothing. Each ends the program with status 2.
#[derive(Drop)]
pub enum CommandFault {
    Arg(ArgFault),
    Ends(EndsFault),
}

impl fmt::Display for CommandFault {
    fn fmt<W: fmt::Write>(&self, f: &mut fmt::Formatter<W>) -> fmt::Result {
        match self {
            CommandFault::Arg(fault) => write!(f, "{fault}"),
            CommandFault::Ends(fault) => write!(f, "{fault}"),
        }
    }
}

impl From<ArgFault> for CommandFault {
    ghost from_gives = { λ fault told. told ≡ Arg fault };

    fn from(fault: ArgFault) -> CommandFault {
        CommandFault::Arg(fault)
    }
}

impl From<AllocError> for CommandFault {
    ghost from_gives = { λ _ told. told ≡ Arg Memory };

    fn from(_error: AllocError) -> CommandFault {
        CommandFault::Arg(ArgFault::Memory)
    }
}

impl From<EndsFault> for CommandFault {
    ghost from_gives = { λ fault told. told ≡ Ends fault };

    fn from(fault: EndsFault) -> CommandFault {
        CommandFault::Ends(fault)
    }
}

/// What is told of words that `clap` doesn't take: that an option goes with `--stream`, if one of them is such.
fn fault_in(words: &[String], fault: ArgFault) -> ArgFault
    ensures { IsUntaken words.now fault → IsUntaken words.now result }
{
    match fault {
        ArgFault::Words(error) => match stream_option(words) {
            Some(id) => ArgFault::Stream(id),
            None => ArgFault::Words(error),
        },
        fault => fault,
    }
}

/// What is told of a line that no command takes: how to call one if that is asked for, or else what is wrong.
fn told_of(alloc: Global, words: &[String]) -> Result<String, ArgFault>
    ensures help { OnOk result (asks_help words.now ≡ true) }
    ensures refused { IfErr result (IsUntaken words.now) }
{
    if are_of_run(words) && has_flag(words, "--stream") {
        return untaken(alloc, words, STREAM_COMMANDS);
    }
    match untaken(alloc, words, COMMANDS) {
        Ok(text) => Ok(text),
        Err(fault) => Err(fault_in(words, fault)),
    }
}

/// What a line asks for that is taken as this command.
fn command_as(
    alloc: Global,
    words: &[String],
    name: Name,
    places: &[&str],
) -> Result<Command, CommandFault>
    requires { IsTakenAs words.now name (map (λ place. place.now) places.now) }
    ensures range { IfOk result IsCommandInRange }
    ensures typed { IfOk result (WasCommandTyped words.now) }
    ensures places { IfOk result (HasCommandPlaces words.now) }
    ensures refused { IfErr result (IsLineRefused name words.now (map (λ place. place.now) places.now)) }
{
    match name {
        Name::Stream => Ok(Command::Stream(asked_stream(alloc, words, places)?)),
        Name::Stop => Ok(Command::Stop(request_of(alloc, words, places)?)),
        Name::Backup => Ok(Command::Backup(backup_of(alloc, words, places)?)),
        name => Ok(Command::Other(asked_by(alloc, words, name, places)?)),
    }
}

/// What a line asks for.
fn read_command(alloc: Global, words: &[String]) -> Result<Command, CommandFault>
    ensures range { IfOk result IsCommandInRange }
    ensures typed { IfOk result (WasCommandTyped words.now) }
    ensures places { IfOk result (HasCommandPlaces words.now) }
    ensures refused { IfErr result (λ fault. (fault ≡ Arg Memory) ⊎ IsRefusedBy (taken words.now) words.now fault) }
{
    match taken(alloc, words)? {
        Some(line) => command_as(alloc, words, line.name, line.places.as_slice()),
        None => Ok(Command::Other(Asked::Help(told_of(alloc, words)?))),
    }
}

/// Whether it is asked how to call the program, or which version it is.
fn is_help(command: &Command) -> bool
    ensures { result ≡ is_help command.now }
{
    matches!(command, Command::Other(Asked::Help(_)))
}

impl CommandLine {
    /// Reads a command line, the program's name first. A line asks for a command just if a command takes it, and for help just if a word asks for it.
    /// Each number is the decimal that was typed, and in its range; each text is what was typed.
    pub fn read(alloc: Global, words: &[String]) -> Result<CommandLine, CommandFault>
        ensures range { IfOk result (λ line. IsCommandInRange line.command) }
        ensures typed { IfOk result (λ line. WasCommandTyped words.now line.command) }
        ensures places { IfOk result (λ line. HasCommandPlaces words.now line.command) }
        ensures help { IfOk result (λ line. is_help line.command ≡ asks_help words.now) }
        ensures explains { IfOk result (λ line. SaysExplaining words.now line.command line.explaining) }
        ensures refused { IfErr result (IsRefusedLine words.now) }
    {
        if words.len() > MAX_WORDS {
            return Err(CommandFault::Arg(ArgFault::Many));
        }
        let command = read_command(alloc, words)?;
        let explaining = match explaining_of(words) {
            Some(explaining) => explaining,
            None if is_help(&command) => Explaining::Never,
            None => return Err(CommandFault::Arg(ArgFault::BothExplain)),
        };
        Ok(CommandLine {
            command,
            explaining,
        })
    }
}
