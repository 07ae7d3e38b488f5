//! What a command line with `--stream` asks for.

ghost use Rattle.std.specs.Prelude.{◌≡◌, true, IfErr, IfOk, OnOk, codes, map, string_bytes};
ghost use Rattle.tp_words.specs.Commands.{HasStreamFlags, HasStreamPlaces};
ghost use Rattle.tp_words.specs.Ends.{AreEnds};
ghost use Rattle.tp_words.specs.Numbers.{AllFit, IsFirstNumberFault};
ghost use Rattle.tp_words.specs.Places.{IsTakenAs};
ghost use Rattle.tp_words.specs.Refused.{IsStreamRefused};
ghost use Rattle.tp_words.specs.StreamArgs.{AreInRange, AreTyped, IsStreamRun, IsTypedStream};
ghost use Rattle.tp_words.specs.StreamRefused.{IsRunRefused, number_options};
ghost use Rattle.tp_words.specs.Typed.{has_word};
ghost use Rattle.tp_words.specs.declared.words.Name.TheVariants as of;

use crate::arg_fault::ArgFault;
use crate::args::{MAX_TURNS, MAX_WORKERS};
use crate::command::CommandFault;
use crate::device_args::{pace_of, wait_of};
use crate::found::{only, option_short, option_string};
use crate::numbers::{has_flag, has_word};
use crate::stream_ends::ends_of;
use std::alloc::Global;
use tp_stream_files::Ends;

/// The most seconds after which it is said again how far a stream has come.
pub const MAX_PROGRESS: u64 = 3600;

/// A stream of a device's network: its file, how many turns are made and how, when it ends, and the ends of its ports.
#[derive(Drop)]
pub struct StreamRun {
    pub device: String,
    /// How many turns are made at most; `None`: there is no bound.
    pub turns: Option<u32>,
    /// Whether it ends once nothing is left to do.
    pub until_quiet: bool,
    /// Whether it ends once a node halts.
    pub stop_on_halt: bool,
    /// The path of a file that ends it, once it exists; `None`: no file ends it.
    pub stop_file: Option<String>,
    /// Whether it says how far it has come.
    pub has_progress: bool,
    /// How many seconds are between two lines, if that was typed, which asks for lines, too; `None`: 10, if `has_progress` asks for lines.
    pub progress_every: Option<u32>,
    /// How many threads make turns at most; `None`: as many as there are processors, up to 4.
    pub workers: Option<u32>,
    /// The most steps of a turn.
    pub quantum: u16,
    /// The spare frames of each node.
    pub spare: u64,
    /// The entries since the kept cut after which a snapshot begins; `None`: if the journal is half full.
    pub every: Option<u32>,
    pub ends: Ends,
    /// How many seconds it waits for another process that holds the device.
    pub wait_lock: u32,
}

/// The numbers of a stream, as they are in `StreamRun`.
#[derive(Clone, Copy)]
struct StreamNumbers {
    turns: Option<u32>,
    progress_every: Option<u32>,
    workers: Option<u32>,
    quantum: u16,
    spare: u64,
    every: Option<u32>,
    wait_lock: u32,
}

/// The numbers of a stream that were found among the words.
fn numbers_of(alloc: Global, words: &[String]) -> Result<StreamNumbers, ArgFault>
    ensures range { IfOk result AreInRange }
    ensures typed { IfOk result (AreTyped words.now) }
    ensures fit { OnOk result (AllFit words.now number_options) }
    ensures refused { IfErr result (IsFirstNumberFault words.now number_options) }
{
    let turns = option_short(alloc, words, "turns", 0, MAX_TURNS)?;
    let seconds = option_short(alloc, words, "progress-every", 1, MAX_PROGRESS)?;
    let workers = option_short(alloc, words, "workers", 1, MAX_WORKERS as u64)?;
    let pace = pace_of(alloc, words)?;
    let wait_lock = wait_of(alloc, words)?;
    Ok(StreamNumbers {
        turns,
        progress_every: seconds,
        workers,
        quantum: pace.quantum,
        spare: pace.spare,
        every: pace.every,
        wait_lock,
    })
}

/// The stream that a line asks for.
#[tactic(auto, unfolding(crate::specs::StreamArgs::IsStreamRun))]
fn run_of(alloc: Global, words: &[String], device: &str) -> Result<StreamRun, CommandFault>
    ensures range { IfOk result (λ run. IsStreamRun run × AreEnds run.ends) }
    ensures typed { IfOk result (IsTypedStream words.now) }
    ensures flags { IfOk result (HasStreamFlags words.now) }
    ensures device { IfOk result (λ run. string_bytes run.device ≡ device.now) }
    ensures refused { IfErr result (IsRunRefused words.now) }
{
    let numbers = numbers_of(alloc, words)?;
    Ok(StreamRun {
        turns: numbers.turns,
        until_quiet: has_flag(words, "--until-quiet"),
        stop_on_halt: has_flag(words, "--stop-on-halt"),
        stop_file: option_string(alloc, words, "stop-file")?,
        has_progress: has_flag(words, "--progress"),
        progress_every: numbers.progress_every,
        workers: numbers.workers,
        quantum: numbers.quantum,
        spare: numbers.spare,
        every: numbers.every,
        wait_lock: numbers.wait_lock,
        device: String::from_str(alloc, device)?,
        ends: ends_of(alloc, words)?,
    })
}

/// Reads the words of a line that is taken as a stream. Each number is the decimal that was typed, and in its range. The path of a file that ends it
/// is what was typed for it.
pub fn asked_stream(
    alloc: Global,
    words: &[String],
    places: &[&str],
) -> Result<StreamRun, CommandFault>
    requires { IsTakenAs words.now of.Stream (map (λ place. place.now) places.now) }
    ensures range { IfOk result (λ run. IsStreamRun run × AreEnds run.ends) }
    ensures typed { IfOk result (IsTypedStream words.now) }
    ensures places { IfOk result (HasStreamPlaces words.now) }
    ensures stream { OnOk result (has_word (codes "--stream") words.now ≡ true) }
    ensures refused { IfErr result (IsStreamRefused words.now (map (λ place. place.now) places.now)) }
{
    if !has_word(words, "--stream") {
        return Err(CommandFault::Arg(ArgFault::Missing));
    }
    match only(places) {
        Some(device) => run_of(alloc, words, device),
        None => Err(CommandFault::Arg(ArgFault::Missing)),
    }
}
