//! What the commands ask for that write a device.

ghost use Rattle.std.specs.Prelude.{◌≡◌, ◌≢◌, ◌≤◌, ◌∷◌, None, IfErr, IfOk, IfSome, OnOk, codes, length, map};
ghost use Rattle.tp_words.specs.Lower.{decimal, option_map};
ghost use Rattle.tp_words.specs.Args.{IsEvery, IsInRange, WasTyped};
ghost use Rattle.tp_words.specs.Given.{given, IsGivenOr};
ghost use Rattle.tp_words.specs.Places.{HasPlaces, IsTakenAs, last_place};
ghost use Rattle.tp_words.specs.Numbers.{AllFit, Fits, IsFirstNumberFault, IsNumberFault, every_option, wait_option};
ghost use Rattle.tp_words.specs.Refused.{IsRefusedAs, IsRunNumbersFault};
ghost use Rattle.tp_words.specs.RunNumbers.{AreRunNumbers, AreTypedRunNumbers, IsPace, IsTypedPace, pace_options};
ghost use Rattle.tp_words.specs.declared.words.Name.TheVariants as of;

use crate::arg_fault::ArgFault;
use crate::args::{Asked, MAX_WAIT, MAX_WORKERS, NewDevice, QUANTUM, Run};
use crate::found::{area_of, only, option_or, option_short, option_string, turns_of};
use crate::numbers::has_flag;
use std::alloc::Global;
use tp_model::limits::MAX_STEPS;

/// The places of `format`: the device, the topology, the images, and the size of an area if it is there.
fn format_places<'a>(places: &[&'a str]) -> Option<(&'a str, &'a str, &'a str, Option<&'a str>)>
    ensures some { IfSome result (λ texts. map (λ place. place.now) places.now ≡ texts.0.now ∷ texts.1.now ∷ texts.2.now ∷ last_place (option_map (λ place. place.now) texts.3)) }
    ensures none { result ≡ None → (length (map (λ place. place.now) places.now) ≢ 3) × (length (map (λ place. place.now) places.now) ≢ 4) }
{
    let (device, others) = places.split_first()?;
    let (topology, others) = others.split_first()?;
    let (images, others) = others.split_first()?;
    if others.is_empty() {
        return Some((*device, *topology, *images, None));
    }
    let area = only(others)?;
    Some((*device, *topology, *images, Some(area)))
}

/// A device that is to be made.
pub fn asked_format(alloc: Global, words: &[String], places: &[&str]) -> Result<Asked, ArgFault>
    requires { IsTakenAs words.now of.Format (map (λ place. place.now) places.now) }
    ensures range { IfOk result IsInRange }
    ensures typed { IfOk result (WasTyped words.now) }
    ensures places { IfOk result (HasPlaces words.now) }
    ensures refused { IfErr result (IsRefusedAs of.Format words.now (map (λ place. place.now) places.now)) }
{
    let Some((device, topology, images, place)) = format_places(places) else {
        return Err(ArgFault::Missing);
    };
    Ok(Asked::Format(NewDevice {
        area: area_of(alloc, words, place)?,
        only_new: has_flag(words, "--new"),
        wait_lock: wait_of(alloc, words)?,
        device: String::from_str(alloc, device)?,
        topology: String::from_str(alloc, topology)?,
        images: String::from_str(alloc, images)?,
    }))
}

/// The entries after which a snapshot begins, or the seconds after which a device is checked again.
pub fn every_of(alloc: Global, words: &[String]) -> Result<Option<u32>, ArgFault>
    ensures range { IfOk result IsEvery }
    ensures typed { IfOk result (λ every. given (codes "every") words.now ≡ option_map decimal every) }
    ensures fits { OnOk result (Fits words.now every_option) }
    ensures refused { IfErr result (IsNumberFault words.now every_option) }
{
    option_short(alloc, words, "every", 1, u32::MAX as u64)
}

/// How many seconds to wait for another process that holds the device.
pub fn wait_of(alloc: Global, words: &[String]) -> Result<u32, ArgFault>
    ensures range { IfOk result (λ seconds. seconds ≤ MAX_WAIT) }
    ensures typed { IfOk result (λ seconds. IsGivenOr 0 seconds (given (codes "wait-lock") words.now)) }
    ensures fits { OnOk result (Fits words.now wait_option) }
    ensures refused { IfErr result (IsNumberFault words.now wait_option) }
{
    Ok(option_or(alloc, words, "wait-lock", 0, MAX_WAIT, 0)? as u32)
}

/// The numbers that say how turns are made, of a run and of a stream, as they are in `Run`.
#[derive(Clone, Copy)]
pub struct Pace {
    pub quantum: u16,
    pub spare: u64,
    pub every: Option<u32>,
}

/// How turns are made.
pub fn pace_of(alloc: Global, words: &[String]) -> Result<Pace, ArgFault>
    ensures range { IfOk result IsPace }
    ensures typed { IfOk result (IsTypedPace words.now) }
    ensures fit { OnOk result (AllFit words.now pace_options) }
    ensures refused { IfErr result (IsFirstNumberFault words.now pace_options) }
{
    let steps = MAX_STEPS as u64;
    let quantum = option_or(alloc, words, "quantum", 1, steps, QUANTUM as u64)?;
    let spare = option_or(alloc, words, "spare", 0, u64::MAX, 4)?;
    let every = every_of(alloc, words)?;
    Ok(Pace {
        quantum: quantum as u16,
        spare,
        every,
    })
}

/// The numbers of a run, as they are in `Run`.
#[derive(Clone, Copy)]
struct RunNumbers {
    turns: u32,
    workers: u8,
    pace: Pace,
    port: u64,
    wait_lock: u32,
}

/// The numbers of a run that were found among the words.
fn run_numbers(alloc: Global, words: &[String]) -> Result<RunNumbers, ArgFault>
    ensures range { IfOk result AreRunNumbers }
    ensures typed { IfOk result (AreTypedRunNumbers words.now) }
    ensures refused { IfErr result (IsRunNumbersFault words.now) }
{
    let turns = turns_of(alloc, words)?;
    let most = MAX_WORKERS as u64;
    let workers = option_or(alloc, words, "workers", 1, most, 2)? as u8;
    let pace = pace_of(alloc, words)?;
    let port = option_or(alloc, words, "port", 0, u64::MAX, 0)?;
    let wait_lock = wait_of(alloc, words)?;
    Ok(RunNumbers {
        turns,
        workers,
        pace,
        port,
        wait_lock,
    })
}

/// A run of a device's network.
#[tactic(auto, unfolding(crate::specs::Args::IsRun))]
pub fn asked_run(alloc: Global, words: &[String], places: &[&str]) -> Result<Asked, ArgFault>
    requires { IsTakenAs words.now of.Run (map (λ place. place.now) places.now) }
    ensures range { IfOk result IsInRange }
    ensures typed { IfOk result (WasTyped words.now) }
    ensures places { IfOk result (HasPlaces words.now) }
    ensures refused { IfErr result (IsRefusedAs of.Run words.now (map (λ place. place.now) places.now)) }
{
    let Some(device) = only(places) else {
        return Err(ArgFault::Missing);
    };
    let numbers = run_numbers(alloc, words)?;
    Ok(Asked::Run(Run {
        turns: numbers.turns,
        workers: numbers.workers,
        quantum: numbers.pace.quantum,
        spare: numbers.pace.spare,
        every: numbers.pace.every,
        port: numbers.port,
        wait_lock: numbers.wait_lock,
        input: option_string(alloc, words, "in")?,
        device: String::from_str(alloc, device)?,
    }))
}

/// A device that is to be compacted.
pub fn asked_compact(alloc: Global, words: &[String], places: &[&str]) -> Result<Asked, ArgFault>
    requires { IsTakenAs words.now of.Compact (map (λ place. place.now) places.now) }
    ensures range { IfOk result IsInRange }
    ensures typed { IfOk result (WasTyped words.now) }
    ensures places { IfOk result (HasPlaces words.now) }
    ensures refused { IfErr result (IsRefusedAs of.Compact words.now (map (λ place. place.now) places.now)) }
{
    let Some(device) = only(places) else {
        return Err(ArgFault::Missing);
    };
    let wait_lock = wait_of(alloc, words)?;
    let device = String::from_str(alloc, device)?;
    Ok(Asked::Compact { device, wait_lock })
}
