//! What a command line of `stop` asks for.

ghost use Rattle.std.specs.Prelude.{◌≡◌, IfErr, IfOk, codes, map};
ghost use Rattle.tp_words.specs.Lower.{decimal, option_map};
ghost use Rattle.tp_words.specs.Given.{given};
ghost use Rattle.tp_words.specs.Numbers.{IsNumberFault, stop_option};
ghost use Rattle.tp_words.specs.Places.{IsTakenAs};
ghost use Rattle.tp_words.specs.Refused.{IsRefusedAs};
ghost use Rattle.tp_words.specs.StopArgs.{HasStopPlaces, IsWait, WasStopTyped};
ghost use Rattle.tp_words.specs.declared.words.Name.TheVariants as of;

use crate::arg_fault::ArgFault;
use crate::args::MAX_WAIT;
use crate::found::{only, option_short};
use std::alloc::Global;

/// A request that a stream ends: its device's file, and how many seconds to wait for the end; `None`: it doesn't wait.
#[derive(Drop)]
pub struct StopRequest {
    pub device: String,
    pub wait: Option<u32>,
}

/// How many seconds it is waited that the stream ends.
fn seconds_of(alloc: Global, words: &[String]) -> Result<Option<u32>, ArgFault>
    ensures range { IfOk result IsWait }
    ensures typed { IfOk result (λ seconds. given (codes "wait") words.now ≡ option_map decimal seconds) }
    ensures refused { IfErr result (IsNumberFault words.now stop_option) }
{
    option_short(alloc, words, "wait", 1, MAX_WAIT)
}

/// The request that a line asks for. It waits exactly if `--wait` was typed, for the seconds that were typed.
pub fn request_of(alloc: Global, words: &[String], places: &[&str]) -> Result<StopRequest, ArgFault>
    requires { IsTakenAs words.now of.Stop (map (λ place. place.now) places.now) }
    ensures range { IfOk result (λ request. IsWait request.wait) }
    ensures typed { IfOk result (WasStopTyped words.now) }
    ensures places { IfOk result (HasStopPlaces words.now) }
    ensures refused { IfErr result (IsRefusedAs of.Stop words.now (map (λ place. place.now) places.now)) }
{
    let Some(device) = only(places) else {
        return Err(ArgFault::Missing);
    };
    let wait = seconds_of(alloc, words)?;
    let device = String::from_str(alloc, device)?;
    Ok(StopRequest { device, wait })
}
