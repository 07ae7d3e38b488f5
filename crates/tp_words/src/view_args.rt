//! What the commands ask for that write no device.

ghost use Rattle.std.specs.Prelude.{◌≡◌, ◌∷◌, [], IfErr, IfOk, map, string_bytes};
ghost use Rattle.std.specs.Fmt.{decimal};
ghost use Rattle.tp_words.specs.Args.{HasTyped, IsInRange, IsTypedMaps, IsView, WasTyped};
ghost use Rattle.tp_words.specs.Places.{HasPlaces, HasViewFlag, IsTakenAs, view_command, view_places};
ghost use Rattle.tp_words.specs.Refused.{IsGraphFault, IsRefusedAs};
ghost use Rattle.tp_words.specs.declared.words.Name.TheVariants as of;

use crate::arg_fault::ArgFault;
use crate::args::{Asked, MAX_TURNS, MAX_WORKERS};
use crate::device_args::every_of;
use crate::found::{only, option_or, option_short, option_string, pair, place_of};
use crate::journal_args::journal_view;
use crate::numbers::has_flag;
use crate::trace_args::{TraceLines, image_trace};
use crate::views::View;
use std::alloc::{AllocError, Global};

/// Turns of one node, or, if no number of turns was typed, its steps.
pub fn asked_try(alloc: Global, words: &[String], places: &[&str]) -> Result<Asked, ArgFault>
    requires { IsTakenAs words.now of.Try (map (λ place. place.now) places.now) }
    ensures range { IfOk result IsInRange }
    ensures typed { IfOk result (WasTyped words.now) }
    ensures places { IfOk result (HasPlaces words.now) }
    ensures refused { IfErr result (IsRefusedAs of.Try words.now (map (λ place. place.now) places.now)) }
{
    let Some(image) = only(places) else {
        return Err(ArgFault::Missing);
    };
    let turns = option_short(alloc, words, "turns", 0, MAX_TURNS)?;
    let image = String::from_str(alloc, image)?;
    match turns {
        Some(turns) => Ok(Asked::Try { image, turns }),
        None => Ok(Asked::Trace(image_trace(alloc, words, TraceLines::Sending, image)?)),
    }
}

/// A device that is opened by several threads.
pub fn asked_recover(alloc: Global, words: &[String], places: &[&str]) -> Result<Asked, ArgFault>
    requires { IsTakenAs words.now of.Recover (map (λ place. place.now) places.now) }
    ensures range { IfOk result IsInRange }
    ensures typed { IfOk result (WasTyped words.now) }
    ensures places { IfOk result (HasPlaces words.now) }
    ensures refused { IfErr result (IsRefusedAs of.Recover words.now (map (λ place. place.now) places.now)) }
{
    let Some(device) = only(places) else {
        return Err(ArgFault::Missing);
    };
    let most = MAX_WORKERS as u64;
    let workers = option_or(alloc, words, "workers", 1, most, 1)? as u8;
    let device = String::from_str(alloc, device)?;
    Ok(Asked::Recover { device, workers })
}

/// The form of a node that is shown.
fn node_view(words: &[String], node: u64) -> View
    ensures range { IsView result }
    ensures typed { HasTyped words.now result }
    ensures flag { HasViewFlag words.now result }
    ensures command { view_command result ≡ of.Node }
    ensures place { view_places result ≡ decimal node ∷ [] }
{
    if has_flag(words, "--json") {
        View::NodeJson(node)
    } else {
        View::Node(node)
    }
}

/// The bytes of a port that are shown.
fn port_view(words: &[String], port: u64) -> View
    ensures range { IsView result }
    ensures typed { HasTyped words.now result }
    ensures flag { HasViewFlag words.now result }
    ensures command { view_command result ≡ of.Port }
    ensures place { view_places result ≡ decimal port ∷ [] }
{
    match (has_flag(words, "--pending"), has_flag(words, "--json")) {
        (true, true) => View::PendingJson(port),
        (true, false) => View::Pending(port),
        (false, true) => View::OutputsJson(port),
        (false, false) => View::Outputs(port),
    }
}

/// The form in which it is shown who waits for whom. `Missing` comes only if two forms were typed, and such a line isn't taken.
fn waits_view(words: &[String]) -> Result<View, ArgFault>
    ensures range { IfOk result IsView }
    ensures typed { IfOk result (HasTyped words.now) }
    ensures flag { IfOk result (HasViewFlag words.now) }
    ensures waits { IfOk result (λ view. (view_command view ≡ of.Waits) × (view_places view ≡ [])) }
    ensures refused { IfErr result (IsGraphFault words.now) }
{
    match (has_flag(words, "--json"), has_flag(words, "--dot")) {
        (false, false) => Ok(View::Waits),
        (true, false) => Ok(View::WaitsJson),
        (false, true) => Ok(View::WaitsDot),
        (true, true) => Err(ArgFault::Missing),
    }
}

/// The folder of the maps of a view that takes them, if one was typed.
fn maps_of(alloc: Global, words: &[String], view: View) -> Result<Option<String>, AllocError>
    ensures { IfOk result (IsTypedMaps words.now view) }
{
    match view {
        View::Node(_) | View::NodeJson(_) | View::Waits | View::WaitsJson | View::WaitsDot => {
            option_string(alloc, words, "map")
        }
        View::Image(_)
        | View::Journal(_)
        | View::Pending(_)
        | View::PendingJson(_)
        | View::Outputs(_)
        | View::OutputsJson(_) => Ok(None),
    }
}

/// A view of a device, with the folder of its maps.
fn viewed(alloc: Global, words: &[String], device: &str, view: View) -> Result<Asked, AllocError>
    requires range { IsView view }
    requires typed { HasTyped words.now view }
    requires flag { HasViewFlag words.now view }
    requires taken { IsTakenAs words.now (view_command view) (device.now ∷ view_places view) }
    ensures range { IfOk result IsInRange }
    ensures typed { IfOk result (WasTyped words.now) }
    ensures places { IfOk result (HasPlaces words.now) }
{
    let maps = maps_of(alloc, words, view)?;
    let device = String::from_str(alloc, device)?;
    Ok(Asked::View { device, view, maps })
}

/// A node.
pub fn asked_node(alloc: Global, words: &[String], places: &[&str]) -> Result<Asked, ArgFault>
    requires { IsTakenAs words.now of.Node (map (λ place. place.now) places.now) }
    ensures range { IfOk result IsInRange }
    ensures typed { IfOk result (WasTyped words.now) }
    ensures places { IfOk result (HasPlaces words.now) }
    ensures refused { IfErr result (IsRefusedAs of.Node words.now (map (λ place. place.now) places.now)) }
{
    let Some((device, text)) = pair(places) else {
        return Err(ArgFault::Missing);
    };
    let view = node_view(words, place_of(alloc, text)?);
    Ok(viewed(alloc, words, device, view)?)
}

/// The image of a node.
pub fn asked_image(alloc: Global, words: &[String], places: &[&str]) -> Result<Asked, ArgFault>
    requires { IsTakenAs words.now of.Image (map (λ place. place.now) places.now) }
    ensures range { IfOk result IsInRange }
    ensures typed { IfOk result (WasTyped words.now) }
    ensures places { IfOk result (HasPlaces words.now) }
    ensures refused { IfErr result (IsRefusedAs of.Image words.now (map (λ place. place.now) places.now)) }
{
    let Some((device, text)) = pair(places) else {
        return Err(ArgFault::Missing);
    };
    let view = View::Image(place_of(alloc, text)?);
    Ok(viewed(alloc, words, device, view)?)
}

/// The bytes of a port.
pub fn asked_port(alloc: Global, words: &[String], places: &[&str]) -> Result<Asked, ArgFault>
    requires { IsTakenAs words.now of.Port (map (λ place. place.now) places.now) }
    ensures range { IfOk result IsInRange }
    ensures typed { IfOk result (WasTyped words.now) }
    ensures places { IfOk result (HasPlaces words.now) }
    ensures refused { IfErr result (IsRefusedAs of.Port words.now (map (λ place. place.now) places.now)) }
{
    let Some((device, text)) = pair(places) else {
        return Err(ArgFault::Missing);
    };
    let view = port_view(words, place_of(alloc, text)?);
    Ok(viewed(alloc, words, device, view)?)
}

/// A part of a journal.
pub fn asked_journal(alloc: Global, words: &[String], places: &[&str]) -> Result<Asked, ArgFault>
    requires { IsTakenAs words.now of.Journal (map (λ place. place.now) places.now) }
    ensures range { IfOk result IsInRange }
    ensures typed { IfOk result (WasTyped words.now) }
    ensures places { IfOk result (HasPlaces words.now) }
    ensures refused { IfErr result (IsRefusedAs of.Journal words.now (map (λ place. place.now) places.now)) }
{
    let Some(device) = only(places) else {
        return Err(ArgFault::Missing);
    };
    let view = journal_view(alloc, words)?;
    Ok(viewed(alloc, words, device, view)?)
}

/// Who waits for whom.
pub fn asked_waits(alloc: Global, words: &[String], places: &[&str]) -> Result<Asked, ArgFault>
    requires { IsTakenAs words.now of.Waits (map (λ place. place.now) places.now) }
    ensures range { IfOk result IsInRange }
    ensures typed { IfOk result (WasTyped words.now) }
    ensures places { IfOk result (HasPlaces words.now) }
    ensures refused { IfErr result (IsRefusedAs of.Waits words.now (map (λ place. place.now) places.now)) }
{
    let Some(device) = only(places) else {
        return Err(ArgFault::Missing);
    };
    let view = waits_view(words)?;
    Ok(viewed(alloc, words, device, view)?)
}

/// How far a device is.
pub fn asked_status(alloc: Global, words: &[String], places: &[&str]) -> Result<Asked, ArgFault>
    requires { IsTakenAs words.now of.Status (map (λ place. place.now) places.now) }
    ensures range { IfOk result IsInRange }
    ensures typed { IfOk result (WasTyped words.now) }
    ensures places { IfOk result (HasPlaces words.now) }
    ensures refused { IfErr result (IsRefusedAs of.Status words.now (map (λ place. place.now) places.now)) }
{
    let Some(device) = only(places) else {
        return Err(ArgFault::Missing);
    };
    let every = every_of(alloc, words)?;
    let device = String::from_str(alloc, device)?;
    Ok(Asked::Status {
        device,
        every,
        json: has_flag(words, "--json"),
    })
}

/// A topology and its images that are to be read.
pub fn asked_check(alloc: Global, words: &[String], places: &[&str]) -> Result<Asked, ArgFault>
    requires { IsTakenAs words.now of.Check (map (λ place. place.now) places.now) }
    ensures range { IfOk result IsInRange }
    ensures typed { IfOk result (WasTyped words.now) }
    ensures places { IfOk result (HasPlaces words.now) }
    ensures refused { IfErr result (IsRefusedAs of.Check words.now (map (λ place. place.now) places.now)) }
{
    let Some((topology, images)) = pair(places) else {
        return Err(ArgFault::Missing);
    };
    let topology = String::from_str(alloc, topology)?;
    let images = String::from_str(alloc, images)?;
    Ok(Asked::Check {
        topology,
        images,
        json: has_flag(words, "--json"),
    })
}

/// What a device holds.
pub fn asked_show(alloc: Global, words: &[String], places: &[&str]) -> Result<Asked, ArgFault>
    requires { IsTakenAs words.now of.Show (map (λ place. place.now) places.now) }
    ensures range { IfOk result IsInRange }
    ensures typed { IfOk result (WasTyped words.now) }
    ensures places { IfOk result (HasPlaces words.now) }
    ensures refused { IfErr result (IsRefusedAs of.Show words.now (map (λ place. place.now) places.now)) }
{
    let Some(device) = only(places) else {
        return Err(ArgFault::Missing);
    };
    let device = String::from_str(alloc, device)?;
    Ok(Asked::Show {
        device,
        json: has_flag(words, "--json"),
    })
}
