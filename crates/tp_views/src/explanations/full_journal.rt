//! How full a device's journal is, said when it has no room for a run.

ghost use Rattle.std.specs.Prelude.{◌≡◌, ◌↔◌, ◌<◌, ◌≤◌, ◌+◌, true, false, None, IfSome};

use crate::explanations::looking::push_rest;
use crate::text::status::room_of;
use std::alloc::AllocError;
use std::fmt::Write;
use tp_model::limits::MAX_HELD;
use tp_recover::Opened;
use tp_words::{Run, Shown};

/// Said of each full journal.
const FILLS_UP: &str =
    "  Nothing that was acknowledged or shown is lost. So that it doesn't fill up: a larger AREA (tpnet check says how large),\n  and output that is confirmed often; watch unconfirmed in tpnet show.\n";

/// How many entries of a run's input are handed in at once: a byte each, after those that its port has accepted, and no more than it has room for.
fn offered(run: &Run, opened: &Opened, input: usize) -> u64 {
    match opened.network().ports().get(run.port as usize) {
        Some(port) => {
            let accepted = port.in_base().saturating_add(port.pending().len() as u64);
            let room = (MAX_HELD as u64).saturating_sub(port.pending().len() as u64);
            (input as u64).saturating_sub(accepted).min(room)
        }
        None => 0,
    }
}

/// Says how many entries a journal has, and how many it has room for.
fn push_full(text: &mut String, device: &str, entries: u64, most: u64) -> Result<(), AllocError> {
    let shown = Shown::all(device);
    write!(
        text,
        "  {shown}: its journal has {entries} entries since the checkpoint, and room for {most}.\n"
    )
}

/// Says that more input comes at once than even an empty journal has room for.
fn push_too_much(text: &mut String, wanted: u64) -> Result<(), AllocError> {
    write!(
        text,
        "  --in brings {wanted} at once, one for each byte that the port has room for: tpnet compact doesn't help.\n"
    )
}

/// Says that the journal can be emptied.
fn push_compact(text: &mut String, device: &str) -> Result<(), AllocError> {
    let shown = Shown::all(device);
    write!(
        text,
        "  tpnet compact {shown} empties it and keeps all output: then give the same command again.\n"
    )
}

/// Says that input can be handed in in smaller pieces.
fn push_pieces(text: &mut String, device: &str, port: u64) -> Result<(), AllocError> {
    let shown = Shown::all(device);
    write!(
        text,
        "  tpnet run {shown} --stream --in {port}=FILE takes input by pieces, as the journal has room: see tpnet run --stream --help.\n"
    )
}

/// Says the ways out of a full journal with room for `most` entries. `wanted` entries come at once; `None` if that isn't known.
fn push_ways(
    text: &mut String,
    run: &Run,
    wanted: Option<u64>,
    most: u64,
) -> Result<(), AllocError> {
    let device = run.device.as_str();
    match wanted {
        Some(wanted) if wanted > most => push_too_much(text, wanted)?,
        Some(_) => return push_compact(text, device),
        None => push_compact(text, device)?,
    }
    push_pieces(text, device, run.port)
}

/// Whether a journal that has `entries` entries, and room for `most` in all, has room for `wanted` more, and for at least one. The answer is `false`
/// if `wanted` is `None`, since the number isn't known then.
fn has_room(entries: u64, most: u64, wanted: Option<u64>) -> bool
    ensures none { wanted ≡ None → result ≡ false }
    ensures some { IfSome wanted (λ more. result ≡ true ↔ ((entries < most) × (entries + more ≤ most))) }
{
    match wanted {
        Some(wanted) => wanted.max(1) <= most.saturating_sub(entries),
        None => false,
    }
}

/// Says how full a device's journal is, if a run's input or the confirmation of its output finds no room. `input` is how many bytes the run's input
/// has, if that is known.
pub(crate) fn push_journal(
    text: &mut String,
    run: &Run,
    opened: &Opened,
    input: Option<usize>,
) -> Result<(), AllocError> {
    let wanted = match input {
        Some(length) => Some(offered(run, opened, length)),
        None => None,
    };
    let (entries, most) = (opened.kept().len() as u64, room_of(opened));
    if has_room(entries, most, wanted) {
        return push_rest(text);
    }
    push_full(text, run.device.as_str(), entries, most)?;
    push_ways(text, run, wanted, most)?;
    text.push_str(FILLS_UP)
}
