//! What `trace` asks for, and `try` of steps.

ghost use Rattle.std.specs.Prelude.{◌≡◌, ◌∷◌, [], None, Some, IfErr, IfOk, IfSome, codes, map, string_bytes};
ghost use Rattle.tp_words.specs.Args.{IsInRange, WasTyped};
ghost use Rattle.tp_words.specs.Ends.{file_text};
ghost use Rattle.tp_words.specs.Given.{all_given};
ghost use Rattle.tp_words.specs.Places.{HasPlaces, IsTakenAs};
ghost use Rattle.tp_words.specs.Refused.{IsImageFault, IsRefusedAs, IsTraceFault};
ghost use Rattle.tp_words.specs.TraceArgs.{AreOfLinks, IsImageTrace, IsInputFault, IsLinkFault, IsLinksFault, IsOfLink, IsTypedImage};
ghost use Rattle.tp_words.specs.declared.words.Name.TheVariants as of;

use crate::arg_fault::ArgFault;
use crate::args::{Asked, MAX_TURNS, STEPS};
use crate::found::{only, option_or, option_string, pair};
use crate::journal_args::trace_part;
use crate::stream_ends::{EndsFault, FileOption, count_of, files_of};
use std::alloc::Global;
use tp_stream_files::PortFile;

/// How many links a node has.
const LINKS: u8 = 4;

/// How many bytes are watched, where nothing else is asked for: a word's.
pub const WATCHED: u32 = 4;

/// The most bytes that are watched.
pub const MAX_WATCHED: u64 = 1 << 10;

/// Which lines of a trace of an image are printed.
#[derive(Clone, Copy)]
pub enum TraceLines {
    /// Each, as `trace` prints them.
    Every,
    /// Those in which a byte leaves, as `try` prints them, and the node's state in the end.
    Sending,
}

/// A trace of a node's image: which of its lines are printed; its file; how many lines of steps and of tokens there are at most; for links the files whose
/// bytes come in there, each link as the port; the file of the map that names addresses; the place of the instruction before which it stops; and the place
/// of the bytes after whose change it stops, and how many these are.
#[derive(Drop)]
pub struct ImageTrace {
    pub lines: TraceLines,
    pub image: String,
    pub steps: u32,
    pub inputs: Vec<PortFile>,
    pub map: Option<String>,
    pub until: Option<String>,
    pub watch: Option<String>,
    pub bytes: u32,
}

/// What is wrong with a file of a link, beside others: its link is none of a node, or has another file.
fn fault_at(files: &[PortFile], link: u8) -> Option<ArgFault>
    ensures none { result ≡ None → IsOfLink files.now link }
    ensures some { IfSome result (IsLinkFault files.now link) }
{
    if link >= LINKS {
        return Some(ArgFault::Links);
    }
    if count_of(files, link) > 1 {
        return Some(ArgFault::TwoInputs(link));
    }
    None
}

/// What is wrong with files of links, with the first with which something is.
fn fault_of(files: &[PortFile]) -> Option<ArgFault>
    ensures none { result ≡ None → AreOfLinks files.now }
    ensures some { IfSome result (IsLinksFault files.now) }
{
    for file in files {
        if let Some(fault) = fault_at(files, file.port) {
            return Some(fault);
        }
    }
    None
}

/// The files that were typed for links.
fn typed_files(alloc: Global, words: &[String]) -> Result<Vec<PortFile>, ArgFault>
    ensures typed { IfOk result (λ files. map file_text files.items ≡ all_given (codes "in") words.now) }
    ensures refused { IfErr result (IsInputFault (all_given (codes "in") words.now)) }
{
    match files_of(alloc, words, FileOption::In) {
        Ok(files) => Ok(files),
        Err(EndsFault::Memory) => Err(ArgFault::Memory),
        Err(_) => Err(ArgFault::Links),
    }
}

/// The files whose bytes come in at links.
fn inputs_of(alloc: Global, words: &[String]) -> Result<Vec<PortFile>, ArgFault>
    ensures links { IfOk result (λ files. AreOfLinks files.items) }
    ensures typed { IfOk result (λ files. map file_text files.items ≡ all_given (codes "in") words.now) }
    ensures refused { IfErr result (IsInputFault (all_given (codes "in") words.now)) }
{
    let files = typed_files(alloc, words)?;
    match fault_of(&files) {
        Some(fault) => Err(fault),
        None => Ok(files),
    }
}

/// What is asked for of an image: a trace that prints these lines.
pub fn image_trace(
    alloc: Global,
    words: &[String],
    lines: TraceLines,
    image: String,
) -> Result<ImageTrace, ArgFault>
    ensures range { IfOk result IsImageTrace }
    ensures typed { IfOk result (IsTypedImage words.now) }
    ensures given { IfOk result (λ trace. (trace.lines ≡ lines) × (trace.image ≡ image)) }
    ensures refused { IfErr result (IsImageFault words.now) }
{
    let steps = option_or(alloc, words, "steps", 1, MAX_TURNS, STEPS as u64)? as u32;
    let fallback = WATCHED as u64;
    let bytes = option_or(alloc, words, "bytes", 1, MAX_WATCHED, fallback)? as u32;
    Ok(ImageTrace {
        lines,
        steps,
        bytes,
        image,
        map: option_string(alloc, words, "map")?,
        until: option_string(alloc, words, "until")?,
        watch: option_string(alloc, words, "watch")?,
        inputs: inputs_of(alloc, words)?,
    })
}

/// Steps of one node, from its image.
fn trace_image(alloc: Global, words: &[String], image: &str) -> Result<Asked, ArgFault>
    requires { IsTakenAs words.now of.Trace (image.now ∷ []) }
    ensures range { IfOk result IsInRange }
    ensures typed { IfOk result (WasTyped words.now) }
    ensures places { IfOk result (HasPlaces words.now) }
    ensures refused { IfErr result (IsImageFault words.now) }
{
    let image = String::from_str(alloc, image)?;
    let trace = image_trace(alloc, words, TraceLines::Every, image)?;
    Ok(Asked::Trace(trace))
}

/// Steps of a device's node, by its journal's entries.
fn trace_device(
    alloc: Global,
    words: &[String],
    device: &str,
    node: &str,
) -> Result<Asked, ArgFault>
    requires { IsTakenAs words.now of.Trace (device.now ∷ node.now ∷ []) }
    ensures range { IfOk result IsInRange }
    ensures typed { IfOk result (WasTyped words.now) }
    ensures places { IfOk result (HasPlaces words.now) }
    ensures refused { IfErr result (IsTraceFault words.now node.now) }
{
    let part = trace_part(alloc, words, node)?;
    let maps = option_string(alloc, words, "map")?;
    let device = String::from_str(alloc, device)?;
    Ok(Asked::TraceDevice { device, part, maps })
}

/// Steps of one node: of its image, or, if a node's number is after the file, of a device.
pub fn asked_trace(alloc: Global, words: &[String], places: &[&str]) -> Result<Asked, ArgFault>
    requires { IsTakenAs words.now of.Trace (map (λ place. place.now) places.now) }
    ensures range { IfOk result IsInRange }
    ensures typed { IfOk result (WasTyped words.now) }
    ensures places { IfOk result (HasPlaces words.now) }
    ensures refused { IfErr result (IsRefusedAs of.Trace words.now (map (λ place. place.now) places.now)) }
{
    if let Some(image) = only(places) {
        return trace_image(alloc, words, image);
    }
    match pair(places) {
        Some((device, node)) => trace_device(alloc, words, device, node),
        None => Err(ArgFault::Missing),
    }
}
