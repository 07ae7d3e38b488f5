//! `tpnet trace`, and `tpnet try` by steps, on files.

ghost use Rattle.std.specs.Prelude.{◌≡◌, ◌==◌, ◌⊎◌, ◌≤◌, IfOk, Ok, [], option_copied, option_map, string_bytes, unwrap_or};
ghost use Rattle.tp_views.specs.Maps.{read_map, rows_seen};
ghost use Rattle.tp_program.specs.Uses.{IsRead, ReadsTrace, TracedFiles, TracedImage, WasUnbegun, path_at};

use crate::devices::Devices;
use crate::files::read_source;
use std::alloc::Global;
use std::fs::Files;
use std::io::Write;
use tp_stream_files::PortFile;
use tp_views::{MapFile, MapRow, Refusal, read_rows, refuse, stops_at, trace_on};
use tp_words::ImageTrace;

/// The bytes that a trace is made from: an image, a map, and what comes in at each link; `None` for a file that isn't named.
#[derive(Drop)]
struct TraceTexts {
    image: Vec<u8>,
    map: Option<Vec<u8>>,
    inputs: (
        Option<Vec<u8>>,
        Option<Vec<u8>>,
        Option<Vec<u8>>,
        Option<Vec<u8>>,
    ),
}

/// The text of an option that may have been typed.
fn text_in(option: &Option<String>) -> Option<&str>
    ensures { option_copied result ≡ option_map string_bytes option.now }
{
    match option {
        Some(text) => Some(text.as_str()),
        None => None,
    }
}

/// The bytes of a file that may have been read.
fn bytes_in(option: &Option<Vec<u8>>) -> Option<&[u8]>
    ensures { option_copied result ≡ option_map (λ bytes. bytes.items) option.now }
{
    match option {
        Some(bytes) => Some(bytes.as_slice()),
        None => None,
    }
}

/// The text of a map, which is empty if none is named.
fn map_text(map: &Option<Vec<u8>>) -> &[u8]
    ensures { result.now ≡ unwrap_or (option_map (λ bytes. bytes.items) map.now) [] }
{
    match map {
        Some(text) => text.as_slice(),
        None => &[],
    }
}

/// Whether a file is for a link.
fn is_for(file: &PortFile, link: u8) -> bool
    ensures { result ≡ (file.now.port == link) }
{
    file.port == link
}

/// The path of the first file that is for a link.
fn path_at(files: &[PortFile], link: u8) -> Option<&str>
    ensures { option_copied result ≡ path_at files.now link }
{
    for file in files {
        if is_for(file, link) {
            return Some(file.path.as_str());
        }
    }
    None
}

/// Reads a file, if its path is there.
fn read_if<R: Files + AllocGlobal, S: Devices>(
    rt: &R,
    devices: &mut S,
    path: Option<&str>,
) -> Result<Option<Vec<u8>>, Refusal>
    ensures read { IfOk result (λ found. IsRead (option_copied path.entry) (option_map (λ bytes. bytes.items) found) (S.uses devices.old) (S.uses devices.new)) }
    ensures uncalled { S.calls devices.new ≡ S.calls devices.old }
{
    match path {
        Some(path) => Ok(Some(read_source(rt, devices, path)?)),
        None => Ok(None),
    }
}

/// Reads all files of a trace.
fn read_trace<R: Files + AllocGlobal, S: Devices>(
    rt: &R,
    devices: &mut S,
    trace: &ImageTrace,
) -> Result<TraceTexts, Refusal>
    ensures read { IfOk result (λ texts. ReadsTrace trace.now (S.uses devices.old) (S.uses devices.new) texts.image.items (option_map (λ bytes. bytes.items) texts.map) (option_map (λ bytes. bytes.items) texts.inputs.0) (option_map (λ bytes. bytes.items) texts.inputs.1) (option_map (λ bytes. bytes.items) texts.inputs.2) (option_map (λ bytes. bytes.items) texts.inputs.3)) }
    ensures uncalled { S.calls devices.new ≡ S.calls devices.old }
{
    let files = trace.inputs.as_slice();
    let image = read_source(rt, devices, trace.image.as_str())?;
    let map = read_if(rt, devices, text_in(&trace.map))?;
    let inputs = (
        read_if(rt, devices, path_at(files, 0))?,
        read_if(rt, devices, path_at(files, 1))?,
        read_if(rt, devices, path_at(files, 2))?,
        read_if(rt, devices, path_at(files, 3))?,
    );
    Ok(TraceTexts { image, map, inputs })
}

/// Traces what was read, where the map's rows were.
fn trace_mapped<O: Write, E: Write>(
    alloc: Global,
    trace: &ImageTrace,
    texts: &TraceTexts,
    rows: &[MapRow<'_>],
    out: &mut O,
    err: &mut E,
) -> u8
    requires map { read_map (unwrap_or (option_map (λ bytes. bytes.items) texts.now.map) []) ≡ Ok (rows_seen rows.now) }
    ensures few { result ≤ 1 }
    ensures traced { WasUnbegun (O.contents out.old) (O.contents out.new) result ⊎ TracedImage trace.now texts.now.image.items (option_map (λ bytes. bytes.items) texts.now.map) (option_map (λ bytes. bytes.items) texts.now.inputs.0) (option_map (λ bytes. bytes.items) texts.now.inputs.1) (option_map (λ bytes. bytes.items) texts.now.inputs.2) (option_map (λ bytes. bytes.items) texts.now.inputs.3) (O.contents out.old) (O.contents out.new) result }
{
    let others = [
        bytes_in(&texts.inputs.0),
        bytes_in(&texts.inputs.1),
        bytes_in(&texts.inputs.2),
        bytes_in(&texts.inputs.3),
    ];
    match stops_at(
        trace.lines,
        rows,
        text_in(&trace.until),
        text_in(&trace.watch),
        trace.bytes,
    ) {
        Ok(stops) => {
            let image = texts.image.as_slice();
            trace_on(alloc, image, rows, stops, trace.steps, others, out, err)
        }
        Err(refusal) => refuse(err, refusal),
    }
}

/// Traces what was read.
fn trace_texts<O: Write, E: Write>(
    alloc: Global,
    trace: &ImageTrace,
    texts: &TraceTexts,
    out: &mut O,
    err: &mut E,
) -> u8
    ensures few { result ≤ 1 }
    ensures traced { WasUnbegun (O.contents out.old) (O.contents out.new) result ⊎ TracedImage trace.now texts.now.image.items (option_map (λ bytes. bytes.items) texts.now.map) (option_map (λ bytes. bytes.items) texts.now.inputs.0) (option_map (λ bytes. bytes.items) texts.now.inputs.1) (option_map (λ bytes. bytes.items) texts.now.inputs.2) (option_map (λ bytes. bytes.items) texts.now.inputs.3) (O.contents out.old) (O.contents out.new) result }
{
    match read_rows(alloc, map_text(&texts.map), MapFile::Named) {
        Ok(rows) => trace_mapped(alloc, trace, texts, rows.as_slice(), out, err),
        Err(refusal) => refuse(err, refusal),
    }
}

/// `tpnet trace`, on the files of an image, of a map, and of what comes in at links.
#[inline(never)]
pub fn trace_file<R: Files + AllocGlobal, S: Devices, O: Write, E: Write>(
    rt: &R,
    devices: &mut S,
    trace: &ImageTrace,
    out: &mut O,
    err: &mut E,
) -> u8
    ensures few { result ≤ 1 }
    ensures uncalled { S.calls devices.new ≡ S.calls devices.old }
    ensures used { WasUnbegun (O.contents out.old) (O.contents out.new) result ⊎ TracedFiles trace.now (S.uses devices.old) (S.uses devices.new) (O.contents out.old) (O.contents out.new) result }
{
    match read_trace(rt, devices, trace) {
        Ok(texts) => trace_texts(rt.alloc(), trace, &texts, out, err),
        Err(refusal) => refuse(err, refusal),
    }
}
