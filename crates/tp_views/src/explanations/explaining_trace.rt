//! What `--explain` says of a trace of an image that was refused.

use crate::explanations::image_rules::broken_rule;
use crate::explanations::looking::{push_rest, read_again};
use crate::explanations::network_files::push_image_rule;
use crate::map_files::push_map_fault;
use crate::maps::{MapRow, read_map};
use crate::trace::placing::stops_at;
use std::alloc::AllocError;
use std::fmt::Write;
use std::fs::Files;
use tp_words::{ImageTrace, Shown, TraceLines};

/// Says why a file of a trace can't be read, if it can't: whether it can't.
fn push_unread<R: Files + AllocGlobal>(
    rt: &R,
    text: &mut String,
    path: &str,
) -> Result<bool, AllocError> {
    let bytes = read_again(rt, text, path)?;
    Ok(bytes.is_none())
}

/// Says of the first file that can't be read whose bytes come in at a link why: whether there is one.
fn push_inputs<R: Files + AllocGlobal>(
    rt: &R,
    text: &mut String,
    trace: &ImageTrace,
) -> Result<bool, AllocError> {
    for file in trace.inputs.iter() {
        if push_unread(rt, text, file.path.as_str())? {
            return Ok(true);
        }
    }
    Ok(false)
}

/// Says of the first file of a trace that can't be read why: whether there is one.
fn push_files<R: Files + AllocGlobal>(
    rt: &R,
    text: &mut String,
    trace: &ImageTrace,
) -> Result<bool, AllocError> {
    if push_unread(rt, text, trace.image.as_str())? {
        return Ok(true);
    }
    if let Some(path) = &trace.map
        && push_unread(rt, text, path.as_str())?
    {
        return Ok(true);
    }
    push_inputs(rt, text, trace)
}

/// Says which rule the image of a node that is traced breaks: whether anything was said. Its links may be at work.
fn push_image<R: Files + AllocGlobal>(
    rt: &R,
    text: &mut String,
    path: &str,
) -> Result<bool, AllocError> {
    match read_again(rt, text, path)? {
        Some(image) => match broken_rule(rt.alloc(), image.as_slice(), None, false)? {
            Some(rule) => push_image_rule(text, path, rule),
            None => Ok(false),
        },
        None => Ok(true),
    }
}

/// Says that a place names no address, if one is asked for that names none: whether one is.
fn push_place(
    text: &mut String,
    rows: &[MapRow<'_>],
    place: &Option<String>,
) -> Result<bool, AllocError> {
    let Some(place) = place else {
        return Ok(false);
    };
    if stops_at(TraceLines::Every, rows, Some(place.as_str()), None, 1).is_ok() {
        return Ok(false);
    }
    let shown = Shown::all(place.as_str());
    write!(
        text,
        "  {shown}: it is neither an address, eight digits with capital letters as 80000100, nor a label of a map\n  Name the map by --map, and look into it: tools/assemble --map writes it, with its labels in its second column.\n"
    )?;
    Ok(true)
}

/// Says that bytes below memory are to be watched, if they are: whether they are.
fn push_below(
    text: &mut String,
    rows: &[MapRow<'_>],
    watch: &Option<String>,
) -> Result<bool, AllocError> {
    let Some(place) = watch else {
        return Ok(false);
    };
    if stops_at(TraceLines::Every, rows, None, Some(place.as_str()), 1).is_ok() {
        return Ok(false);
    }
    let shown = Shown::all(place.as_str());
    write!(
        text,
        "  {shown}: it is below 80000000, the first address of memory\n  Watch bytes from there on.\n"
    )?;
    Ok(true)
}

/// Says which place names no address, or none that can be watched: whether one does.
fn push_places(
    text: &mut String,
    rows: &[MapRow<'_>],
    trace: &ImageTrace,
) -> Result<bool, AllocError> {
    Ok(
        push_place(text, rows, &trace.until)?
            || push_place(text, rows, &trace.watch)?
            || push_below(text, rows, &trace.watch)?,
    )
}

/// Says what is wrong with the map of a trace, if it has one, or with its places: whether anything is.
fn push_map<R: Files + AllocGlobal>(
    rt: &R,
    text: &mut String,
    trace: &ImageTrace,
) -> Result<bool, AllocError> {
    let Some(path) = &trace.map else {
        return push_places(text, &[], trace);
    };
    let Some(map) = read_again(rt, text, path.as_str())? else {
        return Ok(true);
    };
    match read_map(rt.alloc(), map.as_slice()) {
        Ok(rows) => push_places(text, rows.as_slice(), trace),
        Err(fault) => push_map_fault(text, path.as_str(), fault),
    }
}

/// Says why an image wasn't traced. It checks in the order of the command: the files, the map, the places, the image.
pub(crate) fn push_trace<R: Files + AllocGlobal>(
    rt: &R,
    text: &mut String,
    trace: &ImageTrace,
) -> Result<(), AllocError> {
    let is_said = push_files(rt, text, trace)?
        || push_map(rt, text, trace)?
        || push_image(rt, text, trace.image.as_str())?;
    if is_said { Ok(()) } else { push_rest(text) }
}
