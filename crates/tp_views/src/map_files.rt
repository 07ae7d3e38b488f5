//! The maps of a device's nodes, as files of a folder, and what is wrong with them.

ghost use Rattle.std.specs.Prelude.{◌≡◌, false, Ok, string_bytes};

use crate::explanations::looking::{is_regular, read_again};
use crate::maps::{MapFault, read_map};
use std::alloc::{AllocError, Global};
use std::fmt::Write;
use std::fs::Files;
use tp_model::limits::MAX_NODES;
use tp_words::Shown;

/// Gives the path of a node's own map in a folder; with `None`, of the map for all nodes without one of their own.
pub fn map_path(alloc: Global, folder: &str, node: Option<usize>) -> Result<String, AllocError> {
    match node {
        Some(node) => format!(in alloc; "{folder}/{node}.map"),
        None => format!(in alloc; "{folder}/all.map"),
    }
}

/// Says that a line isn't one of a map, and what such a line is.
fn push_line(text: &mut String, path: &str, number: u64) -> Result<(), AllocError> {
    let shown = Shown::all(path);
    write!(
        text,
        "  {shown}, line {number}: a line of a map is ADDRESS LABEL FILE:LINE, as 80000100 start send.asm:12\n  Make the map anew, by tools/assemble --map.\n"
    )
}

/// Says why a map isn't read, if its text has a bad line. Answers whether anything was said.
pub(crate) fn push_map_fault(
    text: &mut String,
    path: &str,
    fault: MapFault,
) -> Result<bool, AllocError>
    ensures { fault ≡ MapFault.Memory → (result ≡ Ok false) × (string_bytes text.new ≡ string_bytes text.old) }
{
    match fault {
        MapFault::Line(number) => {
            push_line(text, path, number)?;
            Ok(true)
        }
        MapFault::Memory => Ok(false),
    }
}

/// Says what is wrong with a map. Answers whether anything is.
fn push_map(
    alloc: Global,
    text: &mut String,
    path: &str,
    bytes: &[u8],
) -> Result<bool, AllocError> {
    match read_map(alloc, bytes) {
        Ok(_) => Ok(false),
        Err(fault) => push_map_fault(text, path, fault),
    }
}

/// Says what is wrong with the map in a file. Answers whether anything is.
fn push_map_file<R: Files + AllocGlobal>(
    rt: &R,
    text: &mut String,
    path: &str,
) -> Result<bool, AllocError> {
    match read_again(rt, text, path)? {
        Some(bytes) => push_map(rt.alloc(), text, path, bytes.as_slice()),
        None => Ok(true),
    }
}

/// Says what is wrong with a map of a folder, if it is there. Answers whether it is there, and whether anything is wrong with it.
fn push_there<R: Files + AllocGlobal>(
    rt: &R,
    text: &mut String,
    folder: &str,
    node: Option<usize>,
) -> Result<(bool, bool), AllocError> {
    let path = map_path(rt.alloc(), folder, node)?;
    if is_regular(rt, path.as_str()) {
        Ok((true, push_map_file(rt, text, path.as_str())?))
    } else {
        Ok((false, false))
    }
}

/// Says that a folder has no map.
fn push_none(text: &mut String, folder: &str) -> Result<(), AllocError> {
    let shown = Shown::all(folder);
    write!(
        text,
        "  {shown}: no map is in this folder\n  Put the map of node I there as I.map, or one of each node as all.map: tools/assemble --map writes them.\n"
    )
}

/// Says what is wrong with the first bad map of a folder, or that the folder has none. Answers whether anything was said. It checks in the order of the
/// command: the maps of nodes, then the one for all.
pub(crate) fn push_maps<R: Files + AllocGlobal>(
    rt: &R,
    text: &mut String,
    folder: &str,
) -> Result<bool, AllocError> {
    let mut is_there = false;
    for node in 0..MAX_NODES {
        let (is_own_there, is_wrong) = push_there(rt, text, folder, Some(node))?;
        if is_wrong {
            return Ok(true);
        }
        is_there = is_there || is_own_there;
    }
    let (is_all_there, is_wrong) = push_there(rt, text, folder, None)?;
    if is_wrong || is_there || is_all_there {
        return Ok(is_wrong);
    }
    push_none(text, folder)?;
    Ok(true)
}
