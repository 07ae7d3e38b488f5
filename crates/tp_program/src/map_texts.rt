//! The texts of the maps of a device's nodes, from the files of a folder.

ghost use Rattle.std.specs.Prelude.{◌≡◌, [], IfErr, IfOk, None};
ghost use Rattle.tp_program.specs.Refused.{IsReadFault};

use crate::files::read_file;
use std::alloc::Global;
use std::fs::Files;
use tp_model::limits::MAX_NODES;
use tp_views::{Refusal, is_regular, map_path};

/// The texts of maps: each node's own at its number, and one for all nodes without their own. The text of a missing map is empty.
#[derive(Drop)]
pub(crate) struct MapTexts {
    pub(crate) own: Vec<Vec<u8>>,
    pub(crate) all: Vec<u8>,
}

/// Gives the texts of no maps.
fn no_texts(alloc: Global) -> MapTexts
    ensures own { result.own.items ≡ [] }
    ensures all { result.all.items ≡ [] }
{
    MapTexts {
        own: Vec::new(alloc),
        all: Vec::new(alloc),
    }
}

/// Reads a map of a folder; gives `None` if it isn't there.
fn read_there<R: Files + AllocGlobal>(
    rt: &R,
    folder: &str,
    node: Option<usize>,
) -> Result<Option<Vec<u8>>, Refusal>
    ensures { IfErr result IsReadFault }
{
    let path = map_path(rt.alloc(), folder, node)?;
    if is_regular(rt, path.as_str()) {
        Ok(Some(read_file(rt, path.as_str())?))
    } else {
        Ok(None)
    }
}

/// Reads a map of a folder, and notes whether it is there.
fn read_noted<R: Files + AllocGlobal>(
    rt: &R,
    folder: &str,
    node: Option<usize>,
    is_there: &mut bool,
) -> Result<Vec<u8>, Refusal>
    ensures { IfErr result IsReadFault }
{
    match read_there(rt, folder, node)? {
        Some(text) => {
            *is_there = true;
            Ok(text)
        }
        None => Ok(Vec::new(rt.alloc())),
    }
}

/// Reads the maps of a folder. Fails if the folder has none.
fn read_folder<R: Files + AllocGlobal>(rt: &R, folder: &str) -> Result<MapTexts, Refusal>
    ensures { IfErr result IsReadFault }
{
    let mut texts = no_texts(rt.alloc());
    let mut is_there = false;
    texts.all = read_noted(rt, folder, None, &mut is_there)?;
    for node in 0..MAX_NODES {
        let own = read_noted(rt, folder, Some(node), &mut is_there)?;
        texts.own.push(own)?;
    }
    if is_there {
        Ok(texts)
    } else {
        Err(Refusal::ReadFailed)
    }
}

/// Reads the maps of a folder, if one is named; else gives the texts of no maps.
pub(crate) fn read_texts<R: Files + AllocGlobal>(
    rt: &R,
    folder: &Option<String>,
) -> Result<MapTexts, Refusal>
    ensures own { folder.now ≡ None → IfOk result (λ texts. texts.own.items ≡ []) }
    ensures all { folder.now ≡ None → IfOk result (λ texts. texts.all.items ≡ []) }
    ensures fault { IfErr result IsReadFault }
{
    match folder {
        Some(folder) => read_folder(rt, folder.as_str()),
        None => Ok(no_texts(rt.alloc())),
    }
}
