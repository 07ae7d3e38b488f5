//! What is wrong with the files of a network: its topology and its images.

use crate::explanations::image_rules::broken_rule;
use crate::explanations::looking::read_again;
use crate::explanations::topology_text::push_topology;
use std::alloc::{AllocError, Global};
use std::fmt::Write;
use std::fs::Files;
use tp_area::area_for;
use tp_net::{Named, Topology};
use tp_words::Shown;

/// Says which rule the image in a file breaks. Answers that something was said.
pub(crate) fn push_image_rule(
    text: &mut String,
    path: &str,
    rule: String,
) -> Result<bool, AllocError> {
    let shown = Shown::all(path);
    write!(
        text,
        "  {shown}: {rule}\n  Make the image anew, by tools/assemble or tools/make-image: a line pages N of its source says how many it has.\n"
    )?;
    Ok(true)
}

/// Says which rule an image breaks. Answers whether it breaks one.
fn push_image(
    alloc: Global,
    text: &mut String,
    path: &str,
    image: &[u8],
    pages: Option<u16>,
) -> Result<bool, AllocError> {
    match broken_rule(alloc, image, pages, true)? {
        Some(rule) => push_image_rule(text, path, rule),
        None => Ok(false),
    }
}

/// Says why the image in a file can't be read, or which rule it breaks. Answers whether anything was said.
pub(crate) fn push_image_file<R: Files + AllocGlobal>(
    rt: &R,
    text: &mut String,
    path: &str,
    pages: Option<u16>,
) -> Result<bool, AllocError> {
    match read_again(rt, text, path)? {
        Some(image) => push_image(rt.alloc(), text, path, image.as_slice(), pages),
        None => Ok(true),
    }
}

/// Says what is wrong with the image of a node. Answers whether anything is.
fn push_node<R: Files + AllocGlobal>(
    rt: &R,
    text: &mut String,
    folder: &str,
    name: &str,
    pages: u16,
) -> Result<bool, AllocError> {
    let path = format!(in rt.alloc(); "{folder}/{name}.img")?;
    push_image_file(rt, text, path.as_str(), Some(pages))
}

/// Says what is wrong with the first image that a new device can't have. Answers whether there is one.
fn push_images<R: Files + AllocGlobal>(
    rt: &R,
    text: &mut String,
    named: &Named<'_>,
    folder: &str,
) -> Result<bool, AllocError> {
    for (name, pages) in named.names.iter().zip(named.topology.pages().iter()) {
        if push_node(rt, text, folder, name, *pages)? {
            return Ok(true);
        }
    }
    Ok(false)
}

/// Says that an area is too small for a topology. Answers whether it is; by default it isn't.
fn push_small(
    text: &mut String,
    topology: &Topology,
    area: Option<u64>,
) -> Result<bool, AllocError> {
    let Some(area) = area else {
        return Ok(false);
    };
    let least = area_for(topology, 1);
    if area >= least {
        return Ok(false);
    }
    write!(
        text,
        "  AREA is {area}, and this network needs at least {least}\n  Take thousands of entries more, at 32 bytes each: tpnet check says how much.\n"
    )?;
    Ok(true)
}

/// Says what is wrong with the images of a topology, or with the area that is asked for. Answers whether anything is.
fn push_named<R: Files + AllocGlobal>(
    rt: &R,
    text: &mut String,
    named: &Named<'_>,
    folder: &str,
    area: Option<u64>,
) -> Result<bool, AllocError> {
    if push_images(rt, text, named, folder)? {
        return Ok(true);
    }
    push_small(text, &named.topology, area)
}

/// Says what is wrong with the text of a topology, its images, or the area that is asked for. Answers whether anything is.
fn push_text<R: Files + AllocGlobal>(
    rt: &R,
    text: &mut String,
    topology: &str,
    bytes: &[u8],
    folder: &str,
    area: Option<u64>,
) -> Result<bool, AllocError> {
    let fault = match Topology::read_named(rt.alloc(), bytes) {
        Ok(named) => return push_named(rt, text, &named, folder, area),
        Err(fault) => fault,
    };
    push_topology(rt.alloc(), text, topology, bytes, fault)?;
    Ok(true)
}

/// Says what is wrong with a topology, its images, or the area that is asked for. Answers whether anything is.
pub(crate) fn push_network<R: Files + AllocGlobal>(
    rt: &R,
    text: &mut String,
    topology: &str,
    folder: &str,
    area: Option<u64>,
) -> Result<bool, AllocError> {
    let Some(bytes) = read_again(rt, text, topology)? else {
        text.push_str("  It was named as the topology: --help has the order of the words.\n")?;
        return Ok(true);
    };
    push_text(rt, text, topology, bytes.as_slice(), folder, area)
}
