//! What `--explain` says of a device that doesn't open: what is at the damaged place, and which rule it breaks.

ghost use Rattle.std.specs.Prelude.{◌≡◌, ◌⊎◌, ◌++◌, OnOk, string_bytes};
ghost use Rattle.tp_views.specs.Explained.{changed_text};

use crate::explanations::head_rules::push_broken;
use crate::explanations::image_rules::broken_rule;
use crate::explanations::places::{Layout, Record, layout_of};
use crate::explanations::rules::push_words;
use crate::text::parts::Part::{Byte, Number, Text};
use crate::text::parts::push_parts;
use std::alloc::{AllocError, Global};
use std::fmt::Write;
use tp_area::head_places::VERSION_PLACE;
use tp_area::{FIELDS_BYTES, head_version, image_length};
use tp_disk::Disk;
use tp_model::limits::{
    GATE_OPEN, NARROW_HEAD_BYTES, NARROW_VERSION, PLAIN_FORM, TURNS_FORM, WIDE_HEAD_BYTES,
    WIDE_VERSION,
};
use tp_model::{HeadVersion, OpenFault, TwoAreas};

/// Said of an area's front whose form is known.
const BAD_FRONT: &str =
    "  both areas are open with one generation, or a field breaks its rule: docs/FORMATS.md, section 5\n";

/// Said of the record of a line.
const BAD_LINE: &str =
    "  its tokens don't agree with the wire's ends: docs/FORMATS.md, section 6, tests 8 and 9\n";

/// Said of the record of a port.
const BAD_PORT: &str = "  its counts or positions break their rule: docs/FORMATS.md, section 5\n";

/// Said of the journal.
const BAD_JOURNAL: &str =
    "  its header, its number or what it says isn't possible there: docs/FORMATS.md, section 6, tests 10 and 11\n";

/// Said if the head isn't the one that was opened any more.
const CHANGED: &str = "  its head was changed since it was opened: try again\n";

/// Said of a file that doesn't begin as a device does.
const NO_DEVICE: &str =
    "  it doesn't begin with TPNET and two bytes 00\n  It is no device, or its format was stopped: make one with tpnet format.\n";

/// Reads the bytes of a device from offset `at` on into `bytes`. Answers whether they are there and could be read.
fn is_read<D: Disk>(disk: &mut D, at: u64, bytes: &mut [u8]) -> bool {
    let (size, count) = (disk.size(), bytes.len() as u64);
    count <= size && at <= size - count && disk.read(at, bytes).is_ok()
}

/// Gives the bytes of a device at offset `at`; `None` if it has none there, or they can't be read.
fn bytes_at<D: Disk, const N: usize>(disk: &mut D, at: u64) -> Option<[u8; N]> {
    let mut bytes = [0; N];
    if is_read(disk, at, &mut bytes) {
        Some(bytes)
    } else {
        None
    }
}

/// Says whether the gate of an area is open, in words.
fn push_gate<D: Disk>(text: &mut String, disk: &mut D, at: u64) -> Result<(), AllocError> {
    match bytes_at::<D, 1>(disk, at) {
        Some(bytes) => {
            let parts = [
                Text("  the gate at "),
                Number(at),
                Text(" is "),
                Byte(bytes[0]),
                Text(", and an open one is "),
                Byte(GATE_OPEN),
                Text("\n"),
            ];
            push_parts(text, &parts)
        }
        None => write!(text, "  the gate at {at} can't be read\n"),
    }
}

/// Says which rule the bytes of a node's image break, if they break one.
fn push_rule(alloc: Global, text: &mut String, image: &[u8], pages: u16) -> Result<(), AllocError> {
    match broken_rule(alloc, image, Some(pages), false)? {
        Some(rule) => write!(text, "  {rule}\n"),
        None => Ok(()),
    }
}

/// Says which rule the image of a node on a device breaks.
fn push_node<D: Disk>(
    alloc: Global,
    text: &mut String,
    disk: &mut D,
    start: u64,
    pages: u16,
) -> Result<(), AllocError> {
    let mut image = Vec::new(alloc);
    image.resize(image_length(pages), 0)?;
    if is_read(disk, start, &mut image) {
        push_rule(alloc, text, image.as_slice(), pages)
    } else {
        Ok(())
    }
}

/// Says that the areas of a device of `size` bytes don't fit it or its network.
fn push_areas(text: &mut String, size: u64, areas: TwoAreas) -> Result<(), AllocError> {
    let TwoAreas { first, length } = areas;
    let needed = length.saturating_mul(2).saturating_add(first);
    if size < needed {
        let parts = [
            Text("  the device has "),
            Number(size),
            Text(" bytes, and its head says areas of "),
            Number(length),
            Text(", for which it needs "),
            Number(needed),
            Text("\n"),
        ];
        push_parts(text, &parts)
    } else {
        let parts = [
            Text("  its areas of "),
            Number(length),
            Text(" bytes are too small for its nodes and ports: docs/FORMATS.md, section 5\n"),
        ];
        push_parts(text, &parts)
    }
}

/// Says what is wrong with the head of a device of `size` bytes, which gives it this layout.
fn push_head(text: &mut String, size: u64, layout: &Layout, head: &[u8]) -> Result<(), AllocError> {
    if push_broken(text, layout.version, head)? {
        text.push_str(": docs/FORMATS.md, section 4\n")
    } else {
        push_areas(text, size, layout.areas)
    }
}

/// Gives the form of the area that begins at `start`, if it can be read, and the offset of the form.
fn form_at<D: Disk>(disk: &mut D, start: u64) -> (u64, Option<u64>) {
    let at = start.saturating_add(FIELDS_BYTES as u64 - 1);
    match bytes_at::<D, 2>(disk, at) {
        Some(bytes) => (at, Some(u64::from(u16::from_le_bytes(bytes)))),
        None => (at, None),
    }
}

/// Says what is wrong with the front of the area that begins at `start`.
fn push_front<D: Disk>(text: &mut String, disk: &mut D, start: u64) -> Result<(), AllocError> {
    let (at, form) = form_at(disk, start);
    match form {
        Some(form) if form != PLAIN_FORM && form != TURNS_FORM => {
            let parts = [
                Text("  the form, at "),
                Number(at),
                Text(", is "),
                Number(form),
                Text(", and this program reads "),
                Number(PLAIN_FORM),
                Text(" and "),
                Number(TURNS_FORM),
                Text("\n"),
            ];
            push_parts(text, &parts)
        }
        _ => text.push_str(BAD_FRONT),
    }
}

/// Says which record begins at an offset of a device.
fn push_place(
    text: &mut String,
    layout: &Layout,
    at: u64,
    record: Record,
) -> Result<(), AllocError> {
    write!(text, "  offset {at} is in ")?;
    let rule = layout.record_words(record);
    push_words(text, rule.words, &rule.values)?;
    write!(text, ", from {at} on\n")
}

/// Says what is wrong at an offset of a device.
fn push_damage<D: Disk>(
    alloc: Global,
    text: &mut String,
    disk: &mut D,
    layout: &Layout,
    head: &[u8],
    at: u64,
) -> Result<(), AllocError> {
    let place = layout.place(at);
    push_place(text, layout, at, place.record)?;
    match place.record {
        Record::Head => push_head(text, disk.size(), layout, head),
        Record::Image { pages, .. } => push_node(alloc, text, disk, place.start, pages),
        Record::Front => push_front(text, disk, place.start),
        Record::Line(_) => text.push_str(BAD_LINE),
        Record::Port(_) => text.push_str(BAD_PORT),
        Record::Journal => text.push_str(BAD_JOURNAL),
    }
}

/// Says why no area of a device is open.
fn push_gates<D: Disk>(text: &mut String, disk: &mut D, layout: &Layout) -> Result<(), AllocError> {
    push_gate(text, disk, layout.areas.first)?;
    push_gate(text, disk, layout.second())?;
    text.push_str("  Restore a copy, or make the device anew.\n")
}

/// Says why a device with a head of this version doesn't open.
fn push_behind<D: Disk>(
    alloc: Global,
    text: &mut String,
    disk: &mut D,
    version: HeadVersion,
    head: &[u8],
    fault: OpenFault,
) -> Result<(), AllocError>
    ensures { (fault ≡ OpenFault.NotFormatted) ⊎ (fault ≡ OpenFault.BadVersion) → OnOk result (string_bytes text.new ≡ string_bytes text.old ++ changed_text) }
{
    let layout = layout_of(version, head);
    match fault {
        OpenFault::NoOpenArea => push_gates(text, disk, &layout),
        OpenFault::Damaged(at) => {
            push_damage(alloc, text, disk, &layout, head, at)?;
            text.push_str("  Restore a copy of the device.\n")
        }
        OpenFault::NotFormatted | OpenFault::BadVersion => text.push_str(CHANGED),
    }
}

/// Says that a device has too few bytes for a head of `wanted` bytes, and the way out.
fn push_short(text: &mut String, size: u64, wanted: usize, way: &str) -> Result<(), AllocError> {
    push_parts(
        text,
        &[
            Text("  it has "),
            Number(size),
            Text(" bytes, fewer than the "),
            Number(wanted as u64),
            Text(" of a head\n  "),
            Text(way),
            Text("\n"),
        ],
    )
}

/// Says why the head of a device, which has `wanted` bytes, isn't read again: the device is too short, with the way out, or the read failed.
fn push_unread(text: &mut String, size: u64, wanted: usize, way: &str) -> Result<(), AllocError> {
    if size < wanted as u64 {
        push_short(text, size, wanted, way)
    } else {
        text.push_str("  its head can't be read again\n")
    }
}

/// Says why a device with a wide head doesn't open.
fn push_wide<D: Disk>(
    alloc: Global,
    text: &mut String,
    disk: &mut D,
    fault: OpenFault,
) -> Result<(), AllocError> {
    match bytes_at::<D, WIDE_HEAD_BYTES>(disk, 0) {
        Some(head) => push_behind(alloc, text, disk, HeadVersion::Wide, &head, fault),
        None => push_unread(
            text,
            disk.size(),
            WIDE_HEAD_BYTES,
            "Restore a copy of the device.",
        ),
    }
}

/// Says that a device has a version that the program doesn't read.
fn push_version(text: &mut String, version: u8) -> Result<(), AllocError> {
    push_parts(
        text,
        &[
            Text("  byte "),
            Number(VERSION_PLACE as u64),
            Text(", the version, is "),
            Number(version as u64),
            Text(", and this program reads "),
            Number(NARROW_VERSION as u64),
            Text(" and "),
            Number(WIDE_VERSION as u64),
            Text("\n  Open it with the program that made it.\n"),
        ],
    )
}

/// Says why a device doesn't open.
pub fn push_fault<D: Disk>(
    alloc: Global,
    text: &mut String,
    disk: &mut D,
    fault: OpenFault,
) -> Result<(), AllocError> {
    let Some(front) = bytes_at::<D, NARROW_HEAD_BYTES>(disk, 0) else {
        return push_unread(
            text,
            disk.size(),
            NARROW_HEAD_BYTES,
            "It is no device: make one with tpnet format.",
        );
    };
    match head_version(&front) {
        Ok(HeadVersion::Narrow) => {
            push_behind(alloc, text, disk, HeadVersion::Narrow, &front, fault)
        }
        Ok(HeadVersion::Wide) => push_wide(alloc, text, disk, fault),
        Err(OpenFault::BadVersion) => push_version(text, front[VERSION_PLACE]),
        Err(_) => text.push_str(NO_DEVICE),
    }
}
