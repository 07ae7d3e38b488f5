//! Why a device's file can't be opened: it is opened again to find out.

ghost use Rattle.std.specs.Prelude.{◌≡◌, ◌++◌, OnOk, string_bytes};
ghost use Rattle.tp_views.specs.Explained.{memory_text};

use crate::explanations::damage::push_fault;
use crate::explanations::looking::{is_special, open_to_read, push_file};
use crate::steady::{Tried, open_steady};
use std::alloc::{AllocError, Global};
use std::fmt::Write;
use std::fs::{Files, OpenFile};
use std::os::unix::fs::FileExt;
use tp_disk::{Counted, NotedFile, RawFile};
use tp_recover::{Opened, Unopened};
use tp_words::Shown;

/// Says that a read of a device's file failed, and what the system said.
fn push_failed_read<F: FileExt + OpenFile + Drop>(
    text: &mut String,
    disk: &Counted<RawFile<NotedFile<F>>>,
    device: &str,
) -> Result<(), AllocError> {
    let shown = Shown::all(device);
    match disk.raw().failure() {
        Some(error) => push_file(text, device, error),
        None => write!(text, "  {shown}: a read or a sync failed\n"),
    }
}

/// Says why a device's file wasn't opened, which was opened again.
#[inline(never)]
fn push_unopened<F: FileExt + OpenFile + Drop>(
    alloc: Global,
    text: &mut String,
    disk: &mut Counted<RawFile<NotedFile<F>>>,
    device: &str,
    unopened: Unopened,
) -> Result<(), AllocError>
    ensures { unopened ≡ Unopened.Memory → OnOk result (string_bytes text.new ≡ string_bytes text.old ++ memory_text) }
{
    let shown = Shown::all(device);
    match unopened {
        Unopened::Fault(fault) => {
            write!(text, "  {shown}:\n")?;
            push_fault(alloc, text, disk, fault)
        }
        Unopened::ReadFailed => push_failed_read(text, disk, device),
        Unopened::Memory => text.push_str("  memory is wanting\n"),
    }
}

/// Says that the device couldn't be read as it was at one moment.
fn push_changed(text: &mut String, device: &str) -> Result<(), AllocError> {
    let shown = Shown::all(device);
    write!(
        text,
        "  {shown}: another process writes it so fast that no moment of it could be read\n  Try again, or stop that process.\n"
    )
}

/// Opens a device's file, and says why if that fails.
#[inline(never)]
fn reopened<F: FileExt + OpenFile + Drop>(
    alloc: Global,
    text: &mut String,
    disk: &mut Counted<RawFile<NotedFile<F>>>,
    device: &str,
) -> Result<Option<Opened>, AllocError> {
    let said = match open_steady(alloc, disk) {
        Tried::Steady(Ok(opened)) => return Ok(Some(opened)),
        Tried::Steady(Err(unopened)) => push_unopened(alloc, text, disk, device, unopened),
        Tried::Changed => push_changed(text, device),
    };
    said?;
    Ok(None)
}

/// Says that what is at a path isn't opened again.
fn push_special(text: &mut String, device: &str) -> Result<(), AllocError> {
    let shown = Shown::all(device);
    write!(
        text,
        "  {shown}: it is no regular file, so it isn't looked at again. A device is a regular file.\n"
    )
}

/// Opens a device's file again, and says why if that fails. Another process may be running the device.
pub fn push_opening<R: Files<File = F> + AllocGlobal, F: FileExt + OpenFile + Drop>(
    rt: &R,
    text: &mut String,
    device: &str,
) -> Result<Option<Opened>, AllocError> {
    if is_special(rt, device) {
        push_special(text, device)?;
        return Ok(None);
    }
    match open_to_read(rt, device) {
        Ok(mut disk) => reopened(rt.alloc(), text, &mut disk, device),
        Err(error) => {
            push_file(text, device, &error)?;
            Ok(None)
        }
    }
}
