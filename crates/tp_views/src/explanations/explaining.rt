//! What `--explain` says of a refusal: which file, why, and the way out. It checks again what the command checked.

ghost use Rattle.std.specs.Prelude.{◌≡◌, IfOk, None, Some};

use crate::explanations::explaining_trace::push_trace;
use crate::explanations::full_journal::push_journal;
use crate::explanations::looking::{
    is_regular, is_special, is_writable, push_file, push_rest, read_again,
};
use crate::explanations::network_files::{push_image_file, push_network};
use crate::explanations::reopening::push_opening;
use crate::map_files::push_maps;
use crate::openable::is_openable;
use std::alloc::AllocError;
use std::fmt::Write as Push;
use std::fs::{Files, OpenFile};
use std::io;
use std::io::Write;
use std::os::unix::fs::FileExt;
use tp_words::{Asked, NewDevice, Run, Shown};

/// Said of a run if a call on its device failed.
const MEND_RUN: &str =
    "  A run reads and writes it: mend that, and give the same command again. Nothing that was acknowledged or shown is lost.\n";

/// Said of compacting if a call on its device failed.
const MEND_COMPACT: &str =
    "  It is read and written: mend that, and give the same command again. Nothing is lost.\n";

/// Says what else may be the reason, if nothing was said.
fn push_unless(text: &mut String, is_said: bool) -> Result<(), AllocError> {
    if is_said { Ok(()) } else { push_rest(text) }
}

/// Says that a file is there already, if it must be new.
fn push_there<R: Files>(rt: &R, text: &mut String, device: &str) -> Result<(), AllocError> {
    let (what, way) = if is_regular(rt, device) {
        (
            "it is there already",
            "Name another path, or leave out --new to write over it: what is in it is lost then.",
        )
    } else {
        (
            "something is there already that is no regular file",
            "Name another path.",
        )
    };
    let shown = Shown::all(device);
    write!(text, "  {shown}: {what}\n  {way}\n")
}

/// Says what may be left of a device that was there before.
fn push_old(text: &mut String, device: &str) -> Result<(), AllocError> {
    let shown = Shown::all(device);
    write!(
        text,
        "  A device that was in {shown} before may be gone: format asks for the room that it lacks behind its end, and then writes over it.\n  Where there was no such room, all that was in it is there still.\n  Mend that, and format it again, or name a new path: an old device that has to stay needs one.\n"
    )
}

/// Says what the system said of a device that can't be made, and what may be left of one that was there before.
fn push_unmade<R: Files>(
    rt: &R,
    text: &mut String,
    device: &str,
    error: &io::Error,
) -> Result<(), AllocError> {
    push_file(text, device, error)?;
    if is_writable(rt, device) {
        push_old(text, device)
    } else {
        Ok(())
    }
}

/// Says which file or number of a new device is wrong: first whether it can't be a device, then what is wrong with the network.
fn push_new<R: Files + AllocGlobal>(
    rt: &R,
    text: &mut String,
    new: &NewDevice,
) -> Result<(), AllocError> {
    let device = new.device.as_str();
    let can_be_made = is_openable(rt, device);
    if !can_be_made {
        push_there(rt, text, device)?;
    }
    let is_said = push_network(
        rt,
        text,
        new.topology.as_str(),
        new.images.as_str(),
        new.area,
    )?;
    push_unless(text, is_said || !can_be_made)
}

/// Says why a device wasn't made.
fn push_format<R: Files + AllocGlobal>(
    rt: &R,
    text: &mut String,
    new: &NewDevice,
    system: Option<&io::Error>,
) -> Result<(), AllocError> {
    match system {
        Some(error) if error.kind() == io::ErrorKind::AlreadyExists => {
            push_there(rt, text, new.device.as_str())
        }
        Some(error) => push_unmade(rt, text, new.device.as_str(), error),
        None => push_new(rt, text, new),
    }
}

/// Says why an image wasn't tried.
fn push_try<R: Files + AllocGlobal>(
    rt: &R,
    text: &mut String,
    image: &str,
) -> Result<(), AllocError> {
    let is_said = push_image_file(rt, text, image, None)?;
    push_unless(text, is_said)
}

/// Says why no area sizes are told.
fn push_check<R: Files + AllocGlobal>(
    rt: &R,
    text: &mut String,
    topology: &str,
    images: &str,
) -> Result<(), AllocError> {
    let is_said = push_network(rt, text, topology, images, None)?;
    push_unless(text, is_said)
}

/// Gives how many bytes the input of a run has; `None` if its file can't be read again, which it then says. It reads only a regular file again.
fn input_length<R: Files + AllocGlobal>(
    rt: &R,
    text: &mut String,
    run: &Run,
) -> Result<Option<usize>, AllocError>
    ensures { run.now.input ≡ None → IfOk result (λ length. length ≡ Some 0) }
{
    let Some(path) = &run.input else {
        return Ok(Some(0));
    };
    match read_again(rt, text, path.as_str())? {
        Some(bytes) => Ok(Some(bytes.len())),
        None => Ok(None),
    }
}

/// Whether the input of a run is something other than a regular file or a folder.
fn is_input_special<R: Files>(rt: &R, run: &Run) -> bool {
    match &run.input {
        Some(path) => is_special(rt, path.as_str()),
        None => false,
    }
}

/// Says why a run was refused, if no call on its device failed.
fn push_refused_run<R: Files<File = F> + AllocGlobal, F: FileExt + OpenFile + Drop>(
    rt: &R,
    text: &mut String,
    run: &Run,
) -> Result<(), AllocError> {
    let length = input_length(rt, text, run)?;
    if length.is_none() && !is_input_special(rt, run) {
        return Ok(());
    }
    match push_opening(rt, text, run.device.as_str())? {
        Some(opened) => push_journal(text, run, &opened, length),
        None => Ok(()),
    }
}

/// Says what the system said of a device, and the way out.
fn push_failed(
    text: &mut String,
    device: &str,
    error: &io::Error,
    way: &str,
) -> Result<(), AllocError> {
    push_file(text, device, error)?;
    text.push_str(way)
}

/// Says why a run was refused.
fn push_run<R: Files<File = F> + AllocGlobal, F: FileExt + OpenFile + Drop>(
    rt: &R,
    text: &mut String,
    run: &Run,
    system: Option<&io::Error>,
) -> Result<(), AllocError> {
    match system {
        Some(error) => push_failed(text, run.device.as_str(), error, MEND_RUN),
        None => push_refused_run(rt, text, run),
    }
}

/// Opens a device's file again, and says why if that fails. Answers whether it opens.
fn opens<R: Files<File = F> + AllocGlobal, F: FileExt + OpenFile + Drop>(
    rt: &R,
    text: &mut String,
    device: &str,
) -> Result<bool, AllocError> {
    let opened = push_opening(rt, text, device)?;
    Ok(opened.is_some())
}

/// Says why a device wasn't compacted.
fn push_compact<R: Files<File = F> + AllocGlobal, F: FileExt + OpenFile + Drop>(
    rt: &R,
    text: &mut String,
    device: &str,
    system: Option<&io::Error>,
) -> Result<(), AllocError> {
    if let Some(error) = system {
        return push_failed(text, device, error, MEND_COMPACT);
    }
    let is_said = !opens(rt, text, device)?;
    push_unless(text, is_said)
}

/// Says that a device opens now.
fn push_opens(text: &mut String, device: &str) -> Result<(), AllocError> {
    let shown = Shown::all(device);
    write!(
        text,
        "  {shown} opens now. Of DeviceFailed: standard output can't be written, as when what reads it has ended (head does early).\n  Of Busy: another process writes {shown} so fast that no moment of it could be read; try again, or stop that process. Else memory is wanting.\n"
    )
}

/// Says why a device wasn't read.
fn push_reading<R: Files<File = F> + AllocGlobal, F: FileExt + OpenFile + Drop>(
    rt: &R,
    text: &mut String,
    device: &str,
) -> Result<(), AllocError> {
    if opens(rt, text, device)? {
        push_opens(text, device)
    } else {
        Ok(())
    }
}

/// Says why a view of a device wasn't shown: what is wrong with the maps, or else with the device.
fn push_view<R: Files<File = F> + AllocGlobal, F: FileExt + OpenFile + Drop>(
    rt: &R,
    text: &mut String,
    device: &str,
    maps: &Option<String>,
) -> Result<(), AllocError> {
    if let Some(folder) = maps
        && push_maps(rt, text, folder.as_str())?
    {
        return Ok(());
    }
    push_reading(rt, text, device)
}

fn push_explanation<R: Files<File = F> + AllocGlobal, F: FileExt + OpenFile + Drop>(
    rt: &R,
    text: &mut String,
    asked: &Asked,
    system: Option<&io::Error>,
) -> Result<(), AllocError> {
    match asked {
        Asked::Help(_) => push_rest(text),
        Asked::Try { image, .. } => push_try(rt, text, image.as_str()),
        Asked::Trace(trace) => push_trace(rt, text, trace),
        Asked::Format(new) => push_format(rt, text, new, system),
        Asked::Run(run) => push_run(rt, text, run, system),
        Asked::Check {
            topology,
            images,
            ..
        } => { push_check(rt, text, topology.as_str(), images.as_str()) }
        Asked::Compact { device, .. } => push_compact(rt, text, device.as_str(), system),
        Asked::Recover { device, .. } | Asked::Show { device, .. } | Asked::Status { device, .. } =>
            push_reading(rt, text, device.as_str()),
        Asked::TraceDevice { device, maps, .. } | Asked::View { device, maps, .. } => {
            push_view(rt, text, device.as_str(), maps)
        }
    }
}

/// Says more of a refusal on standard error: it checks again what the command checked. `system` is what the system said if a call on a device failed.
pub fn explain<R: Files<File = F> + AllocGlobal, F: FileExt + OpenFile + Drop, E: Write>(
    rt: &R,
    asked: &Asked,
    system: Option<&io::Error>,
    err: &mut E,
) {
    let mut text = String::new(rt.alloc());
    if push_explanation(rt, &mut text, asked, system).is_ok() {
        let _ = err.write_all(text.as_bytes());
    }
}
