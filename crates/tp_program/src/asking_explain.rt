//! What `--explain` says of a stream that wasn't asked to stop, or hasn't ended: which file, why, and the way out.

ghost use Rattle.std.specs.Prelude.{◌≡◌, ◌++◌, OnOk, string_bytes};
ghost use Rattle.tp_views.specs.Explained.{memory_text};

use crate::asking::{Unasked, Unmade};
use crate::opening_again::push_unopened;
use std::alloc::AllocError;
use std::fmt::Write as Push;
use std::fs::{Files, OpenFile};
use std::io;
use std::io::Write;
use std::os::unix::fs::FileExt;
use tp_views::{Refusal, push_file};
use tp_words::{Shown, StopRequest};

/// Says why the device's file isn't opened.
fn push_device(
    text: &mut String,
    device: &str,
    refusal: Refusal,
    system: Option<&io::Error>,
) -> Result<(), AllocError>
    ensures { refusal ≡ Refusal.Memory → OnOk result (string_bytes text.new ≡ string_bytes text.old ++ memory_text) }
{
    let shown = Shown::all(device);
    match (refusal, system) {
        (Refusal::Memory, _) => write!(text, "  memory is wanting\n"),
        (_, Some(error)) => push_file(text, device, error),
        (_, None) => write!(
            text,
            "  {shown}: it is no regular file. A device is a regular file.\n"
        ),
    }
}

/// Says why the request isn't made.
fn push_unmade(
    text: &mut String,
    device: &str,
    unmade: Unmade,
    system: Option<&io::Error>,
) -> Result<(), AllocError>
    ensures { unmade ≡ Unmade.Memory → OnOk result (string_bytes text.new ≡ string_bytes text.old ++ memory_text) }
{
    let device = Shown::all(device);
    match (unmade, system) {
        (Unmade::StopExists, _) => write!(
            text,
            "  {device}.stop: it is there, and no empty file, so it is no request, and stays\n  Move it, and give the same command again.\n"
        ),
        (Unmade::DeviceFailed, Some(error)) => write!(
            text,
            "  {device}.stop: {error}\n  A stream is asked by a file beside its device: you need the right to make one in that folder.\n"
        ),
        _ => write!(text, "  memory is wanting\n"),
    }
}

/// Says that nobody else has the device.
fn push_not_running(text: &mut String, device: &str) -> Result<(), AllocError> {
    let device = Shown::all(device);
    write!(
        text,
        "  No other tpnet has {device}, as far as the system says: there is nobody to ask, and nothing was written to it.\n  Where an empty {device}.stop was left there, it is removed, as far as the system allows that.\n"
    )
}

/// Says that another process has the device still.
fn push_still_running(text: &mut String, device: &str) -> Result<(), AllocError> {
    let device = Shown::all(device);
    write!(
        text,
        "  It is asked to stop, by {device}.stop, and another tpnet has {device} still. A stream ends behind its next flush, and takes the file away;\n  run without --stream, compact and format never look for it.\n  Give the same command again, or end that process: a kill loses nothing that was shown.\n"
    )
}

/// Says why a stream wasn't asked, or hasn't ended.
fn push_explanation<R: Files<File = F> + AllocGlobal, F: FileExt + OpenFile + Drop>(
    rt: &R,
    text: &mut String,
    device: &str,
    fault: Unasked,
    system: Option<&io::Error>,
) -> Result<(), AllocError> {
    match fault {
        Unasked::Device(refusal) => push_device(text, device, refusal, system),
        Unasked::NoDevice(_) => push_unopened(rt, text, device),
        Unasked::NotRunning => push_not_running(text, device),
        Unasked::Request(unmade) => push_unmade(text, device, unmade, system),
        Unasked::StillRunning => push_still_running(text, device),
    }
}

/// Says more of a stream that wasn't asked to stop, or hasn't ended, on standard error.
pub(crate) fn explain_unasked<
    R: Files<File = F> + AllocGlobal,
    F: FileExt + OpenFile + Drop,
    E: Write,
>(rt: &R, asked: &StopRequest, fault: Unasked, system: Option<&io::Error>, err: &mut E) {
    let mut text = String::new(rt.alloc());
    let device = asked.device.as_str();
    if push_explanation(rt, &mut text, device, fault, system).is_ok() {
        let _ = err.write_all(text.as_bytes());
    }
}
