//! What `--explain` says of a backup that wasn't done: which file, why, and the way out.

ghost use Rattle.std.specs.Prelude.{◌≡◌, ◌++◌, OnOk, string_bytes};
ghost use Rattle.tp_views.specs.Explained.{memory_text};

use crate::backup_files::Undone;
use crate::opening_again::opens;
use std::alloc::AllocError;
use std::fmt::Write as Push;
use std::fs::{Files, OpenFile};
use std::io;
use std::io::Write;
use std::os::unix::fs::FileExt;
use tp_stream_files::is_one_file;
use tp_views::push_file;
use tp_words::{Backup, Shown};

/// Says what is at the copy's name already.
fn push_there<R: Files + AllocGlobal>(
    rt: &R,
    text: &mut String,
    backup: &Backup,
) -> Result<(), AllocError> {
    let (device, copy) = (backup.device.as_str(), backup.copy.as_str());
    let shown = Shown::all(copy);
    if is_one_file(rt, device, copy) {
        return write!(
            text,
            "  {shown} is the file of the device itself\n  Name another path.\n"
        );
    }
    let part = format!(in rt.alloc(); "{copy}.part")?;
    if is_one_file(rt, device, part.as_str()) {
        write!(
            text,
            "  {shown}.part is the file of the device, and a copy is made under that name\n  Name another path.\n"
        )
    } else {
        write!(
            text,
            "  {shown}: it is there already\n  Name another path, or remove what is there: a backup writes over nothing.\n"
        )
    }
}

/// Says what the system said of the copy's file or name.
fn push_failed(text: &mut String, backup: &Backup, error: &io::Error) -> Result<(), AllocError> {
    push_file(text, backup.copy.as_str(), error)?;
    let device = Shown::all(backup.device.as_str());
    let copy = Shown::all(backup.copy.as_str());
    write!(
        text,
        "  A copy is made as {copy}.part, in a folder that is there and that you may read and write, on a file system with hard links that keeps the rights of files.\n  Mend that, and give the same command again: {device} is as it was.\n"
    )
}

/// Says why the device wasn't opened or copied.
fn push_uncopied<R: Files<File = F> + AllocGlobal, F: FileExt + OpenFile + Drop>(
    rt: &R,
    text: &mut String,
    device: &str,
) -> Result<(), AllocError> {
    if !opens(rt, text, device)? {
        return Ok(());
    }
    let device = Shown::all(device);
    write!(
        text,
        "  {device} opens now. Of Busy: another process writes it so fast that no moment of it could be copied; try again, or stop that process.\n  Of DeviceFailed: the copy didn't open to what the device opened to. Else memory was wanting, or a read failed.\n"
    )
}

/// Says that another backup makes this copy now, or was stopped.
fn push_part(text: &mut String, copy: &str) -> Result<(), AllocError> {
    let copy = Shown::all(copy);
    write!(
        text,
        "  {copy}.part: it is there already\n  A backup that was stopped left it: remove it, and give the same command again. Where another backup makes it now, wait until that ends.\n"
    )
}

/// Says that the copy is there, but its line couldn't be printed.
fn push_unprinted(text: &mut String, copy: &str) -> Result<(), AllocError> {
    let copy = Shown::all(copy);
    write!(
        text,
        "  {copy}: it is made, whole and synced. Standard output can't be written.\n"
    )
}

/// Says why a backup wasn't done.
fn push_explanation<R: Files<File = F> + AllocGlobal, F: FileExt + OpenFile + Drop>(
    rt: &R,
    text: &mut String,
    backup: &Backup,
    undone: &Undone,
) -> Result<(), AllocError>
    ensures { undone.now ≡ Undone.Memory → OnOk result (string_bytes text.new ≡ string_bytes text.old ++ memory_text) }
{
    match undone {
        Undone::CopyExists => push_there(rt, text, backup),
        Undone::PartExists => push_part(text, backup.copy.as_str()),
        Undone::CopyFailed(error) => push_failed(text, backup, error),
        Undone::Uncopied(Some(error)) => push_failed(text, backup, error),
        Undone::Uncopied(None) => push_uncopied(rt, text, backup.device.as_str()),
        Undone::Unprinted => push_unprinted(text, backup.copy.as_str()),
        Undone::Memory => text.push_str("  memory is wanting\n"),
    }
}

/// Says more, on standard error, of a backup that wasn't done.
pub(crate) fn explain_backup<
    R: Files<File = F> + AllocGlobal,
    F: FileExt + OpenFile + Drop,
    E: Write,
>(rt: &R, backup: &Backup, undone: &Undone, err: &mut E) {
    let mut text = String::new(rt.alloc());
    if push_explanation(rt, &mut text, backup, undone).is_ok() {
        let _ = err.write_all(text.as_bytes());
    }
}
