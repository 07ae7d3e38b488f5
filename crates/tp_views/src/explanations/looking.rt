//! What is at a path when it is checked again, and what the system says of it.

ghost use Rattle.std.specs.Prelude.{◌≡◌};
ghost use Rattle.tp_views.specs.Explained.{way_out};

use std::alloc::AllocError;
use std::fmt::Write as Push;
use std::fs::{Files, OpenFile, OpenOptions};
use std::os::unix::fs::FileExt;
use std::{fs, io};
use tp_disk::{Counted, NotedFile, RawFile};
use tp_words::Shown;

/// Says what the system said of a path.
pub fn push_error(text: &mut String, path: &str, error: &io::Error) -> Result<(), AllocError> {
    let shown = Shown::all(path);
    write!(text, "  {shown}: {error}\n")
}

/// Gives the way out, for what the system said of a path.
fn way_out(kind: io::ErrorKind) -> &'static str
    ensures { result.now ≡ way_out kind }
{
    match kind {
        io::ErrorKind::OutOfMemory => {
            "There is no memory left for all that is in it: is it the file that you mean?"
        }
        io::ErrorKind::StorageFull | io::ErrorKind::QuotaExceeded => {
            "Make room on its disk, or name a path on another one."
        }
        io::ErrorKind::FileTooLarge => {
            "The system allows no file of that length there: name a path on another disk, or look at ulimit -f."
        }
        io::ErrorKind::IsADirectory => "It is a folder: name a file.",
        _ => "Look at the path, and at your rights to it.",
    }
}

/// Says what the system said of a path, and the way out.
pub fn push_file(text: &mut String, path: &str, error: &io::Error) -> Result<(), AllocError> {
    push_error(text, path, error)?;
    let way = way_out(error.kind());
    write!(text, "  {way}\n")
}

/// Says what else may be the reason, if all files are good.
pub(crate) fn push_rest(text: &mut String) -> Result<(), AllocError> {
    text.push_str(
        "  All files are good now: standard output can't be written, or memory is wanting.\n",
    )
}

/// Whether a regular file is at a path, or at the end of the links there.
pub fn is_regular<R: Files>(rt: &R, path: &str) -> bool {
    match fs::metadata(rt, path) {
        Ok(found) => found.is_file(),
        Err(_) => false,
    }
}

/// Whether something other than a regular file or a folder is at a path: reading it again may wait, or find other bytes.
pub fn is_special<R: Files>(rt: &R, path: &str) -> bool {
    match fs::metadata(rt, path) {
        Ok(found) => !found.is_file() && !found.is_dir(),
        Err(_) => false,
    }
}

/// Says that what is at a path isn't read again.
fn push_unread(text: &mut String, path: &str) -> Result<(), AllocError> {
    let shown = Shown::all(path);
    write!(
        text,
        "  {shown}: it is no regular file, so it isn't looked at again.\n  Save what comes from it in a file, and name that.\n"
    )
}

/// Reads a whole file again. If that fails, it says why.
pub fn read_again<R: Files + AllocGlobal>(
    rt: &R,
    text: &mut String,
    path: &str,
) -> Result<Option<Vec<u8>>, AllocError> {
    let said = if is_special(rt, path) {
        push_unread(text, path)
    } else {
        match fs::read(rt, path) {
            Ok(bytes) => return Ok(Some(bytes)),
            Err(error) => push_file(text, path, &error),
        }
    };
    said?;
    Ok(None)
}

/// Opens the device in a file, to be only read. That works without the right to write the file.
pub(crate) fn open_to_read<R: Files<File = F>, F: FileExt + OpenFile + Drop>(
    rt: &R,
    device: &str,
) -> io::Result<Counted<RawFile<NotedFile<F>>>> {
    let file = OpenOptions::new().read(true).open(rt, device)?;
    Ok(Counted::new(RawFile::new(NotedFile::new(file))?))
}

/// Whether a file that is there can be opened to be written.
pub fn is_writable<R: Files>(rt: &R, path: &str) -> bool {
    let mut how = OpenOptions::new();
    how.read(true).write(true).open(rt, path).is_ok()
}
