//! What `--explain` says of a stream that was refused: which output or input, why, and the way out.

ghost use Rattle.std.specs.Prelude.{◌≡◌, ◌++◌, IfSome, OnOk, string_bytes};
ghost use Rattle.tp_views.specs.Explained.{memory_text};
ghost use Rattle.tp_program.specs.Streaming.{end_text};

use crate::opening_again::push_unopened;
use crate::streaming::FilesFault;
use std::alloc::AllocError;
use std::fmt::Write as Push;
use std::fs::{Files, OpenFile, OpenOptions};
use std::io;
use std::io::Write;
use std::os::unix::fs::FileExt;
use tp_stream::StreamFault;
use tp_stream_files::{EndFault, FileSink, PortFile};
use tp_views::{is_special, push_error, push_file};
use tp_words::{Shown, StreamRun};

/// Gives the path that was typed for a port.
fn path_of<'a>(files: &'a [PortFile], port: u8) -> &'a str {
    for file in files {
        if file.port == port {
            return file.path.as_str();
        }
    }
    "(no file)"
}

/// Says of a port whose file isn't regular how its bytes can go through standard input or output.
fn push_standard(
    text: &mut String,
    path: &str,
    port: u8,
    is_input: bool,
) -> Result<(), AllocError> {
    let path = Shown::all(path);
    if is_input {
        write!(
            text,
            "  It is no regular file, so it isn't looked at again. FILE is read at positions: what comes once, as from a FIFO,\n  comes by standard input: --in {port}=- < {path}\n"
        )
    } else {
        write!(
            text,
            "  It is no regular file, and FILE is written at positions and synced. To let the output go: --discard {port}.\n  To hand it on: --out {port}=- > {path}\n"
        )
    }
}

/// Reads a byte of the file of an input again.
fn read_byte<R: Files<File = F>, F: FileExt + OpenFile + Drop>(
    rt: &R,
    path: &str,
) -> io::Result<usize> {
    let file = OpenOptions::new().read(true).open(rt, path)?;
    file.read_at(&mut [0; 1], 0)
}

/// Says why a port's input can't be opened or read, as far as that is so now.
fn push_source<R: Files<File = F>, F: FileExt + OpenFile + Drop>(
    rt: &R,
    text: &mut String,
    files: &[PortFile],
    port: u8,
) -> Result<(), AllocError> {
    let path = path_of(files, port);
    if path == "-" {
        return write!(text, "  port {port}: standard input can't be read\n");
    }
    let shown = Shown::all(path);
    write!(text, "  port {port}, {shown}: it can't be read\n")?;
    if is_special(rt, path) {
        return push_standard(text, path, port, true);
    }
    match read_byte(rt, path) {
        Ok(_) => write!(text, "  It can be opened and read now.\n"),
        Err(error) => push_file(text, path, &error),
    }
}

/// Says why a port's output can't be opened, as far as that is so now: it opens it again as before.
fn push_sink<R: Files<File = F>, F: FileExt + OpenFile + Drop>(
    rt: &R,
    text: &mut String,
    files: &[PortFile],
    port: u8,
) -> Result<(), AllocError> {
    let path = path_of(files, port);
    let shown = Shown::all(path);
    write!(
        text,
        "  port {port}, {shown}: it can't be opened, made or synced\n"
    )?;
    let error = match FileSink::open(rt, path) {
        Ok(_) => return write!(text, "  It can be now: give the same command again.\n"),
        Err(error) => error,
    };
    if is_special(rt, path) {
        push_error(text, path, &error)?;
        return push_standard(text, path, port, false);
    }
    push_file(text, path, &error)?;
    write!(
        text,
        "  Where FILE is new or empty its folder is synced, too: that has to be there, and you need the right to read it.\n"
    )
}

/// Opens and syncs the file of an output again.
fn sync_again<R: Files>(rt: &R, path: &str) -> io::Result<()> {
    let mut how = OpenOptions::new();
    how.read(true).write(true).open(rt, path)?.sync_all()
}

/// Says how the file of a port's output is now, after it couldn't be written or synced.
fn push_unwritten<R: Files>(
    rt: &R,
    text: &mut String,
    files: &[PortFile],
    port: u8,
) -> Result<(), AllocError> {
    let path = path_of(files, port);
    if path == "-" {
        return write!(
            text,
            "  port {port}: standard output can't be written: has its reader ended, or is its disk full?\n"
        );
    }
    let shown = Shown::all(path);
    write!(
        text,
        "  port {port}, {shown}: it can't be written or synced\n"
    )?;
    match sync_again(rt, path) {
        Ok(()) => write!(
            text,
            "  What the system said isn't known any more; it can be opened and synced now. Look at the room of its disk, and at ulimit -f.\n"
        ),
        Err(error) => push_file(text, path, &error),
    }
}

/// Says why a port's output or input failed.
fn push_end_fault<R: Files<File = F>, F: FileExt + OpenFile + Drop>(
    rt: &R,
    text: &mut String,
    asked: &StreamRun,
    fault: EndFault,
) -> Result<(), AllocError>
    ensures { IfSome (end_text fault) (λ said. OnOk result (string_bytes text.new ≡ string_bytes text.old ++ said)) }
{
    match fault {
        EndFault::ReadFailed(port) => push_source(rt, text, &asked.ends.ins, port),
        EndFault::DeviceFailed(port) => push_sink(rt, text, &asked.ends.outs, port),
        EndFault::Memory => write!(text, "  memory is wanting\n"),
        EndFault::SameFile(_) | EndFault::Twice(_) => write!(text, "  Nothing was opened.\n"),
    }
}

/// Says that an output's file has fewer bytes than were confirmed.
fn push_short(
    text: &mut String,
    asked: &StreamRun,
    port: u8,
    has: u64,
    from: u64,
) -> Result<(), AllocError> {
    let path = Shown::all(path_of(&asked.ends.outs, port));
    write!(
        text,
        "  {path} has {has} bytes, and {from} bytes of port {port} were confirmed: it was cut short, or is another file.\n  Restore it. The device hasn't those bytes any more; to go on without them, make the file {from} bytes long.\n"
    )
}

/// Says that an output's file has more bytes than the port put out.
fn push_long(
    text: &mut String,
    asked: &StreamRun,
    port: u8,
    has: u64,
    upto: u64,
) -> Result<(), AllocError> {
    let path = Shown::all(path_of(&asked.ends.outs, port));
    let device = Shown::all(asked.device.as_str());
    write!(
        text,
        "  {path} has {has} bytes, and port {port} of {device} has put out {upto} in all: it is another file, or {device} is an older copy. It was left as it is.\n  Name the file that has this port's output or, where there is none yet, a new one.\n"
    )
}

/// Says that a reader lacks outputs that were confirmed.
fn push_gone(text: &mut String, port: u8, have: u64, confirmed: u64) -> Result<(), AllocError> {
    write!(
        text,
        "  The reader has {have} bytes of port {port}, and {confirmed} were confirmed: the device hasn't those between any more.\n  They were written to standard output: what its reader left there is lost. Say --have {port}={confirmed} to go on behind them.\n"
    )
}

/// Says that a reader claims more than was shown.
fn push_not_shown(text: &mut String, port: u8, have: u64, shown: u64) -> Result<(), AllocError> {
    write!(
        text,
        "  The reader says that it has {have} bytes of port {port}, and {shown} were shown: are they of another device, or of another port?\n"
    )
}

/// Says that an input has fewer bytes than its port has accepted.
fn push_short_input(
    text: &mut String,
    asked: &StreamRun,
    port: u8,
    has: u64,
    accepted: u64,
) -> Result<(), AllocError> {
    let path = Shown::all(path_of(&asked.ends.ins, port));
    let device = Shown::all(asked.device.as_str());
    write!(
        text,
        "  {path} has {has} bytes, and port {port} has accepted {accepted}: it was cut short, or isn't the port's input.\n  Name the file that is all of the port's input, from its first byte on: what was accepted is passed over.\n  tpnet show {device} says what was accepted: in and pending together.\n"
    )
}

/// Says how a port's numbers don't fit the device.
fn push_numbers(
    text: &mut String,
    asked: &StreamRun,
    fault: StreamFault,
) -> Result<(), AllocError> {
    match fault {
        StreamFault::Short { port, has, from } => push_short(text, asked, port, has, from),
        StreamFault::Long { port, has, upto } => push_long(text, asked, port, has, upto),
        StreamFault::Gone {
            port,
            have,
            confirmed,
        } => push_gone(text, port, have, confirmed),
        StreamFault::NotShown { port, have, shown } => push_not_shown(text, port, have, shown),
        StreamFault::ShortInput {
            port,
            has,
            accepted,
        } => push_short_input(text, asked, port, has, accepted),
        _ => Ok(()),
    }
}

/// Says why a stream was refused, or ended early.
fn push_stream_fault<R: Files<File = F> + AllocGlobal, F: FileExt + OpenFile + Drop>(
    rt: &R,
    text: &mut String,
    asked: &StreamRun,
    fault: StreamFault,
) -> Result<(), AllocError>
    ensures { fault ≡ StreamFault.Memory → OnOk result (string_bytes text.new ≡ string_bytes text.old ++ memory_text) }
{
    let device = asked.device.as_str();
    let shown = Shown::all(device);
    match fault {
        StreamFault::Opening(_) => push_unopened(rt, text, device),
        StreamFault::InputFailed(port) => {
            push_source(rt, text, &asked.ends.ins, port)?;
            write!(
                text,
                "  What was accepted of it is kept: mend that, and give the same command again.\n"
            )
        }
        StreamFault::OutputFailed(port) => {
            push_unwritten(rt, text, &asked.ends.outs, port)?;
            write!(
                text,
                "  What wasn't confirmed is put again: mend that, and give the same command again.\n"
            )
        }
        StreamFault::JournalFull => write!(
            text,
            "  {shown}: its journal has no room, and no checkpoint frees any. Nothing that was acknowledged or shown is lost.\n  tpnet compact {shown} empties it and keeps all output: then give the same command again.\n  Where it fills up again and again, make a device with a larger AREA: tpnet check says how large.\n"
        ),
        StreamFault::Memory => write!(text, "  memory is wanting\n"),
        _ => push_numbers(text, asked, fault),
    }
}

/// Says why a port's output or input failed, why the stream was refused or ended early, or why its device wasn't opened.
fn push_explanation<R: Files<File = F> + AllocGlobal, F: FileExt + OpenFile + Drop>(
    rt: &R,
    text: &mut String,
    asked: &StreamRun,
    fault: Option<FilesFault>,
    has_failed: bool,
) -> Result<(), AllocError> {
    match fault {
        Some(FilesFault::End(fault)) => push_end_fault(rt, text, asked, fault),
        Some(FilesFault::Stop(_)) => Ok(()),
        Some(FilesFault::Stream(fault)) => push_stream_fault(rt, text, asked, fault),
        None if has_failed => Ok(()),
        None => push_unopened(rt, text, asked.device.as_str()),
    }
}

/// Says what the system said of the device, if a call on it failed, and why the stream was refused or ended early.
fn push_all<R: Files<File = F> + AllocGlobal, F: FileExt + OpenFile + Drop>(
    rt: &R,
    text: &mut String,
    asked: &StreamRun,
    fault: Option<FilesFault>,
    system: Option<&io::Error>,
) -> Result<(), AllocError> {
    if let Some(error) = system {
        push_file(text, asked.device.as_str(), error)?;
    }
    push_explanation(rt, text, asked, fault, system.is_some())
}

/// Says more of a refusal on standard error. `system` is what the system said if a call on the device failed.
pub fn explain_stream<R: Files<File = F> + AllocGlobal, F: FileExt + OpenFile + Drop, E: Write>(
    rt: &R,
    asked: &StreamRun,
    fault: Option<FilesFault>,
    system: Option<&io::Error>,
    err: &mut E,
) {
    let mut text = String::new(rt.alloc());
    if push_all(rt, &mut text, asked, fault, system).is_ok() {
        let _ = err.write_all(text.as_bytes());
    }
}
