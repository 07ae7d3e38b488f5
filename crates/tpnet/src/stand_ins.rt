//! What replaces standard streams that are closed, and which files the streams are then.

use crate::system::System;
use std::fs;
use std::fs::{File, Files, OpenOptions};
use std::io::IsTerminal;
use std::os::fd::AsRawFd;
use tp_stream_files::{StandardFile, numbers_in};

/// The last number that a standard stream has.
const LAST_STREAM: i32 = 2;

/// Opens a file that is only read. It gets the number of the first standard stream that is closed, if one is; else it is dropped. Any
/// file that was opened later would get that number otherwise, and what is printed would be written over it.
pub(crate) fn stand_in<R: Files<File = File>>(rt: &R) -> Option<File> {
    let mut reads = OpenOptions::new();
    let reads = reads.read(true);
    let file = match reads.open(rt, "/dev/null") {
        Ok(file) => file,
        Err(_) => reads.open(rt, "/").ok()?,
    };
    if file.as_raw_fd() > LAST_STREAM {
        None
    } else {
        Some(file)
    }
}

/// Which file a standard stream is, as far as the system says of one of these paths. A terminal is none that has bytes to lose, also if no
/// path says so.
fn standard_file<R: Files, S: IsTerminal>(
    rt: &R,
    stream: &S,
    paths: [&str; 2],
) -> Option<StandardFile> {
    for path in &paths {
        if let Ok(kept) = fs::metadata(rt, *path) {
            return Some(StandardFile {
                numbers: numbers_in(&kept),
                is_regular: kept.is_file(),
            });
        }
    }
    if !stream.is_terminal() {
        return None;
    }
    Some(StandardFile {
        numbers: None,
        is_regular: false,
    })
}

/// The system with the files that its standard streams are. None if it can't be told of one of them.
pub(crate) fn ask_system<'a, R: Files, I: IsTerminal, O: IsTerminal, E: IsTerminal>(
    rt: &'a R,
    input: &I,
    output: &O,
    error: &E,
) -> Option<System<'a, R>> {
    let input = standard_file(rt, input, ["/dev/stdin", "/proc/self/fd/0"])?;
    let output = standard_file(rt, output, ["/dev/stdout", "/proc/self/fd/1"])?;
    let error = standard_file(rt, error, ["/dev/stderr", "/proc/self/fd/2"])?;
    Some(System::new(rt, input, output, error))
}
