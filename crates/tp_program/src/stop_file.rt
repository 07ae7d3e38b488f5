//! The files that end a stream: the one that was typed for it, and a request beside its device.

ghost use Rattle.std.specs.Prelude.{◌≡◌, None};

use crate::request_file::RequestFile;
use std::fs;
use std::fs::Files;
use std::io::{ErrorKind, Write};
use tp_stream::{Noted, Stop};
use tp_stream_files::{PortFile, StandardStream, StandardStreams, is_one_file, is_standard_file};
use tp_words::StreamRun;

/// The standard streams.
const STANDARD: &[StandardStream] = &[
    StandardStream::In,
    StandardStream::Out,
    StandardStream::Error,
];

/// Why a stream doesn't begin, because of its stop file or its request file. The device is as it was.
#[derive(Clone, Copy)]
pub enum StopFault {
    /// The stop file is the file of the device, of a port's output or input, or of a standard stream.
    SameFile,
    /// Something is at the stop file's path already.
    There,
    /// The system doesn't say whether something is at the stop file's path.
    Unseen,
    /// The file DEVICE.stop is that of a port's output or input, or of a standard stream.
    RequestTaken,
    /// An earlier request is there, and can't be removed.
    RequestLeft,
}

/// Says whether a stream is asked to stop: there is a request beside its device, or something is at the path of its stop file. It checks anew each
/// time.
#[derive(Drop)]
pub(crate) struct StopFile<'a, R> {
    rt: &'a R,
    request: &'a RequestFile,
    path: &'a Option<String>,
    noted: Noted,
}

impl<'a, R> StopFile<'a, R> {
    /// Begins with no check made.
    pub(crate) fn new(
        rt: &'a R,
        request: &'a RequestFile,
        path: &'a Option<String>,
    ) -> StopFile<'a, R> {
        StopFile {
            rt,
            request,
            path,
            noted: Noted::new(),
        }
    }
}

/// Whether something is at a path. If that can't be checked, the answer is no.
fn is_there<R: Files>(rt: &R, path: &Option<String>) -> bool {
    match path {
        Some(path) => fs::metadata(rt, path.as_str()).is_ok(),
        None => false,
    }
}

impl<'a, R: Files> Stop for StopFile<'a, R> {
    ghost answers = { λ stop. stop.noted.told };

    fn is_asked(&mut self) -> bool {
        let answer = self.request.is_there(self.rt) || is_there(self.rt, self.path);
        self.noted = self.noted.answered(answer);
        answer
    }
}

/// Whether a path names the file of one of these outputs and inputs.
fn is_end<R: Files>(rt: &R, path: &str, files: &[PortFile]) -> bool {
    for file in files {
        if !file.is_standard() && is_one_file(rt, path, file.path.as_str()) {
            return true;
        }
    }
    false
}

/// Whether a path names the file of a standard stream.
fn is_standard<R: Files + StandardStreams>(rt: &R, path: &str) -> bool {
    for stream in STANDARD {
        if is_standard_file(rt, path, *stream) {
            return true;
        }
    }
    false
}

/// Whether a path names the file of the device, of a port's output or input, or of a standard stream.
fn is_part<R: Files + StandardStreams>(rt: &R, asked: &StreamRun, path: &str) -> bool {
    is_one_file(rt, path, asked.device.as_str())
        || is_end(rt, path, &asked.ends.outs)
        || is_end(rt, path, &asked.ends.ins)
        || is_standard(rt, path)
}

/// Gives why a stream doesn't begin because of its stop file, as things are now; `None` if it may.
fn stop_fault<R: Files + StandardStreams>(rt: &R, asked: &StreamRun) -> Option<StopFault>
    ensures { asked.now.stop_file ≡ None → result ≡ None }
{
    let path = asked.stop_file.as_ref()?.as_str();
    if is_part(rt, asked, path) {
        return Some(StopFault::SameFile);
    }
    match fs::metadata(rt, path) {
        Ok(_) => Some(StopFault::There),
        Err(error) if error.kind() == ErrorKind::NotFound && !path.is_empty() => None,
        Err(_) => Some(StopFault::Unseen),
    }
}

/// Whether the path of requests names the file of a port's output or input, or of a standard stream.
fn is_taken<R: Files + StandardStreams>(rt: &R, asked: &StreamRun, request: &RequestFile) -> bool {
    let path = request.path();
    is_end(rt, path, &asked.ends.outs) || is_end(rt, path, &asked.ends.ins) || is_standard(rt, path)
}

/// Gives why a stream doesn't begin because of its stop file or its request file, as things are now; `None` if it may.
pub(crate) fn places_fault<R: Files + StandardStreams>(
    rt: &R,
    asked: &StreamRun,
    request: &RequestFile,
) -> Option<StopFault> {
    if let Some(fault) = stop_fault(rt, asked) {
        return Some(fault);
    }
    if is_taken(rt, asked, request) {
        Some(StopFault::RequestTaken)
    } else {
        None
    }
}

/// Gives the fault of `places_fault` before anything is opened, if the device is held. It also removes an earlier request, which was for another
/// process.
pub(crate) fn first_fault<R: Files + StandardStreams>(
    rt: &R,
    asked: &StreamRun,
    request: &RequestFile,
) -> Option<StopFault> {
    if let Some(fault) = places_fault(rt, asked, request) {
        return Some(fault);
    }
    if request.clear(rt) {
        None
    } else {
        Some(StopFault::RequestLeft)
    }
}

/// Says why a stream doesn't begin, because of its stop file or its request file. Answers the status. Ignores a failed write.
pub(crate) fn report_stop<E: Write>(err: &mut E, fault: StopFault) -> u8
    ensures { result ≡ 2 }
{
    let _ = match fault {
        StopFault::SameFile => write!(
            err,
            "tpnet: --stop-file is the file of the device, of an end of a port or of a standard stream: give it one of its own\n"
        ),
        StopFault::There => write!(
            err,
            "tpnet: there is something at the path of --stop-file already: remove it, if an earlier stop left it, and give the same command again\n"
        ),
        StopFault::Unseen => write!(
            err,
            "tpnet: the path of --stop-file can't be looked at: name one in a folder that you may search\n"
        ),
        StopFault::RequestTaken => write!(
            err,
            "tpnet: DEVICE.stop is the file of an end of a port or of a standard stream: give that another name, as tpnet stop asks there\n"
        ),
        StopFault::RequestLeft => write!(
            err,
            "tpnet: DEVICE.stop was left by an earlier tpnet stop and can't be removed: remove it, and give the same command again\n"
        ),
    };
    2
}
