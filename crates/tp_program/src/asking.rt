//! `tpnet stop`: asks the stream that has a device to end.

ghost use Rattle.std.specs.Prelude.{◌≡◌, ◌≤◌, [], ◌∷◌, ◌++◌, false, true, replicate, IfErr, OnOk, Some, string_bytes};
ghost use Rattle.tp_program.specs.Lower.{Appends, error_kind, Memory};
ghost use Rattle.tp_program.specs.declared.asking.Unasked.TheVariants.{Device};
ghost use Rattle.tp_program.specs.Devices.{Holds, Requests};
ghost use Rattle.tp_program.specs.Named.{unmade_name};
ghost use Rattle.tp_program.specs.Stops.{GotWithin, HasAsked, IsOfNobody, StopAnswered, WasHeldElsewhere, WasUnasked, request_path, stop_line};
ghost use Rattle.tp_program.specs.Uses.{AsksAgain, HasRequested};

use crate::asking_explain::explain_unasked;
use crate::devices::{Devices, file_to_write};
use crate::files::{disk_to_read, read_refusal};
use crate::program::{prints_into, refuse_output};
use crate::request_file::RequestFile;
use std::alloc::AllocError;
use std::fs::{Files, OpenFile};
use std::io::{ErrorKind, Write};
use std::os::unix::fs::FileExt;
use std::{fmt, io};
use tp_recover::read_head;
use tp_stream_files::StandardStreams;
use tp_views::{Refusal, is_openable, put, refuse};
use tp_words::StopRequest;

/// Why no request to stop is made.
#[derive(Clone, Copy)]
pub enum Unmade {
    /// Something is at its path that is no request. It stays.
    StopExists,
    /// Its file can't be made.
    DeviceFailed,
    /// Out of memory.
    Memory,
}

/// Why a stream isn't asked to stop, or hasn't ended.
#[derive(Clone, Copy)]
pub enum Unasked {
    /// The device's file can't be opened to be read and written, or memory ran out, before the command asked who has it.
    Device(Refusal),
    /// No other process has what is at the path, and by its head it is no device.
    NoDevice(Refusal),
    /// No other process has the device.
    NotRunning,
    /// No request is made.
    Request(Unmade),
    /// The stream is asked, but another process still has the device.
    StillRunning,
}

impl From<AllocError> for Unasked {
    ghost from_gives = { λ _ unasked. unasked ≡ Device Memory };

    fn from(_error: AllocError) -> Unasked {
        Unasked::Device(Refusal::Memory)
    }
}

impl Unmade {
    ghost use Rattle.tp_program.specs.Named.{unmade_name};

    /// Gives its name.
    fn name(self) -> &'static str
        ensures { result.now ≡ unmade_name self }
    {
        match self {
            Unmade::StopExists => "StopExists",
            Unmade::DeviceFailed => "DeviceFailed",
            Unmade::Memory => "Memory",
        }
    }
}

impl fmt::Display for Unmade {
    ghost output = { λ unmade. Some (unmade_name unmade) };

    fn fmt<W: fmt::Write>(&self, f: &mut fmt::Formatter<W>) -> fmt::Result {
        f.write_str(self.name())
    }
}

impl fmt::Display for Unasked {
    fn fmt<W: fmt::Write>(&self, f: &mut fmt::Formatter<W>) -> fmt::Result {
        match self {
            Unasked::Device(refusal) | Unasked::NoDevice(refusal) => fmt::Display::fmt(refusal, f),
            Unasked::NotRunning => f.write_str("NotRunning"),
            Unasked::Request(unmade) => fmt::Display::fmt(unmade, f),
            Unasked::StillRunning => f.write_str("StillRunning"),
        }
    }
}

/// Opens the device's file as a run does, and closes it, without reading or writing it. If that fails, what the system said goes into `system`.
fn look_at<R: Files<File = F>, F: OpenFile + Drop>(
    rt: &R,
    device: &str,
    system: &mut Option<io::Error>,
) -> Result<(), Refusal> {
    if !is_openable(rt, device) {
        return Err(Refusal::ReadFailed);
    }
    match file_to_write(rt, device) {
        Ok(_file) => Ok(()),
        Err(error) => {
            let refusal = read_refusal(&error);
            *system = Some(error);
            Err(refusal)
        }
    }
}

/// Gives why the file at a path is no device, by its head alone; `None` if it is one.
fn head_fault<R: Files<File = F>, F: FileExt + OpenFile + Drop>(
    rt: &R,
    device: &str,
) -> Option<Refusal> {
    match disk_to_read(rt, device) {
        Ok(mut disk) => match read_head(&mut disk) {
            Ok(_head) => None,
            Err(unopened) => Some(Refusal::Opening(unopened)),
        },
        Err(refusal) => Some(refusal),
    }
}

/// Gives why nobody is asked if no other process has the device, which is then held here. Removes a request that was left beside a device.
fn nobody_asked<R: Files<File = F>, F: FileExt + OpenFile + Drop>(
    rt: &R,
    device: &str,
    file: &RequestFile,
) -> Unasked
    ensures { IsOfNobody result }
{
    match head_fault(rt, device) {
        Some(refusal) => Unasked::NoDevice(refusal),
        None => {
            let _gone = file.clear(rt);
            Unasked::NotRunning
        }
    }
}

/// Gives why no request is made, for an error of the system.
fn unmade_of(error: &io::Error) -> Unmade
    ensures exists { error_kind error.now ≡ ErrorKind.AlreadyExists → result ≡ Unmade.StopExists }
    ensures memory { error_kind error.now ≡ ErrorKind.OutOfMemory → result ≡ Unmade.Memory }
    ensures failed { (error_kind error.now ≡ ErrorKind.AlreadyExists → ⊥) → (error_kind error.now ≡ ErrorKind.OutOfMemory → ⊥) → result ≡ Unmade.DeviceFailed }
{
    match error.kind() {
        ErrorKind::AlreadyExists => Unmade::StopExists,
        ErrorKind::OutOfMemory => Unmade::Memory,
        _ => Unmade::DeviceFailed,
    }
}

/// Makes a request, if none is there. If that fails, what the system said goes into `system`.
fn make_request<S: Devices>(
    devices: &mut S,
    device: &str,
    file: &RequestFile,
    system: &mut Option<io::Error>,
) -> Result<(), Unmade>
    requires elsewhere { WasHeldElsewhere device.now (S.calls devices.old) }
    requires beside { string_bytes file.now.path ≡ request_path device.now }
    ensures made { OnOk result (S.uses devices.new ≡ S.uses devices.old ++ Requests (request_path device.now) true ∷ []) }
    ensures uncalled { S.calls devices.new ≡ S.calls devices.old }
{
    match devices.request(device, file.path()) {
        Ok(()) => Ok(()),
        Err(error) => {
            let unmade = unmade_of(&error);
            *system = Some(error);
            Err(unmade)
        }
    }
}

/// Asks for the device once more, at once. Answers whether it got it; if it did, it removes the request.
fn look_again<R: Files, S: Devices>(
    rt: &R,
    devices: &mut S,
    device: &str,
    file: &RequestFile,
) -> bool
    ensures held { S.calls devices.new ≡ S.calls devices.old ++ Holds device.now 0 result ∷ [] }
    ensures unused { S.uses devices.new ≡ S.uses devices.old }
{
    match devices.hold(device, 0) {
        Ok(()) => {
            let _removed = file.clear(rt);
            true
        }
        Err(_in_use) => false,
    }
}

/// Asks for the device again and again, for a second each time, until it gets it or `seconds` seconds are over. Another process may have removed the
/// request, because it took it for an earlier one. If that process still has the device, it makes the request again. Answers whether it got the
/// device; if it did, it removes the request.
fn wait_for<R: Files, S: Devices>(
    rt: &R,
    devices: &mut S,
    device: &str,
    file: &RequestFile,
    seconds: u32,
) -> bool
    requires { string_bytes file.now.path ≡ request_path device.now }
    ensures again { AsksAgain device.now (S.uses devices.old) (S.uses devices.new) }
    ensures got { result ≡ true → GotWithin device.now seconds (S.calls devices.old) (S.calls devices.new) }
    ensures vain { result ≡ false → S.calls devices.new ≡ S.calls devices.old ++ replicate seconds (Holds device.now 1 false) }
{
    let mut times = 0;
    while times < seconds {
        match devices.hold(device, 1) {
            Ok(()) => {
                let _gone = file.clear(rt);
                return true;
            }
            Err(_in_use) => times += 1,
        }
        let _made = devices.request(device, file.path());
    }
    false
}

/// Asks the stream that has a device to end, by the request file `file`, if another process has the device. Then waits for that as long as was typed.
fn ask_by<R: Files<File = F>, F: FileExt + OpenFile + Drop, S: Devices>(
    rt: &R,
    devices: &mut S,
    asked: &StopRequest,
    file: &RequestFile,
    system: &mut Option<io::Error>,
) -> Result<(), Unasked>
    requires { string_bytes file.now.path ≡ request_path (string_bytes asked.now.device) }
    ensures requested { OnOk result (HasRequested (string_bytes asked.now.device) (S.uses devices.old) (S.uses devices.new)) }
    ensures asked { OnOk result (HasAsked asked.now.wait (string_bytes asked.now.device) (S.calls devices.old) (S.calls devices.new)) }
    ensures refused { IfErr result (λ fault. WasUnasked fault asked.now.wait (string_bytes asked.now.device) (S.calls devices.old) (S.calls devices.new)) }
{
    let device = asked.device.as_str();
    let Err(_in_use) = devices.hold(device, 0) else {
        return Err(nobody_asked(rt, device, file));
    };
    if let Err(unmade) = make_request(devices, device, file, system) {
        return Err(Unasked::Request(unmade));
    }
    let Some(seconds) = asked.wait else {
        let _free = look_again(rt, devices, device, file);
        return Ok(());
    };
    if wait_for(rt, devices, device, file, seconds) {
        Ok(())
    } else {
        Err(Unasked::StillRunning)
    }
}

/// Asks the stream that has a device to end, if another process has the device. Then waits for that as long as was typed. It reads nothing of a
/// device that another process has, and never writes to any.
fn ask_to_stop<R: Files<File = F> + AllocGlobal, F: FileExt + OpenFile + Drop, S: Devices>(
    rt: &R,
    devices: &mut S,
    asked: &StopRequest,
    system: &mut Option<io::Error>,
) -> Result<(), Unasked>
    ensures requested { OnOk result (HasRequested (string_bytes asked.now.device) (S.uses devices.old) (S.uses devices.new)) }
    ensures asked { OnOk result (HasAsked asked.now.wait (string_bytes asked.now.device) (S.calls devices.old) (S.calls devices.new)) }
    ensures refused { IfErr result (λ fault. WasUnasked fault asked.now.wait (string_bytes asked.now.device) (S.calls devices.old) (S.calls devices.new)) }
{
    let device = asked.device.as_str();
    if let Err(refusal) = look_at(rt, device, system) {
        return Err(Unasked::Device(refusal));
    }
    let file = RequestFile::of(rt.alloc(), device)?;
    ask_by(rt, devices, asked, &file, system)
}

/// Says that a stream was asked or, if the command waited, that it has ended.
fn say_asked<O: Write>(wait: Option<u32>, out: &mut O) -> Result<(), Refusal>
    ensures { OnOk result (Appends (O.contents out.old) (O.contents out.new) (stop_line wait)) }
{
    match wait {
        None => put(out, b"asked\n"),
        Some(_) => put(out, b"ended\n"),
    }
}

/// Says that a stream was asked, or why that can't be said. Answers the status.
fn report_asked<O: Write, E: Write>(wait: Option<u32>, out: &mut O, err: &mut E) -> u8
    ensures few { result ≤ 1 }
    ensures printed { result ≡ 0 → Appends (O.contents out.old) (O.contents out.new) (stop_line wait) }
{
    match say_asked(wait, out) {
        Ok(()) => 0,
        Err(refusal) => refuse(err, refusal),
    }
}

/// Says why a stream wasn't asked, or hasn't ended. Answers the status. Ignores a failed write.
fn refuse_unasked<E: Write>(err: &mut E, fault: Unasked) -> u8
    ensures { result ≡ 1 }
{
    let _ = write!(err, "tpnet: {fault}\n");
    1
}

/// `tpnet stop`: asks the stream that has a device to end, and waits for that as long as was typed. It says whether that was done, or why not; if
/// `explains` is true, it says more. `devices` says whether another process has the device. Answers the program's status:
/// - 0 if the stream is asked, and has ended if the command waits, and that was printed
/// - 1 if it was refused
/// - 2 if standard output is the file of the device; then it asks nobody
pub(crate) fn answer_stop<
    R: Files<File = F> + StandardStreams + AllocGlobal,
    F: FileExt + OpenFile + Drop,
    S: Devices,
    O: Write,
    E: Write,
>(rt: &R, devices: &mut S, asked: &StopRequest, explains: bool, out: &mut O, err: &mut E) -> u8
    ensures few { result ≤ 2 }
    ensures answered { StopAnswered asked.now (S.calls devices.old) (S.calls devices.new) (O.contents out.old) (O.contents out.new) result }
    ensures requested { result ≡ 0 → HasRequested (string_bytes asked.now.device) (S.uses devices.old) (S.uses devices.new) }
{
    if prints_into(rt, asked.device.as_str()) {
        return refuse_output(err);
    }
    let mut system = None;
    match ask_to_stop(rt, devices, asked, &mut system) {
        Ok(()) => report_asked(asked.wait, out, err),
        Err(fault) => {
            let status = refuse_unasked(err, fault);
            if explains {
                explain_unasked(rt, asked, fault, system.as_ref(), err);
            }
            status
        }
    }
}
