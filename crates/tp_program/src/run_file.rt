//! `tpnet run`, on a device's file.

ghost use Rattle.std.specs.Prelude.{◌≡◌, ◌≤◌, [], None, Some, IfErr, IfOk, string_bytes};
ghost use Rattle.tp_program.specs.Lower.{History, IsRun};
ghost use Rattle.tp_program.specs.Refused.{IsReadFault};
ghost use Rattle.tp_program.specs.RunFile.{RanFile, RanWith};

use crate::devices::{Devices, refuse_opening, refuse_special};
use crate::files::read_file;
use crate::running::run_on;
use std::fs::Files;
use std::io;
use std::io::Write;
use std::sync::Wait;
use std::thread::Threads;
use tp_disk::Disk;
use tp_views::{Refusal, is_openable, refuse};
use tp_words::Run;

/// Reads the input of a run. It is empty if no file is named.
fn read_input<R: Files + AllocGlobal>(rt: &R, run: &Run) -> Result<Vec<u8>, Refusal>
    ensures unnamed { run.now.input ≡ None → IfOk result (λ input. input.items ≡ []) }
    ensures fault { IfErr result IsReadFault }
{
    match &run.input {
        Some(path) => read_file(rt, path.as_str()),
        None => Ok(Vec::new(rt.alloc())),
    }
}

/// Opens the device, which is held, runs it with this input, and gives it back.
fn run_device<
    R: Files + AllocGlobal + Threads + Wait + Sync,
    S: Devices<Device = D>,
    D: Disk + Drop + Send,
    O: Write,
    E: Write,
>(
    rt: &R,
    devices: &mut S,
    run: &Run,
    input: &[u8],
    system: &mut Option<io::Error>,
    out: &mut O,
    err: &mut E,
) -> u8
    ghost history: { History }
    requires range { IsRun run.now }
    requires held { S.held devices.old ≡ Some (string_bytes run.now.device) }
    ensures few { result ≤ 2 }
    ensures ran { RanWith history run.now input.now (S.calls devices.old) (S.calls devices.new) (O.contents out.old) (O.contents out.new) result }
{
    if !is_openable(rt, run.device.as_str()) {
        return refuse_special(devices, run.device.as_str(), system, err);
    }
    let disk = match devices.open(run.device.as_str()) {
        Ok(disk) => disk,
        Err(error) => return refuse_opening(error, system, err),
    };
    let (disk, status) = run_on(rt, rt.alloc(), run, disk, input, out, err);
    *system = devices.close(disk);
    status
}

/// `tpnet run`, on files, if the device is held. It reads the input first. It opens the device's file as it is, and keeps its length. If a call on it
/// fails, what the system said goes into `system`.
#[inline(never)]
pub(crate) fn run_file<
    R: Files + AllocGlobal + Threads + Wait + Sync,
    S: Devices<Device = D>,
    D: Disk + Drop + Send,
    O: Write,
    E: Write,
>(
    rt: &R,
    devices: &mut S,
    run: &Run,
    system: &mut Option<io::Error>,
    out: &mut O,
    err: &mut E,
) -> u8
    ghost history: { History }
    requires range { IsRun run.now }
    requires held { S.held devices.old ≡ Some (string_bytes run.now.device) }
    ensures few { result ≤ 2 }
    ensures ran { RanFile history run.now (S.calls devices.old) (S.calls devices.new) (O.contents out.old) (O.contents out.new) result }
{
    match read_input(rt, run) {
        Ok(input) => run_device(rt, devices, run, input.as_slice(), system, out, err),
        Err(refusal) => refuse(err, refusal),
    }
}
