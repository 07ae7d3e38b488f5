//! What the program does for the words of its command line.

ghost use Rattle.std.specs.Prelude.{◌≡◌, ◌≤◌, ◌++◌, codes, false, is_ok, true, OnOk};
ghost use Rattle.tp_program.specs.Lower.{History, IsInRange, IsCommandInRange, has_word};
ghost use Rattle.tp_program.specs.Answers.{Answered, AnsweredAs, AnsweredHeld, CarriedOut, CommandDone, CommandUsed, HoldsWritten, UsedFor, asking_for, is_of_run, most_status};

use crate::asking::answer_stop;
use crate::backup_program::answer_backup;
use crate::compact_file::compact_file;
use crate::devices::Devices;
use crate::files::{
    check_file, recover_file, show_file, status_file, trace_device_file, try_file, view_file,
};
use crate::format_file::format_file;
use crate::in_use::{explain_changed, is_busy, refuse_in_use};
use crate::run_file::run_file;
use crate::stream_program::hold_and_stream;
use crate::trace_files::trace_file;
use crate::trying::InUse;
use crate::watching::Watch;
use std::fs::{Files, OpenFile};
use std::io;
use std::io::Write;
use std::os::unix::fs::FileExt;
use std::sync::Wait;
use std::thread::Threads;
use tp_disk::Disk;
use tp_stream_files::{
    Feed, Onlooker, StandardStream, StandardStreams, is_output_said_over, is_standard_file,
};
use tp_views::{explain, is_openable, print_help, tell_halted};
use tp_words::{Asked, Command, CommandLine, More};

/// Does what was asked for, if the device that is to be written is held. Answers the program's status: 0 if it was done, 1 if it was refused, 2 if a
/// node or port doesn't exist. If a call on a device fails, what the system said goes into `system`.
fn carry_out<
    R: Files + AllocGlobal + Threads + Wait + Sync,
    S: Devices<Device = D, New = N>,
    D: Disk + Drop + Send,
    N: Disk + Drop,
    W: Watch,
    O: Write,
    E: Write,
>(
    rt: &R,
    devices: &mut S,
    watch: &mut W,
    asked: &Asked,
    system: &mut Option<io::Error>,
    out: &mut O,
    err: &mut E,
) -> u8
    ghost history: { History }
    requires range { IsInRange asked.now }
    requires held { HoldsWritten asked.now (S.held devices.old) }
    ensures few { result ≤ 2 }
    ensures used { UsedFor asked.now (S.uses devices.old) (S.uses devices.new) (O.contents out.old) (O.contents out.new) result }
    ensures done { CarriedOut history asked.now (S.calls devices.old) (S.calls devices.new) (O.contents out.old) (O.contents out.new) result }
{
    match asked {
        Asked::Help(text) => print_help(text.as_str(), out, err),
        Asked::Try { image, turns } => try_file(rt, devices, image.as_str(), *turns, out, err),
        Asked::Trace(trace) => trace_file(rt, devices, trace, out, err),
        Asked::TraceDevice { device, part, maps } => {
            trace_device_file(rt, devices, device.as_str(), *part, maps, out, err)
        }
        Asked::Format(new) => format_file(rt, devices, new, system, out, err),
        Asked::Run(run) => run_file(rt, devices, run, system, out, err),
        Asked::Compact { device, .. } => compact_file(rt, devices, device, system, out, err),
        Asked::Recover { device, workers } => {
            recover_file(rt, devices, device.as_str(), *workers, out, err)
        }
        Asked::Show { device, json } => show_file(rt, devices, device.as_str(), *json, out, err),
        Asked::Status {
            device,
            every,
            json,
        } => status_file(rt, devices, watch, device.as_str(), *every, *json, out, err),
        Asked::Check {
            topology,
            images,
            json,
        } => check_file(
            rt,
            devices,
            topology.as_str(),
            images.as_str(),
            *json,
            out,
            err,
        ),
        Asked::View { device, view, maps } => {
            view_file(rt, devices, device.as_str(), *view, maps, out, err)
        }
    }
}

/// Gives the path of the device that is asked for; `None` for a command without one.
fn device_of(asked: &Asked) -> Option<&str> {
    match asked {
        Asked::Format(new) => Some(new.device.as_str()),
        Asked::Run(run) => Some(run.device.as_str()),
        Asked::Compact { device, .. }
        | Asked::Recover { device, .. }
        | Asked::Show { device, .. }
        | Asked::Status { device, .. }
        | Asked::TraceDevice { device, .. }
        | Asked::View { device, .. } => Some(device.as_str()),
        Asked::Help(_) | Asked::Try { .. } | Asked::Trace(_) | Asked::Check { .. } => None,
    }
}

/// Whether standard output goes into the file at `path`.
pub(crate) fn prints_into<R: Files + StandardStreams>(rt: &R, path: &str) -> bool {
    is_standard_file(rt, path, StandardStream::Out)
}

/// Whether standard output goes into the device that is asked for.
fn prints_into_device<R: Files + StandardStreams>(rt: &R, asked: &Asked) -> bool {
    match device_of(asked) {
        Some(device) => prints_into(rt, device),
        None => false,
    }
}

/// Gives the path of the file that a run takes as its port's input; `None` if none is named.
fn input_of(asked: &Asked) -> Option<&str> {
    match asked {
        Asked::Run(run) => Some(run.input.as_ref()?.as_str()),
        _ => None,
    }
}

/// Whether what a run prints would go into the file of its input. Only a regular file has bytes to lose; a terminal has none.
fn prints_into_input<R: Files + StandardStreams>(rt: &R, asked: &Asked) -> bool {
    match input_of(asked) {
        Some(path) => is_openable(rt, path) && prints_into(rt, path),
        None => false,
    }
}

/// Whether what a run says on standard error may overwrite what it prints.
fn is_run_said_over<R: StandardStreams>(rt: &R, asked: &Asked) -> bool
    ensures { is_of_run asked.now ≡ false → result ≡ false }
{
    match asked {
        Asked::Run(_) => is_output_said_over(rt),
        _ => false,
    }
}

/// Says that standard output and standard error go into one file. Answers the status. Ignores a failed write.
fn refuse_mixed<E: Write>(err: &mut E) -> u8
    ensures { result ≡ 2 }
{
    let _ = write!(
        err,
        "tpnet: standard output goes into the file of standard error: let it go elsewhere; nothing was changed\n"
    );
    2
}

/// Says that standard output goes into the file of the input. Answers the status. Ignores a failed write.
fn refuse_input<E: Write>(err: &mut E) -> u8
    ensures { result ≡ 2 }
{
    let _ = write!(
        err,
        "tpnet: standard output goes into the file of --in: let it go elsewhere; nothing was changed\n"
    );
    2
}

/// Says that standard output goes into the file of the device. Answers the status. Ignores a failed write.
pub(crate) fn refuse_output<E: Write>(err: &mut E) -> u8
    ensures { result ≡ 2 }
{
    let _ = write!(
        err,
        "tpnet: standard output goes into the file of the device: let it go elsewhere; nothing was changed\n"
    );
    2
}

/// Says more of what a command did, if `more` asks for it.
fn say_more<R: Files<File = F> + AllocGlobal, F: FileExt + OpenFile + Drop, E: Write>(
    rt: &R,
    asked: &Asked,
    more: More,
    status: u8,
    system: Option<&io::Error>,
    err: &mut E,
) {
    match status {
        0 if more.of_halts => tell_halted(rt, asked, err),
        1 if more.of_refusals => match system {
            Some(error) if is_busy(error) => explain_changed(err),
            _ => explain(rt, asked, system, err),
        },
        _ => {}
    }
}

/// Does what was asked for, if the device that is to be written is held, and says more of it as `more` asks. Answers the program's status. Before
/// that it refuses if standard output goes into the device or into the input, or if standard error may overwrite what a run prints.
fn answer_held<
    R: Files<File = F> + StandardStreams + AllocGlobal + Threads + Wait + Sync,
    F: FileExt + OpenFile + Drop + Send,
    S: Devices<Device = D, New = N>,
    D: Disk + Drop + Send,
    N: Disk + Drop,
    W: Watch,
    O: Write,
    E: Write,
>(rt: &R, devices: &mut S, watch: &mut W, asked: &Asked, more: More, out: &mut O, err: &mut E) -> u8
    ghost history: { History }
    requires range { IsInRange asked.now }
    requires held { HoldsWritten asked.now (S.held devices.old) }
    ensures few { result ≤ 2 }
    ensures used { UsedFor asked.now (S.uses devices.old) (S.uses devices.new) (O.contents out.old) (O.contents out.new) result }
    ensures answered { AnsweredHeld history asked.now (S.calls devices.old) (S.calls devices.new) (O.contents out.old) (O.contents out.new) result }
{
    if prints_into_device(rt, asked) {
        return refuse_output(err);
    }
    if prints_into_input(rt, asked) {
        return refuse_input(err);
    }
    if is_run_said_over(rt, asked) {
        return refuse_mixed(err);
    }
    let mut system = None;
    let status = carry_out(rt, devices, watch, asked, &mut system, out, err);
    say_more(rt, asked, more, status, system.as_ref(), err);
    status
}

/// Asks for the device that is to be written, if the command writes one. Fails if another process has it.
fn hold_written<S: Devices>(devices: &mut S, asked: &Asked) -> Result<(), InUse>
    ensures noted { S.calls devices.new ≡ S.calls devices.old ++ asking_for asked.now (is_ok result) }
    ensures got { OnOk result (HoldsWritten asked.now (S.held devices.new)) }
    ensures unused { S.uses devices.new ≡ S.uses devices.old }
{
    match asked {
        Asked::Format(new) => devices.hold(new.device.as_str(), new.wait_lock),
        Asked::Run(run) => devices.hold(run.device.as_str(), run.wait_lock),
        Asked::Compact { device, wait_lock } => devices.hold(device.as_str(), *wait_lock),
        Asked::Help(_)
        | Asked::Try { .. }
        | Asked::Trace(_)
        | Asked::TraceDevice { .. }
        | Asked::Recover { .. }
        | Asked::Show { .. }
        | Asked::Status { .. }
        | Asked::Check { .. }
        | Asked::View { .. } => Ok(()),
    }
}

/// Does what was asked for, as `answer_held` does. If another process has the device that is to be written, it refuses. Answers the program's status.
fn answer_asked<
    R: Files<File = F> + StandardStreams + AllocGlobal + Threads + Wait + Sync,
    F: FileExt + OpenFile + Drop + Send,
    S: Devices<Device = D, New = N>,
    D: Disk + Drop + Send,
    N: Disk + Drop,
    W: Watch,
    O: Write,
    E: Write,
>(rt: &R, devices: &mut S, watch: &mut W, asked: &Asked, more: More, out: &mut O, err: &mut E) -> u8
    ghost history: { History }
    requires { IsInRange asked.now }
    ensures few { result ≤ 2 }
    ensures used { UsedFor asked.now (S.uses devices.old) (S.uses devices.new) (O.contents out.old) (O.contents out.new) result }
    ensures answered { AnsweredAs history asked.now (S.calls devices.old) (S.calls devices.new) (O.contents out.old) (O.contents out.new) result }
{
    match hold_written(devices, asked) {
        Ok(()) => answer_held(rt, devices, watch, asked, more, out, err),
        Err(_in_use) => refuse_in_use(more.of_refusals, err),
    }
}

/// Does what a command asks for, and says more of it as `more` asks. Answers the program's status.
fn answer_command<
    R: Files<File = F> + StandardStreams + AllocGlobal + Threads + Wait + Sync,
    F: FileExt + OpenFile + Drop + Send,
    S: Devices<Device = D, New = N>,
    D: Disk + Drop + Send,
    N: Disk + Drop,
    W: Watch,
    I: Feed,
    O: Write,
    E: Write,
    V: Onlooker,
>(
    rt: &R,
    devices: &mut S,
    watch: &mut W,
    command: &Command,
    more: More,
    feed: &mut I,
    out: &mut O,
    err: &mut E,
    onlooker: &mut V,
) -> u8
    ghost history: { History }
    requires { IsCommandInRange command.now }
    ensures few { result ≤ most_status command.now }
    ensures used { CommandUsed command.now (S.uses devices.old) (S.uses devices.new) (O.contents out.old) (O.contents out.new) result }
    ensures done { CommandDone history (feed.new ≡ feed.old) command.now (S.calls devices.old) (S.calls devices.new) (O.contents out.old) (O.contents out.new) result }
{
    match command {
        Command::Stream(run) => {
            hold_and_stream(rt, devices, run, more.of_refusals, feed, out, err, onlooker)
        }
        Command::Stop(request) => answer_stop(rt, devices, request, more.of_refusals, out, err),
        Command::Backup(backup) => answer_backup(rt, devices, backup, more.of_refusals, out, err),
        Command::Other(asked) => answer_asked(rt, devices, watch, asked, more, out, err),
    }
}

/// Does what the words of a command line ask for; the first word is the program's name. It reads the words once. Answers the program's status: that
/// of the command, 3 if a stream ended because a node halted, or 2 if the words ask for nothing. In that last case it opens no file. Asking for help
/// is no fault.
///
/// - `devices` holds and opens a device that is written, and says whether another process has one whose stream is asked to stop.
/// - `watch` says who holds a device that `status` reads.
/// - `feed` is standard input, which only a stream reads.
/// - `onlooker` knows whether `err` is a terminal, and the time. On a terminal refusals are explained, unless `--no-explain` is typed.
pub fn answer_over<
    R: Files<File = F> + StandardStreams + AllocGlobal + Threads + Wait + Sync,
    F: FileExt + OpenFile + Drop + Send,
    S: Devices<Device = D, New = N>,
    D: Disk + Drop + Send,
    N: Disk + Drop,
    W: Watch,
    I: Feed,
    O: Write,
    E: Write,
    V: Onlooker,
>(
    rt: &R,
    devices: &mut S,
    watch: &mut W,
    words: &[String],
    feed: &mut I,
    out: &mut O,
    err: &mut E,
    onlooker: &mut V,
) -> u8
    ghost history: { History }
    ensures few { result ≤ 3 }
    ensures three { result ≡ 3 → has_word (codes "--stream") words.now ≡ true }
    ensures answered { Answered history (feed.new ≡ feed.old) words.now (S.calls devices.old) (S.calls devices.new) (S.uses devices.old) (S.uses devices.new) (O.contents out.old) (O.contents out.new) result }
{
    match CommandLine::read(rt.alloc(), words) {
        Ok(line) => {
            let more = line.explaining.more(onlooker.is_terminal());
            let command = &line.command;
            answer_command(rt, devices, watch, command, more, feed, out, err, onlooker)
        }
        Err(fault) => {
            let _ = write!(err, "{fault}");
            2
        }
    }
}
