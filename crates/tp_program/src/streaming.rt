//! `tpnet run --stream`, over any device.

ghost use Rattle.std.specs.Prelude.{◌≡◌, ◌≤◌, true, Err, IfErr, IfOk, IsErr, OnOk, map, string_bytes};
ghost use Rattle.tp_program.specs.Lower.{AreTrue, Began, verdict, MAX_STEPS, LeavesNothingNew, Unopened, History, HaveOwnPaths, IsAsked, StaysUnstreamed, StreamedInto, IsStreamRun, given_input, inputs_named, named_input, outputs_named, path_from, Steps};
ghost use Rattle.tp_program.specs.Streaming.{IsOfEnds, IsUnopened, FindsNothingNew, OnOpened, StreamedOn, end_line, end_status, ending_status, fault_status, seconds_of, shown_on, spread_over, stream_status, task_of};

use crate::numbers::processors_of;
use crate::request_file::RequestFile;
use crate::stop_file::{StopFault, StopFile, first_fault, places_fault, report_stop};
use std::fs::{Files, OpenFile};
use std::io::Write;
use std::os::unix::fs::FileExt;
use std::sync::Wait;
use std::thread::Threads;
use std::{fmt, thread};
use tp_disk::Disk;
use tp_stream::{Ended, Ending, Sink, Source, StreamFault, Streams, Taker, Task, stream};
use tp_stream_files::{
    AnySink, AnySource, EndFault, Feed, Onlooker, Output, OutsideFile, StandardStreams, Teller,
    open_ends, say_end,
};
use tp_words::StreamRun;

/// After how many seconds the stream tells again how far it has come, if no number was typed.
const SECONDS_TOLD: u32 = 10;

/// How many threads make turns at most, if no number was typed.
const MOST_WORKERS: usize = 4;

/// Why a stream on files ends early.
#[derive(Clone, Copy)]
pub enum FilesFault {
    /// An output or input isn't opened. The device is as it was.
    End(EndFault),
    /// The stop file can't be used, or the stream can't be asked to stop. The device is as it was.
    Stop(StopFault),
    /// The stream ended early.
    Stream(StreamFault),
}

/// What came of a stream, and the program's status.
#[derive(Clone, Copy)]
pub struct Streamed {
    pub status: u8,
    pub done: Result<Ended, FilesFault>,
}

/// Gives the task of a stream. It may always be asked to stop, whatever was typed. If more frames were typed than any node has, the number is the
/// greatest of its kind.
#[tactic(auto, unfolding(tp_words::specs::StreamArgs::IsStreamRun))]
fn task_of(asked: &StreamRun) -> Task
    requires { IsStreamRun asked.now }
    ensures value { result ≡ task_of asked.now }
    ensures quantum { result.quantum ≤ MAX_STEPS }
{
    Task {
        turns: asked.turns,
        until_quiet: asked.until_quiet,
        stop_on_halt: asked.stop_on_halt,
        until_asked: true,
        workers: match asked.workers {
            Some(workers) => workers as u8,
            None => 0,
        },
        quantum: asked.quantum,
        spare: asked.spare.min(u16::MAX as u64) as u16,
        every: asked.every,
        tells: asked.has_progress || asked.progress_every.is_some(),
    }
}

/// Gives the task with progress told, if standard error may be a terminal, whatever was typed.
fn shown_on(task: Task, on_terminal: bool) -> Task
    requires { task.quantum ≤ MAX_STEPS }
    ensures value { result ≡ shown_on on_terminal task }
    ensures quantum { result.quantum ≤ MAX_STEPS }
{
    Task {
        tells: task.tells || on_terminal,
        ..task
    }
}

/// Gives the task with as many threads as there are processors, up to [`MOST_WORKERS`], if no number was typed.
fn spread_over(task: Task, processors: usize) -> Task
    requires { task.quantum ≤ MAX_STEPS }
    ensures value { result ≡ spread_over processors task }
    ensures quantum { result.quantum ≤ MAX_STEPS }
{
    let workers = if task.workers == 0 {
        processors.min(MOST_WORKERS) as u8
    } else {
        task.workers
    };
    Task { workers, ..task }
}

/// After how many seconds the stream tells again how far it has come.
fn seconds_of(asked: &StreamRun) -> u32
    ensures { result ≡ seconds_of asked.now }
{
    match asked.progress_every {
        Some(seconds) => seconds,
        None => SECONDS_TOLD,
    }
}

/// The line that says why a port's output or input isn't opened.
#[derive(Clone, Copy)]
struct EndLine(EndFault);

impl fmt::Display for EndLine {
    ghost output = { λ line. end_line line.0 };

    fn fmt<W: fmt::Write>(&self, f: &mut fmt::Formatter<W>) -> fmt::Result {
        match self.0 {
            EndFault::SameFile(port) => write!(
                f,
                "tpnet: --out {port} goes into the file of the device, an input, another port or standard error: give it one of its own\n"
            ),
            EndFault::Twice(port) => write!(
                f,
                "tpnet: port {port} and another one have the same end\n"
            ),
            fault => write!(f, "tpnet: {fault}\n"),
        }
    }
}

/// Gives the status of a stream whose outputs and inputs can't be opened.
fn end_status(fault: EndFault) -> u8
    ensures value { result ≡ end_status fault }
    ensures few { result ≤ 2 }
{
    match fault {
        EndFault::SameFile(_) | EndFault::Twice(_) => 2,
        EndFault::ReadFailed(_) | EndFault::DeviceFailed(_) | EndFault::Memory => 1,
    }
}

/// Says why a port's output or input isn't opened. Answers the status. Ignores a failed write.
fn report_end<E: Write>(err: &mut E, fault: EndFault) -> u8
    ensures value { result ≡ end_status fault }
    ensures few { result ≤ 2 }
{
    let line = EndLine(fault);
    let _ = write!(err, "{line}");
    end_status(fault)
}

/// Says why a stream was refused. Answers the status.
fn report_fault<E: Write>(err: &mut E, fault: StreamFault) -> u8
    ensures value { result ≡ fault_status fault }
    ensures few { result ≤ 2 }
{
    match fault {
        StreamFault::Spare => {
            let _ = write!(
                err,
                "tpnet: --spare is above the pages of a node; see tpnet node\n"
            );
            2
        }
        StreamFault::Port(port) => {
            let _ = write!(
                err,
                "tpnet: the device has no port {port}; see tpnet show\n"
            );
            2
        }
        StreamFault::Unnamed(port) => {
            let _ = write!(
                err,
                "tpnet: port {port} has a wire: say --out {port}=FILE, --out {port}=- or --discard {port}\n"
            );
            2
        }
        _ => {
            let _ = write!(err, "tpnet: {fault}\n");
            1
        }
    }
}

/// Gives the status of a stream that was done: 3 if a node has halted, else 0.
fn ending_status(why: Ending) -> u8
    ensures value { result ≡ ending_status why }
    ensures few { result ≤ 3 }
{
    match why {
        Ending::Quiet | Ending::Turns | Ending::Gone | Ending::Stopped => 0,
        Ending::Halted => 3,
    }
}

/// Says why a stream ended early. If it was done, it has said so itself. Answers the status. Ignores a failed write.
fn report<E: Write>(err: &mut E, done: Result<Ended, FilesFault>) -> u8
    ensures value { result ≡ stream_status done }
    ensures few { result ≤ 3 }
{
    match done {
        Ok(ended) => ending_status(ended.why),
        Err(FilesFault::End(fault)) => report_end(err, fault),
        Err(FilesFault::Stop(fault)) => report_stop(err, fault),
        Err(FilesFault::Stream(fault)) => report_fault(err, fault),
    }
}

/// Says how far a stream came that was done, and why it ended.
fn say_done<S: Sink, E: Write>(
    err: &mut E,
    done: Result<Ended, StreamFault>,
    standard_out: Option<u8>,
    outputs: &[Output<S>],
) {
    if let Ok(ended) = done {
        say_end(err, ended, standard_out, outputs);
    }
}

/// Makes a stream over outputs and inputs that are open. It tells `err` where standard output and standard input begin, how far the stream has come,
/// and at the end each node that has stopped. Then it tells `next M`, how much standard output was given and how much of that is confirmed, and why
/// the stream ended.
#[inline(never)]
fn stream_opened<
    R: Files + AllocGlobal + Threads + Wait + Sync,
    D: Disk + Drop + Send,
    S: Taker<D>,
    I: Source,
    E: Write,
    W: Onlooker,
>(
    rt: &R,
    asked: &StreamRun,
    request: &RequestFile,
    disk: D,
    streams: &mut Streams<S, I>,
    err: &mut E,
    onlooker: &mut W,
) -> (D, Result<Ended, StreamFault>)
    ghost history: { History }
    requires range { IsStreamRun asked.now }
    requires allowed { Steps → D.writable ≡ true }
    ensures size { D.size_of result.0 ≡ D.size_of disk }
    ensures streamed { AreTrue (D.reads result.0) → Began history.formatted history.before (D.state disk).now.bytes
        → StreamedInto history.formatted (map (λ i. given_input i.port (I.input i.source)) streams.old.inputs.items) result.1 streams.old.outputs.items streams.new.outputs.items (D.state disk) (D.state result.0) }
    ensures unwritten { StaysUnstreamed result.1 → LeavesNothingNew (D.state disk) (D.state result.0) }
    ensures unopened { AreTrue (D.reads result.0) → IsErr (verdict (D.state disk).now.bytes) → (unopened : Unopened) × (result.1 ≡ Err (StreamFault.Opening unopened)) }
    ensures why { IfOk result.1 (λ ended. IsAsked (task_of asked.now) ended.why) }
{
    let shown = shown_on(task_of(asked), onlooker.is_terminal());
    let task = spread_over(shown, processors_of(thread::available_parallelism(rt)));
    let standard_out = asked.ends.standard_out();
    let standard_in = asked.ends.standard_in();
    let seconds = seconds_of(asked);
    let mut teller = Teller::new(
        rt.alloc(),
        err,
        onlooker,
        standard_out,
        standard_in,
        seconds,
    );
    let mut stop = StopFile::new(rt, request, &asked.stop_file);
    let (disk, done) = stream(rt, rt.alloc(), task, disk, streams, &mut teller, &mut stop);
    teller.end();
    say_done(err, done, standard_out, &streams.outputs);
    (disk, done)
}

/// Opens the outputs and inputs of a device's ports. It checks the stop file and the request file before and after, since one of the files that it
/// makes may be one of these two.
#[inline(never)]
fn open_ports<
    'a,
    R: Files<File = F> + StandardStreams + AllocGlobal,
    F: FileExt + OpenFile + Drop + Send,
    I: Feed,
    O: Write,
>(
    rt: &R,
    asked: &StreamRun,
    request: &RequestFile,
    feed: &'a mut I,
    out: &'a mut O,
) -> Result<Streams<AnySink<'a, OutsideFile<F>, O>, AnySource<'a, OutsideFile<F>, I>>, FilesFault>
    ensures fault { IfErr result IsOfEnds }
    ensures outputs { IfOk result (λ streams. streams.outputs.items ≡ outputs_named asked.now.ends) }
    ensures inputs { IfOk result (λ streams. map (λ i. named_input i.port (path_from (λ file. file.trace.told) i.source)) streams.inputs.items ≡ inputs_named asked.now.ends) }
    ensures own { OnOk result (HaveOwnPaths (string_bytes asked.now.device) asked.now.ends.outs.items asked.now.ends.ins.items) }
{
    if let Some(fault) = first_fault(rt, asked, request) {
        return Err(FilesFault::Stop(fault));
    }
    let streams = match open_ends(rt, asked.device.as_str(), &asked.ends, feed, out) {
        Ok(streams) => streams,
        Err(fault) => return Err(FilesFault::End(fault)),
    };
    match places_fault(rt, asked, request) {
        Some(fault) => Err(FilesFault::Stop(fault)),
        None => Ok(streams),
    }
}

/// Opens the outputs and inputs of a device's ports, and makes a stream over them. In the end it removes a request to stop, whatever the reason was:
/// the request was for this process, which holds the device.
fn stream_files<
    R: Files<File = F> + StandardStreams + AllocGlobal + Threads + Wait + Sync,
    F: FileExt + OpenFile + Drop + Send,
    D: Disk + Drop + Send,
    I: Feed,
    O: Write,
    E: Write,
    W: Onlooker,
>(
    rt: &R,
    asked: &StreamRun,
    disk: D,
    feed: &mut I,
    out: &mut O,
    err: &mut E,
    onlooker: &mut W,
) -> (D, Result<Ended, FilesFault>)
    ghost history: { History }
    requires range { IsStreamRun asked.now }
    requires allowed { Steps → D.writable ≡ true }
    ensures size { D.size_of result.0 ≡ D.size_of disk }
    ensures streamed { AreTrue (D.reads result.0) → Began history.formatted history.before (D.state disk).now.bytes
        → StreamedOn history.formatted asked.now.ends result.1 (D.state disk) (D.state result.0) }
    ensures unwritten { FindsNothingNew result.1 (D.state disk) (D.state result.0) }
    ensures unopened { AreTrue (D.reads result.0) → IsErr (verdict (D.state disk).now.bytes) → IsUnopened result.1 }
    ensures why { IfOk result.1 (λ ended. IsAsked (task_of asked.now) ended.why) }
    ensures own { OnOpened result.1 (HaveOwnPaths (string_bytes asked.now.device) asked.now.ends.outs.items asked.now.ends.ins.items) }
{
    let Ok(request) = RequestFile::of(rt.alloc(), asked.device.as_str()) else {
        return (disk, Err(FilesFault::End(EndFault::Memory)));
    };
    let mut streams = match open_ports(rt, asked, &request, feed, out) {
        Ok(streams) => streams,
        Err(fault) => return (disk, Err(fault)),
    };
    let (disk, done) = stream_opened(rt, asked, &request, disk, &mut streams, err, onlooker);
    let _gone = request.clear(rt);
    match done {
        Ok(ended) => (disk, Ok(ended)),
        Err(fault) => (disk, Err(FilesFault::Stream(fault))),
    }
}

/// `tpnet run --stream`, on a device. It opens the outputs and inputs of its ports, and lets its network run. What ports show is put, made safe and
/// confirmed as it comes, until the stream is over as the task says. Answers the device, the program's status, and what came of the stream.
pub fn stream_on<
    R: Files<File = F> + StandardStreams + AllocGlobal + Threads + Wait + Sync,
    F: FileExt + OpenFile + Drop + Send,
    D: Disk + Drop + Send,
    I: Feed,
    O: Write,
    E: Write,
    W: Onlooker,
>(
    rt: &R,
    asked: &StreamRun,
    disk: D,
    feed: &mut I,
    out: &mut O,
    err: &mut E,
    onlooker: &mut W,
) -> (D, Streamed)
    ghost history: { History }
    requires range { IsStreamRun asked.now }
    requires allowed { Steps → D.writable ≡ true }
    ensures status { result.1.status ≡ stream_status result.1.done }
    ensures few { result.1.status ≤ 3 }
    ensures size { D.size_of result.0 ≡ D.size_of disk }
    ensures streamed { AreTrue (D.reads result.0) → Began history.formatted history.before (D.state disk).now.bytes
        → StreamedOn history.formatted asked.now.ends result.1.done (D.state disk) (D.state result.0) }
    ensures unwritten { FindsNothingNew result.1.done (D.state disk) (D.state result.0) }
    ensures unopened { AreTrue (D.reads result.0) → IsErr (verdict (D.state disk).now.bytes) → IsUnopened result.1.done }
    ensures why { IfOk result.1.done (λ ended. IsAsked (task_of asked.now) ended.why) }
    ensures own { OnOpened result.1.done (HaveOwnPaths (string_bytes asked.now.device) asked.now.ends.outs.items asked.now.ends.ins.items) }
{
    let (disk, done) = stream_files(rt, asked, disk, feed, out, err, onlooker);
    let status = report(err, done);
    (disk, Streamed { status, done })
}
