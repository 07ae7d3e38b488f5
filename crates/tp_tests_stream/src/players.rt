//! Streams on a device in memory, and what is on the device then.

ghost use Rattle.std.specs.Prelude.{◌≡◌, ◌≤◌, true, None, length};
ghost use Rattle.tp_tests_stream.specs.Lower.{MAX_STEPS, Steps};

use crate::devices::formatted;
use std::alloc::{AllocError, Global};
use std::mem;
use std::process::Abort;
use std::sync::Wait;
use std::test::Fail;
use std::thread::Threads;
use tp_disk::{Disk, MemDisk};
use tp_model::Form;
use tp_recover::open;
use tp_stream::{
    Ended, Ending, Input, Listener, MemSink, Noted, Output, Progress, Source, SourceFailed, Stop,
    Stopped, StreamFault, Streams, Taker, Task, stream,
};

/// A task that ends once nothing is left to do.
pub(crate) const QUIET: Task = Task {
    turns: Some(1_000_000),
    until_quiet: true,
    stop_on_halt: false,
    until_asked: false,
    workers: 1,
    quantum: 64,
    spare: 4,
    every: None,
    tells: false,
};

/// A source whose bytes come a few at a time. Before each of the first `late` reads nothing has come yet.
#[derive(Drop)]
pub(crate) struct Pieces {
    pub(crate) bytes: Vec<u8>,
    pub(crate) most: usize,
    pub(crate) late: u32,
}

/// What is from a position on.
fn rest_from(bytes: &[u8], at: u64) -> &[u8] {
    if at < bytes.len() as u64 {
        &bytes[at as usize..]
    } else {
        &bytes[bytes.len()..]
    }
}

impl Source for Pieces {
    ghost input = { λ _. None };

    fn length(&self) -> Option<u64> {
        None
    }

    fn would_wait(&mut self, _at: u64, _millis: u64) -> bool {
        self.late > 0
    }

    fn read(&mut self, at: u64, out: &mut [u8]) -> Result<usize, SourceFailed> {
        self.late = self.late.saturating_sub(1);
        let rest = rest_from(&self.bytes, at);
        let count = rest.len().min(out.len()).min(self.most);
        out[..count].copy_from_slice(&rest[..count]);
        Ok(count)
    }
}

/// Who is told: it counts, and keeps how far the stream had come at last, how many turns were made at most since the time before, and how the first
/// nodes have stopped.
#[derive(Clone, Copy)]
pub(crate) struct Told {
    pub(crate) output: Option<u64>,
    pub(crate) input: Option<u64>,
    pub(crate) progress: u32,
    pub(crate) last: Option<Progress>,
    pub(crate) most_turns: u64,
    pub(crate) stopped: [Option<Stopped>; 2],
}

/// How many turns had been made when this was told.
fn turns_at(progress: Option<Progress>) -> u64 {
    match progress {
        Some(progress) => progress.turns,
        None => 0,
    }
}

impl Listener for Told {
    fn output(&mut self, _port: u8, position: u64) {
        self.output = Some(position);
    }

    fn input(&mut self, _port: u8, accepted: u64) {
        self.input = Some(accepted);
    }

    fn progress(&mut self, progress: Progress) {
        let more = progress.turns.saturating_sub(turns_at(self.last));
        self.progress = self.progress.saturating_add(1);
        self.most_turns = self.most_turns.max(more);
        self.last = Some(progress);
    }

    fn stopped(&mut self, node: u8, how: Stopped) {
        if usize::from(node) < 2 {
            self.stopped[usize::from(node)] = Some(how);
        }
    }
}

pub(crate) fn nobody() -> Told {
    Told {
        output: None,
        input: None,
        progress: 0,
        last: None,
        most_turns: 0,
        stopped: [None, None],
    }
}

/// Who asks a stream to stop: after that many looks that found nothing, and from then on; `None`: nobody does.
#[derive(Drop)]
pub(crate) struct Asks {
    behind: Option<u32>,
    noted: Noted,
}

impl Asks {
    pub(crate) fn behind(looks: Option<u32>) -> Asks {
        Asks {
            behind: looks,
            noted: Noted::new(),
        }
    }
}

impl Stop for Asks {
    ghost answers = { λ asks. asks.noted.told };

    fn is_asked(&mut self) -> bool {
        let answer = self.behind == Some(0);
        if let Some(looks) = self.behind {
            self.behind = Some(looks.saturating_sub(1));
        }
        self.noted = self.noted.answered(answer);
        answer
    }
}

/// The byte after another, if each differs from its neighbours.
fn number_after(number: u8) -> u8 {
    if number == 250 {
        0
    } else {
        number.wrapping_add(1)
    }
}

/// Bytes that differ from their neighbours.
pub(crate) fn numbered(alloc: Global, count: usize) -> Result<Vec<u8>, AllocError> {
    let (mut bytes, mut number) = (Vec::new(alloc), 0u8);
    for _ in 0..count {
        bytes.push(number)?;
        number = number_after(number);
    }
    Ok(bytes)
}

/// Whether these are the first such bytes.
pub(crate) fn are_numbered(bytes: &[u8]) -> bool {
    let mut number = 0u8;
    for byte in bytes {
        if *byte != number {
            return false;
        }
        number = number_after(number);
    }
    true
}

/// These bytes, as many at a time as `most` says.
pub(crate) fn source_of(bytes: Vec<u8>, most: usize) -> Pieces {
    Pieces {
        bytes,
        most,
        late: 1,
    }
}

/// The streams of a port: a sink, and this source as input.
fn streams(
    alloc: Global,
    sink: MemSink,
    source: Pieces,
) -> Result<Streams<MemSink, Pieces>, AllocError> {
    let (mut outputs, mut inputs) = (Vec::new(alloc), Vec::new(alloc));
    outputs.push(Output::new(0, None, sink))?;
    inputs.push(Input::new(0, source))?;
    Ok(Streams { outputs, inputs })
}

// A stream, if as many steps are asked for as may be.
fn play_within<
    D: Disk + Send + Drop,
    S: Taker<D>,
    I: Source,
    L: Listener,
    R: Threads + Wait + Sync,
>(
    rt: &R,
    alloc: Global,
    task: Task,
    disk: D,
    streams: &mut Streams<S, I>,
    told: &mut L,
    asks: &mut Asks,
) -> (D, Result<Ended, StreamFault>)
    requires quantum { task.quantum ≤ MAX_STEPS }
    requires allowed { Steps → D.writable ≡ true }
{
    stream(rt, alloc, task, disk, streams, told, asks)
}

/// A stream on a device: how it ended, and what a crash leaves then.
pub(crate) fn play_on<S: Taker<MemDisk>, I: Source, L: Listener, R: Threads + Wait + Abort + Sync>(
    rt: &R,
    alloc: Global,
    task: Task,
    disk: MemDisk,
    streams: &mut Streams<S, I>,
    told: &mut L,
    asks: &mut Asks,
) -> (Vec<u8>, Result<Ended, StreamFault>) {
    assert!(rt; task.quantum <= 4096);
    let (disk, done) = play_within(rt, alloc, task, disk, streams, told, asks);
    (disk.crash(), done)
}

/// A stream on the device with these bytes, which are then what a crash leaves.
pub(crate) fn play<S: Taker<MemDisk>, I: Source, L: Listener, R: Threads + Wait + Abort + Sync>(
    rt: &R,
    alloc: Global,
    task: Task,
    device: &mut Vec<u8>,
    streams: &mut Streams<S, I>,
    told: &mut L,
    asks: &mut Asks,
) -> Result<Ended, StreamFault> {
    let disk = MemDisk::of_bytes(mem::replace(device, Vec::new(alloc)));
    let (left, done) = play_on(rt, alloc, task, disk, streams, told, asks);
    *device = left;
    done
}

/// What a device opens to: the number of the next entry, the generation of its area and its form, and how many entries its cut holds.
#[derive(Clone, Copy)]
pub(crate) struct Left {
    pub(crate) next: u64,
    pub(crate) generation: u64,
    pub(crate) form: Form,
    pub(crate) base: u64,
}

pub(crate) fn look_at(alloc: Global, disk: &mut MemDisk) -> Result<Left, Fail> {
    let opened = open(alloc, disk)?;
    Ok(Left {
        next: opened.next(),
        generation: opened.generation(),
        form: opened.form(),
        base: opened.base(),
    })
}

/// What the device with these bytes opens to.
pub(crate) fn look(alloc: Global, device: &mut Vec<u8>) -> Result<Left, Fail> {
    let mut disk = MemDisk::of_bytes(mem::replace(device, Vec::new(alloc)));
    let look = look_at(alloc, &mut disk);
    *device = disk.crash();
    look
}

/// A device, and the sink of its only port.
#[derive(Drop)]
pub(crate) struct Desk {
    pub(crate) device: Vec<u8>,
    pub(crate) sink: MemSink,
}

impl Desk {
    /// A device that is freshly formatted, and an empty sink.
    pub(crate) fn fresh(alloc: Global, text: &[u8], code: &[u8], area: u32) -> Result<Desk, Fail> {
        let device = formatted(alloc, text, code, area)?;
        Ok(Desk {
            device,
            sink: MemSink::empty(alloc),
        })
    }
}

/// What a stream on a desk is asked: its task, after how many calls of the sink one fails, how many numbered bytes its source has, how many come at a
/// time, and how many reads come before they do; and after how many checks it is asked to stop.
#[derive(Clone, Copy)]
pub(crate) struct Asked {
    pub(crate) task: Task,
    pub(crate) fails: Option<u32>,
    pub(crate) input: usize,
    pub(crate) most: usize,
    pub(crate) late: u32,
    pub(crate) looks: Option<u32>,
}

/// No input, until nothing is left to do.
pub(crate) const NO_INPUT: Asked = Asked {
    task: QUIET,
    fails: None,
    input: 0,
    most: 1,
    late: 1,
    looks: None,
};

/// What came of a stream on a desk: how it ended, up to where its output was put, and what was told.
#[derive(Clone, Copy)]
pub(crate) struct Played {
    pub(crate) done: Result<Ended, StreamFault>,
    pub(crate) put: u64,
    pub(crate) told: Told,
}

impl Played {
    /// Why it ended, if it was done.
    pub(crate) fn why(self) -> Option<Ending> {
        match self.done {
            Ok(ended) => Some(ended.why),
            Err(_) => None,
        }
    }

    /// The number that the next entry gets, if it was done.
    pub(crate) fn next(self) -> Option<u64> {
        match self.done {
            Ok(ended) => Some(ended.next),
            Err(_) => None,
        }
    }
}

/// The sink of the only output, and up to where it was put.
pub(crate) fn sink_of(alloc: Global, streams: Streams<MemSink, Pieces>) -> (u64, MemSink) {
    let Streams { outputs, .. } = streams;
    let mut outputs = outputs;
    match outputs.pop() {
        Some(output) => (output.put(), output.into_sink()),
        None => (0, MemSink::empty(alloc)),
    }
}

/// This sink, if one of its calls fails after that many.
fn failing(sink: MemSink, fails: Option<u32>) -> MemSink {
    match fails {
        Some(calls) => sink.failing(calls),
        None => sink,
    }
}

/// A stream on a desk.
pub(crate) fn play_desk<R: Threads + Wait + Abort + Sync>(
    rt: &R,
    asked: Asked,
    desk: &mut Desk,
) -> Result<Played, Fail>
where
    R: AllocGlobal,
{
    let alloc = rt.alloc();
    let mut source = source_of(numbered(alloc, asked.input)?, asked.most);
    source.late = asked.late;
    let sink = mem::replace(&mut desk.sink, MemSink::empty(alloc));
    let sink = failing(sink, asked.fails);
    let mut streams = streams(alloc, sink, source)?;
    let mut told = nobody();
    let done = play(
        rt,
        alloc,
        asked.task,
        &mut desk.device,
        &mut streams,
        &mut told,
        &mut Asks::behind(asked.looks),
    );
    let (put, sink) = sink_of(alloc, streams);
    desk.sink = sink;
    Ok(Played { done, put, told })
}
