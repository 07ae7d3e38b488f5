//! Streams one after another on one device, and what is wanted of each.

use crate::devices::formatted_from;
use crate::players::{
    Asked, Desk, Left, NO_INPUT, Played, are_numbered, look, numbered, play_desk,
};
use std::alloc::{AllocError, Global};
use std::process::Abort;
use std::sync::Wait;
use std::test::Fail;
use std::thread::Threads;
use tp_stream::{Ending, MemSink, Stopped, StreamFault};

/// Whether all bytes are that one.
fn are_all(bytes: &[u8], wanted: u8) -> bool {
    for byte in bytes {
        if *byte != wanted {
            return false;
        }
    }
    true
}

/// The bytes of a sink: `least` at least, and `most` at most. All are `all`; or, if that is none, they are the first numbered ones.
#[derive(Clone, Copy)]
pub(crate) struct Bytes {
    pub(crate) all: Option<u8>,
    pub(crate) least: usize,
    pub(crate) most: usize,
}

/// No byte.
pub(crate) const EMPTY: Bytes = Bytes {
    all: None,
    least: 0,
    most: 0,
};

impl Bytes {
    /// As many as there may be.
    fn made(self, alloc: Global) -> Result<Vec<u8>, AllocError> {
        match self.all {
            Some(byte) => Vec::from_elem(alloc, byte, self.most),
            None => numbered(alloc, self.most),
        }
    }

    /// Whether bytes are so.
    fn are(self, bytes: &[u8]) -> bool {
        if bytes.len() < self.least || bytes.len() > self.most {
            return false;
        }
        match self.all {
            Some(byte) => are_all(bytes, byte),
            None => are_numbered(bytes),
        }
    }
}

/// A stream, and what is wanted of it.
#[derive(Clone, Copy)]
pub(crate) struct Step {
    /// What is asked of it.
    pub(crate) asked: Asked,
    /// The sink's bytes before it, if they aren't those that were there.
    pub(crate) front: Option<Bytes>,
    /// Why it ends, if that is checked.
    pub(crate) why: Option<Ending>,
    /// How it is refused.
    pub(crate) fault: Option<StreamFault>,
    /// What the sink has then, if that is checked.
    pub(crate) then: Option<Bytes>,
    /// From where on its output is put, and its input is handed in, if that is checked.
    pub(crate) begins: Option<u64>,
    /// How the only node has stopped that has.
    pub(crate) stopped: Option<Stopped>,
    /// How often it is told at least how far the stream has come, and how many turns may be made between two times at most.
    pub(crate) told: u32,
    pub(crate) turns: [u64; 2],
    /// Which generations the device may open with, and which number its next entry has at least and at most.
    pub(crate) generations: [u64; 2],
    pub(crate) next: [u64; 2],
}

/// An empty sink, and no input, until nothing is left to do; it checks only that the step is done, and stops no node.
pub(crate) const PLAIN: Step = Step {
    asked: NO_INPUT,
    front: Some(EMPTY),
    why: None,
    fault: None,
    then: None,
    begins: None,
    stopped: None,
    told: 0,
    turns: [0, u64::MAX],
    generations: [1, u64::MAX],
    next: [0, u64::MAX],
};

impl Step {
    /// Whether a stream ended as wanted.
    fn is_ended(&self, played: &Played) -> bool {
        let is_why = self.why.is_none() || played.why() == self.why;
        let [first, second] = played.told.stopped;
        is_why && played.done.err() == self.fault && first == self.stopped && second.is_none()
    }

    /// Whether it was told as wanted at which positions the output and input of its port begin, and how far it has come.
    fn is_told(&self, played: &Played) -> bool {
        let told = played.told;
        let is_begun = told.output == self.begins && told.input == self.begins;
        let [least, most] = self.turns;
        let are_turns = least <= told.most_turns && told.most_turns <= most;
        are_turns && told.progress >= self.told && (is_begun || self.begins.is_none())
    }

    /// Whether it left a device that opens as wanted. If the stream was done, the next number is the one that it answered.
    fn is_left(&self, played: &Played, left: &Left) -> bool {
        let is_next = match played.next() {
            Some(next) => next == left.next,
            None => true,
        };
        let [first, last] = self.next;
        let [least, most] = self.generations;
        let are_entries = first <= left.next && left.next <= last;
        is_next && are_entries && least <= left.generation && left.generation <= most
    }

    /// Whether it left a sink that has these bytes.
    fn is_put(&self, bytes: &[u8]) -> bool {
        match self.then {
            Some(wanted) => wanted.are(bytes),
            None => true,
        }
    }
}

/// Whether a stream goes as its step says.
pub(crate) fn is_step<R: Threads + Wait + Abort + Sync>(
    rt: &R,
    step: &Step,
    desk: &mut Desk,
) -> Result<bool, Fail>
where
    R: AllocGlobal,
{
    if let Some(front) = step.front {
        desk.sink = MemSink::new(front.made(rt.alloc())?);
    }
    let played = play_desk(rt, step.asked, desk)?;
    let left = look(rt.alloc(), &mut desk.device)?;
    let is_so = step.is_ended(&played) && step.is_told(&played);
    Ok(is_so && step.is_left(&played, &left) && step.is_put(desk.sink.bytes()))
}

/// Whether all go so, one after another.
fn are_steps<R: Threads + Wait + Abort + Sync>(
    rt: &R,
    steps: &[Step],
    desk: &mut Desk,
) -> Result<bool, Fail>
where
    R: AllocGlobal,
{
    for step in steps {
        if !is_step(rt, step, desk)? {
            return Ok(false);
        }
    }
    Ok(true)
}

/// A device that is freshly formatted: its network, the code of each node, how many bytes after the others the first one begins, and how
/// many bytes an area has.
#[derive(Clone, Copy)]
pub(crate) struct Fresh {
    pub(crate) text: &'static [u8],
    pub(crate) code: &'static [u8],
    pub(crate) begin: u8,
    pub(crate) area: u32,
}

/// Whether all go so on a device of their own.
pub(crate) fn are_steps_on<R: Threads + Wait + Abort + Sync>(
    rt: &R,
    fresh: Fresh,
    steps: &[Step],
) -> Result<bool, Fail>
where
    R: AllocGlobal,
{
    let Fresh {
        text,
        code,
        begin,
        area,
    } = fresh;
    let device = formatted_from(rt.alloc(), text, code, begin, area)?;
    let mut desk = Desk {
        device,
        sink: MemSink::empty(rt.alloc()),
    };
    let told = are_steps(rt, steps, &mut desk);
    told
}
