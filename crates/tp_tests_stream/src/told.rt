//! Streams that are told how far they have come, also while they wait for input.

ghost use Rattle.std.specs.Prelude.{None};

use crate::devices::{ECHO, ONE, formatted};
use crate::players::{Asks, QUIET, Told, look, nobody, play};
use std::alloc::{AllocError, Global};
use std::process::Abort;
use std::sync::Wait;
use std::test::Fail;
use std::thread::Threads;
use tp_stream::{Ended, Input, MemSink, Output, Source, SourceFailed, StreamFault, Streams, Task};

/// How many times it is asked whether the input has come, until it has. A question that waits for it doesn't count.
const QUESTIONS: u32 = 40;

/// An input of one byte, which comes once it was asked for often enough. A read before, which would wait for ever, fails.
#[derive(Drop)]
struct Late {
    questions: u32,
}

impl Source for Late {
    ghost input = { λ _. None };

    fn length(&self) -> Option<u64> {
        None
    }

    fn would_wait(&mut self, _at: u64, millis: u64) -> bool {
        let waits = self.questions > 0;
        if millis == 0 {
            self.questions = self.questions.saturating_sub(1);
        }
        waits
    }

    fn read(&mut self, at: u64, out: &mut [u8]) -> Result<usize, SourceFailed> {
        if self.questions > 0 {
            return Err(SourceFailed);
        }
        if at > 0 || out.is_empty() {
            return Ok(0);
        }
        out[0] = 65;
        Ok(1)
    }
}

/// The streams of a port whose input is late.
fn late_streams(alloc: Global) -> Result<Streams<MemSink, Late>, AllocError> {
    let (mut outputs, mut inputs) = (Vec::new(alloc), Vec::new(alloc));
    outputs.push(Output::new(0, None, MemSink::empty(alloc)))?;
    inputs.push(Input::new(
        0,
        Late {
            questions: QUESTIONS,
        },
    ))?;
    Ok(Streams { outputs, inputs })
}

/// How a stream of such a port ended until nothing was left to do, and what was told.
fn ended<R: Threads + Wait + Abort + Sync>(
    rt: &R,
    tells: bool,
    device: &mut Vec<u8>,
) -> Result<(Result<Ended, StreamFault>, Told), Fail>
where
    R: AllocGlobal,
{
    let alloc = rt.alloc();
    let mut streams = late_streams(alloc)?;
    let mut told = nobody();
    let task = Task { tells, ..QUIET };
    let done = play(
        rt,
        alloc,
        task,
        device,
        &mut streams,
        &mut told,
        &mut Asks::behind(None),
    );
    Ok((done, told))
}

/// Whether a stream that is told waits in no read, and is told each time that it checks for input, and at last what the device then opens to, without
/// a checkpoint. One that isn't told is told nothing, and waits in a read.
fn is_told<R: Threads + Wait + Abort + Sync>(rt: &R, device: &mut Vec<u8>) -> Result<bool, Fail>
where
    R: AllocGlobal,
{
    let (failed, nothing) = ended(rt, false, device)?;
    let begun = look(rt.alloc(), device)?;
    let (done, told) = ended(rt, true, device)?;
    let left = look(rt.alloc(), device)?;
    let is_last = match told.last {
        Some(last) => {
            last.next == left.next
                && last.mark == left.next
                && last.generation == left.generation
                && left.generation == begun.generation
                && last.put[0] == Some(1)
                && last.put[1] == None
        }
        None => false,
    };
    let is_silent = failed == Err(StreamFault::InputFailed(0)) && nothing.progress == 0;
    Ok(is_silent && done.is_ok() && told.progress > QUESTIONS / 2 && is_last)
}

#[test]
fn a_stream_that_waits_is_told(rt: HostRuntime) -> Result<(), Fail> {
    let mut device = formatted(rt.alloc(), ONE, ECHO, 65_536)?;
    let told = is_told(&rt, &mut device)?;
    assert!(rt; told);
    Ok(())
}
