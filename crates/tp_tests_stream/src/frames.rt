//! Nodes that write more pages than they have spare frames for.

use crate::devices::{ECHO_WRITES, LARGE, formatted};
use crate::players::{Asks, QUIET, nobody, numbered, play, source_of};
use crate::waiting::{Answered, Asking};
use std::alloc::{AllocError, Global};
use std::cell::Cell;
use std::process::Abort;
use std::sync::Wait;
use std::test::Fail;
use std::thread::Threads;
use tp_stream::{Ending, Input, Output, Streams, Task};

/// The streams of a host that waits for each of its forty answers.
fn asking<'a>(
    alloc: Global,
    answers: &'a Cell<u64>,
) -> Result<Streams<Answered<'a>, Asking<'a>>, AllocError> {
    let asking = Asking::of(source_of(numbered(alloc, 40)?, 1), answers);
    let (mut outputs, mut inputs) = (Vec::new(alloc), Vec::new(alloc));
    inputs.push(Input::new(0, asking))?;
    outputs.push(Output::new(0, None, Answered::of(answers)))?;
    Ok(Streams { outputs, inputs })
}

/// Whether a host that waits for each of its answers gets forty of them from a node that writes pages before it answers. Without a
/// bound on turns the stream ends once the input has.
fn is_answered<R: Threads + Wait + Abort + Sync>(
    rt: &R,
    spare: u16,
    turns: Option<u32>,
    device: &mut Vec<u8>,
) -> Result<bool, AllocError>
where
    R: AllocGlobal,
{
    let alloc = rt.alloc();
    let answers = Cell::new(0);
    let mut streams = asking(alloc, &answers)?;
    let task = Task {
        turns,
        until_quiet: false,
        spare,
        every: Some(1),
        ..QUIET
    };
    let done = play(
        rt,
        alloc,
        task,
        device,
        &mut streams,
        &mut nobody(),
        &mut Asks::behind(None),
    );
    let wanted = if turns.is_none() {
        Ending::Gone
    } else {
        Ending::Turns
    };
    let is_ended = matches!(done, Ok(ended) if ended.why == wanted);
    Ok(answers.get() == 40 && is_ended)
}

/// Whether the host gets its answers on a device that is freshly formatted.
fn is_answered_with<R: Threads + Wait + Abort + Sync>(
    rt: &R,
    spare: u16,
    turns: Option<u32>,
) -> Result<bool, Fail>
where
    R: AllocGlobal,
{
    let mut device = formatted(rt.alloc(), LARGE, ECHO_WRITES, 65_536)?;
    let told = is_answered(rt, spare, turns, &mut device);
    Ok(told?)
}

#[test]
fn a_host_that_waits_for_each_answer_gets_all(rt: HostRuntime) -> Result<(), Fail> {
    for (spare, turns) in [(0, None), (4, None), (4, Some(20_000))] {
        assert!(rt; is_answered_with(&rt, spare, turns)?);
    }
    Ok(())
}
