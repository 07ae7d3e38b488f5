//! Takers of outputs that have gone.

ghost use Rattle.std.specs.Prelude.{None};

use crate::devices::{LETTERS, TWO, formatted};
use crate::players::{Asks, Pieces, QUIET, nobody, play};
use std::alloc::{AllocError, Global};
use std::process::Abort;
use std::sync::Wait;
use std::test::Fail;
use std::thread::Threads;
use tp_stream::{Ending, MemSink, Output, PutAt, Sink, SinkFault, Source, Streams, Task};

/// A sink that takes a number of pieces, and then its taker has gone.
#[derive(Drop)]
struct Leaving {
    bytes: Vec<u8>,
    pieces: u32,
}

impl Sink for Leaving {
    ghost held = { λ _. None };

    fn reach(&self) -> u64 {
        self.bytes.len() as u64
    }

    fn length(&self) -> Option<u64> {
        Some(self.bytes.len() as u64)
    }

    fn settle(&mut self) -> Result<(), SinkFault> {
        Ok(())
    }
}

impl PutAt for Leaving {
    fn put(&mut self, at: u64, bytes: &[u8]) -> Result<(), SinkFault> {
        if self.pieces == 0 {
            return Err(SinkFault::Gone);
        }
        self.pieces = self.pieces.saturating_sub(1);
        if self.bytes.len() as u64 != at || self.bytes.extend_from_slice(bytes).is_err() {
            return Err(SinkFault::Failed);
        }
        Ok(())
    }
}

/// A sink that takes that many pieces.
fn sink_of(alloc: Global, pieces: u32) -> Leaving {
    Leaving {
        bytes: Vec::new(alloc),
        pieces,
    }
}

/// The streams of two ports whose sinks take that many pieces.
fn two_leaving(
    alloc: Global,
    one: u32,
    other: u32,
) -> Result<Streams<Leaving, Pieces>, AllocError> {
    let mut outputs = Vec::new(alloc);
    outputs.push(Output::new(0, None, sink_of(alloc, one)))?;
    outputs.push(Output::new(1, None, sink_of(alloc, other)))?;
    let inputs = Vec::new(alloc);
    Ok(Streams { outputs, inputs })
}

/// A sink that has that many letters.
fn lettered(alloc: Global, count: u64) -> Result<MemSink, AllocError> {
    Ok(MemSink::new(Vec::from_elem(alloc, b'A', count as usize)?))
}

/// The streams of two ports whose sinks have that many letters.
fn two_lettered(
    alloc: Global,
    one: u64,
    other: u64,
) -> Result<Streams<MemSink, Pieces>, AllocError> {
    let mut outputs = Vec::new(alloc);
    for (port, count) in [(0u8, one), (1, other)] {
        outputs.push(Output::new(port, None, lettered(alloc, count)?))?;
    }
    let inputs = Vec::new(alloc);
    Ok(Streams { outputs, inputs })
}

/// Up to where the outputs of a port were put, and are confirmed.
fn ends_of<S: Sink, I: Source>(streams: &Streams<S, I>, port: u8) -> Option<(u64, u64)> {
    let output = streams.outputs.get(usize::from(port))?;
    Some((output.put(), output.confirmed()))
}

/// Up to where the outputs of two ports whose nodes send letters were put, if the stream ended since a taker has gone, and all that was put is
/// confirmed. The first port's sink takes `pieces` pieces, and the second one's stays.
fn leaves<R: Threads + Wait + Abort + Sync>(
    rt: &R,
    device: &mut Vec<u8>,
    pieces: u32,
) -> Result<Option<(u64, u64)>, AllocError>
where
    R: AllocGlobal,
{
    let alloc = rt.alloc();
    let task = Task {
        turns: Some(30_000),
        ..QUIET
    };
    let mut streams = two_leaving(alloc, pieces, u32::MAX)?;
    let done = play(
        rt,
        alloc,
        task,
        device,
        &mut streams,
        &mut nobody(),
        &mut Asks::behind(None),
    );
    let ends = (ends_of(&streams, 0), ends_of(&streams, 1));
    let is_over = matches!(done, Ok(ended) if ended.why == Ending::Gone);
    Ok(match ends {
        (Some(gone), Some(stays)) if is_over && gone.0 == gone.1 && stays.0 == stays.1 => {
            Some((gone.0, stays.0))
        }
        _ => None,
    })
}

/// Whether the next stream puts more after what was put before the sink that had gone.
fn goes_on<R: Threads + Wait + Abort + Sync>(
    rt: &R,
    device: &mut Vec<u8>,
    gone: u64,
    stays: u64,
) -> Result<bool, AllocError>
where
    R: AllocGlobal,
{
    let alloc = rt.alloc();
    let mut streams = two_lettered(alloc, gone, stays)?;
    let few = Task {
        turns: Some(30),
        ..QUIET
    };
    let done = play(
        rt,
        alloc,
        few,
        device,
        &mut streams,
        &mut nobody(),
        &mut Asks::behind(None),
    );
    let is_more = matches!(ends_of(&streams, 0), Some(ends) if ends.0 > gone);
    Ok(done.is_ok() && is_more)
}

/// Whether a stream ends once the taker of one of its sinks has gone with `pieces` pieces: all of them are confirmed and none more, and the other
/// sink's outputs are put and confirmed. What wasn't put comes in the next stream.
fn is_gone<R: Threads + Wait + Abort + Sync>(
    rt: &R,
    device: &mut Vec<u8>,
    pieces: u32,
) -> Result<bool, Fail>
where
    R: AllocGlobal,
{
    let Some((gone, stays)) = leaves(rt, device, pieces)? else {
        return Ok(false);
    };
    Ok(stays > 0 && goes_on(rt, device, gone, stays)?)
}

/// Whether such a stream ends so on a device that is freshly formatted.
fn is_gone_behind<R: Threads + Wait + Abort + Sync>(rt: &R, pieces: u32) -> Result<bool, Fail>
where
    R: AllocGlobal,
{
    let mut device = formatted(rt.alloc(), TWO, LETTERS, 65_536)?;
    let told = is_gone(rt, &mut device, pieces);
    told
}

#[test]
fn a_taker_that_has_gone_ends_a_stream(rt: HostRuntime) -> Result<(), Fail> {
    for pieces in [0u32, 1, 3] {
        assert!(rt; is_gone_behind(&rt, pieces)?);
    }
    Ok(())
}
