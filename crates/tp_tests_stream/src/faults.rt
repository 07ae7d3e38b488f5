//! Sinks that fail.

use crate::devices::{ECHO, ONE};
use crate::players::{Asked, Desk, NO_INPUT, Played, are_numbered, look, play_desk};
use std::process::Abort;
use std::sync::Wait;
use std::test::Fail;
use std::thread::Threads;
use tp_stream::StreamFault;

/// How many bytes go through.
const COUNT: usize = 40;

/// They are handed in, five at a time, and one call of the sink fails after `calls`.
fn handed(calls: u32) -> Asked {
    Asked {
        fails: Some(calls),
        input: COUNT,
        most: 5,
        ..NO_INPUT
    }
}

/// Plays a stream with a sink whose call fails. None if it ends otherwise than it may, or nothing is journalled.
fn play_fault<R: Threads + Wait + Abort + Sync>(
    rt: &R,
    desk: &mut Desk,
    calls: u32,
) -> Result<Option<Played>, Fail>
where
    R: AllocGlobal,
{
    let played = play_desk(rt, handed(calls), desk)?;
    let left = look(rt.alloc(), &mut desk.device)?;
    let is_failed = played.done == Err(StreamFault::OutputFailed(0));
    Ok(if left.next > 0 && (played.done.is_ok() || is_failed) {
        Some(played)
    } else {
        None
    })
}

/// Whether the next stream, with that sink, puts all the rest, if the first `safe` bytes were put and were safe: no more than those
/// were confirmed.
fn goes_on<R: Threads + Wait + Abort + Sync>(
    rt: &R,
    desk: &mut Desk,
    safe: u64,
) -> Result<bool, Fail>
where
    R: AllocGlobal,
{
    let played = play_desk(rt, handed(u32::MAX), desk)?;
    let is_safe = matches!(played.told.output, Some(confirmed) if confirmed <= safe);
    let bytes = desk.sink.bytes();
    Ok(played.done.is_ok() && is_safe && bytes.len() == COUNT && are_numbered(bytes))
}

/// Whether no more is confirmed than was put before a call fails and was safe, and the next stream puts all the rest: `None` if that is false, and
/// else whether a call failed.
fn is_failed<R: Threads + Wait + Abort + Sync>(
    rt: &R,
    desk: &mut Desk,
    calls: u32,
) -> Result<Option<bool>, Fail>
where
    R: AllocGlobal,
{
    let Some(played) = play_fault(rt, desk, calls)? else {
        return Ok(None);
    };
    let goes_on = goes_on(rt, desk, played.put)?;
    Ok(if goes_on {
        Some(played.done.is_err())
    } else {
        None
    })
}

/// What becomes of a call that fails on a device that is freshly formatted.
fn is_failed_at<R: Threads + Wait + Abort + Sync>(rt: &R, calls: u32) -> Result<Option<bool>, Fail>
where
    R: AllocGlobal,
{
    let mut desk = Desk::fresh(rt.alloc(), ONE, ECHO, 16_384)?;
    let told = is_failed(rt, &mut desk, calls);
    told
}

/// Of how many numbers of calls one fails. None if something doesn't go on as it should.
fn count_failed<R: Threads + Wait + Abort + Sync>(rt: &R) -> Result<Option<u32>, Fail>
where
    R: AllocGlobal,
{
    let mut failed = 0u32;
    for calls in 0..24 {
        match is_failed_at(rt, calls)? {
            Some(true) => failed = failed.saturating_add(1),
            Some(false) => {}
            None => return Ok(None),
        }
    }
    Ok(Some(failed))
}

#[test]
fn any_call_of_a_sink_may_fail(rt: HostRuntime) -> Result<(), Fail> {
    assert!(rt; matches!(count_failed(&rt)?, Some(failed) if failed > 8));
    Ok(())
}
