//! Streams that are asked to stop.

use crate::devices::{DEAF, ECHO, LETTERS, ONE};
use crate::players::{Asked, Desk, NO_INPUT, Played, QUIET, look, play_desk};
use crate::steps::{EMPTY, Fresh, PLAIN, Step, are_steps_on};
use std::process::Abort;
use std::sync::Wait;
use std::test::Fail;
use std::thread::Threads;
use tp_stream::{Ending, Task};

/// A stream that ends once it is asked to, and else not.
const ASKED: Asked = Asked {
    task: Task {
        turns: None,
        until_quiet: false,
        until_asked: true,
        ..QUIET
    },
    looks: Some(0),
    ..NO_INPUT
};

/// How many turns are made between two checks.
const ROUND: u32 = 1024;

/// A stream that was asked to stop, and has put nothing.
const STOPPED: Step = Step {
    asked: ASKED,
    why: Some(Ending::Stopped),
    then: Some(EMPTY),
    ..PLAIN
};

/// A device of a node with this code.
fn fresh(code: &'static [u8]) -> Fresh {
    Fresh {
        text: ONE,
        code,
        begin: 0,
        area: 1_048_576,
    }
}

/// A stream on a device that is freshly formatted, and the number of the next entry that the device opens with.
#[derive(Clone, Copy)]
struct Seen {
    played: Played,
    next: u64,
    put: usize,
}

fn see_on<R: Threads + Wait + Abort + Sync>(
    rt: &R,
    asked: Asked,
    desk: &mut Desk,
) -> Result<Seen, Fail>
where
    R: AllocGlobal,
{
    let played = play_desk(rt, asked, desk)?;
    let left = look(rt.alloc(), &mut desk.device)?;
    Ok(Seen {
        played,
        next: left.next,
        put: desk.sink.bytes().len(),
    })
}

fn see<R: Threads + Wait + Abort + Sync>(rt: &R, code: &[u8], asked: Asked) -> Result<Seen, Fail>
where
    R: AllocGlobal,
{
    let mut desk = Desk::fresh(rt.alloc(), ONE, code, 1_048_576)?;
    let seen = see_on(rt, asked, &mut desk);
    seen
}

/// If something is there at the first check, no turn is made.
#[test]
fn a_stream_that_is_asked_at_once_makes_no_turn(rt: HostRuntime) -> Result<(), Fail> {
    let step = Step {
        next: [0, 0],
        ..STOPPED
    };
    assert!(rt; are_steps_on(&rt, fresh(LETTERS), &[step])?);
    Ok(())
}

/// Whether a stream that is asked after `looks` looks leaves what one leaves that makes as many rounds of turns.
fn is_stopped_behind<R: Threads + Wait + Abort + Sync>(rt: &R, looks: u32) -> Result<bool, Fail>
where
    R: AllocGlobal,
{
    let asked = see(
        rt,
        LETTERS,
        Asked {
            looks: Some(looks),
            ..ASKED
        },
    )?;
    let bounded = Asked {
        task: Task {
            turns: Some(looks.saturating_mul(ROUND)),
            ..QUIET
        },
        ..NO_INPUT
    };
    let wanted = see(rt, LETTERS, bounded)?;
    let is_same = asked.next == wanted.next && asked.put == wanted.put;
    let is_stored = asked.played.next() == Some(asked.next);
    let is_told = asked.played.why() == Some(Ending::Stopped)
        && wanted.played.why() == Some(Ending::Turns);
    Ok(asked.put > 100 && is_same && is_stored && is_told)
}

/// After a check that answers yes no turn is made, and all that was made is stored, put and confirmed, as after the last turn of a bound.
#[test]
fn no_turn_is_made_behind_a_yes(rt: HostRuntime) -> Result<(), Fail> {
    for looks in [1u32, 2, 3] {
        assert!(rt; is_stopped_behind(&rt, looks)?);
    }
    Ok(())
}

/// A stream that waits for input is asked, too: nothing is settled meanwhile, and the node's turns are those until it waits.
#[test]
fn a_stream_that_waits_for_input_stops(rt: HostRuntime) -> Result<(), Fail> {
    for (code, looks) in [(ECHO, 5u32), (DEAF, 9)] {
        let step = Step {
            asked: Asked {
                input: 3,
                late: u32::MAX,
                looks: Some(looks),
                ..ASKED
            },
            generations: [1, 1],
            next: [1, 1],
            ..STOPPED
        };
        assert!(rt; are_steps_on(&rt, fresh(code), &[step])?);
    }
    Ok(())
}

/// A stream that isn't to end so isn't asked, and one that is asked to stop says so, whatever else would have ended it.
#[test]
fn a_stop_is_told_where_it_was_to_end_so(rt: HostRuntime) -> Result<(), Fail> {
    for (until_asked, why) in [(false, Ending::Turns), (true, Ending::Stopped)] {
        let task = Task {
            turns: Some(0),
            until_asked,
            ..QUIET
        };
        let step = Step {
            asked: Asked { task, ..ASKED },
            why: Some(why),
            ..PLAIN
        };
        assert!(rt; are_steps_on(&rt, fresh(LETTERS), &[step])?);
    }
    Ok(())
}
