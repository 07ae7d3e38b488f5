//! Why streams end, and which nodes have stopped then.

ghost use Rattle.std.specs.Prelude.{None};

use crate::devices::{DEAF, ECHO, HALTS, LETTERS, ONE, TWO, formatted};
use crate::players::{Asked, Asks, NO_INPUT, QUIET, nobody, play};
use crate::steps::{Fresh, PLAIN, Step, are_steps_on};
use std::alloc::{AllocError, Global};
use std::process::Abort;
use std::sync::Wait;
use std::test::Fail;
use std::thread::Threads;
use tp_model::Fault;
use tp_stream::{Ending, Input, MemSink, Output, Source, SourceFailed, Stopped, Streams, Task};

/// A node's code, how many bytes its port is handed, how the stream is asked to end, why it ends, and how the node has stopped.
#[derive(Clone, Copy)]
struct Row {
    code: &'static [u8],
    input: usize,
    turns: Option<u32>,
    until_quiet: bool,
    stop_on_halt: bool,
    why: Ending,
    stopped: Option<Stopped>,
}

/// A node that halts, at its third byte.
const HALTED: Option<Stopped> = Some(Stopped::Halted {
    fault: Fault::UnknownOp,
    at: 0x8000_0102,
});

const ROW: Row = Row {
    code: ECHO,
    input: 5,
    turns: None,
    until_quiet: false,
    stop_on_halt: false,
    why: Ending::Gone,
    stopped: None,
};

const ROWS: &[Row] = &[
    Row { ..ROW },
    Row { input: 0, ..ROW },
    Row {
        until_quiet: true,
        why: Ending::Quiet,
        ..ROW
    },
    Row {
        turns: Some(300),
        why: Ending::Turns,
        ..ROW
    },
    Row {
        code: LETTERS,
        turns: Some(300),
        until_quiet: true,
        stop_on_halt: true,
        why: Ending::Turns,
        ..ROW
    },
    Row {
        code: HALTS,
        stop_on_halt: true,
        why: Ending::Halted,
        stopped: HALTED,
        ..ROW
    },
    Row {
        code: HALTS,
        until_quiet: true,
        why: Ending::Quiet,
        stopped: HALTED,
        ..ROW
    },
    Row {
        code: HALTS,
        turns: Some(300),
        why: Ending::Turns,
        stopped: HALTED,
        ..ROW
    },
    Row {
        code: DEAF,
        until_quiet: true,
        stop_on_halt: true,
        why: Ending::Quiet,
        stopped: Some(Stopped::Waits),
        ..ROW
    },
    Row {
        code: DEAF,
        input: 5000,
        stopped: Some(Stopped::Waits),
        ..ROW
    },
    Row {
        code: DEAF,
        input: 5000,
        until_quiet: true,
        why: Ending::Quiet,
        stopped: Some(Stopped::Waits),
        ..ROW
    },
    Row {
        code: DEAF,
        input: 0,
        ..ROW
    },
    Row {
        code: DEAF,
        turns: Some(300),
        why: Ending::Turns,
        ..ROW
    },
];

/// A row's stream, with an empty sink.
fn step_of(row: &Row) -> Step {
    let task = Task {
        turns: row.turns,
        until_quiet: row.until_quiet,
        stop_on_halt: row.stop_on_halt,
        ..QUIET
    };
    Step {
        asked: Asked {
            task,
            input: row.input,
            most: 4096,
            ..NO_INPUT
        },
        why: Some(row.why),
        stopped: row.stopped,
        ..PLAIN
    }
}

/// A device of a node with this code.
fn fresh(code: &'static [u8]) -> Fresh {
    Fresh {
        text: ONE,
        code,
        begin: 0,
        area: 262_144,
    }
}

#[test]
fn streams_say_why_they_end(rt: HostRuntime) -> Result<(), Fail> {
    for row in ROWS {
        assert!(rt; are_steps_on(&rt, fresh(row.code), &[step_of(row)])?);
    }
    Ok(())
}

/// A stream of a node that halts, which goes on until its input has gone.
const GOES_ON: Row = Row {
    code: HALTS,
    input: 0,
    stopped: HALTED,
    ..ROW
};

/// One that is to end once a node has halted, and before any turn.
const HALTS_AT_ONCE: Row = Row {
    stop_on_halt: true,
    until_quiet: false,
    turns: Some(0),
    why: Ending::Halted,
    ..GOES_ON
};

/// One that is to end if nothing is left to do, too.
const HALTS_OR_RESTS: Row = Row {
    until_quiet: true,
    ..HALTS_AT_ONCE
};

/// A node that has halted before ends the next stream too that is to end so, and is told again.
#[test]
fn a_node_that_halted_before_ends_a_stream(rt: HostRuntime) -> Result<(), Fail> {
    let steps = [
        step_of(&GOES_ON),
        step_of(&HALTS_AT_ONCE),
        step_of(&HALTS_OR_RESTS),
    ];
    assert!(rt; are_steps_on(&rt, fresh(HALTS), &steps)?);
    Ok(())
}

/// An input of `has` bytes, after which nothing comes and nothing ends. A read there, which would wait for ever, fails.
#[derive(Drop)]
struct Silent {
    has: u64,
}

impl Source for Silent {
    ghost input = { λ _. None };

    fn length(&self) -> Option<u64> {
        None
    }

    fn would_wait(&mut self, at: u64, _millis: u64) -> bool {
        at >= self.has
    }

    fn read(&mut self, at: u64, out: &mut [u8]) -> Result<usize, SourceFailed> {
        if at >= self.has {
            return Err(SourceFailed);
        }
        let count = out.len().min((self.has - at) as usize);
        out[..count].fill(65);
        Ok(count)
    }
}

/// The streams of a port whose input falls silent.
fn silent_streams(alloc: Global, has: u64) -> Result<Streams<MemSink, Silent>, AllocError> {
    let (mut outputs, mut inputs) = (Vec::new(alloc), Vec::new(alloc));
    outputs.push(Output::new(0, None, MemSink::empty(alloc)))?;
    inputs.push(Input::new(0, Silent { has }))?;
    Ok(Streams { outputs, inputs })
}

/// The streams of two ports. The input of the first one has as many bytes as its port holds, and that of the second one none yet.
fn full_and_late_streams(alloc: Global) -> Result<Streams<MemSink, Silent>, AllocError> {
    let mut streams = silent_streams(alloc, 4_096)?;
    streams
        .outputs
        .push(Output::new(1, None, MemSink::empty(alloc)))?;
    streams.inputs.push(Input::new(1, Silent { has: 0 }))?;
    Ok(streams)
}

/// Whether a stream of nodes that take nothing ends for this reason, if its inputs fall silent and it is asked to stop in the end.
fn ends_silently<R: Threads + Wait + Abort + Sync>(
    rt: &R,
    text: &[u8],
    streams: &mut Streams<MemSink, Silent>,
    until_quiet: bool,
    why: Ending,
) -> Result<bool, Fail>
where
    R: AllocGlobal,
{
    let alloc = rt.alloc();
    let task = Task {
        turns: None,
        until_quiet,
        until_asked: true,
        ..QUIET
    };
    let mut device = formatted(alloc, text, DEAF, 262_144)?;
    let mut asks = Asks::behind(Some(LOOKS));
    let done = play(
        rt,
        alloc,
        task,
        &mut device,
        streams,
        &mut nobody(),
        &mut asks,
    );
    Ok(matches!(done, Ok(ended) if ended.why == why))
}

/// After how many looks it is asked to stop: more than a stream makes before it rests.
const LOOKS: u32 = 200;

/// How many bytes an input has before it falls silent, whether the stream ends if all is quiet, and why it does.
const SILENT: &[(u64, bool, Ending)] = &[
    (4_095, true, Ending::Stopped),
    (4_096, true, Ending::Quiet),
    (4_096, false, Ending::Gone),
    (4_097, true, Ending::Quiet),
];

/// A full port has nothing left to wait for, even if nothing says whether its input goes on.
#[test]
fn a_full_port_waits_for_no_input(rt: HostRuntime) -> Result<(), Fail> {
    for (has, until_quiet, why) in SILENT {
        let mut streams = silent_streams(rt.alloc(), *has)?;
        assert!(rt; ends_silently(&rt, ONE, &mut streams, *until_quiet, *why)?);
    }
    Ok(())
}

/// An input that is late is waited for though that of another port, before it, has nothing more to give.
#[test]
fn a_late_input_is_waited_for_beside_a_full_port(rt: HostRuntime) -> Result<(), Fail> {
    let mut streams = full_and_late_streams(rt.alloc())?;
    assert!(rt; ends_silently(&rt, TWO, &mut streams, true, Ending::Stopped)?);
    Ok(())
}
