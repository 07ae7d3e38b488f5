//! Streams whose turns are worth threads: workers make them in shifts, with the flusher beside them.

use crate::devices::{CHAIN, COUNTS, NUMBERS, ONE};
use crate::players::{Asked, NO_INPUT, QUIET};
use crate::steps::{Bytes, Fresh, PLAIN, Step, are_steps_on};
use std::test::Fail;
use tp_stream::{Ending, Task};

/// How many turns are made at most between two times that it is told how far the stream has come, if no workers make any.
const ROUND: u64 = 1024;

/// A stream: the network, how many workers there are, how many steps a turn may run, and whether shifts come.
struct Row {
    text: &'static [u8],
    workers: u8,
    quantum: u16,
    has_shifts: bool,
}

/// Three nodes that compute side by side, and three workers.
const SIDE_BY_SIDE: Row = Row {
    text: CHAIN,
    workers: 3,
    quantum: 256,
    has_shifts: true,
};

/// A node that computes, and the host: as many workers as processes.
const ALONE: Row = Row {
    text: ONE,
    workers: 3,
    quantum: 320,
    has_shifts: true,
};

/// Turns that are too short for threads by one step of each node's, and others; three nodes that compute side by side, and one worker. In a
/// round of node and host each node's turn runs as many steps as it may: 160 in the mean with 320, and fewer with 319.
const ROWS: &[Row] = &[
    Row {
        text: ONE,
        workers: 3,
        quantum: 319,
        has_shifts: false,
    },
    ALONE,
    SIDE_BY_SIDE,
    Row {
        text: CHAIN,
        workers: 1,
        quantum: 256,
        has_shifts: false,
    },
    Row {
        text: CHAIN,
        workers: 16,
        quantum: 256,
        has_shifts: true,
    },
];

/// The first node sends two numbers, and both are put. The stream is told, so it reads no input that hasn't come: that there is none can be read from
/// the start.
const COUNTED: Step = Step {
    asked: Asked {
        late: 0,
        ..NO_INPUT
    },
    why: Some(Ending::Quiet),
    then: Some(Bytes {
        all: None,
        least: 2,
        most: 2,
    }),
    ..PLAIN
};

/// The stream of a row: more turns are made between two of its cycles than a round has just if shifts are to come.
fn step_of(row: &Row) -> Step {
    let task = Task {
        workers: row.workers,
        quantum: row.quantum,
        tells: true,
        ..QUIET
    };
    Step {
        asked: Asked {
            task,
            ..COUNTED.asked
        },
        turns: if row.has_shifts {
            [ROUND + 1, u64::MAX]
        } else {
            [0, ROUND]
        },
        ..COUNTED
    }
}

/// If turns have 160 steps on average in a round, and more than one worker is asked for, workers make turns between two cycles; the output is that of
/// one worker.
#[test]
fn workers_make_the_turns_that_are_worth_it(rt: HostRuntime) -> Result<(), Fail> {
    for row in ROWS {
        let fresh = Fresh {
            text: row.text,
            code: COUNTS,
            begin: NUMBERS,
            area: 1_048_576,
        };
        assert!(rt;
            are_steps_on(&rt, fresh, &[step_of(row)])?,
            "{} workers, {} steps",
            row.workers,
            row.quantum
        );
    }
    Ok(())
}

/// How many turns are made at most in the next test: those of a round, and fewer in the shift after it than it has room for. There is more to do
/// than that: each of three nodes counts for 768 turns at first.
const BOUND: u64 = 2124;

/// How many entries these make at least: one for each turn of a node, which are three of four in the round, and in the shift every second turn or
/// more, since the host waits after a node that waits.
const ENTRIES: u64 = 1300;

/// A round and one shift make just the turns that were asked for: no more entries than one for each turn, and no fewer than nodes make.
#[test]
fn a_shift_keeps_the_bound_of_turns(rt: HostRuntime) -> Result<(), Fail> {
    let step = step_of(&SIDE_BY_SIDE);
    let task = Task {
        turns: Some(BOUND as u32),
        ..step.asked.task
    };
    let step = Step {
        asked: Asked { task, ..step.asked },
        why: Some(Ending::Turns),
        then: None,
        turns: [BOUND, BOUND],
        next: [ENTRIES, BOUND],
        ..step
    };
    let fresh = Fresh {
        text: CHAIN,
        code: COUNTS,
        begin: NUMBERS,
        area: 1_048_576,
    };
    assert!(rt; are_steps_on(&rt, fresh, &[step])?);
    Ok(())
}

/// A node that computes, and the host, if a round leaves some hundred turns of the node's: 512 of its turns have 328,704 of the 393,276 steps that it
/// needs for its two numbers.
const NEARLY: Row = Row {
    text: ONE,
    workers: 3,
    quantum: 642,
    has_shifts: true,
};

/// More turns than are made until nothing is left to do, and no more than a round and a shift of its two workers have. A shift ends unless at most
/// four turns in a row have nothing to do. So after the first round fewer than a thousand are made, in whatever order threads come, and no more than
/// a thousand in the last one.
const AMPLE: u32 = 3000;

/// A shift that ends since nothing is left to do counts the turns that were made, and not those that it had: the bound isn't reached, and the stream
/// ends as quiet.
#[test]
fn turns_that_nobody_made_are_none(rt: HostRuntime) -> Result<(), Fail> {
    let step = step_of(&NEARLY);
    let task = Task {
        turns: Some(AMPLE),
        ..step.asked.task
    };
    let step = Step {
        asked: Asked { task, ..step.asked },
        ..step
    };
    let fresh = Fresh {
        text: ONE,
        code: COUNTS,
        begin: NUMBERS,
        area: 1_048_576,
    };
    assert!(rt; are_steps_on(&rt, fresh, &[step])?);
    Ok(())
}
