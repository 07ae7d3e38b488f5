//! Streams that are done.

use crate::devices::{ECHO, LETTERS, ONE};
use crate::players::{Asked, Desk, NO_INPUT, QUIET};
use crate::steps::{Bytes, Fresh, PLAIN, Step, are_steps_on, is_step};
use std::process::Abort;
use std::sync::Wait;
use std::test::Fail;
use std::thread::Threads;
use tp_stream::{Ending, Task};

/// How many bytes a long input has: far more than a port holds.
const LONG: usize = 6000;

/// A device of a node that gives back what it takes.
const ECHOES: Fresh = Fresh {
    text: ONE,
    code: ECHO,
    begin: 0,
    area: 16_384,
};

/// A long input comes back, from its first byte on, in an area that is switched again and again.
const COMES_BACK: Step = Step {
    asked: Asked {
        input: LONG,
        ..NO_INPUT
    },
    then: Some(Bytes {
        all: None,
        least: LONG,
        most: LONG,
    }),
    begins: Some(0),
    generations: [3, u64::MAX],
    ..PLAIN
};

/// Far more bytes than a port holds, in pieces of different sizes, by one worker and by more: all come back.
#[test]
fn a_long_input_comes_back(rt: HostRuntime) -> Result<(), Fail> {
    for (workers, most, area) in [
        (1u8, 4096usize, 65_536u32),
        (1, 7, 16_384),
        (3, 4096, 65_536),
    ] {
        let step = Step {
            asked: Asked {
                task: Task { workers, ..QUIET },
                most,
                ..COMES_BACK.asked
            },
            ..COMES_BACK
        };
        let fresh = Fresh { area, ..ECHOES };
        assert!(rt; are_steps_on(&rt, fresh, &[step])?, "{workers} workers");
    }
    Ok(())
}

/// How many bytes go through in processes of few turns that are each handed all of them, and how many processes there are.
const FEW: usize = 300;

const PROCESSES: u32 = 60;

/// A process of fifty turns, which puts nothing but what is wanted.
const GOES_ON: Step = Step {
    asked: Asked {
        task: Task {
            turns: Some(50),
            ..QUIET
        },
        input: FEW,
        most: 100,
        ..NO_INPUT
    },
    front: None,
    then: Some(Bytes {
        all: None,
        least: 0,
        most: FEW,
    }),
    ..PLAIN
};

/// Whether all such processes go so, and all is put then.
fn all_go_on<R: Threads + Wait + Abort + Sync>(rt: &R, desk: &mut Desk) -> Result<bool, Fail>
where
    R: AllocGlobal,
{
    for _ in 0..PROCESSES {
        if !is_step(rt, &GOES_ON, desk)? {
            return Ok(false);
        }
    }
    Ok(desk.sink.bytes().len() == FEW)
}

/// Turn by turn, each in a process of its own: what was put before is skipped, and so is what was accepted.
#[test]
fn few_turns_at_a_time_come_to_the_same(rt: HostRuntime) -> Result<(), Fail> {
    let mut desk = Desk::fresh(rt.alloc(), ONE, ECHO, 16_384)?;
    let told = all_go_on(&rt, &mut desk)?;
    assert!(rt; told);
    Ok(())
}

/// A network that never rests ends with its turns, is told of on the way, and puts its letters.
const RUNS_OUT: Step = Step {
    asked: Asked {
        task: Task {
            turns: Some(5000),
            tells: true,
            ..QUIET
        },
        ..NO_INPUT
    },
    why: Some(Ending::Turns),
    then: Some(Bytes {
        all: Some(b'A'),
        least: 1001,
        most: usize::MAX,
    }),
    told: 3,
    ..PLAIN
};

#[test]
fn turns_run_out(rt: HostRuntime) -> Result<(), Fail> {
    let fresh = Fresh {
        code: LETTERS,
        begin: 0,
        area: 65_536,
        ..ECHOES
    };
    assert!(rt; are_steps_on(&rt, fresh, &[RUNS_OUT])?);
    Ok(())
}
