//! What a teller says by time of how far a stream has come, at times and of numbers that it is given.

use crate::files::Lent;
use std::alloc::{AllocError, Global};
use std::io;
use std::io::{ErrorKind, Write};
use std::test::Fail;
use tp_stream_files::{
    AnySink, Ended, Ending, Listener, Onlooker, Output, Progress, PutAt, Sink, SinkFault, Stopped,
    Teller, Times, say_end,
};

/// How far a stream has come at a time in milliseconds, with the first two outputs.
struct Row {
    at: u64,
    next: u64,
    mark: u64,
    used: u64,
    generation: u64,
    turns: u64,
    first: Option<u64>,
    second: Option<u64>,
}

/// Lines begin with the first row. They are due a second, two, one and a half, and a second and a millisecond later. They aren't due a millisecond
/// before, nor if the clock went back or stands still. Only the last rows have the second output.
const ROWS: &[Row] = &[
    Row {
        at: 1000,
        next: 10,
        mark: 10,
        used: 1,
        generation: 1,
        turns: 100,
        first: Some(5),
        second: None,
    },
    Row {
        at: 1999,
        next: 29,
        mark: 27,
        used: 2,
        generation: 1,
        turns: 150,
        first: Some(8),
        second: None,
    },
    Row {
        at: 2000,
        next: 30,
        mark: 28,
        used: 3,
        generation: 1,
        turns: 160,
        first: Some(9),
        second: None,
    },
    Row {
        at: 4000,
        next: 33,
        mark: 33,
        used: 0,
        generation: 2,
        turns: 1160,
        first: Some(9),
        second: None,
    },
    Row {
        at: 900,
        next: 33,
        mark: 33,
        used: 0,
        generation: 2,
        turns: 1161,
        first: Some(9),
        second: None,
    },
    Row {
        at: 5500,
        next: 33,
        mark: 33,
        used: 0,
        generation: 2,
        turns: 1163,
        first: Some(9),
        second: Some(7),
    },
    Row {
        at: 6501,
        next: 34,
        mark: 33,
        used: 1,
        generation: 2,
        turns: 2164,
        first: Some(9),
        second: Some(1008),
    },
    Row {
        at: 6501,
        next: 35,
        mark: 35,
        used: 1,
        generation: 2,
        turns: 2165,
        first: Some(9),
        second: Some(1009),
    },
];

/// The lines, each without an end.
const LINES: &[&str] = &[
    "next 30 +20/s mark 28 area 3% generation 1 turns 160 +60/s out 0 9 +4/s",
    "next 33 +1/s mark 33 area 0% generation 2 turns 1160 +500/s out 0 9 +0/s",
    "next 33 +0/s mark 33 area 0% generation 2 turns 1163 +2/s out 0 9 +0/s out 1 7",
    "next 34 +0/s mark 33 area 1% generation 2 turns 2164 +1000/s out 0 9 +0/s out 1 1008 +1000/s",
];

/// A writer: it says of its first writes that they failed so, and takes at most that many bytes of each other one.
#[derive(Drop)]
pub(crate) struct Taker {
    pub(crate) bytes: Vec<u8>,
    pub(crate) failed: u32,
    pub(crate) how: ErrorKind,
    pub(crate) most: usize,
}

impl Write for Taker {
    fn write(&mut self, buf: &[u8]) -> io::Result<usize> {
        if self.failed > 0 {
            self.failed = self.failed.saturating_sub(1);
            return Err(io::Error::from(self.how));
        }
        let count = buf.len().min(self.most);
        self.bytes.extend_from_slice(&buf[..count])?;
        Ok(count)
    }

    fn flush(&mut self) -> io::Result<()> {
        Ok(())
    }
}

/// Who reads the lines: whether there is a terminal, whether standard output is one, too, and whether a port's output goes there; how the first
/// writes fail, and how many bytes each other one takes. And from which line on they are said, and whether each is written over the one before it.
struct Case {
    is_terminal: bool,
    is_output_terminal: bool,
    out: Option<u8>,
    failed: u32,
    how: ErrorKind,
    most: usize,
    from: usize,
    is_over: bool,
}

/// A writer that takes all, and is no terminal.
const PLAIN: Case = Case {
    is_terminal: false,
    is_output_terminal: false,
    out: None,
    failed: 0,
    how: ErrorKind::BrokenPipe,
    most: 4096,
    from: 0,
    is_over: false,
};

/// Lines are written over each other on a terminal, but if a port's output is between them. One that isn't taken counts as said, and
/// one that is taken byte by byte, after interrupts, is whole.
const CASES: &[Case] = &[
    PLAIN,
    Case {
        is_terminal: true,
        is_over: true,
        ..PLAIN
    },
    Case {
        is_terminal: true,
        is_output_terminal: true,
        is_over: true,
        ..PLAIN
    },
    Case {
        is_terminal: true,
        out: Some(1),
        is_over: true,
        ..PLAIN
    },
    Case {
        is_terminal: true,
        is_output_terminal: true,
        out: Some(1),
        ..PLAIN
    },
    Case {
        is_output_terminal: true,
        out: Some(1),
        ..PLAIN
    },
    Case {
        failed: 1,
        from: 1,
        ..PLAIN
    },
    Case {
        failed: 2,
        from: 2,
        ..PLAIN
    },
    Case {
        failed: 3,
        how: ErrorKind::Interrupted,
        most: 1,
        ..PLAIN
    },
    Case {
        failed: 1,
        is_terminal: true,
        from: 1,
        is_over: true,
        ..PLAIN
    },
];

/// Who asks, at the times of the rows, in order; at one of them, if there is one, what was said before isn't taken.
#[derive(Drop)]
struct Script {
    asked: usize,
    untaken: Option<usize>,
    is_terminal: bool,
    is_output_terminal: bool,
    times: Times,
}

impl Onlooker for Script {
    ghost times = { λ script. script.times.told };

    ghost terminal = { λ script. script.is_terminal };

    ghost output_terminal = { λ script. script.is_output_terminal };

    fn now(&mut self) -> Option<u64> {
        let now = match ROWS.get(self.asked) {
            Some(row) if self.untaken != Some(self.asked) => Some(row.at),
            _ => None,
        };
        self.asked = self.asked.saturating_add(1);
        self.times = self.times.answered(now);
        now
    }

    fn is_terminal(&self) -> bool {
        self.is_terminal
    }

    fn is_output_terminal(&self) -> bool {
        self.is_output_terminal
    }
}

fn progress_of(row: &Row) -> Progress {
    let mut put = [None; 8];
    put[0] = row.first;
    put[1] = row.second;
    Progress {
        next: row.next,
        mark: row.mark,
        used: row.used,
        generation: row.generation,
        turns: row.turns,
        put,
    }
}

/// What is said each second of the rows, and of a node after them. At row `untaken` what was said before isn't taken.
fn said(alloc: Global, case: &Case, untaken: Option<usize>) -> Vec<u8> {
    let mut err = Taker {
        bytes: Vec::new(alloc),
        failed: case.failed,
        how: case.how,
        most: case.most,
    };
    let mut script = Script {
        asked: 0,
        untaken,
        is_terminal: case.is_terminal,
        is_output_terminal: case.is_output_terminal,
        times: Times::new(),
    };
    let mut teller = Teller::new(alloc, &mut err, &mut script, case.out, None, 1);
    for row in ROWS {
        teller.progress(progress_of(row));
    }
    teller.stopped(0, Stopped::Waits);
    teller.end();
    err.bytes
}

/// What is to be said then.
fn wanted(alloc: Global, case: &Case) -> Result<String, AllocError> {
    let (start, end) = if case.is_over {
        ("\r\x1b[?7l", "\x1b[K\x1b[?7h")
    } else {
        ("", "\n")
    };
    let mut text = String::new(alloc);
    for line in LINES.iter().skip(case.from) {
        text.push_str(start)?;
        text.push_str(line)?;
        text.push_str(end)?;
    }
    let end = if case.is_over {
        "\nwaits 0\n"
    } else {
        "waits 0\n"
    };
    text.push_str(end)?;
    Ok(text)
}

#[test]
fn lines_are_due_by_time(rt: HostRuntime) -> Result<(), Fail> {
    for case in CASES {
        let text = wanted(rt.alloc(), case)?;
        assert!(rt; said(rt.alloc(), case, None).as_slice() == text.as_bytes());
    }
    Ok(())
}

/// The line that was due at the third row isn't said, and the next one says by how much a second all grew since the first row: 23 entries,
/// 1,060 turns and 4 bytes in 3 seconds.
const LINES_LEFT: &[u8] =
    b"next 33 +7/s mark 33 area 0% generation 2 turns 1160 +353/s out 0 9 +1/s\n\
    next 33 +0/s mark 33 area 0% generation 2 turns 1163 +2/s out 0 9 +0/s out 1 7\n\
    next 34 +0/s mark 33 area 1% generation 2 turns 2164 +1000/s out 0 9 +0/s out 1 1008 +1000/s\n\
    waits 0\n";

/// A line that is due while what was said before isn't taken is left out; what comes at the end isn't.
#[test]
fn lines_are_left_out_where_nothing_is_taken(rt: HostRuntime) {
    assert!(rt; said(rt.alloc(), &PLAIN, Some(2)).as_slice() == LINES_LEFT);
}

/// A port's output that is dropped.
type Away<'a> = Output<AnySink<'a, Lent<'a>, Taker>>;

/// Of two outputs the one on standard output is told: up to where it was put, and up to where that is confirmed.
#[test]
fn an_end_says_what_is_written_and_what_confirmed(rt: HostRuntime) -> Result<(), Fail> {
    let alloc = rt.alloc();
    let mut first: Away<'_> = Output::new(0, None, AnySink::Nothing);
    let mut second: Away<'_> = Output::new(1, None, AnySink::Nothing);
    first.set(1, 2);
    second.set(3, 5);
    let mut err = Taker {
        bytes: Vec::new(alloc),
        failed: 0,
        how: ErrorKind::BrokenPipe,
        most: 4096,
    };
    let ended = Ended {
        next: 42,
        why: Ending::Turns,
    };
    say_end(&mut err, ended, Some(1), &[first, second]);
    assert!(rt; err.bytes.as_slice() == b"next 42 written 5 confirmed 3 turns\n".as_slice());
    Ok(())
}

/// Standard output that takes nothing, and tells no fault, has failed. Its reader has gone if it says that.
#[test]
fn an_output_that_takes_nothing_has_failed(rt: HostRuntime) {
    for (failed, most, wanted) in [
        (0u32, 0, Err(SinkFault::Failed)),
        (1, 0, Err(SinkFault::Gone)),
        (0, 1, Ok(())),
    ] {
        let mut out = Taker {
            bytes: Vec::new(rt.alloc()),
            failed,
            how: ErrorKind::BrokenPipe,
            most,
        };
        let mut sink: AnySink<'_, Lent<'_>, Taker> = AnySink::Out(&mut out);
        assert!(rt; sink.put(0, b"abc") == wanted);
    }
}
