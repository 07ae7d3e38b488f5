//! Single instructions of a low process, on memory and on what runs.

use crate::image::Fact::{
    A, B, Bytes, C, Error, Gone, Halt, High, Iptr, Low, Slice, Stack, State, Word, Wptr,
};
use crate::story::Event::{Also, Rests, Run, Then};
use crate::story::{Row, Story, check_rows, play_all};
use tp_node::Why;

/// ldlp 3, ldl 1, ldl -1, stl 2; then ldnl 2, stnl 2, ldnlp 2 (ldnl and stnl leave out the address's two low bits); lb, sb
const ACCESSES: &[Row<'static>] = &[
    (&[0x13], &[Stack(1, 2, 3)], &[Stack(0x8000_020C, 1, 2)]),
    (
        &[0x71],
        &[Stack(1, 2, 3), Word(0x8000_0204, 0x1234)],
        &[Stack(0x1234, 1, 2)],
    ),
    (
        &[0x60, 0x7F],
        &[Stack(1, 2, 3), Word(0x8000_01FC, 0x1234)],
        &[Stack(0x1234, 1, 2)],
    ),
    (
        &[0xD2],
        &[Stack(1, 2, 3)],
        &[Word(0x8000_0208, 1), Stack(2, 3, 3)],
    ),
    (
        &[0x32],
        &[Stack(0x8000_0301, 7, 9), Word(0x8000_0308, 0x55)],
        &[A(0x55)],
    ),
    (
        &[0xE2],
        &[Stack(0x8000_0301, 7, 9)],
        &[Stack(9, 7, 9), Word(0x8000_0308, 7)],
    ),
    (&[0x52], &[Stack(0x8000_0301, 7, 9)], &[A(0x8000_0309)]),
    (
        &[0xF1],
        &[
            Stack(0x8000_0303, 7, 9),
            Bytes(0x8000_0300, &[0xA0, 0xA1, 0xA2, 0xA3]),
        ],
        &[A(0xA3)],
    ),
    (
        &[0x23, 0xFB],
        &[Stack(0x8000_0303, 0x1234, 9)],
        &[Stack(9, 0x1234, 9), Bytes(0x8000_0303, &[0x34])],
    ),
];

/// j 3, j -2, cj 5 taken and not, ldpi, call 5, ret, gcall; ajw 2, ajw -1, gajw
const JUMPS: &[Row<'static>] = &[
    (&[0x03], &[Stack(1, 2, 3)], &[Iptr(0x8000_0104)]),
    (&[0x60, 0x0E], &[Stack(1, 2, 3)], &[Iptr(0x8000_0100)]),
    (&[0xA5], &[Stack(0, 2, 3)], &[Iptr(0x8000_0106)]),
    (&[0xA5], &[Stack(1, 2, 3)], &[Stack(2, 3, 3)]),
    (&[0x21, 0xFB], &[Stack(1, 2, 3)], &[A(0x8000_0103)]),
    (
        &[0x95],
        &[Stack(1, 2, 3)],
        &[
            Iptr(0x8000_0106),
            Wptr(0x8000_01F0),
            A(0x8000_0101),
            Word(0x8000_01F0, 0x8000_0101),
            Word(0x8000_01F4, 1),
            Word(0x8000_01F8, 2),
            Word(0x8000_01FC, 3),
        ],
    ),
    (
        &[0x22, 0xF0],
        &[Stack(1, 2, 3), Word(0x8000_0200, 0x8000_0190)],
        &[Iptr(0x8000_0190), Wptr(0x8000_0210)],
    ),
    (
        &[0xF6],
        &[Stack(0x8000_0180, 2, 3)],
        &[Iptr(0x8000_0180), A(0x8000_0101)],
    ),
    (&[0xB2], &[Stack(1, 2, 3)], &[Wptr(0x8000_0208)]),
    (&[0x60, 0xBF], &[Stack(1, 2, 3)], &[Wptr(0x8000_01FC)]),
    (
        &[0x23, 0xFC],
        &[Stack(0x8000_0303, 2, 3)],
        &[Wptr(0x8000_0300), A(0x8000_0200)],
    ),
];

/// A block is read whole before it is written, and one of no bytes may be anywhere.
const MOVES: &[Row<'static>] = &[
    (
        &[0x24, 0xFA],
        &[
            Stack(4, 0x8000_0302, 0x8000_0300),
            Bytes(0x8000_0300, &[1, 2, 3, 4, 5, 6]),
        ],
        &[Bytes(0x8000_0302, &[1, 2, 3, 4])],
    ),
    (
        &[0x24, 0xFA],
        &[
            Stack(4, 0x8000_0300, 0x8000_0302),
            Bytes(0x8000_0300, &[1, 2, 3, 4, 5, 6]),
        ],
        &[Bytes(0x8000_0300, &[3, 4, 5, 6])],
    ),
    (&[0x24, 0xFA], &[Stack(0, 0x1234, 0xFFFF_FFFF)], &[]),
];

/// A loop ends if its count is 1 or less, signed, and its index may then be outside memory.
const LAST_TURNS: &[Row<'static>] = &[
    (
        &[0x22, 0xF1],
        &[Stack(2, 0x8000_0240, 3), Word(0x8000_0244, 0)],
        &[Word(0x8000_0244, 0xFFFF_FFFF)],
    ),
    (
        &[0x22, 0xF1],
        &[Stack(2, 0x8000_0240, 3), Word(0x8000_0244, 0x8000_0000)],
        &[Word(0x8000_0244, 0x7FFF_FFFF)],
    ),
    (
        &[0x22, 0xF1],
        &[Stack(2, 0x7FFF_FFFC, 3), Word(0x8000_0000, 1)],
        &[Word(0x8000_0000, 0)],
    ),
];

/// stoperr without an error, ldpri, seterr, testerr of a set and of a clear flag; startp, also with low bits; runp of a high and
/// of a low descriptor; endp of the last process
const PROCESSES: &[Row<'static>] = &[
    (&[0x25, 0xF5], &[Stack(1, 2, 3)], &[]),
    (&[0x21, 0xFE], &[Stack(7, 2, 3)], &[Stack(1, 7, 2)]),
    (&[0x21, 0xF0], &[Stack(1, 2, 3)], &[Error(1)]),
    (
        &[0x22, 0xF9],
        &[Stack(7, 2, 3), Error(1)],
        &[Stack(0, 7, 2), Error(0)],
    ),
    (&[0x22, 0xF9], &[Stack(7, 2, 3)], &[Stack(1, 7, 2)]),
    (
        &[0xFD],
        &[Stack(0x8000_0300, 0x20, 3)],
        &[
            Low(0x8000_0300, 0x8000_0300),
            Word(0x8000_02FC, 0x8000_0121),
        ],
    ),
    (
        &[0xFD],
        &[Stack(0x8000_0303, 0x20, 3)],
        &[
            Low(0x8000_0300, 0x8000_0300),
            Word(0x8000_02FC, 0x8000_0121),
        ],
    ),
    (
        &[0x23, 0xF9],
        &[Stack(0x8000_0302, 2, 3)],
        &[High(0x8000_0300, 0x8000_0300)],
    ),
    (
        &[0x23, 0xF9],
        &[Stack(0x8000_0303, 2, 3)],
        &[Low(0x8000_0300, 0x8000_0300)],
    ),
    (
        &[0xF3],
        &[
            Stack(0x8000_0302, 2, 3),
            Word(0x8000_0300, 0x8000_0180),
            Word(0x8000_0304, 1),
        ],
        &[Word(0x8000_0304, 0), Iptr(0x8000_0180), Wptr(0x8000_0300)],
    ),
];

const ENDINGS: &[Story<'static>] = &[
    Story {
        name: "the two last turns of a loop",
        code: &[],
        given: &[
            Stack(0x0A, 0x8000_0240, 3),
            Word(0x8000_0240, 5),
            Word(0x8000_0244, 2),
            Iptr(0x8000_010E),
            Bytes(0x8000_010E, &[0x22, 0xF1]),
        ],
        events: &[
            Run(1, &[]),
            Then(&[
                Word(0x8000_0244, 1),
                Word(0x8000_0240, 6),
                Iptr(0x8000_0106),
                Slice(1),
            ]),
            Also(&[Iptr(0x8000_010E)]),
            Run(1, &[]),
            Then(&[Word(0x8000_0244, 0), Iptr(0x8000_0110), Slice(2)]),
        ],
    },
    Story {
        name: "endp of one of three processes",
        code: &[0xF3],
        given: &[Stack(0x8000_0300, 2, 3), Word(0x8000_0304, 3)],
        events: &[Run(1, &[]), Then(&[Gone, Slice(1), Word(0x8000_0304, 2)])],
    },
    Story {
        name: "endp of one of none",
        code: &[0xF3],
        given: &[Stack(0x8000_0300, 2, 3)],
        events: &[
            Run(1, &[]),
            Then(&[Gone, Slice(1), Word(0x8000_0304, 0xFFFF_FFFF)]),
        ],
    },
    Story {
        name: "stopp",
        code: &[0x21, 0xF5],
        given: &[Stack(1, 2, 3)],
        events: &[
            Run(1, &[]),
            Then(&[Gone, Slice(1), Word(0x8000_01FC, 0x8000_0102)]),
            Rests(Why::Idle),
        ],
    },
    Story {
        name: "stoperr with an error",
        code: &[0x25, 0xF5],
        given: &[Stack(1, 2, 3), Error(1)],
        events: &[
            Run(1, &[]),
            Then(&[Gone, Slice(1), Word(0x8000_01FC, 0x8000_0102)]),
        ],
    },
    Story {
        name: "ldpri and startp of a high process, which has no slice",
        code: &[0x21, 0xFE, 0xFD],
        given: &[State(1), Stack(0x20, 0x20, 3)],
        events: &[
            Run(1, &[]),
            Then(&[Iptr(0x8000_0102), Stack(0, 0x20, 0x20)]),
            Also(&[A(0x8000_0300), B(0x20), C(7)]),
            Run(1, &[]),
            Then(&[
                Iptr(0x8000_0103),
                High(0x8000_0300, 0x8000_0300),
                Word(0x8000_02FC, 0x8000_0123),
            ]),
        ],
    },
];

/// Bytes that are no instruction: ldtimer, a prefix byte too many, and instructions that are outside memory.
const NO_INSTRUCTIONS: &[Row<'static>] = &[
    (&[0x22, 0xF2], &[], &[Halt(2)]),
    (&[0x20; 17], &[], &[Halt(3)]),
    (
        &[],
        &[Iptr(0x8000_0FFF), Bytes(0x8000_0FFF, &[0x24])],
        &[Halt(1)],
    ),
    (&[], &[Iptr(0x8000_1000)], &[Halt(1)]),
    (&[], &[Iptr(0x7FFF_FFFF)], &[Halt(1)]),
];

/// Words that are outside: of ldl 1, stl 1, ldnl 0, stnl 0, lb, sb, call, ret; and the blocks of move
const ACCESSES_OUTSIDE: &[Row<'static>] = &[
    (&[0x71], &[Wptr(0x8000_0FFC)], &[Halt(1)]),
    (&[0xD1], &[Wptr(0x8000_0FFC)], &[Halt(1)]),
    (&[0x30], &[A(0x8000_1000)], &[Halt(1)]),
    (&[0xE0], &[A(0x7FFF_FFFF)], &[Halt(1)]),
    (&[0xF1], &[A(0x8000_1000)], &[Halt(1)]),
    (&[0x23, 0xFB], &[A(0)], &[Halt(1)]),
    (&[0x95], &[Wptr(0x8000_000C)], &[Halt(1)]),
    (&[0x22, 0xF0], &[Wptr(0x8000_1000)], &[Halt(1)]),
    (
        &[0x24, 0xFA],
        &[Stack(4, 0x8000_0300, 0x8000_0FFD)],
        &[Halt(1)],
    ),
    (
        &[0x24, 0xFA],
        &[Stack(4, 0x8000_0FFD, 0x8000_0300)],
        &[Halt(1)],
    ),
    (
        &[0x24, 0xFA],
        &[Stack(0xFFFF_FFFF, 0x8000_0300, 0x8000_0300)],
        &[Halt(1)],
    ),
];

/// lend: the count, the index; endp: the count, the place to go on; stopp, startp; and alt, whose word -3 alone is outside
const PROCESSES_OUTSIDE: &[Row<'static>] = &[
    (&[0x22, 0xF1], &[B(0x8000_0FFC)], &[Halt(1)]),
    (
        &[0x22, 0xF1],
        &[B(0x7FFF_FFFC), Word(0x8000_0000, 2)],
        &[Halt(1)],
    ),
    (&[0xF3], &[A(0x8000_0FFC)], &[Halt(1)]),
    (&[0xF3], &[A(0x7FFF_FFFC), Word(0x8000_0000, 1)], &[Halt(1)]),
    (&[0x21, 0xF5], &[Wptr(0x8000_0000)], &[Halt(1)]),
    (&[0xFD], &[A(0x8000_0000)], &[Halt(1)]),
    (&[0x24, 0xF3], &[Wptr(0x8000_0008)], &[Halt(1)]),
];

#[test]
fn instructions(rt: HostRuntime) {
    check_rows(&rt, rt.alloc(), "accesses", ACCESSES);
    check_rows(&rt, rt.alloc(), "jumps", JUMPS);
    check_rows(&rt, rt.alloc(), "moves", MOVES);
    check_rows(&rt, rt.alloc(), "last turns", LAST_TURNS);
    check_rows(&rt, rt.alloc(), "processes", PROCESSES);
    play_all(&rt, rt.alloc(), ENDINGS);
}

#[test]
fn halts(rt: HostRuntime) {
    check_rows(&rt, rt.alloc(), "no instructions", NO_INSTRUCTIONS);
    check_rows(&rt, rt.alloc(), "accesses outside", ACCESSES_OUTSIDE);
    check_rows(&rt, rt.alloc(), "processes outside", PROCESSES_OUTSIDE);
}
