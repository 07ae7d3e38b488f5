//! Runs of a node whose processes don't meet: queues, slices, priorities.

use crate::image::FIRST;
use crate::image::Fact::{
    A, Bytes, Gone, High, Iptr, Low, Runs, Slice, Stack, State, Unused, Waits, Word, Wptr,
};
use crate::story::Event::{Rests, Run, Take, Then};
use crate::story::{Story, play_all};
use tp_model::Token::{Ack, Data};
use tp_node::Why;
use tp_tests_fixtures::SENDS_A;

/// It has printed, and its byte is acknowledged. Then it runs for 16 steps; or for 4,096, which are three slices of a dispatch and 1,024 jumps, then
/// a dispatch and 1,020 jumps.
const PRINTING: &[Story<'static>] = &[
    Story {
        name: "prints a byte",
        code: SENDS_A,
        given: &[],
        events: &[
            Run(3, &[(0, Data(0x41))]),
            Then(&[
                Gone,
                Slice(3),
                Word(0x8000_0200, 0x41),
                Word(0x8000_01FC, 0x8000_010B),
                Waits(0, 0x8000_0201, 0x8000_0200, 1),
            ]),
            Rests(Why::Idle),
            Take(0, Ack, None),
            Then(&[Unused(0), Low(0x8000_0200, 0x8000_0200)]),
            Run(16, &[]),
            Then(&[
                Runs(0x8000_010B, 0x8000_0200),
                Slice(15),
                Low(FIRST, 0x8000_0200),
            ]),
        ],
    },
    Story {
        name: "jumps slice after slice",
        code: SENDS_A,
        given: &[],
        events: &[
            Run(3, &[(0, Data(0x41))]),
            Take(0, Ack, None),
            Run(4096, &[]),
            Then(&[
                Word(0x8000_0200, 0x41),
                Word(0x8000_01FC, 0x8000_010B),
                Runs(0x8000_010B, 0x8000_0200),
                Slice(1020),
                Low(FIRST, 0x8000_0200),
            ]),
        ],
    },
    Story {
        name: "three slices",
        code: SENDS_A,
        given: &[],
        events: &[
            Run(3, &[(0, Data(0x41))]),
            Take(0, Ack, None),
            Run(3075, &[]),
            Then(&[
                Gone,
                Word(0x8000_0200, 0x41),
                Word(0x8000_01FC, 0x8000_010B),
                Slice(1024),
                Low(0x8000_0200, 0x8000_0200),
            ]),
        ],
    },
];

const PROCESSES: &[Story<'static>] = &[
    Story {
        name: "a process starts a high one, which interrupts it, stops, and leaves it to go on",
        // ldl 1, runp
        code: &[0x71, 0x23, 0xF9],
        given: &[
            Stack(5, 6, 7),
            Word(0x8000_0204, 0x8000_0300),
            Word(0x8000_02FC, 0x8000_0180),
            // stopp
            Bytes(0x8000_0180, &[0x21, 0xF5]),
        ],
        events: &[
            // Two instructions, and the interrupt.
            Run(3, &[]),
            Then(&[
                Iptr(0x8000_0103),
                Stack(0x8000_0300, 5, 6),
                State(0),
                Slice(2),
                High(0x8000_0300, 0x8000_0300),
                Word(0x8000_002C, 0x8000_0201),
                Word(0x8000_0030, 0x8000_0103),
                Word(0x8000_0034, 0x8000_0300),
                Word(0x8000_0038, 5),
                Word(0x8000_003C, 6),
            ]),
            // The dispatch.
            Run(1, &[]),
            Then(&[
                Runs(0x8000_0180, 0x8000_0300),
                State(1),
                High(FIRST, 0x8000_0300),
            ]),
            // An instruction, and the restore.
            Run(2, &[]),
            Then(&[
                Runs(0x8000_0103, 0x8000_0200),
                Stack(0x8000_0300, 5, 6),
                Word(0x8000_002C, FIRST),
                Word(0x8000_02FC, 0x8000_0182),
            ]),
        ],
    },
    Story {
        name: "three processes leave their queue in order, and its back stays as it was",
        // stopp
        code: &[0x21, 0xF5],
        given: &[
            Gone,
            Low(0x8000_0300, 0x8000_0500),
            Word(0x8000_02F8, 0x8000_0400),
            Word(0x8000_03F8, 0x8000_0500),
            Word(0x8000_02FC, 0x8000_0100),
            Word(0x8000_03FC, 0x8000_0100),
            Word(0x8000_04FC, 0x8000_0100),
        ],
        events: &[
            Run(2, &[]),
            Then(&[
                Slice(1),
                Low(0x8000_0400, 0x8000_0500),
                Word(0x8000_02FC, 0x8000_0102),
            ]),
            Run(4, &[]),
            Then(&[
                Low(FIRST, 0x8000_0500),
                Word(0x8000_03FC, 0x8000_0102),
                Word(0x8000_04FC, 0x8000_0102),
            ]),
            Rests(Why::Idle),
        ],
    },
];

const SLICES: &[Story<'static>] = &[
    Story {
        name: "a process whose slice is over goes behind the one that waits, at a jump",
        // j -2
        code: &[0x60, 0x0E],
        given: &[
            Slice(1022),
            A(1),
            Low(0x8000_0300, 0x8000_0300),
            Word(0x8000_02FC, 0x8000_0180),
        ],
        events: &[
            Run(1, &[]),
            Then(&[Slice(1023)]),
            Run(1, &[]),
            Then(&[
                Gone,
                Slice(1024),
                Word(0x8000_01FC, 0x8000_0100),
                Word(0x8000_02F8, 0x8000_0200),
                Low(0x8000_0300, 0x8000_0200),
            ]),
            Run(1, &[]),
            Then(&[
                Slice(0),
                Runs(0x8000_0180, 0x8000_0300),
                Low(0x8000_0200, 0x8000_0200),
            ]),
        ],
    },
    Story {
        name: "a loop's jump at the end of a slice is done before the process makes room",
        // lend
        code: &[0x22, 0xF1],
        given: &[
            Slice(1024),
            Stack(2, 0x8000_0240, 0),
            Word(0x8000_0240, 5),
            Word(0x8000_0244, 2),
        ],
        events: &[
            Run(1, &[]),
            Then(&[
                Gone,
                Word(0x8000_0240, 6),
                Word(0x8000_0244, 1),
                Word(0x8000_01FC, 0x8000_0100),
                Low(0x8000_0200, 0x8000_0200),
            ]),
        ],
    },
    Story {
        name: "a loop that doesn't jump makes no room",
        code: &[0x22, 0xF1],
        given: &[Slice(1024), Stack(2, 0x8000_0240, 0), Word(0x8000_0244, 1)],
        events: &[
            Run(1, &[]),
            Then(&[Iptr(0x8000_0102), Word(0x8000_0244, 0)]),
        ],
    },
    Story {
        name: "only a jump makes room",
        // ldc 1, cj 3 over a false A, and over a true one
        code: &[0x41, 0xA3, 0x40, 0xA3],
        given: &[Slice(1024)],
        events: &[
            Run(2, &[]),
            Then(&[Iptr(0x8000_0102)]),
            Run(2, &[]),
            Then(&[Iptr(0x8000_0107)]),
        ],
    },
    Story {
        name: "a high process makes no room",
        // j 3
        code: &[0x03],
        given: &[Slice(1024), State(1)],
        events: &[Run(1, &[]), Then(&[Iptr(0x8000_0104)])],
    },
];

#[test]
fn runs(rt: HostRuntime) {
    play_all(&rt, rt.alloc(), PRINTING);
    play_all(&rt, rt.alloc(), PROCESSES);
    play_all(&rt, rt.alloc(), SLICES);
}
