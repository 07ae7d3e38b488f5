//! Alternatives that wait for links, and the ends of nodes that have halted.

use crate::image::FIRST;
use crate::image::Fact::{
    Bytes, Enabled, Gone, Halt, High, Holds, Inputs, Iptr, Low, Quiet, Runs, Slice, Stack, Unused,
    Waits, Word,
};
use crate::story::Event::{Also, Rests, Run, Take, Then};
use crate::story::{Row, Story, check_rows, play_all};
use tp_model::Token::{Ack, Data};
use tp_node::Why;

/// alt; mint, ldnlp 4, ldc 1, enbc; altwt; mint, ldnlp 4, ldc 1, ldc 5, disc; ldl 3, mint, ldnlp 4, ldc 1, in
const CHOOSES: &[u8] = &[
    0x24, 0xF3, 0x24, 0xF2, 0x54, 0x41, 0x24, 0xF8, 0x24, 0xF4, 0x24, 0xF2, 0x54, 0x41, 0x45, 0x22,
    0xFF, 0x73, 0x24, 0xF2, 0x54, 0x41, 0xF7,
];

const CHOICES: &[Story<'static>] = &[
    Story {
        name: "a byte comes while branches are enabled",
        code: CHOOSES,
        given: &[Word(0x8000_020C, 0x8000_0320)],
        events: &[
            Run(5, &[]),
            Then(&[
                Iptr(0x8000_0108),
                Stack(1, 0, 0),
                Slice(5),
                Word(0x8000_01F4, 0x8000_0001),
                Enabled(0, 0x8000_0201),
            ]),
            Take(0, Data(0x5A), None),
            Then(&[Word(0x8000_01F4, 0x8000_0003), Holds(0, 0x5A)]),
            Run(1, &[]),
            Then(&[Iptr(0x8000_010A), Slice(6), Word(0x8000_0200, 0xFFFF_FFFF)]),
            Run(5, &[]),
            Then(&[
                Iptr(0x8000_0111),
                Slice(11),
                Stack(1, 1, 0x8000_0010),
                Word(0x8000_0200, 5),
            ]),
        ],
    },
    Story {
        name: "a byte comes to an alternative that waits, and the branch then takes it",
        code: CHOOSES,
        given: &[Word(0x8000_020C, 0x8000_0320)],
        events: &[
            Run(6, &[]),
            Then(&[
                Gone,
                Slice(6),
                Enabled(0, 0x8000_0201),
                Word(0x8000_0200, 0xFFFF_FFFF),
                Word(0x8000_01F4, 0x8000_0002),
                Word(0x8000_01FC, 0x8000_010A),
            ]),
            Take(0, Data(0x5A), None),
            Then(&[
                Holds(0, 0x5A),
                Low(0x8000_0200, 0x8000_0200),
                Word(0x8000_01F4, 0x8000_0003),
            ]),
            Run(6, &[]),
            Then(&[
                Runs(0x8000_0111, 0x8000_0200),
                Slice(5),
                Stack(1, 1, 0x8000_0010),
                Low(FIRST, 0x8000_0200),
                Word(0x8000_0200, 5),
            ]),
            Run(5, &[(0, Ack)]),
            Then(&[
                Iptr(0x8000_0117),
                Slice(10),
                Stack(1, 0x8000_0010, 0x8000_0320),
                Word(0x8000_0320, 0x5A),
                Quiet(0),
            ]),
        ],
    },
    Story {
        name: "a byte for an alternative that is ready is held and no more",
        code: &[],
        given: &[Word(0x8000_01F4, 0x8000_0003), Enabled(0, 0x8000_0201)],
        events: &[Take(0, Data(0x5A), None), Then(&[Holds(0, 0x5A)])],
    },
    Story {
        name: "and so is one for a process whose word is no alternative's state",
        code: &[],
        given: &[Word(0x8000_01F4, 0x1234), Enabled(0, 0x8000_0201)],
        events: &[Take(0, Data(0x5A), None), Then(&[Holds(0, 0x5A)])],
    },
];

/// Of enbc: a false guard, a held byte, an idle end, and one that the own process enabled.
const ENABLING: &[Row<'static>] = &[
    (
        &[0x24, 0xF8],
        &[Stack(0, 0x8000_0010, 7), Enabled(0, 0x8000_0281)],
        &[Stack(0, 7, 7)],
    ),
    (
        &[0x24, 0xF8],
        &[Stack(1, 0x8000_0010, 7), Holds(0, 0x5A)],
        &[Stack(1, 7, 7), Word(0x8000_01F4, 0x8000_0003)],
    ),
    (
        &[0x24, 0xF8],
        &[Stack(1, 0x8000_001C, 7)],
        &[Stack(1, 7, 7), Enabled(3, 0x8000_0201)],
    ),
    (
        &[0x24, 0xF8],
        &[Stack(1, 0x8000_0010, 7), Enabled(0, 0x8000_0201)],
        &[Stack(1, 7, 7)],
    ),
];

/// Of disc: a false guard, a held byte, an idle end, and one that the own process enabled.
const DISABLING: &[Row<'static>] = &[
    (
        &[0x22, 0xFF],
        &[Stack(5, 0, 0x8000_0010), Enabled(0, 0x8000_0281)],
        &[Stack(0, 0, 0x8000_0010)],
    ),
    (
        &[0x22, 0xFF],
        &[
            Stack(5, 1, 0x8000_0010),
            Holds(0, 0x5A),
            Word(0x8000_0200, 0xFFFF_FFFF),
        ],
        &[Stack(1, 1, 0x8000_0010), Word(0x8000_0200, 5)],
    ),
    (
        &[0x22, 0xFF],
        &[Stack(5, 1, 0x8000_0010), Word(0x8000_0200, 0xFFFF_FFFF)],
        &[Stack(0, 1, 0x8000_0010)],
    ),
    (
        &[0x22, 0xFF],
        &[Stack(5, 1, 0x8000_0010), Enabled(0, 0x8000_0201)],
        &[Stack(0, 1, 0x8000_0010), Quiet(0)],
    ),
];

/// A link of the wrong direction, also if the guard is false, and an end that others use.
const WRONG_AND_BUSY_ENDS: &[Row<'static>] = &[
    (&[0x24, 0xF8], &[Stack(0, 0x8000_0004, 0)], &[Halt(1)]),
    (&[0x22, 0xFF], &[Stack(5, 0, 0x8000_000C)], &[Halt(1)]),
    (
        &[0x24, 0xF8],
        &[
            Stack(1, 0x8000_0010, 0),
            Inputs(0, 0x8000_0201, 0x8000_0320, 1),
        ],
        &[Halt(4)],
    ),
    (
        &[0x24, 0xF8],
        &[Stack(1, 0x8000_0010, 0), Enabled(0, 0x8000_0281)],
        &[Halt(4)],
    ),
    (
        &[0x22, 0xFF],
        &[
            Stack(5, 1, 0x8000_0010),
            Inputs(0, 0x8000_0201, 0x8000_0320, 1),
        ],
        &[Halt(4)],
    ),
    (
        &[0x22, 0xFF],
        &[Stack(5, 1, 0x8000_0010), Enabled(0, 0x8000_0281)],
        &[Halt(4)],
    ),
];

const HALTED: &[Story<'static>] = &[
    Story {
        name: "the ends of a node that has halted go on",
        code: &[],
        given: &[
            Halt(2),
            Waits(0, 0x8000_0281, 0x8000_0310, 1),
            Inputs(1, 0x8000_0300, 0x8000_0320, 1),
            Enabled(2, 0x8000_0201),
            Word(0x8000_01F4, 0x8000_0001),
        ],
        events: &[
            Take(0, Ack, None),
            Then(&[Unused(0), Low(0x8000_0280, 0x8000_0280)]),
            Take(1, Data(9), Some(Ack)),
            Then(&[
                Bytes(0x8000_0320, &[9]),
                High(0x8000_0300, 0x8000_0300),
                Quiet(1),
            ]),
            Take(2, Data(0x5A), None),
            Then(&[Word(0x8000_01F4, 0x8000_0003), Holds(2, 0x5A)]),
            Rests(Why::Halted),
        ],
    },
    Story {
        name: "a process whose queue or state lies outside is left, the rest holds, and the node halts",
        code: &[],
        given: &[
            Low(0x8000_0300, 0x9000_0000),
            Waits(0, 0x8000_0281, 0x8000_0310, 1),
            Inputs(1, 0x8000_0281, 0x8000_0320, 1),
            Enabled(2, 0x9000_0001),
        ],
        events: &[
            Take(0, Ack, None),
            Then(&[Unused(0), Halt(1)]),
            Also(&[Halt(0)]),
            Take(1, Data(9), Some(Ack)),
            Then(&[Bytes(0x8000_0320, &[9]), Quiet(1), Halt(1)]),
            Also(&[Halt(0)]),
            Take(2, Data(0x5A), None),
            Then(&[Holds(2, 0x5A), Halt(1)]),
        ],
    },
    Story {
        name: "where it has halted already, its halt code stays",
        code: &[],
        given: &[
            Halt(2),
            Low(0x8000_0300, 0x9000_0000),
            Waits(0, 0x8000_0281, 0x8000_0310, 1),
            Enabled(2, 0x9000_0001),
        ],
        events: &[
            Take(0, Ack, None),
            Then(&[Unused(0)]),
            Take(2, Data(0x5A), None),
            Then(&[Holds(2, 0x5A)]),
        ],
    },
];

#[test]
fn guards(rt: HostRuntime) {
    check_rows(&rt, rt.alloc(), "enabling", ENABLING);
    check_rows(&rt, rt.alloc(), "disabling", DISABLING);
    check_rows(&rt, rt.alloc(), "wrong and busy ends", WRONG_AND_BUSY_ENDS);
    play_all(&rt, rt.alloc(), CHOICES);
    play_all(&rt, rt.alloc(), HALTED);
}
