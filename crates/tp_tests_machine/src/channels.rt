//! Processes that meet at a word of memory.

use crate::image::Fact::{
    A, B, Bytes, Gone, Halt, High, Iptr, Low, Runs, Slice, Stack, State, Word, Wptr,
};
use crate::image::{FIRST, Fact};
use crate::story::Event::{Also, Rests, Run, Then};
use crate::story::{Row, Story, check_rows, play_all};
use tp_node::Why;

/// ldl 3, ldl 2, ldl 1, and then out.
const SENDS: &[u8] = &[0x73, 0x72, 0x71, 0xFB];

/// Two processes use the channel 80000300: the sender at 80000200 has 4 bytes at 80000310, the receiver at 80000280 wants
/// them at 80000320. Each has the count, the channel and its pointer in words 1 to 3.
const PARTNERS: &[Fact<'static>] = &[
    Bytes(0x8000_0140, &[0x73, 0x72, 0x71, 0xF7]),
    Word(0x8000_0204, 4),
    Word(0x8000_0208, 0x8000_0300),
    Word(0x8000_020C, 0x8000_0310),
    Word(0x8000_0284, 4),
    Word(0x8000_0288, 0x8000_0300),
    Word(0x8000_028C, 0x8000_0320),
    Word(0x8000_0300, FIRST),
    Bytes(0x8000_0310, &[1, 2, 3, 4]),
    Word(0x8000_01FC, 0x8000_0100),
    Word(0x8000_027C, 0x8000_0140),
];

const MEETINGS: &[Story<'static>] = &[
    Story {
        name: "output, then input",
        code: SENDS,
        given: PARTNERS,
        events: &[
            Also(&[Low(0x8000_0280, 0x8000_0280)]),
            Run(4, &[]),
            Then(&[
                Gone,
                Slice(4),
                Word(0x8000_0300, 0x8000_0201),
                Word(0x8000_01F4, 0x8000_0310),
                Word(0x8000_01FC, 0x8000_0104),
            ]),
            Run(5, &[]),
            Then(&[
                Runs(0x8000_0144, 0x8000_0280),
                Stack(4, 0x8000_0300, 0x8000_0320),
                Bytes(0x8000_0320, &[1, 2, 3, 4]),
                Word(0x8000_0300, FIRST),
                Low(0x8000_0200, 0x8000_0200),
            ]),
        ],
    },
    Story {
        name: "input, then output",
        code: SENDS,
        given: PARTNERS,
        events: &[
            Also(&[
                Runs(0x8000_0140, 0x8000_0280),
                Low(0x8000_0200, 0x8000_0200),
            ]),
            Run(4, &[]),
            Then(&[
                Gone,
                Slice(4),
                Word(0x8000_0300, 0x8000_0281),
                Word(0x8000_0274, 0x8000_0320),
                Word(0x8000_027C, 0x8000_0144),
            ]),
            Run(5, &[]),
            Then(&[
                Runs(0x8000_0104, 0x8000_0200),
                Stack(4, 0x8000_0300, 0x8000_0310),
                Bytes(0x8000_0320, &[1, 2, 3, 4]),
                Word(0x8000_0300, FIRST),
                Low(0x8000_0280, 0x8000_0280),
            ]),
        ],
    },
    Story {
        name: "a high receiver waits for a low sender, whom it interrupts when the message is there",
        code: SENDS,
        given: PARTNERS,
        events: &[
            Also(&[High(0x8000_0280, 0x8000_0280)]),
            // Interrupt, dispatch, four instructions of the receiver, and restore.
            Run(7, &[]),
            Then(&[
                High(FIRST, 0x8000_0280),
                Word(0x8000_0030, 0x8000_0100),
                Word(0x8000_0300, 0x8000_0280),
                Word(0x8000_0274, 0x8000_0320),
                Word(0x8000_027C, 0x8000_0144),
            ]),
            // Four instructions of the sender, interrupt, dispatch.
            Run(6, &[]),
            Then(&[
                Runs(0x8000_0144, 0x8000_0280),
                State(1),
                Slice(4),
                Bytes(0x8000_0320, &[1, 2, 3, 4]),
                Word(0x8000_0300, FIRST),
                Word(0x8000_002C, 0x8000_0201),
                Word(0x8000_0030, 0x8000_0104),
                Word(0x8000_0034, 4),
                Word(0x8000_0038, 0x8000_0300),
                Word(0x8000_003C, 0x8000_0310),
            ]),
        ],
    },
];

const MESSAGES: &[Story<'static>] = &[
    Story {
        name: "a word out of a register waits at the workspace",
        code: &[0xFF],
        given: &[Stack(0x77, 0x8000_0300, 3), Word(0x8000_0300, FIRST)],
        events: &[
            Run(1, &[]),
            Then(&[
                Gone,
                Slice(1),
                Word(0x8000_0200, 0x77),
                Word(0x8000_0300, 0x8000_0201),
                Word(0x8000_01F4, 0x8000_0200),
                Word(0x8000_01FC, 0x8000_0101),
            ]),
        ],
    },
    Story {
        name: "a channel in the last word of memory, and a message that ends with it",
        code: &[0xFB],
        given: &[
            Stack(4, 0x8000_0FFF, 0x8000_0FFC),
            Word(0x8000_0FFC, 0x8000_0281),
            Word(0x8000_0274, 0x8000_0320),
        ],
        events: &[
            Run(1, &[]),
            Then(&[
                Iptr(0x8000_0101),
                Slice(1),
                Word(0x8000_0320, 0x8000_0281),
                Word(0x8000_0FFC, FIRST),
                Low(0x8000_0280, 0x8000_0280),
            ]),
        ],
    },
    Story {
        name: "a byte out of a register, which is at the workspace before it is copied",
        code: &[0xFE],
        given: &[
            Stack(0x1122_3344, 0x8000_0300, 0),
            Word(0x8000_0300, 0x8000_0281),
            Word(0x8000_0274, 0x8000_0320),
        ],
        events: &[
            Run(1, &[]),
            Then(&[
                Iptr(0x8000_0101),
                Slice(1),
                Word(0x8000_0300, FIRST),
                Word(0x8000_0200, 0x1122_3344),
                Bytes(0x8000_0320, &[0x44]),
                Low(0x8000_0280, 0x8000_0280),
            ]),
        ],
    },
    Story {
        name: "a word out of a register",
        code: &[0xFF],
        given: &[
            Stack(0x1122_3344, 0x8000_0300, 0),
            Word(0x8000_0300, 0x8000_0281),
            Word(0x8000_0274, 0x8000_0320),
        ],
        events: &[
            Run(1, &[]),
            Then(&[
                Iptr(0x8000_0101),
                Slice(1),
                Word(0x8000_0300, FIRST),
                Word(0x8000_0200, 0x1122_3344),
                Word(0x8000_0320, 0x1122_3344),
                Low(0x8000_0280, 0x8000_0280),
            ]),
        ],
    },
    Story {
        name: "a message of no bytes is a meeting too, wherever its bytes would be",
        code: &[0xF7],
        given: &[
            Stack(0, 0x8000_0300, 0x1234),
            Word(0x8000_0300, 0x8000_0281),
            Word(0x8000_0274, 0x1234),
        ],
        events: &[
            Run(1, &[]),
            Then(&[
                Iptr(0x8000_0101),
                Slice(1),
                Word(0x8000_0300, FIRST),
                Low(0x8000_0280, 0x8000_0280),
            ]),
        ],
    },
    Story {
        name: "and so is an output of none",
        code: &[0xFB],
        given: &[
            Stack(0, 0x8000_0300, 0x1234),
            Word(0x8000_0300, 0x8000_0281),
            Word(0x8000_0274, 0x1234),
        ],
        events: &[
            Run(1, &[]),
            Then(&[
                Iptr(0x8000_0101),
                Slice(1),
                Word(0x8000_0300, FIRST),
                Low(0x8000_0280, 0x8000_0280),
            ]),
        ],
    },
];

/// An input's pointer in word -3 is no state of an alternative just before these states, and just after them; and the first word
/// after the links' is a channel.
const NEXT_TO_OTHERS: &[Row<'static>] = &[
    (
        &[0xFB],
        &[
            Stack(1, 0x8000_0300, 0x8000_0310),
            Word(0x8000_0300, 0x8000_0281),
            Word(0x8000_0274, 0x8000_0000),
            Word(0x8000_0310, 9),
        ],
        &[
            Word(0x8000_0000, 9),
            Word(0x8000_0300, FIRST),
            Low(0x8000_0280, 0x8000_0280),
        ],
    ),
    (
        &[0xFB],
        &[
            Stack(1, 0x8000_0300, 0x8000_0310),
            Word(0x8000_0300, 0x8000_0281),
            Word(0x8000_0274, 0x8000_0004),
            Word(0x8000_0310, 9),
        ],
        &[
            Word(0x8000_0004, 9),
            Word(0x8000_0300, FIRST),
            Low(0x8000_0280, 0x8000_0280),
        ],
    ),
    (
        &[0xFB],
        &[
            Stack(1, 0x8000_0020, 0x8000_0310),
            Word(0x8000_0020, 0x8000_0281),
            Word(0x8000_0274, 0x8000_0320),
            Word(0x8000_0310, 9),
        ],
        &[
            Word(0x8000_0320, 9),
            Word(0x8000_0020, FIRST),
            Low(0x8000_0280, 0x8000_0280),
        ],
    ),
];

/// What is outside halts the node: the channel; the range of the first to come, and of the second; the first's word -3; the pointer that the first
/// left; the workspace of an output out of a register.
const OUTSIDE: &[Row<'static>] = &[
    (&[0xF7], &[Stack(1, 0x8000_1000, 0x8000_0310)], &[Halt(1)]),
    (&[0xF7], &[Stack(1, 0x7FFF_FFFC, 0x8000_0310)], &[Halt(1)]),
    (&[0xF7], &[Stack(1, 0, 0x8000_0310)], &[Halt(1)]),
    (
        &[0xF7],
        &[Stack(2, 0x8000_0300, 0x8000_0FFF), Word(0x8000_0300, FIRST)],
        &[Halt(1)],
    ),
    (
        &[0xFB],
        &[
            Stack(2, 0x8000_0300, 0x8000_0FFF),
            Word(0x8000_0300, 0x8000_0281),
            Word(0x8000_0274, 0x8000_0320),
        ],
        &[Halt(1)],
    ),
    (
        &[0xF7],
        &[
            Wptr(0x8000_0008),
            Stack(1, 0x8000_0300, 0x8000_0310),
            Word(0x8000_0300, FIRST),
        ],
        &[Halt(1)],
    ),
    (
        &[0xFB],
        &[
            Stack(1, 0x8000_0300, 0x8000_0310),
            Word(0x8000_0300, 0x8000_0281),
        ],
        &[Halt(1)],
    ),
    (
        &[0xFE],
        &[
            Wptr(0x8000_1000),
            Stack(1, 0x8000_0300, 0),
            Word(0x8000_0300, 0x8000_0281),
            Word(0x8000_0274, 0x8000_0320),
        ],
        &[Halt(1)],
    ),
];

#[test]
fn channels(rt: HostRuntime) {
    play_all(&rt, rt.alloc(), MEETINGS);
    play_all(&rt, rt.alloc(), MESSAGES);
    check_rows(&rt, rt.alloc(), "next to others", NEXT_TO_OTHERS);
    check_rows(&rt, rt.alloc(), "outside", OUTSIDE);
}
