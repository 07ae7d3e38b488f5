//! Messages over links: a test hands the tokens.

use crate::image::Fact::{
    A, Bytes, Enabled, Gone, Halt, Holds, Inputs, Iptr, Low, Quiet, Slice, Stack, Unused, Waits,
    Word, Wptr,
};
use crate::image::{FIRST, Fact};
use crate::story::Event::{Also, Refuses, Rests, Run, Take, Then};
use crate::story::{Row, Story, check_rows, play_all};
use tp_model::Token::{Ack, Data};
use tp_node::Why;

const SENDING: &[Story<'static>] = &[
    Story {
        name: "each byte leaves after the acknowledge of the one before, as it is in memory then",
        code: &[0xFB],
        given: &[
            Stack(3, 0x8000_0004, 0x8000_0310),
            Bytes(0x8000_0310, &[1, 2, 3]),
        ],
        events: &[
            Refuses(1, Ack),
            Run(1, &[(1, Data(1))]),
            Then(&[
                Gone,
                Slice(1),
                Word(0x8000_01FC, 0x8000_0101),
                Waits(1, 0x8000_0201, 0x8000_0310, 3),
            ]),
            Take(1, Ack, Some(Data(2))),
            Then(&[Waits(1, 0x8000_0201, 0x8000_0311, 2)]),
            Also(&[Bytes(0x8000_0312, &[7])]),
            Take(1, Ack, Some(Data(7))),
            Then(&[Waits(1, 0x8000_0201, 0x8000_0312, 1)]),
            Take(1, Ack, None),
            Then(&[Unused(1), Low(0x8000_0200, 0x8000_0200)]),
            Refuses(1, Ack),
        ],
    },
    Story {
        name: "a byte out of a register",
        code: &[0xFE],
        given: &[Stack(0x1122_3344, 0x8000_000C, 3)],
        events: &[
            Run(1, &[(3, Data(0x44))]),
            Then(&[
                Gone,
                Slice(1),
                Word(0x8000_01FC, 0x8000_0101),
                Word(0x8000_0200, 0x1122_3344),
                Waits(3, 0x8000_0201, 0x8000_0200, 1),
            ]),
        ],
    },
    Story {
        name: "a word out of a register",
        code: &[0xFF],
        given: &[Stack(0x1122_3344, 0x8000_0008, 3)],
        events: &[
            Run(1, &[(2, Data(0x44))]),
            Then(&[
                Gone,
                Slice(1),
                Word(0x8000_01FC, 0x8000_0101),
                Word(0x8000_0200, 0x1122_3344),
                Waits(2, 0x8000_0201, 0x8000_0200, 4),
            ]),
            Take(2, Ack, Some(Data(0x33))),
        ],
    },
];

const RECEIVING: &[Story<'static>] = &[
    Story {
        name: "each byte is acknowledged once it is in memory",
        code: &[0xF7],
        given: &[Stack(2, 0x8000_0018, 0x8000_0320)],
        events: &[
            Run(1, &[]),
            Then(&[
                Gone,
                Slice(1),
                Word(0x8000_01FC, 0x8000_0101),
                Inputs(2, 0x8000_0201, 0x8000_0320, 2),
            ]),
            Take(2, Data(8), Some(Ack)),
            Then(&[
                Bytes(0x8000_0320, &[8]),
                Inputs(2, 0x8000_0201, 0x8000_0321, 1),
            ]),
            Take(2, Data(9), Some(Ack)),
            Then(&[
                Bytes(0x8000_0321, &[9]),
                Quiet(2),
                Low(0x8000_0200, 0x8000_0200),
            ]),
        ],
    },
    Story {
        name: "a byte that comes before its input is held, also in the image, and may be the whole message",
        code: &[0xF7],
        given: &[Stack(1, 0x8000_0010, 0x8000_0320)],
        events: &[
            Take(0, Data(0x5A), None),
            Then(&[Holds(0, 0x5A)]),
            Refuses(0, Data(1)),
            Also(&[]),
            Run(1, &[(0, Ack)]),
            Then(&[
                Iptr(0x8000_0101),
                Slice(1),
                Bytes(0x8000_0320, &[0x5A]),
                Quiet(0),
            ]),
        ],
    },
    Story {
        name: "or the first of more",
        code: &[0xF7],
        given: &[Stack(2, 0x8000_0010, 0x8000_0320)],
        events: &[
            Take(0, Data(0x5A), None),
            Run(1, &[(0, Ack)]),
            Then(&[
                Gone,
                Slice(1),
                Word(0x8000_01FC, 0x8000_0101),
                Bytes(0x8000_0320, &[0x5A]),
                Inputs(0, 0x8000_0201, 0x8000_0321, 1),
            ]),
        ],
    },
    Story {
        name: "messages may end with the last byte of memory",
        code: &[],
        given: &[
            Gone,
            Inputs(0, 0x8000_0201, 0x8000_0FFF, 1),
            Waits(0, 0x8000_0281, 0x8000_0FFE, 2),
            Bytes(0x8000_0FFF, &[0x77]),
        ],
        events: &[
            Take(0, Ack, Some(Data(0x77))),
            Then(&[Waits(0, 0x8000_0281, 0x8000_0FFF, 1)]),
            Take(0, Data(0x66), Some(Ack)),
            Then(&[
                Bytes(0x8000_0FFF, &[0x66]),
                Quiet(0),
                Low(0x8000_0200, 0x8000_0200),
            ]),
            Take(0, Ack, None),
            Then(&[
                Unused(0),
                Low(0x8000_0200, 0x8000_0280),
                Word(0x8000_01F8, 0x8000_0280),
            ]),
        ],
    },
];

/// ldl 3, ldl 2, ldl 1, out
const SENDS: &[u8] = &[0x73, 0x72, 0x71, 0xFB];

/// Link 0 of the node is wired to its link 1. The sender at 80000200 has 2 bytes at 80000310 for it, and the receiver at
/// 80000280, which is queued, wants them at 80000320.
const WIRED: &[Fact<'static>] = &[
    Word(0x8000_0204, 2),
    Word(0x8000_0208, 0x8000_0000),
    Word(0x8000_020C, 0x8000_0310),
    Bytes(0x8000_0310, &[1, 2]),
    Bytes(0x8000_0140, &[0x73, 0x72, 0x71, 0xF7]),
    Word(0x8000_0284, 2),
    Word(0x8000_0288, 0x8000_0014),
    Word(0x8000_028C, 0x8000_0320),
    Word(0x8000_027C, 0x8000_0140),
    Low(0x8000_0280, 0x8000_0280),
];

/// The message is over: the receiver was queued first, and then the sender.
const OVER: &[Fact<'static>] = &[
    Gone,
    Slice(4),
    Word(0x8000_01FC, 0x8000_0104),
    Word(0x8000_027C, 0x8000_0144),
    Bytes(0x8000_0320, &[1, 2]),
    Low(0x8000_0280, 0x8000_0200),
    Word(0x8000_0278, 0x8000_0200),
];

const WIRED_TO_ITSELF: &[Story<'static>] = &[
    Story {
        name: "the receiver is there",
        code: SENDS,
        given: WIRED,
        events: &[
            Run(9, &[(0, Data(1))]),
            Rests(Why::Idle),
            Take(1, Data(1), Some(Ack)),
            Take(0, Ack, Some(Data(2))),
            Take(1, Data(2), Some(Ack)),
            Take(0, Ack, None),
            Then(OVER),
        ],
    },
    Story {
        name: "the receiver comes later",
        code: SENDS,
        given: WIRED,
        events: &[
            Run(4, &[(0, Data(1))]),
            Take(1, Data(1), None),
            Run(5, &[(1, Ack)]),
            Take(0, Ack, Some(Data(2))),
            Take(1, Data(2), Some(Ack)),
            Take(0, Ack, None),
            Then(OVER),
        ],
    },
];

/// A message of no bytes does nothing, whatever its end is at and wherever its bytes would be.
const MESSAGES_OF_NO_BYTES: &[Row<'static>] = &[
    (
        &[0xFB],
        &[
            Stack(0, 0x8000_0000, 0x1234),
            Waits(0, 0x8000_0201, 0x8000_0310, 1),
        ],
        &[],
    ),
    (
        &[0xF7],
        &[
            Stack(0, 0x8000_0010, 0x1234),
            Inputs(0, 0x8000_0201, 0x8000_0320, 1),
        ],
        &[],
    ),
];

/// The direction of the link is tested first, also for no bytes; then whether the end is in use, wherever the message is.
const WRONG_AND_BUSY_ENDS: &[Row<'static>] = &[
    (&[0xF7], &[Stack(0, 0x8000_0000, 0)], &[Halt(1)]),
    (&[0xFB], &[Stack(0, 0x8000_001C, 0)], &[Halt(1)]),
    (&[0xFE], &[Stack(0, 0x8000_0010, 0)], &[Halt(1)]),
    (
        &[0xFB],
        &[
            Stack(1, 0x8000_0000, 0x8000_0310),
            Waits(0, 0x8000_0281, 0x8000_0310, 1),
        ],
        &[Halt(4)],
    ),
    (
        &[0xFB],
        &[
            Stack(2, 0x8000_0000, 0x8000_0FFF),
            Waits(0, 0x8000_0281, 0x8000_0310, 1),
        ],
        &[Halt(4)],
    ),
    (
        &[0xFF],
        &[
            Stack(7, 0x8000_0000, 0),
            Waits(0, 0x8000_0281, 0x8000_0310, 1),
        ],
        &[Halt(4)],
    ),
    (
        &[0xF7],
        &[
            Stack(2, 0x8000_0010, 0x8000_0FFF),
            Inputs(0, 0x8000_0281, 0x8000_0320, 1),
        ],
        &[Halt(4)],
    ),
    // The two low bits of a link's word don't count.
    (
        &[0xFB],
        &[
            Stack(1, 0x8000_000F, 0x8000_0310),
            Waits(3, 0x8000_0281, 0x8000_0310, 1),
        ],
        &[Halt(4)],
    ),
    (
        &[0xF7],
        &[
            Stack(1, 0x8000_001F, 0x8000_0310),
            Inputs(3, 0x8000_0281, 0x8000_0320, 1),
        ],
        &[Halt(4)],
    ),
    // An end is in use also if the own process enabled it.
    (
        &[0xF7],
        &[Stack(1, 0x8000_0010, 0x8000_0320), Enabled(0, 0x8000_0201)],
        &[Halt(4)],
    ),
    (
        &[0xF7],
        &[Stack(1, 0x8000_0010, 0x8000_0320), Enabled(0, 0x8000_0281)],
        &[Halt(4)],
    ),
];

/// Last come the range of the message and the word that a stop writes. But an output out of a register stores that first.
const OUTSIDE: &[Row<'static>] = &[
    (&[0xFB], &[Stack(2, 0x8000_0000, 0x8000_0FFF)], &[Halt(1)]),
    (&[0xF7], &[Stack(2, 0x8000_0010, 0x8000_0FFF)], &[Halt(1)]),
    (
        &[0xF7],
        &[Stack(2, 0x8000_0010, 0x8000_0FFF), Holds(0, 0x5A)],
        &[Halt(1)],
    ),
    (
        &[0xF7],
        &[Stack(1, 0x8000_0010, 0x8000_0320), Wptr(FIRST)],
        &[Halt(1)],
    ),
    (
        &[0xFE],
        &[
            Stack(7, 0x8000_0000, 0),
            Wptr(0x8000_1000),
            Waits(0, 0x8000_0281, 0x8000_0310, 1),
        ],
        &[Halt(1)],
    ),
];

#[test]
fn messages_and_ends(rt: HostRuntime) {
    play_all(&rt, rt.alloc(), SENDING);
    play_all(&rt, rt.alloc(), RECEIVING);
    play_all(&rt, rt.alloc(), WIRED_TO_ITSELF);
    check_rows(
        &rt,
        rt.alloc(),
        "messages of no bytes",
        MESSAGES_OF_NO_BYTES,
    );
    check_rows(&rt, rt.alloc(), "wrong and busy ends", WRONG_AND_BUSY_ENDS);
    check_rows(&rt, rt.alloc(), "outside", OUTSIDE);
}
