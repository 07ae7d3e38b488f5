//! Checkpoints act by act, and what a crash leaves of each: worked out by hand.

use crate::acts::Act::{Begin, Book, Fails, Flush, Offer, Rounds, Turn};
use crate::acts::Story;
use crate::small::{Made, Network, ONE, Program};
use tp_node::Why;
use tp_tests_fixtures::SECOND;

/// What a crash leaves of a device: the open area, what opening says of it, pieces of the device's bytes, and words of the nodes' images
/// after opening, each with its node and its place.
#[derive(Clone, Copy)]
pub(crate) struct Device {
    pub(crate) second: bool,
    pub(crate) generation: u64,
    pub(crate) base: u64,
    pub(crate) next: u64,
    pub(crate) bytes: &'static [(usize, &'static [u8])],
    pub(crate) words: &'static [(usize, usize, [u8; 4])],
}

/// mint; ldnlp 0; ldc 58; outbyte; stopp
const SENDS_ONCE: Program = Program {
    code: &[0x24, 0xF2, 0x50, 0x25, 0x48, 0xFE, 0x21, 0xF5],
    workspace: 0x200,
};

const IDLE: Program = Program {
    code: &[],
    workspace: 0,
};

/// ldl 1; adc 1; stl 1; j -5. It counts in its workspace.
pub(crate) const COUNTS: &[u8] = &[0x71, 0x81, 0xD1, 0x60, 0x0B];

/// ldc 4; stl 0; ldc 5; stl 128, and a number that is no operation. The first word is in page 0, the other in page 1.
const WRITES: &[u8] = &[0x44, 0xD0, 0x45, 0x28, 0xD0, 0x22, 0xF2];

const PAIR: &[u8] = b"node a 4\nnode b 4\nport h\nwire a.0 b.0\nwire a.3 h\n";

/// A byte is under way as both nodes record: the receiver before it took it, the sender after it was sent.
pub(crate) const UNDER_WAY: Story<'static> = Story {
    network: Network {
        text: PAIR,
        programs: &[SENDS_ONCE, IDLE],
        area: 20_480,
        made: Made::Formatted,
    },
    spare: 4,
    quantum: 16,
    offered: b"",
    is_plain: false,
    acts: &[
        Turn(0, 0, Some((4, Why::Idle))),
        Book(1, false),
        Begin,
        Turn(1, 1, Some((0, Why::Idle))),
        Turn(2, 0, None),
        Flush(false),
        Turn(0, 0, Some((0, Why::Idle))),
        Turn(1, 0, Some((0, Why::Idle))),
        Book(2, false),
        Turn(2, 0, None),
        Book(2, true),
        Flush(true),
        Book(2, false),
    ],
};

pub(crate) const UNDER_WAY_LEFT: Device = Device {
    second: true,
    generation: 2,
    base: 1,
    next: 2,
    bytes: &[
        // The gate, the generation, the length of the cut, the base, and that the area has turns.
        (
            20_992,
            &[
                0xA5, 2, 0, 0, 0, 0, 0, 0, 0, 0x98, 0x41, 0, 0, 1, 0, 0, 0, 0, 0, 2, 0,
            ],
        ),
        // The first node's output waits; the other's input holds nothing.
        (
            21_057,
            &[1, 0, 0, 0, 1, 2, 0, 0x80, 0, 2, 0, 0x80, 1, 0, 0, 0],
        ),
        (25_389, &[0; 16]),
        // The lines: the byte is on the first. Then the port.
        (29_549, &[1, 1, 0, 0x58]),
        (29_553, &[0; 32]),
        (29_585, &[0; 20]),
        // The group of one entry, and a closed gate after it.
        (37_797, &[0xA5, 0, 1, 0, 0, 0, 0, 0, 1, 0, 0, 0, 0, 0, 0, 0]),
        (
            37_813,
            &[5, 1, 0, 0, 0x58, 0, 0, 0, 1, 0, 0, 0, 0, 0, 1, 0, 0],
        ),
    ],
    words: &[(1, 108, [0, 1, 0x58, 0])],
};

/// The second node records when the next number is 9, the cut is whole at 12, and the entries after it reach 12. Both nodes count
/// on meanwhile.
pub(crate) const LATE: Story<'static> = Story {
    network: Network {
        text: PAIR,
        programs: &[
            Program {
                code: COUNTS,
                workspace: 0x200,
            },
            Program {
                code: COUNTS,
                workspace: 0x600,
            },
        ],
        area: 20_480,
        made: Made::Formatted,
    },
    spare: 4,
    quantum: 4,
    offered: b"",
    is_plain: false,
    acts: &[
        Offer(0, b"w"),
        Turn(0, 1, Some((4, Why::Full))),
        Turn(1, 0, Some((4, Why::Full))),
        Turn(2, 0, None),
        Turn(0, 0, Some((4, Why::Full))),
        Turn(1, 0, Some((4, Why::Full))),
        Turn(2, 0, None),
        Turn(0, 0, Some((4, Why::Full))),
        Book(6, false),
        Begin,
        Offer(1, b"xyz"),
        Book(9, false),
        Turn(1, 0, Some((4, Why::Full))),
        Flush(false),
        Turn(2, 0, None),
        Turn(0, 0, Some((4, Why::Full))),
        Turn(1, 0, Some((4, Why::Full))),
        Book(12, false),
        Turn(2, 0, None),
        Book(12, true),
        Flush(true),
        Book(12, false),
    ],
};

pub(crate) const LATE_LEFT: Device = Device {
    second: true,
    generation: 2,
    base: 6,
    next: 12,
    bytes: &[
        (
            20_992,
            &[
                0xA5, 2, 0, 0, 0, 0, 0, 0, 0, 0x98, 0x41, 0, 0, 6, 0, 0, 0, 0, 0, 2, 0,
            ],
        ),
        // What both had counted as they recorded; the first holds the port's byte.
        (21_701, &[3, 0, 0, 0]),
        (26_993, &[2, 0, 0, 0]),
        (21_169, &[0, 1, 0x77, 0]),
        // No line has a token; one byte is pending.
        (29_549, &[0; 36]),
        (29_585, &[0; 16]),
        (29_601, &[1, 0, 0, 0, 0x77, 0]),
        // One group of six entries, the last of them, and a closed gate.
        (37_797, &[0xA5, 0, 6, 0, 0, 0, 0, 0, 6, 0, 0, 0, 0, 0, 0, 0]),
        (
            37_893,
            &[1, 1, 4, 0, 0, 0, 0, 0, 11, 0, 0, 0, 0, 0, 0, 0, 0],
        ),
    ],
    words: &[(0, 688, [4, 0, 0, 0]), (1, 1712, [4, 0, 0, 0])],
};

/// Three checkpoints. After the first one the second area gets forty groups more, the last of them in the turn of the second one. The
/// third one, with one entry outside its cut, leaves them standing after the closed gate of its group.
pub(crate) const THIRD: Story<'static> = Story {
    network: Network {
        programs: &[Program {
            code: COUNTS,
            workspace: 0x200,
        }],
        ..ONE
    },
    spare: 4,
    quantum: 4,
    offered: b"",
    is_plain: false,
    acts: &[
        Rounds(1, 0),
        Begin,
        Turn(0, 0, Some((4, Why::Full))),
        Turn(1, 0, None),
        Book(2, true),
        Flush(true),
        Rounds(39, 0),
        Book(41, false),
        Begin,
        Turn(0, 0, Some((4, Why::Full))),
        Turn(1, 0, None),
        Flush(true),
        Begin,
        Turn(0, 0, Some((4, Why::Full))),
        Turn(1, 0, None),
        Book(43, true),
        Flush(true),
        Book(43, false),
    ],
};

pub(crate) const THIRD_LEFT: Device = Device {
    second: true,
    generation: 4,
    base: 42,
    next: 43,
    bytes: &[
        // The second checkpoint, its count, and its one entry after the cut.
        (
            512,
            &[
                0xA5, 3, 0, 0, 0, 0, 0, 0, 0, 0xDC, 0x30, 0, 0, 41, 0, 0, 0, 0, 0, 2, 0,
            ],
        ),
        (1221, &[41, 0, 0, 0]),
        (
            13_033,
            &[0xA5, 0, 1, 0, 0, 0, 0, 0, 41, 0, 0, 0, 0, 0, 0, 0],
        ),
        // The third one.
        (
            16_896,
            &[
                0xA5, 4, 0, 0, 0, 0, 0, 0, 0, 0xDC, 0x30, 0, 0, 42, 0, 0, 0, 0, 0, 2, 0,
            ],
        ),
        (17_605, &[42, 0, 0, 0]),
        (
            29_417,
            &[0xA5, 0, 1, 0, 0, 0, 0, 0, 42, 0, 0, 0, 0, 0, 0, 0],
        ),
        // The gate after its group; then groups of the first one; the last has the number 41.
        (29_449, &[0, 0, 1, 0, 0, 0, 0, 0, 2, 0, 0, 0, 0, 0, 0, 0]),
        (29_481, &[0xA5, 0, 1, 0, 0, 0, 0, 0, 3, 0, 0, 0, 0, 0, 0, 0]),
        (
            30_697,
            &[0xA5, 0, 1, 0, 0, 0, 0, 0, 41, 0, 0, 0, 0, 0, 0, 0],
        ),
        (30_729, &[0]),
    ],
    words: &[(0, 688, [43, 0, 0, 0])],
};

/// A letter is sent, taken and acknowledged; then a checkpoint, whose last call that writes the device is that of the gate.
pub(crate) const SWITCHED: Story<'static> = Story {
    network: ONE,
    spare: 4,
    quantum: 16,
    offered: b"",
    is_plain: false,
    acts: &[
        Turn(0, 0, Some((3, Why::Idle))),
        Turn(1, 1, None),
        Turn(0, 1, Some((16, Why::Full))),
        Turn(1, 0, None),
        Book(3, false),
        Flush(false),
        Begin,
        Turn(0, 0, Some((16, Why::Full))),
        Turn(1, 0, None),
        Book(4, true),
        Fails,
    ],
};

/// More calls of the device than the story makes.
pub(crate) const CALLS: u64 = 100;

/// What is there if the gate is half written.
pub(crate) const TORN: &[(usize, &[u8])] = &[
    (SECOND, &[0x5A]),
    (
        16_897,
        &[
            2, 0, 0, 0, 0, 0, 0, 0, 0xDC, 0x30, 0, 0, 3, 0, 0, 0, 0, 0, 2, 0,
        ],
    ),
];

/// What it leaves once the gate is open.
pub(crate) const SWITCHED_LEFT: Device = Device {
    second: true,
    generation: 2,
    base: 3,
    next: 4,
    bytes: &[
        (13_033, &[0xA5, 0, 3, 0, 0, 0, 0, 0, 0]),
        (13_097, &[0xA5, 0, 1, 0, 0, 0, 0, 0, 3]),
        (
            16_897,
            &[
                2, 0, 0, 0, 0, 0, 0, 0, 0xDC, 0x30, 0, 0, 3, 0, 0, 0, 0, 0, 2, 0,
            ],
        ),
        (29_417, &[0xA5, 0, 1, 0, 0, 0, 0, 0, 3]),
        (29_449, &[0]),
    ],
    words: &[],
};

/// What it leaves if another byte is there.
pub(crate) const NOT_SWITCHED_LEFT: Device = Device {
    second: false,
    generation: 1,
    base: 0,
    next: 4,
    ..SWITCHED_LEFT
};

/// With one spare frame a frozen node writes its first page, and the step that writes the second one isn't made until the pages are released.
pub(crate) const ONE_SPARE: Story<'static> = Story {
    network: Network {
        programs: &[Program {
            code: WRITES,
            workspace: 0x200,
        }],
        ..ONE
    },
    spare: 1,
    quantum: 9,
    offered: b"",
    is_plain: false,
    acts: &[
        Begin,
        Turn(0, 0, Some((3, Why::NoFrame))),
        Turn(1, 0, None),
        Turn(0, 0, Some((0, Why::NoFrame))),
        Turn(1, 0, None),
        Book(1, true),
        Flush(true),
        Turn(0, 0, Some((2, Why::Halted))),
        Turn(1, 0, None),
        Flush(false),
        Book(2, false),
    ],
};

pub(crate) const ONE_SPARE_LEFT: Device = Device {
    second: true,
    generation: 2,
    base: 0,
    next: 2,
    // Both words as they were when the node recorded.
    bytes: &[(17_601, &[0; 4]), (18_113, &[0; 4])],
    words: &[(0, 684, [4, 0, 0, 0]), (0, 1196, [5, 0, 0, 0])],
};

/// With none already the first word wants a frame.
pub(crate) const NONE_SPARE: Story<'static> = Story {
    spare: 0,
    acts: &[
        Begin,
        Turn(0, 0, Some((1, Why::NoFrame))),
        Turn(1, 0, None),
        Turn(0, 0, Some((0, Why::NoFrame))),
        Turn(1, 0, None),
        Book(1, true),
        Flush(true),
        Turn(0, 0, Some((4, Why::Halted))),
        Turn(1, 0, None),
        Flush(false),
        Book(2, false),
    ],
    ..ONE_SPARE
};
