//! Alternatives: a process waits for the first of several partners.

use crate::image::FIRST;
use crate::image::Fact::{Bytes, Gone, Holds, Iptr, Low, Runs, Slice, Stack, Word};
use crate::story::Event::{Run, Then};
use crate::story::{Row, Story, check_rows, play_all};

const CHOICES: &[Story<'static>] = &[
    Story {
        name: "of a skip guard and a link that holds a byte, the first that is asked is chosen",
        // alt; ldc 1, enbs; mint, ldnlp 4, ldc 1, enbc; altwt;
        // ldc 1, ldc 0, diss; mint, ldnlp 4, ldc 1, ldc 5, disc; altend
        code: &[
            0x24, 0xF3, 0x41, 0x24, 0xF9, 0x24, 0xF2, 0x54, 0x41, 0x24, 0xF8, 0x24, 0xF4, 0x41,
            0x40, 0x23, 0xF0, 0x24, 0xF2, 0x54, 0x41, 0x45, 0x22, 0xFF, 0x24, 0xF5,
        ],
        given: &[Holds(0, 0x5A)],
        events: &[
            Run(8, &[]),
            Then(&[
                Iptr(0x8000_010D),
                Slice(8),
                Stack(1, 1, 1),
                Word(0x8000_0200, 0xFFFF_FFFF),
                Word(0x8000_01F4, 0x8000_0003),
            ]),
            Run(3, &[]),
            Then(&[Iptr(0x8000_0111), Slice(11), Word(0x8000_0200, 0)]),
            Run(5, &[]),
            Then(&[Iptr(0x8000_0118), Slice(16), Stack(0, 1, 0x8000_0010)]),
            Run(1, &[]),
            Then(&[Iptr(0x8000_011A), Slice(17)]),
        ],
    },
    Story {
        name: "of two channels at which a partner waits, the first that is asked is chosen",
        // alt; ldl 1, ldc 1, enbc; ldl 2, ldc 1, enbc; altwt;
        // ldl 1, ldc 1, ldc 1, disc; ldl 2, ldc 1, ldc 2, disc; altend
        code: &[
            0x24, 0xF3, 0x71, 0x41, 0x24, 0xF8, 0x72, 0x41, 0x24, 0xF8, 0x24, 0xF4, 0x71, 0x41,
            0x41, 0x22, 0xFF, 0x72, 0x41, 0x42, 0x22, 0xFF, 0x24, 0xF5,
        ],
        given: &[
            Word(0x8000_0204, 0x8000_0300),
            Word(0x8000_0208, 0x8000_0304),
            Word(0x8000_0300, 0x8000_0401),
            Word(0x8000_0304, 0x8000_0501),
        ],
        events: &[
            Run(17, &[]),
            Then(&[
                Iptr(0x8000_0119),
                Slice(17),
                Stack(0, 1, 0x8000_0304),
                Word(0x8000_0200, 1),
                Word(0x8000_01F4, 0x8000_0003),
            ]),
        ],
    },
    Story {
        name: "an alternative that waits is woken by a sender, who then waits for the input",
        // alt; ldl 1, ldc 1, enbc; altwt; ldl 1, ldc 1, ldc 5, disc
        code: &[
            0x24, 0xF3, 0x71, 0x41, 0x24, 0xF8, 0x24, 0xF4, 0x71, 0x41, 0x45, 0x22, 0xFF,
        ],
        given: &[
            Word(0x8000_0204, 0x8000_0300),
            Word(0x8000_0300, FIRST),
            // ldl 3, ldl 2, ldl 1, out
            Bytes(0x8000_0140, &[0x73, 0x72, 0x71, 0xFB]),
            Word(0x8000_027C, 0x8000_0140),
            Word(0x8000_0284, 4),
            Word(0x8000_0288, 0x8000_0300),
            Word(0x8000_028C, 0x8000_0310),
            Low(0x8000_0280, 0x8000_0280),
        ],
        events: &[
            Run(5, &[]),
            Then(&[
                Gone,
                Slice(5),
                Word(0x8000_0200, 0xFFFF_FFFF),
                Word(0x8000_01F4, 0x8000_0002),
                Word(0x8000_01FC, 0x8000_0108),
                Word(0x8000_0300, 0x8000_0201),
            ]),
            Run(5, &[]),
            Then(&[
                Slice(4),
                Low(0x8000_0200, 0x8000_0200),
                Word(0x8000_01F4, 0x8000_0003),
                Word(0x8000_0300, 0x8000_0281),
                Word(0x8000_0274, 0x8000_0310),
                Word(0x8000_027C, 0x8000_0144),
            ]),
            Run(5, &[]),
            Then(&[
                Runs(0x8000_010D, 0x8000_0200),
                Stack(1, 1, 0x8000_0300),
                Low(FIRST, 0x8000_0200),
                Word(0x8000_0200, 5),
            ]),
        ],
    },
    Story {
        name: "an alternative that is being enabled is made ready by a sender",
        // ldl 3, ldl 2, ldl 1, out
        code: &[0x73, 0x72, 0x71, 0xFB],
        given: &[
            Word(0x8000_0204, 4),
            Word(0x8000_0208, 0x8000_0300),
            Word(0x8000_020C, 0x8000_0310),
            Word(0x8000_0300, 0x8000_0281),
            Word(0x8000_0274, 0x8000_0001),
        ],
        events: &[
            Run(4, &[]),
            Then(&[
                Gone,
                Slice(4),
                Word(0x8000_0274, 0x8000_0003),
                Word(0x8000_0300, 0x8000_0201),
                Word(0x8000_01F4, 0x8000_0310),
                Word(0x8000_01FC, 0x8000_0104),
            ]),
        ],
    },
];

/// A guard that is false leaves its channel alone, and one that nobody came for is taken back.
const GUARDS_THAT_ARE_NOT_READY: &[Row<'static>] = &[
    // enbc of a false guard, of an empty channel, of one that is its own
    (
        &[0x24, 0xF8],
        &[Stack(0, 0x8000_0300, 7), Word(0x8000_0300, FIRST)],
        &[Stack(0, 7, 7)],
    ),
    (
        &[0x24, 0xF8],
        &[Stack(1, 0x8000_0300, 7), Word(0x8000_0300, FIRST)],
        &[Stack(1, 7, 7), Word(0x8000_0300, 0x8000_0201)],
    ),
    (
        &[0x24, 0xF8],
        &[Stack(1, 0x8000_0300, 7), Word(0x8000_0300, 0x8000_0201)],
        &[Stack(1, 7, 7)],
    ),
    // disc of a false guard, of an empty channel, of one that is its own
    (
        &[0x22, 0xFF],
        &[Stack(5, 0, 0x8000_0300), Word(0x8000_0300, 0x8000_0201)],
        &[Stack(0, 0, 0x8000_0300)],
    ),
    (
        &[0x22, 0xFF],
        &[Stack(5, 1, 0x8000_0300), Word(0x8000_0300, FIRST)],
        &[Stack(0, 1, 0x8000_0300)],
    ),
    (
        &[0x22, 0xFF],
        &[Stack(5, 1, 0x8000_0300), Word(0x8000_0300, 0x8000_0201)],
        &[Stack(0, 1, 0x8000_0300), Word(0x8000_0300, FIRST)],
    ),
];

/// A skip guard that is false, one that is true, and one that comes after another was chosen.
const SKIPS: &[Row<'static>] = &[
    (&[0x24, 0xF9], &[Stack(0, 2, 3)], &[]),
    (
        &[0x24, 0xF9],
        &[Stack(2, 2, 3)],
        &[Word(0x8000_01F4, 0x8000_0003)],
    ),
    (
        &[0x23, 0xF0],
        &[Stack(5, 0, 7), Word(0x8000_0200, 0xFFFF_FFFF)],
        &[Stack(0, 7, 7)],
    ),
    (
        &[0x23, 0xF0],
        &[Stack(5, 1, 7), Word(0x8000_0200, 3)],
        &[Stack(0, 7, 7)],
    ),
];

#[test]
fn alternatives(rt: HostRuntime) {
    play_all(&rt, rt.alloc(), CHOICES);
    check_rows(
        &rt,
        rt.alloc(),
        "guards that are not ready",
        GUARDS_THAT_ARE_NOT_READY,
    );
    check_rows(&rt, rt.alloc(), "skips", SKIPS);
}
