//! Devices with turns in their journals, made by hand after the tables of the formats.

use crate::kept::{Kept, Pieces};

/// The first area has turns, and the group of the first ones: a run of 3 steps, the letter, and a turn in which the node takes the
/// acknowledge and makes 16 steps.
const TURNED: Pieces = &[ //
    531, 1, 2, //
    13_033, 3, 0xA5, 0, 3, //
    13_049, 3, 1, 0, 3, //
    13_065, 9, 2, 1, 0, 0, 0x41, 0, 0, 0, 1, //
    13_081, 15, 5, 0, 16, 0, 0, 0, 0, 0, 2, 0, 0, 0, 0, 0, 2, //
];

/// The group after it: the letter is confirmed.
const CONFIRMED: Pieces = &[ //
    13_097, 9, 0xA5, 0, 1, 0, 0, 0, 0, 0, 3, //
    13_113, 9, 4, 0, 0, 0, 1, 0, 0, 0, 3, //
];

/// What is other in the second area: its cut has four entries, and it has turns.
const CUT: Pieces = &[ //
    16_909, 1, 4, //
    16_915, 1, 2, //
];

/// The group there: the port is handed the letter B, and in a turn the node takes it and makes 16 steps.
const HANDED: Pieces = &[ //
    29_417, 9, 0xA5, 0, 2, 0, 0, 0, 0, 0, 4, //
    29_433, 9, 3, 0, 0x42, 0, 0, 0, 0, 0, 4, //
    29_449, 15, 5, 0, 16, 0, 0x42, 0, 0, 0, 5, 0, 0, 0, 0, 0, 1, //
];

/// After the first turns; and after a checkpoint, with a turn more.
pub const WITH_TURNS: [Kept; 2] = [
    Kept {
        pieces: *b"fT     ",
        second: false,
        generation: 1,
        base: 0,
        next: 3,
    },
    Kept {
        pieces: *b"fTCpush",
        second: true,
        generation: 2,
        base: 4,
        next: 6,
    },
];

/// The pieces of a letter; none if it has none.
pub(crate) fn pieces_of(letter: u8) -> Pieces {
    match letter {
        b'T' => TURNED,
        b'C' => CONFIRMED,
        b'u' => CUT,
        b'h' => HANDED,
        _ => &[],
    }
}
