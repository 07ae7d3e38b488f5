//! Devices as they were made before areas had forms: their heads are of version 01, and no area holds a turn.

use crate::{SIZE, place, turned};
use std::alloc::{AllocError, Global};

/// Bytes at their places, piece after piece: a place, how many bytes are there, and these. All others are 00. It is one table of numbers:
/// who names a table pays for each reference within it.
pub(crate) type Pieces = &'static [u16];

/// What was formatted: the head, and the first area with the node that sends a letter.
const FORMATTED: Pieces = &[ //
    0, 10, 0x54, 0x50, 0x4E, 0x45, 0x54, 0, 0, 1, 1, 1, //
    16, 2, 0, 0x40, //
    24, 1, 4, //
    56, 1, 0x80, //
    512, 11, 0xA5, 1, 0, 0, 0, 0, 0, 0, 0, 0xDC, 0x30, //
    533, 12, 1, 0, 4, 0, 0, 1, 0, 0x80, 0, 2, 0, 0x80, //
    560, 15, 0x80, 0, 0, 0, 0x80, 0, 0, 0, 0x80, 0, 0, 0, 0x80, 0, 2, //
    752, 1, 0x80, //
    961, 13, 0x27, 0x2F, 0x2F, 0x2F, 0x2F, 0x2F, 0x6F, 0x40, 0x24, 0x41, 0xFE, 0x60, 0x0E, //
];

/// The group of the first turns: a run of 3 steps, the letter, its acknowledge, and a run of 16 steps.
const TURNED: Pieces = &[ //
    13_033, 3, 0xA5, 0, 4, //
    13_049, 3, 1, 0, 3, //
    13_065, 9, 2, 1, 0, 0, 0x41, 0, 0, 0, 1, //
    13_081, 9, 2, 2, 4, 0, 0, 0, 0, 0, 2, //
    13_097, 9, 1, 0, 16, 0, 0, 0, 0, 0, 3, //
];

/// The group after it: the letter is confirmed.
const CONFIRMED: Pieces = &[ //
    13_113, 9, 0xA5, 0, 1, 0, 0, 0, 0, 0, 4, //
    13_129, 9, 4, 0, 0, 0, 1, 0, 0, 0, 4, //
];

/// The second area after a checkpoint, but for its gate: all five entries are in its cut.
const CHECKPOINT: Pieces = &[ //
    16_897, 13, 2, 0, 0, 0, 0, 0, 0, 0, 0xDC, 0x30, 0, 0, 5, //
    16_917, 12, 1, 0, 4, 0, 0x0B, 1, 0, 0x80, 0, 2, 0, 0x80, //
    16_944, 16, 0x80, 0, 0, 0, 0x80, 0, 0, 0, 0x80, 0, 2, 0, 0x80, 0, 2, 0x0F, //
    17_136, 1, 0x80, //
    17_345, 13, 0x27, 0x2F, 0x2F, 0x2F, 0x2F, 0x2F, 0x6F, 0x40, 0x24, 0x41, 0xFE, 0x60, 0x0E, //
    17_597, 5, 0x0B, 1, 0, 0x80, 0x41, //
    21_213, 1, 1, //
];

const SWITCHED: Pieces = &[ //
    16_896, 1, 0xA5, //
];

/// The group after that: two runs of 16 steps.
const GOES_ROUND: Pieces = &[ //
    29_417, 9, 0xA5, 0, 2, 0, 0, 0, 0, 0, 5, //
    29_433, 9, 1, 0, 16, 0, 0, 0, 0, 0, 5, //
    29_449, 9, 1, 0, 16, 0, 0, 0, 0, 0, 6, //
];

/// A device of the network of one node, whose pieces have a letter each, and what it opens to: whether the second area is open, its generation, how
/// many entries its cut holds, and the number of the next entry.
#[derive(Clone, Copy)]
pub struct Kept {
    pub(crate) pieces: [u8; 7],
    pub second: bool,
    pub generation: u64,
    pub base: u64,
    pub next: u64,
}

/// Freshly formatted; after the first turns; with the letter confirmed; also while a checkpoint isn't done; after the checkpoint; and with two
/// runs after that.
pub const KEPT: [Kept; 6] = [
    Kept {
        pieces: *b"f      ",
        second: false,
        generation: 1,
        base: 0,
        next: 0,
    },
    Kept {
        pieces: *b"ft     ",
        second: false,
        generation: 1,
        base: 0,
        next: 4,
    },
    Kept {
        pieces: *b"ftc    ",
        second: false,
        generation: 1,
        base: 0,
        next: 5,
    },
    Kept {
        pieces: *b"ftcp   ",
        second: false,
        generation: 1,
        base: 0,
        next: 5,
    },
    Kept {
        pieces: *b"ftcps  ",
        second: true,
        generation: 2,
        base: 5,
        next: 5,
    },
    Kept {
        pieces: *b"ftcpsg ",
        second: true,
        generation: 2,
        base: 5,
        next: 7,
    },
];

/// The pieces of a letter; none if it has none.
fn pieces_of(letter: u8) -> Pieces {
    match letter {
        b'f' => FORMATTED,
        b't' => TURNED,
        b'c' => CONFIRMED,
        b'p' => CHECKPOINT,
        b's' => SWITCHED,
        b'g' => GOES_ROUND,
        _ => turned::pieces_of(letter),
    }
}

/// Puts pieces at their places.
fn place_pieces(bytes: &mut [u8], pieces: &[u16]) {
    let mut at = 0usize;
    let mut left = 0u16;
    let mut is_place = true;
    for number in pieces {
        if left > 0 {
            let [byte, _] = number.to_le_bytes();
            place(bytes, at, &[byte]);
            at = at.saturating_add(1);
            left -= 1;
        } else if is_place {
            at = usize::from(*number);
            is_place = false;
        } else {
            left = *number;
            is_place = true;
        }
    }
}

impl Kept {
    /// The device's bytes.
    pub fn bytes(&self, alloc: Global) -> Result<Vec<u8>, AllocError> {
        let mut bytes = Vec::from_elem(alloc, 0u8, SIZE)?;
        for letter in self.pieces {
            place_pieces(&mut bytes, pieces_of(letter));
        }
        Ok(bytes)
    }
}
