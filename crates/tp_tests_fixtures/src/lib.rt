//! What tests begin with: images of nodes, and the device of a network of one node.
#![tactic(auto)]

mod kept;
mod turned;

pub use kept::{KEPT, Kept};
use std::alloc::{AllocError, Global};
pub use turned::WITH_TURNS;

/// A network of one node of four pages, whose link 0 is wired to a port.
pub const ONE_NODE: &[u8] = b"node a 4\nport h\nwire a.0 h\n";

/// Bytes of an area of that network's device, and of the device.
pub const AREA: u64 = 16_384;

pub const SIZE: usize = 33_280;

/// Where the first area's groups begin on that device, and where the second area does.
pub const GROUPS: usize = 13_033;

pub const SECOND: usize = 16_896;

/// Bytes of an image before its memory, and of an image of four pages.
pub const HEAD: usize = 172;

pub const IMAGE: usize = HEAD + 4096;

/// `ldc MostNeg`, `ldc 41`, `outbyte`, `j -2`: sends the letter A on link 0, waits for the acknowledge, and then jumps to itself.
pub const SENDS_A: &[u8] = &[
    0x27, 0x2F, 0x2F, 0x2F, 0x2F, 0x2F, 0x6F, 0x40, 0x24, 0x41, 0xFE, 0x60, 0x0E,
];

/// The version and the pages of an image; the queues and the word of the interrupted process, which name no process.
const IDLE: &[(usize, &[u8])] = &[
    (0, &[1, 0, 4, 0]),
    (24, &[0, 0, 0, 0x80, 0, 0, 0, 0x80]),
    (32, &[0, 0, 0, 0x80, 0, 0, 0, 0x80]),
    (HEAD + 0x2C, &[0, 0, 0, 0x80]),
];

/// A low process runs: its Iptr, its Wptr, the state, and its instructions.
const RUNS: &[(usize, &[u8])] = &[
    (4, &[0x00, 0x01, 0x00, 0x80]),
    (8, &[0x00, 0x02, 0x00, 0x80]),
    (41, &[2]),
    (HEAD + 0x100, SENDS_A),
];

/// Puts `piece` into `bytes` at a place, and leaves out what would go past the end.
pub fn place(bytes: &mut [u8], at: usize, piece: &[u8]) {
    for (old, new) in bytes.iter_mut().skip(at).zip(piece) {
        *old = *new;
    }
}

/// Puts pieces at their places, one after another.
fn place_all(bytes: &mut [u8], pieces: &[(usize, &[u8])]) {
    for (at, piece) in pieces {
        place(bytes, *at, piece);
    }
}

/// The image of a node of four pages in which no process runs.
pub fn idle(alloc: Global) -> Result<Vec<u8>, AllocError> {
    let mut image = Vec::from_elem(alloc, 0u8, IMAGE)?;
    place_all(&mut image, IDLE);
    Ok(image)
}

/// The image of a node of four pages in which a low process sends the letter A on link 0, and then goes round.
pub fn letter(alloc: Global) -> Result<Vec<u8>, AllocError> {
    let mut image = idle(alloc)?;
    place_all(&mut image, RUNS);
    Ok(image)
}
