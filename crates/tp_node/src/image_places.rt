//! Where the fields of a node's image are.

/// The version, the halt code and the number of pages.
pub const VERSION_PLACE: usize = 0;

pub const HALT_PLACE: usize = 1;

pub const PAGES_PLACE: usize = 2;

/// The registers.
pub const IPTR_PLACE: usize = 4;

pub const WPTR_PLACE: usize = 8;

pub const A_PLACE: usize = 12;

pub const B_PLACE: usize = 16;

pub const C_PLACE: usize = 20;

/// The front of each queue, with the back in the next word.
pub const HIGH_PLACE: usize = 24;

pub const LOW_PLACE: usize = 32;

/// The Error flag, the state and the slice count.
pub const ERROR_PLACE: usize = 40;

pub const STATE_PLACE: usize = 41;

pub const SLICE_PLACE: usize = 42;

/// The links of a node, and the bytes of each of their ends.
pub const LINKS: usize = 4;

pub const END_BYTES: usize = 16;

/// The first output end and the first input end; those of the further links follow.
pub const OUTPUTS_PLACE: usize = 44;

pub const INPUTS_PLACE: usize = OUTPUTS_PLACE + END_BYTES * LINKS;

/// Where an end's process, pointer and count are, counted from its first byte.
pub const PROCESS_PLACE: usize = 4;

pub const POINTER_PLACE: usize = 8;

pub const LEFT_PLACE: usize = 12;
