//! The state of a node between its turns.

use tp_model::Fault;

/// Whether a node has halted, and at which address, and whether one of its processes waits at a link.
#[derive(Clone, Copy, PartialEq, Eq)]
pub enum Standing {
    /// It halted at the instruction at this address.
    Halted { fault: Fault, at: u32 },
    /// It has not halted, and a process of it waits at a link: for the acknowledge of a byte, or for a byte.
    Waits,
    /// It has not halted, and no process of it waits at a link.
    Free,
}
