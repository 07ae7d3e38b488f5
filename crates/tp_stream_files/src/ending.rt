//! How a stream ended.

use tp_model::Fault;

/// Why a stream is over.
#[derive(Clone, Copy, PartialEq, Eq)]
pub enum Ending {
    /// The stream was to end once nothing is left to do, and nothing is.
    Quiet,
    /// All turns that the stream may have were made.
    Turns,
    /// Nothing is left to do and no input can come any more, or whoever takes an output has gone.
    Gone,
    /// The stream was to end once a node halts, and one has halted.
    Halted,
    /// The stream was to end once it is asked to stop, and it was asked.
    Stopped,
}

impl Ending {
    /// Gives the word for it.
    pub fn word(self) -> &'static str {
        match self {
            Ending::Quiet => "quiet",
            Ending::Turns => "turns",
            Ending::Gone => "gone",
            Ending::Halted => "halted",
            Ending::Stopped => "stopped",
        }
    }
}

/// What a stream came to: the number that the next entry gets, and why it is over. All entries below that number are stored.
#[derive(Clone, Copy, PartialEq, Eq)]
pub struct Ended {
    pub next: u64,
    pub why: Ending,
}

/// Why a node does nothing any more.
#[derive(Clone, Copy, PartialEq, Eq)]
pub enum Stopped {
    /// It halted at the instruction at this address.
    Halted { fault: Fault, at: u32 },
    /// It waits at a link, though a port has input that no node has taken.
    Waits,
}
