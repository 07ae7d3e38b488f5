//! Why a run ends early.

use std::error::Error;
use std::fmt;
use tp_recover::Unopened;

/// In the order in which the causes are tested. The first four come before this run has written the device, all others may come after that.
#[derive(Clone, Copy, PartialEq, Eq)]
pub enum RunFault {
    /// The device isn't opened.
    Opening(Unopened),
    /// A node has fewer pages than the spare frames that were asked for.
    Spare,
    /// The port doesn't exist.
    Port,
    /// The device has no room for the entries of the input, which isn't empty. No byte of it was handed in.
    OfferRefused,
    /// A call of the device failed while the workers made their turns, or in the flush after them. Nothing is printed.
    FlushFailed,
    /// The output can't be written. Some of the output was printed, but not all of it; nothing is confirmed.
    OutputFailed,
    /// All output is printed, but the device has no room for the entry that confirms it.
    ConfirmRefused,
    /// All output is printed, but a call of the device failed before the confirmation was stored.
    LastFlushFailed,
    /// Something is under the book's lock that this run didn't put there. Either the port isn't as this run noted it, or the seats don't have exactly
    /// the slips of all entries. It can't occur, since no other thread is there.
    Unaccounted,
    /// Out of memory, at any step.
    Memory,
}

impl fmt::Display for RunFault {
    fn fmt<W: fmt::Write>(&self, f: &mut fmt::Formatter<W>) -> fmt::Result {
        let word = match *self {
            RunFault::Opening(unopened) => return fmt::Display::fmt(&unopened, f),
            RunFault::Spare => "Spare",
            RunFault::Port => "Port",
            RunFault::OfferRefused | RunFault::ConfirmRefused => "JournalFull",
            RunFault::FlushFailed | RunFault::OutputFailed | RunFault::LastFlushFailed => {
                "DeviceFailed"
            }
            RunFault::Unaccounted => "Unaccounted",
            RunFault::Memory => "Memory",
        };
        f.write_str(word)
    }
}

impl fmt::Debug for RunFault {
    fn fmt<W: fmt::Write>(&self, f: &mut fmt::Formatter<W>) -> fmt::Result {
        fmt::Display::fmt(self, f)
    }
}

impl Error for RunFault {}
