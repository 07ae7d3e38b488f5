//! Why a stream ends early.

use std::error::Error;
use std::fmt;
use tp_recover::Unopened;

/// After each of the first nine, the device is as it was, and nothing was put into a sink.
#[derive(Clone, Copy, PartialEq, Eq)]
pub enum StreamFault {
    /// The device isn't opened.
    Opening(Unopened),
    /// A node has fewer pages than the spare frames that were asked for.
    Spare,
    /// A sink or a source is for a port that doesn't exist.
    Port(u8),
    /// No sink is for this port, though it has a wire.
    Unnamed(u8),
    /// A sink has fewer bytes than come before the next one to put.
    Short { port: u8, has: u64, from: u64 },
    /// A sink has more bytes than the port has put out. Those at the end aren't the port's.
    Long { port: u8, has: u64, upto: u64 },
    /// A reader has fewer outputs than were confirmed. Those between are gone.
    Gone { port: u8, have: u64, confirmed: u64 },
    /// A reader says that it has more outputs than are shown.
    NotShown { port: u8, have: u64, shown: u64 },
    /// An input has fewer bytes than its port has accepted, so it isn't the port's input.
    ShortInput { port: u8, has: u64, accepted: u64 },
    /// The input of a port can't be read.
    InputFailed(u8),
    /// The output of a port can't be put into its sink, or can't be made safe there. It isn't confirmed.
    OutputFailed(u8),
    /// A call of the device failed in a flush. No call was made after it.
    FlushFailed,
    /// The book or the area takes no entries, though no call of the device failed in a flush. Or, after the last flush, an entry isn't stored, an output
    /// is left that the stream had to put, or an entry has no slip in a seat of the stream. None of that occurs: a failed flush is told first, and the
    /// last flush comes after all turns and steps. No clause says this.
    NotStored,
    /// The journal has no room, and no checkpoint makes any.
    JournalFull,
    /// Out of memory, at any step.
    Memory,
}

/// Writes a word, a port and two numbers.
fn write_numbers<W: fmt::Write>(
    f: &mut fmt::Formatter<W>,
    word: &str,
    port: u8,
    first: u64,
    second: u64,
) -> fmt::Result {
    write!(f, "{word} {port} {first} {second}")
}

/// Writes a word and a port.
fn write_port<W: fmt::Write>(f: &mut fmt::Formatter<W>, word: &str, port: u8) -> fmt::Result {
    write!(f, "{word} {port}")
}

impl fmt::Display for StreamFault {
    fn fmt<W: fmt::Write>(&self, f: &mut fmt::Formatter<W>) -> fmt::Result {
        match *self {
            StreamFault::Opening(unopened) => fmt::Display::fmt(&unopened, f),
            StreamFault::Spare => f.write_str("Spare"),
            StreamFault::Port(port) => write_port(f, "Port", port),
            StreamFault::Unnamed(port) => write_port(f, "Unnamed", port),
            StreamFault::Short { port, has, from } => write_numbers(f, "Short", port, has, from),
            StreamFault::Long { port, has, upto } => write_numbers(f, "Long", port, has, upto),
            StreamFault::Gone {
                port,
                have,
                confirmed,
            } => write_numbers(f, "Gone", port, have, confirmed),
            StreamFault::NotShown { port, have, shown } => {
                write_numbers(f, "NotShown", port, have, shown)
            }
            StreamFault::ShortInput {
                port,
                has,
                accepted,
            } => write_numbers(f, "ShortInput", port, has, accepted),
            StreamFault::InputFailed(_) => f.write_str("ReadFailed"),
            StreamFault::OutputFailed(_) | StreamFault::FlushFailed | StreamFault::NotStored => {
                f.write_str("DeviceFailed")
            }
            StreamFault::JournalFull => f.write_str("JournalFull"),
            StreamFault::Memory => f.write_str("Memory"),
        }
    }
}

impl fmt::Debug for StreamFault {
    fn fmt<W: fmt::Write>(&self, f: &mut fmt::Formatter<W>) -> fmt::Result {
        fmt::Display::fmt(self, f)
    }
}

impl Error for StreamFault {}
