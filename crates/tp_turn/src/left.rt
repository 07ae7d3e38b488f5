//! Why a line was left.

/// Why a turn left a line, and took no more from it.
#[derive(Clone, Copy)]
pub enum Left {
    /// No wire leads there.
    NoWire,
    /// All was taken that a turn may take from one line.
    Enough,
    /// The line is empty.
    Empty,
    /// A Marker is at the front, and no snapshot runs in which the receiver has recorded.
    Marked,
    /// The node's memory has no frame for the token at the front.
    NoFrame,
    /// The port has no room for the byte at the front.
    PortFull,
    /// The journal has no room for another entry, or no number.
    JournalFull,
}
