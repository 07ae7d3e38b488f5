//! What a seat at the word knows.
use std::collections::LinkedList;

/// The mark was raised to a number, when the device that was lent had come to a moment of this number. No value of it is made.
pub struct Rise {
    pub to: u64,
    pub moment: u64,
}

/// Whether the seat raises the word, the number that it saw last, and a number that the word has reached as it was told. Then what the mark
/// was raised to so far, the number that it began with first: as the seat saw it, and as it was told of it last. No value of it is made.
pub struct View {
    pub raises: bool,
    pub at: u64,
    pub least: u64,
    pub rises: LinkedList<Rise>,
    pub told: LinkedList<Rise>,
}
