//! Entries as letters, so that what tests do, and what they want then, is in constants.

use tp_model::Received::{JustAck, JustData, Nothing};
use tp_model::{Entry, Token};

/// The turns in which the node takes the acknowledge, and the host's byte 07.
const ACKNOWLEDGED: Entry = Entry::Turn {
    node: 0,
    takes: [JustAck, Nothing, Nothing, Nothing],
    count: 16,
};

const HANDED: Entry = Entry::Turn {
    node: 0,
    takes: [JustData(7), Nothing, Nothing, Nothing],
    count: 5,
};

/// The entry that a letter stands for. No letter else stands for one that may be made.
pub(crate) fn entry_of(letter: u8) -> Entry {
    let (node, count) = match letter {
        // The node sends the letter A; it loops; it goes on.
        b'r' => (0, 3),
        b'o' => (0, 16),
        b'g' => (0, 5),
        // The node with number 16 does so.
        b'R' => (16, 3),
        b'O' => (16, 16),
        _ => return other_entry(letter),
    };
    Entry::Run { node, count }
}

/// The entry that is no run.
fn other_entry(letter: u8) -> Entry {
    let (line, token) = match letter {
        // The host takes the letter A, and the node the acknowledge; with the node 16.
        b'a' => (0, Token::Data(0x41)),
        b'k' => (4, Token::Ack),
        b'A' => (64, Token::Data(0x41)),
        b'K' => (68, Token::Ack),
        // The node takes a byte of the host.
        b'd' => (4, Token::Data(7)),
        b'l' => (4, Token::Data(0x42)),
        b'c' => return Entry::Confirm { port: 0, upto: 1 },
        b'T' => return ACKNOWLEDGED,
        b'D' => return HANDED,
        _ => return input(letter),
    };
    Entry::Take { line, token }
}

/// The host hands in a byte.
fn input(letter: u8) -> Entry {
    let byte = match letter {
        b'x' => 0x78,
        b'h' => 7,
        b'b' => 0x42,
        // No entry: there is no such port.
        _ => return Entry::HostIn { port: 9, byte: 0 },
    };
    Entry::HostIn { port: 0, byte }
}
