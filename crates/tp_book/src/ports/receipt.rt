//! What a host gets for what it handed in.

ghost use Rattle.std.specs.Prelude.{◌≡◌, ◌+◌, ◌<◌, ◌^◌, ◌∷◌, [], Some, None, length, map};
ghost use Rattle.tp_book.specs.Lower.{ftrue, HostIn};
ghost use Rattle.tp_book.specs.Covered.{Covering};

use crate::entries::note::Note;
use std::marker::Model;

/// What only contracts see of a receipt. It has no bytes, and no call reads it.
#[derive(Drop)]
struct Covered {
    pub ghost seen: { Covering },
}

impl Model for Covered {
    ghost also_owns = { λ _. ftrue };
}

// It has no bytes and owns nothing.
unsafe impl Send for Covered {}

unsafe impl Sync for Covered {}

impl Covered {
    /// Gives the ghost value `seen`, which a contract names by what is lent as `_value`. It does nothing.
    fn of<T>(_value: &T) -> Covered
        ghost seen: { Covering }
        ensures { result.seen ≡ seen }
    {
        Covered {}
    }
}

/// Proof that what was handed in or confirmed is journalled. It is on the device once the mark is at least this number. A receipt shows its
/// entries and, for bytes that were handed in, the position of the first. Only the calls that journal make one, and nobody can copy it.
#[derive(Drop)]
pub struct Receipt {
    number: u64,
    covered: Covered,
}

impl Model for Receipt {
    ghost use Rattle.tp_book.specs.Covered.{ReceiptValue};

    ghost Value = { ReceiptValue };

    ghost view = { λ r. record { number = r.number; entries = r.covered.seen.entries; position = r.covered.seen.position } };
}

impl Receipt {
    /// Makes the receipt for bytes that were handed to a port: `next` is the number of the first one's entry, and `accepted` is its
    /// position.
    pub(crate) fn of_inputs(next: u64, accepted: u64, port: u8, bytes: &[u8]) -> Receipt
        requires { next + length bytes.now < 2 ^ 64 }
        ensures { result ≡ record { number = next + length bytes.now; entries = map (HostIn port) bytes.now; position = Some accepted } }
    {
        let all = (accepted, port, bytes);
        Receipt {
            number: next + bytes.len() as u64,
            covered: Covered::of(&all),
        }
    }

    /// Makes the receipt for outputs that were confirmed by the entry of a note.
    pub(crate) fn of_note(note: Note) -> Receipt
        requires { note.number + 1 < 2 ^ 64 }
        ensures { result ≡ record { number = note.number + 1; entries = note.entry ∷ []; position = None } }
    {
        Receipt {
            number: note.number() + 1,
            covered: Covered::of(&note),
        }
    }

    /// Makes the receipt for outputs that were confirmed before: `next` is the number of the next entry.
    pub(crate) fn of_nothing(next: u64) -> Receipt
        ensures { result ≡ record { number = next; entries = []; position = None } }
    {
        Receipt {
            number: next,
            covered: Covered::of(&next),
        }
    }

    pub fn number(&self) -> u64
        ensures { result ≡ self.now.number }
    {
        self.number
    }
}
