//! What the host has handed in.

ghost use Rattle.std.specs.Prelude.{◌≡◌, ◌++◌, List, drop};
ghost use Rattle.tp_shared.specs.Lower.{ftrue, Entry};
ghost use Rattle.tp_shared.specs.HandedIn.{handed};

use std::marker::Model;
use tp_book::Book;
use tp_ready::twin::Key;

/// The entries of what the host has handed in since the opening, in order. It has no bytes: only contracts see it.
#[derive(Drop)]
pub struct Handed {
    pub ghost entries: { List Entry },
}

impl Model for Handed {
    ghost also_owns = { λ _. ftrue };
}

impl Handed {
    // Gives the ghost value `entries`, which a contract names by what is lent as `_value`. The function does nothing.
    fn of<T>(_value: &T) -> Handed
        ghost entries: { List Entry }
        ensures { result.entries ≡ entries }
    {
        Handed {}
    }

    /// Gives what `key` shows, and then what was handed in by the entries of `book` after the first `before`.
    pub(crate) fn more(key: &Key<Handed>, book: &Book, before: usize) -> Handed
        ensures { result.entries ≡ key.now.value.entries ++ handed (drop before book.now.state.entries) }
    {
        let lent = (key, (book, before));
        Handed::of(&lent)
    }
}
