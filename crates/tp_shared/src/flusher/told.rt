//! What the flusher is told of the book.

ghost use Rattle.std.specs.Prelude.{◌≡◌, ℕ, Bool, List, [], true};
ghost use Rattle.tp_shared.specs.Lower.{ftrue, NodeState, MarkedNetwork, Entry, Form};

use crate::book::locked::Locked;
use crate::naming::Naming;
use crate::parts::Parts;
use std::marker::Model;
use tp_ready::twin::Key;

/// What the flusher is told. It has no bytes: only contracts see it.
/// - a network with its book, how many entries the kept cut holds, and the journal;
/// - whether its cut is whole and no node's pages are kept any more;
/// - from which position on the entries have their positions as numbers;
/// - the book's form, and whether its store is broken;
/// - for each node whether pages are kept as they were when it recorded.
#[derive(Drop)]
pub struct Told {
    pub ghost net: { MarkedNetwork NodeState },
    pub ghost base: { ℕ },
    pub ghost journal: { List Entry },
    pub ghost thawed: { Bool },
    pub ghost numbered_from: { ℕ },
    pub ghost form: { Form },
    pub ghost broken: { Bool },
    pub ghost frozen: { List Bool },
}

impl Model for Told {
    ghost also_owns = { λ _. ftrue };
}

impl Told {
    ghost use Rattle.std.specs.Prelude.{◌≡◌, ◌+◌, [], true, length};
    ghost use Rattle.tp_shared.specs.Frozen.{frozen_in};
    ghost use Rattle.tp_shared.specs.TrimmedTo.{trim_of};
    ghost use Rattle.tp_shared.specs.Told.{told_of};
    ghost use Rattle.tp_shared.specs.declared.flusher.told.Told.{Told};

    // Gives the ghost value `told`, which a contract names by what is lent as `_value`. The function does nothing.
    fn of<T>(_value: &T) -> Told
        ghost told: { Told }
        ensures { result ≡ told }
    {
        Told {}
    }

    /// Gives what is told of a book under its lock.
    pub(crate) fn now<J: Naming>(locked: &Locked<J>) -> Told
        ensures { result ≡ told_of J.before J.first locked.now }
    {
        Told::of(locked)
    }

    /// Gives what is told of the book once it is trimmed to its whole cut. `key` shows what was told of the cut before. The entries after
    /// those that were told have their positions as numbers.
    pub(crate) fn trimmed<J: Naming>(locked: &Locked<J>, key: &Key<Told>) -> Told
        ensures { result ≡ told_of J.before J.first (record { book = trim_of locked.now.book; all = locked.now.all; numbered_from = key.now.value.base + length key.now.value.net.entries; frozen = locked.now.frozen }) }
    {
        let both = (locked, key);
        Told::of(&both)
    }

    // Gives what is told of a book whose cut is whole, while no node's pages are kept.
    fn thawed<J: Naming>(locked: &Locked<J>) -> Told
        ensures { result ≡ record (told_of J.before J.first locked.now) { thawed = true } }
    {
        Told::of(locked)
    }

    /// Gives what is told of the book, and whether its cut is whole and no node's pages are kept.
    pub(crate) fn with<J: Naming>(locked: &Locked<J>, thawed: bool) -> Told
        ensures { result ≡ record (told_of J.before J.first locked.now) { thawed = thawed } }
    {
        if thawed {
            Told::thawed(locked)
        } else {
            Told::now(locked)
        }
    }

    /// Gives what is told once the store is broken. The rest is as `key` shows it.
    pub(crate) fn broken(key: &Key<Told>) -> Told
        ensures { result ≡ record key.now.value { broken = true } }
    {
        Told::of(key)
    }

    /// Gives what is first told of the book of parts.
    pub(crate) fn first<J: Naming>(parts: &Parts) -> Told
        ensures { result ≡ told_of J.before J.first (record { book = parts.now.book; all = []; numbered_from = J.first; frozen = frozen_in parts.now.seals }) }
    {
        Told::of(parts)
    }
}
