//! What is seen of the book under its lock.

ghost use Rattle.std.specs.Prelude.{◌≡◌, [], ◌∷◌, ◌++◌};
ghost use Rattle.tp_shared.specs.BrokenSeen.{StayBroken};

use crate::book::locked::Locked;
use crate::naming::Naming;
use std::marker::{Model, PhantomData};
use std::snapshot::Snapshot;
use tp_book::Book;
use tp_ready::roll::{Roll, write};
use tp_ready::slips::{Slips, empty};

/// The roll of all that was seen of the book, beside the book.
#[derive(Drop)]
pub(crate) struct SightRoll<J: Naming> {
    pub(crate) roll: Roll<Snapshot<Book>>,
    of: PhantomData<J>,
    pub ghost named: { roll.name ≡ J.sights },
}

impl<J: Naming> SightRoll<J> {
    pub(crate) fn over(roll: Roll<Snapshot<Book>>) -> SightRoll<J>
        requires { roll.name ≡ J.sights }
        ensures { result.roll ≡ roll }
    {
        SightRoll {
            roll,
            of: PhantomData,
        }
    }
}

/// Slips of books as they were while their lock was held. Contracts see these books, in the order in which they were seen. The holder of
/// the lock gets a slip of the book as it is, and nobody can make or copy one. After a broken book all are broken. It has no bytes.
#[derive(Drop)]
pub struct Sights<J: Naming> {
    slips: Slips<Snapshot<Book>>,
    of: PhantomData<J>,
}

impl<J: Naming> Model for Sights<J> {
    ghost use Rattle.std.specs.Prelude.{◌≡◌, List, map};
    ghost use Rattle.tp_book.specs.Book.{BookValue};
    ghost use Rattle.tp_shared.specs.BrokenSeen.{StayBroken};

    ghost Value = { List BookValue };

    ghost view = { λ s. map (λ slip. slip.1.value) s.slips.items };

    ghost invariant = { λ s. (s.slips.name ≡ J.sights) × StayBroken (map (λ slip. slip.1.value) s.slips.items) };
}

impl<J: Naming> Sights<J> {
    /// Makes one that has seen nothing.
    pub fn new() -> Sights<J>
        ensures { result ≡ [] }
    {
        Sights {
            slips: empty::<Snapshot<Book>>(),
            of: PhantomData,
        }
    }

    /// Proves that after a broken book all that were seen are broken: the store breaks once, and nobody mends it. The function does
    /// nothing.
    pub fn known(&self)
        ensures { StayBroken self.now }
    {
        let _ = &self.slips;
    }
}

impl<J: Naming> Locked<J> {
    /// Adds the book as it is to `sights`. It changes nothing else.
    pub fn show(&mut self, sights: &mut Sights<J>)
        ensures same { self.new ≡ self.old }
        ensures seen { sights.new ≡ sights.old ++ self.old.book ∷ [] }
    {
        let now = Snapshot::of(&self.book);
        write(&mut self.sights.roll, &mut sights.slips, &now);
    }
}
