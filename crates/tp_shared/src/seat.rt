//! Seats: what was journalled, in the hand of one thread.

ghost use Rattle.std.specs.Prelude.{◌≡◌, ℕ, List, [], ◌++◌};
ghost use Rattle.tp_shared.specs.SlipCount.{IsSlipCount};

use crate::naming::Naming;
use std::marker::{Model, PhantomData};
use tp_model::Entry;
use tp_ready::slips::{Slips, empty, transfer};

/// The slips of entries, in the order in which they came, and how many there are. Contracts see each as its number and its entry. Nobody
/// can copy one, and nobody who shares a network with others can make one. Each call that makes entries is lent a seat, and its contract
/// names the slips that the seat got.
#[derive(Drop)]
pub struct Seat<J: Naming> {
    pub(crate) slips: Slips<Entry>,
    pub(crate) count: u64,
    pub(crate) of: PhantomData<J>,
}

impl<J: Naming> Model for Seat<J> {
    ghost use Rattle.std.specs.Prelude.{◌≡◌, ℕ, List};
    ghost use Rattle.tp_model.specs.declared.entry.Entry.{Entry};
    ghost use Rattle.tp_shared.specs.SlipCount.{IsSlipCount};

    ghost Value = { List (ℕ × Entry) };

    ghost view = { λ s. s.slips.items };

    ghost invariant = { λ s. (s.slips.name ≡ J.roll) × IsSlipCount s.count s.slips.items };
}

impl<J: Naming> Seat<J> {
    /// Makes a seat without a slip. Only `Shared::seat` hands one out.
    pub(crate) fn new() -> Seat<J>
        ensures { result ≡ [] }
    {
        Seat {
            slips: empty::<Entry>(),
            count: 0,
            of: PhantomData,
        }
    }

    /// Counts the slips, up to the greatest number.
    pub fn count(&self) -> u64
        ensures { IsSlipCount result self.now }
    {
        self.count
    }

    /// Puts all slips of `other` after its own.
    pub fn absorb(&mut self, other: Seat<J>)
        ensures { self.new ≡ self.old ++ other }
    {
        let Seat {
            mut slips,
            count,
            ..
        } = other;
        transfer(&mut self.slips, &mut slips);
        self.count = self.count.saturating_add(count);
    }
}
