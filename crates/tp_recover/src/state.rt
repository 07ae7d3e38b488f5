//! The state that a book is opened from.

ghost use Rattle.std.specs.Prelude.{◌≡◌, if◌then◌else◌, Some, IfOk};
ghost use Rattle.tp_recover.specs.Lower.{cut_of, now_of, IsWellOpen, room, next_of};

use crate::opening::Opened;
use std::alloc::{AllocError, Global};
use tp_area::journal_room;
use tp_book::NetState;

impl Opened {
    /// Counts the bytes that groups may fill in an area, to which a book's journal is bound.
    pub fn journal_room(&self) -> u64
        ensures { result ≡ room self.now.head.topology self.now.head.areas.length }
    {
        journal_room(self.head.topology(), self.head.areas().length)
    }

    /// Makes the state that a book is opened from. The network becomes parts, with each node's image made as the node goes, and the entries
    /// are moved. `AllocError` if memory is out.
    ///
    /// A book can be opened from it whatever the device's reads gave.
    #[inline(never)]
    pub fn into_state(self, alloc: Global) -> Result<NetState, AllocError>
        ensures opened { IfOk result (λ state. IsWellOpen state) }
        ensures cut { IfOk result (λ state. cut_of state ≡ self.cut) }
        ensures now { IfOk result (λ state. now_of state ≡ self.now) }
        ensures base { IfOk result (λ state. state.base ≡ self.base) }
        ensures form { IfOk result (λ state. state.form ≡ self.form) }
        ensures kept { IfOk result (λ state. state.kept.items ≡ self.kept) }
        ensures next { IfOk result (λ state. state.next ≡ next_of self) }
        ensures generation { IfOk result (λ state. state.generation ≡ self.generation) }
        ensures area { IfOk result (λ state. state.area ≡ Some self.head.areas.length) }
        ensures open_area { IfOk result (λ state. state.open_area ≡ (if self.second then 1 else 0)) }
    {
        let _topology = self.head.topology();
        let area = self.head.areas().length;
        let (network, kept, next) = self.replay.into_parts();
        let net = network.into_net(alloc)?;
        Ok(NetState {
            cut: self.cut,
            net,
            base: self.base,
            form: self.form,
            kept,
            next,
            generation: self.generation,
            area: Some(area),
            open_area: if self.second { 1 } else { 0 },
        })
    }
}
