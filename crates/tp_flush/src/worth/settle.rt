//! What passes and slips are worth: what a pass saw compared with the flusher's mark, and slips compared with its journal.

ghost use Rattle.std.specs.Prelude.{◌≡◌, ◌≤◌, ◌++◌, ℕ, List, drop};
ghost use Rattle.tp_flush.specs.Lower.{AreTrue, AllByRecursion, NodeState, t414, Network, MayBe, device_areas, RecoversTo, Entry, AreBelow, number_of};
ghost use Rattle.tp_flush.specs.Known.{Began};
ghost use Rattle.tp_flush.specs.Risen.{WasStored};
ghost use Rattle.tp_flush.specs.Settled.{RecoversWith, SlipsStand};

use crate::flusher::Flusher;
use std::sync::Wait;
use tp_disk::Disk;
use tp_ready::Pass;
use tp_shared::{Locked, Naming, Seat, Shared};

impl<J: Naming, D: Disk> Flusher<J, D> {
    /// Proves that what `pass` saw is at most the flusher's mark, at whatever moment `pass` loaded it, also during a turn. What it saw is the last of
    /// its rises, each dated by a moment that the device had come to. The mark began with the first rise. For each other rise, take what any crash
    /// left of the device at its moment or later. That opens to the network that a prefix of the journal leads to, and the prefix has each entry
    /// below the number. The function changes nothing.
    pub fn settle_pass(&mut self, shared: &Shared<J>, pass: &mut Pass)
        requires { pass.old.mark ≡ J.mark }
        ensures same { (self.new ≡ self.old) × (pass.new ≡ pass.old) }
        ensures mark { pass.old.at ≤ self.old.world.mark }
        ensures number { pass.old.at ≡ number_of pass.old.rises }
        ensures rises { AreTrue self.new.reads → Began J.formatted J.before self.old.opened
            → AllByRecursion (WasStored J.formatted self.old.world.journal self.old.state) (drop 1 pass.old.rises) }
    {
        let Flusher { parts, .. } = self;
        parts.raiser.settle(shared, pass);
    }

    /// Proves that each slip's entry is in the flusher's journal at its number, if the journal reaches so far. It changes nothing.
    pub fn settle_seat(&mut self, held: &mut Locked<J>, seat: &mut Seat<J>)
        ensures same { (self.new ≡ self.old) × (held.new ≡ held.old) × (seat.new ≡ seat.old) }
        ensures stand { AreTrue self.new.reads → Began J.formatted J.before self.old.opened → SlipsStand self.old.world.journal seat.old }
    {
        self.known();
        held.audit(seat);
        let Flusher { parts, .. } = self;
        held.compare(&mut parts.key);
    }

    // Takes the book's lock, and settles a seat under it.
    fn settle_under<R: Wait>(&mut self, rt: &R, shared: &Shared<J>, seat: &mut Seat<J>)
        ensures same { (self.new ≡ self.old) × (seat.new ≡ seat.old) }
        ensures stand { AreTrue self.new.reads → Began J.formatted J.before self.old.opened → SlipsStand self.old.world.journal seat.old }
    {
        let mut held = shared.book().lock(rt);
        self.settle_seat(&mut held, seat);
    }

    /// Proves what a receipt is worth. Take any slips that are next to each other in `seat`, as those of a receipt are. Let `pass` have seen a number
    /// above theirs, as the receipt's is, so that it was told that they are stored. Whatever a crash leaves from now on of the device as it is, that
    /// opens to the network that a prefix of the journal leads to. The prefix has each of their entries at its number, whatever became of the other
    /// slips. The function changes nothing.
    pub fn settle<R: Wait>(
        &mut self,
        rt: &R,
        shared: &Shared<J>,
        pass: &mut Pass,
        seat: &mut Seat<J>,
    )
        requires { pass.old.mark ≡ J.mark }
        ensures same { (self.new ≡ self.old) × (pass.new ≡ pass.old) × (seat.new ≡ seat.old) }
        ensures mark { pass.old.at ≤ self.old.world.mark }
        ensures stand { AreTrue self.new.reads → Began J.formatted J.before self.old.opened → SlipsStand self.old.world.journal seat.old }
        ensures recovers { AreTrue self.new.reads → Began J.formatted J.before self.old.opened
            → (before some behind : List (ℕ × Entry)) → seat.old ≡ before ++ some ++ behind → AreBelow pass.old.at some
            → (left : List ℕ) → MayBe self.old.state.now left → RecoversWith J.formatted self.old.world.journal self.old.world.mark some left }
    {
        self.known();
        self.settle_pass(shared, pass);
        self.settle_under(rt, shared, seat);
    }
}

/// Let the bytes that a crash left open to a prefix of the journal with each entry below `least`. Then they have the entries of all slips
/// below it that are in the journal. The function does nothing; its contract is the law.
pub fn stored_slips_are_recovered()
    ensures { (start : Network NodeState) (journal : List Entry) (least : ℕ) (slips : List (ℕ × Entry)) (bytes : List ℕ) → RecoversTo t414 device_areas start journal least bytes
        → AreBelow least slips → SlipsStand journal slips → RecoversWith start journal least slips bytes }
{}
