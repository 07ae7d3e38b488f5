//! The flusher.

ghost use Rattle.std.specs.Prelude.{◌≡◌, Ok, Some, true, false};
ghost use Rattle.tp_flush.specs.Lower.{AreTrue, AllByRecursion, IsNodeOfBytes, IsSynced, is_roomy, room, t414_ends, held_of, next_of, verdict, reopened, IsCut, unrisen, IsFirst};
ghost use Rattle.tp_flush.specs.Known.{Began, Reached};
ghost use Rattle.tp_flush.specs.Flushing.{AreGone, position};
ghost use Rattle.tp_flush.specs.Rights.{Steps};

use crate::progress::Progress;
use crate::stored_mark::StoredMark;
use crate::whole::Whole;
use std::marker::Model;
use std::snapshot::Snapshot;
use tp_area::Store;
use tp_disk::Disk;
use tp_net::Topology;
use tp_ready::Raiser;
use tp_ready::twin::Key;
use tp_recover::Opened;
use tp_shared::{Naming, Sights, Told};

/// The parts of a flusher:
/// - its store, what it was told of the book, the mark's raiser, and the device's topology;
/// - how far the copy of the snapshot that runs has come;
/// - how many pages a turn copies before it begins no further image;
/// - the world as the flusher knows it.
#[derive(Drop)]
pub(crate) struct Parts<D: Disk> {
    pub(crate) store: Store<D>,
    pub(crate) key: Key<Told>,
    pub(crate) raiser: StoredMark,
    pub(crate) topology: Topology,
    pub(crate) progress: Progress,
    pub(crate) pages_a_turn: usize,
    pub(crate) whole: Whole,
    pub(crate) ghost allowed: { Steps → D.writable ≡ true },
}

/// Brings the book's entries to the device of one process, and raises its mark. It has what was seen of the book when it was told that a
/// call of the device had failed. Contracts see the world as the flusher knows it, what has become of its device, and the bytes that the
/// process opened.
#[derive(Drop)]
pub struct Flusher<J: Naming, D: Disk> {
    pub(crate) parts: Parts<D>,
    pub(crate) told: Sights<J>,
}

impl<J: Naming, D: Disk> Model for Flusher<J, D> {
    ghost use Rattle.std.specs.Prelude.{◌≡◌, ◌≤◌};
    ghost use Rattle.tp_flush.specs.Lower.{AreTrue, IsFirst};
    ghost use Rattle.tp_flush.specs.Flushing.{AreGone, KeepsCopy, Flushing, HoldsAllOf, IsOfDevice, KeepsWorld};
    ghost use Rattle.tp_flush.specs.WasTold.{ToldWhere};

    ghost Value = { Flushing };

    ghost view = { λ f. record { world = f.parts.whole.known.world; state = D.state f.parts.store.disk; reads = D.reads f.parts.store.disk; size = D.size_of f.parts.store.disk; failures = D.failures_of f.parts.store.disk; opened = f.parts.whole.known.opened; place = f.parts.store.place; topology = f.parts.topology; progress = f.parts.progress; frozen = f.parts.key.value.frozen } };

    ghost invariant = { λ f. (f.parts.key.name ≡ J.flusher) × (f.parts.raiser.mark ≡ J.mark) × IsFirst f.parts.key.value f.parts.whole.known.world × KeepsWorld (AreTrue (D.reads f.parts.store.disk)) J.formatted J.before f.parts.whole.known (D.state f.parts.store.disk) f.parts.store.place f.parts.store.broken f.parts.raiser × KeepsCopy (AreTrue (D.reads f.parts.store.disk)) f.parts.whole.known.world.net (D.state f.parts.store.disk) f.parts.store.place f.parts.store.broken f.parts.topology f.parts.progress × IsOfDevice (AreTrue (D.reads f.parts.store.disk)) J.room f.parts.whole.known.world (D.state f.parts.store.disk) f.parts.store.place f.parts.store.broken f.parts.topology × (J.first ≤ f.parts.whole.known.world.stored) × (f.parts.key.value.numbered_from ≤ f.parts.whole.known.world.stored) × HoldsAllOf f.parts.store.place.form f.parts.key.value.form × ToldWhere f.parts.store.broken f.parts.key.value f.told × AreGone f.parts.whole.known.world.net f.parts.key.value.frozen f.parts.progress };
}

impl<J: Naming, D: Disk> Flusher<J, D> {
    /// Makes the flusher over a store. `opened`, `topology`, `store`, `key` and `raiser` come from one opening. The store is over the
    /// device that was opened, the key's book goes on from it, and the mark has its next number. Only contracts know what was opened, since
    /// its network is in the book already.
    pub fn over(
        opened: Snapshot<Opened>,
        topology: Topology,
        store: Store<D>,
        key: Key<Told>,
        raiser: Raiser,
    ) -> Flusher<J, D>
        requires name { key.name ≡ J.flusher }
        requires told { IsFirst key.value (reopened J.before (D.state store.disk).now.bytes (held_of opened.value) opened.value.now) }
        requires numbered { key.value.numbered_from ≡ J.first }
        requires form { key.value.form ≡ store.place.form }
        requires unbroken { store.broken ≡ false }
        requires whole { key.value.broken ≡ false }
        requires next { store.place.next ≡ next_of opened.value }
        requires raiser { raiser ≡ record { mark = J.mark; at = next_of opened.value; rises = unrisen (next_of opened.value) } }
        requires read { AreTrue (D.reads store.disk) → verdict (D.state store.disk).now.bytes ≡ Ok opened.value }
        requires synced { AreTrue (D.reads store.disk) → IsSynced (D.state store.disk) }
        requires topology { topology ≡ opened.value.head.topology }
        requires areas { store.place.areas ≡ opened.value.head.areas }
        requires roomy { is_roomy opened.value.head.topology opened.value.head.areas.length ≡ true }
        requires bound { J.room ≡ Some (room opened.value.head.topology opened.value.head.areas.length) }
        requires first { J.first ≡ next_of opened.value }
        requires cut { IsCut t414_ends opened.value.head.topology opened.value.base opened.value.cut }
        requires bytes { AllByRecursion IsNodeOfBytes opened.value.cut.nodes }
        requires allowed { Steps → D.writable ≡ true }
        ensures world { result.world ≡ reopened J.before (D.state store.disk).now.bytes (held_of opened.value) opened.value.now }
        ensures opened { result.opened ≡ (D.state store.disk).now.bytes }
        ensures place { (result.place ≡ store.place) × (result.topology ≡ topology) }
        ensures device { (result.state ≡ D.state store.disk) × (result.reads ≡ D.reads store.disk) × (result.size ≡ D.size_of store.disk) × (result.failures ≡ D.failures_of store.disk) }
    {
        let _ = opened;
        let both = (store, key);
        let whole = Whole::of(&both);
        let (store, key) = both;
        Flusher {
            parts: Parts {
                store,
                key,
                raiser: StoredMark::over(raiser),
                topology,
                progress: Progress::new(),
                pages_a_turn: usize::MAX,
                whole,
            },
            told: Sights::new(),
        }
    }

    /// Proves what every flusher keeps. A run leads to its world, from the device that was formatted, and its device is that world's. A
    /// node whose image is out has no kept pages. The function does nothing.
    pub fn known(&self)
        ensures reached { AreTrue self.now.reads → Began J.formatted J.before self.now.opened → Reached J.formatted self.now.world }
        ensures disk { AreTrue self.now.reads → self.now.world.disk ≡ self.now.state.now }
        ensures gone { AreGone self.now.world.net self.now.frozen self.now.progress }
    {
        let _ = &self.parts;
    }

    /// Gives the mark's number, as the flusher raised it.
    pub fn mark(&self) -> u64
        ensures { result ≡ self.now.world.mark }
    {
        self.parts.raiser.raised()
    }

    /// Whether a call of the device has failed. The device must then be opened again.
    pub fn is_broken(&self) -> bool
        ensures { self.now.world.at ≡ position result }
    {
        self.parts.store.broken
    }

    /// Gives the device. It must be opened again before it is written.
    pub fn into_disk(self) -> D
        ensures state { D.state result ≡ self.state }
        ensures reads { D.reads result ≡ self.reads }
        ensures size { D.size_of result ≡ self.size }
        ensures failures { D.failures_of result ≡ self.failures }
    {
        let Flusher { parts, .. } = self;
        let Parts { store, .. } = parts;
        store.into_disk()
    }
}
