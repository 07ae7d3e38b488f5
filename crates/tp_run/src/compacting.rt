//! Compacting a device: its network as it is becomes the cut, and its journal becomes empty.

ghost use Rattle.std.specs.Prelude.{◌≡◌, ◌≤◌, ◌+◌, [], length, true, false, Ok, Err, Some, None, IfOk, IfSome, IsErr, MatchResult};
ghost use Rattle.tp_run.specs.Lower.{AreTrue, WereTrue, AllByRecursion, place_at, IsSameProcess, Walked, Began, IsNodeOfBytes, entries_left, IsSynced, is_full_for_snapshot, is_roomy, room, t414_ends, next_of, verdict, IsCut, Resting, LeavesNothingNew, Unopened, IsMadeOf, Names, Steps};
ghost use Rattle.tp_run.specs.Compacted.{AddsNone, CompactAnswer, Compacted, GrewByOne, IsBeginFault, SaysLast, StaysUnopened, begin_fault, flush_fault, has_failed_in, room_behind};
ghost use Rattle.tp_run.specs.Failures.{failures_after};
ghost use Rattle.tp_run.specs.Ran.{History};

use crate::opening::parts_of;
use std::alloc::Global;
use std::error::Error;
use std::fmt;
use std::marker::Brand;
use std::snapshot::Snapshot;
use std::sync::Wait;
use tp_area::{JournalRoom, Store};
use tp_book::Refusal;
use tp_disk::Disk;
use tp_flush::{FlushFault, Flusher, topology_of};
use tp_model::limits::NUMBER_LIMIT;
use tp_net::Topology;
use tp_ready::Raiser;
use tp_recover::{Opened, Unopened, entries_left, open};
use tp_shared::{Naming, Parts, Seat, Shared};

/// What a compacted device has: the number of its next entry (`next`), the generation of its cut (`generation`), and how many entries its journal
/// takes before it is full (`room`).
#[derive(Clone, Copy)]
pub struct Compaction {
    pub next: u64,
    pub generation: u64,
    pub room: u64,
}

/// Why a device isn't compacted.
#[derive(Clone, Copy)]
pub enum CompactFault {
    /// The device isn't opened.
    Opening(Unopened),
    /// No generation is left for another cut.
    NoGeneration,
    /// A call of the device failed.
    DeviceFailed,
    /// The cut didn't become whole, a snapshot couldn't begin for a reason other than memory, or an entry was added. None of these occurs, since
    /// nothing runs; that is tested, but not proved.
    NotWhole,
    /// Out of memory, at any step.
    Memory,
}

impl fmt::Display for CompactFault {
    fn fmt<W: fmt::Write>(&self, f: &mut fmt::Formatter<W>) -> fmt::Result {
        let word = match *self {
            CompactFault::Opening(unopened) => return fmt::Display::fmt(&unopened, f),
            CompactFault::NoGeneration => "JournalFull",
            CompactFault::DeviceFailed => "DeviceFailed",
            CompactFault::NotWhole => "NotWhole",
            CompactFault::Memory => "Memory",
        };
        f.write_str(word)
    }
}

impl fmt::Debug for CompactFault {
    fn fmt<W: fmt::Write>(&self, f: &mut fmt::Formatter<W>) -> fmt::Result {
        fmt::Display::fmt(self, f)
    }
}

impl Error for CompactFault {}

/// How many more entries fit in `journal`, after those that were made since the kept cut, if the next one gets the number `next`.
fn left_in<J: Naming, R: Wait>(rt: &R, shared: &Shared<J>, journal: JournalRoom, next: u64) -> u64
    ensures { result ≤ entries_left 0 next journal }
{
    let held = shared.book().lock(rt);
    let made = held.book().next().saturating_sub(held.book().base());
    entries_left(journal, made, next)
}

/// Whether `generation` is the last one.
fn is_last(generation: u64) -> bool
    ensures { result ≡ is_full_for_snapshot generation }
{
    generation == NUMBER_LIMIT - 1
}

/// Gives the fault for a snapshot that the book refuses to begin; `None` if a snapshot runs already. If a generation is left, nothing runs, and the
/// device wasn't written, then the fault can only be `Memory`.
fn fault_of(refusal: Refusal) -> Option<CompactFault>
    ensures is { result ≡ begin_fault refusal }
    ensures begins { IfSome result IsBeginFault }
{
    match refusal {
        Refusal::SnapshotRunning => None,
        Refusal::Memory => Some(CompactFault::Memory),
        Refusal::JournalFull | Refusal::StoreBroken | Refusal::NothingToTake | Refusal::PortFull =>
            Some(CompactFault::NotWhole),
    }
}

/// Gives the fault for the answer to beginning a snapshot; `None` if one runs now.
fn outcome_of(answer: Result<(), Refusal>) -> Option<CompactFault>
    ensures is { MatchResult answer (λ begun. result ≡ None) (λ refusal. result ≡ begin_fault refusal) }
    ensures begins { IfSome result IsBeginFault }
{
    match answer {
        Ok(()) => None,
        Err(refusal) => fault_of(refusal),
    }
}

/// Begins a snapshot. Answers the fault if that was refused; `None` if a snapshot runs now.
fn begin<J: Naming, D: Disk, R: Wait>(
    rt: &R,
    alloc: Global,
    shared: &Shared<J>,
    flusher: &Flusher<J, D>,
) -> Option<CompactFault>
    ensures { IfSome result IsBeginFault }
{
    outcome_of(flusher.snapshot(rt, alloc, shared).answer())
}

/// Makes each node record, and takes each Marker off its line. It takes no other token, and no node runs.
fn record_all<J: Naming, R: Wait>(rt: &R, shared: &Shared<J>) {
    for node in 0..shared.nodes() {
        shared.record(rt, node);
    }
    let mut held = shared.book().lock(rt);
    held.close_all();
}

/// Gives the fault of compacting for a fault of the flusher's turn.
fn fault_in(fault: FlushFault) -> CompactFault
    ensures { result ≡ flush_fault fault }
{
    match fault {
        FlushFault::Memory => CompactFault::Memory,
        FlushFault::DeviceFailed | FlushFault::StoreBroken => CompactFault::DeviceFailed,
        FlushFault::AreaFull => CompactFault::NotWhole,
    }
}

/// Tells whether no entry was made since the opening, after which the next one was to get the number `first`, and all entries are stored. `seat` has
/// no slip. The function changes nothing.
fn adds_none<J: Naming, D: Disk, R: Wait>(
    rt: &R,
    shared: &Shared<J>,
    flusher: &mut Flusher<J, D>,
    seat: &mut Seat<J>,
    first: u64,
) -> bool
    requires first { first ≡ J.first }
    requires empty { seat.old ≡ [] }
    ensures same { flusher.new ≡ flusher.old }
    ensures none { result ≡ true → AreTrue flusher.new.reads → Began J.formatted J.before flusher.old.opened → AddsNone J.first flusher.old.world }
{
    let mut held = shared.book().lock(rt);
    flusher.settle_book(&mut held);
    flusher.settle_all(&mut held, seat, first)
}

/// Makes the network as it is one cut, and switches the store to the area that has it. `journal` says how many entries an area takes, `first` which
/// number the next entry was to get at the opening. `seat` has no slip. Fails with `NoGeneration` if the generation is the last one; otherwise as the
/// snapshot and the flusher's turn fail.
fn switch_all<J: Naming, D: Disk, R: Wait>(
    rt: &R,
    alloc: Global,
    shared: &Shared<J>,
    flusher: &mut Flusher<J, D>,
    seat: &mut Seat<J>,
    first: u64,
    journal: JournalRoom,
) -> Result<Compaction, CompactFault>
    requires rests { flusher.old.world.at ≡ Resting }
    requires first { first ≡ J.first }
    requires empty { seat.old ≡ [] }
    ensures premise { WereTrue flusher.old.reads flusher.new.reads }
    ensures walks { AreTrue flusher.new.reads → Began J.formatted J.before flusher.old.opened → Walked flusher.old flusher.new }
    ensures process { IsSameProcess flusher.old flusher.new }
    ensures failures { flusher.new.failures ≡ failures_after (has_failed_in result) flusher.old.failures }
    ensures last { SaysLast result (is_full_for_snapshot flusher.old.place.generation) }
    ensures stored { IfOk result (λ done. done.next ≡ flusher.new.world.mark) }
    ensures none { AreTrue flusher.new.reads → Began J.formatted J.before flusher.old.opened → IfOk result (λ done. AddsNone J.first flusher.new.world) }
    ensures switched { IfOk result (λ done. done.generation ≡ flusher.old.place.generation + 1) }
    ensures room { IfOk result (λ done. done.room ≤ entries_left 0 done.next journal) }
{
    flusher.known();
    if is_last(flusher.generation()) {
        return Err(CompactFault::NoGeneration);
    }
    if let Some(fault) = begin(rt, alloc, shared, flusher) {
        return Err(fault);
    }
    record_all(rt, shared);
    let flushed = match flusher.turn(rt, alloc, shared) {
        Ok(flushed) => flushed,
        Err(fault) => return Err(fault_in(fault)),
    };
    if !flushed.switched || !adds_none(rt, shared, flusher, seat, first) {
        return Err(CompactFault::NotWhole);
    }
    Ok(Compaction {
        next: flushed.mark,
        generation: flusher.generation(),
        room: left_in(rt, shared, journal, flushed.mark),
    })
}

/// Makes one cut of the network of an opened device, from its parts, and switches the store to the area that has it. Answers the device and what it
/// has then.
#[inline(never)]
fn compact_parts<J: Naming, D: Disk, R: Wait>(
    rt: &R,
    alloc: Global,
    opened: Snapshot<Opened>,
    first: u64,
    topology: Topology,
    parts: Parts,
    raiser: Raiser,
    store: Store<D>,
) -> (D, Result<Compaction, CompactFault>)
    requires first { first ≡ next_of opened.value }
    requires names { Names J.roll J.first J.start J.node J.mark J.flusher J.host J.sights J.room J.accepted parts }
    requires stands { IsMadeOf opened.value parts raiser }
    requires bound { parts.book.room ≡ Some (room opened.value.head.topology opened.value.head.areas.length) }
    requires cut { IsCut t414_ends opened.value.head.topology opened.value.base opened.value.cut }
    requires bytes { AllByRecursion IsNodeOfBytes opened.value.cut.nodes }
    requires place { store.place ≡ place_at opened.value }
    requires topology { topology ≡ opened.value.head.topology }
    requires roomy { is_roomy opened.value.head.topology opened.value.head.areas.length ≡ true }
    requires unbroken { store.broken ≡ false }
    requires allowed { Steps → D.writable ≡ true }
    requires read { AreTrue (D.reads store.disk) → verdict (D.state store.disk).now.bytes ≡ Ok opened.value }
    requires synced { AreTrue (D.reads store.disk) → IsSynced (D.state store.disk) }
    ensures size { D.size_of result.0 ≡ D.size_of store.disk }
    ensures premise { WereTrue (D.reads store.disk) (D.reads result.0) }
    ensures kept { AreTrue (D.reads result.0) → Began J.formatted J.before (D.state store.disk).now.bytes → Compacted J.formatted result.1 (D.state store.disk) (D.state result.0) }
    ensures switched { IfOk result.1 (λ done. done.generation ≡ store.place.generation + 1) }
    ensures room { IfOk result.1 (λ done. done.room ≤ room_behind topology store.place.areas.length done.next) }
    ensures failures { D.failures_of result.0 ≡ failures_after (has_failed_in result.1) (D.failures_of store.disk) }
    ensures last { SaysLast result.1 (is_full_for_snapshot store.place.generation) }
{
    let (mut shared, told, mut key) = Shared::<J>::start(parts);
    let mut seat = shared.seat();
    let journal = JournalRoom::of(&topology, store.place.areas.length);
    let mut flusher = Flusher::over(opened, topology, store, told, raiser);
    flusher.known();
    let done = switch_all(rt, alloc, &shared, &mut flusher, &mut seat, first, journal);
    flusher.settle_host_under(rt, &shared, &mut key);
    (flusher.into_disk(), done)
}

/// Opens a device, writes its network as it is into the other area as a new cut, and switches to that area. No node runs, no token is taken, nothing is
/// handed in, and all output stays. Afterwards the journal is empty, even if it was full. Answers the device, and what it has then.
///
/// A crash at any moment of the call leaves one of two things. Either a crash just before the call might have left it, too; or it opens to the
/// network that a prefix of the journal leads to. That prefix has all that the device had. The store's contract says so (`Flusher::turn`,
/// `Store::open_other`): until the new cut is whole and synced, the store writes only into the area that isn't open. A call that was done has added no
/// entry: the prefix is then the whole journal that the device had, and the answered number is its next one. The generation is one more than before.
///
/// Fails with `Opening` for the reason that opening gives. Fails with `NoGeneration` if the device's generation is the last one. Fails with
/// `DeviceFailed` if a call of the device failed after the opening. It says that a call failed exactly if one did.
#[inline(never)]
pub fn compact<D: Disk, R: Wait>(
    rt: &R,
    alloc: Global,
    disk: D,
) -> (D, Result<Compaction, CompactFault>)
    ghost history: { History }
    requires { Steps → D.writable ≡ true }
    ensures size { D.size_of result.0 ≡ D.size_of disk }
    ensures premise { WereTrue (D.reads disk) (D.reads result.0) }
    ensures kept { AreTrue (D.reads result.0) → Began history.formatted history.before (D.state disk).now.bytes → Compacted history.formatted result.1 (D.state disk) (D.state result.0) }
    ensures grown { AreTrue (D.reads result.0) → IfOk result.1 (GrewByOne (verdict (D.state disk).now.bytes)) }
    ensures unwritten { StaysUnopened result.1 → LeavesNothingNew (D.state disk) (D.state result.0) }
    ensures unopened { AreTrue (D.reads result.0) → IsErr (verdict (D.state disk).now.bytes) → (unopened : Unopened) × (result.1 ≡ Err (CompactFault.Opening unopened)) }
    ensures answer { AreTrue (D.reads result.0) → CompactAnswer (verdict (D.state disk).now.bytes) result.1 }
    ensures failures { D.failures_of result.0 ≡ failures_after (has_failed_in result.1) (D.failures_of disk) }
{
    let mut disk = disk;
    let opened = match open(alloc, &mut disk) {
        Ok(opened) => opened,
        Err(unopened) => return (disk, Err(CompactFault::Opening(unopened))),
    };
    opened.known();
    let known = Snapshot::of(&opened);
    let first = opened.next();
    let topology = topology_of(&opened);
    let _areas = opened.head().areas();
    let store = opened.store(disk);
    let Ok((parts, raiser, ..)) = parts_of(alloc, opened, 0, 0) else {
        return (store.into_disk(), Err(CompactFault::Memory));
    };
    compact_parts::<Brand, D, R>(rt, alloc, known, first, topology, parts, raiser, store)
}
