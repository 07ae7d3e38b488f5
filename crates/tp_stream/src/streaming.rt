//! A stream, from a device to a device.

ghost use Rattle.std.specs.Prelude.{◌≡◌, ◌⊎◌, ◌++◌, ◌≤◌, false, true, Ok, Err, Some, length, map, OnOk, IfOk, IfErr, IsErr};
ghost use Rattle.tp_stream.specs.Lower.{AreTrue, WereTrue, AllByRecursion, list_all, journal_of, place_at, Began, IsSynced, IsNodeOfBytes, is_roomy, room, t414_ends, OpenedValue, next_of, verdict, IsCut, node_count, MAX_STEPS, LeavesNothingNew, IsMadeOf, History, Names, given_input, is_over, given_of, Unopened, Steps};
ghost use Rattle.tp_stream.specs.FailedEnds.{NamesEnd};
ghost use Rattle.tp_stream.specs.Failures.{StreamAnswer, answer_failed, calls_failed};
ghost use Rattle.tp_stream.specs.Fitting.{HaveFrames, SaysFit};
ghost use Rattle.tp_stream.specs.Put.{ServedInto, StreamedInto};
ghost use Rattle.tp_stream.specs.Looks.{HaveLooked};
ghost use Rattle.tp_stream.specs.Over.{LeavesNoInput};
ghost use Rattle.tp_stream.specs.Quiet.{IsAsked, LeavesNothingToDo};
ghost use Rattle.tp_stream.specs.Rooms.{every_of, need_of};
ghost use Rattle.tp_stream.specs.Standing.{AllHaveAccepted, AllMayBegin, IsFirstRefused, IsFirstShort, OfInput, OfOutput, accepted_opened, stands_opened};
ghost use Rattle.tp_stream.specs.Streamed.{CameBegun, StaysUnstreamed, Streamed};
ghost use Rattle.tp_stream.specs.Teams.{team_of};
ghost use Rattle.tp_stream.specs.Told.{ToldFirst, ToldLater, input_begins, output_begins};

use crate::beginning::task_fault;
use crate::fault::StreamFault;
use crate::ground::Ground;
use crate::opening::parts_of;
use crate::pace::Pace;
use crate::rooms::Rooms;
use crate::serving::{Going, serve};
use crate::taker::Taker;
use crate::task::Task;
use std::alloc::Global;
use std::marker::Brand;
use std::snapshot::Snapshot;
use std::sync::Wait;
use std::thread::Threads;
use tp_area::Store;
use tp_disk::Disk;
use tp_flush::{Flusher, topology_of};
use tp_net::Topology;
use tp_node::{Node, Runs};
use tp_ready::Raiser;
use tp_recover::{Opened, open};
use tp_shared::{Naming, NoGate, Parts};
use tp_stream_files::{Ended, Listener, Source, Stop, Streams};
use tp_turn::{TAKES, TURN_ENTRIES};
use tp_work::{MAX_WORKERS, Net};

/// How many workers make turns on a device of this topology: as many as the task asks for, at least one, and no more than there are processes.
fn workers_of(task: Task, topology: &Topology) -> u8
    ensures { result ≡ team_of task.workers (node_count topology.now) }
{
    let processes = (topology.pages().len() as u8).saturating_add(1);
    task.workers.min(processes).min(MAX_WORKERS).max(1)
}

/// Says how turns are made on a device of this topology. Each needs room for a node's turn, or for the host's, which makes up to [`TAKES`] entries a
/// port, whichever is more. It also needs room for one confirm of each port.
fn pace_of(task: Task, topology: &Topology, area: u64) -> Pace
    requires { task.quantum ≤ MAX_STEPS }
    ensures task { result.task ≡ task }
    ensures journal { result.rooms.journal ≡ journal_of topology.now area }
    ensures every { result.every ≡ every_of (journal_of topology.now area) task.every }
    ensures need { result.need ≡ need_of topology.now.ports }
    ensures confirms { result.confirms ≡ topology.now.ports }
    ensures workers { result.workers ≡ team_of task.workers (node_count topology.now) }
{
    let ports = topology.port_count() as u32;
    let rooms = Rooms::of(topology, area);
    Pace {
        task,
        every: rooms.every(task.every),
        rooms,
        need: (TURN_ENTRIES as u32).max(TAKES as u32 * ports) + ports,
        confirms: ports,
        workers: workers_of(task, topology),
    }
}

/// The parts of a device that opened, for a stream: what was read, its topology, the parts of its network, the raiser of its mark, the known runs of
/// the calling thread, the nodes as they were made, and its store.
struct Device<D: Disk> {
    opened: Snapshot<Opened>,
    topology: Topology,
    parts: Parts,
    raiser: Raiser,
    runs: Runs,
    nodes: Snapshot<Vec<Node>>,
    store: Store<D>,
}

/// Runs a stream over the store of an opened device, with the parts that were made of it.
#[inline(never)]
fn stream_parts<
    J: Naming + Send + Sync,
    D: Disk + Send + Drop,
    S: Taker<D>,
    I: Source,
    L: Listener,
    P: Stop,
    R: Threads + Wait + Sync,
>(
    rt: &R,
    alloc: Global,
    task: Task,
    device: Device<D>,
    streams: &mut Streams<S, I>,
    listener: &mut L,
    stop: &mut P,
) -> (D, Result<Ended, StreamFault>)
    requires quantum { task.quantum ≤ MAX_STEPS }
    requires names { Names J.roll J.first J.start J.node J.mark J.flusher J.host J.sights J.room J.accepted device.parts }
    requires stands { IsMadeOf device.opened.value device.parts device.raiser }
    requires bound { device.parts.book.room ≡ Some (room device.opened.value.head.topology device.opened.value.head.areas.length) }
    requires frames { HaveFrames task.spare device.nodes.value.items }
    requires network { J.start ≡ device.opened.value.cut }
    requires cut { IsCut t414_ends device.opened.value.head.topology device.opened.value.base device.opened.value.cut }
    requires bytes { AllByRecursion IsNodeOfBytes device.opened.value.cut.nodes }
    requires place { device.store.place ≡ place_at device.opened.value }
    requires topology { device.topology ≡ device.opened.value.head.topology }
    requires roomy { is_roomy device.opened.value.head.topology device.opened.value.head.areas.length ≡ true }
    requires unbroken { device.store.broken ≡ false }
    requires allowed { Steps → D.writable ≡ true }
    requires read { AreTrue (D.reads device.store.disk) → verdict (D.state device.store.disk).now.bytes ≡ Ok device.opened.value }
    requires synced { AreTrue (D.reads device.store.disk) → IsSynced (D.state device.store.disk) }
    ensures size { D.size_of result.0 ≡ D.size_of device.store.disk }
    ensures premise { WereTrue (D.reads device.store.disk) (D.reads result.0) }
    ensures streamed { AreTrue (D.reads result.0) → Began J.formatted J.before (D.state device.store.disk).now.bytes
        → ServedInto J.formatted device.opened.value.cut (next_of device.opened.value) (map (λ i. given_input i.port (I.input i.source)) streams.old.inputs.items) (accepted_opened device.opened.value) result.1 streams.old.outputs.items streams.new.outputs.items (D.state device.store.disk) (D.state result.0) }
    ensures why { IfOk result.1 (λ ended. IsAsked task ended.why) }
    ensures looks { IfOk result.1 (λ ended. HaveLooked task (P.answers stop.old) (P.answers stop.new) (Some ended.why)) }
    ensures over { IfOk result.1 (λ ended. LeavesNoInput (list_all (λ i. is_over i.ended i.is_blocked) streams.new.inputs.items) ended.why) }
    ensures quiet { IfOk result.1 (λ ended. LeavesNothingToDo device.topology ended.why) }
    ensures told { ToldLater (node_count device.topology) (L.told listener.old) (L.told listener.new) }
    ensures failures { D.failures_of result.0 ≡ calls_failed (answer_failed result.1) (D.failures_of device.store.disk) }
    ensures begun { IfErr result.1 CameBegun }
    ensures ends { IfErr result.1 (NamesEnd streams.new.outputs.items (map (λ i. i.port) streams.new.inputs.items)) }
{
    let Device {
        opened,
        topology,
        parts,
        raiser,
        runs,
        nodes: _nodes,
        store,
    } = device;
    let pace = pace_of(task, &topology, store.place.areas.length);
    let Ok((mut net, seats, key, host)) = Net::<J, NoGate>::start(
        rt,
        alloc,
        parts,
        task.quantum.max(1),
        pace.workers,
        NoGate,
    ) else {
        return (store.into_disk(), Err(StreamFault::Memory));
    };
    let (seat, steps) = (net.seat(), net.seat());
    let mut flusher = Flusher::over(opened, topology, store, key, raiser);
    flusher.known();
    let ground = Ground {
        rt,
        alloc,
        net: &net,
        pace,
    };
    let going = Going::new(ground, seat, steps, host, runs);
    let (done, mut host) = serve(ground, seats, going, &mut flusher, streams, listener, stop);
    flusher.settle_host_under(rt, net.shared(), &mut host);
    (flusher.into_disk(), done)
}

/// Opens a device, and lets its network run in this one thread: flushes, steps of each output and input, and turns of all processes in order. Between
/// two such cycles there may be a shift, if the task asks for more than one worker and there is much to do: workers make turns in threads of their
/// own, while this thread flushes and makes turns, too. Answers the device, and the number that the next entry gets.
///
/// A crash at any moment of the call leaves one of two things. Either a crash just before the call might have left it, too; or it opens to the
/// network that a prefix of the journal leads to. That prefix has all that the device had. After a finished stream the prefix has each entry below
/// the answered number, and the journal has no others. A turn or the host made each of those that it has since the opening, once.
///
/// However the stream ends, each byte that its entries hand to a port is the one that an input of the port has at that position: none comes twice, and
/// none is left out. No entry confirms more of a port's outputs than was put.
///
/// However the stream ends, what a sink got are outputs of its port, and whatever a crash leaves from then on has the entries that lead to them. If
/// the stream ended as quiet, or since all turns were made, they are all that the port has put out, and all are confirmed. `Output` says that, at
/// each moment, all that was put is safe, and no more than that is confirmed.
///
/// The stream ends as stopped exactly if its last check whether it is asked to stop answered yes; no check before that did. It fails with `Opening`
/// if the device isn't opened. `InputFailed` and `OutputFailed` name the port of an input or output that was given. Its answer says that a call of
/// the device failed, at the opening or in a flush, exactly if one did.
#[inline(never)]
pub fn stream<
    D: Disk + Send + Drop,
    S: Taker<D>,
    I: Source,
    L: Listener,
    P: Stop,
    R: Threads + Wait + Sync,
>(
    rt: &R,
    alloc: Global,
    task: Task,
    disk: D,
    streams: &mut Streams<S, I>,
    listener: &mut L,
    stop: &mut P,
) -> (D, Result<Ended, StreamFault>)
    ghost history: { History }
    requires quantum { task.quantum ≤ MAX_STEPS }
    requires allowed { Steps → D.writable ≡ true }
    ensures size { D.size_of result.0 ≡ D.size_of disk }
    ensures premise { WereTrue (D.reads disk) (D.reads result.0) }
    ensures streamed { AreTrue (D.reads result.0) → Began history.formatted history.before (D.state disk).now.bytes
        → Streamed history.formatted result.1 (D.state disk) (D.state result.0) }
    ensures put { AreTrue (D.reads result.0) → Began history.formatted history.before (D.state disk).now.bytes
        → StreamedInto history.formatted (map (λ i. given_input i.port (I.input i.source)) streams.old.inputs.items) result.1 streams.old.outputs.items streams.new.outputs.items (D.state disk) (D.state result.0) }
    ensures unwritten { StaysUnstreamed result.1 → LeavesNothingNew (D.state disk) (D.state result.0) }
    ensures unopened { AreTrue (D.reads result.0) → IsErr (verdict (D.state disk).now.bytes) → (unopened : Unopened) × (result.1 ≡ Err (StreamFault.Opening unopened)) }
    ensures answer { AreTrue (D.reads result.0) → StreamAnswer (verdict (D.state disk).now.bytes) result.1 }
    ensures failures { D.failures_of result.0 ≡ calls_failed (answer_failed result.1) (D.failures_of disk) }
    ensures begun { AreTrue (D.reads result.0) → (opened : OpenedValue) → verdict (D.state disk).now.bytes ≡ Ok opened
        → OnOk result.1 (AllMayBegin (stands_opened opened) (map given_of streams.old.outputs.items)) }
    ensures refused { AreTrue (D.reads result.0) → (opened : OpenedValue) → verdict (D.state disk).now.bytes ≡ Ok opened
        → IfErr result.1 (λ fault. OfOutput fault (IsFirstRefused (length opened.now.ports) (stands_opened opened) (map given_of streams.old.outputs.items) fault)) }
    ensures inputs { AreTrue (D.reads result.0) → (opened : OpenedValue) → verdict (D.state disk).now.bytes ≡ Ok opened
        → OnOk result.1 (AllHaveAccepted (accepted_opened opened) (map (λ i. given_input i.port (I.input i.source)) streams.old.inputs.items)) }
    ensures short { AreTrue (D.reads result.0) → (opened : OpenedValue) → verdict (D.state disk).now.bytes ≡ Ok opened
        → IfErr result.1 (λ fault. OfInput fault (AllMayBegin (stands_opened opened) (map given_of streams.old.outputs.items) × IsFirstShort (length opened.now.ports) (accepted_opened opened) (map (λ i. given_input i.port (I.input i.source)) streams.old.inputs.items) fault)) }
    ensures kept { AreTrue (D.reads result.0) → (opened : OpenedValue) → verdict (D.state disk).now.bytes ≡ Ok opened
        → (map given_of streams.new.outputs.items ≡ map given_of streams.old.outputs.items) ⊎ AllMayBegin (stands_opened opened) (map given_of streams.old.outputs.items) }
    ensures why { IfOk result.1 (λ ended. IsAsked task ended.why) }
    ensures looks { IfOk result.1 (λ ended. HaveLooked task (P.answers stop.old) (P.answers stop.new) (Some ended.why)) }
    ensures over { IfOk result.1 (λ ended. LeavesNoInput (list_all (λ i. is_over i.ended i.is_blocked) streams.new.inputs.items) ended.why) }
    ensures quiet { AreTrue (D.reads result.0) → (opened : OpenedValue) → verdict (D.state disk).now.bytes ≡ Ok opened
        → IfOk result.1 (λ ended. LeavesNothingToDo opened.head.topology ended.why) }
    ensures fits { AreTrue (D.reads result.0) → (opened : OpenedValue) → verdict (D.state disk).now.bytes ≡ Ok opened
        → SaysFit task opened.head.topology streams.old.outputs.items (map (λ i. i.port) streams.old.inputs.items) result.1 }
    ensures told { AreTrue (D.reads result.0) → (opened : OpenedValue) → verdict (D.state disk).now.bytes ≡ Ok opened
        → OnOk result.1 (ToldFirst (map (output_begins (stands_opened opened)) (map given_of streams.old.outputs.items)
        ++ map (input_begins (accepted_opened opened)) (map (λ i. given_input i.port (I.input i.source)) streams.old.inputs.items))
        (node_count opened.head.topology) (L.told listener.old) (L.told listener.new)) }
    ensures ends { IfErr result.1 (NamesEnd streams.new.outputs.items (map (λ i. i.port) streams.new.inputs.items)) }
    ensures untouched { StaysUnstreamed result.1 → map given_of streams.new.outputs.items ≡ map given_of streams.old.outputs.items }
{
    let mut disk = disk;
    let opened = match open(alloc, &mut disk) {
        Ok(opened) => opened,
        Err(unopened) => return (disk, Err(StreamFault::Opening(unopened))),
    };
    if let Some(fault) = task_fault(task, opened.head().topology(), streams) {
        return (disk, Err(fault));
    }
    opened.known();
    let known = Snapshot::of(&opened);
    let topology = topology_of(&opened);
    let _areas = opened.head().areas();
    let store = opened.store(disk);
    let (parts, raiser, runs, nodes) = match parts_of(
        alloc, opened, task.spare, streams, listener,
    ) {
        Ok(made) => made,
        Err(fault) => return (store.into_disk(), Err(fault)),
    };
    stream_parts::<Brand, D, S, I, L, P, R>(
        rt,
        alloc,
        task,
        Device {
            opened: known,
            topology,
            parts,
            raiser,
            runs,
            nodes,
            store,
        },
        streams,
        listener,
        stop,
    )
}
