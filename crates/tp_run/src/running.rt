//! A run, from a device to a device.

ghost use Rattle.std.specs.Prelude.{◌≡◌, ◌<◌, ◌≤◌, [], true, false, All, Ok, Err, Some, length, vec_len, IfErr, IfOk, IsErr};
ghost use Rattle.tp_run.specs.Lower.{AreTrue, WereTrue, AllByRecursion, place_at, Began, IsSameProcess, Walked, IsSynced, IsNodeOfBytes, is_roomy, room, t414_ends, verdict, IsCut, Resting, MAX_STEPS, LeavesNothingNew, IsMadeOf, Unopened, MAX_WORKERS, Names, Steps};
ghost use Rattle.tp_run.specs.Answered.{AnswerFor};
ghost use Rattle.tp_run.specs.Every.{every_of};
ghost use Rattle.tp_run.specs.Failures.{failures_after, has_failed};
ghost use Rattle.tp_run.specs.Faults.{ComesBegun, IsSilent, IsUnbegun};
ghost use Rattle.tp_run.specs.HandedOver.{HandedOver};
ghost use Rattle.tp_run.specs.Input.{input_slips, rest_at};
ghost use Rattle.tp_run.specs.Made.{HaveFrames};
ghost use Rattle.tp_run.specs.Outset.{outset_in};
ghost use Rattle.tp_run.specs.Ran.{History, Ran, RanInto, Settled};
ghost use Rattle.tp_run.specs.Rested.{LeadsToRest, RestsAt};
ghost use Rattle.tp_run.specs.Shown.{MayPrint};

use crate::beginning::every_of;
use crate::fault::RunFault;
use crate::job::Job;
use crate::opening::{job_fault, parts_of};
use crate::outlet::Outlet;
use crate::outset::Outset;
use crate::serving::serve;
use std::alloc::Global;
use std::marker::Brand;
use std::snapshot::Snapshot;
use std::sync::Wait;
use std::thread::Threads;
use tp_area::Store;
use tp_disk::Disk;
use tp_flush::{Flusher, stored_slips_are_recovered, topology_of};
use tp_net::Topology;
use tp_node::{Node, Rest};
use tp_ready::Raiser;
use tp_recover::{Opened, open};
use tp_shared::{HostKey, Naming, NoGate, Parts};
use tp_work::{Heed, Net, Seat};

/// Drops a network. It is never inlined, since moving the network takes room on the stack.
#[inline(never)]
fn let_go<J: Naming>(_net: Net<J, NoGate>) {}

/// Serves a network as `serve` does, says what is left to do in it, and drops it. `key` was lent to nothing else, so the journal has nothing from the
/// host but what `serve` handed in. It is a function of its own so that the network isn't on the stack together with the parts that it was made of.
#[inline(never)]
fn use_up<J: Naming + Send + Sync, D: Disk + Send + Drop, O: Outlet<D>, R: Threads + Wait + Sync>(
    rt: &R,
    alloc: Global,
    job: Job,
    every: u64,
    outset: Outset,
    net: Net<J, NoGate>,
    seats: Vec<Seat<J>>,
    host: tp_shared::Seat<J>,
    key: HostKey<J>,
    flusher: Flusher<J, D>,
    input: &[u8],
    out: &mut O,
) -> (Flusher<J, D>, Result<u64, RunFault>, Rest)
    requires there { outset.port < length J.start.ports }
    requires first { outset.next ≡ J.first }
    requires quantum { net.quantum ≡ job.quantum }
    requires every { every ≡ every_of job.every flusher.topology flusher.place.areas.length }
    requires seats { All (λ seat. (seat.hand.of ≡ Some net.queue) × (seat.slips ≡ [])) seats.items }
    requires idle { All (λ seat. (seat.answers ≡ []) × (seat.heed ≡ Heed.Unbroken)) seats.items }
    requires count { vec_len seats ≡ job.workers }
    requires host { host ≡ [] }
    requires key { key ≡ [] }
    requires rests { flusher.world.at ≡ Resting }
    ensures premise { WereTrue flusher.reads result.0.reads }
    ensures walks { AreTrue result.0.reads → Began J.formatted J.before flusher.opened → Walked flusher result.0 }
    ensures process { IsSameProcess flusher result.0 }
    ensures failures { result.0.failures ≡ failures_after (has_failed result.1) flusher.failures }
    ensures stored { IfOk result.1 (λ next. next ≤ result.0.world.mark) }
    ensures settled { AreTrue result.0.reads → Began J.formatted J.before flusher.opened
        → IfOk result.1 (Settled J.formatted J.start job outset (input_slips outset input.now) (O.value out.old).taken (O.value out.new).taken result.0.world.journal) }
    ensures shown { AreTrue result.0.reads → Began J.formatted J.before flusher.opened
        → MayPrint J.formatted flusher result.0 outset.port outset.confirmed (O.value out.old) (O.value out.new) result.1 }
    ensures handed { AreTrue result.0.reads → Began J.formatted J.before flusher.opened
        → HandedOver J.formatted result.0.world.journal outset input.now (O.value out.old).taken (O.value out.new).taken }
    ensures rest { AreTrue result.0.reads → Began J.formatted J.before flusher.opened
        → IfOk result.1 (λ next. LeadsToRest J.formatted result.0.world.journal next result.2) }
    ensures silent { IsSilent result.1 → O.value out.new ≡ O.value out.old }
    ensures some { IfErr result.1 (λ fault. fault ≡ RunFault.OfferRefused → 0 < length (rest_at outset input.now)) }
    ensures begun { IfErr result.1 ComesBegun }
{
    let mut key = key;
    let mut rest = Rest::Busy;
    let (mut flusher, done) = serve(
        rt, alloc, job, every, outset, &net, seats, host, &mut key, flusher, input, out, &mut rest,
    );
    flusher.settle_host_under(rt, net.shared(), &mut key);
    let_go(net);
    (flusher, done, rest)
}

/// Runs the network of an opened device, from the parts that were made of it. `_nodes` are the nodes in them: each has the spare frames that the job
/// asks for. Fails with `Memory` if the threads' seats find no room; else as `serve` fails.
#[inline(never)]
fn run_parts<
    J: Naming + Send + Sync,
    D: Disk + Send + Drop,
    O: Outlet<D>,
    R: Threads + Wait + Sync,
>(
    rt: &R,
    alloc: Global,
    job: Job,
    opened: Snapshot<Opened>,
    topology: Topology,
    parts: Parts,
    raiser: Raiser,
    outset: Outset,
    _nodes: Snapshot<Vec<Node>>,
    store: Store<D>,
    input: &[u8],
    out: &mut O,
) -> (D, Result<u64, RunFault>, Rest)
    requires workers { (0 < job.workers) × (job.workers ≤ MAX_WORKERS) }
    requires quantum { (0 < job.quantum) × (job.quantum ≤ MAX_STEPS) }
    requires port { job.port < opened.value.head.topology.ports }
    requires names { Names J.roll J.first J.start J.node J.mark J.flusher J.host J.sights J.room J.accepted parts }
    requires stands { IsMadeOf opened.value parts raiser }
    requires bound { parts.book.room ≡ Some (room opened.value.head.topology opened.value.head.areas.length) }
    requires cut { IsCut t414_ends opened.value.head.topology opened.value.base opened.value.cut }
    requires bytes { AllByRecursion IsNodeOfBytes opened.value.cut.nodes }
    requires outset { outset ≡ outset_in opened.value job.port }
    requires frames { HaveFrames job.spare _nodes.value.items }
    requires place { store.place ≡ place_at opened.value }
    requires topology { topology ≡ opened.value.head.topology }
    requires network { J.start ≡ opened.value.cut }
    requires roomy { is_roomy opened.value.head.topology opened.value.head.areas.length ≡ true }
    requires unbroken { store.broken ≡ false }
    requires allowed { Steps → D.writable ≡ true }
    requires read { AreTrue (D.reads store.disk) → verdict (D.state store.disk).now.bytes ≡ Ok opened.value }
    requires synced { AreTrue (D.reads store.disk) → IsSynced (D.state store.disk) }
    ensures size { D.size_of result.0 ≡ D.size_of store.disk }
    ensures premise { WereTrue (D.reads store.disk) (D.reads result.0) }
    ensures called { AreTrue (D.reads result.0) → Began J.formatted J.before (D.state store.disk).now.bytes
        → RanInto J.formatted job input.now (O.value out.old) (O.value out.new) result.1 (D.state store.disk) (D.state result.0) }
    ensures rest { AreTrue (D.reads result.0) → Began J.formatted J.before (D.state store.disk).now.bytes
        → IfOk result.1 (λ next. RestsAt J.formatted result.2 next (D.state store.disk) (D.state result.0)) }
    ensures silent { IsSilent result.1 → O.value out.new ≡ O.value out.old }
    ensures failures { D.failures_of result.0 ≡ failures_after (has_failed result.1) (D.failures_of store.disk) }
    ensures some { IfErr result.1 (λ fault. fault ≡ RunFault.OfferRefused → 0 < length (rest_at outset input.now)) }
    ensures begun { IfErr result.1 ComesBegun }
{
    let Ok((mut net, seats, told, key)) = Net::<J, NoGate>::start(
        rt,
        alloc,
        parts,
        job.quantum,
        job.workers,
        NoGate,
    ) else {
        return (store.into_disk(), Err(RunFault::Memory), Rest::Busy);
    };
    let host = net.seat();
    let every = every_of(job.every, &topology, store.place.areas.length);
    let flusher = Flusher::over(opened, topology, store, told, raiser);
    flusher.known();
    stored_slips_are_recovered();
    let (flusher, done, rest) = use_up(
        rt, alloc, job, every, outset, net, seats, host, key, flusher, input, out,
    );
    (flusher.into_disk(), done, rest)
}

/// Runs the network of a device, in this order:
/// - It opens the device.
/// - It hands in what its port hasn't accepted of `input`.
/// - The workers make their turns, and what they did is stored.
/// - It prints what the port shows, and confirms that.
///
/// Answers the device, the number that the next entry gets, and what is left to do in the network. After a finished run that is exactly what is left
/// to do in the network to which the entries below that number lead: each node has halted, nothing is left, or something is. If the run failed, it
/// claims nothing. A finished run has made as many turns as the job asks for.
///
/// A crash at any moment of the call leaves one of two things. Either a crash just before the call might have left it, too; or it opens to the
/// network that a prefix of the journal leads to. That prefix has all that the device had. After a finished run the prefix has each entry below the
/// answered number. Among them are those of the input and the one that confirms what was printed; the workers' turns made all others since the
/// opening.
///
/// However the call ends, what it printed are outputs of the port, and whatever a crash leaves from then on has the entries that lead to them. If the
/// output can't be written, fewer than all of them were printed. Each call of `out` is for all outputs that it hasn't taken. The calls end when it
/// has taken all or one has failed, and until then the device's state stays as it is. The host hands in nothing but the input and, after `out` has taken
/// all outputs, the entry that confirms them.
///
/// A fault tells its reason: that the device isn't opened, what is wrong with the job, or what failed later. It says that a call of the device failed
/// exactly if one did.
#[inline(never)]
pub fn run<D: Disk + Send + Drop, O: Outlet<D>, R: Threads + Wait + Sync>(
    rt: &R,
    alloc: Global,
    job: Job,
    disk: D,
    input: &[u8],
    out: &mut O,
) -> (D, Result<u64, RunFault>, Rest)
    ghost history: { History }
    requires workers { (0 < job.workers) × (job.workers ≤ MAX_WORKERS) }
    requires quantum { (0 < job.quantum) × (job.quantum ≤ MAX_STEPS) }
    requires allowed { Steps → D.writable ≡ true }
    ensures size { D.size_of result.0 ≡ D.size_of disk }
    ensures premise { WereTrue (D.reads disk) (D.reads result.0) }
    ensures ran { AreTrue (D.reads result.0) → Began history.formatted history.before (D.state disk).now.bytes
        → Ran history.formatted job input.now (O.value out.old).taken (O.value out.new).taken result.1 (D.state disk) (D.state result.0) }
    ensures called { AreTrue (D.reads result.0) → Began history.formatted history.before (D.state disk).now.bytes
        → RanInto history.formatted job input.now (O.value out.old) (O.value out.new) result.1 (D.state disk) (D.state result.0) }
    ensures rest { AreTrue (D.reads result.0) → Began history.formatted history.before (D.state disk).now.bytes
        → IfOk result.1 (λ next. RestsAt history.formatted result.2 next (D.state disk) (D.state result.0)) }
    ensures unwritten { IsUnbegun result.1 → LeavesNothingNew (D.state disk) (D.state result.0) }
    ensures silent { IsSilent result.1 → O.value out.new ≡ O.value out.old }
    ensures unopened { AreTrue (D.reads result.0) → IsErr (verdict (D.state disk).now.bytes) → (unopened : Unopened) × (result.1 ≡ Err (RunFault.Opening unopened)) }
    ensures answer { AreTrue (D.reads result.0) → AnswerFor (verdict (D.state disk).now.bytes) job input.now result.1 }
    ensures failures { D.failures_of result.0 ≡ failures_after (has_failed result.1) (D.failures_of disk) }
{
    let mut disk = disk;
    let opened = match open(alloc, &mut disk) {
        Ok(opened) => opened,
        Err(unopened) => return (disk, Err(RunFault::Opening(unopened)), Rest::Busy),
    };
    if let Some(fault) = job_fault(job, opened.head().topology()) {
        return (disk, Err(fault), Rest::Busy);
    }
    opened.known();
    let known = Snapshot::of(&opened);
    let topology = topology_of(&opened);
    let _areas = opened.head().areas();
    let store = opened.store(disk);
    let Ok((parts, raiser, outset, nodes)) = parts_of(alloc, opened, job.spare, job.port) else {
        return (store.into_disk(), Err(RunFault::Memory), Rest::Busy);
    };
    run_parts::<Brand, D, O, R>(
        rt, alloc, job, known, topology, parts, raiser, outset, nodes, store, input, out,
    )
}
