//! What a run does with a network in threads, and with its flusher.

ghost use Rattle.std.specs.Prelude.{◌≡◌, ◌<◌, ◌≤◌, ◌⊎◌, ◌++◌, [], All, flat_map, length, sum_by, vec_len, IfErr, IfOk, OnErr, Some};
ghost use Rattle.tp_run.specs.Lower.{AreTrue, WereTrue, Began, IsSameProcess, Walked, position, SlipsStand, AreAll, Resting};
ghost use Rattle.tp_run.specs.Every.{every_of};
ghost use Rattle.tp_run.specs.Failures.{CountsFailures, failures_after, has_failed};
ghost use Rattle.tp_run.specs.Faults.{ComesBegun, ComesBehind, IsLate, IsOfferFault, IsSilent};
ghost use Rattle.tp_run.specs.HandedOver.{ConfirmsTaken, HandsIn};
ghost use Rattle.tp_run.specs.Input.{IsForInput, input_slips, rest_at};
ghost use Rattle.tp_run.specs.Output.{IsForOutput};
ghost use Rattle.tp_run.specs.Prints.{TellsAllPrinted};
ghost use Rattle.tp_run.specs.Ran.{Settled};
ghost use Rattle.tp_run.specs.Rested.{LeadsToRest};
ghost use Rattle.tp_run.specs.Shown.{AreShownIn, MayPrint, MayShow};
ghost use Rattle.tp_run.specs.Worked.{Worked};

use crate::accounting::account;
use crate::fault::RunFault;
use crate::flushing::{flush_meanwhile, flush_upto};
use crate::job::Job;
use crate::offering::offer_at;
use crate::outlet::Outlet;
use crate::outset::Outset;
use crate::printing::print_from;
use crate::resting::rest_after;
use crate::watch::Watch;
use crate::working::work_all;
use std::alloc::Global;
use std::sync::Wait;
use std::thread::{Threads, join};
use tp_book::Receipt;
use tp_disk::Disk;
use tp_flush::Flusher;
use tp_node::Rest;
use tp_shared::{HostKey, Locked, Naming, NoGate, Shared};
use tp_work::{Heed, Net, Seat};

/// Hands in the input, under the book's lock. `seat` gets the slips, and `key` shows the entries. Fails as `offer_at` does, and then both stay as they
/// were.
fn offer<J: Naming, R: Wait>(
    rt: &R,
    shared: &Shared<J>,
    seat: &mut tp_shared::Seat<J>,
    key: &mut HostKey<J>,
    outset: Outset,
    input: &[u8],
) -> Result<Receipt, RunFault>
    requires { outset.port < length J.start.ports }
    ensures receipt { IfOk result (IsForInput outset input.now seat.old seat.new key.old key.new) }
    ensures refused { IfErr result IsOfferFault }
    ensures some { IfErr result (λ fault. fault ≡ RunFault.OfferRefused → 0 < length (rest_at outset input.now)) }
    ensures err { OnErr result ((seat.new ≡ seat.old) × (key.new ≡ key.old)) }
{
    let mut held = shared.book().lock(rt);
    held.known();
    offer_at(&mut held, seat, key, outset, input)
}

/// Prints and confirms, under the book's lock, what `mark` shows, which the flusher raised. What it prints are outputs of the port in a network to
/// which the flusher's journal leads. `seat` gets the slip, and `key` shows the entry. Fails as `print_from` does.
fn print_settled<J: Naming, D: Disk, O: Outlet<D>>(
    held: &mut Locked<J>,
    seat: &mut tp_shared::Seat<J>,
    key: &mut HostKey<J>,
    flusher: &mut Flusher<J, D>,
    outset: Outset,
    mark: u64,
    out: &mut O,
) -> Result<Receipt, RunFault>
    requires there { outset.port < length held.old.book.state.ports }
    requires mark { mark ≡ flusher.old.world.mark }
    ensures same { flusher.new ≡ flusher.old }
    ensures receipt { IfOk result (IsForOutput outset.port outset.confirmed
        (λ number bytes. AreTrue flusher.new.reads → Began J.formatted J.before flusher.old.opened → AreShownIn J.formatted flusher.old.world outset.port outset.confirmed number bytes)
        (O.value out.old).taken (O.value out.new).taken seat.old seat.new key.old key.new) }
    ensures shown { AreTrue flusher.new.reads → Began J.formatted J.before flusher.old.opened
        → MayShow J.formatted flusher.old.world.journal flusher.old.world.mark outset.port outset.confirmed flusher.old.state (O.value out.old) (O.value out.new) result }
    ensures late { IfErr result IsLate }
    ensures err { OnErr result ((held.new ≡ held.old) × (seat.new ≡ seat.old) × (key.new ≡ key.old)) }
{
    flusher.settle_book(held);
    print_from(held, seat, key, flusher, outset, mark, out)
}

/// Takes the book's lock, and prints and confirms as `print_settled` does. `seat` gets the slip, and `key` shows the entry.
fn print<J: Naming, D: Disk, O: Outlet<D>, R: Wait>(
    rt: &R,
    shared: &Shared<J>,
    seat: &mut tp_shared::Seat<J>,
    key: &mut HostKey<J>,
    flusher: &mut Flusher<J, D>,
    outset: Outset,
    mark: u64,
    out: &mut O,
) -> Result<Receipt, RunFault>
    requires there { outset.port < length J.start.ports }
    requires mark { mark ≡ flusher.old.world.mark }
    ensures same { flusher.new ≡ flusher.old }
    ensures receipt { IfOk result (IsForOutput outset.port outset.confirmed
        (λ number bytes. AreTrue flusher.new.reads → Began J.formatted J.before flusher.old.opened → AreShownIn J.formatted flusher.old.world outset.port outset.confirmed number bytes)
        (O.value out.old).taken (O.value out.new).taken seat.old seat.new key.old key.new) }
    ensures shown { AreTrue flusher.new.reads → Began J.formatted J.before flusher.old.opened
        → MayShow J.formatted flusher.old.world.journal flusher.old.world.mark outset.port outset.confirmed flusher.old.state (O.value out.old) (O.value out.new) result }
    ensures late { IfErr result IsLate }
    ensures err { OnErr result ((seat.new ≡ seat.old) × (key.new ≡ key.old)) }
{
    let mut held = shared.book().lock(rt);
    held.known();
    print_settled(&mut held, seat, key, flusher, outset, mark, out)
}

/// Lets the workers make their turns. The flusher makes its own meanwhile in another thread, or after them if no thread can be made. Answers the
/// flusher, and the seats with the slips of what the turns made. `watch` is as the job asks.
#[inline(never)]
fn work<J: Naming + Send + Sync, D: Disk + Send + Drop, R: Threads + Wait + Sync>(
    rt: &R,
    alloc: Global,
    _job: Job,
    net: &Net<J, NoGate>,
    seats: Vec<Seat<J>>,
    watch: Watch,
    flusher: Flusher<J, D>,
) -> (Flusher<J, D>, Vec<Seat<J>>)
    requires watch { (watch.turns ≡ _job.turns) × (watch.every ≡ every_of _job.every flusher.topology flusher.place.areas.length) }
    requires seats { All (λ seat. (seat.hand.of ≡ Some net.now.queue) × Worked J.start net.now.quantum (length seat.answers) seat.slips × (seat.heed ≡ Heed.Unbroken)) seats.items }
    ensures premise { WereTrue flusher.reads result.0.reads }
    ensures walks { AreTrue result.0.reads → Began J.formatted J.before flusher.opened → Walked flusher result.0 }
    ensures process { IsSameProcess flusher result.0 }
    ensures failures { CountsFailures flusher result.0 }
    ensures count { vec_len result.1 ≡ vec_len seats }
    ensures seats { All (λ seat. Worked J.start net.now.quantum (length seat.answers) seat.slips) result.1.items }
{
    let watching = &watch;
    let shared = net.shared();
    join(
        rt,
        move || -> Flusher<J, D>
            ensures { WereTrue flusher.reads result.reads × (AreTrue result.reads → Began J.formatted J.before flusher.opened → Walked flusher result) × IsSameProcess flusher result × CountsFailures flusher result }
        { flush_meanwhile(rt, alloc, shared, watching, flusher) },
        move || -> Vec<Seat<J>>
            requires { All (λ seat. (seat.hand.of ≡ Some net.now.queue) × Worked J.start net.now.quantum (length seat.answers) seat.slips × (seat.heed ≡ Heed.Unbroken)) seats.items }
            ensures { (vec_len result ≡ vec_len seats) × All (λ seat. Worked J.start net.entry.now.quantum (length seat.answers) seat.slips) result.items }
        {
            let mut seats = seats;
            work_all(rt, alloc, net, watching, seats.as_mut_slice());
            seats
        },
    )
}

/// Checks, under the book's lock and after the last flush, that the seats of the host and the workers have exactly the slips of all entries from
/// `first` on, and that the workers made `turns` turns. The next number must be `next`. Answers `next`, or fails with `Unaccounted`. `rest` becomes
/// what is left to do in the network then. Changes nothing else.
fn settle<J: Naming, D: Disk, R: Wait>(
    rt: &R,
    shared: &Shared<J>,
    flusher: &mut Flusher<J, D>,
    first: u64,
    next: u64,
    turns: u32,
    seats: Vec<Seat<J>>,
    host: tp_shared::Seat<J>,
    rest: &mut Rest,
) -> Result<u64, RunFault>
    requires first { first ≡ J.first }
    ensures same { flusher.new ≡ flusher.old }
    ensures stand { AreTrue flusher.new.reads → Began J.formatted J.before flusher.old.opened → SlipsStand flusher.old.world.journal host }
    ensures next { IfOk result (λ answer. answer ≡ next) }
    ensures turns { IfOk result (λ answer. sum_by (λ seat. length seat.answers) seats.items ≡ turns) }
    ensures rest { AreTrue flusher.new.reads → Began J.formatted J.before flusher.old.opened
        → IfOk result (λ answer. LeadsToRest J.formatted flusher.old.world.journal answer rest.new) }
    ensures all { AreTrue flusher.new.reads → Began J.formatted J.before flusher.old.opened
        → IfOk result (λ answer. AreAll J.first answer flusher.old.world.journal (host ++ flat_map (λ seat. seat.slips) seats.items)) }
    ensures late { IfErr result IsLate }
    ensures told { TellsAllPrinted result }
{
    let mut host = host;
    let mut held = shared.book().lock(rt);
    flusher.settle_seat(&mut held, &mut host);
    let done = account(&mut held, flusher, first, next, turns, seats, host);
    *rest = rest_after(rt, shared, &mut held, flusher, &done);
    done
}

/// Flushes, prints what is shown, confirms it, and flushes again. Answers the number that the next entry gets. All that was journalled since the
/// opening is then in the journal: the workers' entries, those of the host's seat (the input's), and the one that confirms the output. However it
/// ends, what was printed are outputs of the port in a network to which the journal leads. `key` shows the entry that confirms the output, unless it
/// ends before that was made. `rest` becomes what is left to do in the network, exactly.
#[inline(never)]
fn finish<J: Naming, D: Disk, O: Outlet<D>, R: Wait>(
    rt: &R,
    alloc: Global,
    shared: &Shared<J>,
    job: Job,
    outset: Outset,
    offered: Receipt,
    host: tp_shared::Seat<J>,
    key: &mut HostKey<J>,
    seats: Vec<Seat<J>>,
    flusher: &mut Flusher<J, D>,
    out: &mut O,
    rest: &mut Rest,
) -> Result<u64, RunFault>
    requires there { outset.port < length J.start.ports }
    requires first { outset.next ≡ J.first }
    requires seats { All (λ seat. Worked J.start job.quantum (length seat.answers) seat.slips) seats.items }
    requires count { vec_len seats ≡ job.workers }
    ensures premise { WereTrue flusher.old.reads flusher.new.reads }
    ensures walks { AreTrue flusher.new.reads → Began J.formatted J.before flusher.old.opened → Walked flusher.old flusher.new }
    ensures process { IsSameProcess flusher.old flusher.new }
    ensures stored { IfOk result (λ next. next ≤ flusher.new.world.mark) }
    ensures settled { AreTrue flusher.new.reads → Began J.formatted J.before flusher.old.opened
        → IfOk result (Settled J.formatted J.start job outset host (O.value out.old).taken (O.value out.new).taken flusher.new.world.journal) }
    ensures shown { AreTrue flusher.new.reads → Began J.formatted J.before flusher.old.opened
        → MayPrint J.formatted flusher.old flusher.new outset.port outset.confirmed (O.value out.old) (O.value out.new) result }
    ensures rest { AreTrue flusher.new.reads → Began J.formatted J.before flusher.old.opened
        → IfOk result (λ next. LeadsToRest J.formatted flusher.new.world.journal next rest.new) }
    ensures handed { AreTrue flusher.new.reads → Began J.formatted J.before flusher.old.opened
        → (key.new ≡ key.old) ⊎ ConfirmsTaken J.formatted flusher.new.world.journal outset.port outset.confirmed (O.value out.old).taken (O.value out.new).taken key.old key.new }
    ensures silent { IsSilent result → O.value out.new ≡ O.value out.old }
    ensures failures { CountsFailures flusher.old flusher.new }
    ensures ends { flusher.new.world.at ≡ position (has_failed result) }
    ensures behind { IfErr result ComesBehind }
{
    flusher.known();
    let mut host = host;
    let number = offered.number();
    let mark = flush_upto(rt, alloc, shared, flusher, number, RunFault::FlushFailed)?;
    let confirmed = print(rt, shared, &mut host, key, flusher, outset, mark, out)?;
    let next = confirmed.number();
    let _mark = flush_upto(rt, alloc, shared, flusher, next, RunFault::LastFlushFailed)?;
    settle(
        rt,
        shared,
        flusher,
        outset.next,
        next,
        job.turns,
        seats,
        host,
        rest,
    )
}

/// Hands in the input, lets the workers make their turns, and prints and confirms what is shown then. Answers the flusher, and the number that the
/// next entry gets. The seat `host` gets the slips of what is handed in and confirmed, and `key` shows these entries. If the input is refused, it
/// fails before any turn; else it fails as `finish` does. `rest` becomes what is left to do in the network, exactly.
#[inline(never)]
pub(crate) fn serve<
    J: Naming + Send + Sync,
    D: Disk + Send + Drop,
    O: Outlet<D>,
    R: Threads + Wait + Sync,
>(
    rt: &R,
    alloc: Global,
    job: Job,
    every: u64,
    outset: Outset,
    net: &Net<J, NoGate>,
    seats: Vec<Seat<J>>,
    host: tp_shared::Seat<J>,
    key: &mut HostKey<J>,
    flusher: Flusher<J, D>,
    input: &[u8],
    out: &mut O,
    rest: &mut Rest,
) -> (Flusher<J, D>, Result<u64, RunFault>)
    requires there { outset.port < length J.start.ports }
    requires first { outset.next ≡ J.first }
    requires quantum { net.now.quantum ≡ job.quantum }
    requires every { every ≡ every_of job.every flusher.topology flusher.place.areas.length }
    requires seats { All (λ seat. (seat.hand.of ≡ Some net.now.queue) × (seat.slips ≡ [])) seats.items }
    requires idle { All (λ seat. (seat.answers ≡ []) × (seat.heed ≡ Heed.Unbroken)) seats.items }
    requires count { vec_len seats ≡ job.workers }
    requires host { host ≡ [] }
    requires key { key.old ≡ [] }
    requires rests { flusher.world.at ≡ Resting }
    ensures premise { WereTrue flusher.reads result.0.reads }
    ensures walks { AreTrue result.0.reads → Began J.formatted J.before flusher.opened → Walked flusher result.0 }
    ensures process { IsSameProcess flusher result.0 }
    ensures failures { result.0.failures ≡ failures_after (has_failed result.1) flusher.failures }
    ensures stored { IfOk result.1 (λ next. next ≤ result.0.world.mark) }
    ensures settled { AreTrue result.0.reads → Began J.formatted J.before flusher.opened
        → IfOk result.1 (Settled J.formatted J.start job outset (input_slips outset input.now) (O.value out.old).taken (O.value out.new).taken result.0.world.journal) }
    ensures shown { AreTrue result.0.reads → Began J.formatted J.before flusher.opened
        → MayPrint J.formatted flusher result.0 outset.port outset.confirmed (O.value out.old) (O.value out.new) result.1 }
    ensures handed { AreTrue result.0.reads → Began J.formatted J.before flusher.opened
        → HandsIn J.formatted result.0.world.journal outset input.now (O.value out.old).taken (O.value out.new).taken key.new }
    ensures rest { AreTrue result.0.reads → Began J.formatted J.before flusher.opened
        → IfOk result.1 (λ next. LeadsToRest J.formatted result.0.world.journal next rest.new) }
    ensures silent { IsSilent result.1 → O.value out.new ≡ O.value out.old }
    ensures some { IfErr result.1 (λ fault. fault ≡ RunFault.OfferRefused → 0 < length (rest_at outset input.now)) }
    ensures begun { IfErr result.1 ComesBegun }
{
    flusher.known();
    let shared = net.shared();
    let mut host = host;
    let offered = match offer(rt, shared, &mut host, key, outset, input) {
        Ok(offered) => offered,
        Err(fault) => return (flusher, Err(fault)),
    };
    let watch = Watch::new(job.turns, every);
    let (mut flusher, seats) = work(rt, alloc, job, net, seats, watch, flusher);
    let done = finish(
        rt,
        alloc,
        shared,
        job,
        outset,
        offered,
        host,
        key,
        seats,
        &mut flusher,
        out,
        rest,
    );
    (flusher, done)
}
