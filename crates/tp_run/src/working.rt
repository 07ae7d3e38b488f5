//! Workers.

ghost use Rattle.std.specs.Prelude.{◌≡◌, ◌<◌, ◌≤◌, ◌↔◌, false, true, All, None, Some, Err, IfErr, IfOk, IfSome, length};
ghost use Rattle.tp_work.specs.Heeds.{is_heeded};
ghost use Rattle.tp_run.specs.Worked.{Worked};

use crate::aside::Aside;
use crate::watch::Watch;
use std::alloc::Global;
use std::sync::Wait;
use std::thread;
use std::thread::Threads;
use tp_shared::{Naming, NoGate, Shared};
use tp_work::{Heed, Net, Seat, Turn, TurnFault};

/// Gives how many entries to tell for a turn that made `made`. If the turn was refused for lack of room or memory, that is at least one, since a turn
/// of the flusher may make room.
fn told_of(done: &Result<Turn, TurnFault>, made: u64) -> u64
    ensures no_fewer { made ≤ result }
    ensures made { IfOk done.now (λ turn. result ≡ made) }
    ensures wanting { IfErr done.now (λ fault. (fault ≡ TurnFault.JournalFull → 0 < result) × (fault ≡ TurnFault.Memory → 0 < result)) }
{
    match done {
        Err(TurnFault::JournalFull | TurnFault::Memory) => made.max(1),
        Ok(_) | Err(TurnFault::Empty | TurnFault::StoreBroken) => made,
    }
}

/// Gives how many steps a turn had: 0 if it was refused or was the host's.
fn steps_of(done: &Result<Turn, TurnFault>) -> u16
    ensures made { IfOk done.now (λ turn. IfSome turn.ran (λ ran. result ≡ ran.count)) }
    ensures none { IfErr done.now (λ fault. result ≡ 0) }
    ensures host { IfOk done.now (λ turn. turn.ran ≡ None → result ≡ 0) }
{
    match done {
        Ok(Turn { ran: Some(ran), .. }) => ran.count(),
        Ok(Turn { ran: None, .. }) | Err(_) => 0,
    }
}

/// Whether a worker makes more turns after this one. Once the store has failed it makes none: that is final, and each turn of a node would be
/// refused.
fn may_go_on(done: &Result<Turn, TurnFault>) -> bool
    ensures { (result ≡ false) ↔ (done.now ≡ Err TurnFault.StoreBroken) }
{
    !matches!(done, Err(TurnFault::StoreBroken))
}

/// Begins a snapshot if it is time, and ignores a refusal. Takes no lock until enough entries may have been made.
fn begin<J: Naming, R: Wait>(rt: &R, alloc: Global, shared: &Shared<J>, watch: &Watch) {
    let Some(made) = watch.made_when_due() else {
        return;
    };
    let mut held = shared.book().lock(rt);
    held.known();
    let _begun = watch.begin(&mut held, alloc, made);
}

/// Makes turns until none is left, or until one is refused because the store has failed. Other refused turns count as turns. It never waits for the
/// flusher; a worker that `helps` rests while turns are short. `seat` gets the slips of exactly these turns, and counts them.
fn work<J: Naming, R: Wait>(
    rt: &R,
    alloc: Global,
    net: &Net<J, NoGate>,
    watch: &Watch,
    helps: bool,
    seat: &mut Seat<J>,
)
    requires hand { seat.old.hand.of ≡ Some net.now.queue }
    requires worked { Worked J.start net.now.quantum (length seat.old.answers) seat.old.slips }
    requires heeds { seat.old.heed ≡ Heed.Unbroken }
    ensures worked { Worked J.start net.now.quantum (length seat.new.answers) seat.new.slips }
    ensures heeds { is_heeded seat.new.heed ≡ true }
{
    let mut aside = Aside::new();
    if !helps {
        watch.begin_first();
    }
    for _ in 0..u32::MAX {
        if !watch.draw() {
            return;
        }
        begin(rt, alloc, net.shared(), watch);
        let before = seat.count();
        let done = net.turn(rt, seat);
        watch.tell(told_of(&done, seat.count().saturating_sub(before)));
        if !may_go_on(&done) {
            watch.end_rests();
            return;
        }
        if matches!(done, Err(TurnFault::Empty)) {
            thread::yield_now();
        }
        let rest = aside.count(steps_of(&done));
        if let Some(micros) = rest
            && helps
        {
            watch.rest(rt, micros);
        }
    }
}

/// Lets a worker at each seat make turns until none is left or the store has failed, and then tells the flusher. Each worker has a thread of its own
/// if one can be made. The first worker never rests; the others rest only while the first makes turns.
pub(crate) fn work_all<J: Naming + Send + Sync, R: Threads + Wait + Sync>(
    rt: &R,
    alloc: Global,
    net: &Net<J, NoGate>,
    watch: &Watch,
    seats: &mut [Seat<J>],
)
    requires seats { All (λ seat. (seat.hand.of ≡ Some net.now.queue) × Worked J.start net.now.quantum (length seat.answers) seat.slips × (seat.heed ≡ Heed.Unbroken)) seats.old }
    ensures count { length seats.new ≡ length seats.old }
    ensures seats { All (λ seat. Worked J.start net.now.quantum (length seat.answers) seat.slips × (is_heeded seat.heed ≡ true)) seats.new }
{
    let threads = seats.len().max(1);
    thread::for_each_mut(
        rt,
        seats,
        threads,
        &|index, seat: &mut Seat<J>|
            requires { (seat.now.hand.of ≡ Some net.now.queue) × Worked J.start net.now.quantum (length seat.now.answers) seat.now.slips × (seat.now.heed ≡ Heed.Unbroken) }
            ensures { Worked J.start net.entry.now.quantum (length seat.exit.now.answers) seat.exit.now.slips × (is_heeded seat.exit.now.heed ≡ true) }
        { work(rt, alloc, net, watch, index > 0, seat) },
    );
    watch.end();
}
