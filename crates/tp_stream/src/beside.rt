//! Workers, and the flusher's turns while they work.

ghost use Rattle.std.specs.Prelude.{◌≡◌, ◌≤◌, ◌*◌, ◌-◌, ◌/◌, ◌^◌, max, min, All, Some, None, IfOk, IfErr, IfSome};
ghost use Rattle.tp_stream.specs.Lower.{AreTrue, WereTrue, Resting, Began, IsSameProcess, Walked};
ghost use Rattle.tp_stream.specs.Accounted.{MadeByTurns};
ghost use Rattle.tp_stream.specs.FailedEnds.{NamesNoEnd};
ghost use Rattle.tp_stream.specs.Failures.{FailedWhere, answer_failed};
ghost use Rattle.tp_stream.specs.Outcomes.{shift_outcome};
ghost use Rattle.tp_stream.specs.Rooms.{free_of};
ghost use Rattle.tp_stream.specs.Streamed.{CameBegun, CameOfFlush, CameOfTurns};
ghost use Rattle.tp_stream.specs.declared.beside.TheConstants.{SHIFT};

use crate::fault::StreamFault;
use crate::flushing::flush;
use crate::ground::Ground;
use crate::lent::Lent;
use crate::pace::Pace;
use crate::shift::{Drawn, Shift};
use crate::task::Task;
use crate::turns::Turns;
use std::alloc::Global;
use std::sync::Wait;
use std::thread;
use std::thread::{Threads, join};
use tp_disk::Disk;
use tp_flush::Flusher;
use tp_shared::{Locked, Naming, NoGate, Shared};
use tp_stream_files::Ending;
use tp_work::{Net, Seat};

/// How many turns a shift has at most for each of its workers. A round without workers has as many, so that ports wait for a shift about as long as
/// for a round.
const SHIFT: u64 = 1024;

/// Makes the turn that was drawn in this shift.
fn one<J: Naming, R: Wait>(
    rt: &R,
    net: &Net<J, NoGate>,
    shift: &Shift,
    _drawn: Drawn,
    seat: &mut Seat<J>,
)
    requires queue { seat.old.hand.of ≡ Some net.now.queue }
    requires made { MadeByTurns J.start seat.old.slips }
    ensures queue { seat.new.hand.of ≡ Some net.now.queue }
    ensures made { MadeByTurns J.start seat.new.slips }
{
    let before = seat.count();
    let done = net.turn(rt, seat);
    shift.tell(&done, seat.count().saturating_sub(before));
}

/// Makes turns until none is left in this shift.
fn work<J: Naming, R: Wait>(rt: &R, net: &Net<J, NoGate>, shift: &Shift, seat: &mut Seat<J>)
    requires queue { seat.old.hand.of ≡ Some net.now.queue }
    requires made { MadeByTurns J.start seat.old.slips }
    ensures queue { seat.new.hand.of ≡ Some net.now.queue }
    ensures made { MadeByTurns J.start seat.new.slips }
{
    for _ in 0..u32::MAX {
        let Some(drawn) = shift.draw() else {
            return;
        };
        one(rt, net, shift, drawn, seat);
    }
}

/// Makes turns in each shift, until no more shifts will be opened.
fn stay<J: Naming, R: Wait>(rt: &R, net: &Net<J, NoGate>, shift: &Shift, seat: &mut Seat<J>)
    requires queue { seat.old.hand.of ≡ Some net.now.queue }
    requires made { MadeByTurns J.start seat.old.slips }
    ensures queue { seat.new.hand.of ≡ Some net.now.queue }
    ensures made { MadeByTurns J.start seat.new.slips }
{
    shift.crew.come();
    let mut seen = 0;
    for _ in rt.forever() {
        let Some(opened) = shift.crew.wait(rt, seen) else {
            return;
        };
        seen = opened;
        shift.crew.enter();
        work(rt, net, shift, seat);
        shift.leave();
    }
}

/// Lets a worker at each seat make turns in each shift, until no more shifts are opened. Each has a thread of its own if one can be made. A worker
/// without a thread only begins once no more shifts are opened, so it makes no turns.
fn work_all<J: Naming + Send + Sync, R: Threads + Wait + Sync>(
    rt: &R,
    net: &Net<J, NoGate>,
    shift: &Shift,
    seats: &mut [Seat<J>],
)
    requires seats { All (λ seat. (seat.hand.of ≡ Some net.now.queue) × MadeByTurns J.start seat.slips) seats.old }
    ensures seats { All (λ seat. MadeByTurns J.start seat.slips) seats.new }
{
    let threads = seats.len().max(1);
    thread::for_each_mut(
        rt,
        seats,
        threads,
        &|_, seat: &mut Seat<J>|
            requires { (seat.now.hand.of ≡ Some net.now.queue) × MadeByTurns J.start seat.now.slips }
            ensures { MadeByTurns J.start seat.exit.now.slips }
        { stay(rt, net, shift, seat) },
    );
}

/// Does `work` in this thread while a worker at each seat stays in a thread of its own. Workers without a thread come after the work. In the end the
/// work must say that no more shifts are opened. Answers the seats, with the slips of what the workers' turns made.
#[inline(never)]
pub(crate) fn go_with_workers<
    J: Naming + Send + Sync,
    W: Lent<Back = B> + Drop,
    R: Threads + Wait + Sync,
    B,
>(rt: &R, net: &Net<J, NoGate>, shift: &Shift, seats: Vec<Seat<J>>, work: W) -> (Vec<Seat<J>>, B)
    requires seats { All (λ seat. (seat.hand.of ≡ Some net.now.queue) × MadeByTurns J.start seat.slips) seats.items }
    requires begins { W.may_begin work }
    ensures seats { All (λ seat. MadeByTurns J.start seat.slips) result.0.items }
    ensures gives { W.gives work result.1 }
{
    join(
        rt,
        move || -> Vec<Seat<J>>
            requires { All (λ seat. (seat.hand.of ≡ Some net.now.queue) × MadeByTurns J.start seat.slips) seats.items }
            ensures { All (λ seat. MadeByTurns J.start seat.slips) result.items }
        {
            let mut seats = seats;
            work_all(rt, net, shift, seats.as_mut_slice());
            seats
        },
        move || -> B
            requires { W.may_begin work }
            ensures { W.gives work result }
        { work.go() },
    )
}

/// Makes turns until none is left in this shift or the flusher's turn is due: enough entries beyond `seen` were made to fill a group.
fn help<J: Naming, R: Wait>(
    rt: &R,
    net: &Net<J, NoGate>,
    shift: &Shift,
    seen: u64,
    seat: &mut Seat<J>,
)
    requires queue { seat.old.hand.of ≡ Some net.now.queue }
    requires made { MadeByTurns J.start seat.old.slips }
    ensures queue { seat.new.hand.of ≡ Some net.now.queue }
    ensures made { MadeByTurns J.start seat.new.slips }
{
    for _ in 0..u32::MAX {
        if shift.is_due(seen) {
            return;
        }
        let Some(drawn) = shift.draw() else {
            return;
        };
        one(rt, net, shift, drawn, seat);
    }
}

/// Makes turns of this shift as `help` does, if there is a seat for them.
fn help_seated<J: Naming, R: Wait>(
    rt: &R,
    net: &Net<J, NoGate>,
    shift: &Shift,
    seen: u64,
    seat: &mut Option<Seat<J>>,
)
    requires queue { IfSome seat.old (λ seat. seat.hand.of ≡ Some net.now.queue) }
    requires made { IfSome seat.old (λ seat. MadeByTurns J.start seat.slips) }
    ensures queue { IfSome seat.new (λ seat. seat.hand.of ≡ Some net.now.queue) }
    ensures made { IfSome seat.new (λ seat. MadeByTurns J.start seat.slips) }
{
    if let Some(seat) = seat {
        help(rt, net, shift, seen, seat);
    }
}

/// Makes the flusher's turns while workers make theirs, until the shift has ended. Each comes once something was journalled beyond the `before`
/// entries. Between two of them it makes turns of the shift, if there is a seat for that. A flusher's turn that fails ends the shift.
fn flush_beside<J: Naming, D: Disk, R: Wait>(
    rt: &R,
    alloc: Global,
    net: &Net<J, NoGate>,
    shift: &Shift,
    before: u64,
    seat: &mut Option<Seat<J>>,
    flusher: &mut Flusher<J, D>,
) -> Result<(), StreamFault>
    requires queue { IfSome seat.old (λ seat. seat.hand.of ≡ Some net.now.queue) }
    requires made { IfSome seat.old (λ seat. MadeByTurns J.start seat.slips) }
    ensures queue { IfSome seat.new (λ seat. seat.hand.of ≡ Some net.now.queue) }
    ensures made { IfSome seat.new (λ seat. MadeByTurns J.start seat.slips) }
    ensures premise { WereTrue flusher.old.reads flusher.new.reads }
    ensures walks { AreTrue flusher.new.reads → Began J.formatted J.before flusher.old.opened → Walked flusher.old flusher.new }
    ensures process { IsSameProcess flusher.old flusher.new }
    ensures failures { flusher.old.world.at ≡ Resting → FailedWhere (answer_failed result) flusher.old flusher.new }
    ensures begun { IfErr result CameOfFlush }
{
    flusher.known();
    let mut seen = before;
    for _ in rt.forever() {
        help_seated(rt, net, shift, seen, seat);
        let Some(made) = shift.wait(rt, seen) else {
            break;
        };
        seen = made;
        if let Err(fault) = flush(rt, alloc, net.shared(), flusher) {
            shift.stop();
            return Err(fault);
        }
    }
    Ok(())
}

/// How many turns the journal has room for, together with one confirm for each port after them; at most `most`. Under the book's lock.
fn turns_in<J: Naming>(held: &Locked<J>, pace: Pace, most: u64) -> u64
    ensures room { result * (pace.need - pace.confirms) ≤ free_of pace.rooms.journal held.now.book - pace.confirms }
    ensures most { result ≤ most }
    ensures exact { result ≡ min ((free_of pace.rooms.journal held.now.book - pace.confirms) / max (pace.need - pace.confirms) 1) most }
{
    let free = pace.rooms.free(held.book());
    let turn = u64::from(pace.need.saturating_sub(pace.confirms)).max(1);
    (free.saturating_sub(u64::from(pace.confirms)) / turn).min(most)
}

/// How many turns the next shift of `workers` workers may have: [`SHIFT`] for each of them, but no more than are left of the bound on turns.
fn most_of(task: Task, turns: &Turns, workers: u64) -> u64
    ensures unbounded { task.turns ≡ None → result ≡ min (SHIFT * workers) (2 ^ 64 - 1) }
    ensures bounded { IfSome task.turns (λ bound. result ≡ min (bound - turns.now.made) (min (SHIFT * workers) (2 ^ 64 - 1))) }
{
    let shift = SHIFT.saturating_mul(workers);
    match task.turns {
        Some(bound) => u64::from(bound).saturating_sub(turns.made).min(shift),
        None => shift,
    }
}

/// Takes the book's lock, and gives how many turns the journal has room for, at most `most`.
fn turns_under<J: Naming, R: Wait>(rt: &R, shared: &Shared<J>, pace: Pace, most: u64) -> u64
    ensures { result ≤ most }
{
    let held = shared.book().lock(rt);
    turns_in(&held, pace, most)
}

/// Gives what a shift answers: the fault of a flush; if no flush failed, the fault in `told`, by which turns were refused; if there is neither,
/// `None`.
fn outcome_of(
    flushed: Result<(), StreamFault>,
    told: Result<(), StreamFault>,
) -> Result<Option<Ending>, StreamFault>
    requires flush { IfErr flushed CameOfFlush }
    requires turns { IfErr told CameOfTurns }
    ensures value { result ≡ shift_outcome flushed told }
    ensures failed { answer_failed result ≡ answer_failed flushed }
    ensures goes_on { IfOk result (λ ended. ended ≡ None) }
    ensures begun { IfErr result CameBegun }
    ensures ends { IfErr result NamesNoEnd }
{
    match flushed {
        Err(fault) => Err(fault),
        Ok(()) => match told {
            Ok(()) => Ok(None),
            Err(fault) => Err(fault),
        },
    }
}

/// Opens a shift once all workers have come: they make turns, and the flusher makes its own meanwhile. The shift ends when the journal may have no
/// room for one more turn, when all its turns were made, or when nothing is left to do.
pub(crate) fn go_beside<J: Naming, D: Disk, R: Wait>(
    ground: Ground<'_, J, R>,
    shift: &Shift,
    turns: &mut Turns,
    seat: &mut Option<Seat<J>>,
    flusher: &mut Flusher<J, D>,
) -> Result<Option<Ending>, StreamFault>
    requires queue { IfSome seat.old (λ seat. seat.hand.of ≡ Some ground.net.now.queue) }
    requires made { IfSome seat.old (λ seat. MadeByTurns J.start seat.slips) }
    ensures queue { IfSome seat.new (λ seat. seat.hand.of ≡ Some ground.entry.net.now.queue) }
    ensures made { IfSome seat.new (λ seat. MadeByTurns J.start seat.slips) }
    ensures premise { WereTrue flusher.old.reads flusher.new.reads }
    ensures walks { AreTrue flusher.new.reads → Began J.formatted J.before flusher.old.opened → Walked flusher.old flusher.new }
    ensures process { IsSameProcess flusher.old flusher.new }
    ensures whose { turns.new.whose ≡ turns.old.whose }
    ensures idle { turns.new.idle ≡ 0 }
    ensures goes_on { IfOk result (λ ended. ended ≡ None) }
    ensures failures { flusher.old.world.at ≡ Resting → FailedWhere (answer_failed result) flusher.old flusher.new }
    ensures begun { IfErr result CameBegun }
    ensures ends { IfErr result NamesNoEnd }
{
    let Ground {
        rt,
        alloc,
        net,
        pace,
    } = ground;
    let most = most_of(pace.task, turns, u64::from(pace.workers));
    let before = shift.open(turns_under(rt, net.shared(), pace, most));
    let flushed = flush_beside(rt, alloc, net, shift, before, seat, flusher);
    turns.add(shift.count(), shift.has_halted(), shift.is_idle());
    outcome_of(flushed, shift.outcome())
}
