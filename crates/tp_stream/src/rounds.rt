//! Rounds: turns of all processes of the network, one after the other.

ghost use Rattle.std.specs.Prelude.{◌≡◌, ◌↔◌, ◌<◌, ◌≤◌, ℕ, length, min, true, false, Ok, IfOk, IfErr, OnOk, OnErr, ◌⊎◌, ◌+◌, ◌-◌, ◌*◌, ◌^◌};
ghost use Rattle.tp_stream.specs.Lower.{MAX_STEPS, after_begin, begin_refusal, IsAnswer, is_due};
ghost use Rattle.tp_stream.specs.Accounted.{MadeByOne, MadeByTurns};
ghost use Rattle.tp_stream.specs.Outcomes.{turn_fault_of};
ghost use Rattle.tp_stream.specs.Quiet.{HadNothing, HasNoStep, HaveRested, HostRests, IsStill, NodeRests};
ghost use Rattle.tp_stream.specs.Rooms.{HavePlace, StaysAhead, has_room_for};
ghost use Rattle.tp_stream.specs.Rounds.{MadeRound, round_of};
ghost use Rattle.tp_stream.specs.Streamed.{CameOfTurns};
ghost use Rattle.tp_stream.specs.declared.rounds.TheConstants.{AHEAD};

use crate::fault::StreamFault;
use crate::pace::Pace;
use crate::rooms::have_place;
use crate::turns::{Did, Turns};
use std::alloc::Global;
use std::sync::Wait;
use tp_book::Refusal;
use tp_model::limits::NUMBER_LIMIT;
use tp_node::{Runs, Why};
use tp_shared::{Locked, Naming, NoGate, NodeTurn, Seat, Shared, Sights};

/// How many turns a round has at most if no workers make any.
const ROUND: u32 = 1024;

/// Whether a run ended because the node has no step, and whether because it has halted. A node that lacks a frame has a step left.
pub(crate) fn rests(why: Why) -> (bool, bool)
    ensures none { result.0 ≡ true → HasNoStep why }
    ensures some { HasNoStep why → result.0 ≡ true }
    ensures halted { result.1 ≡ true ↔ (why ≡ Why.Halted) }
{
    match why {
        Why::Idle => (true, false),
        Why::Halted => (true, true),
        Why::Full | Why::NoFrame => (false, false),
    }
}

/// Gives what a node did in a turn. It had nothing to do only if it took no token, made no step, and has none.
fn did_of(turn: &NodeTurn) -> Did
    ensures taken { result.nothing ≡ true → turn.now.taken ≡ 0 }
    ensures count { result.nothing ≡ true → turn.now.ran.count ≡ 0 }
    ensures rests { result.nothing ≡ true → HasNoStep turn.now.ran.why }
    ensures nothing { turn.now.taken ≡ 0 → turn.now.ran.count ≡ 0 → HasNoStep turn.now.ran.why → result.nothing ≡ true }
    ensures halted { result.halted ≡ true ↔ (turn.now.ran.why ≡ Why.Halted) }
    ensures steps { result.steps ≡ turn.now.ran.count }
{
    let (rests, halted) = rests(turn.ran.why());
    Did {
        nothing: turn.taken == 0 && turn.ran.count() == 0 && rests,
        halted,
        steps: turn.ran.count(),
    }
}

/// Makes a turn of the node `number`, of at most `quantum` steps. `runs` has the known runs of this thread.
fn node_turn<J: Naming, R: Wait>(
    rt: &R,
    shared: &Shared<J>,
    seat: &mut Seat<J>,
    runs: &mut Runs,
    number: u8,
    quantum: u16,
) -> Result<Did, Refusal>
    requires there { number < length J.start.nodes }
    requires quantum { quantum ≤ MAX_STEPS }
    ensures rests { IfOk result (λ did. did.nothing ≡ true → NodeRests J.start number) }
    ensures turn { MadeByOne J.start quantum seat.old seat.new }
    ensures made { MadeByTurns J.start seat.old → MadeByTurns J.start seat.new }
{
    match shared.turn(rt, &NoGate, seat, &mut Sights::new(), runs, number, quantum) {
        Ok(turn) => Ok(did_of(&turn)),
        Err(refusal) => Err(refusal),
    }
}

/// Makes a turn of the host.
fn host_turn<J: Naming, R: Wait>(
    rt: &R,
    shared: &Shared<J>,
    seat: &mut Seat<J>,
) -> Result<Did, Refusal>
    ensures rests { IfOk result (λ did. did.nothing ≡ true → HostRests J.start) }
    ensures turn { (quantum : ℕ) → MadeByOne J.start quantum seat.old seat.new }
    ensures made { MadeByTurns J.start seat.old → MadeByTurns J.start seat.new }
{
    match shared.host_turn(rt, &NoGate, seat, &mut Sights::new()) {
        Ok(takes) => Ok(Did {
            nothing: takes == 0,
            halted: false,
            steps: 0,
        }),
        Err(refusal) => Err(refusal),
    }
}

/// Makes a turn of a process, of at most `quantum` steps; the host's turn if there is no such node. The answer says that there was nothing to do only
/// if a node took no token and has no step, or if the host took no token.
pub(crate) fn make_turn<J: Naming, R: Wait>(
    rt: &R,
    shared: &Shared<J>,
    seat: &mut Seat<J>,
    runs: &mut Runs,
    whose: u8,
    quantum: u16,
) -> Result<Did, Refusal>
    requires { quantum ≤ MAX_STEPS }
    ensures had { IfOk result (λ did. did.nothing ≡ true → HadNothing J.start whose) }
    ensures turn { MadeByOne J.start quantum seat.old seat.new }
    ensures made { MadeByTurns J.start seat.old → MadeByTurns J.start seat.new }
{
    if whose >= shared.nodes() {
        host_turn(rt, shared, seat)
    } else {
        node_turn(rt, shared, seat, runs, whose, quantum)
    }
}

/// Begins a snapshot, under the book's lock, if `every` entries or more have been made since the kept cut and each port has room for one more byte.
/// Answers whether it did. Fails for the reason that the book gives, or with `Memory`, and then changes nothing.
pub(crate) fn begin_where_due<J: Naming>(
    held: &mut Locked<J>,
    alloc: Global,
    every: u64,
) -> Result<bool, Refusal>
    ensures due { result ≡ Ok true → is_due every held.old.book ≡ true }
    ensures place { result ≡ Ok true → HavePlace held.old.book }
    ensures begun { result ≡ Ok true → held.new ≡ record held.old { book = after_begin held.old.book } }
    ensures early { result ≡ Ok false → HavePlace held.old.book → is_due every held.old.book ≡ false }
    ensures same { result ≡ Ok false → held.new ≡ held.old }
    ensures refused { OnErr result (IsAnswer (begin_refusal held.old.book) result × (held.new ≡ held.old)) }
{
    let made = held.book().next().saturating_sub(held.book().base());
    if made < every || !have_place(held.book()) {
        return Ok(false);
    }
    held.begin_snapshot(alloc)?;
    Ok(true)
}

/// For how many turns at most one look at the book is enough.
const AHEAD: u32 = 12;

/// What was seen of the book before a turn: whether the journal has room for it and the confirms after it, whether a snapshot runs, and for
/// how many turns that stays so, this one among them.
#[derive(Clone, Copy)]
struct Seen {
    has_room: bool,
    is_running: bool,
    turns: u32,
}

impl Seen {
    /// Nothing was seen yet.
    fn nothing() -> Seen
        ensures { (result.is_running ≡ true) × (result.turns ≡ 0) }
    {
        Seen {
            has_room: false,
            is_running: true,
            turns: 0,
        }
    }

    /// One turn of these was made.
    fn without_one(self) -> Seen
        ensures { result ≡ record self { turns = self.turns - 1 } }
    {
        Seen {
            turns: self.turns.saturating_sub(1),
            ..self
        }
    }
}

/// For how many turns one look is enough: [`AHEAD`] if the journal has room and numbers for all of them and the confirms after them, and none of them
/// comes when a snapshot is due. Else one.
fn turns_ahead<J: Naming>(held: &Locked<J>, pace: Pace) -> u32
    ensures some { (result ≡ 1) ⊎ (result ≡ AHEAD) }
    ensures ahead { result ≡ AHEAD → StaysAhead pace.rooms.journal (pace.confirms + AHEAD * (pace.need - pace.confirms)) pace.every held.now.book }
{
    held.book().known();
    let turn = u64::from(pace.need.saturating_sub(pace.confirms));
    let more = u64::from(pace.confirms) + u64::from(AHEAD) * turn;
    let next = held.book().next();
    let made = next.saturating_sub(held.book().base());
    let has_room = more <= pace.rooms.free(held.book());
    if has_room && next + more < NUMBER_LIMIT as u64 && made + more < pace.every {
        AHEAD
    } else {
        1
    }
}

/// Says what the book looks like, under its lock.
fn look_at<J: Naming>(held: &Locked<J>, pace: Pace) -> Seen
    ensures still { result.is_running ≡ false → IsStill J.start }
    ensures room { result.has_room ≡ has_room_for pace.rooms.journal held.now.book pace.need }
    ensures some { (result.turns ≡ 1) ⊎ (result.turns ≡ AHEAD) }
    ensures ahead { result.turns ≡ AHEAD → StaysAhead pace.rooms.journal (pace.confirms + AHEAD * (pace.need - pace.confirms)) pace.every held.now.book }
{
    held.known();
    Seen {
        has_room: pace.rooms.has_room(held.book(), pace.need),
        is_running: held.book().recorded(held.book().nodes()),
        turns: turns_ahead(held, pace),
    }
}

/// Begins a snapshot if one is due, and then says what the book looks like. No snapshot ends before the flusher's next turn.
fn look<J: Naming, R: Wait>(rt: &R, alloc: Global, shared: &Shared<J>, pace: Pace) -> Seen
    ensures { result.is_running ≡ false → IsStill J.start }
{
    let mut held = shared.book().lock(rt);
    let _begun = pace.begin(&mut held, alloc);
    look_at(&held, pace)
}

/// Gives why no more turns are made after one that was refused; `None` if only room was lacking.
fn fault_of(refusal: Refusal) -> Option<StreamFault>
    ensures { result ≡ turn_fault_of refusal }
{
    match refusal {
        Refusal::JournalFull => None,
        Refusal::StoreBroken => Some(StreamFault::NotStored),
        _ => Some(StreamFault::Memory),
    }
}

/// Makes a turn of the process whose turn it is, given what was `seen` of the book. A turn for which the journal has no room counts, and isn't one
/// that had nothing to do.
fn one_turn<J: Naming, R: Wait>(
    rt: &R,
    shared: &Shared<J>,
    pace: Pace,
    seat: &mut Seat<J>,
    runs: &mut Runs,
    turns: &mut Turns,
    seen: Seen,
) -> Result<(), StreamFault>
    requires rested { HaveRested J.start turns.old.whose turns.old.idle }
    requires still { seen.is_running ≡ false → IsStill J.start }
    requires room { seen.has_room ≡ true }
    ensures rested { OnOk result (HaveRested J.start turns.new.whose turns.new.idle) }
    ensures made { OnOk result (turns.new.made ≡ min (turns.old.made + 1) (2 ^ 64 - 1)) }
    ensures busy { turns.new.is_busy ≡ turns.old.is_busy }
    ensures err { OnErr result (turns.new ≡ turns.old) }
    ensures begun { IfErr result CameOfTurns }
    ensures turn { MadeByOne J.start pace.task.quantum seat.old seat.new }
    ensures turns { MadeByTurns J.start seat.old → MadeByTurns J.start seat.new }
{
    let nodes = shared.nodes();
    match make_turn(rt, shared, seat, runs, turns.whose, pace.task.quantum) {
        Ok(did) => {
            turns.count(did, seen.is_running, nodes);
            Ok(())
        }
        Err(refusal) => match fault_of(refusal) {
            None => {
                turns.count(Did::refused(), seen.is_running, nodes);
                Ok(())
            }
            Some(fault) => Err(fault),
        },
    }
}

/// How many turns a round has at most: one for each process if workers make more after it, else [`ROUND`].
fn turns_of(turns: &Turns, nodes: u8) -> u32
    ensures { result ≡ round_of turns.now.is_busy nodes }
{
    if turns.is_busy {
        u32::from(nodes) + 1
    } else {
        ROUND
    }
}

/// Makes a round: turns of all processes in order. It ends when the journal has no room for one more, when no turn may be made, or when nothing is
/// left to do. While a snapshot runs each process has one turn, and then the flusher's turn comes.
///
/// While a snapshot runs, rounds and flushes go on until it ends, and it does end:
/// - Each node records in its turn, even one that has halted.
/// - A line has at most a Data and an Ack before its Marker. Their taker can take them, since each port had room for one more byte, and the journal
///   keeps a reserve for them.
/// - The flusher's turn copies the frozen pages, so no node lacks a frame for long.
/// - Once all is copied and the cut is whole, the flusher ends the snapshot. The next one begins only if an entry was made since.
pub(crate) fn round<J: Naming, R: Wait>(
    rt: &R,
    alloc: Global,
    shared: &Shared<J>,
    pace: Pace,
    seat: &mut Seat<J>,
    runs: &mut Runs,
    turns: &mut Turns,
) -> Result<(), StreamFault>
    requires { turns.old.whose ≤ length J.start.nodes }
    ensures rested { OnOk result (HaveRested J.start turns.new.whose turns.new.idle) }
    ensures made { MadeRound (length J.start.nodes) turns.old turns.new }
    ensures begun { IfErr result CameOfTurns }
    ensures turns { MadeByTurns J.start seat.old → MadeByTurns J.start seat.new }
{
    let nodes = shared.nodes();
    let most = turns_of(turns, nodes);
    let mut seen = Seen::nothing();
    turns.begin();
    for _ in 0..most {
        if turns.is_round_over(pace.task, nodes) {
            turns.end(pace.task, nodes, false, pace.workers > 1);
            return Ok(());
        }
        if seen.turns == 0 {
            seen = look(rt, alloc, shared, pace);
        }
        if !seen.has_room {
            turns.fill();
            return Ok(());
        }
        one_turn(rt, shared, pace, seat, runs, turns, seen)?;
        seen = seen.without_one();
    }
    turns.end(pace.task, nodes, true, pace.workers > 1);
    Ok(())
}
