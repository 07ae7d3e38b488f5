//! What a stream does with a network and its flusher.

ghost use Rattle.std.specs.Prelude.{map, ◌≡◌, ℕ, ◌≤◌, List, length, max, vec_len, All, Some, IfOk, IfSome, IfErr, OnOk};
ghost use Rattle.tp_stream.specs.Lower.{AreTrue, list_all, OutputValue, Began, is_over, given_input};
ghost use Rattle.tp_stream.specs.Accounted.{Accounted, MadeByTurns};
ghost use Rattle.tp_stream.specs.Confirmed.{AreConfirmsPut};
ghost use Rattle.tp_stream.specs.Endings.{lacks_input};
ghost use Rattle.tp_stream.specs.FailedEnds.{NamesEnd};
ghost use Rattle.tp_stream.specs.Failures.{answer_failed};
ghost use Rattle.tp_stream.specs.HandedFrom.{FedFrom};
ghost use Rattle.tp_stream.specs.Looks.{HaveLooked, LooksAtMostOnce, LooksOnce};
ghost use Rattle.tp_stream.specs.Noted.{AllNoted, StepsNoted};
ghost use Rattle.tp_stream.specs.Over.{LeavesNoInput};
ghost use Rattle.tp_stream.specs.Put.{EndsPut};
ghost use Rattle.tp_stream.specs.Quiet.{HaveRested, IsWhyEnded};
ghost use Rattle.tp_stream.specs.Rounds.{MadeRound};
ghost use Rattle.tp_stream.specs.Served.{ServedAnswer, ServedOn};
ghost use Rattle.tp_stream.specs.Steps.{AllStepped};
ghost use Rattle.tp_stream.specs.Streamed.{CameBegun, CameBetween, CameOfTurns};
ghost use Rattle.tp_stream.specs.Teams.{team_of};
ghost use Rattle.tp_stream.specs.Told.{TellsProgress, ToldLater};

use crate::accounting::{slips_of, with_leader};
use crate::beside::go_beside;
use crate::endings::{are_over, ending, is_asked, may_wait};
use crate::fault::StreamFault;
use crate::flushing::{finish, flush};
use crate::ground::Ground;
use crate::leading::lead;
use crate::pumping::{Pumped, Rested, can_confirm, pump, rest, step_inputs};
use crate::rounds::round;
use crate::settling::settle;
use crate::shift::Shift;
use crate::stopping::{find_halted, tell_stopped};
use crate::taker::Taker;
use crate::telling::tell;
use crate::turns::Turns;
use std::sync::Wait;
use std::thread::Threads;
use tp_disk::Disk;
use tp_flush::Flusher;
use tp_node::Runs;
use tp_shared::{HostKey, Naming, Seat};
use tp_stream_files::{Ended, Ending, Input, Listener, Source, Stop, Streams};

/// How far a stream is: its turns, and the known runs of the calling thread (`runs`). `seat` has the slips of what the turns journalled, `steps` of
/// what steps of outputs and inputs did. `host` is the right to hand in bytes and to confirm outputs, and shows all that was.
#[derive(Drop)]
pub(crate) struct Going<J: Naming> {
    pub(crate) turns: Turns,
    pub(crate) seat: Seat<J>,
    pub(crate) steps: Seat<J>,
    pub(crate) host: HostKey<J>,
    pub(crate) runs: Runs,
}

impl<J: Naming> Going<J> {
    /// Begins with no turn and no step. If a halted node ends the stream, it first checks whether one has halted. `seat` gets the slips of turns,
    /// `steps` those of steps.
    pub(crate) fn new<R: Wait>(
        ground: Ground<'_, J, R>,
        seat: Seat<J>,
        steps: Seat<J>,
        host: HostKey<J>,
        runs: Runs,
    ) -> Going<J>
        ensures rested { HaveRested J.start result.turns.whose result.turns.idle }
        ensures seats { (result.seat ≡ seat) × (result.steps ≡ steps) × (result.host ≡ host) }
    {
        let Ground { rt, net, pace, .. } = ground;
        let has_halted = pace.task.stop_on_halt && find_halted(rt, net.shared());
        Going {
            turns: Turns::new(has_halted),
            seat,
            steps,
            host,
            runs,
        }
    }

    /// Puts the slips of a leader's seat and of the workers' seats after those of its own turns.
    pub(crate) fn absorb(
        self,
        leader: Option<tp_work::Seat<J>>,
        workers: Vec<tp_work::Seat<J>>,
    ) -> Going<J>
        requires leader { IfSome leader (λ seat. MadeByTurns J.start seat.slips) }
        requires workers { All (λ seat. MadeByTurns J.start seat.slips) workers.items }
        ensures host { result.host ≡ self.host }
        ensures noted { (outputs : List OutputValue) → AllNoted J.start outputs self.seat self.steps self.host → AllNoted J.start outputs result.seat result.steps result.host }
    {
        let Going {
            turns,
            seat,
            steps,
            host,
            runs,
        } = self;
        Going {
            turns,
            seat: slips_of(with_leader(seat, leader), workers),
            steps,
            host,
            runs,
        }
    }
}

/// Whether nothing is left to do but to wait for input, after steps that came to `pumped`. `over` says whether no input is left that its port may
/// take.
fn lacks_input(turns: &Turns, nodes: u8, pumped: Pumped, over: bool) -> bool
    ensures { result ≡ lacks_input turns.now nodes pumped over }
{
    pumped == Pumped::Nothing && turns.is_quiet(nodes) && !over
}

/// Lets ports take bytes that came after their last steps. Answers what that came to; `None` if no port took any.
fn take_awaited<J: Naming, I: Source, R: Wait>(
    ground: Ground<'_, J, R>,
    going: &mut Going<J>,
    inputs: &mut [Input<I>],
) -> Result<Option<Pumped>, StreamFault>
    ensures steps { going.new ≡ record going.old { steps = going.new.steps; host = going.new.host } }
    ensures begun { IfErr result CameBetween }
    ensures ends { (outputs : List OutputValue) → IfErr result (NamesEnd outputs (map (λ i. i.port) inputs.new)) }
    ensures fed { FedFrom J.accepted (map (λ i. given_input i.port (I.input i.source)) inputs.old) (map (λ i. given_input i.port (I.input i.source)) inputs.new) going.old.host going.new.host }
    ensures noted { (outputs : List OutputValue) → StepsNoted outputs going.old.steps going.old.host → StepsNoted outputs going.new.steps going.new.host }
{
    let Ground { rt, net, pace, .. } = ground;
    match step_inputs(
        rt,
        net.shared(),
        pace,
        &mut going.steps,
        &mut going.host,
        false,
        inputs,
    ) {
        Ok(Pumped::Nothing) => Ok(None),
        Ok(came) => Ok(Some(came)),
        Err(fault) => Err(fault),
    }
}

/// Lets ports take such bytes. Answers what that came to, or `pumped` if no port took any. Answers `None` if inputs came to their ends instead.
fn take_or<J: Naming, I: Source, R: Wait>(
    ground: Ground<'_, J, R>,
    going: &mut Going<J>,
    inputs: &mut [Input<I>],
    pumped: Pumped,
) -> Result<Option<Pumped>, StreamFault>
    ensures steps { going.new ≡ record going.old { steps = going.new.steps; host = going.new.host } }
    ensures begun { IfErr result CameBetween }
    ensures ends { (outputs : List OutputValue) → IfErr result (NamesEnd outputs (map (λ i. i.port) inputs.new)) }
    ensures fed { FedFrom J.accepted (map (λ i. given_input i.port (I.input i.source)) inputs.old) (map (λ i. given_input i.port (I.input i.source)) inputs.new) going.old.host going.new.host }
    ensures noted { (outputs : List OutputValue) → StepsNoted outputs going.old.steps going.old.host → StepsNoted outputs going.new.steps going.new.host }
{
    match take_awaited(ground, going, inputs) {
        Ok(None) if are_over(inputs) => Ok(None),
        Ok(None) => Ok(Some(pumped)),
        taken => taken,
    }
}

/// Rests if the stream has something else to do meanwhile, and nothing is left to do but to wait for input. Bytes that come end the rest, and ports
/// take them at once; they also take bytes that came before it. Answers what all steps have come to then; `None` if it rested and nothing came.
#[tactic(auto, using(crate::proofs::HandedFrom::fed_none, crate::proofs::HandedFrom::fed_asked, crate::proofs::HandedFrom::fed_then))]
fn rest_where_late<J: Naming, I: Source, R: Wait>(
    ground: Ground<'_, J, R>,
    going: &mut Going<J>,
    inputs: &mut [Input<I>],
    pumped: Pumped,
    over: bool,
) -> Result<Option<Pumped>, StreamFault>
    ensures steps { going.new ≡ record going.old { steps = going.new.steps; host = going.new.host } }
    ensures begun { IfErr result CameBetween }
    ensures ends { (outputs : List OutputValue) → IfErr result (NamesEnd outputs (map (λ i. i.port) inputs.new)) }
    ensures fed { FedFrom J.accepted (map (λ i. given_input i.port (I.input i.source)) inputs.old) (map (λ i. given_input i.port (I.input i.source)) inputs.new) going.old.host going.new.host }
    ensures noted { (outputs : List OutputValue) → StepsNoted outputs going.old.steps going.old.host → StepsNoted outputs going.new.steps going.new.host }
{
    let Ground { rt, net, pace, .. } = ground;
    let shared = net.shared();
    if !pace.task.rests() || !lacks_input(&going.turns, shared.nodes(), pumped, over) {
        return Ok(Some(pumped));
    }
    match rest(rt, shared, pace, inputs) {
        Rested::None => take_or(ground, going, inputs, pumped),
        Rested::InVain => Ok(None),
        Rested::Came => take_awaited(ground, going, inputs),
    }
}

/// Makes turns. It brings a snapshot to its end instead if the journal has no room for a turn, or if only input is left to take and the journal has
/// no room for it.
fn make_turns<J: Naming, R: Wait>(
    ground: Ground<'_, J, R>,
    going: &mut Going<J>,
    pumped: Pumped,
    over: bool,
) -> Result<(), StreamFault>
    requires { HaveRested J.start going.old.turns.whose going.old.turns.idle }
    ensures rested { OnOk result (HaveRested J.start going.new.turns.whose going.new.turns.idle) }
    ensures made { MadeRound (length J.start.nodes) going.old.turns going.new.turns }
    ensures begun { IfErr result CameOfTurns }
    ensures host { (going.new.steps ≡ going.old.steps) × (going.new.host ≡ going.old.host) }
    ensures turns { MadeByTurns J.start going.old.seat → MadeByTurns J.start going.new.seat }
{
    let Ground {
        rt,
        alloc,
        net,
        pace,
    } = ground;
    let shared = net.shared();
    let Going {
        turns,
        seat,
        runs,
        ..
    } = going;
    if pumped == Pumped::Moved {
        turns.moved();
    }
    if turns.is_full || lacks_input(turns, shared.nodes(), pumped, over) {
        settle(rt, alloc, shared, seat, runs, turns)?;
        return Ok(());
    }
    round(rt, alloc, shared, pace, seat, runs, turns)
}

/// Rests if an input is late, and then makes turns, after steps that came to `pumped`. If it rested and nothing came, it makes no turns.
#[tactic(auto, using(crate::proofs::HandedFrom::fed_none, crate::proofs::HandedFrom::fed_asked, crate::proofs::HandedFrom::fed_then))]
fn rest_or_turn<J: Naming, I: Source, R: Wait>(
    ground: Ground<'_, J, R>,
    going: &mut Going<J>,
    inputs: &mut [Input<I>],
    pumped: Pumped,
    over: bool,
) -> Result<(), StreamFault>
    requires { HaveRested J.start going.old.turns.whose going.old.turns.idle }
    ensures rested { OnOk result (HaveRested J.start going.new.turns.whose going.new.turns.idle) }
    ensures made { MadeRound (length J.start.nodes) going.old.turns going.new.turns }
    ensures begun { IfErr result CameBetween }
    ensures ends { (outputs : List OutputValue) → IfErr result (NamesEnd outputs (map (λ i. i.port) inputs.new)) }
    ensures fed { FedFrom J.accepted (map (λ i. given_input i.port (I.input i.source)) inputs.old) (map (λ i. given_input i.port (I.input i.source)) inputs.new) going.old.host going.new.host }
    ensures noted { (outputs : List OutputValue) → AllNoted J.start outputs going.old.seat going.old.steps going.old.host → AllNoted J.start outputs going.new.seat going.new.steps going.new.host }
{
    match rest_where_late(ground, going, inputs, pumped, over) {
        Ok(Some(pumped)) => make_turns(ground, going, pumped, over),
        Ok(None) => Ok(()),
        Err(fault) => Err(fault),
    }
}

/// Makes a step of each output and input, checks whether the stream is asked to stop, and then makes turns. If nothing else is left to do, it waits
/// for input. If the journal has no room for the confirms, it first brings a snapshot to its end. Answers why the stream is over, and then makes no
/// turns; `None` if it goes on.
#[tactic(auto, using(crate::proofs::Stepping::all_still))]
fn go_on<J: Naming, D: Disk, S: Taker<D>, I: Source, P: Stop, R: Wait>(
    ground: Ground<'_, J, R>,
    going: &mut Going<J>,
    flusher: &mut Flusher<J, D>,
    streams: &mut Streams<S, I>,
    stop: &mut P,
) -> Result<Option<Ending>, StreamFault>
    requires { HaveRested J.start going.old.turns.whose going.old.turns.idle }
    ensures same { flusher.new ≡ flusher.old }
    ensures put { AreTrue flusher.new.reads → Began J.formatted J.before flusher.old.opened
        → AllStepped J.formatted flusher.old flusher.old streams.old.outputs.items streams.new.outputs.items }
    ensures why { IfOk result (λ ended. IfSome ended (IsWhyEnded J.start ground.entry.pace.task)) }
    ensures inputs { IfOk result (λ ended. IfSome ended (LeavesNoInput (list_all (λ i. is_over i.ended i.is_blocked) streams.new.inputs.items))) }
    ensures looks { IfOk result (LooksOnce ground.entry.pace.task going.old.turns.made going.new.turns.made (P.answers stop.old) (P.answers stop.new)) }
    ensures over { IfOk result (λ ended. IfSome ended (λ why. going.new ≡ record going.old { steps = going.new.steps; host = going.new.host })) }
    ensures rested { OnOk result (HaveRested J.start going.new.turns.whose going.new.turns.idle) }
    ensures made { MadeRound (length J.start.nodes) going.old.turns going.new.turns }
    ensures begun { IfErr result CameBetween }
    ensures ends { IfErr result (NamesEnd streams.new.outputs.items (map (λ i. i.port) streams.new.inputs.items)) }
    ensures fed { FedFrom J.accepted (map (λ i. given_input i.port (I.input i.source)) streams.old.inputs.items) (map (λ i. given_input i.port (I.input i.source)) streams.new.inputs.items) going.old.host going.new.host }
    ensures noted { AllNoted J.start streams.old.outputs.items going.old.seat going.old.steps going.old.host → AllNoted J.start streams.new.outputs.items going.new.seat going.new.steps going.new.host }
{
    let Ground {
        rt,
        alloc,
        net,
        pace,
    } = ground;
    let shared = net.shared();
    if !can_confirm(rt, shared, pace) && going.turns.may_settle() {
        settle(
            rt,
            alloc,
            shared,
            &mut going.seat,
            &mut going.runs,
            &mut going.turns,
        )?;
        return Ok(None);
    }
    let may_wait = may_wait(pace.task, &going.turns, shared.nodes());
    let pumped = pump(
        rt,
        shared,
        pace,
        &mut going.steps,
        &mut going.host,
        flusher,
        may_wait,
        streams,
    )?;
    let asked = is_asked(pace.task, stop);
    let over = are_over(&streams.inputs);
    if let Some(why) = ending(pace.task, &going.turns, shared.nodes(), asked, pumped, over) {
        return Ok(Some(why));
    }
    rest_or_turn(ground, going, &mut streams.inputs, pumped, over)?;
    Ok(None)
}

/// Flushes, tells the listener how far the stream has come, and does all that comes before the next flush.
#[tactic(auto, using(crate::proofs::Stepping::all_still))]
fn cycle<J: Naming, D: Disk, S: Taker<D>, I: Source, L: Listener, P: Stop, R: Wait>(
    ground: Ground<'_, J, R>,
    going: &mut Going<J>,
    flusher: &mut Flusher<J, D>,
    streams: &mut Streams<S, I>,
    listener: &mut L,
    stop: &mut P,
) -> Result<Option<Ending>, StreamFault>
    requires { HaveRested J.start going.old.turns.whose going.old.turns.idle }
    ensures served { ServedOn J.formatted J.before (answer_failed result) flusher.old flusher.new streams.old.outputs.items streams.new.outputs.items }
    ensures answer { ServedAnswer J.start ground.entry.pace.task (list_all (λ i. is_over i.ended i.is_blocked) streams.new.inputs.items) result }
    ensures looks { IfOk result (LooksOnce ground.entry.pace.task going.old.turns.made going.new.turns.made (P.answers stop.old) (P.answers stop.new)) }
    ensures told { ToldLater (length J.start.nodes) (L.told listener.old) (L.told listener.new) }
    ensures progress { OnOk result (TellsProgress ground.entry.pace.task.tells ground.entry.pace.rooms.journal flusher.new going.old.turns.made streams.old.outputs.items (L.told listener.old) (L.told listener.new)) }
    ensures over { IfOk result (λ ended. IfSome ended (λ why. going.new ≡ record going.old { steps = going.new.steps; host = going.new.host })) }
    ensures rested { OnOk result (HaveRested J.start going.new.turns.whose going.new.turns.idle) }
    ensures made { MadeRound (length J.start.nodes) going.old.turns going.new.turns }
    ensures ends { IfErr result (NamesEnd streams.new.outputs.items (map (λ i. i.port) streams.new.inputs.items)) }
    ensures fed { FedFrom J.accepted (map (λ i. given_input i.port (I.input i.source)) streams.old.inputs.items) (map (λ i. given_input i.port (I.input i.source)) streams.new.inputs.items) going.old.host going.new.host }
    ensures noted { AllNoted J.start streams.old.outputs.items going.old.seat going.old.steps going.old.host → AllNoted J.start streams.new.outputs.items going.new.seat going.new.steps going.new.host }
{
    let Ground {
        rt,
        alloc,
        net,
        pace,
    } = ground;
    let shared = net.shared();
    flush(rt, alloc, shared, flusher)?;
    let made = going.turns.made;
    tell(rt, shared, pace, flusher, made, &streams.outputs, listener);
    go_on(ground, going, flusher, streams, stop)
}

/// Makes a cycle. After that it makes a shift, with the flusher's turns beside it, if the stream isn't over, much is left to do, and all workers have
/// come.
fn lap<J: Naming, D: Disk, S: Taker<D>, I: Source, L: Listener, P: Stop, R: Wait>(
    ground: Ground<'_, J, R>,
    shift: &Shift,
    seat: &mut Option<tp_work::Seat<J>>,
    going: &mut Going<J>,
    flusher: &mut Flusher<J, D>,
    streams: &mut Streams<S, I>,
    listener: &mut L,
    stop: &mut P,
) -> Result<Option<Ending>, StreamFault>
    requires rested { HaveRested J.start going.old.turns.whose going.old.turns.idle }
    requires queue { IfSome seat.old (λ seat. seat.hand.of ≡ Some ground.net.now.queue) }
    requires made { IfSome seat.old (λ seat. MadeByTurns J.start seat.slips) }
    ensures queue { IfSome seat.new (λ seat. seat.hand.of ≡ Some ground.entry.net.now.queue) }
    ensures made { IfSome seat.new (λ seat. MadeByTurns J.start seat.slips) }
    ensures served { ServedOn J.formatted J.before (answer_failed result) flusher.old flusher.new streams.old.outputs.items streams.new.outputs.items }
    ensures answer { ServedAnswer J.start ground.entry.pace.task (list_all (λ i. is_over i.ended i.is_blocked) streams.new.inputs.items) result }
    ensures looks { IfOk result (LooksAtMostOnce ground.entry.pace.task (P.answers stop.old) (P.answers stop.new)) }
    ensures told { ToldLater (length J.start.nodes) (L.told listener.old) (L.told listener.new) }
    ensures rested { OnOk result (HaveRested J.start going.new.turns.whose going.new.turns.idle) }
    ensures ends { IfErr result (NamesEnd streams.new.outputs.items (map (λ i. i.port) streams.new.inputs.items)) }
    ensures fed { FedFrom J.accepted (map (λ i. given_input i.port (I.input i.source)) streams.old.inputs.items) (map (λ i. given_input i.port (I.input i.source)) streams.new.inputs.items) going.old.host going.new.host }
    ensures noted { AllNoted J.start streams.old.outputs.items going.old.seat going.old.steps going.old.host → AllNoted J.start streams.new.outputs.items going.new.seat going.new.steps going.new.host }
{
    let Ground { rt, pace, .. } = ground;
    let done = cycle(ground, going, flusher, streams, listener, stop);
    let goes_on = going.turns.is_busy && !going.turns.is_full;
    if let Ok(None) = done
        && goes_on
    {
        let others = u64::from(pace.workers).saturating_sub(1);
        if shift.crew.are_here(rt, others) {
            return go_beside(ground, shift, &mut going.turns, seat, flusher);
        }
        going.turns.stay_alone();
    }
    done
}

/// Makes laps until the stream is over or one fails.
#[inline(never)]
pub(crate) fn laps<J: Naming, D: Disk, S: Taker<D>, I: Source, L: Listener, P: Stop, R: Wait>(
    ground: Ground<'_, J, R>,
    shift: &Shift,
    seat: &mut Option<tp_work::Seat<J>>,
    going: &mut Going<J>,
    flusher: &mut Flusher<J, D>,
    streams: &mut Streams<S, I>,
    listener: &mut L,
    stop: &mut P,
) -> Result<Option<Ending>, StreamFault>
    requires rested { HaveRested J.start going.old.turns.whose going.old.turns.idle }
    requires queue { IfSome seat.old (λ seat. seat.hand.of ≡ Some ground.net.now.queue) }
    requires made { IfSome seat.old (λ seat. MadeByTurns J.start seat.slips) }
    ensures queue { IfSome seat.new (λ seat. seat.hand.of ≡ Some ground.entry.net.now.queue) }
    ensures made { IfSome seat.new (λ seat. MadeByTurns J.start seat.slips) }
    ensures served { ServedOn J.formatted J.before (answer_failed result) flusher.old flusher.new streams.old.outputs.items streams.new.outputs.items }
    ensures answer { ServedAnswer J.start ground.entry.pace.task (list_all (λ i. is_over i.ended i.is_blocked) streams.new.inputs.items) result }
    ensures told { ToldLater (length J.start.nodes) (L.told listener.old) (L.told listener.new) }
    ensures looks { IfOk result (HaveLooked ground.entry.pace.task (P.answers stop.old) (P.answers stop.new)) }
    ensures ends { IfErr result (NamesEnd streams.new.outputs.items (map (λ i. i.port) streams.new.inputs.items)) }
    ensures fed { FedFrom J.accepted (map (λ i. given_input i.port (I.input i.source)) streams.old.inputs.items) (map (λ i. given_input i.port (I.input i.source)) streams.new.inputs.items) going.old.host going.new.host }
    ensures noted { AllNoted J.start streams.old.outputs.items going.old.seat going.old.steps going.old.host → AllNoted J.start streams.new.outputs.items going.new.seat going.new.steps going.new.host }
{
    flusher.known();
    let mut last = Ok(None);
    for _ in ground.rt.forever() {
        let Ok(None) = last else {
            break;
        };
        last = lap(ground, shift, seat, going, flusher, streams, listener, stop);
    }
    last
}

/// Makes turns and steps until the stream is over, with a worker at each seat. Answers the number that the next entry gets, and why it is over; all
/// entries below that number are stored. Before that it tells the listener which nodes have stopped. However it ends, it gives back the host's key.
#[inline(never)]
pub(crate) fn serve<
    J: Naming + Send + Sync,
    D: Disk + Send + Drop,
    S: Taker<D>,
    I: Source,
    L: Listener,
    P: Stop,
    R: Threads + Wait + Sync,
>(
    ground: Ground<'_, J, R>,
    seats: Vec<tp_work::Seat<J>>,
    going: Going<J>,
    flusher: &mut Flusher<J, D>,
    streams: &mut Streams<S, I>,
    listener: &mut L,
    stop: &mut P,
) -> (Result<Ended, StreamFault>, HostKey<J>)
    requires rested { HaveRested J.start going.turns.whose going.turns.idle }
    requires first { flusher.old.world.mark ≡ J.first }
    requires noted { AllNoted J.start streams.old.outputs.items going.seat going.steps going.host }
    requires seats { All (λ seat. seat.hand.of ≡ Some ground.net.now.queue) seats.items }
    requires made { All (λ seat. MadeByTurns J.start seat.slips) seats.items }
    requires quantum { ground.net.now.quantum ≡ max ground.pace.task.quantum 1 }
    requires team { (ground.pace.workers ≡ team_of ground.pace.task.workers (length J.start.nodes)) × (vec_len seats ≡ ground.pace.workers) }
    ensures served { ServedOn J.formatted J.before (answer_failed result.0) flusher.old flusher.new streams.old.outputs.items streams.new.outputs.items }
    ensures why { IfOk result.0 (λ ended. IsWhyEnded J.start ground.entry.pace.task ended.why) }
    ensures inputs { IfOk result.0 (λ ended. LeavesNoInput (list_all (λ i. is_over i.ended i.is_blocked) streams.new.inputs.items) ended.why) }
    ensures told { ToldLater (length J.start.nodes) (L.told listener.old) (L.told listener.new) }
    ensures looks { IfOk result.0 (λ ended. HaveLooked ground.entry.pace.task (P.answers stop.old) (P.answers stop.new) (Some ended.why)) }
    ensures stored { IfOk result.0 (λ ended. ended.next ≤ flusher.new.world.mark) }
    ensures last { AreTrue flusher.new.reads → Began J.formatted J.before flusher.old.opened → IfOk result.0 (λ ended. ended.next ≡ length flusher.new.world.journal) }
    ensures put { AreTrue flusher.new.reads → Began J.formatted J.before flusher.old.opened
        → IfOk result.0 (λ ended. EndsPut J.formatted flusher.new.world.journal ended.why streams.new.outputs.items) }
    ensures begun { IfErr result.0 CameBegun }
    ensures ends { IfErr result.0 (NamesEnd streams.new.outputs.items (map (λ i. i.port) streams.new.inputs.items)) }
    ensures fed { FedFrom J.accepted (map (λ i. given_input i.port (I.input i.source)) streams.old.inputs.items) (map (λ i. given_input i.port (I.input i.source)) streams.new.inputs.items) going.host result.1 }
    ensures confirms { AreConfirmsPut streams.new.outputs.items result.1 }
    ensures accounted { AreTrue flusher.new.reads → Began J.formatted J.before flusher.old.opened
        → IfOk result.0 (λ ended. Accounted J.start flusher.new.world.journal J.first ended.next) }
{
    let Ground { rt, alloc, net, .. } = ground;
    let shared = net.shared();
    let first = flusher.mark();
    let (going, last) = lead(ground, seats, going, flusher, streams, listener, stop);
    let Going {
        turns,
        seat,
        steps,
        mut host,
        ..
    } = going;
    let rests = turns.is_quiet(shared.nodes());
    let why = match last {
        Ok(Some(why)) => why,
        // The laps go on as long as the answer is `Ok(None)`.
        Ok(None) => return (Err(StreamFault::NotStored), host),
        Err(fault) => return (Err(fault), host),
    };
    let mut all = steps;
    all.absorb(seat);
    let outputs = &streams.outputs;
    match finish(
        rt, alloc, shared, flusher, why, outputs, first, &mut all, &mut host,
    ) {
        Ok(next) => {
            tell_stopped(rt, shared, why, rests, listener);
            (Ok(Ended { next, why }), host)
        }
        Err(fault) => (Err(fault), host),
    }
}
