//! Steps of all outputs and inputs of a network.

ghost use Rattle.std.specs.Prelude.{◌≡◌, ◌<◌, ◌==◌, ◌-◌, ℕ, List, length, map, set, slice_get, true, false, Ok, Some, IfOk, IfSome, IfErr, OnErr, if◌then◌else◌};
ghost use Rattle.tp_stream.specs.Lower.{AreTrue, JournalRoom, accepted_of, port_in, room_of, is_journal_full, Began, OutputValue, given_input};
ghost use Rattle.tp_stream.specs.FailedEnds.{NamesEnd, NamesInput, NamesOutput};
ghost use Rattle.tp_stream.specs.HandedFrom.{FedFrom, FeedsFrom, HandsNoBytes};
ghost use Rattle.tp_stream.specs.Noted.{StepsNoted};
ghost use Rattle.tp_stream.specs.Offered.{Offered};
ghost use Rattle.tp_stream.specs.Outcomes.{AreTakersThere, StepCameTo, pumped_then};
ghost use Rattle.tp_stream.specs.Put.{EachWith};
ghost use Rattle.tp_stream.specs.Rooms.{IsConfirmed, UnreservedBook, free_of, has_room_for};
ghost use Rattle.tp_stream.specs.Steps.{AllStepped, AreLeft, PortsStand, PutsLeft, PutsShown};
ghost use Rattle.tp_stream.specs.Streamed.{CameBetween, OtherThanFull};
ghost use Rattle.tp_stream.specs.declared.pumping.Pumped.TheVariants.{Nothing, Moved, Gone};

use crate::fault::StreamFault;
use crate::output::StepFault;
use crate::pace::Pace;
use crate::taker::Taker;
use std::sync::Wait;
use tp_disk::Disk;
use tp_flush::Flusher;
use tp_model::limits::MAX_HELD;
use tp_shared::{HostKey, Locked, Naming, Seat, Shared};
use tp_stream_files::{Input, Output, Source, Streams};

/// How many milliseconds the stream waits for input before it checks again whether it is asked to stop, or tells how far it has come.
const REST: u64 = 20;

/// What steps of outputs and inputs came to.
#[derive(Clone, Copy, PartialEq, Eq)]
pub(crate) enum Pumped {
    /// No output was put, and no port took bytes.
    Nothing,
    /// Some output was put, or a port took bytes.
    Moved,
    /// Whoever takes an output has gone.
    Gone,
}

impl Pumped {
    /// Joins what these steps and later ones came to.
    fn then(self, more: Pumped) -> Pumped
        ensures value { result ≡ pumped_then self more }
        ensures there { AreTakersThere self → AreTakersThere more → AreTakersThere result }
    {
        match (self, more) {
            (Pumped::Gone, _) | (_, Pumped::Gone) => Pumped::Gone,
            (Pumped::Nothing, Pumped::Nothing) => Pumped::Nothing,
            _ => Pumped::Moved,
        }
    }

    /// Gives `Moved` or `Nothing`.
    fn of(has_moved: bool) -> Pumped
        ensures value { result ≡ (if has_moved then Moved else Nothing) }
        ensures there { AreTakersThere result }
    {
        if has_moved {
            Pumped::Moved
        } else {
            Pumped::Nothing
        }
    }
}

/// Whether the journal has room for one confirm of each port, under the book's lock. If it has, and the book is in that journal with no run reserved,
/// none of these confirms is refused with `JournalFull`.
fn has_confirms<J: Naming>(held: &Locked<J>, pace: Pace) -> bool
    ensures value { result ≡ has_room_for pace.rooms.journal held.now.book pace.confirms }
    ensures keeps { UnreservedBook pace.rooms.journal held.now.book → result ≡ true → is_journal_full held.now.book pace.confirms ≡ false }
{
    pace.rooms.has_room(held.book(), pace.confirms)
}

/// Takes the book's lock, and answers whether the journal has room for one confirm of each port.
pub(crate) fn can_confirm<J: Naming, R: Wait>(rt: &R, shared: &Shared<J>, pace: Pace) -> bool {
    let held = shared.book().lock(rt);
    has_confirms(&held, pace)
}

/// Makes a step of a port's output, under the book's lock. It puts what the flusher's mark shows.
fn step_output<J: Naming, D: Disk, S: Taker<D>>(
    held: &mut Locked<J>,
    seat: &mut Seat<J>,
    host: &mut HostKey<J>,
    flusher: &Flusher<J, D>,
    output: &mut Output<S>,
) -> Result<Pumped, StreamFault>
    requires { AreTrue flusher.now.reads → Began J.formatted J.before flusher.now.opened → PortsStand J.formatted flusher.now.world held.old.book }
    ensures left { AreLeft held.old.book held.new.book }
    ensures puts { PutsShown held.old.book flusher.now.world.mark output.old output.new }
    ensures begun { IfErr result CameBetween }
    ensures names { IfErr result (NamesOutput output.new.port) }
    ensures unfed { HandsNoBytes host.old host.new }
    ensures noted { (outputs : List OutputValue) (place : ℕ) → slice_get outputs place ≡ Some output.old → StepsNoted outputs seat.old host.old → StepsNoted (set outputs place output.new) seat.new host.new }
    ensures book { IsConfirmed held.old.book held.new.book }
    ensures room { is_journal_full held.old.book 1 ≡ false → IfErr result OtherThanFull }
    ensures came { IfOk result (StepCameTo flusher.now.world.mark held.old.book held.new.book output.old output.new) }
    ensures failed { OnErr result ((held.new ≡ held.old) × (seat.new ≡ seat.old) × (host.new ≡ host.old)) }
{
    let before = output.put();
    if usize::from(output.port()) >= held.book().ports() {
        return Err(StreamFault::OutputFailed(output.port()));
    }
    match crate::output::step(output, held, seat, host, flusher) {
        Ok(_) => Ok(Pumped::of(output.put() > before)),
        Err(StepFault::Gone) => Ok(Pumped::Gone),
        Err(StepFault::Fault(fault)) => Err(fault),
    }
}

/// Makes a step of each output, under one hold of the book's lock. It goes on after an output whose taker has gone. Each step puts what the flusher's
/// mark shows in the book, after the confirms before it. If the journal has room for one confirm of each output, none fails for lack of it.
fn step_all<J: Naming, D: Disk, S: Taker<D>>(
    held: &mut Locked<J>,
    seat: &mut Seat<J>,
    host: &mut HostKey<J>,
    flusher: &Flusher<J, D>,
    outputs: &mut [Output<S>],
) -> Result<Pumped, StreamFault>
    requires { AreTrue flusher.now.reads → Began J.formatted J.before flusher.now.opened → PortsStand J.formatted flusher.now.world held.old.book }
    ensures puts { EachWith (PutsLeft held.old.book flusher.now.world.mark) outputs.old outputs.new }
    ensures unfed { HandsNoBytes host.old host.new }
    ensures noted { StepsNoted outputs.old seat.old host.old → StepsNoted outputs.new seat.new host.new }
    ensures begun { IfErr result CameBetween }
    ensures ends { (inputs : List ℕ) → IfErr result (NamesEnd outputs.new inputs) }
    ensures room { (journal : JournalRoom) → UnreservedBook journal held.old.book → has_room_for journal held.old.book (length outputs.old) ≡ true → IfErr result OtherThanFull }
{
    let mut pumped = Pumped::Nothing;
    for output in outputs.iter_mut() {
        pumped = pumped.then(step_output(held, seat, host, flusher, output)?);
    }
    Ok(pumped)
}

/// Makes a step of each output if the flusher has stored all that the book has. Then all that is put are outputs of their ports in the network to
/// which the flusher's journal leads. If it hasn't stored all, nothing is put, and the answer is `Moved`. Right after the flusher's turn it has,
/// since no other thread makes entries.
#[tactic(auto, using(crate::proofs::Stepping::all_still))]
fn step_settled<J: Naming, D: Disk, S: Taker<D>>(
    held: &mut Locked<J>,
    seat: &mut Seat<J>,
    host: &mut HostKey<J>,
    flusher: &mut Flusher<J, D>,
    outputs: &mut [Output<S>],
) -> Result<Pumped, StreamFault>
    ensures same { flusher.new ≡ flusher.old }
    ensures put { AreTrue flusher.new.reads → Began J.formatted J.before flusher.old.opened
        → AllStepped J.formatted flusher.old flusher.old outputs.old outputs.new }
    ensures unfed { HandsNoBytes host.old host.new }
    ensures noted { StepsNoted outputs.old seat.old host.old → StepsNoted outputs.new seat.new host.new }
    ensures begun { IfErr result CameBetween }
    ensures ends { (inputs : List ℕ) → IfErr result (NamesEnd outputs.new inputs) }
    ensures room { (journal : JournalRoom) → UnreservedBook journal held.old.book → has_room_for journal held.old.book (length outputs.old) ≡ true → IfErr result OtherThanFull }
{
    flusher.known();
    flusher.settle_book(held);
    let (mark, next) = (flusher.mark(), held.book().next());
    if mark < next {
        return Ok(Pumped::Moved);
    }
    step_all(held, seat, host, flusher, outputs)
}

/// Takes the book's lock, and makes a step of each output under it.
fn step_outputs<J: Naming, D: Disk, S: Taker<D>, R: Wait>(
    rt: &R,
    shared: &Shared<J>,
    seat: &mut Seat<J>,
    host: &mut HostKey<J>,
    flusher: &mut Flusher<J, D>,
    outputs: &mut [Output<S>],
) -> Result<Pumped, StreamFault>
    ensures same { flusher.new ≡ flusher.old }
    ensures put { AreTrue flusher.new.reads → Began J.formatted J.before flusher.old.opened
        → AllStepped J.formatted flusher.old flusher.old outputs.old outputs.new }
    ensures unfed { HandsNoBytes host.old host.new }
    ensures noted { StepsNoted outputs.old seat.old host.old → StepsNoted outputs.new seat.new host.new }
    ensures begun { IfErr result CameBetween }
    ensures ends { (inputs : List ℕ) → IfErr result (NamesEnd outputs.new inputs) }
{
    let mut held = shared.book().lock(rt);
    step_settled(&mut held, seat, host, flusher, outputs)
}

/// Makes a step of a port's input, under the book's lock. Answers whether the port took bytes. It takes only as many as leave the journal room for a
/// turn and the confirms after it. If bytes haven't come yet and `may_wait` is false, it takes none. Either way it notes whether the port has room.
fn step_held<J: Naming, I: Source>(
    held: &mut Locked<J>,
    seat: &mut Seat<J>,
    host: &mut HostKey<J>,
    pace: Pace,
    may_wait: bool,
    input: &mut Input<I>,
) -> Result<bool, StreamFault>
    requires there { input.old.port < length held.old.book.state.ports }
    ensures taken { result ≡ Ok true → Offered (I.input input.old.source) input.old.port (free_of pace.rooms.journal held.old.book - pace.need) J.first held.old held.new seat.old seat.new host.old host.new }
    ensures refused { result ≡ Ok false → (held.new ≡ held.old) × (seat.new ≡ seat.old) × (host.new ≡ host.old) }
    ensures err { OnErr result ((held.new ≡ held.old) × (seat.new ≡ seat.old) × (host.new ≡ host.old)) }
    ensures begun { IfErr result CameBetween }
    ensures names { IfErr result (NamesInput input.new.port) }
    ensures blocked { input.new.is_blocked ≡ (room_of (port_in held.old.book input.old.port) == 0) }
    ensures same { (input.new.port ≡ input.old.port) × (I.input input.new.source ≡ I.input input.old.source) }
{
    let at = held.book().accepted(input.port());
    input.block(held.book().room(input.port()) == 0);
    if !may_wait && input.would_wait(at, 0) {
        return Ok(false);
    }
    let free = pace.rooms.free(held.book());
    let most = free.saturating_sub(u64::from(pace.need));
    let mut piece = [0u8; MAX_HELD];
    crate::input::step(input, held, seat, host, &mut piece, most)
}

/// Takes the book's lock, and makes a step of a port's input under it. Answers whether the port took bytes.
fn step_input<J: Naming, I: Source, R: Wait>(
    rt: &R,
    shared: &Shared<J>,
    pace: Pace,
    seat: &mut Seat<J>,
    host: &mut HostKey<J>,
    may_wait: bool,
    input: &mut Input<I>,
) -> Result<bool, StreamFault>
    ensures begun { IfErr result CameBetween }
    ensures names { IfErr result (NamesInput input.new.port) }
    ensures same { (input.new.port ≡ input.old.port) × (I.input input.new.source ≡ I.input input.old.source) }
    ensures fed { FeedsFrom (given_input input.old.port (I.input input.old.source)) J.accepted host.old host.new }
    ensures noted { (outputs : List OutputValue) → StepsNoted outputs seat.old host.old → StepsNoted outputs seat.new host.new }
{
    let mut held = shared.book().lock(rt);
    held.compare_host(host);
    held.known();
    if input.port() >= shared.ports() {
        return Err(StreamFault::InputFailed(input.port()));
    }
    step_held(&mut held, seat, host, pace, may_wait, input)
}

/// Finds, under the book's lock, the first input whose bytes haven't come yet while the journal and its port have room for them. Answers its port,
/// and how many bytes the port has accepted; `None` if there is no such input.
fn awaited_under<J: Naming, I: Source>(
    held: &Locked<J>,
    pace: Pace,
    inputs: &mut [Input<I>],
) -> Option<(u8, u64)>
    ensures journal { IfSome result (λ found. pace.need < free_of pace.rooms.journal held.now.book) }
    ensures port { IfSome result (λ found. found.0 < length held.now.book.state.ports) }
    ensures room { IfSome result (λ found. 0 < room_of (port_in held.now.book found.0)) }
    ensures at { IfSome result (λ found. found.1 ≡ accepted_of (port_in held.now.book found.0)) }
    ensures same { map (λ i. given_input i.port (I.input i.source)) inputs.new ≡ map (λ i. given_input i.port (I.input i.source)) inputs.old }
{
    if pace.rooms.free(held.book()) <= u64::from(pace.need) {
        return None;
    }
    for next in inputs.iter_mut() {
        let port = next.port();
        if usize::from(port) >= held.book().ports() {
            continue;
        }
        let at = held.book().accepted(port);
        if held.book().room(port) > 0 && next.would_wait(at, 0) {
            return Some((port, at));
        }
    }
    None
}

/// Takes the book's lock, and finds that input as `awaited_under` does.
fn find_awaited<J: Naming, I: Source, R: Wait>(
    rt: &R,
    shared: &Shared<J>,
    pace: Pace,
    inputs: &mut [Input<I>],
) -> Option<(u8, u64)>
    ensures same { map (λ i. given_input i.port (I.input i.source)) inputs.new ≡ map (λ i. given_input i.port (I.input i.source)) inputs.old }
{
    let held = shared.book().lock(rt);
    awaited_under(&held, pace, inputs)
}

/// How a rest ended.
#[derive(Clone, Copy)]
pub(crate) enum Rested {
    /// There was no rest: the journal or the ports have no room for input, or its bytes have come already.
    None,
    /// No bytes came.
    InVain,
    /// Bytes came, or the input's end.
    Came,
}

/// Waits up to [`REST`] milliseconds for bytes of an input that haven't come yet, if the journal and its port have room for them. The wait ends when
/// bytes come. The book's lock is free meanwhile.
pub(crate) fn rest<J: Naming, I: Source, R: Wait>(
    rt: &R,
    shared: &Shared<J>,
    pace: Pace,
    inputs: &mut [Input<I>],
) -> Rested
    ensures same { map (λ i. given_input i.port (I.input i.source)) inputs.new ≡ map (λ i. given_input i.port (I.input i.source)) inputs.old }
{
    let Some((port, at)) = find_awaited(rt, shared, pace, inputs) else {
        return Rested::None;
    };
    let mut rest = Rested::InVain;
    for next in inputs.iter_mut() {
        if next.port() == port && !next.would_wait(at, REST) {
            rest = Rested::Came;
        }
    }
    rest
}

/// Makes a step of each input. If `may_wait` is false, a port whose bytes haven't come yet takes none.
pub(crate) fn step_inputs<J: Naming, I: Source, R: Wait>(
    rt: &R,
    shared: &Shared<J>,
    pace: Pace,
    seat: &mut Seat<J>,
    host: &mut HostKey<J>,
    may_wait: bool,
    inputs: &mut [Input<I>],
) -> Result<Pumped, StreamFault>
    ensures begun { IfErr result CameBetween }
    ensures ends { (outputs : List OutputValue) → IfErr result (NamesEnd outputs (map (λ i. i.port) inputs.new)) }
    ensures there { IfOk result AreTakersThere }
    ensures fed { FedFrom J.accepted (map (λ i. given_input i.port (I.input i.source)) inputs.old) (map (λ i. given_input i.port (I.input i.source)) inputs.new) host.old host.new }
    ensures noted { (outputs : List OutputValue) → StepsNoted outputs seat.old host.old → StepsNoted outputs seat.new host.new }
{
    let mut has_moved = false;
    for input in inputs.iter_mut() {
        if step_input(rt, shared, pace, seat, host, may_wait, input)? {
            has_moved = true;
        }
    }
    Ok(Pumped::of(has_moved))
}

/// Makes a step of each input, after the outputs' steps came to `put`. If nothing has moved and `may_wait` is true, it makes the steps again, and
/// waits in them for input that hasn't come yet.
fn pump_inputs<J: Naming, I: Source, R: Wait>(
    rt: &R,
    shared: &Shared<J>,
    pace: Pace,
    seat: &mut Seat<J>,
    host: &mut HostKey<J>,
    put: Pumped,
    may_wait: bool,
    inputs: &mut [Input<I>],
) -> Result<Pumped, StreamFault>
    ensures begun { IfErr result CameBetween }
    ensures ends { (outputs : List OutputValue) → IfErr result (NamesEnd outputs (map (λ i. i.port) inputs.new)) }
    ensures there { AreTakersThere put → IfOk result AreTakersThere }
    ensures fed { FedFrom J.accepted (map (λ i. given_input i.port (I.input i.source)) inputs.old) (map (λ i. given_input i.port (I.input i.source)) inputs.new) host.old host.new }
    ensures noted { (outputs : List OutputValue) → StepsNoted outputs seat.old host.old → StepsNoted outputs seat.new host.new }
{
    let pumped = put.then(step_inputs(rt, shared, pace, seat, host, false, inputs)?);
    if pumped != Pumped::Nothing || !may_wait {
        return Ok(pumped);
    }
    step_inputs(rt, shared, pace, seat, host, true, inputs)
}

/// Makes a step of each output, and then of each input. Outputs are put and confirmed up to the flusher's mark: they are outputs in the network to
/// which its journal leads. If nothing has moved and `may_wait` is true, it waits for input that hasn't come yet. If whoever takes an output has
/// gone, no port takes bytes. `seat` gets the slips of what was confirmed and handed in.
pub(crate) fn pump<J: Naming, D: Disk, S: Taker<D>, I: Source, R: Wait>(
    rt: &R,
    shared: &Shared<J>,
    pace: Pace,
    seat: &mut Seat<J>,
    host: &mut HostKey<J>,
    flusher: &mut Flusher<J, D>,
    may_wait: bool,
    streams: &mut Streams<S, I>,
) -> Result<Pumped, StreamFault>
    ensures same { flusher.new ≡ flusher.old }
    ensures put { AreTrue flusher.new.reads → Began J.formatted J.before flusher.old.opened
        → AllStepped J.formatted flusher.old flusher.old streams.old.outputs.items streams.new.outputs.items }
    ensures begun { IfErr result CameBetween }
    ensures ends { IfErr result (NamesEnd streams.new.outputs.items (map (λ i. i.port) streams.new.inputs.items)) }
    ensures gone { result ≡ Ok Gone → streams.new.inputs ≡ streams.old.inputs }
    ensures fed { FedFrom J.accepted (map (λ i. given_input i.port (I.input i.source)) streams.old.inputs.items) (map (λ i. given_input i.port (I.input i.source)) streams.new.inputs.items) host.old host.new }
    ensures noted { StepsNoted streams.old.outputs.items seat.old host.old → StepsNoted streams.new.outputs.items seat.new host.new }
{
    let put = step_outputs(rt, shared, seat, host, flusher, &mut streams.outputs)?;
    if put == Pumped::Gone {
        return Ok(Pumped::Gone);
    }
    pump_inputs(
        rt,
        shared,
        pace,
        seat,
        host,
        put,
        may_wait,
        &mut streams.inputs,
    )
}
