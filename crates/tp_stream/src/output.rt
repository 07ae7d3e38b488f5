//! Steps of a port's output: it is put at its position, made safe, and then confirmed.

ghost use Rattle.std.specs.Prelude.{◌≡◌, ◌<◌, ◌≤◌, ◌+◌, ◌++◌, ℕ, false, length, Err, IfOk, OnOk, IfErr, OnErr};
ghost use Rattle.tp_stream.specs.Lower.{AreTrue, Began, after_confirm, port_in, shown_from, shown_upto_of, confirm_entries, is_journal_full, HoldNoted, IsFor, HasPut, KeepsFront, WasPutSafely, given_of};
ghost use Rattle.tp_stream.specs.FailedEnds.{NamesOutput, StepNames};
ghost use Rattle.tp_stream.specs.Standing.{MayBegin, Refuses, from_of, put_out, port_standing};
ghost use Rattle.tp_stream.specs.Streamed.{CameBetween, OtherThanFull};
ghost use Rattle.tp_stream.specs.Outcomes.{ConfirmsOtherwise, IsStepFault, StepsOtherwise, confirm_fault_of, step_fault_of};
ghost use Rattle.tp_stream.specs.Shown.{AreShownAt};
ghost use Rattle.tp_stream.specs.Steps.{AreLeft, IsSetOut, PortsStand, PutsShown};
ghost use Rattle.tp_stream.specs.declared.output.StepFault.TheVariants.{Gone as TakerGone};

use crate::fault::StreamFault;
use crate::standing::Standing;
use crate::taker::{Taker, put_safe};
use tp_book::{Book, Receipt};
use tp_disk::Disk;
use tp_flush::Flusher;
use tp_shared::{HostKey, Locked, Naming, Seat};
use tp_stream_files::{Output, Sink, SinkFault};
use tp_work::{ConfirmFault, confirm};

/// Why a step of an output isn't done: whoever takes the output has gone, or the stream ends with a fault.
#[derive(Clone, Copy)]
pub(crate) enum StepFault {
    Gone,
    Fault(StreamFault),
}

/// Gives why the step of the output of `port` isn't done, if its sink answered `fault`.
fn step_fault(fault: SinkFault, port: u8) -> StepFault
    ensures value { result ≡ step_fault_of port fault }
    ensures names { StepNames port result }
{
    match fault {
        SinkFault::Failed => StepFault::Fault(StreamFault::OutputFailed(port)),
        SinkFault::Gone => StepFault::Gone,
    }
}

/// Gives the stream's fault for a confirm that was refused.
fn fault_of(fault: ConfirmFault) -> StreamFault
    ensures value { result ≡ confirm_fault_of fault }
    ensures begun { CameBetween result }
    ensures names { (port : ℕ) → NamesOutput port result }
    ensures full { ConfirmsOtherwise fault → OtherThanFull result }
{
    match fault {
        ConfirmFault::JournalFull | ConfirmFault::NotShown => StreamFault::JournalFull,
        ConfirmFault::StoreBroken => StreamFault::NotStored,
        ConfirmFault::Memory => StreamFault::Memory,
    }
}

/// Sets an output out at the position of its port. Fails if it may not begin there, and says why.
#[tactic(auto, using(tp_stream_files::proofs::StreamEndsSinks::reaches_less))]
fn set_out<S: Sink>(output: &mut Output<S>, stand: Standing) -> Result<(), StreamFault>
    ensures begun { OnOk result (MayBegin stand (given_of output.old)) }
    ensures refused { IfErr result (Refuses stand (given_of output.old)) }
    ensures next { OnOk result (output.new.next ≡ from_of stand (given_of output.old)) }
    ensures confirmed { OnOk result (output.new.confirmed ≡ stand.confirmed) }
    ensures same { given_of output.new ≡ given_of output.old }
{
    let Standing {
        confirmed,
        shown,
        upto,
    } = stand;
    let port = output.port();
    let from = output.have().unwrap_or(confirmed);
    if from < confirmed {
        return Err(StreamFault::Gone {
            port,
            have: from,
            confirmed,
        });
    }
    if shown < from {
        return Err(StreamFault::NotShown {
            port,
            have: from,
            shown,
        });
    }
    let has = output.reach();
    if has < from {
        return Err(StreamFault::Short { port, has, from });
    }
    if let Some(has) = output.excess(upto) {
        return Err(StreamFault::Long { port, has, upto });
    }
    output.set(confirmed, from);
    Ok(())
}

/// Sets an output out at the position of its port in a book, when a device with the mark `mark` opens. Fails if it may not begin there, and says why.
pub(crate) fn begin<S: Sink>(
    output: &mut Output<S>,
    book: &Book,
    mark: u64,
) -> Result<(), StreamFault>
    requires there { output.old.port < length book.now.state.ports }
    requires few { put_out (port_in book.now output.old.port) ≤ mark }
    ensures begun { OnOk result (MayBegin (port_standing book.now mark output.old.port) (given_of output.old)) }
    ensures refused { IfErr result (Refuses (port_standing book.now mark output.old.port) (given_of output.old)) }
    ensures next { OnOk result (output.new.next ≡ from_of (port_standing book.now mark output.old.port) (given_of output.old)) }
    ensures confirmed { OnOk result (output.new.confirmed ≡ (port_in book.now output.old.port).out_base) }
    ensures shown { OnOk result (output.new.next ≤ shown_upto_of book.now output.old.port mark) }
    ensures same { given_of output.new ≡ given_of output.old }
    ensures set { OnOk result (IsSetOut (port_standing book.now mark) output.old output.new) }
{
    let stand = Standing::of(book, output.port(), mark);
    set_out(output, stand)
}

/// Puts `bytes` after those that were put, up to `upto`, and makes them safe.
fn put_upto<J: Naming, D: Disk, S: Taker<D>>(
    output: &mut Output<S>,
    flusher: &Flusher<J, D>,
    upto: u64,
    bytes: &[u8],
) -> Result<(), SinkFault>
    requires upto { upto ≡ output.old.next + length bytes.now }
    requires shown { AreShownAt J.formatted J.before flusher.now output.old.port output.old.next bytes.now }
    ensures put { OnOk result (WasPutSafely bytes.now output.old output.new) }
    ensures front { KeepsFront output.old.next output.old.held output.new.held }
    ensures failed { OnErr result (output.new ≡ record output.old { held = output.new.held }) }
{
    put_safe(flusher, &mut output.sink, output.next, bytes)?;
    output.next = upto;
    Ok(())
}

/// Puts, at their positions, all outputs that the flusher's mark shows after those that were put, and makes them safe. If that fails, the sink's
/// bytes before them are as they were.
#[tactic(auto, using(tp_stream_files::proofs::StreamEndsSinks::front_stays))]
fn put_shown<J: Naming, D: Disk, S: Taker<D>>(
    output: &mut Output<S>,
    book: &Book,
    flusher: &Flusher<J, D>,
) -> Result<(), StepFault>
    requires there { output.old.port < length book.now.state.ports }
    requires stands { AreTrue flusher.now.reads → Began J.formatted J.before flusher.now.opened → PortsStand J.formatted flusher.now.world book.now }
    ensures put { OnOk result (WasPutSafely (shown_from book.now output.old.port flusher.now.world.mark output.old.next) output.old output.new) }
    ensures shown { OnOk result (output.new.next ≡ shown_upto_of book.now output.old.port flusher.now.world.mark) }
    ensures front { KeepsFront output.old.next output.old.held output.new.held }
    ensures puts { PutsShown book.now flusher.now.world.mark output.old output.new }
    ensures failed { OnErr result (output.new ≡ record output.old { held = output.new.held }) }
    ensures begun { IfErr result IsStepFault }
    ensures names { IfErr result (StepNames output.old.port) }
    ensures other { IfErr result StepsOtherwise }
{
    output.known();
    let mark = flusher.mark();
    let (port, from) = (output.port(), output.put());
    let upto = book.shown_upto(port, mark);
    if from < book.out_base(port) || upto < from {
        return Err(step_fault(SinkFault::Failed, port));
    }
    let bytes = book.shown(port, mark, from);
    match put_upto(output, flusher, upto, bytes) {
        Ok(()) => Ok(()),
        Err(fault) => Err(step_fault(fault, port)),
    }
}

/// Journals, under the book's lock, that the host has all outputs that were put. `seat` gets the entry's slip, if there is one. If the book refuses,
/// nothing is confirmed.
fn confirm_put<J: Naming, D: Disk, S: Sink>(
    output: &mut Output<S>,
    held: &mut Locked<J>,
    seat: &mut Seat<J>,
    host: &mut HostKey<J>,
    flusher: &Flusher<J, D>,
) -> Result<Receipt, StreamFault>
    requires there { output.old.port < length held.old.book.state.ports }
    ensures book { IfOk result (λ receipt. held.new.book ≡ after_confirm held.old.book output.old.port output.old.next) }
    ensures receipt { IfOk result (IsFor (confirm_entries held.old.book output.old.port output.old.next) seat.old seat.new) }
    ensures noted { IfOk result (λ receipt. HoldNoted (λ entries. entries ≡ confirm_entries held.old.book output.old.port output.old.next) J.first held.old held.new seat.old seat.new) }
    ensures handed { OnOk result (host.new ≡ host.old ++ confirm_entries held.old.book output.old.port output.old.next) }
    ensures confirmed { OnOk result (output.new ≡ record output.old { confirmed = output.old.next }) }
    ensures err { OnErr result ((held.new ≡ held.old) × (seat.new ≡ seat.old) × (host.new ≡ host.old) × (output.new ≡ output.old)) }
    ensures begun { IfErr result CameBetween }
    ensures names { (port : ℕ) → IfErr result (NamesOutput port) }
    ensures room { output.old.next ≤ shown_upto_of held.old.book output.old.port flusher.now.world.mark
        → is_journal_full held.old.book 1 ≡ false → IfErr result OtherThanFull }
{
    match confirm(
        held,
        seat,
        host,
        output.port(),
        flusher.mark(),
        output.put(),
    ) {
        Ok(receipt) => {
            output.confirm();
            Ok(receipt)
        }
        Err(fault) => Err(fault_of(fault)),
    }
}

/// Makes a step of an output, under the book's lock. It puts what the flusher's mark shows and wasn't put yet, makes it safe, and confirms it; `seat`
/// gets the confirm's slip. So the flusher has stored the entries that put out what it puts. If putting or making safe fails, or whoever takes the
/// output has gone, nothing is confirmed. However it ends, it has put all that the mark shows, or nothing.
pub(crate) fn step<J: Naming, D: Disk, S: Taker<D>>(
    output: &mut Output<S>,
    held: &mut Locked<J>,
    seat: &mut Seat<J>,
    host: &mut HostKey<J>,
    flusher: &Flusher<J, D>,
) -> Result<Receipt, StepFault>
    requires there { output.old.port < length held.old.book.state.ports }
    requires stands { AreTrue flusher.now.reads → Began J.formatted J.before flusher.now.opened → PortsStand J.formatted flusher.now.world held.old.book }
    ensures put { OnOk result (output.new.next ≡ output.old.next + length (shown_from held.old.book output.old.port flusher.now.world.mark output.old.next)) }
    ensures bytes { OnOk result (HasPut output.old.next (shown_from held.old.book output.old.port flusher.now.world.mark output.old.next) output.old.held output.new.held) }
    ensures shown { OnOk result (output.new.next ≡ shown_upto_of held.old.book output.old.port flusher.now.world.mark) }
    ensures book { IfOk result (λ receipt. held.new.book ≡ after_confirm held.old.book output.old.port output.new.next) }
    ensures receipt { IfOk result (IsFor (confirm_entries held.old.book output.old.port output.new.next) seat.old seat.new) }
    ensures noted { IfOk result (λ receipt. HoldNoted (λ entries. entries ≡ confirm_entries held.old.book output.old.port output.new.next) J.first held.old held.new seat.old seat.new) }
    ensures handed { OnOk result (host.new ≡ host.old ++ confirm_entries held.old.book output.old.port output.new.next) }
    ensures confirmed { OnOk result (output.new.confirmed ≡ output.new.next) }
    ensures failed { OnErr result ((held.new ≡ held.old) × (seat.new ≡ seat.old) × (host.new ≡ host.old)) }
    ensures gone { result ≡ Err TakerGone → output.new ≡ record output.old { held = output.new.held } }
    ensures front { KeepsFront output.old.next output.old.held output.new.held }
    ensures puts { PutsShown held.old.book flusher.now.world.mark output.old output.new }
    ensures left { AreLeft held.old.book held.new.book }
    ensures begun { IfErr result IsStepFault }
    ensures names { IfErr result (StepNames output.old.port) }
    ensures room { is_journal_full held.old.book 1 ≡ false → IfErr result StepsOtherwise }
{
    match put_shown(output, held.book(), flusher) {
        Ok(()) => match confirm_put(output, held, seat, host, flusher) {
            Ok(receipt) => Ok(receipt),
            Err(fault) => Err(StepFault::Fault(fault)),
        },
        Err(fault) => Err(fault),
    }
}
