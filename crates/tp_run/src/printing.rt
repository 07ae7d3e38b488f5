//! The output that a run prints and confirms.

ghost use Rattle.std.specs.Prelude.{◌≡◌, ◌<◌, ◌≤◌, ◌++◌, length, take, IsOk, IfOk, IfErr, OnOk, OnErr};
ghost use Rattle.tp_run.specs.Lower.{AreTrue, Appends, Began, next_in_book, after_confirm, port_in, shown_from, shown_of, shown_upto_of, confirm_entries, IsFor, RefusesFor, IsAheadOf};
ghost use Rattle.tp_run.specs.Faults.{IsLate};
ghost use Rattle.tp_run.specs.Output.{AreOutputs, AreShownBytes, IsForOutput, PrintedOf, ShowsAll, unconfirmed_fault};
ghost use Rattle.tp_run.specs.Outlet.{WasCalled};
ghost use Rattle.tp_run.specs.Prints.{PrintsAt, TellsAllPrinted};
ghost use Rattle.tp_run.specs.Shown.{MayTake};

use crate::fault::RunFault;
use crate::outlet::{Outlet, OutletFault};
use crate::outset::Outset;
use tp_book::{Book, Receipt};
use tp_disk::Disk;
use tp_flush::Flusher;
use tp_shared::{HostKey, Locked, Naming, Seat};
use tp_work::{ConfirmFault, confirm};

/// Calls an outlet with bytes until it has taken all of them or failed. Answers how many of them it took. An interrupted call is made again.
fn write_front<J: Naming, D: Disk, O: Outlet<D>>(
    flusher: &Flusher<J, D>,
    out: &mut O,
    bytes: &[u8],
) -> usize
    requires shown { MayTake J.formatted J.before flusher.now bytes.now }
    ensures few { result ≤ length bytes.now }
    ensures front { Appends (O.value out.old).taken (O.value out.new).taken (take result bytes.now) }
    ensures called { WasCalled flusher.now.state bytes.now (O.value out.old) (O.value out.new) }
{
    let mut written = 0;
    for _ in 0..u64::MAX {
        if written >= bytes.len() {
            return written;
        }
        match out.print(flusher, &bytes[written..]) {
            Ok(count) => written += count,
            Err(OutletFault::Interrupted) => {}
            Err(OutletFault::Failed) => return written,
        }
    }
    written
}

/// Prints `bytes`. Fails with `OutputFailed` if the outlet failed; then it has taken only some of the first bytes, or none.
fn put<J: Naming, D: Disk, O: Outlet<D>>(
    flusher: &Flusher<J, D>,
    out: &mut O,
    bytes: &[u8],
) -> Result<(), RunFault>
    requires shown { MayTake J.formatted J.before flusher.now bytes.now }
    ensures written { OnOk result (Appends (O.value out.old).taken (O.value out.new).taken bytes.now) }
    ensures printed { PrintsAt flusher.now.state result (O.value out.old) (O.value out.new) bytes.now }
    ensures refused { IfErr result (λ fault. fault ≡ RunFault.OutputFailed) }
{
    let written = write_front(flusher, out, bytes);
    if written < bytes.len() {
        return Err(RunFault::OutputFailed);
    }
    Ok(())
}

/// Journals, under the book's lock, that the host has all outputs of a port that `mark` shows. `seat` gets the entry's slip, and `key` shows the entry.
/// Fails with `ConfirmRefused` if the journal is full, with `Unaccounted` if the store is broken, or with `Memory`; then nothing changes.
fn confirm_shown<J: Naming>(
    held: &mut Locked<J>,
    seat: &mut Seat<J>,
    key: &mut HostKey<J>,
    port: u8,
    mark: u64,
) -> Result<Receipt, RunFault>
    requires there { port < length held.old.book.state.ports }
    ensures answer { RefusesFor RunFault.Memory (unconfirmed_fault held.old.book port mark) result }
    ensures book { IfOk result (λ receipt. held.new.book ≡ after_confirm held.old.book port (shown_upto_of held.old.book port mark)) }
    ensures number { IfOk result (λ receipt. receipt.number ≡ next_in_book held.new.book) }
    ensures receipt { IfOk result (IsFor (confirm_entries held.old.book port (shown_upto_of held.old.book port mark)) seat.old seat.new) }
    ensures handed { IfOk result (λ receipt. key.new ≡ key.old ++ confirm_entries held.old.book port (shown_upto_of held.old.book port mark)) }
    ensures late { IfErr result IsLate }
    ensures told { TellsAllPrinted result }
    ensures err { OnErr result ((held.new ≡ held.old) × (seat.new ≡ seat.old) × (key.new ≡ key.old)) }
{
    let upto = held.book().shown_upto(port, mark);
    match confirm(held, seat, key, port, mark, upto) {
        Ok(receipt) => Ok(receipt),
        Err(ConfirmFault::JournalFull) => Err(RunFault::ConfirmRefused),
        Err(ConfirmFault::Memory) => Err(RunFault::Memory),
        Err(ConfirmFault::StoreBroken) => Err(RunFault::Unaccounted),
        Err(ConfirmFault::NotShown) => unreachable!(),
    }
}

/// Prints, under the book's lock, the outputs of a port that `mark` shows and that aren't confirmed, and confirms them. The receipt has the number of
/// the next entry. `seat` gets the slip, and `key` shows the entry. If the output can't be written, it fails with `OutputFailed` and confirms nothing.
/// Else it fails as `confirm_shown` does.
fn print_shown<J: Naming, D: Disk, O: Outlet<D>>(
    held: &mut Locked<J>,
    seat: &mut Seat<J>,
    key: &mut HostKey<J>,
    flusher: &Flusher<J, D>,
    port: u8,
    mark: u64,
    out: &mut O,
) -> Result<Receipt, RunFault>
    requires there { port < length held.old.book.state.ports }
    requires shown { MayTake J.formatted J.before flusher.now (shown_from held.old.book port mark (port_in held.old.book port).out_base) }
    ensures printed { PrintsAt flusher.now.state result (O.value out.old) (O.value out.new) (shown_from held.old.book port mark (port_in held.old.book port).out_base) }
    ensures book { IfOk result (λ receipt. held.new.book ≡ after_confirm held.old.book port (shown_upto_of held.old.book port mark)) }
    ensures number { IfOk result (λ receipt. receipt.number ≡ next_in_book held.new.book) }
    ensures receipt { IfOk result (IsForOutput port (port_in held.old.book port).out_base (AreShownBytes held.old.book port mark) (O.value out.old).taken (O.value out.new).taken seat.old seat.new key.old key.new) }
    ensures late { IfErr result IsLate }
    ensures err { OnErr result ((held.new ≡ held.old) × (seat.new ≡ seat.old) × (key.new ≡ key.old)) }
{
    let from = held.book().out_base(port);
    put(flusher, out, held.book().shown(port, mark, from))?;
    confirm_shown(held, seat, key, port, mark)
}

/// Tests that `mark` shows all outputs of a port and is above all entries of the book. Fails with `Unaccounted` exactly if one of the two is false.
fn is_all_shown(book: &Book, port: u8, mark: u64) -> Result<(), RunFault>
    requires { port < length book.now.state.ports }
    ensures all { IfOk result (λ done. shown_of book.now port mark ≡ length (port_in book.now port).outputs) }
    ensures stored { IfOk result (λ done. next_in_book book.now ≤ mark) }
    ensures exact { shown_of book.now port mark ≡ length (port_in book.now port).outputs → next_in_book book.now ≤ mark → IsOk result }
    ensures refused { IfErr result (λ fault. fault ≡ RunFault.Unaccounted) }
{
    let shown = book.shown_upto(port, mark) - book.out_base(port);
    if shown == book.outputs(port).len() as u64 && book.next() <= mark {
        return Ok(());
    }
    Err(RunFault::Unaccounted)
}

/// Prints and confirms all outputs, as `print_shown` does. Before that it tests that the port has confirmed what it had at the opening, and that
/// `mark` shows all outputs and is above all entries. If a test fails, it prints nothing and fails with `Unaccounted`; that doesn't occur after a
/// flush with no other thread there.
pub(crate) fn print_from<J: Naming, D: Disk, O: Outlet<D>>(
    held: &mut Locked<J>,
    seat: &mut Seat<J>,
    key: &mut HostKey<J>,
    flusher: &Flusher<J, D>,
    outset: Outset,
    mark: u64,
    out: &mut O,
) -> Result<Receipt, RunFault>
    requires there { outset.port < length held.old.book.state.ports }
    requires mark { mark ≡ flusher.now.world.mark }
    requires ahead { AreTrue flusher.now.reads → Began J.formatted J.before flusher.now.opened → IsAheadOf J.formatted flusher.now.world held.old.book }
    ensures receipt { IfOk result (IsForOutput outset.port outset.confirmed (AreOutputs held.old.book outset.port) (O.value out.old).taken (O.value out.new).taken seat.old seat.new key.old key.new) }
    ensures all { IfOk result (λ receipt. ShowsAll held.old.book outset.port mark outset.confirmed) }
    ensures printed { PrintedOf held.old.book outset.port mark outset.confirmed flusher.now.state (O.value out.old) (O.value out.new) result }
    ensures late { IfErr result IsLate }
    ensures err { OnErr result ((held.new ≡ held.old) × (seat.new ≡ seat.old) × (key.new ≡ key.old)) }
{
    outset.is_confirmed_in(held.book())?;
    is_all_shown(held.book(), outset.port, mark)?;
    print_shown(held, seat, key, flusher, outset.port, mark, out)
}
