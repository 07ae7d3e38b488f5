//! Outputs that a host confirms.

ghost use Rattle.std.specs.Prelude.{◌≡◌, ◌<◌, ◌≤◌, ◌++◌, length, IsOk, IfOk, OnErr};
ghost use Rattle.tp_work.specs.Lower.{next_in_book, after_confirm, port_in, confirm_entries, confirm_receipt, HoldNoted};
ghost use Rattle.tp_work.specs.Answers.{RefusesFor};
ghost use Rattle.tp_work.specs.Outputs.{confirm_fault};
ghost use Rattle.tp_work.specs.Receipts.{IsFor};

use crate::host_fault::ConfirmFault;
use tp_book::Receipt;
use tp_shared::{HostKey, Locked, Naming, Seat};

/// Journals, under the book's lock, that the host has a port's outputs up to the position `upto`, and drops them. They must be shown by the
/// mark. Does nothing if they were confirmed before. `seat` gets the entry's slip, and `host` shows the entry.
pub fn confirm<J: Naming>(
    held: &mut Locked<J>,
    seat: &mut Seat<J>,
    host: &mut HostKey<J>,
    port: u8,
    mark: u64,
    upto: u64,
) -> Result<Receipt, ConfirmFault>
    requires there { port < length held.old.book.state.ports }
    ensures answer { RefusesFor ConfirmFault.Memory (confirm_fault held.old.book port mark upto) result }
    ensures nothing { upto ≤ (port_in held.old.book port).out_base → IsOk result }
    ensures book { IfOk result (λ receipt. held.new.book ≡ after_confirm held.old.book port upto) }
    ensures number { IfOk result (λ receipt. receipt.number ≡ next_in_book held.new.book) }
    ensures given { IfOk result (λ receipt. receipt ≡ confirm_receipt held.old.book port upto) }
    ensures noted { IfOk result (λ receipt. HoldNoted (λ entries. entries ≡ confirm_entries held.old.book port upto) J.first held.old held.new seat.old seat.new) }
    ensures handed { IfOk result (λ receipt. host.new ≡ host.old ++ confirm_entries held.old.book port upto) }
    ensures receipt { IfOk result (IsFor (confirm_entries held.old.book port upto) seat.old seat.new) }
    ensures err { OnErr result ((held.new ≡ held.old) × (seat.new ≡ seat.old) × (host.new ≡ host.old)) }
{
    held.known();
    if held.book().shown_upto(port, mark) < upto {
        return Err(ConfirmFault::NotShown);
    }
    match held.confirm(seat, host, port, upto) {
        Ok(receipt) => Ok(receipt),
        Err(refusal) => Err(ConfirmFault::of(refusal)),
    }
}
