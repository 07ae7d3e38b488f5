//! Bytes that a host offers to a port.

ghost use Rattle.std.specs.Prelude.{◌≡◌, ◌<◌, ◌++◌, length, map, Some, IsOk, IfOk, IfErr, OnErr};
ghost use Rattle.tp_work.specs.Lower.{next_in_book, accepted_of, after_inputs, input_refusal, port_in, room_of, input_receipt, IsAnswer, HostIn, HoldNoted};
ghost use Rattle.tp_work.specs.Answers.{RefusesFor};
ghost use Rattle.tp_work.specs.Offers.{IsReason, offer_fault};
ghost use Rattle.tp_work.specs.Receipts.{IsFor};

use crate::host_fault::OfferFault;
use tp_book::Receipt;
use tp_shared::{HostKey, Locked, Naming, Seat};

/// Hands bytes to a port, under the book's lock: all of them, or none if the offer fails. The first of them must be the next one that the
/// port accepts. Offering 0 bytes there always works, and makes no entry. `seat` gets the slips of the entries, and `host` shows them.
pub fn offer<J: Naming>(
    held: &mut Locked<J>,
    seat: &mut Seat<J>,
    host: &mut HostKey<J>,
    port: u8,
    at: u64,
    bytes: &[u8],
) -> Result<Receipt, OfferFault>
    requires there { port < length held.old.book.state.ports }
    ensures answer { RefusesFor OfferFault.Memory (offer_fault held.old.book port at (length bytes.now)) result }
    ensures nothing { length bytes.now ≡ 0 → at ≡ accepted_of (port_in held.old.book port) → IsOk result }
    ensures book { IfOk result (λ receipt. held.new.book ≡ after_inputs held.old.book port bytes.now) }
    ensures number { IfOk result (λ receipt. receipt.number ≡ next_in_book held.new.book) }
    ensures given { IfOk result (λ receipt. receipt ≡ input_receipt held.old.book port bytes.now) }
    ensures position { IfOk result (λ receipt. receipt.position ≡ Some at) }
    ensures noted { IfOk result (λ receipt. HoldNoted (λ entries. entries ≡ map (HostIn port) bytes.now) J.first held.old held.new seat.old seat.new) }
    ensures handed { IfOk result (λ receipt. host.new ≡ host.old ++ map (HostIn port) bytes.now) }
    ensures receipt { IfOk result (IsFor (map (HostIn port) bytes.now) seat.old seat.new) }
    ensures reason { IfErr result (IsReason at (length bytes.now)) }
    ensures err { OnErr result ((held.new ≡ held.old) × (seat.new ≡ seat.old) × (host.new ≡ host.old)) }
{
    held.known();
    let accepted = held.book().accepted(port);
    if at < accepted {
        return Err(OfferFault::Already(accepted));
    }
    if accepted < at {
        return Err(OfferFault::Gap(accepted));
    }
    let room = held.book().room(port) as u64;
    match held.host_in(seat, host, port, bytes) {
        Ok(receipt) => Ok(receipt),
        Err(refusal) => Err(OfferFault::of(refusal, room)),
    }
}
