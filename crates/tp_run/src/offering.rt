//! The input that a run hands in.

ghost use Rattle.std.specs.Prelude.{◌≡◌, ◌<◌, ◌++◌, length, map, take, drop, IfOk, IfErr, OnErr};
ghost use Rattle.tp_run.specs.Lower.{next_in_book, after_inputs, IsFor, HostIn, RefusesFor};
ghost use Rattle.tp_run.specs.Input.{IsForInput, rest_at, rest_fault, input_rest};
ghost use Rattle.tp_run.specs.Faults.{IsOfferFault};

use crate::fault::RunFault;
use crate::outset::Outset;
use tp_book::Receipt;
use tp_shared::{HostKey, Locked, Naming, Seat};
use tp_work::{OfferFault, offer};

// Gives at most `room` bytes of `input`, from the position `from` on.
fn front_from(input: &[u8], from: u64, room: usize) -> &[u8]
    ensures { result.now ≡ take room (drop from input.now) }
{
    let rest = if from < input.len() as u64 {
        &input[from as usize..]
    } else {
        &input[input.len()..]
    };
    &rest[..rest.len().min(room)]
}

/// Hands a port the bytes of its whole input that it hasn't accepted, as many as it has room for. If it has accepted more than `input` has, it gets
/// none. The receipt is for all that it has accepted then. `seat` gets the slips of the entries, and `key` shows them. Fails with `OfferRefused` if the
/// journal has no room for them, with `Unaccounted` if the store is broken, or with `Memory`; then nothing changes.
pub(crate) fn offer_rest<J: Naming>(
    held: &mut Locked<J>,
    seat: &mut Seat<J>,
    key: &mut HostKey<J>,
    port: u8,
    input: &[u8],
) -> Result<Receipt, RunFault>
    requires there { port < length held.old.book.state.ports }
    ensures answer { RefusesFor RunFault.Memory (rest_fault held.old.book (length (input_rest held.old.book port input.now))) result }
    ensures book { IfOk result (λ receipt. held.new.book ≡ after_inputs held.old.book port (input_rest held.old.book port input.now)) }
    ensures number { IfOk result (λ receipt. receipt.number ≡ next_in_book held.new.book) }
    ensures receipt { IfOk result (IsFor (map (HostIn port) (input_rest held.old.book port input.now)) seat.old seat.new) }
    ensures handed { IfOk result (λ receipt. key.new ≡ key.old ++ map (HostIn port) (input_rest held.old.book port input.now)) }
    ensures refused { IfErr result IsOfferFault }
    ensures some { IfErr result (λ fault. fault ≡ RunFault.OfferRefused → 0 < length (input_rest held.old.book port input.now)) }
    ensures err { OnErr result ((held.new ≡ held.old) × (seat.new ≡ seat.old) × (key.new ≡ key.old)) }
{
    held.known();
    let accepted = held.book().accepted(port);
    let room = held.book().room(port);
    let bytes = front_from(input, accepted, room);
    match offer(held, seat, key, port, accepted, bytes) {
        Ok(receipt) => Ok(receipt),
        Err(OfferFault::JournalFull) => Err(RunFault::OfferRefused),
        Err(OfferFault::Memory) => Err(RunFault::Memory),
        Err(OfferFault::StoreBroken) => Err(RunFault::Unaccounted),
        Err(OfferFault::Already(_) | OfferFault::Gap(_) | OfferFault::PortFull(_)) => {
            unreachable!()
        }
    }
}

/// Hands in the rest of the input if the port in the book is as `outset` says. `seat` gets the slips, and `key` shows the entries. Otherwise it fails
/// with `Unaccounted`, which doesn't occur while no other thread has changed the book since the opening. Else it fails as `offer_rest` does.
pub(crate) fn offer_at<J: Naming>(
    held: &mut Locked<J>,
    seat: &mut Seat<J>,
    key: &mut HostKey<J>,
    outset: Outset,
    input: &[u8],
) -> Result<Receipt, RunFault>
    requires there { outset.port < length held.old.book.state.ports }
    ensures receipt { IfOk result (IsForInput outset input.now seat.old seat.new key.old key.new) }
    ensures refused { IfErr result IsOfferFault }
    ensures some { IfErr result (λ fault. fault ≡ RunFault.OfferRefused → 0 < length (rest_at outset input.now)) }
    ensures err { OnErr result ((held.new ≡ held.old) × (seat.new ≡ seat.old) × (key.new ≡ key.old)) }
{
    outset.stands_in(held.book())?;
    offer_rest(held, seat, key, outset.port, input)
}
