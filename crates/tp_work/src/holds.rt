//! What sessions do under the book's lock. The book is seen before and after that.

ghost use Rattle.std.specs.Prelude.{◌≡◌, ◌<◌, ◌⊎◌, ◌∷◌, ◌++◌, [], length, map, Some, IfOk, IfErr, OnErr};
ghost use Rattle.tp_work.specs.Lower.{HostIn, Confirm, in_hand};
ghost use Rattle.tp_work.specs.Receipts.{IsFor};
ghost use Rattle.tp_work.specs.Offers.{IsReason};
ghost use Rattle.tp_work.specs.Sessions.{ConfirmedIn, OfferedIn, ShownIn};

use crate::confirming::confirm;
use crate::host_fault::{ConfirmFault, OfferFault, ShownFault};
use crate::offers::offer;
use crate::outputs::shown;
use std::alloc::Global;
use tp_book::Receipt;
use tp_shared::{HostKey, Locked, Naming, Seat, Sights};

/// Hands bytes to a port.
pub(crate) fn offer_seen<J: Naming>(
    held: &mut Locked<J>,
    port: u8,
    at: u64,
    bytes: &[u8],
    seat: &mut Seat<J>,
    host: &mut HostKey<J>,
    seen: &mut Sights<J>,
) -> Result<Receipt, OfferFault>
    requires there { port < length J.start.ports }
    ensures offered { OfferedIn J.start port at bytes.now result (in_hand seen.old seat.old) (in_hand seen.new seat.new) }
    ensures handed { IfOk result (λ receipt. host.new ≡ host.old ++ map (HostIn port) bytes.now) }
    ensures kept { OnErr result (host.new ≡ host.old) }
    ensures receipt { IfOk result (IsFor (map (HostIn port) bytes.now) seat.old seat.new) }
    ensures position { IfOk result (λ receipt. receipt.position ≡ Some at) }
    ensures reason { IfErr result (IsReason at (length bytes.now)) }
{
    held.show(seen);
    held.known();
    let done = offer(held, seat, host, port, at, bytes);
    held.show(seen);
    done
}

/// Copies the outputs of a port that a mark shows.
pub(crate) fn shown_seen<J: Naming>(
    held: &mut Locked<J>,
    alloc: Global,
    port: u8,
    mark: u64,
    from: u64,
    seen: &mut Sights<J>,
) -> Result<Vec<u8>, ShownFault>
    requires there { port < length J.start.ports }
    ensures shown { ShownIn J.start port mark from result seen.old seen.new }
{
    held.show(seen);
    held.known();
    shown(held.book(), alloc, port, mark, from)
}

/// Confirms outputs of a port that a mark shows.
pub(crate) fn confirm_seen<J: Naming>(
    held: &mut Locked<J>,
    port: u8,
    mark: u64,
    upto: u64,
    seat: &mut Seat<J>,
    host: &mut HostKey<J>,
    seen: &mut Sights<J>,
) -> Result<Receipt, ConfirmFault>
    requires there { port < length J.start.ports }
    ensures confirmed { ConfirmedIn J.start port mark upto result (in_hand seen.old seat.old) (in_hand seen.new seat.new) }
    ensures handed { IfOk result (λ receipt. (host.new ≡ host.old) ⊎ (host.new ≡ host.old ++ Confirm port upto ∷ [])) }
    ensures kept { OnErr result (host.new ≡ host.old) }
    ensures receipt { IfOk result (λ receipt. IsFor [] seat.old seat.new receipt ⊎ IsFor (Confirm port upto ∷ []) seat.old seat.new receipt) }
{
    held.show(seen);
    held.known();
    let done = confirm(held, seat, host, port, mark, upto);
    held.show(seen);
    done
}
