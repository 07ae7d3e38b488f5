//! Steps of a port's input: its bytes are handed in piece by piece.

ghost use Rattle.std.specs.Prelude.{◌≡◌, ◌⊎◌, ◌<◌, ◌==◌, ◌++◌, length, map, true, false, Ok, Some, IfErr, OnErr};
ghost use Rattle.tp_stream.specs.Lower.{accepted_of, after_inputs, port_in, room_of, HostIn, HoldNoted, offer_fault};
ghost use Rattle.tp_stream.specs.FailedEnds.{NamesInput};
ghost use Rattle.tp_stream.specs.Offered.{Offered};
ghost use Rattle.tp_stream.specs.Outcomes.{OfferAnswer};
ghost use Rattle.tp_stream.specs.Streamed.{CameBetween, CameOfTurns};

use crate::fault::StreamFault;
use tp_shared::{HostKey, Locked, Naming, Seat};
use tp_stream_files::{Input, Source};
use tp_work::{OfferFault, offer};

/// Hands a port bytes, under the book's lock, if it accepts bytes at this position. Answers whether it took them: it takes none for which it or the
/// journal has no room. `seat` gets the slips of their entries, and `host` the entries.
#[tactic(auto, using(crate::proofs::Offers::offer_taken, crate::proofs::Offers::offer_refused))]
fn offer_bytes<J: Naming>(
    held: &mut Locked<J>,
    seat: &mut Seat<J>,
    host: &mut HostKey<J>,
    port: u8,
    at: u64,
    bytes: &[u8],
) -> Result<bool, StreamFault>
    requires there { port < length held.old.book.state.ports }
    requires at { at ≡ accepted_of (port_in held.old.book port) }
    ensures answer { OfferAnswer (offer_fault held.old.book port at (length bytes.now)) result }
    ensures taken { result ≡ Ok true → held.new.book ≡ after_inputs held.old.book port bytes.now }
    ensures noted { result ≡ Ok true → HoldNoted (λ entries. entries ≡ map (HostIn port) bytes.now) J.first held.old held.new seat.old seat.new }
    ensures handed { result ≡ Ok true → host.new ≡ host.old ++ map (HostIn port) bytes.now }
    ensures refused { result ≡ Ok false → (held.new ≡ held.old) × (seat.new ≡ seat.old) × (host.new ≡ host.old) }
    ensures err { OnErr result ((held.new ≡ held.old) × (seat.new ≡ seat.old) × (host.new ≡ host.old)) }
    ensures begun { IfErr result CameOfTurns }
{
    match offer(held, seat, host, port, at, bytes) {
        Ok(_) => Ok(true),
        Err(OfferFault::Memory) => Err(StreamFault::Memory),
        Err(OfferFault::StoreBroken) => Err(StreamFault::NotStored),
        Err(
            OfferFault::JournalFull
            | OfferFault::PortFull(_)
            | OfferFault::Already(_)
            | OfferFault::Gap(_),
        ) => Ok(false),
    }
}

/// Hands a port the next bytes of its input, under the book's lock. It takes at most `most`, and no more than `piece` and the port have room for.
/// Answers whether it took some; `seat` gets the slips of their entries. If `most` is 0, it only checks whether the input has come to its end. Fails
/// with `InputFailed` if the source can't be read, or as the book refuses.
pub(crate) fn step<J: Naming, I: Source>(
    input: &mut Input<I>,
    held: &mut Locked<J>,
    seat: &mut Seat<J>,
    host: &mut HostKey<J>,
    piece: &mut [u8],
    most: u64,
) -> Result<bool, StreamFault>
    requires there { input.old.port < length held.old.book.state.ports }
    ensures taken { result ≡ Ok true → Offered (I.input input.old.source) input.old.port most J.first held.old held.new seat.old seat.new host.old host.new }
    ensures refused { result ≡ Ok false → (held.new ≡ held.old) × (seat.new ≡ seat.old) × (host.new ≡ host.old) }
    ensures blocked { input.new.is_blocked ≡ (room_of (port_in held.old.book input.old.port) == 0) }
    ensures ended { (input.new.ended ≡ input.old.ended) ⊎ (input.new.ended ≡ Some (accepted_of (port_in held.old.book input.old.port))) }
    ensures same { (input.new.port ≡ input.old.port) × (I.input input.new.source ≡ I.input input.old.source) }
    ensures err { OnErr result ((held.new ≡ held.old) × (seat.new ≡ seat.old) × (host.new ≡ host.old)) }
    ensures begun { IfErr result CameBetween }
    ensures names { IfErr result (NamesInput input.new.port) }
{
    let port = input.port();
    let at = held.book().accepted(port);
    let place = held.book().room(port);
    input.block(place == 0);
    let room = (place.min(piece.len()) as u64).min(most.max(1)) as usize;
    match input.read(at, &mut piece[..room]) {
        Ok(0) => Ok(false),
        Ok(count) if most > 0 => offer_bytes(held, seat, host, port, at, &piece[..count]),
        Ok(_) => Ok(false),
        Err(_) => Err(StreamFault::InputFailed(port)),
    }
}
