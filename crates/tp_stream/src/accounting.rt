//! Who made each entry that was journalled.

ghost use Rattle.std.specs.Prelude.{◌≡◌, ◌++◌, flat_map, true, IfSome};
ghost use Rattle.tp_stream.specs.Lower.{next_in_book, AreTrue, Began};
ghost use Rattle.tp_stream.specs.Accounted.{AreAllSlips, MadeByTurns};

use tp_disk::Disk;
use tp_flush::Flusher;
use tp_shared::{HostKey, Locked, Naming, Seat};

/// Puts the slips of the seat `leader`, if there is one, after those of `seat`.
pub(crate) fn with_leader<J: Naming>(seat: Seat<J>, leader: Option<tp_work::Seat<J>>) -> Seat<J>
    requires { IfSome leader (λ seat. MadeByTurns J.start seat.slips) }
    ensures { MadeByTurns J.start seat → MadeByTurns J.start result }
{
    match leader {
        Some(leader) => {
            let mut seat = seat;
            seat.absorb(leader.into_slips());
            seat
        }
        None => seat,
    }
}

/// Joins the slips of the seat `first` and of all `seats`, in their order.
pub(crate) fn slips_of<J: Naming>(first: Seat<J>, seats: Vec<tp_work::Seat<J>>) -> Seat<J>
    ensures { result ≡ first ++ flat_map (λ seat. seat.slips) seats.items }
{
    let mut all = first;
    for seat in seats {
        all.absorb(seat.into_slips());
    }
    all
}

/// Whether `all` has a slip for each entry since the opening, whose first number is `first`, and all of them are below the flusher's mark. If so, these
/// are all entries of the flusher's journal since the opening, each has one slip, and `host` shows all that the host handed in. Changes nothing.
pub(crate) fn are_accounted<J: Naming, D: Disk>(
    held: &mut Locked<J>,
    flusher: &mut Flusher<J, D>,
    first: u64,
    all: &mut Seat<J>,
    host: &mut HostKey<J>,
) -> bool
    requires first { first ≡ J.first }
    ensures same { (flusher.new ≡ flusher.old) × (held.new ≡ held.old) × (all.new ≡ all.old) × (host.new ≡ host.old) }
    ensures all { result ≡ true → AreTrue flusher.new.reads → Began J.formatted J.before flusher.old.opened
        → AreAllSlips J.first (next_in_book held.old.book) flusher.old.world.journal all.old host.old }
{
    held.compare_host(host);
    held.audit(all);
    flusher.settle_all(held, all, first)
}
