//! Teams of workers and a host, beside the flusher.

ghost use Rattle.std.specs.Prelude.{◌≡◌, [], All, Some, IfSome};

use crate::meanwhile::flush_meanwhile;
use crate::team::{Work, offer_pairs, work_as_team};
use std::alloc::{AllocError, Global};
use std::sync::Wait;
use std::sync::atomic::{AtomicBool, Ordering};
use std::thread::{Threads, join};
use tp_book::Book;
use tp_disk::Disk;
use tp_flush::Flusher;
use tp_shared::{Gate, HostKey, Naming, Seat as Slips};
use tp_work::{Net, Seat, Session};

/// How many pairs of bytes are handed in meanwhile.
const PAIRS: u64 = 40;

/// The first seat, and the others.
pub(crate) fn parted<J: Naming, G: Gate>(
    net: &Net<J, G>,
    seats: Vec<Seat<J>>,
) -> Option<(Seat<J>, Vec<Seat<J>>)>
    requires { All (λ seat. (seat.hand.of ≡ Some net.now.queue) × (seat.slips ≡ [])) seats.items }
    ensures first { IfSome result (λ both. (both.0.hand.of ≡ Some net.now.queue) × (both.0.slips ≡ [])) }
    ensures others { IfSome result (λ both. All (λ seat. (seat.hand.of ≡ Some net.now.queue) × (seat.slips ≡ [])) both.1.items) }
{
    let _net = net;
    let mut seats = seats;
    let first = seats.pop()?;
    Some((first, seats))
}

/// What a team journals, beside a host. Tells then that they have ended. `slips` gets those of the host.
fn work_and_end<J: Naming + Send + Sync, G: Gate + Send + Sync, R: Threads + Wait + Sync>(
    rt: &R,
    net: &Net<J, G>,
    session: &Session<'_, J>,
    turns: u32,
    one: Seat<J>,
    others: Vec<Seat<J>>,
    slips: &mut Slips<J>,
    key: &mut HostKey<J>,
    ended: &AtomicBool,
) -> Result<Work<J>, AllocError>
    requires one { (one.hand.of ≡ Some net.now.queue) × (one.slips ≡ []) }
    requires others { All (λ seat. (seat.hand.of ≡ Some net.now.queue) × (seat.slips ≡ [])) others.items }
{
    let (_, worked) = join(
        rt,
        move || offer_pairs(rt, session, PAIRS, slips, key),
        move || -> Result<Work<J>, AllocError>
            requires { (one.hand.of ≡ Some net.now.queue) × (one.slips ≡ []) × All (λ seat. (seat.hand.of ≡ Some net.now.queue) × (seat.slips ≡ [])) others.items }
        { work_as_team(rt, net, turns, one, others) },
    );
    ended.store(true, Ordering::SeqCst);
    worked
}

/// What a team journals, beside a host, while the flusher makes its turns. Nothing is answered of the team if one of those wasn't done. `slips` gets
/// those of the host.
fn work_beside<
    J: Naming + Send + Sync,
    D: Disk + Drop,
    G: Gate + Send + Sync,
    R: Threads + Wait + Sync,
>(
    rt: &R,
    alloc: Global,
    net: &Net<J, G>,
    turns: u32,
    one: Seat<J>,
    others: Vec<Seat<J>>,
    slips: &mut Slips<J>,
    key: &mut HostKey<J>,
    flusher: &mut Flusher<J, D>,
    gate: &G,
) -> Option<Work<J>>
    requires one { (one.hand.of ≡ Some net.now.queue) × (one.slips ≡ []) }
    requires others { All (λ seat. (seat.hand.of ≡ Some net.now.queue) × (seat.slips ≡ [])) others.items }
{
    let Some(session) = Session::new(net.shared(), 0) else {
        return None;
    };
    let ended = AtomicBool::new(false);
    let (host, told) = (&session, &ended);
    let (worked, is_done) = join(
        rt,
        move || -> Result<Work<J>, AllocError>
            requires { (one.hand.of ≡ Some net.now.queue) × (one.slips ≡ []) × All (λ seat. (seat.hand.of ≡ Some net.now.queue) × (seat.slips ≡ [])) others.items }
        { work_and_end(rt, net, host, turns, one, others, slips, key, told) },
        move || flush_meanwhile(rt, alloc, net.shared(), flusher, gate, told),
    );
    if is_done { worked.ok() } else { None }
}

/// Whether the host has handed in all its pairs, and there are more entries than these, the first with the number `first`.
fn have_journalled(book: &Book, first: u64) -> bool {
    let handed = 2 * PAIRS;
    let is_handed = book.ports() > 0 && book.accepted(0) == handed;
    is_handed && book.next().saturating_sub(first) > handed
}

/// One worker ends after its first turn, and the others make the rest of `turns`, while a host hands in bytes and the flusher makes its turns.
/// Answers whether all were handed in and turns journalled, too, and whether what they journalled is all of the journal, each entry once, whose first
/// has the number `first`. `slips`, which had none, gets all of theirs.
pub fn are_all_beside<
    J: Naming + Send + Sync,
    D: Disk + Drop,
    G: Gate + Send + Sync,
    R: Threads + Wait + Sync,
>(
    rt: &R,
    alloc: Global,
    net: &Net<J, G>,
    seats: Vec<Seat<J>>,
    turns: u32,
    first: u64,
    slips: &mut Slips<J>,
    key: &mut HostKey<J>,
    flusher: &mut Flusher<J, D>,
    gate: &G,
) -> bool
    requires seats { All (λ seat. (seat.hand.of ≡ Some net.now.queue) × (seat.slips ≡ [])) seats.items }
    requires first { first ≡ J.first }
{
    let Some((one, others)) = parted(net, seats) else {
        return false;
    };
    let worked = work_beside(
        rt, alloc, net, turns, one, others, slips, key, flusher, gate,
    );
    let Some(all) = worked else {
        return false;
    };
    let mut held = net.shared().book().lock(rt);
    let are_all = all.are_all(&mut held, slips, first);
    are_all && have_journalled(held.book(), first)
}
