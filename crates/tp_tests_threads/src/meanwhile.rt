//! The flusher's turns while others go on.

ghost use Rattle.std.specs.Prelude.{◌≡◌};

use crate::hold::{LOOKS, comes};
use std::alloc::{AllocError, Global};
use std::sync::Wait;
use std::sync::atomic::{AtomicBool, Ordering};
use std::thread::{Threads, join, yield_now};
use tp_book::Receipt;
use tp_disk::Disk;
use tp_flush::Flusher;
use tp_ready::Pass;
use tp_shared::{Gate, HostKey, Naming, NoGate, Seat, Shared, Sights};
use tp_work::Session;

/// Makes turns of the flusher until the others have ended. Answers whether all of them were done.
pub fn flush_meanwhile<J: Naming, D: Disk, G: Gate, R: Wait>(
    rt: &R,
    alloc: Global,
    shared: &Shared<J>,
    flusher: &mut Flusher<J, D>,
    gate: &G,
    ended: &AtomicBool,
) -> bool {
    let mut is_done = true;
    for _ in 0..LOOKS {
        if ended.load(Ordering::SeqCst) {
            break;
        }
        if flusher.turn_with(rt, alloc, shared, gate).is_err() {
            is_done = false;
        }
        yield_now();
    }
    is_done
}

/// Whether a receipt's entries come to be stored.
fn comes_stored<J: Naming>(session: &Session<'_, J>, receipt: &Receipt, pass: &mut Pass) -> bool
    requires { pass.old.mark ≡ J.mark }
    ensures { pass.new.mark ≡ J.mark }
{
    for _ in 0..LOOKS {
        if session.is_stored(receipt, pass) {
            return true;
        }
        yield_now();
    }
    false
}

/// Whether the pass says of each receipt that its entries are stored.
fn are_stored<J: Naming>(session: &Session<'_, J>, receipts: &[Receipt], pass: &mut Pass) -> bool
    requires { pass.old.mark ≡ J.mark }
    ensures { pass.new.mark ≡ J.mark }
{
    for receipt in receipts {
        if !session.is_stored(receipt, pass) {
            return false;
        }
    }
    true
}

/// Hands in a pair of bytes, and waits until the pass says that it is stored. Answers its receipt then.
fn store_pair<J: Naming, R: Wait>(
    rt: &R,
    session: &Session<'_, J>,
    at: u64,
    seat: &mut Seat<J>,
    key: &mut HostKey<J>,
    pass: &mut Pass,
) -> Option<Receipt>
    requires { pass.old.mark ≡ J.mark }
    ensures { pass.new.mark ≡ J.mark }
{
    let receipt = session
        .offer(rt, at, b"ab", seat, key, &mut Sights::new())
        .ok()?;
    if comes_stored(session, &receipt, pass) {
        Some(receipt)
    } else {
        None
    }
}

/// Stores `count` pairs of bytes, one after another, from the position `from` on. Answers whether the pass says of each that it is
/// stored, and goes on saying so.
fn store_pairs<J: Naming, R: Wait>(
    rt: &R,
    alloc: Global,
    session: &Session<'_, J>,
    from: u64,
    count: u64,
    seat: &mut Seat<J>,
    key: &mut HostKey<J>,
    pass: &mut Pass,
) -> Result<bool, AllocError>
    requires { pass.old.mark ≡ J.mark }
    ensures { pass.new.mark ≡ J.mark }
{
    let mut receipts = Vec::new(alloc);
    for place in 0..count {
        let at = place.wrapping_mul(2).wrapping_add(from);
        let Some(receipt) = store_pair(rt, session, at, seat, key, pass) else {
            return Ok(false);
        };
        receipts.push(receipt)?;
        if !are_stored(session, &receipts, pass) {
            return Ok(false);
        }
    }
    Ok(true)
}

/// Whether a pair of bytes is taken, and isn't stored yet.
fn is_early<J: Naming, R: Wait>(
    rt: &R,
    session: &Session<'_, J>,
    seat: &mut Seat<J>,
    key: &mut HostKey<J>,
    pass: &mut Pass,
) -> bool
    requires { pass.old.mark ≡ J.mark }
    ensures { pass.new.mark ≡ J.mark }
{
    match session.offer(rt, 0, b"ab", seat, key, &mut Sights::new()) {
        Ok(receipt) => !session.is_stored(&receipt, pass),
        Err(_) => false,
    }
}

/// Whether a pass says of each pair of bytes first that it isn't stored while nobody flushes. Once it says that one is stored, it goes on saying so
/// while the flusher makes its turns in a thread of its own.
pub fn stays_stored<J: Naming + Send + Sync, D: Disk + Drop, R: Threads + Wait + Sync>(
    rt: &R,
    alloc: Global,
    shared: &Shared<J>,
    flusher: &mut Flusher<J, D>,
    count: u64,
    seat: &mut Seat<J>,
    key: &mut HostKey<J>,
    mut pass: Pass,
) -> bool
    requires { pass.mark ≡ J.mark }
{
    let Some(session) = Session::new(shared, 0) else {
        return false;
    };
    let is_early = is_early(rt, &session, seat, key, &mut pass);
    let ended = AtomicBool::new(false);
    let (lent, told) = (&session, &ended);
    let (stored, is_done) = join(
        rt,
        move || -> Result<bool, AllocError>
            requires { pass.mark ≡ J.mark }
        {
            let stored = store_pairs(rt, alloc, lent, 2, count, seat, key, &mut pass);
            told.store(true, Ordering::SeqCst);
            stored
        },
        move || flush_meanwhile(rt, alloc, shared, flusher, &NoGate, told),
    );
    is_early && is_done && matches!(stored, Ok(true))
}
