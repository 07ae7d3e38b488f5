//! Nodes that have stopped.

ghost use Rattle.std.specs.Prelude.{◌≡◌, false, length};
ghost use Rattle.tp_stream.specs.Outcomes.{HasTakenAll, is_stuck, stopped_of};
ghost use Rattle.tp_stream.specs.Told.{ToldLater};

use std::sync::Wait;
use tp_book::Book;
use tp_model::limits::MAX_HELD;
use tp_node::Standing;
use tp_shared::{Naming, Shared};
use tp_stream_files::{Ending, Listener, Stopped};

/// Whether a node has halted.
pub(crate) fn find_halted<J: Naming, R: Wait>(rt: &R, shared: &Shared<J>) -> bool {
    for node in 0..shared.nodes() {
        if let Standing::Halted { .. } = shared.standing(rt, node) {
            return true;
        }
    }
    false
}

/// Whether a port has input that no node has taken.
fn has_pending(book: &Book) -> bool
    ensures none { result ≡ false → HasTakenAll book.now }
    ensures exact { HasTakenAll book.now → result ≡ false }
{
    book.known();
    for port in 0..book.ports() {
        if book.room(port as u8) < MAX_HELD {
            return true;
        }
    }
    false
}

/// Takes the book's lock, and finds whether a port has such input.
fn find_pending<J: Naming, R: Wait>(rt: &R, shared: &Shared<J>) -> bool {
    let held = shared.book().lock(rt);
    has_pending(held.book())
}

/// Whether a stream that ended for this reason left input that no node takes any more. `rests` says whether nothing was left to do, and `pending`
/// whether a port has input that no node has taken. A stream may also end because whoever read its output has gone; then a node might have gone on,
/// so the input isn't stuck.
fn is_stuck(why: Ending, rests: bool, pending: bool) -> bool
    ensures { result ≡ is_stuck why rests pending }
{
    match why {
        Ending::Quiet | Ending::Gone => rests && pending,
        Ending::Turns | Ending::Halted | Ending::Stopped => false,
    }
}

/// Gives how a node has stopped; `None` if it hasn't. A node that waits has stopped if there is input that no node takes any more.
fn stopped(standing: Standing, is_stuck: bool) -> Option<Stopped>
    ensures { result ≡ stopped_of standing is_stuck }
{
    match standing {
        Standing::Halted { fault, at } => Some(Stopped::Halted { fault, at }),
        Standing::Waits if is_stuck => Some(Stopped::Waits),
        Standing::Waits | Standing::Free => None,
    }
}

/// Tells the listener of each node that has stopped, in order, if the stream ended for this reason. `rests` says whether nothing was left to do.
pub(crate) fn tell_stopped<J: Naming, L: Listener, R: Wait>(
    rt: &R,
    shared: &Shared<J>,
    why: Ending,
    rests: bool,
    listener: &mut L,
)
    ensures { ToldLater (length J.start.nodes) (L.told listener.old) (L.told listener.new) }
{
    let is_stuck = is_stuck(why, rests, find_pending(rt, shared));
    for node in 0..shared.nodes() {
        if let Some(how) = stopped(shared.standing(rt, node), is_stuck) {
            listener.stopped(node, how);
        }
    }
}
