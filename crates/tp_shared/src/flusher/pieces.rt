//! Pieces of the image of a node that recorded, while a snapshot runs.

ghost use Rattle.std.specs.Prelude.{◌≡◌, ◌<◌, ◌≤◌, ◌+◌, ◌*◌, ◌&&◌, ℕ, Some, None, IfSome, IsSome, true, false, is_some, length, nat_lt, set, slice_get};
ghost use Rattle.tp_shared.specs.Lower.{PAGE_BYTES, IsFrozenAs, NodeState, world_of};
ghost use Rattle.tp_shared.specs.Agreement.{at_rest};
ghost use Rattle.tp_shared.specs.Frozen.{keeps_pages};
ghost use Rattle.tp_shared.specs.Pieces.{AreFrozenPages, ArePagesOf, IsFrozenHead};
ghost use Rattle.tp_shared.specs.Seals.{KeyShows};
ghost use Rattle.tp_shared.specs.Told.{ToldSince, told_of};

use crate::book::locked::Locked;
use crate::flusher::told::Told;
use crate::naming::Naming;
use crate::nodes::place::Place;
use crate::nodes::shown::Shown;
use crate::soon::lock_soon;
use std::sync::{Mutex, Wait};
use tp_model::limits::{IMAGE_HEAD_BYTES, PAGE_BYTES};
use tp_node::Node;
use tp_ready::twin::{Key, agree, turn};

impl<J: Naming> Locked<J> {
    /// Proves that the node is the one that the book has. It is frozen if pages of it are kept; then it is as the book has it recorded in
    /// the snapshot that runs. It changes nothing.
    pub(crate) fn audit_frozen(&mut self, place: &mut Place, number: u8)
        requires there { number < length J.start.nodes }
        requires named { place.old.key.name ≡ J.node number }
        requires shows { KeyShows place.old }
        ensures same { self.new ≡ self.old }
        ensures node { place.new.node ≡ place.old.node }
        ensures named { place.new.key.name ≡ place.old.key.name }
        ensures shows { KeyShows place.new }
        ensures kept { keeps_pages self.old.frozen number ≡ is_some place.old.node.frozen }
        ensures there { slice_get (world_of self.old.book).live.nodes number ≡ Some place.old.node.live }
        ensures frozen { (node : NodeState) → place.old.node.frozen ≡ Some node → IsFrozenAs (world_of self.old.book) number node }
    {
        self.book.known();
        let here = &mut self.seals[number as usize];
        agree(&mut here.seal, &mut place.key);
    }

    /// Tells the flusher of the book. If the node is frozen, it is as the told network has it recorded. The function changes nothing else.
    pub(crate) fn tell_frozen(&mut self, place: &mut Place, key: &mut Key<Told>, number: u8)
        requires there { number < length J.start.nodes }
        requires named { place.old.key.name ≡ J.node number }
        requires shows { KeyShows place.old }
        requires name { key.old.name ≡ J.flusher }
        ensures same { self.new ≡ self.old }
        ensures node { place.new.node ≡ place.old.node }
        ensures named { place.new.key.name ≡ place.old.key.name }
        ensures shows { KeyShows place.new }
        ensures key { (key.new.name ≡ key.old.name) × (key.new.value ≡ told_of J.before J.first self.old) }
        ensures since { ToldSince key.old.value key.new.value }
        ensures kept { keeps_pages key.new.value.frozen number ≡ is_some place.old.node.frozen }
        ensures there { slice_get key.new.value.net.live.nodes number ≡ Some place.old.node.live }
        ensures frozen { (node : NodeState) → place.old.node.frozen ≡ Some node → IsFrozenAs key.new.value.net number node }
    {
        self.audit_frozen(place, number);
        self.tell(key);
    }

    /// Notes that the node's frozen pages are dropped: its key shows it as it was with them. The book's recorded image stays.
    pub(crate) fn thaw(&mut self, key: &mut Key<Shown>, node: &Node, number: u8)
        requires there { number < length J.start.nodes }
        requires named { key.old.name ≡ J.node number }
        requires shown { key.old.value.state ≡ record (at_rest node.now) { frozen = key.old.value.state.frozen } }
        requires thawed { node.now.frozen ≡ None }
        ensures gone { self.new ≡ record self.old { frozen = set self.old.frozen number false } }
        ensures named { key.new.name ≡ key.old.name }
        ensures shown { key.new.value.state ≡ at_rest node.now }
    {
        let here = &mut self.seals[number as usize];
        agree(&mut here.seal, key);
        let now = Shown::free(node);
        turn(&mut here.seal, key, &now);
        here.frozen = false;
    }

    /// Does what `thaw` does, and tells the flusher of the book, which keeps no page of the node then.
    pub(crate) fn thaw_told(
        &mut self,
        key: &mut Key<Shown>,
        told: &mut Key<Told>,
        node: &Node,
        number: u8,
    )
        requires there { number < length J.start.nodes }
        requires named { key.old.name ≡ J.node number }
        requires shown { key.old.value.state ≡ record (at_rest node.now) { frozen = key.old.value.state.frozen } }
        requires thawed { node.now.frozen ≡ None }
        requires name { told.old.name ≡ J.flusher }
        ensures named { key.new.name ≡ key.old.name }
        ensures shown { key.new.value.state ≡ at_rest node.now }
        ensures name { told.new.name ≡ told.old.name }
        ensures since { ToldSince told.old.value told.new.value }
        ensures gone { keeps_pages told.new.value.frozen number ≡ false }
    {
        self.thaw(key, node, number);
        self.tell(told);
    }
}

// Audits the frozen node and tells the flusher of the book, in a short hold of the book's lock.
fn audit<J: Naming, R: Wait>(
    rt: &R,
    book: &Mutex<Locked<J>>,
    place: &mut Place,
    key: &mut Key<Told>,
    number: u8,
)
    requires there { number < length J.start.nodes }
    requires named { place.old.key.name ≡ J.node number }
    requires shows { KeyShows place.old }
    requires name { key.old.name ≡ J.flusher }
    ensures node { place.new.node ≡ place.old.node }
    ensures named { place.new.key.name ≡ place.old.key.name }
    ensures shows { KeyShows place.new }
    ensures name { key.new.name ≡ key.old.name }
    ensures since { ToldSince key.old.value key.new.value }
    ensures kept { keeps_pages key.new.value.frozen number ≡ is_some place.old.node.frozen }
    ensures there { slice_get key.new.value.net.live.nodes number ≡ Some place.old.node.live }
    ensures frozen { (node : NodeState) → place.old.node.frozen ≡ Some node → IsFrozenAs key.new.value.net number node }
{
    let mut held = lock_soon(rt, book);
    held.tell_frozen(place, key, number);
}

/// Gives the head of the image of a node whose lock is held, as it recorded. False if it isn't frozen.
pub(crate) fn head_of<J: Naming, R: Wait>(
    rt: &R,
    book: &Mutex<Locked<J>>,
    place: &mut Place,
    key: &mut Key<Told>,
    number: u8,
    out: &mut [u8; IMAGE_HEAD_BYTES],
) -> bool
    requires there { number < length J.start.nodes }
    requires named { place.old.key.name ≡ J.node number }
    requires shows { KeyShows place.old }
    requires name { key.old.name ≡ J.flusher }
    ensures named { place.new.key.name ≡ place.old.key.name }
    ensures shows { KeyShows place.new }
    ensures name { key.new.name ≡ key.old.name }
    ensures since { ToldSince key.old.value key.new.value }
    ensures answer { result ≡ is_some place.old.node.frozen }
    ensures kept { keeps_pages key.new.value.frozen number ≡ is_some place.old.node.frozen }
    ensures head { result ≡ true → IsFrozenHead key.new.value.net number out.new }
    ensures none { result ≡ false → out.new ≡ out.old }
{
    audit(rt, book, place, key, number);
    if !place.node.is_frozen() {
        return false;
    }
    place.node.frozen_head(out);
    true
}

// Copies pages of a frozen node, from `first` on, until its last page or the end of `out`. Answers how many.
fn copy_pages(node: &Node, first: usize, out: &mut [[u8; PAGE_BYTES]]) -> usize
    requires frozen { IsSome node.now.frozen }
    ensures few { result ≤ length out.old }
    ensures count { (k : ℕ) → k < length out.old → nat_lt k result ≡ nat_lt (PAGE_BYTES * (first + k)) (length node.now.live.memory) }
    ensures pages { IfSome node.now.frozen (λ kept. ArePagesOf kept.memory first result out.new) }
{
    let count = out.len().min(node.pages().saturating_sub(first));
    for k in 0..count {
        node.frozen_page(first + k, &mut out[k]);
    }
    count
}

/// Copies pages of it, from `first` on, until its last page or the end of `out`. Answers how many: 0 if it isn't frozen. One short hold of
/// the book's lock shows that all of them are pages of the frozen node.
pub(crate) fn pages_of<J: Naming, R: Wait>(
    rt: &R,
    book: &Mutex<Locked<J>>,
    place: &mut Place,
    key: &mut Key<Told>,
    number: u8,
    first: usize,
    out: &mut [[u8; PAGE_BYTES]],
) -> usize
    requires there { number < length J.start.nodes }
    requires named { place.old.key.name ≡ J.node number }
    requires shows { KeyShows place.old }
    requires name { key.old.name ≡ J.flusher }
    ensures named { place.new.key.name ≡ place.old.key.name }
    ensures shows { KeyShows place.new }
    ensures name { key.new.name ≡ key.old.name }
    ensures since { ToldSince key.old.value key.new.value }
    ensures few { result ≤ length out.old }
    ensures answer { (k : ℕ) → k < length out.old → nat_lt k result ≡ (is_some place.old.node.frozen && nat_lt (PAGE_BYTES * (first + k)) (length place.old.node.live.memory)) }
    ensures kept { keeps_pages key.new.value.frozen number ≡ is_some place.old.node.frozen }
    ensures there { slice_get key.new.value.net.live.nodes number ≡ Some place.old.node.live }
    ensures pages { AreFrozenPages key.new.value.net number first result out.new }
{
    audit(rt, book, place, key, number);
    if !place.node.is_frozen() {
        return 0;
    }
    copy_pages(&place.node, first, out)
}

/// Drops the frozen pages of a node whose lock is held, and then says so under the book's lock. The flusher is told of the book as it is
/// then.
pub(crate) fn drop_of<J: Naming, R: Wait>(
    rt: &R,
    book: &Mutex<Locked<J>>,
    place: &mut Place,
    told: &mut Key<Told>,
    number: u8,
)
    requires there { number < length J.start.nodes }
    requires named { place.old.key.name ≡ J.node number }
    requires shows { KeyShows place.old }
    requires name { told.old.name ≡ J.flusher }
    ensures live { place.new.node.live ≡ place.old.node.live }
    ensures frozen { place.new.node.frozen ≡ None }
    ensures named { place.new.key.name ≡ place.old.key.name }
    ensures shows { KeyShows place.new }
    ensures name { told.new.name ≡ told.old.name }
    ensures since { ToldSince told.old.value told.new.value }
    ensures gone { keeps_pages told.new.value.frozen number ≡ false }
{
    let Place { node, key } = place;
    node.drop_frozen();
    let mut held = lock_soon(rt, book);
    held.thaw_told(key, told, node, number);
}
