//! The flusher beside turns of nodes: either goes on while the other is held.

use crate::flushing::flush;
use crate::hold::Hold;
use crate::plain::next_of;
use crate::turns::{turn_host, turn_node, turn_nodes};
use std::alloc::Global;
use std::sync::Wait;
use std::thread::{Threads, join};
use tp_disk::Disk;
use tp_flush::{FLUSHER, Flusher};
use tp_node::Runs;
use tp_shared::gate::{BACKLOG_COPIED, PAGE_COPIED, RUN_DONE};
use tp_shared::{Naming, NoGate, Seat, Shared};

/// Who is held, until the other one made its turn.
#[derive(Clone, Copy)]
pub(crate) enum Held {
    /// A node after its run, beside a turn of the flusher.
    Node,
    /// The flusher after its copy, beside a run, which that turn doesn't store, but the next one: the mark is then at most the run's number, and
    /// later above it.
    Copy,
    /// The flusher after the first page of a node that has recorded, beside a run of that node, which writes its second page. That turn of
    /// the flusher stores only what was journalled before the run.
    Page,
    /// The node that sends a letter after its run, beside a turn of the flusher that switches the areas.
    Switch,
}

impl Held {
    /// The gate that holds it, and the node.
    pub(crate) fn gate(self) -> (Hold, u8) {
        match self {
            Held::Node => (Hold::new(1, RUN_DONE), 1),
            Held::Copy => (Hold::new(FLUSHER, BACKLOG_COPIED), 1),
            Held::Page => (Hold::new(FLUSHER, PAGE_COPIED), 1),
            Held::Switch => (Hold::new(0, RUN_DONE), 0),
        }
    }
}

/// Whether the node `number` makes a run, a snapshot begins, and it records in its next run.
fn is_recorded<J: Naming, D: Disk, R: Wait>(
    rt: &R,
    alloc: Global,
    shared: &Shared<J>,
    flusher: &Flusher<J, D>,
    seat: &mut Seat<J>,
    runs: &mut Runs,
    number: u8,
) -> bool {
    let is_run = turn_node(rt, shared, &NoGate, seat, runs, number).unwrap_or(0) > 0;
    let is_begun = flusher.snapshot(rt, alloc, shared).answer().is_ok();
    is_run && is_begun && turn_node(rt, shared, &NoGate, seat, runs, number).unwrap_or(0) > 0
}

/// The node `number` sends its letter, and a snapshot begins, in which all nodes record. The flusher copies their images, and doesn't
/// switch, since the letter is on its line, and a Marker after it. Then the host takes both, and nothing is wanting any more.
fn comes_whole<J: Naming, D: Disk, R: Wait>(
    rt: &R,
    alloc: Global,
    shared: &Shared<J>,
    flusher: &mut Flusher<J, D>,
    seat: &mut Seat<J>,
    runs: &mut Runs,
    number: u8,
) -> bool {
    let is_sent = turn_node(rt, shared, &NoGate, seat, runs, number).is_some();
    let is_begun = flusher.snapshot(rt, alloc, shared).answer().is_ok();
    let are_recorded = turn_nodes(rt, shared, seat, runs);
    let is_copied = matches!(flush(rt, alloc, shared, flusher), Ok((_, false)));
    let is_taken = turn_host(rt, shared, seat);
    is_sent && is_begun && are_recorded && is_copied && is_taken
}

/// What comes first, and whether it does.
fn is_ready<J: Naming, D: Disk, R: Wait>(
    rt: &R,
    alloc: Global,
    held: Held,
    shared: &Shared<J>,
    flusher: &mut Flusher<J, D>,
    seat: &mut Seat<J>,
    runs: &mut Runs,
    number: u8,
) -> bool {
    match held {
        Held::Node | Held::Copy => true,
        Held::Page => is_recorded(rt, alloc, shared, flusher, seat, runs, number),
        Held::Switch => comes_whole(rt, alloc, shared, flusher, seat, runs, number),
    }
}

/// A turn of the node `number`: how many steps it made, and the number of the next entry then; none if the other one didn't come.
fn turn_beside<J: Naming, R: Wait>(
    rt: &R,
    shared: &Shared<J>,
    gate: &Hold,
    seat: &mut Seat<J>,
    runs: &mut Runs,
    number: u8,
) -> Option<(u16, u64)> {
    let came = gate.wait_as(number);
    let steps = turn_node(rt, shared, gate, seat, runs, number);
    let next = next_of(rt, shared);
    gate.open_as(number);
    match steps {
        Some(steps) if came => Some((steps, next)),
        _ => None,
    }
}

/// A turn of the flusher: the mark, and whether it switched the areas; none if the other one didn't come.
fn flush_beside<J: Naming, D: Disk, R: Wait>(
    rt: &R,
    alloc: Global,
    shared: &Shared<J>,
    flusher: &mut Flusher<J, D>,
    gate: &Hold,
) -> Option<(u64, bool)> {
    let came = gate.wait_as(FLUSHER);
    let done = flusher.turn_with(rt, alloc, shared, gate);
    gate.open_as(FLUSHER);
    match done {
        Ok(flushed) if came => Some((flushed.mark, flushed.switched)),
        _ => None,
    }
}

/// Whether both turns are as they should be.
fn are_so(held: Held, turned: Option<(u16, u64)>, flushed: Option<(u64, bool)>) -> bool {
    match (turned, flushed) {
        (Some((steps, next)), Some((mark, switched))) => match held {
            Held::Node => steps > 0,
            Held::Copy | Held::Page => steps > 0 && mark < next,
            Held::Switch => switched,
        },
        _ => false,
    }
}

/// Whether a turn of the node `number` and one of the flusher go as they should beside each other, while a gate holds one of them. `seat`
/// gets the slips of that turn, and of those that come first.
pub(crate) fn go_on<J: Naming + Send + Sync, D: Disk + Drop, R: Threads + Wait + Sync>(
    rt: &R,
    alloc: Global,
    held: Held,
    shared: &Shared<J>,
    flusher: &mut Flusher<J, D>,
    seat: &mut Seat<J>,
    runs: &mut Runs,
    number: u8,
    gate: &Hold,
) -> bool {
    let is_ready = is_ready(rt, alloc, held, shared, flusher, seat, runs, number);
    let (turned, flushed) = join(
        rt,
        move || turn_beside(rt, shared, gate, seat, runs, number),
        move || flush_beside(rt, alloc, shared, flusher, gate),
    );
    is_ready && are_so(held, turned, flushed) && gate.was_let_go()
}

/// Whether the next turn of the flusher stores all.
pub(crate) fn stores_all<J: Naming, D: Disk, R: Wait>(
    rt: &R,
    alloc: Global,
    shared: &Shared<J>,
    flusher: &mut Flusher<J, D>,
) -> bool {
    let next = next_of(rt, shared);
    matches!(flush(rt, alloc, shared, flusher), Ok((mark, _)) if mark >= next)
}
