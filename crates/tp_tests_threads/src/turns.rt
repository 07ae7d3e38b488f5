//! Turns of nodes and of the host, one at a time, at a seat that is lent.

use std::sync::Wait;
use tp_node::Runs;
use tp_shared::{Gate, Naming, NoGate, Seat, Shared, Sights};

/// How many steps a node's turn has.
pub(crate) const QUANTUM: u16 = 9;

/// A turn of the node `number` at a gate, by a thread that keeps `runs` of instructions. Answers how many steps it made; `None` if it was refused, or there is no such
/// node.
pub(crate) fn turn_node<J: Naming, G: Gate, R: Wait>(
    rt: &R,
    shared: &Shared<J>,
    gate: &G,
    seat: &mut Seat<J>,
    runs: &mut Runs,
    number: u8,
) -> Option<u16> {
    if number >= shared.nodes() {
        return None;
    }
    match shared.turn(rt, gate, seat, &mut Sights::new(), runs, number, QUANTUM) {
        Ok(turn) => Some(turn.ran.count()),
        Err(_) => None,
    }
}

/// A turn of each node. Answers whether all were made.
pub(crate) fn turn_nodes<J: Naming, R: Wait>(
    rt: &R,
    shared: &Shared<J>,
    seat: &mut Seat<J>,
    runs: &mut Runs,
) -> bool {
    let mut are_made = true;
    for number in 0..shared.nodes() {
        are_made = turn_node(rt, shared, &NoGate, seat, runs, number).is_some() && are_made;
    }
    are_made
}

/// A turn of the host. Answers whether it was made.
pub(crate) fn turn_host<J: Naming, R: Wait>(
    rt: &R,
    shared: &Shared<J>,
    seat: &mut Seat<J>,
) -> bool {
    shared
        .host_turn(rt, &NoGate, seat, &mut Sights::new())
        .is_ok()
}

/// A turn of each node, and one of the host. Answers whether all were made.
pub(crate) fn turn_all<J: Naming, R: Wait>(
    rt: &R,
    shared: &Shared<J>,
    seat: &mut Seat<J>,
    runs: &mut Runs,
) -> bool {
    let are_made = turn_nodes(rt, shared, seat, runs);
    turn_host(rt, shared, seat) && are_made
}
