//! Turns of two nodes really overlap: one is held after its run, and others go on.

use crate::hold::Hold;
use crate::scenes::{Scene, plays};
use crate::small::SIXTEEN;
use crate::turns::{QUANTUM, turn_node};
use std::alloc::{AllocError, Global};
use std::sync::Wait;
use std::test::Fail;
use std::thread::{Threads, join, map_vec};
use tp_book::Numbered;
use tp_model::Entry;
use tp_node::Runs;
use tp_shared::gate::RUN_DONE;
use tp_shared::{Naming, NoGate, Seat as Slips, Shared};
use tp_work::Seat;

/// The node that is held. None of `OTHERS` is under its lock.
const HELD: u8 = 1;

const OTHERS: [u8; 14] = [2, 3, 4, 5, 6, 7, 8, 9, 10, 11, 12, 13, 14, 15];

/// A process that no gate holds here.
const FREE: u8 = 0;

/// How many workers make turns of other nodes.
const TEAMS: &[u8] = &[1, 3, 15];

/// A worker's seat, what its thread keeps of instructions, and the node that makes a turn there.
#[derive(Drop)]
struct Other<J: Naming> {
    number: u8,
    seat: Seat<J>,
    runs: Runs,
}

/// Whether a node makes a turn at a worker's seat.
fn is_turned<J: Naming, R: Wait>(rt: &R, shared: &Shared<J>, other: Other<J>) -> bool {
    let Other {
        number,
        seat,
        mut runs,
    } = other;
    turn_node(
        rt,
        shared,
        &NoGate,
        &mut seat.into_slips(),
        &mut runs,
        number,
    )
    .is_some()
}

/// Turns of other nodes, each in a thread of its own, while one is held, which is released then. Answers whether it was there, and all
/// of them were made.
fn turn_others<J: Naming + Send + Sync, R: Threads + Wait + Sync>(
    rt: &R,
    others: Vec<Other<J>>,
    shared: &Shared<J>,
    hold: &Hold,
) -> bool {
    let came = hold.wait();
    let made = map_vec(rt, others, &|other| is_turned(rt, shared, other));
    hold.open_as(FREE);
    came && matches!(made, Ok(all) if !all.as_slice().contains(&false))
}

/// Each worker's seat, as it makes a turn there.
fn others_of<J: Naming>(alloc: Global, seats: Vec<Seat<J>>) -> Result<Vec<Other<J>>, AllocError> {
    let mut others = Vec::new(alloc);
    for seat in seats {
        let number = OTHERS[others.len() % OTHERS.len()];
        let runs = Runs::new(alloc)?;
        others.push(Other { number, seat, runs })?;
    }
    Ok(others)
}

/// How many of `entries` are runs.
fn runs_of(entries: &[Numbered]) -> usize {
    let mut runs = 0usize;
    for numbered in entries {
        if matches!(numbered.entry, Entry::Run { .. }) {
            runs = runs.saturating_add(1);
        }
    }
    runs
}

/// Whether the journal has `count` runs, and that of the node which was held is the last one.
fn is_last<J: Naming, R: Wait>(rt: &R, shared: &Shared<J>, count: usize) -> bool {
    let held = shared.book().lock(rt);
    let entries = held.book().entries();
    let last = Entry::Run {
        node: HELD,
        count: QUANTUM,
    };
    runs_of(entries) == count && matches!(entries.last(), Some(found) if found.entry == last)
}

/// A turn of another node at each of `seats` while one is held, whose slips `slips` gets. Answers whether all were made, and the run of the
/// one that was held is the last in the journal.
pub(crate) fn overlap<J: Naming + Send + Sync, R: Threads + Wait + Sync>(
    rt: &R,
    alloc: Global,
    shared: &Shared<J>,
    slips: &mut Slips<J>,
    runs: &mut Runs,
    seats: Vec<Seat<J>>,
) -> bool {
    let Ok(others) = others_of(alloc, seats) else {
        return false;
    };
    let count = others.len().saturating_add(1);
    let hold = Hold::new(HELD, RUN_DONE);
    let gate = &hold;
    let (is_made, are_made) = join(
        rt,
        move || turn_node(rt, shared, gate, slips, runs, HELD).is_some(),
        move || turn_others(rt, others, shared, gate),
    );
    is_made && are_made && hold.was_let_go() && is_last(rt, shared, count)
}

#[test]
fn others_make_turns_while_one_node_is_held(rt: HostRuntime) -> Result<(), Fail> {
    for count in TEAMS {
        assert!(rt; plays(&rt, rt.alloc(), &SIXTEEN, *count, Scene::Overlap)?);
    }
    Ok(())
}
