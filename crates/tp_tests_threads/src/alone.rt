//! A process has one worker at most: nobody is given its number before its turn has ended.

ghost use Rattle.std.specs.Prelude.{◌≡◌, ◌<◌, ◌≤◌, [], Some};
ghost use Rattle.tp_shared.specs.Named.{Names};
ghost use Rattle.tp_tests_threads.specs.Spelt.{IsSpelt};

use crate::hold::Hold;
use crate::opening::{Opening, begin, opening_of};
use crate::small::{NODES, SIXTEEN, formatted};
use crate::team::make_turns;
use crate::teams::parted;
use std::alloc::Global;
use std::marker::Brand;
use std::sync::Wait;
use std::sync::atomic::{AtomicU32, Ordering};
use std::test::Fail;
use std::thread::{Threads, join};
use tp_disk::MemDisk;
use tp_shared::gate::{NUMBER_TAKEN, RUN_DONE};
use tp_shared::{Gate, Naming};
use tp_work::{Net, Seat};

/// The process that is held, in the second turn of a worker.
const HELD: u8 = 1;

/// Another one.
const FREE: u8 = 0;

/// How many turns the other worker makes meanwhile: one of each other process, and one more.
const TURNS: u32 = NODES as u32 + 1;

/// Holds a process after its run, until it is released or its number is taken again; and how often its number was taken.
#[derive(Drop)]
struct Alone {
    hold: Hold,
    taken: AtomicU32,
}

/// The gate in the hands of two workers.
#[derive(Drop)]
struct Lent<'a> {
    alone: &'a Alone,
}

impl<'a> Gate for Lent<'a> {
    fn at(&self, process: u8, point: u8) {
        let is_taken = process == HELD && point == NUMBER_TAKEN;
        if is_taken && self.alone.taken.fetch_add(1, Ordering::SeqCst) > 0 {
            self.alone.hold.open_as(FREE);
        }
        self.alone.hold.at(process, point);
    }
}

/// Turns of all others, once a process is held, which is released then. Answers whether it was there, and all of them were made.
fn turn_others<J: Naming, R: Wait>(
    rt: &R,
    net: &Net<J, Lent<'_>>,
    seat: Seat<J>,
    hold: &Hold,
) -> bool
    requires { (seat.hand.of ≡ Some net.now.queue) × (seat.slips ≡ []) }
{
    let came = hold.wait();
    let drawn = AtomicU32::new(0);
    let work = make_turns(rt, net, &drawn, TURNS, TURNS, seat);
    hold.open_as(FREE);
    came && !work.is_refused()
}

/// Whether a worker makes two turns, and another one as many as go round meanwhile.
fn are_made<J: Naming + Send + Sync, R: Threads + Wait + Sync>(
    rt: &R,
    net: &Net<J, Lent<'_>>,
    one: Seat<J>,
    other: Seat<J>,
    hold: &Hold,
) -> bool
    requires one { (one.hand.of ≡ Some net.now.queue) × (one.slips ≡ []) }
    requires other { (other.hand.of ≡ Some net.now.queue) × (other.slips ≡ []) }
{
    let drawn = AtomicU32::new(0);
    let lent = &drawn;
    let (is_made, are_made) = join(
        rt,
        move || -> bool
            requires { (one.hand.of ≡ Some net.now.queue) × (one.slips ≡ []) }
        { !make_turns(rt, net, lent, 2, 2, one).is_refused() },
        move || -> bool
            requires { (other.hand.of ≡ Some net.now.queue) × (other.slips ≡ []) }
        { turn_others(rt, net, other, hold) },
    );
    is_made && are_made
}

/// Whether the number of a process is taken once while one worker makes its turn, and another one those of all others.
fn is_taken_once<J: Naming + Send + Sync, R: Threads + Wait + Sync>(
    rt: &R,
    alloc: Global,
    opening: Opening<MemDisk>,
) -> Result<bool, Fail>
    requires spelt { IsSpelt opening.opened.value }
    requires names { Names J.roll J.first J.start J.node J.mark J.flusher J.host J.sights J.room J.accepted opening.parts }
{
    let alone = Alone {
        hold: Hold::new(HELD, RUN_DONE),
        taken: AtomicU32::new(0),
    };
    let (net, seats, _flusher, _pass, _key) = begin::<J, MemDisk, Lent<'_>, R>(
        rt,
        alloc,
        opening,
        2,
        Lent { alone: &alone },
    )?;
    let Some((one, others)) = parted(&net, seats) else {
        return Ok(false);
    };
    let Some((other, _)) = parted(&net, others) else {
        return Ok(false);
    };
    let are_made = are_made(rt, &net, one, other, &alone.hold);
    Ok(are_made && alone.hold.was_let_go() && alone.taken.load(Ordering::SeqCst) == 1)
}

/// Plays it under new names.
fn plays<R: Threads + Wait + Sync>(
    rt: &R,
    alloc: Global,
    opening: Opening<MemDisk>,
) -> Result<bool, Fail>
    requires { IsSpelt opening.opened.value }
{
    is_taken_once::<Brand, R>(rt, alloc, opening)
}

#[test]
fn a_number_is_taken_once_in_a_turn(rt: HostRuntime) -> Result<(), Fail> {
    let alloc = rt.alloc();
    let opening = opening_of(alloc, MemDisk::of_bytes(formatted(alloc, &SIXTEEN)?))?;
    assert!(rt; plays(&rt, alloc, opening)?);
    Ok(())
}
