//! The least and the most that a network in threads may begin with.

ghost use Rattle.std.specs.Prelude.{◌≡◌, ◌<◌, ◌≤◌, [], All, IfSome, Some};
ghost use Rattle.tp_tests_threads.specs.Lower.{MAX_STEPS, Names, MAX_SEATS};

use crate::opening::opening_of;
use crate::small::{NODES, SIXTEEN, formatted};
use std::alloc::Global;
use std::marker::Brand;
use std::sync::Wait;
use std::test::Fail;
use tp_disk::MemDisk;
use tp_shared::{Naming, NoGate, Parts};
use tp_work::{Net, Seat, Turn};

/// How many steps a turn has, and how many seats there are.
const STARTS: &[(u16, u8)] = &[(1, 1), (4096, 1), (1, 32)];

/// Whether it is the turn of the process `number`: the host's without a run; that of the first node, which sends a letter; and that of another, which
/// loops, of a whole quantum.
fn is_whole(turn: &Turn, number: u8, quantum: u16) -> bool {
    let steps = match &turn.ran {
        Some(ran) => Some(ran.count()),
        None => None,
    };
    let wanted = if number == NODES {
        None
    } else if number == 0 {
        Some(quantum.min(3))
    } else {
        Some(quantum)
    };
    turn.process == number && steps == wanted
}

/// Whether the process `number` makes a whole turn at a seat.
fn is_made<J: Naming, R: Wait>(
    rt: &R,
    net: &Net<J, NoGate>,
    seat: &mut Seat<J>,
    number: u8,
    quantum: u16,
) -> bool
    requires { seat.old.hand.of ≡ Some net.now.queue }
    ensures { seat.new.hand.of ≡ Some net.now.queue }
{
    match net.turn(rt, seat) {
        Ok(turn) => is_whole(&turn, number, quantum),
        Err(_) => false,
    }
}

/// One of the seats that are left.
fn next_seat<J: Naming>(net: &Net<J, NoGate>, seats: &mut Vec<Seat<J>>) -> Option<Seat<J>>
    requires { All (λ seat. (seat.hand.of ≡ Some net.now.queue) × (seat.slips ≡ [])) seats.old.items }
    ensures seat { IfSome result (λ seat. seat.hand.of ≡ Some net.now.queue) }
    ensures others { All (λ seat. (seat.hand.of ≡ Some net.now.queue) × (seat.slips ≡ [])) seats.new.items }
{
    let _net = net;
    seats.pop()
}

/// Whether the two processes whose turn it is at the seat of that number make whole turns there.
fn are_two_made<J: Naming, R: Wait>(
    rt: &R,
    net: &Net<J, NoGate>,
    seat: &mut Seat<J>,
    place: u8,
    quantum: u16,
) -> bool
    requires { seat.old.hand.of ≡ Some net.now.queue }
{
    let first = place.wrapping_mul(2) % (NODES + 1);
    let second = place.wrapping_mul(2).wrapping_add(1) % (NODES + 1);
    is_made(rt, net, seat, first, quantum) && is_made(rt, net, seat, second, quantum)
}

/// Whether there are `count` seats, and two processes make whole turns at each, all of them in their order.
fn are_made<J: Naming, R: Wait>(
    rt: &R,
    net: &Net<J, NoGate>,
    seats: Vec<Seat<J>>,
    count: u8,
    quantum: u16,
) -> bool
    requires { All (λ seat. (seat.hand.of ≡ Some net.now.queue) × (seat.slips ≡ [])) seats.items }
{
    let mut seats = seats;
    for place in 0..count {
        let Some(mut seat) = next_seat(net, &mut seats) else {
            return false;
        };
        if !are_two_made(rt, net, &mut seat, place, quantum) {
            return false;
        }
    }
    seats.is_empty()
}

/// Whether a network begins with `quantum` steps a turn and `seats` seats.
fn starts<J: Naming, R: Wait>(rt: &R, alloc: Global, parts: Parts, quantum: u16, seats: u8) -> bool
    requires names { Names J.roll J.first J.start J.node J.mark J.flusher J.host J.sights J.room J.accepted parts }
    requires quantum { (0 < quantum) × (quantum ≤ MAX_STEPS) }
    requires seats { (0 < seats) × (seats ≤ MAX_SEATS) }
{
    let Ok((net, given, _key, _host)) = Net::<J, NoGate>::start(
        rt, alloc, parts, quantum, seats, NoGate,
    ) else {
        return false;
    };
    are_made(rt, &net, given, seats, quantum)
}

/// Whether such a network begins under new names.
fn starts_in<R: Wait>(rt: &R, alloc: Global, parts: Parts, quantum: u16, seats: u8) -> bool
    requires quantum { (0 < quantum) × (quantum ≤ MAX_STEPS) }
    requires seats { (0 < seats) × (seats ≤ MAX_SEATS) }
{
    starts::<Brand, R>(rt, alloc, parts, quantum, seats)
}

/// Whether the network of a device that is freshly formatted begins so.
fn begins<R: Wait>(rt: &R, alloc: Global, quantum: u16, seats: u8) -> Result<bool, Fail>
    requires quantum { (0 < quantum) × (quantum ≤ MAX_STEPS) }
    requires seats { (0 < seats) × (seats ≤ MAX_SEATS) }
{
    let (parts, _raiser) = opening_of(
        alloc,
        MemDisk::of_bytes(formatted(alloc, &SIXTEEN)?),
    )?.into_parts();
    Ok(starts_in(rt, alloc, parts, quantum, seats))
}

#[test]
fn networks_begin_with_the_least_and_the_most(rt: HostRuntime) -> Result<(), Fail> {
    for (quantum, seats) in STARTS {
        assert!(rt; begins(&rt, rt.alloc(), *quantum, *seats)?);
    }
    Ok(())
}
