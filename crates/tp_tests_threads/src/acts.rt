//! What processes, a host and the flusher do over a device in one thread, act by act, each time as it was told.

ghost use Rattle.std.specs.Prelude.{◌≡◌, ◌<◌, ◌≤◌};
ghost use Rattle.tp_tests_threads.specs.Lower.{MAX_STEPS, Names};
ghost use Rattle.tp_tests_threads.specs.Spelt.{IsSpelt};

use crate::desk;
use crate::desk::{Desk, Done, Left, Told};
use crate::opening::{Opening, opening_with};
use crate::small::Network;
use crate::unkind::{Fault, RawUnkind, Unkind};
use std::alloc::Global;
use std::marker::Brand;
use std::sync::Wait;
use tp_book::{Book, Refusal};
use tp_flush::FlushFault;
use tp_model::{Entry, Received, Token};
use tp_node::Why;
use tp_recover::Unopened;
use tp_shared::Naming;
use tp_work::{ConfirmFault, OfferFault, ShownFault, TurnFault};

/// In how many rounds a snapshot has to end.
const ROUNDS: u8 = 4;

/// What is done, and what comes of it. Each number of an entry is one after the bytes that the story offers first.
#[derive(Clone, Copy)]
pub(crate) enum Act {
    /// The process of that number, which waits longest, makes a turn: it takes that many tokens, and a node makes that many steps, and no more for
    /// that reason.
    Turn(u8, u64, Option<(u16, Why)>),
    /// The turn of the process that waits longest is refused.
    Refused(TurnFault),
    /// That many turns of the processes that wait longest, whatever they do.
    Turns(u32),
    /// That many times all processes make a turn, and then the flusher one, which switches the areas that often in all.
    Rounds(u8, u8),
    /// A snapshot begins.
    Begin,
    /// None begins, since one runs.
    Runs,
    /// A snapshot begins, and turns of processes and of the flusher are made until the areas are switched.
    Switch,
    /// The number that the next entry gets.
    Next(u64),
    /// The book's next number is that, and its cut is whole or isn't.
    Book(u64, bool),
    /// The cut is whole: it has that many entries of the node, and of the host beside those that the story offers first. The token is the first of
    /// the line to the node. The last number is that of the entries outside it.
    Whole(u64, u64, Option<Token>, usize),
    /// A turn of the flusher brings all to the device, and switches its areas or doesn't.
    Flush(bool),
    /// A turn of the flusher in which the device fails.
    Fails,
    /// Bytes are handed to the port at a position.
    Offer(u64, &'static [u8]),
    /// They are offered, and that is answered.
    Answers(u64, &'static [u8], Result<u64, OfferFault>),
    /// A byte is handed in at the end of what the port has accepted.
    More(u8),
    /// The port shows just the bytes from a position on, or refuses.
    Shows(u64, Result<&'static [u8], ShownFault>),
    /// Its outputs are confirmed up to a position, with a receipt of that number, which is stored or isn't.
    Confirms(u64, u64, bool),
    /// They are confirmed, with a receipt that isn't stored until the flusher has made a turn.
    Stores(u64),
    /// They aren't shown up to there.
    NotShown(u64),
    /// There is one port.
    OnePort,
}

impl Act {
    /// What is done instead if no snapshot begins.
    fn plain(self) -> Act {
        match self {
            Act::Begin | Act::Runs | Act::Flush(_) | Act::Fails => Act::Flush(false),
            Act::Book(next, _) => Act::Book(next, false),
            Act::Rounds(count, _) => Act::Rounds(count, 0),
            other => other,
        }
    }
}

/// What is done on a network, whose nodes have `spare` spare frames and make `quantum` steps a turn: the bytes `offered` are offered, and then come
/// the acts; without snapshots if it `is_plain`.
#[derive(Clone, Copy)]
pub(crate) struct Story<'a> {
    pub(crate) network: Network,
    pub(crate) spare: usize,
    pub(crate) quantum: u16,
    pub(crate) offered: &'a [u8],
    pub(crate) acts: &'a [Act],
    pub(crate) is_plain: bool,
}

/// The entry of a turn in which a node takes this on its link 0, and makes `count` steps.
pub(crate) fn turn(node: u8, first: Received, count: u16) -> Entry {
    Entry::Turn {
        node,
        takes: [
            first,
            Received::Nothing,
            Received::Nothing,
            Received::Nothing,
        ],
        count,
    }
}

/// Whether a turn is made as it was told.
fn is_turned<J: Naming, R: Wait>(
    rt: &R,
    desk: &mut Desk<J>,
    number: u8,
    takes: u64,
    ran: Option<(u16, Why)>,
) -> bool {
    match desk.turn(rt) {
        Ok(did) => did.process == number && did.takes == takes && did.ran == ran,
        Err(_) => false,
    }
}

/// Whether that many turns are made.
fn are_turned<J: Naming, R: Wait>(rt: &R, desk: &mut Desk<J>, count: u32) -> bool {
    for _ in 0..count {
        if desk.turn_once(rt).is_err() {
            return false;
        }
    }
    true
}

/// Whether a turn of the flusher switches the areas; `None` if it doesn't bring all to the device. Tells whether the device failed.
fn flushed<J: Naming, R: Wait>(rt: &R, alloc: Global, desk: &mut Desk<J>) -> Option<bool> {
    let next = desk.next(rt);
    match desk.flush(rt, alloc) {
        Ok((mark, switched)) if mark == next => Some(switched),
        Err(FlushFault::DeviceFailed) => {
            desk.told.failed = true;
            None
        }
        _ => None,
    }
}

/// Turns of processes, and one of the flusher. Answers whether that switched the areas.
fn round<J: Naming, R: Wait>(
    rt: &R,
    alloc: Global,
    desk: &mut Desk<J>,
    turns: u32,
) -> Option<bool> {
    if are_turned(rt, desk, turns) && desk.look(rt) {
        flushed(rt, alloc, desk)
    } else {
        None
    }
}

/// Whether all of these rounds are made, and that many of them switch the areas.
fn are_rounds<J: Naming, R: Wait>(
    rt: &R,
    alloc: Global,
    desk: &mut Desk<J>,
    count: u8,
    switches: u8,
) -> bool {
    let turns = u32::from(desk.net().shared().nodes()) + 1;
    let mut found = 0u8;
    for _ in 0..count {
        match round(rt, alloc, desk, turns) {
            Some(switched) => found = found.wrapping_add(u8::from(switched)),
            None => return false,
        }
    }
    found == switches
}

/// Whether a snapshot begins and comes to its end.
fn switches<J: Naming, R: Wait>(rt: &R, alloc: Global, desk: &mut Desk<J>) -> bool {
    if desk.begin(rt, alloc).is_err() {
        return false;
    }
    for _ in 0..ROUNDS {
        match round(rt, alloc, desk, 1) {
            Some(true) => return true,
            Some(false) => {}
            None => return false,
        }
    }
    false
}

/// How many entries are outside a whole cut, as a copy of them has; none if the cut isn't whole.
fn outside(alloc: Global, book: &Book) -> Option<usize> {
    let Some(_cut) = book.whole() else {
        return None;
    };
    match book.tail(alloc) {
        Ok(tail) => Some(tail.entries().len()),
        Err(_) => match book.tail(alloc) {
            Ok(tail) => Some(tail.entries().len()),
            Err(_) => None,
        },
    }
}

/// Whether the cut is whole, with `counts` entries of the node and of the host, `token` before the line to the node, and `count`
/// entries outside it.
fn is_cut(
    alloc: Global,
    book: &Book,
    counts: [u64; 2],
    token: Option<Token>,
    count: usize,
) -> bool {
    let Some(cut) = book.whole() else {
        return false;
    };
    cut.counts() == counts.as_slice()
        && cut.lines().count() == 5
        && cut.lines().get(4, 0) == token
        && cut.lines().get(4, 1).is_none()
        && outside(alloc, book) == Some(count)
}

/// The position at which the port's next byte has to be offered: an offer far past it is refused with that position.
fn accepted<J: Naming, R: Wait>(rt: &R, desk: &mut Desk<J>) -> u64 {
    match desk.offer(rt, u64::MAX, b"") {
        Some(Err(OfferFault::Gap(accepted))) => accepted,
        _ => 0,
    }
}

/// Whether an act of a host comes as it was told.
fn hosts<J: Naming, R: Wait>(
    rt: &R,
    alloc: Global,
    desk: &mut Desk<J>,
    act: Act,
    shift: u64,
) -> bool {
    match act {
        Act::Offer(at, bytes) => matches!(desk.offer(rt, at, bytes), Some(Ok(_))),
        Act::Answers(at, bytes, wanted) => desk.offer(rt, at, bytes) == Some(wanted),
        Act::More(byte) => {
            let at = accepted(rt, desk);
            matches!(desk.offer(rt, at, &[byte]), Some(Ok(_)))
        }
        Act::Shows(from, wanted) => desk.shows(rt, alloc, from, wanted),
        Act::Confirms(upto, number, is_stored) => {
            matches!(desk.confirm(rt, upto), Some(Ok((found, told))) if found == number.wrapping_add(shift) && told == is_stored)
        }
        Act::Stores(upto) => desk.stores(rt, alloc, upto),
        Act::NotShown(upto) => {
            matches!(desk.confirm(rt, upto), Some(Err(ConfirmFault::NotShown)))
        }
        Act::OnePort => desk.session(0).is_some() && desk.session(1).is_none(),
        _ => false,
    }
}

/// Whether what an act says of the book is true, or a host's act goes as told.
fn is_book<J: Naming, R: Wait>(
    rt: &R,
    alloc: Global,
    desk: &mut Desk<J>,
    act: Act,
    shift: u64,
) -> bool {
    match act {
        Act::Next(next) => desk.next(rt) == next.wrapping_add(shift),
        Act::Book(next, is_whole) => {
            let held = desk.net().shared().book().lock(rt);
            held.book().next() == next.wrapping_add(shift)
                && held.book().whole().is_some() == is_whole
        }
        Act::Whole(node, host, token, count) => {
            let held = desk.net().shared().book().lock(rt);
            let counts = [node, host.wrapping_add(shift)];
            is_cut(alloc, held.book(), counts, token, count)
        }
        other => hosts(rt, alloc, desk, other, shift),
    }
}

/// Whether an act comes as it was told.
fn does<J: Naming, R: Wait>(
    rt: &R,
    alloc: Global,
    desk: &mut Desk<J>,
    act: Act,
    shift: u64,
) -> bool {
    match act {
        Act::Turn(number, takes, ran) => is_turned(rt, desk, number, takes, ran),
        Act::Refused(wanted) => matches!(desk.turn(rt), Err(fault) if fault == wanted),
        Act::Turns(count) => are_turned(rt, desk, count),
        Act::Rounds(count, wanted) => are_rounds(rt, alloc, desk, count, wanted),
        Act::Begin => desk.begin(rt, alloc).is_ok(),
        Act::Runs => matches!(desk.begin(rt, alloc), Err(Refusal::SnapshotRunning)),
        Act::Switch => switches(rt, alloc, desk),
        Act::Flush(wanted) => flushed(rt, alloc, desk) == Some(wanted),
        Act::Fails => matches!(desk.flush(rt, alloc), Err(FlushFault::DeviceFailed)),
        other => is_book(rt, alloc, desk, other, shift),
    }
}

/// Whether each act comes as it was told.
fn do_all<J: Naming, R: Wait>(
    rt: &R,
    alloc: Global,
    desk: &mut Desk<J>,
    story: &Story<'_>,
) -> bool {
    let shift = story.offered.len() as u64;
    if shift > 0
        && !matches!(desk.offer(rt, 0, story.offered), Some(Ok(number)) if number == shift)
    {
        return false;
    }
    for act in story.acts {
        let act = if story.is_plain { act.plain() } else { *act };
        if !does(rt, alloc, desk, act, shift) || !desk.look(rt) {
            return false;
        }
    }
    true
}

/// Whether a turn of a node is refused, and one of the host takes nothing.
fn is_still<J: Naming, R: Wait>(rt: &R, desk: &mut Desk<J>) -> bool {
    match desk.turn(rt) {
        Ok(did) => did.process == desk.net().shared().nodes() && did.takes == 0,
        Err(fault) => fault == TurnFault::StoreBroken,
    }
}

/// Whether all that would be journalled is refused once the device has failed, and nothing is journalled.
fn refuses_all<J: Naming, R: Wait>(rt: &R, alloc: Global, desk: &mut Desk<J>) -> bool {
    let is_looked = desk.look(rt);
    let count = desk.told.journal.len();
    let at = accepted(rt, desk);
    let begun = desk.begin(rt, alloc);
    is_looked
        && desk.offer(rt, at, b"z") == Some(Err(OfferFault::StoreBroken))
        && matches!(begun, Err(Refusal::StoreBroken | Refusal::SnapshotRunning))
        && matches!(desk.flush(rt, alloc), Err(FlushFault::StoreBroken))
        && is_still(rt, desk)
        && is_still(rt, desk)
        && matches!(desk.offer(rt, at, b""), Some(Ok(_)))
        && desk.look(rt)
        && desk.told.journal.len() == count
}

/// The acts as far as they go. If the device failed, all that would be journalled then is refused.
fn play_all<J: Naming, R: Wait>(
    rt: &R,
    alloc: Global,
    desk: &mut Desk<J>,
    story: &Story<'_>,
) -> Done {
    let are_done = do_all(rt, alloc, desk, story);
    let is_broken = desk.is_broken();
    if is_broken && !refuses_all(rt, alloc, desk) {
        return Done::Wrong;
    }
    if are_done {
        Done::All
    } else if is_broken && desk.told.failed {
        Done::Failed
    } else {
        Done::Wrong
    }
}

/// What a story leaves of a device that opened; `None` if memory runs out before the network is there.
fn play<J: Naming, R: Wait>(
    rt: &R,
    alloc: Global,
    opening: Opening<Unkind>,
    quantum: u16,
    story: &Story<'_>,
    told: Told,
) -> Option<Left>
    requires names { Names J.roll J.first J.start J.node J.mark J.flusher J.host J.sights J.room J.accepted opening.parts }
    requires spelt { IsSpelt opening.opened.value }
    requires quantum { (0 < quantum) × (quantum ≤ MAX_STEPS) }
{
    let Some(mut desk) = desk::begin::<J, R>(rt, alloc, opening, quantum, told) else {
        return None;
    };
    let done = play_all(rt, alloc, &mut desk, story);
    Some(desk.leave(done))
}

/// Plays a story under new names.
fn play_in<R: Wait>(
    rt: &R,
    alloc: Global,
    opening: Opening<Unkind>,
    quantum: u16,
    story: &Story<'_>,
    told: Told,
) -> Option<Left>
    requires spelt { IsSpelt opening.opened.value }
    requires quantum { (0 < quantum) × (quantum ≤ MAX_STEPS) }
{
    play::<Brand, R>(rt, alloc, opening, quantum, story, told)
}

/// What a story leaves of a device with `bytes`, if a call of it may end badly. `told` is what was told of it before. A turn has
/// 1 to 4,096 steps.
pub(crate) fn run<R: Wait>(
    rt: &R,
    alloc: Global,
    story: &Story<'_>,
    bytes: &[u8],
    fault: Option<Fault>,
    told: Told,
) -> Result<Left, Unopened> {
    let quantum = story.quantum;
    let Ok(disk) = RawUnkind::new(alloc, bytes, fault) else {
        return Err(Unopened::Memory);
    };
    if quantum == 0 || quantum > 4096 {
        return Err(Unopened::Memory);
    }
    let opening = opening_with(alloc, disk, story.spare)?;
    match play_in(rt, alloc, opening, quantum, story, told) {
        Some(left) => Ok(left),
        None => Err(Unopened::Memory),
    }
}
