//! Stories of the network of a device, step by step: what each step takes, if Markers then are, and the entries that come of them all.

use crate::deeds::Deed;
use crate::drawn::tasks_device;
use crate::machines::Task;
use crate::network::Net;
use crate::replayed::{Flat, both_of, take_in};
use std::alloc::Global;
use std::test::Fail;
use tp_book::Numbered;
use tp_model::Entry;

/// What is done: a node's turn of at most that many steps, act by act or as one entry; the host's turn; or a snapshot begins.
#[derive(Clone, Copy)]
pub(crate) enum Step {
    Node(u8, u8),
    Whole(u8, u8),
    Host,
    Begin,
}

/// A step; how many tokens it takes, and after it the next number and the lines with a Marker in front, two at most.
type Told = (Step, u64, u64, Option<u16>, Option<u16>);

/// Steps, six at most; none comes after the first `None`.
pub(crate) type Steps = [Option<Told>; 6];

/// Entries, each with its number, four at most; no other comes after the first `None`.
pub(crate) type Entries = [Option<(u64, Entry)>; 4];

/// A network, and what its nodes do; steps, how many spare frames each node has, and all entries that are made by the steps. If the cut is whole
/// then: how many tokens are on its lines, and how many entries it has; the network is trimmed to it.
#[derive(Clone, Copy)]
pub(crate) struct Story<'a> {
    pub(crate) text: &'a [u8],
    pub(crate) tasks: &'a [&'a [Task]],
    pub(crate) steps: Steps,
    pub(crate) spare: usize,
    pub(crate) entries: Entries,
    pub(crate) cut: Option<(usize, u64)>,
}

/// Whether these are the entries.
pub(crate) fn are_numbered(entries: &[Numbered], wanted: &Entries) -> bool {
    for at in 0..wanted.len() {
        let Some((number, entry)) = wanted[at] else {
            return entries.len() == at;
        };
        if at >= entries.len() {
            return false;
        }
        let one = entries[at];
        if one.number != number || one.entry != entry {
            return false;
        }
    }
    entries.len() == wanted.len()
}

/// Makes a step. Answers how many tokens it took; a snapshot that begins takes nothing.
fn does(alloc: Global, net: &mut Net, step: Step) -> Option<u64> {
    let done = match step {
        Step::Node(number, quantum) => net.does(number, Deed::Turn(quantum)),
        Step::Whole(number, quantum) => net.does(number, Deed::Whole(quantum)),
        Step::Host => Some(net.host_turn()),
        Step::Begin => return if net.begin(alloc).is_ok() {
            Some(0)
        } else {
            None
        },
    };
    match done {
        Some(Ok(takes)) => Some(takes),
        _ => None,
    }
}

/// Whether Markers are before these lines, and of no other.
fn are_marked(net: &Net, one: Option<u16>, other: Option<u16>) -> bool {
    for line in 0..9u16 {
        if net.is_marked(line) != (one == Some(line) || other == Some(line)) {
            return false;
        }
    }
    true
}

/// The first step that isn't as it was told.
pub(crate) fn first_other(alloc: Global, net: &mut Net, steps: &Steps) -> Option<usize> {
    for i in 0..steps.len() {
        let Some((step, takes, next, one, other)) = steps[i] else {
            return None;
        };
        let done = does(alloc, net, step) == Some(takes);
        if !done || net.book().next() != next || !are_marked(net, one, other) {
            return Some(i);
        }
    }
    None
}

/// Whether the network goes on from a whole cut, which has that many tokens on its lines and that many entries.
fn is_trimmed(alloc: Global, net: &mut Net, flat: &mut Flat, cut: (usize, u64)) -> bool {
    let next = net.book().next();
    let tokens = take_in(alloc, net, flat);
    tokens == Some(cut.0) && net.book().base() == cut.1 && net.book().next() == next
}

/// Whether a network goes as it was told.
fn goes(alloc: Global, net: &mut Net, flat: &mut Flat, story: &Story) -> bool {
    let begun = net.book().entries().is_empty();
    let done = begun && first_other(alloc, net, &story.steps).is_none();
    if !done || !are_numbered(net.book().entries(), &story.entries) {
        return false;
    }
    match story.cut {
        Some(cut) => is_trimmed(alloc, net, flat, cut),
        None => true,
    }
}

/// Whether the network of a story goes as it was told.
pub(crate) fn plays(alloc: Global, story: &Story) -> Result<bool, Fail> {
    let made = tasks_device(alloc, story.text, story.tasks);
    let (mut net, mut flat) = both_of(alloc, made, story.spare)?;
    let told = goes(alloc, &mut net, &mut flat, story);
    Ok(told)
}
