//! Since which entry processes wait at the links of nodes. In one pass over the journal the nodes of the checkpoint make their entries again.

ghost use Rattle.std.specs.Prelude.{◌≡◌, ◌<◌, None, IfOk, map, length};
ghost use Rattle.tp_views.specs.Lower.{AllByRecursion, AreAllThawed, live_node, IsNodeOfBytes};
ghost use Rattle.tp_views.specs.EntriesTraced.{after_entry, ran, took_all};
ghost use Rattle.tp_views.specs.Since.{all_before, all_since, all_stay, at_end, at_link, entry_since, found_after, four_since, four_stay, in_the_end, is_deed, is_same, known_since, nodes_after, nodes_since, number_after, one_since, since_at, stays, waiter_of, walked};

use crate::text::journal::process_of;
use crate::trace::tracing_entries::{steps_in, tokens_in};
use crate::waits::scene::NodeSeen;
use crate::waits::why::waiting_at;
use arrayvec::ArrayVec;
use std::alloc::{AllocError, Global};
use tp_book::Numbered;
use tp_model::{Token, WireEnd};
use tp_node::{Deed, Node, Runs, Waiter};
use tp_trace::trace_take;

/// Since when a process waits.
#[derive(Clone, Copy)]
pub enum Since {
    /// This entry left it in its wait.
    By(u64),
    /// It waited already before this entry, the first one after the checkpoint.
    Before(u64),
}

/// Since when processes wait at the output ends, or at the input ends, of links 0 to 3.
#[derive(Clone, Copy)]
pub struct FourSince {
    pub zero: Since,
    pub one: Since,
    pub two: Since,
    pub three: Since,
}

/// The last entry that a node made, if it made one, and since when processes wait at its links.
#[derive(Clone, Copy)]
pub struct NodeSince {
    pub last: Option<u64>,
    pub outputs: FourSince,
    pub inputs: FourSince,
}

/// Whether the processes that wait in the end at the output ends, or at the input ends, of links 0 to 3 wait there at another moment.
#[derive(Clone, Copy)]
pub(crate) struct FourStay {
    zero: bool,
    one: bool,
    two: bool,
    three: bool,
}

/// Whether the processes that wait in the end at a node's links wait there at another moment.
#[derive(Clone, Copy)]
pub(crate) struct Stay {
    outputs: FourStay,
    inputs: FourStay,
}

/// Who waits at an end of a node's link.
fn waiter_of(node: &Node, sends: bool, link: u8) -> Option<Waiter>
    requires { link < 4 }
    ensures { result ≡ waiter_of sends node.now.live link }
{
    if sends {
        node.sender(link)
    } else {
        node.listener(link)
    }
}

/// Who waits in the end at an end of a link of the node with this number.
fn in_the_end(seen: &[NodeSeen], number: usize, sends: bool, link: u8) -> Option<Waiter>
    ensures { result ≡ in_the_end seen.now number sends link }
{
    match seen.get(number) {
        Some(own) => waiting_at(own, sends, link),
        None => None,
    }
}

/// Whether two deeds are equal.
fn is_deed(one: Deed, other: Deed) -> bool
    ensures { result ≡ is_deed one other }
{
    match one {
        Deed::Sends => matches!(other, Deed::Sends),
        Deed::Inputs => matches!(other, Deed::Inputs),
        Deed::Chooses => matches!(other, Deed::Chooses),
    }
}

/// Whether one process waits at an end at two moments, with one deed.
fn is_same(one: Option<Waiter>, other: Option<Waiter>) -> bool
    ensures { result ≡ is_same one other }
{
    match (one, other) {
        (Some(one), Some(other)) => {
            one.process == other.process && is_deed(one.deed, other.deed)
        }
        _ => false,
    }
}

/// Whether the process that waits at an end in the end waits there now.
fn stays(seen: &[NodeSeen], number: usize, node: &Node, sends: bool, link: u8) -> bool
    requires { link < 4 }
    ensures { result ≡ stays seen.now number node.now.live sends link }
{
    let last = in_the_end(seen, number, sends, link);
    match last {
        Some(_) => is_same(last, waiter_of(node, sends, link)),
        None => false,
    }
}

fn four_stay(seen: &[NodeSeen], number: usize, node: &Node, sends: bool) -> FourStay
    ensures { result ≡ four_stay seen.now number node.now.live sends }
{
    FourStay {
        zero: stays(seen, number, node, sends, 0),
        one: stays(seen, number, node, sends, 1),
        two: stays(seen, number, node, sends, 2),
        three: stays(seen, number, node, sends, 3),
    }
}

fn all_stay(seen: &[NodeSeen], number: usize, node: &Node) -> Stay
    ensures { result ≡ all_stay seen.now number node.now.live }
{
    Stay {
        outputs: four_stay(seen, number, node, true),
        inputs: four_stay(seen, number, node, false),
    }
}

/// Since when a process waits, by an entry of its node. It is as it was if the process waits once the entry's tokens have come in, and after its steps.
fn one_since(entry: u64, between: bool, after: bool, since: Since) -> Since
    ensures { result ≡ one_since entry between after since }
{
    if between && after {
        since
    } else {
        Since::By(entry)
    }
}

fn four_since(entry: u64, between: FourStay, after: FourStay, since: FourSince) -> FourSince
    ensures { result ≡ four_since entry between after since }
{
    FourSince {
        zero: one_since(entry, between.zero, after.zero, since.zero),
        one: one_since(entry, between.one, after.one, since.one),
        two: one_since(entry, between.two, after.two, since.two),
        three: one_since(entry, between.three, after.three, since.three),
    }
}

fn all_since(entry: u64, between: Stay, after: Stay, since: NodeSince) -> NodeSince
    ensures { result ≡ all_since entry between after since }
{
    NodeSince {
        last: Some(entry),
        outputs: four_since(entry, between.outputs, after.outputs, since.outputs),
        inputs: four_since(entry, between.inputs, after.inputs, since.inputs),
    }
}

/// Has a node take tokens, those that it can at most.
fn take_each(node: &mut Node, tokens: &[(u8, Token)])
    requires thawed { node.old.frozen ≡ None }
    requires bytes { IsNodeOfBytes node.old.live }
    ensures node { node.new.live ≡ took_all tokens.now node.old.live }
    ensures thawed { node.new.frozen ≡ None }
    ensures bytes { IsNodeOfBytes node.new.live }
{
    for one in tokens {
        if trace_take(node, one.0, one.1).is_none() {
            return;
        }
    }
}

/// Has a node make steps, as many as it has at most.
fn make_steps(node: &mut Node, runs: &mut Runs, steps: u16)
    requires thawed { node.old.frozen ≡ None }
    requires bytes { IsNodeOfBytes node.old.live }
    ensures node { node.new.live ≡ ran steps node.old.live }
    ensures thawed { node.new.frozen ≡ None }
    ensures bytes { IsNodeOfBytes node.new.live }
{
    let mut sent = ArrayVec::new();
    let _ran = node.run(runs, steps, &mut sent);
}

/// Has the node with this number do what an entry of it says. Answers since when processes wait at its links, if it was since `since` before.
fn entry_since(
    wires: &[Option<WireEnd>],
    seen: &[NodeSeen],
    number: usize,
    kept: &Numbered,
    node: &mut Node,
    runs: &mut Runs,
    since: NodeSince,
) -> NodeSince
    requires thawed { node.old.frozen ≡ None }
    requires bytes { IsNodeOfBytes node.old.live }
    ensures since { result ≡ entry_since wires.now seen.now number kept.now node.old.live since }
    ensures node { node.new.live ≡ after_entry wires.now kept.now.0 node.old.live }
    ensures thawed { node.new.frozen ≡ None }
    ensures bytes { IsNodeOfBytes node.new.live }
{
    take_each(node, tokens_in(wires, &kept.entry).as_slice());
    let between = all_stay(seen, number, node);
    make_steps(node, runs, steps_in(&kept.entry));
    all_since(kept.number, between, all_stay(seen, number, node), since)
}

/// What is known of a node before its first entry: that what waits has waited since before the entry `first`.
fn all_before(first: u64) -> NodeSince
    ensures { result ≡ all_before first }
{
    let since = Since::Before(first);
    let four = FourSince {
        zero: since,
        one: since,
        two: since,
        three: since,
    };
    NodeSince {
        last: None,
        outputs: four,
        inputs: four,
    }
}

/// Has the node of an entry do what it says, if it is one of these nodes, and notes since when processes wait at its links then.
fn walk_entry(
    wires: &[Option<WireEnd>],
    seen: &[NodeSeen],
    kept: &Numbered,
    nodes: &mut Vec<Node>,
    found: &mut Vec<NodeSince>,
    runs: &mut Runs,
)
    requires alike { length found.old.items ≡ length nodes.old.items }
    requires thawed { AreAllThawed nodes.old.items }
    requires bytes { AllByRecursion IsNodeOfBytes (map live_node nodes.old.items) }
    ensures found { found.new.items ≡ found_after wires.now seen.now kept.now (map live_node nodes.old.items) found.old.items }
    ensures nodes { map live_node nodes.new.items ≡ nodes_after wires.now kept.now (map live_node nodes.old.items) }
    ensures alike { length found.new.items ≡ length nodes.new.items }
    ensures thawed { AreAllThawed nodes.new.items }
    ensures bytes { AllByRecursion IsNodeOfBytes (map live_node nodes.new.items) }
{
    let number = process_of(wires, nodes.len(), kept.entry);
    if number < nodes.len() {
        let since = known_since(found, number);
        let node = &mut nodes[number];
        found[number] = entry_since(wires, seen, number, kept, node, runs, since);
    }
}

/// Has nodes do what entries say, one after another.
fn walk(
    wires: &[Option<WireEnd>],
    seen: &[NodeSeen],
    kept: &[Numbered],
    nodes: &mut Vec<Node>,
    found: &mut Vec<NodeSince>,
    runs: &mut Runs,
)
    requires alike { length found.old.items ≡ length nodes.old.items }
    requires thawed { AreAllThawed nodes.old.items }
    requires bytes { AllByRecursion IsNodeOfBytes (map live_node nodes.old.items) }
    ensures { found.new.items ≡ walked wires.now seen.now kept.now (map live_node nodes.old.items) found.old.items }
{
    for one in kept {
        walk_entry(wires, seen, one, nodes, found, runs);
    }
}

/// The number of the first entry after the checkpoint, which holds `base` entries; if there is none, the number that it will have.
pub(crate) fn number_after(base: u64, kept: &[Numbered]) -> u64
    ensures { result ≡ number_after base kept.now }
{
    match kept.first() {
        Some(one) => one.number,
        None => base,
    }
}

/// Since when processes wait at the links of each node, by the nodes of the checkpoint, the entries after it, and who waits in the end.
pub(crate) fn nodes_since(
    alloc: Global,
    wires: &[Option<WireEnd>],
    seen: &[NodeSeen],
    nodes: Vec<Node>,
    first: u64,
    kept: &[Numbered],
) -> Result<Vec<NodeSince>, AllocError>
    requires thawed { AreAllThawed nodes.items }
    requires bytes { AllByRecursion IsNodeOfBytes (map live_node nodes.items) }
    ensures { IfOk result (λ found. found.items ≡ nodes_since wires.now seen.now first kept.now (map live_node nodes.items)) }
{
    let mut nodes = nodes;
    let mut runs = Runs::new(alloc)?;
    let mut found = Vec::from_elem(alloc, all_before(first), nodes.len())?;
    walk(wires, seen, kept, &mut nodes, &mut found, &mut runs);
    Ok(found)
}

/// Since when a process waits at the end of a link.
fn at_link(four: FourSince, link: u8) -> Since
    ensures { result ≡ at_link four link }
{
    if link == 0 {
        four.zero
    } else if link == 1 {
        four.one
    } else if link == 2 {
        four.two
    } else {
        four.three
    }
}

/// Since when a process waits at the output end of a link, or at its input end.
fn at_end(since: NodeSince, sends: bool, link: u8) -> Since
    ensures { result ≡ at_end since sends link }
{
    if sends {
        at_link(since.outputs, link)
    } else {
        at_link(since.inputs, link)
    }
}

/// Since when processes wait at the links of a node. Of one that isn't known nothing is.
pub(crate) fn known_since(all: &[NodeSince], node: usize) -> NodeSince
    ensures { result ≡ known_since all.now node }
{
    match all.get(node) {
        Some(since) => *since,
        None => all_before(0),
    }
}

/// Since when a process waits at an end of a node's link.
pub(crate) fn since_at(all: &[NodeSince], sends: bool, node: usize, link: u8) -> Since
    ensures { result ≡ since_at all.now sends node link }
{
    at_end(known_since(all, node), sends, link)
}
