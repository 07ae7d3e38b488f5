//! The processes that wait at the links of a network's nodes, each with what it waits for. All that `waits` prints goes over these.

ghost use Rattle.std.specs.Prelude.{◌≡◌, ◌<◌, ◌≤◌, length};
ghost use Rattle.tp_views.specs.Lower.{MAX_NODES, list_any};
ghost use Rattle.tp_views.specs.Scene.{seen_in};
ghost use Rattle.tp_views.specs.Waiting.{end_wait, has_inner_end, is_first, is_inner, is_told, link_waits, links_of, node_waits_inside, side_of, waits_inside};

use crate::waits::scene::{NodeSeen, Scene};
use crate::waits::since::{Since, since_at};
use crate::waits::why::{Reason, waiting_at, why};
use tp_model::WireEnd;
use tp_net::{line_of, link_line, receiver};
use tp_node::Waiter;

/// A process that waits at an end of a link, the output end if it sends: the end's node and link, and the line that it sends, what the process does
/// there, since when, the other end of the wire, and why it still waits.
#[derive(Clone, Copy)]
pub struct Wait {
    pub sends: bool,
    pub node: usize,
    pub link: u8,
    pub line: usize,
    pub waiter: Waiter,
    pub since: Since,
    pub other: Option<WireEnd>,
    pub why: Reason,
}

/// Who waits at the output end of a link, and at its input end.
#[derive(Clone, Copy)]
pub struct LinkWaits {
    pub output: Option<Wait>,
    pub input: Option<Wait>,
}

/// Who waits at an end of a link.
fn end_wait(scene: &Scene, sends: bool, node: usize, own: &NodeSeen, link: u8) -> Option<Wait>
    requires { node < MAX_NODES }
    ensures { result ≡ end_wait (seen_in scene.now) sends node own.now link }
{
    let line = link_line(node, link as usize);
    match waiting_at(own, sends, link) {
        Some(waiter) => Some(Wait {
            sends,
            node,
            link,
            line,
            waiter,
            since: since_at(&scene.since, sends, node, link),
            other: receiver(&scene.wires, line),
            why: why(scene, sends, own, line),
        }),
        None => None,
    }
}

/// Who waits at both ends of a link.
fn link_waits(scene: &Scene, node: usize, own: &NodeSeen, link: u8) -> LinkWaits
    requires { node < MAX_NODES }
    ensures { result ≡ link_waits (seen_in scene.now) node own.now link }
{
    LinkWaits {
        output: end_wait(scene, true, node, own, link),
        input: end_wait(scene, false, node, own, link),
    }
}

/// Who waits at links 0 to 3 of a node.
pub(crate) fn links_of(scene: &Scene, node: usize, own: &NodeSeen) -> [LinkWaits; 4]
    requires { node < MAX_NODES }
    ensures { result ≡ links_of (seen_in scene.now) node own.now }
{
    [
        link_waits(scene, node, own, 0),
        link_waits(scene, node, own, 1),
        link_waits(scene, node, own, 2),
        link_waits(scene, node, own, 3),
    ]
}

/// Who waits at one of the ends of a link.
pub(crate) fn side_of(sends: bool, link: &LinkWaits) -> Option<Wait>
    ensures { result ≡ side_of sends link.now }
{
    if sends { link.output } else { link.input }
}

/// Whether a process waits for another node.
fn is_inner(end: Option<Wait>) -> bool
    ensures { result ≡ is_inner end }
{
    match end {
        Some(wait) => matches!(wait.other, Some(WireEnd::Link(_, _))),
        None => false,
    }
}

/// Whether a process waits at a link for another node.
fn has_inner_end(link: &LinkWaits) -> bool
    ensures { result ≡ has_inner_end link.now }
{
    is_inner(link.output) || is_inner(link.input)
}

/// Whether a process waits at one of these links for another node.
fn has_inner(links: &[LinkWaits]) -> bool
    ensures { result ≡ list_any has_inner_end links.now }
{
    links.iter().any(|link| has_inner_end(link))
}

/// Whether a process of a node waits for another one.
fn node_waits_inside(scene: &Scene, node: usize, own: &NodeSeen) -> bool
    requires { node < MAX_NODES }
    ensures { result ≡ node_waits_inside (seen_in scene.now) node own.now }
{
    has_inner(&links_of(scene, node, own))
}

/// Whether a process of a node waits for another node.
pub(crate) fn waits_inside(scene: &Scene) -> bool
    requires { length scene.now.nodes.items ≤ MAX_NODES }
    ensures { result ≡ waits_inside (seen_in scene.now) 0 scene.now.nodes.items }
{
    for (node, own) in scene.nodes.iter().enumerate() {
        if node_waits_inside(scene, node, own) {
            return true;
        }
    }
    false
}

/// Whether the end that sends a line is the first one of its wire, in a network with that many nodes.
pub(crate) fn is_first(nodes: usize, line: usize, other: Option<WireEnd>) -> bool
    requires { nodes ≤ MAX_NODES }
    ensures { result ≡ is_first nodes line other }
{
    match other {
        Some(end) => line < line_of(nodes, end),
        None => false,
    }
}

/// Whether a process's waiting is said once more at the end, in a network with that many nodes. Of two ends that wait for one another it is
/// said at the first one.
pub(crate) fn is_told(nodes: usize, wait: &Wait) -> bool
    requires { nodes ≤ MAX_NODES }
    ensures { result ≡ is_told nodes wait.now }
{
    match wait.why {
        Reason::BothSend | Reason::BothInput => is_first(nodes, wait.line, wait.other),
        Reason::Halted | Reason::Full | Reason::NoInput | Reason::NoWire => true,
        Reason::UnderWay | Reason::Runs | Reason::Elsewhere => false,
    }
}
