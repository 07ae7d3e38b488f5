//! Why a process still waits at a link: what the other end does.

ghost use Rattle.std.specs.Prelude.{◌≡◌, ◌≤◌};
ghost use Rattle.tp_views.specs.Scene.{seen_in};
ghost use Rattle.tp_views.specs.Why.{front_at, is_data, is_full, is_still, has_input, link_why, other_why, port_why, stuck_why, waiter_at, waiting_at, why};

use crate::waits::scene::{NodeSeen, Scene, is_halted, is_resting};
use tp_model::{Token, WireEnd};
use tp_net::{link_line, receiver};
use tp_node::Waiter;

/// Why a process waits at a link: what the other end does.
#[derive(Clone, Copy)]
pub enum Reason {
    /// A byte or an acknowledge is on its way.
    UnderWay,
    /// The node at the other end has halted.
    Halted,
    /// The node at the other end, or the one that waits, has something left to do.
    Runs,
    /// The process sends, and the other end of the link sends, too.
    BothSend,
    /// The process inputs, and the other end of the link inputs, too.
    BothInput,
    /// All processes of the other node wait elsewhere.
    Elsewhere,
    /// The port has no room.
    Full,
    /// The port has no input.
    NoInput,
    /// The link has no wire.
    NoWire,
}

/// Gives the process that waits at the end of a link, of the ends of links 0 to 3; `None` if none does.
fn waiter_at(ends: &[Option<Waiter>], link: u8) -> Option<Waiter>
    ensures { result ≡ waiter_at ends.now link }
{
    match ends.get(link as usize) {
        Some(waiter) => *waiter,
        None => None,
    }
}

/// Gives the process that waits at an end of a node's link; `None` if none does. In a node that has halted none waits, since none will ever run.
pub(crate) fn waiting_at(own: &NodeSeen, sends: bool, link: u8) -> Option<Waiter>
    ensures { result ≡ waiting_at own.now sends link }
{
    if is_halted(own.doing) {
        None
    } else if sends {
        waiter_at(&own.senders, link)
    } else {
        waiter_at(&own.listeners, link)
    }
}

/// Gives the token that comes next on a line.
fn front_at(scene: &Scene, line: usize) -> Option<Token>
    ensures { result ≡ front_at (seen_in scene.now) line }
{
    match scene.fronts.get(line) {
        Some(front) => *front,
        None => None,
    }
}

/// Whether nothing is on a line.
fn is_still(scene: &Scene, line: usize) -> bool
    ensures { result ≡ is_still (seen_in scene.now) line }
{
    front_at(scene, line).is_none()
}

/// Whether a byte comes next on a line.
fn is_data(scene: &Scene, line: usize) -> bool
    ensures { result ≡ is_data (front_at (seen_in scene.now) line) }
{
    match front_at(scene, line) {
        Some(Token::Data(_)) => true,
        Some(Token::Ack) | Some(Token::Marker) | None => false,
    }
}

/// Whether a port has no room for another byte of output.
fn is_full(scene: &Scene, port: u8) -> bool
    ensures { result ≡ is_full (seen_in scene.now) port }
{
    match scene.ports.get(port as usize) {
        Some(held) => held.is_full,
        None => false,
    }
}

/// Whether a port has input that no node has taken.
fn has_input(scene: &Scene, port: u8) -> bool
    ensures { result ≡ has_input (seen_in scene.now) port }
{
    match scene.ports.get(port as usize) {
        Some(held) => held.has_input,
        None => false,
    }
}

/// Gives why a process of a node that rests waits for another node that rests, at that node's link.
fn stuck_why(sends: bool, other: &NodeSeen, link: u8) -> Reason
    ensures { result ≡ stuck_why sends other.now link }
{
    if sends {
        match waiter_at(&other.senders, link) {
            Some(_) => Reason::BothSend,
            None => Reason::Elsewhere,
        }
    } else {
        match waiter_at(&other.listeners, link) {
            Some(_) => Reason::BothInput,
            None => Reason::Elsewhere,
        }
    }
}

/// Gives why a process of a node waits for another node, at that node's link, if nothing is on their lines.
fn other_why(sends: bool, own: &NodeSeen, other: &NodeSeen, link: u8) -> Reason
    ensures { result ≡ other_why sends own.now other.now link }
{
    if is_halted(other.doing) {
        Reason::Halted
    } else if is_resting(own.doing) && is_resting(other.doing) {
        stuck_why(sends, other, link)
    } else {
        Reason::Runs
    }
}

/// Gives why a process of a node waits at an end, if the other end is a node's link; `line` is the end's.
fn link_why(scene: &Scene, sends: bool, own: &NodeSeen, line: usize, node: u8, link: u8) -> Reason
    ensures { result ≡ link_why (seen_in scene.now) sends own.now line node link }
{
    if !is_still(scene, line) || !is_still(scene, link_line(node as usize, link as usize)) {
        return Reason::UnderWay;
    }
    match scene.nodes.get(node as usize) {
        Some(other) => other_why(sends, own, other, link),
        None => Reason::NoWire,
    }
}

/// Gives why a process waits at an end, if the other end is a port; `line` is the end's.
fn port_why(scene: &Scene, sends: bool, line: usize, port: u8) -> Reason
    ensures { result ≡ port_why (seen_in scene.now) sends line port }
{
    if sends && is_data(scene, line) && is_full(scene, port) {
        Reason::Full
    } else if !sends && !has_input(scene, port) {
        Reason::NoInput
    } else {
        Reason::UnderWay
    }
}

/// Gives why a process of a node waits at an end; `line` is the end's.
pub(crate) fn why(scene: &Scene, sends: bool, own: &NodeSeen, line: usize) -> Reason
    ensures { result ≡ why (seen_in scene.now) sends own.now line }
{
    match receiver(&scene.wires, line) {
        Some(WireEnd::Link(node, link)) => link_why(scene, sends, own, line, node, link),
        Some(WireEnd::Port(port)) => port_why(scene, sends, line, port),
        None => Reason::NoWire,
    }
}
