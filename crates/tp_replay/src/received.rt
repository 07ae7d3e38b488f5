//! What a turn takes.

ghost use Rattle.std.specs.Prelude.{◌≡◌, ◌==◌, ◌&&◌, ◌++◌, ◌≤◌, ◌<◌, ◌^◌, [], IsSome, None, Some, is_some, length, map};
ghost use Rattle.tp_replay.specs.Lower.{on_line, receiver, taken, on_link, t414, by_line, by_link, comes_in, incoming, is_link, received, took_all, CarryBytes};
ghost use Rattle.tp_replay.specs.Stands.{link_stands, starts_with};

use crate::front::stands_in_front;
use arrayvec::ArrayVec;
use tp_book::incoming;
use tp_model::{Received, Token, WireEnd};
use tp_net::{Lines, receiver};
use tp_node::{NoFrame, Node};

/// Whether an end is this link of this node.
pub(crate) fn is_link(end: Option<WireEnd>, node: usize, link: usize) -> bool
    ensures { result ≡ is_link node link end }
{
    match end {
        Some(WireEnd::Link(other, at)) => usize::from(other) == node && usize::from(at) == link,
        Some(WireEnd::Port(_)) => false,
        None => false,
    }
}

/// Whether nothing was received.
fn is_nothing(one: Received) -> bool
    ensures { result ≡ (length (received one) == 0) }
{
    match one {
        Received::Nothing => true,
        Received::JustData(_) | Received::JustAck => false,
        Received::DataThenAck(_) | Received::AckThenData(_) => false,
    }
}

/// Whether a line starts with what was received.
fn starts_with(lines: &Lines, line: usize, one: Received) -> bool
    requires { line < length lines.now }
    ensures { result ≡ starts_with (on_line lines.now line) (received one) }
{
    let first = lines.get(line, 0);
    let second = lines.get(line, 1);
    match one {
        Received::Nothing => true,
        Received::JustData(byte) => stands_in_front(first, Token::Data(byte)),
        Received::JustAck => stands_in_front(first, Token::Ack),
        Received::DataThenAck(byte) => {
            stands_in_front(first, Token::Data(byte)) && stands_in_front(second, Token::Ack)
        }
        Received::AckThenData(byte) => {
            stands_in_front(first, Token::Ack) && stands_in_front(second, Token::Data(byte))
        }
    }
}

/// Whether what was received on a link is at the front of the line that comes in on it.
fn stands(
    wires: &[Option<WireEnd>],
    nodes: usize,
    lines: &Lines,
    node: usize,
    link: usize,
    one: Received,
) -> bool
    requires nodes { nodes ≤ 2 ^ 32 }
    requires node { node < 2 ^ 32 }
    requires link { link < 2 ^ 32 }
    requires there { length wires.now ≡ length lines.now }
    ensures { result ≡ link_stands wires.now nodes lines.now node link (received one) }
{
    if is_nothing(one) {
        return true;
    }
    let line = incoming(wires, nodes, node, link);
    if !is_link(receiver(wires, line), node, link) {
        return false;
    }
    starts_with(lines, line, one)
}

/// Whether what a turn of `node` takes came in on its links, and all of it is at the front of its lines.
pub(crate) fn are_there(
    wires: &[Option<WireEnd>],
    nodes: usize,
    lines: &Lines,
    node: usize,
    takes: &[Received; 4],
) -> bool
    requires nodes { nodes ≤ 2 ^ 32 }
    requires node { node < 2 ^ 32 }
    requires there { length wires.now ≡ length lines.now }
    ensures { result ≡ (comes_in wires.now nodes node (by_link 0 takes.now) && is_some (taken lines.now (by_line wires.now nodes node (by_link 0 takes.now)))) }
{
    for link in 0..4 {
        if !stands(wires, nodes, lines, node, link, takes[link]) {
            return false;
        }
    }
    true
}

/// Takes tokens off the fronts of the lines that come in on their links.
pub(crate) fn take_off(
    wires: &[Option<WireEnd>],
    nodes: usize,
    lines: &mut Lines,
    node: usize,
    tokens: &[(u8, Token)],
)
    requires nodes { nodes ≤ 2 ^ 32 }
    requires node { node < 2 ^ 32 }
    requires front { IsSome (taken lines.old (by_line wires.now nodes node tokens.now)) }
    ensures { taken lines.old (by_line wires.now nodes node tokens.now) ≡ Some lines.new }
{
    for m in tokens {
        lines.pop(incoming(wires, nodes, node, usize::from(m.0)));
    }
}

/// Appends the token that a node answers on `link`, if it answers.
fn add_answer(answers: &mut ArrayVec<(u8, Token), 8>, link: u8, answer: Option<Token>)
    requires { length answers.old.items < 8 }
    ensures { answers.new.items ≡ answers.old.items ++ on_link link answer }
{
    if let Some(token) = answer {
        answers.push((link, token));
    }
}

/// Has a node take tokens, one after the other. Its answers go into `answers`.
pub(crate) fn take_all(
    node: &mut Node,
    tokens: &[(u8, Token)],
    answers: &mut ArrayVec<(u8, Token), 8>,
)
    requires thawed { node.old.frozen ≡ None }
    requires few { length tokens.now ≤ 8 }
    requires none { answers.old.items ≡ [] }
    requires possible { IsSome (took_all t414 tokens.now node.old.live) }
    ensures took { took_all t414 tokens.now node.old.live ≡ Some (node.new.live, answers.new.items) }
    ensures thawed { node.new.frozen ≡ None }
{
    for m in tokens {
        let answer = match node.take(m.0, m.1) {
            Ok(answer) => answer,
            Err(NoFrame) => unreachable!(),
        };
        add_answer(answers, m.0, answer);
    }
}
