//! What a node receives before its turn: by link, and by the line that comes in there.

ghost use Rattle.std.specs.Prelude.{◌≡◌, ◌++◌, ◌≤◌, ◌<◌, ◌^◌, IsSome, Some, length, map};
ghost use Rattle.tp_book.specs.Lower.{AllByRecursion, before, on_line, taken, acks, datas, by_line, by_link, incoming, received, CarryBytes};
ghost use Rattle.tp_book.specs.FirstTwo.{by_two};

use arrayvec::ArrayVec;
use tp_model::{Received, Token, WireEnd};
use tp_net::{Lines, line_of, link_line, receiver};

/// Appends the tokens that were received on `link`, in order.
fn add_received(tokens: &mut ArrayVec<(u8, Token), 8>, link: u8, one: Received)
    requires { length tokens.old.items ≤ 6 }
    ensures tokens { tokens.new.items ≡ tokens.old.items ++ map (λ token. (link, token)) (received one) }
    ensures bytes { CarryBytes (map (λ token. (link, token)) (received one)) }
{
    match one {
        Received::Nothing => {}
        Received::JustData(byte) => tokens.push((link, Token::Data(byte))),
        Received::JustAck => tokens.push((link, Token::Ack)),
        Received::DataThenAck(byte) => {
            tokens.push((link, Token::Data(byte)));
            tokens.push((link, Token::Ack));
        }
        Received::AckThenData(byte) => {
            tokens.push((link, Token::Ack));
            tokens.push((link, Token::Data(byte)));
        }
    }
}

/// Gives the tokens that a turn takes, links in order, each with its link.
pub fn tokens_of(takes: &[Received; 4]) -> ArrayVec<(u8, Token), 8>
    ensures tokens { result.items ≡ by_link 0 takes.now }
    ensures few { length result.items ≤ 8 }
    ensures bytes { CarryBytes result.items }
{
    let mut tokens = ArrayVec::new();
    for link in 0..4 {
        add_received(&mut tokens, link as u8, takes[link]);
    }
    tokens
}

/// Gives the line that comes in on a link of a node, with `nodes` nodes; line 0 if the link has no wire.
pub fn incoming(wires: &[Option<WireEnd>], nodes: usize, node: usize, link: usize) -> usize
    requires nodes { nodes ≤ 2 ^ 32 }
    requires node { node < 2 ^ 32 }
    requires link { link < 2 ^ 32 }
    ensures { result ≡ incoming wires.now nodes node link }
{
    match receiver(wires, link_line(node, link)) {
        Some(end) => line_of(nodes, end),
        None => 0,
    }
}

/// Lists what a node received, by the lines that come in on its links.
#[inline(always)]
pub(crate) fn taken_of(
    wires: &[Option<WireEnd>],
    nodes: usize,
    node: usize,
    takes: &[Received; 4],
) -> ArrayVec<(u16, Token), 8>
    requires nodes { nodes ≤ 2 ^ 32 }
    requires node { node < 2 ^ 32 }
    requires low { AllByRecursion (λ m. m.0 < 2 ^ 16) (by_line wires.now nodes node (by_link 0 takes.now)) }
    ensures { result.items ≡ by_line wires.now nodes node (by_link 0 takes.now) }
{
    let mut taken = ArrayVec::new();
    for link in 0..4 {
        add_taken(&mut taken, wires, nodes, node, link, takes[link]);
    }
    taken
}

/// Appends the tokens that were received on `link`, by the line that comes in there.
#[inline(always)]
fn add_taken(
    taken: &mut ArrayVec<(u16, Token), 8>,
    wires: &[Option<WireEnd>],
    nodes: usize,
    node: usize,
    link: usize,
    one: Received,
)
    requires nodes { nodes ≤ 2 ^ 32 }
    requires node { node < 2 ^ 32 }
    requires link { link < 2 ^ 32 }
    requires room { length taken.old.items ≤ 6 }
    requires low { AllByRecursion (λ m. m.0 < 2 ^ 16) (by_line wires.now nodes node (map (λ token. (link, token)) (received one))) }
    ensures { taken.new.items ≡ taken.old.items ++ by_line wires.now nodes node (map (λ token. (link, token)) (received one)) }
{
    if let Received::Nothing = one {
        return;
    }
    let line = incoming(wires, nodes, node, link) as u16;
    add_on_line(taken, line, one);
}

/// Appends the tokens that were received on the link where `line` comes in, in order.
#[inline(always)]
fn add_on_line(taken: &mut ArrayVec<(u16, Token), 8>, line: u16, one: Received)
    requires { length taken.old.items ≤ 6 }
    ensures { taken.new.items ≡ taken.old.items ++ map (λ token. (line, token)) (received one) }
{
    match one {
        Received::Nothing => {}
        Received::JustData(byte) => taken.push((line, Token::Data(byte))),
        Received::JustAck => taken.push((line, Token::Ack)),
        Received::DataThenAck(byte) => {
            taken.push((line, Token::Data(byte)));
            taken.push((line, Token::Ack));
        }
        Received::AckThenData(byte) => {
            taken.push((line, Token::Ack));
            taken.push((line, Token::Data(byte)));
        }
    }
}

/// Takes tokens off the fronts of their lines.
pub(crate) fn take_off(lines: &mut Lines, tokens: &[(u16, Token)])
    requires { IsSome (taken lines.old tokens.now) }
    ensures { taken lines.old tokens.now ≡ Some lines.new }
{
    for m in tokens {
        lines.pop(usize::from(m.0));
    }
}

/// Gives the tokens before the first Marker of a line with at most one Data and one Ack, by its first two tokens.
fn by_two(first: Option<Token>, second: Option<Token>) -> Received
    ensures { result ≡ by_two first second }
{
    match (first, second) {
        (Some(Token::Data(byte)), Some(Token::Ack)) => Received::DataThenAck(byte),
        (Some(Token::Data(byte)), Some(Token::Data(_) | Token::Marker)) => Received::JustData(byte),
        (Some(Token::Data(byte)), None) => Received::JustData(byte),
        (Some(Token::Ack), Some(Token::Data(byte))) => Received::AckThenData(byte),
        (Some(Token::Ack), Some(Token::Ack | Token::Marker)) => Received::JustAck,
        (Some(Token::Ack), None) => Received::JustAck,
        (Some(Token::Marker), _) => Received::Nothing,
        (None, _) => Received::Nothing,
    }
}

/// Gives the tokens on a line before its first Marker.
pub(crate) fn waiting(lines: &Lines, line: usize) -> Received
    requires there { line < length lines.now }
    requires data { datas (on_line lines.now line) ≤ 1 }
    requires ack { acks (on_line lines.now line) ≤ 1 }
    ensures { received result ≡ before (on_line lines.now line) }
{
    by_two(lines.get(line, 0), lines.get(line, 1))
}
