//! Tokens onto their lines.

ghost use Rattle.std.specs.Prelude.{◌≡◌, ℕ, ◌*◌, Some, ◌+◌, ◌<◌, [], ◌∷◌, length, map};
ghost use Rattle.tp_book.specs.Lower.{AllByRecursion, has_wire, receiver, sent, pushed, Link};
ghost use Rattle.tp_book.specs.Sends.{answer_from, sends_on};
ghost use Rattle.tp_book.specs.Room.{HasRoom, from_line};

use tp_model::{Token, WireEnd};
use tp_net::{Lines, link_line};

/// Sends a token on a line, if the line has a wire.
fn send(wires: &[Option<WireEnd>], lines: &mut Lines, line: usize, token: Token)
    requires wired { line < length wires.now }
    requires there { line < length lines.old }
    requires room { HasRoom (has_wire wires.now) lines.old ((line, token) ∷ []) }
    ensures { lines.new ≡ pushed (has_wire wires.now) lines.old line token }
{
    if wires[line].is_some() {
        lines.push(line, token);
    }
}

/// Sends `tokens` in order: one with the number `m` goes on the line `first` + `m`.
pub fn send_all(wires: &[Option<WireEnd>], lines: &mut Lines, first: usize, tokens: &[(u8, Token)])
    requires known { AllByRecursion (λ m. first + m.0 < length wires.now) tokens.now }
    requires there { length lines.old ≡ length wires.now }
    requires room { HasRoom (has_wire wires.now) lines.old (from_line first tokens.now) }
    ensures { lines.new ≡ sent (has_wire wires.now) lines.old (from_line first tokens.now) }
{
    for m in tokens {
        send(wires, lines, first + m.0 as usize, m.1);
    }
}

/// Sends what a node answers to a token that came in on `line`, if it answers.
#[tactic(auto, unfolding(tp_model::specs::Network::sent))]
pub fn send_answer(wires: &[Option<WireEnd>], lines: &mut Lines, line: usize, answer: Option<Token>)
    requires known { line < length wires.now }
    requires links { (node : ℕ) (link : ℕ) → receiver wires.now line ≡ Some (Link node link) → 4 * node + link < length wires.now }
    requires there { length lines.old ≡ length wires.now }
    requires room { HasRoom (has_wire wires.now) lines.old (answer_from (receiver wires.now line) answer) }
    ensures { lines.new ≡ sent (has_wire wires.now) lines.old (answer_from (receiver wires.now line) answer) }
{
    match wires[line] {
        Some(WireEnd::Link(node, link)) => send_some(
            wires,
            lines,
            link_line(node as usize, link as usize),
            answer,
        ),
        Some(WireEnd::Port(_)) => {}
        None => {}
    }
}

/// Sends a token on a line, if there is one.
#[tactic(auto, unfolding(tp_model::specs::Network::sent))]
pub fn send_some(wires: &[Option<WireEnd>], lines: &mut Lines, line: usize, token: Option<Token>)
    requires wired { line < length wires.now }
    requires there { line < length lines.old }
    requires room { HasRoom (has_wire wires.now) lines.old (sends_on line token) }
    ensures { lines.new ≡ sent (has_wire wires.now) lines.old (sends_on line token) }
{
    match token {
        Some(token) => send(wires, lines, line, token),
        None => {}
    }
}
