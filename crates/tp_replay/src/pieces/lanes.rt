//! Wires, and the lines as one part has them.

ghost use Rattle.std.specs.Prelude.{◌≡◌, ◌<◌, ◌≤◌, [], ◌∷◌, IfOk, MatchBool, Some, None};
ghost use Rattle.tp_replay.specs.Lower.{has_wire, pushed, receiver, sent, taken, from_line, sends_on};
ghost use Rattle.tp_replay.specs.Lanes.{Overfills, SameLanes};

use crate::front::is_front;
use crate::pieces::copies::copy_of;
use std::alloc::{AllocError, Global};
use std::marker::Model;
use tp_model::{Token, WireEnd};
use tp_net::{Lines, receiver};

/// Tokens that a line may have in a part. In a network no line has more, except for Markers.
const MOST: usize = 2;

/// The wires of a network, and all its lines as one part has them. None of them has more than two tokens.
#[derive(Drop)]
pub(crate) struct Lanes {
    pub(crate) wires: Vec<Option<WireEnd>>,
    pub(crate) lines: Lines,
}

impl Model for Lanes {
    ghost use Rattle.tp_replay.specs.Lanes.{AreShort, LanesValue};

    ghost Value = { LanesValue };

    ghost view = { λ lanes. record { wires = lanes.wires.items; lines = lanes.lines } };

    ghost invariant = { λ lanes. AreShort lanes.lines };
}

impl Lanes {
    /// Copies the wires and lines. `AllocError` if memory is out.
    pub(crate) fn copy(&self, alloc: Global) -> Result<Lanes, AllocError>
        ensures { IfOk result (λ copy. copy ≡ self.now) }
    {
        Ok(Lanes {
            wires: Vec::from_slice(alloc, &self.wires)?,
            lines: copy_of(alloc, &self.lines)?,
        })
    }

    /// Gives the end that receives a line; `None` if it has no wire.
    pub(crate) fn receiver(&self, line: usize) -> Option<WireEnd>
        ensures { result ≡ receiver self.now.wires line }
    {
        receiver(&self.wires, line)
    }

    /// Takes a token off a line if it is at the front there. Answers whether it is.
    pub(crate) fn take_off(&mut self, line: usize, token: Token) -> bool
        ensures same { SameLanes self.old self.new }
        ensures takes { MatchBool result (taken self.old.lines ((line, token) ∷ []) ≡ Some self.new.lines) (taken self.old.lines ((line, token) ∷ []) ≡ None) }
    {
        if line >= self.lines.count() {
            return false;
        }
        if !is_front(self.lines.front(line), token) {
            return false;
        }
        self.lines.pop(line);
        true
    }

    /// Sends a token on a line, if that has a wire. Answers whether it has room.
    fn send(&mut self, line: usize, token: Token) -> bool
        ensures same { SameLanes self.old self.new }
        ensures sends { MatchBool result (self.new.lines ≡ pushed (has_wire self.old.wires) self.old.lines line token)
            (Overfills (has_wire self.old.wires) self.old.lines ((line, token) ∷ [])) }
    {
        if self.receiver(line).is_none() {
            return true;
        }
        if line >= self.lines.count() {
            return true;
        }
        if self.lines.len(line) >= MOST {
            return false;
        }
        self.lines.push(line, token);
        true
    }

    /// Sends `tokens` in order: one with the number `m` goes on the line `first` + `m`. Answers whether all
    /// have room.
    pub(crate) fn send_all(&mut self, first: usize, tokens: &[(u8, Token)]) -> bool
        requires { first ≤ 1024 }
        ensures same { SameLanes self.old self.new }
        ensures sends { MatchBool result (self.new.lines ≡ sent (has_wire self.old.wires) self.old.lines (from_line first tokens.now))
            (Overfills (has_wire self.old.wires) self.old.lines (from_line first tokens.now)) }
    {
        for m in tokens {
            if !self.send(first + usize::from(m.0), m.1) {
                return false;
            }
        }
        true
    }

    /// Sends a token on a line, if there is one. Answers whether it has room.
    pub(crate) fn send_some(&mut self, line: usize, token: Option<Token>) -> bool
        ensures same { SameLanes self.old self.new }
        ensures sends { MatchBool result (self.new.lines ≡ sent (has_wire self.old.wires) self.old.lines (sends_on line token))
            (Overfills (has_wire self.old.wires) self.old.lines (sends_on line token)) }
    {
        match token {
            Some(token) => self.send(line, token),
            None => true,
        }
    }
}
