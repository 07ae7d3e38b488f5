//! The lines of a network, with what is under way on them.

ghost use Rattle.std.specs.Prelude.{◌≡◌, ◌≤◌, ◌<◌, [], ◌∷◌, ◌++◌, IfOk, length, drop, set, replicate, slice_get, ℕ};
ghost use Rattle.tp_net.specs.Lower.{has_marker, is_marker, plain, on_line};

use circular_buffer::HeapCircularBuffer;
use std::alloc::{AllocError, Global};
use std::marker::Model;
use tp_model::Token;

/// Tokens that a line has room for: at most a byte, an acknowledge and a Marker are under way on one.
pub const LINE_TOKENS: usize = 3;

/// Whether a token is a Marker.
pub fn is_marker(token: Token) -> bool
    ensures { result ≡ is_marker token }
{
    match token {
        Token::Marker => true,
        Token::Data(_) | Token::Ack => false,
    }
}

/// A line: its tokens, first the one that comes next.
#[derive(Drop)]
struct Line {
    ring: HeapCircularBuffer<Token>,
}

impl Model for Line {
    ghost use Rattle.std.specs.Prelude.{◌≡◌, List};
    ghost use Rattle.tp_model.specs.declared.link.Token.{Token};

    ghost Value = { List Token };

    ghost view = { λ line. line.ring.items };

    ghost invariant = { λ line. line.ring.capacity ≡ 3 };
}

impl Line {
    fn new(alloc: Global) -> Result<Line, AllocError>
        ensures { IfOk result (λ line. line ≡ []) }
    {
        let ring = HeapCircularBuffer::with_capacity(alloc, LINE_TOKENS)?;
        Ok(Line { ring })
    }

    /// Appends a token; the line has fewer than 3.
    fn push(&mut self, token: Token)
        requires { length self.old < LINE_TOKENS }
        ensures { self.new ≡ self.old ++ token ∷ [] }
    {
        self.ring.push_back(token);
    }

    fn pop(&mut self) -> Option<Token>
        ensures value { result ≡ slice_get self.old 0 }
        ensures after { self.new ≡ drop 1 self.old }
    {
        self.ring.pop_front()
    }

    /// Takes all Markers out, and leaves the other tokens in their order.
    fn unmark(&mut self)
        ensures { self.new ≡ plain self.old }
    {
        for at in 0..self.len() {
            let _at = at;
            let Some(token) = self.pop() else {
                unreachable!()
            };
            if !is_marker(token) {
                self.push(token);
            }
        }
    }

    /// Whether a Marker is among its tokens.
    fn has_marker(&self) -> bool
        ensures { result ≡ has_marker self.now }
    {
        for at in 0..self.len() {
            let Some(token) = self.get(at) else {
                unreachable!()
            };
            if is_marker(token) {
                return true;
            }
        }
        false
    }

    fn get(&self, at: usize) -> Option<Token>
        ensures { result ≡ slice_get self.now at }
    {
        self.ring.get(at).copied()
    }

    fn len(&self) -> usize
        ensures value { result ≡ length self.now }
        ensures bound { result ≤ LINE_TOKENS }
    {
        self.ring.len()
    }
}

/// The lines of a network, by their numbers. Only `new` takes memory.
#[derive(Drop)]
pub struct Lines {
    lines: Vec<Line>,
}

impl Model for Lines {
    ghost use Rattle.std.specs.Prelude.{List};
    ghost use Rattle.tp_model.specs.declared.link.Token.{Token};

    ghost Value = { List (List Token) };

    ghost view = { λ lines. lines.lines.items };
}

impl Lines {
    /// Makes `count` lines, all empty. `AllocError` if memory is out.
    pub fn new(alloc: Global, count: usize) -> Result<Lines, AllocError>
        ensures { IfOk result (λ lines. lines ≡ replicate count []) }
    {
        let mut lines = Vec::with_capacity(alloc, count)?;
        for _ in 0..count {
            lines.push(Line::new(alloc)?)?;
        }
        Ok(Lines { lines })
    }

    /// Counts the lines.
    pub fn count(&self) -> usize
        ensures { result ≡ length self.now }
    {
        self.lines.len()
    }

    /// Appends a token to a line.
    pub fn push(&mut self, line: usize, token: Token)
        requires there { line < length self.old }
        requires room { length (on_line self.old line) < LINE_TOKENS }
        ensures { self.new ≡ set self.old line (on_line self.old line ++ token ∷ []) }
    {
        self.lines[line].push(token);
    }

    /// Takes off the token that comes next on a line; `None` if the line is empty.
    pub fn pop(&mut self, line: usize) -> Option<Token>
        requires { line < length self.old }
        ensures value { result ≡ slice_get (on_line self.old line) 0 }
        ensures after { self.new ≡ set self.old line (drop 1 (on_line self.old line)) }
    {
        self.lines[line].pop()
    }

    /// Takes all Markers off a line, also from after other tokens, which stay in their order.
    pub fn unmark(&mut self, line: usize)
        requires { line < length self.old }
        ensures { self.new ≡ set self.old line (plain (on_line self.old line)) }
    {
        self.lines[line].unmark();
    }

    /// Whether a Marker is on a line.
    pub fn has_marker(&self, line: usize) -> bool
        requires { line < length self.now }
        ensures { result ≡ has_marker (on_line self.now line) }
    {
        self.lines[line].has_marker()
    }

    /// Gives the token that comes next on a line; `None` if the line is empty.
    pub fn front(&self, line: usize) -> Option<Token>
        requires { line < length self.now }
        ensures { result ≡ slice_get (on_line self.now line) 0 }
    {
        self.get(line, 0)
    }

    /// Gives the token at place `at` of a line, with the one that comes next at 0; `None` after the last one.
    pub fn get(&self, line: usize, at: usize) -> Option<Token>
        requires { line < length self.now }
        ensures { result ≡ slice_get (on_line self.now line) at }
    {
        self.lines[line].get(at)
    }

    /// Counts the tokens on a line.
    pub fn len(&self, line: usize) -> usize
        requires { line < length self.now }
        ensures value { result ≡ length (on_line self.now line) }
        ensures bound { result ≤ LINE_TOKENS }
    {
        self.lines[line].len()
    }
}
