//! Host ports.

ghost use Rattle.std.specs.Prelude.{◌≡◌, ◌+◌, ◌-◌, ◌^◌, ◌<◌, ◌≤◌, [], IfOk, IsTrue, ◌↔◌, Some, length, drop, option_to_list, replicate, vec_len, vec_capacity};
ghost use Rattle.tp_model.specs.Entries.{port_took, handed_in, confirmed};
ghost use Rattle.tp_book.specs.PortParts.{port_made};
ghost use Rattle.tp_book.specs.Ports.{PortValue, marks_after, opened_port, CanTake};
ghost use Rattle.tp_book.specs.Ports.{fresh_value};

use crate::ports::pending::Pending;
use crate::ports::port_parts::PortParts;
use std::alloc::{AllocError, Global};
use std::marker::Model;
use tp_model::Token;
use tp_model::limits::MAX_HELD;

/// A port with room for all that it may hold.
#[derive(Drop)]
pub struct HostPort {
    pending: Pending,
    in_base: u64,
    outputs: Vec<u8>,
    marks: Vec<u64>,
    out_base: u64,
}

impl Model for HostPort {
    ghost use Rattle.std.specs.Prelude.{◌≡◌, ◌≤◌, vec_len, vec_capacity, length};
    ghost use Rattle.tp_model.specs.declared.limits.TheConstants.{MAX_HELD};
    ghost use Rattle.tp_book.specs.Ports.{PortValue};

    ghost Value = { PortValue };

    ghost view = { λ p. record { port = record { pending = p.pending; in_base = p.in_base; outputs = p.outputs.items; out_base = p.out_base }; marks = p.marks.items } };

    ghost invariant = { λ p. (MAX_HELD ≤ vec_capacity p.outputs) × (MAX_HELD ≤ vec_capacity p.marks) × (vec_len p.marks ≡ vec_len p.outputs) × (length p.pending ≤ MAX_HELD) × (vec_len p.outputs ≤ MAX_HELD) };
}

impl HostPort {
    /// Makes a port at which nothing has happened. `AllocError` if memory is out.
    pub fn new(alloc: Global) -> Result<HostPort, AllocError>
        ensures { IfOk result (λ port. port ≡ fresh_value) }
    {
        Ok(HostPort {
            pending: Pending::new(alloc)?,
            in_base: 0,
            outputs: Vec::with_capacity(alloc, MAX_HELD)?,
            marks: Vec::with_capacity(alloc, MAX_HELD)?,
            out_base: 0,
        })
    }

    /// Makes the port of an opened state. Every mark shows what it held then. `AllocError` if memory is out.
    pub fn from_parts(alloc: Global, parts: &PortParts) -> Result<HostPort, AllocError>
        requires pending { vec_len parts.now.pending ≤ MAX_HELD }
        requires outputs { vec_len parts.now.outputs ≤ MAX_HELD }
        ensures { IfOk result (λ port. port ≡ opened_port (port_made parts.now)) }
    {
        let mut port = HostPort::new(alloc)?;
        port.pending.extend(&parts.pending)?;
        port.outputs.extend_from_slice(&parts.outputs)?;
        port.marks.resize(parts.outputs.len(), 0)?;
        port.in_base = parts.in_base;
        port.out_base = parts.out_base;
        Ok(port)
    }

    /// Whether there is no room for another output.
    pub fn is_full(&self) -> bool
        ensures { IsTrue result ↔ (MAX_HELD ≤ length self.now.port.outputs) }
    {
        self.outputs.len() >= MAX_HELD
    }

    /// Takes a token that it can take. This mark, and any above it, show an output. Gives what the port sends.
    pub fn take(&mut self, token: Token, mark: u64) -> Option<Token>
        requires possible { CanTake self.old.port token }
        requires counted { self.old.port.in_base + 1 < 2 ^ 64 }
        ensures took { port_took token self.old.port ≡ Some (self.new.port, option_to_list result) }
        ensures marks { self.new.marks ≡ marks_after token self.old.marks mark }
    {
        match token {
            Token::Data(byte) => {
                self.outputs.push_reserved(byte);
                self.marks.push_reserved(mark);
                Some(Token::Ack)
            }
            Token::Ack => {
                self.pending.take_off();
                self.in_base += 1;
                self.pending
                    .as_slice()
                    .first()
                    .map(|byte| Token::Data(*byte))
            }
            Token::Marker => None,
        }
    }

    /// Takes a byte from the host, for which there is room. It goes out at once if none is pending before it.
    pub fn hand_in(&mut self, byte: u8) -> Option<Token>
        requires room { length self.old.port.pending < MAX_HELD }
        ensures handed { handed_in byte self.old.port ≡ Some (self.new.port, option_to_list result) }
        ensures marks { self.new.marks ≡ self.old.marks }
    {
        let is_first = self.pending.as_slice().is_empty();
        self.pending.push(byte);
        if is_first {
            Some(Token::Data(byte))
        } else {
            None
        }
    }

    /// Drops the outputs up to a position, which is above what was confirmed and at most what there is.
    pub fn confirm(&mut self, upto: u64)
        requires past { self.old.port.out_base < upto }
        requires there { upto ≤ self.old.port.out_base + length self.old.port.outputs }
        ensures confirmed { confirmed upto self.old.port ≡ Some (self.new.port, []) }
        ensures marks { self.new.marks ≡ drop (upto - self.old.port.out_base) self.old.marks }
    {
        let count = (upto - self.out_base) as usize;
        drop_first(&mut self.outputs, count);
        drop_first(&mut self.marks, count);
        self.out_base = upto;
    }

    /// Gives the bytes handed in that no acknowledge has taken off.
    pub fn pending(&self) -> &[u8]
        ensures { result.now ≡ self.now.port.pending }
    {
        self.pending.as_slice()
    }

    /// Counts the bytes handed in that were taken off.
    pub fn in_base(&self) -> u64
        ensures { result ≡ self.now.port.in_base }
    {
        self.in_base
    }

    /// Gives the outputs that aren't confirmed yet.
    pub fn outputs(&self) -> &[u8]
        ensures { result.now ≡ self.now.port.outputs }
    {
        self.outputs.as_slice()
    }

    /// Gives for each output the least mark that shows it.
    pub fn marks(&self) -> &[u64]
        ensures value { result.now ≡ self.now.marks }
        ensures len { length result.now ≡ length self.now.port.outputs }
    {
        self.marks.as_slice()
    }

    /// Counts the confirmed outputs.
    pub fn out_base(&self) -> u64
        ensures { result ≡ self.now.port.out_base }
    {
        self.out_base
    }
}

/// Drops the first items. It takes no memory.
pub(crate) fn drop_first<T: Drop>(items: &mut Vec<T>, count: usize)
    requires { count ≤ vec_len items.old }
    ensures items { items.new.items ≡ drop count items.old.items }
    ensures len { vec_len items.new + count ≡ vec_len items.old }
    ensures capacity { vec_capacity items.new ≡ vec_capacity items.old }
{
    let kept = items.len() - count;
    items.rotate_left(count);
    items.truncate(kept);
}

/// Makes `count` ports at which nothing has happened. `AllocError` if memory is out.
pub fn fresh_ports(alloc: Global, count: usize) -> Result<Vec<HostPort>, AllocError>
    ensures { IfOk result (λ ports. ports.items ≡ replicate count fresh_value) }
{
    let mut ports = Vec::with_capacity(alloc, count)?;
    for _ in 0..count {
        ports.push(HostPort::new(alloc)?)?;
    }
    Ok(ports)
}
