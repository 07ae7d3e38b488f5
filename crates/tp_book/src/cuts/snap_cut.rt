//! The cut that a snapshot gathers: `Cut`.

ghost use Rattle.std.specs.Prelude.{◌≡◌, ◌+◌, ◌<◌, ◌≤◌, ◌^◌, ◌++◌, ◌∷◌, [], IfOk, length, map, set, replicate};
ghost use Rattle.tp_book.specs.Lower.{before, on_line, LINE_TOKENS};
ghost use Rattle.tp_book.specs.PortParts.{port_made};

use crate::{HostPort, PortParts, all_parts};
use std::alloc::{AllocError, Global};
use std::marker::Model;
use tp_model::Token;
use tp_net::{Lines, is_marker};

/// A cut: how many entries of each process it holds, the ports and lines in it, and how many entries since the kept cut
/// it holds in all. The host is the last process.
#[derive(Drop)]
pub struct Cut {
    counts: Vec<u64>,
    ports: Vec<PortParts>,
    lines: Lines,
    size: u64,
}

impl Model for Cut {
    ghost use Rattle.std.specs.Prelude.{map};
    ghost use Rattle.tp_model.specs.WholeCut.{WholeCut};
    ghost use Rattle.tp_book.specs.PortParts.{port_made};

    ghost Value = { WholeCut };

    ghost view = { λ c. record { counts = c.counts.items; ports = map port_made c.ports.items; lines = c.lines; size = c.size } };
}

impl Cut {
    /// Makes a cut with `ports`, of `processes` processes and `lines` empty lines. `AllocError` if memory is out.
    pub(crate) fn new(
        alloc: Global,
        processes: usize,
        ports: &[HostPort],
        lines: usize,
        size: u64,
    ) -> Result<Cut, AllocError>
        ensures { IfOk result (λ cut. cut ≡ record { counts = replicate processes 0; ports = map (λ p. p.port) ports.now; lines = replicate lines []; size = size }) }
    {
        Ok(Cut {
            counts: Vec::from_elem(alloc, 0, processes)?,
            ports: all_parts(alloc, ports)?,
            lines: Lines::new(alloc, lines)?,
            size,
        })
    }

    /// Gives the number of entries of each process in it.
    pub fn counts(&self) -> &[u64]
        ensures { result.now ≡ self.now.counts }
    {
        self.counts.as_slice()
    }

    /// Gives the ports in it.
    pub fn ports(&self) -> &[PortParts]
        ensures { map port_made result.now ≡ self.now.ports }
    {
        self.ports.as_slice()
    }

    /// Gives the lines in it.
    pub fn lines(&self) -> &Lines
        ensures { result.now ≡ self.now.lines }
    {
        &self.lines
    }

    /// Counts the entries since the kept cut in it.
    pub fn size(&self) -> u64
        ensures { result ≡ self.now.size }
    {
        self.size
    }

    /// Gives the number of entries of each process in it, and drops the rest.
    pub fn into_counts(self) -> Vec<u64>
        ensures { result.items ≡ self.counts }
    {
        self.counts
    }

    /// Sets the number of entries of `process` in it.
    pub(crate) fn put_count(&mut self, process: usize, count: u64)
        requires { process < length self.old.counts }
        ensures { self.new ≡ record self.old { counts = set self.old.counts process count } }
    {
        self.counts[process] = count;
    }

    /// Counts one entry more.
    pub(crate) fn grow(&mut self)
        requires { self.old.size + 1 < 2 ^ 64 }
        ensures { self.new ≡ record self.old { size = self.old.size + 1 } }
    {
        self.size += 1;
    }

    /// Adds a token to a line of it.
    pub(crate) fn collect(&mut self, line: usize, token: Token)
        requires there { line < length self.old.lines }
        requires room { length (on_line self.old.lines line) < LINE_TOKENS }
        ensures { self.new ≡ record self.old { lines = set self.old.lines line (on_line self.old.lines line ++ token ∷ []) } }
    {
        self.lines.push(line, token);
    }
    /// Adds the tokens before the Marker of a line of the network to that line of it, after those that it has.
    pub(crate) fn collect_before(&mut self, line: usize, lines: &Lines)
        requires there { (line < length self.old.lines) × (line < length lines.now) }
        requires room { length (on_line self.old.lines line ++ before (on_line lines.now line)) ≤ LINE_TOKENS }
        ensures { self.new ≡ record self.old { lines = set self.old.lines line (on_line self.old.lines line ++ before (on_line lines.now line)) } }
    {
        for at in 0..lines.len(line) {
            let Some(token) = lines.get(line, at) else {
                unreachable!()
            };
            if is_marker(token) {
                return;
            }
            self.collect(line, token);
        }
    }
}
