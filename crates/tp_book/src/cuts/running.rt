//! What a snapshot that runs has gathered.

ghost use Rattle.std.specs.Prelude.{◌≡◌, ◌+◌, ◌<◌, ◌≤◌, ◌^◌, ◌++◌, ℕ, IfOk, Option, Some, List, length, map, get_or, true, not, ◌||◌, ◌∷◌, []};
ghost use Rattle.tp_book.specs.Lower.{AllByRecursion, list_all, option_copied, before, has_wire, is_wired, on_line, pushed, sent, LINE_TOKENS, first_snapshot, with_count, with_closed, closed_over, collected, has_recorded, is_closed, WholeCut, all_closed, whole_of, WireEnd};
ghost use Rattle.tp_book.specs.Room.{HasRoom};
ghost use Rattle.tp_book.specs.SnapCounted.{FitsIn};

use crate::HostPort;
use crate::cuts::snap_cut::Cut;
use std::alloc::{AllocError, Global};
use std::marker::Model;
use tp_model::{Token, WireEnd};
use tp_net::Lines;

/// A snapshot that runs: the cut that it gathers, which processes have recorded, and which lines are closed.
#[derive(Drop)]
pub(crate) struct Running {
    cut: Cut,
    recorded: Vec<bool>,
    closed: Vec<bool>,
}

impl Model for Running {
    ghost use Rattle.tp_model.specs.Snapshot.{Snapshot};

    ghost Value = { Snapshot };

    ghost use Rattle.tp_book.specs.Running.{snapshot_of, IsRunning};

    ghost view = { snapshot_of };

    ghost invariant = { IsRunning };
}

/// Whether a line that has this receiver is closed, or has none.
fn is_done(end: Option<WireEnd>, closed: bool) -> bool
    ensures { result ≡ (not (is_wired end) || closed) }
{
    match end {
        Some(_) => closed,
        None => true,
    }
}

/// Whether each wired line is closed.
fn all_closed(wires: &[Option<WireEnd>], closed: &[bool]) -> bool
    requires { length wires.now ≡ length closed.now }
    ensures { result ≡ all_closed (has_wire wires.now) (λ line. get_or closed.now line true) (length wires.now) }
{
    for line in 0..wires.len() {
        if !is_done(wires[line], closed[line]) {
            return false;
        }
    }
    true
}

/// Whether all flags are set.
fn all_set(flags: &[bool]) -> bool
    ensures { result ≡ list_all (λ flag. flag) flags.now }
{
    for flag in flags {
        if !*flag {
            return false;
        }
    }
    true
}

impl Running {
    /// Makes a snapshot that begins, in which the host has recorded its `ports` after `hosts` entries of its own.
    pub(crate) fn new(
        alloc: Global,
        ports: &[HostPort],
        nodes: usize,
        lines: usize,
        hosts: u64,
        size: u64,
    ) -> Result<Running, AllocError>
        requires few { nodes < 2 ^ 32 }
        ensures { IfOk result (λ running. running ≡ first_snapshot nodes lines hosts (map (λ p. p.port) ports.now) size) }
    {
        let mut cut = Cut::new(alloc, nodes + 1, ports, lines, size)?;
        let mut recorded = Vec::from_elem(alloc, false, nodes + 1)?;
        let closed = Vec::from_elem(alloc, false, lines)?;
        cut.put_count(nodes, hosts);
        recorded[nodes] = true;
        Ok(Running {
            cut,
            recorded,
            closed,
        })
    }

    /// Whether a process has recorded.
    pub(crate) fn has_recorded(&self, process: usize) -> bool
        requires { process < length self.now.counts }
        ensures { result ≡ has_recorded self.now process }
    {
        self.recorded[process]
    }

    /// Whether a line's Marker was taken.
    pub(crate) fn is_closed(&self, line: usize) -> bool
        requires { line < length self.now.closed }
        ensures { result ≡ is_closed self.now line }
    {
        self.closed[line]
    }

    /// Records a process, after `count` entries of its own.
    pub(crate) fn record(&mut self, process: usize, count: u64)
        requires { process < length self.old.counts }
        ensures { self.new ≡ with_count self.old process count }
    {
        self.cut.put_count(process, count);
        self.recorded[process] = true;
    }

    /// Closes a line, whose Marker is taken.
    pub(crate) fn close(&mut self, line: usize)
        requires { line < length self.old.closed }
        ensures { self.new ≡ with_closed self.old line }
    {
        self.closed[line] = true;
    }

    /// Closes a line whose Marker is taken off `lines`: the tokens before it belong to the line in the cut.
    pub(crate) fn close_over(&mut self, line: usize, lines: &Lines)
        requires closed { line < length self.old.closed }
        requires there { (line < length self.old.lines) × (line < length lines.now) }
        requires room { length (on_line self.old.lines line ++ before (on_line lines.now line)) ≤ LINE_TOKENS }
        ensures { self.new ≡ closed_over self.old line (before (on_line lines.now line)) }
    {
        self.cut.collect_before(line, lines);
        self.closed[line] = true;
    }

    /// Adds a token that is taken from a line to that line in the cut, if it isn't closed.
    fn collect_token(&mut self, line: usize, token: Token)
        requires closed { line < length self.old.closed }
        requires there { line < length self.old.lines }
        requires room { HasRoom (λ line. not (is_closed self.old line)) self.old.lines ((line, token) ∷ []) }
        ensures { self.new ≡ record self.old { lines = pushed (λ line. not (is_closed self.old line)) self.old.lines line token } }
    {
        if !self.is_closed(line) {
            self.cut.collect(line, token);
        }
    }

    /// Adds tokens that are taken from lines, in order, to those lines in the cut, if they aren't closed.
    fn collect_all(&mut self, tokens: &[(u16, Token)])
        requires there { AllByRecursion (λ m. (m.0 < length self.old.closed) × (m.0 < length self.old.lines)) tokens.now }
        requires room { HasRoom (λ line. not (is_closed self.old line)) self.old.lines tokens.now }
        ensures { self.new ≡ record self.old { lines = sent (λ line. not (is_closed self.old line)) self.old.lines tokens.now } }
    {
        for m in tokens {
            self.collect_token(m.0 as usize, m.1);
        }
    }

    /// Adds an entry of a process to the cut, or what it takes to lines of the cut, or neither.
    pub(crate) fn collect(&mut self, process: usize, tokens: &[(u16, Token)])
        requires { FitsIn self.old process tokens.now }
        ensures { self.new ≡ collected process tokens.now self.old }
    {
        if self.has_recorded(process) {
            self.collect_all(tokens);
        } else {
            self.cut.grow();
        }
    }

    /// Gives the cut; `None` before all have recorded and each wired line is closed.
    pub(crate) fn whole(&self, wires: &[Option<WireEnd>]) -> Option<&Cut>
        requires { length wires.now ≡ length self.now.closed }
        ensures { option_copied result ≡ whole_of wires.now (length wires.now) (Some self.now) }
    {
        if !all_set(&self.recorded) {
            return None;
        }
        if !all_closed(wires, &self.closed) {
            return None;
        }
        Some(&self.cut)
    }

    /// Ends the snapshot and gives its cut.
    pub(crate) fn into_cut(self) -> Cut
        ensures { (wires : List (Option WireEnd)) (lines : ℕ) (cut : WholeCut) → whole_of wires lines (Some self) ≡ Some cut → result ≡ cut }
    {
        self.cut
    }
}
