//! What is kept beside a journal for snapshots: how many entries each process made, and the snapshot that runs, if one does.

ghost use Rattle.std.specs.Prelude.{◌≡◌, ◌+◌, ◌-◌, ◌<◌, ◌≤◌, ◌^◌, ◌&&◌, not, ◌++◌, [], ℕ, List, Option, Some, None, IfOk, IfSome, IsSome, is_some, OnErr, length, map, set, get_or, replicate};
ghost use Rattle.tp_book.specs.Lower.{option_copied, option_map, before, on_line, first_snapshot, with_count, with_closed, closed_over, has_recorded, is_closed, WholeCut, whole_of, WireEnd};
ghost use Rattle.tp_book.specs.SnapCounted.{Fits, made_more, with_inputs, with_counted};
ghost use Rattle.tp_book.specs.Needs.{has_recorded_in, is_asked, is_needed, KnowsProcess, KnowsLine, HasLines, HasRoomBefore};

use crate::HostPort;
use crate::cuts::running::Running;
use crate::cuts::snap_cut::Cut;
use crate::entries::count::take_away;
use crate::trace::{Image, Trace};
use std::alloc::{AllocError, Global};
use std::marker::Model;
use tp_model::{Entry, Token, WireEnd};
use tp_net::Lines;

/// How many of the entries since the kept cut each process made, and the snapshot that runs, if one does. The host is the
/// last process. Of the last snapshot that began: how many entries there were then, and how many of them each process made.
#[derive(Drop)]
pub struct Snapshots {
    made: Vec<u64>,
    running: Option<Running>,
    front: usize,
    early: Vec<u64>,
    trace: Trace,
}

impl Model for Snapshots {
    ghost use Rattle.tp_book.specs.SnapCounted.{SnapshotsValue};

    ghost Value = { SnapshotsValue };

    ghost view = { λ s. record { made = s.made.items; snapshot = s.running; frozen = s.trace.seen.frozen; history = s.trace.seen.history; floor = s.trace.seen.floor; front = s.front; early = s.early.items } };
}

/// Sets all counts to 0.
fn clear(counts: &mut Vec<u64>)
    ensures count { length counts.new.items ≡ length counts.old.items }
    ensures none { (p : ℕ) → get_or counts.new.items p 0 ≡ 0 }
{
    for process in 0..counts.len() {
        counts[process] = 0;
    }
}

impl Snapshots {
    /// Makes the counts before the first entry, without a snapshot. There are `floor` entries as the book is opened. `AllocError` if memory
    /// is out.
    pub fn new(alloc: Global, processes: usize, floor: usize) -> Result<Snapshots, AllocError>
        ensures { IfOk result (λ snapshots. snapshots ≡ record { made = replicate processes 0; snapshot = None; frozen = []; history = []; floor = floor; front = 0; early = [] }) }
    {
        Ok(Snapshots {
            made: Vec::from_elem(alloc, 0, processes)?,
            running: None,
            front: 0,
            early: Vec::new(alloc),
            trace: Trace::nothing(floor),
        })
    }

    /// Counts an entry that a process made before the book was opened.
    pub fn count(&mut self, process: usize)
        requires { get_or self.old.made process 0 + 1 < 2 ^ 64 }
        ensures { self.new ≡ record self.old { made = made_more self.old.made process } }
    {
        if process < self.made.len() {
            self.made[process] += 1;
        }
    }

    /// Counts an entry of a process, which took `tokens` from the fronts of lines.
    #[inline(always)]
    pub fn journal(&mut self, process: usize, entry: Entry, tokens: &[(u16, Token)])
        requires { Fits self.old process tokens.now }
        ensures { self.new ≡ with_counted self.old process entry tokens.now }
    {
        self.made[process] += 1;
        match &mut self.running {
            Some(running) => running.collect(process, tokens),
            None => {}
        }
        self.trace = self.trace.with_entry(entry);
    }

    /// Counts bytes that the host handed to a port. In a snapshot that runs, the host has recorded.
    pub fn hand_in(&mut self, host: usize, port: u8, bytes: &[u8])
        requires known { host < length self.old.made }
        requires few { get_or self.old.made host 0 + length bytes.now < 2 ^ 64 }
        ensures { self.new ≡ with_inputs self.old host port bytes.now }
    {
        self.made[host] += bytes.len() as u64;
        self.trace = self.trace.with_inputs(port, bytes);
    }

    /// Begins a snapshot: the host records its `ports`, and the cut holds the `entries` so far.
    pub fn begin(
        &mut self,
        alloc: Global,
        ports: &[HostPort],
        nodes: usize,
        lines: usize,
        entries: usize,
    ) -> Result<(), AllocError>
        requires few { nodes < 2 ^ 32 }
        requires known { nodes < length self.old.made }
        ensures ok { IfOk result (λ done. self.new ≡ record self.old { snapshot = Some (first_snapshot nodes lines (get_or self.old.made nodes 0) (map (λ p. p.port) ports.now) entries); frozen = replicate nodes None; front = entries; early = self.old.made }) }
        ensures err { OnErr result (self.new ≡ self.old) }
    {
        let hosts = self.made[nodes];
        let running = Running::new(alloc, ports, nodes, lines, hosts, entries as u64)?;
        self.early = Vec::from_slice(alloc, self.made.as_slice())?;
        self.running = Some(running);
        self.front = entries;
        self.trace = self.trace.unfrozen(nodes);
        Ok(())
    }

    /// Records a node, with its image.
    pub fn record(&mut self, node: u8, image: &Image)
        requires made { node < length self.old.made }
        requires known { KnowsProcess self.old.snapshot node }
        ensures { self.new ≡ record self.old { snapshot = option_map (λ snap. with_count snap node (get_or self.old.made node 0)) self.old.snapshot; frozen = set self.old.frozen node image.now.image } }
    {
        let count = self.made[node as usize];
        match &mut self.running {
            Some(running) => running.record(node as usize, count),
            None => {}
        }
        self.trace = self.trace.with_image(node, image);
    }

    /// Closes a line, whose Marker is taken.
    pub fn close(&mut self, line: usize)
        requires { KnowsLine self.old.snapshot line }
        ensures { self.new ≡ record self.old { snapshot = option_map (λ snap. with_closed snap line) self.old.snapshot } }
    {
        match &mut self.running {
            Some(running) => running.close(line),
            None => {}
        }
    }

    /// Closes a line whose Marker is taken off `lines`: the tokens before it belong to the line in the cut.
    pub fn close_over(&mut self, line: usize, lines: &Lines)
        requires known { KnowsLine self.old.snapshot line }
        requires there { line < length lines.now }
        requires room { HasRoomBefore self.old.snapshot lines.now line }
        ensures { self.new ≡ record self.old { snapshot = option_map (λ snap. closed_over snap line (before (on_line lines.now line))) self.old.snapshot } }
    {
        match &mut self.running {
            Some(running) => running.close_over(line, lines),
            None => {}
        }
    }

    /// Whether a snapshot runs.
    pub fn is_running(&self) -> bool
        ensures { result ≡ is_some self.now.snapshot }
    {
        self.running.is_some()
    }

    /// Whether a snapshot runs in which a process has recorded.
    pub fn has_recorded(&self, process: usize) -> bool
        requires { KnowsProcess self.now.snapshot process }
        ensures { result ≡ has_recorded_in self.now.snapshot process }
    {
        match &self.running {
            Some(running) => running.has_recorded(process),
            None => false,
        }
    }

    /// Whether a snapshot runs in which a process hasn't recorded.
    pub fn is_asked(&self, process: usize) -> bool
        requires { KnowsProcess self.now.snapshot process }
        ensures { result ≡ is_asked self.now.snapshot process }
    {
        match &self.running {
            Some(running) => !running.has_recorded(process),
            None => false,
        }
    }

    /// Whether a snapshot runs in which a process has recorded and a line isn't closed.
    pub fn is_needed(&self, process: usize, line: usize) -> bool
        requires process { KnowsProcess self.now.snapshot process }
        requires line { KnowsLine self.now.snapshot line }
        ensures { result ≡ is_needed self.now.snapshot process line }
    {
        match &self.running {
            Some(running) => running.has_recorded(process) && !running.is_closed(line),
            None => false,
        }
    }

    /// Gives the cut; `None` unless a snapshot runs, all have recorded and each wired line is closed.
    pub fn whole(&self, wires: &[Option<WireEnd>]) -> Option<&Cut>
        requires { HasLines self.now.snapshot (length wires.now) }
        ensures { option_copied result ≡ whole_of wires.now (length wires.now) self.now.snapshot }
    {
        match &self.running {
            Some(running) => running.whole(wires),
            None => None,
        }
    }

    /// Counts the entries that there were when the snapshot began.
    pub(crate) fn front(&self) -> usize
        ensures { result ≡ self.now.front }
    {
        self.front
    }

    /// Gives how many of these entries each process had made.
    pub(crate) fn early(&self) -> &[u64]
        ensures { result.now ≡ self.now.early }
    {
        self.early.as_slice()
    }

    /// Ends the snapshot and gives its cut. Each process has then made the entries outside it.
    pub(crate) fn take_cut(&mut self) -> Option<Cut>
        ensures cut { (wires : List (Option WireEnd)) (lines : ℕ) (cut : WholeCut) → whole_of wires lines self.old.snapshot ≡ Some cut → result ≡ Some cut }
        ensures count { length self.new.made ≡ length self.old.made }
        ensures each { IfSome result (λ cut. (p : ℕ) → get_or self.new.made p 0 ≡ get_or self.old.made p 0 - get_or cut.counts p 0) }
        ensures others { self.new ≡ record self.old { made = self.new.made; snapshot = None; frozen = []; floor = 0 } }
    {
        self.trace = self.trace.ended();
        let cut = self.running.take()?.into_cut();
        take_away(&mut self.made, cut.counts());
        Some(cut)
    }

    /// Ends the snapshot and gives its cut. No process has then made an entry yet.
    pub fn end(&mut self) -> Option<Cut>
        ensures cut { (wires : List (Option WireEnd)) (lines : ℕ) (cut : WholeCut) → whole_of wires lines self.old.snapshot ≡ Some cut → result ≡ Some cut }
        ensures count { length self.new.made ≡ length self.old.made }
        ensures none { (p : ℕ) → get_or self.new.made p 0 ≡ 0 }
        ensures others { self.new ≡ record self.old { made = self.new.made; snapshot = None; frozen = []; floor = 0 } }
    {
        clear(&mut self.made);
        self.trace = self.trace.ended();
        match self.running.take() {
            Some(running) => Some(running.into_cut()),
            None => None,
        }
    }
}
