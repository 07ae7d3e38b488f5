//! A book's calls for the snapshot that runs: begin, record, close, whole.
//!
//! With the node's half, under its lock, what a call does is the act: `tp_law_network::halves_join`. Until the trim a whole cut stays
//! whole, and neither it nor its images change: `tp_law_network::whole_cuts_stay`.

ghost use Rattle.std.specs.Prelude.{◌≡◌, ◌<◌, ◌+◌, Some, true, length, IfOk, OnErr};
ghost use Rattle.tp_book.specs.Lower.{option_copied, Begin, Record, Close, CutHolds, happens, is_first, on_line, t414, WholeCut, IsWhole, whole, Marker};
ghost use Rattle.tp_book.specs.Needs.{has_recorded_in, is_asked};
ghost use Rattle.tp_book.specs.Book.{count_of_nodes, world_of};
ghost use Rattle.tp_book.specs.Marked.{after_begin, after_record, after_close, after_close_over, is_closable, taker_of, begin_refusal};
ghost use Rattle.tp_book.specs.Refusals.{IsAnswer};

use crate::Cut;
use crate::book::Book;
use crate::refusal::Refusal;
use std::alloc::Global;
use tp_model::Token;
use tp_model::limits::NUMBER_LIMIT;

impl Book {
    /// Begins a snapshot: the host records its ports, and a Marker goes onto each of their wired lines. Each node is then asked to record.
    /// Fails with `SnapshotRunning`, `StoreBroken`, `JournalFull`, or `Memory`.
    pub fn begin(&mut self, alloc: Global) -> Result<(), Refusal>
        ensures answer { IsAnswer (begin_refusal self.old) result }
        ensures ok { IfOk result (λ done. self.new ≡ after_begin self.old) }
        ensures act { IfOk result (λ done. happens t414 (world_of self.old) Begin ≡ Some (world_of self.new)) }
        ensures err { OnErr result (self.new ≡ self.old) }
    {
        if self.snapshots.is_running() {
            return Err(Refusal::SnapshotRunning);
        }
        if self.journal.is_broken() {
            return Err(Refusal::StoreBroken);
        }
        if self.generation == NUMBER_LIMIT - 1 {
            return Err(Refusal::JournalFull);
        }
        self.journal.known();
        if self.journal.begin_in(alloc, &mut self.snapshots).is_err() {
            return Err(Refusal::Memory);
        }
        self.journal.mark_ports();
        Ok(())
    }

    /// Whether a snapshot runs in which a node hasn't recorded.
    pub fn asked(&self, node: u8) -> bool
        requires { node < count_of_nodes self.now }
        ensures { result ≡ is_asked self.now.state.snapshot node }
    {
        self.journal.known();
        self.snapshots.is_asked(node as usize)
    }

    /// Whether a snapshot runs in which a process has recorded; the host is the last process.
    pub fn recorded(&self, process: usize) -> bool
        requires { process < count_of_nodes self.now + 1 }
        ensures { result ≡ has_recorded_in self.now.state.snapshot process }
    {
        self.journal.known();
        self.snapshots.has_recorded(process)
    }

    /// Records a node that was asked to: its image is frozen, and a Marker goes onto each of its wired lines. It takes no memory.
    pub fn record(&mut self, node: u8)
        requires there { node < count_of_nodes self.old }
        requires asked { is_asked self.old.state.snapshot node ≡ true }
        ensures book { self.new ≡ after_record self.old node }
        ensures act { happens t414 (world_of self.old) (Record node) ≡ Some (world_of self.new) }
    {
        self.journal.known();
        let image = self.journal.image_of(node);
        self.snapshots.record(node, &image);
        self.journal.mark_node(node);
    }

    /// Whether a Marker is at the front of a line.
    pub fn marker_ready(&self, line: u16) -> bool
        requires { line < length self.now.state.lines }
        ensures { result ≡ is_first (on_line self.now.state.lines line) Marker }
    {
        self.journal.front(line) == Some(Token::Marker)
    }

    /// Takes off the Marker at the front of a line whose receiver has recorded. It makes no entry, and takes no memory.
    pub fn close_line(&mut self, line: u16)
        requires there { line < length self.old.state.lines }
        requires ready { is_first (on_line self.old.state.lines line) Marker ≡ true }
        requires recorded { has_recorded_in self.old.state.snapshot (taker_of self.old line) ≡ true }
        ensures book { self.new ≡ after_close self.old line }
        ensures act { happens t414 (world_of self.old) (Close line) ≡ Some (world_of self.new) }
    {
        self.journal.known();
        self.snapshots.close(line as usize);
        self.journal.drop_marker(line);
    }

    /// Whether a Marker is on a line whose receiver has recorded.
    pub fn is_closable(&self, line: u16) -> bool
        requires { line < length self.now.state.lines }
        ensures { result ≡ is_closable self.now line }
    {
        self.journal.known();
        self.journal.has_marker(line) && self.snapshots.has_recorded(self.journal.taker(line))
    }

    /// Takes the Marker off a line whose receiver has recorded, also from after other tokens. They were sent before it, so they belong to
    /// the line in the cut. They stay on the line, and are taken later. It makes no entry, and takes no memory.
    pub fn close_over(&mut self, line: u16)
        requires there { line < length self.old.state.lines }
        requires ready { is_closable self.old line ≡ true }
        ensures book { self.new ≡ after_close_over self.old line }
        ensures act { happens t414 (world_of self.old) (Close line) ≡ Some (world_of self.new) }
    {
        self.journal.known();
        self.journal.close_over_in(&mut self.snapshots, line);
        self.journal.unmark(line);
    }

    /// Gives the cut; `None` unless a snapshot runs, all have recorded and each wired line's Marker was taken. The cut is then the network
    /// that the entries in it lead to, and these may come first.
    pub fn whole(&self) -> Option<&Cut>
        ensures value { option_copied result ≡ whole (world_of self.now) }
        ensures holds { (cut : WholeCut) → whole (world_of self.now) ≡ Some cut → CutHolds t414 (world_of self.now) cut }
        ensures only { (cut : WholeCut) → whole (world_of self.now) ≡ Some cut → IsWhole (world_of self.now) }
        ensures there { IsWhole (world_of self.now) → (cut : WholeCut) × (whole (world_of self.now) ≡ Some cut) }
    {
        self.journal.known();
        self.snapshots.whole(self.journal.wires())
    }
}
