//! Markers on a journal's lines.

ghost use Rattle.std.specs.Prelude.{◌≡◌, ◌≤◌, ◌<◌, ℕ, IfOk, OnErr, Some, None, true, drop, get_or, length, replicate, set, slice_get};
ghost use Rattle.tp_book.specs.Lower.{before, has_marker, markers, unmarked, has_wire, is_first, on_line, sent, closed_over, first_snapshot, host_markers, node_markers, Marker, option_map};
ghost use Rattle.tp_book.specs.Needs.{KnowsLine, HasRoomBefore};
ghost use Rattle.tp_book.specs.Book.{agreed, count_of_nodes};
ghost use Rattle.tp_book.specs.Marked.{with_lines};

use crate::journal::Journal;
use crate::{Image, Snapshots, mark_node, mark_ports};
use std::alloc::{AllocError, Global};
use tp_model::{Token, WireEnd};

impl Journal {
    /// Whether the store is broken.
    pub(crate) fn is_broken(&self) -> bool
        ensures { result ≡ self.now.broken }
    {
        self.broken
    }

    /// Gives the receiver of each line.
    pub(crate) fn wires(&self) -> &[Option<WireEnd>]
        ensures value { result.now ≡ self.now.state.start.wires }
        ensures len { length result.now ≡ length self.now.state.lines }
    {
        self.wires.as_slice()
    }

    /// Gives the token at the front of a line; `None` if the line is empty.
    pub(crate) fn front(&self, line: u16) -> Option<Token>
        requires { line < length self.now.state.lines }
        ensures { result ≡ slice_get (on_line self.now.state.lines line) 0 }
    {
        self.lines.front(line as usize)
    }

    /// Gives the agreed image of a node. It has no bytes.
    pub(crate) fn image_of(&self, node: u8) -> Image
        ensures { result.image ≡ slice_get (agreed self.now.state) node }
    {
        let both = (self, node);
        Image::of(&both)
    }

    /// Begins a snapshot, in which the host records the ports as they are.
    pub(crate) fn begin_in(
        &self,
        alloc: Global,
        snapshots: &mut Snapshots,
    ) -> Result<(), AllocError>
        requires { count_of_nodes self.now < length snapshots.old.made }
        ensures ok { IfOk result (λ done. snapshots.new ≡ record snapshots.old { snapshot = Some (first_snapshot (count_of_nodes self.now) (length self.now.state.lines) (get_or snapshots.old.made (count_of_nodes self.now) 0) self.now.state.ports (length self.now.state.entries)); frozen = replicate (count_of_nodes self.now) None; front = length self.now.state.entries; early = snapshots.old.made }) }
        ensures err { OnErr result (snapshots.new ≡ snapshots.old) }
    {
        snapshots.begin(
            alloc,
            &self.ports,
            self.runs.len(),
            self.lines.count(),
            self.entries.len(),
        )
    }

    /// Sends a Marker on each port's wired line.
    pub(crate) fn mark_ports(&mut self)
        requires { (line : ℕ) → markers (on_line (sent (has_wire self.old.state.start.wires) self.old.state.lines (host_markers (length self.old.state.start.nodes) (length self.old.state.ports))) line) ≤ 1 }
        ensures { self.new ≡ with_lines self.old (sent (has_wire self.old.state.start.wires) self.old.state.lines (host_markers (length self.old.state.start.nodes) (length self.old.state.ports))) }
    {
        mark_ports(
            &self.wires,
            &mut self.lines,
            self.runs.len(),
            self.ports.len() as u8,
        );
    }

    /// Sends a Marker on each of a node's wired lines.
    pub(crate) fn mark_node(&mut self, node: u8)
        requires there { node < length self.old.state.start.nodes }
        requires few { (line : ℕ) → markers (on_line (sent (has_wire self.old.state.start.wires) self.old.state.lines (node_markers node)) line) ≤ 1 }
        ensures { self.new ≡ with_lines self.old (sent (has_wire self.old.state.start.wires) self.old.state.lines (node_markers node)) }
    {
        mark_node(&self.wires, &mut self.lines, node);
    }

    /// Whether a Marker is on a line.
    pub(crate) fn has_marker(&self, line: u16) -> bool
        requires { line < length self.now.state.lines }
        ensures { result ≡ has_marker (on_line self.now.state.lines line) }
    {
        self.lines.has_marker(line as usize)
    }

    /// Closes a line in the cut: the tokens before its Marker belong to that line there.
    pub(crate) fn close_over_in(&self, snapshots: &mut Snapshots, line: u16)
        requires known { KnowsLine snapshots.old.snapshot line }
        requires there { line < length self.now.state.lines }
        requires room { HasRoomBefore snapshots.old.snapshot self.now.state.lines line }
        ensures { snapshots.new ≡ record snapshots.old { snapshot = option_map (λ snap. closed_over snap line (before (on_line self.now.state.lines line))) snapshots.old.snapshot } }
    {
        snapshots.close_over(line as usize, &self.lines);
    }

    /// Takes the Marker of a line off, also from after other tokens.
    pub(crate) fn unmark(&mut self, line: u16)
        requires there { line < length self.old.state.lines }
        requires few { (l : ℕ) → markers (on_line (set self.old.state.lines line (unmarked (on_line self.old.state.lines line))) l) ≤ 1 }
        ensures { self.new ≡ with_lines self.old (set self.old.state.lines line (unmarked (on_line self.old.state.lines line))) }
    {
        self.lines.unmark(line as usize);
    }

    /// Takes the Marker at the front of a line off.
    pub(crate) fn drop_marker(&mut self, line: u16)
        requires there { line < length self.old.state.lines }
        requires front { is_first (on_line self.old.state.lines line) Marker ≡ true }
        requires few { (l : ℕ) → markers (on_line (set self.old.state.lines line (drop 1 (on_line self.old.state.lines line))) l) ≤ 1 }
        ensures { self.new ≡ with_lines self.old (set self.old.state.lines line (drop 1 (on_line self.old.state.lines line))) }
    {
        let _marker = self.lines.pop(line as usize);
    }
}
