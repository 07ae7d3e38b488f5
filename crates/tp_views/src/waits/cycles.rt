//! Which nodes wait for each other.

ghost use Rattle.std.specs.Prelude.{◌≡◌, ◌++◌, ◌<◌, ◌≤◌, IfOk, OnOk, length, string_bytes};
ghost use Rattle.tp_model.specs.declared.limits.TheConstants.{MAX_NODES};
ghost use Rattle.tp_views.specs.Cycles.{bit_of, closed, cycle_part, cycles_from, cycles_text, edge, end_row, first_of, has, is_first, is_stuck, is_together, leads, link_row, member, members, passed, reached, row_of, rows_in};
ghost use Rattle.tp_views.specs.Scene.{seen_in};

use crate::text::json::push;
use crate::text::parts::Part::{Number, Text};
use crate::text::parts::push_parts;
use crate::waits::scene::{NodeSeen, Scene};
use crate::waits::why::{Reason, waiting_at, why};
use std::alloc::{AllocError, Global};
use tp_model::WireEnd;
use tp_net::{link_line, receiver};

/// Gives the set with only this node; the empty set for a number above 63.
fn bit_of(node: u8) -> u64
    ensures { result ≡ bit_of node }
{
    if node < 64 { 1 << node } else { 0 }
}

/// Whether a set has a node.
fn has(set: u64, node: usize) -> bool
    ensures { result ≡ has set node }
{
    node < 64 && (set >> node) % 2 == 1
}

/// Whether this reason says that both nodes rest and nothing is on the wire between them.
fn is_stuck(why: Reason) -> bool
    ensures { result ≡ is_stuck why }
{
    match why {
        Reason::BothSend | Reason::BothInput | Reason::Elsewhere => true,
        Reason::UnderWay
        | Reason::Halted
        | Reason::Runs
        | Reason::Full
        | Reason::NoInput
        | Reason::NoWire => false,
    }
}

/// Gives the node at this end of a wire, as a set; empty if it is a port's end, or there is none.
fn edge(other: Option<WireEnd>) -> u64
    ensures { result ≡ edge other }
{
    match other {
        Some(WireEnd::Link(node, _)) => bit_of(node),
        Some(WireEnd::Port(_)) | None => 0,
    }
}

/// Gives the node for which a process waits at an end of a link, as a set; empty if none waits there.
fn end_row(scene: &Scene, sends: bool, number: usize, own: &NodeSeen, link: u8) -> u64
    requires { number < MAX_NODES }
    ensures { result ≡ end_row (seen_in scene.now) sends number own.now link }
{
    let line = link_line(number, link as usize);
    if waiting_at(own, sends, link).is_some() && is_stuck(why(scene, sends, own, line)) {
        edge(receiver(&scene.wires, line))
    } else {
        0
    }
}

/// Gives the nodes for which the processes at a link wait.
fn link_row(scene: &Scene, number: usize, own: &NodeSeen, link: u8) -> u64
    requires { number < MAX_NODES }
    ensures { result ≡ link_row (seen_in scene.now) number own.now link }
{
    end_row(scene, true, number, own, link) | end_row(scene, false, number, own, link)
}

/// Gives the nodes for which the processes of a node wait.
fn row_of(scene: &Scene, number: usize, own: &NodeSeen) -> u64
    requires { number < MAX_NODES }
    ensures { result ≡ row_of (seen_in scene.now) number own.now }
{
    link_row(scene, number, own, 0)
        | link_row(scene, number, own, 1)
        | link_row(scene, number, own, 2)
        | link_row(scene, number, own, 3)
}

/// Gives, for each node, the nodes for which it waits itself.
fn rows_of(alloc: Global, scene: &Scene) -> Result<Vec<u64>, AllocError>
    requires { length scene.now.nodes.items ≤ MAX_NODES }
    ensures { IfOk result (λ rows. rows.items ≡ rows_in (seen_in scene.now) 0 scene.now.nodes.items) }
{
    let mut rows = Vec::with_capacity(alloc, scene.nodes.len())?;
    for (number, own) in scene.nodes.iter().enumerate() {
        rows.push(row_of(scene, number, own))?;
    }
    Ok(rows)
}

/// Gives a row together with `through`, the nodes for which `node` waits, if the row has `node`.
fn passed(node: usize, through: u64, row: u64) -> u64
    ensures { result ≡ passed node through row }
{
    if has(row, node) { row | through } else { row }
}

/// Does that for each row.
fn leads(alloc: Global, node: usize, rows: &[u64]) -> Result<Vec<u64>, AllocError>
    ensures { IfOk result (λ next. next.items ≡ leads node rows.now) }
{
    let through = match rows.get(node) {
        Some(row) => *row,
        None => 0,
    };
    let mut next = Vec::with_capacity(alloc, rows.len())?;
    for row in rows {
        next.push(passed(node, through, *row))?;
    }
    Ok(next)
}

/// Gives, for each node, the nodes for which it waits, itself or through others.
fn closed(alloc: Global, rows: Vec<u64>) -> Result<Vec<u64>, AllocError>
    ensures { IfOk result (λ now. now.items ≡ closed (length rows.items) rows.items) }
{
    let count = rows.len();
    let mut now = rows;
    for node in 0..count {
        now = leads(alloc, node, &now)?;
    }
    Ok(now)
}

/// Whether two nodes wait for each other, by their rows.
fn is_together(mine: u64, number: usize, row: u64, other: usize) -> bool
    ensures { result ≡ is_together mine number row other }
{
    has(mine, other) && has(row, number)
}

/// Finds the first of the nodes that wait for each other together with a node; `None` if there is none.
pub(crate) fn first_of(mine: u64, number: usize, rows: &[u64]) -> Option<usize>
    ensures { result ≡ first_of mine number 0 rows.now }
{
    for (other, row) in rows.iter().enumerate() {
        if is_together(mine, number, *row, other) {
            return Some(other);
        }
    }
    None
}

/// Whether a node is the first of those that wait for each other together with it.
fn is_first(mine: u64, number: usize, rows: &[u64]) -> bool
    ensures { result ≡ is_first mine number rows.now }
{
    match first_of(mine, number, rows) {
        Some(first) => first == number,
        None => false,
    }
}

/// Appends a node if it and the given one wait for each other.
fn push_member(
    text: &mut String,
    mine: u64,
    number: usize,
    row: u64,
    other: usize,
) -> Result<(), AllocError>
    ensures { OnOk result (string_bytes text.new ≡ string_bytes text.old ++ member mine number row other) }
{
    if is_together(mine, number, row, other) {
        push_parts(text, &[Text(" "), Number(other as u64)])
    } else {
        Ok(())
    }
}

/// Appends the nodes that wait for each other together with a node.
fn push_members(text: &mut String, mine: u64, number: usize, rows: &[u64]) -> Result<(), AllocError>
    ensures { OnOk result (string_bytes text.new ≡ string_bytes text.old ++ members mine number 0 rows.now) }
{
    for (other, row) in rows.iter().enumerate() {
        push_member(text, mine, number, *row, other)?;
    }
    Ok(())
}

/// Appends the line of the nodes that wait for each other together with a node, if it is the first of them.
fn push_cycle(text: &mut String, mine: u64, number: usize, rows: &[u64]) -> Result<(), AllocError>
    ensures { OnOk result (string_bytes text.new ≡ string_bytes text.old ++ cycle_part mine number rows.now) }
{
    if !is_first(mine, number, rows) {
        return Ok(());
    }
    push(text, "cycle: nodes")?;
    push_members(text, mine, number, rows)?;
    push(text, "\n")
}

fn push_each(text: &mut String, rows: &[u64]) -> Result<(), AllocError>
    ensures { OnOk result (string_bytes text.new ≡ string_bytes text.old ++ cycles_from rows.now 0 rows.now) }
{
    for (number, mine) in rows.iter().enumerate() {
        push_cycle(text, *mine, number, rows)?;
    }
    Ok(())
}

/// Gives, for each node, the nodes for which it waits, itself or through others.
pub(crate) fn reached(alloc: Global, scene: &Scene) -> Result<Vec<u64>, AllocError>
    requires { length scene.now.nodes.items ≤ MAX_NODES }
    ensures { IfOk result (λ rows. rows.items ≡ reached (seen_in scene.now)) }
{
    let rows = rows_of(alloc, scene)?;
    closed(alloc, rows)
}

/// Appends a line for each set of nodes that wait for each other.
pub(crate) fn push_cycles(alloc: Global, text: &mut String, scene: &Scene) -> Result<(), AllocError>
    requires { length scene.now.nodes.items ≤ MAX_NODES }
    ensures { OnOk result (string_bytes text.new ≡ string_bytes text.old ++ cycles_text (seen_in scene.now)) }
{
    let rows = reached(alloc, scene)?;
    push_each(text, &rows)
}
