//! Who waits for whom, as a graph for Graphviz: each node with what it does, each wire, and an edge for each process that waits.

ghost use Rattle.std.specs.Prelude.{◌≡◌, ◌++◌, ◌<◌, ◌≤◌, IfOk, OnOk, length, string_bytes};
ghost use Rattle.tp_model.specs.declared.limits.TheConstants.{MAX_NODES};
ghost use Rattle.tp_views.specs.DotWaits.{color_name, doing_label, edge_deed, edge_head, edge_label, edge_line, edge_part, edges_at, edges_of, end_name, is_ended, node_dot, node_line, nodes_dot, spot_label, waits_dot, wire_line, wire_part, wires_of};
ghost use Rattle.tp_views.specs.Maps.{rows_seen};
ghost use Rattle.tp_views.specs.NodeMaps.{maps_seen};
ghost use Rattle.tp_views.specs.Scene.{seen_in};

use crate::maps::{MapRow, push_spot};
use crate::node_maps::NodeMaps;
use crate::text::json::push;
use crate::text::parts::Part::{Number, Text};
use crate::text::parts::push_parts;
use crate::waits::scene::{Doing, NodeSeen, Scene};
use crate::waits::sums::why_name;
use crate::waits::wait_lines::{before, deed_name, push_since};
use crate::waits::waiting::{LinkWaits, Wait, is_first, links_of};
use crate::waits::why::Reason;
use std::alloc::{AllocError, Global};
use tp_model::WireEnd;
use tp_net::{link_line, receiver};
use tp_trace::fault_name;

/// Appends what a node does.
fn push_doing(text: &mut String, doing: Doing) -> Result<(), AllocError>
    ensures { OnOk result (string_bytes text.new ≡ string_bytes text.old ++ doing_label doing) }
{
    match doing {
        Doing::Halted { fault, .. } => {
            let name = fault_name(fault);
            push_parts(text, &[Text("halted "), Text(name)])
        }
        Doing::Runs => push(text, "runs"),
        Doing::Rests => push(text, "rests"),
    }
}

/// Appends what a node is called at the end of a wire; a port, or nobody.
fn push_name(text: &mut String, end: Option<WireEnd>) -> Result<(), AllocError>
    ensures { OnOk result (string_bytes text.new ≡ string_bytes text.old ++ end_name end) }
{
    match end {
        Some(WireEnd::Link(node, _)) => push_parts(text, &[Text("node"), Number(node as u64)]),
        Some(WireEnd::Port(port)) => push_parts(text, &[Text("port"), Number(port as u64)]),
        None => push_parts(text, &[Text("nobody")]),
    }
}

/// Appends the line of a node.
fn push_node_line(text: &mut String, number: usize, doing: Doing) -> Result<(), AllocError>
    ensures { OnOk result (string_bytes text.new ≡ string_bytes text.old ++ node_line number doing) }
{
    push_parts(
        text,
        &[
            Text("  node"),
            Number(number as u64),
            Text(" [label=\""),
            Number(number as u64),
            Text(" "),
        ],
    )?;
    push_doing(text, doing)?;
    push(text, "\"];\n")
}

/// Appends the line of the wire at a link of a node.
fn push_wire_line(
    text: &mut String,
    number: usize,
    other: Option<WireEnd>,
) -> Result<(), AllocError>
    ensures { OnOk result (string_bytes text.new ≡ string_bytes text.old ++ wire_line number other) }
{
    push_parts(text, &[Text("  node"), Number(number as u64), Text(" -> ")])?;
    push_name(text, other)?;
    push(text, " [dir=none color=gray];\n")
}

/// Appends the wire at a link of a node, if that link is its first end.
fn push_wire(text: &mut String, scene: &Scene, number: usize, link: u8) -> Result<(), AllocError>
    requires number { number < MAX_NODES }
    requires nodes { length scene.now.nodes.items ≤ MAX_NODES }
    ensures { OnOk result (string_bytes text.new ≡ string_bytes text.old ++ wire_part (seen_in scene.now) number link) }
{
    let line = link_line(number, link as usize);
    let other = receiver(&scene.wires, line);
    if is_first(scene.nodes.len(), line, other) {
        push_wire_line(text, number, other)
    } else {
        Ok(())
    }
}

/// Appends the wires of a node whose first ends its links are.
fn push_wires(text: &mut String, scene: &Scene, number: usize) -> Result<(), AllocError>
    requires number { number < MAX_NODES }
    requires nodes { length scene.now.nodes.items ≤ MAX_NODES }
    ensures { OnOk result (string_bytes text.new ≡ string_bytes text.old ++ wires_of (seen_in scene.now) number) }
{
    push_wire(text, scene, number, 0)?;
    push_wire(text, scene, number, 1)?;
    push_wire(text, scene, number, 2)?;
    push_wire(text, scene, number, 3)
}

/// Whether nobody in the network can end a process's waiting.
fn is_ended(why: Reason) -> bool
    ensures { result ≡ is_ended why }
{
    match why {
        Reason::UnderWay | Reason::Runs | Reason::Elsewhere => false,
        Reason::Halted
        | Reason::BothSend
        | Reason::BothInput
        | Reason::Full
        | Reason::NoInput
        | Reason::NoWire => true,
    }
}

/// What the edge of a process that waits is drawn in.
fn color_name(why: Reason) -> &'static str
    ensures { result.now ≡ color_name why }
{
    if is_ended(why) { "red" } else { "black" }
}

/// Appends from whom to whom an edge goes.
fn push_edge_head(text: &mut String, wait: &Wait) -> Result<(), AllocError>
    ensures { OnOk result (string_bytes text.new ≡ string_bytes text.old ++ edge_head wait.now) }
{
    push_parts(
        text,
        &[Text("  node"), Number(wait.node as u64), Text(" -> ")],
    )?;
    push_name(text, wait.other)
}

/// Appends what a process does that waits, as an edge's label begins.
fn push_edge_deed(text: &mut String, wait: &Wait) -> Result<(), AllocError>
    ensures { OnOk result (string_bytes text.new ≡ string_bytes text.old ++ edge_deed wait.now) }
{
    let (color, deed) = (color_name(wait.why), deed_name(wait.waiter.deed));
    push_parts(
        text,
        &[
            Text(" [color="),
            Text(color),
            Text(" label=\""),
            Number(wait.link as u64),
            Text(" "),
            Text(deed),
        ],
    )
}

/// Appends what a process does, since when it waits, and why.
fn push_edge_label(text: &mut String, wait: &Wait) -> Result<(), AllocError>
    ensures { OnOk result (string_bytes text.new ≡ string_bytes text.old ++ edge_label wait.now) }
{
    let name = why_name(wait.why);
    push_edge_deed(text, wait)?;
    push_since(text, wait.since)?;
    push_parts(text, &[Text(": "), Text(name)])
}

/// Appends in which instruction a process waits, if a map is there.
fn push_spot_label(
    text: &mut String,
    rows: &[MapRow<'_>],
    resumes: Option<u32>,
) -> Result<(), AllocError>
    ensures { OnOk result (string_bytes text.new ≡ string_bytes text.old ++ spot_label (rows_seen rows.now) resumes) }
{
    match resumes {
        Some(at) => push_spot(text, ",", rows, before(at)),
        None => Ok(()),
    }
}

/// Appends the edge of a process that waits.
fn push_edge(text: &mut String, rows: &[MapRow<'_>], wait: &Wait) -> Result<(), AllocError>
    ensures { OnOk result (string_bytes text.new ≡ string_bytes text.old ++ edge_line (rows_seen rows.now) wait.now) }
{
    push_edge_head(text, wait)?;
    push_edge_label(text, wait)?;
    push_spot_label(text, rows, wait.waiter.resumes)?;
    push(text, "\"];\n")
}

/// Appends the edge of the process that waits at an end, if one does.
fn push_end(text: &mut String, rows: &[MapRow<'_>], end: &Option<Wait>) -> Result<(), AllocError>
    ensures { OnOk result (string_bytes text.new ≡ string_bytes text.old ++ edge_part (rows_seen rows.now) end.now) }
{
    match end {
        Some(wait) => push_edge(text, rows, wait),
        None => Ok(()),
    }
}

/// Appends the edges of the processes that wait at a link.
fn push_link(text: &mut String, rows: &[MapRow<'_>], link: &LinkWaits) -> Result<(), AllocError>
    ensures { OnOk result (string_bytes text.new ≡ string_bytes text.old ++ edges_at (rows_seen rows.now) link.now) }
{
    push_end(text, rows, &link.output)?;
    push_end(text, rows, &link.input)
}

/// Appends the edges of the processes that wait at links.
fn push_links(text: &mut String, rows: &[MapRow<'_>], links: &[LinkWaits]) -> Result<(), AllocError>
    ensures { OnOk result (string_bytes text.new ≡ string_bytes text.old ++ edges_of (rows_seen rows.now) links.now) }
{
    for link in links {
        push_link(text, rows, link)?;
    }
    Ok(())
}

/// Appends a node, its wires and its processes that wait.
fn push_node(
    text: &mut String,
    scene: &Scene,
    rows: &[MapRow<'_>],
    number: usize,
    own: &NodeSeen,
) -> Result<(), AllocError>
    requires number { number < MAX_NODES }
    requires nodes { length scene.now.nodes.items ≤ MAX_NODES }
    ensures { OnOk result (string_bytes text.new ≡ string_bytes text.old ++ node_dot (seen_in scene.now) (rows_seen rows.now) number own.now) }
{
    push_node_line(text, number, own.doing)?;
    push_wires(text, scene, number)?;
    push_links(text, rows, &links_of(scene, number, own))
}

fn push_nodes(text: &mut String, scene: &Scene, maps: &NodeMaps<'_>) -> Result<(), AllocError>
    requires { length scene.now.nodes.items ≤ MAX_NODES }
    ensures { OnOk result (string_bytes text.new ≡ string_bytes text.old ++ nodes_dot (seen_in scene.now) (maps_seen maps.now) 0 scene.now.nodes.items) }
{
    for (number, own) in scene.nodes.iter().enumerate() {
        push_node(text, scene, maps.of(number), number, own)?;
    }
    Ok(())
}

/// All that `waits` prints, as a graph for Graphviz.
pub(crate) fn waits_dot(
    alloc: Global,
    scene: &Scene,
    maps: &NodeMaps<'_>,
) -> Result<String, AllocError>
    requires { length scene.now.nodes.items ≤ MAX_NODES }
    ensures { IfOk result (λ text. string_bytes text ≡ waits_dot (seen_in scene.now) (maps_seen maps.now)) }
{
    let mut text = String::new(alloc);
    push(&mut text, "digraph network {\n  node [shape=box];\n")?;
    push_nodes(&mut text, scene, maps)?;
    push(&mut text, "}\n")?;
    Ok(text)
}
