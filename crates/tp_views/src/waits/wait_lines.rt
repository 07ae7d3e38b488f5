//! What `waits` prints: a line for each node, one for each process that waits at a link, and what these add up to.

ghost use Rattle.std.specs.Prelude.{◌≡◌, ◌++◌, ◌-◌, ◌<◌, ◌≤◌, IfOk, OnOk, length, string_bytes};
ghost use Rattle.tp_model.specs.declared.limits.TheConstants.{MAX_NODES};
ghost use Rattle.tp_views.specs.Maps.{rows_seen};
ghost use Rattle.tp_views.specs.NodeMaps.{maps_seen};
ghost use Rattle.tp_views.specs.Scene.{seen_in};
ghost use Rattle.tp_views.specs.Waits.{deed_name, deed_part, doing_part, end_part, halted_part, last_part, link_part, links_part, name_part, node_lines, nodes_lines, resumes_part, side_name, since_part, toward, wait_line, waiter_part, waits_text};

use crate::maps::{MapRow, push_spot};
use crate::node_maps::NodeMaps;
use crate::text::parts::Part::{Number, Text, Word};
use crate::text::parts::push_parts;
use crate::waits::cycles::push_cycles;
use crate::waits::scene::{Doing, NodeSeen, Scene};
use crate::waits::since::{Since, known_since};
use crate::waits::sums::{push_other, push_sums, why_name};
use crate::waits::waiting::{LinkWaits, Wait, links_of};
use std::alloc::{AllocError, Global};
use tp_model::Fault;
use tp_node::{Deed, halt_byte};
use tp_trace::fault_name;

/// The word for what a process does at the link at which it waits.
pub(crate) fn deed_name(deed: Deed) -> &'static str
    ensures { result.now ≡ deed_name deed }
{
    match deed {
        Deed::Sends => "sends",
        Deed::Inputs => "inputs",
        Deed::Chooses => "chooses",
    }
}

/// The word for a link's output end, or for its input end.
fn side_name(sends: bool) -> &'static str
    ensures { result.now ≡ side_name sends }
{
    if sends { " out " } else { " in " }
}

/// The word before the other end of the wire.
fn toward(sends: bool) -> &'static str
    ensures { result.now ≡ toward sends }
{
    if sends { " to " } else { " from " }
}

fn push_halted(
    text: &mut String,
    rows: &[MapRow<'_>],
    fault: Fault,
    at: u32,
) -> Result<(), AllocError>
    ensures { OnOk result (string_bytes text.new ≡ string_bytes text.old ++ halted_part (rows_seen rows.now) fault at) }
{
    let (code, name) = (halt_byte(Some(fault)), fault_name(fault));
    push_parts(
        text,
        &[
            Text(" halted "),
            Number(code as u64),
            Text(" "),
            Text(name),
            Text(" at "),
            Word(at),
        ],
    )?;
    push_spot(text, "", rows, at)
}

fn push_doing(text: &mut String, rows: &[MapRow<'_>], doing: Doing) -> Result<(), AllocError>
    ensures { OnOk result (string_bytes text.new ≡ string_bytes text.old ++ doing_part (rows_seen rows.now) doing) }
{
    match doing {
        Doing::Halted { fault, at } => push_halted(text, rows, fault, at),
        Doing::Runs => push_parts(text, &[Text(" runs")]),
        Doing::Rests => push_parts(text, &[Text(" rests")]),
    }
}

fn push_last(text: &mut String, last: Option<u64>) -> Result<(), AllocError>
    ensures { OnOk result (string_bytes text.new ≡ string_bytes text.old ++ last_part last) }
{
    match last {
        Some(number) => push_parts(text, &[Text(" last "), Number(number), Text("\n")]),
        None => push_parts(text, &[Text(" last none\n")]),
    }
}

/// Appends the end at which a process waits, what it does there, and how many bytes are left.
fn push_deed(text: &mut String, wait: &Wait) -> Result<(), AllocError>
    ensures { OnOk result (string_bytes text.new ≡ string_bytes text.old ++ deed_part wait.now) }
{
    let (side, deed) = (side_name(wait.sends), deed_name(wait.waiter.deed));
    push_parts(
        text,
        &[
            Text("node "),
            Number(wait.node as u64),
            Text(side),
            Number(wait.link as u64),
            Text(" "),
            Text(deed),
            Text(" left "),
            Number(wait.waiter.left as u64),
        ],
    )
}

/// Appends since when a process waits.
pub(crate) fn push_since(text: &mut String, since: Since) -> Result<(), AllocError>
    ensures { OnOk result (string_bytes text.new ≡ string_bytes text.old ++ since_part since) }
{
    match since {
        Since::By(number) => push_parts(text, &[Text(" since "), Number(number)]),
        Since::Before(number) => push_parts(text, &[Text(" since before "), Number(number)]),
    }
}

/// Appends the end at which a process waits, what it does there, since when, and its descriptor.
fn push_waiter(text: &mut String, wait: &Wait) -> Result<(), AllocError>
    ensures { OnOk result (string_bytes text.new ≡ string_bytes text.old ++ waiter_part wait.now) }
{
    push_deed(text, wait)?;
    push_since(text, wait.since)?;
    push_parts(text, &[Text(" process "), Word(wait.waiter.process)])
}

/// The address of the last byte before the instruction at `at`.
pub(crate) fn before(at: u32) -> u32
    ensures { result ≡ at - 1 }
{
    at.saturating_sub(1)
}

/// Appends the address at which a process goes on. The map names the instruction before it, in which the process waits.
fn push_resumes(
    text: &mut String,
    rows: &[MapRow<'_>],
    resumes: Option<u32>,
) -> Result<(), AllocError>
    ensures { OnOk result (string_bytes text.new ≡ string_bytes text.old ++ resumes_part (rows_seen rows.now) resumes) }
{
    match resumes {
        Some(at) => {
            push_parts(text, &[Text(" at "), Word(at)])?;
            push_spot(text, " after", rows, before(at))
        }
        None => push_parts(text, &[Text(" at nowhere")]),
    }
}

/// Appends the line of a process that waits.
fn push_wait(text: &mut String, rows: &[MapRow<'_>], wait: &Wait) -> Result<(), AllocError>
    ensures { OnOk result (string_bytes text.new ≡ string_bytes text.old ++ wait_line (rows_seen rows.now) wait.now) }
{
    let name = why_name(wait.why);
    push_waiter(text, wait)?;
    push_resumes(text, rows, wait.waiter.resumes)?;
    push_other(text, toward(wait.sends), wait.other)?;
    push_parts(text, &[Text(": "), Text(name), Text("\n")])
}

/// Appends the line of the process that waits at an end, if one does.
fn push_end(text: &mut String, rows: &[MapRow<'_>], end: &Option<Wait>) -> Result<(), AllocError>
    ensures { OnOk result (string_bytes text.new ≡ string_bytes text.old ++ end_part (rows_seen rows.now) end.now) }
{
    match end {
        Some(wait) => push_wait(text, rows, wait),
        None => Ok(()),
    }
}

/// Appends the lines of the processes that wait at a link.
fn push_link(text: &mut String, rows: &[MapRow<'_>], link: &LinkWaits) -> Result<(), AllocError>
    ensures { OnOk result (string_bytes text.new ≡ string_bytes text.old ++ link_part (rows_seen rows.now) link.now) }
{
    push_end(text, rows, &link.output)?;
    push_end(text, rows, &link.input)
}

/// Appends the lines of the processes that wait at some links.
fn push_links(text: &mut String, rows: &[MapRow<'_>], links: &[LinkWaits]) -> Result<(), AllocError>
    ensures { OnOk result (string_bytes text.new ≡ string_bytes text.old ++ links_part (rows_seen rows.now) links.now) }
{
    for link in links {
        push_link(text, rows, link)?;
    }
    Ok(())
}

/// Appends the node's number, with which its line begins.
fn push_name(text: &mut String, number: usize) -> Result<(), AllocError>
    ensures { OnOk result (string_bytes text.new ≡ string_bytes text.old ++ name_part number) }
{
    push_parts(text, &[Text("node "), Number(number as u64)])
}

/// Appends a node's line, and those of its processes that wait at links.
fn push_node(
    text: &mut String,
    scene: &Scene,
    rows: &[MapRow<'_>],
    number: usize,
    own: &NodeSeen,
) -> Result<(), AllocError>
    requires { number < MAX_NODES }
    ensures { OnOk result (string_bytes text.new ≡ string_bytes text.old ++ node_lines (seen_in scene.now) (rows_seen rows.now) number own.now) }
{
    push_name(text, number)?;
    push_doing(text, rows, own.doing)?;
    push_last(text, known_since(&scene.since, number).last)?;
    push_links(text, rows, &links_of(scene, number, own))
}

fn push_nodes(text: &mut String, scene: &Scene, maps: &NodeMaps<'_>) -> Result<(), AllocError>
    requires { length scene.now.nodes.items ≤ MAX_NODES }
    ensures { OnOk result (string_bytes text.new ≡ string_bytes text.old ++ nodes_lines (seen_in scene.now) (maps_seen maps.now) 0 scene.now.nodes.items) }
{
    for (number, own) in scene.nodes.iter().enumerate() {
        push_node(text, scene, maps.of(number), number, own)?;
    }
    Ok(())
}

/// All that `waits` prints.
pub(crate) fn waits_text(
    alloc: Global,
    scene: &Scene,
    maps: &NodeMaps<'_>,
) -> Result<String, AllocError>
    requires { length scene.now.nodes.items ≤ MAX_NODES }
    ensures { IfOk result (λ text. string_bytes text ≡ waits_text (seen_in scene.now) (maps_seen maps.now)) }
{
    let mut text = String::new(alloc);
    push_nodes(&mut text, scene, maps)?;
    push_sums(&mut text, scene)?;
    push_cycles(alloc, &mut text, scene)?;
    Ok(text)
}
