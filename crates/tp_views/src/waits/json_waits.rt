//! What `waits` prints for scripts.

ghost use Rattle.std.specs.Prelude.{◌≡◌, ◌++◌, ◌<◌, ◌≤◌, IfOk, OnOk, length, string_bytes};
ghost use Rattle.tp_model.specs.declared.limits.TheConstants.{MAX_NODES};
ghost use Rattle.tp_views.specs.JsonWaits.{begun_fields, cycle_field, deed_fields, does_field, end_item, ends_list, ends_name, halted_field, item_after, items_from, last_field, link_fields, node_item, nodes_items, number_field, number_or_null, other_field, other_value, resumes_fields, since_field, wait_item, waits_json, why_field};
ghost use Rattle.tp_views.specs.Maps.{rows_seen};
ghost use Rattle.tp_views.specs.NodeMaps.{maps_seen};
ghost use Rattle.tp_views.specs.Scene.{seen_in};

use crate::maps::MapRow;
use crate::node_maps::NodeMaps;
use crate::text::json::{comma, push};
use crate::text::json_maps::push_spot_fields;
use crate::text::parts::Part::{Number, Text};
use crate::text::parts::push_parts;
use crate::waits::cycles::{first_of, reached};
use crate::waits::scene::{Doing, NodeSeen, Scene};
use crate::waits::since::{Since, known_since};
use crate::waits::sums::why_name;
use crate::waits::wait_lines::{before, deed_name};
use crate::waits::waiting::{LinkWaits, Wait, links_of, side_of};
use crate::waits::why::Reason;
use std::alloc::{AllocError, Global};
use tp_model::{Fault, WireEnd};
use tp_node::Waiter;
use tp_trace::fault_name;

/// Appends a field whose value may be none.
fn push_number_or_null(text: &mut String, name: &str, number: Option<u64>) -> Result<(), AllocError>
    ensures { OnOk result (string_bytes text.new ≡ string_bytes text.old ++ number_or_null name.now number) }
{
    match number {
        Some(number) => push_parts(text, &[Text(name), Number(number)]),
        None => push_parts(text, &[Text(name), Text("null")]),
    }
}

/// Appends that a node halted, why, and at which address.
fn push_halted(
    text: &mut String,
    rows: &[MapRow<'_>],
    fault: Fault,
    at: u32,
) -> Result<(), AllocError>
    ensures { OnOk result (string_bytes text.new ≡ string_bytes text.old ++ halted_field (rows_seen rows.now) fault at) }
{
    push(text, ",\"does\":\"halted\",\"fault\":\"")?;
    push(text, fault_name(fault))?;
    push_parts(text, &[Text("\",\"at\":"), Number(at as u64)])?;
    push_spot_fields(text, rows, at)
}

fn push_does(text: &mut String, rows: &[MapRow<'_>], doing: Doing) -> Result<(), AllocError>
    ensures { OnOk result (string_bytes text.new ≡ string_bytes text.old ++ does_field (rows_seen rows.now) doing) }
{
    match doing {
        Doing::Halted { fault, at } => push_halted(text, rows, fault, at),
        Doing::Runs => push(text, ",\"does\":\"runs\""),
        Doing::Rests => push(text, ",\"does\":\"rests\""),
    }
}

/// Appends the other end of a wire.
fn push_other(text: &mut String, other: Option<WireEnd>) -> Result<(), AllocError>
    ensures { OnOk result (string_bytes text.new ≡ string_bytes text.old ++ other_value other) }
{
    match other {
        Some(WireEnd::Link(node, link)) => push_parts(
            text,
            &[
                Text("{\"node\":"),
                Number(node as u64),
                Text(",\"link\":"),
                Number(link as u64),
                Text("}"),
            ],
        ),
        Some(WireEnd::Port(port)) => push_parts(
            text,
            &[Text("{\"port\":"), Number(port as u64), Text("}")],
        ),
        None => push_parts(text, &[Text("null")]),
    }
}

/// Appends where a process goes on, and which instruction is before that, if a map is there.
fn push_resumes(
    text: &mut String,
    rows: &[MapRow<'_>],
    resumes: Option<u32>,
) -> Result<(), AllocError>
    ensures { OnOk result (string_bytes text.new ≡ string_bytes text.old ++ resumes_fields (rows_seen rows.now) resumes) }
{
    match resumes {
        Some(at) => {
            push_parts(text, &[Text(",\"at\":"), Number(at as u64)])?;
            push_spot_fields(text, rows, before(at))
        }
        None => push_parts(text, &[Text(",\"at\":null")]),
    }
}

/// Appends what a process does that waits at a link, and its descriptor.
fn push_deed(text: &mut String, waiter: Waiter) -> Result<(), AllocError>
    ensures { OnOk result (string_bytes text.new ≡ string_bytes text.old ++ deed_fields waiter) }
{
    let deed = deed_name(waiter.deed);
    push_parts(
        text,
        &[
            Text("{\"does\":\""),
            Text(deed),
            Text("\",\"left\":"),
            Number(waiter.left as u64),
            Text(",\"process\":"),
            Number(waiter.process as u64),
        ],
    )
}

/// Appends why a process still waits, and ends its object.
fn push_why(text: &mut String, why: Reason) -> Result<(), AllocError>
    ensures { OnOk result (string_bytes text.new ≡ string_bytes text.old ++ why_field why) }
{
    let name = why_name(why);
    push_parts(text, &[Text(",\"why\":\""), Text(name), Text("\"}")])
}

/// Appends for whom a process waits.
fn push_whom(text: &mut String, other: Option<WireEnd>) -> Result<(), AllocError>
    ensures { OnOk result (string_bytes text.new ≡ string_bytes text.old ++ other_field other) }
{
    push(text, ",\"other\":")?;
    push_other(text, other)
}

/// Appends since which entry a process waits.
fn push_since(text: &mut String, since: Since) -> Result<(), AllocError>
    ensures { OnOk result (string_bytes text.new ≡ string_bytes text.old ++ since_field since) }
{
    match since {
        Since::By(number) => push_parts(text, &[Text(",\"since\":"), Number(number)]),
        Since::Before(_) => push(text, ",\"since\":null"),
    }
}

/// Appends what a process does that waits at a link, its descriptor, and since when it waits.
fn push_begun(text: &mut String, wait: &Wait) -> Result<(), AllocError>
    ensures { OnOk result (string_bytes text.new ≡ string_bytes text.old ++ begun_fields wait.now) }
{
    push_deed(text, wait.waiter)?;
    push_since(text, wait.since)
}

/// Appends the object of a process that waits at an end of a link.
fn push_wait(text: &mut String, rows: &[MapRow<'_>], wait: &Wait) -> Result<(), AllocError>
    ensures { OnOk result (string_bytes text.new ≡ string_bytes text.old ++ wait_item (rows_seen rows.now) wait.now) }
{
    push_begun(text, wait)?;
    push_resumes(text, rows, wait.waiter.resumes)?;
    push_whom(text, wait.other)?;
    push_why(text, wait.why)
}

/// Appends the item of an end of a link: the process that waits there, or null.
fn push_end(text: &mut String, rows: &[MapRow<'_>], end: &Option<Wait>) -> Result<(), AllocError>
    ensures { OnOk result (string_bytes text.new ≡ string_bytes text.old ++ end_item (rows_seen rows.now) end.now) }
{
    match end {
        Some(wait) => push_wait(text, rows, wait),
        None => push(text, "null"),
    }
}

/// Appends the item of an end, which has that many before it.
fn push_item(
    text: &mut String,
    rows: &[MapRow<'_>],
    before: usize,
    end: &Option<Wait>,
) -> Result<(), AllocError>
    ensures { OnOk result (string_bytes text.new ≡ string_bytes text.old ++ item_after (rows_seen rows.now) before end.now) }
{
    push(text, comma(before))?;
    push_end(text, rows, end)
}

/// Appends what stands before the items of the output ends, or of the input ends.
fn push_ends_name(text: &mut String, sends: bool) -> Result<(), AllocError>
    ensures { OnOk result (string_bytes text.new ≡ string_bytes text.old ++ ends_name sends) }
{
    if sends {
        push(text, ",\"out\":[")
    } else {
        push(text, ",\"in\":[")
    }
}

/// Appends the items of the output ends, or of the input ends, of links.
fn push_items(
    text: &mut String,
    rows: &[MapRow<'_>],
    sends: bool,
    links: &[LinkWaits],
) -> Result<(), AllocError>
    ensures { OnOk result (string_bytes text.new ≡ string_bytes text.old ++ items_from (rows_seen rows.now) sends 0 links.now) }
{
    for (before, link) in links.iter().enumerate() {
        push_item(text, rows, before, &side_of(sends, link))?;
    }
    Ok(())
}

/// Appends the list of the output ends, or of the input ends.
fn push_ends(
    text: &mut String,
    rows: &[MapRow<'_>],
    sends: bool,
    links: &[LinkWaits],
) -> Result<(), AllocError>
    ensures { OnOk result (string_bytes text.new ≡ string_bytes text.old ++ ends_list (rows_seen rows.now) sends links.now) }
{
    push_ends_name(text, sends)?;
    push_items(text, rows, sends, links)?;
    push(text, "]")
}

/// Appends the field of the first node of those that wait for one another with a node.
fn push_cycle(text: &mut String, number: usize, rows: &[u64]) -> Result<(), AllocError>
    ensures { OnOk result (string_bytes text.new ≡ string_bytes text.old ++ cycle_field number rows.now) }
{
    let mine = match rows.get(number) {
        Some(row) => *row,
        None => 0,
    };
    match first_of(mine, number, rows) {
        Some(first) => push_parts(text, &[Text(",\"cycle\":"), Number(first as u64)]),
        None => push(text, ",\"cycle\":null"),
    }
}

/// Appends which node it is, after that many others.
fn push_number(text: &mut String, number: usize) -> Result<(), AllocError>
    ensures { OnOk result (string_bytes text.new ≡ string_bytes text.old ++ number_field number) }
{
    push(text, comma(number))?;
    push_parts(text, &[Text("{\"node\":"), Number(number as u64)])
}

/// Appends the field of the last entry that a node made.
fn push_last(text: &mut String, scene: &Scene, number: usize) -> Result<(), AllocError>
    ensures { OnOk result (string_bytes text.new ≡ string_bytes text.old ++ last_field (seen_in scene.now) number) }
{
    push_number_or_null(text, ",\"last\":", known_since(&scene.since, number).last)
}

/// Appends the fields of those that a node waits for, and ends its object.
fn push_links(
    text: &mut String,
    rows: &[MapRow<'_>],
    reached: &[u64],
    number: usize,
    links: &[LinkWaits],
) -> Result<(), AllocError>
    ensures { OnOk result (string_bytes text.new ≡ string_bytes text.old ++ link_fields (rows_seen rows.now) reached.now number links.now) }
{
    push_cycle(text, number, reached)?;
    push_ends(text, rows, true, links)?;
    push_ends(text, rows, false, links)?;
    push(text, "}")
}

/// Appends the object of a node that has that many nodes before it.
fn push_node(
    text: &mut String,
    scene: &Scene,
    reached: &[u64],
    rows: &[MapRow<'_>],
    number: usize,
    own: &NodeSeen,
) -> Result<(), AllocError>
    requires { number < MAX_NODES }
    ensures { OnOk result (string_bytes text.new ≡ string_bytes text.old ++ node_item (seen_in scene.now) reached.now (rows_seen rows.now) number own.now) }
{
    push_number(text, number)?;
    push_does(text, rows, own.doing)?;
    push_last(text, scene, number)?;
    push_links(text, rows, reached, number, &links_of(scene, number, own))
}

fn push_nodes(
    text: &mut String,
    scene: &Scene,
    reached: &[u64],
    maps: &NodeMaps<'_>,
) -> Result<(), AllocError>
    requires { length scene.now.nodes.items ≤ MAX_NODES }
    ensures { OnOk result (string_bytes text.new ≡ string_bytes text.old ++ nodes_items (seen_in scene.now) reached.now (maps_seen maps.now) 0 scene.now.nodes.items) }
{
    for (number, own) in scene.nodes.iter().enumerate() {
        push_node(text, scene, reached, maps.of(number), number, own)?;
    }
    Ok(())
}

/// All that `waits` prints, as JSON.
pub(crate) fn waits_json(
    alloc: Global,
    scene: &Scene,
    maps: &NodeMaps<'_>,
) -> Result<String, AllocError>
    requires { length scene.now.nodes.items ≤ MAX_NODES }
    ensures { IfOk result (λ text. string_bytes text ≡ waits_json (seen_in scene.now) (maps_seen maps.now)) }
{
    let sets = reached(alloc, scene)?;
    let mut text = String::new(alloc);
    push(&mut text, "{\"nodes\":[")?;
    push_nodes(&mut text, scene, &sets, maps)?;
    push(&mut text, "]}\n")?;
    Ok(text)
}
