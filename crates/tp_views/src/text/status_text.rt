//! What one check of `tpnet status` prints: a line, or an object of JSON on a line.

ghost use Rattle.std.specs.Prelude.{◌≡◌, ◌≤◌, ◌<◌, ◌+◌, ◌^◌, ◌++◌, ◌∷◌, [], false, true, IfOk, OnOk, map, string_bytes};
ghost use Rattle.tp_node.specs.Standing.{standing};
ghost use Rattle.tp_views.specs.Done.{steps_made};
ghost use Rattle.tp_views.specs.Fields.{fields_text};
ghost use Rattle.tp_views.specs.Json.{comma, json_items};
ghost use Rattle.tp_views.specs.Status.{counts_item, done_json, front_fields, halted_after, halted_fields, halted_or_none, halts_json, halts_text, journal_fields, look_text, node_item, node_items, port_fields, port_seen_fields, ports_text, status_json, status_line, steps_json, steps_part};

use crate::text::done::{Count, node_count, steps_made, total};
use crate::text::fields::Field::{After, Comma, Item, Named, Words};
use crate::text::fields::Value::{self, Flag, Name, Rate};
use crate::text::fields::push_fields;
use crate::text::formats::form_name;
use crate::text::json::{comma, push};
use crate::text::parts::Part::{Large, Number, Text};
use crate::text::parts::push_parts;
use crate::text::status::{
    PortSeen, Seen, Since, accepted, accepted_before, millis_since, next_before, out_before,
    percent, port_before, put_out, rate, room_of,
};
use crate::text::time_of_day::{push_time, push_time_field};
use std::alloc::{AllocError, Global};
use std::fmt::Write;
use tp_book::{HostPort, Numbered};
use tp_model::{Form, WireEnd};
use tp_node::{Node, Standing};
use tp_recover::Opened;
use tp_trace::fault_name;

/// Appends whether a process holds the device, which checkpoint it has, the form of its area, and the number of the next entry.
fn push_front(
    text: &mut String,
    json: bool,
    held: bool,
    generation: u64,
    form: Form,
    next: u64,
    since: Option<Since>,
) -> Result<(), AllocError>
    ensures { OnOk result (string_bytes text.new ≡ string_bytes text.old ++ fields_text json (front_fields held generation form next since)) }
{
    let (form, grew) = (form_name(form), rate(next as u128, since));
    push_fields(
        text,
        json,
        &[
            After("running ", "{\"running\":", Flag(held)),
            Named("generation", Value::Number(generation)),
            Named("form", Name(form)),
            Named("next", Value::Number(next)),
            After("", ",\"next_per_second\":", Rate(grew)),
        ],
    )
}

/// Appends how many entries the journal has, and how many it has room for.
fn push_journal(text: &mut String, json: bool, entries: usize, room: u64) -> Result<(), AllocError>
    ensures { OnOk result (string_bytes text.new ≡ string_bytes text.old ++ fields_text json (journal_fields entries room)) }
{
    let used = percent(entries, room);
    push_fields(
        text,
        json,
        &[
            Named("entries", Value::Number(entries as u64)),
            After(" of ", ",\"room\":", Value::Number(room)),
            After(" (", ",\"percent\":", Value::Large(used)),
            Words(" %)", ",\"ports\":["),
        ],
    )
}

/// Appends what a port has accepted, and how much of that no node has taken; what it has put out, and how much of that isn't confirmed.
fn push_counts_of(
    text: &mut String,
    json: bool,
    number: usize,
    accepted: u128,
    accepted_rate: Option<u128>,
    pending: usize,
    out: u128,
    out_rate: Option<u128>,
    unconfirmed: usize,
) -> Result<(), AllocError>
    ensures { OnOk result (string_bytes text.new ≡ string_bytes text.old ++ fields_text json (port_fields number accepted accepted_rate pending out out_rate unconfirmed)) }
{
    push_fields(
        text,
        json,
        &[
            Item(" port", number),
            After(" accepted ", "{\"accepted\":", Value::Large(accepted)),
            After("", ",\"accepted_per_second\":", Rate(accepted_rate)),
            Named("pending", Value::Number(pending as u64)),
            Named("put_out", Value::Large(out)),
            After("", ",\"put_out_per_second\":", Rate(out_rate)),
            Named("unconfirmed", Value::Number(unconfirmed as u64)),
            Words("", "}"),
        ],
    )
}

/// Appends what went into a port and came out of it.
fn push_port(
    text: &mut String,
    json: bool,
    number: usize,
    millis: u64,
    before: Option<PortSeen>,
    port: &HostPort,
) -> Result<(), AllocError>
    ensures { OnOk result (string_bytes text.new ≡ string_bytes text.old ++ fields_text json (port_seen_fields number millis before port.now.port)) }
{
    let (now, out) = (accepted(port), put_out(port));
    let (pending, unconfirmed) = (port.pending().len(), port.outputs().len());
    let took = rate(now, accepted_before(millis, before));
    let gave = rate(out, out_before(millis, before));
    push_counts_of(
        text,
        json,
        number,
        now,
        took,
        pending,
        out,
        gave,
        unconfirmed,
    )
}

fn push_ports(
    text: &mut String,
    json: bool,
    at: u64,
    before: &Option<Seen>,
    ports: &[HostPort],
) -> Result<(), AllocError>
    ensures { OnOk result (string_bytes text.new ≡ string_bytes text.old ++ ports_text json 0 at before.now (map (λ port. port.port) ports.now)) }
{
    for (number, port) in ports.iter().enumerate() {
        push_port(
            text,
            json,
            number,
            millis_since(at, before),
            port_before(before, number),
            port,
        )?;
    }
    Ok(())
}

/// Appends why a node has halted, and at which address, if it has; `before` other nodes that have come before it.
fn push_halted(
    text: &mut String,
    json: bool,
    before: usize,
    number: usize,
    standing: Standing,
) -> Result<(), AllocError>
    ensures { OnOk result (string_bytes text.new ≡ string_bytes text.old ++ fields_text json (halted_fields before number standing)) }
{
    match standing {
        Standing::Halted { fault, at } => {
            let why = fault_name(fault);
            push_fields(
                text,
                json,
                &[
                    Comma(before),
                    After(" halted ", "{\"node\":", Value::Number(number as u64)),
                    After(" ", ",\"fault\":", Name(why)),
                    After(" at ", ",\"address\":", Value::Word(at)),
                    Words("", "}"),
                ],
            )
        }
        Standing::Waits | Standing::Free => Ok(()),
    }
}

/// How many nodes up to this one have halted, if `before` others have.
fn halted_after(before: usize, standing: Standing) -> usize
    requires { before + 1 < 2 ^ 64 }
    ensures value { result ≡ halted_after before standing }
    ensures few { result ≤ before + 1 }
{
    match standing {
        Standing::Halted { .. } => before + 1,
        Standing::Waits | Standing::Free => before,
    }
}

fn push_all_halted(text: &mut String, json: bool, nodes: &[Node]) -> Result<(), AllocError>
    ensures { OnOk result (string_bytes text.new ≡ string_bytes text.old ++ halts_text json 0 0 (map (λ node. node.live) nodes.now)) }
{
    let mut before = 0;
    for (number, node) in nodes.iter().enumerate() {
        let standing = node.standing();
        push_halted(text, json, before, number, standing)?;
        before = halted_after(before, standing);
    }
    Ok(())
}

/// Appends each node that has halted, or that none has, and ends the line.
fn push_halts_line(alloc: Global, text: &mut String, nodes: &[Node]) -> Result<(), AllocError>
    ensures { OnOk result (string_bytes text.new ≡ string_bytes text.old ++ (halted_or_none (halts_text false 0 0 (map (λ node. node.live) nodes.now)) ++ 10 ∷ [])) }
{
    let mut found = String::new(alloc);
    push_all_halted(&mut found, false, nodes)?;
    let halted = if found.is_empty() {
        " halted none"
    } else {
        found.as_str()
    };
    write!(text, "{halted}\n")
}

/// Appends each node that has halted.
fn push_halts(text: &mut String, nodes: &[Node]) -> Result<(), AllocError>
    ensures { OnOk result (string_bytes text.new ≡ string_bytes text.old ++ halts_json (map (λ node. node.live) nodes.now)) }
{
    push(text, "],\"halted\":[")?;
    push_all_halted(text, true, nodes)?;
    push(text, "]")
}

/// Appends how many steps all nodes have made since the checkpoint.
fn push_steps_line(text: &mut String, opened: &Opened) -> Result<(), AllocError>
    ensures { OnOk result (string_bytes text.new ≡ string_bytes text.old ++ steps_part (steps_made opened.now)) }
{
    let steps = steps_made(opened);
    write!(text, " steps {steps}")
}

/// Appends the item of how many entries and steps a node has made, and what comes before it.
fn push_counts<'a>(
    text: &mut String,
    comma: &'a str,
    entries: u128,
    steps: u128,
) -> Result<(), AllocError>
    ensures { OnOk result (string_bytes text.new ≡ string_bytes text.old ++ (comma.now ++ counts_item entries steps)) }
{
    push_parts(
        text,
        &[
            Text(comma),
            Text("{\"entries\":"),
            Large(entries),
            Text(",\"steps\":"),
            Large(steps),
            Text("}"),
        ],
    )
}

/// Appends the item of a node, after `number` other nodes.
fn push_node_item(
    text: &mut String,
    number: usize,
    wires: &[Option<WireEnd>],
    count: usize,
    kept: &[Numbered],
) -> Result<(), AllocError>
    ensures { OnOk result (string_bytes text.new ≡ string_bytes text.old ++ (comma number ++ node_item number wires.now count kept.now)) }
{
    let node = Some(number as u64);
    let entries = total(Count::Entries, node, wires, count, kept);
    let steps = total(Count::Steps, node, wires, count, kept);
    push_counts(text, comma(number), entries, steps)
}

/// Appends the items of nodes, of a network of `count` nodes.
fn push_node_items(
    text: &mut String,
    wires: &[Option<WireEnd>],
    count: usize,
    kept: &[Numbered],
    nodes: &[Node],
) -> Result<(), AllocError>
    ensures { OnOk result (string_bytes text.new ≡ string_bytes text.old ++ json_items 0 (node_items 0 wires.now count kept.now (map (λ node. node.live) nodes.now))) }
{
    for (number, _node) in nodes.iter().enumerate() {
        push_node_item(text, number, wires, count, kept)?;
    }
    Ok(())
}

/// Appends how many steps all nodes have made.
fn push_steps(text: &mut String, steps: u128) -> Result<(), AllocError>
    ensures { OnOk result (string_bytes text.new ≡ string_bytes text.old ++ steps_json steps) }
{
    push_parts(
        text,
        &[Text(",\"steps\":"), Large(steps), Text(",\"nodes\":[")],
    )
}

/// Appends what the nodes of an opened device have done since its checkpoint.
fn push_done(text: &mut String, opened: &Opened) -> Result<(), AllocError>
    ensures { OnOk result (string_bytes text.new ≡ string_bytes text.old ++ done_json opened.now) }
{
    let wires = opened.head().topology().wires();
    let now = opened.network();
    let (nodes, count) = (now.nodes(), node_count(now));
    push_steps(text, steps_made(opened))?;
    push_node_items(text, wires, count, opened.kept(), nodes)?;
    push(text, "]")
}

/// Gives the line of an opened device. `held` says whether a process holds it, `at` is the time in milliseconds, and `before` is what the check
/// before saw. `clock` is the seconds since 1970; with `None` the line has no time of day.
fn status_text(
    alloc: Global,
    held: bool,
    at: u64,
    clock: Option<u64>,
    before: &Option<Seen>,
    opened: &Opened,
) -> Result<String, AllocError>
    ensures { IfOk result (λ text. string_bytes text ≡ status_line held at clock before.now opened.now) }
{
    let now = opened.network();
    let (generation, form, next) = (opened.generation(), opened.form(), opened.next());
    let mut text = String::new(alloc);
    let since = next_before(at, before);
    push_time(&mut text, clock)?;
    push_front(&mut text, false, held, generation, form, next, since)?;
    push_journal(&mut text, false, opened.kept().len(), room_of(opened))?;
    push_steps_line(&mut text, opened)?;
    push_ports(&mut text, false, at, before, now.ports())?;
    push_halts_line(alloc, &mut text, now.nodes())?;
    Ok(text)
}

/// Gives the object of an opened device. `held` says whether a process holds it, `at` is the time in milliseconds, and `before` is what the check
/// before saw. `clock` is the seconds since 1970; with `None` the object has no time of day.
fn status_json(
    alloc: Global,
    held: bool,
    at: u64,
    clock: Option<u64>,
    before: &Option<Seen>,
    opened: &Opened,
) -> Result<String, AllocError>
    ensures { IfOk result (λ text. string_bytes text ≡ status_json held at clock before.now opened.now) }
{
    let now = opened.network();
    let (generation, form, next) = (opened.generation(), opened.form(), opened.next());
    let mut text = String::new(alloc);
    let since = next_before(at, before);
    push_front(&mut text, true, held, generation, form, next, since)?;
    push_journal(&mut text, true, opened.kept().len(), room_of(opened))?;
    push_ports(&mut text, true, at, before, now.ports())?;
    push_halts(&mut text, now.nodes())?;
    push_done(&mut text, opened)?;
    push_time_field(&mut text, clock)?;
    Ok(text)
}

/// Gives what one check prints, as JSON or as a line.
pub(crate) fn look_text(
    alloc: Global,
    json: bool,
    held: bool,
    at: u64,
    clock: Option<u64>,
    before: &Option<Seen>,
    opened: &Opened,
) -> Result<String, AllocError>
    ensures { IfOk result (λ text. string_bytes text ≡ look_text json held at clock before.now opened.now) }
{
    if json {
        status_json(alloc, held, at, clock, before, opened)
    } else {
        status_text(alloc, held, at, clock, before, opened)
    }
}
