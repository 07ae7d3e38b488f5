//! What is printed of a device.

ghost use Rattle.std.specs.Prelude.{◌≡◌, ◌++◌, false, true, IfOk, OnOk, string_bytes, map};
ghost use Rattle.tp_views.specs.Fields.{fields_text};
ghost use Rattle.tp_views.specs.Shown.{area_number, head_line, next_line, node_fields, nodes_text, open_fields, port_fields, ports_text, shown_text};

use crate::text::fields::Field::{After, InJson, Item, Named, Words};
use crate::text::fields::{Value, push_fields};
use crate::text::json::push;
use crate::text::parts::Part::{Number, Text};
use crate::text::parts::push_parts;
use std::alloc::{AllocError, Global};
use tp_book::HostPort;
use tp_node::{Node, halt_byte};
use tp_replay::FlatNetwork;

/// What is said of a device besides its network: how many bytes an area has, and the number of the next entry. Of the open area: which one it is, its
/// generation, and how many entries are in its cut and in its groups.
#[derive(Clone, Copy)]
pub struct Front {
    pub area: u64,
    pub second: bool,
    pub generation: u64,
    pub base: u64,
    pub entries: usize,
    pub next: u64,
}

/// Gives the number of an area.
pub(crate) fn area_number(second: bool) -> u8
    ensures { result ≡ area_number second }
{
    if second { 1 } else { 0 }
}

fn push_head(text: &mut String, nodes: usize, ports: usize, area: u64) -> Result<(), AllocError>
    ensures { OnOk result (string_bytes text.new ≡ string_bytes text.old ++ head_line nodes ports area) }
{
    push_parts(
        text,
        &[
            Text("nodes "),
            Number(nodes as u64),
            Text(" ports "),
            Number(ports as u64),
            Text(" area "),
            Number(area),
            Text("\n"),
        ],
    )
}

/// Appends what is said of the open area, and ends the line or the object. JSON has here how many bytes an area has.
fn push_open(text: &mut String, json: bool, front: Front) -> Result<(), AllocError>
    ensures { OnOk result (string_bytes text.new ≡ string_bytes text.old ++ fields_text json (open_fields front)) }
{
    let open = area_number(front.second);
    push_fields(
        text,
        json,
        &[
            InJson("],\"area\":", Value::Number(front.area)),
            After("open ", ",\"open\":", Value::Number(open as u64)),
            Named("generation", Value::Number(front.generation)),
            Named("base", Value::Number(front.base)),
            Named("entries", Value::Number(front.entries as u64)),
            Named("next", Value::Number(front.next)),
            Words("\n", "}\n"),
        ],
    )
}

fn push_node(text: &mut String, json: bool, number: usize, node: &Node) -> Result<(), AllocError>
    ensures { OnOk result (string_bytes text.new ≡ string_bytes text.old ++ fields_text json (node_fields number node.now.live)) }
{
    let halt = halt_byte(node.halt());
    push_fields(
        text,
        json,
        &[
            Item("node", number),
            After(" halt ", "{\"halt\":", Value::Number(halt as u64)),
            Words("\n", "}"),
        ],
    )
}

fn push_port(
    text: &mut String,
    json: bool,
    number: usize,
    port: &HostPort,
) -> Result<(), AllocError>
    ensures { OnOk result (string_bytes text.new ≡ string_bytes text.old ++ fields_text json (port_fields number port.now.port)) }
{
    let in_base = port.in_base();
    let pending = port.pending().len();
    let out_base = port.out_base();
    let unconfirmed = port.outputs().len();
    push_fields(
        text,
        json,
        &[
            Item("port", number),
            After(" taken ", "{\"taken\":", Value::Number(in_base)),
            Named("pending", Value::Number(pending as u64)),
            Named("confirmed", Value::Number(out_base)),
            Named("unconfirmed", Value::Number(unconfirmed as u64)),
            Words("\n", "}"),
        ],
    )
}

fn push_nodes(text: &mut String, json: bool, nodes: &[Node]) -> Result<(), AllocError>
    ensures { OnOk result (string_bytes text.new ≡ string_bytes text.old ++ nodes_text json 0 (map (λ node. node.live) nodes.now)) }
{
    for (number, node) in nodes.iter().enumerate() {
        push_node(text, json, number, node)?;
    }
    Ok(())
}

fn push_ports(text: &mut String, json: bool, ports: &[HostPort]) -> Result<(), AllocError>
    ensures { OnOk result (string_bytes text.new ≡ string_bytes text.old ++ ports_text json 0 (map (λ port. port.port) ports.now)) }
{
    for (number, port) in ports.iter().enumerate() {
        push_port(text, json, number, port)?;
    }
    Ok(())
}

/// Appends the lines of a device.
fn push_lines(text: &mut String, front: Front, now: &FlatNetwork) -> Result<(), AllocError>
    ensures { OnOk result (string_bytes text.new ≡ string_bytes text.old ++ shown_text false front now.now) }
{
    let (nodes, ports) = (now.nodes(), now.ports());
    push_head(text, nodes.len(), ports.len(), front.area)?;
    push_open(text, false, front)?;
    push_nodes(text, false, nodes)?;
    push_ports(text, false, ports)
}

/// Appends the object of a device.
fn push_object(text: &mut String, front: Front, now: &FlatNetwork) -> Result<(), AllocError>
    ensures { OnOk result (string_bytes text.new ≡ string_bytes text.old ++ shown_text true front now.now) }
{
    push(text, "{\"nodes\":[")?;
    push_nodes(text, true, now.nodes())?;
    push(text, "],\"ports\":[")?;
    push_ports(text, true, now.ports())?;
    push_open(text, true, front)
}

/// Gives all that is shown of a device, as JSON or not.
pub fn shown_text(
    alloc: Global,
    json: bool,
    front: Front,
    now: &FlatNetwork,
) -> Result<String, AllocError>
    ensures { IfOk result (λ text. string_bytes text ≡ shown_text json front now.now) }
{
    let mut text = String::new(alloc);
    if json {
        push_object(&mut text, front, now)?;
    } else {
        push_lines(&mut text, front, now)?;
    }
    Ok(text)
}

/// Gives what is printed of a device that was recovered.
pub fn next_line(alloc: Global, next: u64) -> Result<String, AllocError>
    ensures { IfOk result (λ text. string_bytes text ≡ next_line next) }
{
    format!(in alloc; "next {next}\n")
}
