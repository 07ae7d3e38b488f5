//! What is printed of a node: its registers, queues and link ends. Lines have words in hexadecimal, JSON has numbers.

ghost use Rattle.std.specs.Prelude.{◌≡◌, ◌++◌, IfOk, OnOk, string_bytes};
ghost use Rattle.tp_model.specs.Image.{node_at};
ghost use Rattle.tp_views.specs.Maps.{rows_seen};
ghost use Rattle.tp_views.specs.Fields.{fields_text};
ghost use Rattle.tp_views.specs.NodeText.{cpu_text, enabled_fields, ends_text, held_fields, idle_fields, input_fields, inputs_text, node_of_parts, node_text, number_fields, output_fields, outputs_text, pointers_text, queue_fields, queues_text, spot_of, stack_fields, state_fields, working_fields};

use crate::maps::{MapRow, push_spot};
use crate::text::fields::Field::{After, Item, Named, Words};
use crate::text::fields::Value::{Bit, Byte, Name, Number, Word};
use crate::text::fields::push_fields;
use crate::text::formats::halt_name;
use crate::text::image_fields::{inputs_in, outputs_in, pages_in};
use crate::text::json_maps::push_spot_fields;
use std::alloc::{AllocError, Global};
use tp_model::{Cpu, Fault, InEnd, OutEnd, Queue, Regs, State, Transfer};
use tp_node::halt_byte;
use tp_trace::{cpu_in, state_name};

fn push_number(
    text: &mut String,
    json: bool,
    number: u64,
    pages: usize,
    halt: Option<Fault>,
) -> Result<(), AllocError>
    ensures { OnOk result (string_bytes text.new ≡ string_bytes text.old ++ fields_text json (number_fields number pages halt)) }
{
    let (code, name) = (halt_byte(halt), halt_name(halt));
    push_fields(
        text,
        json,
        &[
            After("node ", "{\"node\":", Number(number)),
            Named("pages", Number(pages as u64)),
            Named("halt", Number(code as u64)),
            After(" ", ",\"halt_name\":", Name(name)),
            Words("\n", ""),
        ],
    )
}

/// Appends what a map says of an address.
fn push_spot_of(
    text: &mut String,
    json: bool,
    rows: &[MapRow<'_>],
    address: u32,
) -> Result<(), AllocError>
    ensures { OnOk result (string_bytes text.new ≡ string_bytes text.old ++ spot_of json (rows_seen rows.now) address) }
{
    if json {
        push_spot_fields(text, rows, address)
    } else {
        push_spot(text, "", rows, address)
    }
}

/// Appends the addresses at which a processor is, and what its map says of them.
fn push_pointers(
    text: &mut String,
    json: bool,
    rows: &[MapRow<'_>],
    iptr: u32,
    wptr: u32,
) -> Result<(), AllocError>
    ensures { OnOk result (string_bytes text.new ≡ string_bytes text.old ++ pointers_text json (rows_seen rows.now) iptr wptr) }
{
    push_fields(text, json, &[After("Iptr ", ",\"iptr\":", Word(iptr))])?;
    push_spot_of(text, json, rows, iptr)?;
    push_fields(
        text,
        json,
        &[After(" Wptr ", ",\"wptr\":", Word(wptr)), Words("\n", "")],
    )
}

fn push_stack(text: &mut String, json: bool, regs: Regs) -> Result<(), AllocError>
    ensures { OnOk result (string_bytes text.new ≡ string_bytes text.old ++ fields_text json (stack_fields regs.a regs.b regs.c)) }
{
    push_fields(
        text,
        json,
        &[
            After("A ", ",\"a\":", Word(regs.a)),
            After(" B ", ",\"b\":", Word(regs.b)),
            After(" C ", ",\"c\":", Word(regs.c)),
            Words("\n", ""),
        ],
    )
}

/// Appends a queue, after its name in a line and in JSON.
fn push_queue<'a>(
    text: &mut String,
    json: bool,
    line: &'a str,
    in_json: &'a str,
    queue: Queue,
) -> Result<(), AllocError>
    ensures { OnOk result (string_bytes text.new ≡ string_bytes text.old ++ fields_text json (queue_fields line.now in_json.now queue)) }
{
    push_fields(
        text,
        json,
        &[
            After(line, in_json, Word(queue.front)),
            Named("back", Word(queue.back)),
            Words("\n", "}"),
        ],
    )
}

fn push_state(
    text: &mut String,
    json: bool,
    error: bool,
    state: State,
    slice: u16,
) -> Result<(), AllocError>
    ensures { OnOk result (string_bytes text.new ≡ string_bytes text.old ++ fields_text json (state_fields error state slice)) }
{
    let name = state_name(state);
    push_fields(
        text,
        json,
        &[
            After("error ", ",\"error\":", Bit(error)),
            Named("state", Name(name)),
            Named("slice", Number(slice as u64)),
            Words("\n", ""),
        ],
    )
}

/// Appends the queues of a processor, its Error flag, what runs, and its slice count.
fn push_queues(text: &mut String, json: bool, cpu: &Cpu) -> Result<(), AllocError>
    ensures { OnOk result (string_bytes text.new ≡ string_bytes text.old ++ queues_text json cpu.now) }
{
    push_queue(text, json, "high front ", ",\"high\":{\"front\":", cpu.high)?;
    push_queue(text, json, "low front ", ",\"low\":{\"front\":", cpu.low)?;
    push_state(text, json, cpu.regs.error, cpu.state, cpu.slice)
}

/// Appends what is printed of a processor.
pub(crate) fn push_cpu(
    text: &mut String,
    json: bool,
    rows: &[MapRow<'_>],
    cpu: &Cpu,
) -> Result<(), AllocError>
    ensures { OnOk result (string_bytes text.new ≡ string_bytes text.old ++ cpu_text json (rows_seen rows.now) cpu.now) }
{
    push_pointers(text, json, rows, cpu.iptr, cpu.wptr)?;
    push_stack(text, json, cpu.regs)?;
    push_queues(text, json, cpu)
}

/// Appends an end at which nothing is under way.
fn push_idle(text: &mut String, json: bool, side: &str, link: usize) -> Result<(), AllocError>
    ensures { OnOk result (string_bytes text.new ≡ string_bytes text.old ++ fields_text json (idle_fields side.now link)) }
{
    push_fields(
        text,
        json,
        &[
            Item(side, link),
            After(" ", "{\"state\":", Name("idle")),
            Words("\n", "}"),
        ],
    )
}

/// Appends an end at which a process waits.
fn push_working<'a>(
    text: &mut String,
    json: bool,
    side: &'a str,
    link: usize,
    what: &'a str,
    transfer: Transfer,
) -> Result<(), AllocError>
    ensures { OnOk result (string_bytes text.new ≡ string_bytes text.old ++ fields_text json (working_fields side.now link what.now transfer)) }
{
    push_fields(
        text,
        json,
        &[
            Item(side, link),
            After(" ", "{\"state\":", Name(what)),
            Named("process", Word(transfer.process)),
            Named("pointer", Word(transfer.pointer)),
            Named("left", Word(transfer.left)),
            Words("\n", "}"),
        ],
    )
}

fn push_output(text: &mut String, json: bool, link: usize, end: OutEnd) -> Result<(), AllocError>
    ensures { OnOk result (string_bytes text.new ≡ string_bytes text.old ++ fields_text json (output_fields link end)) }
{
    match end {
        OutEnd::Idle => push_idle(text, json, "out", link),
        OutEnd::Waits(transfer) => push_working(text, json, "out", link, "waits", transfer),
    }
}

/// Appends an input end that holds a byte.
fn push_held(text: &mut String, json: bool, link: usize, byte: u8) -> Result<(), AllocError>
    ensures { OnOk result (string_bytes text.new ≡ string_bytes text.old ++ fields_text json (held_fields link byte)) }
{
    push_fields(
        text,
        json,
        &[
            Item("in", link),
            After(" ", "{\"state\":", Name("idle")),
            Named("held", Byte(byte)),
            Words("\n", "}"),
        ],
    )
}

/// Appends an input end in an alternative.
fn push_enabled(text: &mut String, json: bool, link: usize, process: u32) -> Result<(), AllocError>
    ensures { OnOk result (string_bytes text.new ≡ string_bytes text.old ++ fields_text json (enabled_fields link process)) }
{
    push_fields(
        text,
        json,
        &[
            Item("in", link),
            After(" ", "{\"state\":", Name("enabled")),
            Named("process", Word(process)),
            Words(" pointer 00000000 left 00000000\n", "}"),
        ],
    )
}

fn push_input(text: &mut String, json: bool, link: usize, end: InEnd) -> Result<(), AllocError>
    ensures { OnOk result (string_bytes text.new ≡ string_bytes text.old ++ fields_text json (input_fields link end)) }
{
    match end {
        InEnd::Idle(None) => push_idle(text, json, "in", link),
        InEnd::Idle(Some(byte)) => push_held(text, json, link, byte),
        InEnd::Inputs(transfer) => push_working(text, json, "in", link, "inputs", transfer),
        InEnd::Enabled(process) => push_enabled(text, json, link, process),
    }
}

fn push_outputs(text: &mut String, json: bool, ends: &[OutEnd]) -> Result<(), AllocError>
    ensures { OnOk result (string_bytes text.new ≡ string_bytes text.old ++ outputs_text json 0 ends.now) }
{
    for (link, end) in ends.iter().enumerate() {
        push_output(text, json, link, *end)?;
    }
    Ok(())
}

fn push_inputs(text: &mut String, json: bool, ends: &[InEnd]) -> Result<(), AllocError>
    ensures { OnOk result (string_bytes text.new ≡ string_bytes text.old ++ inputs_text json 0 ends.now) }
{
    for (link, end) in ends.iter().enumerate() {
        push_input(text, json, link, *end)?;
    }
    Ok(())
}

/// Appends the ends of a node's links.
fn push_ends(
    text: &mut String,
    json: bool,
    outputs: &[OutEnd],
    inputs: &[InEnd],
) -> Result<(), AllocError>
    ensures { OnOk result (string_bytes text.new ≡ string_bytes text.old ++ ends_text json outputs.now inputs.now) }
{
    push_fields(text, json, &[Words("", ",\"out\":[")])?;
    push_outputs(text, json, outputs)?;
    push_fields(text, json, &[Words("", "],\"in\":[")])?;
    push_inputs(text, json, inputs)?;
    push_fields(text, json, &[Words("", "]")])
}

/// Gives what is printed of a node, by its pages, its processor and its ends.
fn node_of_parts(
    alloc: Global,
    json: bool,
    rows: &[MapRow<'_>],
    number: u64,
    pages: usize,
    cpu: &Cpu,
    outputs: &[OutEnd],
    inputs: &[InEnd],
) -> Result<String, AllocError>
    ensures { IfOk result (λ text. string_bytes text ≡ node_of_parts json (rows_seen rows.now) number pages cpu.now outputs.now inputs.now) }
{
    let mut text = String::new(alloc);
    push_number(&mut text, json, number, pages, cpu.halt)?;
    push_cpu(&mut text, json, rows, cpu)?;
    push_ends(&mut text, json, outputs, inputs)?;
    Ok(text)
}

/// Gives what is printed of the node in an image, up to what it has done: lines, or JSON. `rows` are its map's.
pub(crate) fn node_text(
    alloc: Global,
    json: bool,
    rows: &[MapRow<'_>],
    number: u64,
    image: &[u8],
) -> Result<String, AllocError>
    ensures { IfOk result (λ text. string_bytes text ≡ node_text json (rows_seen rows.now) number (node_at image.now)) }
{
    let pages = pages_in(image);
    let cpu = cpu_in(image);
    let (outputs, inputs) = (outputs_in(image), inputs_in(image));
    node_of_parts(alloc, json, rows, number, pages, &cpu, &outputs, &inputs)
}
