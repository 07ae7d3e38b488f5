//! Where a trace of an image stops, and what is printed there.

ghost use Rattle.std.specs.Prelude.{◌≡◌, ◌≤◌, ◌++◌, ◌*◌, ◌/◌, None, IfOk, OnOk, length, string_bytes};
ghost use Rattle.tp_law_machine.specs.NodeOfBytes.{IsNodeOfBytes};
ghost use Rattle.tp_views.specs.Maps.{rows_seen};
ghost use Rattle.tp_views.specs.declared.trace.stops.TheConstants.{WORKSPACE_WORDS};
ghost use Rattle.tp_views.specs.Stops.{bytes_text, has_state, is_here, is_sending, is_until, memory_line, state_if, state_text, steps_line, until_text, watch_text, watched, words_text, workspace_line};

use crate::maps::{MapRow, push_spot};
use crate::text::parts::Part::{Byte, Text, Word};
use crate::text::parts::push_parts;
use crate::text::registers::push_cpu;
use std::alloc::{AllocError, Global};
use tp_node::Node;
use tp_trace::{cpu_now, instruction_at, memory_of, word_in};
use tp_words::TraceLines;

/// A range of addresses: the first one, and how many they are.
#[derive(Clone, Copy)]
pub struct Range {
    pub from: u32,
    pub count: usize,
}

/// Where a trace stops before its last step: before the instruction at an address, and after a change of a range. And which of its lines are printed.
#[derive(Clone, Copy)]
pub struct Stops {
    pub lines: TraceLines,
    pub until: Option<u32>,
    pub watch: Option<Range>,
}

/// How many words of the workspace are printed.
const WORKSPACE_WORDS: usize = 8;

/// Whether an address that may be asked for is the one of an instruction.
fn is_here(asked: Option<u32>, at: Option<u32>) -> bool
    ensures { result ≡ is_here asked at }
{
    match (asked, at) {
        (Some(address), Some(at)) => at == address,
        _ => false,
    }
}

/// Whether the next step is the instruction before which a trace stops.
pub(crate) fn is_until(stops: Stops, node: &mut Node) -> bool
    requires thawed { node.old.frozen ≡ None }
    requires bytes { IsNodeOfBytes node.old.live }
    ensures is { result ≡ is_until stops node.old.live }
    ensures same { node.new ≡ node.old }
{
    match stops.until {
        Some(_) => is_here(stops.until, instruction_at(node)),
        None => false,
    }
}

/// The bytes that are watched.
pub(crate) fn watched(alloc: Global, stops: Stops, node: &mut Node) -> Result<Vec<u8>, AllocError>
    requires thawed { node.old.frozen ≡ None }
    requires bytes { IsNodeOfBytes node.old.live }
    ensures bytes { IfOk result (λ bytes. bytes.items ≡ watched stops.watch node.old.live) }
    ensures same { node.new ≡ node.old }
{
    match stops.watch {
        Some(range) => memory_of(alloc, node, range.from, range.count),
        None => Ok(Vec::new(alloc)),
    }
}

/// Whether not each line is printed.
fn is_sending(lines: TraceLines) -> bool
    ensures { result ≡ is_sending lines }
{
    match lines {
        TraceLines::Every => false,
        TraceLines::Sending => true,
    }
}

/// Whether the state is printed in the end: a stop was asked for, or not each line is printed.
fn has_state(stops: Stops) -> bool
    ensures { result ≡ has_state stops }
{
    stops.until.is_some() || stops.watch.is_some() || is_sending(stops.lines)
}

/// Appends words of a workspace.
fn push_words(text: &mut String, bytes: &[u8]) -> Result<(), AllocError>
    requires { length bytes.now ≤ 4 * WORKSPACE_WORDS }
    ensures { OnOk result (string_bytes text.new ≡ string_bytes text.old ++ words_text bytes.now (length bytes.now / 4) 0) }
{
    for index in 0..bytes.len() / 4 {
        push_parts(text, &[Text(" "), Word(word_in(bytes, 4 * index))])?;
    }
    Ok(())
}

fn push_bytes(text: &mut String, bytes: &[u8]) -> Result<(), AllocError>
    ensures { OnOk result (string_bytes text.new ≡ string_bytes text.old ++ bytes_text bytes.now) }
{
    for byte in bytes {
        push_parts(text, &[Text(" "), Byte(*byte)])?;
    }
    Ok(())
}

fn push_workspace(text: &mut String, wptr: u32, bytes: &[u8]) -> Result<(), AllocError>
    requires { length bytes.now ≤ 4 * WORKSPACE_WORDS }
    ensures { OnOk result (string_bytes text.new ≡ string_bytes text.old ++ workspace_line wptr bytes.now) }
{
    push_parts(text, &[Text("workspace "), Word(wptr)])?;
    push_words(text, bytes)?;
    text.push_str("\n")
}

/// Appends the line of the range that is watched, if one is.
fn push_range(
    alloc: Global,
    text: &mut String,
    watch: Option<Range>,
    node: &mut Node,
) -> Result<(), AllocError>
    requires thawed { node.old.frozen ≡ None }
    requires bytes { IsNodeOfBytes node.old.live }
    ensures text { OnOk result (string_bytes text.new ≡ string_bytes text.old ++ memory_line watch node.old.live) }
    ensures same { node.new ≡ node.old }
{
    let Some(range) = watch else {
        return Ok(());
    };
    let bytes = memory_of(alloc, node, range.from, range.count)?;
    push_parts(text, &[Text("memory "), Word(range.from)])?;
    push_bytes(text, bytes.as_slice())?;
    text.push_str("\n")
}

/// Appends the state of a node: its registers and queues, its workspace, and the range that is watched.
fn push_state(
    alloc: Global,
    text: &mut String,
    rows: &[MapRow<'_>],
    stops: Stops,
    node: &mut Node,
) -> Result<(), AllocError>
    requires thawed { node.old.frozen ≡ None }
    requires bytes { IsNodeOfBytes node.old.live }
    ensures text { OnOk result (string_bytes text.new ≡ string_bytes text.old ++ state_text (rows_seen rows.now) stops node.old.live) }
    ensures same { node.new ≡ node.old }
{
    let cpu = cpu_now(node);
    push_cpu(text, false, rows, &cpu)?;
    let bytes = memory_of(alloc, node, cpu.wptr, 4 * WORKSPACE_WORDS)?;
    push_workspace(text, cpu.wptr, bytes.as_slice())?;
    push_range(alloc, text, stops.watch, node)
}

/// Appends the state of a node if it is printed.
pub(crate) fn push_state_if(
    alloc: Global,
    text: &mut String,
    rows: &[MapRow<'_>],
    stops: Stops,
    node: &mut Node,
) -> Result<(), AllocError>
    requires thawed { node.old.frozen ≡ None }
    requires bytes { IsNodeOfBytes node.old.live }
    ensures text { OnOk result (string_bytes text.new ≡ string_bytes text.old ++ state_if (rows_seen rows.now) stops node.old.live) }
    ensures same { node.new ≡ node.old }
{
    if has_state(stops) {
        push_state(alloc, text, rows, stops, node)
    } else {
        Ok(())
    }
}

/// Appends that a trace stopped before the instruction that comes next.
pub(crate) fn push_until(
    alloc: Global,
    text: &mut String,
    rows: &[MapRow<'_>],
    stops: Stops,
    node: &mut Node,
) -> Result<(), AllocError>
    requires thawed { node.old.frozen ≡ None }
    requires bytes { IsNodeOfBytes node.old.live }
    ensures text { OnOk result (string_bytes text.new ≡ string_bytes text.old ++ until_text (rows_seen rows.now) stops node.old.live) }
    ensures same { node.new ≡ node.old }
{
    let at = node.iptr();
    push_parts(text, &[Text("stop until "), Word(at)])?;
    push_spot(text, "", rows, at)?;
    text.push_str("\n")?;
    push_state(alloc, text, rows, stops, node)
}

/// Appends that a trace stopped after a change of the range that is watched.
pub(crate) fn push_watch(
    alloc: Global,
    text: &mut String,
    rows: &[MapRow<'_>],
    stops: Stops,
    node: &mut Node,
) -> Result<(), AllocError>
    requires thawed { node.old.frozen ≡ None }
    requires bytes { IsNodeOfBytes node.old.live }
    ensures text { OnOk result (string_bytes text.new ≡ string_bytes text.old ++ watch_text (rows_seen rows.now) stops node.old.live) }
    ensures same { node.new ≡ node.old }
{
    text.push_str("stop watch\n")?;
    push_state(alloc, text, rows, stops, node)
}

/// Appends that a trace stopped after the steps that were asked for, if the state is printed.
pub(crate) fn push_steps(text: &mut String, stops: Stops) -> Result<(), AllocError>
    ensures { OnOk result (string_bytes text.new ≡ string_bytes text.old ++ steps_line stops) }
{
    if has_state(stops) {
        text.push_str("stop steps\n")
    } else {
        Ok(())
    }
}
