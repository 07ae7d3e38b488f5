//! The lines of a trace: what a node does, and what comes in at its links.

ghost use Rattle.std.specs.Prelude.{◌≡◌, ◌++◌, [], None, IfOk, OnOk, bytes_eq, string_bytes};
ghost use Rattle.tp_views.specs.Lower.{IsNodeOfBytes, standing, stop_line, IsLinked, attended};
ghost use Rattle.tp_views.specs.Maps.{rows_seen};
ghost use Rattle.tp_views.specs.Traced.{Happens, PassesText, came_line, ended_text, event, is_byte_out, is_printed, last_line, last_text, moment, moment_by, printed, step_line, text_behind};
ghost use Rattle.tp_views.specs.Stops.{watched};

use crate::maps::{MapRow, push_spot};
use crate::text::parts::Part::{Number, Text};
use crate::text::parts::push_parts;
use crate::trace::stops::{
    Stops, is_until, push_state_if, push_steps, push_until, push_watch, watched,
};
use std::alloc::{AllocError, Global};
use tp_model::Token;
use tp_node::{Node, Runs};
use tp_trace::{Heard, Linked, Seen, come, push_step, push_stop, push_take, trace_step};
use tp_words::TraceLines;

/// Appends the line of a step.
pub(crate) fn push_step_line(
    text: &mut String,
    rows: &[MapRow<'_>],
    number: u64,
    seen: Seen,
) -> Result<(), AllocError>
    ensures { OnOk result (string_bytes text.new ≡ string_bytes text.old ++ step_line (rows_seen rows.now) number seen) }
{
    push_step(text, number, seen)?;
    push_spot(text, "", rows, seen.at)?;
    text.push_str("\n")
}

/// Whether `sent` is a byte.
fn is_byte_out(sent: Option<(u8, Token)>) -> bool
    ensures { result ≡ is_byte_out sent }
{
    match sent {
        Some((_, Token::Data(_))) => true,
        Some((_, Token::Ack | Token::Marker)) | None => false,
    }
}

/// Whether a line is printed that says that `sent` leaves.
fn is_printed(lines: TraceLines, sent: Option<(u8, Token)>) -> bool
    ensures { result ≡ is_printed lines sent }
{
    match lines {
        TraceLines::Every => true,
        TraceLines::Sending => is_byte_out(sent),
    }
}

/// Appends the line of a step, if it is printed.
fn push_made(
    text: &mut String,
    rows: &[MapRow<'_>],
    lines: TraceLines,
    number: u64,
    seen: Seen,
) -> Result<(), AllocError>
    ensures { OnOk result (string_bytes text.new ≡ string_bytes text.old ++ printed lines seen.sent (step_line (rows_seen rows.now) number seen)) }
{
    if is_printed(lines, seen.sent) {
        push_step_line(text, rows, number, seen)
    } else {
        Ok(())
    }
}

/// Appends the line of a token that comes in.
fn push_came(text: &mut String, number: u64, heard: Heard) -> Result<(), AllocError>
    ensures { OnOk result (string_bytes text.new ≡ string_bytes text.old ++ came_line number heard) }
{
    push_parts(text, &[Number(number), Text(" ")])?;
    push_take(text, heard)
}

/// Appends the line of a token that comes in, if it is printed.
fn push_heard(
    text: &mut String,
    lines: TraceLines,
    number: u64,
    heard: Heard,
) -> Result<(), AllocError>
    ensures { OnOk result (string_bytes text.new ≡ string_bytes text.old ++ printed lines heard.sent (came_line number heard)) }
{
    if is_printed(lines, heard.sent) {
        push_came(text, number, heard)
    } else {
        Ok(())
    }
}

/// Has a node take the next token that comes in, or make a step if none does. Appends the line of that, if it is printed. Answers `false` if
/// nothing can happen.
fn push_event(
    text: &mut String,
    rows: &[MapRow<'_>],
    lines: TraceLines,
    number: u64,
    linked: &mut Linked<'_>,
    runs: &mut Runs,
) -> Result<bool, AllocError>
    requires { IsLinked linked.old }
    ensures happens { IfOk result (λ did. Happens did (event lines (rows_seen rows.now) number (attended linked.old)) (attended linked.old) (attended linked.new) (string_bytes text.old) (string_bytes text.new)) }
    ensures linked { IsLinked linked.new }
{
    if let Some(heard) = come(linked) {
        push_heard(text, lines, number, heard)?;
        return Ok(true);
    }
    match trace_step(&mut linked.node, runs) {
        Some(seen) => {
            push_made(text, rows, lines, number, seen)?;
            Ok(true)
        }
        None => Ok(false),
    }
}

/// Appends why a node has no step.
fn push_standing(text: &mut String, node: &mut Node) -> Result<(), AllocError>
    ensures text { OnOk result (string_bytes text.new ≡ string_bytes text.old ++ stop_line (standing node.old.live)) }
    ensures same { node.new ≡ node.old }
{
    push_stop(text, node.standing())
}

/// Appends why nothing can happen at a node any more, and its state if it is printed.
fn push_ended(
    alloc: Global,
    text: &mut String,
    rows: &[MapRow<'_>],
    stops: Stops,
    node: &mut Node,
) -> Result<(), AllocError>
    requires thawed { node.old.frozen ≡ None }
    requires bytes { IsNodeOfBytes node.old.live }
    ensures text { OnOk result (string_bytes text.new ≡ string_bytes text.old ++ ended_text (rows_seen rows.now) stops node.old.live) }
    ensures same { node.new ≡ node.old }
{
    push_standing(text, node)?;
    push_state_if(alloc, text, rows, stops, node)
}

/// Compares the bytes that are watched with what they were `before` a line. Answers `true` if they are equal. Else it appends that the trace
/// stops there.
fn push_behind(
    alloc: Global,
    text: &mut String,
    rows: &[MapRow<'_>],
    stops: Stops,
    before: &[u8],
    node: &mut Node,
) -> Result<bool, AllocError>
    requires thawed { node.old.frozen ≡ None }
    requires bytes { IsNodeOfBytes node.old.live }
    ensures goes { IfOk result (λ goes. goes ≡ bytes_eq before.now (watched stops.watch node.old.live)) }
    ensures text { IfOk result (λ goes. string_bytes text.new ≡ string_bytes text.old ++ text_behind goes (rows_seen rows.now) stops node.old.live) }
    ensures same { node.new ≡ node.old }
{
    let now = watched(alloc, stops, node)?;
    if before == now.as_slice() {
        return Ok(true);
    }
    push_watch(alloc, text, rows, stops, node)?;
    Ok(false)
}

/// Appends line `number`, and after it why the trace ends, if it does. Answers whether it goes on.
fn push_happening(
    alloc: Global,
    text: &mut String,
    rows: &[MapRow<'_>],
    stops: Stops,
    number: u64,
    linked: &mut Linked<'_>,
    runs: &mut Runs,
) -> Result<bool, AllocError>
    requires { IsLinked linked.old }
    ensures passes { IfOk result (λ goes. PassesText (moment_by (rows_seen rows.now) stops linked.old.node.live (event stops.lines (rows_seen rows.now) number (attended linked.old))) goes (attended linked.new) (string_bytes text.old) (string_bytes text.new)) }
    ensures linked { IsLinked linked.new }
{
    let before = watched(alloc, stops, &mut linked.node)?;
    if push_event(text, rows, stops.lines, number, linked, runs)? {
        return push_behind(
            alloc,
            text,
            rows,
            stops,
            before.as_slice(),
            &mut linked.node,
        );
    }
    push_ended(alloc, text, rows, stops, &mut linked.node)?;
    Ok(false)
}

/// Appends line `number`, unless the trace stops before it, and why the trace ends, if it does. Answers whether it goes on.
fn push_moment(
    alloc: Global,
    text: &mut String,
    rows: &[MapRow<'_>],
    stops: Stops,
    number: u64,
    linked: &mut Linked<'_>,
    runs: &mut Runs,
) -> Result<bool, AllocError>
    requires { IsLinked linked.old }
    ensures passes { IfOk result (λ goes. PassesText (moment (rows_seen rows.now) stops number (attended linked.old)) goes (attended linked.new) (string_bytes text.old) (string_bytes text.new)) }
    ensures linked { IsLinked linked.new }
{
    if is_until(stops, &mut linked.node) {
        push_until(alloc, text, rows, stops, &mut linked.node)?;
        return Ok(false);
    }
    push_happening(alloc, text, rows, stops, number, linked, runs)
}

/// Appends why there is no further line after the last one: the node has no step, or enough lines were printed. The node may make one step more.
fn push_last_line(
    alloc: Global,
    text: &mut String,
    rows: &[MapRow<'_>],
    stops: Stops,
    linked: &mut Linked<'_>,
    runs: &mut Runs,
) -> Result<(), AllocError>
    requires { IsLinked linked.old }
    ensures { OnOk result (string_bytes text.new ≡ string_bytes text.old ++ last_line stops linked.old.node.live (event stops.lines (rows_seen rows.now) 0 (attended linked.old))) }
{
    let mut line = String::new(alloc);
    if push_event(&mut line, rows, stops.lines, 0, linked, runs)? {
        push_steps(text, stops)
    } else {
        push_standing(text, &mut linked.node)
    }
}

/// Appends why the trace ends after its last line, and the node's state if it is printed.
fn push_last(
    alloc: Global,
    text: &mut String,
    rows: &[MapRow<'_>],
    stops: Stops,
    linked: &mut Linked<'_>,
    runs: &mut Runs,
) -> Result<(), AllocError>
    requires { IsLinked linked.old }
    ensures { OnOk result (string_bytes text.new ≡ string_bytes text.old ++ last_text (rows_seen rows.now) stops (attended linked.old)) }
{
    if is_until(stops, &mut linked.node) {
        return push_until(alloc, text, rows, stops, &mut linked.node);
    }
    let mut state = String::new(alloc);
    push_state_if(alloc, &mut state, rows, stops, &mut linked.node)?;
    push_last_line(alloc, text, rows, stops, linked, runs)?;
    text.push_str(state.as_str())
}

/// Gives what `push_moment` appends, and whether the trace goes on.
pub(crate) fn moment_text(
    alloc: Global,
    rows: &[MapRow<'_>],
    stops: Stops,
    number: u64,
    linked: &mut Linked<'_>,
    runs: &mut Runs,
) -> Result<(String, bool), AllocError>
    requires { IsLinked linked.old }
    ensures passes { IfOk result (λ done. PassesText (moment (rows_seen rows.now) stops number (attended linked.old)) done.1 (attended linked.new) [] (string_bytes done.0)) }
    ensures linked { IsLinked linked.new }
{
    let mut text = String::new(alloc);
    let goes = push_moment(alloc, &mut text, rows, stops, number, linked, runs)?;
    Ok((text, goes))
}

/// Gives what `push_last` appends.
pub(crate) fn last_text(
    alloc: Global,
    rows: &[MapRow<'_>],
    stops: Stops,
    linked: &mut Linked<'_>,
    runs: &mut Runs,
) -> Result<String, AllocError>
    requires { IsLinked linked.old }
    ensures { IfOk result (λ text. string_bytes text ≡ last_text (rows_seen rows.now) stops (attended linked.old)) }
{
    let mut text = String::new(alloc);
    push_last(alloc, &mut text, rows, stops, linked, runs)?;
    Ok(text)
}
