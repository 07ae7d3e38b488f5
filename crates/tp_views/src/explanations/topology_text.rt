//! At which line a text says no topology, and why.

ghost use Rattle.std.specs.Prelude.{◌≡◌, ◌++◌, OnOk, codes, string_bytes};

use crate::explanations::line_rules::{broken_rule, missing};
use std::alloc::{AllocError, Global};
use std::fmt::Write;
use tp_model::NetFault;
use tp_model::limits::{MAX_NODES, MAX_PORTS};
use tp_net::Topology;
use tp_words::Shown;

/// Shown in place of a line that isn't text.
const NO_TEXT: &str = "(no text: is this file the topology? --help has the order of the words)";

/// How many characters of a line are shown at most.
const MOST_SHOWN: usize = 200;

/// Gives the first `count` lines of a text, with their ends: a CR before the end of a line counts as part of the end.
fn first_lines(text: &[u8], count: usize) -> &[u8] {
    let mut seen = 0usize;
    for (at, byte) in text.iter().enumerate() {
        if seen == count {
            return text.get(..at).unwrap_or(text);
        }
        if *byte == b'\n' {
            seen = seen.saturating_add(1);
        }
    }
    text
}

/// Gives the lines of a text above this one, counted from 1, with their ends.
fn lines_above(text: &[u8], number: usize) -> &[u8] {
    match number {
        0 | 1 => &[],
        _ => first_lines(text, number.saturating_sub(1)),
    }
}

/// Whether the first `count` lines of a text say `fault`.
fn says_fault(alloc: Global, text: &[u8], count: usize, fault: NetFault) -> bool {
    match Topology::read(alloc, first_lines(text, count)) {
        Err(found) => found == fault,
        Ok(_) => false,
    }
}

/// How many lines of a text have an end.
fn ended_lines(text: &[u8]) -> usize {
    let mut count = 0usize;
    for byte in text {
        if *byte == b'\n' {
            count = count.saturating_add(1);
        }
    }
    count
}

/// Gives the number of the first line at which a text says `fault`, counted from 1. It is found by halving, since later lines change nothing.
fn line_of_fault(alloc: Global, text: &[u8], fault: NetFault) -> usize {
    let (mut without, mut with) = (0usize, ended_lines(text).saturating_add(1));
    for _ in 0..usize::BITS {
        let half = with.saturating_sub(without) / 2;
        let middle = without.saturating_add(half);
        if half == 0 {
            break;
        }
        if says_fault(alloc, text, middle, fault) {
            with = middle;
        } else {
            without = middle;
        }
    }
    with
}

/// Gives this line of a text, counted from 1, without its end, which may be a CR and an LF.
fn nth_line(text: &[u8], number: usize) -> &[u8] {
    let line = match text
        .split(|byte| *byte == b'\n')
        .nth(number.saturating_sub(1))
    {
        Some(line) => line,
        None => &[],
    };
    match line.split_last() {
        Some((b'\r', front)) if number <= ended_lines(text) => front,
        _ => line,
    }
}

/// Gives the number of the line at which a text says `fault`; 0 if it is no line's fault.
fn faulty_line(alloc: Global, text: &[u8], fault: NetFault) -> usize
    ensures { fault ≡ NetFault.Memory → result ≡ 0 }
{
    match fault {
        NetFault::Syntax(line) => line as usize,
        NetFault::Memory => 0,
        NetFault::TwoWires | NetFault::UnknownNode | NetFault::TooMany => {
            line_of_fault(alloc, text, fault)
        }
    }
}

/// Appends how many nodes and ports there may be at most.
fn push_most(text: &mut String) -> Result<(), AllocError> {
    write!(
        text,
        "a network has at most {MAX_NODES} nodes and {MAX_PORTS} ports"
    )
}

/// Appends which rule a line breaks, by those above it.
fn push_broken(text: &mut String, above: &[u8], line: &[u8]) -> Result<(), AllocError> {
    let broken = broken_rule(above, line);
    if !broken.word.is_empty() {
        push_line(text, broken.word)?;
        text.push_str(": ")?;
    }
    text.push_str(broken.rule)
}

/// Appends which rule the topology of a text breaks, at this line.
fn push_reason(
    text: &mut String,
    bytes: &[u8],
    number: usize,
    fault: NetFault,
) -> Result<(), AllocError>
    ensures { fault ≡ NetFault.Memory → OnOk result (string_bytes text.new ≡ string_bytes text.old ++ codes "memory is wanting") }
{
    match fault {
        NetFault::Syntax(0) => text.push_str(missing(bytes)),
        NetFault::Syntax(_) => push_broken(
            text,
            lines_above(bytes, number),
            nth_line(bytes, number),
        ),
        NetFault::TwoWires => {
            text.push_str("one of its ends has a wire already, or both are the same")
        }
        NetFault::UnknownNode => text.push_str("one of its ends is named by no line above"),
        NetFault::TooMany => push_most(text),
        NetFault::Memory => text.push_str("memory is wanting"),
    }
}

/// Appends a line, or a word of one; if it is long, only its first characters.
fn push_line(text: &mut String, line: &str) -> Result<(), AllocError> {
    let shown = Shown::front(line, MOST_SHOWN);
    write!(text, "{shown}")
}

/// Appends at which line the text at a path has its fault, counted from 1; 0 stands for all of the text.
fn push_where(text: &mut String, path: &str, number: usize, line: &[u8]) -> Result<(), AllocError> {
    let shown = Shown::all(path);
    if number == 0 {
        return write!(text, "  {shown}: ");
    }
    write!(text, "  {shown}, line {number}: ")?;
    push_line(text, str::from_utf8(line).unwrap_or(NO_TEXT))?;
    text.push_str("\n  ")
}

/// Says at which line a text says no topology, and why.
pub(crate) fn push_topology(
    alloc: Global,
    text: &mut String,
    path: &str,
    bytes: &[u8],
    fault: NetFault,
) -> Result<(), AllocError> {
    let number = faulty_line(alloc, bytes, fault);
    push_where(text, path, number, nth_line(bytes, number))?;
    push_reason(text, bytes, number, fault)?;
    text.push_str("\n")
}
