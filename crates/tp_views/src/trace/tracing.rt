//! `tpnet trace` of an image, and `tpnet try` without `--turns`: a line for each step of one node, and for each token that comes in at its links.

ghost use Rattle.std.specs.Prelude.{◌≡◌, ◌≤◌, None, IfErr, IfOk, OnOk, map, option_copied};
ghost use Rattle.tp_views.specs.Lower.{Appends, node_of, IsLinked, attended};
ghost use Rattle.tp_views.specs.Front.{AppendsFront};
ghost use Rattle.tp_views.specs.Maps.{rows_seen};
ghost use Rattle.tp_views.specs.Traced.{IsLineFault, Passes, ReadsNode, TraceAnswer, Traces, TracesFront, last_text, moment, node_traced, traced};

use crate::commands::{put, refuse};
use crate::maps::MapRow;
use crate::refusal::Refusal;
use crate::trace::stops::Stops;
use crate::trace::tracing_lines::{last_text, moment_text};
use std::alloc::Global;
use std::io::Write;
use tp_node::{ImageFault, Node, Runs};
use tp_trace::Linked;
use tp_turn::TryFault;

/// Prints what happens next, as line `number`. Answers whether the trace goes on.
fn put_moment<O: Write>(
    alloc: Global,
    rows: &[MapRow<'_>],
    stops: Stops,
    number: u64,
    linked: &mut Linked<'_>,
    runs: &mut Runs,
    out: &mut O,
) -> Result<bool, Refusal>
    requires { IsLinked linked.old }
    ensures passes { IfOk result (λ goes. Passes (moment (rows_seen rows.now) stops number (attended linked.old)) goes (attended linked.new) (O.contents out.old) (O.contents out.new)) }
    ensures front { AppendsFront (O.contents out.old) (O.contents out.new) (moment (rows_seen rows.now) stops number (attended linked.old)).text }
    ensures refused { IfErr result IsLineFault }
    ensures linked { IsLinked linked.new }
{
    let Ok((text, goes)) = moment_text(alloc, rows, stops, number, linked, runs) else {
        return Err(Refusal::Memory);
    };
    put(out, text.as_bytes())?;
    Ok(goes)
}

/// Prints why the trace ends after its last line.
fn put_last<O: Write>(
    alloc: Global,
    rows: &[MapRow<'_>],
    stops: Stops,
    linked: &mut Linked<'_>,
    runs: &mut Runs,
    out: &mut O,
) -> Result<(), Refusal>
    requires { IsLinked linked.old }
    ensures printed { OnOk result (Appends (O.contents out.old) (O.contents out.new) (last_text (rows_seen rows.now) stops (attended linked.old))) }
    ensures front { AppendsFront (O.contents out.old) (O.contents out.new) (last_text (rows_seen rows.now) stops (attended linked.old)) }
    ensures refused { IfErr result IsLineFault }
{
    match last_text(alloc, rows, stops, linked, runs) {
        Ok(text) => put(out, text.as_bytes()),
        Err(_) => Err(Refusal::Memory),
    }
}

/// Prints at most `steps` lines, each as soon as it happened. More lines take no more memory.
fn put_steps<O: Write>(
    alloc: Global,
    rows: &[MapRow<'_>],
    stops: Stops,
    steps: u32,
    linked: &mut Linked<'_>,
    runs: &mut Runs,
    out: &mut O,
) -> Result<(), Refusal>
    requires { IsLinked linked.old }
    ensures printed { OnOk result (Appends (O.contents out.old) (O.contents out.new) (traced (rows_seen rows.now) stops steps 1 (attended linked.old))) }
    ensures front { AppendsFront (O.contents out.old) (O.contents out.new) (traced (rows_seen rows.now) stops steps 1 (attended linked.old)) }
    ensures refused { IfErr result IsLineFault }
{
    for index in 0..steps {
        if !put_moment(alloc, rows, stops, u64::from(index) + 1, linked, runs, out)? {
            return Ok(());
        }
    }
    put_last(alloc, rows, stops, linked, runs, out)
}

/// Reads the node of an image, also one whose links are at work.
pub(crate) fn image_node(alloc: Global, image: &[u8]) -> Result<Node, TryFault>
    ensures { ReadsNode image.now result }
{
    match Node::from_image(alloc, image, 0) {
        Ok(node) => Ok(node),
        Err(ImageFault::BadImage) => Err(TryFault::BadImage),
        Err(ImageFault::Memory) => Err(TryFault::Memory),
    }
}

/// Reads an image, and prints the lines of its node.
fn trace<O: Write>(
    alloc: Global,
    image: &[u8],
    rows: &[MapRow<'_>],
    stops: Stops,
    steps: u32,
    others: [Option<&[u8]>; 4],
    out: &mut O,
) -> Result<(), Refusal>
    ensures { TraceAnswer (node_traced (rows_seen rows.now) stops steps (map option_copied others.entry)) image.now (O.contents out.old) (O.contents out.new) result }
{
    match image_node(alloc, image) {
        Ok(node) => {
            let Ok(mut runs) = Runs::new(alloc) else {
                return Err(Refusal::Trial(TryFault::Memory));
            };
            let mut linked = Linked { node, others };
            put_steps(alloc, rows, stops, steps, &mut linked, &mut runs, out)
        }
        Err(fault) => Err(Refusal::Trial(fault)),
    }
}

/// `tpnet trace` of an image, given its bytes. `others` has, for each link, the bytes that its other end sends, or `None` if nobody is there.
///
/// Answers the program's status. It is 0 if exactly the node's lines were written: at most `steps`, and what is printed when the trace ends. Else it
/// is 1, and only a first part of that was written. If the bytes are no image, nothing is written.
pub fn trace_on<O: Write, E: Write>(
    alloc: Global,
    image: &[u8],
    rows: &[MapRow<'_>],
    stops: Stops,
    steps: u32,
    others: [Option<&[u8]>; 4],
    out: &mut O,
    err: &mut E,
) -> u8
    ensures status { result ≤ 1 }
    ensures done { result ≡ 0 → Traces (node_traced (rows_seen rows.now) stops steps (map option_copied others.entry)) image.now (O.contents out.old) (O.contents out.new) }
    ensures front { TracesFront (node_traced (rows_seen rows.now) stops steps (map option_copied others.entry)) image.now (O.contents out.old) (O.contents out.new) }
    ensures refused { node_of image.now ≡ None → (result ≡ 1) × (O.contents out.new ≡ O.contents out.old) }
{
    match trace(alloc, image, rows, stops, steps, others, out) {
        Ok(()) => 0,
        Err(refusal) => refuse(err, refusal),
    }
}
