//! What all the waiting adds up to: the waits that nobody in the network can end, said once more.

ghost use Rattle.std.specs.Prelude.{◌≡◌, ◌++◌, ◌<◌, ◌≤◌, OnOk, length, string_bytes};
ghost use Rattle.tp_model.specs.declared.limits.TheConstants.{MAX_NODES};
ghost use Rattle.tp_views.specs.Scene.{seen_in};
ghost use Rattle.tp_views.specs.Sums.{node_sums, other_part, sum_line, sum_part, sums_at, sums_lines, sums_of, why_name};

use crate::text::parts::Part::{Number, Text};
use crate::text::parts::push_parts;
use crate::waits::scene::{NodeSeen, Scene};
use crate::waits::waiting::{LinkWaits, Wait, is_told, links_of};
use crate::waits::why::Reason;
use std::alloc::AllocError;
use tp_model::WireEnd;

/// Gives the words for why a process still waits.
pub(crate) fn why_name(why: Reason) -> &'static str
    ensures { result.now ≡ why_name why }
{
    match why {
        Reason::UnderWay => "under way",
        Reason::Halted => "halted",
        Reason::Runs => "runs",
        Reason::BothSend => "both send",
        Reason::BothInput => "both input",
        Reason::Elsewhere => "waits elsewhere",
        Reason::Full => "full",
        Reason::NoInput => "no input",
        Reason::NoWire => "no wire",
    }
}

/// Appends the other end of a wire, after words that lead there.
pub(crate) fn push_other(
    text: &mut String,
    words: &str,
    other: Option<WireEnd>,
) -> Result<(), AllocError>
    ensures { OnOk result (string_bytes text.new ≡ string_bytes text.old ++ other_part words.now other) }
{
    match other {
        Some(WireEnd::Link(node, link)) => push_parts(
            text,
            &[
                Text(words),
                Text("node "),
                Number(node as u64),
                Text(" link "),
                Number(link as u64),
            ],
        ),
        Some(WireEnd::Port(port)) => push_parts(
            text,
            &[Text(words), Text("port "), Number(port as u64)],
        ),
        None => push_parts(text, &[Text(words), Text("nobody")]),
    }
}

/// Appends that a process waits for another one, and why.
fn push_line(text: &mut String, wait: &Wait) -> Result<(), AllocError>
    ensures { OnOk result (string_bytes text.new ≡ string_bytes text.old ++ sum_line wait.now) }
{
    let name = why_name(wait.why);
    push_parts(
        text,
        &[
            Text(name),
            Text(": node "),
            Number(wait.node as u64),
            Text(" link "),
            Number(wait.link as u64),
        ],
    )?;
    push_other(text, " waits for ", wait.other)?;
    push_parts(text, &[Text("\n")])
}

/// Appends what the waiting at an end adds up to, in a network of `nodes` nodes.
fn push_sum(text: &mut String, nodes: usize, end: &Option<Wait>) -> Result<(), AllocError>
    requires { nodes ≤ MAX_NODES }
    ensures { OnOk result (string_bytes text.new ≡ string_bytes text.old ++ sum_part nodes end.now) }
{
    match end {
        Some(wait) if is_told(nodes, wait) => push_line(text, wait),
        _ => Ok(()),
    }
}

/// Appends what the processes that wait at a link add up to.
fn push_sums_at(text: &mut String, nodes: usize, link: &LinkWaits) -> Result<(), AllocError>
    requires { nodes ≤ MAX_NODES }
    ensures { OnOk result (string_bytes text.new ≡ string_bytes text.old ++ sums_at nodes link.now) }
{
    push_sum(text, nodes, &link.output)?;
    push_sum(text, nodes, &link.input)
}

/// Appends what the processes that wait at links add up to.
fn push_sums_of(text: &mut String, nodes: usize, links: &[LinkWaits]) -> Result<(), AllocError>
    requires { nodes ≤ MAX_NODES }
    ensures { OnOk result (string_bytes text.new ≡ string_bytes text.old ++ sums_of nodes links.now) }
{
    for link in links {
        push_sums_at(text, nodes, link)?;
    }
    Ok(())
}

/// Appends what the processes that wait in a node add up to.
fn push_node(
    text: &mut String,
    scene: &Scene,
    number: usize,
    own: &NodeSeen,
) -> Result<(), AllocError>
    requires number { number < MAX_NODES }
    requires nodes { length scene.now.nodes.items ≤ MAX_NODES }
    ensures { OnOk result (string_bytes text.new ≡ string_bytes text.old ++ node_sums (seen_in scene.now) number own.now) }
{
    push_sums_of(text, scene.nodes.len(), &links_of(scene, number, own))
}

/// Appends what the processes that wait in a network add up to.
pub(crate) fn push_sums(text: &mut String, scene: &Scene) -> Result<(), AllocError>
    requires { length scene.now.nodes.items ≤ MAX_NODES }
    ensures { OnOk result (string_bytes text.new ≡ string_bytes text.old ++ sums_lines (seen_in scene.now) 0 scene.now.nodes.items) }
{
    for (number, own) in scene.nodes.iter().enumerate() {
        push_node(text, scene, number, own)?;
    }
    Ok(())
}
