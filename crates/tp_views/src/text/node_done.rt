//! What `node` prints of what a node has done since the checkpoint.

ghost use Rattle.std.specs.Prelude.{◌≡◌, ◌++◌, OnOk, string_bytes};
ghost use Rattle.tp_views.specs.Fields.{fields_text};
ghost use Rattle.tp_views.specs.NodeDone.{bytes_fields, counts_fields, done_shown, link_text, links_text};

use crate::text::done::{Count, total};
use crate::text::fields::Field::{After, Item, Named, Words};
use crate::text::fields::Value::{Large, Number};
use crate::text::fields::push_fields;
use std::alloc::AllocError;
use tp_book::Numbered;
use tp_model::WireEnd;

/// Appends how many entries and steps a node has made since the checkpoint, which holds `base` entries.
fn push_counts(
    text: &mut String,
    json: bool,
    base: u64,
    entries: u128,
    steps: u128,
) -> Result<(), AllocError>
    ensures { OnOk result (string_bytes text.new ≡ string_bytes text.old ++ fields_text json (counts_fields base entries steps)) }
{
    push_fields(
        text,
        json,
        &[
            After("since ", ",\"since\":", Number(base)),
            Named("entries", Large(entries)),
            Named("steps", Large(steps)),
            Words("\n", ",\"bytes\":["),
        ],
    )
}

/// Appends how many bytes came in at a link, and how many went out.
fn push_bytes(
    text: &mut String,
    json: bool,
    link: u8,
    came: u128,
    went: u128,
) -> Result<(), AllocError>
    ensures { OnOk result (string_bytes text.new ≡ string_bytes text.old ++ fields_text json (bytes_fields link came went)) }
{
    push_fields(
        text,
        json,
        &[
            Item("bytes", link as usize),
            After(" in ", "{\"in\":", Large(came)),
            Named("out", Large(went)),
            Words("\n", "}"),
        ],
    )
}

/// Appends what a node's link has done.
fn push_link(
    text: &mut String,
    json: bool,
    node: u64,
    link: u8,
    wires: &[Option<WireEnd>],
    nodes: usize,
    kept: &[Numbered],
) -> Result<(), AllocError>
    ensures { OnOk result (string_bytes text.new ≡ string_bytes text.old ++ link_text json node link wires.now nodes kept.now) }
{
    let came = total(Count::BytesIn(link), Some(node), wires, nodes, kept);
    let went = total(Count::BytesOut(link), Some(node), wires, nodes, kept);
    push_bytes(text, json, link, came, went)
}

/// Appends what links 0 to 3 of a node have done.
fn push_links(
    text: &mut String,
    json: bool,
    node: u64,
    wires: &[Option<WireEnd>],
    nodes: usize,
    kept: &[Numbered],
) -> Result<(), AllocError>
    ensures { OnOk result (string_bytes text.new ≡ string_bytes text.old ++ links_text json node wires.now nodes kept.now) }
{
    push_link(text, json, node, 0, wires, nodes, kept)?;
    push_link(text, json, node, 1, wires, nodes, kept)?;
    push_link(text, json, node, 2, wires, nodes, kept)?;
    push_link(text, json, node, 3, wires, nodes, kept)
}

/// Appends what a node has done since the checkpoint, which holds `base` entries: as lines, or as JSON that ends the node's object.
pub(crate) fn push_done(
    text: &mut String,
    json: bool,
    node: u64,
    base: u64,
    wires: &[Option<WireEnd>],
    nodes: usize,
    kept: &[Numbered],
) -> Result<(), AllocError>
    ensures { OnOk result (string_bytes text.new ≡ string_bytes text.old ++ done_shown json node base wires.now nodes kept.now) }
{
    let entries = total(Count::Entries, Some(node), wires, nodes, kept);
    let steps = total(Count::Steps, Some(node), wires, nodes, kept);
    push_counts(text, json, base, entries, steps)?;
    push_links(text, json, node, wires, nodes, kept)?;
    push_fields(text, json, &[Words("", "]}\n")])
}
