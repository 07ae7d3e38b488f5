//! What is printed of a port for scripts.

ghost use Rattle.std.specs.Prelude.{◌≡◌, ◌++◌, IfOk, OnOk, string_bytes, map, slice_get};
ghost use Rattle.tp_views.specs.Lower.{decimal, option_map};
ghost use Rattle.tp_views.specs.Json.{comma, json_items, json_list};
ghost use Rattle.tp_views.specs.JsonPort.{outputs_json, pending_json, port_json};

use crate::text::json::{comma, push};
use crate::text::parts::Part::{Number, Text};
use crate::text::parts::push_parts;
use std::alloc::{AllocError, Global};
use std::fmt::Write;
use tp_book::HostPort;
use tp_replay::FlatNetwork;

/// Appends a byte, after `before` other bytes.
fn push_byte(text: &mut String, before: usize, byte: u8) -> Result<(), AllocError>
    ensures { OnOk result (string_bytes text.new ≡ string_bytes text.old ++ (comma before ++ decimal byte)) }
{
    push_parts(text, &[Text(comma(before)), Number(byte as u64)])
}

fn push_bytes(text: &mut String, bytes: &[u8]) -> Result<(), AllocError>
    ensures { OnOk result (string_bytes text.new ≡ string_bytes text.old ++ json_items 0 (map decimal bytes.now)) }
{
    for (number, byte) in bytes.iter().enumerate() {
        push_byte(text, number, *byte)?;
    }
    Ok(())
}

fn push_byte_list(text: &mut String, bytes: &[u8]) -> Result<(), AllocError>
    ensures { OnOk result (string_bytes text.new ≡ string_bytes text.old ++ json_list (map decimal bytes.now)) }
{
    push(text, "[")?;
    push_bytes(text, bytes)?;
    push(text, "]")
}

/// Gives the object of some bytes of a port. `from` bytes came before them.
fn port_json(alloc: Global, number: u64, from: u64, bytes: &[u8]) -> Result<String, AllocError>
    ensures { IfOk result (λ text. string_bytes text ≡ port_json number from bytes.now) }
{
    let mut text = format!(in alloc; "{{\"port\":{number},\"from\":{from},\"bytes\":")?;
    push_byte_list(&mut text, bytes)?;
    push(&mut text, "}\n")?;
    Ok(text)
}

fn pending_json(alloc: Global, number: u64, port: &HostPort) -> Result<Vec<u8>, AllocError>
    ensures { IfOk result (λ bytes. bytes.items ≡ pending_json number port.now.port) }
{
    let text = port_json(alloc, number, port.in_base(), port.pending())?;
    Ok(text.into_bytes())
}

fn outputs_json(alloc: Global, number: u64, port: &HostPort) -> Result<Vec<u8>, AllocError>
    ensures { IfOk result (λ bytes. bytes.items ≡ outputs_json number port.now.port) }
{
    let text = port_json(alloc, number, port.out_base(), port.outputs())?;
    Ok(text.into_bytes())
}

/// Gives the bytes that were handed in to a port and that no node has taken, as JSON; `None` if there is no such port.
pub(crate) fn pending_json_in(
    alloc: Global,
    network: &FlatNetwork,
    port: u64,
) -> Result<Option<Vec<u8>>, AllocError>
    ensures { IfOk result (λ shown. option_map (λ bytes. bytes.items) shown ≡ option_map (pending_json port) (slice_get network.now.ports port)) }
{
    let (ports, at) = (network.ports(), port as usize);
    if at >= ports.len() {
        return Ok(None);
    }
    Ok(Some(pending_json(alloc, port, &ports[at])?))
}

/// Gives the outputs of a port that aren't confirmed, as JSON; `None` if there is no such port.
pub(crate) fn outputs_json_in(
    alloc: Global,
    network: &FlatNetwork,
    port: u64,
) -> Result<Option<Vec<u8>>, AllocError>
    ensures { IfOk result (λ shown. option_map (λ bytes. bytes.items) shown ≡ option_map (outputs_json port) (slice_get network.now.ports port)) }
{
    let (ports, at) = (network.ports(), port as usize);
    if at >= ports.len() {
        return Ok(None);
    }
    Ok(Some(outputs_json(alloc, port, &ports[at])?))
}
