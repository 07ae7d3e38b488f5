//! Whether a node can take a token, by its image. It may be handed no other.

ghost use Rattle.std.specs.Prelude.{◌≡◌, ℕ, ◌+◌, ◌<◌, ◌≤◌, length, drop, Some, IsSome, IfSome, IsTrue};
ghost use Rattle.std.specs.List.{slice_get};
ghost use Rattle.tp_model.specs.Bytes.{u32_at};
ghost use Rattle.tp_model.specs.EndBytes.{transfer_at, out_end_at, in_end_at};
ghost use Rattle.tp_model.specs.Image.{node_at};
ghost use Rattle.tp_model.specs.Memory.{offset};
ghost use Rattle.tp_model.specs.Node.{took_token, took};
ghost use Rattle.tp_model.specs.NodeState.{NodeState};

use crate::image::FIRST;
use std::alloc::Global;
use tp_model::limits::IMAGE_HEAD_BYTES;
use tp_model::{InEnd, OutEnd, Token, Transfer};
use tp_node::{Node, OutEngine};

/// The number in four bytes from a place on.
fn word_at(bytes: &[u8], at: usize) -> u32
    requires { at + 4 ≤ length bytes.now }
    ensures { result ≡ u32_at bytes.now at }
{
    u32::from_le_bytes([bytes[at], bytes[at + 1], bytes[at + 2], bytes[at + 3]])
}

/// The transfer of an end that the bytes begin with.
fn transfer_at(end: &[u8]) -> Transfer
    requires { 16 ≤ length end.now }
    ensures { result ≡ transfer_at end.now }
{
    Transfer {
        process: word_at(end, 4),
        pointer: word_at(end, 8),
        left: word_at(end, 12),
    }
}

/// The output end that the bytes begin with, and the input end.
fn output_at(end: &[u8]) -> OutEnd
    requires { 16 ≤ length end.now }
    ensures { result ≡ out_end_at end.now }
{
    if end[0] == 0 {
        return OutEnd::Idle;
    }
    OutEnd::Waits(transfer_at(end))
}

fn input_at(end: &[u8]) -> InEnd
    requires { 16 ≤ length end.now }
    ensures { result ≡ in_end_at end.now }
{
    match (end[0], end[1]) {
        (0, 0) => InEnd::Idle(None),
        (0, _) => InEnd::Idle(Some(end[2])),
        (1, _) => InEnd::Inputs(transfer_at(end)),
        (_, _) => InEnd::Enabled(word_at(end, 4)),
    }
}

/// Whether an address is inside a memory.
fn is_inside(memory: &[u8], address: u32) -> bool
    ensures { IsTrue result → offset address < length memory.now }
{
    (address.wrapping_sub(FIRST) as usize) < memory.len()
}

/// Whether an output end can take an acknowledge.
fn can_take_ack(end: OutEnd, memory: &[u8]) -> bool
    ensures { (node : NodeState) (k : ℕ) → IsTrue result → slice_get node.outputs k ≡ Some end → node.memory ≡ memory.now → IsSome (took_token node k Token.Ack) }
{
    let engine = OutEngine::new(end);
    match engine.next_pointer() {
        Some(pointer) => is_inside(memory, pointer),
        None => engine.is_waiting(),
    }
}

/// Whether an input end can take a byte.
fn can_take_data(end: InEnd, memory: &[u8]) -> bool
    ensures { (node : NodeState) (k byte : ℕ) → IsTrue result → slice_get node.inputs k ≡ Some end → node.memory ≡ memory.now → IsSome (took_token node k (Token.Data byte)) }
{
    match end {
        InEnd::Idle(held) => held.is_none(),
        InEnd::Inputs(transfer) => is_inside(memory, transfer.pointer),
        InEnd::Enabled(_) => true,
    }
}

/// Whether the node of an image can take a token on a link.
fn can_take(bytes: &[u8], link: u8, token: Token) -> bool
    ensures { IsTrue result → IsSome (took (node_at bytes.now) link token) }
{
    if bytes.len() < IMAGE_HEAD_BYTES || link >= 4 {
        return false;
    }
    let at = 16 * link as usize;
    let memory = &bytes[IMAGE_HEAD_BYTES..];
    match token {
        Token::Data(_) => can_take_data(input_at(&bytes[108 + at..]), memory),
        Token::Ack => can_take_ack(output_at(&bytes[44 + at..]), memory),
        Token::Marker => false,
    }
}

/// The node of an image, if it can take a token on a link.
#[tactic(auto, using(crate::proofs::Taking::node_hears))]
pub fn hearer(alloc: Global, bytes: &[u8], link: u8, token: Token) -> Option<Node>
    ensures { IfSome result (λ node. IsSome (took node.live link token)) }
{
    if !can_take(bytes, link, token) {
        return None;
    }
    match Node::from_image(alloc, bytes, 0) {
        Ok(node) => Some(node),
        Err(_) => None,
    }
}
