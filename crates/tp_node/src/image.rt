//! Reading images.

ghost use Rattle.std.specs.Prelude.{◌≡◌, ◌++◌, ℕ, List, length};
ghost use Rattle.tp_node.specs.Lower.{option_map, is_node, node_of};
ghost use Rattle.tp_node.specs.StateWith.{state_with};

use crate::head::Head;
use crate::rules::{are_inputs, are_outputs, is_memory};
use tp_model::limits::{IMAGE_HEAD_BYTES, PAGE_BYTES, SLICE};

/// Whether a node with `head` and `len` bytes of memory keeps the rules of images.
#[tactic(auto, unfolding(tp_model::specs::Image::is_node))]
fn keeps_rules(head: &Head, len: usize) -> bool
    ensures { (memory : List ℕ) → length memory ≡ len → result ≡ is_node (state_with head.now memory) }
{
    is_memory(len)
        && head.cpu.wptr % 4 == 0
        && head.cpu.slice as usize <= SLICE
        && are_outputs(len, &head.outputs)
        && are_inputs(len, &head.inputs)
}

/// Reads the head that `front` spells; `None` if `front` and `len` bytes of memory after it can't be an image.
pub(crate) fn read_head(front: &[u8], len: usize) -> Option<Head>
    requires { length front.now ≡ IMAGE_HEAD_BYTES }
    ensures { (memory : List ℕ) → length memory ≡ len → node_of (front.now ++ memory) ≡ option_map (λ head. state_with head memory) result }
{
    let head = Head::read(front);
    if !keeps_rules(&head, len) {
        return None;
    }
    let mut spelled = [0; IMAGE_HEAD_BYTES];
    head.write((len / PAGE_BYTES) as u16, &mut spelled);
    if front[..] == spelled[..] {
        Some(head)
    } else {
        None
    }
}

/// Reads the head and the memory of the node whose image the bytes are; `None` if they are no image.
pub(crate) fn read_image(bytes: &[u8]) -> Option<(Head, &[u8])>
    ensures { node_of bytes.now ≡ option_map (λ parts. state_with parts.0 parts.1.now) result }
{
    if bytes.len() < IMAGE_HEAD_BYTES {
        return None;
    }
    let memory = &bytes[IMAGE_HEAD_BYTES..];
    let head = read_head(&bytes[..IMAGE_HEAD_BYTES], memory.len())?;
    Some((head, memory))
}
