//! Nodes as images.

ghost use Rattle.std.specs.Prelude.{◌≡◌, ◌++◌, Some, None, IfOk, OnOk, map};
ghost use Rattle.tp_replay.specs.Lower.{image, NodeState};
ghost use Rattle.tp_replay.specs.Flat.{AreThawed};

use std::alloc::{AllocError, Global};
use tp_model::limits::{IMAGE_HEAD_BYTES, PAGE_BYTES};
use tp_node::Node;

/// Appends the image of the frozen node, page by page.
fn put_frozen(node: &Node, bytes: &mut Vec<u8>) -> Result<(), AllocError>
    ensures { (kept : NodeState) → node.now.frozen ≡ Some kept → OnOk result (bytes.new.items ≡ bytes.old.items ++ image kept) }
{
    if !node.is_frozen() {
        return Ok(());
    }
    let mut head = [0; IMAGE_HEAD_BYTES];
    node.frozen_head(&mut head);
    bytes.extend_from_slice(&head)?;
    let mut page = [0; PAGE_BYTES];
    for i in 0..node.pages() {
        node.frozen_page(i, &mut page);
        bytes.extend_from_slice(&page)?;
    }
    Ok(())
}

/// Makes the image of a node, which it freezes while it reads it. The image spells the node again. `AllocError` if memory is out.
pub(crate) fn image_of(alloc: Global, node: &mut Node) -> Result<Vec<u8>, AllocError>
    requires { node.old.frozen ≡ None }
    ensures image { IfOk result (λ bytes. bytes.items ≡ image node.old.live) }
    ensures same { node.new ≡ node.old }
{
    let mut bytes = Vec::new(alloc);
    node.freeze();
    let put = put_frozen(node, &mut bytes);
    node.drop_frozen();
    match put {
        Ok(()) => Ok(bytes),
        Err(refused) => Err(refused),
    }
}

/// Makes the image of each node, and drops each node as soon as its image is made, so that memory holds few pages twice. `AllocError` if
/// memory is out.
pub(crate) fn images_taken(alloc: Global, nodes: Vec<Node>) -> Result<Vec<Vec<u8>>, AllocError>
    requires { AreThawed nodes.items }
    ensures { IfOk result (λ images. map (λ bytes. bytes.items) images.items ≡ map (λ node. image node.live) nodes.items) }
{
    let mut images = Vec::new(alloc);
    for node in nodes {
        let mut node = node;
        images.push(image_of(alloc, &mut node)?)?;
    }
    Ok(images)
}

/// Makes the image of each node. `AllocError` if memory is out.
pub(crate) fn images_of(alloc: Global, nodes: &mut Vec<Node>) -> Result<Vec<Vec<u8>>, AllocError>
    requires { AreThawed nodes.old.items }
    ensures images { IfOk result (λ images. map (λ bytes. bytes.items) images.items ≡ map (λ node. image node.live) nodes.old.items) }
    ensures same { nodes.new.items ≡ nodes.old.items }
{
    let mut images = Vec::new(alloc);
    for i in 0..nodes.len() {
        images.push(image_of(alloc, &mut nodes[i])?)?;
    }
    Ok(images)
}
