//! The nodes of an opened device.

ghost use Rattle.std.specs.Prelude.{◌≡◌, ℕ, Some, None, map, slice_get, IfOk};
ghost use Rattle.tp_work.specs.Lower.{now_of, IsWellOpen, IsNodeOfBytes, node_at, node_of, HasFrames, NodeContents};
ghost use Rattle.tp_work.specs.Nodes.{IsMade};

use std::alloc::{AllocError, Global};
use tp_book::{NetParts, NetState};
use tp_law_machine::nodes_stay_nodes;
use tp_node::Node;

// Makes the node that an image spells, with `spare` frames.
fn node_in(alloc: Global, image: &[u8], spare: usize) -> Result<Node, AllocError>
    requires { node_of image.now ≡ Some (node_at image.now) }
    ensures { IfOk result (IsMade spare (node_at image.now)) }
{
    nodes_stay_nodes();
    match Node::from_image(alloc, image, spare) {
        Ok(node) => Ok(node),
        Err(_) => Err(AllocError),
    }
}

/// Makes the nodes of an opened device, as the kept entries left them. Each has `spare` frames, but at most as many as pages, for pages
/// that it writes while it is frozen. Drops each image as soon as its node is made, so that the memory holds few pages twice. `AllocError`
/// if memory is out.
pub fn nodes_of(alloc: Global, state: NetState, spare: usize) -> Result<Vec<Node>, AllocError>
    requires { IsWellOpen state }
    ensures live { IfOk result (λ nodes. map (λ node. node.live) nodes.items ≡ (now_of state).nodes) }
    ensures each { IfOk result (λ nodes. (i : ℕ) (node : NodeContents) → slice_get nodes.items i ≡ Some node → IsNodeOfBytes node.live × (node.frozen ≡ None)) }
    ensures frames { IfOk result (λ nodes. (i : ℕ) (node : NodeContents) → slice_get nodes.items i ≡ Some node → HasFrames spare node) }
{
    let NetState { net, .. } = state;
    let NetParts { images, .. } = net;
    let mut nodes = Vec::new(alloc);
    for image in images {
        nodes.push(node_in(alloc, &image, spare)?)?;
    }
    Ok(nodes)
}
