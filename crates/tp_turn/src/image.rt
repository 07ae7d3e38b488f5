//! The node of an image that is tried, and its network.

ghost use Rattle.std.specs.Prelude.{◌≡◌, IfOk};
ghost use Rattle.tp_turn.specs.Lower.{node_at, network_made};
ghost use Rattle.tp_turn.specs.Tried.{ReadsFresh, lone_network};

use std::alloc::{AllocError, Global};
use thiserror::Error;
use tp_book::{NetParts, PortParts};
use tp_model::WireEnd;
use tp_node::{ImageFault, Node, has_idle_links};

/// Line 0 leads to the port, line 4 to the link, and links 1 to 3 have no wire.
pub const ONE_WIRE: [Option<WireEnd>; 5] = [
    Some(WireEnd::Port(0)),
    None,
    None,
    None,
    Some(WireEnd::Link(0, 0)),
];

/// Why there was no trial.
#[derive(Clone, Copy, Debug, Error)]
pub enum TryFault {
    /// The bytes are no image of a node whose links are idle.
    #[error("BadImage")]
    BadImage,
    /// Out of memory.
    #[error("Memory")]
    Memory,
}

/// Makes the node of an image whose links are idle. `BadImage` for any other bytes, and `Memory` if memory is out.
pub fn lone_node(alloc: Global, image: &[u8]) -> Result<Node, TryFault>
    ensures { ReadsFresh image.now result }
{
    if !has_idle_links(image) {
        return Err(TryFault::BadImage);
    }
    match Node::from_image(alloc, image, 0) {
        Ok(node) => Ok(node),
        Err(ImageFault::BadImage) => Err(TryFault::BadImage),
        Err(ImageFault::Memory) => Err(TryFault::Memory),
    }
}

/// Makes the network of the node of an image, before its first entry.
pub(crate) fn lone_parts(alloc: Global, image: &[u8]) -> Result<NetParts, AllocError>
    ensures { IfOk result (λ net. network_made net ≡ lone_network (node_at image.now)) }
{
    let port = PortParts {
        pending: Vec::new(alloc),
        in_base: 0,
        outputs: Vec::new(alloc),
        out_base: 0,
    };
    let lines = [
        Vec::new(alloc),
        Vec::new(alloc),
        Vec::new(alloc),
        Vec::new(alloc),
        Vec::new(alloc),
    ];
    Ok(NetParts {
        wires: Vec::from_slice(alloc, &ONE_WIRE)?,
        images: Vec::from_array(alloc, [Vec::from_slice(alloc, image)?])?,
        lines: Vec::from_array(alloc, lines)?,
        ports: Vec::from_array(alloc, [port])?,
    })
}
