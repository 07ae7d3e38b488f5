//! A flat network read out.

ghost use Rattle.std.specs.Prelude.{◌≡◌, ◌<◌, IfOk, Some, length, map, slice_get};
ghost use Rattle.tp_replay.specs.Lower.{option_map, image, node_at, node_of, on_line, network_made};
ghost use Rattle.tp_replay.specs.PartsOf.{ArePartsOf};

use crate::image::{image_of, images_of, images_taken};
use crate::network::FlatNetwork;
use std::alloc::{AllocError, Global};
use tp_book::{NetParts, all_parts};
use tp_model::Token;
use tp_net::Lines;

/// Copies the tokens on a line.
fn tokens_on(alloc: Global, lines: &Lines, line: usize) -> Result<Vec<Token>, AllocError>
    requires { line < length lines.now }
    ensures { IfOk result (λ tokens. tokens.items ≡ on_line lines.now line) }
{
    let mut tokens = Vec::new(alloc);
    for at in 0..lines.len(line) {
        if let Some(token) = lines.get(line, at) {
            tokens.push(token)?;
        }
    }
    Ok(tokens)
}

/// Copies the tokens on each line.
fn all_tokens(alloc: Global, lines: &Lines) -> Result<Vec<Vec<Token>>, AllocError>
    ensures { IfOk result (λ tokens. map (λ line. line.items) tokens.items ≡ lines.now) }
{
    let mut tokens = Vec::new(alloc);
    for line in 0..lines.count() {
        tokens.push(tokens_on(alloc, lines, line)?)?;
    }
    Ok(tokens)
}

impl FlatNetwork {
    /// Turns the network into its parts, with each node as its image, which spells it: they are that network again. Each node goes as soon
    /// as its image is made, so it takes hardly more memory than the nodes at any time. `AllocError` if memory is out.
    pub fn into_net(self, alloc: Global) -> Result<NetParts, AllocError>
        ensures parts { IfOk result (λ parts. ArePartsOf parts self) }
        ensures spelt { IfOk result (λ parts. map (λ image. node_of image.items) parts.images.items ≡ map Some self.nodes) }
        ensures again { IfOk result (λ parts. network_made parts ≡ self) }
    {
        let (wires, nodes, lines, ports) = self.into_fields();
        Ok(NetParts {
            images: images_taken(alloc, nodes)?,
            wires,
            lines: all_tokens(alloc, &lines)?,
            ports: all_parts(alloc, &ports)?,
        })
    }

    /// Makes the image of a node, which spells it; `None` if the node doesn't exist. The network stays as it is. `AllocError` if memory is
    /// out.
    pub fn image(&mut self, alloc: Global, node: usize) -> Result<Option<Vec<u8>>, AllocError>
        ensures image { IfOk result (λ shown. option_map (λ bytes. bytes.items) shown ≡ option_map image (slice_get self.old.nodes node)) }
        ensures again { IfOk result (λ shown. option_map (λ bytes. node_at bytes.items) shown ≡ slice_get self.old.nodes node) }
        ensures same { self.new ≡ self.old }
    {
        if node >= self.nodes.len() {
            return Ok(None);
        }
        Ok(Some(image_of(alloc, &mut self.nodes[node])?))
    }

    /// Copies the network as its parts, with each node as its image, which spells it: they are that network again. The network stays as it
    /// is. `AllocError` if memory is out.
    pub fn parts(&mut self, alloc: Global) -> Result<NetParts, AllocError>
        ensures parts { IfOk result (λ parts. ArePartsOf parts self.old) }
        ensures spelt { IfOk result (λ parts. map (λ image. node_of image.items) parts.images.items ≡ map Some self.old.nodes) }
        ensures again { IfOk result (λ parts. network_made parts ≡ self.old) }
        ensures same { self.new ≡ self.old }
    {
        Ok(NetParts {
            images: images_of(alloc, &mut self.nodes)?,
            wires: Vec::from_slice(alloc, &self.wires)?,
            lines: all_tokens(alloc, &self.lines)?,
            ports: all_parts(alloc, &self.ports)?,
        })
    }
}
