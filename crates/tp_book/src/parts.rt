//! A network as its parts.

use crate::PortParts;
use tp_model::{Token, WireEnd};

/// The receiver of each line, the image of each node, the tokens on each line, and the ports.
#[derive(Drop)]
pub struct NetParts {
    pub wires: Vec<Option<WireEnd>>,
    pub images: Vec<Vec<u8>>,
    pub lines: Vec<Vec<Token>>,
    pub ports: Vec<PortParts>,
}
