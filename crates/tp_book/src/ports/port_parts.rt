//! A port as its parts.

ghost use Rattle.std.specs.Prelude.{◌≡◌, IfOk, map};
ghost use Rattle.tp_book.specs.PortParts.{port_made};

use crate::ports::port::HostPort;
use std::alloc::{AllocError, Global};

/// A host port. Of its input: the bytes that no Ack has taken off yet, and how many were taken off. Of its output: the bytes that aren't
/// confirmed yet, and how many are.
#[derive(Drop)]
pub struct PortParts {
    pub pending: Vec<u8>,
    pub in_base: u64,
    pub outputs: Vec<u8>,
    pub out_base: u64,
}

/// Copies a port's parts. `AllocError` if memory is out.
pub fn parts_of(alloc: Global, port: &HostPort) -> Result<PortParts, AllocError>
    ensures { IfOk result (λ parts. port_made parts ≡ port.now.port) }
{
    Ok(PortParts {
        pending: Vec::from_slice(alloc, port.pending())?,
        in_base: port.in_base(),
        outputs: Vec::from_slice(alloc, port.outputs())?,
        out_base: port.out_base(),
    })
}

/// Copies each port's parts. `AllocError` if memory is out.
pub fn all_parts(alloc: Global, ports: &[HostPort]) -> Result<Vec<PortParts>, AllocError>
    ensures { IfOk result (λ parts. map port_made parts.items ≡ map (λ port. port.port) ports.now) }
{
    let mut parts = Vec::new(alloc);
    for i in 0..ports.len() {
        parts.push(parts_of(alloc, &ports[i])?)?;
    }
    Ok(parts)
}
