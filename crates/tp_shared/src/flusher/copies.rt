//! Copies of the lines and ports in a cut.

ghost use Rattle.std.specs.Prelude.{◌≡◌, ◌<◌, [], length, map, set, IfOk};
ghost use Rattle.tp_shared.specs.Lower.{on_line, port_made};

use std::alloc::{AllocError, Global};
use tp_book::PortParts;
use tp_net::Lines;

// Copies the tokens of a line in `from` onto that line of `lines`, which is empty.
fn copy_line(lines: &mut Lines, line: usize, from: &Lines)
    requires there { (line < length lines.old) × (line < length from.now) }
    requires empty { on_line lines.old line ≡ [] }
    ensures { lines.new ≡ set lines.old line (on_line from.now line) }
{
    for at in 0..from.len(line) {
        let Some(token) = from.get(line, at) else {
            unreachable!()
        };
        lines.push(line, token);
    }
}

/// Copies lines. `AllocError` if memory is out.
pub(crate) fn copy_lines(alloc: Global, from: &Lines) -> Result<Lines, AllocError>
    ensures { IfOk result (λ lines. lines ≡ from.now) }
{
    let mut lines = Lines::new(alloc, from.count())?;
    for line in 0..from.count() {
        copy_line(&mut lines, line, from);
    }
    Ok(lines)
}

fn copy_port(alloc: Global, port: &PortParts) -> Result<PortParts, AllocError>
    ensures { IfOk result (λ parts. port_made parts ≡ port_made port.now) }
{
    Ok(PortParts {
        pending: Vec::from_slice(alloc, port.pending.as_slice())?,
        in_base: port.in_base,
        outputs: Vec::from_slice(alloc, port.outputs.as_slice())?,
        out_base: port.out_base,
    })
}

/// Copies ports. `AllocError` if memory is out.
pub(crate) fn copy_ports(alloc: Global, ports: &[PortParts]) -> Result<Vec<PortParts>, AllocError>
    ensures { IfOk result (λ parts. map port_made parts.items ≡ map port_made ports.now) }
{
    let mut parts = Vec::new(alloc);
    for port in ports {
        parts.push(copy_port(alloc, port)?)?;
    }
    Ok(parts)
}
