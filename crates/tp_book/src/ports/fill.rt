//! Lines and ports that hold something from the start.

ghost use Rattle.std.specs.Prelude.{◌≡◌, ◌<◌, ◌≤◌, [], IfOk, length, map, set, vec_len, All};
ghost use Rattle.tp_book.specs.Lower.{on_line, MAX_HELD, LINE_TOKENS};
ghost use Rattle.tp_book.specs.PortParts.{port_made};
ghost use Rattle.tp_book.specs.Ports.{opened_port};

use crate::ports::port::HostPort;
use crate::ports::port_parts::PortParts;
use std::alloc::{AllocError, Global};
use tp_model::Token;
use tp_net::Lines;

/// Puts tokens on an empty line, in order.
fn fill_line(lines: &mut Lines, line: usize, tokens: &[Token])
    requires there { line < length lines.old }
    requires empty { on_line lines.old line ≡ [] }
    requires few { length tokens.now ≤ LINE_TOKENS }
    ensures { lines.new ≡ set lines.old line tokens.now }
{
    for token in tokens {
        lines.push(line, *token);
    }
}

/// Makes lines that hold `tokens`, with at most as many on each as it has room for. `AllocError` if memory is out.
pub fn lines_with(alloc: Global, tokens: &[Vec<Token>]) -> Result<Lines, AllocError>
    requires few { All (λ line. vec_len line ≤ LINE_TOKENS) tokens.now }
    ensures { IfOk result (λ lines. lines ≡ map (λ line. line.items) tokens.now) }
{
    let mut lines = Lines::new(alloc, tokens.len())?;
    for line in 0..tokens.len() {
        fill_line(&mut lines, line, &tokens[line]);
    }
    Ok(lines)
}

/// Makes the ports of an opened state, each holding at most what it has room for. `AllocError` if memory is out.
pub fn ports_with(alloc: Global, parts: &[PortParts]) -> Result<Vec<HostPort>, AllocError>
    requires pending { All (λ port. vec_len port.pending ≤ MAX_HELD) parts.now }
    requires outputs { All (λ port. vec_len port.outputs ≤ MAX_HELD) parts.now }
    ensures { IfOk result (λ ports. ports.items ≡ map (λ port. opened_port (port_made port)) parts.now) }
{
    let mut ports = Vec::with_capacity(alloc, parts.len())?;
    for port in 0..parts.len() {
        ports.push(HostPort::from_parts(alloc, &parts[port])?)?;
    }
    Ok(ports)
}
