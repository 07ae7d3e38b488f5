//! Outputs that a host is shown.

ghost use Rattle.std.specs.Prelude.{◌≡◌, ◌<◌, ◌+◌, length, vec_len, IfOk};
ghost use Rattle.tp_book.specs.Host.{shown_from, port_in, ShowsUpto};
ghost use Rattle.tp_work.specs.Answers.{RefusesFor};
ghost use Rattle.tp_work.specs.Outputs.{shown_fault};

use crate::host_fault::ShownFault;
use std::alloc::Global;
use tp_book::Book;

/// Copies the outputs of a port from the position `from` on that a mark shows.
pub fn shown(
    book: &Book,
    alloc: Global,
    port: u8,
    mark: u64,
    from: u64,
) -> Result<Vec<u8>, ShownFault>
    requires there { port < length book.now.state.ports }
    ensures answer { RefusesFor ShownFault.Memory (shown_fault book.now port mark from) result }
    ensures value { IfOk result (λ bytes. bytes.items ≡ shown_from book.now port mark from) }
    ensures exactly { IfOk result (λ bytes. ShowsUpto book.now port mark (from + vec_len bytes)) }
{
    if from < book.out_base(port) {
        return Err(ShownFault::TooOld);
    }
    if book.shown_upto(port, mark) < from {
        return Err(ShownFault::TooNew);
    }
    match book.shown(port, mark, from).to_vec(alloc) {
        Ok(bytes) => Ok(bytes),
        Err(_) => Err(ShownFault::Memory),
    }
}
