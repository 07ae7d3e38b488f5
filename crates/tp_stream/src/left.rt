//! Whether outputs are left when a stream ends.

ghost use Rattle.std.specs.Prelude.{◌≡◌, true};
ghost use Rattle.tp_book.specs.Host.{port_in};
ghost use Rattle.tp_stream.specs.Put.{are_put, is_put};

use tp_book::Book;
use tp_stream_files::{Ending, Output, Sink};

/// Whether, in this book, no more of a port's outputs are confirmed than were put. If the stream ends as quiet, or since all turns were made, also
/// whether all that the port has put out was put and confirmed.
#[tactic(auto, using(crate::proofs::Standings::length_outputs))]
fn is_put<S: Sink>(why: Ending, book: &Book, output: &Output<S>) -> bool
    ensures { result ≡ true → is_put why (port_in book.now output.now.port) output.now.next ≡ true }
{
    let (port, put) = (output.port(), output.put());
    if usize::from(port) >= book.ports() {
        return false;
    }
    let confirmed = book.out_base(port);
    match why {
        Ending::Quiet | Ending::Turns => confirmed == put && book.outputs(port).len() == 0,
        Ending::Gone | Ending::Halted | Ending::Stopped => confirmed <= put,
    }
}

/// Whether that is true of each output.
pub(crate) fn are_put<S: Sink>(why: Ending, book: &Book, outputs: &[Output<S>]) -> bool
    ensures { result ≡ true → are_put why (port_in book.now) outputs.now ≡ true }
{
    for output in outputs {
        if !is_put(why, book, output) {
            return false;
        }
    }
    true
}
