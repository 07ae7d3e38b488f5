//! How far a port has come when its device is opened.

ghost use Rattle.std.specs.Prelude.{◌≡◌, ◌<◌, ◌≤◌, length};
ghost use Rattle.tp_book.specs.Host.{port_in};
ghost use Rattle.tp_stream.specs.Standing.{put_out, port_standing};

use tp_book::Book;

/// How far a port has come, in bytes: how many of its outputs are confirmed, how many are shown, and how many it has put out in all.
#[derive(Clone, Copy)]
pub(crate) struct Standing {
    pub(crate) confirmed: u64,
    pub(crate) shown: u64,
    pub(crate) upto: u64,
}

impl Standing {
    /// Gives how far a port has come in the book of a device that opened, whose mark is `mark`.
    #[tactic(auto, using(crate::proofs::Standings::length_outputs))]
    pub(crate) fn of(book: &Book, port: u8, mark: u64) -> Standing
        requires there { port < length book.now.state.ports }
        requires few { put_out (port_in book.now port) ≤ mark }
        ensures { result ≡ port_standing book.now mark port }
    {
        let confirmed = book.out_base(port);
        Standing {
            confirmed,
            shown: book.shown_upto(port, mark),
            upto: confirmed + book.outputs(port).len() as u64,
        }
    }
}
