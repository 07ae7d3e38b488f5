//! What a run notes of its port when it opens a device.

ghost use Rattle.std.specs.Prelude.{◌≡◌, ◌<◌, length, IfOk, IfErr};
ghost use Rattle.tp_book.specs.Host.{port_in};
ghost use Rattle.tp_run.specs.Outset.{StandsIn, outset_of};

use crate::fault::RunFault;
use tp_book::Book;

/// How a port is in a book, and the number that the next entry gets.
#[derive(Clone, Copy)]
pub(crate) struct Outset {
    /// The port.
    pub(crate) port: u8,
    /// The number of the next entry.
    pub(crate) next: u64,
    /// How many bytes the port has accepted.
    pub(crate) accepted: u64,
    /// How many more bytes it has room for.
    pub(crate) room: usize,
    /// How many of its outputs are confirmed.
    pub(crate) confirmed: u64,
}

impl Outset {
    /// Notes how the port `port` is in a book.
    pub(crate) fn of(book: &Book, port: u8) -> Outset
        requires { port < length book.now.state.ports }
        ensures { result ≡ outset_of book.now port }
    {
        Outset {
            port,
            next: book.next(),
            accepted: book.accepted(port),
            room: book.room(port),
            confirmed: book.out_base(port),
        }
    }

    /// Tests that the port in a book is as noted, before its input is handed in. Fails with `Unaccounted` if it isn't.
    pub(crate) fn stands_in(self, book: &Book) -> Result<(), RunFault>
        requires { self.port < length book.now.state.ports }
        ensures stands { IfOk result (λ done. StandsIn self book.now) }
        ensures refused { IfErr result (λ fault. fault ≡ RunFault.Unaccounted) }
    {
        if book.next() == self.next
            && book.accepted(self.port) == self.accepted
            && book.room(self.port) == self.room
        {
            return Ok(());
        }
        Err(RunFault::Unaccounted)
    }

    /// Tests that the port in a book has confirmed exactly the outputs that it had confirmed at the opening. Fails with `Unaccounted` if it hasn't.
    pub(crate) fn is_confirmed_in(self, book: &Book) -> Result<(), RunFault>
        requires { self.port < length book.now.state.ports }
        ensures confirmed { IfOk result (λ done. (port_in book.now self.port).out_base ≡ self.confirmed) }
        ensures refused { IfErr result (λ fault. fault ≡ RunFault.Unaccounted) }
    {
        if book.out_base(self.port) == self.confirmed {
            return Ok(());
        }
        Err(RunFault::Unaccounted)
    }
}
