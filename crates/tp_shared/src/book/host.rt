//! What the host does while the book's lock is held.

ghost use Rattle.std.specs.Prelude.{◌≡◌, ◌<◌, ◌≤◌, ◌+◌, ◌++◌, length, map, IfOk, IfErr, IsOk, OnErr};
ghost use Rattle.tp_shared.specs.Lower.{confirm_entries, next_in_book, after_inputs, input_refusal, port_in, after_confirm, confirm_refusal, confirm_receipt, input_receipt, IsAnswer, HostIn, HostDone, HostTurns};
ghost use Rattle.tp_shared.specs.Entries.{IsTurnRefusal, TakesOf};
ghost use Rattle.tp_shared.specs.Gains.{HoldNoted};
ghost use Rattle.tp_shared.specs.Holds.{IsBookOf};

use crate::book::locked::Locked;
use crate::book::write::write_new;
use crate::flusher::handed::Handed;
use crate::host_key::HostKey;
use crate::naming::Naming;
use crate::seat::Seat;
use tp_book::{Receipt, Refusal};
use tp_ready::twin::turn;
use tp_turn::host_turn;

impl<J: Naming> Locked<J> {
    /// Journals bytes that the host hands to a port: all of them, or none if it fails. `seat` gets the slips of their entries, and `host`
    /// shows them. The receipt is the book's.
    pub fn host_in(
        &mut self,
        seat: &mut Seat<J>,
        host: &mut HostKey<J>,
        port: u8,
        bytes: &[u8],
    ) -> Result<Receipt, Refusal>
        requires there { port < length self.old.book.state.ports }
        ensures answer { IsAnswer (input_refusal self.old.book port (length bytes.now)) result }
        ensures book { IfOk result (λ receipt. self.new.book ≡ after_inputs self.old.book port bytes.now) }
        ensures number { IfOk result (λ receipt. receipt.number ≡ next_in_book self.new.book) }
        ensures receipt { IfOk result (λ receipt. receipt ≡ input_receipt self.old.book port bytes.now) }
        ensures noted { IfOk result (λ receipt. HoldNoted (λ entries. entries ≡ map (HostIn port) bytes.now) J.first self.old self.new seat.old seat.new) }
        ensures handed { IfOk result (λ receipt. host.new ≡ host.old ++ map (HostIn port) bytes.now) }
        ensures nothing { length bytes.now ≡ 0 → IsOk result }
        ensures err { OnErr result ((self.new ≡ self.old) × (seat.new ≡ seat.old) × (host.new ≡ host.old)) }
    {
        let Locked {
            book,
            roll,
            given,
            ..
        } = self;
        let before = book.entries().len();
        let receipt = book.host_in(port, bytes)?;
        let Seat { slips, count, .. } = seat;
        write_new(book, before, roll, slips, count);
        let HostKey { key, .. } = host;
        let now = Handed::more(key, book, before);
        turn(given, key, &now);
        Ok(receipt)
    }

    /// Journals that the host has a port's outputs up to the position `upto`, and drops them. Does nothing if they were confirmed before.
    /// If there is an entry, `seat` gets its slip, and `host` shows it. The receipt is the book's.
    pub fn confirm(
        &mut self,
        seat: &mut Seat<J>,
        host: &mut HostKey<J>,
        port: u8,
        upto: u64,
    ) -> Result<Receipt, Refusal>
        requires there { port < length self.old.book.state.ports }
        requires held { upto ≤ (port_in self.old.book port).out_base + length (port_in self.old.book port).outputs }
        ensures answer { IsAnswer (confirm_refusal self.old.book port upto) result }
        ensures book { IfOk result (λ receipt. self.new.book ≡ after_confirm self.old.book port upto) }
        ensures number { IfOk result (λ receipt. receipt.number ≡ next_in_book self.new.book) }
        ensures receipt { IfOk result (λ receipt. receipt ≡ confirm_receipt self.old.book port upto) }
        ensures noted { IfOk result (λ receipt. HoldNoted (λ entries. entries ≡ confirm_entries self.old.book port upto) J.first self.old self.new seat.old seat.new) }
        ensures handed { IfOk result (λ receipt. host.new ≡ host.old ++ confirm_entries self.old.book port upto) }
        ensures nothing { upto ≤ (port_in self.old.book port).out_base → IsOk result }
        ensures err { OnErr result ((self.new ≡ self.old) × (seat.new ≡ seat.old) × (host.new ≡ host.old)) }
    {
        let Locked {
            book,
            roll,
            given,
            ..
        } = self;
        let before = book.entries().len();
        let receipt = book.confirm(port, upto)?;
        let Seat { slips, count, .. } = seat;
        write_new(book, before, roll, slips, count);
        let HostKey { key, .. } = host;
        let now = Handed::more(key, book, before);
        turn(given, key, &now);
        Ok(receipt)
    }

    /// Makes the host's turn: each of its ports, in order, takes at most three tokens of its line, a Marker among them. `seat` gets the
    /// slips of the entries, also if the turn broke off. Answers how many tokens were taken, without Markers.
    pub fn host_turn(&mut self, seat: &mut Seat<J>) -> Result<u64, Refusal>
        ensures of { IsBookOf J.start self.old.book }
        ensures did { HostDone (HostTurns result) self.old.book self.new.book }
        ensures noted { HoldNoted (TakesOf J.start (length J.start.nodes) result) J.first self.old self.new seat.old seat.new }
        ensures refused { IfErr result IsTurnRefusal }
    {
        let Locked { book, roll, .. } = self;
        let before = book.entries().len();
        let done = host_turn(book);
        let Seat { slips, count, .. } = seat;
        write_new(book, before, roll, slips, count);
        done
    }
}
