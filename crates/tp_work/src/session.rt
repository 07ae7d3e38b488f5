//! Sessions of the host.

ghost use Rattle.std.specs.Prelude.{◌≡◌, ◌<◌, ◌≤◌, ◌⊎◌, ◌∷◌, ◌++◌, [], ◌↔◌, IsTrue, length, map, Some, None, IsSome, IfSome, IfOk, IfErr, OnErr, MatchResult};
ghost use Rattle.tp_work.specs.Lower.{HostIn, Confirm, RisesOn, number_of, in_hand};
ghost use Rattle.tp_work.specs.Receipts.{IsFor};
ghost use Rattle.tp_work.specs.Offers.{IsReason};
ghost use Rattle.tp_work.specs.Sessions.{ConfirmedIn, OfferedIn, ShownIn};

use crate::holds::{confirm_seen, offer_seen, shown_seen};
use crate::host_fault::{ConfirmFault, OfferFault, ShownFault};
use std::alloc::Global;
use std::sync::Wait;
use tp_book::Receipt;
use tp_ready::Pass;
use tp_shared::{HostKey, Naming, Seat, Shared, Sights};

/// What the host does at one port of a network in threads.
#[derive(Drop)]
pub struct Session<'a, J: Naming> {
    shared: &'a Shared<J>,
    port: u8,
    pub ghost there: { port < length J.start.ports },
}

impl<'a, J: Naming> Session<'a, J> {
    /// Makes a session at the port `port`; `None` if there is no such port.
    pub fn new(shared: &'a Shared<J>, port: u8) -> Option<Session<'a, J>>
        ensures there { IsSome result ↔ (port < length J.start.ports) }
        ensures port { IfSome result (λ session. session.port ≡ port) }
    {
        if port < shared.ports() {
            Some(Session { shared, port })
        } else {
            None
        }
    }

    /// Hands bytes to the port: all of them, or none if the offer fails. The first of them must be the next one that the port accepts.
    /// `seat` gets the slips of their entries, `host` shows them, and `seen` gets the book before and after that.
    pub fn offer<R: Wait>(
        &self,
        rt: &R,
        at: u64,
        bytes: &[u8],
        seat: &mut Seat<J>,
        host: &mut HostKey<J>,
        seen: &mut Sights<J>,
    ) -> Result<Receipt, OfferFault>
        ensures offered { OfferedIn J.start self.now.port at bytes.now result (in_hand seen.old seat.old) (in_hand seen.new seat.new) }
        ensures handed { IfOk result (λ receipt. host.new ≡ host.old ++ map (HostIn self.now.port) bytes.now) }
        ensures kept { OnErr result (host.new ≡ host.old) }
        ensures receipt { IfOk result (IsFor (map (HostIn self.now.port) bytes.now) seat.old seat.new) }
        ensures position { IfOk result (λ receipt. receipt.position ≡ Some at) }
        ensures reason { IfErr result (IsReason at (length bytes.now)) }
    {
        let mut held = self.shared.book().lock(rt);
        offer_seen(&mut held, self.port, at, bytes, seat, host, seen)
    }

    /// Whether all that a receipt is for is on the device. If so, it stays true for `pass`.
    pub fn is_stored(&self, receipt: &Receipt, pass: &mut Pass) -> bool
        requires { pass.old.mark ≡ J.mark }
        ensures stored { IsTrue result ↔ (receipt.now.number ≤ pass.new.at) }
        ensures pass { pass.new ≡ record pass.old { at = pass.new.at; rises = pass.new.rises } }
        ensures rises { pass.old.at ≤ pass.new.at }
        ensures told { pass.old.least ≤ pass.new.at }
        ensures risen { RisesOn pass.old.rises pass.new.rises × (pass.new.at ≡ number_of pass.new.rises) }
    {
        receipt.number() <= self.shared.mark().load(pass)
    }

    /// Copies the outputs of the port from the position `from` on that are shown: the mark that `pass` loads is above their entries. `seen`
    /// gets the book that has them.
    pub fn shown<R: Wait>(
        &self,
        rt: &R,
        alloc: Global,
        from: u64,
        pass: &mut Pass,
        seen: &mut Sights<J>,
    ) -> Result<Vec<u8>, ShownFault>
        requires { pass.old.mark ≡ J.mark }
        ensures shown { ShownIn J.start self.now.port pass.new.at from result seen.old seen.new }
        ensures pass { pass.new ≡ record pass.old { at = pass.new.at; rises = pass.new.rises } }
        ensures rises { pass.old.at ≤ pass.new.at }
        ensures told { pass.old.least ≤ pass.new.at }
        ensures risen { RisesOn pass.old.rises pass.new.rises × (pass.new.at ≡ number_of pass.new.rises) }
    {
        let mark = self.shared.mark().load(pass);
        let mut held = self.shared.book().lock(rt);
        shown_seen(&mut held, alloc, self.port, mark, from, seen)
    }

    /// Journals that the host has the port's outputs up to the position `upto`, and drops them. They must be shown, by the mark that `pass`
    /// loads. `seat` gets the entry's slip, `host` shows the entry, and `seen` gets the book before and after that.
    pub fn confirm<R: Wait>(
        &self,
        rt: &R,
        upto: u64,
        pass: &mut Pass,
        seat: &mut Seat<J>,
        host: &mut HostKey<J>,
        seen: &mut Sights<J>,
    ) -> Result<Receipt, ConfirmFault>
        requires { pass.old.mark ≡ J.mark }
        ensures confirmed { ConfirmedIn J.start self.now.port pass.new.at upto result (in_hand seen.old seat.old) (in_hand seen.new seat.new) }
        ensures handed { IfOk result (λ receipt. (host.new ≡ host.old) ⊎ (host.new ≡ host.old ++ Confirm self.now.port upto ∷ [])) }
        ensures kept { OnErr result (host.new ≡ host.old) }
        ensures receipt { IfOk result (λ receipt. IsFor [] seat.old seat.new receipt ⊎ IsFor (Confirm self.now.port upto ∷ []) seat.old seat.new receipt) }
        ensures pass { pass.new ≡ record pass.old { at = pass.new.at; rises = pass.new.rises } }
        ensures rises { pass.old.at ≤ pass.new.at }
        ensures told { pass.old.least ≤ pass.new.at }
        ensures risen { RisesOn pass.old.rises pass.new.rises × (pass.new.at ≡ number_of pass.new.rises) }
    {
        let mark = self.shared.mark().load(pass);
        let mut held = self.shared.book().lock(rt);
        confirm_seen(&mut held, self.port, mark, upto, seat, host, seen)
    }
}
