//! A network in threads, in one hand. A call that ran out of memory is made again, once it is seen that nothing else came of it.

ghost use Rattle.std.specs.Prelude.{◌≡◌, ◌<◌, ◌≤◌, [], All, IfSome, Some};
ghost use Rattle.tp_tests_threads.specs.Lower.{MAX_STEPS, Names};
ghost use Rattle.tp_tests_threads.specs.Spelt.{IsSpelt};

use crate::flushing;
use crate::opening::{Opening, begin_with};
use crate::plain::add_new;
use crate::unkind::Unkind;
use std::alloc::{AllocError, Global};
use std::sync::Wait;
use tp_book::{Receipt, Refusal};
use tp_flush::{FlushFault, Flusher};
use tp_model::{Entry, Form};
use tp_node::Why;
use tp_ready::Pass;
use tp_shared::{HostKey, Naming, NoGate, Seat as Slips, Shared, Sights};
use tp_work::{ConfirmFault, Net, OfferFault, Seat, Session, ShownFault, TurnFault};

/// What a turn did: whose it was, how many tokens it took, and how many steps it ran and why no more, if it runs.
#[derive(Clone, Copy)]
pub(crate) struct Did {
    pub(crate) process: u8,
    pub(crate) takes: u64,
    pub(crate) ran: Option<(u16, Why)>,
}

/// What was read of the mark at most, all that was journalled since the device was formatted, what the book said last of the entries in its cut and
/// of its form, and whether the flusher said that the device failed though it was told that it doesn't.
#[derive(Drop)]
pub(crate) struct Told {
    pub(crate) mark: u64,
    pub(crate) journal: Vec<Entry>,
    pub(crate) base: u64,
    pub(crate) form: Form,
    pub(crate) failed: bool,
}

/// How far it came: all was done, the device failed, or something was answered that must not be.
#[derive(Clone, Copy, PartialEq, Eq)]
pub(crate) enum Done {
    All,
    Failed,
    Wrong,
}

/// What is left: the bytes of the device, how many calls of it were made, how far it came, and what was told.
#[derive(Drop)]
pub(crate) struct Left {
    pub(crate) bytes: Vec<u8>,
    pub(crate) calls: u64,
    pub(crate) done: Done,
    pub(crate) told: Told,
}

/// A network in threads, a worker's seat, the host's seat and key, its flusher, a pass of its mark, and what was told.
#[derive(Drop)]
pub(crate) struct Desk<J: Naming> {
    net: Net<J, NoGate>,
    seat: Seat<J>,
    host: Slips<J>,
    key: HostKey<J>,
    flusher: Flusher<J, Unkind>,
    pass: Pass,
    pub(crate) told: Told,
    pub ghost seated: { seat.hand.of ≡ Some net.queue },
    pub ghost passes: { pass.mark ≡ J.mark },
}

/// One of the seats.
fn seat_of<J: Naming>(net: &Net<J, NoGate>, seats: Vec<Seat<J>>) -> Option<Seat<J>>
    requires { All (λ seat. (seat.hand.of ≡ Some net.now.queue) × (seat.slips ≡ [])) seats.items }
    ensures { IfSome result (λ seat. seat.hand.of ≡ Some net.now.queue) }
{
    let _net = net;
    let mut seats = seats;
    seats.pop()
}

/// Puts what was opened under locks, if a node's turn has `quantum` steps; `None` if memory runs out.
pub(crate) fn begin<J: Naming, R: Wait>(
    rt: &R,
    alloc: Global,
    opening: Opening<Unkind>,
    quantum: u16,
    told: Told,
) -> Option<Desk<J>>
    requires names { Names J.roll J.first J.start J.node J.mark J.flusher J.host J.sights J.room J.accepted opening.parts }
    requires spelt { IsSpelt opening.opened.value }
    requires quantum { (0 < quantum) × (quantum ≤ MAX_STEPS) }
{
    let Ok((mut net, seats, flusher, pass, key)) = begin_with(
        rt, alloc, opening, quantum, 1, NoGate,
    ) else {
        return None;
    };
    let Some(seat) = seat_of(&net, seats) else {
        return None;
    };
    let host = net.seat();
    Some(Desk {
        net,
        seat,
        host,
        key,
        flusher,
        pass,
        told,
    })
}

/// Adds to what was told what the book has journalled, and a mark that was read.
fn look_at<J: Naming, R: Wait>(
    rt: &R,
    shared: &Shared<J>,
    mark: u64,
    told: &mut Told,
) -> Result<(), AllocError> {
    told.mark = told.mark.max(mark);
    let held = shared.book().lock(rt);
    told.base = held.book().base();
    told.form = held.book().form();
    add_new(&mut told.journal, held.book().entries())
}

impl<J: Naming> Desk<J> {
    /// The network.
    pub(crate) fn net(&self) -> &Net<J, NoGate> {
        &self.net
    }

    /// Whether a call of the device has failed.
    pub(crate) fn is_broken(&self) -> bool {
        self.flusher.is_broken()
    }

    /// The number that the next entry gets.
    pub(crate) fn next<R: Wait>(&self, rt: &R) -> u64 {
        self.net.shared().book().lock(rt).book().next()
    }

    /// Reads the mark.
    fn read_mark(&mut self) -> u64 {
        self.net.shared().mark().load(&mut self.pass)
    }

    /// Looks at the book, if the mark was read.
    fn look_at_book<R: Wait>(&mut self, rt: &R, mark: u64) -> Result<(), AllocError> {
        look_at(rt, self.net.shared(), mark, &mut self.told)
    }

    /// Adds what the book has journalled, and reads the mark.
    fn look_once<R: Wait>(&mut self, rt: &R) -> Result<(), AllocError> {
        let mark = self.read_mark();
        self.look_at_book(rt, mark)
    }

    /// Looks at the book and the mark. Answers whether it did.
    pub(crate) fn look<R: Wait>(&mut self, rt: &R) -> bool {
        self.look_once(rt).is_ok() || self.look_once(rt).is_ok()
    }

    /// A turn of the process that waits longest.
    pub(crate) fn turn_once<R: Wait>(&mut self, rt: &R) -> Result<Did, TurnFault> {
        let Desk { net, seat, .. } = self;
        let turn = net.turn(rt, seat)?;
        let ran = match &turn.ran {
            Some(ran) => Some((ran.count(), ran.why())),
            None => None,
        };
        Ok(Did {
            process: turn.process,
            takes: turn.takes,
            ran,
        })
    }

    /// Whether the process that waits longest finds nothing to do.
    fn rests<R: Wait>(&mut self, rt: &R) -> bool {
        match self.turn_once(rt) {
            Ok(did) => did.takes == 0 && matches!(did.ran, None | Some((0, _))),
            Err(_) => false,
        }
    }

    /// A turn. If memory ran out in it, nothing ran, and the process waits after the other one. That one finds nothing to do; then the first one goes
    /// on after the tokens that it took.
    pub(crate) fn turn<R: Wait>(&mut self, rt: &R) -> Result<Did, TurnFault> {
        let before = self.next(rt);
        let first = self.turn_once(rt);
        if !matches!(first, Err(TurnFault::Memory)) {
            return first;
        }
        let taken = self.next(rt).wrapping_sub(before);
        if !self.rests(rt) {
            return first;
        }
        match self.turn_once(rt) {
            Ok(did) => Ok(Did {
                takes: did.takes.wrapping_add(taken),
                ..did
            }),
            Err(fault) => Err(fault),
        }
    }

    fn flush_once<R: Wait>(&mut self, rt: &R, alloc: Global) -> Result<(u64, bool), FlushFault> {
        flushing::flush(rt, alloc, self.net.shared(), &mut self.flusher)
    }

    /// A turn of the flusher: the mark, and whether it switched the areas. If memory ran out in it, the mark didn't fall.
    pub(crate) fn flush<R: Wait>(
        &mut self,
        rt: &R,
        alloc: Global,
    ) -> Result<(u64, bool), FlushFault> {
        let before = self.flusher.mark();
        let first = self.flush_once(rt, alloc);
        if !matches!(first, Err(FlushFault::Memory)) || self.flusher.mark() < before {
            return first;
        }
        self.flush_once(rt, alloc)
    }

    /// A snapshot begins. If memory ran out, none runs.
    pub(crate) fn begin<R: Wait>(&self, rt: &R, alloc: Global) -> Result<(), Refusal> {
        let first = self.flusher.snapshot(rt, alloc, self.net.shared()).answer();
        if !matches!(first, Err(Refusal::Memory))
            || self.net.shared().book().lock(rt).look().running
        {
            return first;
        }
        self.flusher.snapshot(rt, alloc, self.net.shared()).answer()
    }

    /// What the host does at a port; none if there is no such port.
    pub(crate) fn session(&self, port: u8) -> Option<Session<'_, J>> {
        Session::new(self.net.shared(), port)
    }

    fn offer_once<R: Wait>(
        &mut self,
        rt: &R,
        at: u64,
        bytes: &[u8],
    ) -> Option<Result<u64, OfferFault>> {
        let session = Session::new(self.net.shared(), 0)?;
        match session.offer(
            rt,
            at,
            bytes,
            &mut self.host,
            &mut self.key,
            &mut Sights::new(),
        ) {
            Ok(receipt) => Some(Ok(receipt.number())),
            Err(fault) => Some(Err(fault)),
        }
    }

    /// Offers bytes to the port: the receipt's number. If memory ran out, there is no entry of them.
    pub(crate) fn offer<R: Wait>(
        &mut self,
        rt: &R,
        at: u64,
        bytes: &[u8],
    ) -> Option<Result<u64, OfferFault>> {
        let before = self.next(rt);
        let first = self.offer_once(rt, at, bytes);
        if matches!(first, Some(Err(OfferFault::Memory))) && self.next(rt) == before {
            return self.offer_once(rt, at, bytes);
        }
        first
    }

    /// What the port shows from a position on; none if there is no such port.
    fn shown_from<R: Wait>(
        &mut self,
        rt: &R,
        alloc: Global,
        from: u64,
    ) -> Option<Result<Vec<u8>, ShownFault>> {
        let session = Session::new(self.net.shared(), 0)?;
        Some(session.shown(rt, alloc, from, &mut self.pass, &mut Sights::new()))
    }

    /// Whether the port shows just the bytes wanted from a position on, or refuses with that fault.
    fn shows_once<R: Wait>(
        &mut self,
        rt: &R,
        alloc: Global,
        from: u64,
        wanted: Result<&[u8], ShownFault>,
    ) -> Result<bool, ShownFault> {
        match self.shown_from(rt, alloc, from) {
            Some(Ok(shown)) => Ok(matches!(wanted, Ok(bytes) if shown.as_slice() == bytes)),
            Some(Err(ShownFault::Memory)) => Err(ShownFault::Memory),
            Some(Err(fault)) => Ok(matches!(wanted, Err(other) if fault == other)),
            None => Ok(false),
        }
    }

    /// Whether it does, also if memory ran out first.
    pub(crate) fn shows<R: Wait>(
        &mut self,
        rt: &R,
        alloc: Global,
        from: u64,
        wanted: Result<&[u8], ShownFault>,
    ) -> bool {
        match self.shows_once(rt, alloc, from, wanted) {
            Ok(told) => told,
            Err(_) => matches!(self.shows_once(rt, alloc, from, wanted), Ok(true)),
        }
    }

    /// Confirms the outputs of the port up to a position.
    fn receipt_of<R: Wait>(&mut self, rt: &R, upto: u64) -> Option<Result<Receipt, ConfirmFault>> {
        let session = Session::new(self.net.shared(), 0)?;
        Some(session.confirm(
            rt,
            upto,
            &mut self.pass,
            &mut self.host,
            &mut self.key,
            &mut Sights::new(),
        ))
    }

    /// Whether the pass says that a receipt is stored.
    fn is_stored(&mut self, receipt: &Receipt) -> bool {
        match Session::new(self.net.shared(), 0) {
            Some(session) => session.is_stored(receipt, &mut self.pass),
            None => false,
        }
    }

    /// Whether the pass says of a receipt of confirmed outputs that it is stored after a turn of the flusher, and not before it.
    pub(crate) fn stores<R: Wait>(&mut self, rt: &R, alloc: Global, upto: u64) -> bool {
        let Some(Ok(receipt)) = self.receipt_of(rt, upto) else {
            return false;
        };
        let is_early = self.is_stored(&receipt);
        let is_flushed = self.flush(rt, alloc).is_ok();
        self.settle(rt);
        !is_early && is_flushed && self.is_stored(&receipt)
    }

    /// Settles the host's seat and the pass with the flusher.
    fn settle<R: Wait>(&mut self, rt: &R) {
        let shared = self.net.shared();
        self.flusher
            .settle(rt, shared, &mut self.pass, &mut self.host);
    }

    /// Confirms the outputs of the port up to a position: the receipt's number, and whether the pass says that it is stored.
    fn confirm_once<R: Wait>(
        &mut self,
        rt: &R,
        upto: u64,
    ) -> Option<Result<(u64, bool), ConfirmFault>> {
        match self.receipt_of(rt, upto)? {
            Ok(receipt) => Some(Ok((receipt.number(), self.is_stored(&receipt)))),
            Err(fault) => Some(Err(fault)),
        }
    }

    /// Confirms outputs. If memory ran out, there is no entry of that.
    pub(crate) fn confirm<R: Wait>(
        &mut self,
        rt: &R,
        upto: u64,
    ) -> Option<Result<(u64, bool), ConfirmFault>> {
        let before = self.next(rt);
        let first = self.confirm_once(rt, upto);
        if matches!(first, Some(Err(ConfirmFault::Memory))) && self.next(rt) == before {
            return self.confirm_once(rt, upto);
        }
        first
    }

    /// What is left of it as it ends.
    pub(crate) fn leave(self, done: Done) -> Left {
        let Desk { flusher, told, .. } = self;
        let (bytes, calls) = flusher.into_disk().into_raw().into_left();
        Left {
            bytes,
            calls,
            done,
            told,
        }
    }
}
