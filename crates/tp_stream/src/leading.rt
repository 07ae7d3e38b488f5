//! The calling thread, which leads the workers.

ghost use Rattle.std.specs.Prelude.{map, ◌≡◌, length, All, IfErr, Some, IfOk, IfSome};
ghost use Rattle.tp_stream.specs.Lower.{list_all, is_over, given_input};
ghost use Rattle.tp_stream.specs.Accounted.{MadeByTurns};
ghost use Rattle.tp_stream.specs.FailedEnds.{NamesEnd};
ghost use Rattle.tp_stream.specs.Failures.{answer_failed};
ghost use Rattle.tp_stream.specs.HandedFrom.{FedFrom};
ghost use Rattle.tp_stream.specs.Looks.{HaveLooked};
ghost use Rattle.tp_stream.specs.Noted.{AllNoted};
ghost use Rattle.tp_stream.specs.Quiet.{HaveRested};
ghost use Rattle.tp_stream.specs.Served.{ServedAnswer, ServedOn};
ghost use Rattle.tp_stream.specs.Told.{ToldLater};

use crate::beside::go_with_workers;
use crate::fault::StreamFault;
use crate::ground::Ground;
use crate::lent::{Lent, take_back};
use crate::serving::{Going, laps};
use crate::shift::Shift;
use crate::taker::Taker;
use std::sync::Wait;
use std::thread::Threads;
use tp_disk::Disk;
use tp_flush::Flusher;
use tp_shared::Naming;
use tp_stream_files::{Ending, Listener, Sink, Source, Stop, Streams};
use tp_work::Seat;

/// What the calling thread does, with all that is lent to it.
#[derive(Drop)]
struct Leading<'r, 's, 'f, 'u, 'v, 'w, J: Naming, D: Disk, S: Sink, I: Source, L, P, R> {
    ground: Ground<'r, J, R>,
    shift: &'s Shift,
    seat: Option<Seat<J>>,
    going: Going<J>,
    flusher: &'f mut Flusher<J, D>,
    streams: &'u mut Streams<S, I>,
    listener: &'v mut L,
    stop: &'w mut P,
}

impl<
    'r,
    's,
    'f,
    'u,
    'v,
    'w,
    J: Naming,
    D: Disk,
    S: Taker<D>,
    I: Source,
    L: Listener,
    P: Stop,
    R: Wait,
> Lent for Leading<'r, 's, 'f, 'u, 'v, 'w, J, D, S, I, L, P, R> {
    type Back = (
        Going<J>,
        Option<Seat<J>>,
        &'f mut Flusher<J, D>,
        &'u mut Streams<S, I>,
        &'v mut L,
        &'w mut P,
        Result<Option<Ending>, StreamFault>,
    );

    ghost may_begin = { λ work.
        HaveRested J.start work.going.turns.whose work.going.turns.idle
        × IfSome work.seat (λ seat. seat.hand.of ≡ Some work.ground.net.now.queue)
        × IfSome work.seat (λ seat. MadeByTurns J.start seat.slips) };

    ghost gives = { λ work back.
        ServedOn J.formatted J.before (answer_failed back.6) work.flusher.now back.2.now work.streams.now.outputs.items back.3.now.outputs.items
        × ServedAnswer J.start work.ground.pace.task (list_all (λ i. is_over i.ended i.is_blocked) back.3.now.inputs.items) back.6
        × IfOk back.6 (HaveLooked work.ground.pace.task (P.answers work.stop.now) (P.answers back.5.now))
        × ToldLater (length J.start.nodes) (L.told work.listener.now) (L.told back.4.now)
        × IfErr back.6 (NamesEnd back.3.now.outputs.items (map (λ i. i.port) back.3.now.inputs.items))
        × FedFrom J.accepted (map (λ i. given_input i.port (I.input i.source)) work.streams.now.inputs.items) (map (λ i. given_input i.port (I.input i.source)) back.3.now.inputs.items) work.going.host back.0.host
        × (AllNoted J.start work.streams.now.outputs.items work.going.seat work.going.steps work.going.host
        → AllNoted J.start back.3.now.outputs.items back.0.seat back.0.steps back.0.host)
        × IfSome back.1 (λ seat. MadeByTurns J.start seat.slips)
        × (back.2.ghost_name ≡ work.flusher.ghost_name)
        × (back.3.ghost_name ≡ work.streams.ghost_name)
        × (back.4.ghost_name ≡ work.listener.ghost_name)
        × (back.5.ghost_name ≡ work.stop.ghost_name) };

    #[inline(never)]
    fn go(self) -> Self::Back {
        let Leading {
            ground,
            shift,
            seat,
            going,
            flusher,
            streams,
            listener,
            stop,
        } = self;
        let mut seat = seat;
        let mut going = going;
        let done = laps(
            ground, shift, &mut seat, &mut going, flusher, streams, listener, stop,
        );
        shift.crew.dismiss();
        (going, seat, flusher, streams, listener, stop, done)
    }
}

/// Makes all laps in the calling thread. If there is more than one worker, the others stay in threads of their own until the laps end. In the end all
/// slips of turns are in the seat of the calling thread's turns.
#[inline(never)]
pub(crate) fn lead<
    J: Naming + Send + Sync,
    D: Disk + Send + Drop,
    S: Taker<D>,
    I: Source,
    L: Listener,
    P: Stop,
    R: Threads + Wait + Sync,
>(
    ground: Ground<'_, J, R>,
    seats: Vec<Seat<J>>,
    going: Going<J>,
    flusher: &mut Flusher<J, D>,
    streams: &mut Streams<S, I>,
    listener: &mut L,
    stop: &mut P,
) -> (Going<J>, Result<Option<Ending>, StreamFault>)
    requires rested { HaveRested J.start going.turns.whose going.turns.idle }
    requires seats { All (λ seat. seat.hand.of ≡ Some ground.net.now.queue) seats.items }
    requires made { All (λ seat. MadeByTurns J.start seat.slips) seats.items }
    requires noted { AllNoted J.start streams.old.outputs.items going.seat going.steps going.host }
    ensures served { ServedOn J.formatted J.before (answer_failed result.1) flusher.old flusher.new streams.old.outputs.items streams.new.outputs.items }
    ensures answer { ServedAnswer J.start ground.entry.pace.task (list_all (λ i. is_over i.ended i.is_blocked) streams.new.inputs.items) result.1 }
    ensures looks { IfOk result.1 (HaveLooked ground.entry.pace.task (P.answers stop.old) (P.answers stop.new)) }
    ensures told { ToldLater (length J.start.nodes) (L.told listener.old) (L.told listener.new) }
    ensures ends { IfErr result.1 (NamesEnd streams.new.outputs.items (map (λ i. i.port) streams.new.inputs.items)) }
    ensures fed { FedFrom J.accepted (map (λ i. given_input i.port (I.input i.source)) streams.old.inputs.items) (map (λ i. given_input i.port (I.input i.source)) streams.new.inputs.items) going.host result.0.host }
    ensures noted { AllNoted J.start streams.new.outputs.items result.0.seat result.0.steps result.0.host }
{
    let mut seats = seats;
    let mut seat = seats.pop();
    let shift = Shift::new(ground.net.shared().nodes());
    if ground.pace.workers < 2 {
        let mut going = going;
        let done = laps(
            ground, &shift, &mut seat, &mut going, flusher, streams, listener, stop,
        );
        return (going.absorb(seat, seats), done);
    }
    let leading = Leading {
        ground,
        shift: &shift,
        seat,
        going,
        flusher,
        streams,
        listener,
        stop,
    };
    let (seats, back) = go_with_workers(ground.rt, ground.net, &shift, seats, leading);
    let (going, seat, flusher, streams, listener, stop, done) = back;
    take_back(flusher);
    take_back(streams);
    take_back(listener);
    take_back(stop);
    (going.absorb(seat, seats), done)
}
