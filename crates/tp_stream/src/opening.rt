//! What a stream makes of a device that opened.

ghost use Rattle.std.specs.Prelude.{◌≡◌, ◌⊎◌, ◌++◌, IfOk, OnOk, IfErr, Some, length, map};
ghost use Rattle.tp_stream.specs.Lower.{room, next_in_book, IsWellOpen, opened_book, IsMadeOf, unrisen, given_input, Noticed, given_of};
ghost use Rattle.tp_stream.specs.declared.fault.StreamFault.TheVariants.{Memory};
ghost use Rattle.tp_stream.specs.Fitting.{HaveFrames};
ghost use Rattle.tp_stream.specs.Put.{EachWith};
ghost use Rattle.tp_stream.specs.Standing.{AllHaveAccepted, AllMayBegin, IsNotBegun, accepted_opened, stands_opened};
ghost use Rattle.tp_stream.specs.Steps.{IsSetOut};
ghost use Rattle.tp_stream.specs.Told.{input_begins, output_begins};

use crate::beginning::begin_all;
use crate::fault::StreamFault;
use std::alloc::{AllocError, Global};
use std::snapshot::Snapshot;
use tp_book::{Book, NetState, opened_books_begin};
use tp_node::{Node, Runs};
use tp_ready::{Mark, Raiser};
use tp_recover::Opened;
use tp_shared::Parts;
use tp_stream_files::{Listener, Sink, Source, Streams};
use tp_work::nodes_of;

/// Makes the parts of a network from an opened book and its nodes, the raiser of their mark, and an empty store of known runs for the calling thread.
/// Each node gets `spare` frames, as the nodes show that were made. Fails if memory runs out.
#[inline(never)]
fn parts_with(
    alloc: Global,
    state: NetState,
    book: Book,
    spare: u16,
) -> Result<(Parts, Raiser, Runs, Snapshot<Vec<Node>>), AllocError>
    requires opened { IsWellOpen state }
    requires book { book ≡ opened_book state book.room }
    ensures book { IfOk result (λ made. made.0.book ≡ book) }
    ensures first { IfOk result (λ made. made.0.first ≡ next_in_book book) }
    ensures raiser { IfOk result (λ made. made.1 ≡ record { mark = made.0.mark; at = state.next; rises = unrisen state.next }) }
    ensures frames { IfOk result (λ made. HaveFrames spare made.3.value.items) }
{
    let (mark, raiser, _) = Mark::start(alloc, state.next, 0)?;
    let nodes = nodes_of(alloc, state, spare as usize)?;
    let known = Snapshot::of(&nodes);
    let parts = Parts::opened(alloc, book, nodes, mark)?;
    Ok((parts, raiser, Runs::new(alloc)?, known))
}

/// Makes the book and the nodes of an opened device, the raiser of their mark, and an empty store of known runs for the calling thread. Sets out each
/// stream at the position of its port, and tells the listener. Each node gets `spare` frames, as the nodes show that were made. Fails with `Memory`, or
/// as the first stream fails that may not begin.
#[inline(never)]
pub(crate) fn parts_of<S: Sink, I: Source, L: Listener>(
    alloc: Global,
    opened: Opened,
    spare: u16,
    streams: &mut Streams<S, I>,
    listener: &mut L,
) -> Result<(Parts, Raiser, Runs, Snapshot<Vec<Node>>), StreamFault>
    ensures parts { IfOk result (λ made. IsMadeOf opened made.0 made.1) }
    ensures frames { IfOk result (λ made. HaveFrames spare made.3.value.items) }
    ensures bound { IfOk result (λ made. made.0.book.room ≡ Some (room opened.head.topology opened.head.areas.length)) }
    ensures begun { OnOk result (AllMayBegin (stands_opened opened) (map given_of streams.old.outputs.items)) }
    ensures inputs { OnOk result (AllHaveAccepted (accepted_opened opened) (map (λ i. given_input i.port (I.input i.source)) streams.old.inputs.items)) }
    ensures refused { IfErr result (λ fault. (fault ≡ Memory) ⊎ IsNotBegun (length opened.now.ports) (stands_opened opened) (accepted_opened opened) (map given_of streams.old.outputs.items) (map (λ i. given_input i.port (I.input i.source)) streams.old.inputs.items) fault) }
    ensures untouched { map given_of streams.new.outputs.items ≡ map given_of streams.old.outputs.items }
    ensures unread { map (λ i. given_input i.port (I.input i.source)) streams.new.inputs.items ≡ map (λ i. given_input i.port (I.input i.source)) streams.old.inputs.items }
    ensures set { OnOk result (EachWith (IsSetOut (stands_opened opened)) streams.old.outputs.items streams.new.outputs.items) }
    ensures told { OnOk result (Noticed (map (output_begins (stands_opened opened)) (map given_of streams.old.outputs.items)
        ++ map (input_begins (accepted_opened opened)) (map (λ i. given_input i.port (I.input i.source)) streams.old.inputs.items)) (L.told listener.old) (L.told listener.new)) }
{
    opened_books_begin();
    opened.known();
    let room = opened.journal_room();
    let Ok(state) = opened.into_state(alloc) else {
        return Err(StreamFault::Memory);
    };
    let Ok(book) = Book::open(alloc, &state, Some(room)) else {
        return Err(StreamFault::Memory);
    };
    match begin_all(&book, state.next, streams, listener) {
        Ok(()) => match parts_with(alloc, state, book, spare) {
            Ok(made) => Ok(made),
            Err(_) => Err(StreamFault::Memory),
        },
        Err(fault) => Err(fault),
    }
}
