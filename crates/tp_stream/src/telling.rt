//! How far a stream has come, as its listener is told.

ghost use Rattle.std.specs.Prelude.{◌≡◌};
ghost use Rattle.tp_stream.specs.Told.{HasTold, IsProgress, SaysPut, TellsProgress, put_in};

use crate::pace::Pace;
use crate::rooms::Rooms;
use std::sync::Wait;
use tp_book::Book;
use tp_disk::Disk;
use tp_flush::Flusher;
use tp_model::limits::MAX_PORTS;
use tp_shared::{Naming, Shared};
use tp_stream_files::{Listener, Output, Progress, Sink};

/// Up to which position the outputs of a port were put; `None` if no sink is for it.
fn put_at<S: Sink>(outputs: &[Output<S>], port: usize) -> Option<u64>
    ensures { result ≡ put_in outputs.now port }
{
    for output in outputs {
        if usize::from(output.port()) == port {
            return Some(output.put());
        }
    }
    None
}

/// Up to which position each port's outputs were put.
fn put_of<S: Sink>(outputs: &[Output<S>]) -> [Option<u64>; MAX_PORTS]
    ensures { SaysPut outputs.now result }
{
    let mut put = [None; MAX_PORTS];
    for port in 0..MAX_PORTS {
        put[port] = put_at(outputs, port);
    }
    put
}

/// Says how far a stream has come after `turns` turns, by the numbers of its book and flusher.
fn progress_of<J: Naming, D: Disk, S: Sink>(
    book: &Book,
    rooms: Rooms,
    flusher: &Flusher<J, D>,
    turns: u64,
    outputs: &[Output<S>],
) -> Progress
    ensures numbers { IsProgress rooms.journal book.now flusher.now turns result }
    ensures put { SaysPut outputs.now result.put }
{
    Progress {
        next: book.next(),
        mark: flusher.mark(),
        used: rooms.used(book),
        generation: flusher.generation(),
        turns,
        put: put_of(outputs),
    }
}

/// Tells the listener how far the stream has come, if the task says so.
pub(crate) fn tell<J: Naming, D: Disk, S: Sink, L: Listener, R: Wait>(
    rt: &R,
    shared: &Shared<J>,
    pace: Pace,
    flusher: &Flusher<J, D>,
    turns: u64,
    outputs: &[Output<S>],
    listener: &mut L,
)
    ensures { TellsProgress pace.task.tells pace.rooms.journal flusher.now turns outputs.now (L.told listener.old) (L.told listener.new) }
{
    if !pace.task.tells {
        return;
    }
    let held = shared.book().lock(rt);
    let progress = progress_of(held.book(), pace.rooms, flusher, turns, outputs);
    drop(held);
    listener.progress(progress);
}
