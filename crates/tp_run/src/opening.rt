//! What a run makes of a device that opened.

ghost use Rattle.std.specs.Prelude.{◌≡◌, ◌<◌, IfOk, Some};
ghost use Rattle.tp_run.specs.Lower.{room, next_in_book, IsWellOpen, opened_book, IsMadeOf, unrisen};
ghost use Rattle.tp_run.specs.Made.{HaveFrames, fault_by, has_pages, job_fault};
ghost use Rattle.tp_run.specs.Outset.{outset_in};

use crate::fault::RunFault;
use crate::job::Job;
use crate::outset::Outset;
use std::alloc::{AllocError, Global};
use std::snapshot::Snapshot;
use tp_book::{Book, NetState, opened_books_begin};
use tp_net::Topology;
use tp_node::Node;
use tp_ready::{Mark, Raiser};
use tp_recover::Opened;
use tp_shared::Parts;
use tp_work::nodes_of;

/// Whether each node has at least `spare` pages.
fn has_pages(spare: u16, topology: &Topology) -> bool
    ensures { result ≡ has_pages spare topology.now }
{
    let counts = topology.pages();
    for pages in counts {
        if *pages < spare {
            return false;
        }
    }
    true
}

/// Gives what is wrong with a job: `Spare` if a node has too few pages, `Port` if the port doesn't exist; `None` if both are right.
fn fault_by(has_pages: bool, has_port: bool) -> Option<RunFault>
    ensures { result ≡ fault_by has_pages has_port }
{
    match (has_pages, has_port) {
        (false, _) => Some(RunFault::Spare),
        (true, false) => Some(RunFault::Port),
        (true, true) => None,
    }
}

/// Gives what is wrong with `job` on a network of this topology; `None` if nothing is.
pub(crate) fn job_fault(job: Job, topology: &Topology) -> Option<RunFault>
    ensures { result ≡ job_fault job.spare job.port topology.now }
{
    let has_port = usize::from(job.port) < topology.port_count();
    fault_by(has_pages(job.spare, topology), has_port)
}

/// Makes the parts of a network from an opened book and its nodes, and the raiser of their mark. Each node gets `spare` frames, as the nodes show that
/// were made. Fails if memory runs out.
#[inline(never)]
fn parts_with(
    alloc: Global,
    state: NetState,
    book: Book,
    spare: u16,
) -> Result<(Parts, Raiser, Snapshot<Vec<Node>>), AllocError>
    requires opened { IsWellOpen state }
    requires book { book ≡ opened_book state book.room }
    ensures book { IfOk result (λ made. made.0.book ≡ book) }
    ensures first { IfOk result (λ made. made.0.first ≡ next_in_book book) }
    ensures raiser { IfOk result (λ made. made.1 ≡ record { mark = made.0.mark; at = state.next; rises = unrisen state.next }) }
    ensures frames { IfOk result (λ made. HaveFrames spare made.2.value.items) }
{
    let (mark, raiser, _) = Mark::start(alloc, state.next, 0)?;
    let nodes = nodes_of(alloc, state, spare as usize)?;
    let known = Snapshot::of(&nodes);
    let parts = Parts::opened(alloc, book, nodes, mark)?;
    Ok((parts, raiser, known))
}

/// Makes the book and the nodes of an opened device, and the raiser of their mark, and notes how the port `port` is. Each node gets `spare` frames
/// for pages that it writes while it is frozen, as the nodes show that were made. Fails if memory runs out.
#[inline(never)]
pub(crate) fn parts_of(
    alloc: Global,
    opened: Opened,
    spare: u16,
    port: u8,
) -> Result<(Parts, Raiser, Outset, Snapshot<Vec<Node>>), AllocError>
    requires { port < opened.head.topology.ports }
    ensures parts { IfOk result (λ made. IsMadeOf opened made.0 made.1) }
    ensures bound { IfOk result (λ made. made.0.book.room ≡ Some (room opened.head.topology opened.head.areas.length)) }
    ensures outset { IfOk result (λ made. made.2 ≡ outset_in opened port) }
    ensures frames { IfOk result (λ made. HaveFrames spare made.3.value.items) }
{
    opened_books_begin();
    opened.known();
    let room = opened.journal_room();
    let state = opened.into_state(alloc)?;
    let book = Book::open(alloc, &state, Some(room))?;
    let outset = Outset::of(&book, port);
    let (parts, raiser, nodes) = parts_with(alloc, state, book, spare)?;
    Ok((parts, raiser, outset, nodes))
}
