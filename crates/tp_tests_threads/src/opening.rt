//! What is made of a device that opened: a network in threads, and its flusher.

ghost use Rattle.std.specs.Prelude.{◌≡◌, ◌<◌, ◌≤◌, [], true, false, Ok, All, IfOk, Some};
ghost use Rattle.tp_tests_threads.specs.Lower.{AreTrue, place_at, IsMadeOf, IsSynced, is_roomy, room, verdict, MAX_STEPS, Names, MAX_SEATS, Steps};
ghost use Rattle.tp_tests_threads.specs.Spelt.{IsSpelt};

use std::alloc::{AllocError, Global};
use std::snapshot::Snapshot;
use std::sync::Wait;
use tp_area::Store;
use tp_book::{Book, opened_books_begin};
use tp_disk::Disk;
use tp_flush::{Flusher, topology_of};
use tp_net::Topology;
use tp_ready::{Mark, Pass, Raiser};
use tp_recover::{Opened, Unopened, open};
use tp_shared::{Gate, HostKey, Naming, Parts};
use tp_work::{Net, Seat, nodes_of};

/// How many steps a node's turn has, if nothing else is asked for.
const QUANTUM: u16 = 9;

/// How many spare frames a node has, if nothing else is asked for.
const SPARE: usize = 4;

/// A device that opened: what it held, its topology, the parts of its network, the number of their first entry, the raiser of their mark,
/// and its store.
#[derive(Drop)]
pub struct Opening<D: Disk> {
    pub opened: Snapshot<Opened>,
    topology: Topology,
    pub parts: Parts,
    pub first: u64,
    raiser: Raiser,
    store: Store<D>,
    pub ghost made: { IsMadeOf opened.value parts raiser },
    pub ghost bound: { parts.book.room ≡ Some (room opened.value.head.topology opened.value.head.areas.length) },
    pub ghost first_is: { first ≡ parts.first },
    pub ghost topology_is: { topology ≡ opened.value.head.topology },
    pub ghost roomy: { is_roomy opened.value.head.topology opened.value.head.areas.length ≡ true },
    pub ghost place: { store.place ≡ place_at opened.value },
    pub ghost unbroken: { store.broken ≡ false },
    pub ghost read: { AreTrue (D.reads store.disk) → verdict (D.state store.disk).now.bytes ≡ Ok opened.value },
    pub ghost synced: { AreTrue (D.reads store.disk) → IsSynced (D.state store.disk) },
    pub ghost allowed: { Steps → D.writable ≡ true },
}

impl<D: Disk + Drop> Opening<D> {
    /// The parts of its network, and the raiser of their mark, if no flusher is wanted.
    pub fn into_parts(self) -> (Parts, Raiser)
        ensures { result.1.mark ≡ result.0.mark }
    {
        let Opening { parts, raiser, .. } = self;
        (parts, raiser)
    }
}

/// The book and the nodes of what was opened, and the raiser of their mark.
fn parts_of(alloc: Global, opened: Opened, spare: usize) -> Result<(Parts, Raiser), AllocError>
    ensures parts { IfOk result (λ made. IsMadeOf opened made.0 made.1) }
    ensures bound { IfOk result (λ made. made.0.book.room ≡ Some (room opened.head.topology opened.head.areas.length)) }
{
    opened_books_begin();
    opened.known();
    let room = opened.journal_room();
    let state = opened.into_state(alloc)?;
    let book = Book::open(alloc, &state, Some(room))?;
    let next = state.next;
    let nodes = nodes_of(alloc, state, spare)?;
    let (mark, raiser, _) = Mark::start(alloc, next, 0)?;
    let parts = Parts::opened(alloc, book, nodes, mark)?;
    Ok((parts, raiser))
}

/// Opens a device.
pub fn opening_of<D: Disk + Drop>(alloc: Global, disk: D) -> Result<Opening<D>, Unopened>
    requires { Steps → D.writable ≡ true }
    ensures { IfOk result (λ opening. IsSpelt opening.opened.value) }
{
    opening_with(alloc, disk, SPARE)
}

/// Opens a device, if each node has `spare` spare frames.
pub fn opening_with<D: Disk + Drop>(
    alloc: Global,
    disk: D,
    spare: usize,
) -> Result<Opening<D>, Unopened>
    requires { Steps → D.writable ≡ true }
    ensures { IfOk result (λ opening. IsSpelt opening.opened.value) }
{
    let mut disk = disk;
    let opened = open(alloc, &mut disk)?;
    opened.known();
    let known = Snapshot::of(&opened);
    let topology = topology_of(&opened);
    let _areas = opened.head().areas();
    let first = opened.next();
    let store = opened.store(disk);
    let Ok((parts, raiser)) = parts_of(alloc, opened, spare) else {
        return Err(Unopened::Memory);
    };
    Ok(Opening {
        opened: known,
        topology,
        parts,
        first,
        raiser,
        store,
    })
}

/// Puts it under locks, with as many seats as `workers` says, and makes its flusher, a pass and the host's key.
pub fn begin<J: Naming, D: Disk + Drop, G: Gate + Drop, R: Wait>(
    rt: &R,
    alloc: Global,
    opening: Opening<D>,
    workers: u8,
    gate: G,
) -> Result<(Net<J, G>, Vec<Seat<J>>, Flusher<J, D>, Pass, HostKey<J>), AllocError>
    requires names { Names J.roll J.first J.start J.node J.mark J.flusher J.host J.sights J.room J.accepted opening.parts }
    requires spelt { IsSpelt opening.opened.value }
    requires workers { (0 < workers) × (workers ≤ MAX_SEATS) }
    ensures seats { IfOk result (λ begun. All (λ seat. (seat.hand.of ≡ Some begun.0.queue) × (seat.slips ≡ [])) begun.1.items) }
    ensures pass { IfOk result (λ begun. begun.3.mark ≡ J.mark) }
{
    begin_with(rt, alloc, opening, QUANTUM, workers, gate)
}

/// Puts it under locks, if a node's turn has `quantum` steps.
pub fn begin_with<J: Naming, D: Disk + Drop, G: Gate + Drop, R: Wait>(
    rt: &R,
    alloc: Global,
    opening: Opening<D>,
    quantum: u16,
    workers: u8,
    gate: G,
) -> Result<(Net<J, G>, Vec<Seat<J>>, Flusher<J, D>, Pass, HostKey<J>), AllocError>
    requires names { Names J.roll J.first J.start J.node J.mark J.flusher J.host J.sights J.room J.accepted opening.parts }
    requires spelt { IsSpelt opening.opened.value }
    requires quantum { (0 < quantum) × (quantum ≤ MAX_STEPS) }
    requires workers { (0 < workers) × (workers ≤ MAX_SEATS) }
    ensures seats { IfOk result (λ begun. All (λ seat. (seat.hand.of ≡ Some begun.0.queue) × (seat.slips ≡ [])) begun.1.items) }
    ensures pass { IfOk result (λ begun. begun.3.mark ≡ J.mark) }
{
    let Opening {
        opened,
        topology,
        parts,
        mut raiser,
        store,
        ..
    } = opening;
    let (net, seats, key, host) = Net::<J, G>::start(rt, alloc, parts, quantum, workers, gate)?;
    let pass = net.shared().mark().pass(&mut raiser);
    let flusher = Flusher::over(opened, topology, store, key, raiser);
    Ok((net, seats, flusher, pass, host))
}
