//! A device in memory with its flusher, beside a node, a host, and teams of workers.

ghost use Rattle.std.specs.Prelude.{◌≡◌, ◌<◌, ◌≤◌, [], All, Some};
ghost use Rattle.tp_tests_threads.specs.Lower.{Names, MAX_SEATS};
ghost use Rattle.tp_tests_threads.specs.Spelt.{IsSpelt};

use crate::beside::{Held, go_on, stores_all};
use crate::flushing::flush;
use crate::hold::Hold;
use crate::left::{both, is_left, opened};
use crate::meanwhile::stays_stored;
use crate::opening::{Opening, begin, opening_of};
use crate::overlap::overlap;
use crate::pace::{EVERY, Pace, Paced};
use crate::plain::{is_network, look_at_book, replayed};
use crate::small::{Network, SIXTEEN, formatted};
use crate::team::work_as_team;
use crate::teams::{are_all_beside, parted};
use crate::trimmed::ends_with;
use crate::turns::turn_all;
use std::alloc::Global;
use std::marker::Brand;
use std::sync::Wait;
use std::test::Fail;
use std::thread::{Threads, join};
use tp_disk::{Disk, MemDisk};
use tp_flush::Flusher;
use tp_model::Entry;
use tp_node::Runs;
use tp_ready::Pass;
use tp_replay::FlatNetwork;
use tp_shared::{HostKey, Naming, Seat as Slips, Shared};
use tp_work::{Net, Seat};

/// How many turns a team makes beside those: fewer than end at the gate that keeps pace.
const TURNS: u32 = EVERY - 1;

/// What goes on.
#[derive(Clone, Copy)]
pub(crate) enum Scene<'a> {
    /// Someone is held, beside a team.
    Held(Held),
    /// A host asks a pass, beside the flusher and a team, whether that many pairs of bytes are stored.
    Stored(u64),
    /// A team makes that many turns, beside a host and the flusher.
    Team(u32),
    /// A node's turn is open while the areas are switched and the book is trimmed, and the journal ends with these entries.
    Trim(&'a [Entry]),
    /// A node is held after its run, and each worker makes a turn of another.
    Overlap,
}

/// A team makes its turns, once someone is held if a gate is told. Answers whether someone was, and no turn was refused.
fn work_all<J: Naming + Send + Sync, R: Threads + Wait + Sync>(
    rt: &R,
    net: &Net<J, Paced<'_>>,
    seats: Vec<Seat<J>>,
    gate: Option<&Hold>,
) -> bool
    requires { All (λ seat. (seat.hand.of ≡ Some net.now.queue) × (seat.slips ≡ [])) seats.items }
{
    let came = match gate {
        Some(gate) => gate.wait(),
        None => true,
    };
    let Some((one, others)) = parted(net, seats) else {
        return false;
    };
    match work_as_team(rt, net, TURNS, one, others) {
        Ok(work) => came && !work.is_refused(),
        Err(_) => false,
    }
}

/// Whether it goes on as it should beside the one that is held, while a team makes turns, too.
fn go_on_beside<J: Naming + Send + Sync, D: Disk + Drop, R: Threads + Wait + Sync>(
    rt: &R,
    alloc: Global,
    held: Held,
    net: &Net<J, Paced<'_>>,
    seats: Vec<Seat<J>>,
    slips: &mut Slips<J>,
    runs: &mut Runs,
    flusher: &mut Flusher<J, D>,
) -> bool
    requires { All (λ seat. (seat.hand.of ≡ Some net.now.queue) × (seat.slips ≡ [])) seats.items }
{
    let (hold, number) = held.gate();
    let gate = &hold;
    let (worked, is_so) = join(
        rt,
        move || -> bool
            requires { All (λ seat. (seat.hand.of ≡ Some net.now.queue) × (seat.slips ≡ [])) seats.items }
        { work_all(rt, net, seats, Some(gate)) },
        move || {
            go_on(
                rt,
                alloc,
                held,
                net.shared(),
                flusher,
                slips,
                runs,
                number,
                gate,
            )
        },
    );
    worked && is_so
}

/// Whether a pass says of pairs of bytes what it should, while a team makes turns too.
fn are_stored_beside<J: Naming + Send + Sync, D: Disk + Drop, R: Threads + Wait + Sync>(
    rt: &R,
    alloc: Global,
    net: &Net<J, Paced<'_>>,
    seats: Vec<Seat<J>>,
    slips: &mut Slips<J>,
    key: &mut HostKey<J>,
    flusher: &mut Flusher<J, D>,
    count: u64,
    pass: Pass,
) -> bool
    requires seats { All (λ seat. (seat.hand.of ≡ Some net.now.queue) × (seat.slips ≡ [])) seats.items }
    requires pass { pass.mark ≡ J.mark }
{
    let (worked, is_so) = join(
        rt,
        move || -> bool
            requires { All (λ seat. (seat.hand.of ≡ Some net.now.queue) × (seat.slips ≡ [])) seats.items }
        { work_all(rt, net, seats, None) },
        move || -> bool
            requires { pass.mark ≡ J.mark }
        { stays_stored(rt, alloc, net.shared(), flusher, count, slips, key, pass) },
    );
    worked && is_so
}

/// Whether a node's turn that is open at a trim is made, and the journal ends with these entries then.
fn is_trimmed<J: Naming + Send + Sync, D: Disk + Drop, R: Threads + Wait + Sync>(
    rt: &R,
    alloc: Global,
    shared: &Shared<J>,
    slips: &mut Slips<J>,
    runs: &mut Runs,
    flusher: &mut Flusher<J, D>,
    wanted: &[Entry],
) -> bool {
    let (gate, number) = Held::Switch.gate();
    go_on(
        rt,
        alloc,
        Held::Switch,
        shared,
        flusher,
        slips,
        runs,
        number,
        &gate,
    ) && ends_with(rt, shared, wanted)
}

/// Whether a scene goes as it should. The first entry has the number `first`. `slips`, which had none, gets those of whoever has no worker's
/// seat.
fn act<J: Naming + Send + Sync, D: Disk + Drop, R: Threads + Wait + Sync>(
    rt: &R,
    alloc: Global,
    scene: Scene<'_>,
    net: &Net<J, Paced<'_>>,
    seats: Vec<Seat<J>>,
    first: u64,
    slips: &mut Slips<J>,
    key: &mut HostKey<J>,
    runs: &mut Runs,
    flusher: &mut Flusher<J, D>,
    pass: Pass,
    pace: &Pace,
) -> bool
    requires seats { All (λ seat. (seat.hand.of ≡ Some net.now.queue) × (seat.slips ≡ [])) seats.items }
    requires first { first ≡ J.first }
    requires pass { pass.mark ≡ J.mark }
{
    match scene {
        Scene::Held(held) => {
            let is_so = go_on_beside(rt, alloc, held, net, seats, slips, runs, flusher);
            let is_last = !matches!(held, Held::Copy);
            is_so && (is_last || stores_all(rt, alloc, net.shared(), flusher))
        }
        Scene::Stored(count) => {
            are_stored_beside(rt, alloc, net, seats, slips, key, flusher, count, pass)
        }
        Scene::Team(turns) => {
            let gate = Paced { pace };
            are_all_beside(
                rt, alloc, net, seats, turns, first, slips, key, flusher, &gate,
            ) && pace.met() == turns / EVERY
        }
        Scene::Trim(wanted) => is_trimmed(rt, alloc, net.shared(), slips, runs, flusher, wanted),
        Scene::Overlap => overlap(rt, alloc, net.shared(), slips, runs, seats),
    }
}

/// The network of what a crash leaves, if it has the areas of one switch and the next number of a journal.
fn network_left(alloc: Global, disk: MemDisk, next: u64) -> Result<Option<FlatNetwork>, Fail> {
    let opened = opened(alloc, MemDisk::of_bytes(disk.crash()))?;
    let is_second = opened.second() && opened.generation() == 2 && opened.base() > 0;
    let is_so = is_second && opened.next() == next;
    let (_, network, _) = opened.into_parts();
    Ok(if is_so { Some(network) } else { None })
}

/// Whether a network is what a plain replay of a journal gives.
fn is_replay_of(alloc: Global, network: &mut FlatNetwork, journal: &[Entry]) -> Result<bool, Fail> {
    let device = formatted(alloc, &SIXTEEN)?;
    let wanted = replayed(alloc, &device, journal)?;
    let parts = network.parts(alloc)?;
    Ok(is_network(&parts, &wanted))
}

/// Whether a device holds the areas of one switch, and what a plain replay of a journal gives.
fn is_replay(alloc: Global, disk: MemDisk, journal: &[Entry]) -> Result<bool, Fail> {
    let Some(mut network) = network_left(alloc, disk, journal.len() as u64)? else {
        return Ok(false);
    };
    let is_replay = is_replay_of(alloc, &mut network, journal);
    is_replay
}

/// Whether a snapshot that runs ends once all made a turn. Adds what the book has journalled then.
fn ends<J: Naming, R: Wait>(
    rt: &R,
    alloc: Global,
    shared: &Shared<J>,
    slips: &mut Slips<J>,
    runs: &mut Runs,
    flusher: &mut Flusher<J, MemDisk>,
    journal: &mut Vec<Entry>,
) -> bool {
    let is_turned = turn_all(rt, shared, slips, runs);
    let is_looked = look_at_book(rt, shared, journal).is_ok();
    let is_switched = matches!(flush(rt, alloc, shared, flusher), Ok((_, true)));
    is_turned && is_looked && is_switched
}

/// Whether a snapshot that runs ends once all made a turn, and the device then holds a plain replay of the journal.
fn is_switched<J: Naming, R: Wait>(
    rt: &R,
    alloc: Global,
    shared: &Shared<J>,
    slips: &mut Slips<J>,
    runs: &mut Runs,
    flusher: Flusher<J, MemDisk>,
) -> Result<bool, Fail> {
    let mut journal = Vec::new(alloc);
    let mut flusher = flusher;
    let has_ended = ends(rt, alloc, shared, slips, runs, &mut flusher, &mut journal);
    let is_replay = is_replay(alloc, flusher.into_disk(), &journal);
    let told = both(has_ended, is_replay);
    told
}

/// Whether what the flusher leaves after a scene is the book's journal. If an image was copied meanwhile, the area with it is gone over
/// to.
fn leaves<J: Naming, R: Wait>(
    rt: &R,
    alloc: Global,
    shared: &Shared<J>,
    slips: &mut Slips<J>,
    runs: &mut Runs,
    flusher: Flusher<J, MemDisk>,
    scene: Scene<'_>,
) -> Result<bool, Fail> {
    if matches!(scene, Scene::Held(Held::Page)) {
        is_switched(rt, alloc, shared, slips, runs, flusher)
    } else {
        is_left(rt, alloc, shared, flusher)
    }
}

/// Whether a scene goes as it should, and the flusher leaves then what it should.
fn play<J: Naming + Send + Sync, R: Threads + Wait + Sync>(
    rt: &R,
    alloc: Global,
    opening: Opening<MemDisk>,
    workers: u8,
    scene: Scene<'_>,
) -> Result<bool, Fail>
    requires spelt { IsSpelt opening.opened.value }
    requires names { Names J.roll J.first J.start J.node J.mark J.flusher J.host J.sights J.room J.accepted opening.parts }
    requires workers { (0 < workers) × (workers ≤ MAX_SEATS) }
{
    let first = opening.first;
    let pace = Pace::new();
    let gate = Paced { pace: &pace };
    let (mut net, seats, mut flusher, pass, mut key) = begin::<J, MemDisk, Paced<'_>, R>(
        rt, alloc, opening, workers, gate,
    )?;
    let mut slips = net.seat();
    let mut runs = Runs::new(alloc)?;
    let is_so = act(
        rt,
        alloc,
        scene,
        &net,
        seats,
        first,
        &mut slips,
        &mut key,
        &mut runs,
        &mut flusher,
        pass,
        &pace,
    );
    let is_left = leaves(
        rt,
        alloc,
        net.shared(),
        &mut slips,
        &mut runs,
        flusher,
        scene,
    );
    let told = both(is_so, is_left);
    told
}

/// Plays a scene under new names.
fn play_in<R: Threads + Wait + Sync>(
    rt: &R,
    alloc: Global,
    opening: Opening<MemDisk>,
    workers: u8,
    scene: Scene<'_>,
) -> Result<bool, Fail>
    requires spelt { IsSpelt opening.opened.value }
    requires workers { (0 < workers) × (workers ≤ MAX_SEATS) }
{
    play::<Brand, R>(rt, alloc, opening, workers, scene)
}

/// Plays it on the device of a network that is freshly formatted.
pub(crate) fn plays<R: Threads + Wait + Sync>(
    rt: &R,
    alloc: Global,
    network: &Network,
    workers: u8,
    scene: Scene<'_>,
) -> Result<bool, Fail>
    requires workers { (0 < workers) × (workers ≤ MAX_SEATS) }
{
    let opening = opening_of(alloc, MemDisk::of_bytes(formatted(alloc, network)?))?;
    play_in(rt, alloc, opening, workers, scene)
}

/// How many workers there are beside the one that is held.
const WORKERS: &[u8] = &[1, 2, 16];

/// Plays it with each number of workers.
fn are_played<R: Threads + Wait + Sync>(
    rt: &R,
    alloc: Global,
    scene: Scene<'_>,
) -> Result<bool, Fail> {
    for workers in WORKERS {
        if !plays(rt, alloc, &SIXTEEN, *workers, scene)? {
            return Ok(false);
        }
    }
    Ok(true)
}

#[test]
fn the_flusher_makes_a_turn_beside_a_run(rt: HostRuntime) -> Result<(), Fail> {
    assert!(rt; are_played(&rt, rt.alloc(), Scene::Held(Held::Node))?);
    Ok(())
}

#[test]
fn a_run_beside_the_flusher_is_stored_by_its_next_turn(rt: HostRuntime) -> Result<(), Fail> {
    assert!(rt; are_played(&rt, rt.alloc(), Scene::Held(Held::Copy))?);
    Ok(())
}

#[test]
fn a_node_runs_while_its_image_is_copied(rt: HostRuntime) -> Result<(), Fail> {
    assert!(rt; are_played(&rt, rt.alloc(), Scene::Held(Held::Page))?);
    Ok(())
}

#[test]
fn what_is_stored_stays_stored_for_a_pass(rt: HostRuntime) -> Result<(), Fail> {
    assert!(rt; are_played(&rt, rt.alloc(), Scene::Stored(40))?);
    Ok(())
}

/// How many workers a team has, and how many turns it makes.
const TEAMS: &[(u8, u32)] = &[(2, 60), (4, 120), (16, 400)];

/// One worker ends early, and the others make the rest.
#[test]
fn what_teams_journal_beside_the_flusher_is_all_there_is(rt: HostRuntime) -> Result<(), Fail> {
    for (workers, turns) in TEAMS {
        assert!(rt; plays(&rt, rt.alloc(), &SIXTEEN, *workers, Scene::Team(*turns))?);
    }
    Ok(())
}
