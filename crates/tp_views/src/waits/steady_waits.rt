//! Who waits for whom on a device that another process may be running, and since when.

ghost use Rattle.std.specs.Prelude.{◌≡◌, ◌≤◌, [], ℕ, List, IfOk, Ok, length, string_bytes};
ghost use Rattle.tp_views.specs.Lower.{AreTrue, WereTrue, areas_end, Sync, done, Counts, MAX_NODES, Opened, verdict, has_read, ReadAnswer, LeavesAlone, LeavesNothingNew};
ghost use Rattle.tp_views.specs.NodeMaps.{maps_seen};
ghost use Rattle.tp_views.specs.Opens.{IsUnwritten};
ghost use Rattle.tp_views.specs.Scene.{scene_of, seen_in};
ghost use Rattle.tp_views.specs.Since.{opened_since};
ghost use Rattle.tp_views.specs.Views.{IsOpenedOf, OfTold, has_told, waits_of, waits_shown, waits_told};

use crate::node_maps::NodeMaps;
use crate::steady::{MAX_TRIES, is_still, look};
use crate::view::{WaitsForm, waits_shown};
use crate::waits::scene::{NodeSeen, Scene, scene_of};
use crate::waits::since::{NodeSince, nodes_since, number_after};
use std::alloc::{AllocError, Global};
use tp_area::Head;
use tp_book::Numbered;
use tp_disk::Disk;
use tp_model::WireEnd;
use tp_recover::{Opened, Unopened, open, read_cut};
use tp_replay::FlatNetwork;

/// What came of saying who waits for whom: the answer is one of a moment, or the device was written so that it may not be.
#[derive(Drop)]
pub(crate) enum Told {
    Steady(Result<String, Unopened>),
    Changed,
}

/// Since when processes wait at the links of each node: by the cut of an opened device, which is read once more, the entries after it, and who waits
/// in the end.
fn since_in<D: Disk>(
    alloc: Global,
    disk: &mut D,
    head: &Head,
    second: bool,
    base: u64,
    kept: &[Numbered],
    seen: &[NodeSeen],
) -> Result<Vec<NodeSince>, Unopened>
    requires { areas_end head.now.areas ≤ D.size_of disk.old }
    ensures counts { Counts (has_read result) (D.size_of disk.old) (D.size_of disk.new) (D.failures_of disk.old) (D.failures_of disk.new) }
    ensures premise { WereTrue (D.reads disk.old) (D.reads disk.new) }
    ensures kept { LeavesAlone result (D.state disk.old).now (D.state disk.new).now }
    ensures leaves { LeavesNothingNew (D.state disk.old) (D.state disk.new) }
    ensures is { AreTrue (D.reads disk.new) → (o : Opened) → verdict (D.state disk.old).now.bytes ≡ Ok o → IsOpenedOf head.now second base kept.now seen.now o → ReadAnswer (λ since. since.items) (Ok (opened_since o)) result }
{
    let cut = read_cut(alloc, disk, head, second, base)?;
    let wires = head.topology().wires();
    let first = number_after(base, kept);
    match nodes_since(alloc, wires, seen, cut.nodes, first, kept) {
        Ok(since) => Ok(since),
        Err(_) => Err(Unopened::Memory),
    }
}

/// What a network says of who waits for whom. It goes then.
fn scene_left(
    alloc: Global,
    wires: &[Option<WireEnd>],
    network: FlatNetwork,
) -> Result<Scene, AllocError>
    ensures is { IfOk result (λ scene. seen_in scene ≡ scene_of wires.now network []) }
    ensures few { IfOk result (λ scene. length scene.nodes.items ≤ MAX_NODES) }
{
    scene_of(alloc, wires, &network)
}

/// All that is printed of who waits for whom on an opened device. Its network goes before the nodes of the cut come: only one of both takes memory.
fn tell_opened<D: Disk>(
    alloc: Global,
    disk: &mut D,
    form: WaitsForm,
    maps: &NodeMaps<'_>,
    opened: Opened,
) -> Result<String, Unopened>
    requires { areas_end opened.head.areas ≤ D.size_of disk.old }
    ensures counts { Counts (has_read result) (D.size_of disk.old) (D.size_of disk.new) (D.failures_of disk.old) (D.failures_of disk.new) }
    ensures premise { WereTrue (D.reads disk.old) (D.reads disk.new) }
    ensures kept { LeavesAlone result (D.state disk.old).now (D.state disk.new).now }
    ensures leaves { LeavesNothingNew (D.state disk.old) (D.state disk.new) }
    ensures is { AreTrue (D.reads disk.new) → verdict (D.state disk.old).now.bytes ≡ Ok opened → ReadAnswer string_bytes (Ok (waits_of form (maps_seen maps.now) opened)) result }
{
    let (second, base) = (opened.second(), opened.base());
    let (head, network, kept) = opened.into_parts();
    let Ok(scene) = scene_left(alloc, head.topology().wires(), network) else {
        return Err(Unopened::Memory);
    };
    let mut scene = scene;
    scene.since = since_in(
        alloc,
        disk,
        &head,
        second,
        base,
        kept.as_slice(),
        &scene.nodes,
    )?;
    match waits_shown(alloc, form, &scene, maps) {
        Ok(text) => Ok(text),
        Err(_) => Err(Unopened::Memory),
    }
}

/// Opens a device, and says who waits for whom.
fn tell<D: Disk>(
    alloc: Global,
    disk: &mut D,
    form: WaitsForm,
    maps: &NodeMaps<'_>,
) -> Result<String, Unopened>
    ensures counts { Counts (has_read result) (D.size_of disk.old) (D.size_of disk.new) (D.failures_of disk.old) (D.failures_of disk.new) }
    ensures premise { WereTrue (D.reads disk.old) (D.reads disk.new) }
    ensures kept { LeavesAlone result (done Sync (D.state disk.old).now) (D.state disk.new).now }
    ensures leaves { LeavesNothingNew (D.state disk.old) (D.state disk.new) }
    ensures is { AreTrue (D.reads disk.new) → ReadAnswer string_bytes (waits_told form (maps_seen maps.now) (verdict (D.state disk.old).now.bytes)) result }
{
    let opened = open(alloc, disk)?;
    tell_opened(alloc, disk, form, maps, opened)
}

/// Says it between two looks, as `open_once` opens.
fn tell_once<D: Disk>(alloc: Global, disk: &mut D, form: WaitsForm, maps: &NodeMaps<'_>) -> Told
    ensures counts { Counts (has_told result) (D.size_of disk.old) (D.size_of disk.new) (D.failures_of disk.old) (D.failures_of disk.new) }
    ensures premise { WereTrue (D.reads disk.old) (D.reads disk.new) }
    ensures kept { IsUnwritten (D.failures_of disk.old) (D.failures_of disk.new) (D.state disk.old).now (D.state disk.new).now }
    ensures leaves { LeavesNothingNew (D.state disk.old) (D.state disk.new) }
    ensures is { AreTrue (D.reads disk.new) → OfTold (ReadAnswer string_bytes (waits_told form (maps_seen maps.now) (verdict (D.state disk.old).now.bytes))) result }
{
    let Ok(before) = look(disk) else {
        return Told::Steady(Err(Unopened::ReadFailed));
    };
    let answer = match tell(alloc, disk, form, maps) {
        Err(Unopened::ReadFailed) => return Told::Steady(Err(Unopened::ReadFailed)),
        answer => answer,
    };
    match look(disk) {
        Ok(after) if is_still(before, after) => Told::Steady(answer),
        Ok(_) => Told::Changed,
        Err(_) => Told::Steady(Err(Unopened::ReadFailed)),
    }
}

/// Opens a device that another process may be running, as `open_steady` does, and says who waits for whom: what is printed of it, or why it isn't
/// opened. Nothing is written.
pub(crate) fn tell_steady<D: Disk>(
    alloc: Global,
    disk: &mut D,
    form: WaitsForm,
    maps: &NodeMaps<'_>,
) -> Told
    ensures counts { Counts (has_told result) (D.size_of disk.old) (D.size_of disk.new) (D.failures_of disk.old) (D.failures_of disk.new) }
    ensures premise { WereTrue (D.reads disk.old) (D.reads disk.new) }
    ensures kept { IsUnwritten (D.failures_of disk.old) (D.failures_of disk.new) (D.state disk.old).now (D.state disk.new).now }
    ensures leaves { LeavesNothingNew (D.state disk.old) (D.state disk.new) }
    ensures is { AreTrue (D.reads disk.new) → OfTold (ReadAnswer string_bytes (waits_told form (maps_seen maps.now) (verdict (D.state disk.old).now.bytes))) result }
{
    let mut left = MAX_TRIES;
    while left > 0 {
        left -= 1;
        if let Told::Steady(answer) = tell_once(alloc, disk, form, maps) {
            return Told::Steady(answer);
        }
    }
    Told::Changed
}
