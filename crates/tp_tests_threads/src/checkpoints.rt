//! The end of a checkpoint: a flusher goes over to the other area, with all that the nodes had.

use crate::acts::Story;
use crate::small::{MARKED, Made, Network, SIXTEEN, WIDE, WITHOUT_TURNS};
use crate::stories::{SCRIPT, SNAPSHOTS};
use crate::worked::{Wanted, goes, is_plain_too};
use std::alloc::Global;
use std::sync::Wait;
use std::test::Fail;
use tp_recover::Unopened;

/// The networks over whose devices all rounds are made: of sixteen nodes, of seventeen, and of sixteen with a first area that has no turns.
const NETWORKS: [Network; 3] = [SIXTEEN, WIDE, WITHOUT_TURNS];

/// How many parts the rounds have.
const PARTS: u8 = 4;

/// Whether all rounds go as they should with `snapshots` begun, the device then holds what the book journalled, and nodes whose pages have
/// marks have what they have without them.
fn are_gone<R: Wait>(
    rt: &R,
    alloc: Global,
    network: Network,
    snapshots: u8,
) -> Result<bool, Unopened> {
    let Some(acts) = SNAPSHOTS.get(snapshots as usize) else {
        return Ok(false);
    };
    let story = Story {
        network,
        acts: *acts,
        ..SCRIPT
    };
    let wanted = Wanted::Told(snapshots);
    if matches!(network.made, Made::Marked) {
        is_plain_too(rt, alloc, &story, None, &wanted)
    } else {
        goes(rt, alloc, &story, &wanted)
    }
}

/// With how many snapshots all rounds go as they should, up to the first with which they don't.
fn gone<R: Wait>(rt: &R, alloc: Global, network: Network) -> Result<u8, Unopened> {
    for snapshots in 0..PARTS {
        if !are_gone(rt, alloc, network, snapshots)? {
            return Ok(snapshots);
        }
    }
    Ok(PARTS)
}

#[test]
fn a_checkpoint_switches_the_areas(rt: HostRuntime) -> Result<(), Fail> {
    for (i, network) in NETWORKS.iter().enumerate() {
        assert!(rt; gone(&rt, rt.alloc(), *network)? == PARTS, "device {i}");
    }
    Ok(())
}

#[test]
fn pieces_are_really_copied(rt: HostRuntime) -> Result<(), Fail> {
    assert!(rt; gone(&rt, rt.alloc(), MARKED)? == PARTS);
    Ok(())
}
