//! What a script leaves of a device whose call may end badly, and whether it opens as it ought to.

use crate::acts::{Story, run};
use crate::desk::{Done, Left, Told};
use crate::plain::{is_network, replayed};
use crate::unkind::Fault;
use std::alloc::{AllocError, Global};
use std::sync::Wait;
use std::test::Fail;
use tp_book::{NetParts, NetState};
use tp_disk::MemDisk;
use tp_model::{Entry, Form};
use tp_recover::open;
use tp_tests_fixtures::KEPT;

/// The device that was formatted for this network before areas had forms, and kept.
pub(crate) fn kept(alloc: Global) -> Result<Vec<u8>, AllocError> {
    KEPT[0].bytes(alloc)
}

/// What was told at first.
pub(crate) fn untold(alloc: Global) -> Told {
    Told {
        mark: 0,
        journal: Vec::new(alloc),
        base: 0,
        form: Form::Turns,
        failed: false,
    }
}

/// What whoever opens the device knows: the journal's beginning, all of it stored.
pub(crate) fn known(alloc: Global, told: &Told, next: u64) -> Result<Told, AllocError> {
    let kept = told.journal.get(..next as usize).unwrap_or(&[]);
    Ok(Told {
        mark: next,
        journal: Vec::from_slice(alloc, kept)?,
        base: told.base,
        form: told.form,
        failed: false,
    })
}

/// The next number of a device and its network, if it opens.
fn opened_as(alloc: Global, bytes: &[u8]) -> Result<Option<(u64, NetParts)>, AllocError> {
    let mut disk = MemDisk::of_bytes(Vec::from_slice(alloc, bytes)?);
    let Ok(opened) = open(alloc, &mut disk) else {
        return Ok(None);
    };
    let NetState { net, next, .. } = opened.into_state(alloc)?;
    Ok(Some((next, net)))
}

/// Whether a network is a plain replay of a journal.
fn is_replay(
    alloc: Global,
    first: &[u8],
    journal: &[Entry],
    network: &NetParts,
) -> Result<bool, Fail> {
    let wanted = replayed(alloc, first, journal)?;
    Ok(is_network(network, &wanted))
}

/// The next number of what a run left, if it opens to a plain replay of the journal up to there, with all below the greatest mark that
/// was read; `None` otherwise.
pub(crate) fn recovered(alloc: Global, first: &[u8], left: &Left) -> Result<Option<u64>, Fail> {
    let Some((next, network)) = opened_as(alloc, &left.bytes)? else {
        return Ok(None);
    };
    let is_so = match left.told.journal.get(..next as usize) {
        Some(journal) if next >= left.told.mark => is_replay(alloc, first, journal, &network),
        _ => Ok(false),
    };
    Ok(if is_so? { Some(next) } else { None })
}

/// What a story leaves if a call ends badly, the device then was called no more, and it opens as it ought to: with its next number.
pub(crate) fn ended<R: Wait>(
    rt: &R,
    alloc: Global,
    story: &Story<'_>,
    first: &[u8],
    bytes: &[u8],
    told: Told,
    fault: Fault,
) -> Result<Option<(Left, u64)>, Fail> {
    let left = run(rt, alloc, story, bytes, Some(fault), told)?;
    let next = if left.done == Done::Failed && left.calls == fault.call.wrapping_add(1) {
        recovered(alloc, first, &left)
    } else {
        Ok(None)
    };
    match next? {
        Some(next) => Ok(Some((left, next))),
        None => Ok(None),
    }
}

/// How many calls of the device a story makes, with those that open it.
pub(crate) fn calls_of<R: Wait>(
    rt: &R,
    alloc: Global,
    story: &Story<'_>,
    bytes: &[u8],
    told: Told,
) -> Result<u64, Fail> {
    let left = run(rt, alloc, story, bytes, None, told)?;
    if left.done != Done::All {
        return Err(Fail::new("the steps end early"));
    }
    Ok(left.calls)
}
