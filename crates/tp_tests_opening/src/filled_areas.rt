//! Groups appended until an area is full.

use crate::apart::is_said;
use crate::devices::{append, disk_of, fresh, leads_from, left, store_of};
use std::alloc::Global;
use std::thread::Threads;
use tp_area::{Store, StoreFault};
use tp_disk::{Disk, MemDisk};
use tp_recover::open_store;

/// Entries that are always possible here.
const INPUTS: [u8; 238] = [b'x'; 238];

/// The bytes of an area; groups that fill it, each with how many entries it has and the place where it ends; the next number and the end then; and
/// how many entries a group has that doesn't fit after them.
struct Filling<'a> {
    area: u64,
    groups: &'a [(usize, u64)],
    next: u64,
    end: u64,
    refused: &'a [usize],
}

/// The first area's groups have the bytes from 13,033 to 16,896, and the last is a gate. A group of n entries takes 16
/// and 16 n bytes: three of 64 leave 743, which is room for 45 entries and the gate after them. If 752 bytes are left, 46
/// entries fill them, and no gate fits after; if 753 are, it does.
const FILLINGS: &[Filling<'static>] = &[
    Filling {
        area: 16_384,
        groups: &[(64, 14_073), (64, 15_113), (64, 16_153)],
        next: 192,
        end: 16_153,
        refused: &[46, 63, 64],
    },
    Filling {
        area: 16_384,
        groups: &[(64, 14_073), (64, 15_113), (64, 16_153), (45, 16_889)],
        next: 237,
        end: 16_889,
        refused: &[1, 2, 64],
    },
    Filling {
        area: 16_393,
        groups: &[(64, 14_073), (64, 15_113), (64, 16_153)],
        next: 192,
        end: 16_153,
        refused: &[46],
    },
    Filling {
        area: 16_394,
        groups: &[(64, 14_073), (64, 15_113), (64, 16_153), (46, 16_905)],
        next: 238,
        end: 16_905,
        refused: &[1],
    },
];

/// The first `count` entries.
fn inputs(all: &[u8], count: usize) -> &[u8] {
    all.get(..count).unwrap_or(&[])
}

/// Whether no group fits that has one of the counts, and nothing changes.
fn refuses(alloc: Global, store: &mut Store<MemDisk>, counts: &[usize]) -> bool {
    let place = store.place;
    let Ok(bytes) = Vec::from_slice(alloc, store.disk.bytes()) else {
        return false;
    };
    for count in counts {
        let told = append(store, inputs(&INPUTS, *count));
        let is_other = store.disk.bytes() != bytes.as_slice() || store.disk.failures() != 0;
        if told != Err(StoreFault::AreaFull) || is_other || store.place != place || store.broken {
            return false;
        }
    }
    true
}

/// Appends groups. Answers whether each ends where it ought to.
fn fill(store: &mut Store<MemDisk>, groups: &[(usize, u64)]) -> bool {
    for (count, end) in groups {
        if append(store, inputs(&INPUTS, *count)).is_err() || store.place.end != *end {
            return false;
        }
    }
    true
}

/// What a crash leaves of a store that is full once it has the groups.
fn filled(alloc: Global, first: &[u8], filling: &Filling<'_>) -> Option<Vec<u8>> {
    let Some(mut store) = store_of(alloc, first) else {
        return None;
    };
    let is_full = fill(&mut store, filling.groups) && refuses(alloc, &mut store, filling.refused);
    left(store.into_disk(), is_full)
}

/// Whether a device of `bytes` is as full once it is opened.
fn stays_full(alloc: Global, bytes: &[u8], filling: &Filling<'_>) -> bool {
    let Some(disk) = disk_of(alloc, bytes) else {
        return false;
    };
    match open_store(alloc, disk) {
        Ok((opened, mut store)) => {
            opened.next() == filling.next
                && opened.end() == filling.end
                && refuses(alloc, &mut store, filling.refused)
        }
        Err(_) => false,
    }
}

/// Whether what a crash leaves is as full, and holds what a plain replay gives, in one thread and by any number of workers.
fn stays<R: Threads + Sync>(
    rt: &R,
    alloc: Global,
    first: &[u8],
    bytes: &[u8],
    filling: &Filling<'_>,
) -> bool {
    let entries = inputs(&INPUTS, filling.next as usize);
    stays_full(alloc, bytes, filling)
        && leads_from(alloc, bytes, filling.next, first, entries)
        && is_said(rt, alloc, bytes, Ok(filling.next))
}

/// Whether the groups fill a device that was just formatted, and it stays so.
fn fills<R: Threads + Sync>(rt: &R, alloc: Global, filling: &Filling<'_>) -> bool {
    let Some(first) = fresh(alloc, filling.area) else {
        return false;
    };
    match filled(alloc, &first, filling) {
        Some(bytes) => stays(rt, alloc, &first, &bytes, filling),
        None => false,
    }
}

#[test]
fn areas_are_filled(rt: HostRuntime) {
    for (i, filling) in FILLINGS.iter().enumerate() {
        assert!(rt; fills(&rt, rt.alloc(), filling), "filling {i}");
    }
}
