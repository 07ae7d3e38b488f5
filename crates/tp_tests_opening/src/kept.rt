//! Devices that were kept from before areas had forms, and devices with turns: what they open to, and that a group more is appended.

use crate::apart::is_said;
use crate::checkpoints::Look;
use crate::devices::{grown_by, leads_from};
use crate::sweeps::is_look;
use std::alloc::Global;
use std::thread::Threads;
use tp_model::Form;
use tp_model::Form::{Plain, Turns};
use tp_tests_fixtures::{KEPT, Kept, WITH_TURNS};

/// The entries that lead to a device, each turn said apart, from the one that was just formatted; and these with one more.
type Row = (&'static [u8], &'static [u8]);

/// After the first turns the letter is confirmed, and the node goes round twice.
const KEPT_ROWS: [Row; 6] = [
    (b"", b"x"),
    (b"rako", b"rakox"),
    (b"rakoc", b"rakocx"),
    (b"rakoc", b"rakocx"),
    (b"rakoc", b"rakocx"),
    (b"rakocoo", b"rakocoox"),
];

/// The node takes the acknowledge and makes steps. After the checkpoint it takes what the port was handed.
const TURN_ROWS: [Row; 2] = [(b"rako", b"rakox"), (b"rakocblo", b"rakocblox")];

/// The kept device with a number, or the last if there is none. Others ask `kept_bytes`: a function that names a table pays for all of it.
fn kept_of(number: usize) -> Kept {
    KEPT[number.min(5)]
}

/// The bytes of the kept device with a number.
pub(crate) fn kept_bytes(alloc: Global, number: usize) -> Option<Vec<u8>> {
    match kept_of(number).bytes(alloc) {
        Ok(bytes) => Some(bytes),
        Err(_) => None,
    }
}

/// What opening says of a device, by what is written beside it, if its area is of this form, and `more` entries were appended.
fn look_of(kept: &Kept, form: Form, more: u64) -> Look {
    let next = kept.next.saturating_add(more);
    let count = next.saturating_sub(kept.base) as usize;
    (kept.second, kept.generation, kept.base, count, next, form)
}

/// Whether a device opens to where entries lead from the device that was just formatted.
fn opens<R: Threads + Sync>(
    rt: &R,
    alloc: Global,
    bytes: &[u8],
    look: Look,
    entries: &[u8],
) -> bool {
    let Some(formatted) = kept_bytes(alloc, 0) else {
        return false;
    };
    is_look(alloc, bytes, look)
        && is_said(rt, alloc, bytes, Ok(look.4))
        && leads_from(alloc, bytes, look.4, &formatted, entries)
}

/// Whether a kept device opens to what is written beside it, and so it does with a group more, in the area that it has.
fn is_kept<R: Threads + Sync>(rt: &R, alloc: Global, kept: &Kept, form: Form, row: &Row) -> bool {
    let Ok(bytes) = kept.bytes(alloc) else {
        return false;
    };
    let Some(more) = grown_by(alloc, &bytes, b"x") else {
        return false;
    };
    opens(rt, alloc, &bytes, look_of(kept, form, 0), row.0)
        && opens(rt, alloc, &more, look_of(kept, form, 1), row.1)
}

#[test]
fn kept_devices_open(rt: HostRuntime) {
    for (kept, row) in KEPT.iter().zip(&KEPT_ROWS) {
        assert!(rt;
            is_kept(&rt, rt.alloc(), kept, Plain, row),
            "next {}",
            kept.next
        );
    }
}

#[test]
fn devices_with_turns_open(rt: HostRuntime) {
    for (kept, row) in WITH_TURNS.iter().zip(&TURN_ROWS) {
        assert!(rt;
            is_kept(&rt, rt.alloc(), kept, Turns, row),
            "next {}",
            kept.next
        );
    }
}
