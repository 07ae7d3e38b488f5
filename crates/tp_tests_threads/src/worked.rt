//! What stories leave, from a device that is formatted to what a crash leaves of it, and checkpoints that were worked out by hand.

use crate::acts::{Story, run, turn};
use crate::desk::{Done, Left, Told};
use crate::plain::is_network;
use crate::remains::untold;
use crate::small::formatted;
use crate::unkind::{Ending, Fault, Torn};
use crate::worked_stories::{
    CALLS, Device, LATE, LATE_LEFT, NONE_SPARE, NOT_SWITCHED_LEFT, ONE_SPARE, ONE_SPARE_LEFT,
    SWITCHED, SWITCHED_LEFT, THIRD, THIRD_LEFT, TORN, UNDER_WAY, UNDER_WAY_LEFT,
};
use std::alloc::Global;
use std::sync::Wait;
use std::test::Fail;
use tp_book::{NetParts, NetState, Numbered};
use tp_disk::MemDisk;
use tp_model::{Entry, Form, Received, Token};
use tp_recover::{Opened, Unopened, open};
use tp_tests_fixtures::SECOND;

/// What has to be left: what was worked out, with the entries that opening keeps; or what was told, after that many switches of the areas.
#[derive(Clone, Copy)]
pub(crate) enum Wanted<'a> {
    Worked(&'a Device, &'a [Entry]),
    Told(u8),
}

/// Whether a piece is at a place.
fn stands(bytes: &[u8], at: usize, piece: &[u8]) -> bool {
    match bytes.get(at..) {
        Some(there) => there.starts_with(piece),
        None => false,
    }
}

/// Whether all pieces are.
fn all_stand(bytes: &[u8], pieces: &[(usize, &[u8])]) -> bool {
    for (at, piece) in pieces {
        if !stands(bytes, *at, piece) {
            return false;
        }
    }
    true
}

/// Whether just the entries of `wanted` are kept, with numbers from `base` on.
fn are_kept(kept: &[Numbered], base: u64, wanted: &[Entry]) -> bool {
    let mut number = base;
    for (one, entry) in kept.iter().zip(wanted) {
        if one.entry != *entry || one.number != number {
            return false;
        }
        number = number.wrapping_add(1);
    }
    kept.len() == wanted.len()
}

/// Whether opening says what was worked out.
fn is_device(opened: &Opened, device: &Device, kept: &[Entry]) -> bool {
    opened.second() == device.second
        && opened.generation() == device.generation
        && opened.base() == device.base
        && opened.next() == device.next
        && are_kept(opened.kept(), device.base, kept)
}

/// Whether the area of a device that opened is that of as many `switches`, and holds what the book journalled: what is in its cut, and
/// each entry after it. It has the book's form, and turns once areas were switched.
fn is_told(opened: &Opened, told: &Told, switches: u8) -> bool {
    let base = opened.base();
    opened.generation() == 1 + u64::from(switches)
        && opened.second() == (switches % 2 == 1)
        && (base > 0) == (switches > 0)
        && base == told.base
        && opened.form() == told.form
        && (switches == 0 || opened.form() == Form::Turns)
        && opened.next() == told.journal.len() as u64
        && are_kept(
            opened.kept(),
            base,
            told.journal.get(base as usize..).unwrap_or(&[]),
        )
}

/// Whether opening says what it should.
fn is_opened(opened: &Opened, told: &Told, wanted: &Wanted<'_>) -> bool {
    match wanted {
        Wanted::Worked(device, kept) => is_device(opened, device, kept),
        Wanted::Told(switches) => is_told(opened, told, *switches),
    }
}

/// Whether the device has the pieces and the images have the words that were worked out.
fn has_all(bytes: &[u8], net: &NetParts, wanted: &Wanted<'_>) -> bool {
    let Wanted::Worked(device, _) = wanted else {
        return true;
    };
    for (node, at, word) in device.words {
        match net.images.get(*node) {
            Some(image) if stands(image, *at, word) => {}
            _ => return false,
        }
    }
    all_stand(bytes, device.bytes)
}

/// The network of what is left, if opening says what it should.
fn net_of(alloc: Global, left: &Left, wanted: &Wanted<'_>) -> Result<Option<NetParts>, Unopened> {
    let Ok(bytes) = Vec::from_slice(alloc, &left.bytes) else {
        return Err(Unopened::Memory);
    };
    let mut disk = MemDisk::of_bytes(bytes);
    let opened = open(alloc, &mut disk)?;
    if !is_opened(&opened, &left.told, wanted) {
        return Ok(None);
    }
    let Ok(NetState { net, .. }) = opened.into_state(alloc) else {
        return Err(Unopened::Memory);
    };
    Ok(Some(net))
}

/// The network of what is left, if all is as it should be.
fn opens(alloc: Global, left: &Left, wanted: &Wanted<'_>) -> Result<Option<NetParts>, Unopened> {
    let Some(net) = net_of(alloc, left, wanted)? else {
        return Ok(None);
    };
    Ok(if has_all(&left.bytes, &net, wanted) {
        Some(net)
    } else {
        None
    })
}

/// What a story leaves, if a call of the device may stop it within a write that leaves one byte.
pub(crate) fn played<R: Wait>(
    rt: &R,
    alloc: Global,
    story: &Story<'_>,
    stop: Option<(u64, u8)>,
) -> Result<Left, Unopened> {
    let bytes = formatted(alloc, &story.network)?;
    let fault = match stop {
        Some((call, byte)) => Some(Fault {
            call,
            ending: Ending::Within,
            last: Torn::Filled(byte),
            others: Torn::New,
        }),
        None => None,
    };
    run(rt, alloc, story, &bytes, fault, untold(alloc))
}

/// The network that a story leaves, if it goes as it was told, and leaves what it should.
fn net_after<R: Wait>(
    rt: &R,
    alloc: Global,
    story: &Story<'_>,
    stop: Option<(u64, u8)>,
    wanted: &Wanted<'_>,
) -> Result<Option<NetParts>, Unopened> {
    let left = played(rt, alloc, story, stop)?;
    let is_torn = match stop {
        Some((_, byte)) => stands(&left.bytes, SECOND, &[byte]),
        None => true,
    };
    if left.done != Done::All || !is_torn {
        return Ok(None);
    }
    let net = opens(alloc, &left, wanted);
    net
}

/// Whether a story goes as it was told, and leaves what it should.
pub(crate) fn goes<R: Wait>(
    rt: &R,
    alloc: Global,
    story: &Story<'_>,
    wanted: &Wanted<'_>,
) -> Result<bool, Unopened> {
    Ok(net_after(rt, alloc, story, None, wanted)?.is_some())
}

/// Whether a story leaves what it should, with the network `other`.
fn goes_to<R: Wait>(
    rt: &R,
    alloc: Global,
    story: &Story<'_>,
    stop: Option<(u64, u8)>,
    wanted: &Wanted<'_>,
    other: &NetParts,
) -> Result<bool, Unopened> {
    let net = net_after(rt, alloc, story, stop, wanted)?;
    Ok(match &net {
        Some(net) => is_network(net, other),
        None => false,
    })
}

/// Whether a story, with a stop that leaves one byte, opens to the network to which it leads without snapshots.
pub(crate) fn is_plain_too<R: Wait>(
    rt: &R,
    alloc: Global,
    story: &Story<'_>,
    stop: Option<(u64, u8)>,
    wanted: &Wanted<'_>,
) -> Result<bool, Unopened> {
    let plain = Story {
        is_plain: true,
        ..*story
    };
    let Some(other) = net_after(rt, alloc, &plain, None, &Wanted::Told(0))? else {
        return Ok(false);
    };
    let told = goes_to(rt, alloc, story, stop, wanted, &other);
    told
}

/// Whether the call stops a story as it was told to, and leaves these pieces.
fn is_stop<R: Wait>(
    rt: &R,
    alloc: Global,
    story: &Story<'_>,
    call: u64,
    pieces: &[(usize, &[u8])],
) -> bool {
    match played(rt, alloc, story, Some((call, 0x5A))) {
        Ok(left) => left.done == Done::All && all_stand(&left.bytes, pieces),
        Err(_) => false,
    }
}

/// The number of the first call that stops a story as it was told to, and leaves these pieces.
pub(crate) fn first_stop<R: Wait>(
    rt: &R,
    alloc: Global,
    story: &Story<'_>,
    pieces: &[(usize, &[u8])],
) -> Option<u64> {
    for call in 0..CALLS {
        if is_stop(rt, alloc, story, call, pieces) {
            return Some(call);
        }
    }
    None
}

#[test]
fn checkpoints_leave_what_was_worked_out(rt: HostRuntime) -> Result<(), Fail> {
    let alloc = rt.alloc();
    let under_way = [turn(1, Received::JustData(0x58), 0)];
    let late = [
        Entry::HostIn {
            port: 0,
            byte: 0x78,
        },
        Entry::HostIn {
            port: 0,
            byte: 0x79,
        },
        Entry::HostIn {
            port: 0,
            byte: 0x7A,
        },
        Entry::Run { node: 1, count: 4 },
        Entry::Run { node: 0, count: 4 },
        Entry::Run { node: 1, count: 4 },
    ];
    let third = [Entry::Run { node: 0, count: 4 }];
    let rows: [(&Story<'static>, &Device, &[Entry]); 3] = [
        (&UNDER_WAY, &UNDER_WAY_LEFT, &under_way),
        (&LATE, &LATE_LEFT, &late),
        (&THIRD, &THIRD_LEFT, &third),
    ];
    for (story, device, kept) in rows {
        assert!(rt; is_plain_too(&rt, alloc, story, None, &Wanted::Worked(device, kept))?);
    }
    Ok(())
}

#[test]
fn a_gate_that_is_half_written_is_open_or_it_is_not(rt: HostRuntime) -> Result<(), Fail> {
    let alloc = rt.alloc();
    let Some(call) = first_stop(&rt, alloc, &SWITCHED, TORN) else {
        panic!(rt; "a call writes the gate")
    };
    let kept = [
        Entry::Run { node: 0, count: 3 },
        Entry::Take {
            line: 0,
            token: Token::Data(0x41),
        },
        turn(0, Received::JustAck, 16),
        Entry::Run { node: 0, count: 16 },
    ];
    let rows: [(u8, &Device, usize); 3] = [
        (0xA5, &SWITCHED_LEFT, 3),
        (0x00, &NOT_SWITCHED_LEFT, 0),
        (0x5A, &NOT_SWITCHED_LEFT, 0),
    ];
    for (byte, device, first) in rows {
        let wanted = Wanted::Worked(device, kept.get(first..).unwrap_or(&[]));
        assert!(rt; is_plain_too(&rt, alloc, &SWITCHED, Some((call, byte)), &wanted)?);
    }
    Ok(())
}

#[test]
fn frozen_pages_want_spare_frames(rt: HostRuntime) -> Result<(), Fail> {
    let alloc = rt.alloc();
    let rows = [(&ONE_SPARE, 3, 2), (&NONE_SPARE, 1, 4)];
    for (story, first, second) in rows {
        let kept = [
            Entry::Run {
                node: 0,
                count: first,
            },
            Entry::Run {
                node: 0,
                count: second,
            },
        ];
        assert!(rt; goes(&rt, alloc, story, &Wanted::Worked(&ONE_SPARE_LEFT, &kept))?);
    }
    Ok(())
}
