//! Devices that grow: what is appended to them, and when they are read meanwhile.

use crate::changing::Changing;
use std::alloc::{AllocError, Global};
use std::sync::Wait;
use tp_disk::Counted;
use tp_model::limits::{GATE_CLOSED, GATE_OPEN, MAX_GROUP};
use tp_net::Topology;
use tp_program::{compact_on, format_on};
use tp_tests_fixtures::{AREA, ONE_NODE, SIZE, letter};

/// What is after the gate of a group of the node's first turns and the host's: a run of 3 steps, the letter, its acknowledge, and a
/// run of 16 steps.
const TURNS: &[u8] = &[
    0, 4, 0, 0, 0, 0, 0, 0, 0, 0, 0, 0, 0, 0, 0, // the header
    1, 0, 3, 0, 0, 0, 0, 0, 0, 0, 0, 0, 0, 0, 0, 0, //
    2, 1, 0, 0, 0x41, 0, 0, 0, 1, 0, 0, 0, 0, 0, 0, 0, //
    2, 2, 4, 0, 0, 0, 0, 0, 2, 0, 0, 0, 0, 0, 0, 0, //
    1, 0, 16, 0, 0, 0, 0, 0, 3, 0, 0, 0, 0, 0, 0, 0, //
    0,
];

/// And of a group of a further run.
const FURTHER: &[u8] = &[
    0, 1, 0, 0, 0, 0, 0, 4, 0, 0, 0, 0, 0, 0, 0, // the header
    1, 0, 16, 0, 0, 0, 0, 0, 4, 0, 0, 0, 0, 0, 0, 0, //
    0,
];

/// And of one that confirms the letter, after the runs of `LONG_GROUPS`.
const CONFIRMED: &[u8] = &[
    0, 1, 0, 0, 0, 0, 0, 4, 0x10, 0, 0, 0, 0, 0, 0, // the header
    4, 0, 0, 0, 1, 0, 0, 0, 4, 0x10, 0, 0, 0, 0, 0, 0, //
    0,
];

/// Groups that are appended at once.
#[derive(Clone, Copy)]
enum Groups {
    /// One, by what is after its gate.
    One(&'static [u8]),
    /// Full ones, `count` of them, of runs of one step each, the first with that number.
    Runs { number: u64, count: u64 },
}

/// A device, what is appended to it, and when it is read.
#[derive(Clone, Copy)]
pub(crate) struct Growth {
    pub(crate) size: usize,
    pub(crate) area: u64,
    /// Groups, each time with the place of their first gate. A checkpoint comes after each time.
    groups: &'static [(u64, Groups)],
    /// The mark that the writes have come to when the device is read, and how many come to pass before each call. Mark 0 is a device of bytes
    /// 00, mark 1 is after its format; then there is one each time that groups are appended, and one after each checkpoint.
    pub(crate) paces: &'static [(usize, usize)],
}

const GROUPS: &[(u64, Groups)] = &[(13_033, Groups::One(TURNS)), (29_417, Groups::One(FURTHER))];

/// A device of few bytes, whose areas get one group each. It is read before it is formatted, and from its format on at each of three paces.
pub(crate) const SHORT: Growth = Growth {
    size: SIZE,
    area: AREA,
    groups: GROUPS,
    paces: &[(0, 1), (1, 1), (1, 3), (1, usize::MAX)],
};

/// The second area gets 64 full groups. One call reads no more than 63 of them, so another one reads the last. When that area is written anew it
/// gets 63: at the gate of the last one it is closed then.
const LONG_GROUPS: &[(u64, Groups)] = &[
    (13_033, Groups::One(TURNS)),
    (
        94_953,
        Groups::Runs {
            number: 4,
            count: 64,
        },
    ),
    (13_033, Groups::One(CONFIRMED)),
    (
        94_953,
        Groups::Runs {
            number: 4_101,
            count: 63,
        },
    ),
];

/// A device whose areas hold these groups. It is read when the second area has its 64 groups, and when the first one counts after that: this
/// one is written anew, too, with the letter confirmed.
pub(crate) const LONG: Growth = Growth {
    size: 164_352,
    area: 81_920,
    groups: LONG_GROUPS,
    paces: &[(4, usize::MAX), (5, usize::MAX)],
};

/// What no command answers: there is no memory for the network.
const NONE: u8 = 9;

/// The image of a node that sends a letter.
fn images(alloc: Global) -> Option<Vec<Vec<u8>>> {
    match letter(alloc) {
        Ok(image) => Vec::from_array(alloc, [image]).ok(),
        Err(_) => None,
    }
}

/// Formats a device for that node and a port. Answers the status.
fn format_over(alloc: Global, changing: &mut Changing, area: u64) -> u8 {
    let mut disk = Counted::new(changing.disk());
    let (mut out, mut err) = (Vec::new(alloc), Vec::new(alloc));
    let Ok(topology) = Topology::read(alloc, ONE_NODE) else {
        return NONE;
    };
    let _rules = topology.pages();
    match images(alloc) {
        Some(images) => format_on(
            alloc,
            &mut disk,
            &topology,
            &images,
            Some(area),
            &mut out,
            &mut err,
        ),
        None => NONE,
    }
}

/// A device of `size` bytes with areas of `area` bytes, as it is formatted; none if there is no memory.
pub(crate) fn formatted(alloc: Global, size: usize, area: u64) -> Option<Changing> {
    let Ok(mut changing) = Changing::new(alloc, size) else {
        return None;
    };
    match format_over(alloc, &mut changing, area) {
        0 => Some(changing),
        _ => None,
    }
}

/// Adds a full group of runs from that number on to what is after its gate, and the next gate, which is open.
fn push_runs(bytes: &mut Vec<u8>, number: u64) -> Result<(), AllocError> {
    bytes.extend_from_slice(&[0, MAX_GROUP as u8, 0, 0, 0, 0, 0])?;
    bytes.extend_from_slice(&number.to_le_bytes())?;
    for run in 0..MAX_GROUP as u64 {
        bytes.extend_from_slice(&[1, 0, 1, 0, 0, 0, 0, 0])?;
        bytes.extend_from_slice(&number.wrapping_add(run).to_le_bytes())?;
    }
    bytes.push(GATE_OPEN)?;
    Ok(())
}

/// What is after the first gate of full groups, `count` of them, of runs from that number on, up to a closed gate.
fn runs(alloc: Global, number: u64, count: u64) -> Result<Vec<u8>, AllocError> {
    let mut bytes = Vec::new(alloc);
    for group in 0..count {
        let first = group.wrapping_mul(MAX_GROUP as u64);
        push_runs(&mut bytes, number.wrapping_add(first))?;
    }
    let _open = bytes.pop();
    bytes.push(GATE_CLOSED)?;
    Ok(bytes)
}

/// What is after the first gate of groups.
fn bytes_of(alloc: Global, groups: Groups) -> Result<Vec<u8>, AllocError> {
    match groups {
        Groups::One(bytes) => Vec::from_slice(alloc, bytes),
        Groups::Runs { number, count } => runs(alloc, number, count),
    }
}

/// Appends groups at a gate as runs do: that gate comes last.
fn append(
    alloc: Global,
    changing: &mut Changing,
    gate: u64,
    groups: Groups,
) -> Result<(), AllocError> {
    let bytes = bytes_of(alloc, groups)?;
    changing.write(gate.wrapping_add(1), &bytes)?;
    changing.write(gate, &[GATE_OPEN])
}

/// Takes a checkpoint. Answers the status.
fn checkpointed<R: AllocGlobal + Wait>(rt: &R, changing: &mut Changing) -> u8 {
    let alloc = rt.alloc();
    let (mut out, mut err) = (Vec::new(alloc), Vec::new(alloc));
    let disk = Counted::new(changing.disk());
    let (_disk, status) = compact_on(rt, alloc, disk, &mut out, &mut err);
    status
}

/// Lets a formatted device grow as `growth` says. Answers how many writes there were at each mark; none if a checkpoint isn't taken.
pub(crate) fn grow<R: AllocGlobal + Wait>(
    rt: &R,
    changing: &mut Changing,
    growth: Growth,
) -> Result<Option<Vec<usize>>, AllocError> {
    let alloc = rt.alloc();
    let mut marks = Vec::from_slice(alloc, &[0, changing.count()])?;
    for (gate, groups) in growth.groups {
        append(alloc, changing, *gate, *groups)?;
        marks.push(changing.count())?;
        if checkpointed(rt, changing) != 0 {
            return Ok(None);
        }
        marks.push(changing.count())?;
    }
    Ok(Some(marks))
}
