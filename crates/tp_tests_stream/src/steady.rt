//! What commands that read a device say of one that another process writes meanwhile.

use crate::changing::{Changing, Pace};
use crate::growth::{Growth, LONG, SHORT, formatted, grow};
use crate::said::Said;
use std::alloc::{AllocError, Global};
use std::sync::Wait;
use std::test::Fail;
use std::thread::Threads;
use tp_disk::{Counted, Disk, MemDisk};
use tp_program::{
    JournalPart, NodeMaps, TracePart, View, backup_on, recover_on, show_on, status_on,
    trace_device_on, view_on,
};
use tp_tests_fixtures::{AREA, SIZE};

/// A command that reads a device.
#[derive(Clone, Copy)]
enum Reader {
    /// By that many threads.
    Recover(u8),
    Show,
    Look(View),
    Status,
    Trace(TracePart),
    /// Which makes a copy; that is shown.
    Backup,
}

/// What no command answers: there is no memory for a copy.
const NONE: u8 = 9;

/// Makes a copy of a device, and shows it. Answers the status.
fn show_copy<D: Disk>(alloc: Global, disk: &mut D, out: &mut Vec<u8>, err: &mut Vec<u8>) -> u8 {
    let Ok(mut copy) = MemDisk::zeroed(alloc, SIZE) else {
        return NONE;
    };
    match backup_on(alloc, disk, &mut copy, err) {
        Ok(_) => show_on(alloc, &mut copy, false, out, err),
        Err(status) => status,
    }
}

/// What a command says of a device.
fn asked<R: AllocGlobal + Threads + Sync>(rt: &R, changing: &mut Changing, reader: Reader) -> Said {
    let (alloc, mut disk) = (rt.alloc(), Counted::new(changing.disk()));
    let (mut out, mut err) = (Vec::new(alloc), Vec::new(alloc));
    let status = match reader {
        Reader::Recover(workers) => recover_on(rt, alloc, &mut disk, workers, &mut out, &mut err),
        Reader::Show => show_on(alloc, &mut disk, false, &mut out, &mut err),
        Reader::Look(view) => {
            let maps = NodeMaps::none(alloc);
            view_on(alloc, &mut disk, view, &maps, &mut out, &mut err)
        }
        Reader::Status => {
            let (out, err) = (&mut out, &mut err);
            match status_on(alloc, &mut disk, false, 0, None, &None, false, out, err) {
                Ok(_) => 0,
                Err(status) => status,
            }
        }
        Reader::Trace(part) => {
            let maps = NodeMaps::none(alloc);
            trace_device_on(alloc, &mut disk, part, &maps, &mut out, &mut err)
        }
        Reader::Backup => show_copy(alloc, &mut disk, &mut out, &mut err),
    };
    Said { status, out, err }
}

/// Answers what is asked of a still device if `reader` is tested. What several threads recover is recovered by one; of a copy that is
/// shown, the device is shown.
fn asked_of_still(reader: Reader) -> Reader {
    match reader {
        Reader::Recover(_) => Reader::Recover(1),
        Reader::Backup => Reader::Show,
        reader => reader,
    }
}

/// What `reader` has to say after each of the writes, if the device then stays as it is.
fn said_of_each<R: AllocGlobal + Threads + Sync>(
    rt: &R,
    changing: &mut Changing,
    reader: Reader,
) -> Result<Vec<Said>, Fail> {
    let still = asked_of_still(reader);
    let mut said = Vec::new(rt.alloc());
    for done in 0..=changing.count() {
        changing.rewind(done, None);
        said.push(asked(rt, changing, still))?;
    }
    Ok(said)
}

fn is_alike(one: &Said, other: &Said) -> bool {
    one.is(other.status, &other.out, &other.err)
}

/// Whether `answer` is what was said at a moment from `from` up to `upto`, and tells no damage.
fn is_of_a_moment(said: &[Said], from: usize, upto: usize, answer: &Said) -> bool {
    for moment in said.iter().take(upto.saturating_add(1)).skip(from) {
        if is_alike(moment, answer) {
            return !answer.err.as_slice().starts_with(b"tpnet: Damaged");
        }
    }
    false
}

/// Asks a command while writes come to pass, `count` of them before each call from one on, for each call that it makes if none come to
/// pass. Answers whether there are such calls, and each time what was said is of a moment in between.
fn asked_meanwhile<R: AllocGlobal + Threads + Sync>(
    rt: &R,
    changing: &mut Changing,
    reader: Reader,
    said: &[Said],
    from: usize,
    count: usize,
) -> bool {
    changing.rewind(changing.count(), None);
    let _still = asked(rt, changing, reader);
    let mut are_right = changing.calls > 0;
    for first in 0..changing.calls {
        let pace = Pace {
            first,
            period: 1,
            count,
        };
        changing.rewind(from, Some(pace));
        let answer = asked(rt, changing, reader);
        are_right = are_right && is_of_a_moment(said, from, changing.done, &answer);
    }
    are_right
}

/// Whether a command says of a formatted device, once it has grown, what is of a moment in between, at those paces.
fn is_of_moments<R: AllocGlobal + Threads + Wait + Sync>(
    rt: &R,
    changing: &mut Changing,
    reader: Reader,
    growth: Growth,
) -> Result<bool, Fail> {
    let Some(marks) = grow(rt, changing, growth)? else {
        return Ok(false);
    };
    let said = said_of_each(rt, changing, reader)?;
    let mut are_right = !growth.paces.is_empty();
    for (mark, count) in growth.paces {
        let from = marks.get(*mark).copied().unwrap_or(usize::MAX);
        are_right = are_right && asked_meanwhile(rt, changing, reader, &said, from, *count);
    }
    Ok(are_right)
}

/// Whether it does so of a device that grows so.
fn is_of_one_moment<R: AllocGlobal + Threads + Wait + Sync>(
    rt: &R,
    reader: Reader,
    growth: Growth,
) -> Result<bool, Fail> {
    match formatted(rt.alloc(), growth.size, growth.area) {
        Some(mut changing) => is_of_moments(rt, &mut changing, reader, growth),
        None => Ok(false),
    }
}

#[test]
fn an_answer_is_of_one_moment(rt: HostRuntime) -> Result<(), Fail> {
    assert!(rt; is_of_one_moment(&rt, Reader::Show, SHORT)?);
    Ok(())
}

#[test]
fn an_answer_of_a_long_area_is_of_one_moment(rt: HostRuntime) -> Result<(), Fail> {
    assert!(rt; is_of_one_moment(&rt, Reader::Show, LONG)?);
    Ok(())
}

#[test]
fn a_copy_is_of_one_moment(rt: HostRuntime) -> Result<(), Fail> {
    assert!(rt; is_of_one_moment(&rt, Reader::Backup, SHORT)?);
    Ok(())
}

#[test]
fn a_recovery_is_of_one_moment(rt: HostRuntime) -> Result<(), Fail> {
    assert!(rt; is_of_one_moment(&rt, Reader::Recover(1), SHORT)?);
    Ok(())
}

#[test]
fn a_recovery_by_two_threads_is_of_one_moment(rt: HostRuntime) -> Result<(), Fail> {
    assert!(rt; is_of_one_moment(&rt, Reader::Recover(2), SHORT)?);
    Ok(())
}

#[test]
fn a_recovery_of_a_long_area_is_of_one_moment(rt: HostRuntime) -> Result<(), Fail> {
    assert!(rt; is_of_one_moment(&rt, Reader::Recover(1), LONG)?);
    Ok(())
}

#[test]
fn a_recovery_of_a_long_area_by_two_threads_is_of_one_moment(rt: HostRuntime) -> Result<(), Fail> {
    assert!(rt; is_of_one_moment(&rt, Reader::Recover(2), LONG)?);
    Ok(())
}

/// A write that writes nothing.
const NOTHING: (usize, &[u8]) = (0, &[]);

/// Two switches, three writes before each call: the first area's gate is closed when a look reads it, and the second one's when the look reads that,
/// though one of the two is open at each moment. While the first area is read it is written anew.
const SWITCHES: &[[(usize, &[u8]); 3]] = &[
    [
        (16_896, &[0xA5, 2, 0, 0, 0, 0, 0, 0, 0]),
        (512, &[0, 3, 0, 0, 0, 0, 0, 0, 0]),
        NOTHING,
    ],
    [NOTHING; 3],
    [
        (512, &[0xA5]),
        (16_896, &[0]),
        (16_897, &[4, 0, 0, 0, 0, 0, 0, 0]),
    ],
    [NOTHING; 3],
    [NOTHING; 3],
    [NOTHING; 3],
    [NOTHING; 3],
    [NOTHING; 3],
    [(16_896, &[0xA5]), (512, &[0]), (533, &[2])],
    [NOTHING; 3],
    [NOTHING; 3],
    [NOTHING; 3],
    [
        (533, &[1]),
        (512, &[0xA5, 5, 0, 0, 0, 0, 0, 0, 0]),
        (16_896, &[0]),
    ],
];

/// Writes that to a device.
fn switch(changing: &mut Changing) -> Result<(), AllocError> {
    for (at, bytes) in SWITCHES.iter().flatten() {
        changing.write(*at as u64, bytes)?;
    }
    Ok(())
}

/// Whether `show` says of a device to which that was written what holds after the switches, if they come while it reads.
fn sees_switches<R: AllocGlobal + Threads + Sync>(rt: &R, changing: &mut Changing) -> bool {
    let still = asked(rt, changing, Reader::Show);
    let count = changing.count();
    let from = count.wrapping_sub(SWITCHES.len().wrapping_mul(3));
    let pace = Pace {
        first: 0,
        period: 1,
        count: 3,
    };
    changing.rewind(from, Some(pace));
    let answer = asked(rt, changing, Reader::Show);
    answer.status == 0 && is_alike(&answer, &still) && changing.done == count
}

/// Whether no switch is overlooked.
fn is_not_overlooked<R: AllocGlobal + Threads + Sync>(rt: &R) -> bool {
    match formatted(rt.alloc(), SIZE, AREA) {
        Some(mut changing) => switch(&mut changing).is_ok() && sees_switches(rt, &mut changing),
        None => false,
    }
}

#[test]
fn no_switch_is_overlooked(rt: HostRuntime) {
    assert!(rt; is_not_overlooked(&rt));
}

/// Writes to the area that counts, each a generation two above the one before it, as two checkpoints leave it.
fn age(changing: &mut Changing, times: u8) -> Result<(), AllocError> {
    for time in 1..=times {
        let generation = time.wrapping_mul(2).wrapping_add(1);
        changing.write(512, &[0xA5, generation, 0, 0, 0, 0, 0, 0, 0])?;
    }
    Ok(())
}

/// All of a journal.
const WHOLE: JournalPart = JournalPart {
    from: 0,
    to: None,
    node: None,
    last: None,
    json: false,
};

/// All that its journal says of a node.
const TRACED: TracePart = TracePart {
    node: 0,
    from: 0,
    to: None,
};

/// A command, in how many of its tries the device is written, and whether it says what holds in the end; else it says `Busy`.
const TRIES: &[(Reader, u8, bool)] = &[
    (Reader::Recover(1), 19, true),
    (Reader::Recover(1), 20, false),
    (Reader::Recover(2), 19, true),
    (Reader::Recover(2), 20, false),
    (Reader::Show, 19, true),
    (Reader::Show, 20, false),
    (Reader::Show, 21, false),
    (Reader::Look(View::Node(0)), 20, false),
    (Reader::Look(View::Image(0)), 20, false),
    (Reader::Look(View::Journal(WHOLE)), 20, false),
    (Reader::Look(View::Outputs(0)), 20, false),
    (Reader::Look(View::Waits), 19, true),
    (Reader::Look(View::Waits), 20, false),
    (Reader::Status, 19, true),
    (Reader::Status, 20, false),
    (Reader::Trace(TRACED), 19, true),
    (Reader::Trace(TRACED), 20, false),
    (Reader::Backup, 1, true),
    (Reader::Backup, 19, true),
    (Reader::Backup, 20, false),
];

/// Before which call of a try the device is written, if the try makes that many: after the first look, or before the last one, which is the only one
/// of a backup.
fn call_of(reader: Reader, calls: u64) -> u64 {
    match reader {
        Reader::Backup => calls.saturating_sub(1),
        _ => 6,
    }
}

/// Whether a command says what it has to of a device whose last writes, that many, come once in each try.
fn is_tried<R: AllocGlobal + Threads + Sync>(
    rt: &R,
    changing: &mut Changing,
    reader: Reader,
    times: u8,
    is_read: bool,
) -> bool {
    let count = changing.count();
    changing.rewind(count, None);
    let still = asked(rt, changing, reader);
    let calls = changing.calls;
    let pace = Pace {
        first: call_of(reader, calls),
        period: calls,
        count: 1,
    };
    changing.rewind(count.wrapping_sub(usize::from(times)), Some(pace));
    let answer = asked(rt, changing, reader);
    if is_read {
        answer.status == 0 && is_alike(&answer, &still)
    } else {
        answer.is(1, b"", b"tpnet: Busy\n")
    }
}

/// Whether it does so if a device is written that many times.
fn says_so<R: AllocGlobal + Threads + Sync>(
    rt: &R,
    reader: Reader,
    times: u8,
    is_read: bool,
) -> bool {
    match formatted(rt.alloc(), SIZE, AREA) {
        Some(mut changing) => {
            age(&mut changing, times).is_ok() && is_tried(rt, &mut changing, reader, times, is_read)
        }
        None => false,
    }
}

#[test]
fn a_device_is_tried_twenty_times(rt: HostRuntime) {
    for (reader, times, is_read) in TRIES {
        assert!(rt; says_so(&rt, *reader, *times, *is_read));
    }
}
