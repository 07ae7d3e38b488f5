//! A script whose device fails, or stops it, at each of its calls: what the device then opens to, and how it goes on.

use crate::acts::{Story, run};
use crate::desk::{Done, Left};
use crate::fresh::{fresh, opened};
use crate::remains::{calls_of, ended, kept, known, recovered, untold};
use crate::stories::{CHECKPOINT, GOES_ON, SCRIPT};
use crate::tears::{EACH, SOME, Tear, fault_at, fault_of};
use crate::unkind::{Ending, Fault, RawUnkind, Torn};
use std::alloc::Global;
use std::fs;
use std::io::Write;
use std::process::Abort;
use std::sync::Wait;
use std::test::Fail;
use tp_model::Form;
use tp_recover::{Unopened, open};

/// How many of the script's acts are before it, before and after the first checkpoint, and before and after the second.
const ENDS: [usize; 5] = [0, 3, 4, 6, 7];

/// The script up to an act.
fn script_up_to(count: usize) -> Story<'static> {
    Story {
        acts: SCRIPT.acts.get(..count).unwrap_or(&[]),
        ..SCRIPT
    }
}

/// Nothing is done after the opening.
const NOTHING: Story<'static> = Story {
    acts: &[],
    ..SCRIPT
};

/// Whether what is opened again goes on as if nothing had been.
fn goes_on<R: Wait>(
    rt: &R,
    alloc: Global,
    first: &[u8],
    left: &Left,
    next: u64,
) -> Result<bool, Fail> {
    let told = known(alloc, &left.told, next)?;
    let later = run(rt, alloc, &GOES_ON, &left.bytes, None, told)?;
    let count = later.told.journal.len() as u64;
    let is_on = later.done == Done::All && count > next;
    Ok(is_on && recovered(alloc, first, &later)? == Some(count))
}

/// How many calls of the device a story makes after what a run left, with those that open it.
fn calls_behind<R: Wait>(
    rt: &R,
    alloc: Global,
    left: &Left,
    next: u64,
    story: &Story<'_>,
) -> Result<u64, Fail> {
    let told = known(alloc, &left.told, next)?;
    calls_of(rt, alloc, story, &left.bytes, told)
}

/// Whether a checkpoint after what a run left that stops within a call, if all that isn't synced is then A5, leaves a device that opens
/// as it ought to.
fn is_stopped_well<R: Wait>(
    rt: &R,
    alloc: Global,
    first: &[u8],
    left: &Left,
    next: u64,
    call: u64,
) -> Result<bool, Fail> {
    let told = known(alloc, &left.told, next)?;
    let tear = (Ending::Within, Torn::Filled(0xA5), Torn::Filled(0xA5));
    let fault = fault_at(call, tear);
    Ok(ended(rt, alloc, &CHECKPOINT, first, &left.bytes, told, fault)?.is_some())
}

/// Opens what a run left, and begins a checkpoint that stops within each of its calls. Answers how many calls there are, if there are some and each
/// time the device opens as it ought to.
fn checkpoints_behind<R: Wait>(
    rt: &R,
    alloc: Global,
    first: &[u8],
    left: &Left,
    next: u64,
) -> Result<Option<u64>, Fail> {
    let from = calls_behind(rt, alloc, left, next, &NOTHING)?;
    let to = calls_behind(rt, alloc, left, next, &CHECKPOINT)?;
    if to <= from {
        return Ok(None);
    }
    for call in from..to {
        if !is_stopped_well(rt, alloc, first, left, next, call)? {
            return Ok(None);
        }
    }
    Ok(Some(to - from))
}

/// The script's device, and the numbers of its calls: those of the first step and after the last, and those of both checkpoints.
#[derive(Drop)]
struct Script {
    first: Vec<u8>,
    from: u64,
    to: u64,
    switches: [(u64, u64); 2],
}

impl Script {
    /// The script over a device.
    fn over<R: Wait>(rt: &R, alloc: Global, first: Vec<u8>) -> Result<Script, Fail> {
        let mut ends = [0u64; 5];
        for (end, count) in ends.iter_mut().zip(ENDS) {
            *end = calls_of(rt, alloc, &script_up_to(count), &first, untold(alloc))?;
        }
        let [from, third, fourth, sixth, to] = ends;
        Ok(Script {
            first,
            from,
            to,
            switches: [(third, fourth), (sixth, to)],
        })
    }

    /// Whether a call is one of a checkpoint.
    fn is_of_a_checkpoint(&self, call: u64) -> bool {
        let [(first, second), (third, fourth)] = self.switches;
        (first <= call && call < second) || (third <= call && call < fourth)
    }

    /// Goes on with what the script left as it ended at a call. If that was in a checkpoint, begins another, which stops at each of its calls.
    /// Answers how many calls it had; `None` if something wasn't as it ought to be.
    fn go_on<R: Wait>(
        &self,
        rt: &R,
        alloc: Global,
        call: u64,
        left: &Left,
        next: u64,
    ) -> Result<Option<u64>, Fail> {
        let first = self.first.as_slice();
        if !goes_on(rt, alloc, first, left, next)? {
            return Ok(None);
        }
        if !self.is_of_a_checkpoint(call) {
            return Ok(Some(0));
        }
        checkpoints_behind(rt, alloc, first, left, next)
    }

    /// Ends the script by a fault, and goes on with what it leaves.
    fn end<R: Wait>(&self, rt: &R, alloc: Global, fault: Fault) -> Result<Option<u64>, Fail> {
        let first = self.first.as_slice();
        let found = ended(rt, alloc, &SCRIPT, first, first, untold(alloc), fault)?;
        let Some((left, next)) = found else {
            return Ok(None);
        };
        let told = self.go_on(rt, alloc, fault.call, &left, next);
        told
    }
}

/// Whether a device that was opened is what the script leaves: its first area was written anew, and of the `next` entries the last run
/// alone isn't in its cut.
pub(crate) fn is_last(alloc: Global, bytes: &[u8], next: u64) -> Result<bool, Fail> {
    let opened = opened(alloc, bytes)?;
    Ok(
        !opened.second()
            && opened.generation() == 3
            && opened.base().checked_add(1) == Some(next)
            && opened.kept().len() == 1
            && opened.next() == next
            && opened.form() == Form::Turns,
    )
}

/// Whether a device isn't opened whose call fails or stops the opening, and is as it was.
fn is_unopened(alloc: Global, bytes: &[u8], fault: Fault) -> Result<bool, Fail> {
    let mut disk = RawUnkind::new(alloc, bytes, Some(fault))?;
    let told = open(alloc, &mut disk);
    Ok(matches!(told, Err(Unopened::ReadFailed)) && disk.raw().bytes() == bytes)
}

/// The first of the `calls` that open a device at whose end, in whichever way it fails or stops it, it is opened, or isn't as it was.
fn first_opened(alloc: Global, bytes: &[u8], calls: u64) -> Result<Option<u64>, Fail> {
    for number in 0..calls.saturating_mul(EACH.len() as u64) {
        let Some(fault) = fault_of(EACH, 0, number) else {
            break;
        };
        if !is_unopened(alloc, bytes, fault)? {
            return Ok(Some(fault.call));
        }
    }
    Ok(None)
}

/// How many calls open the script's device, and what the script leaves.
fn opened_and_left<R: Wait>(rt: &R, alloc: Global) -> Result<(u64, Left), Fail> {
    let script = Script::over(rt, alloc, fresh(alloc)?)?;
    let left = run(rt, alloc, &SCRIPT, &script.first, None, untold(alloc))?;
    Ok((script.from, left))
}

#[test]
fn an_opening_whose_device_fails_changes_nothing(rt: HostRuntime) -> Result<(), Fail> {
    let (calls, left) = opened_and_left(&rt, rt.alloc())?;
    let opened = first_opened(rt.alloc(), &left.bytes, calls)?;
    assert!(rt; calls > 0 && opened.is_none());
    Ok(())
}

/// What a folder has in which all is tried.
const ALL: &str = "each-stop";

/// Ends the script over a device at each of its calls, in each way. Answers how often it was ended and how many calls the checkpoints
/// after them had, or the call at which something wasn't as it ought to be.
fn end_each<R: Wait>(
    rt: &R,
    alloc: Global,
    first: Vec<u8>,
    tears: &[Tear],
) -> Result<Result<(u64, u64), u64>, Fail> {
    let script = Script::over(rt, alloc, first)?;
    let mut behind = 0u64;
    let calls = script.to.saturating_sub(script.from);
    let cases = calls.saturating_mul(tears.len() as u64);
    for number in 0..cases {
        let Some(fault) = fault_of(tears, script.from, number) else {
            break;
        };
        let Some(count) = script.end(rt, alloc, fault)? else {
            return Ok(Err(fault.call));
        };
        behind = behind.saturating_add(count);
    }
    Ok(Ok((cases, behind)))
}

/// Ends the script over a device at each of its calls, and writes how often: there are some, and some of a checkpoint after one.
fn tell_each<R: AllocGlobal + Wait + Abort, O: Write>(
    rt: &R,
    first: Vec<u8>,
    tears: &[Tear],
    out: &mut O,
) -> Result<(), Fail> {
    match end_each(rt, rt.alloc(), first, tears)? {
        Ok((ended, behind)) => {
            assert!(rt; ended > 0 && behind > 0, "no call");
            let _ = write!(out, "{ended} ended, {behind} checkpoints behind them\n");
        }
        Err(call) => panic!(rt; "call {call}"),
    }
    Ok(())
}

#[test]
fn a_script_that_ends_at_each_call(rt: HostRuntime) -> Result<(), Fail> {
    let alloc = rt.alloc();
    let tears = if fs::read(&rt, ALL).is_ok() {
        EACH
    } else {
        SOME
    };
    let mut out = rt.stdout();
    tell_each(&rt, fresh(alloc)?, tears, &mut out)?;
    tell_each(&rt, kept(alloc)?, tears, &mut out)
}
