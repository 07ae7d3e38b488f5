//! Groups and checkpoints whose device calls fail, or on which the run stops: what the device then opens as.

use crate::apart::is_said;
use crate::checkpoints::{Look, Put, Stage, Step, Story};
use crate::copies::take_step;
use crate::devices::{
    CALLS_OF_OPEN, Held, LETTER, MORE, append, faulty_store, fresh, held_after, is_same, left,
    opened_of, replayed, store_of,
};
use crate::faults::{Case, ENDINGS, Ending, Torn};
use crate::kept::kept_bytes;
use crate::stories::{
    AFTER_A_GROUP, BEHIND_A_STOP, BEHIND_KEPT, BEYOND_THE_GROUPS, OVER_OLD_GROUPS, TWO_GROUPS,
    WITH_TURNS,
};
use std::alloc::{AllocError, Global};
use std::thread::Threads;
use tp_area::{Store, StoreFault};
use tp_disk::{Disk, MemDisk};
use tp_recover::{Opened, open_store};
use tp_tests_fixtures::{AREA, SECOND, place};

/// A story's device at first; and before each step whose calls have faults, and after the last, with what a plain replay of the entries
/// gives.
#[derive(Drop)]
struct Known {
    first: Vec<u8>,
    devices: Vec<Vec<u8>>,
    held: Vec<Held>,
}

/// The device that a story begins with.
fn first_of(alloc: Global, story: &Story) -> Option<Vec<u8>> {
    match story.first {
        Some(number) => kept_bytes(alloc, number),
        None => fresh(alloc, AREA),
    }
}

/// What is known of a story.
fn known_of(alloc: Global, story: &Story) -> Option<Known> {
    let Some(first) = first_of(alloc, story) else {
        return None;
    };
    let mut known = Known {
        first,
        devices: Vec::new(alloc),
        held: Vec::new(alloc),
    };
    let is_learnt = known.replay(alloc, story.stages) && known.learn(alloc, story);
    if is_learnt { Some(known) } else { None }
}

impl Known {
    /// Replays the entries of each stage. Answers whether each was possible.
    fn replay(&mut self, alloc: Global, stages: &[Stage]) -> bool {
        for stage in stages {
            let Some(held) = replayed(alloc, &self.first, stage.made) else {
                return false;
            };
            if self.held.push(held).is_err() {
                return false;
            }
        }
        true
    }

    /// Takes all steps of a story. Answers whether the bytes are there then that ought to.
    fn learn(&mut self, alloc: Global, story: &Story) -> bool {
        match store_of(alloc, &self.first) {
            Some(mut store) => self.grow(alloc, &mut store, story),
            None => false,
        }
    }

    /// Does so on a store.
    fn grow(&mut self, alloc: Global, store: &mut Store<MemDisk>, story: &Story) -> bool {
        self.take(alloc, store, story.before, false)
            && self.copy(alloc, store)
            && self.take(alloc, store, story.steps, true)
            && has_bytes(store.disk.bytes(), story.bytes)
    }

    /// Takes steps, and copies the bytes of the device after each one that asks for it. Answers whether all were taken.
    fn take(
        &mut self,
        alloc: Global,
        store: &mut Store<MemDisk>,
        steps: &[Step],
        copies: bool,
    ) -> bool {
        for step in steps {
            let is_taken = take_step(alloc, store, &self.first, step).is_ok();
            if !is_taken || (copies && !self.copy(alloc, store)) {
                return false;
            }
        }
        true
    }

    /// Copies the bytes of a device: a crash leaves just these. Answers whether there was memory for them.
    fn copy(&mut self, alloc: Global, store: &Store<MemDisk>) -> bool {
        match Vec::from_slice(alloc, store.disk.bytes()) {
            Ok(bytes) => self.devices.push(bytes).is_ok(),
            Err(_) => false,
        }
    }

    /// The bytes of the device at a stage; none if there is no such stage.
    fn device(&self, stage: usize) -> &[u8] {
        match self.devices.get(stage) {
            Some(device) => device.as_slice(),
            None => &[],
        }
    }

    /// What is at the place that a call writes. The gate of the other area was closed before it is opened.
    fn torn(
        &self,
        alloc: Global,
        torn: Torn,
        stage: usize,
        put: Put,
    ) -> Result<Vec<u8>, AllocError> {
        let (at, len, _) = put;
        let device = match torn {
            Torn::Filled(byte) => return Vec::from_elem(alloc, byte, len),
            Torn::Old if at == SECOND => return Vec::from_elem(alloc, 0x00, 1),
            Torn::Old => self.device(stage),
            Torn::New => self.device(stage.saturating_add(1)),
        };
        let rest = device.get(at..).unwrap_or(&[]);
        Vec::from_slice(alloc, rest.get(..len).unwrap_or(&[]))
    }
}

/// Whether the bytes of a device are those that ought to be there.
fn has_bytes(device: &[u8], bytes: &[(usize, u8)]) -> bool {
    for (at, byte) in bytes {
        if device.get(*at) != Some(byte) {
            return false;
        }
    }
    true
}

/// What opening said of a device.
fn look_of(opened: &Opened) -> Look {
    (
        opened.second(),
        opened.generation(),
        opened.base(),
        opened.kept().len(),
        opened.next(),
        opened.form(),
    )
}

/// Whether opening said this of a device.
fn has_look(opened: &Opened, look: Look) -> bool {
    look_of(opened) == look
}

/// Whether opening says this of a device with `bytes`.
pub(crate) fn is_look(alloc: Global, bytes: &[u8], look: Look) -> bool {
    match opened_of(alloc, bytes) {
        Ok(opened) => has_look(&opened, look),
        Err(_) => false,
    }
}

/// Whether an opened device says what it ought to, and holds it.
fn is_opened_as(alloc: Global, opened: Opened, stage: &Stage, wanted: &Held) -> bool {
    let is_so = has_look(&opened, stage.look);
    match held_after(alloc, opened, b"") {
        Some(held) => is_so && is_same(&held, wanted) && outputs(&held) == stage.outputs,
        None => false,
    }
}

/// The outputs of the port.
fn outputs(held: &Held) -> &[u8] {
    match held.net.ports.first() {
        Some(port) => port.outputs.as_slice(),
        None => &[],
    }
}

/// Whether a device of `bytes` says what it ought to, and holds it.
fn opens_as(alloc: Global, bytes: &[u8], stage: &Stage, wanted: &Held) -> bool {
    match opened_of(alloc, bytes) {
        Ok(opened) => is_opened_as(alloc, opened, stage, wanted),
        Err(_) => false,
    }
}

/// Whether a device of `bytes` opens as it ought to at a stage.
fn is_at(alloc: Global, known: &Known, story: &Story, bytes: &[u8], stage: usize) -> bool {
    match (story.stages.get(stage), known.held.get(stage)) {
        (Some(stage), Some(wanted)) => opens_as(alloc, bytes, stage, wanted),
        _ => false,
    }
}

/// Whether a store says that it is broken, whatever is asked of it.
fn says_broken(store: &mut Store<MemDisk>) -> bool {
    let broken = Err(StoreFault::StoreBroken);
    append(store, LETTER) == broken
        && append(store, MORE) == broken
        && store.clear_other() == broken
        && store.open_other() == broken
        && store.broken
}

/// Whether it does, and makes no call of its device once one has failed: each would fail and be counted.
fn stays_broken(alloc: Global, store: &mut Store<MemDisk>) -> bool {
    let place = store.place;
    match Vec::from_slice(alloc, store.disk.bytes()) {
        Ok(bytes) => {
            says_broken(store)
                && store.disk.failures() == 1
                && store.disk.bytes() == bytes.as_slice()
                && store.place == place
        }
        Err(_) => false,
    }
}

/// Takes the steps of a story as long as the device doesn't fail. Answers how many were taken; none if one answers another fault
/// than that.
fn taken(alloc: Global, known: &Known, story: &Story, store: &mut Store<MemDisk>) -> Option<usize> {
    for (i, step) in story.steps.iter().enumerate() {
        match take_step(alloc, store, &known.first, step) {
            Ok(()) => {}
            Err(StoreFault::DeviceFailed) => return Some(i),
            Err(_) => return None,
        }
    }
    Some(story.steps.len())
}

/// Whether the steps go on up to that in which the case's call is, and the store is broken then. After the last call no fault is met.
fn is_told(
    alloc: Global,
    known: &Known,
    story: &Story,
    stage: usize,
    store: &mut Store<MemDisk>,
) -> bool {
    taken(alloc, known, story, store) == Some(stage)
        && (stage == story.steps.len() || stays_broken(alloc, store))
}

/// A store before the steps, with the fault of a case after the calls of opening.
fn store_for(alloc: Global, known: &Known, story: &Story, case: Case) -> Option<Store<MemDisk>> {
    let stage = story.calls.stage(case.call);
    let call = CALLS_OF_OPEN.saturating_add(case.call as u64);
    match known.torn(alloc, case.torn, stage, story.calls.put(case.call)) {
        Ok(torn) => faulty_store(alloc, known.device(0), call, case.ending.fault(torn)),
        Err(_) => None,
    }
}

/// Takes the steps with the fault of a case. Answers what a crash leaves, if they end as they ought to; else `None`.
fn swept(alloc: Global, known: &Known, story: &Story, case: Case) -> Option<Vec<u8>> {
    let Some(mut store) = store_for(alloc, known, story, case) else {
        return None;
    };
    let stage = story.calls.stage(case.call);
    let told = is_told(alloc, known, story, stage, &mut store);
    left(store.into_disk(), told)
}

/// Tears what a call that is a sync leaves. Answers whether there was memory for it.
fn tear(alloc: Global, known: &Known, story: &Story, case: Case, bytes: &mut [u8]) -> bool {
    let put = story.calls.put(case.call);
    if !put.2 {
        return true;
    }
    match known.torn(alloc, case.torn, story.calls.stage(case.call), put) {
        Ok(torn) => {
            place(bytes, put.0, &torn);
            true
        }
        Err(_) => false,
    }
}

/// Tears what a crash leaves if the call is a sync. Answers whether the device opens as it was before the step of that call, or as the step leaves
/// it, if its gate is open.
fn opens(alloc: Global, known: &Known, story: &Story, case: Case, bytes: &mut [u8]) -> bool {
    let stage = story.calls.stage(case.call);
    let is_open = case.opens(story.calls.gate(stage));
    let stage = stage.saturating_add(usize::from(is_open));
    tear(alloc, known, story, case, bytes) && is_at(alloc, known, story, bytes, stage)
}

/// Whether the steps end as they ought to with the fault of a case, and the device then opens so.
fn is_whole(alloc: Global, known: &Known, story: &Story, case: Case) -> bool {
    match swept(alloc, known, story, case) {
        Some(mut bytes) => opens(alloc, known, story, case, &mut bytes),
        None => false,
    }
}

/// Whether that holds however a call ends.
fn is_whole_at(alloc: Global, known: &Known, story: &Story, call: usize) -> bool {
    for (ending, torn) in ENDINGS {
        let (ending, torn) = (*ending, *torn);
        if !is_whole(alloc, known, story, Case { call, ending, torn }) {
            return false;
        }
    }
    true
}

/// Whether that holds at each call, and after the last.
fn is_whole_at_each(alloc: Global, known: &Known, story: &Story) -> bool {
    let calls = story.calls.each.saturating_mul(story.steps.len());
    for call in 0..calls.saturating_add(1) {
        if !is_whole_at(alloc, known, story, call) {
            return false;
        }
    }
    true
}

/// Whether the device of each stage opens as it ought to, in one thread and by any number of workers.
fn is_known<R: Threads + Sync>(rt: &R, alloc: Global, known: &Known, story: &Story) -> bool {
    for (i, stage) in story.stages.iter().enumerate() {
        let bytes = known.device(i);
        if !is_at(alloc, known, story, bytes, i) || !is_said(rt, alloc, bytes, Ok(stage.look.4)) {
            return false;
        }
    }
    true
}

/// Whether a story comes true: what its steps leave, and what they leave with a fault in each of their calls.
fn is_so<R: Threads + Sync>(rt: &R, alloc: Global, story: &Story) -> bool {
    match known_of(alloc, story) {
        Some(known) => {
            is_known(rt, alloc, &known, story) && is_whole_at_each(alloc, &known, story)
        }
        None => false,
    }
}

#[test]
fn a_group_is_there_or_it_is_not(rt: HostRuntime) {
    assert!(rt; is_so(&rt, rt.alloc(), TWO_GROUPS));
}

#[test]
fn a_checkpoint_is_there_or_it_is_not(rt: HostRuntime) {
    assert!(rt; is_so(&rt, rt.alloc(), AFTER_A_GROUP));
}

#[test]
fn a_tail_reaches_the_next_number(rt: HostRuntime) {
    assert!(rt; is_so(&rt, rt.alloc(), BEYOND_THE_GROUPS));
}

#[test]
fn old_groups_are_not_read(rt: HostRuntime) {
    assert!(rt; is_so(&rt, rt.alloc(), OVER_OLD_GROUPS));
}

#[test]
fn a_checkpoint_changes_the_form(rt: HostRuntime) {
    assert!(rt; is_so(&rt, rt.alloc(), BEHIND_KEPT));
}

#[test]
fn a_checkpoint_that_stopped_is_made_anew(rt: HostRuntime) {
    assert!(rt; is_so(&rt, rt.alloc(), BEHIND_A_STOP));
}

#[test]
fn turns_are_outside_a_cut(rt: HostRuntime) {
    assert!(rt; is_so(&rt, rt.alloc(), WITH_TURNS));
}

/// Appends both groups, as far as they aren't there. Answers whether no other call failed, and both are there then.
fn goes_on(
    alloc: Global,
    known: &Known,
    story: &Story,
    next: u64,
    store: &mut Store<MemDisk>,
) -> bool {
    let is_first = next != 0 || append(store, LETTER).is_ok();
    is_first
        && append(store, MORE).is_ok()
        && store.disk.failures() == 1
        && is_at(alloc, known, story, store.disk.bytes(), 2)
}

/// Opens a device again, whose store is broken, and appends both groups there.
fn goes_on_behind(alloc: Global, known: &Known, story: &Story, disk: MemDisk) -> bool {
    match open_store(alloc, disk) {
        Ok((opened, mut store)) => goes_on(alloc, known, story, opened.next(), &mut store),
        Err(_) => false,
    }
}

/// Whether a store goes on once its device is opened again, if a call has failed and the device then works again.
fn is_mended(alloc: Global, known: &Known, story: &Story, case: Case) -> bool {
    match store_for(alloc, known, story, case) {
        Some(mut store) => {
            let taken = taken(alloc, known, story, &mut store);
            goes_on_behind(alloc, known, story, store.into_disk()) && taken == Some(0)
        }
        None => false,
    }
}

/// Whether that holds however a call fails.
fn is_mended_at(alloc: Global, known: &Known, story: &Story, call: usize) -> bool {
    for (ending, torn) in ENDINGS {
        let (ending, torn) = (*ending, *torn);
        let case = Case { call, ending, torn };
        if matches!(ending, Ending::Fails) && !is_mended(alloc, known, story, case) {
            return false;
        }
    }
    true
}

/// Whether that holds at each of the first step's calls.
fn is_mended_at_each(alloc: Global, story: &Story) -> bool {
    let Some(known) = known_of(alloc, story) else {
        return false;
    };
    for call in 0..4 {
        if !is_mended_at(alloc, &known, story, call) {
            return false;
        }
    }
    true
}

#[test]
fn a_broken_store_goes_on_once_it_is_opened(rt: HostRuntime) {
    assert!(rt; is_mended_at_each(rt.alloc(), TWO_GROUPS));
}
