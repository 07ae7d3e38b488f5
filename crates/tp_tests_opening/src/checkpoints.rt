//! Groups and checkpoints: what is done with a device before them, what is put, and what opening then says.

use tp_model::{Form, Token};
use tp_tests_fixtures::{GROUPS, SECOND};

/// A whole cut: the entries in it, and the token that is on a line then; and the entries outside it with their numbers.
#[derive(Clone, Copy)]
pub(crate) struct Cut {
    pub(crate) entries: &'static [u8],
    pub(crate) token: Option<(usize, Token)>,
    pub(crate) tail: &'static [(u8, u64)],
}

/// What is done with a device: a group, a group for each entry, or a checkpoint.
#[derive(Clone, Copy)]
pub(crate) enum Step {
    Group(&'static [u8]),
    Each(&'static [u8]),
    Switch(Cut),
}

/// What opening says: whether the second area is open, its generation, how many entries its cut holds and how many are
/// after it, the next number, and the area's form.
pub(crate) type Look = (bool, u64, u64, usize, u64, Form);

/// A call of the device: the bytes that it writes or syncs, as their place and length, and whether it is a sync. A read has none.
pub(crate) type Put = (usize, usize, bool);

/// The calls of a device by which a step goes on: how many there are, all of them, how many after the first that list leaves out, and where the
/// closed gate after a checkpoint's tail is.
#[derive(Clone, Copy)]
pub(crate) struct Calls {
    pub(crate) each: usize,
    pub(crate) all: &'static [Put],
    pub(crate) skipped: usize,
    pub(crate) behind: usize,
}

/// The device that it begins with, by its number if it was kept, else formatted; and the steps before those whose calls have faults. These steps, and
/// their calls. What there is before each of them and after the last: all entries in the order in which they were made, what opening says, and the
/// port's outputs. Bytes of the device after the last.
pub(crate) struct Story {
    pub(crate) first: Option<usize>,
    pub(crate) before: &'static [Step],
    pub(crate) steps: &'static [Step],
    pub(crate) calls: Calls,
    pub(crate) stages: &'static [Stage],
    pub(crate) bytes: &'static [(usize, u8)],
}

pub(crate) struct Stage {
    pub(crate) made: &'static [u8],
    pub(crate) look: Look,
    pub(crate) outputs: &'static [u8],
}

/// What is in the list of calls for the closed gate after the tail.
const BEHIND: usize = usize::MAX;

/// Two groups: each one's body is written, a sync, its gate is written, a sync.
pub(crate) const WRITES: &[Put] = &[
    (GROUPS + 1, 80, false),
    (GROUPS + 1, 80, true),
    (GROUPS, 1, false),
    (GROUPS, 1, true),
    (GROUPS + 81, 48, false),
    (GROUPS + 81, 48, true),
    (GROUPS + 80, 1, false),
    (GROUPS + 80, 1, true),
];

/// The calls of a checkpoint. The other area's gate is read and, if it is open, closed and synced. After these, from that gate on: the node's head
/// and its pages; the fields, the records of lines and of the port, the group and the closed gate; a sync of what is after the gate; the gate, and a
/// sync of it.
pub(crate) const PUTS: &[Put] = &[
    (0, 0, false),
    (SECOND, 1, false),
    (SECOND, 1, true),
    (SECOND + 21, 172, false),
    (SECOND + 193, 1_024, false),
    (SECOND + 1_217, 1_024, false),
    (SECOND + 2_241, 1_024, false),
    (SECOND + 3_265, 1_024, false),
    (SECOND + 1, 20, false),
    (SECOND + 4_289, 20, false),
    (SECOND + 4_309, 8_212, false),
    (SECOND + 12_521, 96, false),
    (BEHIND, 1, false),
    (SECOND + 1, 16_383, true),
    (SECOND, 1, false),
    (SECOND, 1, true),
];

impl Calls {
    /// The step that a call belongs to.
    pub(crate) fn stage(self, call: usize) -> usize {
        call / self.each.max(1)
    }

    /// The call of a step that writes the gate: a sync follows it.
    pub(crate) fn gate(self, stage: usize) -> usize {
        let next = stage.saturating_add(1).saturating_mul(self.each);
        next.saturating_sub(2)
    }

    /// What a call writes or syncs. What is no call writes nothing.
    pub(crate) fn put(self, call: usize) -> Put {
        let skipped = if call == 0 { 0 } else { self.skipped };
        let at = call.saturating_add(skipped);
        let (place, len, is_sync) = self.all.get(at).copied().unwrap_or((0, 0, false));
        if place == BEHIND {
            (self.behind, len, is_sync)
        } else {
            (place, len, is_sync)
        }
    }
}
