//! How a call of a device ends, and what then is in the range of a write that isn't synced.

use tp_disk::PlannedFault;

/// What is in that range: one byte everywhere, what was there, or what was written.
#[derive(Clone, Copy)]
pub(crate) enum Torn {
    Filled(u8),
    Old,
    New,
}

/// How a call of the device ends: the run stops before it, or within it, or the call fails.
#[derive(Clone, Copy)]
pub(crate) enum Ending {
    Before,
    Within,
    Fails,
}

/// Each ending, with what is torn: if the run stops before a call, what was written last is.
pub(crate) const ENDINGS: &[(Ending, Torn)] = &[
    (Ending::Before, Torn::New),
    (Ending::Within, Torn::Filled(0x00)),
    (Ending::Within, Torn::Filled(0xA5)),
    (Ending::Within, Torn::Filled(0x5A)),
    (Ending::Within, Torn::Filled(0xFF)),
    (Ending::Within, Torn::Old),
    (Ending::Within, Torn::New),
    (Ending::Fails, Torn::Filled(0x00)),
    (Ending::Fails, Torn::Filled(0xA5)),
    (Ending::Fails, Torn::Filled(0x5A)),
    (Ending::Fails, Torn::Filled(0xFF)),
    (Ending::Fails, Torn::Old),
    (Ending::Fails, Torn::New),
];

/// A call of the device that ends so.
#[derive(Clone, Copy)]
pub(crate) struct Case {
    pub(crate) call: usize,
    pub(crate) ending: Ending,
    pub(crate) torn: Torn,
}

impl Ending {
    /// The fault of the call, if `torn` is what a write leaves.
    pub(crate) fn fault(self, torn: Vec<u8>) -> PlannedFault {
        match self {
            Ending::Before => PlannedFault::StopsBefore,
            Ending::Within => PlannedFault::StopsWithin { torn },
            Ending::Fails => PlannedFault::Fails { torn },
        }
    }
}

impl Case {
    /// Whether the gate is open then that call `gate` writes, once it was reached.
    pub(crate) fn opens(self, gate: usize) -> bool {
        let from = match self.ending {
            Ending::Before => gate.saturating_add(1),
            Ending::Within | Ending::Fails => gate,
        };
        self.call >= from && matches!(self.torn, Torn::Filled(0xA5) | Torn::New)
    }
}
