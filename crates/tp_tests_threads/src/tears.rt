//! How a call of a device ends badly, and what is torn then.

use crate::unkind::{Ending, Fault, Torn};

/// How a call ends, and how the range that was written last and the others are torn then.
pub(crate) type Tear = (Ending, Torn, Torn);

/// The ends and tears that the gate tries.
pub(crate) const SOME: &[Tear] = &[
    (Ending::Within, Torn::Filled(0xA5), Torn::Filled(0xA5)),
    (Ending::Fails, Torn::Drawn(1), Torn::Drawn(1)),
    (Ending::Within, Torn::Old, Torn::Old),
    (Ending::Within, Torn::Filled(0x00), Torn::Filled(0x00)),
    (Ending::Within, Torn::Filled(0xFF), Torn::Filled(0xFF)),
];

/// All ends and tears.
pub(crate) const EACH: &[Tear] = &[
    (Ending::Before, Torn::Old, Torn::Old),
    (Ending::Before, Torn::New, Torn::New),
    (Ending::Before, Torn::Filled(0x00), Torn::Filled(0x00)),
    (Ending::Before, Torn::Filled(0xA5), Torn::Filled(0xA5)),
    (Ending::Before, Torn::Filled(0xFF), Torn::Filled(0xFF)),
    (Ending::Before, Torn::Drawn(2), Torn::Drawn(2)),
    (Ending::Within, Torn::Old, Torn::Old),
    (Ending::Within, Torn::New, Torn::New),
    (Ending::Within, Torn::Filled(0x00), Torn::Filled(0x00)),
    (Ending::Within, Torn::Filled(0xA5), Torn::Filled(0xA5)),
    (Ending::Within, Torn::Filled(0xFF), Torn::Filled(0xFF)),
    (Ending::Within, Torn::Drawn(3), Torn::Drawn(3)),
    (Ending::Fails, Torn::Old, Torn::Old),
    (Ending::Fails, Torn::New, Torn::New),
    (Ending::Fails, Torn::Filled(0x00), Torn::Filled(0x00)),
    (Ending::Fails, Torn::Filled(0xA5), Torn::Filled(0xA5)),
    (Ending::Fails, Torn::Filled(0xFF), Torn::Filled(0xFF)),
    (Ending::Fails, Torn::Drawn(4), Torn::Drawn(4)),
    (Ending::Before, Torn::New, Torn::Old),
    (Ending::Before, Torn::Old, Torn::New),
    (Ending::Within, Torn::New, Torn::Old),
    (Ending::Within, Torn::Old, Torn::New),
    (Ending::Within, Torn::Filled(0xA5), Torn::Old),
    (Ending::Fails, Torn::New, Torn::Old),
    (Ending::Fails, Torn::Old, Torn::New),
    (Ending::Fails, Torn::Filled(0xA5), Torn::Old),
];

/// The fault of a call.
pub(crate) fn fault_at(call: u64, tear: Tear) -> Fault {
    let (ending, last, others) = tear;
    Fault {
        call,
        ending,
        last,
        others,
    }
}

/// The case of that number: each call from `first` on ends in each way. None without ways.
pub(crate) fn fault_of(tears: &[Tear], first: u64, number: u64) -> Option<Fault> {
    let ways = tears.len() as u64;
    if ways == 0 {
        return None;
    }
    let tear = tears.get((number % ways) as usize)?;
    Some(fault_at(first.wrapping_add(number / ways), *tear))
}
