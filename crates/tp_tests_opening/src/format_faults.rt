//! Formatting a device whose calls fail, or on which the run stops: what the device then opens as.

use crate::apart::{has_next, is_fault};
use crate::devices::{
    CALLS_OF_FORMAT, LETTER, Letter, formatted, fresh, grown_by, leads_from, left, opened_of,
};
use crate::faults::Ending;
use crate::wide::{LEAST, SEVENTEEN};
use std::alloc::Global;
use tp_disk::{MemDisk, PlannedFault};
use tp_model::OpenFault;
use tp_tests_fixtures::{AREA, ONE_NODE, SIZE, place};

/// What is formatted: its network, the bytes of its head, of its device and of an area; how many calls that makes; what the device says once it has
/// all but the head and a few bytes of the head, which was zeros; and up to where it isn't zeros.
struct Made {
    text: &'static [u8],
    nodes: usize,
    head: usize,
    size: usize,
    area: u64,
    calls: u64,
    says: &'static [(usize, Result<u64, OpenFault>)],
    whole: usize,
}

/// The first five bytes are a name, which two zeros and the version follow. From the low byte of the page count on it is a head, at first
/// of a network whose wire isn't written.
const ONE: &Made = &Made {
    text: ONE_NODE,
    nodes: 1,
    head: 512,
    size: SIZE,
    area: AREA,
    calls: CALLS_OF_FORMAT,
    says: &[
        (5, Err(OpenFault::NotFormatted)),
        (8, Err(OpenFault::BadVersion)),
        (25, Err(OpenFault::Damaged(0))),
    ],
    whole: 57,
};

/// From the last page count on it is a head, up to the first link, which is wired to the last one. Once both say so it is a head again.
const WIDE: &Made = &Made {
    text: SEVENTEEN,
    nodes: 17,
    head: 1_024,
    size: 176_468,
    area: LEAST,
    calls: CALLS_OF_FORMAT + 16,
    says: &[
        (5, Err(OpenFault::NotFormatted)),
        (8, Err(OpenFault::BadVersion)),
        (57, Err(OpenFault::Damaged(0))),
        (153, Ok(0)),
        (287, Err(OpenFault::Damaged(0))),
    ],
    whole: 287,
};

/// Each way in which a call ends, with the byte that is then everywhere in what isn't synced.
const WAYS: &[(Ending, u8)] = &[
    (Ending::Before, 0x00),
    (Ending::Before, 0xA5),
    (Ending::Before, 0xFF),
    (Ending::Within, 0x00),
    (Ending::Within, 0xA5),
    (Ending::Within, 0xFF),
    (Ending::Fails, 0x00),
    (Ending::Fails, 0xA5),
    (Ending::Fails, 0xFF),
];

/// Whether a device has this number of the next entry, or doesn't open for this fault.
fn opens_as(alloc: Global, bytes: &[u8], says: Result<u64, OpenFault>) -> bool {
    match opened_of(alloc, bytes) {
        Ok(opened) => has_next(&opened, says),
        Err(found) => is_fault(found, says),
    }
}

/// What such a device says.
const NONE: Result<u64, OpenFault> = Err(OpenFault::NotFormatted);

impl Made {
    /// The device once it is formatted.
    fn device(&self, alloc: Global) -> Option<Vec<u8>> {
        formatted(alloc, self.text, self.nodes, self.head, self.area)
    }

    /// Whether formatting a device ends well; none if its network can't be made.
    fn formats(&self, alloc: Global, disk: &mut MemDisk) -> Option<bool> {
        match Letter::of(alloc, self.text, self.nodes) {
            Some(network) => Some(network.format(alloc, disk, self.area).is_ok()),
            None => None,
        }
    }

    /// What a format leaves whose call number `call` has a fault, so that it isn't done.
    fn stopped(&self, alloc: Global, call: u64, fault: PlannedFault) -> Option<Vec<u8>> {
        let Ok(disk) = MemDisk::zeroed(alloc, self.size) else {
            return None;
        };
        let mut disk = disk.with_fault(call, fault);
        let is_stopped = self.formats(alloc, &mut disk) == Some(false);
        left(disk, is_stopped)
    }

    /// Whether a format that ends in this call leaves a device that isn't formatted. If the call is the last, its head, which is whole, is torn to
    /// `byte`; so it is if the front of each area is `byte`.
    fn says_none(
        &self,
        alloc: Global,
        call: u64,
        bytes: &mut [u8],
        byte: u8,
        whole: &[u8],
    ) -> bool {
        if call.saturating_add(1) == self.calls {
            if &*bytes != whole {
                return false;
            }
            place(bytes, 0, &[byte; 512]);
        }
        let is_none = opens_as(alloc, bytes, NONE);
        place(bytes, self.head, &[byte; 64]);
        let second = self.head.saturating_add(self.area.min(100_000) as usize);
        place(bytes, second, &[byte; 64]);
        is_none && opens_as(alloc, bytes, NONE)
    }

    /// Whether a format isn't done, and the device isn't formatted, if a call ends so and what is torn there is `byte`.
    fn is_none(&self, alloc: Global, call: u64, way: (Ending, u8), whole: &[u8]) -> bool {
        let Ok(torn) = Vec::from_elem(alloc, way.1, 4268) else {
            return false;
        };
        match self.stopped(alloc, call, way.0.fault(torn)) {
            Some(mut bytes) => self.says_none(alloc, call, &mut bytes, way.1, whole),
            None => false,
        }
    }

    /// Whether the device isn't formatted however a call ends.
    fn is_none_however(&self, alloc: Global, call: u64, whole: &[u8]) -> bool {
        for way in WAYS {
            if !self.is_none(alloc, call, *way, whole) {
                return false;
            }
        }
        true
    }

    /// What a device of zeros says once all but the head is written, and `written` bytes of the head.
    fn says_at(&self, written: usize) -> Result<u64, OpenFault> {
        for (below, answer) in self.says {
            if written < *below {
                return *answer;
            }
        }
        Ok(0)
    }

    /// Whether a format that stops once `count` bytes of its head are written isn't done, and the device says what they do.
    fn says_so(&self, alloc: Global, whole: &[u8], count: usize) -> bool {
        let Ok(torn) = Vec::from_slice(alloc, whole.get(..count).unwrap_or(&[])) else {
            return false;
        };
        let head = self.calls.saturating_sub(2);
        match self.stopped(alloc, head, PlannedFault::StopsWithin { torn }) {
            Some(bytes) => {
                let is_whole = bytes.as_slice() == whole;
                is_whole == (count >= self.whole) && opens_as(alloc, &bytes, self.says_at(count))
            }
            None => false,
        }
    }
}

impl Made {
    /// Whether the device isn't formatted whichever of its calls ends, however it does.
    fn is_none_at_each(&self, alloc: Global, whole: &[u8]) -> bool {
        for call in 0..self.calls {
            if !self.is_none_however(alloc, call, whole) {
                return false;
            }
        }
        true
    }

    /// Whether the device says what of its head is written, however much that is.
    fn says_each(&self, alloc: Global, whole: &[u8]) -> bool {
        for count in 0..self.whole.saturating_add(10) {
            if !self.says_so(alloc, whole, count) {
                return false;
            }
        }
        true
    }

    /// Whether no format of it that stops in a call is done, and none says anything.
    fn stops(&self, alloc: Global) -> bool {
        match self.device(alloc) {
            Some(whole) => self.is_none_at_each(alloc, &whole),
            None => false,
        }
    }

    /// Whether one that stops within its head's write says what of that is written.
    fn stops_in_its_head(&self, alloc: Global) -> bool {
        match self.device(alloc) {
            Some(whole) => self.says_each(alloc, &whole),
            None => false,
        }
    }
}

/// Whatever is in the areas, the device isn't formatted before its head is written. If the run stops within the head's write, what of it is written
/// says what the device is. Written whole, it is formatted; the format isn't done either way. If the last sync fails or isn't reached, the format
/// isn't done, and the head may be torn.
#[test]
fn a_format_that_stops(rt: HostRuntime) {
    assert!(rt; ONE.stops(rt.alloc()) && ONE.stops_in_its_head(rt.alloc()));
}

#[test]
fn a_wide_format_that_stops(rt: HostRuntime) {
    assert!(rt; WIDE.stops(rt.alloc()));
}

#[test]
fn a_wide_format_that_stops_in_its_head(rt: HostRuntime) {
    assert!(rt; WIDE.stops_in_its_head(rt.alloc()));
}

/// What a device has that is formatted over `before`.
fn formatted_over(alloc: Global, before: Vec<u8>) -> Option<Vec<u8>> {
    let Some(network) = Letter::of(alloc, ONE_NODE, 1) else {
        return None;
    };
    let mut disk = MemDisk::of_bytes(before);
    let is_done = network.format(alloc, &mut disk, AREA).is_ok();
    left(disk, is_done)
}

/// Whether a device holds what `first` does, and so it does with a group.
fn is_like(alloc: Global, bytes: &[u8], first: &[u8]) -> bool {
    match grown_by(alloc, bytes, LETTER) {
        Some(grown) => {
            leads_from(alloc, bytes, 0, first, b"") && leads_from(alloc, &grown, 4, first, LETTER)
        }
        None => false,
    }
}

/// What was on the device before: a device with a group, opened gates, or ones.
fn before(alloc: Global, first: &[u8], byte: u8) -> Option<Vec<u8>> {
    if byte == 0 {
        return grown_by(alloc, first, LETTER);
    }
    match Vec::from_elem(alloc, byte, SIZE) {
        Ok(bytes) => Some(bytes),
        Err(_) => None,
    }
}

/// Whether a device that is formatted over such bytes is like one that is formatted over zeros.
fn is_like_over(alloc: Global, byte: u8) -> bool {
    let Some(first) = fresh(alloc, AREA) else {
        return false;
    };
    let Some(before) = before(alloc, &first, byte) else {
        return false;
    };
    match formatted_over(alloc, before) {
        Some(bytes) => is_like(alloc, &bytes, &first),
        None => false,
    }
}

/// What was on the device before makes no difference to what it then holds, nor to a group that is appended.
#[test]
fn a_format_over_other_bytes(rt: HostRuntime) {
    for byte in [0, 0xA5, 0xFF] {
        assert!(rt; is_like_over(rt.alloc(), byte), "byte {byte}");
    }
}
