//! A device in memory that is as unkind as the disk model allows.

ghost use Rattle.std.specs.Prelude.{◌≡◌};
ghost use Rattle.tp_disk.specs.Noted.{file_reads, file_state};

use std::alloc::{AllocError, Global};
use tp_disk::{Counted, DeviceFailed, FileHistory, RawDisk};
use tp_tests_fixtures::place;

/// What then is in a range that isn't synced: what was there at the last sync that was done, what was written last, one byte everywhere, or for each
/// byte one of them, drawn.
#[derive(Clone, Copy)]
pub(crate) enum Torn {
    Old,
    New,
    Filled(u8),
    Drawn(u32),
}

impl Torn {
    /// The byte that is at a place.
    fn byte(self, place: usize, old: u8, new: u8) -> u8 {
        match self {
            Torn::Old => old,
            Torn::New => new,
            Torn::Filled(byte) => byte,
            Torn::Drawn(seed) => {
                let mixed = (place as u64 ^ u64::from(seed)).wrapping_mul(0x9E37_79B9_7F4A_7C15);
                match (mixed >> 32) % 5 {
                    0 => old,
                    1 => new,
                    2 => 0x00,
                    3 => 0xA5,
                    _ => (mixed >> 56) as u8,
                }
            }
        }
    }
}

/// How a call ends: the run stops before it, or within it; or it fails and later calls are made.
#[derive(Clone, Copy)]
pub(crate) enum Ending {
    Before,
    Within,
    Fails,
}

/// The call of a number ends so. If it ends badly, the range that was written last is torn in one way, and all others that aren't
/// synced in another.
#[derive(Clone, Copy)]
pub(crate) struct Fault {
    pub(crate) call: u64,
    pub(crate) ending: Ending,
    pub(crate) last: Torn,
    pub(crate) others: Torn,
}

/// What a call comes to.
enum Came {
    Done,
    Refused,
    Ends(Fault),
}

/// A device in memory that doesn't count its failures. When a call ends badly, each range that isn't synced is torn, if a read gives
/// it too, and no sync makes it good.
#[derive(Drop)]
pub(crate) struct RawUnkind {
    /// How many bytes it has, and its calls.
    noted: FileHistory,
    /// The bytes as a read gives them.
    bytes: Vec<u8>,
    /// What was at the last sync that was done.
    synced: Vec<u8>,
    /// The first place and the length of each range that was written since.
    ranges: Vec<(usize, usize)>,
    /// How many calls were made.
    calls: u64,
    fault: Option<Fault>,
    stopped: bool,
}

/// An unkind device that counts its failures.
pub(crate) type Unkind = Counted<RawUnkind>;

/// How many ranges that aren't synced it has room for from the beginning.
const RANGES: usize = 256;

/// Tears a range.
fn tear_range(bytes: &mut [u8], synced: &[u8], range: (usize, usize), torn: Torn) {
    let start = range.0.min(bytes.len()).min(synced.len());
    let pairs = bytes[start..].iter_mut().zip(&synced[start..]);
    for (place, (byte, old)) in pairs.enumerate().take(range.1) {
        *byte = torn.byte(place.wrapping_add(start), *old, *byte);
    }
}

/// Puts a piece over bytes.
fn put(bytes: &mut [u8], at: usize, piece: &[u8]) {
    let start = at.min(bytes.len());
    place(&mut bytes[start..], 0, piece);
}

/// Puts the bytes of a range over others.
fn put_range(synced: &mut [u8], bytes: &[u8], range: (usize, usize)) {
    let start = range.0.min(bytes.len());
    let rest = &bytes[start..];
    put(synced, start, &rest[..range.1.min(rest.len())]);
}

impl RawUnkind {
    /// A device with `bytes`, if a call may end badly.
    pub(crate) fn new(
        alloc: Global,
        bytes: &[u8],
        fault: Option<Fault>,
    ) -> Result<Unkind, AllocError> {
        Ok(Counted::new(RawUnkind {
            noted: FileHistory::of_zeros(bytes.len() as u64),
            bytes: Vec::from_slice(alloc, bytes)?,
            synced: Vec::from_slice(alloc, bytes)?,
            ranges: Vec::with_capacity(alloc, RANGES)?,
            calls: 0,
            fault,
            stopped: false,
        }))
    }

    /// What a crash leaves.
    pub(crate) fn bytes(&self) -> &[u8] {
        &self.bytes
    }

    /// What a crash leaves, and how many calls were made.
    pub(crate) fn into_left(self) -> (Vec<u8>, u64) {
        let RawUnkind { bytes, calls, .. } = self;
        (bytes, calls)
    }

    /// Counts a call, and says what it comes to.
    fn begin(&mut self) -> Came
        ensures { self.new.noted ≡ self.old.noted }
    {
        let call = self.calls;
        self.calls = call.saturating_add(1);
        if self.stopped {
            return Came::Refused;
        }
        match self.fault {
            Some(fault) if fault.call == call => self.come_to(fault),
            _ => Came::Done,
        }
    }

    /// What the call of a fault comes to.
    fn come_to(&mut self, fault: Fault) -> Came
        ensures { self.new.noted ≡ self.old.noted }
    {
        match fault.ending {
            Ending::Fails => {}
            Ending::Before | Ending::Within => self.stopped = true,
        }
        Came::Ends(fault)
    }

    /// Tears all that isn't synced.
    fn tear(&mut self, fault: Fault)
        ensures { self.new.noted ≡ self.old.noted }
    {
        let RawUnkind {
            bytes,
            synced,
            ranges,
            ..
        } = self;
        let count = ranges.len();
        for (i, range) in ranges.iter().enumerate() {
            let is_last = i.wrapping_add(1) == count;
            let torn = if is_last { fault.last } else { fault.others };
            tear_range(bytes, synced, *range, torn);
        }
    }

    /// Writes bytes, which aren't synced then.
    fn write(&mut self, at: u64, bytes: &[u8]) -> Result<(), DeviceFailed>
        ensures { self.new.noted ≡ self.old.noted }
    {
        let at = at as usize;
        if self.ranges.push((at, bytes.len())).is_err() {
            return Err(DeviceFailed);
        }
        put(&mut self.bytes, at, bytes);
        Ok(())
    }

    /// A call that ends badly, once a write has begun.
    fn end(&mut self, fault: Fault) -> Result<(), DeviceFailed>
        ensures { self.new.noted ≡ self.old.noted }
    {
        self.tear(fault);
        Err(DeviceFailed)
    }

    /// What is now is synced.
    fn settle(&mut self)
        ensures { self.new.noted ≡ self.old.noted }
    {
        let RawUnkind {
            bytes,
            synced,
            ranges,
            ..
        } = self;
        for range in ranges.iter() {
            put_range(synced, bytes, *range);
        }
        ranges.clear();
    }

    /// Reads from `at` on.
    fn give(&mut self, at: u64, out: &mut [u8]) -> Result<(), DeviceFailed>
        ensures { self.new.noted ≡ self.old.noted }
    {
        match self.begin() {
            Came::Done => {
                let start = (at as usize).min(self.bytes.len());
                place(out, 0, &self.bytes[start..]);
                Ok(())
            }
            Came::Refused => Err(DeviceFailed),
            Came::Ends(fault) => self.end(fault),
        }
    }

    /// Writes from `at` on.
    fn take(&mut self, at: u64, bytes: &[u8]) -> Result<(), DeviceFailed>
        ensures { self.new.noted ≡ self.old.noted }
    {
        match self.begin() {
            Came::Done => self.write(at, bytes),
            Came::Refused => Err(DeviceFailed),
            Came::Ends(fault) => {
                if !matches!(fault.ending, Ending::Before) {
                    let _written = self.write(at, bytes);
                }
                self.end(fault)
            }
        }
    }

    /// Syncs.
    fn force(&mut self) -> Result<(), DeviceFailed>
        ensures { self.new.noted ≡ self.old.noted }
    {
        match self.begin() {
            Came::Done => {
                self.settle();
                Ok(())
            }
            Came::Refused => Err(DeviceFailed),
            Came::Ends(fault) => self.end(fault),
        }
    }
}

impl RawDisk for RawUnkind {
    ghost size_of = { λ d. d.noted.size };

    ghost state = { λ d. file_state d.noted };

    ghost reads = { λ d. file_reads d.noted };

    fn size(&self) -> u64 {
        self.noted.size()
    }

    fn read(&mut self, at: u64, out: &mut [u8]) -> Result<(), DeviceFailed> {
        let ended = self.give(at, out);
        self.noted.has_read(at, out, ended)
    }

    fn write_at(&mut self, at: u64, bytes: &[u8]) -> Result<(), DeviceFailed> {
        let ended = self.take(at, bytes);
        self.noted.has_written(at, bytes, ended)
    }

    fn sync(&mut self) -> Result<(), DeviceFailed> {
        let ended = self.force();
        self.noted.has_synced(ended)
    }

    ghost whole = { λ d. d.noted.whole };
}
