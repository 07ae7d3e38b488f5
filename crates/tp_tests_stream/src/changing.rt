//! A device that another process writes while it is read.

ghost use Rattle.tp_disk.specs.Noted.{file_reads, file_state};

use std::alloc::{AllocError, Global};
use tp_disk::{DeviceFailed, FileHistory, RawDisk};

/// Puts a piece into bytes at a place, in one call, and leaves out what would go past the end.
fn put(bytes: &mut [u8], at: usize, piece: &[u8]) {
    let start = at.min(bytes.len());
    let count = piece.len().min(bytes.len() - start);
    bytes[start..start + count].copy_from_slice(&piece[..count]);
}

/// Bytes that were written at a place.
#[derive(Drop)]
struct Written {
    at: usize,
    bytes: Vec<u8>,
}

/// When the writes come to pass: `count` of them before the call with the number `first`, and `count` more before each call that comes
/// `period` calls later.
#[derive(Clone, Copy)]
pub(crate) struct Pace {
    pub(crate) first: u64,
    pub(crate) period: u64,
    pub(crate) count: usize,
}

/// What a device in memory holds, which held bytes 00 at first, and the list of what was written to it. Once it is rewound, the writes come to
/// pass again while it is read.
#[derive(Drop)]
pub(crate) struct Changing {
    alloc: Global,
    bytes: Vec<u8>,
    /// What it held at first.
    zeros: Vec<u8>,
    writes: Vec<Written>,
    /// How many of the writes have come to pass.
    pub(crate) done: usize,
    pace: Option<Pace>,
    /// How many calls were made since it was rewound.
    pub(crate) calls: u64,
}

impl Changing {
    /// A device of `size` bytes to which nothing was written.
    pub(crate) fn new(alloc: Global, size: usize) -> Result<Changing, AllocError> {
        Ok(Changing {
            alloc,
            bytes: Vec::from_elem(alloc, 0u8, size)?,
            zeros: Vec::from_elem(alloc, 0u8, size)?,
            writes: Vec::new(alloc),
            done: 0,
            pace: None,
            calls: 0,
        })
    }

    /// How many writes there are.
    pub(crate) fn count(&self) -> usize {
        self.writes.len()
    }

    /// Goes back to where the first `done` writes had come to pass. The others come to pass at `pace`, if there is one.
    pub(crate) fn rewind(&mut self, done: usize, pace: Option<Pace>) {
        put(&mut self.bytes, 0, &self.zeros);
        self.done = 0;
        self.come_to_pass(done);
        self.pace = pace;
        self.calls = 0;
    }

    /// Some more writes come to pass.
    fn come_to_pass(&mut self, count: usize) {
        let Changing {
            bytes,
            writes,
            done,
            ..
        } = self;
        for written in writes.iter().skip(*done).take(count) {
            put(bytes, written.at, &written.bytes);
            *done = done.saturating_add(1);
        }
    }

    /// Counts a call. The writes that come before it come to pass.
    fn begin(&mut self) {
        let call = self.calls;
        self.calls = call.saturating_add(1);
        if let Some(pace) = self.pace {
            if pace.first == call {
                self.pace = Some(Pace {
                    first: call.saturating_add(pace.period),
                    ..pace
                });
                self.come_to_pass(pace.count);
            }
        }
    }

    /// Writes bytes, and keeps them.
    pub(crate) fn write(&mut self, at: u64, bytes: &[u8]) -> Result<(), AllocError> {
        let (at, bytes) = (at as usize, Vec::from_slice(self.alloc, bytes)?);
        put(&mut self.bytes, at, &bytes);
        self.writes.push(Written { at, bytes })?;
        self.done = self.writes.len();
        Ok(())
    }

    /// Reads what it holds from a place on, after the writes that come to pass before this call.
    fn read(&mut self, at: u64, out: &mut [u8]) {
        self.begin();
        let start = (at as usize).min(self.bytes.len());
        put(out, 0, &self.bytes[start..]);
    }

    /// The device.
    pub(crate) fn disk(&mut self) -> RawChanging<'_> {
        RawChanging {
            noted: FileHistory::of_zeros(self.bytes.len() as u64),
            changing: self,
        }
    }
}

/// A device over that, which is lent it.
#[derive(Drop)]
pub(crate) struct RawChanging<'a> {
    noted: FileHistory,
    changing: &'a mut Changing,
}

impl<'a> RawDisk for RawChanging<'a> {
    ghost size_of = { λ d. d.noted.size };

    ghost state = { λ d. file_state d.noted };

    ghost reads = { λ d. file_reads d.noted };

    fn size(&self) -> u64 {
        self.noted.size()
    }

    fn read(&mut self, at: u64, out: &mut [u8]) -> Result<(), DeviceFailed> {
        self.changing.read(at, out);
        let ended = Ok(());
        self.noted.has_read(at, out, ended)
    }

    fn write_at(&mut self, at: u64, bytes: &[u8]) -> Result<(), DeviceFailed> {
        let ended = self.changing.write(at, bytes).map_err(|_| DeviceFailed);
        self.noted.has_written(at, bytes, ended)
    }

    fn sync(&mut self) -> Result<(), DeviceFailed> {
        self.changing.begin();
        let ended = Ok(());
        self.noted.has_synced(ended)
    }

    ghost whole = { λ d. d.noted.whole };
}
