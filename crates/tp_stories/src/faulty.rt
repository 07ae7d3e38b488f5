//! Calls on files that fail, or move few bytes.

use std::fs::{Metadata, OpenFile, Permissions};
use std::io;
use std::io::{Read, Seek, SeekFrom, Write};
use std::os::unix::fs::FileExt;
use std::sync::atomic::{AtomicBool, AtomicU64, AtomicUsize, Ordering};

/// The system's number for a disk without room, by which a call fails.
const NO_SPACE: i32 = 28;

/// What becomes of the calls that a command makes. Those on files whose path ends with `device` count; or those on all files, and then also those
/// that open, link and remove a file and check what is at a path.
#[derive(Clone, Copy)]
pub(crate) struct Plan {
    /// How many calls that count are done before the one that fails.
    pub(crate) left: u64,
    /// Whether those after it are done.
    pub(crate) goes_on: bool,
    /// Whether calls on all files count.
    pub(crate) is_everywhere: bool,
    /// The most bytes of one read or write.
    pub(crate) most: usize,
    /// Whether each read is interrupted once.
    pub(crate) interrupts: bool,
    /// Whether nothing is seen at a path.
    pub(crate) is_blind: bool,
    /// Whether a device can't be opened to write it.
    pub(crate) only_reads: bool,
}

impl Plan {
    /// All calls are done.
    pub(crate) const NONE: Plan = Plan {
        left: u64::MAX,
        goes_on: true,
        is_everywhere: false,
        most: usize::MAX,
        interrupts: false,
        is_blind: false,
        only_reads: false,
    };
}

/// What becomes of the calls that the command makes which is played, and what it asked for.
#[derive(Drop)]
pub(crate) struct Faults {
    left: AtomicU64,
    goes_on: AtomicBool,
    is_everywhere: AtomicBool,
    most: AtomicUsize,
    interrupts: AtomicBool,
    was_interrupted: AtomicBool,
    is_blind: AtomicBool,
    only_reads: AtomicBool,
    has_failed: AtomicBool,
    writable: AtomicBool,
    synced: AtomicU64,
    named: AtomicU64,
}

impl Faults {
    /// All calls are done.
    pub(crate) fn none() -> Faults {
        Faults {
            left: AtomicU64::new(u64::MAX),
            goes_on: AtomicBool::new(true),
            is_everywhere: AtomicBool::new(false),
            most: AtomicUsize::new(usize::MAX),
            interrupts: AtomicBool::new(false),
            was_interrupted: AtomicBool::new(false),
            is_blind: AtomicBool::new(false),
            only_reads: AtomicBool::new(false),
            has_failed: AtomicBool::new(false),
            writable: AtomicBool::new(false),
            synced: AtomicU64::new(0),
            named: AtomicU64::new(0),
        }
    }

    /// Has the calls go as a plan says, and forgets what was asked for.
    pub(crate) fn begin(&self, plan: Plan) {
        self.left.store(plan.left, Ordering::SeqCst);
        self.goes_on.store(plan.goes_on, Ordering::SeqCst);
        self.is_everywhere
            .store(plan.is_everywhere, Ordering::SeqCst);
        self.most.store(plan.most, Ordering::SeqCst);
        self.interrupts.store(plan.interrupts, Ordering::SeqCst);
        self.was_interrupted.store(false, Ordering::SeqCst);
        self.is_blind.store(plan.is_blind, Ordering::SeqCst);
        self.only_reads.store(plan.only_reads, Ordering::SeqCst);
        self.has_failed.store(false, Ordering::SeqCst);
        self.writable.store(false, Ordering::SeqCst);
        self.synced.store(0, Ordering::SeqCst);
        self.named.store(0, Ordering::SeqCst);
    }

    /// Whether a call has failed.
    pub(crate) fn has_failed(&self) -> bool {
        self.has_failed.load(Ordering::SeqCst)
    }

    /// Whether a device was to be opened to write it.
    pub(crate) fn asked_write(&self) -> bool {
        self.writable.load(Ordering::SeqCst)
    }

    /// How many files that are no device, and folders, were synced.
    pub(crate) fn synced(&self) -> u64 {
        self.synced.load(Ordering::SeqCst)
    }

    /// How many names were made and removed since a folder was synced last.
    pub(crate) fn named(&self) -> u64 {
        self.named.load(Ordering::SeqCst)
    }

    /// Notes that a name was made or removed.
    pub(crate) fn note_name(&self) {
        self.named.fetch_add(1, Ordering::SeqCst);
    }

    /// Whether calls on all files count.
    pub(crate) fn is_everywhere(&self) -> bool {
        self.is_everywhere.load(Ordering::SeqCst)
    }

    /// Whether nothing is seen at a path.
    pub(crate) fn is_blind(&self) -> bool {
        self.is_blind.load(Ordering::SeqCst)
    }

    /// The most bytes of one read or write.
    fn most(&self) -> usize {
        self.most.load(Ordering::SeqCst)
    }

    /// Whether the next read isn't interrupted: each other one is, if reads are.
    fn pass_read(&self) -> io::Result<()> {
        let was_interrupted = self.was_interrupted.load(Ordering::SeqCst);
        if !self.interrupts.load(Ordering::SeqCst) || was_interrupted {
            self.was_interrupted.store(false, Ordering::SeqCst);
            return Ok(());
        }
        self.was_interrupted.store(true, Ordering::SeqCst);
        Err(io::Error::from(io::ErrorKind::Interrupted))
    }

    /// Notes that a device is to be opened to write it. Answers whether that may be.
    pub(crate) fn pass_write(&self) -> io::Result<()> {
        self.writable.store(true, Ordering::SeqCst);
        if self.only_reads.load(Ordering::SeqCst) {
            return Err(io::Error::from(io::ErrorKind::PermissionDenied));
        }
        Ok(())
    }

    /// Whether the next call on a path is done.
    pub(crate) fn pass_path(&self) -> io::Result<()> {
        self.pass(self.is_everywhere())
    }

    /// Whether the next call is done, which may be one that counts.
    fn pass(&self, counts: bool) -> io::Result<()> {
        if !counts {
            return Ok(());
        }
        let left = self.left.load(Ordering::SeqCst);
        if left > 0 {
            self.left.store(left - 1, Ordering::SeqCst);
            return Ok(());
        }
        if self.goes_on.load(Ordering::SeqCst) {
            self.left.store(u64::MAX, Ordering::SeqCst);
        }
        self.has_failed.store(true, Ordering::SeqCst);
        Err(io::Error::from_raw_os_error(NO_SPACE))
    }
}

/// A file, whose calls fail as they are to.
#[derive(Drop)]
pub(crate) struct FaultyFile<'a, F: Drop> {
    file: F,
    faults: &'a Faults,
    /// Whether its calls count.
    counts: bool,
    /// Whether it may be a folder, since it isn't opened to be written.
    is_read: bool,
}

impl<'a, F: Drop> FaultyFile<'a, F> {
    /// That file.
    pub(crate) fn new(
        file: F,
        faults: &'a Faults,
        counts: bool,
        is_read: bool,
    ) -> FaultyFile<'a, F> {
        FaultyFile {
            file,
            faults,
            counts,
            is_read,
        }
    }
}

impl<'a, F: Read + Drop> Read for FaultyFile<'a, F> {
    fn read(&mut self, buf: &mut [u8]) -> io::Result<usize> {
        self.faults.pass_read()?;
        self.file.read(buf)
    }
}

impl<'a, F: Write + Drop> Write for FaultyFile<'a, F> {
    fn write(&mut self, buf: &[u8]) -> io::Result<usize> {
        self.file.write(buf)
    }

    fn flush(&mut self) -> io::Result<()> {
        self.file.flush()
    }
}

impl<'a, F: Seek + Drop> Seek for FaultyFile<'a, F> {
    fn seek(&mut self, to: SeekFrom) -> io::Result<u64> {
        self.file.seek(to)
    }
}

impl<'a, F: FileExt + Drop> FileExt for FaultyFile<'a, F> {
    fn read_at(&self, buf: &mut [u8], offset: u64) -> io::Result<usize> {
        self.faults.pass_read()?;
        self.faults.pass(self.counts)?;
        let few = buf.len().min(self.faults.most());
        self.file.read_at(&mut buf[..few], offset)
    }

    /// A write that fails leaves half of its bytes.
    fn write_at(&self, buf: &[u8], offset: u64) -> io::Result<usize> {
        if let Err(error) = self.faults.pass(self.counts) {
            let _torn = self.file.write_at(&buf[..buf.len() / 2], offset);
            return Err(error);
        }
        let few = buf.len().min(self.faults.most());
        self.file.write_at(&buf[..few], offset)
    }
}

impl<'a, F: OpenFile + Drop> OpenFile for FaultyFile<'a, F> {
    fn metadata(&self) -> io::Result<Metadata> {
        self.faults.pass(self.counts)?;
        self.file.metadata()
    }

    fn set_len(&self, size: u64) -> io::Result<()> {
        self.faults.pass(self.counts)?;
        self.file.set_len(size)
    }

    fn sync_all(&self) -> io::Result<()> {
        self.faults.pass(self.counts)?;
        if !self.counts {
            self.faults.synced.fetch_add(1, Ordering::SeqCst);
        }
        if self.is_read {
            self.faults.named.store(0, Ordering::SeqCst);
        }
        self.file.sync_all()
    }

    fn sync_data(&self) -> io::Result<()> {
        self.faults.pass(self.counts)?;
        self.file.sync_data()
    }

    fn set_permissions(&self, perm: Permissions) -> io::Result<()> {
        self.faults.pass(self.counts)?;
        self.file.set_permissions(perm)
    }
}
