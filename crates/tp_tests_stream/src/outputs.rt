//! Outputs whose file fails, or has more than what is put.

use crate::files::{FakeFile, FakeFiles, Left, Lent};
use std::alloc::Global;
use std::io;
use std::io::{ErrorKind, Write};
use std::test::Fail;
use tp_stream_files::{AnySink, EndFile, FileSink, PutAt, Sink, SinkFault};

/// What came of an output: how many bytes the sink counts, or `None` if the file wasn't opened; how the last call went; and how many times a folder
/// was synced.
#[derive(Clone, Copy, PartialEq, Eq)]
struct Came {
    size: Option<u64>,
    last: Result<(), SinkFault>,
    folders: u32,
}

/// Puts bytes one by one after `at`, and makes each safe.
fn put_each<F: EndFile + Drop>(
    sink: &mut FileSink<F>,
    at: u64,
    bytes: &[u8],
) -> Result<(), SinkFault> {
    for (number, byte) in bytes.iter().enumerate() {
        sink.put(at.saturating_add(number as u64), &[*byte])?;
        sink.settle()?;
    }
    Ok(())
}

/// Opens a file as an output's, and puts bytes one by one after `at`.
fn come_of(file: &mut FakeFile, folder: Left, at: u64, bytes: &[u8]) -> Came {
    let mut files = FakeFiles::new(file, folder);
    match FileSink::open_in(&mut files, "folder/out") {
        Ok(mut sink) => {
            let last = put_each(&mut sink, at, bytes);
            Came {
                size: Some(sink.size()),
                last,
                folders: files.folders,
            }
        }
        Err(_) => Came {
            size: None,
            last: Err(SinkFault::Failed),
            folders: files.folders,
        },
    }
}

/// A file, how its calls fail, how folders' syncs fail, and the position at which three bytes are put; and what comes of it.
struct Case {
    bytes: &'static [u8],
    writes: Left,
    syncs: Left,
    folder: Left,
    at: u64,
    came: Came,
    /// What the file has then, and how many bytes of it when it was last synced.
    then: &'static [u8],
    synced: usize,
}

/// No call fails.
const NONE: Left = Left(None);

/// Three bytes are put, and each is safe.
const ALL: Came = Came {
    size: Some(3),
    last: Ok(()),
    folders: 1,
};

/// An empty file takes three bytes.
const EMPTY: Case = Case {
    bytes: b"",
    writes: NONE,
    syncs: NONE,
    folder: NONE,
    at: 0,
    came: ALL,
    then: b"abc",
    synced: 3,
};

/// A file that has bytes: those that aren't put over stay, and no folder is synced.
const LONG: Case = Case {
    bytes: b"0123456789",
    at: 3,
    came: Came {
        size: Some(10),
        last: Ok(()),
        folders: 0,
    },
    then: b"012abc6789",
    synced: 10,
    ..EMPTY
};

/// The second write fails: one byte counts.
const WRITE_FAILS: Case = Case {
    writes: Left(Some(1)),
    came: Came {
        size: Some(1),
        last: Err(SinkFault::Failed),
        folders: 1,
    },
    then: b"a",
    synced: 1,
    ..EMPTY
};

/// The third sync fails, which is that of the second byte.
const SYNC_FAILS: Case = Case {
    syncs: Left(Some(2)),
    came: Came {
        size: Some(2),
        last: Err(SinkFault::Failed),
        folders: 1,
    },
    then: b"ab",
    synced: 1,
    ..EMPTY
};

/// The first sync fails: the file isn't opened.
const OPENING_FAILS: Case = Case {
    syncs: Left(Some(0)),
    came: Came {
        size: None,
        last: Err(SinkFault::Failed),
        folders: 0,
    },
    then: b"",
    synced: 0,
    ..EMPTY
};

/// The sync of the folder fails: the file isn't opened.
const FOLDER_FAILS: Case = Case {
    folder: Left(Some(0)),
    came: Came {
        size: None,
        last: Err(SinkFault::Failed),
        folders: 1,
    },
    then: b"",
    synced: 0,
    ..EMPTY
};

/// The sync of a folder would fail, and isn't asked for if the file has bytes.
const NO_FOLDER: Case = Case {
    folder: Left(Some(0)),
    ..LONG
};

const CASES: &[Case] = &[
    EMPTY,
    LONG,
    WRITE_FAILS,
    SYNC_FAILS,
    OPENING_FAILS,
    FOLDER_FAILS,
    NO_FOLDER,
];

/// Whether a case comes out as it says.
fn comes_out(alloc: Global, case: &Case) -> Result<bool, Fail> {
    let mut bytes = Vec::new(alloc);
    bytes.extend_from_slice(case.bytes)?;
    let mut file = FakeFile {
        writes: case.writes,
        syncs: case.syncs,
        ..FakeFile::new(bytes)
    };
    let came = come_of(&mut file, case.folder, case.at, b"abc");
    Ok(came == case.came && file.bytes.as_slice() == case.then && file.synced == case.synced)
}

/// A failed call is told and never counted, and no byte is lost that isn't put over.
#[test]
fn a_file_that_fails_is_told(rt: HostRuntime) -> Result<(), Fail> {
    for (number, case) in CASES.iter().enumerate() {
        assert!(rt; comes_out(rt.alloc(), case)?, "case {number}");
    }
    Ok(())
}

/// As many writes of one byte as a port may hold.
#[test]
fn a_file_takes_each_byte_by_itself(rt: HostRuntime) -> Result<(), Fail> {
    let mut wanted = Vec::new(rt.alloc());
    for number in 0..4_096u32 {
        wanted.push((number % 251) as u8)?;
    }
    let mut file = FakeFile::new(Vec::new(rt.alloc()));
    let came = come_of(&mut file, NONE, 0, wanted.as_slice());
    assert!(rt; came.size == Some(4_096) && came.last == Ok(()) && file.synced == 4_096);
    assert!(rt; file.bytes.as_slice() == wanted.as_slice());
    Ok(())
}

/// A writer that hands on what it took as it is flushed, three bytes at most at a time; how each flush fails, and each write once that many bytes are
/// there.
#[derive(Drop)]
struct Buffered {
    taken: Vec<u8>,
    flushed: usize,
    flush_fails: Option<ErrorKind>,
    room: usize,
    write_fails: ErrorKind,
}

impl Buffered {
    /// All that comes is taken.
    fn new(alloc: Global) -> Buffered {
        Buffered {
            taken: Vec::new(alloc),
            flushed: 0,
            flush_fails: None,
            room: usize::MAX,
            write_fails: ErrorKind::StorageFull,
        }
    }
}

impl Write for Buffered {
    fn write(&mut self, buf: &[u8]) -> io::Result<usize> {
        if self.taken.len() >= self.room {
            return Err(io::Error::from(self.write_fails));
        }
        let count = buf.len().min(3).min(self.room - self.taken.len());
        self.taken.extend_from_slice(&buf[..count])?;
        Ok(count)
    }

    fn flush(&mut self) -> io::Result<()> {
        if let Some(kind) = self.flush_fails {
            return Err(io::Error::from(kind));
        }
        self.flushed = self.taken.len();
        Ok(())
    }
}

/// Puts letters on standard output, and has them made safe.
fn put_out(out: &mut Buffered) -> Result<(), SinkFault> {
    let mut sink: AnySink<'_, Lent<'_>, Buffered> = AnySink::Out(out);
    sink.put(7, b"letters")?;
    sink.settle()
}

/// Standard output is flushed after what is put, and is handed each byte once. Its reader has gone exactly if the system says so, of a write or of
/// the flush.
#[test]
fn standard_output_is_flushed(rt: HostRuntime) -> Result<(), Fail> {
    let mut out = Buffered::new(rt.alloc());
    assert!(rt; put_out(&mut out) == Ok(()) && out.flushed == 7);
    assert!(rt; out.taken.as_slice() == b"letters".as_slice());
    out.flush_fails = Some(ErrorKind::BrokenPipe);
    assert!(rt; put_out(&mut out) == Err(SinkFault::Gone) && out.flushed == 7);
    out.flush_fails = Some(ErrorKind::StorageFull);
    assert!(rt; put_out(&mut out) == Err(SinkFault::Failed));
    Ok(())
}

/// If a write fails, some of the first bytes are there, each once.
#[test]
fn standard_output_that_fails_has_a_front(rt: HostRuntime) -> Result<(), Fail> {
    for (kind, fault) in [
        (ErrorKind::BrokenPipe, SinkFault::Gone),
        (ErrorKind::ConnectionReset, SinkFault::Gone),
        (ErrorKind::ConnectionAborted, SinkFault::Gone),
        (ErrorKind::NotConnected, SinkFault::Failed),
        (ErrorKind::TimedOut, SinkFault::Failed),
        (ErrorKind::StorageFull, SinkFault::Failed),
    ] {
        let mut out = Buffered::new(rt.alloc());
        out.room = 5;
        out.write_fails = kind;
        assert!(rt; put_out(&mut out) == Err(fault) && out.flushed == 0);
        assert!(rt; out.taken.as_slice() == b"lette".as_slice());
    }
    Ok(())
}

/// A file has no reader that could go, whatever its system says.
#[test]
fn a_file_that_fails_has_no_reader(rt: HostRuntime) {
    for kind in [ErrorKind::BrokenPipe, ErrorKind::ConnectionAborted] {
        let mut file = FakeFile::new(Vec::new(rt.alloc()));
        (file.writes, file.fails_as) = (Left(Some(1)), kind);
        let came = come_of(&mut file, NONE, 0, b"abc");
        assert!(rt; came.last == Err(SinkFault::Failed) && came.size == Some(1));
        let mut file = FakeFile::new(Vec::new(rt.alloc()));
        (file.syncs, file.fails_as) = (Left(Some(2)), kind);
        let came = come_of(&mut file, NONE, 0, b"abc");
        assert!(rt; came.last == Err(SinkFault::Failed) && came.size == Some(2));
    }
}
