//! Files in memory whose calls fail.

ghost use Rattle.std.specs.Prelude.{◌≡◌, ◌≤◌, [], ◌∷◌, ◌++◌, true};
ghost use Rattle.tp_stream_files.specs.Told.{Opened};

use std::fs::OpenOptions;
use std::io;
use std::io::ErrorKind;
use tp_stream_files::{EndFile, EndFiles, FileNumbers, Looks, StandardStream, Trace};

/// How many calls are done before one fails; none: no call fails.
#[derive(Clone, Copy)]
pub(crate) struct Left(pub(crate) Option<u32>);

impl Left {
    /// Whether a call is done.
    fn goes(&mut self) -> bool {
        match self.0 {
            Some(0) => false,
            Some(left) => {
                self.0 = Some(left - 1);
                true
            }
            None => true,
        }
    }
}

/// A file in memory, and how many of its writes and syncs are done before one fails.
#[derive(Drop)]
pub(crate) struct FakeFile {
    pub(crate) bytes: Vec<u8>,
    pub(crate) writes: Left,
    pub(crate) syncs: Left,
    /// What a call says that fails.
    pub(crate) fails_as: ErrorKind,
    /// How many bytes were there when it was last synced.
    pub(crate) synced: usize,
    /// Whether it is a regular file, and no disk.
    pub(crate) is_regular: bool,
    /// Whether the system says which file it is.
    pub(crate) is_known: bool,
    /// By which numbers, if it says them.
    pub(crate) numbers: Option<FileNumbers>,
}

impl FakeFile {
    /// A regular file of these bytes. No call fails.
    pub(crate) fn new(bytes: Vec<u8>) -> FakeFile {
        FakeFile {
            bytes,
            writes: Left(None),
            syncs: Left(None),
            fails_as: ErrorKind::StorageFull,
            synced: 0,
            is_regular: true,
            is_known: true,
            numbers: None,
        }
    }

    /// Puts a byte at a place, which is at most one after the last one.
    fn put(&mut self, at: usize, byte: u8) -> io::Result<()> {
        match self.bytes.get_mut(at) {
            Some(place) => *place = byte,
            None => self.bytes.push(byte)?,
        }
        Ok(())
    }

    /// Writes bytes from a place on.
    fn write(&mut self, at: u64, bytes: &[u8]) -> io::Result<()> {
        if !self.writes.goes() {
            return Err(io::Error::from(self.fails_as));
        }
        for (number, byte) in bytes.iter().enumerate() {
            self.put((at as usize).saturating_add(number), *byte)?;
        }
        Ok(())
    }

    /// Notes how many bytes are there.
    fn force(&mut self) -> io::Result<()> {
        if !self.syncs.goes() {
            return Err(io::Error::from(self.fails_as));
        }
        self.synced = self.bytes.len();
        Ok(())
    }
}

/// A file that is lent to whoever opens it.
#[derive(Drop)]
pub(crate) struct Lent<'a> {
    file: &'a mut FakeFile,
    trace: Trace,
}

impl<'a> Lent<'a> {
    /// It was opened at a path. No other call of it was made.
    pub(crate) fn new(how: &OpenOptions, path: &str, file: &'a mut FakeFile) -> Lent<'a>
        ensures { result.trace.told ≡ Opened how.now path.now true ∷ [] }
    {
        Lent {
            file,
            trace: Trace::new().opened(how, path, true),
        }
    }
}

impl<'a> EndFile for Lent<'a> {
    ghost calls = { λ file. file.trace.told };

    fn measure(&mut self) -> io::Result<u64> {
        let size = self.file.bytes.len() as u64;
        self.trace = self.trace.measured(size);
        Ok(size)
    }

    fn read_at(&mut self, at: u64, _out: &mut [u8]) -> io::Result<usize> {
        self.trace = self.trace.read_failed(at);
        Err(io::Error::from(ErrorKind::Unsupported))
    }

    fn write_all(&mut self, at: u64, bytes: &[u8]) -> io::Result<()> {
        let done = self.file.write(at, bytes);
        self.trace = self.trace.wrote(at, bytes, done.is_ok());
        done
    }

    fn sync(&mut self) -> io::Result<()> {
        let done = self.file.force();
        self.trace = self.trace.synced(done.is_ok());
        done
    }

    fn regular_length(&self) -> Option<u64> {
        if self.file.is_regular {
            Some(self.file.bytes.len() as u64)
        } else {
            None
        }
    }

    fn numbers(&self) -> io::Result<Option<FileNumbers>> {
        if self.file.is_known {
            Ok(self.file.numbers)
        } else {
            Err(io::Error::from(ErrorKind::StorageFull))
        }
    }
}

/// What opens a file once, and whether its folder can be synced.
#[derive(Drop)]
pub(crate) struct FakeFiles<'a> {
    file: Option<&'a mut FakeFile>,
    folder: Left,
    pub(crate) folders: u32,
    /// The numbers of the file at `device`.
    pub(crate) device: Option<FileNumbers>,
    /// Those of the file that standard input comes from.
    pub(crate) input: Option<FileNumbers>,
    /// Those of the file that standard output goes to.
    pub(crate) output: Option<FileNumbers>,
    /// Those of the file that standard error goes to.
    pub(crate) error: Option<FileNumbers>,
    trace: Trace,
}

impl<'a> FakeFiles<'a> {
    /// A file, and how many syncs of folders are done before one fails.
    pub(crate) fn new(file: &'a mut FakeFile, folder: Left) -> FakeFiles<'a> {
        FakeFiles {
            file: Some(file),
            folder,
            folders: 0,
            device: None,
            input: None,
            output: None,
            error: None,
            trace: Trace::new(),
        }
    }
}

impl<'a> EndFiles for FakeFiles<'a> {
    type File = Lent<'a>;

    ghost calls = { λ files. files.trace.told };

    fn open(&mut self, how: &OpenOptions, path: &str) -> io::Result<Lent<'a>> {
        match self.file.take() {
            Some(file) => {
                self.trace = self.trace.opened(how, path, true);
                Ok(Lent::new(how, path, file))
            }
            None => {
                self.trace = self.trace.opened(how, path, false);
                Err(io::Error::from(ErrorKind::NotFound))
            }
        }
    }

    fn sync_folder(&mut self, folder: &str) -> io::Result<()> {
        let goes = self.folder.goes();
        self.folders = self.folders.saturating_add(1);
        self.trace = self.trace.synced_folder(folder, goes);
        if goes {
            Ok(())
        } else {
            Err(io::Error::from(ErrorKind::StorageFull))
        }
    }
}

/// At each other name nothing is seen.
impl<'a> Looks for FakeFiles<'a> {
    fn numbers_at(&self, path: &str) -> Option<FileNumbers> {
        if path == "device" { self.device } else { None }
    }

    fn numbers_behind(&self, stream: StandardStream) -> Option<FileNumbers> {
        match stream {
            StandardStream::In => self.input,
            StandardStream::Out => self.output,
            StandardStream::Error => self.error,
        }
    }
}
