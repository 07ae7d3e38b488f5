//! The sinks of the program: a file, standard output, or nothing.

ghost use Rattle.std.specs.Prelude.{◌≡◌, ◌↔◌, ◌++◌, ◌∷◌, ℕ, [], true, Err, Option, None, length, is_ok, IfErr, IfOk, OnOk};
ghost use Rattle.std.specs.IoError.{error_kind};
ghost use Rattle.tp_stream_files.specs.Held.{HasLength, HasPut, HasReach, IsSafe, KeepsBytes, KeepsFront, Reaches};
ghost use Rattle.tp_stream_files.specs.Opening.{KeepsFiles, to_write};
ghost use Rattle.tp_stream_files.specs.Sinks.{SaysGone, SyncsFolder, begin_calls};
ghost use Rattle.tp_stream_files.specs.Told.{Opened, Synced, Wrote};
ghost use Rattle.tp_stream_files.specs.Trace.{size_after};

use crate::folders::sync_folder_of;
use crate::outside::{Outside, OutsideFile};
use crate::system::{EndFile, EndFiles};
use crate::writing::write_front;
use crate::{PutAt, Sink, SinkFault};
use std::fs::{Files, OpenFile, OpenOptions};
use std::io;
use std::io::{ErrorKind, Write};
use std::os::unix::fs::FileExt;

/// A file whose byte number q is byte number q of the port.
#[derive(Drop)]
pub struct FileSink<F: Drop> {
    file: F,
    size: u64,
}

/// A sink of the program.
#[derive(Drop)]
pub enum AnySink<'a, F: Drop, O> {
    File(FileSink<F>),
    /// Standard output, which has no positions: what is put goes after what was put before.
    Out(&'a mut O),
    /// Each byte is discarded.
    Nothing,
}

/// Syncs the folder of a file if the file is empty, since it may be new.
fn sync_new<S: EndFiles>(files: &mut S, path: &str, size: u64) -> io::Result<()>
    ensures kept { KeepsFiles (S.calls files.old) (S.calls files.new) }
    ensures synced { OnOk result (SyncsFolder size path.now (S.calls files.old) (S.calls files.new)) }
{
    if size != 0 {
        return Ok(());
    }
    sync_folder_of(files, path)
}

/// Syncs what is in a file, and answers how many bytes it has.
fn begin_file<F: EndFile>(file: &mut F) -> io::Result<u64>
    ensures { IfOk result (λ size. F.calls file.new ≡ F.calls file.old ++ begin_calls size) }
{
    let size = file.measure()?;
    file.sync()?;
    Ok(size)
}

/// Opens the file at that path as it is, or makes an empty one.
pub(crate) fn file_at<S: EndFiles>(files: &mut S, path: &str) -> io::Result<S::File>
    ensures noted { S.calls files.new ≡ S.calls files.old ++ Opened to_write path.now (is_ok result) ∷ [] }
    ensures fresh { IfOk result (λ file. S.File.calls file ≡ Opened to_write path.now true ∷ []) }
{
    let mut how = OpenOptions::new();
    files.open(how.read(true).write(true).create(true), path)
}

/// Gives why a call on standard output failed. Whoever takes the bytes has gone exactly if a pipe has no reader any more, or a socket's connection
/// has ended. A connection that was never made, or that doesn't answer, is a failure.
fn fault_of(kind: ErrorKind) -> SinkFault
    ensures { (result ≡ SinkFault.Gone) ↔ SaysGone kind }
{
    if kind == ErrorKind::BrokenPipe
        || kind == ErrorKind::ConnectionReset
        || kind == ErrorKind::ConnectionAborted
    {
        SinkFault::Gone
    } else {
        SinkFault::Failed
    }
}

/// Gives the sink's answer to a call on standard output.
fn answer(done: io::Result<()>) -> Result<(), SinkFault>
    ensures done { is_ok result ≡ is_ok done }
    ensures kind { IfErr done (λ error. (result ≡ Err SinkFault.Gone) ↔ SaysGone (error_kind error)) }
{
    match done {
        Ok(()) => Ok(()),
        Err(error) => Err(fault_of(error.kind())),
    }
}

/// Gives the sink's answer to a call on a file, which has no reader that could go.
fn answer_of_file(done: io::Result<()>) -> Result<(), SinkFault>
    ensures done { is_ok result ≡ is_ok done }
    ensures failed { IfErr result (λ fault. fault ≡ SinkFault.Failed) }
{
    match done {
        Ok(()) => Ok(()),
        Err(_) => Err(SinkFault::Failed),
    }
}

impl<F: FileExt + OpenFile + Drop> FileSink<OutsideFile<F>> {
    /// Opens the file at that path as it is, or makes an empty one.
    pub fn open<R: Files<File = F>>(rt: &R, path: &str) -> io::Result<FileSink<OutsideFile<F>>> {
        FileSink::open_in(&mut Outside::new(rt), path)
    }
}

impl<F: EndFile + Drop> FileSink<F> {
    /// Takes the open file of that path, as it is. It syncs what is in the file, which then counts as safe. If the file is empty, it syncs the
    /// folder, since the file may be new.
    #[tactic(auto, using(crate::proofs::Keeping::keeps_none))]
    pub fn over<S: EndFiles<File = F>>(
        files: &mut S,
        path: &str,
        mut file: F,
    ) -> io::Result<FileSink<F>>
        ensures calls { IfOk result (λ sink. F.calls sink.file ≡ F.calls file ++ begin_calls sink.size) }
        ensures kept { KeepsFiles (S.calls files.old) (S.calls files.new) }
        ensures folder { IfOk result (λ sink. SyncsFolder sink.size path.now (S.calls files.old) (S.calls files.new)) }
    {
        let size = begin_file(&mut file)?;
        sync_new(files, path, size)?;
        Ok(FileSink { file, size })
    }

    /// Opens the file at that path as it is, or makes an empty one.
    pub fn open_in<S: EndFiles<File = F>>(files: &mut S, path: &str) -> io::Result<FileSink<F>>
        ensures kept { KeepsFiles (S.calls files.old) (S.calls files.new) }
        ensures calls { IfOk result (λ sink. F.calls sink.file ≡ Opened to_write path.now true ∷ begin_calls sink.size) }
        ensures folder { IfOk result (λ sink. SyncsFolder sink.size path.now (S.calls files.old ++ Opened to_write path.now true ∷ []) (S.calls files.new)) }
    {
        let file = file_at(files, path)?;
        FileSink::over(files, path, file)
    }

    /// Gives how many bytes the file has.
    pub fn size(&self) -> u64
        ensures { result ≡ self.now.size }
    {
        self.size
    }

    /// Writes bytes over what is at position `at`. If that fails, the file has as many bytes as before.
    pub fn put(&mut self, at: u64, bytes: &[u8]) -> Result<(), SinkFault>
        ensures calls { F.calls self.new.file ≡ F.calls self.old.file ++ Wrote at bytes.now (is_ok result) ∷ [] }
        ensures size { self.new.size ≡ size_after self.old.size (Wrote at bytes.now (is_ok result)) }
        ensures failed { IfErr result (λ fault. fault ≡ SinkFault.Failed) }
    {
        answer_of_file(self.file.write_all(at, bytes))?;
        self.size = self.size.max(at.saturating_add(bytes.len() as u64));
        Ok(())
    }

    /// Syncs all that was written.
    pub fn settle(&mut self) -> Result<(), SinkFault>
        ensures calls { F.calls self.new.file ≡ F.calls self.old.file ++ Synced (is_ok result) ∷ [] }
        ensures size { self.new.size ≡ self.old.size }
        ensures failed { IfErr result (λ fault. fault ≡ SinkFault.Failed) }
    {
        answer_of_file(self.file.sync())
    }
}

impl<'a, F: EndFile + Drop, O: Write> Sink for AnySink<'a, F, O> {
    ghost use Rattle.tp_stream_files.specs.Any.{WasSettled, length_of, path_to, reach_of};

    ghost held = { λ _. None };

    ghost path = { λ sink. path_to F.calls sink };

    fn reach(&self) -> u64
        ensures there { Reaches result None }
        ensures exactly { HasReach result None }
        ensures value { result ≡ reach_of self.now }
    {
        match self {
            AnySink::File(sink) => sink.size(),
            AnySink::Out(_) | AnySink::Nothing => u64::MAX,
        }
    }

    fn length(&self) -> Option<u64>
        ensures held { HasLength result None }
        ensures value { result ≡ length_of self.now }
    {
        match self {
            AnySink::File(sink) => Some(sink.size()),
            AnySink::Out(_) | AnySink::Nothing => None,
        }
    }

    #[tactic(auto, using(crate::proofs::Paths::synced_there))]
    fn settle(&mut self) -> Result<(), SinkFault>
        ensures safe { OnOk result (IsSafe None) }
        ensures bytes { KeepsBytes None None }
        ensures path { path_to F.calls self.new ≡ path_to F.calls self.old }
        ensures port { let none : Option ℕ = None in none ≡ none }
        ensures asked { WasSettled F.calls O.contents (is_ok result) self.old self.new }
    {
        match self {
            AnySink::File(sink) => sink.settle(),
            AnySink::Out(out) => answer(out.flush()),
            AnySink::Nothing => Ok(()),
        }
    }
}

impl<'a, F: EndFile + Drop, O: Write> PutAt for AnySink<'a, F, O> {
    ghost use Rattle.tp_stream_files.specs.Any.{WasPut, path_to};

    #[tactic(auto, using(crate::proofs::Paths::wrote_there))]
    fn put(&mut self, at: u64, bytes: &[u8]) -> Result<(), SinkFault>
        ensures put { OnOk result (HasPut at bytes.now None None) }
        ensures front { KeepsFront at None None }
        ensures path { path_to F.calls self.new ≡ path_to F.calls self.old }
        ensures port { let none : Option ℕ = None in none ≡ none }
        ensures asked { WasPut F.calls O.contents at bytes.now (is_ok result) self.old self.new }
    {
        match self {
            AnySink::File(sink) => sink.put(at, bytes),
            AnySink::Out(out) => answer(write_front(*out, bytes)),
            AnySink::Nothing => Ok(()),
        }
    }
}
