//! A file that becomes a device.

ghost use Rattle.std.specs.Prelude.{◌≡◌, ◌+◌, ◌≤◌, [], ◌∷◌, ◌++◌, true, length, is_ok, IfOk, OnOk, OnErr};
ghost use Rattle.tp_disk.specs.Lower.{Write, Sync, Read, done, Fails, MomentPassed};
ghost use Rattle.tp_disk.specs.File.{IsMeasured, NotMade, making, placing};
ghost use Rattle.tp_disk.specs.Filling.{GoesOn};
ghost use Rattle.tp_disk.specs.FileState.{begins};
ghost use Rattle.tp_disk.specs.History.{Reads, SyncsData, all_zero};
ghost use Rattle.tp_disk.specs.Noted.{file_reads, file_state};
ghost use Rattle.tp_disk.specs.Reads.{answered};
ghost use Rattle.tp_disk.specs.declared.filling.Making.TheVariants.{Done, Empties, Fills};

use crate::counted::Counted;
use crate::disk::{DeviceFailed, Disk};
use crate::file::answer;
use crate::file_history::FileHistory;
use crate::filling::{Making, fill_over};
use crate::raw::RawDisk;
use crate::system::{NotedFile, SystemFile};
use std::fs::{OpenFile, OpenOptions};
use std::os::unix::fs::FileExt;
use std::rt::Files;
use std::{fs, io};

/// A file that becomes a device of `size` bytes 00 with its first call, and is synced. Until then it stays as it was. A new file is a
/// device already. Bytes at the front are written after a sync of the others, the first one last and alone. So a stop on the way, also
/// within a write, leaves no first byte of a head without the rest.
#[derive(Drop)]
pub struct NewFile<F: SystemFile + Drop> {
    file: F,
    noted: FileHistory,
    making: Making,
    failure: Option<io::Error>,
}

/// A device in a file that is made for it.
pub type NewDisk<F> = Counted<NewFile<NotedFile<F>>>;

impl<F: SystemFile + Drop> NewFile<F> {
    /// Takes a file that exists and stays as it is until the first call. Then it is emptied, and takes room as it is written.
    pub fn over(file: F, size: u64) -> NewFile<F>
        ensures file { result.file ≡ file }
        ensures size { result.noted.size ≡ size }
        ensures state { file_state result.noted ≡ begins all_zero size }
        ensures reads { file_reads result.noted ≡ [] }
        ensures unmade { result.making ≡ Empties }
    {
        NewFile {
            file,
            noted: FileHistory::of_zeros(size),
            making: Making::Empties,
            failure: None,
        }
    }

    /// Takes a file that exists and stays as it is until the first call. Then it gets room for all of the device, before anything of it is
    /// lost. Fails if the system doesn't tell the length.
    pub fn filled(mut file: F, size: u64) -> io::Result<NewFile<F>>
        ensures size { IfOk result (λ new. new.noted.size ≡ size) }
        ensures state { IfOk result (λ new. file_state new.noted ≡ begins all_zero size) }
        ensures reads { IfOk result (λ new. file_reads new.noted ≡ []) }
        ensures measured { IfOk result (λ new. IsMeasured new.making (F.calls file) (F.calls new.file)) }
    {
        let length = file.measure()?;
        Ok(NewFile {
            file,
            noted: FileHistory::of_zeros(size),
            making: Making::Fills { length },
            failure: None,
        })
    }

    /// Takes a file that is a device.
    fn made(file: F, size: u64) -> NewFile<F>
        ensures size { result.noted.size ≡ size }
        ensures state { file_state result.noted ≡ begins all_zero size }
        ensures reads { file_reads result.noted ≡ [] }
        ensures made { result.making ≡ Done }
    {
        NewFile {
            file,
            noted: FileHistory::of_zeros(size),
            making: Making::Done,
            failure: None,
        }
    }

    /// Gives what the system said of the last call that failed; `None` if none has.
    pub fn into_failure(self) -> Option<io::Error> {
        self.failure
    }

    /// Makes a device of the file if it isn't one yet.
    fn make(&mut self) -> Result<(), DeviceFailed>
        ensures noted { self.new.noted ≡ self.old.noted }
        ensures made { OnOk result ((self.new.making ≡ Done) × (F.calls self.new.file ≡ F.calls self.old.file ++ making self.old.making self.old.noted.size)) }
        ensures failed { OnErr result ((self.new.making ≡ self.old.making) × NotMade self.old.making self.old.noted.size (F.calls self.old.file) (F.calls self.new.file)) }
    {
        let made = make_of(&mut self.file, self.making, self.noted.size());
        answer(made, &mut self.failure)?;
        self.making = Making::Done;
        Ok(())
    }

    /// Writes bytes. At the front of the device it writes all but the first byte, syncs them, and then writes the first one alone.
    fn place(&mut self, at: u64, bytes: &[u8]) -> Result<(), DeviceFailed>
        ensures noted { self.new.noted ≡ self.old.noted }
        ensures called { OnOk result (F.calls self.new.file ≡ F.calls self.old.file ++ placing at bytes.now) }
    {
        if at != 0 || bytes.is_empty() {
            return answer(self.file.write_all(at, bytes), &mut self.failure);
        }
        let (first, rest) = bytes.split_at(1);
        answer(self.file.write_all(1, rest), &mut self.failure)?;
        answer(self.file.sync_data(), &mut self.failure)?;
        answer(self.file.write_all(0, first), &mut self.failure)
    }

    /// Reads, after it made a device of the file if it wasn't one.
    fn read_made(&mut self, at: u64, out: &mut [u8]) -> Result<(), DeviceFailed>
        ensures noted { self.new.noted ≡ self.old.noted }
        ensures called { OnOk result (F.calls self.new.file ≡ (F.calls self.old.file ++ making self.old.making self.old.noted.size) ++ Reads at out.new true ∷ []) }
    {
        self.make()?;
        answer(self.file.read_all(at, out), &mut self.failure)
    }

    /// Writes, after it made a device of the file if it wasn't one.
    fn write_made(&mut self, at: u64, bytes: &[u8]) -> Result<(), DeviceFailed>
        ensures noted { self.new.noted ≡ self.old.noted }
        ensures called { OnOk result (F.calls self.new.file ≡ (F.calls self.old.file ++ making self.old.making self.old.noted.size) ++ placing at bytes.now) }
    {
        self.make()?;
        self.place(at, bytes)
    }

    /// Syncs, after it made a device of the file if it wasn't one.
    fn sync_made(&mut self) -> Result<(), DeviceFailed>
        ensures noted { self.new.noted ≡ self.old.noted }
        ensures called { OnOk result (F.calls self.new.file ≡ (F.calls self.old.file ++ making self.old.making self.old.noted.size) ++ SyncsData true ∷ []) }
    {
        self.make()?;
        answer(self.file.sync_data(), &mut self.failure)
    }
}

impl<F: SystemFile + Drop> RawDisk for NewFile<F> {
    ghost size_of = { λ d. d.noted.size };

    ghost state = { λ d. file_state d.noted };

    ghost reads = { λ d. file_reads d.noted };

    fn size(&self) -> u64 {
        self.noted.size()
    }

    fn read(&mut self, at: u64, out: &mut [u8]) -> Result<(), DeviceFailed>
        ensures size { self.new.noted.size ≡ self.old.noted.size }
        ensures noted { file_reads self.new.noted ≡ file_reads self.old.noted ++ answered (is_ok result) at out.new (file_state self.old.noted).now.bytes }
        ensures goes { MomentPassed (file_state self.old.noted) (file_state self.new.noted) }
        ensures after { OnOk result ((file_state self.new.noted).now ≡ done Read (file_state self.old.noted).now) }
        ensures failed { OnErr result (Fails Read (file_state self.old.noted) (file_state self.new.noted)) }
        ensures called { OnOk result (F.calls self.new.file ≡ (F.calls self.old.file ++ making self.old.making self.old.noted.size) ++ Reads at out.new true ∷ []) }
    {
        let ended = self.read_made(at, out);
        self.noted.has_read(at, out, ended)
    }

    fn write_at(&mut self, at: u64, bytes: &[u8]) -> Result<(), DeviceFailed>
        requires { at + length bytes.now ≤ self.old.noted.size }
        ensures size { self.new.noted.size ≡ self.old.noted.size }
        ensures unread { file_reads self.new.noted ≡ file_reads self.old.noted }
        ensures goes { MomentPassed (file_state self.old.noted) (file_state self.new.noted) }
        ensures after { OnOk result ((file_state self.new.noted).now ≡ done (Write at bytes.now) (file_state self.old.noted).now) }
        ensures failed { OnErr result (Fails (Write at bytes.now) (file_state self.old.noted) (file_state self.new.noted)) }
        ensures called { OnOk result (F.calls self.new.file ≡ (F.calls self.old.file ++ making self.old.making self.old.noted.size) ++ placing at bytes.now) }
    {
        let ended = self.write_made(at, bytes);
        self.noted.has_written(at, bytes, ended)
    }

    fn sync(&mut self) -> Result<(), DeviceFailed>
        ensures size { self.new.noted.size ≡ self.old.noted.size }
        ensures unread { file_reads self.new.noted ≡ file_reads self.old.noted }
        ensures goes { MomentPassed (file_state self.old.noted) (file_state self.new.noted) }
        ensures after { OnOk result ((file_state self.new.noted).now ≡ done Sync (file_state self.old.noted).now) }
        ensures failed { OnErr result (Fails Sync (file_state self.old.noted) (file_state self.new.noted)) }
        ensures called { OnOk result (F.calls self.new.file ≡ (F.calls self.old.file ++ making self.old.making self.old.noted.size) ++ SyncsData true ∷ []) }
    {
        let ended = self.sync_made();
        self.noted.has_synced(ended)
    }

    ghost whole = { λ d. d.noted.whole };
}

/// Empties a file, and gives it its length: it takes room as it is written.
fn empty<F: SystemFile>(file: &mut F, size: u64) -> io::Result<()>
    ensures made { OnOk result (F.calls file.new ≡ F.calls file.old ++ making Empties size) }
    ensures failed { OnErr result (GoesOn (F.calls file.old) (F.calls file.new)) }
{
    file.resize(0)?;
    file.resize(size)?;
    file.sync()
}

/// Makes a device of `size` bytes of a file, and syncs it.
fn make_of<F: SystemFile>(file: &mut F, what: Making, size: u64) -> io::Result<()>
    ensures made { OnOk result (F.calls file.new ≡ F.calls file.old ++ making what size) }
    ensures failed { OnErr result (NotMade what size (F.calls file.old) (F.calls file.new)) }
{
    match what {
        Making::Done => Ok(()),
        Making::Empties => empty(file, size),
        Making::Fills { length } => fill_over(file, length, size),
    }
}

/// Syncs the folder of a path, so that a name made in it lasts.
fn sync_folder<R: Files>(rt: &R, path: &str) -> io::Result<()> {
    let folder = match path.rsplit_once('/') {
        Some(("", _)) => "/",
        Some((folder, _)) => folder,
        None => ".",
    };
    OpenOptions::new().read(true).open(rt, folder)?.sync_all()
}

/// Gives a file that was just made `size` bytes 00 and room for them, and syncs it and its folder.
fn filled_new<R: Files, F: SystemFile + Drop>(
    rt: &R,
    path: &str,
    file: F,
    size: u64,
) -> io::Result<F>
    ensures { IfOk result (λ new. F.calls new ≡ F.calls file ++ making (Fills 0) size) }
{
    let mut file = file;
    make_of(&mut file, Making::Fills { length: 0 }, size)?;
    sync_folder(rt, path)?;
    Ok(file)
}

impl<F: FileExt + OpenFile + Drop> Counted<NewFile<NotedFile<F>>> {
    /// Makes a device of `size` bytes in a new file. `AlreadyExists` if there is a file of that path, and else fails as the system does. If
    /// the file can't be made whole, it is removed.
    pub fn create_new<R: Files<File = F>>(rt: &R, path: &str, size: u64) -> io::Result<NewDisk<F>>
        ensures size { IfOk result (λ disk. ⟦<NewDisk<F> as Disk>⟧.size_of disk ≡ size) }
        ensures state { IfOk result (λ disk. ⟦<NewDisk<F> as Disk>⟧.state disk ≡ begins all_zero size) }
        ensures reads { IfOk result (λ disk. ⟦<NewDisk<F> as Disk>⟧.reads disk ≡ []) }
        ensures failures { IfOk result (λ disk. ⟦<NewDisk<F> as Disk>⟧.failures_of disk ≡ 0) }
    {
        let mut how = OpenOptions::new();
        how.read(true).write(true).create_new(true);
        let file = NotedFile::new(how.open(rt, path)?);
        match filled_new(rt, path, file, size) {
            Ok(file) => Ok(Counted::new(NewFile::made(file, size))),
            Err(error) => {
                let _left = fs::remove_file(rt, path);
                Err(error)
            }
        }
    }

    /// Makes a device of `size` bytes over a file that exists, which stays as it is until the first call of the device. Fails as the system
    /// does.
    pub fn create_over<R: Files<File = F>>(rt: &R, path: &str, size: u64) -> io::Result<NewDisk<F>>
        ensures size { IfOk result (λ disk. ⟦<NewDisk<F> as Disk>⟧.size_of disk ≡ size) }
        ensures state { IfOk result (λ disk. ⟦<NewDisk<F> as Disk>⟧.state disk ≡ begins all_zero size) }
        ensures reads { IfOk result (λ disk. ⟦<NewDisk<F> as Disk>⟧.reads disk ≡ []) }
        ensures failures { IfOk result (λ disk. ⟦<NewDisk<F> as Disk>⟧.failures_of disk ≡ 0) }
    {
        let file = OpenOptions::new().read(true).write(true).open(rt, path)?;
        Ok(Counted::new(NewFile::filled(NotedFile::new(file), size)?))
    }

    /// Makes a device of `size` bytes in a new file, or over the file of that path if there is one. Fails as the system does.
    pub fn create<R: Files<File = F>>(rt: &R, path: &str, size: u64) -> io::Result<NewDisk<F>>
        ensures size { IfOk result (λ disk. ⟦<NewDisk<F> as Disk>⟧.size_of disk ≡ size) }
        ensures state { IfOk result (λ disk. ⟦<NewDisk<F> as Disk>⟧.state disk ≡ begins all_zero size) }
        ensures reads { IfOk result (λ disk. ⟦<NewDisk<F> as Disk>⟧.reads disk ≡ []) }
        ensures failures { IfOk result (λ disk. ⟦<NewDisk<F> as Disk>⟧.failures_of disk ≡ 0) }
    {
        match NewDisk::create_new(rt, path, size) {
            Err(error) if error.kind() == io::ErrorKind::AlreadyExists => {
                NewDisk::create_over(rt, path, size)
            }
            made => made,
        }
    }
}
