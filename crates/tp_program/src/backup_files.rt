//! `tpnet backup`, on files: how a copy gets its name.

ghost use Rattle.std.specs.Prelude.{◌≡◌, IfOk, OnOk, option_copied, string_bytes};
ghost use Rattle.tp_program.specs.Lower.{error_kind, LeavesNothingNew};
ghost use Rattle.tp_program.specs.Backups.{PrintsCopied};
ghost use Rattle.tp_program.specs.Named.{undone_name};
ghost use Rattle.tp_program.specs.declared.backup_files.Undone.TheVariants.{Memory};
ghost use Rattle.tp_program.specs.Uses.{HasBackup, IsBackedUp, IsCopyOf, IsFilled, IsLinked, part_of};

use crate::backing_up::{backup_on, copied_line};
use crate::devices::Devices;
use crate::files::file_to_read;
use crate::folders::sync_folder;
use crate::rights::Rights;
use std::alloc::{AllocError, Global};
use std::fs::{Files, Metadata, OpenFile, OpenOptions};
use std::io::{ErrorKind, Write};
use std::os::unix::fs::{FileExt, OpenOptionsExt};
use std::{fs, io};
use tp_disk::{Counted, Disk, NewDisk, NewFile, NotedFile};
use tp_stream_files::{FileNumbers, is_one_file, numbers_in};
use tp_views::{Refusal, put, refuse};
use tp_words::Backup;

/// Why a backup wasn't done.
#[derive(Drop)]
pub enum Undone {
    /// Something is at COPY, or COPY.part is the device.
    CopyExists,
    /// Something is at COPY.part.
    PartExists,
    /// A call failed that looks for the copy's file, makes it, gives it its rights, or names it.
    CopyFailed(io::Error),
    /// The device's file isn't opened, or the device isn't copied, and that was said already. If a call on the copy's file failed, this has what the
    /// system said of it.
    Uncopied(Option<io::Error>),
    /// The copy is made, but its line can't be printed.
    Unprinted,
    Memory,
}

impl From<AllocError> for Undone {
    ghost from_gives = { λ _ undone. undone ≡ Memory };

    fn from(_error: AllocError) -> Undone {
        Undone::Memory
    }
}

/// The names of a copy: its own (`copy`), and the one that it has until it is whole (`part`).
#[derive(Clone, Copy)]
struct Names<'a> {
    copy: &'a str,
    part: &'a str,
}

/// Gives the name by which it is told why a backup wasn't done; `None` if that was said already.
fn name_of(undone: &Undone) -> Option<&'static str>
    ensures { option_copied result ≡ undone_name undone.now }
{
    match undone {
        Undone::CopyExists => Some("CopyExists"),
        Undone::PartExists => Some("PartExists"),
        Undone::CopyFailed(_) | Undone::Unprinted => Some("DeviceFailed"),
        Undone::Uncopied(_) => None,
        Undone::Memory => Some("Memory"),
    }
}

/// Says why a backup wasn't done, unless that was said already. Answers the status. Ignores a failed write.
pub(crate) fn refuse_undone<E: Write>(err: &mut E, undone: &Undone) -> u8
    ensures { result ≡ 1 }
{
    if let Some(name) = name_of(undone) {
        let _ = write!(err, "tpnet: {name}\n");
    }
    1
}

/// Gives the error that says that nothing is at a path.
fn gone() -> io::Error
    ensures { error_kind result ≡ ErrorKind.NotFound }
{
    io::Error::from(ErrorKind::NotFound)
}

/// Whether something is at a path, even a link that leads nowhere.
fn is_there<R: Files>(rt: &R, path: &str) -> Result<bool, Undone> {
    match fs::symlink_metadata(rt, path) {
        Ok(_) => Ok(true),
        Err(error) if error.kind() == ErrorKind::NotFound => Ok(false),
        Err(error) => Err(Undone::CopyFailed(error)),
    }
}

/// Tests that nothing is at either name of the copy. Fails if something is there, or if `copy` is empty, which names no file.
fn ask_names<R: Files>(rt: &R, device: &str, names: &Names<'_>) -> Result<(), Undone> {
    if names.copy.is_empty() {
        return Err(Undone::CopyFailed(gone()));
    }
    if is_there(rt, names.copy)? {
        return Err(Undone::CopyExists);
    }
    if !is_there(rt, names.part)? {
        return Ok(());
    }
    if is_one_file(rt, device, names.part) {
        Err(Undone::CopyExists)
    } else {
        Err(Undone::PartExists)
    }
}

/// Makes the copy's file, which only its owner may read at first. Fails with `PartExists` if something is there.
fn make_part<R: Files<File = F>, F: FileExt + OpenFile + Drop>(
    rt: &R,
    part: &str,
    rights: Rights,
) -> Result<F, Undone> {
    let mut how = OpenOptions::new();
    let how = how.read(true).write(true).create_new(true);
    match how.mode(rights.at_first()).open(rt, part) {
        Ok(file) => Ok(file),
        Err(error) if error.kind() == ErrorKind::AlreadyExists => Err(Undone::PartExists),
        Err(error) => Err(Undone::CopyFailed(error)),
    }
}

/// Gives what the system knows of the copy's file. If it doesn't answer, the file is removed.
fn kept_of<R: Files, F: OpenFile>(rt: &R, part: &str, file: &F) -> Result<Metadata, Undone> {
    match file.metadata() {
        Ok(kept) => Ok(kept),
        Err(error) => {
            let _left = fs::remove_file(rt, part);
            Err(Undone::CopyFailed(error))
        }
    }
}

/// Whether a path still names the copy's file, as far as the system says. It compares the numbers by which the system tells files apart, since
/// somebody may have removed the file and made another one there.
fn is_named<R: Files>(rt: &R, path: &str, numbers: Option<FileNumbers>) -> bool {
    let kept = fs::metadata(rt, path);
    matches!(kept, Ok(kept) if numbers_in(&kept) == numbers)
}

/// Removes a name of the copy's file, if the name is still that file's.
fn remove_name<R: Files>(rt: &R, path: &str, numbers: Option<FileNumbers>) -> io::Result<()> {
    if !is_named(rt, path, numbers) {
        return Err(gone());
    }
    fs::remove_file(rt, path)
}

/// Makes the copy's file and gives it the device's rights, before any byte of the device is in it. Gives a device of this size over it, which makes
/// the file that long by its first call. Also answers which file it is. If that fails, the file is removed.
pub(crate) fn begun_copy<R: Files<File = F>, F: FileExt + OpenFile + Drop>(
    rt: &R,
    part: &str,
    rights: Rights,
    size: u64,
) -> Result<(NewDisk<F>, Option<FileNumbers>), Undone>
    ensures { IfOk result (λ found. ⟦<NewDisk<F> as Disk>⟧.size_of found.0 ≡ size) }
{
    let file = make_part(rt, part, rights)?;
    let kept = kept_of(rt, part, &file)?;
    let numbers = numbers_in(&kept);
    if let Err(error) = rights.give(&file, &kept) {
        let _left = remove_name(rt, part, numbers);
        return Err(Undone::CopyFailed(error));
    }
    let copy = NewFile::over(NotedFile::new(file), size);
    Ok((Counted::new(copy), numbers))
}

/// Copies the device into the copy's file, and gives that file back. Answers the line to print.
#[inline(never)]
fn fill_part<S: Devices<New = N>, N: Disk + Drop, D: Disk, E: Write>(
    alloc: Global,
    devices: &mut S,
    source: &mut D,
    copy: N,
    err: &mut E,
) -> Result<String, Undone>
    ensures filled { IfOk result (λ text. IsFilled (D.state source.old) (D.reads source.new) (N.state copy) (S.uses devices.old) (S.uses devices.new) (string_bytes text)) }
    ensures unwritten { LeavesNothingNew (D.state source.old) (D.state source.new) }
    ensures uncalled { S.calls devices.new ≡ S.calls devices.old }
{
    let mut copy = copy;
    let done = backup_on(alloc, source, &mut copy, err);
    let failure = devices.finish(copy);
    match done {
        Ok(copied) => Ok(copied_line(alloc, copied.next)?),
        Err(_) => Err(Undone::Uncopied(failure)),
    }
}

/// Gives the file at `part` the name `copy`, too. The kit's call takes 16 kB of the stack, four times the longest path. So it has a function of its
/// own, which is never inlined.
#[inline(never)]
fn link_names<R: Files>(rt: &R, names: &Names<'_>) -> io::Result<()> {
    fs::hard_link(rt, names.part, names.copy)
}

/// Gives the copy its name, if nothing has that name. Fails with `CopyExists` if something has.
fn link_copy<R: Files>(
    rt: &R,
    names: &Names<'_>,
    numbers: Option<FileNumbers>,
) -> Result<(), Undone> {
    if !is_named(rt, names.part, numbers) {
        return Err(Undone::CopyFailed(gone()));
    }
    match link_names(rt, names) {
        Ok(()) => Ok(()),
        Err(error) if error.kind() == ErrorKind::AlreadyExists => Err(Undone::CopyExists),
        Err(error) => Err(Undone::CopyFailed(error)),
    }
}

/// Removes the copy's other name, and syncs the folder.
fn settle_names<R: Files<File = F>, F: FileExt + OpenFile + Drop>(
    rt: &R,
    names: &Names<'_>,
    numbers: Option<FileNumbers>,
) -> io::Result<()> {
    remove_name(rt, names.part, numbers)?;
    sync_folder(rt, names.copy)
}

/// Gives a copy that is whole and synced its name, and makes the name last. If that fails, the copy doesn't have it.
pub(crate) fn name_copy<R: Files<File = F>, F: FileExt + OpenFile + Drop>(
    rt: &R,
    part: &str,
    copy: &str,
    numbers: Option<FileNumbers>,
) -> Result<(), Undone> {
    let names = Names { copy, part };
    link_copy(rt, &names, numbers)?;
    match settle_names(rt, &names, numbers) {
        Ok(()) => Ok(()),
        Err(error) => {
            let _left = remove_name(rt, copy, numbers);
            Err(Undone::CopyFailed(error))
        }
    }
}

/// Copies the device into the copy's file, and gives that its name. Answers the line to print.
fn fill_and_name<S: Devices<New = N>, N: Disk + Drop, D: Disk, E: Write>(
    alloc: Global,
    devices: &mut S,
    source: &mut D,
    names: &Names<'_>,
    copy: N,
    numbers: Option<FileNumbers>,
    err: &mut E,
) -> Result<String, Undone>
    ensures linked { IfOk result (λ text. IsLinked names.now.part.now names.now.copy.now (D.state source.old) (D.reads source.new) (N.state copy) (S.uses devices.old) (S.uses devices.new) (string_bytes text)) }
    ensures unwritten { LeavesNothingNew (D.state source.old) (D.state source.new) }
    ensures uncalled { S.calls devices.new ≡ S.calls devices.old }
{
    let text = fill_part(alloc, devices, source, copy, err)?;
    devices.link(names.part, names.copy, numbers)?;
    Ok(text)
}

/// Makes a copy with these rights of a device. Answers the line to print. If that fails, the file that was made for the copy is removed.
fn make_copy<R: Files + AllocGlobal, S: Devices<New = N>, N: Disk + Drop, D: Disk, E: Write>(
    rt: &R,
    devices: &mut S,
    source: &mut D,
    rights: Rights,
    names: &Names<'_>,
    err: &mut E,
) -> Result<String, Undone>
    ensures copied { IfOk result (λ text. IsCopyOf names.now.part.now names.now.copy.now (D.state source.old) (D.reads source.new) (S.uses devices.old) (S.uses devices.new) (string_bytes text)) }
    ensures unwritten { LeavesNothingNew (D.state source.old) (D.state source.new) }
    ensures uncalled { S.calls devices.new ≡ S.calls devices.old }
{
    let (copy, numbers) = devices.begin_copy(names.part, rights, source.size())?;
    let made = fill_and_name(rt.alloc(), devices, source, names, copy, numbers, err);
    if made.is_err() {
        let _left = remove_name(rt, names.part, numbers);
    }
    made
}

/// Opens a device's file to be only read. Answers the file, and its rights.
pub(crate) fn source_of<R: Files<File = F>, F: OpenFile + Drop>(
    rt: &R,
    device: &str,
) -> Result<(F, Rights), Refusal> {
    let file = file_to_read(rt, device)?;
    let Ok(kept) = file.metadata() else {
        return Err(Refusal::ReadFailed);
    };
    Ok((file, Rights::of(&kept)))
}

/// Opens a device to be only read, makes its copy under these names, and gives the device back. Answers the line to print.
fn copy_device<
    R: Files + AllocGlobal,
    S: Devices<Device = D, New = N>,
    D: Disk + Drop,
    N: Disk + Drop,
    E: Write,
>(rt: &R, devices: &mut S, device: &str, names: &Names<'_>, err: &mut E) -> Result<String, Undone>
    ensures made { IfOk result (λ text. IsBackedUp device.now names.now.part.now names.now.copy.now (S.uses devices.old) (S.uses devices.new) (string_bytes text)) }
    ensures uncalled { S.calls devices.new ≡ S.calls devices.old }
{
    let (mut source, rights) = match devices.look_to_copy(device) {
        Ok(found) => found,
        Err(refusal) => {
            refuse(err, refusal);
            return Err(Undone::Uncopied(None));
        }
    };
    let made = make_copy(rt, devices, &mut source, rights, names, err);
    devices.leave(source);
    made
}

/// Makes the copy of a device's file under these names, and prints its line.
fn backup_as<
    R: Files + AllocGlobal,
    S: Devices<Device = D, New = N>,
    D: Disk + Drop,
    N: Disk + Drop,
    O: Write,
    E: Write,
>(
    rt: &R,
    devices: &mut S,
    device: &str,
    names: &Names<'_>,
    out: &mut O,
    err: &mut E,
) -> Result<(), Undone>
    ensures printed { OnOk result (PrintsCopied (O.contents out.old) (O.contents out.new)) }
    ensures made { OnOk result (HasBackup device.now names.now.part.now names.now.copy.now (S.uses devices.old) (S.uses devices.new) (O.contents out.old) (O.contents out.new)) }
    ensures uncalled { S.calls devices.new ≡ S.calls devices.old }
{
    ask_names(rt, device, names)?;
    let text = copy_device(rt, devices, device, names, err)?;
    match put(out, text.as_bytes()) {
        Ok(()) => Ok(()),
        Err(_) => Err(Undone::Unprinted),
    }
}

/// `tpnet backup`, on files. It checks the copy's names before it opens the device's file, and makes the copy's file before it reads the device. It
/// opens the device's file to be only read.
pub(crate) fn backup_file<
    R: Files + AllocGlobal,
    S: Devices<Device = D, New = N>,
    D: Disk + Drop,
    N: Disk + Drop,
    O: Write,
    E: Write,
>(rt: &R, devices: &mut S, backup: &Backup, out: &mut O, err: &mut E) -> Result<(), Undone>
    ensures printed { OnOk result (PrintsCopied (O.contents out.old) (O.contents out.new)) }
    ensures made { OnOk result (HasBackup (string_bytes backup.now.device) (part_of (string_bytes backup.now.copy)) (string_bytes backup.now.copy) (S.uses devices.old) (S.uses devices.new) (O.contents out.old) (O.contents out.new)) }
    ensures uncalled { S.calls devices.new ≡ S.calls devices.old }
{
    let (device, copy) = (backup.device.as_str(), backup.copy.as_str());
    let part = format!(in rt.alloc(); "{copy}.part")?;
    let part = part.as_str();
    backup_as(rt, devices, device, &Names { copy, part }, out, err)
}
