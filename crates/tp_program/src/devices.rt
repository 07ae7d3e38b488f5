//! The devices and files of commands: they are held, made, opened, read, copied and given back.

ghost use Rattle.std.specs.Prelude.{◌≡◌, ℕ, refl, true, false, List, [], ◌∷◌, ◌++◌, Option, Some, None, is_ok, IfErr, IfOk, IsErrAnd, OnOk, OnErr};
ghost use Rattle.tp_program.specs.Lower.{error_kind, option_map, begins, Medium, Copies, Formats, Steps};
ghost use Rattle.tp_program.specs.Devices.{DeviceCall, Holds, Makes, Opens, Closes, Reads, Looks, Begins, Leaves, Links, Requests, path_held};
ghost use Rattle.tp_program.specs.Media.{medium_at};
ghost use Rattle.tp_program.specs.Stops.{WasHeldElsewhere, request_path};
ghost use Rattle.tp_program.specs.Tries.{WasWaitedFor};

use crate::backup_files::{Undone, begun_copy, name_copy, source_of};
use crate::device_calls::DeviceCalls;
use crate::files::{file_to_read, read_refusal};
use crate::folders::sync_folder;
use crate::in_use::{changed, is_busy};
use crate::locks::{Held, Locks};
use crate::media::Media;
use crate::request_file::make_request;
use crate::rights::Rights;
use crate::trying::InUse;
use std::fs::{Files, OpenFile, OpenOptions};
use std::io::{ErrorKind, Write};
use std::os::unix::fs::FileExt;
use std::{fs, io};
use tp_disk::{Counted, Disk, NewDisk, NotedFile, RawFile};
use tp_stream_files::FileNumbers;
use tp_views::{Refusal, refuse};

/// Shows that this process made a file at the path of a device, for that device, and has held it since.
#[derive(Drop)]
pub struct Made {
    noted: DeviceCalls,
}

impl Made {
    /// Notes that a file was made at this path.
    fn new(path: &str) -> Made
        ensures { path_held result.noted.told ≡ path.now }
    {
        Made {
            noted: DeviceCalls::new().made(path, true),
        }
    }
}

/// What commands do with devices and files. It holds devices, makes files for them, opens them to be written, and takes them back. It reads files and
/// devices, makes copies, and asks streams to stop.
pub trait Devices {
    type Device: Disk + Drop;

    /// A device in a file that was begun for it: one that is formatted, or a copy.
    type New: Disk + Drop;

    /// Which devices were asked for, made, opened to be written and given back, and their states then; the oldest call comes first.
    ghost calls: { Self → List DeviceCall };

    /// What else was done with files, and the state of each device then; the oldest call comes first.
    ghost uses: { Self → List DeviceCall };

    /// The path of the device that is held, so that no other process has it. No call gives it up.
    ghost held: { Self → Option (List ℕ) };

    /// Asks for the device at a path, and holds it once it gets it. While another process has it, it tries again for `seconds` seconds; then it
    /// fails.
    fn hold(&mut self, path: &str, seconds: u32) -> Result<(), InUse>
        ensures noted { calls self.new ≡ calls self.old ++ Holds path.now seconds (is_ok result) ∷ [] }
        ensures got { OnOk result (held self.new ≡ Some path.now) }
        ensures vain { IfErr result (WasWaitedFor seconds) }
        ensures unused { uses self.new ≡ uses self.old };

    /// Whether the path still has what it had when the device was asked for: the file that is held, or nothing. It checks anew each time.
    fn is_kept(&self, path: &str) -> bool;

    /// Makes an empty file for the device at a path, which is held, and holds that file at once. Fails with `AlreadyExists` if something is at the
    /// path, which stays. Fails with `ResourceBusy` if another process took the new file first; the file is left to it.
    fn make(&mut self, path: &str) -> io::Result<Made>
        requires { held self.old ≡ Some path.now }
        ensures noted { calls self.new ≡ calls self.old ++ Makes path.now (is_ok result) ∷ [] }
        ensures made { IfOk result (λ made. path_held made.noted.told ≡ path.now) }
        ensures kept { held self.new ≡ held self.old }
        ensures unused { uses self.new ≡ uses self.old };

    /// Removes the file that was made at a path, which is held, if the path still names that file. Ignores a failed call.
    fn remove(&self, path: &str, made: Made)
        requires held { held self.now ≡ Some path.now }
        requires made { path_held made.noted.told ≡ path.now };

    /// Opens the device at a path, which is held, as it is. If the path has another file by now, or none any more, it fails with `ResourceBusy`,
    /// whatever else went wrong.
    fn open(&mut self, path: &str) -> io::Result<Self::Device>
        requires { held self.old ≡ Some path.now }
        ensures opened { IfOk result (λ device. calls self.new ≡ calls self.old ++ Opens path.now (Self.Device.state device) ∷ []) }
        ensures refused { OnErr result (calls self.new ≡ calls self.old) }
        ensures kept { held self.new ≡ held self.old }
        ensures unused { uses self.new ≡ uses self.old };

    /// Takes a device back. Answers what the system said of the last call on it that failed; `None` if none did.
    fn close(&mut self, device: Self::Device) -> Option<io::Error>
        ensures noted { calls self.new ≡ calls self.old ++ Closes (Self.Device.state device) (Self.Device.reads device) ∷ [] }
        ensures kept { held self.new ≡ held self.old }
        ensures unused { uses self.new ≡ uses self.old };

    /// Reads a whole file.
    fn read(&mut self, path: &str) -> io::Result<Vec<u8>>
        ensures read { IfOk result (λ bytes. uses self.new ≡ uses self.old ++ Reads path.now bytes.items ∷ []) }
        ensures unread { OnErr result (uses self.new ≡ uses self.old) }
        ensures uncalled { calls self.new ≡ calls self.old }
        ensures kept { held self.new ≡ held self.old };

    /// Opens the device at a path to be only read. Fails if it isn't a device's file.
    fn look(&mut self, path: &str) -> Result<Self::Device, Refusal>
        ensures looked { IfOk result (λ device. uses self.new ≡ uses self.old ++ Looks path.now (Self.Device.state device) ∷ []) }
        ensures refused { OnErr result (uses self.new ≡ uses self.old) }
        ensures uncalled { calls self.new ≡ calls self.old }
        ensures kept { held self.new ≡ held self.old };

    /// Opens the device at a path to be only read, and says which rights its copy gets.
    fn look_to_copy(&mut self, path: &str) -> Result<(Self::Device, Rights), Refusal>
        ensures looked { IfOk result (λ found. uses self.new ≡ uses self.old ++ Looks path.now (Self.Device.state found.0) ∷ []) }
        ensures refused { OnErr result (uses self.new ≡ uses self.old) }
        ensures uncalled { calls self.new ≡ calls self.old }
        ensures kept { held self.new ≡ held self.old };

    /// Takes back a device that was only read.
    fn leave(&mut self, device: Self::Device)
        ensures noted { uses self.new ≡ uses self.old ++ Leaves (Self.Device.state device) (Self.Device.reads device) ∷ [] }
        ensures uncalled { calls self.new ≡ calls self.old }
        ensures kept { held self.new ≡ held self.old };

    /// Gives a device of this size in the file at a path, which is held. The file stays as it was until the first call on the device. If the path has
    /// another file by now, it fails with `ResourceBusy`, since that one belongs to another process.
    fn replace(&mut self, path: &str, size: u64) -> io::Result<Self::New>
        requires { held self.old ≡ Some path.now }
        ensures begun { IfOk result (λ device. (Self.New.size_of device ≡ size) × (uses self.new ≡ uses self.old ++ Begins path.now (Self.New.state device) ∷ [])) }
        ensures refused { OnErr result (uses self.new ≡ uses self.old) }
        ensures uncalled { calls self.new ≡ calls self.old }
        ensures kept { held self.new ≡ held self.old };

    /// Gives a device of this size in an empty file that was made for it at a path, which is held. By then the file's name lasts, and all bytes of
    /// the device are on the disk, as 00. If the path has another file by now, it fails with `ResourceBusy`.
    fn fill(&mut self, path: &str, size: u64) -> io::Result<Self::New>
        requires { held self.old ≡ Some path.now }
        ensures begun { IfOk result (λ device. (Self.New.size_of device ≡ size) × (uses self.new ≡ uses self.old ++ Begins path.now (Self.New.state device) ∷ [])) }
        ensures refused { OnErr result (uses self.new ≡ uses self.old) }
        ensures uncalled { calls self.new ≡ calls self.old }
        ensures kept { held self.new ≡ held self.old };

    /// Makes the file of a copy, with these rights, and gives a device of this size over it. Also answers the numbers by which the system tells that
    /// file from others.
    fn begin_copy(
        &mut self,
        part: &str,
        rights: Rights,
        size: u64,
    ) -> Result<(Self::New, Option<FileNumbers>), Undone>
        ensures begun { IfOk result (λ found. (Self.New.size_of found.0 ≡ size) × (uses self.new ≡ uses self.old ++ Begins part.now (Self.New.state found.0) ∷ [])) }
        ensures refused { OnErr result (uses self.new ≡ uses self.old) }
        ensures uncalled { calls self.new ≡ calls self.old }
        ensures kept { held self.new ≡ held self.old };

    /// Takes back a device that was begun. Answers what the system said of the call on it that failed; `None` if none did.
    fn finish(&mut self, device: Self::New) -> Option<io::Error>
        ensures noted { uses self.new ≡ uses self.old ++ Leaves (Self.New.state device) (Self.New.reads device) ∷ [] }
        ensures uncalled { calls self.new ≡ calls self.old }
        ensures kept { held self.new ≡ held self.old };

    /// Gives the copy that was made at `part`, whose file has these numbers, its name `copy`, and makes that name last. If it fails, the copy doesn't
    /// have that name.
    fn link(&mut self, part: &str, copy: &str, numbers: Option<FileNumbers>) -> Result<(), Undone>
        ensures named { OnOk result (uses self.new ≡ uses self.old ++ Links part.now copy.now ∷ []) }
        ensures refused { OnErr result (uses self.new ≡ uses self.old) }
        ensures uncalled { calls self.new ≡ calls self.old }
        ensures kept { held self.new ≡ held self.old };

    /// Makes a request to stop for a device, at its path, if none is there. Another process had the device when it was last asked for.
    fn request(&mut self, device: &str, path: &str) -> io::Result<()>
        requires elsewhere { WasHeldElsewhere device.now (calls self.old) }
        requires beside { path.now ≡ request_path device.now }
        ensures noted { uses self.new ≡ uses self.old ++ Requests path.now (is_ok result) ∷ [] }
        ensures uncalled { calls self.new ≡ calls self.old }
        ensures kept { held self.new ≡ held self.old };

    /// A store may step on a device that is opened. Nothing else may write it.
    ghost may_step: { Steps → Self.Device.writable ≡ true };

    /// A device that is begun may be formatted.
    ghost may_format: { Formats → Self.New.writable ≡ true };

    /// A device that is begun may become a copy.
    ghost may_copy: { Copies → Self.New.writable ≡ true };
}

/// Devices in files of the system. What each device that is opened holds, as far as no call tells it, is what `new` was told of it.
///
/// Each method here makes the one call that it notes. That is known by reading alone: no contract can say what a file takes.
#[derive(Drop)]
pub struct FileDevices<'r, R, L: Drop, K: Drop> {
    rt: &'r R,
    locks: L,
    /// The lock of the device that is held, until this value is dropped.
    held: Option<Held<K>>,
    noted: DeviceCalls,
    used: DeviceCalls,
    media: Media,
}

impl<'r, R, L: Drop, K: Drop> FileDevices<'r, R, L, K> {
    /// Begins with no device asked for. What the devices hold that are opened is the ghost value `media`.
    pub fn new(rt: &'r R, locks: L) -> FileDevices<'r, R, L, K>
        ghost media: { List Medium }
        ensures media { result.media.told ≡ media }
        ensures none { result.noted.told ≡ [] }
        ensures free { result.held ≡ None }
        ensures unused { result.used.told ≡ [] }
    {
        FileDevices {
            rt,
            locks,
            held: None,
            noted: DeviceCalls::new(),
            used: DeviceCalls::new(),
            media: Media::of(&()),
        }
    }

    /// Makes the device in a file that was opened. Fails as the system does.
    fn device_in<F: FileExt + OpenFile + Drop>(
        &self,
        file: F,
    ) -> io::Result<Counted<RawFile<NotedFile<F>>>>
        ensures state { IfOk result (λ device. ⟦<Counted<RawFile<NotedFile<F>>> as Disk>⟧.state device ≡ begins (medium_at self.now.media.told self.now.noted.told self.now.used.told) (⟦<Counted<RawFile<NotedFile<F>>> as Disk>⟧.size_of device)) }
        ensures reads { IfOk result (λ device. ⟦<Counted<RawFile<NotedFile<F>>> as Disk>⟧.reads device ≡ []) }
    {
        let file = NotedFile::new(file);
        self.media.device_in(file, &self.noted, &self.used)
    }

    /// Makes the device in a file that was opened to be only read.
    fn device_to_read<F: FileExt + OpenFile + Drop>(
        &self,
        file: F,
    ) -> Result<Counted<RawFile<NotedFile<F>>>, Refusal>
        ensures state { IfOk result (λ device. ⟦<Counted<RawFile<NotedFile<F>>> as Disk>⟧.state device ≡ begins (medium_at self.now.media.told self.now.noted.told self.now.used.told) (⟦<Counted<RawFile<NotedFile<F>>> as Disk>⟧.size_of device)) }
        ensures reads { IfOk result (λ device. ⟦<Counted<RawFile<NotedFile<F>>> as Disk>⟧.reads device ≡ []) }
    {
        match self.device_in(file) {
            Ok(device) => Ok(device),
            Err(_) => Err(Refusal::ReadFailed),
        }
    }
}

impl<
    'r,
    R: Files<File = F> + AllocGlobal,
    F: FileExt + OpenFile + Drop,
    L: Locks<F, Lock = K> + Drop,
    K: Drop,
> Devices for FileDevices<'r, R, L, K> {
    type Device = Counted<RawFile<NotedFile<F>>>;

    type New = NewDisk<F>;

    ghost calls = { λ devices. devices.noted.told };

    ghost uses = { λ devices. devices.used.told };

    ghost held = { λ devices. option_map (λ held. path_held held.noted.told) devices.held };

    fn hold(&mut self, path: &str, seconds: u32) -> Result<(), InUse> {
        let taken = self.locks.take(path, seconds);
        self.noted = self.noted.held(path, seconds, taken.is_ok());
        self.held = Some(taken?);
        Ok(())
    }

    fn is_kept(&self, path: &str) -> bool {
        match &self.held {
            Some(held) => self.locks.is_kept(&held.lock, path),
            None => false,
        }
    }

    fn make(&mut self, path: &str) -> io::Result<Made> {
        let made = made_file(self.rt, &mut self.locks, path);
        self.noted = self.noted.made(path, made.is_ok());
        self.held = Some(made?);
        Ok(Made::new(path))
    }

    fn remove(&self, path: &str, _made: Made) {
        if self.is_kept(path) {
            let _left = fs::remove_file(self.rt, path);
        }
    }

    fn open(&mut self, path: &str) -> io::Result<Counted<RawFile<NotedFile<F>>>>
        requires { option_map (λ held. path_held held.noted.told) self.old.held ≡ Some path.now }
        ensures opened { IfOk result (λ device. self.new.noted.told ≡ self.old.noted.told ++ Opens path.now (⟦<Counted<RawFile<NotedFile<F>>> as Disk>⟧.state device) ∷ []) }
        ensures refused { OnErr result (self.new.noted.told ≡ self.old.noted.told) }
        ensures kept { option_map (λ held. path_held held.noted.told) self.new.held ≡ option_map (λ held. path_held held.noted.told) self.old.held }
        ensures unused { self.new.used.told ≡ self.old.used.told }
        ensures state { IfOk result (λ device. ⟦<Counted<RawFile<NotedFile<F>>> as Disk>⟧.state device ≡ begins (medium_at self.old.media.told self.old.noted.told self.old.used.told) (⟦<Counted<RawFile<NotedFile<F>>> as Disk>⟧.size_of device)) }
        ensures reads { IfOk result (λ device. ⟦<Counted<RawFile<NotedFile<F>>> as Disk>⟧.reads device ≡ []) }
        ensures media { self.new.media.told ≡ self.old.media.told }
    {
        let opened = match file_to_write(self.rt, path) {
            Ok(file) => self.device_in(file),
            Err(error) => Err(error),
        };
        let device = kept_only(opened, self.is_kept(path))?;
        self.noted = self.noted.opened(path, &device);
        Ok(device)
    }

    fn close(&mut self, device: Counted<RawFile<NotedFile<F>>>) -> Option<io::Error> {
        self.noted = self.noted.closed(&device);
        device.raw().failure().map(said_again)
    }

    fn read(&mut self, path: &str) -> io::Result<Vec<u8>> {
        let bytes = fs::read(self.rt, path)?;
        self.used = self.used.read(path, bytes.as_slice());
        Ok(bytes)
    }

    fn look(&mut self, path: &str) -> Result<Counted<RawFile<NotedFile<F>>>, Refusal>
        ensures looked { IfOk result (λ device. self.new.used.told ≡ self.old.used.told ++ Looks path.now (⟦<Counted<RawFile<NotedFile<F>>> as Disk>⟧.state device) ∷ []) }
        ensures refused { OnErr result (self.new.used.told ≡ self.old.used.told) }
        ensures uncalled { self.new.noted.told ≡ self.old.noted.told }
        ensures kept { option_map (λ held. path_held held.noted.told) self.new.held ≡ option_map (λ held. path_held held.noted.told) self.old.held }
        ensures state { IfOk result (λ device. ⟦<Counted<RawFile<NotedFile<F>>> as Disk>⟧.state device ≡ begins (medium_at self.old.media.told self.old.noted.told self.old.used.told) (⟦<Counted<RawFile<NotedFile<F>>> as Disk>⟧.size_of device)) }
        ensures reads { IfOk result (λ device. ⟦<Counted<RawFile<NotedFile<F>>> as Disk>⟧.reads device ≡ []) }
        ensures media { self.new.media.told ≡ self.old.media.told }
    {
        let file = file_to_read(self.rt, path)?;
        let device = self.device_to_read(file)?;
        self.used = self.used.looked(path, &device);
        Ok(device)
    }

    fn look_to_copy(
        &mut self,
        path: &str,
    ) -> Result<(Counted<RawFile<NotedFile<F>>>, Rights), Refusal>
        ensures looked { IfOk result (λ found. self.new.used.told ≡ self.old.used.told ++ Looks path.now (⟦<Counted<RawFile<NotedFile<F>>> as Disk>⟧.state found.0) ∷ []) }
        ensures refused { OnErr result (self.new.used.told ≡ self.old.used.told) }
        ensures uncalled { self.new.noted.told ≡ self.old.noted.told }
        ensures kept { option_map (λ held. path_held held.noted.told) self.new.held ≡ option_map (λ held. path_held held.noted.told) self.old.held }
        ensures state { IfOk result (λ found. ⟦<Counted<RawFile<NotedFile<F>>> as Disk>⟧.state found.0 ≡ begins (medium_at self.old.media.told self.old.noted.told self.old.used.told) (⟦<Counted<RawFile<NotedFile<F>>> as Disk>⟧.size_of found.0)) }
        ensures reads { IfOk result (λ found. ⟦<Counted<RawFile<NotedFile<F>>> as Disk>⟧.reads found.0 ≡ []) }
        ensures media { self.new.media.told ≡ self.old.media.told }
    {
        let (file, rights) = source_of(self.rt, path)?;
        let device = self.device_to_read(file)?;
        self.used = self.used.looked(path, &device);
        Ok((device, rights))
    }

    fn leave(&mut self, device: Counted<RawFile<NotedFile<F>>>) {
        self.used = self.used.left(&device);
    }

    fn replace(&mut self, path: &str, size: u64) -> io::Result<NewDisk<F>> {
        let disk = NewDisk::create_over(self.rt, path, size)?;
        if !self.is_kept(path) {
            return Err(changed());
        }
        self.used = self.used.begun(path, &disk);
        Ok(disk)
    }

    fn fill(&mut self, path: &str, size: u64) -> io::Result<NewDisk<F>> {
        sync_folder(self.rt, path)?;
        let mut disk = NewDisk::create_over(self.rt, path, size)?;
        if !self.is_kept(path) {
            return Err(changed());
        }
        if disk.sync().is_err() {
            return Err(failure_of(disk));
        }
        self.used = self.used.begun(path, &disk);
        Ok(disk)
    }

    fn begin_copy(
        &mut self,
        part: &str,
        rights: Rights,
        size: u64,
    ) -> Result<(NewDisk<F>, Option<FileNumbers>), Undone> {
        let (disk, numbers) = begun_copy(self.rt, part, rights, size)?;
        self.used = self.used.begun(part, &disk);
        Ok((disk, numbers))
    }

    fn finish(&mut self, device: NewDisk<F>) -> Option<io::Error> {
        self.used = self.used.left(&device);
        device.into_raw().into_failure()
    }

    fn link(&mut self, part: &str, copy: &str, numbers: Option<FileNumbers>) -> Result<(), Undone> {
        name_copy(self.rt, part, copy, numbers)?;
        self.used = self.used.named(part, copy);
        Ok(())
    }

    fn request(&mut self, _device: &str, path: &str) -> io::Result<()> {
        let made = make_request(self.rt, path);
        self.used = self.used.requested(path, made.is_ok());
        made
    }

    ghost may_step = { λ _. refl };

    ghost may_format = { λ _. refl };

    ghost may_copy = { λ _. refl };
}

/// Opens the file of a device to be written. It stays as it is.
pub(crate) fn file_to_write<R: Files<File = F>, F: OpenFile + Drop>(
    rt: &R,
    path: &str,
) -> io::Result<F> {
    let mut how = OpenOptions::new();
    how.read(true).write(true).open(rt, path)
}

/// Gives what the system said of the call by which a device failed.
fn failure_of<F: FileExt + OpenFile + Drop>(disk: NewDisk<F>) -> io::Error {
    match disk.into_raw().into_failure() {
        Some(error) => error,
        None => io::Error::from(io::ErrorKind::Other),
    }
}

/// Makes an empty file at a path that has nothing, and takes its lock. If another process has taken that lock already, it fails and leaves the file
/// to it.
fn made_file<R: Files<File = F>, F: OpenFile + Drop, L: Locks<F, Lock = K>, K: Drop>(
    rt: &R,
    locks: &mut L,
    path: &str,
) -> io::Result<Held<K>>
    ensures { IfOk result (λ held. path_held held.noted.told ≡ path.now) }
{
    let mut how = OpenOptions::new();
    let file = how.read(true).write(true).create_new(true).open(rt, path)?;
    match locks.take_made(path, file) {
        Ok(held) => Ok(held),
        Err(_in_use) => Err(changed()),
    }
}

/// Answers `opened` if the path of the device still has what it had when it was asked for. Otherwise it fails with `ResourceBusy`, whatever `opened`
/// says.
fn kept_only<T: Drop>(opened: io::Result<T>, is_kept: bool) -> io::Result<T>
    ensures kept { is_kept ≡ true → result ≡ opened }
    ensures changed { is_kept ≡ false → IsErrAnd result (λ error. error_kind error ≡ ErrorKind.ResourceBusy) }
{
    if is_kept { opened } else { Err(changed()) }
}

/// Copies an error of the system.
fn said_again(error: &io::Error) -> io::Error {
    match error.raw_os_error() {
        Some(code) => io::Error::from_raw_os_error(code),
        None => io::Error::from(error.kind()),
    }
}

/// Gives why a device wasn't opened, for an error of the system. If another file is at its path by now, another process has it.
pub(crate) fn opening_refusal(error: &io::Error) -> Refusal
    ensures used { error_kind error.now ≡ ErrorKind.ResourceBusy → result ≡ Refusal.InUse }
    ensures memory { error_kind error.now ≡ ErrorKind.OutOfMemory → result ≡ Refusal.Memory }
    ensures failed { (error_kind error.now ≡ ErrorKind.ResourceBusy → ⊥) → (error_kind error.now ≡ ErrorKind.OutOfMemory → ⊥) → result ≡ Refusal.ReadFailed }
{
    if is_busy(error) {
        Refusal::InUse
    } else {
        read_refusal(error)
    }
}

/// Says why the file at the path of a device, which is held, isn't opened: it is no regular file. If another process has put it there since the
/// device was asked for, it says that, and puts that error into `system`. Answers the status.
pub(crate) fn refuse_special<S: Devices, E: Write>(
    devices: &S,
    path: &str,
    system: &mut Option<io::Error>,
    err: &mut E,
) -> u8
    ensures { result ≡ 1 }
{
    if devices.is_kept(path) {
        refuse(err, Refusal::ReadFailed)
    } else {
        refuse_opening(changed(), system, err)
    }
}

/// Says why a device wasn't opened, and puts what the system said into `system`. Answers the status.
pub(crate) fn refuse_opening<E: Write>(
    error: io::Error,
    system: &mut Option<io::Error>,
    err: &mut E,
) -> u8
    ensures { result ≡ 1 }
{
    let refusal = opening_refusal(&error);
    *system = Some(error);
    refuse(err, refusal)
}
