//! A device that is written is held: one process at a time has it.

ghost use Rattle.std.specs.Prelude.{◌≡◌, IfErr, IfOk};
ghost use Rattle.std.specs.IoError.{error_kind};
ghost use Rattle.tp_program.specs.Devices.{path_held};
ghost use Rattle.tp_program.specs.Tries.{WasTriedOnce, WasWaitedFor};

use crate::devices::file_to_write;
use crate::locks::Held;
use crate::trying::{InUse, Tries, lock_file, lock_made};
use std::fs::{Files, Metadata, OpenFile, OpenOptions};
use std::io::ErrorKind;
use std::os::unix::fs::MetadataExt;
use std::{fs, io};
use tp_views::is_openable;

/// What was at a device's path as it was asked for, or was made there then.
#[derive(Drop)]
pub enum Found<F: Drop> {
    /// A file, which is locked for as long as this lives, if its system knows locks.
    Locked(F),
    Nothing,
    /// What can't be opened to be written, or is no device's file: it is nobody's.
    Other,
}

/// Gives what is at a path whose file can't be opened to be written, for what the system says of that.
fn unopened<F: Drop>(error: &io::Error) -> Found<F>
    ensures nothing { error_kind error.now ≡ ErrorKind.NotFound → result ≡ Found.Nothing }
    ensures other { (error_kind error.now ≡ ErrorKind.NotFound → ⊥) → result ≡ Found.Other }
{
    match error.kind() {
        ErrorKind::NotFound => Found::Nothing,
        _ => Found::Other,
    }
}

/// Finds what is at a path, and locks the file there. While another process has its lock, it tries again for `seconds` seconds; then it fails.
pub fn found_at<R: Files<File = F>, F: OpenFile + Drop, T: Tries<F>>(
    rt: &R,
    tries: &mut T,
    path: &str,
    seconds: u32,
) -> Result<Found<F>, InUse>
    ensures { IfErr result (WasWaitedFor seconds) }
{
    if !is_openable(rt, path) {
        return Ok(Found::Other);
    }
    match file_to_write(rt, path) {
        Ok(file) => match lock_file(tries, &file, seconds) {
            Ok(()) => Ok(Found::Locked(file)),
            Err(in_use) => Err(in_use),
        },
        Err(error) => Ok(unopened(&error)),
    }
}

/// Holds the device's file at a path for as long as what is answered lives. While another process has its lock, it tries again for `seconds` seconds;
/// then it fails.
pub fn hold_file<R: Files<File = F>, F: OpenFile + Drop, T: Tries<F>>(
    rt: &R,
    tries: &mut T,
    path: &str,
    seconds: u32,
) -> Result<Held<Found<F>>, InUse>
    ensures got { IfOk result (λ held. path_held held.noted.told ≡ path.now) }
    ensures vain { IfErr result (WasWaitedFor seconds) }
{
    match found_at(rt, tries, path, seconds) {
        Ok(found) => Ok(Held::new(path, found)),
        Err(in_use) => Err(in_use),
    }
}

/// Holds a file that was just made at a path. It tries once, and fails if another process has taken the lock first.
pub fn hold_made<F: Drop, T: Tries<F>>(
    tries: &mut T,
    path: &str,
    file: F,
) -> Result<Held<Found<F>>, InUse>
    ensures got { IfOk result (λ held. path_held held.noted.told ≡ path.now) }
    ensures vain { IfErr result WasTriedOnce }
{
    match lock_made(tries, &file) {
        Ok(()) => Ok(Held::new(path, Found::Locked(file))),
        Err(in_use) => Err(in_use),
    }
}

/// Whether these are of one file, as far as the system says.
fn are_one(one: &Metadata, other: &Metadata) -> bool {
    one.dev() == other.dev() && one.ino() == other.ino()
}

/// Whether a path names this very file, as far as the system says.
fn is_named<R: Files, F: OpenFile>(rt: &R, path: &str, file: &F) -> bool {
    match (file.metadata(), fs::metadata(rt, path)) {
        (Ok(one), Ok(other)) => are_one(&one, &other),
        _ => false,
    }
}

/// Whether nothing is at a path, as far as the system says.
fn is_free<R: Files>(rt: &R, path: &str) -> bool {
    match fs::metadata(rt, path) {
        Ok(_) => false,
        Err(error) => error.kind() == ErrorKind::NotFound,
    }
}

/// Whether a path still has what was found there: the very file that is locked, or nothing. What is nobody's counts as kept.
pub fn is_kept<R: Files, F: OpenFile + Drop>(rt: &R, found: &Found<F>, path: &str) -> bool {
    match found {
        Found::Locked(file) => is_named(rt, path, file),
        Found::Nothing => is_free(rt, path),
        Found::Other => true,
    }
}

/// Whether another process holds the device's file at a path: `tries` takes a lock that several may have, and gives it back at once.
pub fn is_held<R: Files<File = F>, F: OpenFile + Drop, T: Tries<F>>(
    rt: &R,
    tries: &mut T,
    path: &str,
) -> bool {
    if !is_openable(rt, path) {
        return false;
    }
    match OpenOptions::new().read(true).open(rt, path) {
        Ok(file) => tries.is_taken(&file, None),
        Err(_) => false,
    }
}
