//! Whether two names are of one file.

ghost use Rattle.std.specs.Prelude.{◌≡◌, ◌↔◌, [], ◌++◌, false, true, Some, All, Contains, IfErr, IfNone, IfSome, OnOk, option_to_list, string_bytes};
ghost use Rattle.tp_stream_files.specs.Named.{HaveOnePath, HaveOwnPaths, is_standard};

use crate::ends::{EndFault, Ends, PortFile};
use crate::standard::{StandardStream, StandardStreams, regular_behind};
use crate::system::Looks;
use std::alloc::Global;
use std::fs;
use std::fs::{Files, Metadata};
use std::os::unix::fs::MetadataExt;

/// The numbers by which the system tells a file from all others.
#[derive(Clone, Copy, PartialEq, Eq)]
pub struct FileNumbers {
    pub disk: u64,
    pub number: u64,
}

/// Gives the numbers of a file; `None` if the system tells none.
pub fn numbers_in(kept: &Metadata) -> Option<FileNumbers> {
    if kept.ino() == 0 {
        return None;
    }
    Some(FileNumbers {
        disk: kept.dev(),
        number: kept.ino(),
    })
}

/// Whether two numbers are those of one file.
pub(crate) fn are_one(one: Option<FileNumbers>, other: Option<FileNumbers>) -> bool
    ensures some { IfSome one (λ file. (result ≡ true) ↔ (other ≡ Some file)) }
    ensures none { IfNone one (result ≡ false) }
{
    match (one, other) {
        (Some(one), Some(other)) => one == other,
        _ => false,
    }
}

/// Gives the numbers of the file that a path names; `None` if there is no file, or the system tells none.
pub(crate) fn numbers_at_path<R: Files>(rt: &R, path: &str) -> Option<FileNumbers> {
    match fs::metadata(rt, path) {
        Ok(kept) => numbers_in(&kept),
        Err(_) => None,
    }
}

/// Whether two paths name one file, as far as the system says, however they are spelled and whatever links are between.
pub fn is_one_file<R: Files>(rt: &R, one: &str, other: &str) -> bool
    ensures { one.now ≡ other.now → result ≡ true }
{
    one == other || are_one(numbers_at_path(rt, one), numbers_at_path(rt, other))
}

/// Whether a path names the file that a standard stream comes from or goes to, as far as the system says.
pub fn is_standard_file<R: Files + StandardStreams>(
    rt: &R,
    path: &str,
    stream: StandardStream,
) -> bool {
    are_one(numbers_at_path(rt, path), rt.behind(stream).numbers)
}

/// Whether standard output and standard error go into one regular file, so that what is said on one may overwrite what was put on the other.
pub fn is_output_said_over<R: StandardStreams>(rt: &R) -> bool {
    are_one(
        regular_behind(rt, StandardStream::Out),
        regular_behind(rt, StandardStream::Error),
    )
}

/// The files that are noted, because an output or input of the stream has them.
#[derive(Drop)]
pub(crate) struct Taken {
    files: Vec<FileNumbers>,
}

impl Taken {
    /// Begins with no files.
    pub(crate) fn new(alloc: Global) -> Taken
        ensures { result.files.items ≡ [] }
    {
        Taken {
            files: Vec::new(alloc),
        }
    }

    /// Whether a file is noted.
    pub(crate) fn has(&self, file: Option<FileNumbers>) -> bool
        ensures some { IfSome file (λ file. (result ≡ true) ↔ Contains self.now.files.items file) }
        ensures none { IfNone file (result ≡ false) }
    {
        match file {
            Some(file) => self.files.contains(&file),
            None => false,
        }
    }

    /// Notes a file.
    pub(crate) fn add(&mut self, file: Option<FileNumbers>) -> Result<(), EndFault>
        ensures added { OnOk result (self.new.files.items ≡ self.old.files.items ++ option_to_list file) }
        ensures fault { IfErr result (λ fault. fault ≡ EndFault.Memory) }
    {
        let Some(file) = file else {
            return Ok(());
        };
        match self.files.push(file) {
            Ok(()) => Ok(()),
            Err(_) => Err(EndFault::Memory),
        }
    }
}

/// Gives the numbers of the file that was typed for a port, if it exists. If it is standard input or output, that is the file of `stream`.
fn numbers_of<L: Looks>(looks: &L, end: &PortFile, stream: StandardStream) -> Option<FileNumbers> {
    if end.is_standard() {
        looks.numbers_behind(stream)
    } else {
        looks.numbers_at(end.path.as_str())
    }
}

/// Whether one path was typed for two ports, and isn't standard input or output.
fn have_one_path(one: &PortFile, other: &PortFile) -> bool
    ensures { result ≡ false → HaveOnePath one.now other.now → ⊥ }
{
    !one.is_standard() && one.path.as_str() == other.path.as_str()
}

/// Whether an output goes into one of these files. If one of them is standard input or output, that is the file of `stream`. Two outputs that are
/// both standard output are found elsewhere.
fn goes_into<L: Looks>(
    looks: &L,
    end: &PortFile,
    others: &[PortFile],
    stream: StandardStream,
    are_outputs: bool,
) -> bool
    ensures { result ≡ false → All (λ other. HaveOnePath end.now other → ⊥) others.now }
{
    let numbers = numbers_of(looks, end, StandardStream::Out);
    for other in others {
        let is_told = are_outputs && end.is_standard() && other.is_standard();
        if have_one_path(end, other)
            || (!is_told && are_one(numbers, numbers_of(looks, other, stream)))
        {
            return true;
        }
    }
    false
}

/// Whether an output goes into the file of the device or of standard error.
fn goes_elsewhere<L: Looks>(looks: &L, end: &PortFile, device: &str) -> bool
    ensures { result ≡ false → is_standard end.now ≡ false → string_bytes end.now.path ≡ device.now → ⊥ }
{
    let numbers = numbers_of(looks, end, StandardStream::Out);
    let is_device = are_one(numbers, looks.numbers_at(device));
    let is_error = are_one(numbers, looks.numbers_behind(StandardStream::Error));
    let is_path = !end.is_standard() && end.path.as_str() == device;
    is_device || is_path || is_error
}

/// Gives a port whose output goes into the file of the device, of an input, of another port's output or of standard error. It finds what can be seen
/// before any file is made; else `None`.
pub(crate) fn same_file<L: Looks>(looks: &L, device: &str, ends: &Ends) -> Option<u8>
    ensures { IfNone result (HaveOwnPaths device.now ends.now.outs.items ends.now.ins.items) }
{
    for (number, end) in ends.outs.iter().enumerate() {
        let before = &ends.outs[..number];
        if goes_elsewhere(looks, end, device)
            || goes_into(looks, end, before, StandardStream::Out, true)
            || goes_into(looks, end, &ends.ins, StandardStream::In, false)
        {
            return Some(end.port);
        }
    }
    None
}
