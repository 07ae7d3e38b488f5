//! The rights of a copy, by those of its device.

ghost use Rattle.std.specs.Prelude.{◌≡◌, bit_and, None, Some};
ghost use Rattle.std.specs.Fs.{metadata_mode};
ghost use Rattle.tp_program.specs.Rights.{first_rights, rights_in, shared_right, shared_rights};

use std::fs::{Metadata, OpenFile, Permissions};
use std::io;
use std::os::unix::fs::{MetadataExt, PermissionsExt};

/// The bits that say who may read, write and run a file.
const RIGHTS: u32 = 0o777;

/// Of these, the owner's.
const OWNER: u32 = 0o700;

/// Of these, the bits by which group and others may read a file; the next two are for writing and running it.
const READ: u32 = 0o044;

const WRITE: u32 = 0o022;

const RUN: u32 = 0o011;

/// Who may read, write and run a device's file, and the number of its group.
#[derive(Clone, Copy)]
pub struct Rights {
    bits: u32,
    group: u32,
}

/// Gives this right if both a file's group and all others have it; else none.
fn shared_right(bits: u32, right: u32) -> u32
    ensures { result ≡ shared_right bits right }
{
    if bits & right == right { right } else { 0 }
}

/// Gives the owner's rights, and those that both the group and all others have.
fn shared_rights(bits: u32) -> u32
    ensures { result ≡ shared_rights bits }
{
    let (read, write, run) = (
        shared_right(bits, READ),
        shared_right(bits, WRITE),
        shared_right(bits, RUN),
    );
    bits & OWNER | read | write | run
}

/// Gives these rights if a file of this mode hasn't just them.
fn lacked(bits: u32, mode: u32) -> Option<u32>
    ensures given { bit_and mode 0o777 ≡ bits → result ≡ None }
    ensures lacked { (bit_and mode 0o777 ≡ bits → ⊥) → result ≡ Some bits }
{
    if mode & RIGHTS == bits {
        None
    } else {
        Some(bits)
    }
}

impl Rights {
    /// Gives the rights of a device's file.
    pub(crate) fn of(device: &Metadata) -> Rights
        ensures { result.bits ≡ bit_and (metadata_mode device.now) 0o777 }
    {
        Rights {
            bits: device.permissions().mode() & RIGHTS,
            group: device.gid(),
        }
    }

    /// Gives the rights with which the copy's file is made: only its owner has any, since it isn't known yet which group the file gets.
    pub(crate) fn at_first(self) -> u32
        ensures { result ≡ first_rights self.bits }
    {
        self.bits & OWNER
    }

    /// Gives the rights of a copy whose file is of this group. If the device's group is another one, the group may do no more than all others.
    fn within(self, group: u32) -> u32
        ensures { result ≡ rights_in self.group group self.bits }
    {
        if group == self.group {
            self.bits
        } else {
            shared_rights(self.bits)
        }
    }

    /// Gives the rights that a copy whose file is of this group lacks; `None` if it has them already.
    fn lacking(self, group: u32, kept: &Metadata) -> Option<u32>
        ensures given { bit_and (metadata_mode kept.now) 0o777 ≡ rights_in self.group group self.bits → result ≡ None }
        ensures lacked { (bit_and (metadata_mode kept.now) 0o777 ≡ rights_in self.group group self.bits → ⊥) → result ≡ Some (rights_in self.group group self.bits) }
    {
        lacked(self.within(group), kept.permissions().mode())
    }

    /// Gives the copy's file its rights, unless it has them already.
    pub(crate) fn give<F: OpenFile>(self, file: &F, kept: &Metadata) -> io::Result<()> {
        match self.lacking(kept.gid(), kept) {
            Some(bits) => file.set_permissions(Permissions::from_mode(bits)),
            None => Ok(()),
        }
    }
}
