//! The rights to format a device, and to write a copy. No other crate can make one.
//!
//! A function that never returns owes no `ensures`. So what it writes before is ruled out by what `Disk::write_at` asks: that devices of this
//! type may be written. A caller above this crate knows it, for any type of devices, only under a right. `tp_flush` alone makes the right to a store's
//! steps.

ghost use Rattle.std.specs.Prelude.{◌≡◌, true};
ghost use Rattle.tp_area.specs.Rights.{Formats, Copies};

use tp_disk::Disk;

/// Of this a right is made. This module is private and has no `impl`, so proofs of other crates can name nothing of it: by an `impl` they could. A
/// variant without a field is made by `grind` in any crate.
pub(crate) enum Secret {
    Number(u64),
}

/// Who may format.
pub(crate) enum Formatter {
    By(Secret),
}

/// Who may write a copy.
pub(crate) enum Copier {
    By(Secret),
}

/// Says that formatting may write the device. It does nothing.
pub(crate) fn may_format<D: Disk>()
    requires { Formats → D.writable ≡ true }
    ensures { D.writable ≡ true }
{}

/// Says that a copy may be written. It does nothing.
pub(crate) fn may_copy<D: Disk>()
    requires { Copies → D.writable ≡ true }
    ensures { D.writable ≡ true }
{}
