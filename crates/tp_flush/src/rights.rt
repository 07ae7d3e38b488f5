//! The right to the steps of a store. No other crate can make one.
//!
//! A function that never returns owes no `ensures`. So what it writes before is ruled out by what a store's calls ask: that devices of this type may be
//! written. `run` knows it, for any type of devices, only under this right: it gets `Steps → D.writable ≡ true`. So it can hand a device to a flusher, but
//! it can't append to it by itself. What is appended are entries of a book.

ghost use Rattle.std.specs.Prelude.{◌≡◌, true};
ghost use Rattle.tp_flush.specs.Rights.{Steps};

use tp_disk::Disk;

/// Of this the right is made. This module is private and has no `impl`, so proofs of other crates can name nothing of it: by an `impl` they could. A
/// variant without a field is made by `grind` in any crate.
pub(crate) enum Secret {
    Number(u64),
}

/// Who may step.
pub(crate) enum Stepper {
    By(Secret),
}

/// Says that a step of a store may write the device. It does nothing.
pub(crate) fn may_step<D: Disk>()
    requires { Steps → D.writable ≡ true }
    ensures { D.writable ≡ true }
{}
