//! What is said if another process holds the device.

ghost use Rattle.std.specs.Prelude.{◌≡◌, ◌↔◌, true};
ghost use Rattle.std.specs.IoError.{error_kind};

use std::io;
use std::io::{ErrorKind, Write};
use tp_views::{Refusal, refuse};

/// Refuses a command because another process holds the device; if `explains` is true, says more of that. Answers the status. Ignores a failed write.
pub fn refuse_in_use<E: Write>(explains: bool, err: &mut E) -> u8
    ensures { result ≡ 1 }
{
    let status = refuse(err, Refusal::InUse);
    if explains {
        let _ = write!(
            err,
            "  Another tpnet runs, formats or compacts this device: wait until it ends, or end it. Nothing was read or changed.\n  With --wait-lock SECONDS this command waits for it. One that was killed holds the device until its last write is done.\n"
        );
    }
    status
}

/// Gives the error that says that another file is at the device's path than when it was asked for.
pub(crate) fn changed() -> io::Error
    ensures { error_kind result ≡ ErrorKind.ResourceBusy }
{
    io::Error::from(ErrorKind::ResourceBusy)
}

/// Whether an error of the system, or [`changed`], says that something is in use.
pub(crate) fn is_busy(error: &io::Error) -> bool
    ensures { (result ≡ true) ↔ (error_kind error.now ≡ ErrorKind.ResourceBusy) }
{
    error.kind() == ErrorKind::ResourceBusy
}

/// Says more of a refusal because another file is at the device's path. Ignores a failed write.
pub(crate) fn explain_changed<E: Write>(err: &mut E) {
    let _ = write!(
        err,
        "  While this command asked for the device another process made, moved or removed what stands at its path. Nothing was read or changed.\n  Give the same command again.\n"
    );
}
