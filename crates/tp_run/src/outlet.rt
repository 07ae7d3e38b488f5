//! The outlet that a run prints to.

ghost use Rattle.std.specs.Prelude.{◌≡◌, ◌<◌, ◌↔◌, [], ◌∷◌, length, IfOk};
ghost use Rattle.tp_run.specs.Lower.{WritesAtMost, WriteAppends, error_kind};
ghost use Rattle.tp_run.specs.Outlet.{CallsMore, OutletValue, unnoted};
ghost use Rattle.tp_run.specs.Shown.{MayTake};

use std::io;
use std::io::{ErrorKind, Write};
use tp_disk::Disk;
use tp_flush::Flusher;
use tp_shared::Naming;

/// Why an outlet took no bytes.
#[derive(Clone, Copy)]
pub enum OutletFault {
    /// It was interrupted, and may be called again.
    Interrupted,
    /// It failed.
    Failed,
}

/// What a run over a device of the type `D` prints to. Each call is lent the flusher, so that contracts can speak of the device's state at that call.
pub trait Outlet<D: Disk> {
    /// The bytes that the outlet has taken, and the calls that it got. `None` says that nothing is known.
    ghost value: { Self → OutletValue };

    /// Takes some of these bytes, from the first one on, and answers how many; or takes none, and says why. The caller proves that no crash takes them
    /// back.
    fn print<J: Naming>(
        &mut self,
        flusher: &Flusher<J, D>,
        bytes: &[u8],
    ) -> Result<usize, OutletFault>
        requires shown { MayTake J.formatted J.before flusher.now bytes.now }
        ensures some { 0 < length bytes.now → IfOk result (λ count. 0 < count) }
        ensures few { WritesAtMost result bytes.now }
        ensures takes { WriteAppends (value self.old).taken (value self.new).taken result bytes.now }
        ensures noted { CallsMore (value self.old).calls (value self.new).calls (record { bytes = bytes.now; answer = result; there = flusher.now.state } ∷ []) };
}

/// Gives why a writer took no bytes, by its error. A writer that was interrupted may be called again.
fn fault_of(error: &io::Error) -> OutletFault
    ensures { (result ≡ OutletFault.Interrupted) ↔ (error_kind error.now ≡ ErrorKind.Interrupted) }
{
    if error.kind() == ErrorKind::Interrupted {
        OutletFault::Interrupted
    } else {
        OutletFault::Failed
    }
}

/// Each writer is an outlet. It notes no calls.
impl<O: Write, D: Disk> Outlet<D> for O {
    ghost value = { λ out. unnoted (O.contents out) };

    fn print<J: Naming>(
        &mut self,
        _flusher: &Flusher<J, D>,
        bytes: &[u8],
    ) -> Result<usize, OutletFault> {
        match self.write(bytes) {
            Ok(count) if count > 0 => Ok(count),
            Ok(_) => Err(OutletFault::Failed),
            Err(error) => Err(fault_of(&error)),
        }
    }
}
