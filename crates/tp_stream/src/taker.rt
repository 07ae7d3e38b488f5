//! What takes the outputs of a stream.

ghost use Rattle.std.specs.Prelude.{◌≡◌, ◌+◌, length, true, is_ok, OnOk};
ghost use Rattle.tp_stream_files.specs.Held.{HasPut, KeepsFront, Reaches};
ghost use Rattle.tp_stream.specs.Shown.{MayPut};

use tp_disk::Disk;
use tp_flush::Flusher;
use tp_shared::Naming;
use tp_stream_files::{PutAt, Sink, SinkFault};

/// A sink of a stream over a device of the type `D`. Each put is lent the flusher, so that contracts can speak of the device at that moment.
pub trait Taker<D: Disk>: Sink {
    /// Puts bytes at position `at`, over what is there. Even if that fails, the bytes before that position are as they were. The caller proves that they
    /// are the port's outputs from there on, and that no crash takes them back.
    fn put<J: Naming>(
        &mut self,
        flusher: &Flusher<J, D>,
        at: u64,
        bytes: &[u8],
    ) -> Result<(), SinkFault>
        requires there { Reaches at (Self.held self.old) }
        requires shown { MayPut J.formatted J.before flusher.now (Self.port self.old) at bytes.now }
        ensures put { OnOk result (HasPut at bytes.now (Self.held self.old) (Self.held self.new)) }
        ensures front { KeepsFront at (Self.held self.old) (Self.held self.new) }
        ensures path { Self.path self.new ≡ Self.path self.old }
        ensures port { Self.port self.new ≡ Self.port self.old };
}

/// A sink that takes any bytes takes these.
impl<S: PutAt, D: Disk> Taker<D> for S {
    fn put<J: Naming>(
        &mut self,
        _flusher: &Flusher<J, D>,
        at: u64,
        bytes: &[u8],
    ) -> Result<(), SinkFault> {
        PutAt::put(self, at, bytes)
    }
}

/// Puts bytes and makes them safe. If there are none, it makes no call.
#[tactic(auto, using(tp_stream_files::proofs::StreamEndsSinks::none_put, tp_stream_files::proofs::StreamEndsSinks::none_reaches, tp_stream_files::proofs::StreamEndsSinks::front_stays))]
pub(crate) fn put_safe<J: Naming, D: Disk, S: Taker<D>>(
    flusher: &Flusher<J, D>,
    sink: &mut S,
    at: u64,
    bytes: &[u8],
) -> Result<(), SinkFault>
    requires there { Reaches at (S.held sink.old) }
    requires shown { MayPut J.formatted J.before flusher.now (S.port sink.old) at bytes.now }
    ensures put { OnOk result (HasPut at bytes.now (S.held sink.old) (S.held sink.new)) }
    ensures reach { OnOk result (Reaches (at + length bytes.now) (S.held sink.new)) }
    ensures front { KeepsFront at (S.held sink.old) (S.held sink.new) }
    ensures path { S.path sink.new ≡ S.path sink.old }
    ensures port { S.port sink.new ≡ S.port sink.old }
    ensures none { length bytes.now ≡ 0 → (is_ok result ≡ true) × (sink.new ≡ sink.old) }
{
    if bytes.is_empty() {
        return Ok(());
    }
    match sink.put(flusher, at, bytes) {
        Ok(()) => sink.settle(),
        Err(failed) => Err(failed),
    }
}
