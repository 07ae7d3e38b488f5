//! What takes a port's output.

ghost use Rattle.std.specs.Prelude.{◌≡◌, ℕ, List, Option, None, OnOk};
ghost use Rattle.tp_stream_files.specs.Held.{HeldBytes, HasLength, HasPut, HasReach, IsSafe, KeepsBytes, KeepsFront, Reaches};

/// Why bytes couldn't be put, or couldn't be made safe.
#[derive(Clone, Copy, PartialEq, Eq)]
pub enum SinkFault {
    /// The call failed.
    Failed,
    /// Whoever takes the bytes has gone, such as a pipe's reader.
    Gone,
}

/// Holds a port's output: byte number q of the port has position q.
pub trait Sink {
    /// What the sink holds, if that is known.
    ghost held: { Self → Option HeldBytes } = { λ _. None };

    /// The path at which its file was opened, if it is a file's.
    ghost path: { Self → Option (List ℕ) } = { λ _. None };

    /// The port whose output it holds, if it says that.
    ghost port: { Self → Option ℕ } = { λ _. None };

    /// Up to which position it can be put: its bytes before that exist, and are safe.
    fn reach(&self) -> u64
        ensures there { Reaches result (held self.now) }
        ensures exactly { HasReach result (held self.now) };

    /// How many bytes it has; `None` if it has no positions, so that nothing is overwritten.
    fn length(&self) -> Option<u64>
        ensures { HasLength result (held self.now) };

    /// Makes all that was put safe, so that a crash leaves it.
    fn settle(&mut self) -> Result<(), SinkFault>
        ensures safe { OnOk result (IsSafe (held self.new)) }
        ensures bytes { KeepsBytes (held self.old) (held self.new) }
        ensures path { path self.new ≡ path self.old }
        ensures port { port self.new ≡ port self.old };
}

/// A sink that takes any bytes. A stream doesn't know its sinks as such: what it puts has to be shown.
pub trait PutAt: Sink {
    /// Puts bytes at position `at`, over what is there. Even if that fails, the bytes before that position are as they were.
    fn put(&mut self, at: u64, bytes: &[u8]) -> Result<(), SinkFault>
        requires { Reaches at (Self.held self.old) }
        ensures put { OnOk result (HasPut at bytes.now (Self.held self.old) (Self.held self.new)) }
        ensures front { KeepsFront at (Self.held self.old) (Self.held self.new) }
        ensures path { Self.path self.new ≡ Self.path self.old }
        ensures port { Self.port self.new ≡ Self.port self.old };
}
