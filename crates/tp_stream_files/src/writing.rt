//! Bytes that are written one after another.

ghost use Rattle.std.specs.Prelude.{OnOk};
ghost use Rattle.std.specs.Io.KnownBytes.{Appends};
ghost use Rattle.tp_stream_files.specs.Said.{AppendsFront};

use std::io;
use std::io::{ErrorKind, Write};

/// Writes bytes as they are. If that fails, only some of the first ones were taken. Makes an interrupted write again.
pub(crate) fn write_front<E: Write>(out: &mut E, bytes: &[u8]) -> io::Result<()>
    ensures all { OnOk result (Appends (E.contents out.old) (E.contents out.new) bytes.now) }
    ensures front { AppendsFront (E.contents out.old) (E.contents out.new) bytes.now }
{
    let mut written = 0;
    for _ in 0..u64::MAX {
        if written >= bytes.len() {
            return Ok(());
        }
        match out.write(&bytes[written..]) {
            Ok(0) => break,
            Ok(count) => written += count,
            Err(error) if error.kind() == ErrorKind::Interrupted => {}
            Err(error) => return Err(error),
        }
    }
    Err(io::Error::from(ErrorKind::WriteZero))
}
