//! `tpnet try`, and how each command prints and refuses.

ghost use Rattle.std.specs.Prelude.{◌≡◌, ◌≤◌, None, OnOk, IfErr};
ghost use Rattle.tp_views.specs.Lower.{Appends, fresh_image};
ghost use Rattle.tp_views.specs.Attempt.{PrintsTrial, TryAnswer};
ghost use Rattle.tp_views.specs.Front.{AppendsFront};

use crate::refusal::Refusal;
use std::alloc::Global;
use std::io::{ErrorKind, Write};
use tp_turn::try_output;

/// How many steps a turn has at most when a node is tried.
pub const TRY_QUANTUM: u16 = 16;

/// Says why a command wasn't done. Answers the status. Ignores a failed write.
pub fn refuse<E: Write>(err: &mut E, refusal: Refusal) -> u8
    ensures { result ≡ 1 }
{
    let _ = write!(err, "tpnet: {refusal}\n");
    1
}

/// Writes bytes as they are. Even if that fails, the output has only some of the first ones.
pub fn put<O: Write>(out: &mut O, bytes: &[u8]) -> Result<(), Refusal>
    ensures written { OnOk result (Appends (O.contents out.old) (O.contents out.new) bytes.now) }
    ensures refused { IfErr result (λ refusal. refusal ≡ Refusal.DeviceFailed) }
    ensures front { AppendsFront (O.contents out.old) (O.contents out.new) bytes.now }
{
    let mut written = 0;
    for _ in 0..u64::MAX {
        if written >= bytes.len() {
            return Ok(());
        }
        match out.write(&bytes[written..]) {
            Ok(0) => return Err(Refusal::DeviceFailed),
            Ok(count) => written += count,
            Err(error) if error.kind() == ErrorKind::Interrupted => {}
            Err(_) => return Err(Refusal::DeviceFailed),
        }
    }
    Err(Refusal::DeviceFailed)
}

/// Prints how to call the program. Answers the status.
pub fn print_help<O: Write, E: Write>(text: &str, out: &mut O, err: &mut E) -> u8
    ensures status { result ≤ 1 }
    ensures printed { result ≡ 0 → Appends (O.contents out.old) (O.contents out.new) text.now }
{
    match put(out, text.as_bytes()) {
        Ok(()) => 0,
        Err(refusal) => refuse(err, refusal),
    }
}

/// Runs the node of an image for `turns` turns, alternately its own and the host's, and writes what its port puts out. It needs no more memory for
/// more turns.
fn attempt<O: Write>(alloc: Global, image: &[u8], turns: u32, out: &mut O) -> Result<(), Refusal>
    ensures { TryAnswer image.now turns (O.contents out.old) (O.contents out.new) result }
{
    match try_output(alloc, image, turns, TRY_QUANTUM) {
        Ok(output) => put(out, output.as_slice()),
        Err(fault) => Err(Refusal::Trial(fault)),
    }
}

/// `tpnet try`, on the bytes of the image. Answers the program's status: 0 if exactly what port 0 put out was written, else 1. If the bytes are no
/// image, it refuses them and writes nothing.
pub fn try_on<O: Write, E: Write>(
    alloc: Global,
    image: &[u8],
    turns: u32,
    out: &mut O,
    err: &mut E,
) -> u8
    ensures status { result ≤ 1 }
    ensures done { result ≡ 0 → PrintsTrial image.now turns (O.contents out.old) (O.contents out.new) }
    ensures refused { fresh_image image.now ≡ None → (result ≡ 1) × (O.contents out.new ≡ O.contents out.old) }
{
    match attempt(alloc, image, turns, out) {
        Ok(()) => 0,
        Err(refusal) => refuse(err, refusal),
    }
}
