//! Files that get room for all bytes of a device.

ghost use Rattle.std.specs.Prelude.{◌≡◌, ◌+◌, ◌<◌, ◌^◌, ◌++◌, OnOk, OnErr};
ghost use Rattle.tp_disk.specs.Filling.{CutBack, GoesOn, IsLeft, KeepsFront, asking, clearing, filling};
ghost use Rattle.tp_disk.specs.File.{making};
ghost use Rattle.tp_disk.specs.declared.filling.Making.TheVariants.{Fills};

use crate::system::SystemFile;
use std::io;

/// How many bytes 00 are written at once.
pub(crate) const PIECE: usize = 65_536;

/// These bytes. The program has them: on the stack they would take half of what it has when the program begins.
static ZEROS: [u8; PIECE] = [0; PIECE];

/// What has to happen to a file before it is a device.
#[derive(Clone, Copy, Drop)]
pub(crate) enum Making {
    /// Nothing: it is one already.
    Done,
    /// It is emptied, and gets its length: it takes room as it is written.
    Empties,
    /// It has `length` bytes, and gets room for all of the device.
    Fills { length: u64 },
}

/// Writes `count` bytes 00 from `at` on, and syncs the file with its length. What is before `at` stays, also if that fails.
fn fill<F: SystemFile>(file: &mut F, at: u64, count: u64) -> io::Result<()>
    requires { at + count < 2 ^ 64 }
    ensures filled { OnOk result (F.calls file.new ≡ F.calls file.old ++ filling at count) }
    ensures kept { OnErr result (KeepsFront at (F.calls file.old) (F.calls file.new)) }
{
    let zeros = &ZEROS;
    for piece in 0..count.div_ceil(PIECE as u64) {
        let before = piece * PIECE as u64;
        let size = (count - before).min(PIECE as u64);
        file.write_all(at + before, &zeros[..size as usize])?;
    }
    file.sync()
}

/// Asks for the room of a device of `size` bytes after the end of a file of `length` bytes. If there is none, the file gets its old length
/// again, and all that was in it is there.
#[tactic(auto, using(crate::proofs::Pieces::cut_back))]
fn ask_room<F: SystemFile>(file: &mut F, length: u64, size: u64) -> io::Result<()>
    ensures asked { OnOk result (F.calls file.new ≡ F.calls file.old ++ asking length size) }
    ensures refused { OnErr result (CutBack length (F.calls file.old) (F.calls file.new)) }
{
    if size <= length {
        return Ok(());
    }
    let asked = fill(file, length, size - length);
    if asked.is_err() {
        let _cut = file.resize(length);
    }
    asked
}

/// Clears what a file of `length` bytes had, to make room for a device of `size` bytes. Its first byte is cleared first, alone, and synced,
/// so that a head in it is none from then on. Then the file gets its size, and all other bytes are written over.
fn clear<F: SystemFile>(file: &mut F, length: u64, size: u64) -> io::Result<()>
    ensures cleared { OnOk result (F.calls file.new ≡ F.calls file.old ++ clearing length size) }
    ensures failed { OnErr result (GoesOn (F.calls file.old) (F.calls file.new)) }
{
    if length == 0 {
        return Ok(());
    }
    file.write_all(0, &[0])?;
    file.sync_data()?;
    file.resize(size)?;
    fill(file, 1, length.min(size).saturating_sub(1))
}

/// Makes a device of `size` bytes 00 of a file of `length` bytes. Nothing of the file is lost before there is room for all of the device,
/// also if that fails.
pub(crate) fn fill_over<F: SystemFile>(file: &mut F, length: u64, size: u64) -> io::Result<()>
    ensures made { OnOk result (F.calls file.new ≡ F.calls file.old ++ making (Fills length) size) }
    ensures failed { OnErr result (IsLeft length size (F.calls file.old) (F.calls file.new)) }
{
    ask_room(file, length, size)?;
    clear(file, length, size)
}
