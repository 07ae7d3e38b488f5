//! Bytes that go from one device to another one, each to its place.

ghost use Rattle.std.specs.Prelude.{◌≡◌, ◌+◌, ◌^◌, ◌≤◌, ◌<◌, true, length, OnOk};
ghost use Rattle.tp_recover.specs.Lower.{written, AreTrue, WereTrue, Copies};
ghost use Rattle.tp_recover.specs.Copies.{with_range};
ghost use Rattle.tp_recover.specs.Reading.{LeavesNothingNew};

use crate::copy::fault::CopyFault;
use tp_area::put_copied;
use tp_disk::Disk;
use tp_model::limits::PAGE_BYTES;

/// How many bytes are copied at once.
const PIECE_BYTES: usize = 4 * PAGE_BYTES;

/// Writes over the bytes of a copy.
pub(crate) fn put_bytes<K: Disk>(copy: &mut K, at: u64, bytes: &[u8]) -> Result<(), CopyFault>
    requires inside { at + length bytes.now ≤ K.size_of copy.old }
    requires allowed { Copies → K.writable ≡ true }
    ensures size { K.size_of copy.new ≡ K.size_of copy.old }
    ensures bytes { OnOk result ((K.state copy.new).now.bytes ≡ written (K.state copy.old).now.bytes at bytes.now) }
{
    match put_copied(copy, at, bytes) {
        Ok(()) => Ok(()),
        Err(_) => Err(CopyFault::DeviceFailed),
    }
}

/// Copies the bytes from `at` on through `piece`, whose length is their number.
fn copy_piece<D: Disk, K: Disk>(
    source: &mut D,
    copy: &mut K,
    at: u64,
    piece: &mut [u8],
) -> Result<(), CopyFault>
    requires from { at + length piece.old ≤ D.size_of source.old }
    requires into { at + length piece.old ≤ K.size_of copy.old }
    requires allowed { Copies → K.writable ≡ true }
    ensures source_size { D.size_of source.new ≡ D.size_of source.old }
    ensures copy_size { K.size_of copy.new ≡ K.size_of copy.old }
    ensures premise { WereTrue (D.reads source.old) (D.reads source.new) }
    ensures kept { OnOk result ((D.state source.new).now ≡ (D.state source.old).now) }
    ensures leaves { LeavesNothingNew (D.state source.old) (D.state source.new) }
    ensures bytes { AreTrue (D.reads source.new) → OnOk result ((K.state copy.new).now.bytes ≡ with_range at (length piece.old) (D.state source.old).now.bytes (K.state copy.old).now.bytes) }
{
    match source.read(at, piece) {
        Ok(()) => put_bytes(copy, at, piece),
        Err(_) => Err(CopyFault::ReadFailed),
    }
}

/// Copies `count` bytes from `at` on, in pieces.
#[inline(never)]
pub(crate) fn copy_range<D: Disk, K: Disk>(
    source: &mut D,
    copy: &mut K,
    at: u64,
    count: u64,
) -> Result<(), CopyFault>
    requires from { at + count ≤ D.size_of source.old }
    requires into { at + count ≤ K.size_of copy.old }
    requires counted { at + count < 2 ^ 64 }
    requires allowed { Copies → K.writable ≡ true }
    ensures source_size { D.size_of source.new ≡ D.size_of source.old }
    ensures copy_size { K.size_of copy.new ≡ K.size_of copy.old }
    ensures premise { WereTrue (D.reads source.old) (D.reads source.new) }
    ensures kept { OnOk result ((D.state source.new).now ≡ (D.state source.old).now) }
    ensures leaves { LeavesNothingNew (D.state source.old) (D.state source.new) }
    ensures bytes { AreTrue (D.reads source.new) → OnOk result ((K.state copy.new).now.bytes ≡ with_range at count (D.state source.old).now.bytes (K.state copy.old).now.bytes) }
{
    let mut piece = [0; PIECE_BYTES];
    let mut done = 0;
    while done < count {
        let length = (count - done).min(PIECE_BYTES as u64) as usize;
        copy_piece(source, copy, at + done, &mut piece[..length])?;
        done += length as u64;
    }
    Ok(())
}
