//! Bytes put on a device piece by piece. They aren't synced.

ghost use Rattle.std.specs.Prelude.{◌≡◌, ◌+◌, ◌^◌, ◌<◌, ◌≤◌, true, flat_map, length, is_ok, OnOk};
ghost use Rattle.tp_area.specs.Lower.{zeros, Counts, LeavesOnly};
ghost use Rattle.tp_area.specs.Puts.{ButFor, Puts};

use tp_disk::{DeviceFailed, Disk};

/// How many zeros are written at once.
const ZEROS: usize = 4096;

/// Puts bytes in one piece.
pub(crate) fn put_piece<D: Disk>(disk: &mut D, at: u64, bytes: &[u8]) -> Result<(), DeviceFailed>
    requires inside { at + length bytes.now ≤ D.size_of disk.old }
    requires allowed { D.writable ≡ true }
    ensures counts { Counts (is_ok result) (D.size_of disk.old) (D.size_of disk.new) (D.failures_of disk.old) (D.failures_of disk.new) }
    ensures unread { D.reads disk.new ≡ D.reads disk.old }
    ensures put { OnOk result (Puts at bytes.now (D.state disk.old) (D.state disk.new)) }
    ensures leaves { LeavesOnly (D.state disk.old) (D.state disk.new) (ButFor at (length bytes.now) (D.state disk.old).now) }
{
    disk.write_at(at, bytes)
}

/// Puts zeros.
pub(crate) fn put_zeros<D: Disk>(disk: &mut D, at: u64, count: u64) -> Result<(), DeviceFailed>
    requires inside { at + count ≤ D.size_of disk.old }
    requires fits { D.size_of disk.old < 2 ^ 64 }
    requires allowed { D.writable ≡ true }
    ensures counts { Counts (is_ok result) (D.size_of disk.old) (D.size_of disk.new) (D.failures_of disk.old) (D.failures_of disk.new) }
    ensures unread { D.reads disk.new ≡ D.reads disk.old }
    ensures put { OnOk result (Puts at (zeros count) (D.state disk.old) (D.state disk.new)) }
    ensures leaves { LeavesOnly (D.state disk.old) (D.state disk.new) (ButFor at count (D.state disk.old).now) }
{
    let piece = [0; ZEROS];
    let mut left = count;
    while left > 0 {
        let size = left.min(ZEROS as u64);
        put_piece(disk, at + (count - left), &piece[..size as usize])?;
        left -= size;
    }
    Ok(())
}

/// Puts images, one after the other.
pub(crate) fn put_images<D: Disk>(
    disk: &mut D,
    at: u64,
    images: &[Vec<u8>],
) -> Result<(), DeviceFailed>
    requires inside { at + length (flat_map (λ image. image.items) images.now) ≤ D.size_of disk.old }
    requires fits { D.size_of disk.old < 2 ^ 64 }
    requires allowed { D.writable ≡ true }
    ensures counts { Counts (is_ok result) (D.size_of disk.old) (D.size_of disk.new) (D.failures_of disk.old) (D.failures_of disk.new) }
    ensures unread { D.reads disk.new ≡ D.reads disk.old }
    ensures put { OnOk result (Puts at (flat_map (λ image. image.items) images.now) (D.state disk.old) (D.state disk.new)) }
    ensures leaves { LeavesOnly (D.state disk.old) (D.state disk.new) (ButFor at (length (flat_map (λ image. image.items) images.now)) (D.state disk.old).now) }
{
    let mut place = at;
    for image in images {
        put_piece(disk, place, image)?;
        place += image.len() as u64;
    }
    Ok(())
}
