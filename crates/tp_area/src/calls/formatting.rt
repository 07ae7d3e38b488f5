//! Formatting a device.

ghost use Rattle.std.specs.Prelude.{◌≡◌, ◌⊎◌, ◌+◌, ◌*◌, ◌^◌, ◌<◌, ◌≤◌, ◌++◌, true, map, flat_map, drop, length, is_ok, OnOk};
ghost use Rattle.tp_area.specs.Lower.{LINE_BYTES, PORT_BYTES, zeros, areas_end, fits_device, SameOutside, Counts, LeavesOnly, start_of, areas_of_length, version_for, cut_length, images_length, line_count};
ghost use Rattle.tp_area.specs.Formatting.{FormatAnswer, Formatted, IsOldOrNew, Wrote, area_front, failed_calls, is_early, with_areas};
ghost use Rattle.tp_area.specs.Puts.{ButFor, Puts};
ghost use Rattle.tp_area.specs.Rights.{Formats};

use crate::calls::puts::{put_images, put_piece, put_zeros};
use crate::encoding::images::check_images;
use crate::fault::FormatFault;
use crate::rights::may_format;
use crate::{
    CutFront, FIELDS_BYTES, area_start, areas_of_length, cut_length, fits, head_bytes,
    images_length, put_fields, records_length, version_for,
};
use std::alloc::Global;
use tp_disk::{DeviceFailed, Disk, write_through};
use tp_model::limits::{GATE_CLOSED, GATE_OPEN};
use tp_model::{Form, TwoAreas};
use tp_net::Topology;

/// Bytes of an area before its images.
const FRONT_BYTES: usize = 1 + FIELDS_BYTES;

/// How the first area is filled: the bytes of its images, of its cut, and of the records after the images with the closed gate after those.
#[derive(Clone, Copy)]
struct Lengths {
    images: u64,
    cut: u64,
    rest: u64,
}

/// Counts the bytes with which the first area of a network is filled.
fn lengths_of(topology: &Topology) -> Lengths
    ensures images { result.images ≡ images_length topology.now }
    ensures cut { result.cut ≡ cut_length topology.now }
    ensures rest { result.rest ≡ LINE_BYTES * line_count topology.now + PORT_BYTES * topology.now.ports + 1 }
    ensures bound { result.cut < 2 ^ 32 }
{
    Lengths {
        images: images_length(topology),
        cut: cut_length(topology),
        rest: records_length(topology) + 1,
    }
}

/// Writes what the first area begins with: its gate, open; generation 1; its cut's length; and that the cut holds no entry and the area may
/// hold turns.
#[tactic(auto, unfolding(crate::specs::Formatting::area_front))]
fn put_front(cut: u32, out: &mut [u8])
    requires { FRONT_BYTES ≤ length out.old }
    ensures { out.new ≡ area_front cut ++ drop FRONT_BYTES out.old }
{
    let front = CutFront {
        generation: 1,
        form: Form::Turns,
        base: 0,
    };
    out[0] = GATE_OPEN;
    put_fields(front, cut, &mut out[1..]);
}

/// Puts the first area, which begins at `at`, as far as it is written. Its lines and ports are empty, so they are zeros, like the closed
/// gate.
fn put_first_area<D: Disk>(
    disk: &mut D,
    at: u64,
    images: &[Vec<u8>],
    lengths: Lengths,
) -> Result<(), DeviceFailed>
    requires images { lengths.images ≡ length (flat_map (λ image. image.items) images.now) }
    requires cut { lengths.cut < 2 ^ 32 }
    requires inside { at + FRONT_BYTES + lengths.images + lengths.rest ≤ D.size_of disk.old }
    requires fits { D.size_of disk.old < 2 ^ 64 }
    requires allowed { D.writable ≡ true }
    ensures counts { Counts (is_ok result) (D.size_of disk.old) (D.size_of disk.new) (D.failures_of disk.old) (D.failures_of disk.new) }
    ensures unread { D.reads disk.new ≡ D.reads disk.old }
    ensures put { OnOk result (Puts at ((area_front lengths.cut ++ flat_map (λ image. image.items) images.now) ++ zeros lengths.rest)
        (D.state disk.old) (D.state disk.new)) }
    ensures leaves { LeavesOnly (D.state disk.old) (D.state disk.new) (ButFor at (FRONT_BYTES + lengths.images + lengths.rest) (D.state disk.old).now) }
{
    let mut front = [0; FRONT_BYTES];
    put_front(lengths.cut as u32, &mut front);
    let behind = at + FRONT_BYTES as u64;
    put_piece(disk, at, &front)?;
    put_images(disk, behind, images)?;
    put_zeros(disk, behind + lengths.images, lengths.rest)
}

/// Writes both areas, and then the head.
fn write_all<D: Disk>(
    disk: &mut D,
    head: &[u8],
    areas: TwoAreas,
    images: &[Vec<u8>],
    lengths: Lengths,
) -> Result<(), DeviceFailed>
    requires images { lengths.images ≡ length (flat_map (λ image. image.items) images.now) }
    requires cut { lengths.cut < 2 ^ 32 }
    requires inside { FRONT_BYTES + lengths.images + lengths.rest ≤ areas.length }
    requires room { areas_end areas ≤ D.size_of disk.old }
    requires head { length head.now ≡ areas.first }
    requires fits { D.size_of disk.old < 2 ^ 64 }
    requires allowed { D.writable ≡ true }
    ensures counts { Counts (is_ok result) (D.size_of disk.old) (D.size_of disk.new) (D.failures_of disk.old) (D.failures_of disk.new) }
    ensures unread { D.reads disk.new ≡ D.reads disk.old }
    ensures wrote { OnOk result (Wrote ((area_front lengths.cut ++ flat_map (λ image. image.items) images.now) ++ zeros lengths.rest)
        head.now areas (D.state disk.old) (D.state disk.new)) }
    ensures leaves { LeavesOnly (D.state disk.old) (D.state disk.new) (λ left. ButFor areas.first (2 * areas.length) (D.state disk.old).now left
        ⊎ SameOutside 0 areas.first (with_areas ((area_front lengths.cut ++ flat_map (λ image. image.items) images.now) ++ zeros lengths.rest)
        areas (D.state disk.old).now.bytes) left) }
{
    put_first_area(disk, areas.first, images, lengths)?;
    put_piece(disk, area_start(areas, true), &[GATE_CLOSED])?;
    disk.sync()?;
    write_through(disk, 0, head)
}

/// Formats a device for the network of `images`, one a node, with areas of `area` bytes. The head is a narrow one if that is enough for
/// `topology`, else a wide one. The first area is open, with generation 1 and with turns, the network and no entry. The second one is
/// closed. It takes memory for one node at a time. Fails with `BadImage`, `AreaFull` or `Memory` before any call of the device, or with
/// `DeviceFailed`.
pub fn format<D: Disk>(
    alloc: Global,
    disk: &mut D,
    topology: &Topology,
    images: &[Vec<u8>],
    area: u64,
) -> Result<(), FormatFault>
    requires { Formats → D.writable ≡ true }
    ensures answer { FormatAnswer (start_of topology.now (map (λ image. image.items) images.now)) (fits_device (D.size_of disk.old) topology.now (areas_of_length (version_for topology.now) area)) result }
    ensures early { is_early result ≡ true → disk.new ≡ disk.old }
    ensures failures { D.failures_of disk.new ≡ D.failures_of disk.old + failed_calls result }
    ensures size { D.size_of disk.new ≡ D.size_of disk.old }
    ensures unread { D.reads disk.new ≡ D.reads disk.old }
    ensures formatted { OnOk result (Formatted topology.now (map (λ image. image.items) images.now) (areas_of_length (version_for topology.now) area) (D.state disk.old) (D.state disk.new)) }
    ensures leaves { LeavesOnly (D.state disk.old) (D.state disk.new) (IsOldOrNew topology.now (map (λ image. image.items) images.now) (areas_of_length (version_for topology.now) area) (D.state disk.old)) }
{
    check_images(alloc, topology.pages(), images)?;
    let lengths = lengths_of(topology);
    let version = version_for(topology);
    let areas = areas_of_length(version, area);
    if !fits(disk.size(), topology, areas) {
        return Err(FormatFault::AreaFull);
    }
    let head = head_bytes(version, topology, areas);
    may_format::<D>();
    let Ok(()) = write_all(disk, head.as_slice(), areas, images, lengths) else {
        return Err(FormatFault::DeviceFailed);
    };
    Ok(())
}
