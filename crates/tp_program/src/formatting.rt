//! `tpnet format`, over any device.

ghost use Rattle.std.specs.Prelude.{◌≡◌, ◌⊎◌, ◌≤◌, true, false, None, map, IsErr, OnOk};
ghost use Rattle.tp_program.specs.Lower.{Appends, fits_device, LeavesOnly, start_of, areas_of_length, version_for, is_topology, Formatted, IsOldOrNew, wanted_area, AppendsFront, Formats};
ghost use Rattle.tp_program.specs.Formats.{formatted_text};

use std::alloc::Global;
use std::io::Write;
use tp_area::format;
use tp_disk::Disk;
use tp_net::Topology;
use tp_views::{Refusal, put, refuse, wanted_area};

/// Formats the device, and says so.
fn make<D: Disk, O: Write>(
    alloc: Global,
    disk: &mut D,
    topology: &Topology,
    images: &[Vec<u8>],
    area: Option<u64>,
    out: &mut O,
) -> Result<(), Refusal>
    requires valid { is_topology topology.now ≡ true }
    requires allowed { Formats → D.writable ≡ true }
    ensures formatted { OnOk result (Formatted topology.now (map (λ image. image.items) images.now) (areas_of_length (version_for topology.now) (wanted_area topology.now area)) (D.state disk.old) (D.state disk.new)) }
    ensures fits { OnOk result (fits_device (D.size_of disk.old) topology.now (areas_of_length (version_for topology.now) (wanted_area topology.now area)) ≡ true) }
    ensures printed { OnOk result (Appends (O.contents out.old) (O.contents out.new) formatted_text) }
    ensures refused { start_of topology.now (map (λ image. image.items) images.now) ≡ None → (IsErr result) × (disk.new ≡ disk.old) × (O.contents out.new ≡ O.contents out.old) }
    ensures small { fits_device (D.size_of disk.old) topology.now (areas_of_length (version_for topology.now) (wanted_area topology.now area)) ≡ false → (IsErr result) × (disk.new ≡ disk.old) × (O.contents out.new ≡ O.contents out.old) }
    ensures front { AppendsFront (O.contents out.old) (O.contents out.new) formatted_text }
    ensures said { (O.contents out.new ≡ O.contents out.old) ⊎ Formatted topology.now (map (λ image. image.items) images.now) (areas_of_length (version_for topology.now) (wanted_area topology.now area)) (D.state disk.old) (D.state disk.new) }
    ensures leaves { LeavesOnly (D.state disk.old) (D.state disk.new) (IsOldOrNew topology.now (map (λ image. image.items) images.now) (areas_of_length (version_for topology.now) (wanted_area topology.now area)) (D.state disk.old)) }
{
    let area = wanted_area(topology, area);
    format(alloc, disk, topology, images, area)?;
    put(out, b"formatted\n")
}

/// `tpnet format`, on a device of the size that is asked for. Its areas have as many bytes as are asked for, or the default. Answers the program's
/// status: 0 if the device is formatted, all of it is synced, and that is printed; else 1. If the images don't fit the topology, or the device is too
/// small, nothing has changed. Nothing is printed before the device is formatted. If a crash ends the call early, what is outside the areas is as
/// before, or both areas are complete.
pub fn format_on<D: Disk, O: Write, E: Write>(
    alloc: Global,
    disk: &mut D,
    topology: &Topology,
    images: &[Vec<u8>],
    area: Option<u64>,
    out: &mut O,
    err: &mut E,
) -> u8
    requires valid { is_topology topology.now ≡ true }
    requires allowed { Formats → D.writable ≡ true }
    ensures status { result ≤ 1 }
    ensures formatted { result ≡ 0 → Formatted topology.now (map (λ image. image.items) images.now) (areas_of_length (version_for topology.now) (wanted_area topology.now area)) (D.state disk.old) (D.state disk.new) }
    ensures fits { result ≡ 0 → fits_device (D.size_of disk.old) topology.now (areas_of_length (version_for topology.now) (wanted_area topology.now area)) ≡ true }
    ensures printed { result ≡ 0 → Appends (O.contents out.old) (O.contents out.new) formatted_text }
    ensures refused { start_of topology.now (map (λ image. image.items) images.now) ≡ None → (result ≡ 1) × (disk.new ≡ disk.old) × (O.contents out.new ≡ O.contents out.old) }
    ensures small { fits_device (D.size_of disk.old) topology.now (areas_of_length (version_for topology.now) (wanted_area topology.now area)) ≡ false → (result ≡ 1) × (disk.new ≡ disk.old) × (O.contents out.new ≡ O.contents out.old) }
    ensures front { AppendsFront (O.contents out.old) (O.contents out.new) formatted_text }
    ensures said { (O.contents out.new ≡ O.contents out.old) ⊎ Formatted topology.now (map (λ image. image.items) images.now) (areas_of_length (version_for topology.now) (wanted_area topology.now area)) (D.state disk.old) (D.state disk.new) }
    ensures leaves { LeavesOnly (D.state disk.old) (D.state disk.new) (IsOldOrNew topology.now (map (λ image. image.items) images.now) (areas_of_length (version_for topology.now) (wanted_area topology.now area)) (D.state disk.old)) }
{
    match make(alloc, disk, topology, images, area, out) {
        Ok(()) => 0,
        Err(refusal) => refuse(err, refusal),
    }
}
