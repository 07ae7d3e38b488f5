//! How large an area has to be, and how large a device.

ghost use Rattle.std.specs.Prelude.{◌≡◌, ◌+◌, ◌*◌, ◌^◌, ◌<◌};
ghost use Rattle.tp_area.specs.Lower.{AREA_HEAD_BYTES, fits_device, cut_length, entry_room, reserve, line_count};

use crate::journal::{JournalRoom, reserve};
use crate::room::cut_length;
use tp_model::TwoAreas;
use tp_model::limits::AREA_HEAD_BYTES;
use tp_net::{ENTRY_ROOM, Topology};

/// Gives how many bytes an area needs for `entries` entries that anyone may make, each in a group of its own.
pub fn area_for(topology: &Topology, entries: u64) -> u64
    requires { entries < 2 ^ 32 }
    ensures value { result ≡ cut_length topology.now + (AREA_HEAD_BYTES + 1) + (reserve (line_count topology.now) + entry_room * entries) }
    ensures bound { result < 2 ^ 40 }
{
    let kept = reserve(topology) + ENTRY_ROOM as u64 * entries;
    cut_length(topology) + (AREA_HEAD_BYTES + 1) as u64 + kept
}

/// Whether a device of `size` bytes has room for the two areas, and each area for a cut image and for an entry that anyone may make.
pub fn fits(size: u64, topology: &Topology, areas: TwoAreas) -> bool
    ensures { result ≡ fits_device size topology.now areas }
{
    let has_areas = size >= areas.first && areas.length <= (size - areas.first) / 2;
    has_areas && JournalRoom::of(topology, areas.length).takes(1)
}
