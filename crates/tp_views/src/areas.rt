//! How large the areas of a new device are.

ghost use Rattle.std.specs.Prelude.{◌≡◌, ◌≤◌, IfSome, true};
ghost use Rattle.tp_views.specs.Lower.{is_roomy, MAX_AREA};
ghost use Rattle.tp_views.specs.Checked.{default_area, wanted_area};

use tp_area::area_for;
use tp_net::Topology;

/// For how many entries between two checkpoints an area has room by default.
const DEFAULT_ENTRIES: u64 = 65_536;

/// How many bytes an area has by default: the least with room for 65,536 entries between two checkpoints. That is never too small, nor too large.
pub(crate) fn default_area(topology: &Topology) -> u64
    ensures value { result ≡ default_area topology.now }
    ensures bound { result ≤ MAX_AREA }
    ensures roomy { is_roomy topology.now result ≡ true }
{
    area_for(topology, DEFAULT_ENTRIES)
}

/// How many bytes an area has: `asked`, or the default if that is `None`.
pub fn wanted_area(topology: &Topology, asked: Option<u64>) -> u64
    ensures value { result ≡ wanted_area topology.now asked }
    ensures bound { IfSome asked (λ area. area ≤ MAX_AREA) → result ≤ MAX_AREA }
{
    match asked {
        Some(area) => area,
        None => default_area(topology),
    }
}
