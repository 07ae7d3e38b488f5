//! Where the records of an area are on its device.

ghost use Rattle.std.specs.Prelude.{◌≡◌, ◌+◌, ◌^◌, ◌<◌, true};
ghost use Rattle.tp_recover.specs.Lower.{area_start, is_roomy, groups_place, lines_place, nodes_place, ports_place};

use tp_area::{Head, Places, area_start};

/// Tells where the records of an area are, and its first group: inside the area.
#[tactic(auto, using(crate::proofs::Room::area_room))]
pub(crate) fn places_in(head: &Head, second: bool) -> Places
    ensures nodes { result.nodes ≡ area_start head.now.areas second + 1 + nodes_place }
    ensures lines { result.lines ≡ area_start head.now.areas second + 1 + lines_place head.now.topology }
    ensures ports { result.ports ≡ area_start head.now.areas second + 1 + ports_place head.now.topology }
    ensures groups { result.groups ≡ area_start head.now.areas second + 1 + groups_place head.now.topology }
    ensures inside { result.groups < area_start head.now.areas second + head.now.areas.length }
    ensures roomy { is_roomy head.now.topology head.now.areas.length ≡ true }
    ensures counted { area_start head.now.areas second + head.now.areas.length < 2 ^ 64 }
{
    let content = area_start(head.areas(), second) + 1;
    let places = Places::of(head.topology(), 0);
    Places {
        nodes: content + places.nodes,
        lines: content + places.lines,
        ports: content + places.ports,
        groups: content + places.groups,
    }
}
