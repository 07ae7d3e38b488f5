//! Where the fields of a head are.

ghost use Rattle.std.specs.Prelude.{◌≡◌};
ghost use Rattle.tp_model.specs.Head.{ends_place};

use crate::encoding::version::head_nodes;
use tp_model::HeadVersion;

/// The version, after the bytes that a formatted device begins with.
pub const VERSION_PLACE: usize = 7;

/// How many nodes and ports there are, in one byte each.
pub const NODES_PLACE: usize = 8;

pub const PORTS_PLACE: usize = 9;

/// How many bytes an area has.
pub const AREA_PLACE: usize = 16;

/// The pages of each node, in two bytes each.
pub const PAGES_PLACE: usize = 24;

/// Gives the place of the end that each link's wire leads to, after the pages of all nodes that the head has fields for.
pub fn ends_place(version: HeadVersion) -> usize
    ensures { result ≡ ends_place version }
{
    PAGES_PLACE + 2 * head_nodes(version)
}
