//! The versions of a head, and what each can state.

ghost use Rattle.std.specs.Prelude.{◌≡◌, ◌≤◌, true, nat_le};
ghost use Rattle.tp_area.specs.Lower.{list_all, head_length, head_nodes, head_pages, keeps_limits, version_byte, version_for, version_of, is_topology};

use tp_model::HeadVersion;
use tp_model::limits::{
    NARROW_HEAD_BYTES, NARROW_HEAD_NODES, NARROW_HEAD_PAGES, NARROW_VERSION, WIDE_HEAD_BYTES,
    WIDE_HEAD_NODES, WIDE_HEAD_PAGES, WIDE_VERSION,
};
use tp_net::Topology;

/// Counts the bytes of a head of version `version`. The areas begin after it.
pub fn head_length(version: HeadVersion) -> usize
    ensures value { result ≡ head_length version }
    ensures bound { result ≤ WIDE_HEAD_BYTES }
{
    match version {
        HeadVersion::Narrow => NARROW_HEAD_BYTES,
        HeadVersion::Wide => WIDE_HEAD_BYTES,
    }
}

/// Gives the byte that says the version.
pub(crate) fn version_byte(version: HeadVersion) -> u8
    ensures { result ≡ version_byte version }
{
    match version {
        HeadVersion::Narrow => NARROW_VERSION,
        HeadVersion::Wide => WIDE_VERSION,
    }
}

/// Gives the version that `byte` says; `None` if it is unknown.
pub(crate) fn version_of(byte: u8) -> Option<HeadVersion>
    ensures { result ≡ version_of byte }
{
    match byte {
        NARROW_VERSION => Some(HeadVersion::Narrow),
        WIDE_VERSION => Some(HeadVersion::Wide),
        _ => None,
    }
}

/// Counts the nodes that a head has fields for.
pub(crate) fn head_nodes(version: HeadVersion) -> usize
    ensures value { result ≡ head_nodes version }
    ensures bound { result ≤ WIDE_HEAD_NODES }
{
    match version {
        HeadVersion::Narrow => NARROW_HEAD_NODES,
        HeadVersion::Wide => WIDE_HEAD_NODES,
    }
}

/// Gives the most pages that a node may have in a head.
fn head_pages(version: HeadVersion) -> usize
    ensures { result ≡ head_pages version }
{
    match version {
        HeadVersion::Narrow => NARROW_HEAD_PAGES,
        HeadVersion::Wide => WIDE_HEAD_PAGES,
    }
}

/// Whether a node may have `count` pages in a head.
fn are_few(version: HeadVersion, count: u16) -> bool
    ensures { result ≡ nat_le count (head_pages version) }
{
    usize::from(count) <= head_pages(version)
}

/// Whether nodes may have `pages` pages each in a head.
fn are_few_pages(version: HeadVersion, pages: &[u16]) -> bool
    ensures { result ≡ list_all (λ count. nat_le count (head_pages version)) pages.now }
{
    for count in pages {
        if !are_few(version, *count) {
            return false;
        }
    }
    true
}

/// Whether a head of version `version` can state `topology`.
pub fn keeps_limits(version: HeadVersion, topology: &Topology) -> bool
    ensures value { result ≡ keeps_limits version topology.now }
    ensures rules { is_topology topology.now ≡ true }
{
    let pages = topology.pages();
    pages.len() <= head_nodes(version) && are_few_pages(version, pages)
}

/// Gives the version of the head that formatting writes: a narrow one if that is enough for `topology`.
pub fn version_for(topology: &Topology) -> HeadVersion
    ensures value { result ≡ version_for topology.now }
    ensures limits { keeps_limits result topology.now ≡ true }
{
    if keeps_limits(HeadVersion::Narrow, topology) {
        HeadVersion::Narrow
    } else {
        HeadVersion::Wide
    }
}
