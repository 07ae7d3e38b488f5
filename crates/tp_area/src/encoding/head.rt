//! The head of a device.

ghost use Rattle.std.specs.Prelude.{◌≡◌, ◌≤◌, ◌<◌, ◌^◌, ◌&&◌, bytes_eq, true, length, IfOk, IfSome};
ghost use Rattle.tp_area.specs.Lower.{array_vec_len, NARROW_HEAD_BYTES, areas_end, fits_device, head_bytes, head_length, keeps_limits, is_roomy, is_topology};
ghost use Rattle.tp_area.specs.Heads.{fields_in, head_in, topology_at, version_in};

use crate::area::fits;
use crate::encoding::end::{are_numbers, end_numbers};
use crate::encoding::numbers::{numbers_in, put_numbers, put_u16s, u16s_in};
use crate::encoding::version::{head_length, head_nodes, keeps_limits, version_byte, version_of};
use crate::encoding::wires::wires_in;
use crate::encoding::written::{pad, put};
use crate::head_places::{
    AREA_PLACE, NODES_PLACE, PAGES_PLACE, PORTS_PLACE, VERSION_PLACE, ends_place,
};
use crate::layout_place::areas_of_length;
use arrayvec::ArrayVec;
use std::marker::Model;
use tp_model::limits::{MAX_PORTS, WIDE_HEAD_BYTES};
use tp_model::number::u64_at;
use tp_model::{HeadVersion, OpenFault, TwoAreas};
use tp_net::{MAX_LINES, Topology, link_line};

/// The bytes that a formatted device begins with.
const MAGIC: [u8; 7] = *b"TPNET\0\0";

/// What a device's head says: its version, the topology, and where the areas are.
#[derive(Drop)]
pub struct Head {
    version: HeadVersion,
    topology: Topology,
    areas: TwoAreas,
}

impl Model for Head {
    ghost use Rattle.std.specs.Prelude.{◌≡◌, ◌^◌, ◌<◌, true};
    ghost use Rattle.tp_area.specs.Lower.{areas_end, Fields, head_length, keeps_limits, is_roomy, is_topology};

    ghost Value = { Fields };

    ghost view = { λ head. record { version = head.version; topology = head.topology; areas = head.areas } };

    ghost invariant = { λ head. (is_topology head.topology ≡ true) × (keeps_limits head.version head.topology ≡ true) × (head.areas.first ≡ head_length head.version)
        × (is_roomy head.topology head.areas.length ≡ true) × (areas_end head.areas < 2 ^ 64) };
}

impl Head {
    /// Gives the version, which can state the topology.
    pub fn version(&self) -> HeadVersion
        ensures value { result ≡ self.now.version }
        ensures limits { keeps_limits self.now.version self.now.topology ≡ true }
        ensures starts { self.now.areas.first ≡ head_length self.now.version }
    {
        self.version
    }

    /// Gives the topology, which keeps its rules.
    pub fn topology(&self) -> &Topology
        ensures value { result.now ≡ self.now.topology }
        ensures valid { is_topology self.now.topology ≡ true }
    {
        &self.topology
    }

    /// Tells where the areas are, which have enough bytes for an entry.
    pub fn areas(&self) -> TwoAreas
        ensures value { result ≡ self.now.areas }
        ensures roomy { is_roomy self.now.topology self.now.areas.length ≡ true }
        ensures bound { areas_end result < 2 ^ 64 }
    {
        self.areas
    }
}

/// Gives the bytes of the head of version `version` of a device for `topology`, with `areas` after it.
pub fn head_bytes(
    version: HeadVersion,
    topology: &Topology,
    areas: TwoAreas,
) -> ArrayVec<u8, WIDE_HEAD_BYTES>
    requires starts { areas.first ≡ head_length version }
    requires limits { keeps_limits version topology.now ≡ true }
    ensures bytes { result.items ≡ head_bytes version topology.now areas }
    ensures len { array_vec_len result ≡ areas.first }
{
    let pages = topology.pages();
    let ports = topology.port_count() as u8;
    let links = &topology.wires()[..link_line(pages.len(), 0)];
    let numbers = end_numbers(version, links);
    let mut out = ArrayVec::new();
    put(&MAGIC, &mut out);
    put(&[version_byte(version), pages.len() as u8, ports], &mut out);
    pad(AREA_PLACE, &mut out);
    put(&areas.length.to_le_bytes(), &mut out);
    put_u16s(pages, &mut out);
    pad(ends_place(version), &mut out);
    put_numbers(version, numbers.as_slice(), &mut out);
    pad(head_length(version), &mut out);
    out
}

/// Decodes the topology from the `bytes` of a head; `None` if it breaks the rules of topologies or the limits of the version.
#[inline(never)]
fn topology_in(version: HeadVersion, bytes: &[u8]) -> Option<Topology>
    requires whole { length bytes.now ≡ head_length version }
    ensures { result ≡ topology_at version bytes.now }
{
    let (nodes, ports) = (bytes[NODES_PLACE], bytes[PORTS_PLACE]);
    let count = usize::from(nodes);
    if count > head_nodes(version) || usize::from(ports) > MAX_PORTS {
        return None;
    }
    let numbers: ArrayVec<u16, MAX_LINES> = numbers_in(
        version,
        link_line(count, 0),
        &bytes[ends_place(version)..],
    );
    if !are_numbers(version, numbers.as_slice()) {
        return None;
    }
    let pages = u16s_in(count, &bytes[PAGES_PLACE..]);
    let wires = wires_in(version, nodes, ports, numbers.as_slice());
    let topology = Topology::of_parts(pages, ports, wires)?;
    if keeps_limits(version, &topology) {
        Some(topology)
    } else {
        None
    }
}

/// Whether `bytes` are those of the head of version `version` for `topology`.
#[inline(never)]
fn spells(version: HeadVersion, bytes: &[u8], topology: &Topology, areas: TwoAreas) -> bool
    requires starts { areas.first ≡ head_length version }
    requires limits { keeps_limits version topology.now ≡ true }
    ensures { result ≡ bytes_eq bytes.now (head_bytes version topology.now areas) }
{
    let head = head_bytes(version, topology, areas);
    bytes == head.as_slice()
}

/// Whether `bytes` are those of the head of version `version` for `topology`, and a device of `len` bytes has room for what it says.
fn is_whole(
    version: HeadVersion,
    len: u64,
    bytes: &[u8],
    topology: &Topology,
    areas: TwoAreas,
) -> bool
    requires starts { areas.first ≡ head_length version }
    requires limits { keeps_limits version topology.now ≡ true }
    ensures { result ≡ (bytes_eq bytes.now (head_bytes version topology.now areas) && fits_device len topology.now areas) }
{
    spells(version, bytes, topology, areas) && fits(len, topology, areas)
}

/// Reads the head of version `version` from `bytes`; `None` if they are none, or a device of `len` bytes has no room for what it says.
fn fields_in(version: HeadVersion, bytes: &[u8], len: u64) -> Option<Head>
    requires { length bytes.now ≡ head_length version }
    ensures value { result ≡ fields_in version len bytes.now }
    ensures inside { IfSome result (λ head. areas_end head.areas ≤ len) }
{
    let topology = topology_in(version, bytes)?;
    let areas = areas_of_length(version, u64_at(bytes, AREA_PLACE));
    if is_whole(version, len, bytes, &topology, areas) {
        Some(Head {
            version,
            topology,
            areas,
        })
    } else {
        None
    }
}

/// Reads the version of the head of a device that begins with `bytes`. `NotFormatted` if they begin no head, and `BadVersion` for an
/// unknown version.
pub fn head_version(bytes: &[u8]) -> Result<HeadVersion, OpenFault>
    requires { NARROW_HEAD_BYTES ≤ length bytes.now }
    ensures { result ≡ version_in bytes.now }
{
    if bytes[..VERSION_PLACE] != MAGIC[..] {
        return Err(OpenFault::NotFormatted);
    }
    match version_of(bytes[VERSION_PLACE]) {
        Some(version) => Ok(version),
        None => Err(OpenFault::BadVersion),
    }
}

/// Reads the head of a device of `len` bytes, which begins with `bytes` and whose head says that it is of version `version`. `Damaged` at
/// place 0 if it breaks a rule.
pub fn head_in(version: HeadVersion, bytes: &[u8], len: u64) -> Result<Head, OpenFault>
    requires { length bytes.now ≡ head_length version }
    ensures value { result ≡ head_in version len bytes.now }
    ensures inside { IfOk result (λ head. areas_end head.areas ≤ len) }
{
    match fields_in(version, bytes, len) {
        Some(head) => Ok(head),
        None => Err(OpenFault::Damaged(0)),
    }
}
