//! `tpnet check`: a topology and its images, and how large an area has to be.

ghost use Rattle.std.specs.Prelude.{◌≡◌, ◌⊎◌, ◌≤◌, ◌++◌, IfOk, IsErr, IsSome, None, OnOk, map, string_bytes, true, IfErr};
ghost use Rattle.tp_views.specs.Lower.{Appends, start_of, is_topology};
ghost use Rattle.tp_views.specs.Checked.{area_fields, area_for, areas_text, default_area, shape_fields, size_fields, topology_said};
ghost use Rattle.tp_views.specs.Fields.{fields_text};
ghost use Rattle.tp_views.specs.Front.{AppendsFront};
ghost use Rattle.tp_views.specs.Refused.{IsCheckFault, IsFormatFault, IsPrintFault};

use crate::areas::default_area;
use crate::commands::{put, refuse};
use crate::refusal::Refusal;
use crate::text::fields::Field::{After, Comma, Named, Words};
use crate::text::fields::Value::{Name, Number};
use crate::text::fields::push_fields;
use crate::text::formats::{form_name, version_number};
use std::alloc::{AllocError, Global};
use std::io::Write;
use tp_area::{FormatFault, area_for, format, version_for};
use tp_disk::MemDisk;
use tp_model::Form;
use tp_net::Topology;

/// Tests whether a device may be formatted with the images, on a device that keeps no bytes. Fails with the reason if it may not.
fn check_images(alloc: Global, topology: &Topology, images: &[Vec<u8>]) -> Result<(), Refusal>
    requires { is_topology topology.now ≡ true }
    ensures fit { OnOk result (IsSome (start_of topology.now (map (λ image. image.items) images.now))) }
    ensures fault { IfErr result IsFormatFault }
{
    let mut nothing = MemDisk::of_bytes(Vec::new(alloc));
    match format(alloc, &mut nothing, topology, images, 0) {
        Err(FormatFault::AreaFull) => Ok(()),
        Err(fault) => Err(Refusal::Format(fault)),
        Ok(()) => Ok(()),
    }
}

/// How many entries the journals have room for that are told an area for.
const JOURNALS: [u32; 3] = [4_096, 65_536, 1_048_576];

/// Appends how many nodes and ports there are, which version of the head would be written, and the form of the areas.
fn push_shape(
    text: &mut String,
    json: bool,
    nodes: usize,
    ports: usize,
    version: u8,
) -> Result<(), AllocError>
    ensures { OnOk result (string_bytes text.new ≡ string_bytes text.old ++ fields_text json (shape_fields nodes ports version)) }
{
    push_fields(
        text,
        json,
        &[
            After("nodes ", "{\"nodes\":", Number(nodes as u64)),
            Named("ports", Number(ports as u64)),
            Named("version", Number(version as u64)),
            Named("form", Name(form_name(Form::Turns))),
        ],
    )
}

/// Appends how large an area must be at least, and how large it is by default.
fn push_sizes(text: &mut String, json: bool, topology: &Topology) -> Result<(), AllocError>
    requires { is_topology topology.now ≡ true }
    ensures { OnOk result (string_bytes text.new ≡ string_bytes text.old ++ fields_text json (size_fields (area_for topology.now 1) (default_area topology.now))) }
{
    let least = area_for(topology, 1);
    let default = default_area(topology);
    push_fields(
        text,
        json,
        &[
            After("\nleast area ", ",\"least_area\":", Number(least)),
            After("\ndefault area ", ",\"default_area\":", Number(default)),
            Words("\n", ",\"areas\":["),
        ],
    )
}

/// Appends an area whose journal has room for `entries` entries, after `before` other areas.
fn push_size(
    text: &mut String,
    json: bool,
    before: usize,
    entries: u32,
    area: u64,
) -> Result<(), AllocError>
    ensures { OnOk result (string_bytes text.new ≡ string_bytes text.old ++ fields_text json (area_fields before entries area)) }
{
    push_fields(
        text,
        json,
        &[
            Comma(before),
            After("entries ", "{\"entries\":", Number(entries as u64)),
            Named("area", Number(area)),
            Words("\n", "}"),
        ],
    )
}

/// Appends how large an area must be so that its journal has room for `entries` entries, after `before` other areas.
fn push_area(
    text: &mut String,
    json: bool,
    before: usize,
    topology: &Topology,
    entries: u32,
) -> Result<(), AllocError>
    requires { is_topology topology.now ≡ true }
    ensures { OnOk result (string_bytes text.new ≡ string_bytes text.old ++ fields_text json (area_fields before entries (area_for topology.now entries))) }
{
    let area = area_for(topology, u64::from(entries));
    push_size(text, json, before, entries, area)
}

/// Appends an area for each of several journals.
fn push_areas(
    text: &mut String,
    json: bool,
    topology: &Topology,
    journals: &[u32],
) -> Result<(), AllocError>
    requires { is_topology topology.now ≡ true }
    ensures { OnOk result (string_bytes text.new ≡ string_bytes text.old ++ areas_text json topology.now 0 journals.now) }
{
    for (before, entries) in journals.iter().enumerate() {
        push_area(text, json, before, topology, *entries)?;
    }
    Ok(())
}

/// Gives what is said of a topology, as JSON or not.
fn topology_said(alloc: Global, topology: &Topology, json: bool) -> Result<String, AllocError>
    requires { is_topology topology.now ≡ true }
    ensures { IfOk result (λ text. string_bytes text ≡ topology_said json topology.now) }
{
    let (nodes, ports) = (topology.pages().len(), topology.port_count());
    let version = version_number(version_for(topology));
    let mut text = String::new(alloc);
    push_shape(&mut text, json, nodes, ports, version)?;
    push_sizes(&mut text, json, topology)?;
    push_areas(&mut text, json, topology, &JOURNALS)?;
    push_fields(&mut text, json, &[Words("", "]}\n")])?;
    Ok(text)
}

/// Prints what is said of a topology.
fn put_checked<O: Write>(
    alloc: Global,
    topology: &Topology,
    json: bool,
    out: &mut O,
) -> Result<(), Refusal>
    requires { is_topology topology.now ≡ true }
    ensures printed { OnOk result (Appends (O.contents out.old) (O.contents out.new) (topology_said json topology.now)) }
    ensures front { (O.contents out.new ≡ O.contents out.old) ⊎ AppendsFront (O.contents out.old) (O.contents out.new) (topology_said json topology.now) }
    ensures fault { IfErr result IsPrintFault }
{
    let text = topology_said(alloc, topology, json)?;
    put(out, text.as_bytes())
}

fn check<O: Write>(
    alloc: Global,
    topology: &Topology,
    images: &[Vec<u8>],
    json: bool,
    out: &mut O,
) -> Result<(), Refusal>
    requires { is_topology topology.now ≡ true }
    ensures fit { OnOk result (IsSome (start_of topology.now (map (λ image. image.items) images.now))) }
    ensures printed { OnOk result (Appends (O.contents out.old) (O.contents out.new) (topology_said json topology.now)) }
    ensures front { (O.contents out.new ≡ O.contents out.old) ⊎ AppendsFront (O.contents out.old) (O.contents out.new) (topology_said json topology.now) }
    ensures refused { start_of topology.now (map (λ image. image.items) images.now) ≡ None → (IsErr result) × (O.contents out.new ≡ O.contents out.old) }
    ensures fault { IfErr result IsCheckFault }
{
    match check_images(alloc, topology, images) {
        Ok(()) => put_checked(alloc, topology, json, out),
        Err(refusal) => Err(refusal),
    }
}

/// `tpnet check`, on a topology and its images. Answers the program's status: 0 if a device may be formatted with them and exactly what is said of
/// the topology was printed, as JSON or not; else 1. If the images don't fit, nothing is printed.
pub fn check_on<O: Write, E: Write>(
    alloc: Global,
    topology: &Topology,
    images: &[Vec<u8>],
    json: bool,
    out: &mut O,
    err: &mut E,
) -> u8
    requires { is_topology topology.now ≡ true }
    ensures status { result ≤ 1 }
    ensures fit { result ≡ 0 → IsSome (start_of topology.now (map (λ image. image.items) images.now)) }
    ensures printed { result ≡ 0 → Appends (O.contents out.old) (O.contents out.new) (topology_said json topology.now) }
    ensures front { (O.contents out.new ≡ O.contents out.old) ⊎ AppendsFront (O.contents out.old) (O.contents out.new) (topology_said json topology.now) }
    ensures refused { start_of topology.now (map (λ image. image.items) images.now) ≡ None → (result ≡ 1) × (O.contents out.new ≡ O.contents out.old) }
{
    match check(alloc, topology, images, json, out) {
        Ok(()) => 0,
        Err(refusal) => refuse(err, refusal),
    }
}
