//! `tpnet format`, on files.

ghost use Rattle.std.specs.Prelude.{◌≡◌, ◌≤◌, ◌++◌, ◌∷◌, [], true, Some, IfNone, IfOk, IfSome, map, string_bytes};
ghost use Rattle.tp_program.specs.Lower.{error_kind, areas_end, areas_of_length, is_topology, MAX_AREA};
ghost use Rattle.tp_program.specs.Devices.{Begins, MadeAtMost, path_held};
ghost use Rattle.tp_program.specs.Uses.{FormattedFile, FormattedNamed, FormattedNetwork, FormattedText, IsApart, image_of, sources_of};

use crate::devices::{Devices, Made};
use crate::files::{image_path, read_network, read_source};
use crate::formatting::format_on;
use crate::in_use::{changed, is_busy};
use std::fs::Files;
use std::io;
use std::io::{ErrorKind, Write};
use tp_area::{head_length, version_for};
use tp_disk::Disk;
use tp_model::HeadVersion;
use tp_net::{Named, Topology};
use tp_stream_files::is_one_file;
use tp_views::{Refusal, is_openable, refuse, wanted_area};
use tp_words::{NewDevice, Shown};

/// Gives the path of the first image whose file is the device's; `None` if there is none.
fn image_replaced<R: Files + AllocGlobal>(
    rt: &R,
    new: &NewDevice,
    names: &[&str],
) -> Result<Option<String>, Refusal>
    ensures { IfOk result (λ found. IfNone found (IsApart (string_bytes new.now.device) (map (image_of (string_bytes new.now.images)) (map (λ name. name.now) names.now)))) }
{
    for node in names {
        let path = image_path(rt.alloc(), new.images.as_str(), node)?;
        if is_one_file(rt, new.device.as_str(), path.as_str()) {
            return Ok(Some(path));
        }
    }
    Ok(None)
}

/// Says that the device would replace a file that it is made from. Answers the status. Ignores a failed write.
fn refuse_source<E: Write>(err: &mut E, device: &str, what: &str, path: &str) -> u8
    ensures { result ≡ 2 }
{
    let (device, path) = (Shown::all(device), Shown::all(path));
    let _ = write!(
        err,
        "tpnet: DEVICE {device} is the file of the {what} {path}: name another file for the device; nothing was written\n"
    );
    2
}

/// Refuses a device that would replace a file that it is made from, and says which. Answers the status; `None` if it replaces none of them.
fn refuse_sources<R: Files + AllocGlobal, E: Write>(
    rt: &R,
    new: &NewDevice,
    names: &[&str],
    err: &mut E,
) -> Option<u8>
    ensures few { IfSome result (λ status. status ≤ 2) }
    ensures refused { IfSome result (λ status. 1 ≤ status) }
    ensures apart { IfNone result (IsApart (string_bytes new.now.device) (sources_of (string_bytes new.now.topology) (string_bytes new.now.images) (map (λ name. name.now) names.now))) }
{
    let (device, topology) = (new.device.as_str(), new.topology.as_str());
    if is_one_file(rt, device, topology) {
        return Some(refuse_source(err, device, "topology", topology));
    }
    match image_replaced(rt, new, names) {
        Ok(Some(path)) => Some(refuse_source(err, device, "image", path.as_str())),
        Ok(None) => None,
        Err(refusal) => Some(refuse(err, refusal)),
    }
}

/// Gives why a device wasn't made, for an error of the system. If another file came to its path meanwhile, another process has it.
fn making_refusal(error: &io::Error) -> Refusal
    ensures exists { error_kind error.now ≡ ErrorKind.AlreadyExists → result ≡ Refusal.DeviceExists }
    ensures used { error_kind error.now ≡ ErrorKind.ResourceBusy → result ≡ Refusal.InUse }
    ensures failed { (error_kind error.now ≡ ErrorKind.AlreadyExists → ⊥) → (error_kind error.now ≡ ErrorKind.ResourceBusy → ⊥) → result ≡ Refusal.DeviceFailed }
{
    match error.kind() {
        ErrorKind::AlreadyExists => Refusal::DeviceExists,
        _ if is_busy(error) => Refusal::InUse,
        _ => Refusal::DeviceFailed,
    }
}

/// How many bytes a device has, with a head of this version and two areas of `area` bytes.
fn device_length(version: HeadVersion, area: u64) -> u64
    requires { area ≤ MAX_AREA }
    ensures { result ≡ areas_end (areas_of_length version area) }
{
    head_length(version) as u64 + 2 * area
}

/// How many bytes the device has that is asked for: those of its head, for this topology, and of two areas.
fn size_of(new: &NewDevice, topology: &Topology) -> u64
    requires { IfSome new.now.area (λ area. area ≤ MAX_AREA) }
{
    device_length(version_for(topology), wanted_area(topology, new.area))
}

/// Makes the file of a device and holds it. If something is there already, it answers `None`; but if the device must be new, it fails with
/// `AlreadyExists`.
fn make_file<S: Devices>(devices: &mut S, new: &NewDevice) -> io::Result<Option<Made>>
    requires { S.held devices.old ≡ Some (string_bytes new.now.device) }
    ensures kept { S.held devices.new ≡ S.held devices.old }
    ensures made { IfOk result (λ made. IfSome made (λ made. path_held made.noted.told ≡ string_bytes new.now.device)) }
    ensures noted { MadeAtMost (string_bytes new.now.device) (S.calls devices.old) (S.calls devices.new) }
    ensures unused { S.uses devices.new ≡ S.uses devices.old }
{
    match devices.make(new.device.as_str()) {
        Ok(made) => Ok(Some(made)),
        Err(error) if error.kind() == ErrorKind::AlreadyExists && !new.only_new => Ok(None),
        Err(error) => Err(error),
    }
}

/// Gives the device in an empty file that was made for it, and fills the file. If that fails, the file is removed.
fn disk_made<S: Devices<New = N>, N: Disk + Drop>(
    devices: &mut S,
    new: &NewDevice,
    topology: &Topology,
    made: Made,
) -> io::Result<N>
    requires area { IfSome new.now.area (λ area. area ≤ MAX_AREA) }
    requires held { S.held devices.old ≡ Some (string_bytes new.now.device) }
    requires made { path_held made.noted.told ≡ string_bytes new.now.device }
    ensures begun { IfOk result (λ disk. S.uses devices.new ≡ S.uses devices.old ++ Begins (string_bytes new.now.device) (N.state disk) ∷ []) }
    ensures uncalled { S.calls devices.new ≡ S.calls devices.old }
{
    let disk = devices.fill(new.device.as_str(), size_of(new, topology));
    if disk.is_err() {
        devices.remove(new.device.as_str(), made);
    }
    disk
}

/// Gives the device in a file that is made for it and filled. If a file is there already, it gives the device in that file, which stays as it was
/// until the first call on it.
fn disk_of<S: Devices<New = N>, N: Disk + Drop>(
    devices: &mut S,
    new: &NewDevice,
    topology: &Topology,
) -> io::Result<N>
    requires area { IfSome new.now.area (λ area. area ≤ MAX_AREA) }
    requires held { S.held devices.old ≡ Some (string_bytes new.now.device) }
    ensures made { MadeAtMost (string_bytes new.now.device) (S.calls devices.old) (S.calls devices.new) }
    ensures begun { IfOk result (λ disk. S.uses devices.new ≡ S.uses devices.old ++ Begins (string_bytes new.now.device) (N.state disk) ∷ []) }
{
    match make_file(devices, new)? {
        Some(made) => disk_made(devices, new, topology, made),
        None => devices.replace(new.device.as_str(), size_of(new, topology)),
    }
}

/// Formats the device of this network, which is held. Refuses if its path has another file by now, since that one belongs to another process. If a
/// call fails, what the system said goes into `system`.
#[inline(never)]
fn format_network<R: Files + AllocGlobal, S: Devices<New = N>, N: Disk + Drop, O: Write, E: Write>(
    rt: &R,
    devices: &mut S,
    new: &NewDevice,
    topology: &Topology,
    images: &[Vec<u8>],
    system: &mut Option<io::Error>,
    out: &mut O,
    err: &mut E,
) -> u8
    requires area { IfSome new.now.area (λ area. area ≤ MAX_AREA) }
    requires held { S.held devices.old ≡ Some (string_bytes new.now.device) }
    requires valid { is_topology topology.now ≡ true }
    ensures few { result ≤ 1 }
    ensures made { MadeAtMost (string_bytes new.now.device) (S.calls devices.old) (S.calls devices.new) }
    ensures formatted { FormattedNetwork (string_bytes new.now.device) new.now.area topology.now (map (λ image. image.items) images.now) (S.uses devices.old) (S.uses devices.new) (O.contents out.old) (O.contents out.new) result }
{
    if !devices.is_kept(new.device.as_str()) {
        *system = Some(changed());
        return refuse(err, Refusal::InUse);
    }
    if !new.only_new && !is_openable(rt, new.device.as_str()) {
        return refuse(err, Refusal::DeviceFailed);
    }
    match disk_of(devices, new, topology) {
        Ok(mut disk) => {
            let status = format_on(rt.alloc(), &mut disk, topology, images, new.area, out, err);
            *system = devices.finish(disk);
            status
        }
        Err(error) => {
            let refusal = making_refusal(&error);
            *system = Some(error);
            refuse(err, refusal)
        }
    }
}

/// Formats a device of a topology that was read, from the images of its nodes. Refuses if it would replace a file that it is made from.
fn format_named<R: Files + AllocGlobal, S: Devices<New = N>, N: Disk + Drop, O: Write, E: Write>(
    rt: &R,
    devices: &mut S,
    new: &NewDevice,
    named: &Named<'_>,
    images: &[Vec<u8>],
    system: &mut Option<io::Error>,
    out: &mut O,
    err: &mut E,
) -> u8
    requires area { IfSome new.now.area (λ area. area ≤ MAX_AREA) }
    requires held { S.held devices.old ≡ Some (string_bytes new.now.device) }
    ensures few { result ≤ 2 }
    ensures made { MadeAtMost (string_bytes new.now.device) (S.calls devices.old) (S.calls devices.new) }
    ensures formatted { FormattedNamed (sources_of (string_bytes new.now.topology) (string_bytes new.now.images) (map (λ name. name.now) named.now.names.items)) (string_bytes new.now.device) new.now.area named.now.topology (map (λ image. image.items) images.now) (S.uses devices.old) (S.uses devices.new) (O.contents out.old) (O.contents out.new) result }
{
    if let Some(status) = refuse_sources(rt, new, named.names.as_slice(), err) {
        return status;
    }
    let _rules = named.topology.pages();
    format_network(rt, devices, new, &named.topology, images, system, out, err)
}

/// Formats a device by the text of a topology. Reads the images of its nodes first.
fn format_text<R: Files + AllocGlobal, S: Devices<New = N>, N: Disk + Drop, O: Write, E: Write>(
    rt: &R,
    devices: &mut S,
    new: &NewDevice,
    text: &[u8],
    system: &mut Option<io::Error>,
    out: &mut O,
    err: &mut E,
) -> u8
    requires area { IfSome new.now.area (λ area. area ≤ MAX_AREA) }
    requires held { S.held devices.old ≡ Some (string_bytes new.now.device) }
    ensures few { result ≤ 2 }
    ensures made { MadeAtMost (string_bytes new.now.device) (S.calls devices.old) (S.calls devices.new) }
    ensures formatted { FormattedText text.now (string_bytes new.now.topology) (string_bytes new.now.images) (string_bytes new.now.device) new.now.area (S.uses devices.old) (S.uses devices.new) (O.contents out.old) (O.contents out.new) result }
{
    match read_network(rt, devices, text, new.images.as_str()) {
        Ok((named, images)) => {
            format_named(
                rt,
                devices,
                new,
                &named,
                images.as_slice(),
                system,
                out,
                err,
            )
        }
        Err(refusal) => refuse(err, refusal),
    }
}

/// `tpnet format`, on files, if the device is held. A file that is there stays as it is until nothing is left to refuse. The files of the topology
/// and the images are never changed.
#[inline(never)]
pub(crate) fn format_file<
    R: Files + AllocGlobal,
    S: Devices<New = N>,
    N: Disk + Drop,
    O: Write,
    E: Write,
>(
    rt: &R,
    devices: &mut S,
    new: &NewDevice,
    system: &mut Option<io::Error>,
    out: &mut O,
    err: &mut E,
) -> u8
    requires area { IfSome new.now.area (λ area. area ≤ MAX_AREA) }
    requires held { S.held devices.old ≡ Some (string_bytes new.now.device) }
    ensures few { result ≤ 2 }
    ensures made { MadeAtMost (string_bytes new.now.device) (S.calls devices.old) (S.calls devices.new) }
    ensures formatted { FormattedFile new.now (S.uses devices.old) (S.uses devices.new) (O.contents out.old) (O.contents out.new) result }
{
    match read_source(rt, devices, new.topology.as_str()) {
        Ok(text) => format_text(rt, devices, new, text.as_slice(), system, out, err),
        Err(refusal) => refuse(err, refusal),
    }
}
