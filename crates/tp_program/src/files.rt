//! The commands on files that write no device.

ghost use Rattle.std.specs.Prelude.{◌≡◌, ◌⊎◌, ◌≤◌, ◌++◌, ◌∷◌, [], false, true, Err, IfErr, IfOk, IsOk, IsSome, None, OnErr, Ok, length, map, string_bytes};
ghost use Rattle.tp_program.specs.Lower.{error_kind, Appends, start_of, read_text, node_names, topology_said, no_maps, maps_seen, recovered, shown};
ghost use Rattle.tp_program.specs.Devices.{Reads, WasRefused};
ghost use Rattle.tp_program.specs.Refused.{IsNetworkFault, IsReadFault};
ghost use Rattle.tp_program.specs.Uses.{Checked, CheckedText, HasStatus, LooksAtOne, ReadsOne, Shows, Told, TracedBy, Tried, Untold, ViewedBy, image_of, images_read};

use crate::devices::Devices;
use crate::map_texts::read_texts;
use crate::numbers::{millis_of, seconds_in};
use crate::watching::Watch;
use std::alloc::Global;
use std::fs::{Files, OpenFile, OpenOptions};
use std::io::{ErrorKind, Write};
use std::os::unix::fs::FileExt;
use std::thread::Threads;
use std::{fs, io};
use tp_disk::{Counted, Disk, NotedFile, RawFile, SystemFile};
use tp_net::{Named, Topology};
use tp_views::{
    NodeMaps, Refusal, Seen, check_on, is_openable, read_maps, recover_on, refuse, show_on,
    status_on, trace_device_on, try_on, view_on,
};
use tp_words::{TracePart, View};

/// Why a file wasn't read.
pub(crate) fn read_refusal(error: &io::Error) -> Refusal
    ensures memory { error_kind error.now ≡ ErrorKind.OutOfMemory → result ≡ Refusal.Memory }
    ensures failed { (error_kind error.now ≡ ErrorKind.OutOfMemory → ⊥) → result ≡ Refusal.ReadFailed }
{
    if error.kind() == ErrorKind::OutOfMemory {
        Refusal::Memory
    } else {
        Refusal::ReadFailed
    }
}

/// Gives the bytes of a file, or why it wasn't read.
fn read_answer(read: io::Result<Vec<u8>>) -> Result<Vec<u8>, Refusal>
    ensures read { IfOk read (λ bytes. result ≡ Ok bytes) }
    ensures memory { IfErr read (λ error. error_kind error ≡ ErrorKind.OutOfMemory → result ≡ Err Refusal.Memory) }
    ensures failed { IfErr read (λ error. (error_kind error ≡ ErrorKind.OutOfMemory → ⊥) → result ≡ Err Refusal.ReadFailed) }
{
    match read {
        Ok(bytes) => Ok(bytes),
        Err(error) => Err(read_refusal(&error)),
    }
}

/// Refuses a path whose file can't be opened without waiting. It isn't opened.
fn must_open(can_be: bool) -> Result<(), Refusal>
    ensures open { can_be ≡ true → IsOk result }
    ensures special { can_be ≡ false → result ≡ Err Refusal.ReadFailed }
{
    if can_be {
        Ok(())
    } else {
        Err(Refusal::ReadFailed)
    }
}

/// `tpnet try`, on the image's file.
#[inline(never)]
pub fn try_file<R: Files + AllocGlobal, S: Devices, O: Write, E: Write>(
    rt: &R,
    devices: &mut S,
    image: &str,
    turns: u32,
    out: &mut O,
    err: &mut E,
) -> u8
    ensures few { result ≤ 1 }
    ensures uncalled { S.calls devices.new ≡ S.calls devices.old }
    ensures used { WasRefused (S.uses devices.old) (S.uses devices.new) (O.contents out.old) (O.contents out.new) result ⊎ ReadsOne image.now (S.uses devices.old) (S.uses devices.new) (Tried turns (O.contents out.old) (O.contents out.new) result) }
{
    match read_source(rt, devices, image) {
        Ok(bytes) => try_on(rt.alloc(), bytes.as_slice(), turns, out, err),
        Err(refusal) => refuse(err, refusal),
    }
}

/// Reads a whole file.
pub(crate) fn read_file<R: Files + AllocGlobal>(rt: &R, path: &str) -> Result<Vec<u8>, Refusal>
    ensures { IfErr result IsReadFault }
{
    read_answer(fs::read(rt, path))
}

/// Reads a whole image or topology. What is no regular file isn't opened: a FIFO would be waited for.
pub(crate) fn read_source<R: Files, S: Devices>(
    rt: &R,
    devices: &mut S,
    path: &str,
) -> Result<Vec<u8>, Refusal>
    ensures read { IfOk result (λ bytes. S.uses devices.new ≡ S.uses devices.old ++ Reads path.now bytes.items ∷ []) }
    ensures unread { OnErr result (S.uses devices.new ≡ S.uses devices.old) }
    ensures uncalled { S.calls devices.new ≡ S.calls devices.old }
    ensures kept { S.held devices.new ≡ S.held devices.old }
    ensures fault { IfErr result IsReadFault }
{
    must_open(is_openable(rt, path))?;
    read_answer(devices.read(path))
}

/// The path of a node's image.
pub(crate) fn image_path(alloc: Global, folder: &str, name: &str) -> Result<String, Refusal>
    ensures path { IfOk result (λ path. string_bytes path ≡ image_of folder.now name.now) }
    ensures memory { IfErr result (λ refusal. refusal ≡ Refusal.Memory) }
{
    Ok(format!(in alloc; "{folder}/{name}.img")?)
}

/// Reads the image of a node.
fn read_image<R: Files + AllocGlobal, S: Devices>(
    rt: &R,
    devices: &mut S,
    folder: &str,
    name: &str,
) -> Result<Vec<u8>, Refusal>
    ensures read { IfOk result (λ bytes. S.uses devices.new ≡ S.uses devices.old ++ Reads (image_of folder.now name.now) bytes.items ∷ []) }
    ensures uncalled { S.calls devices.new ≡ S.calls devices.old }
    ensures kept { S.held devices.new ≡ S.held devices.old }
    ensures fault { IfErr result IsReadFault }
{
    let path = image_path(rt.alloc(), folder, name)?;
    read_source(rt, devices, path.as_str())
}

/// Reads the image of each node, in their order.
fn read_images<R: Files + AllocGlobal, S: Devices>(
    rt: &R,
    devices: &mut S,
    folder: &str,
    names: &[&str],
) -> Result<Vec<Vec<u8>>, Refusal>
    ensures all { IfOk result (λ images. length images.items ≡ length names.now) }
    ensures read { IfOk result (λ images. S.uses devices.new ≡ S.uses devices.old ++ images_read folder.now (map (λ name. name.now) names.now) (map (λ image. image.items) images.items)) }
    ensures uncalled { S.calls devices.new ≡ S.calls devices.old }
    ensures kept { S.held devices.new ≡ S.held devices.old }
    ensures fault { IfErr result IsReadFault }
{
    let mut images = Vec::new(rt.alloc());
    for name in names {
        let image = read_image(rt, devices, folder, name)?;
        images.push(image)?;
    }
    Ok(images)
}

/// What is formatted: the topology, and the image of each node.
pub(crate) fn read_network<'a, R: Files + AllocGlobal, S: Devices>(
    rt: &R,
    devices: &mut S,
    text: &'a [u8],
    folder: &str,
) -> Result<(Named<'a>, Vec<Vec<u8>>), Refusal>
    ensures topology { IfOk result (λ found. read_text text.now ≡ Ok found.0.topology) }
    ensures names { IfOk result (λ found. map (λ name. name.now) found.0.names.items ≡ node_names text.now) }
    ensures all { IfOk result (λ found. length found.1.items ≡ length (node_names text.now)) }
    ensures read { IfOk result (λ found. S.uses devices.new ≡ S.uses devices.old ++ images_read folder.now (node_names text.now) (map (λ image. image.items) found.1.items)) }
    ensures uncalled { S.calls devices.new ≡ S.calls devices.old }
    ensures kept { S.held devices.new ≡ S.held devices.old }
    ensures fault { IfErr result IsNetworkFault }
{
    let named = Topology::read_named(rt.alloc(), text)?;
    let images = read_images(rt, devices, folder, named.names.as_slice())?;
    Ok((named, images))
}

/// `tpnet check`, where the topology's names and the images were read.
fn check_named<O: Write, E: Write>(
    alloc: Global,
    named: &Named<'_>,
    images: &[Vec<u8>],
    json: bool,
    out: &mut O,
    err: &mut E,
) -> u8
    ensures few { result ≤ 1 }
    ensures fit { result ≡ 0 → IsSome (start_of named.now.topology (map (λ image. image.items) images.now)) }
    ensures printed { result ≡ 0 → Appends (O.contents out.old) (O.contents out.new) (topology_said json named.now.topology) }
{
    let _rules = named.topology.pages();
    check_on(alloc, &named.topology, images, json, out, err)
}

/// `tpnet check`, where the topology's text was read.
fn check_text<R: Files + AllocGlobal, S: Devices, O: Write, E: Write>(
    rt: &R,
    devices: &mut S,
    text: &[u8],
    folder: &str,
    json: bool,
    out: &mut O,
    err: &mut E,
) -> u8
    ensures few { result ≤ 1 }
    ensures uncalled { S.calls devices.new ≡ S.calls devices.old }
    ensures done { result ≡ 0 → CheckedText json text.now folder.now (S.uses devices.old) (S.uses devices.new) (O.contents out.old) (O.contents out.new) }
{
    match read_network(rt, devices, text, folder) {
        Ok((named, images)) => check_named(rt.alloc(), &named, images.as_slice(), json, out, err),
        Err(refusal) => refuse(err, refusal),
    }
}

/// `tpnet check`, on files. Nothing is written.
#[inline(never)]
pub fn check_file<R: Files + AllocGlobal, S: Devices, O: Write, E: Write>(
    rt: &R,
    devices: &mut S,
    topology: &str,
    folder: &str,
    json: bool,
    out: &mut O,
    err: &mut E,
) -> u8
    ensures few { result ≤ 1 }
    ensures uncalled { S.calls devices.new ≡ S.calls devices.old }
    ensures done { result ≡ 0 → Checked json topology.now folder.now (S.uses devices.old) (S.uses devices.new) (O.contents out.old) (O.contents out.new) }
{
    match read_source(rt, devices, topology) {
        Ok(text) => check_text(rt, devices, text.as_slice(), folder, json, out, err),
        Err(refusal) => refuse(err, refusal),
    }
}

/// Shows a view of a device's file, which stays as it is, with what maps say of addresses. `folder` is where they were read.
fn view_mapped<R: AllocGlobal, S: Devices<Device = D>, D: Disk + Drop, O: Write, E: Write>(
    rt: &R,
    devices: &mut S,
    device: &str,
    view: View,
    folder: &Option<String>,
    maps: &NodeMaps<'_>,
    out: &mut O,
    err: &mut E,
) -> u8
    requires unnamed { folder.now ≡ None → maps_seen maps.now ≡ no_maps }
    ensures few { result ≤ 2 }
    ensures uncalled { S.calls devices.new ≡ S.calls devices.old }
    ensures used { WasRefused (S.uses devices.old) (S.uses devices.new) (O.contents out.old) (O.contents out.new) result ⊎ LooksAtOne device.now (S.uses devices.old) (S.uses devices.new) (ViewedBy view folder.now (O.contents out.old) (O.contents out.new) result) }
{
    let mut disk = match devices.look(device) {
        Ok(disk) => disk,
        Err(refusal) => return refuse(err, refusal),
    };
    let status = view_on(rt.alloc(), &mut disk, view, maps, out, err);
    devices.leave(disk);
    status
}

/// `tpnet waits`, `node`, `image`, `journal` and `port`, on a device's file, which stays as it is. Maps are read first, from a folder if one
/// is named.
#[inline(never)]
pub fn view_file<
    R: Files + AllocGlobal,
    S: Devices<Device = D>,
    D: Disk + Drop,
    O: Write,
    E: Write,
>(
    rt: &R,
    devices: &mut S,
    device: &str,
    view: View,
    folder: &Option<String>,
    out: &mut O,
    err: &mut E,
) -> u8
    ensures few { result ≤ 2 }
    ensures uncalled { S.calls devices.new ≡ S.calls devices.old }
    ensures used { WasRefused (S.uses devices.old) (S.uses devices.new) (O.contents out.old) (O.contents out.new) result ⊎ LooksAtOne device.now (S.uses devices.old) (S.uses devices.new) (ViewedBy view folder.now (O.contents out.old) (O.contents out.new) result) }
{
    let texts = match read_texts(rt, folder) {
        Ok(texts) => texts,
        Err(refusal) => return refuse(err, refusal),
    };
    match read_maps(rt.alloc(), texts.own.as_slice(), texts.all.as_slice()) {
        Ok(maps) => view_mapped(rt, devices, device, view, folder, &maps, out, err),
        Err(refusal) => refuse(err, refusal),
    }
}

/// Traces a node of a device's file, which stays as it is, with what maps say of addresses. `folder` is where they were read.
fn trace_mapped<R: AllocGlobal, S: Devices<Device = D>, D: Disk + Drop, O: Write, E: Write>(
    rt: &R,
    devices: &mut S,
    device: &str,
    part: TracePart,
    folder: &Option<String>,
    maps: &NodeMaps<'_>,
    out: &mut O,
    err: &mut E,
) -> u8
    requires unnamed { folder.now ≡ None → maps_seen maps.now ≡ no_maps }
    ensures few { result ≤ 2 }
    ensures uncalled { S.calls devices.new ≡ S.calls devices.old }
    ensures used { WasRefused (S.uses devices.old) (S.uses devices.new) (O.contents out.old) (O.contents out.new) result ⊎ LooksAtOne device.now (S.uses devices.old) (S.uses devices.new) (TracedBy part folder.now (O.contents out.old) (O.contents out.new) result) }
{
    let mut disk = match devices.look(device) {
        Ok(disk) => disk,
        Err(refusal) => return refuse(err, refusal),
    };
    let status = trace_device_on(rt.alloc(), &mut disk, part, maps, out, err);
    devices.leave(disk);
    status
}

/// `tpnet trace`, on a device's file, which stays as it is. Maps are read first, from a folder if one is named.
#[inline(never)]
pub fn trace_device_file<
    R: Files + AllocGlobal,
    S: Devices<Device = D>,
    D: Disk + Drop,
    O: Write,
    E: Write,
>(
    rt: &R,
    devices: &mut S,
    device: &str,
    part: TracePart,
    folder: &Option<String>,
    out: &mut O,
    err: &mut E,
) -> u8
    ensures few { result ≤ 2 }
    ensures uncalled { S.calls devices.new ≡ S.calls devices.old }
    ensures used { WasRefused (S.uses devices.old) (S.uses devices.new) (O.contents out.old) (O.contents out.new) result ⊎ LooksAtOne device.now (S.uses devices.old) (S.uses devices.new) (TracedBy part folder.now (O.contents out.old) (O.contents out.new) result) }
{
    let texts = match read_texts(rt, folder) {
        Ok(texts) => texts,
        Err(refusal) => return refuse(err, refusal),
    };
    match read_maps(rt.alloc(), texts.own.as_slice(), texts.all.as_slice()) {
        Ok(maps) => trace_mapped(rt, devices, device, part, folder, &maps, out, err),
        Err(refusal) => refuse(err, refusal),
    }
}

/// Opens a device's file to be read alone. What is no device's file isn't opened.
pub(crate) fn file_to_read<R: Files<File = F>, F: OpenFile + Drop>(
    rt: &R,
    device: &str,
) -> Result<F, Refusal>
    ensures { IfErr result (λ refusal. refusal ≡ Refusal.ReadFailed) }
{
    must_open(is_openable(rt, device))?;
    let mut how = OpenOptions::new();
    match how.read(true).open(rt, device) {
        Ok(file) => Ok(file),
        Err(_) => Err(Refusal::ReadFailed),
    }
}

/// The device in an open file. No contract says what it holds. Fails as the system does.
fn disk_in<F: SystemFile + Drop>(file: F) -> io::Result<Counted<RawFile<F>>> {
    Ok(Counted::new(RawFile::new(file)?))
}

/// The device in a file that is there, to be read alone. What is no device's file isn't opened.
pub(crate) fn disk_to_read<R: Files<File = F>, F: FileExt + OpenFile + Drop>(
    rt: &R,
    device: &str,
) -> Result<Counted<RawFile<NotedFile<F>>>, Refusal>
    ensures { IfErr result (λ refusal. refusal ≡ Refusal.ReadFailed) }
{
    let file = file_to_read(rt, device)?;
    match disk_in(NotedFile::new(file)) {
        Ok(disk) => Ok(disk),
        Err(_) => Err(Refusal::ReadFailed),
    }
}

/// `tpnet recover`, on a device's file, which stays as it is.
#[inline(never)]
pub fn recover_file<
    R: AllocGlobal + Threads + Sync,
    S: Devices<Device = D>,
    D: Disk + Drop,
    O: Write,
    E: Write,
>(rt: &R, devices: &mut S, device: &str, workers: u8, out: &mut O, err: &mut E) -> u8
    ensures few { result ≤ 1 }
    ensures uncalled { S.calls devices.new ≡ S.calls devices.old }
    ensures used { WasRefused (S.uses devices.old) (S.uses devices.new) (O.contents out.old) (O.contents out.new) result ⊎ LooksAtOne device.now (S.uses devices.old) (S.uses devices.new) (Shows recovered (O.contents out.old) (O.contents out.new) result) }
{
    let mut disk = match devices.look(device) {
        Ok(disk) => disk,
        Err(refusal) => return refuse(err, refusal),
    };
    let status = recover_on(rt, rt.alloc(), &mut disk, workers, out, err);
    devices.leave(disk);
    status
}

/// `tpnet show`, on a device's file, which stays as it is.
#[inline(never)]
pub fn show_file<R: AllocGlobal, S: Devices<Device = D>, D: Disk + Drop, O: Write, E: Write>(
    rt: &R,
    devices: &mut S,
    device: &str,
    json: bool,
    out: &mut O,
    err: &mut E,
) -> u8
    ensures few { result ≤ 1 }
    ensures uncalled { S.calls devices.new ≡ S.calls devices.old }
    ensures used { WasRefused (S.uses devices.old) (S.uses devices.new) (O.contents out.old) (O.contents out.new) result ⊎ LooksAtOne device.now (S.uses devices.old) (S.uses devices.new) (Shows (shown json) (O.contents out.old) (O.contents out.new) result) }
{
    let mut disk = match devices.look(device) {
        Ok(disk) => disk,
        Err(refusal) => return refuse(err, refusal),
    };
    let status = show_on(rt.alloc(), &mut disk, json, out, err);
    devices.leave(disk);
    status
}

/// The time that a look prints, in seconds since 1970: none if it is the only one.
fn clock_of<W: Watch>(watch: &mut W, every: Option<u32>) -> Option<u64>
    ensures { every ≡ None → result ≡ None }
{
    match every {
        Some(_) => seconds_in(watch.clock()),
        None => None,
    }
}

/// A look at a device's file, which stays as it is. Answers what was seen, or the status.
#[inline(never)]
fn look_file<R: AllocGlobal, S: Devices<Device = D>, D: Disk + Drop, W: Watch, O: Write, E: Write>(
    rt: &R,
    devices: &mut S,
    watch: &mut W,
    device: &str,
    every: Option<u32>,
    before: &Option<Seen>,
    json: bool,
    out: &mut O,
    err: &mut E,
) -> Result<Seen, u8>
    ensures status { IfErr result (λ status. status ≡ 1) }
    ensures uncalled { S.calls devices.new ≡ S.calls devices.old }
    ensures told { IfOk result (λ seen. LooksAtOne device.now (S.uses devices.old) (S.uses devices.new) (Told json before.now (O.contents out.old) (O.contents out.new) seen)) }
    ensures refused { IfErr result (λ status. WasRefused (S.uses devices.old) (S.uses devices.new) (O.contents out.old) (O.contents out.new) status ⊎ (status ≡ 1) × LooksAtOne device.now (S.uses devices.old) (S.uses devices.new) (Untold json before.now (O.contents out.old) (O.contents out.new))) }
{
    let (held, at) = (watch.is_held(device), millis_of(watch.now()));
    let clock = clock_of(watch, every);
    let mut disk = match devices.look(device) {
        Ok(disk) => disk,
        Err(refusal) => return Err(refuse(err, refusal)),
    };
    let told = status_on(
        rt.alloc(),
        &mut disk,
        held,
        at,
        clock,
        before,
        json,
        out,
        err,
    );
    devices.leave(disk);
    told
}

/// `tpnet status`, on a device's file, which stays as it is: one look, or one each `seconds` for as long as a further one is wanted
/// and none is refused.
pub fn status_file<
    R: AllocGlobal,
    S: Devices<Device = D>,
    D: Disk + Drop,
    W: Watch,
    O: Write,
    E: Write,
>(
    rt: &R,
    devices: &mut S,
    watch: &mut W,
    device: &str,
    every: Option<u32>,
    json: bool,
    out: &mut O,
    err: &mut E,
) -> u8
    ensures few { result ≤ 1 }
    ensures uncalled { S.calls devices.new ≡ S.calls devices.old }
    ensures used { HasStatus json device.now (S.uses devices.old) (S.uses devices.new) (O.contents out.old) (O.contents out.new) result }
{
    let mut before = match look_file(rt, devices, watch, device, every, &None, json, out, err) {
        Ok(seen) => Some(seen),
        Err(status) => return status,
    };
    'looks: for _ in 0..u64::MAX {
        match every {
            Some(seconds) if watch.pause(seconds) => {}
            _ => return 0,
        }
        let seen = match look_file(rt, devices, watch, device, every, &before, json, out, err) {
            Ok(seen) => seen,
            Err(status) => return status,
        };
        before = Some(seen);
    }
    0
}
