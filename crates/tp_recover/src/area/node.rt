//! The nodes of a cut.

ghost use Rattle.std.specs.Prelude.{◌≡◌, ◌+◌, ◌*◌, ◌≤◌, ◌<◌, ◌^◌, ◌++◌, ℕ, None, true, IfOk, map, length, drop, get_or, sum_by};
ghost use Rattle.tp_recover.specs.Lower.{AreTrue, WereTrue, node_with, nodes_in, or_damaged, Counts, image_length};
ghost use Rattle.tp_recover.specs.Nodes.{live_node, AreAllThawed, HasImage, HaveImages};
ghost use Rattle.tp_recover.specs.Reading.{has_read, ReadAnswer, LeavesAlone, LeavesNothingNew};

use crate::reading::device::{read_array, read_bytes};
use crate::unopened::Unopened;
use std::alloc::Global;
use tp_area::image_length;
use tp_disk::Disk;
use tp_model::OpenFault;
use tp_model::limits::{IMAGE_HEAD_BYTES, PAGE_BYTES};
use tp_node::{ImageFault, Node};

/// Decodes the node of `pages` pages from its image at `at`, which is `head` and then `memory`. It has no spare frame, since nothing is
/// replayed while it is frozen.
fn node_in(
    alloc: Global,
    at: u64,
    pages: u16,
    head: &[u8; IMAGE_HEAD_BYTES],
    memory: Vec<u8>,
) -> Result<Node, Unopened>
    requires whole { length memory.items ≡ PAGE_BYTES * pages }
    requires bytes { (i : ℕ) → get_or memory.items i 0 < 256 }
    ensures read { has_read result ≡ true }
    ensures thawed { IfOk result (λ node. node.frozen ≡ None) }
    ensures image { IfOk result (λ node. HasImage pages node.live) }
    ensures is { ReadAnswer live_node (or_damaged at (node_with pages (head.now ++ memory.items))) result }
{
    match Node::from_parts(alloc, head, memory, 0) {
        Ok(node) => Ok(node),
        Err(ImageFault::BadImage) => Err(Unopened::Fault(OpenFault::Damaged(at))),
        Err(ImageFault::Memory) => Err(Unopened::Memory),
    }
}

/// Reads the node of `pages` pages whose image is at `at`: its head, and then its memory, straight into the bytes that the node keeps.
fn read_node<D: Disk>(alloc: Global, disk: &mut D, at: u64, pages: u16) -> Result<Node, Unopened>
    requires inside { at + image_length pages ≤ D.size_of disk.old }
    requires counted { at + image_length pages < 2 ^ 64 }
    ensures counts { Counts (has_read result) (D.size_of disk.old) (D.size_of disk.new) (D.failures_of disk.old) (D.failures_of disk.new) }
    ensures premise { WereTrue (D.reads disk.old) (D.reads disk.new) }
    ensures kept { LeavesAlone result (D.state disk.old).now (D.state disk.new).now }
    ensures leaves { LeavesNothingNew (D.state disk.old) (D.state disk.new) }
    ensures thawed { IfOk result (λ node. node.frozen ≡ None) }
    ensures image { IfOk result (λ node. HasImage pages node.live) }
    ensures is { AreTrue (D.reads disk.new) → ReadAnswer live_node (or_damaged at (node_with pages (drop at (D.state disk.old).now.bytes))) result }
{
    let head: [u8; IMAGE_HEAD_BYTES] = read_array(disk, at)?;
    let place = at + IMAGE_HEAD_BYTES as u64;
    let memory = read_bytes(alloc, disk, place, PAGE_BYTES * usize::from(pages))?;
    node_in(alloc, at, pages, &head, memory)
}

/// Reads the nodes with `pages` pages each. Their images begin at `at`, one after the other.
pub(crate) fn read_nodes<D: Disk>(
    alloc: Global,
    disk: &mut D,
    at: u64,
    pages: &[u16],
) -> Result<Vec<Node>, Unopened>
    requires inside { at + sum_by image_length pages.now ≤ D.size_of disk.old }
    requires counted { at + sum_by image_length pages.now < 2 ^ 64 }
    ensures counts { Counts (has_read result) (D.size_of disk.old) (D.size_of disk.new) (D.failures_of disk.old) (D.failures_of disk.new) }
    ensures premise { WereTrue (D.reads disk.old) (D.reads disk.new) }
    ensures kept { LeavesAlone result (D.state disk.old).now (D.state disk.new).now }
    ensures leaves { LeavesNothingNew (D.state disk.old) (D.state disk.new) }
    ensures len { IfOk result (λ nodes. length nodes.items ≡ length pages.now) }
    ensures thawed { IfOk result (λ nodes. AreAllThawed nodes.items) }
    ensures images { IfOk result (λ nodes. HaveImages pages.now (map live_node nodes.items)) }
    ensures is { AreTrue (D.reads disk.new) → ReadAnswer (λ nodes. map live_node nodes.items) (nodes_in at pages.now (drop at (D.state disk.old).now.bytes)) result }
{
    let mut nodes = Vec::new(alloc);
    let mut place = at;
    for count in pages {
        let read = read_node(alloc, disk, place, *count)?;
        let Ok(()) = nodes.push(read) else {
            return Err(Unopened::Memory);
        };
        place += image_length(*count) as u64;
    }
    Ok(nodes)
}
