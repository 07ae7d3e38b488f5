//! The topology of an opened device, for the flusher.

ghost use Rattle.std.specs.Prelude.{◌≡◌, ◌≤◌, length};
ghost use Rattle.tp_flush.specs.Lower.{MAX_NODES, MAX_LINES};

use arrayvec::ArrayVec;
use tp_model::WireEnd;
use tp_model::limits::MAX_NODES;
use tp_net::{MAX_LINES, Topology};
use tp_recover::Opened;

/// Copies page counts.
fn copied_pages(pages: &[u16]) -> ArrayVec<u16, MAX_NODES>
    requires { length pages.now ≤ MAX_NODES }
    ensures { result.items ≡ pages.now }
{
    let mut copy = ArrayVec::new();
    for count in pages {
        copy.push(*count);
    }
    copy
}

/// Copies the ends of wires.
fn copied_wires(wires: &[Option<WireEnd>]) -> ArrayVec<Option<WireEnd>, MAX_LINES>
    requires { length wires.now ≤ MAX_LINES }
    ensures { result.items ≡ wires.now }
{
    let mut copy = ArrayVec::new();
    for end in wires {
        copy.push(*end);
    }
    copy
}

/// Copies the topology of a device that opened. It takes no memory.
#[inline(never)]
pub fn topology_of(opened: &Opened) -> Topology
    ensures { result ≡ opened.now.head.topology }
{
    let topology = opened.head().topology();
    let pages = copied_pages(topology.pages());
    let wires = copied_wires(topology.wires());
    let Some(copy) = Topology::of_parts(pages, topology.port_count() as u8, wires) else {
        unreachable!()
    };
    copy
}
