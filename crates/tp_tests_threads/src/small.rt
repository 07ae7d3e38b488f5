//! Devices of networks of a few nodes, and of sixteen and seventeen, in memory.

use std::alloc::{AllocError, Global};
use tp_area::format;
use tp_disk::MemDisk;
use tp_model::limits::{NARROW_HEAD_BYTES, PAGE_BYTES, WIDE_HEAD_BYTES};
use tp_net::Topology;
use tp_recover::Unopened;
use tp_tests_fixtures::{HEAD, ONE_NODE, SENDS_A, idle, place};

/// The instructions of a node's only process, from 80000100 on, and where its workspace is, from 80000000 on. It is of low priority, and runs;
/// without instructions there is none.
#[derive(Clone, Copy)]
pub(crate) struct Program {
    pub(crate) code: &'static [u8],
    pub(crate) workspace: u16,
}

/// How the images of nodes and the device are made.
#[derive(Clone, Copy)]
pub(crate) enum Made {
    /// As they are formatted.
    Formatted,
    /// Each page of an image has a mark, which says which node's it is, and which page.
    Marked,
    /// The first area has no turns, as before areas had forms.
    WithoutTurns,
}

/// The topology of a network, the programs of its nodes (the last one is that of all further nodes), the bytes of an area of its device, and how it
/// is made.
#[derive(Clone, Copy)]
pub(crate) struct Network {
    pub(crate) text: &'static [u8],
    pub(crate) programs: &'static [Program],
    pub(crate) area: u32,
    pub(crate) made: Made,
}

/// One node, which sends a letter and then goes round.
pub(crate) const ONE: Network = Network {
    text: ONE_NODE,
    programs: &[Program {
        code: SENDS_A,
        workspace: 0x200,
    }],
    area: 16_384,
    made: Made::Formatted,
};

/// How many nodes the networks below have.
pub(crate) const NODES: u8 = 16;

/// Sixteen nodes. Link 0 of the first goes to a port; no other link has a wire. The first one sends a letter, waits for the acknowledge,
/// and then goes round, as the others do from the beginning. Each counts in the first word of its workspace, which is in the second page.
pub(crate) const SIXTEEN: Network = Network {
    text: b"node a 4\nnode b 4\nnode c 4\nnode d 4\nnode e 4\nnode f 4\nnode g 4\nnode i 4\nnode j 4\nnode k 4\nnode l 4\nnode m 4\nnode n 4\nnode o 4\nnode p 4\nnode q 4\nport h\nwire a.0 h\n",
    programs: &[
        Program {
            code: &[
                0x27, 0x2F, 0x2F, 0x2F, 0x2F, 0x2F, 0x6F, 0x40, 0x24, 0x41, 0xFE, 0x70, 0x81, 0xD0,
                0x60, 0x0B,
            ],
            workspace: 0x600,
        },
        Program {
            code: &[0x70, 0x81, 0xD0, 0x60, 0x0B],
            workspace: 0x600,
        },
    ],
    area: 131_072,
    made: Made::Formatted,
};

/// Those nodes and a seventeenth one: the device has a wide head.
pub(crate) const WIDE: Network = Network {
    text: b"node a 4\nnode b 4\nnode c 4\nnode d 4\nnode e 4\nnode f 4\nnode g 4\nnode i 4\nnode j 4\nnode k 4\nnode l 4\nnode m 4\nnode n 4\nnode o 4\nnode p 4\nnode q 4\nnode r 4\nport h\nwire a.0 h\n",
    ..SIXTEEN
};

/// Sixteen nodes over a device as it was made before areas had forms.
pub(crate) const WITHOUT_TURNS: Network = Network {
    made: Made::WithoutTurns,
    ..SIXTEEN
};

/// Four nodes of several sizes in a ring, whose pages have marks. Link 0 of the first goes to a port.
pub(crate) const MARKED: Network = Network {
    text: b"node a 4\nnode b 6\nnode c 5\nnode d 6\nport h\nwire a.0 h\nwire a.1 b.0\nwire b.1 c.0\nwire c.1 d.0\nwire d.1 a.2\n",
    made: Made::Marked,
    ..SIXTEEN
};

/// Where a page has its mark.
const MARK: usize = 0x300;

/// Where the form of the first area is.
const FORM: usize = 531;

/// Puts the process of a node into its image.
fn put_process(image: &mut [u8], network: &Network, node: u16) {
    let last = network.programs.len().saturating_sub(1);
    let Some(program) = network.programs.get((node as usize).min(last)) else {
        return;
    };
    if program.code.is_empty() {
        return;
    }
    let [low, high] = program.workspace.to_le_bytes();
    place(image, 4, &[0x00, 0x01, 0x00, 0x80, low, high, 0x00, 0x80]);
    place(image, 41, &[2]);
    place(image, HEAD + 0x100, program.code);
}

/// Puts the marks of a node's pages into its image.
fn put_marks(image: &mut [u8], node: u16, pages: u16) {
    for page in 0..pages {
        let at = HEAD + PAGE_BYTES * page as usize + MARK;
        let [node, _] = node.wrapping_add(1).to_le_bytes();
        let [page, _] = page.wrapping_add(1).to_le_bytes();
        place(image, at, &[node, page]);
    }
}

/// The image of a node of `pages` pages.
fn image(alloc: Global, network: &Network, node: u16, pages: u16) -> Result<Vec<u8>, AllocError> {
    let first = idle(alloc)?;
    let mut image = Vec::from_elem(alloc, 0u8, HEAD + PAGE_BYTES * pages as usize)?;
    place(&mut image, 0, &first);
    place(&mut image, 2, &pages.to_le_bytes());
    put_process(&mut image, network, node);
    if matches!(network.made, Made::Marked) {
        put_marks(&mut image, node, pages);
    }
    Ok(image)
}

fn images(alloc: Global, network: &Network, pages: &[u16]) -> Result<Vec<Vec<u8>>, AllocError> {
    let mut images = Vec::new(alloc);
    let mut node = 0u16;
    for count in pages {
        images.push(image(alloc, network, node, *count)?)?;
        node = node.wrapping_add(1);
    }
    Ok(images)
}

/// A device of a topology and images, freshly formatted; `None` if memory runs out.
fn formatted_with(
    alloc: Global,
    topology: &Topology,
    images: &[Vec<u8>],
    area: u32,
) -> Option<MemDisk> {
    // A topology keeps its rules: its page counts say so, which `format` asks.
    let is_wide = topology.pages().len() > NODES as usize;
    let head = if is_wide {
        WIDE_HEAD_BYTES
    } else {
        NARROW_HEAD_BYTES
    };
    let mut disk = MemDisk::zeroed(alloc, head + 2 * area as usize).ok()?;
    format(alloc, &mut disk, topology, images, u64::from(area)).ok()?;
    Some(disk)
}

/// The bytes of the device of a network, freshly formatted; `None` if memory runs out.
fn formatted_once(alloc: Global, network: &Network) -> Option<Vec<u8>> {
    let topology = Topology::read(alloc, network.text).ok()?;
    let images = images(alloc, network, topology.pages()).ok()?;
    let mut bytes = formatted_with(alloc, &topology, &images, network.area)?.crash();
    if matches!(network.made, Made::WithoutTurns) {
        place(&mut bytes, FORM, &[0, 0]);
    }
    Some(bytes)
}

/// The bytes of the device of a network, freshly formatted.
pub(crate) fn formatted(alloc: Global, network: &Network) -> Result<Vec<u8>, Unopened> {
    match formatted_once(alloc, network) {
        Some(bytes) => Ok(bytes),
        None => Err(Unopened::Memory),
    }
}
