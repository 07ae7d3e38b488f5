//! Devices in memory, freshly formatted.

use std::alloc::{AllocError, Global};
use std::test::Fail;
use tp_area::format;
use tp_disk::MemDisk;
use tp_model::limits::{NARROW_HEAD_BYTES, NARROW_HEAD_NODES, WIDE_HEAD_BYTES};
use tp_net::Topology;
use tp_tests_fixtures::place;

/// One node, whose link 0 goes to a port.
pub(crate) const ONE: &[u8] = b"node a 4\nport h\nwire a.0 h\n";

/// Three nodes in a chain: link 0 of each goes to link 1 of the next, and that of the last one to a port.
pub(crate) const CHAIN: &[u8] =
    b"node a 4\nnode b 4\nnode c 4\nport h\nwire a.0 b.1\nwire b.0 c.1\nwire c.0 h\n";

/// A node of 16 pages.
pub(crate) const LARGE: &[u8] = b"node a 16\nport h\nwire a.0 h\n";

/// Two nodes, each with a port of its own.
pub(crate) const TWO: &[u8] = b"node a 4\nnode b 4\nport h\nport g\nwire a.0 h\nwire b.0 g\n";

/// Eight nodes in a ring: link 0 of each goes to link 1 of the next. The port has no wire.
pub(crate) const RING: &[u8] =
    b"node a 4\nnode b 4\nnode c 4\nnode d 4\nnode e 4\nnode f 4\nnode g 4\nnode i 4\nport h\nwire a.0 b.1\nwire b.0 c.1\nwire c.0 d.1\nwire d.0 e.1\nwire e.0 f.1\nwire f.0 g.1\nwire g.0 i.1\nwire i.0 a.1\n";

/// Nine nodes in such a ring.
pub(crate) const RING_OF_NINE: &[u8] =
    b"node a 4\nnode b 4\nnode c 4\nnode d 4\nnode e 4\nnode f 4\nnode g 4\nnode i 4\nnode j 4\nport h\nwire a.0 b.1\nwire b.0 c.1\nwire c.0 d.1\nwire d.0 e.1\nwire e.0 f.1\nwire f.0 g.1\nwire g.0 i.1\nwire i.0 j.1\nwire j.0 a.1\n";

/// Sixty-four nodes in such a ring: the device has a wide head.
pub(crate) const WIDE_RING: &[u8] =
    b"node n0 4\nnode n1 4\nnode n2 4\nnode n3 4\nnode n4 4\nnode n5 4\nnode n6 4\nnode n7 4\nnode n8 4\nnode n9 4\nnode n10 4\nnode n11 4\nnode n12 4\nnode n13 4\nnode n14 4\nnode n15 4\nnode n16 4\nnode n17 4\nnode n18 4\nnode n19 4\nnode n20 4\nnode n21 4\nnode n22 4\nnode n23 4\nnode n24 4\nnode n25 4\nnode n26 4\nnode n27 4\nnode n28 4\nnode n29 4\nnode n30 4\nnode n31 4\nnode n32 4\nnode n33 4\nnode n34 4\nnode n35 4\nnode n36 4\nnode n37 4\nnode n38 4\nnode n39 4\nnode n40 4\nnode n41 4\nnode n42 4\nnode n43 4\nnode n44 4\nnode n45 4\nnode n46 4\nnode n47 4\nnode n48 4\nnode n49 4\nnode n50 4\nnode n51 4\nnode n52 4\nnode n53 4\nnode n54 4\nnode n55 4\nnode n56 4\nnode n57 4\nnode n58 4\nnode n59 4\nnode n60 4\nnode n61 4\nnode n62 4\nnode n63 4\nport h\nwire n0.0 n1.1\nwire n1.0 n2.1\nwire n2.0 n3.1\nwire n3.0 n4.1\nwire n4.0 n5.1\nwire n5.0 n6.1\nwire n6.0 n7.1\nwire n7.0 n8.1\nwire n8.0 n9.1\nwire n9.0 n10.1\nwire n10.0 n11.1\nwire n11.0 n12.1\nwire n12.0 n13.1\nwire n13.0 n14.1\nwire n14.0 n15.1\nwire n15.0 n16.1\nwire n16.0 n17.1\nwire n17.0 n18.1\nwire n18.0 n19.1\nwire n19.0 n20.1\nwire n20.0 n21.1\nwire n21.0 n22.1\nwire n22.0 n23.1\nwire n23.0 n24.1\nwire n24.0 n25.1\nwire n25.0 n26.1\nwire n26.0 n27.1\nwire n27.0 n28.1\nwire n28.0 n29.1\nwire n29.0 n30.1\nwire n30.0 n31.1\nwire n31.0 n32.1\nwire n32.0 n33.1\nwire n33.0 n34.1\nwire n34.0 n35.1\nwire n35.0 n36.1\nwire n36.0 n37.1\nwire n37.0 n38.1\nwire n38.0 n39.1\nwire n39.0 n40.1\nwire n40.0 n41.1\nwire n41.0 n42.1\nwire n42.0 n43.1\nwire n43.0 n44.1\nwire n44.0 n45.1\nwire n45.0 n46.1\nwire n46.0 n47.1\nwire n47.0 n48.1\nwire n48.0 n49.1\nwire n49.0 n50.1\nwire n50.0 n51.1\nwire n51.0 n52.1\nwire n52.0 n53.1\nwire n53.0 n54.1\nwire n54.0 n55.1\nwire n55.0 n56.1\nwire n56.0 n57.1\nwire n57.0 n58.1\nwire n58.0 n59.1\nwire n59.0 n60.1\nwire n60.0 n61.1\nwire n61.0 n62.1\nwire n62.0 n63.1\nwire n63.0 n0.1\n";

/// A process takes a byte from link 0, sends it on link 0, and again.
pub(crate) const ECHO: &[u8] = &[
    0x11, 0x24, 0xF2, 0x54, 0x41, 0xF7, 0x11, 0x24, 0xF2, 0x41, 0xFB, 0x60, 0x03,
];

/// A process sends the letter A on link 0, and again.
pub(crate) const LETTERS: &[u8] = &[
    0x27, 0x2F, 0x2F, 0x2F, 0x2F, 0x2F, 0x6F, 0x40, 0x24, 0x41, 0xFE, 0x60, 0x02,
];

/// A process inputs a byte from link 1, sends it on link 0, and again.
pub(crate) const PASSES: &[u8] = &[
    0x11, 0x24, 0xF2, 0x55, 0x41, 0xF7, 0x11, 0x24, 0xF2, 0x41, 0xFB, 0x60, 0x03,
];

/// A process takes a byte from link 0, writes a word into each of pages 4 to 15, sends the byte on link 0, and again.
pub(crate) const ECHO_WRITES: &[u8] = &[
    0x11, 0x24, 0xF2, 0x54, 0x41, 0xF7, 0x4C, 0xD2, 0x24, 0xF2, 0x24, 0x20, 0x50, 0xD3, 0x71, 0x73,
    0xE0, 0x73, 0x21, 0x20, 0x50, 0xD3, 0x72, 0x60, 0x8F, 0xD2, 0x72, 0xA2, 0x60, 0x00, 0x11, 0x24,
    0xF2, 0x41, 0xFB, 0x62, 0x0B,
];

/// A process counts down from 32,768, takes a byte from link 1, sends it on link 0, and starts again. After it, from [`NUMBERS`] on, another one
/// counts down from 32,768, sends the next number, from 0 on, on link 0, and starts again, until it has sent 2, and stops. A count takes 6 steps.
pub(crate) const COUNTS: &[u8] = &[
    0x28, 0x20, 0x20, 0x40, 0xD2, 0x72, 0x60, 0x8F, 0xD2, 0x72, 0xA2, 0x60, 0x08, 0x13, 0x27, 0x2F,
    0x2F, 0x2F, 0x2F, 0x2F, 0x6E, 0x44, 0x41, 0xF7, 0x27, 0x2F, 0x2F, 0x2F, 0x2F, 0x2F, 0x6F, 0x40,
    0x73, 0xFE, 0x62, 0x0C, 0x28, 0x20, 0x20, 0x40, 0xD2, 0x72, 0x60, 0x8F, 0xD2, 0x72, 0xA2, 0x60,
    0x08, 0x27, 0x2F, 0x2F, 0x2F, 0x2F, 0x2F, 0x6F, 0x40, 0x71, 0xFE, 0x71, 0x81, 0xD1, 0x71, 0xC2,
    0x61, 0xA2, 0x21, 0xF5,
];

pub(crate) const NUMBERS: u8 = 0x24;

/// A process runs an operation that there isn't, at its third byte.
pub(crate) const HALTS: &[u8] = &[0x40, 0x40, 0x2F, 0xFF];

/// A process waits for a byte on link 1.
pub(crate) const DEAF: &[u8] = &[0x11, 0x24, 0xF2, 0x55, 0x41, 0xF7];

/// Bytes of the image of a node, with a low process at 80000100 whose workspace is 80000200: where they are, and which.
const BYTES: &[(usize, &[u8])] = &[
    (0, &[1, 0]),
    (4, &[0x00, 0x01, 0x00, 0x80]),
    (8, &[0x00, 0x02, 0x00, 0x80]),
    (24, &[0, 0, 0, 0x80, 0, 0, 0, 0x80]),
    (32, &[0, 0, 0, 0x80, 0, 0, 0, 0x80]),
    (41, &[2]),
    (172 + 0x2C, &[0, 0, 0, 0x80]),
];

/// An image of this many pages with this code, whose process begins `begin` bytes after its first.
fn image(alloc: Global, pages: u16, code: &[u8], begin: u8) -> Result<Vec<u8>, AllocError> {
    let mut image = Vec::from_elem(alloc, 0u8, 172 + 1024 * usize::from(pages))?;
    place(&mut image, 2, &pages.to_le_bytes());
    for (at, bytes) in BYTES {
        place(&mut image, *at, bytes);
    }
    place(&mut image, 4, &[begin]);
    place(&mut image, 172 + 0x100, code);
    Ok(image)
}

/// An image for each node, with its pages and this code. The first begins `begin` bytes after the others.
fn images_of(
    alloc: Global,
    all: &[u16],
    code: &[u8],
    begin: u8,
) -> Result<Vec<Vec<u8>>, AllocError> {
    let mut images = Vec::new(alloc);
    for (node, pages) in all.iter().enumerate() {
        images.push(image(alloc, *pages, code, if node == 0 { begin } else { 0 })?)?;
    }
    Ok(images)
}

/// The bytes of a device of a topology with these images, and areas of `area` bytes.
fn formatted_with(
    alloc: Global,
    topology: &Topology,
    images: &[Vec<u8>],
    area: u32,
) -> Result<Vec<u8>, Fail> {
    let head = if topology.pages().len() <= NARROW_HEAD_NODES {
        NARROW_HEAD_BYTES
    } else {
        WIDE_HEAD_BYTES
    };
    let mut disk = MemDisk::zeroed(alloc, head + 2 * area as usize)?;
    // A topology keeps its rules: its page counts say so, which `format` asks.
    let _rules = topology.pages();
    let done = format(alloc, &mut disk, topology, images, u64::from(area));
    let bytes = disk.crash();
    done?;
    Ok(bytes)
}

/// The bytes of a device whose nodes all have this code, which in the first begins `begin` bytes after the others.
fn formatted_by(
    alloc: Global,
    topology: &Topology,
    code: &[u8],
    begin: u8,
    area: u32,
) -> Result<Vec<u8>, Fail> {
    let images = images_of(alloc, topology.pages(), code, begin)?;
    let device = formatted_with(alloc, topology, &images, area);
    device
}

/// The bytes of a device of a topology, with areas of `area` bytes. All nodes have one code, which in the first begins `begin` bytes after
/// the others.
pub(crate) fn formatted_from(
    alloc: Global,
    text: &[u8],
    code: &[u8],
    begin: u8,
    area: u32,
) -> Result<Vec<u8>, Fail> {
    let topology = Topology::read(alloc, text)?;
    let device = formatted_by(alloc, &topology, code, begin, area);
    device
}

/// The bytes of such a device whose first node begins as the others do.
pub(crate) fn formatted(
    alloc: Global,
    text: &[u8],
    code: &[u8],
    area: u32,
) -> Result<Vec<u8>, Fail> {
    formatted_from(alloc, text, code, 0, area)
}
