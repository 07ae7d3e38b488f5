//! Texts that say a topology, and what they say.

use std::alloc::Global;
use tp_model::WireEnd;
use tp_model::WireEnd::{Link, Port};
use tp_net::Topology;

/// What a text says: the names of the nodes, with a blank between two; the pages of each; how many ports there are; and what is wired, each line with
/// the end that receives it.
struct Row {
    text: &'static [u8],
    names: &'static str,
    pages: &'static [u16],
    ports: usize,
    wired: &'static [(usize, WireEnd)],
}

/// Sixty-four nodes, whose pages rise from 4 to 66 and then are 1,024, and eight ports.
const ALL: &[u8] =
    b"node n0 4\nnode n1 5\nnode n2 6\nnode n3 7\nnode n4 8\nnode n5 9\nnode n6 10\nnode n7 11\nnode n8 12\nnode n9 13\nnode n10 14\nnode n11 15\nnode n12 16\nnode n13 17\nnode n14 18\nnode n15 19\nnode n16 20\nnode n17 21\nnode n18 22\nnode n19 23\nnode n20 24\nnode n21 25\nnode n22 26\nnode n23 27\nnode n24 28\nnode n25 29\nnode n26 30\nnode n27 31\nnode n28 32\nnode n29 33\nnode n30 34\nnode n31 35\nnode n32 36\nnode n33 37\nnode n34 38\nnode n35 39\nnode n36 40\nnode n37 41\nnode n38 42\nnode n39 43\nnode n40 44\nnode n41 45\nnode n42 46\nnode n43 47\nnode n44 48\nnode n45 49\nnode n46 50\nnode n47 51\nnode n48 52\nnode n49 53\nnode n50 54\nnode n51 55\nnode n52 56\nnode n53 57\nnode n54 58\nnode n55 59\nnode n56 60\nnode n57 61\nnode n58 62\nnode n59 63\nnode n60 64\nnode n61 65\nnode n62 66\nnode n63 1024\nport p0\nport p1\nport p2\nport p3\nport p4\nport p5\nport p6\nport p7\nwire n63.3 p7\nwire p0 n62.0\n";

const ROWS: &[Row] = &[
    Row {
        text: b"node a 4\nport h\nwire a.0 h\n",
        names: "a",
        pages: &[4],
        ports: 1,
        wired: &[(0, Port(0)), (4, Link(0, 0))],
    },
    Row {
        text: b"node a 4\r\n\r\n# any text: \xC3\xBE, Node A  \r\nport   h\r\nwire  h   a.3",
        names: "a",
        pages: &[4],
        ports: 1,
        wired: &[(3, Port(0)), (4, Link(0, 3))],
    },
    Row {
        text: b"node a 4\nport h\nwire a.0 a.3",
        names: "a",
        pages: &[4],
        ports: 1,
        wired: &[(0, Link(0, 3)), (3, Link(0, 0))],
    },
    Row {
        text: b"node node 4\nport port\n\n",
        names: "node",
        pages: &[4],
        ports: 1,
        wired: &[],
    },
    Row {
        text: b"port wire\nnode abcdefghijklmnop 100\nwire abcdefghijklmnop.2 wire\n#",
        names: "abcdefghijklmnop",
        pages: &[100],
        ports: 1,
        wired: &[(2, Port(0)), (4, Link(0, 2))],
    },
    Row {
        text: b"port p-1\nnode a 4\nport p-2\nnode a9- 256\nwire a9-.3 a.0\nwire p-2 a9-.0\nwire a.1 p-1\n",
        names: "a a9-",
        pages: &[4, 256],
        ports: 2,
        wired: &[
            (0, Link(1, 3)),
            (1, Port(0)),
            (4, Port(1)),
            (7, Link(0, 0)),
            (8, Link(0, 1)),
            (9, Link(1, 0)),
        ],
    },
    // A comment may have bytes that are no text.
    Row {
        text: b"#\xff\nnode a 4\nport h\n",
        names: "a",
        pages: &[4],
        ports: 1,
        wired: &[],
    },
    // As many nodes and ports as there may be.
    Row {
        text: ALL,
        names: "n0 n1 n2 n3 n4 n5 n6 n7 n8 n9 n10 n11 n12 n13 n14 n15 n16 n17 n18 n19 n20 n21 n22 n23 n24 n25 n26 n27 n28 n29 n30 n31 n32 n33 n34 n35 n36 n37 n38 n39 n40 n41 n42 n43 n44 n45 n46 n47 n48 n49 n50 n51 n52 n53 n54 n55 n56 n57 n58 n59 n60 n61 n62 n63",
        pages: &[
            4, 5, 6, 7, 8, 9, 10, 11, 12, 13, 14, 15, 16, 17, 18, 19, 20, 21, 22, 23, 24, 25, 26,
            27, 28, 29, 30, 31, 32, 33, 34, 35, 36, 37, 38, 39, 40, 41, 42, 43, 44, 45, 46, 47, 48,
            49, 50, 51, 52, 53, 54, 55, 56, 57, 58, 59, 60, 61, 62, 63, 64, 65, 66, 1024,
        ],
        ports: 8,
        wired: &[
            (248, Port(0)),
            (255, Port(7)),
            (256, Link(62, 0)),
            (263, Link(63, 3)),
        ],
    },
];

/// The end that receives a line, by what is wired.
fn receiver(line: usize, wired: &[(usize, WireEnd)]) -> Option<WireEnd> {
    for (at, end) in wired {
        if *at == line {
            return Some(*end);
        }
    }
    None
}

/// Whether texts are those that are in `want`, with a blank between two.
fn are_texts(found: &[&str], want: &str) -> bool {
    let mut count = 0usize;
    for text in want.split(' ') {
        let is_next = match found.get(count) {
            Some(name) => *name == text,
            None => false,
        };
        if !is_next {
            return false;
        }
        count = count.saturating_add(1);
    }
    found.len() == count
}

/// Whether the ends that receive the lines are those of a row.
fn are_wires(found: &[Option<WireEnd>], row: &Row) -> bool {
    for (line, end) in found.iter().enumerate() {
        if *end != receiver(line, row.wired) {
            return false;
        }
    }
    found.len() == row.pages.len().saturating_mul(4).saturating_add(row.ports)
}

/// Whether the text of a row says what the row does, read with names and without.
fn says(alloc: Global, row: &Row) -> bool {
    let Ok(found) = Topology::read(alloc, row.text) else {
        return false;
    };
    match Topology::read_named(alloc, row.text) {
        Ok(named) => {
            are_texts(named.names.as_slice(), row.names)
                && named.topology.pages() == row.pages
                && found.pages() == row.pages
                && found.port_count() == row.ports
                && are_wires(found.wires(), row)
        }
        Err(_) => false,
    }
}

#[test]
fn texts_say_their_topology(rt: HostRuntime) {
    for (i, row) in ROWS.iter().enumerate() {
        assert!(rt; says(rt.alloc(), row), "row {i}");
    }
}
