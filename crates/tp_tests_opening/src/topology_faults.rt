//! Texts that say no topology, each with its fault.

use self::Front::{Nodes, Nothing, Ports, Small};
use std::alloc::Global;
use std::fmt;
use tp_model::NetFault;
use tp_model::NetFault::{Syntax, TooMany, TwoWires, UnknownNode};
use tp_net::Topology;

/// A node and a port: what many texts begin with.
const SMALL: &str = "node a 4\nport h\n";

/// As many nodes as there may be, and as many ports.
const NODES: &str =
    "node n0 4\nnode n1 4\nnode n2 4\nnode n3 4\nnode n4 4\nnode n5 4\nnode n6 4\nnode n7 4\nnode n8 4\nnode n9 4\nnode n10 4\nnode n11 4\nnode n12 4\nnode n13 4\nnode n14 4\nnode n15 4\nnode n16 4\nnode n17 4\nnode n18 4\nnode n19 4\nnode n20 4\nnode n21 4\nnode n22 4\nnode n23 4\nnode n24 4\nnode n25 4\nnode n26 4\nnode n27 4\nnode n28 4\nnode n29 4\nnode n30 4\nnode n31 4\nnode n32 4\nnode n33 4\nnode n34 4\nnode n35 4\nnode n36 4\nnode n37 4\nnode n38 4\nnode n39 4\nnode n40 4\nnode n41 4\nnode n42 4\nnode n43 4\nnode n44 4\nnode n45 4\nnode n46 4\nnode n47 4\nnode n48 4\nnode n49 4\nnode n50 4\nnode n51 4\nnode n52 4\nnode n53 4\nnode n54 4\nnode n55 4\nnode n56 4\nnode n57 4\nnode n58 4\nnode n59 4\nnode n60 4\nnode n61 4\nnode n62 4\nnode n63 4\n";

const PORTS: &str = "port a\nport b\nport c\nport d\nport e\nport f\nport g\nport h\n";

/// What a text begins with: nothing, or one of these.
#[derive(Clone, Copy)]
enum Front {
    Nothing,
    Small,
    Nodes,
    Ports,
}

/// What texts begin with, their fault, and what follows in each, one after another with a stroke between two: each reference within a table
/// costs a check time.
type Row = (Front, NetFault, &'static str);

const TEXTS: &[Row] = &[
    // Nothing to run.
    (
        Nothing,
        Syntax(0),
        "|\n\n# nothing\n|\r\n|node a 4\n|port h\n",
    ),
    (Nodes, Syntax(0), ""),
    // Lines of nodes.
    (
        Nothing,
        Syntax(1),
        "node a 3\n|node a 1025\n|node a 0\n|node a 04\n|node a +4\n|node a -4\n|node a 4.0\n|node a 0x10\n|node a 18446744073709551620\n|node a\n|node\n|node 4 a\n|node a 4 5\n|node a four\n|Node a 4\n|nodes a 4\n|node A 4\n|node aB 4\n|node 1a 4\n|node -a 4\n|node a_b 4\n|node a.0 4\n|node abcdefghijklmnopq 4\n",
    ),
    (
        Nothing,
        Syntax(2),
        "node a 4\nnode a 5\n|port h\nnode h 4\n",
    ),
    (Nothing, Syntax(3), "node a 4\nnode b 4\nnode a 3\n"),
    // Lines of ports.
    (
        Nothing,
        Syntax(1),
        "port\n|port h 4\n|port H\n|port 1\n|port h.0\n|port abcdefghijklmnopq\n|ports h\n",
    ),
    (Nothing, Syntax(2), "port h\nport h\n|node a 4\nport a\n"),
    // Spaces and ends of lines.
    (
        Nothing,
        Syntax(1),
        " node a 4\n|node a 4 \n| \n| # indented\n|node a 4 # four\n|node\ta 4\n|node a 4\r|node a 4\r\r\n|node a 4\rport h\n|\r",
    ),
    (Small, Syntax(4), "\r\n\r|wire a.0 h\nx"),
    (Small, Syntax(3), "link a h\n"),
    (
        Nothing,
        Syntax(7),
        "# one\n\nnode a 4\n\n# five\nport h\nwire a.0\n",
    ),
    // Shapes of wires.
    (
        Small,
        Syntax(3),
        "wire\n|wire a.0\n|wire a.0 h h\n|wire a h\n|wire h a\n|wire a.0 h.0\n|wire a.4 h\n|wire a.00 h\n|wire a.-1 h\n|wire a. h\n|wire .0 h\n|wire a.0.0 h\n|wire a..0 h\n|wire a.0, h\n|wire A.0 h\n|wire a.0 h \n|wire h h\n",
    ),
    (Small, Syntax(4), "port g\nwire g h\n"),
    // Names that aren't known.
    (
        Nothing,
        UnknownNode,
        "node a 4\nwire a.0 b.1\n|wire a.0 b.0\nnode a 4\nnode b 4\n|node a 4\nwire a.0 h\nport h\n",
    ),
    (
        Small,
        UnknownNode,
        "wire a.0 g\n|wire b h\n|wire b.0 h.0\n|wire aa.0 h\n|wire a.0 h\nwire a.0 b.0\n",
    ),
    // Ends that are taken.
    (
        Small,
        TwoWires,
        "wire a.0 h\nwire a.0 a.1\n|wire a.0 h\nwire a.1 a.0\n|wire a.0 h\nwire a.1 h\n|wire a.0 h\nwire h a.1\n|wire a.0 h\nwire a.0 h\n|wire a.0 h\nwire h a.0\n|wire a.0 a.0\n|wire a.3 a.2\nwire h a.2\nnode b 3\n",
    ),
    // Too many.
    (
        Nodes,
        TooMany,
        "node n64 4\n|port z\nport y\nnode q 4\nnode r 3\n",
    ),
    (Nodes, Syntax(65), "node n64 3\n|node n0 4\n"),
    (Ports, TooMany, "port i\n"),
    (Ports, Syntax(9), "port a\n|port I\n"),
    // The first of several faults.
    (Small, Syntax(3), "wire a.0\nwire a.0 b.0\n|wire b.4 h\n"),
    (Small, UnknownNode, "wire a.0 b.0\nwire a.0\n"),
    (
        Small,
        Syntax(4),
        "wire a.0 h\nwire h h\n|wire a.0 h\nwire a.0 h.1\n",
    ),
];

/// The text of a front.
fn text_in(front: Front) -> &'static str {
    match front {
        Nothing => "",
        Small => SMALL,
        Nodes => NODES,
        Ports => PORTS,
    }
}

/// Whether a text that begins so has this fault.
fn has_fault(alloc: Global, front: &str, rest: &str, want: NetFault) -> bool {
    let mut text = String::new(alloc);
    text.push_str(front).is_ok()
        && text.push_str(rest).is_ok()
        && Topology::read(alloc, text.as_bytes()).err() == Some(want)
}

/// Whether each text of a row has its fault.
fn is_row(alloc: Global, row: &Row) -> bool {
    let (front, want, texts) = *row;
    for rest in texts.split('|') {
        if !has_fault(alloc, text_in(front), rest, want) {
            return false;
        }
    }
    true
}

#[test]
fn texts_have_their_faults(rt: HostRuntime) {
    for (i, row) in TEXTS.iter().enumerate() {
        assert!(rt; is_row(rt.alloc(), row), "row {i}");
    }
}

/// How many nodes a text has, each of four pages except the last, and the pages of that; how many ports; and the text's fault, if it has one.
type Limit = (u16, u16, u16, Option<NetFault>);

const LIMITS: &[Limit] = &[
    (1, 4, 1, None),
    (16, 256, 8, None),
    (17, 257, 8, None),
    (63, 1_023, 7, None),
    (64, 1_024, 8, None),
    (65, 4, 1, Some(TooMany)),
    (65, 1_024, 9, Some(TooMany)),
    (65, 1_025, 1, Some(Syntax(65))),
    (64, 3, 1, Some(Syntax(64))),
    (64, 1_025, 1, Some(Syntax(64))),
    (1, 1_025, 8, Some(Syntax(1))),
    (1, 4, 9, Some(TooMany)),
];

/// Adds lines of nodes, each of four pages but the last.
fn add_nodes(text: &mut String, count: u16, last: u16) -> Result<(), fmt::Error> {
    for node in 0..count {
        let pages = if node + 1 < count { 4 } else { last };
        write!(text, "node n{node} {pages}\n")?;
    }
    Ok(())
}

/// Adds lines of ports.
fn add_ports(text: &mut String, count: u16) -> Result<(), fmt::Error> {
    for port in 0..count {
        write!(text, "port p{port}\n")?;
    }
    Ok(())
}

/// Lines of nodes, each of four pages but the last, and of ports.
pub(crate) fn text_of(
    alloc: Global,
    nodes: u16,
    last: u16,
    ports: u16,
) -> Result<String, fmt::Error> {
    let mut text = String::new(alloc);
    add_nodes(&mut text, nodes, last)?;
    add_ports(&mut text, ports)?;
    Ok(text)
}

/// Whether such a text has its fault, or none.
fn is_limit(alloc: Global, row: &Limit) -> bool {
    let (nodes, last, ports, fault) = *row;
    match text_of(alloc, nodes, last, ports) {
        Ok(text) => Topology::read(alloc, text.as_bytes()).err() == fault,
        Err(_) => false,
    }
}

#[test]
fn counts_are_within_their_limits(rt: HostRuntime) {
    for (i, row) in LIMITS.iter().enumerate() {
        assert!(rt; is_limit(rt.alloc(), row), "row {i}");
    }
}

#[test]
fn names_are_text(rt: HostRuntime) {
    let name = Topology::read(rt.alloc(), b"node a 4\nnode b\xff 4\n").err();
    assert!(rt; name == Some(Syntax(2)));
}
