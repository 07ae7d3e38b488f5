//! A part of either kind.

ghost use Rattle.tp_replay.specs.Held.{has};
ghost use Rattle.tp_replay.specs.Parts.{held_part, net_room};

use crate::Part;
use crate::pieces::host_part::HostPart;
use crate::pieces::nodes_part::NodesPart;
use tp_model::Entry;

/// A part of a network: some of its nodes, or the host.
#[derive(Drop)]
pub enum NetPart {
    Nodes(NodesPart),
    Host(HostPart),
}

impl Part for NetPart {
    ghost has = { λ part. has (held_part part) };

    ghost network = { λ part. (held_part part).network };

    ghost room = { net_room };

    fn first_node(&self) -> Option<u8> {
        match self {
            NetPart::Nodes(part) => part.first_node(),
            NetPart::Host(part) => part.first_node(),
        }
    }

    fn apply(&mut self, entry: &Entry) -> bool {
        match self {
            NetPart::Nodes(part) => part.apply(entry),
            NetPart::Host(part) => part.apply(entry),
        }
    }
}
