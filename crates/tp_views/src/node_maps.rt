//! The maps of a device's nodes.

ghost use Rattle.std.specs.Prelude.{◌≡◌, [], Ok, IfErr, IfOk, get_or, map};
ghost use Rattle.tp_views.specs.Maps.{maps_in, no_maps, read_map, rows_of, rows_read, rows_seen};
ghost use Rattle.tp_views.specs.NodeMaps.{IsMapRefusal, maps_seen, refusal_of};
ghost use Rattle.tp_views.specs.Refused.{IsMapsFault};

use crate::maps::{MapFault, MapRow, read_map};
use crate::refusal::{MapFile, Refusal};
use std::alloc::Global;

/// The maps of a device's nodes: each node's own at its number, and one for all nodes whose own says nothing.
#[derive(Drop)]
pub struct NodeMaps<'a> {
    pub own: Vec<Vec<MapRow<'a>>>,
    pub all: Vec<MapRow<'a>>,
}

impl<'a> NodeMaps<'a> {
    /// Gives no maps.
    pub fn none(alloc: Global) -> NodeMaps<'a>
        ensures { maps_seen result ≡ no_maps }
    {
        NodeMaps {
            own: Vec::new(alloc),
            all: Vec::new(alloc),
        }
    }

    /// Gives the rows of a node's map.
    pub(crate) fn of(&self, node: usize) -> &[MapRow<'a>]
        ensures { rows_seen result.now ≡ rows_of (maps_seen self.now) node }
    {
        if let Some(own) = self.own.get(node)
            && !own.is_empty()
        {
            return own.as_slice();
        }
        self.all.as_slice()
    }
}

/// Gives why the map in a file can't be read.
fn refusal_of(file: MapFile, fault: MapFault) -> Refusal
    ensures { result ≡ refusal_of file fault }
{
    match fault {
        MapFault::Line(number) => Refusal::BadMap(file, number),
        MapFault::Memory => Refusal::Memory,
    }
}

/// Reads a map that is in `file`.
pub fn read_rows<'a>(
    alloc: Global,
    text: &'a [u8],
    file: MapFile,
) -> Result<Vec<MapRow<'a>>, Refusal>
    ensures ok { IfOk result (λ rows. read_map text.now ≡ Ok (rows_seen rows.items)) }
    ensures refused { IfErr result (IsMapRefusal text.now file) }
{
    match read_map(alloc, text) {
        Ok(rows) => Ok(rows),
        Err(fault) => Err(refusal_of(file, fault)),
    }
}

/// Reads the maps of nodes, each at its node's number.
fn read_own<'a>(alloc: Global, texts: &'a [Vec<u8>]) -> Result<Vec<Vec<MapRow<'a>>>, Refusal>
    ensures own { IfOk result (λ own. map (λ rows. rows_seen rows.items) own.items ≡ map (λ text. rows_read (read_map text.items)) texts.now) }
    ensures fault { IfErr result IsMapsFault }
{
    let mut own = Vec::new(alloc);
    for (node, text) in texts.iter().enumerate() {
        own.push(read_rows(alloc, text.as_slice(), MapFile::Node(node))?)?;
    }
    Ok(own)
}

/// Reads the maps of a device's nodes: each node's own, at its number, and the one for all nodes whose own says nothing. An empty text says nothing.
pub fn read_maps<'a>(
    alloc: Global,
    own: &'a [Vec<u8>],
    all: &'a [u8],
) -> Result<NodeMaps<'a>, Refusal>
    ensures maps { IfOk result (λ maps. maps_seen maps ≡ maps_in (map (λ text. text.items) own.now) all.now) }
    ensures fault { IfErr result IsMapsFault }
{
    Ok(NodeMaps {
        own: read_own(alloc, own)?,
        all: read_rows(alloc, all, MapFile::All)?,
    })
}
