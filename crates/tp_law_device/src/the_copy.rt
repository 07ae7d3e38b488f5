//! The copy of a whole cut with its tail can be put into a device's other area, and opens to exactly that copy. The functions
//! do nothing; their contracts are the laws.

ghost use Rattle.std.specs.Prelude.{◌≡◌, ◌≤◌, ◌<◌, ◌+◌, ◌-◌, ◌*◌, ◌++◌, ◌⊎◌, ℕ, Bool, false, true, List, Ok, Some, length, map, take, drop, slice_get};
ghost use Rattle.tp_law_device.specs.Lower.{AllByRecursion, Act, CutHolds, happens, Held, gate_open, CopySpelt, tail_of, area_start, content_of, written, device_areas, has_room, other_content, other_is_open, other_start, process, IsFrozenAs, IsNode, image, image_head, page_count, entry_room, is_roomy, room, HasByte, KeptRun, Network, t414, t414_ends, NodeState, AreNumbered, opened_copy, Opened, groups_place, verdict, post, IsSized, IsThere, PiecesStand, Event, HasCut, BeginsFormatted, World, copy_of, is_trim, MarkedNetwork, entries_in, groups_bytes, Topology, is_topology, WholeCut, all_some, count_in, network_in, Resting, TwoAreas, Entry, Turns, IMAGE_HEAD_BYTES, NUMBER_LIMIT, PAGE_BYTES};
ghost use Rattle.tp_law_device.specs.Checkpoints.{Switches};
ghost use Rattle.tp_law_device.specs.CanPut.{CanPut};
ghost use Rattle.tp_law_device.specs.CutSpelt.{CutSpelt};
ghost use Rattle.tp_law_device.specs.OneCheckpoint.{OneCheckpoint};
ghost use Rattle.tp_law_device.specs.OneTurn.{OneTurn};

/// It doesn't matter how the other area came to hold the pieces of a copy, each at its place and the tail in any groups of 1 to 64. That
/// copy is what the area holds after its closed gate. Once the gate is open, opening answers the copy: its base, its network, the entries
/// of the tail with their numbers, and the other area as the chosen one.
pub fn copies_open()
    ensures { (bytes : List ℕ) (o : Opened) (copy : Held NodeState) (tail : List (Entry × ℕ)) (groups : List (List (Entry × ℕ)))
        → verdict bytes ≡ Ok o → other_is_open o bytes ≡ false → o.generation + 1 < NUMBER_LIMIT
        → (C : CopySpelt o.head.topology copy tail) → entries_in groups ≡ tail → AllByRecursion IsSized groups
        → PiecesStand o.head.topology (other_content o bytes) (o.generation + 1) copy groups
        → (device_areas.other bytes ≡ Some (other_start o, copy)) × (verdict (written bytes (other_start o) gate_open) ≡ Ok (opened_copy o copy groups C.now)) }
{}

/// If a book's kept cut has an image, with bytes in its nodes, so has a whole cut of it, with its own entries added to the base. In a run
/// over a device that was formatted, the kept cut has an image whenever the flusher rests, and it is of the device's topology.
pub fn cuts_are_spelt()
    ensures cut { (t : Topology) (base : ℕ) (w : MarkedNetwork NodeState) (cut : WholeCut) (nodes : List NodeState) → is_topology t ≡ true → CutSpelt t base w.start
        → AllByRecursion HasByte w.entries → CutHolds t414 w cut → all_some w.frozen ≡ Some nodes → base + length w.entries < NUMBER_LIMIT
        → CutSpelt t (base + cut.size) (network_in w.start cut nodes) }
    ensures kept { (most : ℕ) (start : Network NodeState) (events : List (Event NodeState)) (first w : World NodeState) → BeginsFormatted t414 device_areas start first
        → AllByRecursion (λ byte. byte < 256) first.disk.bytes → KeptRun most first events w
        → (o : Opened) → w.at ≡ Resting → AllByRecursion (λ byte. byte < 256) w.disk.bytes → verdict w.disk.bytes ≡ Ok o → CutSpelt o.head.topology w.base w.net.start }
{}

/// In a run over a device that was formatted, let the flusher rest. Then the copy that it makes of a whole cut can be spelt, with the
/// entries outside the cut and their numbers. It is of the device's topology.
pub fn copies_are_spelt()
    ensures { (most : ℕ) (start : Network NodeState) (events : List (Event NodeState)) (first w : World NodeState) → BeginsFormatted t414 device_areas start first
        → AllByRecursion (λ byte. byte < 256) first.disk.bytes → KeptRun most first events w
        → (o : Opened) (cut : WholeCut) (nodes : List NodeState) (kept : List (Entry × ℕ)) → w.at ≡ Resting
        → AllByRecursion (λ byte. byte < 256) w.disk.bytes → HasCut w.net cut nodes → verdict w.disk.bytes ≡ Ok o
        → map (λ e. e.0) kept ≡ w.net.entries → AreNumbered 0 w.base (map (λ e. e.1) kept)
        → CopySpelt o.head.topology (copy_of w.net w.base cut nodes) (tail_of w.net.start cut kept) }
{}

/// At such a moment, if each entry of the tail finds room in a group of its own, some content of the other area spells the copy. With that
/// content the device holds what it did before, and with that area's gate open it holds the copy.
pub fn copies_can_be_put()
    ensures { (most : ℕ) (start : Network NodeState) (events : List (Event NodeState)) (first w : World NodeState) → BeginsFormatted t414 device_areas start first
        → AllByRecursion (λ byte. byte < 256) first.disk.bytes → KeptRun most first events w
        → (o : Opened) (cut : WholeCut) (nodes : List NodeState) (kept : List (Entry × ℕ)) → w.at ≡ Resting
        → AllByRecursion (λ byte. byte < 256) w.disk.bytes → HasCut w.net cut nodes → verdict w.disk.bytes ≡ Ok o → other_is_open o w.disk.bytes ≡ false
        → map (λ e. e.0) kept ≡ w.net.entries → AreNumbered 0 w.base (map (λ e. e.1) kept)
        → o.generation + 1 < NUMBER_LIMIT → entry_room * length (post (process w.net.start.wires (length w.net.start.nodes)) (count_in cut) w.net.entries) ≤ room o.head.topology o.head.areas.length
        → CanPut w.disk.bytes o (copy_of w.net w.base cut nodes) }
{}

/// A spelt copy's tail may be divided into any groups of 1 to 64 entries. If each entry finds room in a group of its own, the groups and
/// the closed gate after them end inside the content of an area.
pub fn groups_stay_inside()
    ensures { (t : Topology) (area : ℕ) (copy : Held NodeState) (tail : List (Entry × ℕ)) (groups : List (List (Entry × ℕ))) → is_roomy t area ≡ true → CopySpelt t copy tail
        → entries_in groups ≡ tail → AllByRecursion IsSized groups → entry_room * length tail ≤ room t area
        → groups_place t + length (groups_bytes groups) + 1 ≤ area - 1 }
{}

/// In a run over a device that was formatted, let each entry be made with room for it. Then the entries outside a whole cut find room, each
/// in a group of its own. Whenever the flusher rests, a group of the first entries of what it copied has room after the groups of the
/// device.
pub fn entries_find_room()
    ensures tails { (most : ℕ) (start : Network NodeState) (events : List (Event NodeState)) (first w : World NodeState) → BeginsFormatted t414 device_areas start first
        → AllByRecursion (λ byte. byte < 256) first.disk.bytes → KeptRun most first events w
        → (cut : WholeCut) (nodes : List NodeState) → HasCut w.net cut nodes → entry_room * length (post (process w.net.start.wires (length w.net.start.nodes)) (count_in cut) w.net.entries) ≤ most }
    ensures groups { (most : ℕ) (start : Network NodeState) (events : List (Event NodeState)) (first w : World NodeState) → BeginsFormatted t414 device_areas start first
        → AllByRecursion (λ byte. byte < 256) first.disk.bytes → KeptRun most first events w
        → (o : Opened) (es more : List Entry) → w.at ≡ Resting → AllByRecursion (λ byte. byte < 256) w.disk.bytes → verdict w.disk.bytes ≡ Ok o
        → w.backlog ≡ es ++ more → 1 ≤ length es → most ≤ room o.head.topology o.head.areas.length → has_room o (length es) ≡ true }
{}

/// While a snapshot runs, the image of a node that has recorded stays as it was frozen, whatever act follows except the trim. In the cut,
/// once that is whole, the image is the node. So its pieces may be put into the other area before the cut is whole.
pub fn frozen_images_stay()
    ensures stays { (w v : MarkedNetwork NodeState) (act : Act) (i : ℕ) (node : NodeState) → is_trim act ≡ false → happens t414 w act ≡ Some v → IsFrozenAs w i node → IsFrozenAs v i node }
    ensures cut { (w : MarkedNetwork NodeState) (cut : WholeCut) (nodes : List NodeState) (i : ℕ) (node : NodeState) → HasCut w cut nodes → IsFrozenAs w i node → slice_get nodes i ≡ Some node }
{}

/// Bytes that are written are there, and stay there when others are written apart from them. What is written inside an area's content is
/// written at its place in that, and what is written elsewhere leaves the content as it was. The image of a node is there once its head and
/// each of its pages is.
pub fn pieces_stay()
    ensures written { (content : List ℕ) (at : ℕ) (bytes : List ℕ) → at + length bytes ≤ length content → IsThere (written content at bytes) at bytes }
    ensures apart { (content : List ℕ) (at : ℕ) (bytes : List ℕ) (place : ℕ) (more : List ℕ) → place + length more ≤ length content
        → (at + length bytes ≤ place) ⊎ (place + length more ≤ at) → IsThere content at bytes → IsThere (written content place more) at bytes }
    ensures inside { (areas : TwoAreas) (second : Bool) (bytes : List ℕ) (at : ℕ) (piece : List ℕ) → area_start areas second + areas.length ≤ length bytes → at + length piece < areas.length
        → content_of areas second (written bytes (area_start areas second + 1 + at) piece) ≡ written (content_of areas second bytes) at piece }
    ensures elsewhere { (areas : TwoAreas) (second : Bool) (bytes : List ℕ) (at : ℕ) (more : List ℕ) → 1 ≤ areas.length → at + length more ≤ length bytes
        → (at + length more ≤ area_start areas second + 1) ⊎ (area_start areas second + areas.length ≤ at) → content_of areas second (written bytes at more) ≡ content_of areas second bytes }
    ensures image { (content : List ℕ) (at : ℕ) (node : NodeState) → IsNode node → IsThere content at (image_head node)
        → ((page : ℕ) → page < page_count node.memory → IsThere content (at + IMAGE_HEAD_BYTES + PAGE_BYTES * page) (take PAGE_BYTES (drop (PAGE_BYTES * page) node.memory)))
        → IsThere content at (image node) }
{}

/// Each whole cut of a run can be switched to, whatever checkpoints, crashes and openings came before, and whether the other area is closed
/// or still open. Two things are needed: entries were made with room for them, and a generation is left.
///
/// Whenever the flusher rests, a run closes the other area if it is open, copies cut and tail, writes them there, syncs, opens the gate,
/// syncs and trims the book. Its last world's device opens as the other area, of the next generation and with turns, and holds the cut and
/// each entry outside it.
pub fn cuts_can_be_switched_to()
    ensures { (most : ℕ) (start : Network NodeState) (events : List (Event NodeState)) (first w : World NodeState) → BeginsFormatted t414 device_areas start first
        → AllByRecursion (λ byte. byte < 256) first.disk.bytes → KeptRun most first events w
        → (o : Opened) (cut : WholeCut) (nodes : List NodeState) → w.at ≡ Resting → AllByRecursion (λ byte. byte < 256) w.disk.bytes → HasCut w.net cut nodes
        → verdict w.disk.bytes ≡ Ok o → o.generation + 1 < NUMBER_LIMIT → most ≤ room o.head.topology o.head.areas.length
        → Switches w o cut nodes (o.generation + 1) Turns }
{}

/// A run with a checkpoint, computed from a formatted device on. A node sends a byte and the host takes it. Both entries are appended as a
/// group, and the mark is raised and read. A snapshot begins, the node records, and then takes the Ack and goes on. These are two entries
/// outside the cut, so in the cut the Ack is on its line.
///
/// Both Markers are taken, so the cut is whole. It is copied with its tail, written into the other area and synced; the gate is opened and
/// synced; and the book is trimmed. The device opens as the second area, which has turns, with the cut of two entries, the two after it,
/// and the network as it is.
pub fn a_run_checkpoints()
    ensures { OneCheckpoint }
{}

/// A device whose journal has a turn, computed. Its area has turns, and the cut of a node that is about to send a byte. The group after the
/// cut has three entries: the node sends, the host takes the byte, and in one entry the node takes the Ack and goes on. The device opens to
/// them, and to the network to which four entries without a turn lead. With those bytes in a plain area it is damaged at the turn's place.
pub fn a_device_has_a_turn()
    ensures { OneTurn }
{}
