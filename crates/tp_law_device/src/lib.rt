//! The two areas of a device keep what crashes need of them, and so each run over a device recovers. The functions do
//! nothing; their contracts are the laws.
#![tactic(auto)]

mod the_copy;

ghost use Rattle.std.specs.Prelude.{◌≡◌, ◌≤◌, ◌<◌, ◌+◌, ◌++◌, ◌*◌, ◌^◌, ℕ, true, false, List, [], Some, Ok, length, map, take, drop, slice_get};
ghost use Rattle.tp_law_device.specs.Lower.{TwoAreas, Entry, Form, HeadVersion, AREA_HEAD_BYTES, NodeState, AllByRecursion, count_by, t414, t414_ends, Machine, Network, Port, on_line, accepted, came_out, is_input, is_output, next, process, after, AreIndependent, pre, post, HasOrder, markers, plain_network, Topology, is_topology, fits_device, head_bytes, head_length, head_of, keeps_limits, version_for, start_of, cut_length, entry_room, is_full, is_full_for_cut, is_roomy, reserve, room, group_length, Opened, StandsFor, held_of, next_of, verdict, OpensTo, book_of, IsGroup, SpellsArea, DeviceSpells, entries_in, groups_bytes, EndsSeen, Sound, MarkedNetwork, WholeCut, count_in, whole, IsWhole, Act, acted, IsOpened, CutHolds, MayBe, AreasHold, next_number, areas_of, device_areas, has_room, other_content, other_is_open, other_start, Resting, World, Event, HasCut, Reopens, Step, BeginsFormatted, Recovers, copy_of, fresh, is_trim, reopened, IsAcknowledged, IsShown};
ghost use Rattle.tp_model.specs.Runs.{Run};
ghost use Rattle.tp_law_device.specs.Checkpoints.{HasCheckpoint, HasSnapshot, SpellsCopy, Switches};
ghost use Rattle.tp_law_device.specs.FormattedWorld.{formatted_world, WasFormatted};

pub use the_copy::{
    a_device_has_a_turn, a_run_checkpoints, copies_are_spelt, copies_can_be_put, copies_open,
    cuts_are_spelt, cuts_can_be_switched_to, entries_find_room, frozen_images_stay,
    groups_stay_inside, pieces_stay,
};

/// What each write leaves on a device, whatever bytes it holds. Opening reads nothing after the other area's closed gate, nor after the
/// first closed gate of the groups. It reads a group's entries exactly once the group's gate is open, and chooses the other area exactly
/// once that area's gate is open. The device's format has this for any kind of step and of link ends.
pub fn areas_hold()
    ensures device { AreasHold t414 device_areas }
    ensures any { (M : Machine NodeState) (E : EndsSeen NodeState) → AreasHold M (areas_of M E) }
{}

/// After each run over a device that was formatted, whatever a crash leaves holds the network after a prefix of the journal. The prefix has
/// each entry below a mark that was ever read. Opening it goes on with the run. What the journal has below the mark at some moment, it has
/// at each later one. In short: whatever a crash leaves opens. Opening answers the network after the journal's entries below its next
/// number, and each entry below a mark that was ever read is among them.
pub fn crashes_hold()
    ensures recovers { (start : Network NodeState) (events : List (Event NodeState)) (first last : World NodeState)
        → BeginsFormatted t414 device_areas start first → Run t414 device_areas first events last
        → (bytes : List ℕ) → MayBe last.disk bytes → Recovers t414 device_areas start last bytes }
    ensures stays { (start : Network NodeState) (before events : List (Event NodeState)) (first w last : World NodeState)
        → BeginsFormatted t414 device_areas start first → Run t414 device_areas first before w → Run t414 device_areas w events last
        → (w.mark ≤ last.mark) × (take w.mark last.journal ≡ take w.mark w.journal) }
    ensures goes_on { (start : Network NodeState) (last : World NodeState) (bytes : List ℕ) → MayBe last.disk bytes → (r : Recovers t414 device_areas start last bytes)
        → Step t414 device_areas last (Reopens bytes r.held r.now) (reopened last bytes r.held r.now) }
    ensures opens { (start : Network NodeState) (events : List (Event NodeState)) (first last : World NodeState)
        → BeginsFormatted t414 device_areas start first → Run t414 device_areas first events last
        → (bytes : List ℕ) → MayBe last.disk bytes → OpensTo start last bytes }
{}

/// The whole theorem, over a device that was formatted. Neighbours that are independent may be swapped. Each whole cut is the network after
/// the entries in it, which may come first, also at each moment of a run with a flusher, a device, crashes and openings. After each run,
/// whatever a crash leaves recovers. It has the entries of each acknowledged receipt, and all causes of each output byte that is shown.
pub fn every_run_holds()
    ensures swaps { (s : Network NodeState) (e f : Entry) → (i : AreIndependent t414 s e f)
        → (next t414 s f ≡ Some i.other) × (next t414 i.other e ≡ Some i.last) }
    ensures cut { (w v : MarkedNetwork NodeState) → IsOpened t414 w → (acts : List Act) → acted t414 w acts ≡ Some v
        → (cut : WholeCut) → whole v ≡ Some cut → CutHolds t414 v cut }
    ensures whole { (w v : MarkedNetwork NodeState) → IsOpened t414 w → (acts : List Act) → acted t414 w acts ≡ Some v
        → ((cut : WholeCut) → whole v ≡ Some cut → IsWhole v) × (IsWhole v → (cut : WholeCut) × (whole v ≡ Some cut)) }
    ensures snapshots { (start : Network NodeState) (events : List (Event NodeState)) (first last : World NodeState)
        → BeginsFormatted t414 device_areas start first → Run t414 device_areas first events last
        → (cut : WholeCut) → whole last.net ≡ Some cut → CutHolds t414 last.net cut }
    ensures recovers { (start : Network NodeState) (events : List (Event NodeState)) (first last : World NodeState)
        → BeginsFormatted t414 device_areas start first → Run t414 device_areas first events last
        → (bytes : List ℕ) → MayBe last.disk bytes → Recovers t414 device_areas start last bytes }
    ensures acknowledged { (start : Network NodeState) (before : List (Event NodeState)) (first made last : World NodeState)
        → BeginsFormatted t414 device_areas start first → Run t414 device_areas first before made → (number : ℕ) → number ≤ length made.journal → IsAcknowledged t414 device_areas number made last
        → (bytes : List ℕ) → MayBe last.disk bytes → (r : Recovers t414 device_areas start last bytes)
        → (number ≤ next_number r.held) × (take number last.journal ≡ take number made.journal) }
    ensures shown { (start : Network NodeState) (first last : World NodeState) → BeginsFormatted t414 device_areas start first
        → (number line port byte : ℕ) → (s : IsShown t414 device_areas number line port byte first last)
        → (bytes : List ℕ) → MayBe last.disk bytes → (r : Recovers t414 device_areas start last bytes)
        → (number < next_number r.held) × (take (number + 1) last.journal ≡ take (number + 1) s.reading.journal) }
{}

/// A head of either version is read back as it was written, if its version can state the topology. It says the topology, with wires for the
/// links alone, and the areas.
pub fn heads_read_back()
    ensures { (version : HeadVersion) (t : Topology) (areas : TwoAreas) (bytes : List ℕ) → is_topology t ≡ true → keeps_limits version t ≡ true → fits_device (length bytes) t areas ≡ true
        → areas.first ≡ head_length version → areas.length < 2 ^ 64
        → take areas.first bytes ≡ head_bytes version t areas → head_of bytes ≡ Ok (record { version = version; topology = t; areas = areas }) }
{}

/// A device that was formatted, of either form, holds the network of its images without any entries, and opens with that form. So a run may
/// begin there, and whatever a crash leaves then recovers.
pub fn formatted_starts()
    ensures stands { (t : Topology) (areas : TwoAreas) (form : Form) (images : List (List ℕ)) (start : Network NodeState) (bytes : List ℕ)
        → WasFormatted t areas form images start bytes → StandsFor bytes start [] 0 }
    ensures form { (t : Topology) (areas : TwoAreas) (form : Form) (images : List (List ℕ)) (start : Network NodeState) (bytes : List ℕ)
        → WasFormatted t areas form images start bytes → (o : Opened) → verdict bytes ≡ Ok o → o.form ≡ form }
    ensures starts { (t : Topology) (areas : TwoAreas) (form : Form) (images : List (List ℕ)) (start : Network NodeState) (bytes : List ℕ)
        → WasFormatted t areas form images start bytes → BeginsFormatted t414 device_areas start (formatted_world start bytes) }
    ensures recovers { (t : Topology) (areas : TwoAreas) (form : Form) (images : List (List ℕ)) (start : Network NodeState) (bytes : List ℕ) → WasFormatted t areas form images start bytes
        → (events : List (Event NodeState)) (last : World NodeState) → Run t414 device_areas (formatted_world start bytes) events last
        → (left : List ℕ) → MayBe last.disk left → Recovers t414 device_areas start last left }
{}

/// There is such a device of each form for each topology, for areas with enough room, and for each network of images.
pub fn devices_can_be_formatted()
    ensures { (t : Topology) (areas : TwoAreas) (form : Form) (images : List (List ℕ)) (start : Network NodeState) → is_topology t ≡ true → is_roomy t areas.length ≡ true → areas.first ≡ head_length (version_for t) → areas.length < 2 ^ 64
        → start_of t images ≡ Some start → (bytes : List ℕ) × WasFormatted t areas form images start bytes }
{}

/// Opening answers exactly what is spelt. A device with a head, an open area of highest generation, a cut and groups followed by a closed
/// gate opens as those. A device that opens as those is spelt like that. Whatever the bytes, the entries that are kept lead from the kept
/// cut to the network in the answer.
pub fn opening_is_exact()
    ensures spelt { (bytes : List ℕ) (o : Opened) → DeviceSpells t414 t414_ends bytes o → verdict bytes ≡ Ok o }
    ensures read { (bytes : List ℕ) (o : Opened) → AllByRecursion (λ byte. byte < 256) bytes → verdict bytes ≡ Ok o → DeviceSpells t414 t414_ends bytes o }
    ensures leads { (bytes : List ℕ) (o : Opened) → verdict bytes ≡ Ok o → after t414 o.cut (map (λ e. e.0) o.kept) ≡ Some o.now }
{}

/// Whatever the bytes of a device that opens, its kept cut and the network in the answer are sound. The law of cuts holds of the book that
/// goes on from it, as a run goes on with it.
pub fn openings_begin()
    ensures sound { (bytes : List ℕ) (o : Opened) → verdict bytes ≡ Ok o → Sound t414_ends o.cut × Sound t414_ends o.now }
    ensures book { (bytes : List ℕ) (o : Opened) → verdict bytes ≡ Ok o → IsOpened t414 (book_of o) }
    ensures run { (w : World NodeState) (bytes : List ℕ) (o : Opened) → (reopened w bytes (held_of o) o.now).net ≡ book_of o }
{}

/// At each moment of a run over a device that was formatted, the journal is possible from the start on. It leads to the network as it is
/// without its Markers. So do the entries since the kept cut, in their own order and in that of a whole cut. A line has at most one Marker,
/// the network is sound, and a line has at most three tokens. Since the start, a port's accepted number has grown by the bytes that the
/// journal's entries hand to it. Its output number has grown by the bytes that they take to it.
pub fn histories_hold()
    ensures journal { (start : Network NodeState) (events : List (Event NodeState)) (first last : World NodeState)
        → BeginsFormatted t414 device_areas start first → Run t414 device_areas first events last → after t414 start last.journal ≡ Some (plain_network last.net.live) }
    ensures kept { (start : Network NodeState) (events : List (Event NodeState)) (first last : World NodeState)
        → BeginsFormatted t414 device_areas start first → Run t414 device_areas first events last → after t414 last.net.start last.net.entries ≡ Some (plain_network last.net.live) }
    ensures markers { (start : Network NodeState) (events : List (Event NodeState)) (first last : World NodeState)
        → BeginsFormatted t414 device_areas start first → Run t414 device_areas first events last → (line : ℕ) → markers (on_line last.net.live.lines line) ≤ 1 }
    ensures sound { (start : Network NodeState) (events : List (Event NodeState)) (first last : World NodeState)
        → BeginsFormatted t414 device_areas start first → Run t414 device_areas first events last → Sound t414_ends last.net.live }
    ensures room { (start : Network NodeState) (events : List (Event NodeState)) (first last : World NodeState)
        → BeginsFormatted t414 device_areas start first → Run t414 device_areas first events last → (line : ℕ) → length (on_line last.net.live.lines line) ≤ 3 }
    ensures both { (start : Network NodeState) (events : List (Event NodeState)) (first last : World NodeState)
        → BeginsFormatted t414 device_areas start first → Run t414 device_areas first events last → (cut : WholeCut) → whole last.net ≡ Some cut
        → after t414 last.net.start (pre (process last.net.start.wires (length last.net.start.nodes)) (count_in cut) last.net.entries ++ post (process last.net.start.wires (length last.net.start.nodes)) (count_in cut) last.net.entries) ≡ Some (plain_network last.net.live) }
    ensures ports { (start : Network NodeState) (events : List (Event NodeState)) (first last : World NodeState)
        → BeginsFormatted t414 device_areas start first → Run t414 device_areas first events last → (p : ℕ) (port : Port) → slice_get start.ports p ≡ Some port
        → (later : Port) × (slice_get last.net.live.ports p ≡ Some later)
        × (accepted later ≡ accepted port + count_by (is_input p) last.journal) × (came_out later ≡ came_out port + count_by (is_output start.wires p) last.journal) }
{}

/// Over any number of checkpoints, crashes and openings, the base of the kept cut is the number of entries in it since the start. They and
/// the entries since are an order of the whole journal, made by swapping independent neighbours. A whole cut and the entries outside it are
/// such an order, too. There is a whole cut exactly if a snapshot runs, all have recorded and each Marker was taken.
pub fn cuts_are_orders()
    ensures kept { (start : Network NodeState) (events : List (Event NodeState)) (first last : World NodeState)
        → BeginsFormatted t414 device_areas start first → Run t414 device_areas first events last → HasOrder t414 start last.journal last.net.start last.net.entries last.base }
    ensures cut { (start : Network NodeState) (events : List (Event NodeState)) (first last : World NodeState)
        → BeginsFormatted t414 device_areas start first → Run t414 device_areas first events last → (cut : WholeCut) → (c : CutHolds t414 last.net cut)
        → HasOrder t414 start last.journal c.consistent.state (post (process last.net.start.wires (length last.net.start.nodes)) (count_in cut) last.net.entries) (last.base + cut.size) }
    ensures whole { (start : Network NodeState) (events : List (Event NodeState)) (first last : World NodeState)
        → BeginsFormatted t414 device_areas start first → Run t414 device_areas first events last
        → ((cut : WholeCut) → whole last.net ≡ Some cut → IsWhole last.net) × (IsWhole last.net → (cut : WholeCut) × (whole last.net ≡ Some cut)) }
{}

/// As long as the journal isn't full, groups end inside their area. Let each entry count 32 bytes. Then an area has room after its cut
/// image for any division of the entries into groups, for one more group, and for the closed gate after that. Whatever the bytes of a
/// device that opens, the next group has room after the entries that are kept. The tests of a full journal allow no more than that.
pub fn groups_fit()
    ensures divided { (t : Topology) (area : ℕ) (groups : List (List (Entry × ℕ))) (more : List (Entry × ℕ)) → AllByRecursion IsGroup groups → 1 ≤ length more
        → entry_room * (length (entries_in groups) + length more) ≤ room t area
        → AREA_HEAD_BYTES + cut_length t + length (groups_bytes groups) + group_length (length more) < area }
    ensures opened { (bytes : List ℕ) (o : Opened) → verdict bytes ≡ Ok o → (count : ℕ) → 1 ≤ count → entry_room * (length o.kept + count) ≤ room o.head.topology o.head.areas.length
        → has_room o count ≡ true }
    ensures ordinary { (most lines entries reserved number more : ℕ) → is_full (Some most) lines entries reserved number more ≡ false
        → entry_room * (entries + reserved + more) + reserve lines ≤ most }
    ensures reserved { (most entries reserved number : ℕ) → is_full_for_cut (Some most) entries reserved number ≡ false
        → entry_room * (entries + reserved + 1) ≤ most }
{}

/// A checkpoint is a piece of a run. If the other area is closed, what it spells is what the device holds once its gate is open.
///
/// Let a world's flusher rest, its cut be whole, and pieces make the other area spell the copy. Then a run copies cut and tail, writes
/// them, syncs, opens the gate, syncs and trims the book. Its last world's device opens as the other area, in the form in which it is
/// spelt, and holds the copy.
///
/// There is such a run, to an area with turns, for each device that was formatted, of either form, and each whole cut that acts without an
/// entry lead to. On one node, acts lead to a whole cut.
pub fn checkpoints_switch()
    ensures other { (bytes : List ℕ) (o : Opened) → verdict bytes ≡ Ok o → other_is_open o bytes ≡ false
        → (generation : ℕ) (form : Form) (base : ℕ) (s : Network NodeState) (groups : List (List (Entry × ℕ))) (now : Network NodeState)
        → SpellsArea t414 t414_ends o.head.topology (other_content o bytes) generation form base s groups now → o.generation < generation
        → device_areas.other bytes ≡ Some (other_start o, record { network = s; entries = map (λ e. e.0) (entries_in groups); base = base }) }
    ensures switches { (w : World NodeState) (cut : WholeCut) (nodes : List NodeState) (o : Opened) (pieces : List (ℕ × List ℕ)) (generation : ℕ) (form : Form)
        → w.at ≡ Resting → HasCut w.net cut nodes → SpellsCopy w o pieces (copy_of w.net w.base cut nodes) generation form → Switches w o cut nodes generation form }
    ensures formatted { (t : Topology) (areas : TwoAreas) (form : Form) (images : List (List ℕ)) (start : Network NodeState) (bytes : List ℕ) → WasFormatted t areas form images start bytes
        → (acts : List Act) → AllByRecursion (λ act. is_trim act ≡ false) acts → (net : MarkedNetwork NodeState) → acted t414 (fresh start) acts ≡ Some net → net.entries ≡ []
        → (cut : WholeCut) (nodes : List NodeState) → HasCut net cut nodes → HasCheckpoint start bytes net cut nodes }
    ensures snapshot { (node : NodeState) → HasSnapshot node }
{}

/// What a receipt is acknowledged for is its entries. If the journal ended with them when the receipt was made, the entries that opening
/// replays after any later crash have exactly them at their numbers.
pub fn receipts_cover_entries()
    ensures { (start : Network NodeState) (before : List (Event NodeState)) (first made last : World NodeState)
        → BeginsFormatted t414 device_areas start first → Run t414 device_areas first before made
        → (earlier entries : List Entry) → made.journal ≡ earlier ++ entries → IsAcknowledged t414 device_areas (length made.journal) made last
        → (bytes : List ℕ) → MayBe last.disk bytes → (o : OpensTo start last bytes)
        → take (length entries) (drop (length earlier) (take (next_of o.opened) last.journal)) ≡ entries }
{}
