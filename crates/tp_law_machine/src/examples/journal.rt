//! Entries, groups and images as bytes, and the room that they have.
#![tactic(auto, unfolding(tp_model::specs::EntryBytes::entry_at, tp_model::specs::Group::rows_at, tp_model::specs::Group::rows_behind, tp_model::specs::Image::image_head))]

ghost use Rattle.std.specs.Prelude.{◌≡◌, ◌++◌, [], ◌∷◌, true, false, take, drop};
ghost use Rattle.tp_law_machine.specs.Lower.{Data, Ack, Nothing, JustData, JustAck, DataThenAck, AckThenData, Plain, Run, Take, HostIn, Confirm, Turn, zeros, entry_at, row_entry, rows_of, group_bytes, group_at, image_head, cut_length, room, is_full, is_full_for_cut};
ghost use Rattle.tp_law_machine.specs.Transfers.{sending_node};
ghost use Rattle.tp_law_machine.specs.OneNode.{one_node};
ghost use Rattle.tp_law_machine.specs.OneGroup.{short_run};

/// Entries with their numbers, read from 16 bytes each.
pub fn entries_are_read()
    ensures run { entry_at (1 ∷ 0 ∷ 3 ∷ 0 ∷ zeros 12) ≡ Some (Run 0 3, 0) }
    ensures data { entry_at (2 ∷ 1 ∷ 0 ∷ 0 ∷ 0x41 ∷ 0 ∷ 0 ∷ 0 ∷ 1 ∷ zeros 7) ≡ Some (Take 0 (Data 0x41), 1) }
    ensures ack { entry_at (2 ∷ 2 ∷ 4 ∷ 0 ∷ 0 ∷ 0 ∷ 0 ∷ 0 ∷ 2 ∷ zeros 7) ≡ Some (Take 4 Ack, 2) }
    ensures host_in { entry_at (3 ∷ 0 ∷ 0x61 ∷ 0 ∷ 0 ∷ 0 ∷ 0 ∷ 0 ∷ 3 ∷ zeros 7) ≡ Some (HostIn 0 0x61, 3) }
    ensures confirm { entry_at (4 ∷ 0 ∷ 1 ∷ 0 ∷ 2 ∷ 0 ∷ 0 ∷ 0 ∷ 4 ∷ zeros 7) ≡ Some (Confirm 0 0x1_0000_0002, 4) }
{}

/// No kind, a run of no steps, of too many, and a filler that isn't 0.
pub fn entries_are_refused()
    ensures kind { entry_at (zeros 16) ≡ None }
    ensures no_steps { entry_at (1 ∷ zeros 15) ≡ None }
    ensures many_steps { entry_at (1 ∷ 0 ∷ 1 ∷ 16 ∷ zeros 12) ≡ None }
    ensures filler { entry_at (1 ∷ 0 ∷ 3 ∷ 0 ∷ 1 ∷ zeros 11) ≡ None }
{}

/// Turns with their numbers: what each link gave, its data bytes, and a number of 6 bytes before the pattern. Such a row is no entry of an
/// area without turns.
pub fn turns_are_read()
    ensures ack { entry_at (5 ∷ 0 ∷ 16 ∷ 0 ∷ zeros 4 ++ (2 ∷ zeros 5 ++ (2 ∷ 0 ∷ []))) ≡ Some (Turn 0 (JustAck ∷ Nothing ∷ Nothing ∷ Nothing ∷ []) 16, 2) }
    ensures links { entry_at (5 ∷ 3 ∷ 0 ∷ 0 ∷ 0 ∷ 0x5A ∷ 0x61 ∷ 0x62 ∷ 0x2C ∷ 1 ∷ 0 ∷ 0 ∷ 0 ∷ 0 ∷ 0xCA ∷ 8 ∷ [])
        ≡ Some (Turn 3 (JustAck ∷ JustData 0x5A ∷ DataThenAck 0x61 ∷ AckThenData 0x62 ∷ []) 0, 300) }
    ensures plain { row_entry Plain (5 ∷ 0 ∷ 16 ∷ 0 ∷ zeros 4 ++ (2 ∷ zeros 5 ++ (2 ∷ 0 ∷ []))) ≡ None }
{}

/// A turn that takes nothing, a digit of 5, a bit above those of four links, a data byte without Data, and a node and a count above their
/// limits.
pub fn turns_are_refused()
    ensures nothing { entry_at (5 ∷ 0 ∷ 16 ∷ 0 ∷ zeros 12) ≡ None }
    ensures digit { entry_at (5 ∷ 0 ∷ 16 ∷ 0 ∷ zeros 10 ++ (5 ∷ 0 ∷ [])) ≡ None }
    ensures high { entry_at (5 ∷ 0 ∷ 16 ∷ 0 ∷ zeros 10 ++ (2 ∷ 16 ∷ [])) ≡ None }
    ensures byte { entry_at (5 ∷ 0 ∷ 16 ∷ 0 ∷ 1 ∷ zeros 9 ++ (2 ∷ 0 ∷ [])) ≡ None }
    ensures node { entry_at (5 ∷ 64 ∷ 16 ∷ 0 ∷ zeros 10 ++ (2 ∷ 0 ∷ [])) ≡ None }
    ensures steps { entry_at (5 ∷ 0 ∷ 1 ∷ 16 ∷ zeros 10 ++ (2 ∷ 0 ∷ [])) ≡ None }
{}

/// A group of one entry, followed by a closed gate. Without that gate, or too short, it is no group. If its own gate is closed, there is
/// none.
pub fn a_group_is_read()
    ensures bytes { group_bytes (rows_of ((Run 0 5, 7) ∷ [])) ≡ short_run }
    ensures group { group_at (short_run ++ 0 ∷ []) ≡ Ok (Some (rows_of ((Run 0 5, 7) ∷ []))) }
    ensures no_gate { group_at short_run ≡ Err (record {}) }
    ensures short { group_at (take 20 short_run) ≡ Err (record {}) }
    ensures closed { group_at (0xA4 ∷ drop 1 short_run) ≡ Ok None }
{}

/// The head of the image of a node that runs a low process. First version and pages, the instruction pointer, the workspace and three
/// registers. Then four words of queues, Error, the state, the slice count, and eight ends of links.
pub fn an_image_begins()
    ensures { image_head sending_node ≡ 1 ∷ 0 ∷ 4 ∷ 0 ∷ 0 ∷ 1 ∷ 0 ∷ 0x80 ∷ 0 ∷ 2 ∷ 0 ∷ 0x80 ∷ (zeros 12
        ++ (0 ∷ 0 ∷ 0 ∷ 0x80 ∷ 0 ∷ 0 ∷ 0 ∷ 0x80 ∷ 0 ∷ 0 ∷ 0 ∷ 0x80 ∷ 0 ∷ 0 ∷ 0 ∷ 0x80 ∷ [])
        ++ (0 ∷ 2 ∷ 0 ∷ 0 ∷ zeros 128)) }
{}

/// A device with areas of 16,384 bytes, for one node of four pages and one port. Anyone may make entries up to the 105th after the cut.
/// Takes that a running snapshot needs may go on up to the 120th.
pub fn the_journal_fills()
    ensures cut { cut_length one_node ≡ 12508 }
    ensures room { room one_node 16384 ≡ 3862 }
    ensures fits { is_full (Some 3862) 5 104 0 104 1 ≡ false }
    ensures full { is_full (Some 3862) 5 105 0 105 1 ≡ true }
    ensures reserved { is_full_for_cut (Some 3862) 119 0 119 ≡ false }
    ensures all_full { is_full_for_cut (Some 3862) 120 0 120 ≡ true }
{}
