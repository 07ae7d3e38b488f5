//! Messages on a link.
#![tactic(auto, unfolding(tp_model::specs::Step::step_of, tp_model::specs::Node::node_step, tp_model::specs::Node::took, tp_model::specs::Network::steps))]

ghost use Rattle.std.specs.Prelude.{◌≡◌, [], ◌∷◌};
ghost use Rattle.tp_law_machine.specs.Lower.{BadAddress, LinkBusy, Data, Ack, Idle, Enabled, steps, t414, took, halted};
ghost use Rattle.tp_law_machine.specs.Start.{queue};
ghost use Rattle.tp_law_machine.specs.Transfers.{sending_node, awaits, has_sent, jumps, has_jumped, gets, has_got_one, has_got_first, has_got_both, has_got_none, puts};
ghost use Rattle.tp_law_machine.specs.Choosing.{hears, has_heard, cannot_queue};

/// The node sends a byte, has no step until the acknowledge comes, and then has its process in the queue.
pub fn a_byte_goes_out()
    ensures out { steps t414 3 sending_node ≡ Some (awaits, (0, Data 0x41) ∷ []) }
    ensures idle { steps t414 1 awaits ≡ None }
    ensures acknowledged { took awaits 0 Ack ≡ Some (has_sent, []) }
{}

/// A process that is alone makes room, too: it is dispatched, jumps 1,024 times and is queued again. A run of 4,096 steps is three such
/// slices, a dispatch and 1,020 jumps.
pub fn a_slice_ends()
    ensures begins { steps t414 16 has_sent ≡ Some (jumps 15, []) }
    ensures whole { steps t414 1025 has_sent ≡ Some (has_jumped, []) }
    ensures more { steps t414 4096 has_sent ≡ Some (jumps 1020, []) }
{}

/// A byte that is held is the message's first one. Each byte is acknowledged as it goes to memory.
pub fn a_message_comes_in()
    ensures one { steps t414 1 (gets 1 (Idle (Some 7))) ≡ Some (has_got_one, (0, Ack) ∷ []) }
    ensures first { steps t414 1 (gets 2 (Idle (Some 7))) ≡ Some (has_got_first, (0, Ack) ∷ []) }
    ensures second { took has_got_first 0 (Data 9) ≡ Some (has_got_both, (0, Ack) ∷ []) }
{}

/// An end that another process enabled is busy, before the message's length counts; but it isn't for a message of no bytes. A message that
/// ends outside memory halts the node before its first byte.
pub fn a_link_may_be_busy()
    ensures busy { steps t414 1 (gets 0xFFFF_FFFF (Enabled 0x8000_0281)) ≡ Some (halted LinkBusy (gets 0xFFFF_FFFF (Enabled 0x8000_0281)), []) }
    ensures nothing { steps t414 1 (gets 0 (Enabled 0x8000_0281)) ≡ Some (has_got_none (Enabled 0x8000_0281), []) }
    ensures outside { steps t414 1 (gets 0xFFFF_FFFF (Idle (Some 7))) ≡ Some (halted BadAddress (gets 0xFFFF_FFFF (Idle (Some 7))), []) }
{}

/// `out` on a link's input word; `outbyte` while the output end waits; and `outbyte` with a workspace outside memory, where it would store
/// the byte first.
pub fn outputs_are_refused()
    ensures direction { steps t414 1 (puts 0xFB 0x8000_0010 0x8000_0200) ≡ Some (halted BadAddress (puts 0xFB 0x8000_0010 0x8000_0200), []) }
    ensures busy { steps t414 1 (puts 0xFE 0x8000_0000 0x8000_0200) ≡ Some (halted LinkBusy (puts 0xFE 0x8000_0000 0x8000_0200), []) }
    ensures workspace { steps t414 1 (puts 0xFE 0x8000_0000 0x200) ≡ Some (halted BadAddress (puts 0xFE 0x8000_0000 0x200), []) }
{}

/// An end that an alternative enabled holds the Data that comes, and the alternative is ready. A queue whose last word is outside memory
/// stays, and the node halts.
pub fn an_alternative_hears()
    ensures queued { took (hears (queue 0x8000_0300 0x8000_0300)) 0 (Data 9) ≡ Some (has_heard, []) }
    ensures halts { took (hears (queue 0x8000_0300 0x300)) 0 (Data 9) ≡ Some (cannot_queue, []) }
{}
