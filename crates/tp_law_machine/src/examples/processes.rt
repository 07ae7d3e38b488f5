//! Processes of one node, alone or with each other.
#![tactic(auto, unfolding(tp_model::specs::Step::step_of, tp_model::specs::Node::node_step, tp_model::specs::Network::steps))]

ghost use Rattle.std.specs.Prelude.{◌≡◌, []};
ghost use Rattle.tp_law_machine.specs.Lower.{steps, t414};
ghost use Rattle.tp_law_machine.specs.Processes.{about_to_run_another, has_run_another, at_loop_end, after_loop_end};
ghost use Rattle.tp_law_machine.specs.Meeting.{sender_first, getter_first, sender_waited, getter_waited};
ghost use Rattle.tp_law_machine.specs.Choosing.{choosing, may_choose, has_chosen};

/// The six steps are `ldl`, `runp`, an interrupt, a dispatch, `stopp` and a restore.
pub fn a_high_process_interrupts()
    ensures { steps t414 6 about_to_run_another ≡ Some (has_run_another, []) }
{}

/// A loop with two turns left goes on, and one with its last turn done ends.
pub fn a_loop_ends()
    ensures goes_on { steps t414 1 (at_loop_end 5 2) ≡ Some (after_loop_end 0x8000_0106 6 1, []) }
    ensures ends { steps t414 1 (at_loop_end 6 1) ≡ Some (after_loop_end 0x8000_0110 6 0, []) }
{}

/// In either order the second comer copies the message and goes on.
pub fn two_processes_meet()
    ensures sender_first { steps t414 13 sender_first ≡ Some (sender_waited, []) }
    ensures getter_first { steps t414 13 getter_first ≡ Some (getter_waited, []) }
{}

/// The byte that link 0 holds stays there, and isn't acknowledged.
pub fn an_alternative_chooses()
    ensures ready { steps t414 7 choosing ≡ Some (may_choose, []) }
    ensures chosen { steps t414 16 choosing ≡ Some (has_chosen, []) }
{}
