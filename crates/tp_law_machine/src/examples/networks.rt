//! Networks, their entries and a snapshot.

ghost use Rattle.std.specs.Prelude.{◌≡◌};
ghost use Rattle.tp_law_machine.specs.Lower.{t414, after, fresh, acted};
ghost use Rattle.tp_law_machine.specs.OneNode.{one_before, one_byte, one_after};
ghost use Rattle.tp_law_machine.specs.BothWays.{question_before, question, question_after};
ghost use Rattle.tp_law_machine.specs.TwoNodes.{two_before, one_snapshot, book_after};

/// The byte is an output of the port, and the node has jumped 15 times.
pub fn one_byte_reaches_the_host()
    ensures { after t414 one_before one_byte ≡ Some one_after }
{}

/// An Ack and Data are on one line at once, and each is taken in its turn.
pub fn a_wire_carries_both_ways()
    ensures { after t414 question_before question ≡ Some question_after }
{}

/// The byte that was on its way is on its line in the cut.
pub fn a_snapshot_cuts()
    ensures { acted t414 (fresh two_before) one_snapshot ≡ Some book_after }
{}
