//! Laws of processes, one after the other. The functions do nothing; their contracts are the laws.

ghost use Rattle.std.specs.Prelude.{ℕ, List};
ghost use Rattle.tp_flush.specs.Lower.{TwoAreas, Form, NodeState, Network, Topology, MayBe, World, formatted_world, WasFormatted};
ghost use Rattle.tp_flush.specs.Known.{Began, Reached};

/// The first process begins with a device that was formatted, of either form, or with what any crash leaves of it.
pub fn first_process_begins()
    ensures { (t : Topology) (areas : TwoAreas) (form : Form) (images : List (List ℕ)) (start : Network NodeState) (bytes : List ℕ) → WasFormatted t areas form images start bytes
        → (left : List ℕ) → MayBe (formatted_world start bytes).disk left → Began start (formatted_world start bytes) left }
{}

/// The next process begins with what a process ends with, or with what a crash leaves of it.
pub fn next_process_begins()
    ensures { (start : Network NodeState) (w : World NodeState) (left : List ℕ) → Reached start w → MayBe w.disk left → Began start w left }
{}
