//! Laws of processes over one device, one after the other. The functions do nothing; their contracts are the laws.
#![tactic(auto)]

ghost use Rattle.std.specs.Prelude.{◌≡◌, ◌≤◌, ℕ, List, [], length, Some, Ok, slice_get};
ghost use Rattle.tp_law_processes.specs.Lower.{AllByRecursion, Entry, NodeState, t414, Network, Port, after, device_areas, Opened, next_of, verdict, World, BeginsFormatted, Began, bytes_in, port_or_fresh};
ghost use Rattle.tp_law_processes.specs.Processes.{AreInOrder, GivesFrontOf, Process};
ghost use Rattle.tp_law_processes.specs.OneHistory.{OneHistory};
ghost use Rattle.tp_law_processes.specs.Inputs.{IsFrontOf, TookIn, all_in};
ghost use Rattle.tp_law_processes.specs.Outputs.{Grew, bytes_out};

/// What comes out of a port is what the entries say, in order: after what it had there come the bytes of the entries. The first ones of all these are
/// confirmed, as many as its confirmed number has grown by, and the others are there.
pub fn ports_put_out()
    ensures { (s t : Network NodeState) (es : List Entry) → after t414 s es ≡ Some t → (p : ℕ) (port : Port) → slice_get s.ports p ≡ Some port
        → (later : Port) × (slice_get t.ports p ≡ Some later) × Grew (bytes_out s.wires p es) port later }
{}

/// What a port accepts is what the host's entries hand to it, in order, each byte once: after what it had pending come the bytes of the entries. The
/// first ones of all these have arrived, as many as its `in_base` has grown by, and the others are pending. No entry hands a byte to a port that isn't
/// there.
pub fn ports_take_in()
    ensures taken { (s t : Network NodeState) (es : List Entry) → after t414 s es ≡ Some t → (p : ℕ) (port : Port) → slice_get s.ports p ≡ Some port
        → (later : Port) × (slice_get t.ports p ≡ Some later) × TookIn (bytes_in p es) port later }
    ensures absent { (s t : Network NodeState) (es : List Entry) → after t414 s es ≡ Some t → (p : ℕ) → length s.ports ≤ p → bytes_in p es ≡ [] }
{}

/// However many processes open a device, one after the other, each finds what the one before it left when it ended, or when a crash stopped it at any
/// moment. Then there is one journal of one-thread steps. Each process finds the first entries of it. What each has shown of a port by then is, from its
/// position on, part of what comes out of that port by this journal. If a process was done, all entries below the number that it answered are in the
/// journal. What is left in the end stands for all of it. On a device that was formatted the first process begins with the number 0.
///
/// Each byte that a process handed to a port is in an input that it was given for the port, at the position that the port had come to. So if all inputs
/// for a port are fronts of one list, all that the port got is a front of that list.
pub fn processes_show_one_history()
    ensures history { (start : Network NodeState) (before : World NodeState) (was : List ℕ) → Began start before was
        → (processes : List (Process start)) → AreInOrder start was processes → OneHistory start was processes }
    ensures formatted { (start : Network NodeState) (w : World NodeState) → BeginsFormatted t414 device_areas start w
        → (opened : Opened) → verdict w.disk.bytes ≡ Ok opened → next_of opened ≡ 0 }
    ensures input { (start : Network NodeState) (was : List ℕ) (opened : Opened) → verdict was ≡ Ok opened → next_of opened ≡ 0
        → (processes : List (Process start)) → AreInOrder start was processes → (whole : OneHistory start was processes)
        → (port : ℕ) (all : List ℕ) → IsFrontOf all (port_or_fresh start port).pending → AllByRecursion (λ p. GivesFrontOf p.did port all) processes
        → IsFrontOf all (all_in start port whole.journal) }
{}
