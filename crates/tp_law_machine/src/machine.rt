//! Laws of the machine: what it does at its links in one step, and when a token comes in. The functions do nothing;
//! their contracts are the laws.

ghost use Rattle.std.specs.Prelude.{◌≡◌, ◌<◌, ℕ, List, Some};
ghost use Rattle.tp_law_machine.specs.Lower.{AllByRecursion, HasFourLinks, node_of, NeverMarks, steps, t414, t414_ends, took, NodeState, KeepsFlight, Token};
ghost use Rattle.tp_law_machine.specs.NodeOfBytes.{CarriesByte, CarryBytes, IsNodeOfBytes};

/// Tokens leave on links 0 to 3 and on no other.
pub fn machine_has_four_links()
    ensures { HasFourLinks t414 }
{}

/// No Marker leaves, and none is taken.
pub fn machine_never_marks()
    ensures { NeverMarks t414 }
{}

/// An output end sends Data exactly when it begins to wait, and an Ack ends that. An input end sends an Ack exactly when it gives up its
/// byte, or at once.
pub fn links_keep_flight()
    ensures { KeepsFlight t414 t414_ends }
{}

/// A node that bytes spell has an image, and still has one after each run and each token that comes in. It keeps the rules of images, its
/// registers and pointers fit 32 bits, and its memory and links hold bytes. What it sends carries bytes, too.
pub fn nodes_stay_nodes()
    ensures spelt { (bytes : List ℕ) (node : NodeState) → AllByRecursion (λ byte. byte < 256) bytes → node_of bytes ≡ Some node → IsNodeOfBytes node }
    ensures runs { (count : ℕ) (node : NodeState) (after : NodeState × List (ℕ × Token)) → IsNodeOfBytes node → steps t414 count node ≡ Some after → IsNodeOfBytes after.0 × CarryBytes after.1 }
    ensures takes { (node : NodeState) (k : ℕ) (token : Token) (after : NodeState × List (ℕ × Token)) → IsNodeOfBytes node → CarriesByte token → took node k token ≡ Some after → IsNodeOfBytes after.0 × CarryBytes after.1 }
{}
