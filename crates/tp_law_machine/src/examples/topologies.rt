//! Topologies as texts.

ghost use Rattle.std.specs.Prelude.{◌≡◌, [], ◌∷◌, codes};
ghost use Rattle.tp_law_machine.specs.Lower.{Syntax, TwoWires, UnknownNode, read_text};
ghost use Rattle.tp_law_machine.specs.OneNode.{one_node};
ghost use Rattle.tp_law_machine.specs.Text.{text};

/// The text of one node and one port, and texts with a fault each.
#[tactic(auto, unfolding(tp_model::specs::TopologyText::after_line, tp_model::specs::TopologyText::read_lines, tp_model::specs::TopologyText::read_text))]
pub fn topologies_are_read()
    ensures good { read_text (text (codes "node a 4" ∷ codes "port h" ∷ codes "wire a.0 h" ∷ [])) ≡ Ok one_node }
    ensures two_wires { read_text (text (codes "node a 4" ∷ codes "port h" ∷ codes "wire a.0 h" ∷ codes "wire a.0 a.1" ∷ [])) ≡ Err TwoWires }
    ensures few_pages { read_text (text (codes "node a 3" ∷ [])) ≡ Err (Syntax 1) }
    ensures unknown { read_text (text (codes "node a 4" ∷ codes "wire a.0 b.1" ∷ [])) ≡ Err UnknownNode }
    ensures empty { read_text [] ≡ Err (Syntax 0) }
{}
