//! Laws of trials. The functions do nothing; their contracts are the laws.

ghost use Rattle.std.specs.Prelude.{◌≡◌, ℕ, List, Some, None};
ghost use Rattle.tp_turn.specs.Lower.{NodeState, page_count, fresh_node};
ghost use Rattle.tp_turn.specs.Output.{IsOutput};
ghost use Rattle.tp_turn.specs.Tried.{fresh_image};

/// A trial has one output, however it is found.
pub fn trials_have_one_output()
    ensures one { (node : NodeState) (turns quantum : ℕ) (output other : List ℕ) → IsOutput node turns quantum output → IsOutput node turns quantum other → output ≡ other }
{}

/// The images that can be tried are those with which a device may be formatted, if its node has the image's number of pages.
pub fn tried_images_are_formatted()
    ensures tried { (image : List ℕ) (node : NodeState) → fresh_image image ≡ Some node → fresh_node (page_count node.memory) image ≡ Some node }
    ensures refused { (image : List ℕ) (pages : ℕ) → fresh_image image ≡ None → fresh_node pages image ≡ None }
{}
