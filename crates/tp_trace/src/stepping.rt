//! Steps of a node, one at a time.

ghost use Rattle.std.specs.Prelude.{◌≡◌, Some, None, [], if◌then◌else◌, slice_get};
ghost use Rattle.tp_law_machine.specs.NodeOfBytes.{IsNodeOfBytes};
ghost use Rattle.tp_trace.specs.Steps.{Saw, Stepped, sent_by};

use crate::act::Act;
use crate::looking::look;
use arrayvec::ArrayVec;
use tp_model::{Cpu, Token};
use tp_node::{Node, Runs};

/// What is seen of a step: the act, the address of the instruction, the processor afterwards, and what left with its link, if anything did.
#[derive(Clone, Copy)]
pub struct Seen {
    pub act: Act,
    pub at: u32,
    pub cpu: Cpu,
    pub sent: Option<(u8, Token)>,
}

/// What leaves first, with its link.
fn first_of(sent: &ArrayVec<(u8, Token), 8>) -> Option<(u8, Token)>
    ensures { result ≡ slice_get sent.now.items 0 }
{
    if sent.is_empty() { None } else { Some(sent[0]) }
}

/// Makes a step of a node, and puts into `sent` what leaves. Answers whether it had a step.
fn step(node: &mut Node, runs: &mut Runs, sent: &mut ArrayVec<(u8, Token), 8>) -> bool
    requires empty { sent.old.items ≡ [] }
    requires thawed { node.old.frozen ≡ None }
    requires bytes { IsNodeOfBytes node.old.live }
    ensures stepped { Stepped result node.old.live node.new.live }
    ensures sent { slice_get sent.new.items 0 ≡ sent_by node.old.live }
    ensures thawed { node.new.frozen ≡ None }
    ensures bytes { IsNodeOfBytes node.new.live }
{
    node.run(runs, 1, sent).count() == 1
}

/// Makes a step of a node whose links have no partner, and says what was done; `None` if it has no step. `runs` is what the thread keeps of
/// instructions.
pub fn trace_step(node: &mut Node, runs: &mut Runs) -> Option<Seen>
    requires thawed { node.old.frozen ≡ None }
    requires bytes { IsNodeOfBytes node.old.live }
    ensures saw { Saw result node.old.live node.new.live }
    ensures thawed { node.new.frozen ≡ None }
    ensures bytes { IsNodeOfBytes node.new.live }
{
    let before = look(node);
    let mut sent = ArrayVec::new();
    if !step(node, runs, &mut sent) {
        return None;
    }
    Some(Seen {
        act: before.act,
        at: before.cpu.iptr,
        cpu: look(node).cpu,
        sent: first_of(&sent),
    })
}
