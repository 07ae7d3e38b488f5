//! What comes in from the other ends of a node's links.

ghost use Rattle.std.specs.Prelude.{◌≡◌, ◌<◌};
ghost use Rattle.tp_trace.specs.Others.{Comes, IsLinked, attended, came, came_at, came_late, data_at};

use crate::hearing::{Heard, trace_take};
use tp_model::Token;
use tp_node::Node;

/// A node, and of each of its links, from link 0 on, the bytes that its other end has still to send; `None`: nobody is there.
#[derive(Drop)]
pub struct Linked<'a> {
    pub node: Node,
    pub others: [Option<&'a [u8]>; 4],
}

/// Has the node take the first of these bytes on a link, if it can.
fn data_at<'a>(linked: &mut Linked<'a>, link: u8, rest: &'a [u8]) -> Option<Heard>
    requires link { link < 4 }
    requires linked { IsLinked linked.old }
    ensures comes { Comes (data_at (attended linked.old) link rest.now) result (attended linked.old) (attended linked.new) }
    ensures linked { IsLinked linked.new }
{
    let (byte, behind) = rest.split_first()?;
    let heard = trace_take(&mut linked.node, link, Token::Data(*byte))?;
    linked.others[link as usize] = Some(behind);
    Some(heard)
}

/// Has the node take what comes in on a link next, if anything does: an acknowledge before a byte.
fn come_at(linked: &mut Linked<'_>, link: u8) -> Option<Heard>
    requires link { link < 4 }
    requires linked { IsLinked linked.old }
    ensures comes { Comes (came_at (attended linked.old) link) result (attended linked.old) (attended linked.new) }
    ensures linked { IsLinked linked.new }
{
    let rest = linked.others[link as usize]?;
    match trace_take(&mut linked.node, link, Token::Ack) {
        Some(heard) => Some(heard),
        None => data_at(linked, link, rest),
    }
}

/// What comes in on link 2, or else on link 3.
fn come_late(linked: &mut Linked<'_>) -> Option<Heard>
    requires linked { IsLinked linked.old }
    ensures comes { Comes (came_late (attended linked.old)) result (attended linked.old) (attended linked.new) }
    ensures linked { IsLinked linked.new }
{
    match come_at(linked, 2) {
        Some(heard) => Some(heard),
        None => come_at(linked, 3),
    }
}

/// Has the node take what comes in next, if anything does: at the first link at which something does.
pub fn come(linked: &mut Linked<'_>) -> Option<Heard>
    requires linked { IsLinked linked.old }
    ensures comes { Comes (came (attended linked.old)) result (attended linked.old) (attended linked.new) }
    ensures linked { IsLinked linked.new }
{
    if let Some(heard) = come_at(linked, 0) {
        return Some(heard);
    }
    match come_at(linked, 1) {
        Some(heard) => Some(heard),
        None => come_late(linked),
    }
}
