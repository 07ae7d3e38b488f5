//! Images of nodes: which bytes are one, and what a frozen node's are.

use crate::image::{Fact, Image, START};
use crate::story::check;
use arrayvec::ArrayVec;
use std::alloc::Global;
use tp_model::Fault;
use tp_node::{ImageFault, Node, Runs};

/// Whether the bytes are an image; none without memory.
fn is_image(alloc: Global, bytes: &[u8]) -> Option<bool> {
    match Node::from_image(alloc, bytes, 0) {
        Ok(_) => Some(true),
        Err(ImageFault::BadImage) => Some(false),
        Err(_) => None,
    }
}

/// A byte of an image: where it is, what it is instead, and whether the bytes still are an image.
const BYTES: &[(usize, u8, bool)] = &[
    // version, halt code, pages, Wptr, Error, state, slice count
    (0, 0, false),
    (0, 2, false),
    (1, 4, true),
    (1, 5, false),
    (2, 5, false),
    (3, 1, false),
    (8, 4, true),
    (8, 2, false),
    (40, 1, true),
    (40, 2, false),
    (41, 3, false),
    (43, 4, true),
    (43, 5, false),
    // Iptr, a register, the fronts and the backs of the queues may be any words
    (4, 1, true),
    (12, 1, true),
    (24, 1, true),
    (27, 0, true),
    (31, 0x90, true),
    (32, 3, true),
    (39, 0x90, true),
    // an idle output end has nothing; one that waits has a byte left; there is no third state
    (44, 1, false),
    (44, 2, false),
    (45, 1, false),
    (46, 1, false),
    (47, 1, false),
    (48, 1, false),
    (52, 1, false),
    (59, 1, false),
    // an idle input end may hold a byte; one that inputs has a byte left; one may be enabled by any process
    (108, 1, false),
    (108, 2, true),
    (108, 3, false),
    (109, 1, true),
    (109, 2, false),
    (110, 1, false),
    (111, 1, false),
    (112, 1, false),
    (171, 1, false),
];

/// Messages under way, by pointer and count. All that is left is inside memory, and something is left.
const MESSAGES: &[(u32, u32, bool)] = &[
    (0x8000_0FFE, 2, true),
    (0x8000_0FFF, 2, false),
    (0x8000_1000, 1, false),
    (0x7FFF_FFFF, 1, false),
    (0x8000_0310, 0, false),
    (0x8000_0000, 4096, true),
    (0x8000_0001, 0xFFFF_FFFF, false),
];

/// Pages and length. A memory has whole pages, 4 to 1,024, as many as the head says.
const LENGTHS: &[([u8; 2], usize, bool)] = &[
    ([4, 0], 4268, true),
    ([4, 0], 4267, false),
    ([4, 0], 4269, false),
    ([4, 0], 172, false),
    ([4, 0], 171, false),
    ([4, 0], 0, false),
    ([3, 0], 3244, false),
    ([5, 0], 5292, true),
    ([0, 1], 262_316, true),
    ([1, 1], 263_340, true),
    ([255, 3], 1_047_724, true),
    ([0, 4], 1_048_748, true),
    ([0, 4], 1_048_747, false),
    ([1, 4], 1_049_772, false),
];

/// Whether an image that has changed is one still; none without memory.
fn is_with(alloc: Global, at: usize, bytes: &[u8], len: usize) -> Option<bool> {
    let Ok(mut image) = Image::new(alloc) else {
        return None;
    };
    image.put(at, bytes);
    let is_long = image.bytes.resize(len, 0).is_ok();
    let seen = if is_long {
        is_image(alloc, &image.bytes)
    } else {
        None
    };
    seen
}

/// Whether an image stays one with this fact; `None` without memory.
fn is_where(alloc: Global, fact: &Fact<'_>) -> Option<bool> {
    let Ok(mut image) = Image::new(alloc) else {
        return None;
    };
    image.put_fact(fact);
    let seen = is_image(alloc, &image.bytes);
    seen
}

#[test]
fn bytes_of_heads(rt: HostRuntime) {
    for (i, row) in BYTES.iter().enumerate() {
        let (at, byte, wanted) = *row;
        let seen = is_with(rt.alloc(), at, &[byte], 4268);
        check(&rt, "bytes", i, seen == Some(wanted));
    }
}

#[test]
fn messages_under_way(rt: HostRuntime) {
    for (i, row) in MESSAGES.iter().enumerate() {
        let (pointer, left, wanted) = *row;
        let sends = is_where(rt.alloc(), &Fact::Waits(3, 0xFFFF_FFFF, pointer, left));
        let receives = is_where(rt.alloc(), &Fact::Inputs(3, 0xFFFF_FFFF, pointer, left));
        check(
            &rt,
            "messages",
            i,
            (sends, receives) == (Some(wanted), Some(wanted)),
        );
    }
}

#[test]
fn pages_and_lengths(rt: HostRuntime) {
    for (i, row) in LENGTHS.iter().enumerate() {
        let (pages, len, wanted) = *row;
        let seen = is_with(rt.alloc(), 2, &pages, len);
        check(&rt, "lengths", i, seen == Some(wanted));
    }
}

/// The head of the tests' node up to its links, which have nothing.
const HEAD: &[u8] = &[
    0x01, 0x00, 0x04, 0x00, 0x00, 0x01, 0x00, 0x80, 0x00, 0x02, 0x00, 0x80, 0x00, 0x00, 0x00, 0x00,
    0x00, 0x00, 0x00, 0x00, 0x00, 0x00, 0x00, 0x00, 0x00, 0x00, 0x00, 0x80, 0x00, 0x00, 0x00, 0x80,
    0x00, 0x00, 0x00, 0x80, 0x00, 0x00, 0x00, 0x80, 0x00, 0x02, 0x00, 0x00,
];

fn is_head(head: &[u8; 172]) -> bool {
    let (front, links) = head.split_at(44);
    front == HEAD && links == [0; 128].as_slice()
}

/// Whether a node that is frozen now has that head.
fn has_head(node: &mut Node) -> bool {
    let mut head = [0xFF; 172];
    node.drop_frozen();
    node.freeze();
    node.frozen_head(&mut head);
    is_head(&head)
}

/// The halt code and the slice count that a frozen node's head has, and the byte at its workspace.
fn kept(node: &Node) -> (u8, u8, u8) {
    let mut head = [0xFF; 172];
    let mut page = [0xFF; 1024];
    if node.is_frozen() && node.pages() > 0 {
        node.frozen_head(&mut head);
        node.frozen_page(0, &mut page);
    }
    (head[1], head[42], page[0x200])
}

/// Whether a node runs while it is frozen, and what was kept is what it was.
fn runs_frozen(node: &mut Node, runs: &mut Runs) -> bool {
    let mut out = ArrayVec::new();
    node.drop_frozen();
    node.freeze();
    let count = node.run(runs, 9, &mut out).count();
    let before = kept(node);
    node.drop_frozen();
    node.freeze();
    count == 3
        && before == (0, 0, 0)
        && kept(node) == (2, 2, 4)
        && node.halt() == Some(Fault::UnknownOp)
}

/// Whether both are so of the tests' node, with the program ldc 4, stl 0, and a number that is no operation.
fn freezes(alloc: Global) -> bool {
    let Ok(mut image) = Image::new(alloc) else {
        return false;
    };
    image.put_fact(&Fact::Bytes(START, &[0x44, 0xD0, 0x22, 0xF2]));
    let Ok(mut node) = Node::from_image(alloc, &image.bytes, 4) else {
        return false;
    };
    let Ok(mut runs) = Runs::new(alloc) else {
        return false;
    };
    has_head(&mut node) && runs_frozen(&mut node, &mut runs)
}

#[test]
fn frozen_nodes(rt: HostRuntime) {
    check(&rt, "a frozen node", 0, freezes(rt.alloc()));
}
