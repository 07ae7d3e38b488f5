//! A node on the bench: it is run and handed tokens, and the whole of it is compared with what is wanted.

use crate::arrival::hearer;
use crate::image::{Fact, Image, START};
use arrayvec::ArrayVec;
use std::alloc::{AllocError, Global};
use tp_model::Token;
use tp_node::{Node, Runs, Why};

/// A node, what is kept of the instructions that it has read, and the image that it ought to have.
#[derive(Drop)]
pub struct Bench {
    alloc: Global,
    node: Node,
    runs: Runs,
    wanted: Image,
}

/// The image of a node as it is now.
fn image_of(node: &mut Node, alloc: Global) -> Result<Vec<u8>, AllocError> {
    let mut bytes = Vec::new(alloc);
    let mut head = [0; 172];
    let mut page = [0; 1024];
    node.drop_frozen();
    node.freeze();
    node.frozen_head(&mut head);
    bytes.extend_from_slice(&head)?;
    for i in 0..node.pages() {
        node.frozen_page(i, &mut page);
        bytes.extend_from_slice(&page)?;
    }
    node.drop_frozen();
    Ok(bytes)
}

impl Bench {
    /// A node that is about to run `code`, except for the facts `given`; `None` without memory, or if that is no image.
    pub fn new(alloc: Global, code: &[u8], given: &[Fact<'_>]) -> Option<Bench> {
        let Ok(mut wanted) = Image::new(alloc) else {
            return None;
        };
        wanted.put_fact(&Fact::Bytes(START, code));
        wanted.put_all(given);
        let Ok(node) = Node::from_image(alloc, &wanted.bytes, 0) else {
            return None;
        };
        let Ok(runs) = Runs::new(alloc) else {
            return None;
        };
        Some(Bench {
            alloc,
            node,
            runs,
            wanted,
        })
    }

    /// Whether the node makes `steps` steps and sends `sent`.
    pub fn runs(&mut self, steps: u16, sent: &[(u8, Token)]) -> bool {
        let mut out = ArrayVec::new();
        let ran = self.node.run(&mut self.runs, steps, &mut out);
        ran.max() == steps
            && ran.count() == steps
            && ran.why() == Why::Full
            && out.as_slice() == sent
    }

    /// Whether the node has no step, for the reason `why`.
    pub fn rests(&mut self, why: Why) -> bool {
        let mut out = ArrayVec::new();
        let ran = self.node.run(&mut self.runs, 1, &mut out);
        ran.count() == 0 && ran.why() == why && out.is_empty()
    }

    /// Whether the node can take a token on a link, and answers with that one.
    pub fn takes(&mut self, link: u8, token: Token, answer: Option<Token>) -> bool {
        let Ok(bytes) = image_of(&mut self.node, self.alloc) else {
            return false;
        };
        let Some(mut node) = hearer(self.alloc, &bytes, link, token) else {
            return false;
        };
        let is_answer = match node.take(link, token) {
            Ok(seen) => seen == answer,
            Err(_) => false,
        };
        self.node = node;
        is_answer
    }

    /// Whether the node can't take a token on a link.
    pub fn refuses(&self, link: u8, token: Token) -> bool {
        !self.node.can_take(link, &token)
    }

    /// Changes the facts `given` in it. Answers whether it is a node's image still.
    pub fn also(&mut self, given: &[Fact<'_>]) -> bool {
        self.wanted.put_all(given);
        let Ok(node) = Node::from_image(self.alloc, &self.wanted.bytes, 0) else {
            return false;
        };
        self.node = node;
        true
    }

    /// Expects the facts `changed` to change, and perhaps others too.
    pub fn expect(&mut self, changed: &[Fact<'_>]) {
        self.wanted.put_all(changed);
    }

    /// Whether the facts `changed` have changed since it was last looked at, and nothing else.
    pub fn is(&mut self, changed: &[Fact<'_>]) -> bool {
        self.wanted.put_all(changed);
        let Ok(seen) = image_of(&mut self.node, self.alloc) else {
            return false;
        };
        seen.as_slice() == self.wanted.bytes.as_slice()
    }
}
