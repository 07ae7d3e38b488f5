//! A node: its image, the tokens that come in, and how it is frozen.

ghost use Rattle.std.specs.Prelude.{◌≡◌, ◌*◌, ◌<◌, ◌++◌, [], Some, None, true, false, length, replicate, IsSome, IsNone, IfSome, IfOk, is_some};
ghost use Rattle.tp_node.specs.Lower.{image_head, node_of, IsNode, steps, took, t414, waits, holds, node_ranges, kept_behind_steps, took_ranges, LacksFrames, page_of};
ghost use Rattle.tp_node.specs.FromImage.{ReadsImage, HasFrames};
ghost use Rattle.tp_node.specs.LinkEnds.{kept_done};
ghost use Rattle.tp_node.specs.NodeContents.{memory_kept};
ghost use Rattle.tp_node.specs.Rest.{LeavesNoStep, has_nobody, rest_of};
ghost use Rattle.tp_node.specs.RunEnd.{IsWhy};
ghost use Rattle.tp_node.specs.Standing.{standing, waits_at_end};
ghost use Rattle.tp_node.specs.Takes.{Takes};
ghost use Rattle.tp_node.specs.Waiters.{listener, sender};

use crate::fault::{ImageFault, NoFrame};
use crate::head::Head;
use crate::image::{read_head, read_image};
use crate::memory::{Memory, reserve, take_over};
use crate::rest::{Rest, has_nobody, rest_of};
use crate::run::{Ran, run};
use crate::standing::Standing;
use crate::take::{take_ack, take_data};
use crate::waiter::{Waiter, listener_at, sender_at};
use arrayvec::ArrayVec;
use std::alloc::Global;
use std::marker::Model;
use tp_cpu::Runs;
use tp_mem::Freeze;
use tp_model::limits::{IMAGE_HEAD_BYTES, PAGE_BYTES};
use tp_model::{Fault, InEnd, Token};

/// A node. While it is frozen, it also holds what it was then.
#[derive(Drop)]
pub struct Node {
    head: Head,
    memory: Memory,
    frozen: Option<Head>,
}

impl Model for Node {
    ghost use Rattle.std.specs.Prelude.{◌≡◌, is_some};
    ghost use Rattle.tp_node.specs.NodeContents.{NodeContents, frozen_state};
    ghost use Rattle.tp_node.specs.StateWith.{state_with};

    ghost Value = { NodeContents };

    ghost view = { λ n. record { live = state_with n.head n.memory.live; frozen = frozen_state n.frozen n.memory.frozen; shared = n.memory.shared; spare = n.memory.spare } };

    ghost invariant = { λ n. is_some n.frozen ≡ is_some n.memory.frozen };
}

impl Node {
    /// Makes the node of an image. It reserves `spare` frames, but no more than the node has pages. `BadImage` if the bytes are no image,
    /// and `Memory` if memory is out.
    pub fn from_image(alloc: Global, bytes: &[u8], spare: usize) -> Result<Node, ImageFault>
        ensures reads { ReadsImage (node_of bytes.now) result }
        ensures frames { IfOk result (λ node. HasFrames spare node) }
    {
        let Some((head, memory)) = read_image(bytes) else {
            return Err(ImageFault::BadImage);
        };
        match reserve(alloc, memory.len() / PAGE_BYTES, spare, memory) {
            Err(_) => Err(ImageFault::Memory),
            Ok(memory) => Ok(Node {
                head,
                memory,
                frozen: None,
            }),
        }
    }

    /// Makes the node whose image is `head` and then the bytes of `memory`, which aren't copied. It reserves `spare` frames, but no more
    /// than the node has pages. `BadImage` if they are no image, and `Memory` if memory is out.
    pub fn from_parts(
        alloc: Global,
        head: &[u8; IMAGE_HEAD_BYTES],
        memory: Vec<u8>,
        spare: usize,
    ) -> Result<Node, ImageFault>
        ensures reads { ReadsImage (node_of (head.now ++ memory.items)) result }
        ensures frames { IfOk result (λ node. HasFrames spare node) }
    {
        let len = memory.len();
        let Some(head) = read_head(head, len) else {
            return Err(ImageFault::BadImage);
        };
        match take_over(alloc, len / PAGE_BYTES, spare, memory) {
            Err(_) => Err(ImageFault::Memory),
            Ok(memory) => Ok(Node {
                head,
                memory,
                frozen: None,
            }),
        }
    }

    /// Tells why the node has halted; `None` if it runs.
    pub fn halt(&self) -> Option<Fault>
        ensures { result ≡ self.now.live.cpu.halt }
    {
        self.head.cpu.halt
    }

    /// Whether the output end of a link waits for an acknowledge.
    pub fn waits(&self, link: u8) -> bool
        requires { link < 4 }
        ensures { result ≡ waits self.now.live link }
    {
        self.head.outputs[link as usize].is_waiting()
    }

    /// Whether the input end of a link holds a byte.
    pub fn holds(&self, link: u8) -> bool
        requires { link < 4 }
        ensures { result ≡ holds self.now.live link }
    {
        self.head.inputs[link as usize].is_holding()
    }

    /// Whether a link of a node that has an image can take `token` now: a byte if it holds none, an acknowledge if it waits for one, a
    /// Marker never. There is no fifth link.
    #[tactic(auto, using(crate::proofs::CanTake::takes_at_links, crate::proofs::CanTake::takes_byte, crate::proofs::CanTake::takes_acknowledge, crate::proofs::CanTake::takes_no_marker))]
    pub fn can_take(&self, link: u8, token: &Token) -> bool
        ensures { IsNode self.now.live → result ≡ is_some (took self.now.live link token.now) }
    {
        if link >= 4 {
            return false;
        }
        match *token {
            Token::Data(_) => !self.holds(link),
            Token::Ack => self.waits(link),
            Token::Marker => false,
        }
    }

    /// Whether a process waits at a link: for the acknowledge of its byte, or for a byte.
    fn waits_at(&self, link: u8) -> bool
        requires { link < 4 }
        ensures { result ≡ waits_at_end self.now.live link }
    {
        let listens = match self.head.inputs[link as usize].end() {
            InEnd::Idle(_) => false,
            InEnd::Inputs(_) | InEnd::Enabled(_) => true,
        };
        self.waits(link) || listens
    }

    /// Tells its state between its turns.
    pub fn standing(&self) -> Standing
        ensures { result ≡ standing self.now.live }
    {
        let Some(fault) = self.head.cpu.halt else {
            return if self.waits_at(0) || self.waits_at(1) || self.waits_at(2) || self.waits_at(3) {
                Standing::Waits
            } else {
                Standing::Free
            };
        };
        Standing::Halted {
            fault,
            at: self.head.cpu.iptr,
        }
    }

    /// Tells what is left to do for it by itself. Tokens that may be under way to it don't count.
    pub fn rest(&self) -> Rest
        ensures value { result ≡ rest_of self.now.live }
        ensures steps { LeavesNoStep result self.now.live }
    {
        rest_of(&self.head, &self.memory)
    }

    /// Gives the address of its next instruction.
    pub fn iptr(&self) -> u32
        ensures { result ≡ self.now.live.cpu.iptr }
    {
        self.head.cpu.iptr
    }

    /// Gives the process that waits at the output end of a link; `None` if none does.
    pub fn sender(&self, link: u8) -> Option<Waiter>
        requires { link < 4 }
        ensures { result ≡ sender self.now.live link }
    {
        sender_at(&self.memory, self.head.outputs[link as usize].end())
    }

    /// Gives the process that waits at the input end of a link; `None` if none does.
    pub fn listener(&self, link: u8) -> Option<Waiter>
        requires { link < 4 }
        ensures { result ≡ listener self.now.live link }
    {
        listener_at(&self.memory, self.head.inputs[link as usize].end())
    }

    /// Whether no process of it runs, none is ready, and none was interrupted.
    pub fn has_nobody(&self) -> bool
        ensures { result ≡ has_nobody self.now.live }
    {
        has_nobody(&self.head, &self.memory)
    }

    /// Counts the pages of its memory.
    pub fn pages(&self) -> usize
        ensures live { length self.now.live.memory ≡ PAGE_BYTES * result }
        ensures frozen { IfSome self.now.frozen (λ node. length node.memory ≡ PAGE_BYTES * result) }
    {
        self.memory.pages()
    }

    /// Whether it is frozen.
    pub fn is_frozen(&self) -> bool
        ensures { result ≡ is_some self.now.frozen }
    {
        self.frozen.is_some()
    }

    /// Keeps the node as it is now. It takes no memory.
    pub fn freeze(&mut self)
        requires { IsNone self.old.frozen }
        ensures frozen { self.new ≡ record self.old { frozen = Some self.old.live; shared = replicate (length self.old.shared) true } }
        ensures thawed { self.old.shared ≡ replicate (length self.old.shared) false }
    {
        self.memory.freeze();
        self.frozen = Some(self.head);
    }

    /// Writes the bytes before the memory in the frozen node's image.
    pub fn frozen_head(&self, out: &mut [u8; IMAGE_HEAD_BYTES])
        requires { IsSome self.now.frozen }
        ensures { IfSome self.now.frozen (λ node. out.new ≡ image_head node) }
    {
        if let Some(head) = &self.frozen {
            head.write(self.memory.pages() as u16, out);
        }
    }

    /// Reads a page of the frozen node's memory.
    pub fn frozen_page(&self, page: usize, out: &mut [u8; PAGE_BYTES])
        requires frozen { IsSome self.now.frozen }
        requires inside { PAGE_BYTES * page < length self.now.live.memory }
        ensures { IfSome self.now.frozen (λ node. out.new ≡ page_of node.memory page) }
    {
        self.memory.frozen_page(page, out);
    }

    /// Lets the frozen node go.
    pub fn drop_frozen(&mut self)
        ensures { self.new ≡ record self.old { frozen = None; shared = replicate (length self.old.shared) false } }
    {
        self.memory.drop_frozen();
        self.frozen = None;
    }

    /// Takes a token that comes in on a link, also after the node has halted. Answers what leaves on that link. `NoFrame`, and nothing
    /// changes, if the shared pages that the token would write outnumber the free frames.
    #[tactic(auto, using(crate::proofs::Keeps::kept_same), unfolding(tp_model::specs::Node::took))]
    pub fn take(&mut self, link: u8, token: Token) -> Result<Option<Token>, NoFrame>
        requires { IsSome (took self.old.live link token) }
        ensures takes { Takes (took self.old.live link token) (LacksFrames (memory_kept self.old) (took_ranges self.old.live link token)) link self.old.live result self.new.live }
        ensures kept { self.new.frozen ≡ self.old.frozen }
        ensures shared { memory_kept self.new ≡ kept_done result (memory_kept self.old) (took_ranges self.old.live link token) }
    {
        match token {
            Token::Data(byte) => take_data(&mut self.head, &mut self.memory, link as usize, byte),
            Token::Ack => take_ack(&mut self.head, &mut self.memory, link as usize),
            Token::Marker => unreachable!(),
        }
    }

    /// Makes at most `max` steps. What leaves goes into `out`, each token with its link. It ends for lack of a frame only before a step
    /// that would write more shared pages than there are free frames, and doesn't count that step. `runs` is what the thread keeps of
    /// instructions, of whichever node.
    #[inline(always)]
    #[tactic(auto, using(crate::proofs::Keeps::kept_same))]
    pub fn run(&mut self, runs: &mut Runs, max: u16, out: &mut ArrayVec<(u8, Token), 8>) -> Ran
        requires { out.old.items ≡ [] }
        ensures asked { result.max ≡ max }
        ensures steps { steps t414 result.count self.old.live ≡ Some (self.new.live, out.new.items) }
        ensures why { IsWhy result.why max result.count (LacksFrames (memory_kept self.new) (node_ranges self.new.live)) self.new.live }
        ensures kept { self.new.frozen ≡ self.old.frozen }
        ensures shared { memory_kept self.new ≡ kept_behind_steps result.count self.old.live (memory_kept self.old) }
    {
        run(&mut self.head, &mut self.memory, runs, max, out)
    }
}
