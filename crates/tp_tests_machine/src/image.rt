//! Node images as the tests write and read them, byte by byte after the format's table.

use std::alloc::{AllocError, Global};

/// The first address, which is also the word that names no process.
pub const FIRST: u32 = 0x8000_0000;

/// Where the tests' programs begin, and the workspace of the process that runs them.
pub const START: u32 = 0x8000_0100;

pub const WORKSPACE: u32 = 0x8000_0200;

/// Bytes before the memory, and the places in them of the output ends of links, and of the input ends.
const HEAD: usize = 172;

const OUTPUTS: u8 = 44;

const INPUTS: u8 = 108;

/// One thing about a node.
#[derive(Clone, Copy)]
pub enum Fact<'a> {
    Halt(u8),
    Iptr(u32),
    Wptr(u32),
    A(u32),
    B(u32),
    C(u32),
    /// Front and back of the high queue, and of the low one.
    High(u32, u32),
    Low(u32, u32),
    Error(u8),
    /// 0 idle, 1 high, 2 low.
    State(u8),
    Slice(u16),
    /// The output end of a link is idle, or its process waits, with the bytes from a pointer on left.
    Unused(u8),
    Waits(u8, u32, u32, u32),
    /// The input end of a link is idle, or holds a byte, or its process inputs, or it is enabled by a process.
    Quiet(u8),
    Holds(u8, u8),
    Inputs(u8, u32, u32, u32),
    Enabled(u8, u32),
    Word(u32, u32),
    Bytes(u32, &'a [u8]),
    /// A, B and C.
    Stack(u32, u32, u32),
    /// A low process runs, with this Iptr and Wptr and an empty stack.
    Runs(u32, u32),
    /// Nothing runs.
    Gone,
}

/// The bytes of a node's image.
#[derive(Drop)]
pub struct Image {
    pub bytes: Vec<u8>,
}

impl Image {
    /// A node of 4 pages whose low process is about to begin. Nothing is queued, and its memory has one word that isn't 0:
    /// the one that says that no process was interrupted.
    pub fn new(alloc: Global) -> Result<Image, AllocError> {
        let mut image = Image {
            bytes: Vec::from_elem(alloc, 0, HEAD + 4096)?,
        };
        image.put(0, &[1, 0, 4, 0]);
        image.put_all(&[
            Fact::Iptr(START),
            Fact::Wptr(WORKSPACE),
            Fact::High(FIRST, FIRST),
            Fact::Low(FIRST, FIRST),
            Fact::State(2),
            Fact::Word(0x8000_002C, FIRST),
        ]);
        Ok(image)
    }

    /// Puts bytes at a place, and leaves out those that would go past the end.
    pub fn put(&mut self, at: usize, bytes: &[u8]) {
        for (slot, byte) in self.bytes.iter_mut().skip(at).zip(bytes) {
            *slot = *byte;
        }
    }

    /// Puts words one after another.
    fn put_words(&mut self, at: usize, words: &[u32]) {
        let mut next = at;
        for word in words {
            self.put(next, &word.to_le_bytes());
            next = next.wrapping_add(4);
        }
    }

    /// Puts a link's end: its state, whether it holds a byte, and that byte; then its process, its pointer, and how many bytes are left.
    fn put_end(&mut self, first: u8, link: u8, state: [u8; 3], transfer: [u32; 3]) {
        let at = usize::from(first) + 16 * usize::from(link % 4);
        self.put(at, &[state[0], state[1], state[2], 0]);
        self.put_words(at + 4, &transfer);
    }

    /// Puts what runs: Iptr and Wptr, an empty stack, and the state.
    fn put_runs(&mut self, iptr: u32, wptr: u32, state: u8) {
        self.put_words(4, &[iptr, wptr, 0, 0, 0]);
        self.put(41, &[state]);
    }

    pub fn put_fact(&mut self, fact: &Fact<'_>) {
        match *fact {
            Fact::Halt(code) => self.put(1, &[code]),
            Fact::Iptr(word) => self.put_words(4, &[word]),
            Fact::Wptr(word) => self.put_words(8, &[word]),
            Fact::A(word) => self.put_words(12, &[word]),
            Fact::B(word) => self.put_words(16, &[word]),
            Fact::C(word) => self.put_words(20, &[word]),
            Fact::High(front, back) => self.put_words(24, &[front, back]),
            Fact::Low(front, back) => self.put_words(32, &[front, back]),
            Fact::Error(flag) => self.put(40, &[flag]),
            Fact::State(state) => self.put(41, &[state]),
            Fact::Slice(count) => self.put(42, &count.to_le_bytes()),
            Fact::Unused(link) => self.put_end(OUTPUTS, link, [0; 3], [0; 3]),
            Fact::Waits(link, process, pointer, left) => {
                self.put_end(OUTPUTS, link, [1, 0, 0], [process, pointer, left]);
            }
            Fact::Quiet(link) => self.put_end(INPUTS, link, [0; 3], [0; 3]),
            Fact::Holds(link, byte) => self.put_end(INPUTS, link, [0, 1, byte], [0; 3]),
            Fact::Inputs(link, process, pointer, left) => {
                self.put_end(INPUTS, link, [1, 0, 0], [process, pointer, left]);
            }
            Fact::Enabled(link, process) => {
                self.put_end(INPUTS, link, [2, 0, 0], [process, 0, 0]);
            }
            Fact::Word(address, word) => self.put_words(place_of(address), &[word]),
            Fact::Bytes(address, bytes) => self.put(place_of(address), bytes),
            Fact::Stack(a, b, c) => self.put_words(12, &[a, b, c]),
            Fact::Runs(iptr, wptr) => self.put_runs(iptr, wptr, 2),
            Fact::Gone => self.put_runs(0, 0, 0),
        }
    }

    pub fn put_all(&mut self, facts: &[Fact<'_>]) {
        for fact in facts {
            self.put_fact(fact);
        }
    }
}

/// Where the byte of an address is in an image.
fn place_of(address: u32) -> usize {
    HEAD + address.wrapping_sub(FIRST) as usize
}
