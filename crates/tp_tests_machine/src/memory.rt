//! A node's memory on its own.

use crate::story::check;
use std::alloc::{AllocError, Global};
use std::test::Fail;
use tp_mem::{FlatMemory, Freeze, Mem, WriteFault};

/// Four pages of zeros.
pub fn four_pages(alloc: Global) -> Result<FlatMemory, AllocError> {
    FlatMemory::new(alloc, 4, &[0; 4096])
}

/// A call that writes.
enum Write<'a> {
    Byte(u32, u8),
    Word(u32, u32),
    Words(&'a [(u32, u32)]),
    ByteAndWords(u32, u8, &'a [(u32, u32)]),
    /// To, from, count, words.
    Block(u32, u32, u32, &'a [(u32, u32)]),
    /// The word before such a block.
    BlockAfter(u32, u32, u32, &'a [(u32, u32)]),
}

/// The word before blocks.
const FIRST: (u32, u32) = (0x8000_0330, 0x1122_3344);

fn make(mem: &mut FlatMemory, call: &Write<'_>) -> Result<(), WriteFault> {
    match *call {
        Write::Byte(address, byte) => mem.write_byte(address, byte),
        Write::Word(address, word) => mem.write_word(address, word),
        Write::Words(words) => mem.write_words(words),
        Write::ByteAndWords(address, byte, words) => mem.change_byte(address, byte, words),
        Write::Block(to, from, count, words) => mem.change(to, from, count, words),
        Write::BlockAfter(to, from, count, words) => {
            mem.change_after(FIRST, to, from, count, words)
        }
    }
}

/// Whether a call wrote, or refused since something is outside.
fn writes(mem: &mut FlatMemory, call: &Write<'_>) -> Option<bool> {
    match make(mem, call) {
        Ok(()) => Some(true),
        Err(WriteFault::Outside) => Some(false),
        Err(WriteFault::NoFrame) => None,
    }
}

/// Calls one after another, whether each writes, and a word that is then in memory. A call writes all or nothing; a block is written after the first
/// word and before the others, which are written in order.
const WRITES: &[(Write<'static>, bool, u32, u32)] = &[
    (
        Write::Word(0x8000_0102, 0x4433_2211),
        true,
        0x8000_0103,
        0x4433_2211,
    ),
    (Write::Word(0x8000_1000, 1), false, 0x8000_0FFF, 0),
    (Write::Byte(0x8000_0301, 7), true, 0x8000_0300, 0x700),
    (Write::Byte(0x8000_1000, 7), false, 0x8000_0000, 0),
    (
        Write::Words(&[(0x8000_0310, 1), (0x8000_0310, 2)]),
        true,
        0x8000_0310,
        2,
    ),
    (
        Write::Words(&[(0x8000_0310, 9), (0x8000_1000, 9)]),
        false,
        0x8000_0310,
        2,
    ),
    (
        Write::ByteAndWords(0x8000_0302, 8, &[(0x8000_0322, 0xAA)]),
        true,
        0x8000_0320,
        0xAA,
    ),
    (
        Write::ByteAndWords(0x8000_0302, 9, &[(0x8000_1000, 9)]),
        false,
        0x8000_0300,
        0x08_0700,
    ),
    (
        Write::Block(0x8000_0301, 0x8000_0300, 3, &[]),
        true,
        0x8000_0300,
        0x0807_0000,
    ),
    (
        Write::Block(0x8000_0300, 0x8000_0310, 4, &[(0x8000_1000, 9)]),
        false,
        0x8000_0300,
        0x0807_0000,
    ),
    (
        Write::Block(0x8000_0300, 0x8000_0FFE, 3, &[]),
        false,
        0x8000_0300,
        0x0807_0000,
    ),
    (
        Write::BlockAfter(0x8000_0341, 0x8000_0330, 2, &[(0x8000_1000, 9)]),
        false,
        0x8000_0330,
        0,
    ),
    (
        Write::BlockAfter(0x8000_0341, 0x8000_0330, 2, &[(0x8000_0350, 9)]),
        true,
        0x8000_0340,
        0x0033_4400,
    ),
    (Write::Words(&[]), true, 0x8000_0350, 9),
];

/// Whether a call goes as the row says.
fn is_write(mem: &mut FlatMemory, row: &(Write<'_>, bool, u32, u32)) -> bool {
    writes(mem, &row.0) == Some(row.1) && mem.read_word(row.2) == Some(row.3)
}

#[test]
fn writing(rt: HostRuntime) -> Result<(), Fail> {
    let mut mem = four_pages(rt.alloc())?;
    for (i, row) in WRITES.iter().enumerate() {
        check(&rt, "writes", i, is_write(&mut mem, row));
    }
    Ok(())
}

/// Ranges, and whether they are inside.
const RANGES: &[(u32, u32, bool)] = &[
    (0x8000_0000, 4096, true),
    (0x8000_0000, 4097, false),
    (0x8000_0FFF, 1, true),
    (0x8000_0FFF, 2, false),
    (0x8000_1000, 0, true),
    (0x8000_1000, 1, false),
    (0x1234, 0, true),
    (0x7FFF_FFFF, 1, false),
    (0x7FFF_FFFF, 2, false),
    (0x8000_0001, 0xFFFF_FFFF, false),
];

/// Whether a range is inside, and its byte can be read, if it is one byte.
fn is_range(mem: &FlatMemory, row: &(u32, u32, bool)) -> bool {
    let (address, count, inside) = *row;
    let reads = mem.read_byte(address).is_some();
    mem.is_inside(address, count) == inside && (count != 1 || reads == inside)
}

fn are_ranges(mem: &FlatMemory) -> bool {
    for row in RANGES {
        if !is_range(mem, row) {
            return false;
        }
    }
    mem.len() == 4096 && mem.pages() == 4
}

/// Whether the frozen page 1 is all zeros.
fn is_clear(mem: &FlatMemory) -> bool {
    let mut page = [9; 1024];
    if mem.is_frozen() && mem.pages() > 1 {
        mem.frozen_page(1, &mut page);
    }
    page == [0; 1024]
}

/// Whether frozen bytes stay as they were until they are released.
fn keeps(mem: &mut FlatMemory) -> bool {
    mem.drop_frozen();
    mem.freeze();
    let wrote = writes(mem, &Write::Word(0x8000_0400, 6)) == Some(true);
    let kept = is_clear(mem);
    mem.drop_frozen();
    wrote && kept && !mem.is_frozen() && mem.read_word(0x8000_0400) == Some(6)
}

#[test]
fn ranges_and_frozen_bytes(rt: HostRuntime) -> Result<(), Fail> {
    let mut mem = four_pages(rt.alloc())?;
    check(
        &rt,
        "ranges and frozen bytes",
        0,
        are_ranges(&mem) && keeps(&mut mem),
    );
    Ok(())
}
