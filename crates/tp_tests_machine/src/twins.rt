//! The memory that copies before it writes beside its slow twin: commands give equal bytes in both.

use crate::memory::four_pages;
use crate::story::check;
use std::alloc::Global;
use tp_mem::{CowMemory, FlatMemory, Freeze, Mem, WriteFault};

/// Two memories of four pages.
#[derive(Drop)]
struct Twins {
    cow: CowMemory,
    flat: FlatMemory,
}

/// Whether a write goes one way in both, if a frame is not wanted.
fn write(twins: &mut Twins, address: u32, word: u32) -> bool {
    let first = if word % 2 == 0 {
        twins.cow.write_word(address, word)
    } else {
        twins.cow.change(address, 0x8000_0010, word % 1500, &[])
    };
    if let Err(WriteFault::NoFrame) = first {
        return twins.cow.is_frozen();
    }
    let second = if word % 2 == 0 {
        twins.flat.write_word(address, word)
    } else {
        twins.flat.change(address, 0x8000_0010, word % 1500, &[])
    };
    first.is_ok() == second.is_ok()
}

/// Whether both are frozen alike, and a frozen page of both is equal.
fn page(twins: &Twins, page: usize) -> bool {
    let mut one = [1; 1024];
    let mut other = [1; 1024];
    if twins.cow.is_frozen() && page < twins.cow.pages() {
        twins.cow.frozen_page(page, &mut one);
    }
    if twins.flat.is_frozen() && page < twins.flat.pages() {
        twins.flat.frozen_page(page, &mut other);
    }
    twins.cow.is_frozen() == twins.flat.is_frozen() && one == other
}

fn freeze(twins: &mut Twins) {
    if !twins.cow.is_frozen() {
        twins.cow.freeze();
    }
    if !twins.flat.is_frozen() {
        twins.flat.freeze();
    }
}

fn thaw(twins: &mut Twins) {
    twins.cow.drop_frozen();
    twins.flat.drop_frozen();
}

/// Whether a command, by a number, goes one way in both.
fn command(twins: &mut Twins, number: u32) -> bool {
    let address = 0x8000_0000 + (number >> 8) % 4200;
    match number >> 27 {
        0 => {
            freeze(twins);
            true
        }
        1 => {
            thaw(twins);
            true
        }
        2..=4 => page(twins, (number >> 8) as usize % 4),
        5..=7 => {
            let _told = twins.cow.make_private(address, number % 3000);
            true
        }
        8..=15 => twins.cow.read_byte(address) == twins.flat.read_byte(address),
        _ => write(twins, address, number),
    }
}

/// Whether all words are equal.
fn same_words(twins: &Twins) -> bool {
    for place in 0..1024 {
        let address = 0x8000_0000 + 4 * place;
        if twins.cow.read_word(address) != twins.flat.read_word(address) {
            return false;
        }
    }
    true
}

/// Whether 2,000 commands all go one way in both.
fn agree(twins: &mut Twins) -> bool {
    let mut number = 1u32;
    for _ in 0..2000 {
        number = number.wrapping_mul(1_664_525).wrapping_add(1_013_904_223);
        if !command(twins, number) {
            return false;
        }
    }
    same_words(twins) && page(twins, 0) && page(twins, 1) && page(twins, 2) && page(twins, 3)
}

/// Whether they do with `spare` spare frames.
fn agree_with(alloc: Global, spare: usize) -> bool {
    let Ok(cow) = CowMemory::new(alloc, 4, spare.min(4), &[0; 4096]) else {
        return false;
    };
    let Ok(flat) = four_pages(alloc) else {
        return false;
    };
    let told = agree(&mut Twins { cow, flat });
    told
}

#[test]
fn two_memories_agree(rt: HostRuntime) {
    for spare in [0, 1, 4] {
        check(&rt, "spare frames", spare, agree_with(rt.alloc(), spare));
    }
}

/// Whether a word is written, or a frame is wanted for it.
fn writes(mem: &mut CowMemory, address: u32) -> Option<bool> {
    match mem.write_word(address, 7) {
        Ok(()) => Some(true),
        Err(WriteFault::Outside) => None,
        Err(WriteFault::NoFrame) => Some(false),
    }
}

/// With one spare frame the second page that is written wants another; once the frozen bytes are gone it is written.
fn is_one_spare(alloc: Global) -> bool {
    let Ok(mut mem) = CowMemory::new(alloc, 4, 1, &[0; 4096]) else {
        return false;
    };
    mem.freeze();
    let first = writes(&mut mem, 0x8000_0000) == Some(true);
    let second = writes(&mut mem, 0x8000_0400) == Some(false);
    let again = writes(&mut mem, 0x8000_0004) == Some(true);
    mem.drop_frozen();
    let gone = writes(&mut mem, 0x8000_0400) == Some(true);
    first && second && again && gone
}

/// With none already the first one wants a frame.
fn is_none_spare(alloc: Global) -> bool {
    let Ok(mut mem) = CowMemory::new(alloc, 4, 0, &[0; 4096]) else {
        return false;
    };
    mem.freeze();
    writes(&mut mem, 0x8000_0000) == Some(false)
}

#[test]
fn frames_are_wanted(rt: HostRuntime) {
    check(&rt, "spare frames", 1, is_one_spare(rt.alloc()));
    check(&rt, "spare frames", 0, is_none_spare(rt.alloc()));
}
