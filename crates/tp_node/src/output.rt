//! What an instruction does at the output end of a link.

ghost use Rattle.std.specs.Prelude.{◌≡◌, ℕ, List, [], ◌∷◌, ◌++◌, Some, is_some};
ghost use Rattle.tp_node.specs.Lower.{byte_at, begin_output, held, stored_after, word_ranges, kept_after, begin_output_ranges, first_ranges, Writes};
ghost use Rattle.tp_node.specs.LinkEnds.{LinkEnds, kept_done};
ghost use Rattle.tp_node.specs.OutputAfter.{output_after, output_after_ranges};

use crate::OutEngine;
use tp_cpu::{BAD_ADDRESS, Undone, descriptor_of, end, saved_at, store, store_all};
use tp_mem::Mem;
use tp_model::{Cpu, Fault, OutRequest, Token, Transfer};

/// Reads the byte of an address as it is after a first word that is to be stored; `None` outside memory.
fn byte_after<M: Mem>(mem: &M, first: Option<(u32, u32)>, address: u32) -> Option<u8>
    ensures { (m : List ℕ) → held first (M.bytes mem.now) ≡ Some m → result ≡ byte_at m address }
{
    match first {
        Some((at, word)) if address / 4 == at / 4 => {
            Some(word.to_le_bytes()[(address % 4) as usize])
        }
        _ => mem.read_byte(address),
    }
}

pub(crate) const LINK_BUSY: Undone = Undone::Faulty(Fault::LinkBusy);

/// Stores a first word, if there is one.
fn hold<M: Mem>(mem: &mut M, first: Option<(u32, u32)>) -> Result<(), Undone>
    ensures written { Writes (held first (M.bytes mem.old)) (first_ranges first) (M.kept mem.old) (M.bytes mem.old) result (M.bytes mem.new) }
    ensures kept { M.kept mem.new ≡ kept_after result (M.kept mem.old) (first_ranges first) }
{
    match first {
        None => Ok(()),
        Some((address, word)) => store(mem, address, word),
    }
}

/// Writes a word after a first one.
#[inline(always)]
fn store_behind<M: Mem>(
    mem: &mut M,
    first: Option<(u32, u32)>,
    address: u32,
    word: u32,
) -> Result<(), Undone>
    ensures written { Writes (stored_after first ((address, word) ∷ []) (M.bytes mem.old)) (first_ranges first ++ word_ranges ((address, word) ∷ [])) (M.kept mem.old) (M.bytes mem.old) result (M.bytes mem.new) }
    ensures kept { M.kept mem.new ≡ kept_after result (M.kept mem.old) (first_ranges first ++ word_ranges ((address, word) ∷ [])) }
{
    match first {
        None => store(mem, address, word),
        Some(first) => store_all(mem, &[first, (address, word)]),
    }
}

/// Whether a first word has its place in memory.
fn is_held<M: Mem>(mem: &M, first: Option<(u32, u32)>) -> bool
    ensures { result ≡ is_some (held first (M.bytes mem.now)) }
{
    match first {
        None => true,
        Some((address, _)) => mem.read_word(address).is_some(),
    }
}

/// Begins an output after a first word that is to be stored.
#[inline(always)]
#[tactic(auto, using(tp_cpu::proofs::Behind::behind))]
fn output_after<M: Mem>(
    engine: &mut OutEngine,
    cpu: &mut Cpu,
    mem: &mut M,
    first: Option<(u32, u32)>,
    request: OutRequest,
) -> Result<Option<Token>, Undone>
    ensures does { LinkEnds (output_after first request engine.old cpu.old (M.bytes mem.old)) (output_after_ranges first request cpu.old) (M.kept mem.old) cpu.old (M.bytes mem.old) engine.old result cpu.new (M.bytes mem.new) engine.new }
    ensures kept { M.kept mem.new ≡ kept_done result (M.kept mem.old) (output_after_ranges first request cpu.old) }
{
    let OutRequest { pointer, count, .. } = request;
    // Memory has whole words: its length says so.
    let _len = mem.len();
    if count == 0 {
        hold(mem, first)?;
        return Ok(None);
    }
    if !is_held(mem, first) {
        return Err(BAD_ADDRESS);
    }
    if engine.is_waiting() {
        return Err(LINK_BUSY);
    }
    if !mem.is_inside(pointer, count) {
        return Err(BAD_ADDRESS);
    }
    let Some(byte) = byte_after(mem, first, pointer) else {
        return Err(BAD_ADDRESS);
    };
    let message = Transfer {
        process: descriptor_of(cpu),
        pointer,
        left: count,
    };
    store_behind(mem, first, saved_at(cpu.wptr), cpu.iptr)?;
    end(cpu);
    match engine.start(message, byte) {
        Ok(token) => Ok(Some(token)),
        Err(_) => unreachable!(),
    }
}

/// Begins an output.
pub(crate) fn begin_output<M: Mem>(
    engine: &mut OutEngine,
    cpu: &mut Cpu,
    mem: &mut M,
    request: OutRequest,
) -> Result<Option<Token>, Undone>
    ensures does { LinkEnds (begin_output request engine.old cpu.old (M.bytes mem.old)) (begin_output_ranges request cpu.old) (M.kept mem.old) cpu.old (M.bytes mem.old) engine.old result cpu.new (M.bytes mem.new) engine.new }
    ensures kept { M.kept mem.new ≡ kept_done result (M.kept mem.old) (begin_output_ranges request cpu.old) }
{
    match request.word {
        None => output_after(engine, cpu, mem, None, request),
        Some(word) => output_after(engine, cpu, mem, Some((cpu.wptr, word)), request),
    }
}
