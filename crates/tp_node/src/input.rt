//! What an instruction does at the input end of a link.

ghost use Rattle.std.specs.Prelude.{◌≡◌, ◌++◌, option_and_then};
ghost use Rattle.tp_node.specs.Lower.{stored, in_started, in_enabled, in_disabled, message, with_byte, take_up, enabled, disabled, begin_input, descriptor_of, word_ranges, kept_after, byte_written, take_up_ranges, enabled_ranges, disabled_ranges, begin_input_ranges, Writes};
ghost use Rattle.tp_node.specs.LinkEnds.{LinkEnds, kept_done};

use crate::InEngine;
use crate::output::LINK_BUSY;
use tp_cpu::{
    BAD_ADDRESS, NONE_CHOSEN, READY, Undone, descriptor_of, drop_b, end, load, note_choice,
    pass_over, saved_at, state_at, store, store_all,
};
use tp_mem::{Mem, WriteFault};
use tp_model::{Cpu, Token, Transfer, Wish};

/// Puts a byte at an address, if there is one, and then writes words.
fn put<M: Mem>(
    mem: &mut M,
    address: u32,
    byte: Option<u8>,
    writes: &[(u32, u32)],
) -> Result<(), Undone>
    ensures written { Writes (option_and_then (λ m. stored m writes.now) (with_byte byte address (M.bytes mem.old))) (byte_written byte address ++ word_ranges writes.now) (M.kept mem.old) (M.bytes mem.old) result (M.bytes mem.new) }
    ensures kept { M.kept mem.new ≡ kept_after result (M.kept mem.old) (byte_written byte address ++ word_ranges writes.now) }
{
    let Some(byte) = byte else {
        return store_all(mem, writes);
    };
    match mem.change_byte(address, byte, writes) {
        Ok(()) => Ok(()),
        Err(WriteFault::Outside) => Err(BAD_ADDRESS),
        Err(WriteFault::NoFrame) => Err(Undone::NoFrame),
    }
}

/// Begins a message of some bytes.
fn take_up<M: Mem>(
    engine: &mut InEngine,
    cpu: &mut Cpu,
    mem: &mut M,
    pointer: u32,
    count: u32,
) -> Result<Option<Token>, Undone>
    ensures does { LinkEnds (take_up (in_started (message pointer count cpu.old) engine.old) pointer count cpu.old (M.bytes mem.old)) (take_up_ranges (in_started (message pointer count cpu.old) engine.old) pointer cpu.old) (M.kept mem.old) cpu.old (M.bytes mem.old) engine.old result cpu.new (M.bytes mem.new) engine.new }
    ensures kept { M.kept mem.new ≡ kept_done result (M.kept mem.old) (take_up_ranges (in_started (message pointer count cpu.old) engine.old) pointer cpu.old) }
{
    let message = Transfer {
        process: descriptor_of(cpu),
        pointer,
        left: count,
    };
    let mut begun = *engine;
    let Ok(started) = begun.start(message) else {
        return Err(LINK_BUSY);
    };
    if !mem.is_inside(pointer, count) {
        return Err(BAD_ADDRESS);
    }
    if !started.waits {
        put(mem, pointer, started.byte, &[])?;
        *engine = begun;
        return Ok(started.token);
    }
    put(
        mem,
        pointer,
        started.byte,
        &[(saved_at(cpu.wptr), cpu.iptr)],
    )?;
    end(cpu);
    *engine = begun;
    Ok(started.token)
}

/// Begins a guard.
fn enable<M: Mem>(
    engine: &mut InEngine,
    cpu: &mut Cpu,
    mem: &mut M,
) -> Result<Option<Token>, Undone>
    ensures does { LinkEnds (enabled (in_enabled (descriptor_of cpu.old) engine.old) cpu.old (M.bytes mem.old)) (enabled_ranges (in_enabled (descriptor_of cpu.old) engine.old) cpu.old) (M.kept mem.old) cpu.old (M.bytes mem.old) engine.old result cpu.new (M.bytes mem.new) engine.new }
    ensures kept { M.kept mem.new ≡ kept_done result (M.kept mem.old) (enabled_ranges (in_enabled (descriptor_of cpu.old) engine.old) cpu.old) }
{
    let mut guarded = *engine;
    let Ok(is_held) = guarded.enable(descriptor_of(cpu)) else {
        return Err(LINK_BUSY);
    };
    if is_held {
        store(mem, state_at(cpu.wptr), READY)?;
    }
    drop_b(cpu);
    *engine = guarded;
    Ok(None)
}

/// Ends a guard.
fn disable<M: Mem>(
    engine: &mut InEngine,
    cpu: &mut Cpu,
    mem: &mut M,
) -> Result<Option<Token>, Undone>
    ensures does { LinkEnds (disabled (in_disabled (descriptor_of cpu.old) engine.old) cpu.old (M.bytes mem.old)) (disabled_ranges (in_disabled (descriptor_of cpu.old) engine.old) cpu.old (M.bytes mem.old)) (M.kept mem.old) cpu.old (M.bytes mem.old) engine.old result cpu.new (M.bytes mem.new) engine.new }
    ensures kept { M.kept mem.new ≡ kept_done result (M.kept mem.old) (disabled_ranges (in_disabled (descriptor_of cpu.old) engine.old) cpu.old (M.bytes mem.old)) }
{
    let mut guarded = *engine;
    let Ok(is_held) = guarded.disable(descriptor_of(cpu)) else {
        return Err(LINK_BUSY);
    };
    if !is_held {
        pass_over(cpu);
        *engine = guarded;
        return Ok(None);
    }
    let word = load(mem, cpu.wptr)?;
    if word == NONE_CHOSEN {
        store(mem, cpu.wptr, cpu.regs.a)?;
    }
    note_choice(word, cpu);
    *engine = guarded;
    Ok(None)
}

/// Does what an instruction asks of an input end.
pub(crate) fn begin_input<M: Mem>(
    engine: &mut InEngine,
    cpu: &mut Cpu,
    mem: &mut M,
    wish: Wish,
) -> Result<Option<Token>, Undone>
    ensures does { LinkEnds (begin_input wish engine.old cpu.old (M.bytes mem.old)) (begin_input_ranges wish engine.old cpu.old (M.bytes mem.old)) (M.kept mem.old) cpu.old (M.bytes mem.old) engine.old result cpu.new (M.bytes mem.new) engine.new }
    ensures kept { M.kept mem.new ≡ kept_done result (M.kept mem.old) (begin_input_ranges wish engine.old cpu.old (M.bytes mem.old)) }
{
    match wish {
        Wish::Message { count: 0, .. } => Ok(None),
        Wish::Message { pointer, count } => take_up(engine, cpu, mem, pointer, count),
        Wish::Enable => enable(engine, cpu, mem),
        Wish::Disable => disable(engine, cpu, mem),
    }
}
