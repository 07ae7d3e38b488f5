//! Channels: two processes meet at a word of memory.

ghost use Rattle.std.specs.Prelude.{◌≡◌, ◌++◌};
ghost use Rattle.tp_cpu.specs.Lower.{signal_writes, channel_at, wait_writes, waits_first, meets, waits_for_alternative, input, output, input_at, output_at, output_word_at, enable, enable_at, disable, disable_at, word_ranges, kept_after, waits_first_ranges, meets_ranges, waits_for_alternative_ranges, input_ranges, output_ranges, input_at_ranges, output_at_ranges, output_word_at_ranges, enable_ranges, enable_at_ranges, disable_ranges, disable_at_ranges};
ghost use Rattle.tp_cpu.specs.After.{after, stored_after};
ghost use Rattle.tp_cpu.specs.AfterWrites.{first_ranges, after_ranges};
ghost use Rattle.tp_cpu.specs.Ends.{Does, Writes};

use crate::access::{load, store};
use crate::after::{change_after, load_after, store_after};
use crate::alternative::{
    ENABLING, READY, WAITING, choose, drop_b, is_alternative, pass_over, signal,
};
use crate::process::end;
use crate::queues::{NOT_PROCESS, queue, queue_write};
use crate::undone::{BAD_ADDRESS, Undone};
use crate::workspaces::{descriptor_of, saved_at, state_at, workspace};
use tp_mem::{FIRST_ADDRESS, Mem};
use tp_model::{ChannelWord, Cpu, InRequest, OutRequest, Regs, Wish};

/// Says what the address of a channel names: an output link, an input link or a word of memory.
#[inline(always)]
pub fn channel_at(address: u32) -> ChannelWord
    ensures { result ≡ channel_at address }
{
    let at = (address / 4 * 4).wrapping_sub(FIRST_ADDRESS);
    if at < 16 {
        ChannelWord::Output((at / 4) as u8)
    } else if at < 32 {
        ChannelWord::Input(((at - 16) / 4) as u8)
    } else {
        ChannelWord::Internal
    }
}

/// A message on a channel that is a word of memory: `count` bytes, to or from `pointer`.
#[derive(Clone, Copy)]
struct Message {
    channel: u32,
    pointer: u32,
    count: u32,
}

/// A block of bytes to be copied.
#[derive(Clone, Copy)]
struct Block {
    to: u32,
    from: u32,
    count: u32,
}

/// Waits as the first process at a channel.
#[tactic(auto, using(crate::proofs::Behind::behind))]
fn waits_first<M: Mem>(
    cpu: &mut Cpu,
    mem: &mut M,
    first: Option<(u32, u32)>,
    message: Message,
) -> Result<(), Undone>
    ensures does { Does (after first (waits_first message.channel message.pointer message.count)) (after_ranges first (waits_first_ranges message.channel message.pointer)) (M.kept mem.old) cpu.old (M.bytes mem.old) result cpu.new (M.bytes mem.new) }
    ensures kept { M.kept mem.new ≡ kept_after result (M.kept mem.old) (after_ranges first (waits_first_ranges message.channel message.pointer) cpu.old (M.bytes mem.old)) }
{
    // Memory has whole words: its length says so.
    let _len = mem.len();
    if !mem.is_inside(message.pointer, message.count) {
        return Err(BAD_ADDRESS);
    }
    store_after(
        mem,
        first,
        &[
            (message.channel, descriptor_of(cpu)),
            (state_at(cpu.wptr), message.pointer),
            (saved_at(cpu.wptr), cpu.iptr),
        ],
    )?;
    end(cpu);
    Ok(())
}

/// Meets the first process at a channel: copies the message, queues the first process and goes on.
#[tactic(auto, using(crate::proofs::Behind::behind))]
fn meets<M: Mem>(
    cpu: &mut Cpu,
    mem: &mut M,
    first: Option<(u32, u32)>,
    block: Block,
    channel: u32,
    partner: u32,
) -> Result<(), Undone>
    ensures does { Does (after first (meets block.to block.from block.count channel partner)) (after_ranges first (meets_ranges block.to block.count channel partner)) (M.kept mem.old) cpu.old (M.bytes mem.old) result cpu.new (M.bytes mem.new) }
    ensures kept { M.kept mem.new ≡ kept_after result (M.kept mem.old) (after_ranges first (meets_ranges block.to block.count channel partner) cpu.old (M.bytes mem.old)) }
{
    let Block { to, from, count } = block;
    let empty = (channel, NOT_PROCESS);
    match queue_write(partner, cpu) {
        None => change_after(mem, first, to, from, count, &[empty])?,
        Some(link) => change_after(mem, first, to, from, count, &[empty, link])?,
    }
    queue(partner, cpu);
    Ok(())
}

/// Writes what an output leaves if it finds an alternative in this state.
#[tactic(auto, using(crate::proofs::Behind::signals))]
fn write_signal<M: Mem>(
    cpu: &Cpu,
    mem: &mut M,
    first: Option<(u32, u32)>,
    message: Message,
    state: u32,
    partner: u32,
) -> Result<(), Undone>
    ensures written { Writes (stored_after first (signal_writes state partner cpu.now ++ wait_writes message.channel message.pointer cpu.now) (M.bytes mem.old)) (first_ranges first ++ word_ranges (signal_writes state partner cpu.now ++ wait_writes message.channel message.pointer cpu.now)) (M.kept mem.old) (M.bytes mem.old) result (M.bytes mem.new) }
    ensures kept { M.kept mem.new ≡ kept_after result (M.kept mem.old) (first_ranges first ++ word_ranges (signal_writes state partner cpu.now ++ wait_writes message.channel message.pointer cpu.now)) }
{
    let ready = (state_at(workspace(partner)), READY);
    let own = (message.channel, descriptor_of(cpu));
    let pointer = (state_at(cpu.wptr), message.pointer);
    let saved = (saved_at(cpu.wptr), cpu.iptr);
    if state == ENABLING {
        return store_after(mem, first, &[ready, own, pointer, saved]);
    }
    if state == WAITING {
        return match queue_write(partner, cpu) {
            None => store_after(mem, first, &[ready, own, pointer, saved]),
            Some(link) => store_after(mem, first, &[ready, link, own, pointer, saved]),
        };
    }
    store_after(mem, first, &[own, pointer, saved])
}

/// Makes the alternative that an output found ready, and waits.
#[tactic(auto, using(crate::proofs::Behind::behind))]
fn waits_for_alternative<M: Mem>(
    cpu: &mut Cpu,
    mem: &mut M,
    first: Option<(u32, u32)>,
    message: Message,
    state: u32,
    partner: u32,
) -> Result<(), Undone>
    ensures does { Does (after first (waits_for_alternative state partner message.channel message.pointer message.count)) (after_ranges first (waits_for_alternative_ranges state partner message.channel message.pointer)) (M.kept mem.old) cpu.old (M.bytes mem.old) result cpu.new (M.bytes mem.new) }
    ensures kept { M.kept mem.new ≡ kept_after result (M.kept mem.old) (after_ranges first (waits_for_alternative_ranges state partner message.channel message.pointer) cpu.old (M.bytes mem.old)) }
{
    // Memory has whole words: its length says so.
    let _len = mem.len();
    if !mem.is_inside(message.pointer, message.count) {
        return Err(BAD_ADDRESS);
    }
    write_signal(cpu, mem, first, message, state, partner)?;
    signal(state, partner, cpu);
    end(cpu);
    Ok(())
}

/// Inputs a message.
fn input<M: Mem>(cpu: &mut Cpu, mem: &mut M, message: Message) -> Result<(), Undone>
    ensures does { Does (input message.count message.channel message.pointer) (input_ranges message.count message.channel message.pointer) (M.kept mem.old) cpu.old (M.bytes mem.old) result cpu.new (M.bytes mem.new) }
    ensures kept { M.kept mem.new ≡ kept_after result (M.kept mem.old) (input_ranges message.count message.channel message.pointer cpu.old (M.bytes mem.old)) }
{
    let channel = message.channel;
    let partner = load(mem, channel)?;
    if partner == NOT_PROCESS {
        return waits_first(cpu, mem, None, message);
    }
    let block = Block {
        to: message.pointer,
        from: load(mem, state_at(workspace(partner)))?,
        count: message.count,
    };
    meets(cpu, mem, None, block, channel, partner)
}

/// Stores the first word, if there is one, and outputs a message.
#[tactic(auto, using(crate::proofs::Behind::behind))]
fn output<M: Mem>(
    cpu: &mut Cpu,
    mem: &mut M,
    first: Option<(u32, u32)>,
    message: Message,
) -> Result<(), Undone>
    ensures does { Does (after first (output message.count message.channel message.pointer)) (after_ranges first (output_ranges message.count message.channel message.pointer)) (M.kept mem.old) cpu.old (M.bytes mem.old) result cpu.new (M.bytes mem.new) }
    ensures kept { M.kept mem.new ≡ kept_after result (M.kept mem.old) (after_ranges first (output_ranges message.count message.channel message.pointer) cpu.old (M.bytes mem.old)) }
{
    let channel = message.channel;
    let partner = load_after(mem, first, channel)?;
    if partner == NOT_PROCESS {
        return waits_first(cpu, mem, first, message);
    }
    let to = load_after(mem, first, state_at(workspace(partner)))?;
    if is_alternative(to) {
        return waits_for_alternative(cpu, mem, first, message, to, partner);
    }
    let block = Block {
        to,
        from: message.pointer,
        count: message.count,
    };
    meets(cpu, mem, first, block, channel, partner)
}

/// Does `in`: count A, channel B, pointer C.
#[inline(always)]
pub fn chan_in<M: Mem>(cpu: &mut Cpu, mem: &mut M) -> Result<(), Undone>
    ensures does { Does (λ cpu. input_at (channel_at cpu.regs.b) cpu) (λ cpu. input_at_ranges (channel_at cpu.regs.b) cpu) (M.kept mem.old) cpu.old (M.bytes mem.old) result cpu.new (M.bytes mem.new) }
    ensures kept { M.kept mem.new ≡ kept_after result (M.kept mem.old) (input_at_ranges (channel_at cpu.old.regs.b) cpu.old (M.bytes mem.old)) }
{
    let Regs { a, b, c, .. } = cpu.regs;
    match channel_at(b) {
        ChannelWord::Output(_) => Err(BAD_ADDRESS),
        ChannelWord::Input(link) => Err(Undone::Wants(InRequest {
            link,
            wish: Wish::Message {
                pointer: c,
                count: a,
            },
            next: cpu.iptr,
        })),
        ChannelWord::Internal => input(
            cpu,
            mem,
            Message {
                channel: b,
                pointer: c,
                count: a,
            },
        ),
    }
}

/// Does `out`: count A, channel B, pointer C.
#[inline(always)]
pub fn chan_out<M: Mem>(cpu: &mut Cpu, mem: &mut M) -> Result<(), Undone>
    ensures does { Does (λ cpu. output_at (channel_at cpu.regs.b) cpu) (λ cpu. output_at_ranges (channel_at cpu.regs.b) cpu) (M.kept mem.old) cpu.old (M.bytes mem.old) result cpu.new (M.bytes mem.new) }
    ensures kept { M.kept mem.new ≡ kept_after result (M.kept mem.old) (output_at_ranges (channel_at cpu.old.regs.b) cpu.old (M.bytes mem.old)) }
{
    let Regs { a, b, c, .. } = cpu.regs;
    match channel_at(b) {
        ChannelWord::Output(link) => Err(Undone::Asks(OutRequest {
            link,
            pointer: c,
            count: a,
            word: None,
            next: cpu.iptr,
        })),
        ChannelWord::Input(_) => Err(BAD_ADDRESS),
        ChannelWord::Internal => output(
            cpu,
            mem,
            None,
            Message {
                channel: b,
                pointer: c,
                count: a,
            },
        ),
    }
}

/// Does `outbyte` or `outword`: stores A at the workspace, and outputs `count` bytes of it, 1 or 4, on the channel B.
pub fn chan_out_word<M: Mem>(cpu: &mut Cpu, mem: &mut M, count: u32) -> Result<(), Undone>
    ensures does { Does (λ cpu. output_word_at (channel_at cpu.regs.b) count cpu) (λ cpu. output_word_at_ranges (channel_at cpu.regs.b) count cpu) (M.kept mem.old) cpu.old (M.bytes mem.old) result cpu.new (M.bytes mem.new) }
    ensures kept { M.kept mem.new ≡ kept_after result (M.kept mem.old) (output_word_at_ranges (channel_at cpu.old.regs.b) count cpu.old (M.bytes mem.old)) }
{
    let Regs { a, b, .. } = cpu.regs;
    let wptr = cpu.wptr;
    match channel_at(b) {
        ChannelWord::Output(link) => Err(Undone::Asks(OutRequest {
            link,
            pointer: wptr,
            count,
            word: Some(a),
            next: cpu.iptr,
        })),
        ChannelWord::Input(_) => Err(BAD_ADDRESS),
        ChannelWord::Internal => output(
            cpu,
            mem,
            Some((wptr, a)),
            Message {
                channel: b,
                pointer: wptr,
                count,
            },
        ),
    }
}

/// Enables a branch that waits for an output on a word of memory.
fn enable<M: Mem>(cpu: &mut Cpu, mem: &mut M) -> Result<(), Undone>
    ensures does { Does enable enable_ranges (M.kept mem.old) cpu.old (M.bytes mem.old) result cpu.new (M.bytes mem.new) }
    ensures kept { M.kept mem.new ≡ kept_after result (M.kept mem.old) (enable_ranges cpu.old (M.bytes mem.old)) }
{
    let channel = cpu.regs.b;
    let own = descriptor_of(cpu);
    let partner = load(mem, channel)?;
    if partner == NOT_PROCESS {
        store(mem, channel, own)?;
    } else if partner != own {
        store(mem, state_at(cpu.wptr), READY)?;
    }
    drop_b(cpu);
    Ok(())
}

/// Does `enbc`: guard A, channel B.
pub fn alt_enable<M: Mem>(cpu: &mut Cpu, mem: &mut M) -> Result<(), Undone>
    ensures does { Does (λ cpu. enable_at (channel_at cpu.regs.b) cpu) (λ cpu. enable_at_ranges (channel_at cpu.regs.b) cpu) (M.kept mem.old) cpu.old (M.bytes mem.old) result cpu.new (M.bytes mem.new) }
    ensures kept { M.kept mem.new ≡ kept_after result (M.kept mem.old) (enable_at_ranges (channel_at cpu.old.regs.b) cpu.old (M.bytes mem.old)) }
{
    let Regs { a, b, .. } = cpu.regs;
    match channel_at(b) {
        ChannelWord::Output(_) => Err(BAD_ADDRESS),
        _ if a == 0 => {
            drop_b(cpu);
            Ok(())
        }
        ChannelWord::Input(link) => Err(Undone::Wants(InRequest {
            link,
            wish: Wish::Enable,
            next: cpu.iptr,
        })),
        ChannelWord::Internal => enable(cpu, mem),
    }
}

/// Disables a branch that waits for an output on a word of memory.
fn disable<M: Mem>(cpu: &mut Cpu, mem: &mut M) -> Result<(), Undone>
    ensures does { Does disable disable_ranges (M.kept mem.old) cpu.old (M.bytes mem.old) result cpu.new (M.bytes mem.new) }
    ensures kept { M.kept mem.new ≡ kept_after result (M.kept mem.old) (disable_ranges cpu.old (M.bytes mem.old)) }
{
    let channel = cpu.regs.c;
    let partner = load(mem, channel)?;
    if partner == NOT_PROCESS {
        pass_over(cpu);
        return Ok(());
    }
    if partner == descriptor_of(cpu) {
        store(mem, channel, NOT_PROCESS)?;
        pass_over(cpu);
        return Ok(());
    }
    choose(cpu, mem)
}

/// Does `disc`: offset A, guard B, channel C.
pub fn alt_disable<M: Mem>(cpu: &mut Cpu, mem: &mut M) -> Result<(), Undone>
    ensures does { Does (λ cpu. disable_at (channel_at cpu.regs.c) cpu) (λ cpu. disable_at_ranges (channel_at cpu.regs.c) cpu) (M.kept mem.old) cpu.old (M.bytes mem.old) result cpu.new (M.bytes mem.new) }
    ensures kept { M.kept mem.new ≡ kept_after result (M.kept mem.old) (disable_at_ranges (channel_at cpu.old.regs.c) cpu.old (M.bytes mem.old)) }
{
    let Regs { b, c, .. } = cpu.regs;
    match channel_at(c) {
        ChannelWord::Output(_) => Err(BAD_ADDRESS),
        _ if b == 0 => {
            pass_over(cpu);
            Ok(())
        }
        ChannelWord::Input(link) => Err(Undone::Wants(InRequest {
            link,
            wish: Wish::Disable,
            next: cpu.iptr,
        })),
        ChannelWord::Internal => disable(cpu, mem),
    }
}
