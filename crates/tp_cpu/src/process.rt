//! How a process starts, stops, makes room and is interrupted.

ghost use Rattle.std.specs.Prelude.{◌≡◌, [], ◌∷◌, option_to_list};
ghost use Rattle.tp_cpu.specs.Lower.{emptied, started, dispatch_high, dispatch_low, stopped, stop, counted, past, must_slice, sliced, jump, interrupt, restore, startp, runp, endp, kept_after, nowhere_ranges, stop_ranges, jump_ranges, interrupt_ranges, restore_ranges, startp_ranges, runp_ranges, endp_ranges};
ghost use Rattle.tp_cpu.specs.Room.{makes_room, makes_room_ranges};
ghost use Rattle.tp_cpu.specs.Ends.{Does};

use crate::access::{load, store, store_all};
use crate::queues::{NOT_PROCESS, enqueue, joined, link_write, queue, queue_write, rest_of_queue};
use crate::undone::Undone;
use crate::workspaces::{descriptor_of, is_low, saved_at, workspace};
use tp_mem::Mem;
use tp_model::{Cpu, Regs, State, limits};

/// How many instructions a low process has before it is sliced.
const SLICE: u16 = limits::SLICE as u16;

/// Clears A, B and C; Error stays.
#[inline(always)]
fn emptied(regs: Regs) -> Regs
    ensures { result ≡ emptied regs }
{
    Regs {
        a: 0,
        b: 0,
        c: 0,
        ..regs
    }
}

/// Starts the process of the workspace `front` in `state`, from where it had stopped.
#[inline(always)]
fn start<M: Mem>(cpu: &mut Cpu, mem: &M, front: u32, state: State) -> Result<(), Undone>
    ensures { Does (started front state) nowhere_ranges (M.kept mem.now) cpu.old (M.bytes mem.now) result cpu.new (M.bytes mem.now) }
{
    let iptr = load(mem, saved_at(front))?;
    cpu.iptr = iptr;
    cpu.wptr = workspace(front);
    cpu.regs = emptied(cpu.regs);
    cpu.state = state;
    Ok(())
}

/// Starts the process at the front of the high queue.
pub fn dispatch_high<M: Mem>(cpu: &mut Cpu, mem: &M) -> Result<(), Undone>
    ensures { Does dispatch_high nowhere_ranges (M.kept mem.now) cpu.old (M.bytes mem.now) result cpu.new (M.bytes mem.now) }
{
    let rest = rest_of_queue(cpu.high, mem)?;
    start(cpu, mem, cpu.high.front, State::High)?;
    cpu.high = rest;
    Ok(())
}

/// Starts the process at the front of the low queue, with a new slice.
pub fn dispatch_low<M: Mem>(cpu: &mut Cpu, mem: &M) -> Result<(), Undone>
    ensures { Does dispatch_low nowhere_ranges (M.kept mem.now) cpu.old (M.bytes mem.now) result cpu.new (M.bytes mem.now) }
{
    let rest = rest_of_queue(cpu.low, mem)?;
    start(cpu, mem, cpu.low.front, State::Low)?;
    cpu.low = rest;
    cpu.slice = 0;
    Ok(())
}

/// Ends the process that runs, and saves nothing.
#[inline]
pub fn end(cpu: &mut Cpu)
    ensures { cpu.new ≡ stopped cpu.old }
{
    cpu.iptr = 0;
    cpu.wptr = 0;
    cpu.regs = emptied(cpu.regs);
    cpu.state = State::Idle;
}

/// Stops the process that runs, to go on at the instruction pointer later.
pub fn stop<M: Mem>(cpu: &mut Cpu, mem: &mut M) -> Result<(), Undone>
    ensures does { Does stop stop_ranges (M.kept mem.old) cpu.old (M.bytes mem.old) result cpu.new (M.bytes mem.new) }
    ensures kept { M.kept mem.new ≡ kept_after result (M.kept mem.old) (stop_ranges cpu.old (M.bytes mem.old)) }
{
    store(mem, saved_at(cpu.wptr), cpu.iptr)?;
    end(cpu);
    Ok(())
}

/// Counts an instruction of a low process in its slice, up to the length of a slice.
#[inline(always)]
fn count(cpu: &mut Cpu)
    ensures { cpu.new ≡ counted cpu.old }
{
    if is_low(cpu) {
        cpu.slice = if cpu.slice < SLICE {
            cpu.slice + 1
        } else {
            SLICE
        };
    }
}

/// Moves the instruction pointer to `next`, after an instruction, which counts.
#[inline(always)]
pub fn pass(cpu: &mut Cpu, next: u32)
    ensures { cpu.new ≡ past next cpu.old }
{
    count(cpu);
    cpu.iptr = next;
}

/// Whether a low process runs and its slice is over.
#[inline(always)]
pub fn must_slice(cpu: &Cpu) -> bool
    ensures { result ≡ must_slice cpu.now }
{
    is_low(cpu) && cpu.slice >= SLICE
}

/// Puts the low process that runs at the back of its queue.
#[inline]
fn leave(cpu: &mut Cpu)
    ensures { cpu.new ≡ sliced cpu.old }
{
    cpu.low = joined(cpu.wptr, cpu.low);
    end(cpu);
}

/// Slices the low process that runs: it goes on at `to` later.
pub fn slice<M: Mem>(cpu: &mut Cpu, mem: &mut M, to: u32) -> Result<(), Undone>
    ensures does { Does (makes_room to []) (makes_room_ranges []) (M.kept mem.old) cpu.old (M.bytes mem.old) result cpu.new (M.bytes mem.new) }
    ensures kept { M.kept mem.new ≡ kept_after result (M.kept mem.old) (makes_room_ranges [] cpu.old (M.bytes mem.old)) }
{
    let saved = (saved_at(cpu.wptr), to);
    match link_write(cpu.wptr, cpu.low) {
        None => store_all(mem, &[saved])?,
        Some(link) => store_all(mem, &[saved, link])?,
    }
    leave(cpu);
    Ok(())
}

/// Jumps to `to`. A low process whose slice is over is sliced there.
#[inline(always)]
pub fn jump<M: Mem>(cpu: &mut Cpu, mem: &mut M, to: u32) -> Result<(), Undone>
    ensures does { Does (jump to []) (jump_ranges []) (M.kept mem.old) cpu.old (M.bytes mem.old) result cpu.new (M.bytes mem.new) }
    ensures kept { M.kept mem.new ≡ kept_after result (M.kept mem.old) (jump_ranges [] cpu.old (M.bytes mem.old)) }
{
    if must_slice(cpu) {
        return slice(cpu, mem, to);
    }
    cpu.iptr = to;
    Ok(())
}

/// Writes the two words of a loop, and then slices like `slice`.
fn slice_looping<M: Mem>(
    cpu: &mut Cpu,
    mem: &mut M,
    to: u32,
    count: (u32, u32),
    index: (u32, u32),
) -> Result<(), Undone>
    ensures does { Does (makes_room to (count ∷ index ∷ [])) (makes_room_ranges (count ∷ index ∷ [])) (M.kept mem.old) cpu.old (M.bytes mem.old) result cpu.new (M.bytes mem.new) }
    ensures kept { M.kept mem.new ≡ kept_after result (M.kept mem.old) (makes_room_ranges (count ∷ index ∷ []) cpu.old (M.bytes mem.old)) }
{
    let saved = (saved_at(cpu.wptr), to);
    match link_write(cpu.wptr, cpu.low) {
        None => store_all(mem, &[count, index, saved])?,
        Some(link) => store_all(mem, &[count, index, saved, link])?,
    }
    leave(cpu);
    Ok(())
}

/// Writes the two words of a loop, and then jumps like `jump`.
#[inline]
pub fn jump_looping<M: Mem>(
    cpu: &mut Cpu,
    mem: &mut M,
    to: u32,
    count: (u32, u32),
    index: (u32, u32),
) -> Result<(), Undone>
    ensures does { Does (jump to (count ∷ index ∷ [])) (jump_ranges (count ∷ index ∷ [])) (M.kept mem.old) cpu.old (M.bytes mem.old) result cpu.new (M.bytes mem.new) }
    ensures kept { M.kept mem.new ≡ kept_after result (M.kept mem.old) (jump_ranges (count ∷ index ∷ []) cpu.old (M.bytes mem.old)) }
{
    if must_slice(cpu) {
        return slice_looping(cpu, mem, to, count, index);
    }
    store_all(mem, &[count, index])?;
    cpu.iptr = to;
    Ok(())
}

/// Where an interrupted process is kept.
pub const KEPT_AT: u32 = 0x8000_002C;

/// Keeps the low process that runs, so that a high one can start.
pub fn interrupt<M: Mem>(cpu: &mut Cpu, mem: &mut M) -> Result<(), Undone>
    ensures does { Does interrupt interrupt_ranges (M.kept mem.old) cpu.old (M.bytes mem.old) result cpu.new (M.bytes mem.new) }
    ensures kept { M.kept mem.new ≡ kept_after result (M.kept mem.old) (interrupt_ranges cpu.old (M.bytes mem.old)) }
{
    let Regs { a, b, c, .. } = cpu.regs;
    store_all(
        mem,
        &[
            (KEPT_AT, descriptor_of(cpu)),
            (KEPT_AT + 4, cpu.iptr),
            (KEPT_AT + 8, a),
            (KEPT_AT + 12, b),
            (KEPT_AT + 16, c),
        ],
    )?;
    cpu.state = State::Idle;
    Ok(())
}

/// Goes on with the interrupted low process of `descriptor`.
pub fn restore<M: Mem>(cpu: &mut Cpu, mem: &mut M, descriptor: u32) -> Result<(), Undone>
    ensures does { Does (restore descriptor) restore_ranges (M.kept mem.old) cpu.old (M.bytes mem.old) result cpu.new (M.bytes mem.new) }
    ensures kept { M.kept mem.new ≡ kept_after result (M.kept mem.old) (restore_ranges cpu.old (M.bytes mem.old)) }
{
    let iptr = load(mem, KEPT_AT + 4)?;
    let a = load(mem, KEPT_AT + 8)?;
    let b = load(mem, KEPT_AT + 12)?;
    let c = load(mem, KEPT_AT + 16)?;
    store(mem, KEPT_AT, NOT_PROCESS)?;
    cpu.iptr = iptr;
    cpu.wptr = workspace(descriptor);
    cpu.regs = Regs {
        a,
        b,
        c,
        ..cpu.regs
    };
    cpu.state = State::Low;
    Ok(())
}

/// Does `startp`: queues a process with the workspace A that begins at N + B, at the priority of the process that runs. N is the next
/// instruction.
pub fn startp<M: Mem>(cpu: &mut Cpu, mem: &mut M) -> Result<(), Undone>
    ensures does { Does startp startp_ranges (M.kept mem.old) cpu.old (M.bytes mem.old) result cpu.new (M.bytes mem.new) }
    ensures kept { M.kept mem.new ≡ kept_after result (M.kept mem.old) (startp_ranges cpu.old (M.bytes mem.old)) }
{
    let Regs { a, b, .. } = cpu.regs;
    let process = workspace(a) + u32::from(is_low(cpu));
    let start = (saved_at(a), cpu.iptr.wrapping_add(b));
    match queue_write(process, cpu) {
        None => store_all(mem, &[start])?,
        Some(link) => store_all(mem, &[start, link])?,
    }
    queue(process, cpu);
    Ok(())
}

/// Does `runp`: queues the process of the descriptor A.
pub fn runp<M: Mem>(cpu: &mut Cpu, mem: &mut M) -> Result<(), Undone>
    ensures does { Does runp runp_ranges (M.kept mem.old) cpu.old (M.bytes mem.old) result cpu.new (M.bytes mem.new) }
    ensures kept { M.kept mem.new ≡ kept_after result (M.kept mem.old) (runp_ranges cpu.old (M.bytes mem.old)) }
{
    enqueue(cpu, mem, cpu.regs.a)
}

/// Does `endp`: counts down the word after A. The last process goes on for all, and each other one ends.
pub fn endp<M: Mem>(cpu: &mut Cpu, mem: &mut M) -> Result<(), Undone>
    ensures does { Does endp endp_ranges (M.kept mem.old) cpu.old (M.bytes mem.old) result cpu.new (M.bytes mem.new) }
    ensures kept { M.kept mem.new ≡ kept_after result (M.kept mem.old) (endp_ranges cpu.old (M.bytes mem.old)) }
{
    let a = cpu.regs.a;
    let count_at = a.wrapping_add(4);
    let count = load(mem, count_at)?;
    if count == 1 {
        let next = load(mem, a)?;
        store(mem, count_at, 0)?;
        cpu.iptr = next;
        cpu.wptr = workspace(a);
        return Ok(());
    }
    store(mem, count_at, count.wrapping_sub(1))?;
    end(cpu);
    Ok(())
}
