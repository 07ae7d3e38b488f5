//! The two queues of processes that are ready.

ghost use Rattle.std.specs.Prelude.{◌≡◌, option_to_list};
ghost use Rattle.tp_cpu.specs.Lower.{stored, leaves, link_writes, joined, queue_writes, queued, rest_of_queue, word_ranges, kept_after};
ghost use Rattle.tp_cpu.specs.Ends.{Does, Finds};

use crate::access::{load, store};
use crate::undone::Undone;
use crate::workspaces::{has_low_priority, link_at, workspace};
use tp_mem::Mem;
use tp_model::{Cpu, Queue};

/// The word that names no process.
pub const NOT_PROCESS: u32 = 0x8000_0000;

/// Gives the write that links `wptr` to the back of a queue; `None` if the queue is empty.
#[inline(always)]
pub(crate) fn link_write(wptr: u32, queue: Queue) -> Option<(u32, u32)>
    ensures { option_to_list result ≡ link_writes wptr queue }
{
    if queue.front == NOT_PROCESS {
        None
    } else {
        Some((link_at(queue.back), wptr))
    }
}

/// Gives the queue with a process at its back.
#[inline(always)]
pub(crate) fn joined(wptr: u32, queue: Queue) -> Queue
    ensures { result ≡ joined wptr queue }
{
    if queue.front == NOT_PROCESS {
        Queue {
            front: wptr,
            back: wptr,
        }
    } else {
        Queue {
            back: wptr,
            ..queue
        }
    }
}

/// Gives the write that links the process of `descriptor` into the queue of its priority; `None` if that is empty.
#[inline]
pub fn queue_write(descriptor: u32, cpu: &Cpu) -> Option<(u32, u32)>
    ensures { option_to_list result ≡ queue_writes descriptor cpu.now }
{
    if has_low_priority(descriptor) {
        link_write(workspace(descriptor), cpu.low)
    } else {
        link_write(workspace(descriptor), cpu.high)
    }
}

/// Puts the process of `descriptor` at the back of the queue of its priority, without writing the link.
#[inline]
pub fn queue(descriptor: u32, cpu: &mut Cpu)
    ensures { cpu.new ≡ queued descriptor cpu.old }
{
    if has_low_priority(descriptor) {
        cpu.low = joined(workspace(descriptor), cpu.low);
    } else {
        cpu.high = joined(workspace(descriptor), cpu.high);
    }
}

/// Queues the process of `descriptor`, with its link in memory.
pub fn enqueue<M: Mem>(cpu: &mut Cpu, mem: &mut M, descriptor: u32) -> Result<(), Undone>
    ensures does { Does (λ cpu memory. leaves (stored memory (queue_writes descriptor cpu)) (queued descriptor cpu)) (λ cpu memory. word_ranges (queue_writes descriptor cpu)) (M.kept mem.old) cpu.old (M.bytes mem.old) result cpu.new (M.bytes mem.new) }
    ensures kept { M.kept mem.new ≡ kept_after result (M.kept mem.old) (word_ranges (queue_writes descriptor cpu.old)) }
{
    if let Some((address, word)) = queue_write(descriptor, cpu) {
        store(mem, address, word)?;
    }
    queue(descriptor, cpu);
    Ok(())
}

/// Gives the queue once its front process has left it. `BadAddress` if the link is outside memory.
#[inline(always)]
pub(crate) fn rest_of_queue<M: Mem>(queue: Queue, mem: &M) -> Result<Queue, Undone>
    ensures { Finds (rest_of_queue queue (M.bytes mem.now)) result }
{
    if queue.front == queue.back {
        return Ok(Queue {
            front: NOT_PROCESS,
            ..queue
        });
    }
    let next = load(mem, link_at(queue.front))?;
    Ok(Queue {
        front: next,
        ..queue
    })
}
