//! Workspaces and descriptors of processes.

ghost use Rattle.std.specs.Prelude.{◌≡◌};
ghost use Rattle.tp_model.specs.Processor.{workspace, has_low_priority, saved_at, link_at, state_at, is_low, descriptor_of};

use tp_model::{Cpu, State};

/// Gives the workspace of `descriptor`.
#[inline(always)]
pub fn workspace(descriptor: u32) -> u32
    ensures { result ≡ workspace descriptor }
{
    descriptor / 4 * 4
}

/// Whether `descriptor` names a low process.
#[inline(always)]
pub fn has_low_priority(descriptor: u32) -> bool
    ensures { result ≡ has_low_priority descriptor }
{
    descriptor % 2 == 1
}

/// Gives the address of word -1, where a stopped process has its instruction pointer.
#[inline(always)]
pub fn saved_at(wptr: u32) -> u32
    ensures { result ≡ saved_at wptr }
{
    wptr.wrapping_sub(4)
}

/// Gives the address of word -2, where a queued process names the next one.
#[inline(always)]
pub fn link_at(wptr: u32) -> u32
    ensures { result ≡ link_at wptr }
{
    wptr.wrapping_sub(8)
}

/// Gives the address of word -3, where a process has its message's pointer or the state of its alternative.
#[inline(always)]
pub fn state_at(wptr: u32) -> u32
    ensures { result ≡ state_at wptr }
{
    wptr.wrapping_sub(12)
}

/// Whether a low process runs.
#[inline(always)]
pub fn is_low(cpu: &Cpu) -> bool
    ensures { result ≡ is_low cpu.now }
{
    match cpu.state {
        State::Low => true,
        _ => false,
    }
}

/// Gives the descriptor of the process that runs.
#[inline(always)]
pub fn descriptor_of(cpu: &Cpu) -> u32
    ensures { result ≡ descriptor_of cpu.now }
{
    cpu.wptr.wrapping_add(u32::from(is_low(cpu)))
}
