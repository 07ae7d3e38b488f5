//! The processes that wait at the links of a node.

ghost use Rattle.std.specs.Prelude.{◌≡◌};
ghost use Rattle.tp_node.specs.Waiters.{chooser, is_word, listener_at, resumes_at, sender_at};

use crate::memory::Memory;
use tp_cpu::{WAITING, saved_at, state_at, workspace};
use tp_mem::Mem;
use tp_model::{InEnd, OutEnd, Transfer};

/// What a process does at a link at which it waits.
#[derive(Clone, Copy, PartialEq, Eq)]
pub enum Deed {
    /// It sends: one of its bytes isn't acknowledged yet.
    Sends,
    /// It inputs: a byte is still to come.
    Inputs,
    /// It waits in an alternative that has the link as a branch.
    Chooses,
}

/// A process that waits at an end of a link.
#[derive(Clone, Copy, PartialEq, Eq)]
pub struct Waiter {
    pub deed: Deed,
    /// Its descriptor.
    pub process: u32,
    /// The address of the instruction at which it goes on; `None` if the word that has it is outside memory.
    pub resumes: Option<u32>,
    /// How many bytes of its message are left; 0 for an alternative.
    pub left: u32,
}

/// Where a process that has stopped goes on.
fn resumes_at(memory: &Memory, process: u32) -> Option<u32>
    ensures { result ≡ resumes_at memory.now.live process }
{
    memory.read_word(saved_at(workspace(process)))
}

/// Whether there is a word, and it is this one.
fn is_word(found: Option<u32>, word: u32) -> bool
    ensures { result ≡ is_word found word }
{
    match found {
        Some(found) => found == word,
        None => false,
    }
}

/// A process with a message under way.
fn with_message(memory: &Memory, deed: Deed, transfer: Transfer) -> Waiter
    ensures { result ≡ record { deed = deed; process = transfer.process; resumes = resumes_at memory.now.live transfer.process; left = transfer.left } }
{
    Waiter {
        deed,
        process: transfer.process,
        resumes: resumes_at(memory, transfer.process),
        left: transfer.left,
    }
}

/// Gives the process whose alternative enabled an end; `None` if it doesn't wait in it.
fn chooser(memory: &Memory, process: u32) -> Option<Waiter>
    ensures { result ≡ chooser memory.now.live process }
{
    let state = memory.read_word(state_at(workspace(process)));
    if is_word(state, WAITING) {
        Some(Waiter {
            deed: Deed::Chooses,
            process,
            resumes: resumes_at(memory, process),
            left: 0,
        })
    } else {
        None
    }
}

/// Gives the process that waits at an output end; `None` if none does.
pub(crate) fn sender_at(memory: &Memory, end: OutEnd) -> Option<Waiter>
    ensures { result ≡ sender_at memory.now.live end }
{
    match end {
        OutEnd::Idle => None,
        OutEnd::Waits(transfer) => Some(with_message(memory, Deed::Sends, transfer)),
    }
}

/// Gives the process that waits at an input end; `None` if none does.
pub(crate) fn listener_at(memory: &Memory, end: InEnd) -> Option<Waiter>
    ensures { result ≡ listener_at memory.now.live end }
{
    match end {
        InEnd::Idle(_) => None,
        InEnd::Inputs(transfer) => Some(with_message(memory, Deed::Inputs, transfer)),
        InEnd::Enabled(process) => chooser(memory, process),
    }
}
