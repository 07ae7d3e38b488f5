//! What a step does.

use tp_model::{DecodeFault, Instr};

/// What the next step of a node that has one does, as docs/MACHINE.md tells the cases apart.
#[derive(Clone, Copy)]
pub enum Act {
    /// The running process makes an instruction, or halts the node at bytes that are no instruction.
    Instruction(Result<Instr, DecodeFault>),
    /// The low process that runs is kept, since a high one is ready.
    Interrupt,
    /// The first process of the high queue begins to run.
    DispatchHigh,
    /// The low process that was interrupted goes on.
    Restore,
    /// The first process of the low queue begins to run.
    DispatchLow,
}
