//! The processor: instructions as bytes, processes and their channels, and one step at a time.
#![tactic(auto)]

mod access;
mod advancing;
mod after;
mod alternative;
mod arithmetic;
mod channel;
mod decoding;
mod doing;
mod effect;
mod encoding;
mod fetch;
mod known;
mod laws;
mod learning;
mod operation;
mod piece;
mod plain;
mod plain_channel;
mod plain_operation;
mod process;
mod queues;
mod rows;
mod running;
mod spelling;
mod stack;
mod stepping;
mod undone;
mod waiting;
mod workspaces;

pub use access::{change, load, store, store_all};
pub use advancing::advance;
pub use alternative::{
    ENABLING, NONE_CHOSEN, READY, WAITING, alt, altwt, choose, diss, drop_b, enbs, is_alternative,
    note_choice, pass_over,
};
pub use channel::{alt_disable, alt_enable, chan_in, chan_out, chan_out_word, channel_at};
pub use decoding::{Decoder, decode, filled, fun_at, op_at, prefixed};
pub use encoding::encode;
pub use known::Runs;
pub use laws::{encoding_reads_back, no_spelling_is_shorter, reading_is_exact};
pub use process::{
    KEPT_AT, dispatch_high, dispatch_low, end, endp, interrupt, jump, jump_looping, must_slice,
    pass, restore, runp, slice, startp, stop,
};
pub use queues::{NOT_PROCESS, enqueue, queue, queue_write};
pub use rows::{fun_row, op_row, register_row, registers};
pub use stack::{pop, push, set_a};
pub use stepping::step;
pub use tp_model::{DecodeFault, Fun, Instr, Op, Regs};
pub use undone::{BAD_ADDRESS, Undone};
pub use workspaces::{
    descriptor_of, has_low_priority, is_low, link_at, saved_at, state_at, workspace,
};
