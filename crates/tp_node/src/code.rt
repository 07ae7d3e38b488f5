//! Halt codes and what runs, as bytes.

ghost use Rattle.std.specs.Prelude.{◌≡◌};
ghost use Rattle.tp_model.specs.Image.{halt_byte, halt_of, state_byte, state_of};

use tp_model::{Fault, State};

/// Gives the byte that says in an image why a node halted: 0 if it runs.
pub fn halt_byte(halt: Option<Fault>) -> u8
    ensures { result ≡ halt_byte halt }
{
    match halt {
        None => 0,
        Some(Fault::BadAddress) => 1,
        Some(Fault::UnknownOp) => 2,
        Some(Fault::LongPrefix) => 3,
        Some(Fault::LinkBusy) => 4,
    }
}

pub(crate) fn halt_of(byte: u8) -> Option<Fault>
    ensures { result ≡ halt_of byte }
{
    match byte {
        0 => None,
        1 => Some(Fault::BadAddress),
        2 => Some(Fault::UnknownOp),
        3 => Some(Fault::LongPrefix),
        _ => Some(Fault::LinkBusy),
    }
}

pub(crate) fn state_byte(state: State) -> u8
    ensures { result ≡ state_byte state }
{
    match state {
        State::Idle => 0,
        State::High => 1,
        State::Low => 2,
    }
}

pub(crate) fn state_of(byte: u8) -> State
    ensures { result ≡ state_of byte }
{
    match byte {
        0 => State::Idle,
        1 => State::High,
        _ => State::Low,
    }
}
