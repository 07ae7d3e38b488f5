//! The fields of a node's image that hold its processor.

ghost use Rattle.std.specs.Prelude.{◌≡◌, ◌+◌, ◌<◌, ◌^◌};
ghost use Rattle.tp_trace.specs.Lower.{u16_at, u32_at, u8_at, cpu_at, halt_of, state_of};

use tp_model::{Cpu, Fault, Queue, Regs, State};
use tp_node::image_places::{
    A_PLACE, B_PLACE, C_PLACE, ERROR_PLACE, HALT_PLACE, HIGH_PLACE, IPTR_PLACE, LOW_PLACE,
    SLICE_PLACE, STATE_PLACE, WPTR_PLACE,
};

/// The byte of an image at a place.
#[tactic(auto, using(std::proofs::lemmas::Option::gets))]
pub fn byte_in(image: &[u8], at: usize) -> u8
    ensures { result ≡ u8_at image.now at }
{
    match image.get(at) {
        Some(byte) => *byte,
        None => 0,
    }
}

/// The number of two bytes of an image, the low one first.
pub fn half_in(image: &[u8], at: usize) -> u16
    requires { at < 2 ^ 32 }
    ensures { result ≡ u16_at image.now at }
{
    u16::from_le_bytes([byte_in(image, at), byte_in(image, at + 1)])
}

/// The number of four bytes of an image, the low one first.
pub fn word_in(image: &[u8], at: usize) -> u32
    requires { at < 2 ^ 32 }
    ensures { result ≡ u32_at image.now at }
{
    u32::from_le_bytes([
        byte_in(image, at),
        byte_in(image, at + 1),
        byte_in(image, at + 2),
        byte_in(image, at + 3),
    ])
}

fn halt_of(code: u8) -> Option<Fault>
    ensures { result ≡ halt_of code }
{
    match code {
        0 => None,
        1 => Some(Fault::BadAddress),
        2 => Some(Fault::UnknownOp),
        3 => Some(Fault::LongPrefix),
        _ => Some(Fault::LinkBusy),
    }
}

fn state_of(state: u8) -> State
    ensures { result ≡ state_of state }
{
    match state {
        0 => State::Idle,
        1 => State::High,
        _ => State::Low,
    }
}

fn queue_in(image: &[u8], at: usize) -> Queue
    requires { at < 2 ^ 16 }
    ensures { result ≡ record { front = u32_at image.now at; back = u32_at image.now (at + 4) } }
{
    Queue {
        front: word_in(image, at),
        back: word_in(image, at + 4),
    }
}

/// The processor of a node.
pub fn cpu_in(image: &[u8]) -> Cpu
    ensures { result ≡ cpu_at image.now }
{
    Cpu {
        iptr: word_in(image, IPTR_PLACE),
        wptr: word_in(image, WPTR_PLACE),
        regs: Regs {
            a: word_in(image, A_PLACE),
            b: word_in(image, B_PLACE),
            c: word_in(image, C_PLACE),
            error: byte_in(image, ERROR_PLACE) != 0,
        },
        high: queue_in(image, HIGH_PLACE),
        low: queue_in(image, LOW_PLACE),
        state: state_of(byte_in(image, STATE_PLACE)),
        slice: half_in(image, SLICE_PLACE),
        halt: halt_of(byte_in(image, HALT_PLACE)),
    }
}
