//! A node apart from its memory, and the bytes before the memory in its image.

ghost use Rattle.std.specs.Prelude.{◌≡◌, ◌≤◌, ◌+◌, ◌*◌, ◌∷◌, ◌++◌, ℕ, List, length, drop};
ghost use Rattle.tp_node.specs.Lower.{flat_map, u16_bytes, u32_bytes, u32_at, ends_at, out_end_at, in_end_at, words_of, cpu_at, page_count, image_head};
ghost use Rattle.tp_node.specs.StateWith.{state_with};

use crate::code::{halt_byte, halt_of, state_byte, state_of};
use crate::ends::{inputs_at, outputs_at, put_inputs, put_outputs};
use crate::image_places::{
    A_PLACE, B_PLACE, C_PLACE, ERROR_PLACE, HALT_PLACE, HIGH_PLACE, INPUTS_PLACE, IPTR_PLACE,
    LOW_PLACE, OUTPUTS_PLACE, SLICE_PLACE, STATE_PLACE, WPTR_PLACE,
};
use crate::{InEngine, OutEngine};
use byteorder::{ByteOrder, LittleEndian};
use tp_model::limits::{IMAGE_HEAD_BYTES, IMAGE_VERSION};
use tp_model::number::{u16_at, u32_at};
use tp_model::{Cpu, Queue, Regs};

/// A node apart from its memory: its processor and the ends of links 0 to 3.
#[derive(Clone, Copy)]
pub(crate) struct Head {
    pub(crate) cpu: Cpu,
    pub(crate) outputs: [OutEngine; 4],
    pub(crate) inputs: [InEngine; 4],
}

fn queue_at(bytes: &[u8], at: usize) -> Queue
    requires { at + 8 ≤ length bytes.now }
    ensures { result ≡ record { front = u32_at bytes.now at; back = u32_at bytes.now (at + 4) } }
{
    Queue {
        front: u32_at(bytes, at),
        back: u32_at(bytes, at + 4),
    }
}

fn cpu_at(bytes: &[u8]) -> Cpu
    requires { IMAGE_HEAD_BYTES ≤ length bytes.now }
    ensures { result ≡ cpu_at bytes.now }
{
    Cpu {
        iptr: u32_at(bytes, IPTR_PLACE),
        wptr: u32_at(bytes, WPTR_PLACE),
        regs: Regs {
            a: u32_at(bytes, A_PLACE),
            b: u32_at(bytes, B_PLACE),
            c: u32_at(bytes, C_PLACE),
            error: bytes[ERROR_PLACE] != 0,
        },
        high: queue_at(bytes, HIGH_PLACE),
        low: queue_at(bytes, LOW_PLACE),
        state: state_of(bytes[STATE_PLACE]),
        slice: u16_at(bytes, SLICE_PLACE),
        halt: halt_of(bytes[HALT_PLACE]),
    }
}

/// Gives the words from Iptr to the queues.
fn words_of(cpu: &Cpu) -> [u32; 9]
    ensures { result ≡ words_of cpu.now }
{
    [
        cpu.iptr,
        cpu.wptr,
        cpu.regs.a,
        cpu.regs.b,
        cpu.regs.c,
        cpu.high.front,
        cpu.high.back,
        cpu.low.front,
        cpu.low.back,
    ]
}

/// Writes words, one after the other.
fn put_words(out: &mut [u8], words: &[u32])
    requires { 4 * length words.now ≤ length out.old }
    ensures { out.new ≡ flat_map u32_bytes words.now ++ drop (4 * length words.now) out.old }
{
    for (i, word) in words.iter().enumerate() {
        LittleEndian::write_u32(&mut out[4 * i..], *word);
    }
}

/// Writes two bytes and then a number.
fn put_four(out: &mut [u8], first: u8, second: u8, number: u16)
    requires { 4 ≤ length out.old }
    ensures { out.new ≡ (first ∷ second ∷ u16_bytes number) ++ drop 4 out.old }
{
    out[0] = first;
    out[1] = second;
    LittleEndian::write_u16(&mut out[2..], number);
}

impl Head {
    /// Reads the head that the bytes spell, if they spell one.
    pub(crate) fn read(bytes: &[u8]) -> Head
        requires { IMAGE_HEAD_BYTES ≤ length bytes.now }
        ensures cpu { result.cpu ≡ cpu_at bytes.now }
        ensures outputs { result.outputs ≡ ends_at out_end_at 4 (drop 44 bytes.now) }
        ensures inputs { result.inputs ≡ ends_at in_end_at 4 (drop 108 bytes.now) }
    {
        Head {
            cpu: cpu_at(bytes),
            outputs: outputs_at(bytes, OUTPUTS_PLACE),
            inputs: inputs_at(bytes, INPUTS_PLACE),
        }
    }

    /// Writes the bytes before a memory of `pages` pages.
    pub(crate) fn write(&self, pages: u16, out: &mut [u8])
        requires { IMAGE_HEAD_BYTES ≤ length out.old }
        ensures { (memory : List ℕ) → page_count memory ≡ pages → out.new ≡ image_head (state_with self.now memory) ++ drop IMAGE_HEAD_BYTES out.old }
    {
        let Cpu {
            regs,
            state,
            slice,
            ..
        } = self.cpu;
        put_four(out, IMAGE_VERSION, halt_byte(self.cpu.halt), pages);
        put_words(&mut out[IPTR_PLACE..], &words_of(&self.cpu));
        put_four(
            &mut out[ERROR_PLACE..],
            u8::from(regs.error),
            state_byte(state),
            slice,
        );
        put_outputs(&mut out[OUTPUTS_PLACE..], &self.outputs);
        put_inputs(&mut out[INPUTS_PLACE..], &self.inputs);
    }
}
