//! Ends of links as bytes.

ghost use Rattle.std.specs.Prelude.{◌≡◌, ◌≤◌, ◌+◌, ◌*◌, ◌++◌, ◌==◌, length, drop, if◌then◌else◌};
ghost use Rattle.tp_node.specs.Lower.{u8_at, flat_map, end_bytes, out_end_bytes, in_end_bytes, transfer_at, out_end_at, in_end_at, ends_at};

use crate::image_places::{END_BYTES, LEFT_PLACE, POINTER_PLACE, PROCESS_PLACE};
use crate::{InEngine, OutEngine};
use byteorder::{ByteOrder, LittleEndian};
use tp_model::number::u32_at;
use tp_model::{InEnd, OutEnd, Transfer};

const NO_TRANSFER: Transfer = Transfer {
    process: 0,
    pointer: 0,
    left: 0,
};

/// Writes an end's fields in their order.
fn put_end(out: &mut [u8], state: u8, held: u8, byte: u8, transfer: Transfer)
    requires { 16 ≤ length out.old }
    ensures { out.new ≡ end_bytes state held byte transfer ++ drop 16 out.old }
{
    out[0] = state;
    out[1] = held;
    out[2] = byte;
    out[3] = 0;
    LittleEndian::write_u32(&mut out[PROCESS_PLACE..], transfer.process);
    LittleEndian::write_u32(&mut out[POINTER_PLACE..], transfer.pointer);
    LittleEndian::write_u32(&mut out[LEFT_PLACE..], transfer.left);
}

fn put_out_end(out: &mut [u8], end: OutEnd)
    requires { 16 ≤ length out.old }
    ensures { out.new ≡ out_end_bytes end ++ drop 16 out.old }
{
    match end {
        OutEnd::Idle => put_end(out, 0, 0, 0, NO_TRANSFER),
        OutEnd::Waits(transfer) => put_end(out, 1, 0, 0, transfer),
    }
}

fn put_in_end(out: &mut [u8], end: InEnd)
    requires { 16 ≤ length out.old }
    ensures { out.new ≡ in_end_bytes end ++ drop 16 out.old }
{
    match end {
        InEnd::Idle(None) => put_end(out, 0, 0, 0, NO_TRANSFER),
        InEnd::Idle(Some(byte)) => put_end(out, 0, 1, byte, NO_TRANSFER),
        InEnd::Inputs(transfer) => put_end(out, 1, 0, 0, transfer),
        InEnd::Enabled(process) => {
            let guard = Transfer {
                process,
                ..NO_TRANSFER
            };
            put_end(out, 2, 0, 0, guard);
        }
    }
}

/// Writes output ends, one after the other.
pub(crate) fn put_outputs(out: &mut [u8], ends: &[OutEngine])
    requires { 16 * length ends.now ≤ length out.old }
    ensures { out.new ≡ flat_map out_end_bytes ends.now ++ drop (16 * length ends.now) out.old }
{
    for (i, end) in ends.iter().enumerate() {
        put_out_end(&mut out[END_BYTES * i..], end.end());
    }
}

/// Writes input ends, one after the other.
pub(crate) fn put_inputs(out: &mut [u8], ends: &[InEngine])
    requires { 16 * length ends.now ≤ length out.old }
    ensures { out.new ≡ flat_map in_end_bytes ends.now ++ drop (16 * length ends.now) out.old }
{
    for (i, end) in ends.iter().enumerate() {
        put_in_end(&mut out[END_BYTES * i..], end.end());
    }
}

fn transfer_at(bytes: &[u8], at: usize) -> Transfer
    requires { at + 16 ≤ length bytes.now }
    ensures { result ≡ transfer_at (drop at bytes.now) }
{
    Transfer {
        process: u32_at(bytes, at + PROCESS_PLACE),
        pointer: u32_at(bytes, at + POINTER_PLACE),
        left: u32_at(bytes, at + LEFT_PLACE),
    }
}

fn out_end_at(bytes: &[u8], at: usize) -> OutEngine
    requires { at + 16 ≤ length bytes.now }
    ensures { result ≡ out_end_at (drop at bytes.now) }
{
    if bytes[at] == 0 {
        OutEngine::new(OutEnd::Idle)
    } else {
        OutEngine::new(OutEnd::Waits(transfer_at(bytes, at)))
    }
}

/// Reads the byte that an input end holds; `None` if it holds none.
fn held_at(bytes: &[u8], at: usize) -> Option<u8>
    requires { at + 16 ≤ length bytes.now }
    ensures { result ≡ (if u8_at (drop at bytes.now) 1 == 0 then None else Some (u8_at (drop at bytes.now) 2)) }
{
    if bytes[at + 1] == 0 {
        None
    } else {
        Some(bytes[at + 2])
    }
}

fn in_end_at(bytes: &[u8], at: usize) -> InEngine
    requires { at + 16 ≤ length bytes.now }
    ensures { result ≡ in_end_at (drop at bytes.now) }
{
    if bytes[at] == 0 {
        InEngine::new(InEnd::Idle(held_at(bytes, at)))
    } else if bytes[at] == 1 {
        InEngine::new(InEnd::Inputs(transfer_at(bytes, at)))
    } else {
        InEngine::new(InEnd::Enabled(u32_at(bytes, at + PROCESS_PLACE)))
    }
}

/// Reads the output ends of links 0 to 3 from a place on.
#[tactic(auto, using(crate::proofs::EndsAsBytes::four_ends_apart))]
pub(crate) fn outputs_at(bytes: &[u8], at: usize) -> [OutEngine; 4]
    requires { at + 64 ≤ length bytes.now }
    ensures { result ≡ ends_at out_end_at 4 (drop at bytes.now) }
{
    [
        out_end_at(bytes, at),
        out_end_at(bytes, at + END_BYTES),
        out_end_at(bytes, at + 2 * END_BYTES),
        out_end_at(bytes, at + 3 * END_BYTES),
    ]
}

/// Reads the input ends of links 0 to 3 from a place on.
#[tactic(auto, using(crate::proofs::EndsAsBytes::four_ends_apart))]
pub(crate) fn inputs_at(bytes: &[u8], at: usize) -> [InEngine; 4]
    requires { at + 64 ≤ length bytes.now }
    ensures { result ≡ ends_at in_end_at 4 (drop at bytes.now) }
{
    [
        in_end_at(bytes, at),
        in_end_at(bytes, at + END_BYTES),
        in_end_at(bytes, at + 2 * END_BYTES),
        in_end_at(bytes, at + 3 * END_BYTES),
    ]
}
