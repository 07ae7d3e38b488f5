//! Records of ports.

ghost use Rattle.std.specs.Prelude.{◌≡◌, ◌+◌, ◌≤◌, ◌&&◌, length, take, drop, nat_le};
ghost use Rattle.tp_area.specs.Lower.{list_all, option_map, array_vec_len, u64_at, port_bytes, port_with};
ghost use Rattle.tp_area.specs.Ports.{is_port_at, is_zero, keeps_rules, port_said};

use crate::encoding::written::{pad, put};
use arrayvec::ArrayVec;
use tp_model::limits::{MAX_HELD, PORT_BYTES};
use tp_model::number::{u16_at, u64_at};

/// Where a port's record has its numbers, its pending bytes and its outputs.
const OUT_BASE_PLACE: usize = 8;

const PENDING_COUNT_PLACE: usize = 16;

const OUTPUT_COUNT_PLACE: usize = 18;

const PENDING_PLACE: usize = 20;

const OUTPUTS_PLACE: usize = PENDING_PLACE + MAX_HELD;

/// What a port's record says: the pending bytes after `in_base` bytes that were taken off, and the outputs after `out_base` bytes that were
/// confirmed.
#[derive(Clone, Copy)]
pub struct PortRecord<'a> {
    pub pending: &'a [u8],
    pub in_base: u64,
    pub outputs: &'a [u8],
    pub out_base: u64,
}

/// Whether all bytes are 00.
fn are_zeros(bytes: &[u8]) -> bool
    ensures { result ≡ list_all is_zero bytes.now }
{
    for byte in bytes {
        if *byte != 0 {
            return false;
        }
    }
    true
}

/// Whether the positions of a port with `shown` outputs are at most the entries that led to them.
fn are_reached(base: u64, in_base: u64, out_base: u64, shown: usize) -> bool
    requires { shown ≤ MAX_HELD }
    ensures { result ≡ (nat_le in_base base && nat_le (out_base + shown) base) }
{
    in_base <= base && out_base <= base && shown as u64 <= base - out_base
}

/// Whether the record of a port that holds `held` bytes, and has `shown` outputs, keeps the rules of records.
fn keeps_rules(base: u64, held: usize, shown: usize, bytes: &[u8]) -> bool
    requires whole { length bytes.now ≡ PORT_BYTES }
    requires few { held ≤ MAX_HELD }
    requires few_outputs { shown ≤ MAX_HELD }
    ensures { result ≡ keeps_rules base held shown bytes.now }
{
    are_zeros(&bytes[PENDING_PLACE + held..OUTPUTS_PLACE])
        && are_zeros(&bytes[OUTPUTS_PLACE + shown..])
        && are_reached(base, u64_at(bytes, 0), u64_at(bytes, OUT_BASE_PLACE), shown)
}

/// Whether `bytes` are the record of a port, in a cut of `base` entries.
fn is_port_at(base: u64, bytes: &[u8]) -> bool
    requires { length bytes.now ≡ PORT_BYTES }
    ensures { result ≡ is_port_at base bytes.now }
{
    let held = usize::from(u16_at(bytes, PENDING_COUNT_PLACE));
    let shown = usize::from(u16_at(bytes, OUTPUT_COUNT_PLACE));
    if held > MAX_HELD || shown > MAX_HELD {
        return false;
    }
    keeps_rules(base, held, shown, bytes)
}

/// Reads the record of a port that holds `held` bytes, and has `shown` outputs.
fn record_in(held: usize, shown: usize, bytes: &[u8]) -> PortRecord<'_>
    requires whole { length bytes.now ≡ PORT_BYTES }
    requires few { held ≤ MAX_HELD }
    requires few_outputs { shown ≤ MAX_HELD }
    ensures { port_said result ≡ record { pending = take held (drop 20 bytes.now); in_base = u64_at bytes.now 0; outputs = take shown (drop (20 + MAX_HELD) bytes.now); out_base = u64_at bytes.now 8 } }
{
    PortRecord {
        pending: &bytes[PENDING_PLACE..PENDING_PLACE + held],
        in_base: u64_at(bytes, 0),
        outputs: &bytes[OUTPUTS_PLACE..OUTPUTS_PLACE + shown],
        out_base: u64_at(bytes, OUT_BASE_PLACE),
    }
}

/// Reads the port of a cut of `base` entries from its record; `None` if `bytes` are none.
pub fn port_in(base: u64, bytes: &[u8]) -> Option<PortRecord<'_>>
    requires { length bytes.now ≡ PORT_BYTES }
    ensures { option_map port_said result ≡ port_with base bytes.now }
{
    if !is_port_at(base, bytes) {
        return None;
    }
    let held = usize::from(u16_at(bytes, PENDING_COUNT_PLACE));
    let shown = usize::from(u16_at(bytes, OUTPUT_COUNT_PLACE));
    Some(record_in(held, shown, bytes))
}

/// Writes the record of a port in place of what `out` has. So the record is on the stack once, and is never moved.
pub(crate) fn put_port(port: PortRecord<'_>, out: &mut ArrayVec<u8, PORT_BYTES>)
    requires few { length port.pending.now ≤ MAX_HELD }
    requires few_outputs { length port.outputs.now ≤ MAX_HELD }
    ensures bytes { out.new.items ≡ port_bytes (port_said port.entry) }
    ensures len { array_vec_len out.new ≡ PORT_BYTES }
{
    out.clear();
    put(&port.in_base.to_le_bytes(), out);
    put(&port.out_base.to_le_bytes(), out);
    put(&(port.pending.len() as u16).to_le_bytes(), out);
    put(&(port.outputs.len() as u16).to_le_bytes(), out);
    put(port.pending, out);
    pad(OUTPUTS_PLACE, out);
    put(port.outputs, out);
    pad(PORT_BYTES, out);
}
