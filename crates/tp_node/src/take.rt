//! Tokens that come in.

ghost use Rattle.std.specs.Prelude.{◌≡◌, ℕ, ◌<◌, List, None, IsSome};
ghost use Rattle.tp_node.specs.Lower.{placed, took_token, place_range, took_ranges, LacksFrames};
ghost use Rattle.tp_node.specs.First.{first_stored, put_ranges};
ghost use Rattle.tp_node.specs.LinkEnds.{kept_done};
ghost use Rattle.tp_node.specs.StateWith.{state_with};
ghost use Rattle.tp_node.specs.Takes.{Takes, next_byte};

use crate::OutEngine;
use crate::arrival::tell;
use crate::fault::NoFrame;
use crate::first::First;
use crate::head::Head;
use tp_mem::Mem;
use tp_model::Token;

/// Tells what a byte puts into memory, by its place.
fn placed(place: Option<u32>, byte: u8) -> First
    ensures value { (memory : List ℕ) → first_stored result memory ≡ placed place byte memory }
    ensures nowhere { place ≡ None → result ≡ First.Nothing }
    ensures ranges { put_ranges result ≡ place_range place }
{
    match place {
        None => First::Nothing,
        Some(address) => First::Byte { address, byte },
    }
}

/// Gives the byte that leaves at the next acknowledge; `None` if none is left.
fn next_byte<M: Mem>(engine: OutEngine, mem: &M) -> Option<u8>
    ensures { result ≡ next_byte engine (M.bytes mem.now) }
{
    match engine.next_pointer() {
        None => None,
        Some(pointer) => mem.read_byte(pointer),
    }
}

/// Takes a byte on a link.
pub(crate) fn take_data<M: Mem>(
    head: &mut Head,
    mem: &mut M,
    link: usize,
    byte: u8,
) -> Result<Option<Token>, NoFrame>
    requires link { link < 4 }
    requires can { IsSome (took_token (state_with head.old (M.bytes mem.old)) link (Token.Data byte)) }
    ensures takes { Takes (took_token (state_with head.old (M.bytes mem.old)) link (Token.Data byte)) (LacksFrames (M.kept mem.old) (took_ranges (state_with head.old (M.bytes mem.old)) link (Token.Data byte))) link (state_with head.old (M.bytes mem.old)) result (state_with head.new (M.bytes mem.new)) }
    ensures kept { M.kept mem.new ≡ kept_done result (M.kept mem.old) (took_ranges (state_with head.old (M.bytes mem.old)) link (Token.Data byte)) }
{
    let mut engine = head.inputs[link];
    let arrival = engine.on_data(byte);
    tell(
        &mut head.cpu,
        mem,
        placed(arrival.place, byte),
        arrival.news,
    )?;
    head.inputs[link] = engine;
    Ok(arrival.token)
}

/// Takes an acknowledge on a link.
pub(crate) fn take_ack<M: Mem>(
    head: &mut Head,
    mem: &mut M,
    link: usize,
) -> Result<Option<Token>, NoFrame>
    requires link { link < 4 }
    requires can { IsSome (took_token (state_with head.old (M.bytes mem.old)) link Token.Ack) }
    ensures takes { Takes (took_token (state_with head.old (M.bytes mem.old)) link Token.Ack) (LacksFrames (M.kept mem.old) (took_ranges (state_with head.old (M.bytes mem.old)) link Token.Ack)) link (state_with head.old (M.bytes mem.old)) result (state_with head.new (M.bytes mem.new)) }
    ensures kept { M.kept mem.new ≡ kept_done result (M.kept mem.old) (took_ranges (state_with head.old (M.bytes mem.old)) link Token.Ack) }
{
    let mut engine = head.outputs[link];
    let next = next_byte(engine, mem);
    let arrival = engine.on_ack(next);
    tell(&mut head.cpu, mem, First::Nothing, arrival.news)?;
    head.outputs[link] = engine;
    Ok(arrival.token)
}
