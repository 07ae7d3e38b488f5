//! Fetching an instruction.

ghost use Rattle.std.specs.Prelude.{◌≡◌, drop};
ghost use Rattle.tp_cpu.specs.Lower.{offset, decoded};

use crate::Decoder;
use tp_mem::Mem;
use tp_model::{DecodeFault, Instr};

/// Reads the instruction at `iptr`, byte by byte. The bytes end where memory does.
#[inline(always)]
pub(crate) fn fetch<M: Mem>(mem: &M, iptr: u32) -> Result<Instr, DecodeFault>
    ensures { result ≡ decoded (drop (offset iptr) (M.bytes mem.now)) }
{
    let mut decoder = Decoder::new();
    let mut at = iptr;
    while let Some(byte) = mem.read_byte(at) {
        if let Some(answer) = decoder.feed(byte) {
            return answer;
        }
        at = at.wrapping_add(1);
    }
    Err(DecodeFault::NeedMore)
}
