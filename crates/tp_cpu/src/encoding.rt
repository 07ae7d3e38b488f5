//! Writing instructions.

ghost use Rattle.std.specs.Prelude.{◌≡◌, ◌+◌, ◌<◌, ◌≤◌, [], ◌++◌, OnOk, OnErr};
ghost use Rattle.tp_cpu.specs.Lower.{cast_unsigned, w32, array_vec_len, code, coded, natural, spelling};

use arrayvec::ArrayVec;
use std::alloc::AllocError;
use tp_model::Fun;

/// Appends to `out` the spelling of `fun` with `operand`. `AllocError` if memory is out; then `out` is as before.
pub fn encode(fun: Fun, operand: i32, out: &mut Vec<u8>) -> Result<(), AllocError>
    ensures ok { OnOk result (out.new.items ≡ out.old.items ++ spelling fun (cast_unsigned w32 operand)) }
    ensures err { OnErr result (out.new.items ≡ out.old.items) }
{
    let mut bytes = ArrayVec::new();
    spell(fun, operand.cast_unsigned(), &mut bytes);
    out.extend_from_slice(&bytes)
}

/// Appends the spelling of `fun` with a word.
fn spell(fun: Fun, operand: u32, bytes: &mut ArrayVec<u8, 8>)
    requires { bytes.old.items ≡ [] }
    ensures { bytes.new.items ≡ spelling fun operand }
{
    if operand < 0x8000_0000 {
        spell_natural(7, code(fun), operand, bytes);
    } else {
        spell_natural(6, 6, !operand >> 4, bytes);
        bytes.push(coded(code(fun), operand));
    }
}

/// Appends the spelling of `code` with an operand from 0 on, in at most `more` + 1 bytes.
fn spell_natural(more: u8, code: u8, operand: u32, bytes: &mut ArrayVec<u8, 8>)
    requires code { code < 16 }
    requires room { array_vec_len bytes.old + more < 8 }
    ensures items { bytes.new.items ≡ bytes.old.items ++ natural more code operand }
    ensures len { array_vec_len bytes.new ≤ array_vec_len bytes.old + more + 1 }
{
    if operand >= 16 && more > 0 {
        spell_natural(more - 1, 2, operand >> 4, bytes);
    }
    bytes.push(coded(code, operand));
}

/// Makes a byte of `code` and the low four bits of `operand`.
fn coded(code: u8, operand: u32) -> u8
    requires { code < 16 }
    ensures { result ≡ coded code operand }
{
    16 * code + (operand % 16) as u8
}

/// Gives the upper four bits of the function's byte.
fn code(fun: Fun) -> u8
    ensures value { result ≡ code fun }
    ensures bound { result < 16 }
{
    match fun {
        Fun::J => 0x0,
        Fun::Ldlp => 0x1,
        Fun::Ldnl => 0x3,
        Fun::Ldc => 0x4,
        Fun::Ldnlp => 0x5,
        Fun::Ldl => 0x7,
        Fun::Adc => 0x8,
        Fun::Call => 0x9,
        Fun::Cj => 0xA,
        Fun::Ajw => 0xB,
        Fun::Eqc => 0xC,
        Fun::Stl => 0xD,
        Fun::Stnl => 0xE,
        Fun::Opr => 0xF,
    }
}
