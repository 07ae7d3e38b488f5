//! Reading instructions.

ghost use Rattle.std.specs.Prelude.{◌≡◌, ℕ, ◌+◌, ◌/◌, ◌%◌, ◌≤◌, List, ◌∷◌, true, false, Some, IfNone, OnSome, MatchOption};
ghost use Rattle.tp_cpu.specs.Lower.{wrap, is_prefix, prefixed, fun_of, op_of, instr_at, reads, decoded};

use tp_model::{DecodeFault, Fun, Instr, Op};

/// The operand register, while the bytes of one instruction come in: its value, and the prefix bytes so far.
#[derive(Drop)]
pub struct Decoder {
    pub operand: u32,
    pub count: u8,
    ghost few: { count ≤ 16 },
    ghost aligned: { operand % 16 ≡ 0 },
}

impl Decoder {
    ghost use Rattle.tp_cpu.specs.Decoding.{reads_on};

    /// Starts before an instruction's first byte.
    #[inline]
    pub fn new() -> Self
        ensures answer { (bytes : List ℕ) → reads_on result bytes ≡ decoded bytes }
        ensures count { result.count ≡ 0 }
    {
        Decoder {
            operand: 0,
            count: 0,
        }
    }

    /// Takes the next byte. Answers the instruction that `byte` ends, or why there is none; `None` while more bytes are needed.
    #[inline(always)]
    pub fn feed(&mut self, byte: u8) -> Option<Result<Instr, DecodeFault>>
        ensures answer { (rest : List ℕ) → MatchOption result (reads_on self.old (byte ∷ rest) ≡ reads_on self.new rest) (λ r. reads_on self.old (byte ∷ rest) ≡ r) }
        ensures count { IfNone result (self.new.count ≡ self.old.count + 1) }
        ensures done { OnSome result (self.new ≡ self.old) }
    {
        match fun_at(byte) {
            None => self.prefix(byte),
            Some(fun) => Some(instr_at(fun, filled(self.operand, byte), self.count + 1)),
        }
    }

    /// Takes a prefix byte, and refuses the 17th.
    #[inline(always)]
    fn prefix(&mut self, byte: u8) -> Option<Result<Instr, DecodeFault>>
        requires { is_prefix byte ≡ true }
        ensures answer { (rest : List ℕ) → MatchOption result (reads_on self.old (byte ∷ rest) ≡ reads_on self.new rest) (λ r. reads_on self.old (byte ∷ rest) ≡ r) }
        ensures count { IfNone result (self.new.count ≡ self.old.count + 1) }
        ensures done { OnSome result (self.new ≡ self.old) }
    {
        if self.count == 16 {
            return Some(Err(DecodeFault::LongPrefix));
        }
        self.operand = prefixed(self.operand, byte);
        self.count += 1;
        None
    }
}

/// Gives the operand register after the prefix byte `byte`.
#[inline(always)]
pub fn prefixed(operand: u32, byte: u8) -> u32
    requires { operand % 16 ≡ 0 }
    ensures value { result ≡ prefixed operand byte }
    ensures aligned { result % 16 ≡ 0 }
{
    let filled = filled(operand, byte);
    if byte >> 4 == 2 {
        filled << 4
    } else {
        !filled << 4
    }
}

/// Puts the low four bits of `byte` into the low end of the operand register.
#[inline(always)]
pub fn filled(operand: u32, byte: u8) -> u32
    requires { operand % 16 ≡ 0 }
    ensures whole { result ≡ operand + byte % 16 }
    ensures word { result ≡ wrap (operand + byte % 16) }
{
    operand + u32::from(byte % 16)
}

/// Reads the instruction that `bytes` begin with.
pub fn decode(bytes: &[u8]) -> Result<Instr, DecodeFault>
    ensures { result ≡ decoded bytes.now }
{
    let mut decoder = Decoder::new();
    for &byte in bytes {
        if let Some(answer) = decoder.feed(byte) {
            return answer;
        }
    }
    Err(DecodeFault::NeedMore)
}

/// Makes the instruction `fun` with `operand`, spelt by `len` bytes. `UnknownOp` if it is an operation that isn't listed.
#[inline(always)]
fn instr_at(fun: Fun, operand: u32, len: u8) -> Result<Instr, DecodeFault>
    ensures { result ≡ instr_at (Some fun) operand len }
{
    match fun {
        Fun::Opr if op_at(operand).is_none() => Err(DecodeFault::UnknownOp),
        _ => Ok(Instr {
            fun,
            operand: operand.cast_signed(),
            len,
        }),
    }
}

/// Gives the function of an instruction's last byte; `None` for a prefix byte.
#[inline(always)]
pub fn fun_at(byte: u8) -> Option<Fun>
    ensures value { result ≡ fun_of (byte / 16) }
    ensures prefix { IfNone result (is_prefix byte ≡ true) }
    ensures other { OnSome result (is_prefix byte ≡ false) }
{
    match byte >> 4 {
        0x0 => Some(Fun::J),
        0x1 => Some(Fun::Ldlp),
        0x3 => Some(Fun::Ldnl),
        0x4 => Some(Fun::Ldc),
        0x5 => Some(Fun::Ldnlp),
        0x7 => Some(Fun::Ldl),
        0x8 => Some(Fun::Adc),
        0x9 => Some(Fun::Call),
        0xA => Some(Fun::Cj),
        0xB => Some(Fun::Ajw),
        0xC => Some(Fun::Eqc),
        0xD => Some(Fun::Stl),
        0xE => Some(Fun::Stnl),
        0xF => Some(Fun::Opr),
        _ => None,
    }
}

/// Gives the operation that `opr` selects by the operand `number`; `None` if none is listed.
#[inline(always)]
pub fn op_at(number: u32) -> Option<Op>
    ensures { result ≡ op_of number }
{
    match number {
        0x00 => Some(Op::Rev),
        0x01 => Some(Op::Lb),
        0x02 => Some(Op::Bsub),
        0x03 => Some(Op::Endp),
        0x04 => Some(Op::Diff),
        0x05 => Some(Op::Add),
        0x06 => Some(Op::Gcall),
        0x07 => Some(Op::In),
        0x08 => Some(Op::Prod),
        0x09 => Some(Op::Gt),
        0x0A => Some(Op::Wsub),
        0x0B => Some(Op::Out),
        0x0C => Some(Op::Sub),
        0x0D => Some(Op::Startp),
        0x0E => Some(Op::Outbyte),
        0x0F => Some(Op::Outword),
        0x10 => Some(Op::Seterr),
        0x13 => Some(Op::Csub0),
        0x15 => Some(Op::Stopp),
        0x16 => Some(Op::Ladd),
        0x1A => Some(Op::Ldiv),
        0x1B => Some(Op::Ldpi),
        0x1E => Some(Op::Ldpri),
        0x1F => Some(Op::Rem),
        0x20 => Some(Op::Ret),
        0x21 => Some(Op::Lend),
        0x29 => Some(Op::Testerr),
        0x2C => Some(Op::Div),
        0x2F => Some(Op::Disc),
        0x30 => Some(Op::Diss),
        0x31 => Some(Op::Lmul),
        0x32 => Some(Op::Not),
        0x33 => Some(Op::Xor),
        0x34 => Some(Op::Bcnt),
        0x37 => Some(Op::Lsum),
        0x38 => Some(Op::Lsub),
        0x39 => Some(Op::Runp),
        0x3B => Some(Op::Sb),
        0x3C => Some(Op::Gajw),
        0x3F => Some(Op::Wcnt),
        0x40 => Some(Op::Shr),
        0x41 => Some(Op::Shl),
        0x42 => Some(Op::Mint),
        0x43 => Some(Op::Alt),
        0x44 => Some(Op::Altwt),
        0x45 => Some(Op::Altend),
        0x46 => Some(Op::And),
        0x48 => Some(Op::Enbc),
        0x49 => Some(Op::Enbs),
        0x4A => Some(Op::Move),
        0x4B => Some(Op::Or),
        0x4D => Some(Op::Ccnt1),
        0x4F => Some(Op::Ldiff),
        0x52 => Some(Op::Sum),
        0x53 => Some(Op::Mul),
        0x55 => Some(Op::Stoperr),
        _ => None,
    }
}
