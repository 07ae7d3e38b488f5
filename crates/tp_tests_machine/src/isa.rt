//! Instructions as bytes.

use crate::story::check;
use std::alloc::Global;
use tp_cpu::{
    DecodeFault, Decoder, Fun, Instr, Op, decode, encode, encoding_reads_back, fun_at,
    no_spelling_is_shorter, op_at, reading_is_exact,
};

/// Every function with the upper four bits of its byte.
const FUNCTIONS: &[(u8, Fun)] = &[
    (0x0, Fun::J),
    (0x1, Fun::Ldlp),
    (0x3, Fun::Ldnl),
    (0x4, Fun::Ldc),
    (0x5, Fun::Ldnlp),
    (0x7, Fun::Ldl),
    (0x8, Fun::Adc),
    (0x9, Fun::Call),
    (0xA, Fun::Cj),
    (0xB, Fun::Ajw),
    (0xC, Fun::Eqc),
    (0xD, Fun::Stl),
    (0xE, Fun::Stnl),
    (0xF, Fun::Opr),
];

/// Every operation with its number.
pub const OPERATIONS: &[(u32, Op)] = &[
    (0x00, Op::Rev),
    (0x01, Op::Lb),
    (0x02, Op::Bsub),
    (0x0A, Op::Wsub),
    (0x03, Op::Endp),
    (0x05, Op::Add),
    (0x0C, Op::Sub),
    (0x53, Op::Mul),
    (0x52, Op::Sum),
    (0x04, Op::Diff),
    (0x08, Op::Prod),
    (0x2C, Op::Div),
    (0x1F, Op::Rem),
    (0x09, Op::Gt),
    (0x46, Op::And),
    (0x4B, Op::Or),
    (0x33, Op::Xor),
    (0x32, Op::Not),
    (0x41, Op::Shl),
    (0x40, Op::Shr),
    (0x06, Op::Gcall),
    (0x07, Op::In),
    (0x0B, Op::Out),
    (0x0E, Op::Outbyte),
    (0x0F, Op::Outword),
    (0x0D, Op::Startp),
    (0x39, Op::Runp),
    (0x15, Op::Stopp),
    (0x10, Op::Seterr),
    (0x29, Op::Testerr),
    (0x55, Op::Stoperr),
    (0x13, Op::Csub0),
    (0x4D, Op::Ccnt1),
    (0x16, Op::Ladd),
    (0x38, Op::Lsub),
    (0x37, Op::Lsum),
    (0x4F, Op::Ldiff),
    (0x31, Op::Lmul),
    (0x1A, Op::Ldiv),
    (0x1B, Op::Ldpi),
    (0x1E, Op::Ldpri),
    (0x20, Op::Ret),
    (0x21, Op::Lend),
    (0x34, Op::Bcnt),
    (0x3F, Op::Wcnt),
    (0x3B, Op::Sb),
    (0x3C, Op::Gajw),
    (0x42, Op::Mint),
    (0x4A, Op::Move),
    (0x43, Op::Alt),
    (0x48, Op::Enbc),
    (0x49, Op::Enbs),
    (0x44, Op::Altwt),
    (0x2F, Op::Disc),
    (0x30, Op::Diss),
    (0x45, Op::Altend),
];

/// The operation of a number, by the table.
fn listed(number: u32) -> Option<Op> {
    for row in OPERATIONS {
        if row.0 == number {
            return Some(row.1);
        }
    }
    None
}

/// Whether a function's byte is read as that function, and written so.
fn is_function(alloc: Global, code: u8, fun: Fun) -> bool {
    let byte = code << 4 | 5;
    fun_at(byte) == Some(fun) && is_written(alloc, &(fun, 5, &[byte]))
}

#[test]
fn every_function(rt: HostRuntime) {
    check(
        &rt,
        "prefixes",
        0,
        fun_at(0x2F).is_none() && fun_at(0x60).is_none(),
    );
    for (i, row) in FUNCTIONS.iter().enumerate() {
        check(&rt, "functions", i, is_function(rt.alloc(), row.0, row.1));
    }
}

/// What two bytes are read as that spell an operation, if there is one.
fn spelled(number: u8) -> Result<Instr, DecodeFault> {
    let instr = Instr {
        fun: Fun::Opr,
        operand: i32::from(number),
        len: 2,
    };
    match listed(u32::from(number)) {
        Some(_) => Ok(instr),
        None => Err(DecodeFault::UnknownOp),
    }
}

/// Each number of two digits is its operation, or unknown. So are larger ones.
#[test]
fn every_operation(rt: HostRuntime) {
    for number in 0..=0xFF {
        let named = op_at(u32::from(number)) == listed(u32::from(number));
        let read = decode(&[0x20 | number >> 4, 0xF0 | number % 16]) == spelled(number);
        check(&rt, "operations", usize::from(number), named && read);
    }
    let larger = (op_at(0x100), op_at(0x142), op_at(0x8000_0042));
    check(&rt, "larger numbers", 0, larger == (None, None, None));
}

const READ: &[(&[u8], Fun, i32, u8)] = &[
    (&[0x27, 0x25, 0x44], Fun::Ldc, 0x754, 3),
    (&[0x61, 0x41], Fun::Ldc, -31, 2),
    (
        &[0x27, 0x2F, 0x2F, 0x2F, 0x2F, 0x2F, 0x6F, 0x40],
        Fun::Ldc,
        i32::MIN,
        8,
    ),
    (&[0x61, 0x6D, 0x43], Fun::Ldc, 0x123, 3),
    (&[0x24, 0xF2], Fun::Opr, 0x42, 2),
    (&[0x60, 0x0E], Fun::J, -2, 2),
    // What comes after an instruction doesn't matter, nor do prefixes that change nothing.
    (&[0x45, 0xFF, 0x20], Fun::Ldc, 5, 1),
    (&[0x20, 0x20, 0x20, 0x45], Fun::Ldc, 5, 4),
    (&[0x60, 0x60, 0x4F], Fun::Ldc, 0xFF, 3),
];

#[test]
fn reads(rt: HostRuntime) {
    for (i, row) in READ.iter().enumerate() {
        let (bytes, fun, operand, len) = *row;
        let told = decode(bytes) == Ok(Instr { fun, operand, len });
        check(&rt, "instructions", i, told);
    }
}

const NOT_READ: &[(&[u8], DecodeFault)] = &[
    (&[], DecodeFault::NeedMore),
    (&[0x24], DecodeFault::NeedMore),
    (&[0x22, 0xF2], DecodeFault::UnknownOp),
    (&[0x21, 0x24, 0xF2], DecodeFault::UnknownOp),
    (&[0x20; 17], DecodeFault::LongPrefix),
    (&[0x20; 16], DecodeFault::NeedMore),
];

#[test]
fn reads_no_instruction(rt: HostRuntime) {
    for (i, row) in NOT_READ.iter().enumerate() {
        check(&rt, "no instructions", i, decode(row.0) == Err(row.1));
    }
}

/// Sixteen prefix bytes are read, a seventeenth is one too many, and an instruction may still end there.
fn reads_prefixes() -> bool {
    let mut decoder = Decoder::new();
    for _ in 0..16 {
        if decoder.feed(0x20).is_some() {
            return false;
        }
    }
    let whole = Instr {
        fun: Fun::Ldc,
        operand: 3,
        len: 17,
    };
    decoder.feed(0x20) == Some(Err(DecodeFault::LongPrefix))
        && decoder.feed(0x43) == Some(Ok(whole))
}

#[test]
fn many_prefixes(rt: HostRuntime) {
    check(&rt, "prefixes", 0, reads_prefixes());
}

const WRITTEN: &[(Fun, i32, &[u8])] = &[
    (Fun::Ldc, -1, &[0x60, 0x4F]),
    (
        Fun::Ldc,
        i32::MIN,
        &[0x27, 0x2F, 0x2F, 0x2F, 0x2F, 0x2F, 0x6F, 0x40],
    ),
    (
        Fun::Ldc,
        i32::MAX,
        &[0x27, 0x2F, 0x2F, 0x2F, 0x2F, 0x2F, 0x2F, 0x4F],
    ),
    (Fun::Ldc, 0x123, &[0x21, 0x22, 0x43]),
    (Fun::Ldc, 0x754, &[0x27, 0x25, 0x44]),
    (Fun::Ldc, -31, &[0x61, 0x41]),
    (Fun::Opr, 0x42, &[0x24, 0xF2]),
    (Fun::Adc, 15, &[0x8F]),
    (Fun::Adc, 16, &[0x21, 0x80]),
    (Fun::Ldc, -16, &[0x60, 0x40]),
    (Fun::Ldc, -17, &[0x61, 0x4F]),
];

/// Whether an instruction is appended as it ought to be spelt.
fn is_written(alloc: Global, row: &(Fun, i32, &[u8])) -> bool {
    let (fun, operand, spelling) = *row;
    let mut bytes = Vec::new(alloc);
    let begun = bytes.push(0xAA).is_ok() && encode(fun, operand, &mut bytes).is_ok();
    begun && bytes.first() == Some(&0xAA) && bytes.get(1..) == Some(spelling)
}

#[test]
fn writes(rt: HostRuntime) {
    for (i, row) in WRITTEN.iter().enumerate() {
        check(&rt, "written", i, is_written(rt.alloc(), row));
    }
}

/// Functions whose contract is a law do nothing.
#[test]
fn laws() {
    reading_is_exact();
    encoding_reads_back();
    no_spelling_is_shorter();
}
