//! Instructions that work on the registers alone.

use crate::isa::OPERATIONS;
use crate::story::check;
use std::process::Abort;
use tp_cpu::{Fun, Instr, Op, Regs, fun_row, op_row, pop, push, register_row, registers, set_a};

/// An operation, with A, B and C before and after it, and whether it sets Error.
type Row = (Op, [u32; 3], [u32; 3], bool);

fn regs(stack: [u32; 3], error: bool) -> Regs {
    let [a, b, c] = stack;
    Regs { a, b, c, error }
}

fn instr(fun: Fun, operand: i32) -> Instr {
    Instr {
        fun,
        operand,
        len: 2,
    }
}

/// The instruction of an operation, by the table of numbers.
fn operation(op: Op) -> Instr {
    for row in OPERATIONS {
        if row.1 == op {
            return instr(Fun::Opr, row.0.cast_signed());
        }
    }
    instr(Fun::Opr, 0)
}

/// What an instruction leaves of the registers, if it is one that works on them alone.
fn after(instr: Instr, before: Regs) -> Option<Regs> {
    let mut seen = before;
    registers(&instr, &mut seen).then_some(seen)
}

/// Error is set if a row sets it, and stays if it was set before.
fn is_row(row: &Row) -> bool {
    let (op, before, wanted, error) = *row;
    after(operation(op), regs(before, false)) == Some(regs(wanted, error))
        && after(operation(op), regs(before, true)) == Some(regs(wanted, true))
}

fn check_all(rt: &impl Abort, name: &str, rows: &[Row]) {
    for (i, row) in rows.iter().enumerate() {
        check(rt, name, i, is_row(row));
    }
}

const SUMS_CHECKED: &[Row] = &[
    (Op::Add, [1, 0x7FFF_FFFF, 9], [0x8000_0000, 9, 9], true),
    (Op::Add, [2, 3, 9], [5, 9, 9], false),
    (
        Op::Add,
        [0xFFFF_FFFF, 0x8000_0000, 9],
        [0x7FFF_FFFF, 9, 9],
        true,
    ),
    (Op::Add, [0xFFFF_FFFF, 1, 9], [0, 9, 9], false),
    (Op::Sub, [1, 0x8000_0000, 9], [0x7FFF_FFFF, 9, 9], true),
    (Op::Sub, [5, 3, 9], [0xFFFF_FFFE, 9, 9], false),
    (Op::Sub, [0x8000_0000, 0, 9], [0x8000_0000, 9, 9], true),
    (
        Op::Sub,
        [0x8000_0000, 0xFFFF_FFFF, 9],
        [0x7FFF_FFFF, 9, 9],
        false,
    ),
];

const SUMS_THAT_WRAP: &[Row] = &[
    (Op::Sum, [1, 0x7FFF_FFFF, 9], [0x8000_0000, 9, 9], false),
    (Op::Diff, [1, 0x8000_0000, 9], [0x7FFF_FFFF, 9, 9], false),
    (Op::Diff, [5, 3, 9], [0xFFFF_FFFE, 9, 9], false),
    (Op::Bsub, [0x8000_0100, 5, 7], [0x8000_0105, 7, 7], false),
    (Op::Bsub, [0xFFFF_FFFF, 2, 7], [1, 7, 7], false),
    (Op::Wsub, [0x8000_0100, 3, 7], [0x8000_010C, 7, 7], false),
    (Op::Wsub, [4, 0x4000_0001, 7], [8, 7, 7], false),
];

const PRODUCTS: &[Row] = &[
    (Op::Mul, [3, 0xFFFF_FFFE, 9], [0xFFFF_FFFA, 9, 9], false),
    (Op::Mul, [0x1_0000, 0x1_0000, 9], [0, 9, 9], true),
    (
        Op::Mul,
        [0xFFFF_FFFF, 0x8000_0000, 9],
        [0x8000_0000, 9, 9],
        true,
    ),
    (Op::Mul, [0x8000, 0x1_0000, 9], [0x8000_0000, 9, 9], true),
    (
        Op::Mul,
        [0xFFFF_8000, 0x1_0000, 9],
        [0x8000_0000, 9, 9],
        false,
    ),
    (Op::Prod, [0x1_0000, 0x1_0000, 9], [0, 9, 9], false),
    (Op::Prod, [0x1_0001, 0x1_0001, 9], [0x2_0001, 9, 9], false),
];

const QUOTIENTS: &[Row] = &[
    (Op::Div, [2, 0xFFFF_FFF9, 9], [0xFFFF_FFFD, 9, 9], false),
    (Op::Div, [0xFFFF_FFFE, 7, 9], [0xFFFF_FFFD, 9, 9], false),
    (Op::Div, [0, 7, 9], [0, 9, 9], true),
    (Op::Div, [0xFFFF_FFFF, 0x8000_0000, 9], [0, 9, 9], true),
    (Op::Div, [0xFFFF_FFFF, 7, 9], [0xFFFF_FFF9, 9, 9], false),
    (Op::Div, [1, 0x8000_0000, 9], [0x8000_0000, 9, 9], false),
    (Op::Rem, [2, 0xFFFF_FFF9, 9], [0xFFFF_FFFF, 9, 9], false),
    (Op::Rem, [0xFFFF_FFFE, 7, 9], [1, 9, 9], false),
    (Op::Rem, [0, 7, 9], [0, 9, 9], true),
    (Op::Rem, [0xFFFF_FFFF, 0x8000_0000, 9], [0, 9, 9], false),
];

const BITS: &[Row] = &[
    (Op::And, [0xC, 0xA, 9], [0x8, 9, 9], false),
    (Op::Or, [0xC, 0xA, 9], [0xE, 9, 9], false),
    (Op::Xor, [0xC, 0xA, 9], [0x6, 9, 9], false),
    (Op::Not, [0x0F0F_0F0F, 2, 3], [0xF0F0_F0F0, 2, 3], false),
    (Op::Rev, [1, 2, 3], [2, 1, 3], false),
    (Op::Mint, [1, 2, 3], [0x8000_0000, 1, 2], false),
    (Op::Seterr, [1, 2, 3], [1, 2, 3], true),
];

const SHIFTS: &[Row] = &[
    (Op::Shl, [4, 0xF000_0001, 9], [0x10, 9, 9], false),
    (Op::Shl, [0, 5, 9], [5, 9, 9], false),
    (Op::Shl, [31, 3, 9], [0x8000_0000, 9, 9], false),
    (Op::Shl, [32, 1, 9], [0, 9, 9], false),
    (Op::Shl, [33, 1, 9], [0, 9, 9], false),
    (Op::Shr, [4, 0xF000_0001, 9], [0x0F00_0000, 9, 9], false),
    (Op::Shr, [31, 0x8000_0000, 9], [1, 9, 9], false),
    (Op::Shr, [32, 0x8000_0000, 9], [0, 9, 9], false),
    (Op::Shr, [0xFFFF_FFFF, 0xFFFF_FFFF, 9], [0, 9, 9], false),
];

const COMPARISONS: &[Row] = &[
    (Op::Gt, [1, 2, 9], [1, 9, 9], false),
    (Op::Gt, [2, 1, 9], [0, 9, 9], false),
    (Op::Gt, [2, 2, 9], [0, 9, 9], false),
    (Op::Gt, [0x7FFF_FFFF, 0x8000_0000, 9], [0, 9, 9], false),
    (Op::Gt, [0xFFFF_FFFF, 0, 9], [1, 9, 9], false),
    (Op::Csub0, [5, 4, 3], [4, 3, 3], false),
    (Op::Csub0, [4, 4, 3], [4, 3, 3], true),
    (Op::Csub0, [1, 0xFFFF_FFFF, 3], [0xFFFF_FFFF, 3, 3], true),
    (Op::Ccnt1, [4, 4, 3], [4, 3, 3], false),
    (Op::Ccnt1, [4, 5, 3], [5, 3, 3], true),
    (Op::Ccnt1, [4, 0, 3], [0, 3, 3], true),
    (
        Op::Ccnt1,
        [0xFFFF_FFFF, 0x8000_0000, 3],
        [0x8000_0000, 3, 3],
        false,
    ),
];

const LONG_SUMS: &[Row] = &[
    (Op::Ladd, [1, 2, 1], [4, 2, 1], false),
    (Op::Ladd, [1, 2, 2], [3, 2, 2], false),
    (
        Op::Ladd,
        [0, 0x7FFF_FFFF, 1],
        [0x8000_0000, 0x7FFF_FFFF, 1],
        true,
    ),
    (
        Op::Ladd,
        [0xFFFF_FFFF, 0x8000_0000, 1],
        [0x8000_0000, 0x8000_0000, 1],
        false,
    ),
    (Op::Lsub, [1, 5, 1], [3, 5, 1], false),
    (
        Op::Lsub,
        [0, 0x8000_0000, 3],
        [0x7FFF_FFFF, 0x8000_0000, 3],
        true,
    ),
    (Op::Lsum, [0xFFFF_FFFF, 1, 1], [1, 1, 1], false),
    (
        Op::Lsum,
        [0xFFFF_FFFF, 0xFFFF_FFFF, 1],
        [0xFFFF_FFFF, 1, 1],
        false,
    ),
    (Op::Lsum, [1, 2, 0], [3, 0, 0], false),
    (Op::Ldiff, [1, 0, 0], [0xFFFF_FFFF, 1, 0], false),
    (Op::Ldiff, [0xFFFF_FFFF, 0, 1], [0, 1, 1], false),
    (Op::Ldiff, [1, 3, 1], [1, 0, 1], false),
];

const LONG_PRODUCTS: &[Row] = &[
    (
        Op::Lmul,
        [0xFFFF_FFFF, 0xFFFF_FFFF, 0xFFFF_FFFF],
        [0, 0xFFFF_FFFF, 0xFFFF_FFFF],
        false,
    ),
    (Op::Lmul, [2, 3, 4], [10, 0, 4], false),
    (Op::Lmul, [0x1_0000, 0x1_0000, 0], [0, 1, 0], false),
    (Op::Ldiv, [2, 0, 1], [0x8000_0000, 0, 1], false),
    (Op::Ldiv, [2, 7, 2], [0, 7, 2], true),
    (Op::Ldiv, [0, 7, 0], [0, 7, 0], true),
    (Op::Ldiv, [2, 7, 0], [3, 1, 0], false),
    (Op::Ldiv, [3, 0xFFFF_FFFF, 2], [0xFFFF_FFFF, 2, 2], false),
];

const COUNTS_OF_BYTES: &[Row] = &[
    (Op::Bcnt, [3, 2, 1], [12, 2, 1], false),
    (Op::Bcnt, [0x4000_0001, 2, 1], [4, 2, 1], false),
    (Op::Wcnt, [0x8000_0007, 2, 1], [0xE000_0001, 3, 2], false),
    (Op::Wcnt, [13, 2, 1], [3, 1, 2], false),
];

/// Every operation that works on the registers alone.
#[test]
fn operations(rt: HostRuntime) {
    check_all(&rt, "checked sums", SUMS_CHECKED);
    check_all(&rt, "sums that wrap", SUMS_THAT_WRAP);
    check_all(&rt, "products", PRODUCTS);
    check_all(&rt, "quotients", QUOTIENTS);
    check_all(&rt, "bits", BITS);
    check_all(&rt, "shifts", SHIFTS);
    check_all(&rt, "comparisons", COMPARISONS);
    check_all(&rt, "long sums", LONG_SUMS);
    check_all(&rt, "long products", LONG_PRODUCTS);
    check_all(&rt, "counts of bytes", COUNTS_OF_BYTES);
}

/// A function with its operand, with A, B and C before and after it, and whether it sets Error.
const FUNCTIONS: &[(Fun, i32, [u32; 3], [u32; 3], bool)] = &[
    (Fun::Ldc, 5, [1, 2, 3], [5, 1, 2], false),
    (Fun::Ldc, -1, [1, 2, 3], [0xFFFF_FFFF, 1, 2], false),
    (Fun::Adc, 2, [3, 2, 1], [5, 2, 1], false),
    (Fun::Adc, 1, [0x7FFF_FFFF, 2, 1], [0x8000_0000, 2, 1], true),
    (Fun::Adc, -1, [0x8000_0000, 2, 1], [0x7FFF_FFFF, 2, 1], true),
    (
        Fun::Ldnlp,
        3,
        [0x8000_0100, 2, 1],
        [0x8000_010C, 2, 1],
        false,
    ),
    (
        Fun::Ldnlp,
        -1,
        [0x8000_0100, 2, 1],
        [0x8000_00FC, 2, 1],
        false,
    ),
    (Fun::Eqc, 5, [5, 2, 1], [1, 2, 1], false),
    (Fun::Eqc, 5, [6, 2, 1], [0, 2, 1], false),
    (Fun::Eqc, -1, [0xFFFF_FFFF, 2, 1], [1, 2, 1], false),
];

#[test]
fn functions(rt: HostRuntime) {
    for (i, row) in FUNCTIONS.iter().enumerate() {
        let (fun, operand, before, wanted, error) = *row;
        let told = after(instr(fun, operand), regs(before, false)) == Some(regs(wanted, error));
        check(&rt, "functions", i, told);
    }
}

const OTHERS: &[Op] = &[
    Op::Lb,
    Op::Endp,
    Op::Gcall,
    Op::In,
    Op::Out,
    Op::Startp,
    Op::Outbyte,
    Op::Outword,
    Op::Stopp,
    Op::Ldpi,
    Op::Ldpri,
    Op::Ret,
    Op::Lend,
    Op::Disc,
    Op::Diss,
    Op::Runp,
    Op::Sb,
    Op::Gajw,
    Op::Alt,
    Op::Altwt,
    Op::Altend,
    Op::Enbc,
    Op::Enbs,
    Op::Move,
    Op::Stoperr,
];

const OTHER_FUNCTIONS: &[Fun] = &[
    Fun::J,
    Fun::Ldlp,
    Fun::Ldnl,
    Fun::Ldl,
    Fun::Call,
    Fun::Cj,
    Fun::Ajw,
    Fun::Stl,
    Fun::Stnl,
];

/// Whether an instruction needs more than the registers, and leaves them alone.
fn is_other(instr: Instr) -> bool {
    let before = regs([1, 2, 3], false);
    let mut seen = before;
    !registers(&instr, &mut seen) && seen == before && register_row(&instr, before).is_none()
}

#[test]
fn others(rt: HostRuntime) {
    let before = regs([1, 2, 3], false);
    for (i, op) in OTHERS.iter().enumerate() {
        let told = is_other(operation(*op)) && op_row(*op, before).is_none();
        check(&rt, "other operations", i, told);
    }
    check(&rt, "how many", 0, OPERATIONS.len() == OTHERS.len() + 31);
}

#[test]
fn other_functions(rt: HostRuntime) {
    let before = regs([1, 2, 3], false);
    for (i, fun) in OTHER_FUNCTIONS.iter().enumerate() {
        let told = is_other(instr(*fun, 5)) && fun_row(*fun, 5, before).is_none();
        check(&rt, "other functions", i, told);
    }
    check(&rt, "no operation", 0, is_other(instr(Fun::Opr, 0x22)));
}

/// The stack, and testerr, which tells of Error and clears it.
fn are_stacks() -> bool {
    let before = regs([1, 2, 3], true);
    push(before, 7) == regs([7, 1, 2], true)
        && pop(before) == regs([2, 3, 3], true)
        && set_a(before, 7) == regs([7, 2, 3], true)
        && after(operation(Op::Testerr), before) == Some(regs([0, 1, 2], false))
        && after(operation(Op::Testerr), regs([1, 2, 3], false)) == Some(regs([1, 1, 2], false))
}

#[test]
fn stacks(rt: HostRuntime) {
    check(&rt, "stacks", 0, are_stacks());
}
