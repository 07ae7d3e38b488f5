//! The names of instructions, as docs/MACHINE.md has them, of faults and of what runs.

ghost use Rattle.std.specs.Prelude.{◌≡◌};
ghost use Rattle.tp_trace.specs.Names.{fault_name, fun_name, op_name, state_name};

use tp_model::{Fault, Fun, Op, State};

/// The name of a function.
pub fn fun_name(fun: Fun) -> &'static str
    ensures { result.now ≡ fun_name fun }
{
    match fun {
        Fun::J => "j",
        Fun::Ldlp => "ldlp",
        Fun::Ldnl => "ldnl",
        Fun::Ldc => "ldc",
        Fun::Ldnlp => "ldnlp",
        Fun::Ldl => "ldl",
        Fun::Adc => "adc",
        Fun::Call => "call",
        Fun::Cj => "cj",
        Fun::Ajw => "ajw",
        Fun::Eqc => "eqc",
        Fun::Stl => "stl",
        Fun::Stnl => "stnl",
        Fun::Opr => "opr",
    }
}

/// The name of an operation.
pub fn op_name(op: Op) -> &'static str
    ensures { result.now ≡ op_name op }
{
    match op {
        Op::Rev => "rev",
        Op::Lb => "lb",
        Op::Bsub => "bsub",
        Op::Endp => "endp",
        Op::Diff => "diff",
        Op::Add => "add",
        Op::Gcall => "gcall",
        Op::In => "in",
        Op::Prod => "prod",
        Op::Gt => "gt",
        Op::Wsub => "wsub",
        Op::Out => "out",
        Op::Sub => "sub",
        Op::Startp => "startp",
        Op::Outbyte => "outbyte",
        Op::Outword => "outword",
        Op::Seterr => "seterr",
        Op::Csub0 => "csub0",
        Op::Stopp => "stopp",
        Op::Ladd => "ladd",
        Op::Ldiv => "ldiv",
        Op::Ldpi => "ldpi",
        Op::Ldpri => "ldpri",
        Op::Rem => "rem",
        Op::Ret => "ret",
        Op::Lend => "lend",
        Op::Testerr => "testerr",
        Op::Div => "div",
        Op::Disc => "disc",
        Op::Diss => "diss",
        Op::Lmul => "lmul",
        Op::Not => "not",
        Op::Xor => "xor",
        Op::Bcnt => "bcnt",
        Op::Lsum => "lsum",
        Op::Lsub => "lsub",
        Op::Runp => "runp",
        Op::Sb => "sb",
        Op::Gajw => "gajw",
        Op::Wcnt => "wcnt",
        Op::Shr => "shr",
        Op::Shl => "shl",
        Op::Mint => "mint",
        Op::Alt => "alt",
        Op::Altwt => "altwt",
        Op::Altend => "altend",
        Op::And => "and",
        Op::Enbc => "enbc",
        Op::Enbs => "enbs",
        Op::Move => "move",
        Op::Or => "or",
        Op::Ccnt1 => "ccnt1",
        Op::Ldiff => "ldiff",
        Op::Sum => "sum",
        Op::Mul => "mul",
        Op::Stoperr => "stoperr",
    }
}

/// Why a node halted, in a word.
pub fn fault_name(fault: Fault) -> &'static str
    ensures { result.now ≡ fault_name fault }
{
    match fault {
        Fault::BadAddress => "BadAddress",
        Fault::UnknownOp => "UnknownOp",
        Fault::LongPrefix => "LongPrefix",
        Fault::LinkBusy => "LinkBusy",
    }
}

/// What a processor runs, in a word.
pub fn state_name(state: State) -> &'static str
    ensures { result.now ≡ state_name state }
{
    match state {
        State::Idle => "idle",
        State::High => "high",
        State::Low => "low",
    }
}
