//! Instructions as bytes, and what some of them do to the registers.

ghost use Rattle.std.specs.Prelude.{◌≡◌, ◌++◌, [], ◌∷◌, pos, negsuc, true, replicate};
ghost use Rattle.tp_law_machine.specs.Lower.{Ldc, Opr, Add, Sum, Div, Rem, Lsum, Lmul, Ldiv, NeedMore, LongPrefix, UnknownOp, decoded, spelling, op_row, error_if};
ghost use Rattle.tp_law_machine.specs.Start.{regs};

/// Operands from 0 on and below 0, a spelling that is longer than it has to be, and an operation.
pub fn instructions_are_read()
    ensures positive { decoded (0x27 ∷ 0x25 ∷ 0x44 ∷ []) ≡ Ok (record { fun = Ldc; operand = pos 0x754; len = 3 }) }
    ensures negative { decoded (0x61 ∷ 0x41 ∷ []) ≡ Ok (record { fun = Ldc; operand = negsuc 30; len = 2 }) }
    ensures longer { decoded (0x61 ∷ 0x6D ∷ 0x43 ∷ []) ≡ Ok (record { fun = Ldc; operand = pos 0x123; len = 3 }) }
    ensures mint { decoded (0x24 ∷ 0xF2 ∷ []) ≡ Ok (record { fun = Opr; operand = pos 0x42; len = 2 }) }
{}

/// Too many prefix bytes, too few bytes, none, and an operation of timers.
pub fn instructions_are_refused()
    ensures too_long { decoded (replicate 17 0x20 ++ 0x40 ∷ []) ≡ Err LongPrefix }
    ensures too_short { decoded (0x24 ∷ []) ≡ Err NeedMore }
    ensures empty { decoded [] ≡ Err NeedMore }
    ensures no_operation { decoded (0x22 ∷ 0xF2 ∷ []) ≡ Err UnknownOp }
{}

/// No spelling of an instruction is shorter than this one.
pub fn instructions_are_spelt()
    ensures positive { spelling Ldc 0x123 ≡ 0x21 ∷ 0x22 ∷ 0x43 ∷ [] }
    ensures minus_one { spelling Ldc 0xFFFF_FFFF ≡ 0x60 ∷ 0x4F ∷ [] }
    ensures most_negative { spelling Ldc 0x8000_0000 ≡ 0x27 ∷ 0x2F ∷ 0x2F ∷ 0x2F ∷ 0x2F ∷ 0x2F ∷ 0x6F ∷ 0x40 ∷ [] }
{}

/// Sums that wrap: `add` sets Error, `sum` does not, and `lsum` leaves the carry in B.
pub fn sums_wrap()
    ensures add { op_row Add (regs 1 0x7FFF_FFFF 5) ≡ Some (error_if true (regs 0x8000_0000 5 5)) }
    ensures sum { op_row Sum (regs 1 0x7FFF_FFFF 5) ≡ Some (regs 0x8000_0000 5 5) }
    ensures lsum { op_row Lsum (regs 0xFFFF_FFFF 1 1) ≡ Some (regs 1 1 1) }
{}

/// The division of signed words goes towards zero, and the rest has the sign of the dividend, here -7 by 2.
pub fn divisions_go_towards_zero()
    ensures div { op_row Div (regs 2 0xFFFF_FFF9 5) ≡ Some (regs 0xFFFF_FFFD 5 5) }
    ensures rem { op_row Rem (regs 2 0xFFFF_FFF9 5) ≡ Some (regs 0xFFFF_FFFF 5 5) }
{}

/// Products and quotients of two words, and a quotient that doesn't fit a word.
pub fn words_come_in_pairs()
    ensures lmul { op_row Lmul (regs 0xFFFF_FFFF 0xFFFF_FFFF 0xFFFF_FFFF) ≡ Some (regs 0 0xFFFF_FFFF 0xFFFF_FFFF) }
    ensures ldiv { op_row Ldiv (regs 2 0 1) ≡ Some (regs 0x8000_0000 0 1) }
    ensures too_large { op_row Ldiv (regs 2 0 2) ≡ Some (error_if true (regs 0 0 2)) }
{}
