//! Steps as lines.

ghost use Rattle.std.specs.Prelude.{◌≡◌, ◌++◌, OnOk, Some, string_bytes};
ghost use Rattle.tp_trace.specs.Lines.{act_text, cpu_text, error_text, function_text, operation_text, sent_text, step_front, step_text, stop_line, take_line, token_text};

use crate::act::Act;
use crate::hearing::Heard;
use crate::names::{fault_name, fun_name, op_name, state_name};
use crate::stepping::Seen;
use std::alloc::AllocError;
use std::fmt::Write;
use tp_cpu::op_at;
use tp_model::{Cpu, Fun, Instr, Op, Token};
use tp_node::Standing;

/// The text of an operation that `opr` selects.
fn operation_text(op: Option<Op>) -> &'static str
    ensures { result.now ≡ operation_text op }
{
    match op {
        Some(op) => op_name(op),
        None => "opr",
    }
}

fn push_function(text: &mut String, fun: Fun, instr: Instr) -> Result<(), AllocError>
    ensures { OnOk result (string_bytes text.new ≡ string_bytes text.old ++ function_text fun instr) }
{
    match fun {
        Fun::Opr => text.push_str(operation_text(op_at(instr.operand.cast_unsigned()))),
        _ => {
            let (name, operand) = (fun_name(fun), instr.operand);
            write!(text, "{name} {operand}")
        }
    }
}

/// Appends what a step does.
fn push_act(text: &mut String, act: Act) -> Result<(), AllocError>
    ensures { OnOk result (string_bytes text.new ≡ string_bytes text.old ++ act_text act) }
{
    match act {
        Act::Instruction(Ok(instr)) => push_function(text, instr.fun, instr),
        Act::Instruction(Err(_)) => text.push_str("no instruction"),
        Act::Interrupt => text.push_str("interrupt"),
        Act::DispatchHigh => text.push_str("dispatch high"),
        Act::Restore => text.push_str("restore"),
        Act::DispatchLow => text.push_str("dispatch low"),
    }
}

fn error_text(error: bool) -> &'static str
    ensures { result.now ≡ error_text error }
{
    if error { " error" } else { "" }
}

fn push_front(text: &mut String, number: u64, at: u32) -> Result<(), AllocError>
    ensures { OnOk result (string_bytes text.new ≡ string_bytes text.old ++ step_front number at) }
{
    write!(text, "{number} {at:08X} ")
}

fn push_cpu(text: &mut String, cpu: Cpu) -> Result<(), AllocError>
    ensures { OnOk result (string_bytes text.new ≡ string_bytes text.old ++ cpu_text cpu) }
{
    let (a, b, c, wptr) = (cpu.regs.a, cpu.regs.b, cpu.regs.c, cpu.wptr);
    let (name, error) = (state_name(cpu.state), error_text(cpu.regs.error));
    write!(
        text,
        " A {a:08X} B {b:08X} C {c:08X} Wptr {wptr:08X} {name}{error}"
    )
}

fn push_token(text: &mut String, token: Token) -> Result<(), AllocError>
    ensures { OnOk result (string_bytes text.new ≡ string_bytes text.old ++ token_text token) }
{
    match token {
        Token::Data(byte) => write!(text, "Data {byte:02X}"),
        Token::Ack => text.push_str("Ack"),
        Token::Marker => text.push_str("Marker"),
    }
}

/// Appends a token that leaves on a link.
fn push_some(text: &mut String, link: u8, token: Token) -> Result<(), AllocError>
    ensures { OnOk result (string_bytes text.new ≡ string_bytes text.old ++ sent_text (Some (link, token))) }
{
    write!(text, " sends {link} ")?;
    push_token(text, token)
}

/// Appends what leaves, if anything does.
fn push_sent(text: &mut String, sent: Option<(u8, Token)>) -> Result<(), AllocError>
    ensures { OnOk result (string_bytes text.new ≡ string_bytes text.old ++ sent_text sent) }
{
    match sent {
        Some((link, token)) => push_some(text, link, token),
        None => Ok(()),
    }
}

/// Appends the step of a number, as the front of a line.
pub fn push_step(text: &mut String, number: u64, seen: Seen) -> Result<(), AllocError>
    ensures { OnOk result (string_bytes text.new ≡ string_bytes text.old ++ step_text number seen) }
{
    push_front(text, number, seen.at)?;
    push_act(text, seen.act)?;
    push_cpu(text, seen.cpu)?;
    push_sent(text, seen.sent)
}

/// Appends the line of a token that comes in.
pub fn push_take(text: &mut String, heard: Heard) -> Result<(), AllocError>
    ensures { OnOk result (string_bytes text.new ≡ string_bytes text.old ++ take_line heard) }
{
    let link = heard.link;
    write!(text, "takes {link} ")?;
    push_token(text, heard.token)?;
    push_sent(text, heard.sent)?;
    text.push_str("\n")
}

/// Appends the line of a node that has no step, by how it stands.
pub fn push_stop(text: &mut String, standing: Standing) -> Result<(), AllocError>
    ensures { OnOk result (string_bytes text.new ≡ string_bytes text.old ++ stop_line standing) }
{
    match standing {
        Standing::Halted { fault, at } => {
            let name = fault_name(fault);
            write!(text, "halted {name} at {at:08X}\n")
        }
        Standing::Waits => text.push_str("waits\n"),
        Standing::Free => text.push_str("idle\n"),
    }
}
