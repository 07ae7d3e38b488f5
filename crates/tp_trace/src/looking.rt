//! Looking at a node: its processor, and what its next step does.

ghost use Rattle.std.specs.Prelude.{◌≡◌, Some, None, [], IfOk, OnOk, drop, slice_range};
ghost use Rattle.tp_trace.specs.Lower.{from_le_bytes, w32, IsNodeOfBytes, decoded, byte_at, offset, word_at, kept_at};
ghost use Rattle.tp_trace.specs.Act.{act_in, act_of, idle_act, instruction_act, low_act};
ghost use Rattle.tp_trace.specs.Stops.{instruction_at, instruction_in, memory_of};

use crate::act::Act;
use crate::fields::cpu_in;
use std::alloc::{AllocError, Global};
use tp_cpu::Decoder;
use tp_model::limits::{IMAGE_HEAD_BYTES, PAGE_BYTES};
use tp_model::{Cpu, DecodeFault, Instr, State};
use tp_node::Node;

/// The word that names no process, and the first address of memory.
const NOT_PROCESS: u32 = 0x8000_0000;

/// Where memory has the word of the interrupted low process.
const KEPT_PLACE: usize = 0x2C;

/// The processor of a node that is frozen.
fn cpu_of(node: &Node) -> Cpu
    requires frozen { node.now.frozen ≡ Some node.now.live }
    requires bytes { IsNodeOfBytes node.now.live }
    ensures { result ≡ node.now.live.cpu }
{
    let mut head = [0; IMAGE_HEAD_BYTES];
    node.frozen_head(&mut head);
    cpu_in(&head)
}

/// The byte at an address of a frozen node; `None` outside its memory.
fn byte_of(node: &Node, address: u32) -> Option<u8>
    requires { node.now.frozen ≡ Some node.now.live }
    ensures { result ≡ byte_at node.now.live.memory address }
{
    let at = address.wrapping_add(NOT_PROCESS) as usize;
    if at / PAGE_BYTES >= node.pages() {
        return None;
    }
    let mut page = [0; PAGE_BYTES];
    node.frozen_page(at / PAGE_BYTES, &mut page);
    Some(page[at % PAGE_BYTES])
}

/// Reads the instruction at an address of a node that is frozen, byte by byte.
fn instruction_of(node: &Node, address: u32) -> Result<Instr, DecodeFault>
    requires frozen { node.now.frozen ≡ Some node.now.live }
    requires bytes { IsNodeOfBytes node.now.live }
    ensures { result ≡ decoded (drop (offset address) node.now.live.memory) }
{
    let mut decoder = Decoder::new();
    let mut at = address;
    while let Some(byte) = byte_of(node, at) {
        if let Some(answer) = decoder.feed(byte) {
            return answer;
        }
        at = at.wrapping_add(1);
    }
    Err(DecodeFault::NeedMore)
}

/// The word that names the interrupted low process, in the first page of memory.
fn kept_in(page: &[u8; PAGE_BYTES]) -> u32
    ensures { result ≡ from_le_bytes w32 (slice_range page.now 44 48) }
{
    u32::from_le_bytes([
        page[KEPT_PLACE],
        page[KEPT_PLACE + 1],
        page[KEPT_PLACE + 2],
        page[KEPT_PLACE + 3],
    ])
}

/// The word that names the interrupted low process of a frozen node.
fn kept_of(node: &Node) -> Option<u32>
    requires { node.now.frozen ≡ Some node.now.live }
    ensures { result ≡ word_at node.now.live.memory kept_at }
{
    if node.pages() == 0 {
        return None;
    }
    let mut page = [0; PAGE_BYTES];
    node.frozen_page(0, &mut page);
    Some(kept_in(&page))
}

/// Which low process comes first, if no high one is ready.
fn low_act(kept: Option<u32>) -> Act
    ensures { result ≡ low_act kept }
{
    match kept {
        Some(NOT_PROCESS) => Act::DispatchLow,
        _ => Act::Restore,
    }
}

/// What a step of a frozen node does, if nothing runs there.
fn idle_act(node: &Node, cpu: &Cpu) -> Act
    requires { node.now.frozen ≡ Some node.now.live }
    ensures { result ≡ idle_act cpu.now node.now.live.memory }
{
    if cpu.high.front == NOT_PROCESS {
        low_act(kept_of(node))
    } else {
        Act::DispatchHigh
    }
}

/// What the next step of a node that is frozen does.
fn act_in(node: &Node, cpu: &Cpu) -> Act
    requires frozen { node.now.frozen ≡ Some node.now.live }
    requires bytes { IsNodeOfBytes node.now.live }
    ensures { result ≡ act_in cpu.now.state cpu.now node.now.live.memory }
{
    match cpu.state {
        State::Idle => idle_act(node, cpu),
        State::Low if cpu.high.front != NOT_PROCESS => Act::Interrupt,
        _ => Act::Instruction(instruction_of(node, cpu.iptr)),
    }
}

/// A node between two steps: its processor, and what its next step does, if it has one.
#[derive(Clone, Copy)]
pub struct Moment {
    pub cpu: Cpu,
    pub act: Act,
}

/// Looks at a node that is frozen.
fn look_at(node: &Node) -> Moment
    requires frozen { node.now.frozen ≡ Some node.now.live }
    requires bytes { IsNodeOfBytes node.now.live }
    ensures { result ≡ record { cpu = node.now.live.cpu; act = act_of node.now.live } }
{
    let cpu = cpu_of(node);
    let act = act_in(node, &cpu);
    Moment { cpu, act }
}

/// Looks at a node, which is frozen meanwhile.
pub fn look(node: &mut Node) -> Moment
    requires thawed { node.old.frozen ≡ None }
    requires bytes { IsNodeOfBytes node.old.live }
    ensures look { result ≡ record { cpu = node.old.live.cpu; act = act_of node.old.live } }
    ensures same { node.new ≡ node.old }
{
    node.freeze();
    let look = look_at(node);
    node.drop_frozen();
    look
}

/// The processor of a node, which is frozen meanwhile.
pub fn cpu_now(node: &mut Node) -> Cpu
    requires thawed { node.old.frozen ≡ None }
    requires bytes { IsNodeOfBytes node.old.live }
    ensures cpu { result ≡ node.old.live.cpu }
    ensures same { node.new ≡ node.old }
{
    look(node).cpu
}

/// Where the instruction is that a process of a node makes next, if the next step is one.
fn instruction_in(moment: Moment) -> Option<u32>
    ensures { result ≡ instruction_in moment.act moment.cpu }
{
    match (moment.act, moment.cpu.halt) {
        (Act::Instruction(_), None) => Some(moment.cpu.iptr),
        _ => None,
    }
}

/// Where the instruction is that a process of a node makes next, if the next step is one. The node is frozen meanwhile.
pub fn instruction_at(node: &mut Node) -> Option<u32>
    requires thawed { node.old.frozen ≡ None }
    requires bytes { IsNodeOfBytes node.old.live }
    ensures at { result ≡ instruction_at node.old.live }
    ensures same { node.new ≡ node.old }
{
    instruction_in(look(node))
}

/// Appends bytes of a node's memory, as many from an address on as there are, up to `count`. The node is frozen.
fn push_memory(node: &Node, from: u32, count: usize, bytes: &mut Vec<u8>) -> Result<(), AllocError>
    requires frozen { node.now.frozen ≡ Some node.now.live }
    requires bytes { IsNodeOfBytes node.now.live }
    requires empty { bytes.old.items ≡ [] }
    ensures { OnOk result (bytes.new.items ≡ memory_of node.now.live from count) }
{
    let mut at = from;
    while bytes.len() < count {
        let Some(byte) = byte_of(node, at) else {
            return Ok(());
        };
        bytes.push(byte)?;
        at = at.wrapping_add(1);
    }
    Ok(())
}

/// Bytes of a node's memory, as many from an address on as there are, up to `count`. The node is frozen meanwhile.
pub fn memory_of(
    alloc: Global,
    node: &mut Node,
    from: u32,
    count: usize,
) -> Result<Vec<u8>, AllocError>
    requires thawed { node.old.frozen ≡ None }
    requires bytes { IsNodeOfBytes node.old.live }
    ensures memory { IfOk result (λ bytes. bytes.items ≡ memory_of node.old.live from count) }
    ensures same { node.new ≡ node.old }
{
    let mut bytes = Vec::new(alloc);
    node.freeze();
    let pushed = push_memory(node, from, count, &mut bytes);
    node.drop_frozen();
    match pushed {
        Ok(()) => Ok(bytes),
        Err(refused) => Err(refused),
    }
}
