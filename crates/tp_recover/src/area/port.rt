//! The ports of a cut.

ghost use Rattle.std.specs.Prelude.{◌≡◌, true, ◌*◌, ◌+◌, ◌≤◌, ◌<◌, ◌^◌, IfOk, map, length, drop};
ghost use Rattle.tp_recover.specs.Lower.{AreTrue, WereTrue, port_made, record_of, is_port_of, or_damaged, port_with, ports_in, Counts};
ghost use Rattle.tp_recover.specs.Ports.{ArePorts};
ghost use Rattle.tp_recover.specs.Reading.{has_read, ReadAnswer, LeavesAlone, LeavesNothingNew};

use crate::reading::device::read_bytes;
use crate::unopened::Unopened;
use std::alloc::{AllocError, Global};
use tp_area::{PortRecord, port_in};
use tp_book::PortParts;
use tp_disk::Disk;
use tp_model::OpenFault;
use tp_model::limits::PORT_BYTES;

/// Copies bytes.
fn copied(alloc: Global, bytes: &[u8]) -> Result<Vec<u8>, AllocError>
    ensures { IfOk result (λ copy. copy.items ≡ bytes.now) }
{
    let mut copy = Vec::new(alloc);
    copy.extend_from_slice(bytes)?;
    Ok(copy)
}

/// Gives the parts of the port that a record says.
fn parts_of(alloc: Global, port: PortRecord<'_>) -> Result<PortParts, AllocError>
    ensures { IfOk result (λ parts. port_made parts ≡ record_of port.entry) }
{
    Ok(PortParts {
        pending: copied(alloc, port.pending)?,
        in_base: port.in_base,
        outputs: copied(alloc, port.outputs)?,
        out_base: port.out_base,
    })
}

/// Reads the port of a cut of `base` entries, whose record is at `at`.
fn read_port<D: Disk>(
    alloc: Global,
    disk: &mut D,
    at: u64,
    base: u64,
) -> Result<PortParts, Unopened>
    requires { at + PORT_BYTES ≤ D.size_of disk.old }
    ensures counts { Counts (has_read result) (D.size_of disk.old) (D.size_of disk.new) (D.failures_of disk.old) (D.failures_of disk.new) }
    ensures premise { WereTrue (D.reads disk.old) (D.reads disk.new) }
    ensures kept { LeavesAlone result (D.state disk.old).now (D.state disk.new).now }
    ensures leaves { LeavesNothingNew (D.state disk.old) (D.state disk.new) }
    ensures port { IfOk result (λ port. is_port_of base (port_made port) ≡ true) }
    ensures is { AreTrue (D.reads disk.new) → ReadAnswer port_made (or_damaged at (port_with base (drop at (D.state disk.old).now.bytes))) result }
{
    let bytes = read_bytes(alloc, disk, at, PORT_BYTES)?;
    let Some(port) = port_in(base, &bytes) else {
        return Err(Unopened::Fault(OpenFault::Damaged(at)));
    };
    match parts_of(alloc, port) {
        Ok(parts) => Ok(parts),
        Err(_) => Err(Unopened::Memory),
    }
}

/// Reads `count` ports of a cut of `base` entries. Their records begin at `at`, one after the other.
pub(crate) fn read_ports<D: Disk>(
    alloc: Global,
    disk: &mut D,
    at: u64,
    base: u64,
    count: usize,
) -> Result<Vec<PortParts>, Unopened>
    requires inside { at + PORT_BYTES * count ≤ D.size_of disk.old }
    requires counted { at + PORT_BYTES * count < 2 ^ 64 }
    ensures counts { Counts (has_read result) (D.size_of disk.old) (D.size_of disk.new) (D.failures_of disk.old) (D.failures_of disk.new) }
    ensures premise { WereTrue (D.reads disk.old) (D.reads disk.new) }
    ensures kept { LeavesAlone result (D.state disk.old).now (D.state disk.new).now }
    ensures leaves { LeavesNothingNew (D.state disk.old) (D.state disk.new) }
    ensures len { IfOk result (λ ports. length ports.items ≡ count) }
    ensures ports { IfOk result (λ ports. ArePorts base (map port_made ports.items)) }
    ensures is { AreTrue (D.reads disk.new) → ReadAnswer (λ ports. map port_made ports.items) (ports_in base at count (drop at (D.state disk.old).now.bytes)) result }
{
    let mut ports = Vec::new(alloc);
    for port in 0..count {
        let place = at + (PORT_BYTES * port) as u64;
        let read = read_port(alloc, disk, place, base)?;
        let Ok(()) = ports.push(read) else {
            return Err(Unopened::Memory);
        };
    }
    Ok(ports)
}
