//! What is said of a copy that isn't made, by which of the two devices fails.

use std::alloc::{AllocError, Global};
use std::test::Fail;
use tp_disk::{MemDisk, PlannedFault};
use tp_program::backup_on;
use tp_tests_fixtures::{KEPT, SIZE};

/// No call has that number.
const NEVER: u64 = u64::MAX;

/// What is said of a copy, if calls of the device fail from that number on, and those of the copy from the other one on; nothing if the copy is made.
fn said_of(alloc: Global, device: u64, copy: u64) -> Result<Vec<u8>, AllocError> {
    let bytes = KEPT[1].bytes(alloc)?;
    let mut source = MemDisk::of_bytes(bytes).with_fault(device, PlannedFault::StopsBefore);
    let mut made = MemDisk::zeroed(alloc, SIZE)?.with_fault(copy, PlannedFault::StopsBefore);
    let mut err = Vec::new(alloc);
    let _ = backup_on(alloc, &mut source, &mut made, &mut err);
    Ok(err)
}

/// Whether it is that, whichever call of the copy fails first, or of the device, until none does. There are some such calls.
fn is_told(alloc: Global, of_copy: bool, told: &[u8]) -> Result<bool, AllocError> {
    for call in 0..200u64 {
        let (device, copy) = if of_copy {
            (NEVER, call)
        } else {
            (call, NEVER)
        };
        let said = said_of(alloc, device, copy)?;
        if said.as_slice() != told {
            return Ok(said.is_empty() && call > 4);
        }
    }
    Ok(false)
}

#[test]
fn which_device_fails_is_told(rt: HostRuntime) -> Result<(), Fail> {
    assert!(rt; is_told(rt.alloc(), false, b"tpnet: ReadFailed\n")?);
    assert!(rt; is_told(rt.alloc(), true, b"tpnet: DeviceFailed\n")?);
    Ok(())
}
