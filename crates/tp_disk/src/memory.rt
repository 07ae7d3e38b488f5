//! A device in memory. One of its calls may come to a bad end.

ghost use Rattle.std.specs.Prelude.{◌≡◌, ℕ, ◌+◌, ◌≤◌, [], refl, ◌∷◌, ◌++◌, length, take, drop, replicate, is_ok, true, OnOk, IfOk};
ghost use Rattle.tp_disk.specs.Lower.{MayBe, Write, Sync, Read, written, MomentPassed};
ghost use Rattle.tp_disk.specs.Reads.{AreTrue, AreTrue-prop, answered};

use crate::counted::Counted;
use crate::disk::{DeviceFailed, Disk};
use crate::history::History;
use crate::plan::{Outcome, Plan, PlannedFault};
use crate::raw::RawDisk;
use std::alloc::{AllocError, Global};

/// A device in memory that doesn't count its failures.
#[derive(Drop)]
pub struct RawMemory {
    bytes: Vec<u8>,
    plan: Plan,
    /// The ranges since the last sync that was done, the moments before each call, and the reads that were answered.
    history: History,
    ghost fit: { AreTrue history.told.reads } by { AreTrue-prop history.told.reads },
}

/// A device in memory.
pub type MemDisk = Counted<RawMemory>;

/// Puts bytes over others.
fn put(bytes: &mut Vec<u8>, at: u64, piece: &[u8])
    requires { at + length piece.now ≤ length bytes.old.items }
    ensures { bytes.new.items ≡ written bytes.old.items at piece.now }
{
    let from = at as usize;
    bytes[from..from + piece.len()].copy_from_slice(piece);
}

impl RawMemory {
    ghost use Rattle.tp_disk.specs.Plan.{becomes};
    ghost use Rattle.tp_disk.specs.Memory.{memory_reads, memory_state, CameTo, PlanGoesOn};

    /// Makes the moment before a call past, and tells what the plan makes of the call.
    fn begin(&mut self) -> Outcome
        ensures outcome { result ≡ becomes self.old.plan 0 }
        ensures later { (n : ℕ) → becomes self.new.plan n ≡ becomes self.old.plan (n + 1) }
        ensures bytes { self.new.bytes ≡ self.old.bytes }
        ensures unsynced { self.new.history.told.unsynced ≡ self.old.history.told.unsynced }
        ensures past { MomentPassed (memory_state self.old) (memory_state self.new) }
        ensures unread { memory_reads self.new ≡ memory_reads self.old }
    {
        self.history = self.history.later(&self.bytes);
        self.plan.next()
    }

    /// Adds a read from `at` on that gave `came`.
    fn answered(&self, at: u64, came: &[u8]) -> History
        ensures { result.told ≡ record self.now.history.told { reads = memory_reads self.now ++ answered true at came.now self.now.bytes.items } }
    {
        History::of(&(self, at, came))
    }

    fn read_planned(&mut self, at: u64, out: &mut [u8]) -> Result<(), DeviceFailed>
        requires { at + length out.old ≤ length self.old.bytes.items }
        ensures came { CameTo (becomes self.old.plan 0) Read (is_ok result) (memory_state self.old) (memory_state self.new) }
        ensures bytes { OnOk result (out.new ≡ take (length out.old) (drop at self.old.bytes.items)) }
        ensures noted { memory_reads self.new ≡ memory_reads self.old ++ answered (is_ok result) at out.new self.old.bytes.items }
        ensures later { PlanGoesOn self.old.plan self.new.plan }
    {
        match self.begin() {
            Outcome::Done => {
                let from = at as usize;
                out.copy_from_slice(&self.bytes[from..from + out.len()]);
                self.history = self.answered(at, out);
                Ok(())
            }
            Outcome::Refused | Outcome::Torn(_) => Err(DeviceFailed),
        }
    }

    fn write_planned(&mut self, at: u64, bytes: &[u8]) -> Result<(), DeviceFailed>
        requires { at + length bytes.now ≤ length self.old.bytes.items }
        ensures came { CameTo (becomes self.old.plan 0) (Write at bytes.now) (is_ok result) (memory_state self.old) (memory_state self.new) }
        ensures unread { memory_reads self.new ≡ memory_reads self.old }
        ensures later { PlanGoesOn self.old.plan self.new.plan }
    {
        let outcome = self.begin();
        self.history = self.history.wrote(at, bytes.len() as u64);
        match outcome {
            Outcome::Done => {
                put(&mut self.bytes, at, bytes);
                Ok(())
            }
            Outcome::Refused => Err(DeviceFailed),
            Outcome::Torn(mut torn) => {
                torn.truncate(bytes.len());
                put(&mut self.bytes, at, &torn);
                Err(DeviceFailed)
            }
        }
    }

    fn sync_planned(&mut self) -> Result<(), DeviceFailed>
        ensures came { CameTo (becomes self.old.plan 0) Sync (is_ok result) (memory_state self.old) (memory_state self.new) }
        ensures unread { memory_reads self.new ≡ memory_reads self.old }
        ensures later { PlanGoesOn self.old.plan self.new.plan }
    {
        match self.begin() {
            Outcome::Done => {
                self.history = self.history.synced();
                Ok(())
            }
            Outcome::Refused | Outcome::Torn(_) => Err(DeviceFailed),
        }
    }
}

impl RawDisk for RawMemory {
    ghost use Rattle.tp_disk.specs.Memory.{memory_reads, memory_state};

    ghost size_of = { λ d. length d.bytes.items };

    ghost state = { memory_state };

    ghost reads = { memory_reads };

    fn size(&self) -> u64 {
        self.bytes.len() as u64
    }

    fn read(&mut self, at: u64, out: &mut [u8]) -> Result<(), DeviceFailed> {
        self.read_planned(at, out)
    }

    fn write_at(&mut self, at: u64, bytes: &[u8]) -> Result<(), DeviceFailed> {
        self.write_planned(at, bytes)
    }

    fn sync(&mut self) -> Result<(), DeviceFailed> {
        self.sync_planned()
    }

    ghost whole = { λ d. refl };
}

impl Counted<RawMemory> {
    ghost use Rattle.tp_disk.specs.declared.plan.Outcome.{Outcome};
    ghost use Rattle.tp_disk.specs.Plan.{becomes, planned};
    ghost use Rattle.tp_disk.specs.Memory.{disk_state, disk_plan};

    /// Makes a device that holds `bytes`. No call of it has a fault.
    pub fn of_bytes(bytes: Vec<u8>) -> MemDisk
        ensures state { disk_state result ≡ record { now = record { bytes = bytes.items; unsynced = [] }; past = [] } }
        ensures faultless { (n : ℕ) → becomes (disk_plan result) n ≡ Outcome.Done }
        ensures failures { ⟦<MemDisk as Disk>⟧.failures_of result ≡ 0 }
    {
        Counted::new(RawMemory {
            bytes,
            plan: Plan::faultless(),
            history: History::new(),
        })
    }

    /// Makes a device of `size` bytes, all of them 0. No call of it has a fault. `AllocError` if memory is out.
    pub fn zeroed(alloc: Global, size: usize) -> Result<MemDisk, AllocError>
        ensures faultless { IfOk result (λ disk. (n : ℕ) → becomes (disk_plan disk) n ≡ Outcome.Done) }
        ensures failures { IfOk result (λ disk. ⟦<MemDisk as Disk>⟧.failures_of disk ≡ 0) }
        ensures state { IfOk result (λ disk. disk_state disk ≡ record { now = record { bytes = replicate size 0; unsynced = [] }; past = [] }) }
    {
        let mut bytes = Vec::new(alloc);
        bytes.resize(size, 0)?;
        Ok(MemDisk::of_bytes(bytes))
    }

    /// Gives the fault to the call with this number from now on, and to no other. The next call has number 0.
    pub fn with_fault(self, call: u64, fault: PlannedFault) -> MemDisk
        ensures state { disk_state result ≡ disk_state self }
        ensures planned { (n : ℕ) → becomes (disk_plan result) n ≡ planned (Some fault) call n }
        ensures failures { ⟦<MemDisk as Disk>⟧.failures_of result ≡ ⟦<MemDisk as Disk>⟧.failures_of self }
    {
        let mut disk = self;
        disk.raw.plan = Plan::with_fault(call, fault);
        disk
    }

    /// Gives what a read would give.
    pub fn bytes(&self) -> &[u8]
        ensures { result.now ≡ (disk_state self.now).now.bytes }
    {
        &self.raw.bytes
    }

    /// Gives what is left after a crash: the bytes as they were, which the crash may leave.
    pub fn crash(self) -> Vec<u8>
        ensures stood { result.items ≡ (disk_state self).now.bytes }
        ensures may { MayBe (disk_state self).now result.items }
    {
        self.raw.bytes
    }
}
