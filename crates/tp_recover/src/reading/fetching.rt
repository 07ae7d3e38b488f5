//! How a window is filled, and what is taken out of it.

ghost use Rattle.std.specs.Prelude.{◌≡◌, ◌+◌, ◌^◌, ◌<◌, ◌≤◌, ℕ, List, IsTrue, IfOk, OnOk, is_ok, length, take, drop};
ghost use Rattle.tp_recover.specs.Lower.{Counts, AreTrue, WereTrue};
ghost use Rattle.tp_recover.specs.Reading.{LeavesNothingNew};
ghost use Rattle.tp_recover.specs.Windows.{HasBytes, IsOf};

use crate::reading::window::{WINDOW_BYTES, Window};
use std::alloc::{AllocError, Global};
use tp_disk::{DeviceFailed, Disk};

/// Reads the first `count` of `bytes` from a place on.
fn read_front<D: Disk>(
    disk: &mut D,
    at: u64,
    bytes: &mut [u8],
    count: usize,
) -> Result<(), DeviceFailed>
    requires few { count ≤ length bytes.old }
    requires inside { at + count ≤ D.size_of disk.old }
    ensures counts { Counts (is_ok result) (D.size_of disk.old) (D.size_of disk.new) (D.failures_of disk.old) (D.failures_of disk.new) }
    ensures premise { WereTrue (D.reads disk.old) (D.reads disk.new) }
    ensures kept { OnOk result ((D.state disk.new).now ≡ (D.state disk.old).now) }
    ensures leaves { LeavesNothingNew (D.state disk.old) (D.state disk.new) }
    ensures bytes { AreTrue (D.reads disk.new) → OnOk result (take count bytes.new ≡ take count (drop at (D.state disk.new).now.bytes)) }
{
    disk.read(at, &mut bytes[..count])
}

/// Reads the first `count` of `bytes`, for which there is memory, from a place on.
fn read_into<D: Disk>(
    disk: &mut D,
    at: u64,
    bytes: &mut Vec<u8>,
    count: usize,
) -> Result<(), DeviceFailed>
    requires few { count ≤ length bytes.old.items }
    requires inside { at + count ≤ D.size_of disk.old }
    ensures counts { Counts (is_ok result) (D.size_of disk.old) (D.size_of disk.new) (D.failures_of disk.old) (D.failures_of disk.new) }
    ensures premise { WereTrue (D.reads disk.old) (D.reads disk.new) }
    ensures kept { OnOk result ((D.state disk.new).now ≡ (D.state disk.old).now) }
    ensures leaves { LeavesNothingNew (D.state disk.old) (D.state disk.new) }
    ensures len { length bytes.new.items ≡ length bytes.old.items }
    ensures bytes { AreTrue (D.reads disk.new) → OnOk result (take count bytes.new.items ≡ take count (drop at (D.state disk.new).now.bytes)) }
{
    read_front(disk, at, bytes, count)
}

impl Window {
    /// Makes an empty window. `AllocError` if memory is out.
    pub(crate) fn new(alloc: Global) -> Result<Window, AllocError>
        ensures fits { IfOk result (λ window. window.count ≤ WINDOW_BYTES) }
        ensures is { (bytes : List ℕ) → IfOk result (λ window. IsOf window bytes) }
    {
        let bytes = Vec::from_elem(alloc, 0, WINDOW_BYTES)?;
        Ok(Window {
            from: 0,
            count: 0,
            bytes,
        })
    }

    /// Whether it has `count` bytes from a place on.
    fn has(&self, at: u64, count: usize) -> bool
        requires { at + count < 2 ^ 64 }
        ensures { IsTrue result → HasBytes self.now at count }
    {
        self.from <= at && at - self.from + count as u64 <= self.count as u64
    }

    /// Reads `count` bytes from `at` on, if they aren't there, and more, up to the window's size or to `end`. After a failure it may have
    /// anything.
    pub(crate) fn fetch<D: Disk>(
        &mut self,
        disk: &mut D,
        at: u64,
        end: u64,
        count: usize,
    ) -> Result<(), DeviceFailed>
        requires fits { self.old.count ≤ WINDOW_BYTES }
        requires few { count ≤ WINDOW_BYTES }
        requires there { at + count ≤ end }
        requires inside { end ≤ D.size_of disk.old }
        requires is { AreTrue (D.reads disk.old) → IsOf self.old (D.state disk.old).now.bytes }
        ensures counts { Counts (is_ok result) (D.size_of disk.old) (D.size_of disk.new) (D.failures_of disk.old) (D.failures_of disk.new) }
        ensures premise { WereTrue (D.reads disk.old) (D.reads disk.new) }
        ensures kept { OnOk result ((D.state disk.new).now ≡ (D.state disk.old).now) }
        ensures leaves { LeavesNothingNew (D.state disk.old) (D.state disk.new) }
        ensures fits { self.new.count ≤ WINDOW_BYTES }
        ensures has { OnOk result (HasBytes self.new at count) }
        ensures is { AreTrue (D.reads disk.new) → OnOk result (IsOf self.new (D.state disk.new).now.bytes) }
    {
        if self.has(at, count) {
            return Ok(());
        }
        let wanted = (end - at).min(WINDOW_BYTES as u64) as usize;
        self.from = at;
        self.count = wanted;
        read_into(disk, at, &mut self.bytes, wanted)
    }

    /// Gives `count` bytes from a place on.
    pub(crate) fn bytes_at(&self, at: u64, count: usize) -> &[u8]
        requires fits { self.now.count ≤ WINDOW_BYTES }
        requires has { HasBytes self.now at count }
        ensures len { length result.now ≡ count }
        ensures is { (bytes : List ℕ) → IsOf self.now bytes → result.now ≡ take count (drop at bytes) }
    {
        let start = (at - self.from) as usize;
        &self.bytes[start..start + count]
    }
}
