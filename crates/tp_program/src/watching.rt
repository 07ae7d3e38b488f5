//! What `tpnet status` is told besides the device: who holds it, and the time.

use std::io;
use std::time::Duration;

/// Says who holds a device and what time it is, and waits between two checks. It promises nothing.
pub trait Watch {
    /// Whether another process holds the device's file.
    fn is_held(&mut self, device: &str) -> bool;

    /// How long some fixed moment is ago, if the system says it.
    fn now(&mut self) -> io::Result<Duration>;

    /// How long 1970 is ago, if the system says it.
    fn clock(&mut self) -> io::Result<Duration>;

    /// Waits `seconds` seconds. Answers whether `status` is to check again.
    fn pause(&mut self, seconds: u32) -> bool;
}
