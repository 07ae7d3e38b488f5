//! Devices: a fixed number of bytes that a crash may leave torn if they aren't synced.
#![tactic(auto)]

mod counted;
mod disk;
mod failures;
mod file;
mod file_history;
mod filling;
mod history;
mod laws;
mod memory;
mod new_file;
mod plan;
mod raw;
mod system;
mod through;

pub use counted::Counted;
pub use disk::{DeviceFailed, Disk};
pub use failures::Failures;
pub use file::RawFile;
pub use file_history::FileHistory;
pub use history::History;
pub use laws::{file_may_keep, memory_keeps, moments_within_calls};
pub use memory::{MemDisk, RawMemory};
pub use new_file::{NewDisk, NewFile};
pub use plan::PlannedFault;
pub use raw::RawDisk;
pub use system::{NotedFile, SystemFile};
pub use through::write_through;
