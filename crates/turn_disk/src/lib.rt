//! Disks of fixed size, and what a stop may leave of them.
//!
//! A disk that follows the crash model keeps what was synced; of what was written since, a stop may leave anything. `MemoryDisk` follows the crash model, and `FileDisk`
//! is as long as the file answers as one that does.
//! `write_through` and `write_produced` state what this means for a write with its sync, so that the layers above have to
//! do with bytes alone.
#![tactic(auto)]

mod call;
mod disk;
mod failures;
mod faults;
mod file;
mod laws;
mod meanwhile;
mod memory;
mod memory_disk;
mod opened;
mod outcome;
mod produced;
mod reads;
mod record;
mod start;
mod writes;

pub use disk::{DeviceError, Disk};
pub use failures::{DeviceCall, FailedCall, Failures};
pub use file::FileDisk;
pub use laws::{a_risen_count_differs, a_settled_disk_has_one_image};
pub use meanwhile::{Idle, Meanwhile};
pub use memory_disk::MemoryDisk;
pub use opened::{FileError, is_apart, open_regular};
pub use outcome::CrashOutcome;
pub use produced::{Bytes, Chain, PIECE, Producer, write_produced};
pub use reads::{read_array, read_pieces};
pub use record::{CallRecord, READ, SYNC, WRITE};
pub use start::{Start, Unknown};
pub use writes::write_through;
