//! Files for tests, each of which says what its reads, writes and syncs do.
#![tactic(auto)]

mod changing;
mod file;
mod proc;

pub use changing::{Changing, copy_at};
pub use file::{FileCalls, TestFile};
pub use proc::ProcInFolder;
