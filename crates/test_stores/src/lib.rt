//! Tables and stores for tests, whose calls check what they require when they run: where it isn't met they return nothing.
#![tactic(auto)]

mod disk;
mod store;

pub use disk::{format_as, read_at, read_pieces_at, write_at, write_both_at};
pub use store::{SnapshotTable, TestStore};
