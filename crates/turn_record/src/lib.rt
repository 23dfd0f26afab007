//! The bytes of acts, payloads and snapshots.
#![tactic(auto)]

mod entries;
mod entry_bytes;
mod error;
mod field;
mod laws;
mod lists;
mod read;
mod reserved;
mod snapshot_items;
mod snapshot_progress;
mod snapshot_reader;
mod snapshot_writer;
mod version;
mod write;

pub use error::{DecodeError, ReadError};
pub use laws::{
    encodings_are_one, encodings_are_short, snapshots_carry_over, snapshots_go_on,
    tables_have_snapshots,
};
pub use read::{read_act, read_payload};
pub use snapshot_reader::{SnapshotReader, read_snapshot, readers_hold_little};
pub use snapshot_writer::{SnapshotWriter, max_snapshot, snapshot_size, write_snapshot};
pub use version::Version;
pub use write::{max_act, max_payload, write_act, write_payload};
