//! A table that has a snapshot.

use std::alloc::Global;
use std::marker::Model;
use turn_record::{SnapshotWriter, Version, read_snapshot, write_snapshot};
use turn_table::Table;
use turn_types::Limits;

/// A table that was read from a snapshot, and so has one.
#[derive(Drop)]
pub struct Kept {
    table: Table,
}

impl Model for Kept {
    ghost use Rattle.turn_record.specs.Records.{Holds};
    ghost use Rattle.turn_record.specs.declared.version.Version.TheVariants.{V1};
    ghost use Rattle.turn_table.specs.State.{State, state_code};

    ghost Value = { State };

    ghost coded = { state_code };

    ghost view = { λ k. k.table };

    ghost invariant = { λ k. Holds V1 k.table.contents };
}

impl Kept {
    /// The table of these bytes, if they are a snapshot under the max limits.
    pub fn read(alloc: Global, bytes: &[u8]) -> Option<Kept> {
        match read_snapshot(alloc, Version::V1, Limits::MAX, bytes) {
            Ok(table) => Some(Kept { table }),
            Err(_) => None,
        }
    }

    /// Appends its snapshot, and returns whether there was memory for it.
    pub fn write(&self, out: &mut Vec<u8>) -> bool {
        write_snapshot(out, Version::V1, &self.table).is_ok()
    }

    /// A writer of its snapshot in pieces.
    pub fn writer(&self) -> SnapshotWriter<'_> {
        SnapshotWriter::new(Version::V1, &self.table)
    }
}
