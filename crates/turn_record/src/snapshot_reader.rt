//! Snapshots, read: from pieces, or as a whole.

ghost use Rattle.std.specs.Prelude.{◌≡◌, ◌<◌, ◌++◌, [], List, ℕ, IfErr, IfOk, None, OnOk, Ok, Err, Some, length};
ghost use Rattle.turn_history.specs.Table.{Contents};
ghost use Rattle.turn_record.specs.Pieces.{WasFed, held, refusal};
ghost use Rattle.turn_record.specs.Reading.{Gives};
ghost use Rattle.turn_record.specs.Records.{EncodesSnapshot, max_entry};
ghost use Rattle.turn_record.specs.declared.snapshot_reader.SnapshotReader.{SnapshotReader};
ghost use Rattle.turn_record.specs.Snapshots.{snapshot_in};
ghost use Rattle.turn_record.specs.declared.error.ReadError.{ReadError};
ghost use Rattle.turn_record.specs.declared.version.Version.{Version};
ghost use Rattle.turn_types.specs.declared.limits.Bounds.{Bounds};

use crate::error::ReadError;
use crate::snapshot_progress::{Restored, advance, conclude, step};
use crate::version::Version;
use std::alloc::{Allocator, Global};
use turn_table::Table;
use turn_types::Limits;

/// Reads a snapshot that comes in pieces, cut in any way. Beside the table that it restores it holds the bytes of the
/// item that isn't whole yet. Once it has refused, it refuses for the same reason for good, and the table is gone.
pub struct SnapshotReader<A: Allocator = Global> {
    alloc: A,
    version: Version,
    limits: Limits,
    refused: Option<ReadError>,
    restored: Option<Restored<A>>,
    held: Vec<u8, A>,
}

// By hand: a derived drop is one step for each field in the proof of each caller.
impl<A: Allocator> Drop for SnapshotReader<A> {
    fn drop(self) {
        let SnapshotReader {
            alloc: _,
            version: _,
            limits: _,
            refused: _,
            restored: _,
            held: _,
        } = self;
    }
}

impl<A: Allocator + Copy> SnapshotReader<A> {
    /// A reader of the version's snapshots under the limits. It takes no memory yet.
    #[tactic(auto, unfolding(crate::specs::Places::gives))]
    pub fn new(alloc: A, version: Version, limits: Limits) -> SnapshotReader<A>
        ensures fed { WasFed version limits result [] }
        ensures none { refusal result ≡ None }
    {
        SnapshotReader {
            alloc,
            version,
            limits,
            refused: None,
            restored: None,
            held: Vec::new(alloc),
        }
    }

    /// Reads the next piece.
    pub fn feed(&mut self, piece: &[u8]) -> Result<(), ReadError>
        ensures fed { (v : Version) (b : Bounds) (fed : List ℕ) → WasFed v b self.old fed → WasFed v b self.new (fed ++ piece.now) }
        ensures ok { OnOk result (refusal self.new ≡ None) }
        ensures err { IfErr result (λ e. refusal self.new ≡ Some e) }
        ensures for_good { (e : ReadError) → refusal self.old ≡ Some e → result ≡ Err e }
    {
        if let Some(error) = self.refused {
            return Err(error);
        }
        let restored = self.restored.take();
        match step(
            self.alloc,
            self.version,
            self.limits,
            restored,
            &mut self.held,
            piece,
        ) {
            Ok(restored) => {
                self.restored = restored;
                Ok(())
            }
            Err(error) => {
                self.refused = Some(error);
                Err(error)
            }
        }
    }

    /// The table that the pieces joined are the snapshot of, at its moment.
    pub fn finish(self) -> Result<Table<A>, ReadError>
        ensures gives { (v : Version) (b : Bounds) (fed : List ℕ) → WasFed v b self fed → Gives (λ t. (t.moment, t.contents)) result (snapshot_in v b fed) }
        ensures limits { (v : Version) (b : Bounds) (fed : List ℕ) → WasFed v b self fed → IfOk result (λ t. t.bounds ≡ b) }
        ensures for_good { (e : ReadError) → refusal self ≡ Some e → result ≡ Err e }
    {
        let SnapshotReader {
            alloc: _,
            version,
            limits: _,
            refused,
            restored,
            held: _,
        } = self;
        match refused {
            Some(error) => Err(error),
            None => conclude(version, restored),
        }
    }
}

/// Between two pieces a reader holds fewer bytes than the longest entry has under the limits.
pub fn readers_hold_little<A: Allocator>()
    ensures { (v : Version) (b : Bounds) (r : SnapshotReader A) (fed : List ℕ) → WasFed v b r fed → refusal r ≡ None → length (held r) < max_entry v b }
{}

fn whole_snapshot<A: Allocator + Copy>(
    alloc: A,
    version: Version,
    limits: Limits,
    bytes: &[u8],
) -> Result<Table<A>, ReadError>
    ensures fault { Gives (λ t. (t.moment, t.contents)) result (snapshot_in version limits bytes.now) }
    ensures limits { IfOk result (λ t. t.bounds ≡ limits) }
{
    let (restored, _) = advance(alloc, version, limits, None, bytes)?;
    conclude(version, restored)
}

/// The table that the bytes, all of them, are the version's snapshot of, at its moment.
pub fn read_snapshot<A: Allocator + Copy>(
    alloc: A,
    version: Version,
    limits: Limits,
    bytes: &[u8],
) -> Result<Table<A>, ReadError>
    ensures encoded { IfOk result (λ t. EncodesSnapshot version limits t.moment t.contents bytes.now) }
    ensures limits { IfOk result (λ t. t.bounds ≡ limits) }
    ensures read { (t : ℕ) (c : Contents) → EncodesSnapshot version limits t c bytes.now → Gives {Y = ℕ × Contents} (λ x. (x.moment, x.contents)) result (Ok (t, c)) }
    ensures fault { Gives (λ t. (t.moment, t.contents)) result (snapshot_in version limits bytes.now) }
{
    // For the proof: the limits are in their ranges.
    let _bounds = limits.bounds();
    whole_snapshot(alloc, version, limits, bytes)
}
