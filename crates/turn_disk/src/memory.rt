//! Bytes in memory, with a record of each write and sync. The bytes that a write replaces are kept, so that the record
//! determines the states inside all calls, and so that a crash can go back to the last sync.

ghost use Rattle.std.specs.Prelude.{◌≡◌, ◌+◌, ◌-◌, ◌≤◌, ◌++◌, [], ◌∷◌, length, reverse, take, drop, OnOk, OnErr};
ghost use Rattle.turn_disk.specs.Crash.{part_of, replaced_at, left_by};
ghost use Rattle.turn_disk.specs.Disk.{IsImage, Writes, Syncs};
ghost use Rattle.turn_disk.specs.Record.{IsRecord, trace_of};

use crate::call::Call;
use crate::outcome::CrashOutcome;
use std::alloc::{AllocError, Allocator, Global};
use std::marker::Model;

/// Bytes with the record of what was written to them.
#[derive(Drop)]
pub struct Memory<A: Allocator = Global> {
    content: Vec<u8, A>,
    // The oldest first.
    calls: Vec<Call, A>,
    // What the writes replaced, the oldest write's bytes first.
    replaced: Vec<u8, A>,
}

impl<A: Allocator> Model for Memory<A> {
    ghost use Rattle.std.specs.Prelude.{length, reverse};
    ghost use Rattle.turn_disk.specs.Disk.{Trace};
    ghost use Rattle.turn_disk.specs.Record.{IsRecord, trace_of};

    ghost Value = { Trace };

    ghost view = { λ m. trace_of m.calls.items m.replaced.items m.content.items };

    ghost invariant = { λ m. IsRecord (reverse m.calls.items) (length m.replaced.items) (length m.content.items) };
}

impl<A: Allocator + Copy> Memory<A> {
    /// Bytes of which nothing is pending. It takes no memory.
    pub fn new(alloc: A, content: Vec<u8, A>) -> Memory<A>
        ensures { result ≡ record { now = record { bytes = content.items; pending = [] }; past = [] } }
    {
        Memory {
            content,
            calls: Vec::new(alloc),
            replaced: Vec::new(alloc),
        }
    }
}

impl<A: Allocator> Memory<A> {
    /// What a read returns.
    pub fn bytes(&self) -> &[u8]
        ensures { result.now ≡ self.now.now.bytes }
    {
        self.content.as_slice()
    }

    /// Fills the buffer with the bytes from a position on.
    pub fn read(&self, at: usize, buffer: &mut [u8])
        requires { at + length buffer.old ≤ length self.now.now.bytes }
        ensures { buffer.new ≡ take (length buffer.old) (drop at self.now.now.bytes) }
    {
        let count = buffer.len();
        buffer.copy_from_slice(&self.content[at..at + count]);
    }

    /// Makes room for the record of so many calls, whose writes replace so many bytes together.
    pub fn reserve(&mut self, calls: usize, bytes: usize) -> Result<(), AllocError>
        ensures { self.new ≡ self.old }
    {
        self.calls.reserve(calls)?;
        self.replaced.reserve(bytes)?;
        Ok(())
    }

    /// Writes and records it. Where the record finds no memory, nothing changes.
    pub fn write(&mut self, at: usize, bytes: &[u8]) -> Result<(), AllocError>
        requires { at + length bytes.now ≤ length self.old.now.bytes }
        ensures written { OnOk result (Writes at bytes.now self.old self.new) }
        ensures refused { OnErr result (self.new ≡ self.old) }
    {
        let old = &self.content[at..at + bytes.len()];
        note(&mut self.calls, &mut self.replaced, at, old)?;
        overwrite(&mut self.content, at, bytes);
        Ok(())
    }

    /// Records a sync. Where the record finds no memory, nothing changes.
    pub fn sync(&mut self) -> Result<(), AllocError>
        ensures synced { OnOk result (Syncs self.old self.new) }
        ensures refused { OnErr result (self.new ≡ self.old) }
    {
        self.calls.push(Call::Synced)?;
        Ok(())
    }

    /// The bytes become an image, and the record ends.
    pub fn crash(&mut self, outcome: CrashOutcome)
        ensures left { self.new ≡ record { now = record { bytes = left_by outcome self.old; pending = [] }; past = [] } }
        ensures image { IsImage self.old.now self.new.now.bytes }
    {
        let kept = self.replaced.len();
        leave(
            &mut self.content,
            &mut self.replaced,
            kept,
            &self.calls,
            outcome,
        );
        self.calls.clear();
        self.replaced.clear();
    }
}

// Records a write and what it replaces, or changes nothing.
fn note<A: Allocator>(
    calls: &mut Vec<Call, A>,
    replaced: &mut Vec<u8, A>,
    at: usize,
    old: &[u8],
) -> Result<(), AllocError>
    ensures calls { OnOk result (calls.new.items ≡ calls.old.items ++ Call.Wrote at (length old.now) ∷ []) }
    ensures replaced { OnOk result (replaced.new.items ≡ replaced.old.items ++ old.now) }
    ensures same_calls { OnErr result (calls.new.items ≡ calls.old.items) }
    ensures same_replaced { OnErr result (replaced.new.items ≡ replaced.old.items) }
{
    let len = replaced.len();
    replaced.extend_from_slice(old)?;
    if calls.push(Call::Wrote(at, old.len())).is_err() {
        replaced.truncate(len);
        return Err(AllocError);
    }
    Ok(())
}

fn overwrite<A: Allocator>(content: &mut Vec<u8, A>, at: usize, bytes: &[u8])
    requires { at + length bytes.now ≤ length content.old.items }
    ensures size { length content.new.items ≡ length content.old.items }
    ensures content { content.new.items ≡ replaced_at at bytes.now content.old.items }
{
    content[at..at + bytes.len()].copy_from_slice(bytes);
}

fn exchange<A: Allocator>(
    content: &mut Vec<u8, A>,
    at: usize,
    replaced: &mut Vec<u8, A>,
    from: usize,
    count: usize,
)
    requires content { at + count ≤ length content.old.items }
    requires replaced { from + count ≤ length replaced.old.items }
    ensures size { length content.new.items ≡ length content.old.items }
    ensures content { content.new.items ≡ replaced_at at (take count (drop from replaced.old.items)) content.old.items }
    ensures replaced { replaced.new.items ≡ replaced_at from (take count (drop at content.old.items)) replaced.old.items }
{
    content[at..at + count].swap_with_slice(&mut replaced[from..from + count]);
}

// What a crash leaves of one write of these bytes.
fn put_part<A: Allocator>(content: &mut Vec<u8, A>, at: usize, bytes: &[u8], outcome: CrashOutcome)
    requires { at + length bytes.now ≤ length content.old.items }
    ensures size { length content.new.items ≡ length content.old.items }
    ensures content { content.new.items ≡ replaced_at at (part_of outcome bytes.now) content.old.items }
{
    match outcome {
        CrashOutcome::Lost => {}
        CrashOutcome::Kept => overwrite(content, at, bytes),
        CrashOutcome::Half => overwrite(content, at, &bytes[..bytes.len() / 2]),
        CrashOutcome::Fill(byte) => content[at..at + bytes.len()].fill(byte),
    }
}

// Undoes the writes since the last sync, the newest first, and then puts in the part that each leaves, the oldest first.
// In the meantime `replaced` holds the bytes that a write wrote in place of those that it replaced.
fn leave<A: Allocator>(
    content: &mut Vec<u8, A>,
    replaced: &mut Vec<u8, A>,
    kept: usize,
    calls: &[Call],
    outcome: CrashOutcome,
)
    requires kept { kept ≤ length replaced.old.items }
    requires is_record { IsRecord (reverse calls.now) kept (length content.old.items) }
    ensures left { content.new.items ≡ left_by outcome (trace_of calls.now (take kept replaced.old.items) content.old.items) }
    ensures size { length content.new.items ≡ length content.old.items }
    ensures others { drop kept replaced.new.items ≡ drop kept replaced.old.items }
    ensures len { length replaced.new.items ≡ length replaced.old.items }
{
    if let Some((Call::Wrote(at, count), older)) = calls.split_last() {
        let from = kept - *count;
        exchange(content, *at, replaced, from, *count);
        leave(content, replaced, from, older, outcome);
        put_part(content, *at, &replaced[from..kept], outcome);
    }
}
