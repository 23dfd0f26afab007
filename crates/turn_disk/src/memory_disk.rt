//! A disk in memory, which follows the crash model, and which a test stops and crashes.

ghost use Rattle.std.specs.Prelude.{◌≡◌, ◌<◌, [], length};
ghost use Rattle.turn_disk.specs.Crash.{left_by};
ghost use Rattle.turn_disk.specs.Disk.{IsImage};
ghost use Rattle.turn_disk.specs.Meanwhile.{Passes};

use crate::disk::{DeviceError, Disk};
use crate::failures::{DeviceCall, FailedCall, Failures};
use crate::faults::Faults;
use crate::meanwhile::Meanwhile;
use crate::memory::Memory;
use crate::outcome::CrashOutcome;
use std::alloc::{AllocError, Allocator, Global};
use std::cell::Cell;
use std::io::{self, ErrorKind};
use std::marker::Model;

/// Why a call fails that `fail_call` or `stop_at` names.
fn asked_for() -> io::Error {
    io::Error::other("a fault that was asked for")
}

/// Why a call fails whose record finds no memory.
fn no_memory() -> io::Error {
    io::Error::from(ErrorKind::OutOfMemory)
}

/// A disk in memory.
///
/// It records its writes and syncs. A call whose record finds no memory fails and changes nothing. A write that fails by
/// `fail_call` or `stop_at` leaves all the bytes that it was to write, pending, and reads return them at once.
pub struct MemoryDisk<A: Allocator = Global> {
    memory: Memory<A>,
    faults: Faults,
    failures: Failures,
    // How many pieces each write and each sync lets be done before it answers. No contract speaks of it.
    pieces: Cell<u32>,
}

// By hand: a derived drop is one step for each field in the proof of each caller.
impl<A: Allocator> Drop for MemoryDisk<A> {
    fn drop(self) {
        let MemoryDisk {
            memory: _,
            faults: _,
            failures: _,
            pieces: _,
        } = self;
    }
}

impl<A: Allocator> Model for MemoryDisk<A> {
    ghost use Rattle.turn_disk.specs.Views.{InMemory};

    ghost Value = { InMemory };

    ghost view = { λ d. record { trace = d.memory; failures = d.failures } };
}

impl<A: Allocator + Copy> MemoryDisk<A> {
    /// A disk with this content, nothing of which is pending.
    pub fn new(alloc: A, content: Vec<u8, A>) -> MemoryDisk<A>
        ensures trace { result.trace ≡ record { now = record { bytes = content.items; pending = [] }; past = [] } }
        ensures failures { result.failures ≡ 0 }
    {
        MemoryDisk {
            memory: Memory::new(alloc, content),
            faults: Faults::none(),
            failures: Failures::none(),
            pieces: Cell::new(0),
        }
    }
}

impl<A: Allocator> MemoryDisk<A> {
    /// Makes room for the record of so many writes and syncs, which write so many bytes together: none of these takes any
    /// memory.
    pub fn reserve(&mut self, calls: usize, bytes: usize) -> Result<(), AllocError>
        ensures { self.new ≡ self.old }
    {
        self.memory.reserve(calls, bytes)
    }

    /// The device call of this number from here on fails, where 1 is the next one. It takes the place of an earlier
    /// `fail_call` whose call is still to come.
    pub fn fail_call(&self, call: u64)
        requires { 0 < call }
    {
        self.faults.fail_after(call - 1);
    }

    /// The device call of this number from here on fails, where 1 is the next one, and so does each later one until
    /// the next crash. It moves a stop that is still to come only nearer.
    pub fn stop_at(&self, call: u64)
        requires { 0 < call }
    {
        self.faults.stop_after(call - 1);
    }

    /// Each write and each sync from here on lets so many pieces of the other be done before it answers. At first it lets none.
    pub fn wait_for(&self, pieces: u32) {
        self.pieces.set(pieces);
    }

    // Waits for an answer.
    #[tactic(auto, using(crate::proofs::Passing::passes_none, crate::proofs::Passing::passes_one, crate::proofs::Passing::passes_join))]
    fn wait<M: Meanwhile>(&self, other: &mut M)
        ensures { Passes M.passes other.old other.new }
    {
        for _ in 0..self.pieces.get() {
            other.pass();
        }
    }

    /// The disk becomes the image that the outcome names, nothing is pending, and failures that are still to come are cancelled.
    ///
    /// ```rust
    /// let mut disk = MemoryDisk::new(alloc, Vec::from_elem(alloc, 0u8, 4)?);
    /// disk.write_at(1, b"ab", &mut Idle)?;
    /// disk.crash(CrashOutcome::Half);
    /// assert_eq!(rt; disk.content(), b"\x00a\x00\x00".as_slice());
    /// ```
    pub fn crash(&mut self, outcome: CrashOutcome)
        ensures left { self.new.trace.now ≡ record { bytes = left_by outcome self.old.trace; pending = [] } }
        ensures image { IsImage self.old.trace.now self.new.trace.now.bytes }
        ensures past { self.new.trace.past ≡ [] }
        ensures failures { self.new.failures ≡ self.old.failures }
    {
        self.faults.forget();
        self.memory.crash(outcome);
    }

    /// What reads return.
    pub fn content(&self) -> &[u8]
        ensures { result.now ≡ self.now.trace.now.bytes }
    {
        self.memory.bytes()
    }
}

impl<A: Allocator> Disk for MemoryDisk<A> {
    ghost use Rattle.std.specs.Prelude.{length, refl};

    ghost capacity = { λ disk. length disk.trace.now.bytes };

    ghost failed = { λ disk. disk.failures };

    ghost follows_crash_model = { λ _. Unit {0} };

    ghost trace = { λ disk. disk.trace };

    ghost sized = { λ disk crash_model. refl };

    fn size(&self) -> usize {
        self.memory.bytes().len()
    }

    fn failures(&self) -> u64 {
        self.failures.count()
    }

    fn failed_call(&self) -> Option<FailedCall> {
        self.failures.first()
    }

    fn read_at(&mut self, at: usize, buffer: &mut [u8]) -> Result<(), DeviceError> {
        if self.faults.next_call_fails() {
            return Err(self.failures.raise(DeviceCall::Read, asked_for()));
        }
        self.memory.read(at, buffer);
        Ok(())
    }

    fn write_at<M: Meanwhile>(
        &mut self,
        at: usize,
        bytes: &[u8],
        other: &mut M,
    ) -> Result<(), DeviceError> {
        self.wait(other);
        let fails = self.faults.next_call_fails();
        let Ok(()) = self.memory.write(at, bytes) else {
            return Err(self.failures.raise(DeviceCall::Write, no_memory()));
        };
        if fails {
            return Err(self.failures.raise(DeviceCall::Write, asked_for()));
        }
        Ok(())
    }

    fn sync<M: Meanwhile>(&mut self, other: &mut M) -> Result<(), DeviceError> {
        self.wait(other);
        if self.faults.next_call_fails() {
            return Err(self.failures.raise(DeviceCall::Sync, asked_for()));
        }
        let Ok(()) = self.memory.sync() else {
            return Err(self.failures.raise(DeviceCall::Sync, no_memory()));
        };
        Ok(())
    }
}
