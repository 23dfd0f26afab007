//! A disk of fixed size. What a stop may leave of one that follows the crash model is a part of its trace.

ghost use Rattle.std.specs.Prelude.{◌≡◌, ◌+◌, ◌≤◌, ℕ, length, take, drop, OnOk};
ghost use Rattle.turn_disk.specs.Counts.{CountOutcome};
ghost use Rattle.turn_disk.specs.Disk.{Trace, ThroughOutcome, WriteOutcome, SyncOutcome};
ghost use Rattle.turn_disk.specs.Meanwhile.{Passes};

use crate::failures::FailedCall;
use crate::meanwhile::Meanwhile;
use thiserror::Error;

/// A device call that failed. Its disk says why, by `Disk::failed_call`.
#[derive(Clone, Copy, Debug, PartialEq, Eq, Error)]
#[error("a device call failed")]
pub struct DeviceError;

/// A disk of fixed size. Positions are counted in bytes from its first one.
///
/// `read_at`, `write_at` and `sync` are its device calls, and `write_durably` is one or two of them; `size`, `failures` and `failed_call` are none.
pub trait Disk {
    /// How many bytes it has.
    ghost capacity: { Self → ℕ };

    /// How many device calls have failed, modulo 2^64.
    ghost failed: { Self → ℕ };

    /// That each answer so far was that of a disk which keeps what was synced. It may cease to hold at any call, and no code can tell:
    /// the clauses that begin with this hold as long as it does.
    ghost follows_crash_model: { Self → Type 0 };

    /// What a read returns, and what a stop may leave, now and inside each device call so far.
    ghost trace: { Self → Trace };

    /// How many bytes it has. It never changes.
    fn size(&self) -> usize
        ensures { result ≡ capacity self.now };

    /// How many device calls have failed, modulo 2^64.
    fn failures(&self) -> u64
        ensures { result ≡ failed self.now };

    /// The first device call that failed, and why.
    fn failed_call(&self) -> Option<FailedCall>;

    /// Fills the buffer with the bytes from this position on. After a failure the buffer may hold anything.
    fn read_at(&mut self, at: usize, buffer: &mut [u8]) -> Result<(), DeviceError>
        requires { at + length buffer.old ≤ capacity self.old }
        ensures size { capacity self.new ≡ capacity self.old }
        ensures count { CountOutcome (failed self.old) (failed self.new) result }
        ensures crash_model { follows_crash_model self.new → follows_crash_model self.old }
        ensures same { follows_crash_model self.new → trace self.new ≡ trace self.old }
        ensures bytes { follows_crash_model self.new
            → OnOk result (buffer.new ≡ take (length buffer.old) (drop at (trace self.old).now.bytes)) };

    /// Writes these bytes from this position on; they are pending until the next sync. While it waits, it may let the other be done.
    fn write_at<M: Meanwhile>(
        &mut self,
        at: usize,
        bytes: &[u8],
        other: &mut M,
    ) -> Result<(), DeviceError>
        requires { at + length bytes.now ≤ capacity self.old }
        ensures size { capacity self.new ≡ capacity self.old }
        ensures count { CountOutcome (failed self.old) (failed self.new) result }
        ensures crash_model { follows_crash_model self.new → follows_crash_model self.old }
        ensures outcome { follows_crash_model self.new → WriteOutcome at bytes.now (trace self.old) (trace self.new) result }
        ensures meanwhile { Passes M.passes other.old other.new };

    /// Makes all that is pending durable. While it waits, it may let the other be done.
    fn sync<M: Meanwhile>(&mut self, other: &mut M) -> Result<(), DeviceError>
        ensures size { capacity self.new ≡ capacity self.old }
        ensures count { CountOutcome (failed self.old) (failed self.new) result }
        ensures crash_model { follows_crash_model self.new → follows_crash_model self.old }
        ensures outcome { follows_crash_model self.new → SyncOutcome (trace self.old) (trace self.new) result }
        ensures meanwhile { Passes M.passes other.old other.new };

    /// Writes these bytes from this position on, and makes durable all that is pending: a write and a sync, where the disk has nothing
    /// that does both. While it waits, it may let the other be done.
    #[tactic(auto, using(crate::proofs::Passing::passes_join))]
    fn write_durably<M: Meanwhile>(
        &mut self,
        at: usize,
        bytes: &[u8],
        other: &mut M,
    ) -> Result<(), DeviceError>
        requires { at + length bytes.now ≤ capacity self.old }
        ensures size { capacity self.new ≡ capacity self.old }
        ensures count { CountOutcome (failed self.old) (failed self.new) result }
        ensures crash_model { follows_crash_model self.new → follows_crash_model self.old }
        ensures outcome { follows_crash_model self.new → ThroughOutcome at bytes.now (trace self.old) (trace self.new) result }
        ensures meanwhile { Passes M.passes other.old other.new }
    {
        self.write_at(at, bytes, other)?;
        self.sync(other)?;
        Ok(())
    }

    /// A disk that follows the crash model holds as many bytes as it has.
    ghost sized: { (disk : Self) → follows_crash_model disk → length (trace disk).now.bytes ≡ capacity disk };
}
