//! A disk whose calls can be made to fail.

ghost use Rattle.std.specs.Prelude.{◌≡◌, ◌<◌, []};
ghost use Rattle.turn_disk.specs.Crash.{left_by};
ghost use Rattle.turn_disk.specs.Disk.{IsImage};

use std::alloc::Allocator;
use turn_disk::{CrashOutcome, Disk, MemoryDisk};

/// A disk whose calls can be made to fail, and which can be crashed.
pub trait Faulty: Disk {
    /// The device call of this number from here on fails, where 1 is the next one.
    fn fail_call(&self, call: u64)
        requires { 0 < call };

    /// The device call of this number from here on fails, where 1 is the next one, and so does each later one until the
    /// next crash.
    fn stop_at(&self, call: u64)
        requires { 0 < call };

    /// The disk becomes the image that the outcome names, nothing is pending, and failures that are still to come are
    /// cancelled.
    fn crash(&mut self, outcome: CrashOutcome)
        ensures crash_model { Self.follows_crash_model self.new → Self.follows_crash_model self.old }
        ensures left { (Self.trace self.new).now ≡ record { bytes = left_by outcome (Self.trace self.old); pending = [] } }
        ensures image { IsImage (Self.trace self.old).now (Self.trace self.new).now.bytes };
}

impl<A: Allocator> Faulty for MemoryDisk<A> {
    fn fail_call(&self, call: u64) {
        MemoryDisk::fail_call(self, call);
    }

    fn stop_at(&self, call: u64) {
        MemoryDisk::stop_at(self, call);
    }

    fn crash(&mut self, outcome: CrashOutcome) {
        MemoryDisk::crash(self, outcome);
    }
}
