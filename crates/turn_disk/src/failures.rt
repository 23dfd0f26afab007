//! The device calls of a disk that failed.

ghost use Rattle.std.specs.Prelude.{◌≡◌};
ghost use Rattle.turn_disk.specs.Counts.{Rises};

use crate::disk::DeviceError;
use std::marker::Model;
use std::{fmt, io};

/// A kind of device call.
#[derive(Clone, Copy, Debug, PartialEq, Eq)]
pub enum DeviceCall {
    /// Bytes are read.
    Read,
    /// Bytes are written.
    Write,
    /// What was written is made durable.
    Sync,
}

/// A device call that failed, and the reason that was given for it.
#[derive(Clone, Copy, Debug)]
pub struct FailedCall {
    /// What was to be done.
    pub call: DeviceCall,
    /// Why it failed.
    pub reason: io::Error,
}

impl fmt::Display for FailedCall {
    fn fmt<W: fmt::Write>(&self, f: &mut fmt::Formatter<W>) -> fmt::Result {
        let word = match self.call {
            DeviceCall::Read => "read",
            DeviceCall::Write => "write",
            DeviceCall::Sync => "sync",
        };
        let reason = self.reason;
        write!(f, "{word}: {reason}")
    }
}

/// How many device calls of a disk failed, modulo 2^64, and the first of them.
#[derive(Drop)]
pub struct Failures {
    count: u64,
    first: Option<FailedCall>,
}

impl Model for Failures {
    ghost use Rattle.std.specs.Prelude.{ℕ};

    ghost Value = { ℕ };

    ghost view = { λ f. f.count };
}

impl Failures {
    /// No call failed.
    pub fn none() -> Failures
        ensures { result ≡ 0 }
    {
        Failures {
            count: 0,
            first: None,
        }
    }

    /// How many failed, modulo 2^64.
    pub fn count(&self) -> u64
        ensures { result ≡ self.now }
    {
        self.count
    }

    /// The first that failed.
    pub fn first(&self) -> Option<FailedCall> {
        self.first
    }

    /// Counts one call that failed.
    pub fn raise(&mut self, call: DeviceCall, reason: io::Error) -> DeviceError
        ensures { Rises self.old self.new }
    {
        self.count = self.count.wrapping_add(1);
        if self.first.is_none() {
            self.first = Some(FailedCall { call, reason });
        }
        DeviceError
    }
}
