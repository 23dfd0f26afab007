//! Where a probe ended, and why.

use std::fmt;

/// A step of a probe.
#[derive(Clone, Copy, Debug, PartialEq, Eq)]
pub enum ProbeStep {
    /// A Binding.
    Binding,
    /// An Allocate.
    Allocate,
    /// A permission for the probe itself.
    Permission,
    /// A datagram to the probe itself, and one back.
    Data,
    /// The end of the allocation.
    Refresh,
}

/// Why a step of a probe failed.
#[derive(Clone, Copy, Debug, PartialEq, Eq)]
pub enum ProbeReason {
    /// The server answered with this error code.
    Code(u16),
    /// Nothing came in time.
    Silent,
    /// Something else came.
    Unexpected,
    /// A socket can't be used.
    Socket,
}

/// The step that failed, and why.
#[derive(Clone, Copy, Debug, PartialEq, Eq)]
pub struct ProbeFault {
    /// The step.
    pub step: ProbeStep,
    /// Why it failed.
    pub reason: ProbeReason,
}

impl ProbeStep {
    /// The word that is printed for it.
    fn word(self) -> &'static str {
        match self {
            ProbeStep::Binding => "binding",
            ProbeStep::Allocate => "allocate",
            ProbeStep::Permission => "permission",
            ProbeStep::Data => "data",
            ProbeStep::Refresh => "refresh",
        }
    }
}

impl ProbeReason {
    /// The words that are printed for one that isn't an error code.
    fn words(self) -> &'static str {
        match self {
            ProbeReason::Code(_) => "code",
            ProbeReason::Silent => "no answer",
            ProbeReason::Unexpected => "another answer",
            ProbeReason::Socket => "socket",
        }
    }
}

impl fmt::Display for ProbeFault {
    fn fmt<W: fmt::Write>(&self, f: &mut fmt::Formatter<W>) -> fmt::Result {
        let step = self.step.word();
        if let ProbeReason::Code(code) = self.reason {
            return write!(f, "{step}: {code}");
        }
        let reason = self.reason.words();
        write!(f, "{step}: {reason}")
    }
}
