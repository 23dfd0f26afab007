//! Why a probe ended.

ghost use Rattle.std.specs.Prelude.{◌≡◌};
ghost use Rattle.turn_probe.specs.Faults.{IsAt, of_client, of_probe, reason_of};
ghost use Rattle.turn_probe.specs.declared.error.ProbeError.TheVariants as faults;

use thiserror::Error;
use turn_client::ClientError;
use turn_faults::{Fault, ProbeFault, ProbeReason, ProbeStep, ProgramError};

/// Why a probe ended.
#[derive(Clone, Copy, Debug, PartialEq, Eq, Error)]
pub enum ProbeError {
    /// An allocation failed.
    #[error("out of memory")]
    Memory,
    /// A step failed.
    #[error("{0}")]
    Step(ProbeFault),
}

impl From<ProbeError> for Fault {
    ghost from_gives = { λ fault f. f.kind ≡ of_probe fault };

    fn from(fault: ProbeError) -> Fault {
        Fault::from(match fault {
            ProbeError::Memory => ProgramError::Memory,
            ProbeError::Step(fault) => ProgramError::Probe(fault),
        })
    }
}

/// A step failed.
pub(crate) fn failed(step: ProbeStep, reason: ProbeReason) -> ProbeError
    ensures value { result ≡ faults.Step (record { step = step; reason = reason }) }
    ensures step { IsAt step result }
{
    ProbeError::Step(ProbeFault { step, reason })
}

/// Why a client didn't go on.
fn reason_of(error: ClientError) -> ProbeReason
    ensures { result ≡ reason_of error }
{
    match error {
        ClientError::Silent => ProbeReason::Silent,
        ClientError::Socket => ProbeReason::Socket,
        _ => ProbeReason::Unexpected,
    }
}

/// What a client's error is at a step.
pub(crate) fn failed_by(step: ProbeStep, error: ClientError) -> ProbeError
    ensures value { result ≡ of_client step error }
    ensures step { IsAt step result }
{
    match error {
        ClientError::Memory => ProbeError::Memory,
        _ => failed(step, reason_of(error)),
    }
}
