//! Why a scenario ended without a report.

ghost use Rattle.std.specs.Prelude.{◌≡◌};
ghost use Rattle.turn_scenario.specs.Faults.{fault_of};
ghost use Rattle.turn_scenario.specs.declared.error.LineError.TheVariants.{Memory};

use std::alloc::AllocError;
use thiserror::Error;
use turn_codec::PushError;

/// Why a scenario ended without a report: the first fault in the order of its lines, which are numbered from 1.
#[derive(Clone, Copy, Debug, PartialEq, Eq, Error)]
pub enum ScenarioError {
    /// The first line that is malformed or can't be done.
    #[error("line {0}: bad line")]
    BadLine(u64),
    /// An `expect` line differs from the next line of the report, or there is none.
    #[error("line {0}: differs")]
    Differs(u64),
    /// An allocation failed.
    #[error("memory")]
    Memory,
}

/// The fault of one line.
#[derive(Clone, Copy, Debug, PartialEq, Eq)]
pub(crate) enum LineError {
    Bad,
    Differs,
    Memory,
}

impl LineError {
    /// The fault of the scenario whose line of this number it is.
    pub(crate) fn at(self, number: u64) -> ScenarioError {
        match self {
            LineError::Bad => ScenarioError::BadLine(number),
            LineError::Differs => ScenarioError::Differs(number),
            LineError::Memory => ScenarioError::Memory,
        }
    }
}

impl From<AllocError> for LineError {
    ghost from_gives = { λ _ f. f ≡ Memory };

    fn from(_error: AllocError) -> LineError {
        LineError::Memory
    }
}

/// A datagram that would be too long makes its line bad.
impl From<PushError> for LineError {
    ghost from_gives = { λ e f. f ≡ fault_of e };

    fn from(error: PushError) -> LineError {
        match error {
            PushError::TooLong => LineError::Bad,
            PushError::Memory => LineError::Memory,
        }
    }
}
