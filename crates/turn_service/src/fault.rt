//! The faults of a server as faults of the program.

ghost use Rattle.std.specs.Prelude.{◌≡◌};
ghost use Rattle.turn_service.specs.Faults.{of_start, of_turn};

use turn_faults::ProgramError;
use turn_serving::{StartError, TurnError};

/// The fault of a server's start.
pub fn fault_of_start(fault: StartError) -> ProgramError
    ensures { result ≡ of_start fault }
{
    match fault {
        StartError::Store(fault) => ProgramError::from(fault),
        StartError::Socket(_) => ProgramError::Socket,
        StartError::Memory => ProgramError::Memory,
        StartError::Carry(fault) => ProgramError::from(fault),
    }
}

/// The fault of a turn.
pub fn fault_of_turn(fault: TurnError) -> ProgramError
    ensures { result ≡ of_turn fault }
{
    match fault {
        TurnError::Commit(fault) => ProgramError::from(fault),
        TurnError::Socket(_) => ProgramError::Socket,
        TurnError::Clock => ProgramError::Device,
        TurnError::Memory => ProgramError::Memory,
    }
}
