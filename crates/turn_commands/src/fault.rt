//! The faults of a scenario and of an end of allocations as faults of the program.

ghost use Rattle.std.specs.Prelude.{◌≡◌};
ghost use Rattle.turn_commands.specs.Faults.{of_end, of_scenario};

use turn_ending::EndError;
use turn_faults::ProgramError;
use turn_scenario::ScenarioError;

/// The fault of a scenario.
pub(crate) fn fault_of_scenario(fault: ScenarioError) -> ProgramError
    ensures { result ≡ of_scenario fault }
{
    match fault {
        ScenarioError::BadLine(number) => ProgramError::BadLine(number),
        ScenarioError::Differs(number) => ProgramError::Differs(number),
        ScenarioError::Memory => ProgramError::Memory,
    }
}

/// The fault of an end of allocations.
pub(crate) fn fault_of_end(fault: EndError) -> ProgramError
    ensures { result ≡ of_end fault }
{
    match fault {
        EndError::Store(fault) => ProgramError::from(fault),
        EndError::Memory => ProgramError::Memory,
        // A Refresh of a live allocation is not refused.
        EndError::Refused => ProgramError::Device,
    }
}
