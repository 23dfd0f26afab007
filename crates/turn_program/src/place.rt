//! The store that the words of a command name.

ghost use Rattle.std.specs.Prelude.{◌≡◌, IfErr};

use turn_cli::Command;
use turn_faults::{ProgramError, StorePlace};

/// The word of a command that names its store.
fn store_word(command: &Command) -> Option<&str> {
    match command {
        Command::Format { store, .. }
        | Command::Inspect { store, .. }
        | Command::Serve { store, .. }
        | Command::End { store, .. }
        | Command::Status { store, .. } => Some(store),
        Command::Check { store, .. } => store.as_deref(),
        _ => None,
    }
}

/// Refuses a command whose store is a URI that names no export, before anything is done.
pub fn check_place(command: &Command) -> Result<(), ProgramError>
    ensures { IfErr result (λ fault. fault ≡ ProgramError.Usage) }
{
    if let Some(word) = store_word(command) {
        StorePlace::of(word)?;
    }
    Ok(())
}
