//! The words of the program `turn`: a command line as a command with its values.
#![tactic(auto)]

mod command;
mod error;

pub use command::{Asker, Command, Ended, SYNOPSES, Synopsis, command_of, line_of, shown_at};
pub use error::CliError;
