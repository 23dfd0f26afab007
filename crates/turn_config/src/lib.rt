//! What an operator writes: values in text, and the lines of a configuration.
#![tactic(auto)]

mod config;
mod lines;
mod reason;
mod settings;
mod shown;
pub mod values;

pub use config::{ConfigTextError, read_config};
pub use lines::{ConfigLines, Configured, is_skipped};
pub use reason::{BadLineReason, Times, bad_line_reason};
pub use shown::{ShownEndpoint, ShownIp};
