//! The commands of the program `turn`: words to what is printed, what is written, and an exit status.
#![tactic(auto)]

mod demo;
mod help;
mod place;
mod probe;
mod program;
mod streams;
mod version;

pub use program::{report, run_words};
pub use streams::{LineStream, LogStream, fill_streams, is_server};
pub use turn_commands::{format_disk, reply_to};
pub use turn_faults::{Fault, Host, Named, ProgramError, read_scenario, read_whole};
pub use version::Release;
