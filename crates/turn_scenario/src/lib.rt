//! Scenarios: texts that configure a server over a disk in memory and say what arrives, which device calls fail and when
//! the server crashes, with the report of what comes of it.
#![tactic(auto)]

mod attributes;
mod datagrams;
mod error;
mod events;
mod line;
mod report;
mod running;
mod scenario;
mod table_lines;

pub use error::ScenarioError;
pub use events::event_text;
pub use line::{Ask, Line, PeerLine, read_line};
pub use report::Report;
pub use scenario::replay;
pub use table_lines::put_table;
