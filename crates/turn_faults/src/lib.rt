//! Where commands end: each fault with its line and its status, what a log says it is about, and the files, exports and addresses that
//! faults come of.
#![tactic(auto)]

mod bad_line;
mod clock;
mod error;
mod fault;
mod files;
mod host;
mod place;
mod prepared;
mod print;
mod probe;

pub use clock::second_now;
pub use error::ProgramError;
pub use fault::{Fault, Named, Said};
pub use files::{read_scenario, read_whole};
pub use host::Host;
pub use place::{NamedExport, PATIENCE, StorePlace, open_export, open_export_to_serve};
pub use prepared::{Prepared, configure, prepare};
pub use print::{print_line, print_lines};
pub use probe::{ProbeFault, ProbeReason, ProbeStep};
