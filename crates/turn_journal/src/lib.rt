//! One area of a store: a log of frames, each of which counts once its gate is open.
#![tactic(auto)]

mod area;
mod found;
mod frame;
mod gate;
mod journal;
mod laws;
mod layout;

pub use area::Area;
pub use found::{Found, ScanError};
pub use journal::{AppendError, Journal};
pub use laws::{an_area_holds_one_log, what_is_found_is_not_bad};
pub use layout::{CLOSED, FRAME_HEAD, FRAME_ROOM, GATE_SIZE, LENGTH_SIZE, OPEN};
