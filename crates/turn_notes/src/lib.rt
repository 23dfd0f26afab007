//! What is odd of a machine or a store, and no fault.
#![tactic(auto)]

mod notes;

pub use notes::{Note, Noted, notes_of, read_ahead};
