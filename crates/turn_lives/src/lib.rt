//! Lives of processes: each is started over a disk, takes turns, and is stopped at any moment, and the next one follows.
#![tactic(auto)]

mod laws;

pub use laws::{files_make_lives, processes_make_lives};
