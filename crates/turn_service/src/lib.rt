//! `turn serve`: a server over the sockets and the store that words and a configuration name, and its log.
#![tactic(auto)]

mod about;
mod fault;
mod held;
mod serve;
mod started;
mod watch;

pub use fault::{fault_of_start, fault_of_turn};
pub use serve::{Service, run_service};
