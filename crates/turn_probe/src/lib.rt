//! What a probe and a server say to each other: a Binding, and an allocation over which a datagram goes there and back.
#![tactic(auto)]

mod deadline;
mod error;
mod talk;

pub use error::ProbeError;
pub use talk::Talk;
