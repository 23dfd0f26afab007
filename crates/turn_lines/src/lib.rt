//! What a server's log says of the requests that it answers, of allocations that end, and of what is dropped.
#![tactic(auto)]

mod asked;
mod counted;
mod done;
mod fields;
mod lines;
mod usage;

pub use fields::Known;
pub use lines::Lines;
