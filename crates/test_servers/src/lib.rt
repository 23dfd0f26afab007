//! A server over a store in memory that plays the lines of scenarios, and some more: of the bytes of a reply and of the disk, and of
//! the ports that were picked and released.
#![tactic(auto)]

mod datagram;
mod report;
mod scenario;
mod served;
mod setup;
mod words;

pub use datagram::{Datagram, Source};
pub use scenario::Scenario;
pub use served::Served;
