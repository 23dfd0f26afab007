//! What tests of servers share: a user, a client and a peer, and a generator of relayed ports that records its calls.
#![tactic(auto)]

mod ports;
mod requests;

pub use ports::Ports;
pub use requests::{ALICE, FIRST, ID, PEER_ENDPOINT, REALM, User, five_tuple};
