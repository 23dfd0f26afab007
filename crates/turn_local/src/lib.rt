//! Peers on a server's own machine, as a media server beside it: addresses, each with a range of ports.
#![tactic(auto)]

mod local;

pub use local::{LocalPeer, LocalPeers, MAX_LOCAL_PEERS};
