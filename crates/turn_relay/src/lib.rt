//! Data between clients and peers (RFC 8656, sections 9 to 12).
#![tactic(auto)]

mod client;
mod laws;
mod peer;

pub use client::{ToPeer, from_channel_data, from_client, from_message};
pub use laws::{relayed_in_one_way, sends_as_permitted, sends_by_own_events};
pub use peer::{ToClient, from_peer};

/// The max payload of a UDP datagram over IPv4, in bytes.
const MAX_PAYLOAD: usize = 65507;
