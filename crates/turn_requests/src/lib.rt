//! What a client of a server writes and reads: requests with the credentials of a user, Send indications, data over
//! channels, and what the messages of a server say (RFC 8656; RFC 8489, section 9.2).
#![tactic(auto)]

mod received;
mod request;

pub use received::{ServerMessage, read_message};
pub use request::{Attribute, Request, build_request, build_send, channel_data};
