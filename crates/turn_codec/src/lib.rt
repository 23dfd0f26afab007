//! STUN messages (RFC 8489, sections 5 and 14) and ChannelData (RFC 8656, section 12.4) as bytes.
#![tactic(auto)]

mod address;
mod attribute;
mod attribute_type;
mod builder;
mod channel;
mod laws;
mod message;

pub use address::{read_xor_address, xor_address};
pub use attribute::Attributes;
pub use attribute_type::AttributeType;
pub use builder::{Builder, PushError};
pub use channel::{ChannelData, is_channel_data_number};
pub use laws::{address_again, one_message, values_are_bytes};
pub use message::{Located, Message, MessageError};
