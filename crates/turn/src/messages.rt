//! What a client writes and reads.

pub use turn_codec::{AttributeType, Builder, Message, MessageError, PushError};
pub use turn_requests::{
    Attribute, Request, ServerMessage, build_request, build_send, channel_data, read_message,
};
pub use turn_types::{Class, Method};
