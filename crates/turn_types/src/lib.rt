//! Plain types of a TURN server: addresses, moments, the class, method and transaction id of a message, tokens of
//! reservations, error codes, limits and the configuration (RFC 8489, RFC 8656).
#![tactic(auto)]

mod address;
mod config;
mod error;
mod laws;
mod limits;
mod message;
mod moment;
mod profile;

pub use address::{Addr, Endpoint, FiveTuple, PeerAddress};
pub use config::{ConfigError, IpRange, ServerConfig, Settings};
pub use error::ErrorCode;
pub use laws::tuples_go_by_bytes;
pub use limits::{Bounds, Limits};
pub use message::{Class, Method, Token, TxId};
pub use moment::Moment;
pub use profile::{
    CHANNEL_LIFETIME, DEFAULT_LIFETIME, MAX_ALLOCATIONS, MAX_LIFETIME, NONCE_LIFETIME,
    PERMISSION_LIFETIME, RESERVATION_LIFETIME,
};
