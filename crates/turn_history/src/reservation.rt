//! Reservations.

use turn_types::Token;

/// The token that a port is reserved with (RFC 8656, section 7.2), and the expiry time of the reservation in seconds
/// (exclusive).
#[derive(Clone, Copy, Debug, PartialEq, Eq)]
pub struct Reservation {
    /// By which an Allocate names the port (RFC 8656, section 18.10).
    pub token: Token,
    /// In seconds (exclusive).
    pub expiry: u64,
}
