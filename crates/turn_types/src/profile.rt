//! The numbers of this server's profile of RFC 8656. Lifetimes are in seconds.

/// How long a permission lasts (section 9).
pub const PERMISSION_LIFETIME: u64 = 300;

/// How long a channel lasts (section 12).
pub const CHANNEL_LIFETIME: u64 = 600;

/// How long an allocation lasts whose request asks for no time, or for less (section 7.2).
pub const DEFAULT_LIFETIME: u32 = 600;

/// How long an allocation lasts at most until it is refreshed (section 7.2).
pub const MAX_LIFETIME: u32 = 3600;

/// How long a port is reserved (section 7.2).
pub const RESERVATION_LIFETIME: u64 = 30;

/// How long a nonce holds (RFC 8489, section 9.2).
pub const NONCE_LIFETIME: u64 = 3600;

/// The max number of live allocations of a server, and of a user.
pub const MAX_ALLOCATIONS: u32 = 1024;
