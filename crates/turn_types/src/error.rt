//! Error codes (RFC 8489, section 14.8; RFC 8656, section 19).

ghost use Rattle.std.specs.Prelude.{◌≡◌, ◌≤◌, length};
ghost use Rattle.turn_types.specs.ErrorCode.{number_of, reason_of};

/// An error code that the server answers.
#[derive(Clone, Copy, Debug, PartialEq, Eq)]
pub enum ErrorCode {
    /// 400: the request lacks something or is malformed.
    BadRequest,
    /// 401: the request has no credentials, or wrong ones.
    Unauthenticated,
    /// 403: the peer address is denied.
    Forbidden,
    /// 420: the request has attributes that have to be understood and aren't.
    UnknownAttribute,
    /// 437: there is an allocation where none may be, or none where one is needed.
    AllocationMismatch,
    /// 438: the nonce is no longer valid, or was never given to this client.
    StaleNonce,
    /// 440: the requested address family isn't served.
    AddressFamilyNotSupported,
    /// 441: another user made the allocation.
    WrongCredentials,
    /// 442: the requested transport is not UDP.
    UnsupportedTransportProtocol,
    /// 443: the peer address is of another family.
    PeerAddressFamilyMismatch,
    /// 486: the user has as many allocations as one may have.
    AllocationQuotaReached,
    /// 508: the server has no port or no room left.
    InsufficientCapacity,
}

impl ErrorCode {
    /// The number of the code.
    pub fn number(self) -> u16
        ensures value { result ≡ number_of self }
        ensures range { (400 ≤ result) × (result ≤ 508) }
    {
        match self {
            ErrorCode::BadRequest => 400,
            ErrorCode::Unauthenticated => 401,
            ErrorCode::Forbidden => 403,
            ErrorCode::UnknownAttribute => 420,
            ErrorCode::AllocationMismatch => 437,
            ErrorCode::StaleNonce => 438,
            ErrorCode::AddressFamilyNotSupported => 440,
            ErrorCode::WrongCredentials => 441,
            ErrorCode::UnsupportedTransportProtocol => 442,
            ErrorCode::PeerAddressFamilyMismatch => 443,
            ErrorCode::AllocationQuotaReached => 486,
            ErrorCode::InsufficientCapacity => 508,
        }
    }

    /// The reason text that goes with the code.
    pub fn reason(self) -> &'static str
        ensures text { result.now ≡ reason_of self }
        ensures short { length result.now ≤ 30 }
    {
        match self {
            ErrorCode::BadRequest => "Bad Request",
            ErrorCode::Unauthenticated => "Unauthenticated",
            ErrorCode::Forbidden => "Forbidden",
            ErrorCode::UnknownAttribute => "Unknown Attribute",
            ErrorCode::AllocationMismatch => "Allocation Mismatch",
            ErrorCode::StaleNonce => "Stale Nonce",
            ErrorCode::AddressFamilyNotSupported => "Address Family not Supported",
            ErrorCode::WrongCredentials => "Wrong Credentials",
            ErrorCode::UnsupportedTransportProtocol => "Unsupported Transport Protocol",
            ErrorCode::PeerAddressFamilyMismatch => "Peer Address Family Mismatch",
            ErrorCode::AllocationQuotaReached => "Allocation Quota Reached",
            ErrorCode::InsufficientCapacity => "Insufficient Capacity",
        }
    }
}
