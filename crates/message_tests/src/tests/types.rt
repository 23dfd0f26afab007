//! Error codes, and the allocations of configurations.

use ErrorCode::*;
use failing_alloc::FailingAlloc;
use std::alloc::Global;
use std::test::Fail;
use turn_codec::{MessageError, PushError};
use turn_types::{ConfigError, ErrorCode, IpRange, Limits, ServerConfig, Settings};

const ERROR_CODES: [(ErrorCode, u16, &str); 12] = [
    (BadRequest, 400, "Bad Request"),
    (Unauthenticated, 401, "Unauthenticated"),
    (Forbidden, 403, "Forbidden"),
    (UnknownAttribute, 420, "Unknown Attribute"),
    (AllocationMismatch, 437, "Allocation Mismatch"),
    (StaleNonce, 438, "Stale Nonce"),
    (
        AddressFamilyNotSupported,
        440,
        "Address Family not Supported",
    ),
    (WrongCredentials, 441, "Wrong Credentials"),
    (
        UnsupportedTransportProtocol,
        442,
        "Unsupported Transport Protocol",
    ),
    (
        PeerAddressFamilyMismatch,
        443,
        "Peer Address Family Mismatch",
    ),
    (AllocationQuotaReached, 486, "Allocation Quota Reached"),
    (InsufficientCapacity, 508, "Insufficient Capacity"),
];

#[test]
fn error_codes_have_their_numbers_and_reasons(rt: HostRuntime) {
    for (code, number, reason) in &ERROR_CODES {
        assert_eq!(rt; code.number(), *number);
        assert_eq!(rt; code.reason(), *reason);
    }
}

#[test]
fn faults_are_printed(rt: HostRuntime) -> Result<(), Fail> {
    let malformed = format!(in rt.alloc(); "{}", MessageError::BadCookie)?;
    assert_eq!(rt;
        malformed.as_str(),
        "the datagram doesn't have the magic cookie"
    );
    let too_long = format!(in rt.alloc(); "{}", PushError::TooLong)?;
    assert_eq!(rt;
        too_long.as_str(),
        "the attributes would have more than 65,532 bytes"
    );
    let realm = format!(in rt.alloc(); "{}", ConfigError::BadRealm)?;
    assert_eq!(rt; realm.as_str(), "the realm doesn't have 1 to 127 bytes");
    Ok(())
}

const DENIED: [IpRange; 1] = [IpRange { first: 1, last: 2 }];

const SETTINGS: Settings<'static> = Settings {
    realm: b"example.org",
    secret: [7; 32],
    relay: 0xC633_6401,
    quota: 2,
    denied: &DENIED,
    limits: Limits::MAX,
};

/// The fault of the settings, which are in range.
fn fault(refusing: &FailingAlloc<Global>) -> Option<ConfigError> {
    ServerConfig::new(refusing, SETTINGS).err()
}

fn is_copy_refused(config: &ServerConfig, refusing: &FailingAlloc<Global>) -> bool {
    config.try_clone(refusing).is_err()
}

#[test]
fn a_configuration_takes_memory_twice(rt: HostRuntime) -> Result<(), Fail> {
    let config = ServerConfig::new(rt.alloc(), SETTINGS)?;
    let refusing = FailingAlloc::new(rt.alloc(), 0);
    for served in 0..2u64 {
        refusing.arm(served);
        assert!(rt; fault(&refusing) == Some(ConfigError::Memory));
        assert!(rt; fault(&refusing).is_none());
        refusing.arm(served);
        assert!(rt; is_copy_refused(&config, &refusing));
        assert!(rt; !is_copy_refused(&config, &refusing));
    }
    refusing.arm(2);
    assert!(rt; fault(&refusing).is_none());
    assert!(rt; !refusing.has_refused());
    refusing.arm(2);
    assert!(rt; !is_copy_refused(&config, &refusing));
    assert!(rt; !refusing.has_refused());
    Ok(())
}
