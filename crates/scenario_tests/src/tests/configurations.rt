//! Whole configurations.

use failing_alloc::FailingAlloc;
use std::alloc::{Allocator, Global};
use std::process::Abort;
use turn_config::{ConfigTextError, Configured, read_config};
use turn_cred::AuthHandler;
use turn_ports::RelayAddressGenerator;
use turn_types::Limits;

/// Quota and limits are left out.
const WHOLE: &[u8] = b"user user pass
relay 198.51.100.1 50000 50009
deny 203.0.113.9 203.0.113.10

# realm, secret and address
listen 192.0.2.100:3478
secret 000102030405060708090a0b0c0d0e0f101112131415161718191A1B1C1D1E1F
auth-secret a-secret-of-the-web-service
realm realm";

/// The key of user `user`, realm `realm` and password `pass`, by RFC 8489, section 9.2.2, and MD5 of another program.
const KEY: [u8; 16] = *b"\x84\x93\xfb\xc5\x3b\xa5\x82\xfb\x4c\x04\x4c\x45\x6b\xdc\x40\xeb";

const SECRET: [u8; 32] = [
    0, 1, 2, 3, 4, 5, 6, 7, 8, 9, 10, 11, 12, 13, 14, 15, 16, 17, 18, 19, 20, 21, 22, 23, 24, 25,
    26, 27, 28, 29, 30, 31,
];

fn is_whole<A: Allocator + Copy>(found: &Configured<'_, A>) -> bool {
    let config = &found.config;
    config.realm() == b"realm".as_slice()
        && config.secret() == &SECRET
        && config.relay() == 0xC633_6401
        && config.quota() == 10
        && config.limits() == Limits::MAX
        && config.is_denied(0xCB00_710A)
        && !config.is_denied(0xCB00_710B)
}

/// Whether a name has this key, which doesn't expire.
fn has_key<A: Allocator + Copy>(found: &Configured<'_, A>, name: &[u8], key: [u8; 16]) -> bool {
    match found.credentials.key(name, b"realm") {
        Some(found) => found.bytes == key && found.expiry.is_none(),
        None => false,
    }
}

fn has_users<A: Allocator + Copy>(found: &Configured<'_, A>) -> bool {
    has_key(found, b"user", KEY)
        && found.credentials.key(b"pass", b"realm").is_none()
        && found.listen.ip == 0xC000_0264
        && found.listen.port == 3478
        && found.ports.range() == (50000, 50009)
        && found.realm == b"realm".as_slice()
        && found.passwords.len() == 1
}

/// Whether the configuration is read whole, or an allocation is refused and the fault says it.
fn is_right(refusing: &FailingAlloc<Global>) -> bool {
    match read_config(refusing, WHOLE) {
        Ok(found) => !refusing.has_refused() && is_whole(&found) && has_users(&found),
        Err(fault) => refusing.has_refused() && fault == ConfigTextError::Memory,
    }
}

/// Reads the configuration with one allocation refused after so many. Returns whether one was refused.
fn is_refused(rt: &impl Abort, alloc: Global, served: u64) -> bool {
    let refusing = FailingAlloc::new(alloc, served);
    if !is_right(&refusing) {
        panic!(rt; "{served} served");
    }
    refusing.has_refused()
}

/// How many allocations the configuration takes, each of which is refused once.
fn allocations(rt: &impl Abort, alloc: Global) -> u64 {
    for served in 0..100u64 {
        if !is_refused(rt, alloc, served) {
            return served;
        }
    }
    panic!(rt; "some allocation is always refused");
}

#[test]
fn a_configuration_is_read_whole_or_is_out_of_memory(rt: HostRuntime) {
    assert!(rt; allocations(&rt, rt.alloc()) > 0);
}

/// How many users are added to the configuration.
const ADDED: u32 = 4000;

/// The first of them, one in the middle and the last: name, password, and key, made as the one above.
const SAMPLES: [(&[u8], &[u8], u128); 3] = [
    (
        b"name0",
        b"word0",
        0x55EA_EFAC_BB13_BA1B_8A38_A63F_5153_94A3,
    ),
    (
        b"name2000",
        b"word2000",
        0xA56D_BE19_33BB_E75B_6225_C4B4_7176_8103,
    ),
    (
        b"name3999",
        b"word3999",
        0xF118_752B_2744_CD69_7519_5CB4_0F3C_3454,
    ),
];

/// The configuration with these users: 4,009 lines.
fn with_users(rt: &impl Abort, alloc: Global) -> Vec<u8> {
    let mut text = Vec::from_slice(alloc, WHOLE).expect(rt, "memory");
    for number in 0..ADDED {
        let line = format!(in alloc; "\nuser name{number} word{number}").expect(rt, "memory");
        text.extend_from_slice(line.as_bytes()).expect(rt, "memory");
    }
    text
}

fn has_user(found: &Configured<'_>, name: &[u8], password: &[u8], key: [u8; 16]) -> bool {
    has_key(found, name, key) && found.passwords.get(name) == Some(&password)
}

#[test]
fn thousands_of_users_have_their_passwords_and_keys(rt: HostRuntime) {
    let text = with_users(&rt, rt.alloc());
    let found = read_config(rt.alloc(), &text).expect(&rt, "a configuration");
    assert!(rt; is_whole(&found) && found.passwords.len() == 4001);
    for (name, password, key) in &SAMPLES {
        assert!(rt; has_user(&found, name, password, key.to_be_bytes()));
    }
}

#[test]
fn a_name_that_is_given_again_after_thousands_is_a_bad_line(rt: HostRuntime) {
    let mut text = with_users(&rt, rt.alloc());
    let end = text.len();
    for (name, _, _) in &SAMPLES {
        text.truncate(end);
        for part in [b"\nuser ".as_slice(), name, b" other"] {
            text.extend_from_slice(part).expect(&rt, "memory");
        }
        assert!(rt; read_config(rt.alloc(), &text).err() == Some(ConfigTextError::BadLine(4010)));
    }
}

/// A secret, a name that has a `user` line, and a limit of 17 bytes.
const SHARED: &[u8] = b"realm example.org
user 1700000001 wonder
auth-secret a-secret-of-the-web-service
secret 000102030405060708090a0b0c0d0e0f101112131415161718191a1b1c1d1e1f
listen 192.0.2.100:3478
relay 198.51.100.1 50000 50009
limits 2 1 1 1 17";

/// The password of `1700000000:alice` by HMAC-SHA1 and base64 of another program.
const ALICES: &[u8; 28] = b"XNHRyJ8VZgb4sHKUpvXOrNI2d4E=";

#[test]
fn a_user_line_and_the_limit_leave_no_shared_password(rt: HostRuntime) {
    let found = read_config(rt.alloc(), SHARED).expect(&rt, "a configuration");
    assert!(rt; found.shared_password(b"1700000000:alice") == Some(*ALICES));
    assert!(rt; found.shared_password(b"1700000001").is_none());
    assert!(rt; found.shared_password(b"1700000000:abcdef").is_some());
    assert!(rt; found.shared_password(b"1700000000:abcdefg").is_none());
}
