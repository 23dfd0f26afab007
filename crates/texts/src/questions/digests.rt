//! Digests and checksums.

use crate::values::Values;
use turn_mac::{crc32, generate_auth_key, hmac_sha1, hmac_sha256};

fn key_of(values: &Values, user: &str, realm: &str, password: &str) -> Option<[u8; 16]> {
    let user = values.bytes(user)?;
    let realm = values.bytes(realm)?;
    let password = values.bytes(password)?;
    Some(generate_auth_key(&user, &realm, &password))
}

/// The digest that is asked for, in hexadecimal.
pub fn answer(values: &Values, words: &[&str]) -> Option<String> {
    match words {
        ["hmac-sha1", key, text] => {
            values.hex(&hmac_sha1(&values.bytes(key)?, &values.bytes(text)?))
        }
        ["hmac-sha256", key, text] => {
            values.hex(&hmac_sha256(&values.bytes(key)?, &values.bytes(text)?))
        }
        ["key", user, realm, password] => values.hex(&key_of(values, user, realm, password)?),
        ["crc-32", bytes] => values.hex(&crc32(&values.bytes(bytes)?).to_be_bytes()),
        _ => None,
    }
}
