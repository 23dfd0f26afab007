//! HMAC (RFC 2104), CRC-32, and MESSAGE-INTEGRITY and FINGERPRINT of STUN messages (RFC 8489, sections 14.5 and 14.7).
#![tactic(auto)]

mod crc;
mod crc_table;
mod digest;
mod fingerprint;
mod hmac;
mod integrity;
mod laws;

pub use crc::crc32;
pub use fingerprint::{has_fingerprint, has_wrong_fingerprint};
pub use hmac::{generate_auth_key, hmac_sha1, hmac_sha256, hmac_sha256_of};
pub use integrity::{
    append_fingerprint, append_fingerprint_fitting, append_integrity, append_integrity_fitting,
    digests_agree, fingerprint_holds, integrity_holds,
};
pub use laws::{fingerprint_is_decided, integrity_is_decided, long_division};
