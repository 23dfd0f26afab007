//! HMAC (RFC 2104) over SHA-1 and SHA-256, and the key of a user.

ghost use Rattle.std.specs.Prelude.{◌≡◌, ◌++◌, ◌≤◌, ◌-◌, List, ℕ, length, map, replicate};
ghost use Rattle.std.specs.List.{concat};
ghost use Rattle.sha1.specs.Sha1.{sha1};
ghost use Rattle.sha2.specs.Sha256.{sha256};
ghost use Rattle.turn_mac.specs.Hmac.{key_block, masked, hmac, auth_key};

use crate::digest::{BlockDigest, digest_of};
use md5::Md5;
use sha1::Sha1;
use sha2::Sha256;

/// The bytes of a block of the digests.
const BLOCK: usize = 64;

const INNER_PAD: u8 = 0x36;

const OUTER_PAD: u8 = 0x5C;

/// The bytes, filled with zeros.
fn block_of(bytes: &[u8]) -> [u8; BLOCK]
    requires { length bytes.now ≤ 64 }
    ensures { result ≡ bytes.now ++ replicate (64 - length bytes.now) 0 }
{
    let mut block = [0; BLOCK];
    block[..bytes.len()].copy_from_slice(bytes);
    block
}

/// Each byte of a block, exclusive or the mask.
fn masked_block(block: &[u8; BLOCK], mask: u8) -> [u8; BLOCK]
    ensures { result ≡ masked mask block.now }
{
    let mut bytes = *block;
    for byte in bytes.iter_mut() {
        *byte ^= mask;
    }
    bytes
}

/// The key as a block (RFC 2104, section 2).
fn key_block<D: BlockDigest<SIZE>, const SIZE: usize>(key: &[u8]) -> [u8; BLOCK]
    ensures { result ≡ key_block D.digest key.now }
{
    if key.len() <= BLOCK {
        block_of(key)
    } else {
        block_of(&digest_of::<D, SIZE>(key))
    }
}

/// HMAC of a text that comes in pieces, under a key of any length (RFC 2104, section 2).
#[tactic(auto, unfolding(crate::specs::Hmac::hmac))]
pub(crate) fn hmac_of<D: BlockDigest<SIZE>, const SIZE: usize>(
    key: &[u8],
    pieces: &[&[u8]],
) -> [u8; SIZE]
    ensures { result ≡ hmac D.digest key.now (concat (map (λ piece. piece.now) pieces.now)) }
{
    let block = key_block::<D, SIZE>(key);
    let mut inner = D::new();
    inner.update(&masked_block(&block, INNER_PAD));
    for piece in pieces {
        inner.update(piece);
    }
    let mut outer = D::new();
    outer.update(&masked_block(&block, OUTER_PAD));
    outer.update(&inner.finalize());
    outer.finalize()
}

/// HMAC-SHA1 of a text under a key of any length (RFC 2104, section 2).
pub fn hmac_sha1(key: &[u8], text: &[u8]) -> [u8; 20]
    ensures { result ≡ hmac sha1 key.now text.now }
{
    hmac_of::<Sha1, 20>(key, &[text])
}

/// HMAC-SHA256 of a text under a key of any length (RFC 2104, section 2).
pub fn hmac_sha256(key: &[u8], text: &[u8]) -> [u8; 32]
    ensures { result ≡ hmac sha256 key.now text.now }
{
    hmac_of::<Sha256, 32>(key, &[text])
}

/// The same of a text that comes in pieces.
pub fn hmac_sha256_of(key: &[u8], pieces: &[&[u8]]) -> [u8; 32]
    ensures { result ≡ hmac sha256 key.now (concat (map (λ piece. piece.now) pieces.now)) }
{
    hmac_of::<Sha256, 32>(key, pieces)
}

/// The long-term key of a user: MD5 of the name, the realm and the password, with colons between
/// (RFC 8489, section 9.2.2).
///
/// ```rust
/// let key = generate_auth_key(b"user", b"realm", b"pass");
/// assert_eq!(rt; u128::from_be_bytes(key), 0x8493_fbc5_3ba5_82fb_4c04_4c45_6bdc_40eb);
/// ```
pub fn generate_auth_key(user: &[u8], realm: &[u8], password: &[u8]) -> [u8; 16]
    ensures { result ≡ auth_key user.now realm.now password.now }
{
    use md5::Digest;
    let mut hasher = Md5::new();
    hasher.update(user);
    hasher.update(b":");
    hasher.update(realm);
    hasher.update(b":");
    hasher.update(password);
    hasher.finalize()
}
