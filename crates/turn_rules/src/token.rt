//! Tokens of reserved ports (RFC 8656, sections 7.2 and 18.10).

ghost use Rattle.std.specs.Prelude.{◌≡◌};
ghost use Rattle.turn_rules.specs.Token.{token_for, token_input};
ghost use Rattle.turn_types.specs.FiveTuple.{endpoint_bytes};
ghost use Rattle.sha2.specs.Sha256.{sha256};
ghost use Rattle.turn_mac.specs.Hmac.{hmac};

use turn_mac::hmac_sha256_of;
use turn_types::{Endpoint, FiveTuple, Moment, Token, TxId};

#[tactic(auto, unfolding(turn_types::specs::FiveTuple::endpoint_bytes))]
fn endpoint_bytes(endpoint: Endpoint) -> [u8; 6]
    ensures { result ≡ endpoint_bytes endpoint }
{
    let [a, b, c, d] = endpoint.ip.to_be_bytes();
    let [e, f] = endpoint.port.to_be_bytes();
    [a, b, c, d, e, f]
}

/// The digest of what a token is for: 8 bytes of the second, 6 of each address with its port, and 12 of the id.
#[tactic(auto, unfolding(crate::specs::Token::token_input, turn_types::specs::FiveTuple::tuple_bytes, turn_types::specs::FiveTuple::endpoint_bytes))]
fn digest_of(secret: &[u8; 32], second: u64, five_tuple: FiveTuple, tx: TxId) -> [u8; 32]
    ensures { result ≡ hmac sha256 secret.now (token_input second five_tuple tx.0) }
{
    let second = second.to_be_bytes();
    let client = endpoint_bytes(five_tuple.client);
    let server = endpoint_bytes(five_tuple.server);
    let id = tx.0;
    hmac_sha256_of(secret, &[&second, &client, &server, &id])
}

/// The token of a reserved port, for the Allocate that asked for it at a moment. Whoever does not know the secret can't tell it from
/// other bytes.
#[tactic(auto, unfolding(crate::specs::Token::token_for))]
pub(crate) fn reservation_token(
    secret: &[u8; 32],
    moment: Moment,
    five_tuple: FiveTuple,
    tx: TxId,
    port: u16,
) -> Token
    ensures { result ≡ token_for secret.now moment five_tuple tx.0 port }
{
    let digest = digest_of(secret, moment.seconds(), five_tuple, tx);
    let [high, low] = port.to_be_bytes();
    let [a, b, c, d, e, f, ..] = digest;
    Token([high, low, a, b, c, d, e, f])
}
