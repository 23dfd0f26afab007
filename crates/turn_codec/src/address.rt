//! Addresses that are masked by the cookie.

ghost use Rattle.std.specs.Prelude.{◌≡◌};
ghost use Rattle.turn_codec.specs.Address.{xor_value, address_of};

use crate::message::COOKIE;
use byteorder::{BigEndian, ByteOrder};
use turn_types::{Addr, Endpoint, PeerAddress, TxId};

/// A port is masked by the cookie's first two bytes.
const PORT_MASK: u16 = 0x2112;

/// The value of an XOR address attribute (RFC 8489, section 14.2).
#[tactic(auto, unfolding(crate::specs::Address::xor_value))]
pub fn xor_address(endpoint: Endpoint) -> [u8; 8]
    ensures { result ≡ xor_value endpoint }
{
    let mut value = [0, 1, 0, 0, 0, 0, 0, 0];
    BigEndian::write_u16(&mut value[2..4], endpoint.port ^ PORT_MASK);
    BigEndian::write_u32(&mut value[4..8], endpoint.ip ^ COOKIE);
    value
}

/// The address that the value of an XOR address attribute names.
pub fn read_xor_address(value: &[u8], tx: TxId) -> Option<PeerAddress>
    ensures { result ≡ address_of value.now tx.0 }
{
    match value {
        [_, 1, a, b, c, d, e, f] => Some(PeerAddress {
            ip: Addr::V4(u32::from_be_bytes([*c, *d, *e, *f]) ^ COOKIE),
            port: u16::from_be_bytes([*a, *b]) ^ PORT_MASK,
        }),
        [_, 2, a, b, address @ ..] if address.len() == 16 => {
            let mut mask = [0; 16];
            mask[0..4].copy_from_slice(&COOKIE.to_be_bytes());
            mask[4..16].copy_from_slice(&tx.0);
            Some(PeerAddress {
                ip: Addr::V6(BigEndian::read_u128(address) ^ BigEndian::read_u128(&mask)),
                port: u16::from_be_bytes([*a, *b]) ^ PORT_MASK,
            })
        }
        _ => None,
    }
}
