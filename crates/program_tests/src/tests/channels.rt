//! Data that no channel takes.

use super::talks::{ALICE, ANY, HOME};
use std::test::Fail;
use turn_client::{Client, ClientError};
use turn_types::Endpoint;

/// Nothing is received here.
const SERVER: Endpoint = Endpoint { ip: HOME, port: 9 };

/// A channel's number, how many bytes, and whether no channel takes them.
const SENT: [(u16, usize, bool); 5] = [
    (0x3FFF, 4, true),
    (0x4000, 4, false),
    (0x7FFF, 4, false),
    (0x8000, 4, true),
    (0x4000, 65_536, true),
];

fn is_too_long(rt: &HostRuntime, number: u16, size: usize) -> Result<bool, Fail> {
    let client = Client::open(rt.alloc(), rt, ANY, SERVER, ALICE)?;
    let data = Vec::from_elem(rt.alloc(), 0u8, size)?;
    Ok(client.send_over_channel(number, &data) == Err(ClientError::TooLong))
}

#[test]
fn data_that_no_channel_takes_is_too_long(rt: HostRuntime) -> Result<(), Fail> {
    for (number, size, refused) in &SENT {
        if is_too_long(&rt, *number, *size)? != *refused {
            return Err(Fail::new(*number));
        }
    }
    Ok(())
}
