//! ChannelData (RFC 8656, section 12.4).

ghost use Rattle.std.specs.Prelude.{◌≡◌, ◌<◌, ◌^◌, ◌↔◌, ℕ, List, IsTrue, IsSomeAnd, length, IfSome, IfOk};
ghost use Rattle.turn_codec.specs.Channel.{IsChannel, channel_encoding, EncodesChannelData};

use std::alloc::{AllocError, Allocator};

/// Whether ChannelData may have the number: 0x4000 to 0x7FFF, whose first two bits are 01.
pub fn is_channel_data_number(number: u16) -> bool
    ensures { IsTrue result ↔ IsChannel number }
{
    0x4000 <= number && number <= 0x7FFF
}

/// Data on a channel. The payload is a slice of the datagram that it was read from.
#[derive(Clone, Copy, Debug)]
pub struct ChannelData<'a> {
    /// The channel's number, from 0x4000 to 0x7FFF.
    pub number: u16,
    /// At most 65,535 bytes, since the length has 16 bits.
    pub payload: &'a [u8],
}

impl<'a> ChannelData<'a> {
    /// The channel data that a datagram begins with. Bytes after the payload are ignored.
    ///
    /// `None` where the datagram has fewer than 4 bytes, its first two bits aren't 01, or the length passes
    /// its end.
    pub fn parse(bytes: &'a [u8]) -> Option<ChannelData<'a>>
        // What is read is there.
        ensures found { IfSome result (λ d. EncodesChannelData bytes.now d.number d.payload.now) }
        // What is there is read.
        ensures only { (number : ℕ) (payload : List ℕ) → EncodesChannelData bytes.now number payload →
            IsSomeAnd result (λ d. (d.number ≡ number) × (d.payload.now ≡ payload)) }
    {
        let [k, l, m, n, rest @ ..] = bytes else {
            return None;
        };
        let number = u16::from_be_bytes([*k, *l]);
        let size = u16::from_be_bytes([*m, *n]) as usize;
        if !is_channel_data_number(number) || rest.len() < size {
            return None;
        }
        Some(ChannelData {
            number,
            payload: &rest[..size],
        })
    }

    /// The datagram, with no byte after the payload.
    pub fn write<A: Allocator>(&self, alloc: A) -> Result<Vec<u8, A>, AllocError>
        requires number { IsChannel self.now.number }
        requires size { length self.now.payload.now < 2 ^ 16 }
        ensures { IfOk result (λ v. v.items ≡ channel_encoding self.now.number self.now.payload.now) }
    {
        let size = self.payload.len();
        let mut bytes = Vec::with_capacity(alloc, 4 + size)?;
        bytes.extend_from_slice(&self.number.to_be_bytes())?;
        bytes.extend_from_slice(&(size as u16).to_be_bytes())?;
        bytes.extend_from_slice(self.payload)?;
        Ok(bytes)
    }
}
