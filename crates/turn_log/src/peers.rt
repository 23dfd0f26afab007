//! The peers of a line.

ghost use Rattle.std.specs.Prelude.{◌≡◌, ◌-◌, length, min};
ghost use Rattle.turn_codec.specs.Prelude.{seen, values_of, xor_peer_address};

use arrayvec::ArrayVec;
use turn_codec::{AttributeType, Message};

/// How many peers a line has at most.
const SHOWN: usize = 32;

/// The first peers that a request names, up to 32, as the values of the attributes, and how many more it has.
#[derive(Drop)]
pub struct NamedPeers<'a> {
    shown: ArrayVec<&'a [u8], SHOWN>,
    more: usize,
}

impl<'a> NamedPeers<'a> {
    /// Those of a request.
    pub fn new(message: &Message<'a>) -> NamedPeers<'a>
        ensures shown { length result.shown.items ≡ min 32 (length (values_of xor_peer_address (seen message.now.content))) }
        ensures more { result.more ≡ length (values_of xor_peer_address (seen message.now.content)) - 32 }
    {
        let mut peers = NamedPeers {
            shown: ArrayVec::new(),
            more: 0,
        };
        for (kind, value) in message.seen() {
            if kind == AttributeType::XOR_PEER_ADDRESS {
                if peers.shown.is_full() {
                    peers.more += 1;
                } else {
                    peers.shown.push(value);
                }
            }
        }
        peers
    }

    /// The values of the first ones.
    pub fn shown(&self) -> &[&'a [u8]]
        ensures { length result.now ≡ length self.now.shown.items }
    {
        self.shown.as_slice()
    }

    /// How many more there are.
    pub fn more(&self) -> usize
        ensures { result ≡ self.now.more }
    {
        self.more
    }
}
