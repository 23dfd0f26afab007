//! What a log remembers of requests until they are answered.

ghost use Rattle.std.specs.Prelude.{◌≡◌};
ghost use Rattle.turn_lines.specs.Asked.{begins_as_request};

use std::alloc::{AllocError, Allocator, Global};
use turn_codec::Message;
use turn_table::Table;
use turn_types::FiveTuple;

/// A request, and the relayed port of the allocation that its client had before it.
#[derive(Drop)]
pub(crate) struct Asked {
    five_tuple: FiveTuple,
    request: Vec<u8>,
    port: Option<u16>,
}

/// Whether bytes begin as a request of one of the four methods whose responses are logged, and have a whole header.
fn begins_as_request(bytes: &[u8]) -> bool
    ensures { result ≡ begins_as_request bytes.now }
{
    bytes.len() >= 20 && matches!(bytes, [0, 3 | 4 | 8 | 9, ..])
}

impl Asked {
    /// A request, if this is one whose response is logged.
    pub(crate) fn new<A: Allocator + Copy>(
        alloc: Global,
        table: &Table<A>,
        five_tuple: FiveTuple,
        bytes: &[u8],
    ) -> Result<Option<Asked>, AllocError> {
        if !begins_as_request(bytes) {
            return Ok(None);
        }
        Ok(Some(Asked {
            five_tuple,
            request: Vec::from_slice(alloc, bytes)?,
            port: table.get(five_tuple).map(|entry| entry.port()),
        }))
    }

    /// Whether a response to a client is to this request: it has the transaction id, in the bytes from 8 to 20.
    pub(crate) fn is_answered_by(&self, five_tuple: FiveTuple, response: &[u8]) -> bool {
        five_tuple == self.five_tuple && self.request.as_slice().get(8..20) == response.get(8..20)
    }

    /// The request.
    pub(crate) fn message(&self) -> Option<Message<'_>> {
        Message::parse(self.request.as_slice()).ok()
    }

    /// The relayed port of the allocation that the client had before the request.
    pub(crate) fn port(&self) -> Option<u16> {
        self.port
    }
}
