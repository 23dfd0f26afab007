//! What a log takes a datagram to a client for.

ghost use Rattle.std.specs.Prelude.{◌≡◌};
ghost use Rattle.turn_log.specs.Logged.{code_of, response_of};

/// A response to a request that asks for credentials.
#[derive(Clone, Copy, Debug, PartialEq, Eq)]
pub enum Response {
    /// A success response.
    Success,
    /// An error, with its code: 401 and so on.
    Error(u16),
}

/// The error code of an error response whose first attribute that is, or 0.
fn code_of(bytes: &[u8]) -> u16
    ensures { result ≡ code_of bytes.now }
{
    if bytes.len() >= 28 && bytes[20] == 0 && bytes[21] == 9 {
        u16::from(bytes[26]) * 100 + u16::from(bytes[27])
    } else {
        0
    }
}

/// The response that a datagram of the server is, to an Allocate, a Refresh, a CreatePermission or a ChannelBind. Data that is
/// relayed is told by the first byte alone, and so are responses to Bindings by the first two. The server's errors begin with their
/// code.
pub fn response_of(bytes: &[u8]) -> Option<Response>
    ensures { result ≡ response_of bytes.now }
{
    match bytes {
        [1, 3 | 4 | 8 | 9, ..] => Some(Response::Success),
        [1, 19 | 20 | 24 | 25, ..] => Some(Response::Error(code_of(bytes))),
        _ => None,
    }
}
