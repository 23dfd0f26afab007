//! The reply to a request, without its data.

ghost use Rattle.std.specs.Prelude.{◌≡◌, ◌≢◌, MatchResult};
ghost use Rattle.turn_nbd.specs.Requests.{reply_magic, success, IsNoSuccess, IsOtherReply};

use crate::bytes::differ;
use crate::error::NbdError;
use std::io;

/// How many bytes a reply has, without its data.
pub const REPLY_SIZE: usize = 16;

/// What a reply begins with.
const MAGIC: [u8; 4] = [0x67, 0x44, 0x66, 0x98];

/// What a structured reply begins with.
const STRUCTURED: [u8; 4] = [0x66, 0x8e, 0x33, 0xef];

/// The error code of a request that succeeded.
const NO_ERROR: [u8; 4] = [0; 4];

/// The reason that an error code stands for. One that is no number of Linux is an error of input and output.
fn reason_of(code: [u8; 4]) -> io::Error {
    io::Error::from_raw_os_error(i32::try_from(u32::from_be_bytes(code)).unwrap_or(libc::EIO))
}

/// What is told of a reply that doesn't begin as it should.
fn other_reply(magic: &[u8]) -> NbdError
    requires { magic.now ≢ reply_magic }
    ensures { IsOtherReply result magic.now }
{
    if differ(magic, &STRUCTURED) {
        NbdError::Reply
    } else {
        NbdError::Structured
    }
}

/// Whether a reply is that of success to the request of this cookie.
pub fn check_reply(bytes: &[u8; REPLY_SIZE], cookie: u64) -> Result<(), NbdError>
    ensures { MatchResult result (λ _. bytes.now ≡ success cookie) (λ why. IsNoSuccess why cookie bytes.now) }
{
    if differ(&bytes[0..4], &MAGIC) {
        return Err(other_reply(&bytes[0..4]));
    }
    if differ(&bytes[8..16], &cookie.to_be_bytes()) {
        return Err(NbdError::Cookie);
    }
    if differ(&bytes[4..8], &NO_ERROR) {
        return Err(NbdError::Failed(reason_of([bytes[4], bytes[5], bytes[6], bytes[7]])));
    }
    Ok(())
}
