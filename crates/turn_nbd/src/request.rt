//! Requests, as the bytes that a client sends.

ghost use Rattle.std.specs.Prelude.{◌≡◌};
ghost use Rattle.turn_nbd.specs.Requests.{command_flags, kind_number, request, write_kind};

use crate::bytes::put;

/// How many bytes a request has, without its data.
pub const REQUEST_SIZE: usize = 28;

/// What a request begins with.
const MAGIC: u32 = 0x2560_9513;

/// The command flag by which what is written is durable before the reply comes: "force unit access".
const FUA: u16 = 1;

/// What is asked for.
#[derive(Clone, Copy, Debug, PartialEq, Eq)]
pub enum Kind {
    /// Bytes from a position on.
    Read,
    /// That bytes are written from a position on.
    Write,
    /// The same, and that they are durable before the reply comes.
    DurableWrite,
    /// That the connection ends. It has no reply.
    Disconnect,
    /// That what was written is made durable.
    Flush,
}

impl Kind {
    /// Its number in the protocol.
    pub fn number(self) -> u16
        ensures { result ≡ kind_number self }
    {
        match self {
            Kind::Read => 0,
            Kind::Write | Kind::DurableWrite => 1,
            Kind::Disconnect => 2,
            Kind::Flush => 3,
        }
    }

    /// Its command flags: FUA, or none.
    pub fn flags(self) -> u16
        ensures { result ≡ command_flags self }
    {
        match self {
            Kind::DurableWrite => FUA,
            Kind::Read | Kind::Write | Kind::Disconnect | Kind::Flush => 0,
        }
    }

    /// A write, which is durable before its reply comes or not.
    pub fn write(is_durable: bool) -> Kind
        ensures { result ≡ write_kind is_durable }
    {
        if is_durable {
            Kind::DurableWrite
        } else {
            Kind::Write
        }
    }
}

/// A request without its data. Its cookie comes back in its reply; `at` and `count` are in bytes.
pub fn request(kind: Kind, cookie: u64, at: u64, count: u32) -> [u8; REQUEST_SIZE]
    ensures { result ≡ request kind cookie at count }
{
    let mut bytes = [0; REQUEST_SIZE];
    put(&mut bytes, 0, &MAGIC.to_be_bytes());
    put(&mut bytes, 4, &kind.flags().to_be_bytes());
    put(&mut bytes, 6, &kind.number().to_be_bytes());
    put(&mut bytes, 8, &cookie.to_be_bytes());
    put(&mut bytes, 16, &at.to_be_bytes());
    put(&mut bytes, 24, &count.to_be_bytes());
    bytes
}
