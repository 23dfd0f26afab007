//! The parts of the handshake, as bytes that a server sends and a client answers.

ghost use Rattle.std.specs.Prelude.{◌≡◌, ◌≢◌, ◌++◌, bit_and, MatchBool, MatchResult};
ghost use Rattle.std.specs.Int.{w16, w32, w64, from_be_bytes};
ghost use Rattle.turn_nbd.specs.Handshake.{greeting_magic, option_head, option_reply_magic, HasFua, IsNoGreeting, IsUnfit, IsFit};

use crate::bytes::{differ, put};
use crate::error::NbdError;

/// The max number of bytes of an export's name, by the protocol.
pub const MAX_NAME: usize = 4096;

/// What a greeting begins with.
const GREETING: [u8; 16] = *b"NBDMAGICIHAVEOPT";

/// What an option begins with.
const OPTION: [u8; 8] = *b"IHAVEOPT";

/// What the reply to an option begins with.
const OPTION_REPLY: [u8; 8] = [0, 3, 0xe8, 0x89, 4, 0x55, 0x65, 0xa9];

/// The option that asks for an export, and for what there is to say of it.
pub const GO: u32 = 7;

/// The option that asks for an export.
pub const EXPORT_NAME: u32 = 1;

/// The type of the reply that ends an option which succeeds.
pub const ACK: u32 = 1;

/// The type of a reply with information.
pub const INFO: u32 = 3;

/// The type of the reply to an option that the server doesn't know.
pub const UNKNOWN_OPTION: u32 = 0x8000_0001;

/// The flag of a server that has the fixed newstyle handshake.
const FIXED_NEWSTYLE: u16 = 1;

/// The flag of a server that leaves out the zeros after the reply to `EXPORT_NAME`.
const NO_ZEROES: u16 = 2;

/// The flags that a client answers: it has the fixed newstyle handshake, and can do without zeros.
const UNDERSTOOD: u16 = 3;

/// The transmission flag of an export that can't be written.
const READ_ONLY: u16 = 2;

/// The transmission flags of a server with flags and FLUSH.
const FLUSH: u16 = 5;

/// The transmission flags of a server with flags and FUA.
const FUA: u16 = 9;

/// What a server tells of an export.
#[derive(Clone, Copy, Debug, PartialEq, Eq)]
pub struct Found {
    /// In bytes.
    pub size: u64,
    /// The transmission flags.
    pub flags: u16,
}

/// The flags of a greeting, which come after its magic.
pub fn read_greeting(magic: &[u8; 16], flags: [u8; 2]) -> Result<u16, NbdError>
    ensures { MatchResult result (λ n. (magic.now ≡ greeting_magic) × (n ≡ from_be_bytes w16 flags) × (bit_and n 1 ≢ 0))
        (λ why. IsNoGreeting why magic.now flags) }
{
    if differ(magic, &GREETING) {
        return Err(NbdError::Handshake);
    }
    let flags = u16::from_be_bytes(flags);
    if flags & FIXED_NEWSTYLE == 0 {
        return Err(NbdError::Unsupported);
    }
    Ok(flags)
}

/// The flags that a client answers to a greeting: those of the server's that it understands.
pub fn client_flags(flags: u16) -> u32
    ensures { result ≡ bit_and flags 3 }
{
    u32::from(flags & UNDERSTOOD)
}

/// Whether it was agreed that the reply to `EXPORT_NAME` ends without zeros.
pub fn has_no_zeros(flags: u16) -> bool {
    flags & NO_ZEROES != 0
}

/// What an option begins with, up to its data of so many bytes.
pub fn option_head(number: u32, count: u32) -> [u8; 16]
    ensures { result ≡ option_head number count }
{
    let mut bytes = [0; 16];
    put(&mut bytes, 0, &OPTION);
    put(&mut bytes, 8, &number.to_be_bytes());
    put(&mut bytes, 12, &count.to_be_bytes());
    bytes
}

/// Whether a reply to an option begins as one of this option does.
pub fn check_option_reply(magic: &[u8; 8], option: [u8; 4], number: u32) -> Result<(), NbdError>
    ensures { MatchResult result (λ _. (magic.now ≡ option_reply_magic) × (from_be_bytes w32 option ≡ number))
        (λ why. (why ≡ NbdError.Handshake) × (magic.now ≡ option_reply_magic → from_be_bytes w32 option ≢ number)) }
{
    if differ(magic, &OPTION_REPLY) {
        return Err(NbdError::Handshake);
    }
    if u32::from_be_bytes(option) != number {
        return Err(NbdError::Handshake);
    }
    Ok(())
}

/// What a server tells of an export: after its size come its flags.
pub fn read_told(size: [u8; 8], flags: [u8; 2]) -> Found
    ensures size { result.size ≡ from_be_bytes w64 size }
    ensures flags { result.flags ≡ from_be_bytes w16 flags }
{
    Found {
        size: u64::from_be_bytes(size),
        flags: u16::from_be_bytes(flags),
    }
}

/// The size in bytes of an export that is fit to be written with FLUSH, or, where `writes` is false, to be read.
pub fn fit_size(found: Found, writes: bool) -> Result<usize, NbdError>
    ensures { MatchResult result (λ size. (size ≡ found.size) × IsFit writes found) (λ why. IsUnfit why writes found) }
{
    if found.size == 0 || 1 << 63 <= found.size {
        return Err(NbdError::Size);
    }
    if writes && found.flags & READ_ONLY != 0 {
        return Err(NbdError::ReadOnly);
    }
    if writes && found.flags & FLUSH != FLUSH {
        return Err(NbdError::NoFlush);
    }
    Ok(found.size as usize)
}

/// Whether a write to an export may ask that it is durable before its reply comes.
pub fn has_fua(found: Found) -> bool
    ensures { MatchBool result (HasFua found) (HasFua found → ⊥) }
{
    found.flags & FUA == FUA
}
