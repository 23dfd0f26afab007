//! CRC-32 (ITU-T V.42, as RFC 8489, section 14.7, takes it), by a table of the remainders of all bytes.

ghost use Rattle.std.specs.Prelude.{◌≡◌, ◌++◌, List, ℕ, []};
ghost use Rattle.turn_mac.specs.Crc.{byte_remainder, crc};
ghost use Rattle.turn_mac.specs.Register.{IsBytes, register_after};

use crate::crc_table::REMAINDERS;

/// The CRC-32 of bytes that come in pieces.
#[derive(Clone, Copy)]
pub(crate) struct Checksum {
    register: u32,
}

impl Checksum {
    ghost use Rattle.turn_mac.specs.CrcState.{HoldsBytes};

    #[tactic(auto, unfolding(crate::specs::CrcState::HoldsBytes, crate::specs::Register::register_after))]
    pub(crate) fn new() -> Checksum
        ensures { HoldsBytes result [] }
    {
        Checksum { register: u32::MAX }
    }

    pub(crate) fn update(&mut self, piece: &[u8])
        ensures { (bytes : List ℕ) → HoldsBytes self.old bytes → HoldsBytes self.new (bytes ++ piece.now) }
    {
        self.register = register_after(self.register, piece);
    }

    pub(crate) fn finalize(self) -> u32
        ensures { (bytes : List ℕ) → IsBytes bytes → HoldsBytes self bytes → result ≡ crc bytes }
    {
        !self.register
    }
}

/// The remainder of the bits of a byte, with 32 zeros after them.
fn remainder_of(byte: u8) -> u32
    ensures { result ≡ byte_remainder byte }
{
    REMAINDERS[usize::from(byte)]
}

fn register_after(register: u32, bytes: &[u8]) -> u32
    ensures { result ≡ register_after register bytes.now }
{
    let mut register = register;
    for byte in bytes {
        let low = (register ^ u32::from(*byte)) % 256;
        register = remainder_of(low as u8) ^ (register >> 8);
    }
    register
}

/// The CRC-32 of some bytes.
pub fn crc32(bytes: &[u8]) -> u32
    ensures { result ≡ crc bytes.now }
{
    let mut checksum = Checksum::new();
    checksum.update(bytes);
    checksum.finalize()
}
