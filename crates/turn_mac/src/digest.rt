//! The digests of which an HMAC is made.

ghost use Rattle.std.specs.Prelude.{◌≡◌, ◌++◌, ◌≤◌, List, ℕ, []};

use sha1::Sha1;
use sha2::{Digest, Sha256};

/// A digest with blocks of 64 bytes (RFC 2104, section 2), which is fed in pieces.
pub(crate) trait BlockDigest<const SIZE: usize>: Drop {
    /// The digest of a text.
    ghost digest: { List ℕ → List ℕ };

    /// The text was fed so far.
    ghost holds: { Self → List ℕ → Type 0 };

    fn new() -> Self
        ensures { holds result [] };

    fn update(&mut self, piece: &[u8])
        ensures { (text : List ℕ) → holds self.old text → holds self.new (text ++ piece.now) };

    fn finalize(self) -> [u8; SIZE]
        ensures { (text : List ℕ) → holds self text → result ≡ digest text };

    /// A digest is no longer than a block.
    ghost short: { SIZE ≤ 64 };
}

/// The digest of a text.
pub(crate) fn digest_of<D: BlockDigest<SIZE>, const SIZE: usize>(text: &[u8]) -> [u8; SIZE]
    ensures { result ≡ D.digest text.now }
{
    let mut digest = D::new();
    digest.update(text);
    digest.finalize()
}

impl BlockDigest<20> for Sha1 {
    ghost use Rattle.std.proofs.Common.{lit≤};
    ghost use Rattle.sha1.specs.Sha1.{sha1, Holds};

    ghost digest = { sha1 };

    ghost holds = { Holds };

    ghost short = { lit≤ tt };

    fn new() -> Sha1 {
        Sha1::new()
    }

    fn update(&mut self, piece: &[u8]) {
        Sha1::update(self, piece);
    }

    fn finalize(self) -> [u8; 20] {
        Sha1::finalize(self)
    }
}

impl BlockDigest<32> for Sha256 {
    ghost use Rattle.std.proofs.Common.{lit≤};
    ghost use Rattle.sha2.specs.Sha256.{sha256};
    ghost use Rattle.sha2.specs.Hashers.{Holds256};

    ghost digest = { sha256 };

    ghost holds = { Holds256 };

    ghost short = { lit≤ tt };

    fn new() -> Sha256 {
        <Sha256 as Digest>::new()
    }

    fn update(&mut self, piece: &[u8]) {
        Digest::update(self, piece);
    }

    fn finalize(self) -> [u8; 32] {
        Digest::finalize(self)
    }
}
