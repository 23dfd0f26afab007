//! Laws over the definitions of CRC-32, MESSAGE-INTEGRITY and FINGERPRINT.

ghost use Rattle.std.specs.Prelude.{◌≡◌, ◌↔◌, IsTrue, ◌+◌, ◌-◌, ℕ, Bool, List, length};
ghost use Rattle.turn_codec.specs.Grammar.{Datagram};
ghost use Rattle.turn_mac.specs.Crc.{remainder, IsRemainder};
ghost use Rattle.turn_mac.specs.Fingerprint.{is_fingerprint_right};
ghost use Rattle.turn_mac.specs.Integrity.{IntegrityHolds, has_right_integrity, FingerprintHolds};

/// The result of long division is a remainder, and a polynomial has no other one.
pub fn long_division()
    ensures gives { (n : ℕ) (p : List Bool) → length p ≡ n + 32 → IsRemainder p (remainder n p) }
    ensures only { (p r : List Bool) → IsRemainder p r → remainder (length p - 32) p ≡ r }
{}

/// The test of a MESSAGE-INTEGRITY says whether it holds.
pub fn integrity_is_decided()
    ensures { (key : List ℕ) (d : Datagram) → IsTrue (has_right_integrity key d) ↔ IntegrityHolds key d }
{}

/// The test of a FINGERPRINT says whether it holds.
pub fn fingerprint_is_decided()
    ensures { (d : Datagram) → IsTrue (is_fingerprint_right d) ↔ FingerprintHolds d }
{}
