//! What a server asks of a set of ports, and of a generator of relayed addresses.

ghost use Rattle.std.specs.Prelude.{◌≡◌, ◌⊎◌, ℕ, Bool, IfOk, OnErr, Ok, None, true};
ghost use Rattle.turn_ports.specs.Ports.{Failed, IsLowestFree, IsLowestFreePair, MayPick, MayPickPair, has_failed, with_pair, with_port, without_port};

use std::alloc::AllocError;

/// A set of ports, such as those of the live allocations.
pub trait PortSet {
    /// Which ports are in the set.
    ghost has: { Self → ℕ → Bool };

    /// Whether a port is in the set.
    fn has(&self, port: u16) -> bool
        ensures { result ≡ has self.now port };

    /// The lowest port from a first to a last, both included, that isn't in the set, and an even one where `even`
    /// asks for it. The default asks for each port; a set that keeps its ports in order can override it.
    fn lowest_free(&self, first: u16, last: u16, even: bool) -> Option<u16>
        ensures { IsLowestFree (first, last) (has self.now) even result }
    {
        for port in first..=last {
            if !self.has(port) && (!even || port % 2 == 0) {
                return Some(port);
            }
        }
        None
    }

    /// The lowest even port from a first to a last that isn't in the set, and whose next port isn't either and is at most
    /// the last.
    fn lowest_free_pair(&self, first: u16, last: u16) -> Option<u16>
        ensures { IsLowestFreePair (first, last) (has self.now) result }
    {
        for port in first..last {
            if port % 2 == 0 && !self.has(port) && !self.has(port + 1) {
                return Some(port);
            }
        }
        None
    }
}

/// A generator of relayed addresses: the UDP ports of one address, from a first to a last, both included.
///
/// A generator may hold something for each port that it gave out, as a bound socket, so a port that was picked is
/// released once no allocation has it.
pub trait RelayAddressGenerator {
    /// The first and the last port.
    ghost range: { Self → ℕ × ℕ };

    /// How many calls of `pick` and `pick_pair` failed, modulo 2^64.
    ghost failures: { Self → ℕ };

    /// The generator holds something for each port of this set, and for no other. One that never holds anything says it of every set.
    ghost holds: { Self → (ℕ → Bool) → Type 0 };

    /// The first and the last port.
    fn range(&self) -> (u16, u16)
        ensures { result ≡ range self.now };

    /// A port of the range that isn't taken, and an even one where `even` asks for it (EVEN-PORT: RFC 8656,
    /// section 7.2). `None` where there is no such port, or where the generator failed, as at a port that can't be
    /// bound: a server answers 508 to both. `Err` is an allocation failure.
    fn pick<S: PortSet>(&mut self, taken: &S, even: bool) -> Result<Option<u16>, AllocError>
        ensures answer { IfOk result (MayPick (range self.old) (S.has taken.now) even (has_failed (failures self.old) (failures self.new))) }
        // The generator fails only where it answers none.
        ensures count { (failures self.new ≡ failures self.old) ⊎ ((result ≡ Ok None) × Failed (failures self.old) (failures self.new)) }
        ensures range { range self.new ≡ range self.old }
        // The port that was picked is held too.
        ensures picked { (held : ℕ → Bool) → holds self.old held → IfOk result (λ port. holds self.new (with_port held port)) }
        ensures err { (held : ℕ → Bool) → holds self.old held → OnErr result (holds self.new held) };

    /// An even port of the range that isn't taken, whose next port is of the range and isn't taken (EVEN-PORT with the R bit:
    /// RFC 8656, section 7.2). Both are given out. `None` and `Err` are as from `pick`: then neither is.
    fn pick_pair<S: PortSet>(&mut self, taken: &S) -> Result<Option<u16>, AllocError>
        ensures answer { IfOk result (MayPickPair (range self.old) (S.has taken.now) (has_failed (failures self.old) (failures self.new))) }
        ensures count { (failures self.new ≡ failures self.old) ⊎ ((result ≡ Ok None) × Failed (failures self.old) (failures self.new)) }
        ensures range { range self.new ≡ range self.old }
        // Both ports are held too.
        ensures picked { (held : ℕ → Bool) → holds self.old held → IfOk result (λ port. holds self.new (with_pair held port)) }
        ensures err { (held : ℕ → Bool) → holds self.old held → OnErr result (holds self.new held) };

    /// Releases a port that is held. Of one that isn't held nothing is promised but the range and the count.
    fn release(&mut self, port: u16)
        ensures range { range self.new ≡ range self.old }
        ensures count { failures self.new ≡ failures self.old }
        ensures released { (held : ℕ → Bool) → holds self.old held → held port ≡ true → holds self.new (without_port held port) };

    /// How many calls of `pick` and `pick_pair` failed, modulo 2^64.
    fn failures(&self) -> u64
        ensures { result ≡ failures self.now };
}
