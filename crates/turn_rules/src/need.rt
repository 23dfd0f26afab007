//! The relayed ports that an Allocate may need.

/// What a request needs of the generator of ports (RFC 8656, sections 7.2 and 18.7).
#[derive(Clone, Copy, Debug, PartialEq, Eq)]
pub enum Need {
    /// A free port.
    Any,
    /// A free port whose number is even.
    Even,
    /// An even port and the next one, both free.
    Pair,
}
