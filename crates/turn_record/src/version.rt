//! The versions of the bytes.

/// The version of the records that an area of a store holds. Version 1 has no tokens and no reserved ports.
#[derive(Clone, Copy, Debug, PartialEq, Eq)]
pub enum Version {
    /// Without tokens and reserved ports.
    V1,
    /// With both.
    V2,
}
