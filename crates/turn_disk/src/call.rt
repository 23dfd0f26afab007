//! What a disk in memory records.

/// A call that a disk in memory records, since it changes what a stop may leave.
#[derive(Clone, Copy, Debug, PartialEq, Eq)]
pub enum Call {
    /// From this position on, so many bytes.
    Wrote(usize, usize),
    /// A sync that succeeded.
    Synced,
}
