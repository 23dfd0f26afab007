//! What a crash leaves.

/// What a crash leaves of each write that is pending.
#[derive(Clone, Copy, Debug, PartialEq, Eq)]
pub enum CrashOutcome {
    /// Nothing of it.
    Lost,
    /// All that it wrote.
    Kept,
    /// The first half of its bytes, rounded down.
    Half,
    /// This byte, throughout.
    Fill(u8),
}
