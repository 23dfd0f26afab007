//! Where a journal lies on its disk.

/// One area of a disk, and where its log ends. Sizes and positions are in bytes.
#[derive(Clone, Copy, Debug, PartialEq, Eq)]
pub struct Area {
    /// The disk's position at which the area begins.
    pub start: usize,
    /// How many bytes the area has.
    pub size: usize,
    /// The length of the longest payload.
    pub max_payload: usize,
    /// The gate at which the log ends, counted from the area's first byte.
    pub end: usize,
}
