//! The numbers of a store's bytes; those of a log are of `turn_journal`.

use turn_journal::{GATE_SIZE, LENGTH_SIZE};

/// How many bytes the superblock has, after which the first area begins.
pub const SUPERBLOCK_SIZE: usize = 64;

/// Where the superblock has the size of an area.
pub const AREA_SIZE_AT: usize = 8;

/// Where the first area begins.
pub const FIRST_AREA: usize = SUPERBLOCK_SIZE;

/// Where an area has its version, counted from its gate as the other places in it.
pub const VERSION_AT: usize = GATE_SIZE;

/// Where an area has its generation.
pub const GENERATION_AT: usize = VERSION_AT + 1;

/// Where an area has the length of its snapshot.
pub const LENGTH_AT: usize = GENERATION_AT + 8;

/// How many bytes an area has before its snapshot: its gate, version and generation, and the snapshot's length.
pub const HEAD_SIZE: usize = LENGTH_AT + LENGTH_SIZE;

/// How many of these are after the gate.
pub const FRONT_SIZE: usize = HEAD_SIZE - GATE_SIZE;

/// How many bytes the first area of a formatted store of version 1 has, up to the gate at which its log ends.
pub const FRESH_SIZE_1: usize = HEAD_SIZE + 12 + GATE_SIZE;

/// The same of version 2.
pub const FRESH_SIZE_2: usize = HEAD_SIZE + 16 + GATE_SIZE;
