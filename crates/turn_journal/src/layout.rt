//! The numbers of the log's bytes.

/// The byte of an open gate; every other byte is that of a closed one.
pub const OPEN: u8 = 0xA5;

/// The byte that is written for a closed gate.
pub const CLOSED: u8 = 0x00;

/// How many bytes a gate has.
pub const GATE_SIZE: usize = 1;

/// How many bytes the length of a payload has.
pub const LENGTH_SIZE: usize = 4;

/// How many bytes a frame has before its payload: the gate, and the payload's length.
pub const FRAME_HEAD: usize = GATE_SIZE + LENGTH_SIZE;

/// How many bytes a frame takes besides its payload: those before it, and the gate after it.
pub const FRAME_ROOM: usize = FRAME_HEAD + GATE_SIZE;
