//! What a file holds when it is opened.

ghost use Rattle.std.specs.Prelude.{[]};
ghost use Rattle.turn_disk.specs.Disk.{State};

/// The state that a file was found in when it was opened. No code can read it, so what is proved over `S: Start` holds for each state.
pub trait Start: Drop {
    /// What a read returned, and what was written and not synced: a process that was killed may have left it so, and a loss of
    /// power may still take it back.
    ghost found: { State };
}

/// A name for the state that a program doesn't know.
#[derive(Drop)]
pub struct Unknown;

impl Start for Unknown {
    ghost found = { record { bytes = []; pending = [] } };
}
