//! What is done while a disk waits.

ghost use Rattle.std.specs.Prelude.{◌≡◌};

/// What is done, a piece at a time, while a device call waits for its answer.
pub trait Meanwhile {
    /// What one piece of it does.
    ghost passes: { Self → Self → Type 0 };

    /// Does a piece of it, and returns soon. A disk calls this any number of times while it waits, or never. Returns whether there may be
    /// more to do at once.
    fn pass(&mut self) -> bool
        ensures { passes self.old self.new };
}

/// Nothing is done while a disk waits.
#[derive(Drop)]
pub struct Idle;

impl Meanwhile for Idle {
    ghost passes = { λ old new. new ≡ old };

    fn pass(&mut self) -> bool {
        false
    }
}
