//! What is done while a commit waits for its disk.

ghost use Rattle.std.specs.Prelude.{◌≡◌};
ghost use Rattle.turn_engine.specs.Relaying.{BesideState};

use crate::beside::Beside;
use std::alloc::Allocator;
use turn_cred::AuthHandler;
use turn_disk::{Idle, Meanwhile};
use turn_ports::RelayAddressGenerator;

/// What is done, a piece at a time, while a commit waits for its disk.
pub trait WhileCommitting<H: AuthHandler, G: RelayAddressGenerator, A: Allocator> {
    /// What one piece of it does, with what answers arrivals then.
    ghost passes: { BesideState H G → Self → Self → Type 0 };

    /// Does a piece of it, and returns soon: whether there may be more to do at once. A commit calls this any number of times, or
    /// never.
    fn pass(&mut self, beside: &Beside<'_, '_, H, G, A>) -> bool
        ensures { passes beside.now self.old self.new };
}

impl<H: AuthHandler, G: RelayAddressGenerator, A: Allocator> WhileCommitting<H, G, A> for Idle {
    ghost passes = { λ beside old new. new ≡ old };

    fn pass(&mut self, _beside: &Beside<'_, '_, H, G, A>) -> bool {
        false
    }
}

/// What is done meanwhile, with what answers arrivals then.
pub(crate) struct Lending<'a, 'b, W, H: AuthHandler, G: RelayAddressGenerator, A: Allocator> {
    pub other: W,
    pub beside: Beside<'a, 'b, H, G, A>,
}

impl<
    'a,
    'b,
    W: WhileCommitting<H, G, A>,
    H: AuthHandler,
    G: RelayAddressGenerator,
    A: Allocator,
> Meanwhile for Lending<'a, 'b, W, H, G, A> {
    ghost passes = { λ old new. (new.beside ≡ old.beside) × W.passes old.beside old.other new.other };

    fn pass(&mut self) -> bool {
        self.other.pass(&self.beside)
    }
}
