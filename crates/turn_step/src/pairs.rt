//! Whether a machine reserves ports.

ghost use Rattle.std.specs.Prelude.{◌≡◌};
ghost use Rattle.turn_step.specs.Views.{is_reserved};

/// Whether a machine reserves, for an EVEN-PORT with the R bit, the port after the one that it allocates, and takes the tokens of
/// reserved ports (RFC 8656, sections 7.2 and 7.3).
#[derive(Clone, Copy, Debug, PartialEq, Eq)]
pub enum Pairs {
    /// EVEN-PORT with the R bit is answered by 508, and so is each RESERVATION-TOKEN.
    Refused,
    /// The port after is kept for 30 seconds, for whoever has its token.
    Reserved,
}

impl Pairs {
    /// Whether ports are reserved.
    pub(crate) fn is_reserved(self) -> bool
        ensures { result ≡ is_reserved self }
    {
        match self {
            Pairs::Refused => false,
            Pairs::Reserved => true,
        }
    }
}
