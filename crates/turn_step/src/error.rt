//! Why a machine isn't made.

use std::alloc::AllocError;
use std::fmt;
use thiserror::Error;
use turn_cred::AuthHandler;
use turn_ports::RelayAddressGenerator;

/// A machine that wasn't made, since there was no memory for it, and what of it the caller can't make anew.
#[derive(Drop, Error)]
#[error("out of memory")]
pub struct MachineError<H: AuthHandler, G: RelayAddressGenerator> {
    /// The handler, as it was passed.
    pub handler: H,
    /// The generator, as it was passed.
    pub ports: G,
}

// By hand: a derived one would ask for a handler that is `Debug`, and print its keys.
impl<H: AuthHandler, G: RelayAddressGenerator> fmt::Debug for MachineError<H, G> {
    fn fmt<W: fmt::Write>(&self, f: &mut fmt::Formatter<W>) -> fmt::Result {
        write!(f, "MachineError {{ .. }}")
    }
}

impl<H: AuthHandler + Drop, G: RelayAddressGenerator + Drop> From<MachineError<H, G>>
    for AllocError {
    fn from(_: MachineError<H, G>) -> AllocError {
        AllocError
    }
}
