//! A store is read, to which a server may write meanwhile.
#![tactic(auto)]

mod error;
mod reading;

pub use error::ReadingError;
pub use reading::{Reading, read_store};
