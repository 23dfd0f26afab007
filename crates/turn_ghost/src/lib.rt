//! Values that clauses alone read.
#![tactic(auto)]

mod value;

pub use value::{Ghost, Shows};
