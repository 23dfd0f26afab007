//! The end of allocations in a store that no server holds: Refreshes of 0 in place of the users who made them (RFC 8656,
//! section 7.3).
#![tactic(auto)]

mod chosen;
mod ending;
mod error;
mod laws;
mod operator;

pub use chosen::{Chosen, Whose, chosen_of};
pub use ending::end_all;
pub use error::EndError;
pub use laws::ends_change_nothing_else;
pub use operator::Operator;
