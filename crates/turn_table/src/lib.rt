//! The table of live allocations (RFC 8656, sections 5 to 12): a map of entries, with the orders of five-tuples, of
//! ports and of users.
#![tactic(auto)]

mod allocations;
mod edit;
mod entry;
mod fits;
mod laws;
mod search;
mod sorted_map;
mod table;
mod user_order;

pub use entry::{Entry, EntryParts};
pub use laws::{above_the_last, above_the_last_reserved};
pub use table::{Entries, Table};
