//! What accepted requests do to allocations, and the definitions of histories and tables (RFC 8656, sections 6 to
//! 12) with their laws. specs/ has the definitions; each law is the contract of a public function without a body.
#![tactic(auto)]

mod act;
mod channel;
mod event;
mod laws;
mod reservation;

pub use act::{Act, Addresses, UserName};
pub use channel::{Channel, ChannelNumber};
pub use event::Event;
pub use laws::{
    acts_change_tables, entries_stand_alone, fitting_histories_grow, histories_join,
    maps_list_entries, ports_and_peers_differ, tables_are_in_range, tables_expire,
    tables_hold_the_bound, tables_hold_the_live, tables_hold_the_permitted,
    tables_hold_the_reserved, tables_without_tokens_stay, tests_decide,
};
pub use reservation::Reservation;
