//! Long-term credentials (RFC 8489, section 9.2): users' keys, nonces, and the check of who sent a request.
#![tactic(auto)]

mod checker;
mod handler;
mod key;
mod laws;
mod memo;
mod nonce;
mod passed;
mod shared;
mod users;

pub use checker::{Checker, Verdict};
pub use handler::AuthHandler;
pub use key::Key;
pub use laws::{
    freshness_is_decided, holds_for_an_hour, keys_are_of_their_names, names_have_their_expiry,
    no_secret_no_change, passed_is_sent_by_the_user,
};
pub use nonce::Nonces;
pub use shared::{Credentials, SharedSecret};
pub use users::Users;
