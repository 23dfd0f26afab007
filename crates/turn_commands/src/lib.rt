//! The commands of the program `turn` that need no server: over a datagram, a scenario, a configuration or a store.
#![tactic(auto)]

mod answer;
mod check;
mod credential;
mod end;
mod fault;
mod format;
mod inspect;
mod login;
mod replay;
mod reply;
mod status;

pub use answer::run_answer;
pub use check::run_check;
pub use credential::run_credential;
pub use end::run_end;
pub use format::{format_disk, run_format};
pub use inspect::run_inspect;
pub use login::{Login, login_of, server_in};
pub use replay::run_replay;
pub use reply::reply_to;
pub use status::run_status;
