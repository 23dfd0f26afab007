//! A TURN server over a store: arrivals are staged, and a commit writes what was accepted since the last one and hands
//! out what is to be sent.
#![tactic(auto)]

mod batch;
mod beside;
mod error;
mod laws;
mod meanwhile;
mod server;
mod unanswered;

pub use beside::{Beside, Relayed};
pub use error::{ServerOpenError, SubmitError};
pub use laws::{
    ports_stay_held, servers_make_runs, stopped_servers_open_again, stops_keep_what_was_handed_out,
};
pub use meanwhile::WhileCommitting;
pub use server::Server;
pub use turn_store::StoreError as CommitError;
pub use unanswered::Unanswered;
