//! A server over UDP sockets and any disk: how it is started, and turns, in each of which what came is submitted, committed
//! and answered.
#![tactic(auto)]

mod error;
mod laws;
mod listening;
mod manner;
mod meanwhile;
mod reader;
mod relay_sockets;
mod sending;
mod serving;
mod start;
mod watch;

pub use error::{Needed, SetupError, SocketFault, StartError, TurnError};
pub use laws::{
    five_tuples_keep_their_order, sockets_are_visited_in_rounds, turns_keep_ports, turns_make_runs,
};
pub use listening::ListeningSockets;
pub use manner::Commits;
pub use relay_sockets::RelaySockets;
pub use serving::{Serving, SocketServing};
pub use start::Setup;
pub use watch::{Silent, Watch};
