//! One step of a TURN server without sockets and without a store: what an arrival sends, and what it does to the
//! table (RFC 8656).
#![tactic(auto)]

mod answer;
mod arrival;
mod client;
mod error;
mod laws;
mod machine;
mod pairs;
mod peer;
mod purge;
mod request;
mod step;

pub use answer::Answer;
pub use arrival::{Arrival, Outgoing};
pub use error::MachineError;
pub use laws::{
    answers_of_no_table, clients_stand_alone, data_stands_alone, replies_answer_requests,
};
pub use machine::Machine;
pub use pairs::Pairs;
pub use step::Step;
