//! Answers that change nothing.

use crate::arrival::Outgoing;
use std::alloc::{Allocator, Global};

/// What `Machine::answer` answers.
#[derive(Drop)]
pub enum Answer<A: Allocator = Global> {
    /// The arrival is a request whose answer depends on the table: `Machine::prepare` answers it.
    Request,
    /// It is a request whose answer is the same for every table. This is what is to be sent, if anything.
    Reply(Option<Outgoing<A>>),
    /// It is no request: data, or what gets no answer. This is what is to be sent, if anything.
    Data(Option<Outgoing<A>>),
}
