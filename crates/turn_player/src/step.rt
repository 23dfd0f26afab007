//! What a player is asked, and what comes of it.

use std::alloc::{Allocator, Global};
use turn_disk::CrashOutcome;
use turn_engine::{CommitError, SubmitError};
use turn_step::{Arrival, Outgoing};
use turn_store::OpenError;
use turn_types::Moment;

/// One step.
#[derive(Clone, Copy, Debug)]
pub enum Action<'a> {
    /// An arrival at a moment, or at the server's clock where that is later.
    Arrive(Moment, Arrival<'a>),
    /// A commit of what was taken since the last one.
    Commit,
    /// The disk becomes the image that the outcome names, failures that are still to come are cancelled, and the store is
    /// opened, and carried over to version 2 if it can be.
    Crash(CrashOutcome),
    /// The store is opened again, and where `carry` is set carried over to version 2 if it can be. What was staged is lost.
    Reopen { carry: bool },
    /// The device call of this number from here on fails, where 1 is the next one; 0 is none. It takes the place of an
    /// earlier `Fail` whose call is still to come.
    Fail(u64),
    /// The device call of this number from here on fails, where 1 is the next one, and so does each later one until the
    /// next crash; 0 is none. It moves a stop that is still to come only nearer.
    Stop(u64),
}

/// What comes of a step. `Fail` and `Stop` give none, nor does an arrival that is taken.
#[derive(Drop)]
pub enum Effect<A: Allocator = Global> {
    /// An arrival was not taken.
    Refused(SubmitError),
    /// A commit handed this out.
    Sent(Outgoing<A>),
    /// A commit handed out so many datagrams: those before it.
    Committed(usize),
    /// A commit failed, and handed nothing out.
    Failed(CommitError),
    /// A store was opened; the clock is the latest moment that it holds.
    Opened(Moment),
    /// A store was not opened. No store is open.
    NotOpened(OpenError),
    /// An arrival or a commit while no store is open.
    Closed,
}
