//! What comes of steps, as text.

use crate::datagrams::{hex_text, received_text, token_in};
use std::alloc::{AllocError, Allocator};
use turn_config::ShownEndpoint;
use turn_engine::{CommitError, SubmitError};
use turn_player::Effect;
use turn_step::Outgoing;
use turn_store::OpenError;
use turn_types::Token;

fn refused_text(why: SubmitError) -> &'static str {
    match why {
        SubmitError::Memory => "memory",
        SubmitError::BatchFull => "batch full",
        SubmitError::Stopped => "stopped",
    }
}

fn failed_text(why: CommitError) -> &'static str {
    match why {
        CommitError::Device => "device",
        CommitError::Worn => "worn",
        CommitError::Stopped => "stopped",
    }
}

fn not_opened_text<A: Allocator>(alloc: A, fault: OpenError) -> Result<String<A>, AllocError> {
    match fault {
        OpenError::Device => String::from_str(alloc, "device"),
        OpenError::Memory => String::from_str(alloc, "memory"),
        OpenError::NotAStore => String::from_str(alloc, "not a store"),
        OpenError::LimitsDiffer => String::from_str(alloc, "limits differ"),
        OpenError::Damaged(place) => format!(in alloc; "damaged {place}"),
    }
}

fn sent_text<A: Allocator + Copy>(
    alloc: A,
    outgoing: &Outgoing<A>,
) -> Result<String<A>, AllocError> {
    match outgoing {
        Outgoing::ToClient { five_tuple, bytes } => {
            let client = ShownEndpoint(five_tuple.client);
            let text = received_text(alloc, bytes)?;
            format!(in alloc; "client {client} {text}")
        }
        Outgoing::ToPeer { port, peer, bytes } => {
            let peer = ShownEndpoint(*peer);
            let payload = hex_text(alloc, bytes)?;
            format!(in alloc; "peer {port} {peer} {payload}")
        }
    }
}

/// The token that the line of an event has, if it has one.
pub(crate) fn event_token<A: Allocator>(event: &Effect<A>) -> Option<Token> {
    match event {
        Effect::Sent(Outgoing::ToClient { bytes, .. }) => token_in(bytes),
        _ => None,
    }
}

/// The line that a report has of an event.
pub fn event_text<A: Allocator + Copy>(
    alloc: A,
    event: &Effect<A>,
) -> Result<String<A>, AllocError> {
    match event {
        Effect::Refused(why) => String::from_str(alloc, refused_text(*why)),
        Effect::Sent(outgoing) => sent_text(alloc, outgoing),
        Effect::Committed(count) => format!(in alloc; "committed {count}"),
        Effect::Failed(why) => String::from_str(alloc, failed_text(*why)),
        Effect::Opened(clock) => {
            let second = clock.seconds();
            format!(in alloc; "opened clock {second}")
        }
        Effect::NotOpened(fault) => not_opened_text(alloc, *fault),
        Effect::Closed => String::from_str(alloc, "closed"),
    }
}
