//! Requests that are answered alike over every table.

ghost use Rattle.std.specs.Prelude.{◌≡◌, ◌↔◌, ℕ, Bool, true, IfOk, IfSome, Ok as Is};
ghost use Rattle.turn_history.specs.History.{History};
ghost use Rattle.turn_rules.specs.Answer.{MayAnswer};
ghost use Rattle.turn_rules.specs.Decided.{verdict_in};
ghost use Rattle.turn_rules.specs.Tableless.{IsOutcome, depends_on_table, tableless_decision};

use crate::assessment::{is_dropped, is_protected};
use crate::binding::binding_outcome;
use crate::decision::{ClientMessage, key_of};
use crate::outcome::Outcome;
use crate::write::write;
use std::alloc::{AllocError, Allocator, Global};
use turn_cred::{Key, Verdict};
use turn_types::{ErrorCode, Method, Moment, ServerConfig};

/// What is known of a message's outcome without a table.
#[derive(Drop)]
pub(crate) enum TablelessOutcome<'a> {
    /// It depends on the table what is answered to this user, whose credentials hold.
    Depends { user: &'a [u8], key: Key },
    /// This is the outcome, whatever the table has.
    Same(Outcome),
}

/// What a message is answered without a table.
#[derive(Drop)]
pub enum Tableless<A: Allocator = Global> {
    /// The answer depends on the table.
    Depends,
    /// This is replied, if anything, whatever the table has.
    Reply(Option<Vec<u8, A>>),
}

/// What is known of a message's outcome without a table.
#[tactic(auto, unfolding(crate::specs::Answer::outcome_of, crate::specs::Answer::port_needed))]
pub(crate) fn tableless_outcome<'a>(request: &ClientMessage<'a>) -> TablelessOutcome<'a>
    ensures { IsOutcome request.now.message (verdict_in request.now) result }
{
    // RFC 8489, section 6.3: a wrong FINGERPRINT, or a class or a method that isn't expected: silently discarded.
    if is_dropped(&request.message) {
        return TablelessOutcome::Same(Outcome::Drop);
    }
    let method = request.message.method();
    if method == Method::BINDING {
        return TablelessOutcome::Same(binding_outcome(&request.message));
    }
    if !is_protected(method) {
        return TablelessOutcome::Same(Outcome::Drop);
    }
    match request.verdict {
        None => TablelessOutcome::Same(Outcome::Drop),
        // RFC 8489, section 9.2.4: no or wrong credentials 401, malformed ones 400, a nonce that doesn't hold 438.
        Some(Verdict::Challenge401) => {
            TablelessOutcome::Same(Outcome::Challenge(ErrorCode::Unauthenticated))
        }
        Some(Verdict::Bad400) => TablelessOutcome::Same(Outcome::Refuse(ErrorCode::BadRequest)),
        Some(Verdict::Stale438) => {
            TablelessOutcome::Same(Outcome::Challenge(ErrorCode::StaleNonce))
        }
        Some(Verdict::Passed { user, key }) => {
            // RFC 8489, section 6.3.1: unknown comprehension-required attributes, 420 (Unknown Attribute).
            if request.message.has_unknown() {
                return TablelessOutcome::Same(Outcome::RefuseUnknown);
            }
            TablelessOutcome::Depends { user, key }
        }
    }
}

/// The reply at a moment to a message that is answered alike over every table. It takes the memory of the reply, and no
/// other.
pub fn reply_without_table<A: Allocator + Copy, C: Allocator>(
    alloc: A,
    config: &ServerConfig<C>,
    request: &ClientMessage<'_>,
    moment: Moment,
) -> Result<Tableless<A>, AllocError>
    ensures depends { (result ≡ Is Tableless.Depends) ↔ (depends_on_table request.now.message (verdict_in request.now) ≡ true) }
    // After every history the reply is an answer that does nothing, whether ports may be reserved or not.
    ensures answers { (pairs : Bool) (range : ℕ × ℕ) (h : History) (failed : Bool) → IfOk result (λ r. IfSome (tableless_decision r)
        (MayAnswer pairs config.now range h moment failed request.now.five_tuple request.now.message (verdict_in request.now))) }
{
    match tableless_outcome(request) {
        TablelessOutcome::Depends { .. } => Ok(Tableless::Depends),
        TablelessOutcome::Same(outcome) => Ok(Tableless::Reply(write(
            alloc,
            config,
            request,
            moment,
            &outcome,
            key_of(request),
        )?)),
    }
}
