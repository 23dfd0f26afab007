//! What a client's message is answered.

ghost use Rattle.std.specs.Prelude.{◌≡◌, ℕ, Bool, false, IfOk, IfSome};
ghost use Rattle.turn_rules.specs.Answer.{MayAnswer, decision, key_of, user_of};
ghost use Rattle.turn_rules.specs.Assessed.{IsAssessed, needed_by};
ghost use Rattle.turn_rules.specs.Decided.{decided_of, verdict_in};
ghost use Rattle.turn_rules.specs.Laws.{IsMadeOfBytes, IsPicked, NamesInRange};
ghost use Rattle.turn_rules.specs.Need.{MayHavePicked};
ghost use Rattle.turn_table.specs.Table.{Agrees};
ghost use Rattle.turn_history.specs.Fitting.{Fits, IsActInRange};
ghost use Rattle.turn_history.specs.History.{History};
ghost use Rattle.turn_history.specs.Laws.{ReservesNone};

use crate::assessment::{Assessment, is_protected};
use crate::write::{make_act, write};
use std::alloc::{AllocError, Allocator, Global};
use turn_codec::Message;
use turn_cred::Verdict;
use turn_history::Act;
use turn_table::Table;
use turn_types::{FiveTuple, ServerConfig};

/// A message from a client.
#[derive(Drop)]
pub struct ClientMessage<'a> {
    /// The message, which was read.
    pub message: Message<'a>,
    /// Where it came from and to.
    pub five_tuple: FiveTuple,
    /// The outcome of the credential check, or `None` for Binding, which asks for no credentials.
    pub verdict: Option<Verdict<'a>>,
}

/// What the server does about a message.
#[derive(Drop)]
pub struct Decision<A: Allocator = Global> {
    /// The datagram that is sent to the client, if one is.
    pub reply: Option<Vec<u8, A>>,
    /// What is done to the allocation of the five-tuple, if anything is.
    pub act: Option<Act<A>>,
}

/// The user whose credentials hold, or no bytes.
fn user_of<'a>(request: &ClientMessage<'a>) -> &'a [u8]
    ensures { result.now ≡ user_of (verdict_in request.now) }
{
    match request.verdict {
        Some(Verdict::Passed { user, .. }) => user,
        _ => &[],
    }
}

/// The key that the response is signed under, if it is: that of the user whose credentials hold.
pub(crate) fn key_of(request: &ClientMessage<'_>) -> Option<[u8; 16]>
    ensures { result ≡ key_of request.now.message.content (verdict_in request.now) }
{
    if !is_protected(request.message.method()) {
        return None;
    }
    match request.verdict {
        Some(Verdict::Passed { key, .. }) => Some(key.bytes),
        _ => None,
    }
}

/// The answer to a client's message at the table's moment, by what it was assessed to come to over that table, and
/// with the port that was picked for it, if one was: where one is needed, none means 508, and where none is needed it
/// doesn't count. Of a pair it is the even port. It takes the memory of the reply and of the act, and no other.
#[tactic(auto, unfolding(crate::specs::Answer::decision))]
pub fn decide<A: Allocator + Copy, C: Allocator, T: Allocator + Copy>(
    alloc: A,
    table: &Table<T>,
    config: &ServerConfig<C>,
    request: &ClientMessage<'_>,
    assessment: Assessment,
    port: Option<u16>,
) -> Result<Decision<A>, AllocError>
    ensures value { (pairs : Bool) → IsAssessed pairs config.now table.now.contents request.now table.now.moment assessment →
        IfOk result (λ d. decided_of d ≡ decision pairs config.now table.now.contents request.now.five_tuple table.now.moment request.now.message (verdict_in request.now) port) }
    // After every history with which the table agrees it is an answer, if the port is one that may be picked.
    ensures answers { (pairs : Bool) (h : History) (range : ℕ × ℕ) (failed : Bool) → IsAssessed pairs config.now table.now.contents request.now table.now.moment assessment →
        Agrees table.now h → MayHavePicked range failed table.now.contents (needed_by assessment) port →
        IfOk result (λ d. MayAnswer pairs config.now range h table.now.moment failed request.now.five_tuple request.now.message (verdict_in request.now) (decided_of d)) }
    // What is done fits the table, if what was picked is free for what is needed.
    ensures fits { (pairs : Bool) → IsAssessed pairs config.now table.now.contents request.now table.now.moment assessment →
        table.now.bounds ≡ config.now.limits → IsPicked table.now.contents (needed_by assessment) port →
        IfOk result (λ d. IfSome (decided_of d).act (Fits table.now.bounds table.now.contents request.now.five_tuple)) }
    // What is done is in range, if the message's values are bytes and the user's name is in range.
    ensures in_range { (pairs : Bool) → IsAssessed pairs config.now table.now.contents request.now table.now.moment assessment →
        IsMadeOfBytes request.now.message.content → NamesInRange config.now.limits (verdict_in request.now) →
        IsPicked table.now.contents (needed_by assessment) port →
        IfOk result (λ d. IfSome (decided_of d).act (IsActInRange config.now.limits)) }
    // Without pairs no port is reserved.
    ensures no_pairs { IsAssessed false config.now table.now.contents request.now table.now.moment assessment → IfOk result (λ d. IfSome (decided_of d).act ReservesNone) }
{
    let moment = table.moment();
    let outcome = assessment.outcome(config, request, moment, port);
    Ok(Decision {
        reply: write(alloc, config, request, moment, &outcome, key_of(request))?,
        act: make_act(alloc, &request.message, user_of(request), &outcome)?,
    })
}
