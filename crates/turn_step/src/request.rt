//! Requests: the credentials, the port, the decision and the room for its act.

ghost use Rattle.std.specs.Prelude.{◌≡◌, ◌⊎◌, ◌<◌, ◌-◌, ◌^◌, ◌||◌, ℕ, Bool, false, None, Ok, option_map, IfOk, IfSome, OnErr};
ghost use Rattle.turn_types.specs.Config.{Config};
ghost use Rattle.turn_history.specs.Fitting.{IsTuple, is_taken};
ghost use Rattle.turn_history.specs.Laws.{ReservesNone};
ghost use Rattle.turn_history.specs.History.{History};
ghost use Rattle.turn_cred.specs.Credential.{policy_of};
ghost use Rattle.turn_cred.specs.Found.{verdict_of};
ghost use Rattle.turn_ports.specs.Ports.{Failed, has_failed};
ghost use Rattle.turn_rules.specs.Answer.{Decided, MayAnswer, credential_outcome};
ghost use Rattle.turn_rules.specs.Assessed.{IsAssessed, needed_by};
ghost use Rattle.turn_rules.specs.Decided.{verdict_in};
ghost use Rattle.turn_rules.specs.Laws.{IsMadeOfBytes, IsPicked, NamesInRange};
ghost use Rattle.turn_rules.specs.Need.{MayHavePicked};
ghost use Rattle.turn_rules.specs.Taking.{is_picked};
ghost use Rattle.turn_step.specs.Holding.{ports_with};
ghost use Rattle.turn_step.specs.Outcome.{Sent, decided_for};
ghost use Rattle.turn_step.specs.State.{MayBeNext};
ghost use Rattle.turn_step.specs.Views.{sent_of};
ghost use Rattle.turn_table.specs.Table.{Agrees};

use crate::arrival::Outgoing;
use crate::step::Step;
use std::alloc::{AllocError, Allocator};
use turn_codec::Message;
use turn_cred::{AuthHandler, Checker, Verdict};
use turn_ports::RelayAddressGenerator;
use turn_rules::{Assessment, ClientMessage, Decision, Need, decide, is_protected};
use turn_table::Table;
use turn_types::{Endpoint, FiveTuple, Moment, ServerConfig};

/// The outcome of the credential check, for the methods that ask for credentials.
#[tactic(auto, unfolding(turn_rules::specs::Answer::credential_outcome))]
pub(crate) fn check_credentials<'a, H: AuthHandler, A: Allocator + Copy>(
    checker: &mut Checker<H, A>,
    message: &Message<'a>,
    client: Endpoint,
    moment: Moment,
) -> Option<Verdict<'a>>
    ensures value { (s : Config) → checker.old.policy ≡ policy_of s →
        option_map verdict_of result ≡ credential_outcome s (H.key_of checker.old.handler) client moment message.now }
    ensures same { checker.new ≡ checker.old }
{
    if !is_protected(message.method()) {
        return None;
    }
    Some(checker.check(message, client, moment))
}

/// The same outcome, and no key is remembered.
#[tactic(auto, unfolding(turn_rules::specs::Answer::credential_outcome))]
pub(crate) fn peek_credentials<'a, H: AuthHandler, A: Allocator + Copy>(
    checker: &Checker<H, A>,
    message: &Message<'a>,
    client: Endpoint,
    moment: Moment,
) -> Option<Verdict<'a>>
    ensures { (s : Config) → checker.now.policy ≡ policy_of s →
        option_map verdict_of result ≡ credential_outcome s (H.key_of checker.now.handler) client moment message.now }
{
    if !is_protected(message.method()) {
        return None;
    }
    Some(checker.peek(message, client, moment))
}

/// What is needed of the generator, where anything is and it is free. Of a pair it is the even port.
pub(crate) fn pick<G: RelayAddressGenerator, A: Allocator + Copy>(
    ports: &mut G,
    table: &Table<A>,
    need: Option<Need>,
) -> Result<Option<u16>, AllocError>
    ensures picked { IfOk result (MayHavePicked (G.range ports.old) (has_failed (G.failures ports.old) (G.failures ports.new)) table.now.contents need) }
    ensures count { (G.failures ports.new ≡ G.failures ports.old) ⊎ Failed (G.failures ports.old) (G.failures ports.new) }
    ensures range { G.range ports.new ≡ G.range ports.old }
    // None was picked where none is needed.
    ensures only { need ≡ None → IfOk result (λ port. port ≡ None) }
    ensures held { (held : ℕ → Bool) → G.holds ports.old held → IfOk result (λ port. G.holds ports.new (λ q. is_picked need port q || held q)) }
    ensures held_err { (held : ℕ → Bool) → G.holds ports.old held → OnErr result (G.holds ports.new held) }
{
    match need {
        None => Ok(None),
        Some(Need::Any) => ports.pick(table, false),
        Some(Need::Even) => ports.pick(table, true),
        Some(Need::Pair) => ports.pick_pair(table),
    }
}

/// A reply to a client. The clause `range` is what the five-tuple's type says of it.
pub(crate) fn reply_to<A: Allocator>(
    five_tuple: FiveTuple,
    reply: Option<Vec<u8, A>>,
) -> Option<Outgoing<A>>
    ensures sent { option_map sent_of result ≡ option_map (Sent.ToClient five_tuple) (option_map (λ b. b.items) reply) }
    ensures range { IsTuple five_tuple }
{
    match reply {
        Some(bytes) => Some(Outgoing::ToClient { five_tuple, bytes }),
        None => None,
    }
}

/// The step of a request, with room in the table for its act.
pub(crate) fn settle<A: Allocator + Copy>(
    alloc: A,
    table: &mut Table<A>,
    config: &ServerConfig<A>,
    request: &ClientMessage<'_>,
    assessment: Assessment,
    port: Option<u16>,
) -> Result<Step<A>, AllocError>
    ensures answers { (pairs : Bool) (h : History) (range : ℕ × ℕ) (failed : Bool) → IsAssessed pairs config.now table.old.contents request.now table.old.moment assessment →
        Agrees table.old h → MayHavePicked range failed table.old.contents (needed_by assessment) port →
        IfOk result (λ s. (d : Decided) × MayAnswer pairs config.now range h table.old.moment failed request.now.five_tuple request.now.message (verdict_in request.now) d
        × (s ≡ decided_for request.now.five_tuple d)) }
    ensures ready { (pairs : Bool) → IsAssessed pairs config.now table.old.contents request.now table.old.moment assessment →
        table.old.bounds ≡ config.now.limits → IsMadeOfBytes request.now.message.content → NamesInRange config.now.limits (verdict_in request.now) →
        IsPicked table.old.contents (needed_by assessment) port → IfOk result (λ s. IfSome s.change (MayBeNext table.new)) }
    ensures no_pairs { IsAssessed false config.now table.old.contents request.now table.old.moment assessment → IfOk result (λ s. IfSome s.change (λ c. ReservesNone c.act)) }
    ensures table { table.new ≡ record table.old { room = table.new.room } }
    // The act takes the ports that were picked, and no other but such as are taken already.
    ensures takes { (pairs : Bool) → IsAssessed pairs config.now table.old.contents request.now table.old.moment assessment → (needed_by assessment ≡ None → port ≡ None) →
        IfOk result (λ s. (q : ℕ) → ports_with table.old.contents s.change q ≡ is_picked (needed_by assessment) port q || is_taken table.old.contents q) }
{
    // For the proof: the table's moment is in range.
    let _ = table.moment();
    let decision = decide(alloc, table, config, request, assessment, port)?;
    let Decision { reply, act } = decision;
    let act = match act {
        Some(act) => {
            table.reserve_for(request.five_tuple, &act)?;
            Some(Box::new(alloc, (request.five_tuple, act))?)
        }
        None => None,
    };
    Ok(Step::new(act, reply_to(request.five_tuple, reply)))
}
