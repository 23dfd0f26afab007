//! What a client's message comes to before a port is picked.

ghost use Rattle.std.specs.Prelude.{◌≡◌, ◌==◌, ℕ, false, Option, if◌then◌else◌, is_none};
ghost use Rattle.turn_codec.specs.Seen.{has_unknown};
ghost use Rattle.turn_history.specs.History.{History};
ghost use Rattle.turn_history.specs.Table as tables;
ghost use Rattle.turn_types.specs.Methods.{allocate};
ghost use Rattle.turn_rules.specs.Allocate.{before_port, needed_for};
ghost use Rattle.turn_rules.specs.Answer.{is_dropped, is_expired, is_protected, outcome_of, passed_outcome, port_needed};
ghost use Rattle.turn_rules.specs.Assessed.{IsAssessed, needed_at, needed_by, outcome_at};
ghost use Rattle.turn_rules.specs.Decided.{verdict_in};
ghost use Rattle.turn_table.specs.Table.{Agrees};

use crate::allocate::{allocate_stage, with_port};
use crate::decision::ClientMessage;
use crate::need::Need;
use crate::outcome::Outcome;
use crate::owner::owner_outcome;
use crate::tableless::{TablelessOutcome, tableless_outcome};
use std::alloc::Allocator;
use turn_codec::Message;
use turn_cred::Key;
use turn_mac::has_wrong_fingerprint;
use turn_table::Table;
use turn_types::{Class, ErrorCode, Method, Moment, ServerConfig};

/// How far a message is assessed.
#[derive(Drop)]
pub(crate) enum Stage {
    /// Its outcome is known, whatever is picked.
    Settled(Outcome),
    /// It is an Allocate that gets a port, if there is one.
    NeedsPort(Need),
}

/// What a message comes to, as far as that is known before a port is picked for it.
#[derive(Drop)]
pub struct Assessment {
    pub(crate) stage: Stage,
}

impl Assessment {
    /// What the message needs of the generator of ports, if it needs anything. It doesn't if it is dropped, if it is another
    /// request than Allocate, if it is answered whatever the port, or if its RESERVATION-TOKEN names a port.
    pub fn needs_port(&self) -> Option<Need>
        ensures { result ≡ needed_by self.now }
    {
        match self.stage {
            Stage::Settled(_) => None,
            Stage::NeedsPort(need) => Some(need),
        }
    }

    /// The outcome, with the port that was picked, if one was.
    pub(crate) fn outcome<C: Allocator>(
        self,
        config: &ServerConfig<C>,
        request: &ClientMessage<'_>,
        moment: Moment,
        port: Option<u16>,
    ) -> Outcome
        ensures { result ≡ outcome_at config.now request.now.five_tuple moment request.now.message.content self.stage port }
    {
        match self.stage {
            Stage::Settled(outcome) => outcome,
            Stage::NeedsPort(_) => with_port(config, request, moment, port),
        }
    }
}

/// Whether a method asks for credentials: those of Allocate, Refresh, CreatePermission and ChannelBind do.
pub fn is_protected(method: Method) -> bool
    ensures { result ≡ is_protected method }
{
    method == Method::ALLOCATE
        || method == Method::REFRESH
        || method == Method::CREATE_PERMISSION
        || method == Method::CHANNEL_BIND
}

/// Whether a message is dropped, whatever it asks for.
pub(crate) fn is_dropped(message: &Message<'_>) -> bool
    ensures { result ≡ is_dropped message.now }
{
    message.class() != Class::Request || has_wrong_fingerprint(message)
}

/// The stage of a message of a user whose credentials hold, which has no unknown type.
fn passed_stage<C: Allocator, T: Allocator + Copy>(
    config: &ServerConfig<C>,
    table: &Table<T>,
    request: &ClientMessage<'_>,
    user: &[u8],
    moment: Moment,
    pairs: bool,
) -> Stage
    requires understood { has_unknown request.now.message.content ≡ false }
    ensures need { needed_at result ≡ (if request.now.message.content.method == allocate
        then (if is_none (before_port pairs config.now table.now.contents request.now.five_tuple user.now request.now.message.content)
        then needed_for table.now.contents request.now.message.content else None) else None) }
    ensures outcome { (port : Option ℕ) → outcome_at config.now request.now.five_tuple moment request.now.message.content result port
        ≡ passed_outcome pairs config.now table.now.contents request.now.five_tuple moment user.now request.now.message.content port }
{
    if request.message.method() == Method::ALLOCATE {
        return allocate_stage(config, table, request, user, moment, pairs);
    }
    Stage::Settled(owner_outcome(config, table, request.five_tuple, user, &request.message))
}

/// Whether a new allocation is asked for with a key that has expired.
fn is_expired<T: Allocator + Copy>(
    table: &Table<T>,
    request: &ClientMessage<'_>,
    moment: Moment,
    key: &Key,
) -> bool
    requires understood { has_unknown request.now.message.content ≡ false }
    ensures { result ≡ is_expired table.now.contents request.now.five_tuple moment request.now.message.content key.now }
{
    key.has_expired(moment)
        && request.message.method() == Method::ALLOCATE
        && table.get(request.five_tuple).is_none()
}

/// The stage of a message.
#[tactic(auto, unfolding(crate::specs::Answer::outcome_of, crate::specs::Answer::port_needed))]
fn stage_of<C: Allocator, T: Allocator + Copy>(
    config: &ServerConfig<C>,
    table: &Table<T>,
    request: &ClientMessage<'_>,
    moment: Moment,
    pairs: bool,
) -> Stage
    ensures need { needed_at result ≡ port_needed pairs config.now table.now.contents request.now.five_tuple moment request.now.message (verdict_in request.now) }
    ensures outcome { (port : Option ℕ) → outcome_at config.now request.now.five_tuple moment request.now.message.content result port
        ≡ outcome_of pairs config.now table.now.contents request.now.five_tuple moment request.now.message (verdict_in request.now) port }
{
    match tableless_outcome(request) {
        TablelessOutcome::Same(outcome) => Stage::Settled(outcome),
        TablelessOutcome::Depends { user, key } => {
            // An expired key makes no new allocation: 401, as an unknown user gets.
            if is_expired(table, request, moment, &key) {
                return Stage::Settled(Outcome::Challenge(ErrorCode::Unauthenticated));
            }
            passed_stage(config, table, request, user, moment, pairs)
        }
    }
}

/// Assesses a client's message at the table's moment, up to the port that is picked for it. `pairs` says whether ports may be reserved:
/// then EVEN-PORT with the R bit needs a pair. It takes no memory.
pub fn assess<C: Allocator, T: Allocator + Copy>(
    table: &Table<T>,
    config: &ServerConfig<C>,
    request: &ClientMessage<'_>,
    pairs: bool,
) -> Assessment
    ensures assessed { IsAssessed pairs config.now table.now.contents request.now table.now.moment result }
    ensures history { (h : History) → Agrees table.now h → IsAssessed pairs config.now (tables.table h table.now.moment) request.now table.now.moment result }
{
    Assessment {
        stage: stage_of(config, table, request, table.moment(), pairs),
    }
}
