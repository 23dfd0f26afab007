//! What a line has beside the response.

ghost use Rattle.std.specs.Prelude.{◌≡◌, ◌≤◌, ◌⊎◌, IsTrue, false, length};
ghost use Rattle.turn_log.specs.Names.{shown_name, text_of};

use crate::asked::Asked;
use std::alloc::{AllocError, Allocator, Global};
use turn_codec::{AttributeType, Message, read_xor_address};
use turn_config::{ShownEndpoint, ShownIp};
use turn_cred::{AuthHandler, Credentials};
use turn_log::{Cause, CutName, NamedPeers, cause_of, has_credentials, has_passed};
use turn_player::Effect;
use turn_scenario::event_text;
use turn_step::Outgoing;
use turn_table::{Entry, Table};
use turn_types::{Addr, Endpoint, FiveTuple, Method, PeerAddress, ServerConfig};

/// Where the text of a response has a token. A log has none, since it reserves a port for whoever names it.
const TOKEN: &str = " token=";

/// What a log knows of a server, beside its table.
#[derive(Drop)]
pub struct Known {
    /// The configuration.
    pub config: ServerConfig,
    /// Who knows the users' keys.
    pub credentials: Credentials,
    /// Whether clients send to more than one address.
    pub has_several: bool,
    /// Whether the server's clock is ahead of the system's.
    pub is_ahead: bool,
}

impl Known {
    /// Why a request with credentials was answered 401, at this second or before.
    pub(crate) fn cause(&self, message: &Message<'_>, second: u64) -> Option<Cause> {
        if !has_credentials(message) {
            return None;
        }
        Some(cause_of(self.config.realm(), &self.credentials, message, second))
    }

    /// How many seconds ago the name of a request expired, if it has an expiry time that is over.
    fn expired_for(&self, message: &Message<'_>, second: u64) -> Option<u64> {
        let user = message.seen_value(AttributeType::USERNAME)?;
        let key = self.credentials.key(user, self.config.realm())?;
        second.checked_sub(key.expiry?.seconds())
    }
}

/// A response, the table after it, and the request.
#[derive(Clone, Copy)]
pub(crate) struct Answer<'a, A: Allocator = Global> {
    pub(crate) table: &'a Table<A>,
    pub(crate) five_tuple: FiveTuple,
    pub(crate) bytes: &'a [u8],
    pub(crate) asked: Option<&'a Asked>,
}

impl<'a, A: Allocator + Copy> Answer<'a, A> {
    /// The request, if it is a message.
    pub(crate) fn message(&self) -> Option<Message<'a>> {
        self.asked?.message()
    }

    /// The relayed port of the allocation that the client had before the request.
    pub(crate) fn port_before(&self) -> Option<u16> {
        self.asked?.port()
    }

    /// Whether the client's credentials passed, where the response is an error of this code. Of a request that isn't remembered the
    /// code alone tells: by 400 they may not have.
    pub(crate) fn has_passed(&self, code: u16) -> bool
        ensures { (code ≡ 401) ⊎ (code ≡ 438) → result ≡ false }
    {
        match self.message() {
            Some(message) => has_passed(code, &message),
            None => !matches!(code, 400 | 401 | 438),
        }
    }

    /// The allocation of the client, if it has one now.
    pub(crate) fn entry(&self) -> Option<&'a Entry<A>> {
        self.table.get(self.five_tuple)
    }
}

/// What a response says, as `turn replay` reports it, but for a token.
pub(crate) fn response_text(
    alloc: Global,
    five_tuple: FiveTuple,
    bytes: &[u8],
) -> Result<String, AllocError> {
    let bytes = Vec::from_slice(alloc, bytes)?;
    let event: Effect<Global> = Effect::Sent(Outgoing::ToClient { five_tuple, bytes });
    let text = event_text(alloc, &event)?;
    match text.split_once(TOKEN) {
        Some((front, _)) => format!(in alloc; "{front}{TOKEN}-"),
        None => Ok(text),
    }
}

/// The address that the client sent to, where there are several.
pub(crate) fn at_text(
    alloc: Global,
    known: &Known,
    five_tuple: FiveTuple,
) -> Result<String, AllocError> {
    let at = ShownEndpoint(five_tuple.server);
    if known.has_several {
        format!(in alloc; " at={at}")
    } else {
        Ok(String::new(alloc))
    }
}

/// The relayed port of the allocation, or of the one that ended, where the response doesn't have it.
pub(crate) fn port_text<A: Allocator + Copy>(
    alloc: Global,
    answer: Answer<'_, A>,
    is_in_response: bool,
) -> Result<String, AllocError> {
    let port = match (answer.entry(), answer.asked) {
        (Some(entry), _) => Some(entry.port()),
        (None, Some(asked)) => asked.port(),
        (None, None) => None,
    };
    match port {
        Some(port) if !is_in_response => format!(in alloc; " port={port}"),
        _ => Ok(String::new(alloc)),
    }
}

fn peer_text(
    alloc: Global,
    peer: Option<PeerAddress>,
    has_port: bool,
) -> Result<String, AllocError> {
    let Some(PeerAddress { ip, port }) = peer else {
        return String::from_str(alloc, " peer=-");
    };
    match ip {
        Addr::V4(ip) if has_port => {
            let peer = ShownEndpoint(Endpoint { ip, port });
            format!(in alloc; " peer={peer}")
        }
        Addr::V4(ip) => {
            let peer = ShownIp(ip);
            format!(in alloc; " peer={peer}")
        }
        Addr::V6(_) => String::from_str(alloc, " peer=IPv6"),
    }
}

/// The peers that a CreatePermission or a ChannelBind names: the first 32, and how many more.
pub(crate) fn peers_text(alloc: Global, message: &Message<'_>) -> Result<String, AllocError> {
    let has_port = message.method() == Method::CHANNEL_BIND;
    let peers = NamedPeers::new(message);
    let mut text = String::new(alloc);
    for value in peers.shown() {
        let peer = peer_text(alloc, read_xor_address(value, message.tx()), has_port)?;
        text.push_str(peer.as_str())?;
    }
    if peers.more() > 0 {
        let more = peers.more();
        text.push_str(format!(in alloc; " and {more} more")?.as_str())?;
    }
    Ok(text)
}

fn lifetime_in(message: &Message<'_>) -> Option<u32> {
    match message.find(AttributeType::LIFETIME)? {
        [a, b, c, d] => Some(u32::from_be_bytes([*a, *b, *c, *d])),
        _ => None,
    }
}

/// The lifetime that was asked for, where another one was granted.
pub(crate) fn asked_text(
    alloc: Global,
    message: &Message<'_>,
    response: &[u8],
) -> Result<String, AllocError> {
    let granted = match Message::parse(response) {
        Ok(response) => lifetime_in(&response),
        Err(_) => None,
    };
    match (lifetime_in(message), granted) {
        (Some(asked), Some(granted)) if asked != granted => format!(in alloc; " asked={asked}"),
        _ => Ok(String::new(alloc)),
    }
}

/// A name in a request, whose credentials passed or didn't.
fn cut_name(name: &[u8], has_passed: bool) -> CutName<'_>
    ensures stranger { ¬ (IsTrue has_passed) → length (text_of result) ≤ 66 }
    ensures user { length (text_of result) ≤ 510 }
    ensures whole { length (shown_name name.now) ≤ 64 → text_of result ≡ shown_name name.now }
{
    if has_passed {
        CutName::of_user(name)
    } else {
        CutName::of_stranger(name)
    }
}

/// The name in an error's request, where it isn't that of the allocation.
pub(crate) fn name_text<A: Allocator + Copy>(
    alloc: Global,
    answer: Answer<'_, A>,
    message: &Message<'_>,
    has_passed: bool,
) -> Result<String, AllocError> {
    let Some(name) = message.seen_value(AttributeType::USERNAME) else {
        return Ok(String::new(alloc));
    };
    match answer.entry() {
        Some(entry) if entry.user() == name => Ok(String::new(alloc)),
        _ => {
            let name = cut_name(name, has_passed);
            format!(in alloc; " name={name}")
        }
    }
}

/// The first peer of a request that the configuration denies.
fn denied_text(alloc: Global, known: &Known, message: &Message<'_>) -> Result<String, AllocError> {
    for (kind, value) in message.seen() {
        if kind != AttributeType::XOR_PEER_ADDRESS {
            continue;
        }
        if let Some(
            PeerAddress {
                ip: Addr::V4(ip),
                ..
            },
        ) = read_xor_address(value, message.tx())
        {
            if known.config.is_denied(ip) {
                let peer = ShownIp(ip);
                return format!(in alloc; " denied {peer}");
            }
        }
    }
    Ok(String::new(alloc))
}

fn quota_text<A: Allocator + Copy>(
    alloc: Global,
    known: &Known,
    answer: Answer<'_, A>,
    message: &Message<'_>,
) -> Result<String, AllocError> {
    let name = message
        .seen_value(AttributeType::USERNAME)
        .unwrap_or_default();
    let (count, quota) = (answer.table.count_of_user(name), known.config.quota());
    format!(in alloc; " quota {count} of {quota}")
}

/// Which limit an Allocate met.
fn allocate_limit_text<A: Allocator + Copy>(
    alloc: Global,
    answer: Answer<'_, A>,
    message: &Message<'_>,
) -> Result<String, AllocError> {
    let table = answer.table;
    if message.is_seen(AttributeType::RESERVATION_TOKEN) {
        return String::from_str(alloc, " no such reservation");
    }
    if table.is_full() {
        let (count, limit) = (table.len(), table.limits().allocations());
        return format!(in alloc; " allocations {count} of {limit}");
    }
    String::from_str(alloc, " no free port")
}

/// Which limit a request met.
fn limit_text<A: Allocator + Copy>(
    alloc: Global,
    answer: Answer<'_, A>,
    message: &Message<'_>,
) -> Result<String, AllocError> {
    let Some(entry) = answer.entry() else {
        return allocate_limit_text(alloc, answer, message);
    };
    let limits = answer.table.limits();
    let (channels, most) = (entry.channels().len(), limits.channels());
    if message.method() == Method::CHANNEL_BIND && channels >= usize::from(most) {
        return format!(in alloc; " channels {channels} of {most}");
    }
    let (permissions, most) = (entry.permissions().len(), limits.permissions());
    format!(in alloc; " permissions {permissions} of {most}")
}

/// Why a request's credentials didn't pass. Of a name that has expired it has for how long, and whether that is by a clock that is
/// ahead of the system's: the store's.
fn cause_text(
    alloc: Global,
    known: &Known,
    message: &Message<'_>,
    second: u64,
) -> Result<String, AllocError> {
    let Some(cause) = known.cause(message, second) else {
        return Ok(String::new(alloc));
    };
    let word = cause.word();
    match (cause, known.expired_for(message, second)) {
        (Cause::Expired, Some(ago)) => {
            let by = if known.is_ahead {
                " (store's clock)"
            } else {
                ""
            };
            format!(in alloc; " {word} {ago} s ago{by}")
        }
        _ => format!(in alloc; " {word}"),
    }
}

/// Why a request was refused, beyond the error's code.
pub(crate) fn reason_text<A: Allocator + Copy>(
    alloc: Global,
    known: &Known,
    answer: Answer<'_, A>,
    message: &Message<'_>,
    code: u16,
    second: u64,
) -> Result<String, AllocError> {
    match code {
        401 => cause_text(alloc, known, message, second),
        403 => denied_text(alloc, known, message),
        486 => quota_text(alloc, known, answer, message),
        508 => limit_text(alloc, answer, message),
        _ => Ok(String::new(alloc)),
    }
}
