//! What the messages of a server say to a client.

ghost use Rattle.std.specs.Prelude.{◌≡◌, IfSome, IfNone, option_map};
ghost use Rattle.turn_requests.specs.Received.{Says, address_in, code_in, lifetime_in, token_in};
ghost use Rattle.turn_requests.specs.declared.received.ServerMessage.{ServerMessage};
ghost use Rattle.turn_types.specs.declared.message.Class.TheVariants as classes;

use turn_codec::{AttributeType, Message, read_xor_address};
use turn_types::{Addr, Class, Endpoint, Method, Token};

/// What a message to a client says.
#[derive(Clone, Copy, Debug)]
pub enum ServerMessage<'a> {
    /// An Allocate success.
    Allocated {
        /// The relayed port.
        port: u16,
        /// In seconds.
        lifetime: u32,
        /// What the next higher port is reserved with, if it is.
        token: Option<Token>,
    },
    /// A Refresh success: the lifetime in seconds.
    Refreshed(u32),
    /// A success of another method.
    Success,
    /// The code of an error response.
    Error(u16),
    /// Relayed data, and the peer that sent it.
    Data(Endpoint, &'a [u8]),
}

/// The address that the first XOR address attribute of a type names, if that is IPv4.
#[tactic(auto, unfolding(crate::specs::Received::address_in))]
fn address(message: &Message<'_>, kind: AttributeType) -> Option<Endpoint>
    ensures { result ≡ address_in kind message.now.content }
{
    let named = read_xor_address(message.find(kind)?, message.tx())?;
    match named.ip {
        Addr::V4(ip) => Some(Endpoint {
            ip,
            port: named.port,
        }),
        Addr::V6(_) => None,
    }
}

/// The seconds of LIFETIME.
#[tactic(auto, unfolding(crate::specs::Received::lifetime_in))]
fn lifetime(message: &Message<'_>) -> Option<u32>
    ensures { result ≡ lifetime_in message.now.content }
{
    match message.find(AttributeType::LIFETIME)? {
        [a, b, c, d] => Some(u32::from_be_bytes([*a, *b, *c, *d])),
        _ => None,
    }
}

/// The token of RESERVATION-TOKEN, if it has eight bytes.
#[tactic(auto, unfolding(crate::specs::Received::token_in))]
fn token(message: &Message<'_>) -> Option<Token>
    ensures { result ≡ token_in message.now.content }
{
    let token = message.find(AttributeType::RESERVATION_TOKEN)?;
    Some(Token(token.try_into().ok()?))
}

/// The code of ERROR-CODE.
#[tactic(auto, unfolding(crate::specs::Received::code_in))]
fn code(message: &Message<'_>) -> Option<u16>
    ensures { result ≡ code_in message.now.content }
{
    match message.find(AttributeType::ERROR_CODE)? {
        [_, _, hundreds, rest, ..] => Some(u16::from(*hundreds) * 100 + u16::from(*rest)),
        _ => None,
    }
}

fn success<'a>(message: &Message<'a>) -> Option<ServerMessage<'a>>
    requires { message.now.content.class ≡ classes.Success }
    ensures found { IfSome result (λ received. Says message.now.content received) }
    ensures none { IfNone result ((received : ServerMessage) → ¬ (Says message.now.content received)) }
{
    let method = message.method();
    if method == Method::ALLOCATE {
        let relayed = address(message, AttributeType::XOR_RELAYED_ADDRESS)?;
        return Some(ServerMessage::Allocated {
            port: relayed.port,
            lifetime: lifetime(message)?,
            token: token(message),
        });
    }
    if method == Method::REFRESH {
        return Some(ServerMessage::Refreshed(lifetime(message)?));
    }
    Some(ServerMessage::Success)
}

/// What a message says. `None` for a request, and for a message without the attributes that its class and method need.
///
/// ```rust
/// let arrival = Arrival::Client { five_tuple, bytes: &allocate };
/// let Some(Outgoing::ToClient { bytes, .. }) = machine.step(moment, &arrival)? else {
///     bail!("no answer");
/// };
/// let answer = read_message(&Message::parse(&bytes)?);
/// assert!(rt; matches!(answer, Some(ServerMessage::Allocated { port: 50000, lifetime: 600, .. })));
/// ```
pub fn read_message<'a>(message: &Message<'a>) -> Option<ServerMessage<'a>>
    ensures found { IfSome result (λ received. Says message.now.content received) }
    ensures none { IfNone result ((received : ServerMessage) → ¬ (Says message.now.content received)) }
{
    match message.class() {
        Class::Success => success(message),
        Class::Error => Some(ServerMessage::Error(code(message)?)),
        Class::Indication => Some(ServerMessage::Data(
            address(message, AttributeType::XOR_PEER_ADDRESS)?,
            message.find(AttributeType::DATA)?,
        )),
        Class::Request => None,
    }
}
