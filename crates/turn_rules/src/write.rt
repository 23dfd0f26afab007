//! Outcomes, written as responses and as acts.

ghost use Rattle.std.specs.Prelude.{◌≡◌, ◌∷◌, [], IfOk, None, map, option_map};
ghost use Rattle.turn_codec.specs.Address.{xor_value};
ghost use Rattle.turn_codec.specs.AttributeTypes as types;
ghost use Rattle.turn_codec.specs.Grammar.{canonical};
ghost use Rattle.turn_history.specs.Act.{act_of};
ghost use Rattle.turn_history.specs.History.{Allocates};
ghost use Rattle.turn_rules.specs.Outcome.{act_by, allocated, challenge, lifetime_attribute, response_of, unknown_attribute};
ghost use Rattle.turn_rules.specs.Response.{attribute, attribute_of, error_attribute, response};

use crate::decision::ClientMessage;
use crate::outcome::Outcome;
use crate::response::{OwnAttribute, respond};
use crate::unknown::unknown_value;
use crate::value::error_value;
use std::alloc::{AllocError, Allocator};
use turn_codec::{AttributeType, Message, xor_address};
use turn_cred::Nonces;
use turn_history::{Act, Addresses, UserName};
use turn_types::{Class, Endpoint, ErrorCode, Moment, ServerConfig, Token};

type Key = Option<[u8; 16]>;

fn write_error<A: Allocator + Copy>(
    alloc: A,
    message: &Message<'_>,
    code: ErrorCode,
    key: Key,
) -> Result<Vec<u8, A>, AllocError>
    ensures { IfOk result (λ v. v.items ≡ canonical (response message.now.content Class.Error key (error_attribute code ∷ []))) }
{
    let error = error_value(code);
    let own = [OwnAttribute::new(AttributeType::ERROR_CODE, error.as_slice())];
    respond(alloc, message, Class::Error, key, &own)
}

fn write_unknown<A: Allocator + Copy>(
    alloc: A,
    message: &Message<'_>,
    key: Key,
) -> Result<Vec<u8, A>, AllocError>
    ensures { IfOk result (λ v. v.items ≡ canonical (response message.now.content Class.Error key
        (error_attribute ErrorCode.UnknownAttribute ∷ unknown_attribute message.now.content ∷ []))) }
{
    let error = error_value(ErrorCode::UnknownAttribute);
    let types = unknown_value(message);
    let own = [
        OwnAttribute::new(AttributeType::ERROR_CODE, error.as_slice()),
        OwnAttribute::new(AttributeType::UNKNOWN_ATTRIBUTES, types.as_slice()),
    ];
    respond(alloc, message, Class::Error, key, &own)
}

// One lifetime for the three values, as the array needs it.
fn challenge_attributes<'a>(
    error: &'a [u8],
    realm: &'a [u8],
    nonce: &'a [u8],
) -> [OwnAttribute<'a>; 3]
    ensures { map attribute_of result ≡ attribute types.error_code error.now ∷ attribute types.realm realm.now ∷ attribute types.nonce nonce.now ∷ [] }
{
    [
        OwnAttribute::new(AttributeType::ERROR_CODE, error),
        OwnAttribute::new(AttributeType::REALM, realm),
        OwnAttribute::new(AttributeType::NONCE, nonce),
    ]
}

fn write_challenge<A: Allocator + Copy, C: Allocator>(
    alloc: A,
    config: &ServerConfig<C>,
    request: &ClientMessage<'_>,
    moment: Moment,
    code: ErrorCode,
) -> Result<Vec<u8, A>, AllocError>
    ensures { IfOk result (λ v. v.items ≡ canonical (response request.now.message.content Class.Error None
        (challenge config.now request.now.five_tuple.client moment code))) }
{
    let error = error_value(code);
    let nonce = Nonces::new(*config.secret()).issue(request.five_tuple.client, moment);
    let own = challenge_attributes(error.as_slice(), config.realm(), &nonce);
    respond(alloc, &request.message, Class::Error, None, &own)
}

fn write_mapped<A: Allocator + Copy>(
    alloc: A,
    request: &ClientMessage<'_>,
    key: Key,
) -> Result<Vec<u8, A>, AllocError>
    ensures { IfOk result (λ v. v.items ≡ canonical (response request.now.message.content Class.Success key
        (attribute types.xor_mapped_address (xor_value request.now.five_tuple.client) ∷ []))) }
{
    let mapped = xor_address(request.five_tuple.client);
    let own = [OwnAttribute::new(AttributeType::XOR_MAPPED_ADDRESS, &mapped)];
    respond(alloc, &request.message, Class::Success, key, &own)
}

// One lifetime for the three values, as the array needs it.
fn allocated_attributes<'a>(
    relayed: &'a [u8],
    lifetime: &'a [u8],
    mapped: &'a [u8],
) -> [OwnAttribute<'a>; 3]
    ensures { map attribute_of result
        ≡ attribute types.xor_relayed_address relayed.now ∷ attribute types.lifetime lifetime.now ∷ attribute types.xor_mapped_address mapped.now ∷ [] }
{
    [
        OwnAttribute::new(AttributeType::XOR_RELAYED_ADDRESS, relayed),
        OwnAttribute::new(AttributeType::LIFETIME, lifetime),
        OwnAttribute::new(AttributeType::XOR_MAPPED_ADDRESS, mapped),
    ]
}

// The same, and the token of the reserved port.
fn reserved_attributes<'a>(
    relayed: &'a [u8],
    lifetime: &'a [u8],
    mapped: &'a [u8],
    token: &'a [u8],
) -> [OwnAttribute<'a>; 4]
    ensures { map attribute_of result
        ≡ attribute types.xor_relayed_address relayed.now ∷ attribute types.lifetime lifetime.now ∷ attribute types.xor_mapped_address mapped.now ∷
        attribute types.reservation_token token.now ∷ [] }
{
    [
        OwnAttribute::new(AttributeType::XOR_RELAYED_ADDRESS, relayed),
        OwnAttribute::new(AttributeType::LIFETIME, lifetime),
        OwnAttribute::new(AttributeType::XOR_MAPPED_ADDRESS, mapped),
        OwnAttribute::new(AttributeType::RESERVATION_TOKEN, token),
    ]
}

fn write_allocated<A: Allocator + Copy, C: Allocator>(
    alloc: A,
    config: &ServerConfig<C>,
    request: &ClientMessage<'_>,
    key: Key,
    port: u16,
    granted: u32,
    token: Option<Token>,
) -> Result<Vec<u8, A>, AllocError>
    ensures { IfOk result (λ v. v.items ≡ canonical (response request.now.message.content Class.Success key
        (allocated config.now request.now.five_tuple.client port granted token))) }
{
    let relayed = xor_address(Endpoint {
        ip: config.relay(),
        port,
    });
    let lifetime = granted.to_be_bytes();
    let client = xor_address(request.five_tuple.client);
    match token {
        None => {
            let own = allocated_attributes(&relayed, &lifetime, &client);
            respond(alloc, &request.message, Class::Success, key, &own)
        }
        Some(token) => {
            let token = token.0;
            let own = reserved_attributes(&relayed, &lifetime, &client, &token);
            respond(alloc, &request.message, Class::Success, key, &own)
        }
    }
}

fn write_lifetime<A: Allocator + Copy>(
    alloc: A,
    message: &Message<'_>,
    key: Key,
    granted: u32,
) -> Result<Vec<u8, A>, AllocError>
    ensures { IfOk result (λ v. v.items ≡ canonical (response message.now.content Class.Success key (lifetime_attribute granted ∷ []))) }
{
    let lifetime = granted.to_be_bytes();
    let own = [OwnAttribute::new(AttributeType::LIFETIME, &lifetime)];
    respond(alloc, message, Class::Success, key, &own)
}

fn write_success<A: Allocator + Copy>(
    alloc: A,
    message: &Message<'_>,
    key: Key,
) -> Result<Vec<u8, A>, AllocError>
    ensures { IfOk result (λ v. v.items ≡ canonical (response message.now.content Class.Success key [])) }
{
    respond(alloc, message, Class::Success, key, &[])
}

/// The response that an outcome makes, if it makes one, signed under the key, if there is one.
pub(crate) fn write<A: Allocator + Copy, C: Allocator>(
    alloc: A,
    config: &ServerConfig<C>,
    request: &ClientMessage<'_>,
    moment: Moment,
    outcome: &Outcome,
    key: Key,
) -> Result<Option<Vec<u8, A>>, AllocError>
    ensures { IfOk result (λ r. option_map (λ v. v.items) r ≡ option_map canonical
        (response_of config.now request.now.five_tuple.client moment request.now.message.content key outcome.now)) }
{
    let message = &request.message;
    Ok(match outcome {
        Outcome::Drop => None,
        Outcome::Refuse(code) => Some(write_error(alloc, message, *code, key)?),
        Outcome::RefuseUnknown => Some(write_unknown(alloc, message, key)?),
        Outcome::Challenge(code) => {
            Some(write_challenge(alloc, config, request, moment, *code)?)
        }
        Outcome::MappedAddress => Some(write_mapped(alloc, request, key)?),
        Outcome::RepeatedAllocate {
            port,
            granted,
            token,
        }
        | Outcome::Allocate {
            port,
            granted,
            token,
        } => Some(write_allocated(alloc, config, request, key, *port, *granted, *token)?),
        Outcome::Renew { granted } => Some(write_lifetime(alloc, message, key, *granted)?),
        Outcome::Permit(_) | Outcome::Bind { .. } => Some(write_success(alloc, message, key)?),
    })
}

fn make_name<A: Allocator + Copy>(alloc: A, user: &[u8]) -> Result<UserName<A>, AllocError>
    ensures { IfOk result (λ n. n ≡ user.now) }
{
    Ok(UserName::from(Vec::from_slice(alloc, user)?))
}

fn make_alloc<A: Allocator + Copy>(
    alloc: A,
    message: &Message<'_>,
    user: &[u8],
    port: u16,
    granted: u32,
    token: Option<Token>,
) -> Result<Act<A>, AllocError>
    ensures { IfOk result (λ a. act_of a ≡ Allocates user.now port granted (record { 0 = message.now.content.tx }) token) }
{
    let user = make_name(alloc, user)?;
    let tx = message.tx();
    Ok(match token {
        None => Act::Alloc {
            user,
            port,
            granted,
            tx,
        },
        Some(token) => Act::AllocEven {
            user,
            port,
            granted,
            tx,
            token,
        },
    })
}

fn make_addresses<A: Allocator + Copy>(alloc: A, ips: &[u32]) -> Result<Addresses<A>, AllocError>
    ensures { IfOk result (λ a. a ≡ ips.now) }
{
    Ok(Addresses::from(Vec::from_slice(alloc, ips)?))
}

/// What an outcome of a user's request does to the allocation, if it does anything.
pub(crate) fn make_act<A: Allocator + Copy>(
    alloc: A,
    message: &Message<'_>,
    user: &[u8],
    outcome: &Outcome,
) -> Result<Option<Act<A>>, AllocError>
    ensures { IfOk result (λ a. option_map act_of a ≡ act_by user.now message.now.content outcome.now) }
{
    Ok(match outcome {
        Outcome::Allocate {
            port,
            granted,
            token,
        } => Some(make_alloc(alloc, message, user, *port, *granted, *token)?),
        Outcome::Renew { granted } => Some(Act::Renew { granted: *granted }),
        Outcome::Permit(addresses) => Some(Act::Permit {
            addresses: make_addresses(alloc, addresses.as_slice())?,
        }),
        Outcome::Bind { number, peer } => Some(Act::Bind {
            number: *number,
            peer: *peer,
        }),
        _ => None,
    })
}
