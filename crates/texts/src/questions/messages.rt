//! Messages and ChannelData, written and read.

use crate::values::{Values, endpoint};
use turn_codec::{
    AttributeType, Builder, ChannelData, Message, MessageError, PushError, is_channel_data_number,
    read_xor_address, xor_address,
};
use turn_mac::{append_fingerprint, append_integrity, fingerprint_holds, integrity_holds};
use turn_types::{Addr, Class, Method, TxId};

fn class_of(word: &str) -> Option<Class> {
    match word {
        "request" => Some(Class::Request),
        "indication" => Some(Class::Indication),
        "success" => Some(Class::Success),
        "error" => Some(Class::Error),
        _ => None,
    }
}

fn class_word(class: Class) -> &'static str {
    match class {
        Class::Request => "request",
        Class::Indication => "indication",
        Class::Success => "success",
        Class::Error => "error",
    }
}

/// Adds MESSAGE-INTEGRITY to a message that has none.
fn sign(builder: &mut Builder, key: &[u8]) -> Option<Result<(), PushError>> {
    let Ok(message) = Message::parse(builder.as_bytes()) else {
        return None;
    };
    let None = message.before_integrity() else {
        return None;
    };
    Some(append_integrity(builder, key))
}

/// Adds FINGERPRINT to a message that has none.
fn add_fingerprint(builder: &mut Builder) -> Option<Result<(), PushError>> {
    let Ok(message) = Message::parse(builder.as_bytes()) else {
        return None;
    };
    let None = message.locate(AttributeType::FINGERPRINT) else {
        return None;
    };
    Some(append_fingerprint(builder))
}

fn add(values: &Values, builder: &mut Builder, attribute: &str) -> Option<Result<(), PushError>> {
    let (kind, value) = attribute.split_once('=')?;
    let value = values.bytes(value)?;
    match kind {
        "signed" => sign(builder, &value),
        "fingerprint" => add_fingerprint(builder),
        _ => Some(builder.push(AttributeType::new(values.number(kind)?), &value)),
    }
}

/// A message with attributes. Each is `TYPE=VALUE`, `signed=KEY` for MESSAGE-INTEGRITY under a key, or `fingerprint=-`.
pub fn message(
    values: &Values,
    header: (Class, Method, TxId),
    attributes: &[&str],
) -> Option<Result<Vec<u8>, PushError>> {
    let (class, method, id) = header;
    let mut builder = Builder::new(values.alloc, class, method, id).ok()?;
    for attribute in attributes {
        if let Err(fault) = add(values, &mut builder, attribute)? {
            return Some(Err(fault));
        }
    }
    Some(Ok(builder.finish()))
}

fn written(values: &Values, header: (Class, Method, TxId), attributes: &[&str]) -> Option<String> {
    match message(values, header, attributes)? {
        Ok(bytes) => values.hex(&bytes),
        Err(PushError::TooLong) => values.text("too long"),
        Err(PushError::Memory) => None,
    }
}

fn header_of(
    values: &Values,
    class: &str,
    method: &str,
    id: &str,
) -> Option<(Class, Method, TxId)> {
    Some((
        class_of(class)?,
        Method::new(values.number(method)?)?,
        TxId(values.array(id)?),
    ))
}

fn fault_word(fault: MessageError) -> &'static str {
    match fault {
        MessageError::Short => "short",
        MessageError::NotStun => "not STUN",
        MessageError::BadCookie => "bad cookie",
        MessageError::BadLength => "bad length",
        MessageError::AttributeOverruns => "overrun",
    }
}

fn put_attribute(values: &Values, text: &mut String, kind: u16, value: &[u8]) -> Option<()> {
    let kind = values.hex(&kind.to_be_bytes())?;
    let value = values.hex(value)?;
    text.push_str(format!(in values.alloc; " {kind}={value}").ok()?.as_str())
        .ok()
}

fn put_attributes(values: &Values, text: &mut String, message: &Message<'_>) -> Option<()> {
    let seen = message.seen().count();
    for (place, (kind, value)) in message.attributes().enumerate() {
        if place == seen {
            text.push_str(" |").ok()?;
        }
        put_attribute(values, text, kind.number(), value)?;
    }
    Some(())
}

fn content(values: &Values, message: &Message<'_>) -> Option<String> {
    let class = class_word(message.class());
    let method = values.hex(&message.method().number().to_be_bytes())?;
    let id = values.hex(&message.tx().0)?;
    let mut text = format!(in values.alloc; "{class} {method} {id}").ok()?;
    put_attributes(values, &mut text, message)?;
    Some(text)
}

fn read(values: &Values, bytes: &[u8]) -> Option<String> {
    match Message::parse(bytes) {
        Ok(message) => content(values, &message),
        Err(fault) => values.text(fault_word(fault)),
    }
}

fn checked(values: &Values, key: &[u8], bytes: &[u8]) -> Option<String> {
    let message = Message::parse(bytes).ok()?;
    values.text(
        match (integrity_holds(&message, key), fingerprint_holds(&message)) {
            (true, true) => "both",
            (true, false) => "integrity",
            (false, true) => "fingerprint",
            (false, false) => "none",
        },
    )
}

fn checked_with(values: &Values, key: &str, id: &str, attributes: &[&str]) -> Option<String> {
    let header = header_of(values, "request", "0001", id)?;
    let bytes = message(values, header, attributes)?.ok()?;
    checked(values, &values.bytes(key)?, &bytes)
}

fn address(values: &Values, value: &str, id: &str) -> Option<String> {
    let Some(found) = read_xor_address(&values.bytes(value)?, TxId(values.array(id)?)) else {
        return values.text("none");
    };
    let ip = match found.ip {
        Addr::V4(ip) => values.hex(&ip.to_be_bytes())?,
        Addr::V6(ip) => values.hex(&ip.to_be_bytes())?,
    };
    let port = found.port;
    format!(in values.alloc; "{ip} {port}").ok()
}

fn channel_data(values: &Values, bytes: &[u8]) -> Option<String> {
    let Some(data) = ChannelData::parse(bytes) else {
        return values.text("none");
    };
    let number = values.hex(&data.number.to_be_bytes())?;
    let payload = values.hex(data.payload)?;
    format!(in values.alloc; "{number}={payload}").ok()
}

fn numbers(values: &Values, numbers: &[u16]) -> Option<String> {
    let mut bytes = Vec::new(values.alloc);
    for number in numbers {
        bytes.extend_from_slice(&number.to_be_bytes()).ok()?;
    }
    values.hex(&bytes)
}

/// What is written or read.
pub fn answer(values: &Values, words: &[&str]) -> Option<String> {
    match words {
        ["write", class, method, id, attributes @ ..] => {
            written(values, header_of(values, class, method, id)?, attributes)
        }
        ["read", bytes] => read(values, &values.bytes(bytes)?),
        ["judge", key, bytes] => checked(values, &values.bytes(key)?, &values.bytes(bytes)?),
        ["judge", key, id, attributes @ ..] => checked_with(values, key, id, attributes),
        ["xor", place] => values.hex(&xor_address(endpoint(place)?)),
        ["address", value, id] => address(values, value, id),
        ["unknown", kind] => values.truth(AttributeType::new(values.number(kind)?).is_unknown()),
        ["methods"] => numbers(values, &Method::known().map(Method::number)),
        ["types"] => numbers(values, &AttributeType::known().map(AttributeType::number)),
        ["channel-data", bytes] => channel_data(values, &values.bytes(bytes)?),
        _ => None,
    }
}
