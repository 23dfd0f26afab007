//! The attributes of a message, in its bytes.

ghost use Rattle.std.specs.Prelude.{◌≡◌, ◌<◌, ◌≤◌, ◌+◌, List, [], option_map, option_copied, is_some, length, IsSome, MatchOption, sum_by};
ghost use Rattle.std.specs.Iterator.{YieldsFirstBy, item_count};
ghost use Rattle.turn_codec.specs.Reading.{first_attribute, attributes_in, attributes_of};
ghost use Rattle.turn_codec.specs.Grammar.{Attribute, size_of, before, from, value_of, FirstHas};

use crate::attribute_type::AttributeType;
use std::marker::Model;

/// The type and the value of the attribute at the front of the bytes, and what follows its padding.
#[tactic(auto, unfolding(crate::specs::Reading::first_attribute))]
fn split_attribute(bytes: &[u8]) -> Option<(u16, &[u8], &[u8])>
    ensures { option_map (λ x. (record { kind = x.0; value = x.1.now }, x.2.now)) result ≡ first_attribute bytes.now }
{
    let [k, l, m, n, rest @ ..] = bytes else {
        return None;
    };
    let size = u16::from_be_bytes([*m, *n]) as usize;
    let padded = size.next_multiple_of(4);
    if rest.len() < padded {
        return None;
    }
    Some((u16::from_be_bytes([*k, *l]), &rest[..size], &rest[padded..]))
}

/// Whether all of the bytes are attributes.
#[tactic(auto, using(crate::proofs::Walk::steps))]
pub(crate) fn are_attributes(bytes: &[u8]) -> bool
    ensures { result ≡ is_some (attributes_in bytes.now) }
{
    let mut rest = bytes;
    while !rest.is_empty() {
        let Some((_, _, after)) = split_attribute(rest) else {
            return false;
        };
        rest = after;
    }
    true
}

/// The first attribute of a type in bytes that are attributes: its offset, its value, and whether it is
/// the last one.
pub(crate) fn find_attribute(body: &[u8], kind: AttributeType) -> Option<(usize, &[u8], bool)>
    requires { IsSome (attributes_in body.now) }
    ensures { MatchOption result (from kind (attributes_of body.now) ≡ []) (λ x.
        (x.0 ≡ sum_by size_of (before kind (attributes_of body.now))) × (x.0 + 4 + length x.1.now ≤ length body.now)
        × FirstHas (from kind (attributes_of body.now)) x.1.now x.2) }
{
    let number = kind.number();
    let mut rest = body;
    while let Some((found, value, after)) = split_attribute(rest) {
        if found == number {
            return Some((body.len() - rest.len(), value, after.is_empty()));
        }
        rest = after;
    }
    None
}

/// The attributes that are left of a message, in their order.
#[derive(Drop)]
pub struct Attributes<'a> {
    pub(crate) rest: &'a [u8],
}

impl<'a> Model for Attributes<'a> {
    ghost use Rattle.std.specs.Prelude.{List, IsSome};
    ghost use Rattle.turn_codec.specs.Grammar.{Attribute};
    ghost use Rattle.turn_codec.specs.Reading.{attributes_in, attributes_of};

    ghost Value = { List Attribute };

    ghost view = { λ a. attributes_of a.rest.now };

    ghost invariant = { λ a. IsSome (attributes_in a.rest.now) };
}

impl<'a> Attributes<'a> {
    /// The attributes that the bytes encode.
    pub(crate) fn new(rest: &'a [u8]) -> Attributes<'a>
        requires { IsSome (attributes_in rest.now) }
        ensures { result ≡ attributes_of rest.now }
    {
        Attributes { rest }
    }

    /// The value of the first attribute of a type.
    #[tactic(auto, using(crate::proofs::Finding::values))]
    pub fn value_of(&self, kind: AttributeType) -> Option<&'a [u8]>
        ensures { option_copied result ≡ value_of kind self.now }
    {
        let (_, value, _) = find_attribute(self.rest, kind)?;
        Some(value)
    }
}

impl<'a> Iterator for Attributes<'a> {
    type Item = (AttributeType, &'a [u8]);

    ghost next_gives = { YieldsFirstBy (λ x. record { kind = x.0; value = x.1.now }) (λ s. s) };

    ghost remaining = { item_count (λ s. s) };

    #[tactic(auto, using(crate::proofs::Walk::steps))]
    fn next(&mut self) -> Option<(AttributeType, &'a [u8])> {
        let Some((kind, value, rest)) = split_attribute(self.rest) else {
            return None;
        };
        self.rest = rest;
        Some((AttributeType::new(kind), value))
    }
}
