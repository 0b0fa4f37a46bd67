//! Elements of a field: a range, its parameters and its weight (RFC 9110, section 12.4.2).
ghost use Rattle.std.{specs.Prelude.{◌≡◌, ◌<◌, ◌^◌, length, option_map}, specs.List.{list_all, list_any}};
ghost use Rattle.rfc_fields.{specs.Members.{member_of, members_left}, specs.Values.value_parts};
ghost use Rattle.decide_negotiation.specs.Elements.{bare, bare_element_of, element_in, element_parts};
ghost use Rattle.decide_negotiation.specs.Elements.{excluding_nothing, has_only_parameters, is_parameter};
ghost use Rattle.decide_negotiation.specs.Elements.{members_after, own_parameters, parameters_of, value_of, weight_in};
ghost use Rattle.decide_negotiation.{specs.Elements.{weight_of, weight_or_least}, specs.MediaRanges.are_had};
ghost use Rattle.decide_negotiation.specs.Parameters.{is_same_parameter, parameter_parts};

use crate::parameter::{Parameter, parameter_of};
use rfc_fields::{Malformed, Members, Parameterized, Value, is_token, weight};

/// An element of a field: a range, its parameters and its weight.
#[derive(Clone, Copy)]
pub(crate) struct Element<'a> {
    /// What is before the first semicolon.
    pub(crate) range: &'a [u8],
    /// The whole text of the element.
    pub(crate) text: &'a [u8],
    /// The weight, in thousandths.
    pub(crate) weight: u16,
}

/// Returns what is before the first semicolon of a text.
pub(crate) fn value_of(text: &[u8]) -> &[u8]
    ensures { result.now ≡ value_of text.now }
{
    match Parameterized::read(text) {
        Ok(parts) => parts.value,
        Err(Malformed) => b"",
    }
}

// What is between the other semicolons.
fn members_after(text: &[u8]) -> Members<'_>
    ensures { members_left result ≡ members_after text.now }
{
    match Parameterized::read(text) {
        Ok(parts) => parts.parameters,
        Err(Malformed) => Members::new(b""),
    }
}

fn is_parameter(member: Result<&[u8], Malformed>) -> bool
    ensures { result ≡ is_parameter (member_of member.entry) }
{
    parameter_of(member).is_some()
}

/// Returns whether a text has nothing but parameters after its first semicolon.
pub(crate) fn has_only_parameters(text: &[u8]) -> bool
    ensures { result ≡ has_only_parameters text.now }
{
    members_after(text).all(|member| is_parameter(member))
}

// The weight that a value is, in thousandths. No quoted-string is one.
fn weight_of(value: &Value<'_>) -> Option<u16>
    ensures { result ≡ weight_of (value_parts value.now) }
{
    match value {
        Value::Token(text) => weight(text),
        Value::Quoted(_) => None,
    }
}

fn weight_or_least(weight: Option<u16>) -> u16
    ensures { result ≡ weight_or_least weight }
{
    match weight {
        Some(thousandths) => thousandths,
        None => 1,
    }
}

// The weight among the parameters of a text, in thousandths: the first that is one, or 1 if none
// is. A malformed one counts as the least weight above 0.
fn weight_in(text: &[u8]) -> u16
    ensures { result ≡ weight_in (parameters_of text.now) }
{
    for member in members_after(text) {
        if let Some(parameter) = parameter_of(member) {
            if parameter.is_weight() {
                return weight_or_least(weight_of(&parameter.value));
            }
        }
    }
    1000
}

// What an element with a malformed parameter counts as: it excludes nothing.
fn excluding_nothing<'a>(element: &Element<'a>) -> Option<Element<'a>>
    ensures { option_map element_parts result ≡ excluding_nothing (element_parts element.now) }
{
    if element.weight == 0 {
        None
    } else {
        Some(Element {
            range: element.range,
            text: element.text,
            weight: 1,
        })
    }
}

/// Parses a text as an element. One with a malformed weight or parameter counts with the least
/// weight above 0. `None` if a parameter is malformed and the weight is 0.
#[tactic(auto, unfolding(crate::specs::Elements::element_in))]
pub(crate) fn element_in(text: &[u8]) -> Option<Element<'_>>
    ensures { option_map element_parts result ≡ element_in text.now }
{
    let element = Element {
        range: value_of(text),
        text,
        weight: weight_in(text),
    };
    if has_only_parameters(text) {
        Some(element)
    } else {
        excluding_nothing(&element)
    }
}

/// Returns the number of parameters in a text, without the weight.
pub(crate) fn parameter_count(text: &[u8]) -> usize
    ensures { result ≡ length (own_parameters text.now) }
{
    let mut count = 0;
    for member in members_after(text) {
        if let Some(parameter) = parameter_of(member) {
            if !parameter.is_weight() {
                count += 1;
            }
        }
    }
    count
}

// Whether a text has this parameter.
fn has_parameter(text: &[u8], wanted: &Parameter<'_>) -> bool
    ensures { result ≡ list_any (is_same_parameter (parameter_parts wanted.now)) (parameters_of text.now) }
{
    for member in members_after(text) {
        if let Some(parameter) = parameter_of(member) {
            if wanted.is_same(&parameter) {
                return true;
            }
        }
    }
    false
}

/// Returns whether a text has each parameter of an element.
pub(crate) fn has_parameters_of(text: &[u8], element: &[u8]) -> bool
    ensures { result ≡ are_had (own_parameters element.now) (parameters_of text.now) }
{
    for member in members_after(element) {
        if let Some(wanted) = parameter_of(member) {
            if !wanted.is_weight() && !has_parameter(text, &wanted) {
                return false;
            }
        }
    }
    true
}

// The element of Accept-Encoding or Accept-Language that an element counts as.
fn bare<'a>(element: &Element<'a>) -> Option<Element<'a>>
    ensures { option_map element_parts result ≡ bare (element_parts element.now) }
{
    if !is_token(element.range) {
        return None;
    }
    if parameter_count(element.text) == 0 {
        Some(*element)
    } else {
        excluding_nothing(element)
    }
}

/// Parses a member of Accept-Encoding or Accept-Language as an element.
pub(crate) fn bare_element_of<'a>(member: Result<&'a [u8], Malformed>) -> Option<Element<'a>>
    ensures { option_map element_parts result ≡ bare_element_of (member_of member.entry) }
{
    match member {
        Ok(text) => match element_in(text) {
            Some(element) => bare(&element),
            None => None,
        },
        Err(Malformed) => None,
    }
}
