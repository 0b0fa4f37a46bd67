//! Parameters by their names.
ghost use Rattle.std.specs.Prelude.{◌≡◌, ◌++◌, option_map, IfOk, OnOk, position};
ghost use Rattle.{http_header.specs.FieldValue.FieldValue, headers_syntax.specs.{AsciiCase.same_name, Lines.lines_of}};
ghost use Rattle.rfc_fields.specs.Members.{member_of};
ghost use Rattle.rfc_lists.specs.Named.{first_octets, named, named_line, parameters_in, place_named, with_name};

use crate::attributes::attribute_in;
use crate::extended::extended_text;
use crate::lines::{push_line, squeezed};
use http_header::HeaderValue;
use rfc_fields::{Malformed, Parameterized, directive_in};
use std::alloc::{AllocError, Global};

/// Which of several parameters of a name counts.
#[derive(Clone, Copy)]
pub(crate) enum Counts {
    /// The first.
    First,
    /// The last.
    Last,
}

/// Returns a parameter, if it has this name, in any case.
pub(crate) fn with_name<'a>(name: &[u8], parameter: Result<&'a [u8], Malformed>) -> Option<&'a [u8]>
    ensures { option_map (λ text. text.now) result ≡ with_name name.now (member_of parameter.entry) }
{
    match parameter {
        Ok(text) if attribute_in(text).0.eq_ignore_ascii_case(name) => Some(text),
        _ => None,
    }
}

/// Returns the first or the last parameter of an element that has this name, in any case.
#[tactic(auto, unfolding(crate::specs::Named::named))]
pub(crate) fn named<'a>(counts: Counts, name: &[u8], element: &'a [u8]) -> Option<&'a [u8]>
    ensures { option_map (λ text. text.now) result ≡ named counts name.now (parameters_in element.now) }
{
    let parts = match Parameterized::read(element) {
        Ok(parts) => parts,
        Err(Malformed) => return None,
    };
    let mut found = None;
    for parameter in parts.parameters {
        let here = with_name(name, parameter);
        found = match counts {
            Counts::First => found.or(here),
            Counts::Last => here.or(found),
        };
    }
    found
}

/// Returns the place, from 0, of the first parameter that has this name, in any case (RFC 9110, section 5.6.6), by the
/// names of all.
#[tactic(auto, using(crate::proofs::NamedLemmas::place_in_values))]
pub fn place_named(name: &[u8], names: &[HeaderValue]) -> Option<usize>
    ensures { result ≡ place_named name.now (lines_of names.now) }
{
    place_in(name, names)
}

fn place_in(name: &[u8], names: &[HeaderValue]) -> Option<usize>
    ensures { result ≡ position (λ (v : FieldValue). same_name v.bytes name.now) names.now }
{
    names
        .iter()
        .position(|other| other.as_bytes().eq_ignore_ascii_case(name))
}

/// Returns the octets of the value that the first parameter of a name has.
pub(crate) fn first_octets(
    alloc: Global,
    name: &[u8],
    element: &[u8],
) -> Result<Option<Vec<u8>>, AllocError>
    ensures { IfOk result (λ found. option_map (λ octets. octets.items) found
        ≡ first_octets name.now (parameters_in element.now)) }
{
    let Some(parameter) = named(Counts::First, name, element) else {
        return Ok(None);
    };
    let plain = squeezed(alloc, parameter)?;
    let Some(value) = directive_in(plain.as_slice()).and_then(|directive| directive.argument) else {
        return Ok(None);
    };
    let mut octets = Vec::with_capacity(alloc, plain.len())?;
    for octet in value.octets() {
        octets.push(octet)?;
    }
    Ok(Some(octets))
}

/// Appends the line of the parameter with the starred name, if its value means a text (RFC 8187), or else of the other.
pub(crate) fn push_named(
    alloc: Global,
    text: &mut Vec<u8>,
    name: &[u8],
    starred: &[u8],
    element: &[u8],
) -> Result<(), AllocError>
    ensures { OnOk result (text.new.items
        ≡ text.old.items ++ named_line name.now starred.now (parameters_in element.now)) }
{
    if let Some(value) = first_octets(alloc, starred, element)? {
        if extended_text(alloc, value.as_slice())?.is_some() {
            return push_line(text, b'e', value.as_slice());
        }
    }
    match first_octets(alloc, name, element)? {
        Some(octets) => push_line(text, b'o', octets.as_slice()),
        None => Ok(()),
    }
}
