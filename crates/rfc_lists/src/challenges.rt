//! Challenges.
ghost use Rattle.std.specs.Prelude.{◌≡◌, ◌≤◌, ◌==◌, ◌++◌, length, option_map, is_some, true, IfOk, OnOk};
ghost use Rattle.std.specs.List.{list_all, prefix_len};
ghost use Rattle.headers_syntax.specs.Lines.{lines_of};
ghost use Rattle.rfc_fields.specs.{Directives.equals, Members.member_of};
ghost use Rattle.rfc_lists.specs.Lines.{malformed_line, parameter_in};
ghost use Rattle.rfc_lists.specs.Challenges.{after_member, after_piece, after_rest, challenges_text, ending, follows};
ghost use Rattle.rfc_lists.specs.Challenges.{is_open, is_token68, is_token68_byte, member_lines, piece_lines};
ghost use Rattle.rfc_lists.specs.Challenges.{scheme_in, scheme_lines};
ghost use Rattle.rfc_lists.specs.declared.challenges.Place.TheVariants.{Closed};

use crate::lines::{push_line, push_malformed, push_parameter, squeezed};
use headers_syntax::trim;
use http_header::{GetAll, HeaderValue};
use rfc_fields::{FieldMembers, Malformed, cut, directive_in, is_token};
use std::alloc::{AllocError, Global};

/// What is before a member of the list.
#[derive(Clone, Copy)]
pub(crate) enum Place {
    /// Nothing.
    Before,
    /// A challenge that parameters may follow.
    Open,
    /// A challenge that none may follow, or something malformed.
    Closed,
}

/// Returns the challenges of all field lines in order (RFC 9110, section 11.6.1), as of `www-authenticate`: for each
/// the line of its scheme, those of its parameters, or of its token68, and an empty line. A member that is no part of a
/// challenge is malformed. Fails only if an allocation fails.
pub fn challenges_text(
    alloc: Global,
    field: &GetAll<'_, HeaderValue>,
) -> Result<Vec<u8>, AllocError>
    ensures { IfOk result (λ text. text.items ≡ challenges_text (lines_of field.now)) }
{
    let mut text = Vec::new(alloc);
    let mut place = Place::Before;
    for member in FieldMembers::new(field) {
        place = push_member(alloc, &mut text, place, member)?;
    }
    push_ending(&mut text, place)?;
    Ok(text)
}

fn push_ending(text: &mut Vec<u8>, place: Place) -> Result<(), AllocError>
    ensures { OnOk result (text.new.items ≡ text.old.items ++ ending place) }
{
    match place {
        Place::Before => Ok(()),
        Place::Open | Place::Closed => {
            text.push(b'\n')?;
            Ok(())
        }
    }
}

fn push_member(
    alloc: Global,
    text: &mut Vec<u8>,
    place: Place,
    member: Result<&[u8], Malformed>,
) -> Result<Place, AllocError>
    ensures { IfOk result (λ next. (next ≡ after_member place (member_of member.entry))
        × (text.new.items ≡ text.old.items ++ member_lines place (member_of member.entry))) }
{
    match member {
        Ok(piece) => push_piece(alloc, text, place, piece),
        Err(Malformed) => push_wrong(text),
    }
}

// Appends the line of what is malformed.
fn push_wrong(text: &mut Vec<u8>) -> Result<Place, AllocError>
    ensures { IfOk result (λ next. (next ≡ Closed) × (text.new.items ≡ text.old.items ++ malformed_line)) }
{
    push_malformed(text)?;
    Ok(Place::Closed)
}

fn is_parameter(alloc: Global, piece: &[u8]) -> Result<bool, AllocError>
    ensures { IfOk result (λ is. is ≡ is_some (parameter_in piece.now)) }
{
    let plain = squeezed(alloc, piece)?;
    match directive_in(plain.as_slice()) {
        Some(directive) => Ok(directive.argument.is_some()),
        None => Ok(false),
    }
}

fn is_open(place: Place) -> bool
    ensures { result ≡ is_open place }
{
    matches!(place, Place::Open)
}

// Appends the line of a parameter.
fn push_continued(
    alloc: Global,
    text: &mut Vec<u8>,
    place: Place,
    piece: &[u8],
) -> Result<Place, AllocError>
    requires { is_some (parameter_in piece.now) ≡ true }
    ensures { IfOk result (λ next. (next ≡ after_piece place piece.now)
        × (text.new.items ≡ text.old.items ++ piece_lines place piece.now)) }
{
    if is_open(place) {
        push_parameter(alloc, text, piece)?;
        Ok(Place::Open)
    } else {
        push_wrong(text)
    }
}

fn push_piece(
    alloc: Global,
    text: &mut Vec<u8>,
    place: Place,
    piece: &[u8],
) -> Result<Place, AllocError>
    ensures { IfOk result (λ next. (next ≡ after_piece place piece.now)
        × (text.new.items ≡ text.old.items ++ piece_lines place piece.now)) }
{
    if is_parameter(alloc, piece)? {
        return push_continued(alloc, text, place, piece);
    }
    match scheme_in(piece) {
        Some((scheme, rest)) => push_scheme(alloc, text, place, scheme, rest),
        None => push_wrong(text),
    }
}

// The scheme that a member begins with, and what follows it.
fn scheme_in(piece: &[u8]) -> Option<(&[u8], &[u8])>
    ensures { option_map (λ found. (found.0.now, found.1.now)) result ≡ scheme_in piece.now }
{
    match cut(b' ', piece) {
        Some((scheme, rest)) if is_token(scheme) => Some((scheme, trim(rest))),
        None if is_token(piece) => Some((piece, &[])),
        _ => None,
    }
}

fn push_scheme(
    alloc: Global,
    text: &mut Vec<u8>,
    place: Place,
    scheme: &[u8],
    rest: &[u8],
) -> Result<Place, AllocError>
    ensures { IfOk result (λ next. (next ≡ after_rest rest.now)
        × (text.new.items ≡ text.old.items ++ scheme_lines place (scheme.now, rest.now))) }
{
    push_ending(text, place)?;
    push_line(text, b's', scheme)?;
    push_rest(alloc, text, rest)
}

// Appends the line of what follows a scheme.
fn push_rest(alloc: Global, text: &mut Vec<u8>, rest: &[u8]) -> Result<Place, AllocError>
    ensures { IfOk result (λ next. (next ≡ after_rest rest.now)
        × (text.new.items ≡ text.old.items ++ follows rest.now)) }
{
    if rest.is_empty() || push_parameter(alloc, text, rest)? {
        return Ok(Place::Open);
    }
    if !is_token68(rest) {
        return push_wrong(text);
    }
    push_line(text, b'k', rest)?;
    Ok(Place::Closed)
}

// How many bytes of a token68 a text begins with.
fn token68_len(text: &[u8]) -> usize
    ensures value { result ≡ prefix_len is_token68_byte text.now }
    ensures within { result ≤ length text.now }
{
    for (place, byte) in text.iter().enumerate() {
        if !is_token68_byte(*byte) {
            return place;
        }
    }
    text.len()
}

fn is_token68_byte(byte: u8) -> bool
    ensures { result ≡ is_token68_byte byte }
{
    byte.is_ascii_alphanumeric() || matches!(byte, b'-' | b'.' | b'_' | b'~' | b'+' | b'/')
}

fn are_equals_signs(text: &[u8]) -> bool
    ensures { result ≡ list_all (λ b. b == equals) text.now }
{
    text.iter().all(|byte| *byte == b'=')
}

fn is_token68(text: &[u8]) -> bool
    ensures { result ≡ is_token68 text.now }
{
    let end = token68_len(text);
    end > 0 && are_equals_signs(&text[end..])
}
