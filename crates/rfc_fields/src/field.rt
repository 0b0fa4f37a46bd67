//! What all lines of a field mean together.
ghost use Rattle.std.specs.{Prelude.{◌≡◌, ◌<◌, [], length, true, MatchResult}, Bool.MatchBool, Option.option_map};
ghost use Rattle.std.specs.List.{list_all, list_any};
ghost use Rattle.headers_syntax.specs.Lines.{lines_of, only_line};
ghost use Rattle.rfc_fields.specs.{Members.{field_members, member_of}, Directives.{DirectiveParts, FindsDirective}};
ghost use Rattle.rfc_fields.specs.Directives.{HasOtherThanDirectives, IsClearOf, IsMemberDirective, directive_parts};
ghost use Rattle.rfc_fields.specs.Directives.{is_same_token, is_token_member, or_named};

use crate::directives::{Directive, read_directive};
use crate::error::Malformed;
use crate::members::FieldMembers;
use crate::values::is_token;
use http_header::{GetAll, HeaderValue};

/// Returns whether a field has a field line.
pub fn has_line(field: &GetAll<'_, HeaderValue>) -> bool
    ensures present { MatchBool result (0 < length (lines_of field.now)) (¬ (0 < length (lines_of field.now))) }
    ensures lines { MatchBool result (0 < length (lines_of field.now)) (lines_of field.now ≡ []) }
{
    field.iter().next().is_some()
}

/// Returns the only field line of a field. `None` if there are no or several lines.
pub fn only_value<'a>(field: &GetAll<'a, HeaderValue>) -> Option<&'a HeaderValue>
    ensures { option_map (λ value. value.now.bytes) result ≡ only_line (lines_of field.now) }
{
    let mut values = field.iter();
    let only = values.next()?;
    match values.next() {
        None => Some(only),
        Some(_) => None,
    }
}

// The directive that a member is.
fn member_directive(member: Result<&[u8], Malformed>) -> Result<Directive<'_>, Malformed>
    ensures { MatchResult result (λ d. IsMemberDirective (member_of member.entry) (directive_parts d))
        (λ _. (d : DirectiveParts) → IsMemberDirective (member_of member.entry) d → ⊥) }
{
    match member {
        Ok(text) => read_directive(text),
        Err(Malformed) => Err(Malformed),
    }
}

// What was found before, or else the directive, if it has the name.
fn or_named<'a>(
    found: Option<Directive<'a>>,
    directive: Directive<'a>,
    name: &[u8],
) -> Option<Directive<'a>>
    ensures { option_map directive_parts result
        ≡ or_named name.now (option_map directive_parts found.entry) (directive_parts directive.entry) }
{
    match found {
        Some(first) => Some(first),
        None => {
            if directive.is(name) {
                Some(directive)
            } else {
                None
            }
        }
    }
}

/// Finds the first directive with this name in all lines of a field. `Malformed` if anything in the
/// field is no directive, also after the one that is sought: another recipient may find any
/// directive in such a field.
pub fn find_directive<'a>(
    field: &GetAll<'a, HeaderValue>,
    name: &[u8],
) -> Result<Option<Directive<'a>>, Malformed>
    ensures { MatchResult result
        (λ found. FindsDirective (lines_of field.now) name.now (option_map directive_parts found))
        (λ _. HasOtherThanDirectives (lines_of field.now)) }
{
    let mut members = FieldMembers::new(field);
    let mut found = None;
    while let Some(member) = members.next() {
        match member_directive(member) {
            Ok(directive) => found = or_named(found, directive, name),
            Err(Malformed) => return Err(Malformed),
        }
    }
    Ok(found)
}

/// Returns whether a field certainly lacks the directive with this name. It does if each line is
/// well formed, each member is a directive, and none has the name.
pub fn is_clear_of(field: &GetAll<'_, HeaderValue>, name: &[u8]) -> bool
    ensures { MatchBool result (IsClearOf (lines_of field.now) name.now)
        (¬ (IsClearOf (lines_of field.now) name.now)) }
{
    match find_directive(field, name) {
        Ok(None) => true,
        Ok(Some(_)) => false,
        Err(Malformed) => false,
    }
}

fn is_token_member(member: Result<&[u8], Malformed>) -> bool
    ensures { result ≡ is_token_member (member_of member.entry) }
{
    match member {
        Ok(text) => is_token(text),
        Err(Malformed) => false,
    }
}

/// Returns whether each member of a field is a token.
pub fn are_tokens(field: &GetAll<'_, HeaderValue>) -> bool
    ensures { result ≡ list_all is_token_member (field_members true (lines_of field.now)) }
{
    let mut members = FieldMembers::new(field);
    while let Some(member) = members.next() {
        if !is_token_member(member) {
            return false;
        }
    }
    true
}

fn is_same_token(member: Result<&[u8], Malformed>, token: &[u8]) -> bool
    ensures { result ≡ is_same_token token.now (member_of member.entry) }
{
    match member {
        Ok(text) => text.eq_ignore_ascii_case(token),
        Err(Malformed) => false,
    }
}

/// Returns whether some member of a field is the token, ignoring the case of ASCII letters.
pub fn contains_token(field: &GetAll<'_, HeaderValue>, token: &[u8]) -> bool
    ensures { result ≡ list_any (is_same_token token.now) (field_members true (lines_of field.now)) }
{
    let mut members = FieldMembers::new(field);
    while let Some(member) = members.next() {
        if is_same_token(member, token) {
            return true;
        }
    }
    false
}
