//! Targeted fields (RFC 9213).
ghost use Rattle.std.specs.Prelude.{◌≡◌, Bool, Option, ℕ, bytes_eq, option_map};
ghost use Rattle.headers_map.specs.LineMap.{lines_at};
ghost use Rattle.headers_syntax.{specs.Lines.lines_of, specs.Text.trim};
ghost use Rattle.rfc_values.{specs.Dictionaries.dictionary, specs.Values.{member_of, value_of}};
ghost use Rattle.cache_fields.specs.Targets.{is_true, is_true_or_named, replaced, seconds_of, told, told_after};
ghost use Rattle.cache_fields.specs.Targets.{told_by, with_member};

use crate::directives::{Directives, nothing};
use headers_syntax::trim;
use http_header::{GetAll, HeaderMap, HeaderName, HeaderValue};
use rfc_fields::{has_line, number};
use rfc_values::{ItemValue, Member, read_entry};

// Whether a directive is there. One that is false, or has another type, isn't.
fn is_true(value: &ItemValue<'_>) -> bool
    ensures { result ≡ is_true (value_of value.now) }
{
    matches!(*value, ItemValue::Boolean(true))
}

// Whether a directive is there that may also name fields.
fn is_true_or_named(value: &ItemValue<'_>) -> bool
    ensures { result ≡ is_true_or_named (value_of value.now) }
{
    matches!(*value, ItemValue::Boolean(true) | ItemValue::String(_))
}

// The seconds of a directive, if it has an integer.
fn seconds_of(value: &ItemValue<'_>) -> Option<u64>
    ensures { result ≡ seconds_of (value_of value.now) }
{
    match *value {
        ItemValue::Integer(text) => Some(number(text).unwrap_or(0)),
        ItemValue::Boolean(_) | ItemValue::String(_) | ItemValue::Other => None,
    }
}

// Whether a directive is there, once one more member is known.
fn flag(name: &[u8], member: &Member<'_>, before: bool) -> bool
    ensures { result ≡ replaced {X = Bool} name.now is_true (member_of member.now) before }
{
    if member.key == name {
        is_true(&member.value)
    } else {
        before
    }
}

// The same for one that may name fields.
fn flag_or_names(name: &[u8], member: &Member<'_>, before: bool) -> bool
    ensures { result ≡ replaced {X = Bool} name.now is_true_or_named (member_of member.now) before }
{
    if member.key == name {
        is_true_or_named(&member.value)
    } else {
        before
    }
}

// The seconds of a directive, once one more member is known.
fn seconds(name: &[u8], member: &Member<'_>, before: Option<u64>) -> Option<u64>
    ensures { result ≡ replaced {X = Option ℕ} name.now seconds_of (member_of member.now) before }
{
    if member.key == name {
        seconds_of(&member.value)
    } else {
        before
    }
}

// What is told once one more member is known.
fn with_member(told: Directives, member: &Member<'_>) -> Directives
    ensures { result ≡ with_member told (member_of member.now) }
{
    Directives {
        no_cache: flag_or_names(b"no-cache", member, told.no_cache),
        no_store: flag(b"no-store", member, told.no_store),
        must_revalidate: flag(b"must-revalidate", member, told.must_revalidate),
        proxy_revalidate: flag(b"proxy-revalidate", member, told.proxy_revalidate),
        must_understand: flag(b"must-understand", member, told.must_understand),
        public: flag(b"public", member, told.public),
        private: flag_or_names(b"private", member, told.private),
        immutable: flag(b"immutable", member, told.immutable),
        max_age: seconds(b"max-age", member, told.max_age),
        s_max_age: seconds(b"s-maxage", member, told.s_max_age),
        stale_while_revalidate: seconds(
            b"stale-while-revalidate",
            member,
            told.stale_while_revalidate,
        ),
        stale_if_error: seconds(b"stale-if-error", member, told.stale_if_error),
        ..told
    }
}

// What is told once the members of one more line are known, if it is a dictionary that isn't empty.
fn told_by_line(told: Directives, line: &[u8]) -> Option<Directives>
    ensures { result ≡ option_map (told_after told) (dictionary line.now) }
{
    let mut told = told;
    let mut rest = Some(line);
    while let Some(text) = rest {
        let entry = read_entry(text)?;
        told = with_member(told, &entry.member);
        rest = entry.next;
    }
    Some(told)
}

// What a field tells, if it is there, valid and not empty.
fn told_by(field: &GetAll<'_, HeaderValue>) -> Option<Directives>
    ensures { result ≡ told_by (lines_of field.now) }
{
    if !has_line(field) {
        return None;
    }
    let mut told = nothing();
    for line in field.iter() {
        told = told_by_line(told, trim(line.as_bytes()))?;
    }
    Some(told)
}

// What the first of these fields tells that is there, valid and not empty.
pub(crate) fn told(targets: &[HeaderName], response: &HeaderMap) -> Option<Directives>
    ensures { result ≡ told targets.now (lines_at response.now) }
{
    for name in targets {
        if let Some(told) = told_by(&response.get_all(name)) {
            return Some(told);
        }
    }
    None
}
