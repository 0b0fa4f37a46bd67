//! Whether a stored response may answer another request, by its method and by Vary.
ghost use Rattle.std.{specs.Prelude.{◌≡◌, ◌↔◌, IsTrue, option_map, bytes_eq, length}, specs.Bool.MatchBool};
ghost use Rattle.headers.{specs.LineMap.lines_at, specs.Lines.lines_of};
ghost use Rattle.rfc_fields.specs.Members.{field_left, field_members, member_of};
ghost use Rattle.http_header.specs.Token.{lowercase};
ghost use Rattle.cache_policy.{specs.Requests.request_of, specs.Varying.{Agree, AreAlike, AreSame, HaveSameMembers}};
ghost use Rattle.cache_policy.specs.Varying.{IsSame, SayTheSame, Suits, has_pairs, is_list_name};

use crate::fields::have_same_lines;
use crate::request::allows_method;
use crate::stored::StoredHeads;
use headers::{HeaderMap, HeaderValue};
use http_header::{GetAll, VARY, is_token};
use rfc_fields::{FieldMembers, Malformed, RequestHead, has_line};

/// Returns whether a stored response may answer a new request, by its method and Vary (RFC 9111,
/// sections 4 and 4.1).
///
/// A response to GET answers GET and HEAD, one to HEAD answers HEAD. Each field that Vary names
/// must be the same in both requests, or be in neither. It is the same if it has the same field
/// lines, or if it is one of the list fields of a request, is in both, and has the same members in
/// the same order. A Vary with `*`, or with a member that is no field name, matches no request.
pub fn matches(stored: &StoredHeads<'_>, request: &RequestHead<'_>) -> bool
    ensures { MatchBool result
        (Suits (request_of stored.now.request) (request_of request.now) (lines_at stored.now.response.now))
        (¬ (Suits (request_of stored.now.request) (request_of request.now) (lines_at stored.now.response.now))) }
{
    allows_method(stored.request.method, request.method)
        && are_alike(stored.request.fields, request.fields, stored.response)
}

// Whether both requests agree in all that Vary names.
fn are_alike(stored: &HeaderMap, request: &HeaderMap, response: &HeaderMap) -> bool
    ensures { MatchBool result (AreAlike (lines_at stored.now) (lines_at request.now) (lines_at response.now))
        (¬ (AreAlike (lines_at stored.now) (lines_at request.now) (lines_at response.now))) }
{
    for member in FieldMembers::new(&response.get_all(VARY)) {
        if !agree(stored, request, member) {
            return false;
        }
    }
    true
}

// Whether both requests agree in what a member of Vary names.
fn agree(stored: &HeaderMap, request: &HeaderMap, member: Result<&[u8], Malformed>) -> bool
    ensures { MatchBool result (Agree (lines_at stored.now) (lines_at request.now) (member_of member.entry))
        (¬ (Agree (lines_at stored.now) (lines_at request.now) (member_of member.entry))) }
{
    match member {
        Ok(name) => is_token(name)
            && name != b"*".as_slice()
            && say_the_same(name, stored, request),
        Err(Malformed) => false,
    }
}

// Whether the field of this name says the same in both requests.
fn say_the_same(name: &[u8], stored: &HeaderMap, request: &HeaderMap) -> bool
    ensures { MatchBool result
        (SayTheSame (lowercase name.now) (lines_at stored.now (lowercase name.now))
        (lines_at request.now (lowercase name.now)))
        (¬ (SayTheSame (lowercase name.now) (lines_at stored.now (lowercase name.now))
        (lines_at request.now (lowercase name.now)))) }
{
    let lines = stored.get_all(name);
    let others = request.get_all(name);
    have_same_lines(&lines, &others)
        || (is_list_name(name) && have_same_members(has_pairs(name), &lines, &others))
}

fn is_name(name: &[u8], other: &[u8]) -> bool
    ensures { result ≡ bytes_eq (lowercase name.now) (lowercase other.now) }
{
    name.eq_ignore_ascii_case(other)
}

// Whether the name is that of a list.
#[tactic(auto, unfolding(crate::specs::Varying::is_list_name))]
fn is_list_name(name: &[u8]) -> bool
    ensures { result ≡ is_list_name (lowercase name.now) }
{
    is_name(name, b"accept")
        || is_name(name, b"accept-charset")
        || is_name(name, b"accept-encoding")
        || is_name(name, b"accept-language")
        || is_name(name, b"access-control-request-headers")
        || is_name(name, b"cache-control")
        || is_name(name, b"connection")
        || is_name(name, b"expect")
        || is_name(name, b"if-match")
        || is_name(name, b"if-none-match")
        || is_name(name, b"te")
        || is_name(name, b"upgrade")
}

// Whether the list of this name may have quoted-pairs: it is none of entity tags.
#[tactic(auto, unfolding(crate::specs::Varying::has_pairs))]
fn has_pairs(name: &[u8]) -> bool
    ensures { result ≡ has_pairs (lowercase name.now) }
{
    !(is_name(name, b"if-match") || is_name(name, b"if-none-match"))
}

// The members of a list.
fn members_of<'a>(pairs: bool, lines: &GetAll<'a, HeaderValue>) -> FieldMembers<'a>
    ensures { field_left result ≡ field_members pairs (lines_of lines.now) }
{
    if pairs {
        FieldMembers::new(lines)
    } else {
        FieldMembers::of_tags(lines)
    }
}

// Whether both lists are there, with the same members in the same order.
fn have_same_members(
    pairs: bool,
    lines: &GetAll<'_, HeaderValue>,
    others: &GetAll<'_, HeaderValue>,
) -> bool
    ensures { MatchBool result (HaveSameMembers pairs (lines_of lines.now) (lines_of others.now))
        (¬ (HaveSameMembers pairs (lines_of lines.now) (lines_of others.now))) }
{
    has_line(lines)
        && has_line(others)
        && are_same(members_of(pairs, lines), members_of(pairs, others))
}

// Whether both lists have the same members in the same order, none of which is malformed.
fn are_same(members: FieldMembers<'_>, others: FieldMembers<'_>) -> bool
    ensures { MatchBool result (AreSame (field_left members.entry) (field_left others.entry))
        (¬ (AreSame (field_left members.entry) (field_left others.entry))) }
{
    let mut others = others;
    for member in members {
        if !is_same(member, others.next()) {
            return false;
        }
    }
    others.next().is_none()
}

// Whether the members are the same.
fn is_same(member: Result<&[u8], Malformed>, other: Option<Result<&[u8], Malformed>>) -> bool
    ensures { MatchBool result (IsSame (member_of member.entry) (option_map member_of other.entry))
        (¬ (IsSame (member_of member.entry) (option_map member_of other.entry))) }
{
    match (member, other) {
        (Ok(text), Some(Ok(other))) => text == other,
        _ => false,
    }
}
