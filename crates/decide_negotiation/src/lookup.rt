//! Lookup of a language (RFC 4647, section 3.4).
ghost use Rattle.std.specs.{Prelude.{◌≡◌, true, false, codes, option_copied}, Option.option_map_or};
ghost use Rattle.http_header.specs.HeaderMap.{get_all};
ghost use Rattle.headers_syntax.specs.Lines.{lines_of};
ghost use Rattle.rfc_fields.specs.Members.{field_members, member_of};
ghost use Rattle.decide_negotiation.specs.Choice.{Picks};
ghost use Rattle.decide_negotiation.specs.{Choice.first_place, Elements.element_parts, Lookup.Finds};
ghost use Rattle.decide_negotiation.specs.Languages.{language_element_of};
ghost use Rattle.decide_negotiation.specs.Lookup.{FoundBy, IsDefault, LooksUp, LooksUpIn, accepts_any, ends_single};
ghost use Rattle.decide_negotiation.specs.Lookup.{excludes, is_any, is_excluded, is_truncation, nearness};
ghost use Rattle.decide_negotiation.specs.Lookup.{offer_nearness};

use crate::choice::{Leader, led};
use crate::element::Element;
use crate::language::{AcceptLanguage, covers, language_element_of};
use crate::media::is_star;
use crate::preference::{Preference, strongest};
use http_header::{ACCEPT_LANGUAGE, GetAll, HeaderMap, HeaderValue};
use rfc_fields::{FieldMembers, Malformed};

// Whether the last subtag is a single letter or digit.
fn ends_single(tag: &[u8]) -> bool
    ensures { result ≡ ends_single tag.now }
{
    let len = tag.len();
    len == 1 || (len >= 2 && tag[len - 2] == b'-')
}

// Whether the range is the tag, or is once it is truncated.
fn is_truncation(range: &[u8], tag: &[u8]) -> bool
    ensures { result ≡ is_truncation range.now tag.now }
{
    range.eq_ignore_ascii_case(tag) || (covers(tag, range) && !ends_single(tag))
}

// Whether what is said most specifically of a tag excludes it by name.
fn excludes(preference: Preference) -> bool
    ensures { result ≡ excludes preference }
{
    preference.names == 1 && preference.quality == 0
}

fn is_excluded(field: &GetAll<'_, HeaderValue>, tag: &[u8]) -> bool
    ensures { result ≡ is_excluded (field_members true (lines_of field.now)) tag.now }
{
    match strongest::<AcceptLanguage>(field, tag) {
        Some(preference) => excludes(preference),
        None => false,
    }
}

// How near a tag is to a range. With no range all are alike.
fn nearness(field: &GetAll<'_, HeaderValue>, wanted: Option<&[u8]>, tag: &[u8]) -> u64
    ensures { result ≡ nearness (field_members true (lines_of field.now)) (option_copied wanted.entry) tag.now }
{
    match wanted {
        Some(range) => {
            if is_truncation(range, tag) && !is_excluded(field, tag) {
                tag.len() as u64
            } else {
                0
            }
        }
        None => { if is_excluded(field, tag) { 0 } else { 1 } }
    }
}

// The place of the offer that is nearest to a range.
fn nearest(
    field: &GetAll<'_, HeaderValue>,
    wanted: Option<&[u8]>,
    offers: &[HeaderValue],
) -> Option<usize>
    ensures { Picks (offer_nearness (field_members true (lines_of field.now)) (option_copied wanted.entry))
        offers.now result }
{
    let mut leader = Leader::NONE;
    for (place, offer) in offers.iter().enumerate() {
        let score = nearness(field, wanted, offer.as_bytes());
        leader = led(leader, Some(place), score);
    }
    leader.place
}

// What a member of the field finds, with its weight.
fn found_by(
    field: &GetAll<'_, HeaderValue>,
    offers: &[HeaderValue],
    member: Result<&[u8], Malformed>,
) -> Leader
    ensures { FoundBy (field_members true (lines_of field.now)) offers.now (member_of member.entry) result }
{
    match language_element_of(member) {
        Some(element) => {
            if is_star(element.range) {
                return Leader::NONE;
            }
            match nearest(field, Some(element.range), offers) {
                Some(place) => Leader {
                    place: Some(place),
                    score: u64::from(element.weight),
                },
                None => Leader::NONE,
            }
        }
        None => Leader::NONE,
    }
}

// What the ranges of a field find.
fn found(field: &GetAll<'_, HeaderValue>, offers: &[HeaderValue]) -> Option<usize>
    ensures { Finds (field_members true (lines_of field.now)) offers.now result }
{
    let mut leader = Leader::NONE;
    for member in FieldMembers::new(field) {
        let found = found_by(field, offers, member);
        leader = led(leader, found.place, found.score);
    }
    leader.place
}

fn is_any(element: &Element<'_>) -> bool
    ensures { result ≡ is_any (element_parts element.now) }
{
    is_star(element.range) && element.weight != 0
}

fn is_any_member(member: Result<&[u8], Malformed>) -> bool
    ensures { result ≡ option_map_or is_any (language_element_of (member_of member.entry)) false }
{
    match language_element_of(member) {
        Some(element) => is_any(&element),
        None => false,
    }
}

// Whether the field has a star.
fn accepts_any(field: &GetAll<'_, HeaderValue>) -> bool
    ensures { result ≡ accepts_any (field_members true (lines_of field.now)) }
{
    FieldMembers::new(field).any(|member| is_any_member(member))
}

// What is given if no range finds an offer.
fn default_in(field: &GetAll<'_, HeaderValue>, offers: &[HeaderValue]) -> Option<usize>
    ensures { IsDefault (field_members true (lines_of field.now)) offers.now result }
{
    if accepts_any(field) {
        nearest(field, None, offers)
    } else {
        None
    }
}

fn look_up_in(field: &GetAll<'_, HeaderValue>, offers: &[HeaderValue]) -> Option<usize>
    ensures { LooksUpIn (field_members true (lines_of field.now)) offers.now result }
{
    match found(field, offers) {
        Some(place) => Some(place),
        None => default_in(field, offers),
    }
}

fn first_place(offers: &[HeaderValue]) -> Option<usize>
    ensures { result ≡ first_place offers.now }
{
    match offers {
        [] => None,
        [..] => Some(0),
    }
}

/// Returns the place of the language tag that lookup finds for a request (RFC 4647, section 3.4).
/// The tags are the server's, with its preferred one first. A request for `en-GB` finds `en`.
///
/// The ranges of Accept-Language are tried by their weights, and those of one weight in their
/// order. Each is truncated from its end until it is one of the tags. A tag that a range excludes
/// by the weight 0 isn't found. If no range finds a tag and the field has `*`, the first tag that
/// isn't excluded is found. Without the field it is the first of all. `None` if no tag is found.
pub fn look_up(request: &HeaderMap, offers: &[HeaderValue]) -> Option<usize>
    ensures { LooksUp (lines_of (get_all request.now (codes "accept-language"))) offers.now result }
{
    let field = request.get_all(ACCEPT_LANGUAGE);
    match field.iter().next() {
        Some(_) => look_up_in(&field, offers),
        None => first_place(offers),
    }
}
