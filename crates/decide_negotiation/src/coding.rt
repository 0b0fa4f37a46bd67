//! Content codings.
ghost use Rattle.std.specs.Prelude.{◌≡◌, true, codes};
ghost use Rattle.headers_syntax.specs.{AsciiCase.same_name, Lines.lines_of};
ghost use Rattle.rfc_fields.specs.Members.{field_members, member_of};
ghost use Rattle.decide_negotiation.specs.Codings.{coding_quality};
ghost use Rattle.decide_negotiation.specs.Codings.{encoding_quality, is_same_coding, member_quality, registered};
ghost use Rattle.decide_negotiation.specs.{Codings.{says_of, unlisted}, Elements.element_parts};

use crate::acceptability::{Quality, least, weighed};
use crate::dimension::Dimension;
use crate::element::{Element, bare_element_of};
use crate::media::is_star;
use crate::preference::{Preference, Ranges, strongest};
use http_header::{ACCEPT_ENCODING, GetAll, HeaderName, HeaderValue};
use rfc_fields::{FieldMembers, Malformed, Members};

/// The dimension of Accept-Encoding: the content codings that a client accepts (RFC 9110, section
/// 12.5.3). An offer is a value of Content-Encoding, or `identity` for content without a coding.
///
/// An element matches the coding that it names, in any case, and `*` matches each coding; `x-gzip`
/// is `gzip` and `x-compress` is `compress` (section 8.4.1). Content with several codings has the
/// least of their qualities. `identity` that no element matches is acceptable.
#[derive(Clone, Copy, Debug)]
pub struct AcceptEncoding;

// The registered name of a coding.
fn registered(name: &[u8]) -> &[u8]
    ensures { result.now ≡ registered name.now }
{
    if name.eq_ignore_ascii_case(b"x-gzip") {
        b"gzip"
    } else if name.eq_ignore_ascii_case(b"x-compress") {
        b"compress"
    } else {
        name
    }
}

// Whether both name one coding.
#[tactic(auto, unfolding(crate::specs::Codings::is_same_coding))]
fn is_same_coding(one: &[u8], other: &[u8]) -> bool
    ensures { result ≡ is_same_coding one.now other.now }
{
    registered(one).eq_ignore_ascii_case(registered(other))
}

// What an element says of a coding.
fn says_of(coding: &[u8], element: &Element<'_>) -> Option<Preference>
    ensures { result ≡ says_of coding.now (element_parts element.now) }
{
    if is_star(element.range) {
        Some(Preference {
            names: 0,
            extent: 0,
            quality: element.weight,
        })
    } else if is_same_coding(element.range, coding) {
        Some(Preference {
            names: 1,
            extent: 0,
            quality: element.weight,
        })
    } else {
        None
    }
}

impl Ranges for AcceptEncoding {
    ghost use Rattle.decide_negotiation.specs.Codings.{coding_says};

    ghost says = { coding_says };

    fn preference(offer: &[u8], member: Result<&[u8], Malformed>) -> Option<Preference> {
        match bare_element_of(member) {
            Some(element) => says_of(offer, &element),
            None => None,
        }
    }
}

// The quality of a coding that no element matches.
fn unlisted(coding: &[u8]) -> Quality
    ensures { result ≡ unlisted coding.now }
{
    if coding.eq_ignore_ascii_case(b"identity") {
        Quality::Unlisted
    } else {
        Quality::NotAcceptable
    }
}

// The quality of one coding.
#[tactic(auto, unfolding(crate::specs::Codings::coding_quality))]
fn coding_quality(field: &GetAll<'_, HeaderValue>, coding: &[u8]) -> Quality
    ensures { result ≡ coding_quality (field_members true (lines_of field.now)) coding.now }
{
    match strongest::<AcceptEncoding>(field, coding) {
        Some(preference) => weighed(preference.quality),
        None => unlisted(coding),
    }
}

// The quality of one coding of an offer.
fn member_quality(field: &GetAll<'_, HeaderValue>, member: Result<&[u8], Malformed>) -> Quality
    ensures { result ≡ member_quality (field_members true (lines_of field.now)) (member_of member.entry) }
{
    match member {
        Ok(coding) => coding_quality(field, coding),
        Err(Malformed) => Quality::NotAcceptable,
    }
}

impl Dimension for AcceptEncoding {
    ghost use Rattle.std.specs.Prelude.{codes};
    ghost use Rattle.decide_negotiation.specs.Codings.{encoding_quality};

    ghost NAME = { codes "accept-encoding" };

    ghost gives = { encoding_quality };

    const NAME: HeaderName = ACCEPT_ENCODING;

    fn quality(field: &GetAll<'_, HeaderValue>, offer: &[u8]) -> Quality {
        let mut codings = Members::new(offer);
        match codings.next() {
            Some(first) => codings.fold(member_quality(field, first), |quality, coding| {
                least(quality, member_quality(field, coding))
            }),
            None => coding_quality(field, b"identity"),
        }
    }
}
