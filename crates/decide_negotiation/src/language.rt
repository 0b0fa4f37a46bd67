//! Languages.
ghost use Rattle.std.specs.Prelude.{◌≡◌, option_map};
ghost use Rattle.rfc_fields.specs.Members.{member_of};
ghost use Rattle.decide_negotiation.specs.{Elements.element_parts, Languages.{covers, language_element_of, says_of}};

use crate::acceptability::{Quality, preferred};
use crate::dimension::Dimension;
use crate::element::{Element, bare_element_of};
use crate::media::is_star;
use crate::preference::{Preference, Ranges, strongest};
use http_header::{ACCEPT_LANGUAGE, GetAll, HeaderName, HeaderValue};
use rfc_fields::Malformed;

/// The dimension of Accept-Language: the languages that a client prefers (RFC 9110, section
/// 12.5.4), by basic filtering (RFC 4647, section 3.3.1). An offer is a language tag.
///
/// A range matches a tag that is equal to it, in any case, or that begins with it and a hyphen, and
/// `*` matches each tag. The longest range that matches decides.
#[derive(Clone, Copy, Debug)]
pub struct AcceptLanguage;

/// Returns whether the range is the tag, or a prefix of the tag before a hyphen.
pub(crate) fn covers(range: &[u8], tag: &[u8]) -> bool
    ensures { result ≡ covers range.now tag.now }
{
    let mut rest = tag;
    for byte in range {
        let Some((first, others)) = rest.split_first() else {
            return false;
        };
        if !first.eq_ignore_ascii_case(byte) {
            return false;
        }
        rest = others;
    }
    match rest {
        [] => true,
        [first, ..] => *first == b'-',
    }
}

// What an element says of a tag.
fn says_of(tag: &[u8], element: &Element<'_>) -> Option<Preference>
    ensures { result ≡ says_of tag.now (element_parts element.now) }
{
    if is_star(element.range) {
        Some(Preference {
            names: 0,
            extent: 0,
            quality: element.weight,
        })
    } else if covers(element.range, tag) {
        Some(Preference {
            names: 1,
            extent: element.range.len(),
            quality: element.weight,
        })
    } else {
        None
    }
}

/// Parses a member of the field as an element. A quote without an end counts as `*;q=0.001`.
pub(crate) fn language_element_of<'a>(member: Result<&'a [u8], Malformed>) -> Option<Element<'a>>
    ensures { option_map element_parts result ≡ language_element_of (member_of member.entry) }
{
    match member {
        Ok(text) => bare_element_of(Ok(text)),
        Err(Malformed) => bare_element_of(Ok(b"*;q=0.001")),
    }
}

impl Ranges for AcceptLanguage {
    ghost use Rattle.decide_negotiation.specs.Languages.{language_says};

    ghost says = { language_says };

    fn preference(offer: &[u8], member: Result<&[u8], Malformed>) -> Option<Preference> {
        match language_element_of(member) {
            Some(element) => says_of(offer, &element),
            None => None,
        }
    }
}

impl Dimension for AcceptLanguage {
    ghost use Rattle.std.specs.Prelude.{codes};
    ghost use Rattle.decide_negotiation.specs.{Languages.language_says, Qualities.quality_by};

    ghost NAME = { codes "accept-language" };

    ghost gives = { quality_by language_says };

    const NAME: HeaderName = ACCEPT_LANGUAGE;

    fn quality(field: &GetAll<'_, HeaderValue>, offer: &[u8]) -> Quality {
        preferred(strongest::<AcceptLanguage>(field, offer))
    }
}
