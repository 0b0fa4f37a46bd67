//! Media types.
ghost use Rattle.std.specs.Prelude.{◌≡◌, ◌≤◌, option_map, position};
ghost use Rattle.decide_negotiation.specs.MediaRanges.{given, is_range, is_slash, is_star, is_star_or_same, matches};
ghost use Rattle.decide_negotiation.specs.MediaRanges.{media_range_in, media_range_parts, media_type_in};
ghost use Rattle.decide_negotiation.specs.MediaRanges.{media_type_parts, names_in, names_parts, says_in, says_of};

use crate::acceptability::{Quality, preferred};
use crate::dimension::Dimension;
use crate::element::{
    element_in, has_only_parameters, has_parameters_of, parameter_count, value_of,
};
use crate::preference::{Preference, Ranges, strongest};
use http_header::{ACCEPT, GetAll, HeaderName, HeaderValue};
use rfc_fields::{Malformed, is_token};

/// The dimension of Accept: the media types that a client accepts (RFC 9110, section 12.5.1). An
/// offer is a media type with its parameters.
///
/// A range matches a media type if type and subtype are equal or a star in the range, and the media
/// type has each parameter of the range. Names and values are compared without case. The range
/// without a star decides over one with a star, and then the one with more parameters.
#[derive(Clone, Copy, Debug)]
pub struct Accept;

// A type and a subtype.
#[derive(Clone, Copy)]
pub(crate) struct Names<'a> {
    pub(crate) type_name: &'a [u8],
    pub(crate) subtype: &'a [u8],
}

// A media range.
#[derive(Clone, Copy)]
pub(crate) struct MediaRange<'a> {
    pub(crate) names: Names<'a>,
    // The element, with its parameters.
    pub(crate) text: &'a [u8],
    // In thousandths.
    pub(crate) weight: u16,
}

// A media type.
#[derive(Clone, Copy)]
pub(crate) struct MediaType<'a> {
    pub(crate) names: Names<'a>,
    // The text, with its parameters.
    pub(crate) text: &'a [u8],
}

fn slash_in(text: &[u8]) -> Option<usize>
    ensures { result ≡ position is_slash text.now }
{
    text.iter().position(|byte| *byte == b'/')
}

#[tactic(auto, unfolding(crate::specs::MediaRanges::names_in))]
fn names_in(text: &[u8]) -> Option<Names<'_>>
    ensures { option_map names_parts result ≡ names_in text.now }
{
    let slash = slash_in(text)?;
    let names = Names {
        type_name: &text[..slash],
        subtype: &text[slash + 1..],
    };
    if is_token(names.type_name) && is_token(names.subtype) {
        Some(names)
    } else {
        None
    }
}

/// Returns whether a name is the star.
pub(crate) fn is_star(name: &[u8]) -> bool
    ensures { result ≡ is_star name.now }
{
    name == b"*".as_slice()
}

// Whether the names are those of a range: `*/html` is none.
fn is_range(names: &Names<'_>) -> bool
    ensures { result ≡ is_range (names_parts names.now) }
{
    !is_star(names.type_name) || is_star(names.subtype)
}

// How many names a name of a range gives.
fn given(name: &[u8]) -> u8
    ensures value { result ≡ given name.now }
    ensures within { result ≤ 1 }
{
    if is_star(name) { 0 } else { 1 }
}

fn is_star_or_same(name: &[u8], other: &[u8]) -> bool
    ensures { result ≡ is_star_or_same name.now other.now }
{
    is_star(name) || name.eq_ignore_ascii_case(other)
}

// The media range that an element is.
#[tactic(auto, unfolding(crate::specs::MediaRanges::media_range_in))]
fn media_range_in(text: &[u8]) -> Option<MediaRange<'_>>
    ensures { option_map media_range_parts result ≡ media_range_in text.now }
{
    match element_in(text) {
        Some(element) => match names_in(element.range) {
            Some(names) if is_range(&names) => Some(MediaRange {
                names,
                text: element.text,
                weight: element.weight,
            }),
            _ => None,
        },
        None => None,
    }
}

// The media type that a text is.
#[tactic(auto, unfolding(crate::specs::MediaRanges::media_type_in))]
fn media_type_in(text: &[u8]) -> Option<MediaType<'_>>
    ensures { option_map media_type_parts result ≡ media_type_in text.now }
{
    if !has_only_parameters(text) {
        return None;
    }
    match names_in(value_of(text)) {
        Some(names) => Some(MediaType { names, text }),
        None => None,
    }
}

// Whether a range matches a media type.
fn matches(range: &MediaRange<'_>, media: &MediaType<'_>) -> bool
    ensures { result ≡ matches (media_range_parts range.now) (media_type_parts media.now) }
{
    is_star_or_same(range.names.type_name, media.names.type_name)
        && is_star_or_same(range.names.subtype, media.names.subtype)
        && has_parameters_of(media.text, range.text)
}

// What a range says of a media type.
fn says_of(range: &MediaRange<'_>, media: &MediaType<'_>) -> Option<Preference>
    ensures { result ≡ says_of (media_range_parts range.now) (media_type_parts media.now) }
{
    if matches(range, media) {
        Some(Preference {
            names: given(range.names.type_name) + given(range.names.subtype),
            extent: parameter_count(range.text),
            quality: range.weight,
        })
    } else {
        None
    }
}

// What an element says of an offer.
fn says_in(offer: &[u8], element: &[u8]) -> Option<Preference>
    ensures { result ≡ says_in offer.now element.now }
{
    match (media_range_in(element), media_type_in(offer)) {
        (Some(range), Some(media)) => says_of(&range, &media),
        _ => None,
    }
}

impl Ranges for Accept {
    ghost use Rattle.decide_negotiation.specs.MediaRanges.{media_type_says};

    ghost says = { media_type_says };

    fn preference(offer: &[u8], member: Result<&[u8], Malformed>) -> Option<Preference> {
        match member {
            Ok(element) => says_in(offer, element),
            Err(Malformed) => says_in(offer, b"*/*;q=0.001"),
        }
    }
}

impl Dimension for Accept {
    ghost use Rattle.std.specs.Prelude.{codes};
    ghost use Rattle.decide_negotiation.specs.{MediaRanges.media_type_says, Qualities.quality_by};

    ghost NAME = { codes "accept" };

    ghost gives = { quality_by media_type_says };

    const NAME: HeaderName = ACCEPT;

    fn quality(field: &GetAll<'_, HeaderValue>, offer: &[u8]) -> Quality {
        preferred(strongest::<Accept>(field, offer))
    }
}
