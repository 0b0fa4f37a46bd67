//! Content negotiation.
ghost use Rattle.decide_negotiation.{specs.Choice.Chooses, specs.Codings.encoding_quality};
ghost use Rattle.decide_negotiation.{specs.Languages.language_says, specs.Lookup.LooksUp};
ghost use Rattle.decide_negotiation.{specs.MediaRanges.media_type_says, specs.Qualities.{quality_by, quality_in}};
ghost use Rattle.c_decisions.{specs.Choices.Finds, specs.Ratings.Rates};
ghost use Rattle.c_parts.specs.Endings.{Gives};

use crate::giving::give;
use c_decisions::{OfferQuality, choose, look_up_language, rate};
use decide_negotiation::{Accept, AcceptEncoding, AcceptLanguage};
use std::alloc::Global;

/// The place of the media type that a request is served, by the lines of Accept (RFC 9110, section
/// 12.5.1).
#[unsafe(no_mangle)]
pub extern "C" fn typed_headers_choose_type(
    alloc: Global,
    lines: &[u8],
    offers: &[u8],
    place: &mut usize,
) -> u8
    ensures { Gives (Finds (λ lines. Chooses (quality_in (quality_by media_type_says) lines)) lines.now offers.now)
        place.old place.new result }
{
    give(choose::<Accept>(alloc, lines, offers), place)
}

/// The place of the content coding that a request is served, by the lines of Accept-Encoding (RFC
/// 9110, section 12.5.3).
#[unsafe(no_mangle)]
pub extern "C" fn typed_headers_choose_coding(
    alloc: Global,
    lines: &[u8],
    offers: &[u8],
    place: &mut usize,
) -> u8
    ensures { Gives (Finds (λ lines. Chooses (quality_in encoding_quality lines)) lines.now offers.now)
        place.old place.new result }
{
    give(choose::<AcceptEncoding>(alloc, lines, offers), place)
}

/// The place of the language that a request is served, by the lines of Accept-Language (RFC 9110,
/// section 12.5.4; RFC 4647, section 3.3.1).
#[unsafe(no_mangle)]
pub extern "C" fn typed_headers_choose_language(
    alloc: Global,
    lines: &[u8],
    offers: &[u8],
    place: &mut usize,
) -> u8
    ensures { Gives (Finds (λ lines. Chooses (quality_in (quality_by language_says) lines)) lines.now offers.now)
        place.old place.new result }
{
    give(choose::<AcceptLanguage>(alloc, lines, offers), place)
}

/// The place of the language that lookup finds (RFC 4647, section 3.4), by the lines of
/// Accept-Language.
#[unsafe(no_mangle)]
pub extern "C" fn typed_headers_look_up_language(
    alloc: Global,
    lines: &[u8],
    offers: &[u8],
    place: &mut usize,
) -> u8
    ensures { Gives (Finds LooksUp lines.now offers.now) place.old place.new result }
{
    give(look_up_language(alloc, lines, offers), place)
}

/// How acceptable a media type is, by the lines of Accept.
#[unsafe(no_mangle)]
pub extern "C" fn typed_headers_type_quality(
    alloc: Global,
    lines: &[u8],
    offer: &[u8],
    quality: &mut OfferQuality,
) -> u8
    ensures { Gives (Rates (quality_in (quality_by media_type_says)) lines.now offer.now)
        quality.old quality.new result }
{
    give(rate::<Accept>(alloc, lines, offer), quality)
}

/// How acceptable a value of Content-Encoding is, by the lines of Accept-Encoding.
#[unsafe(no_mangle)]
pub extern "C" fn typed_headers_coding_quality(
    alloc: Global,
    lines: &[u8],
    offer: &[u8],
    quality: &mut OfferQuality,
) -> u8
    ensures { Gives (Rates (quality_in encoding_quality) lines.now offer.now) quality.old quality.new result }
{
    give(rate::<AcceptEncoding>(alloc, lines, offer), quality)
}

/// How acceptable a language tag is, by the lines of Accept-Language.
#[unsafe(no_mangle)]
pub extern "C" fn typed_headers_language_quality(
    alloc: Global,
    lines: &[u8],
    offer: &[u8],
    quality: &mut OfferQuality,
) -> u8
    ensures { Gives (Rates (quality_in (quality_by language_says)) lines.now offer.now)
        quality.old quality.new result }
{
    give(rate::<AcceptLanguage>(alloc, lines, offer), quality)
}
