//! Representations, and which of them a request selects.
ghost use Rattle.std.specs.Prelude.{◌≡◌, ◌≤◌, option_map};
ghost use Rattle.http_header.specs.HeaderMap.{get_all};
ghost use Rattle.headers.specs.{LineMap.lines_at, Lines.lines_of};
ghost use Rattle.decide_negotiation.specs.Choice.{Picks};
ghost use Rattle.decide_negotiation.specs.Qualities.{rank};
ghost use Rattle.decide_resource.specs.Representations.{are_unacceptable};
ghost use Rattle.decide_resource.specs.Representations.{coding_of, joined, rank_by, score};

use decide_negotiation::{Accept, AcceptEncoding, AcceptLanguage, Dimension, Quality, quality};
use decide_preconditions::{Content, Validators};
use headers::{HeaderMap, HeaderValue};

/// A current representation of a resource (RFC 9110, section 3.2).
#[derive(Debug, Drop)]
pub struct Representation {
    /// Its coding, as the value of Content-Encoding, if it has one.
    pub coding: Option<HeaderValue>,
    /// Its language, as the value of Content-Language, if it has one.
    pub language: Option<HeaderValue>,
    /// Its media type, its length, and which ranges of it are sent.
    pub content: Content,
    /// Its validators.
    pub validators: Validators,
}

/// By which fields of a request a representation is selected (RFC 9110, section 12.1). The others
/// are ignored, and Vary doesn't name them.
#[derive(Clone, Copy, Debug, PartialEq, Eq)]
pub struct Negotiation {
    /// Whether Accept counts.
    pub media_type: bool,
    /// Whether Accept-Language counts. It excludes none: 406 for a language isn't encouraged
    /// (section 12.5.4).
    pub language: bool,
    /// Whether Accept-Encoding counts.
    pub coding: bool,
    /// Whether a read is answered by 406 if no representation is acceptable. Otherwise it gets the
    /// first one, as if it weren't negotiated (section 12.4.1).
    pub is_strict: bool,
}

fn rank_of(quality: Quality) -> u64
    ensures value { result ≡ rank quality }
    ensures within { result ≤ 65536 }
{
    match quality {
        Quality::NotAcceptable => 0,
        Quality::Unlisted => 1,
        Quality::Weight(thousandths) => u64::from(thousandths) + 1,
    }
}

// The rank of an offer by a field, or the greatest one if that isn't used or there is no offer.
fn rank_by<D: Dimension>(is_used: bool, fields: &HeaderMap, offer: Option<&[u8]>) -> u64
    ensures value { result ≡ rank_by D.gives is_used (lines_of (get_all fields.now D.NAME))
        (option_map (λ bytes. bytes.now) offer.entry) }
    ensures within { result ≤ 65536 }
{
    match offer {
        Some(offer) if is_used => rank_of(quality::<D>(fields, offer)),
        _ => 1001,
    }
}

fn joined(media_type: u64, language: u64, coding: u64) -> u64
    requires media_type { media_type ≤ 65536 }
    requires language { language ≤ 65536 }
    requires coding { coding ≤ 65536 }
    ensures { result ≡ joined media_type language coding }
{
    if media_type == 0 || coding == 0 {
        0
    } else {
        (media_type * 131072 + language) * 131072 + coding
    }
}

fn bytes_of(value: &Option<HeaderValue>) -> Option<&[u8]>
    ensures { option_map (λ bytes. bytes.now) result ≡ option_map (λ value. value.bytes) value.now }
{
    match value {
        Some(value) => Some(value.as_bytes()),
        None => None,
    }
}

fn coding_of(representation: &Representation) -> &[u8]
    ensures { result.now ≡ coding_of representation.now }
{
    match &representation.coding {
        Some(coding) => coding.as_bytes(),
        None => b"identity",
    }
}

/// How much a client prefers a representation; 0 if it isn't acceptable.
#[tactic(auto, unfolding(crate::specs::Representations::score))]
pub(crate) fn score(
    negotiation: &Negotiation,
    fields: &HeaderMap,
    representation: &Representation,
) -> u64
    ensures { result ≡ score negotiation.now (lines_at fields.now) representation.now }
{
    let media_type = bytes_of(&representation.content.media_type);
    let language = bytes_of(&representation.language);
    let coding = Some(coding_of(representation));
    let media_rank = rank_by::<Accept>(negotiation.media_type, fields, media_type);
    let language_rank = rank_by::<AcceptLanguage>(negotiation.language, fields, language);
    let coding_rank = rank_by::<AcceptEncoding>(negotiation.coding, fields, coding);
    joined(media_rank, language_rank, coding_rank)
}

/// The place of the representation that a client prefers, if any is acceptable: of those of the
/// greatest score the first.
pub(crate) fn preferred(
    negotiation: &Negotiation,
    fields: &HeaderMap,
    representations: &[Representation],
) -> Option<usize>
    ensures { Picks (score negotiation.now (lines_at fields.now)) representations.now result }
{
    let mut place = None;
    let mut greatest = 0;
    for (index, representation) in representations.iter().enumerate() {
        let score = score(negotiation, fields, representation);
        if score > greatest {
            place = Some(index);
            greatest = score;
        }
    }
    place
}

/// Whether no representation is acceptable.
pub(crate) fn are_unacceptable(
    negotiation: &Negotiation,
    fields: &HeaderMap,
    representations: &[Representation],
) -> bool
    ensures { result ≡ are_unacceptable negotiation.now (lines_at fields.now) representations.now }
{
    representations.iter().all(|representation| score(negotiation, fields, representation) == 0)
}
