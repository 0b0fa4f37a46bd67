//! Theorems about the definitions alone. To cite one in a proof, call it.
ghost use Rattle.decide_negotiation.specs.Laws.{EachCodingIsAccepted, HasOneChoice, HasTwoNames};
ghost use Rattle.decide_negotiation.specs.Laws.{IdentityIsExcludedByName, ListedComesFirst, HasOneLookup};
ghost use Rattle.decide_negotiation.specs.Laws.{MostSpecificDecides, RangesCover, RangesMatch, TakesTheFirst};
ghost use Rattle.decide_negotiation.specs.Laws.{WeightsAreInRange};

use crate::dimension::Dimension;

/// Theorem: the most specific element decides about an offer (RFC 9110, section 12.5.1). Of several
/// that are equally specific, the one with the greatest weight decides.
#[tactic(auto, using(crate::proofs::LawLemmas::most_specific))]
pub fn most_specific_decides()
    ensures { MostSpecificDecides }
{}

/// Theorem: a request has exactly one choice.
pub fn request_has_one_choice<D: Dimension>()
    ensures { HasOneChoice D.gives }
{}

/// Theorem: without the field the first offer is chosen.
pub fn no_field_takes_the_first<D: Dimension>()
    ensures { TakesTheFirst D.gives }
{}

/// Theorem: a media range matches a media type exactly if type and subtype are equal or a star, and
/// the media type has each parameter of the range (RFC 9110, section 12.5.1).
#[tactic(auto, using(crate::proofs::LawLemmas::ranges_match))]
pub fn ranges_match()
    ensures { RangesMatch }
{}

/// Theorem: content without a coding is acceptable unless `identity;q=0` or `*;q=0` excludes it (RFC
/// 9110, section 12.5.3).
#[tactic(auto, using(crate::proofs::LawLemmas::identity_excluded))]
pub fn identity_is_excluded_by_name()
    ensures { IdentityIsExcludedByName }
{}

/// Theorem: `x-gzip` is `gzip`, and `x-compress` is `compress` (RFC 9110, section 8.4.1).
#[tactic(auto, using(crate::proofs::LawLemmas::two_names))]
pub fn codings_have_two_names()
    ensures { HasTwoNames }
{}

/// Theorem: each coding that is listed with a weight above 0 is preferred to unlisted content
/// without a coding.
#[tactic(auto, using(crate::proofs::LawLemmas::listed_first))]
pub fn listed_comes_first()
    ensures { ListedComesFirst }
{}

/// Theorem: content with several codings is at most as acceptable as each of them (RFC 9110,
/// section 12.5.3).
#[tactic(auto, using(crate::proofs::LawLemmas::each_coding))]
pub fn each_coding_is_accepted()
    ensures { EachCodingIsAccepted }
{}

/// Theorem: a language range matches a tag exactly if the tag is equal to it, in any case, or
/// begins with it and a hyphen (RFC 4647, section 3.3.1).
#[tactic(auto, using(crate::proofs::LawLemmas::ranges_cover))]
pub fn ranges_cover()
    ensures { RangesCover }
{}

/// Theorem: lookup has exactly one result (RFC 4647, section 3.4).
#[tactic(auto, using(crate::proofs::LawLemmas::one_lookup))]
pub fn request_has_one_lookup()
    ensures { HasOneLookup }
{}

/// Theorem: a quality that is a weight is 1 to 1000 thousandths (RFC 9110, section 12.4.2).
#[tactic(auto, using(crate::proofs::RangeLemmas::weights_in_range))]
pub fn weights_are_in_range()
    ensures { WeightsAreInRange }
{}
