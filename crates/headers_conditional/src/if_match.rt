//! The header `if-match`.
ghost use Rattle.std.specs.Prelude.{◌≡◌, ◌↔◌, List, ℕ, true, false, IsTrue};
ghost use Rattle.headers_syntax.{specs.EntityTag.{IsTag, StronglyEqual, TagParts}, specs.Text.is_text};
ghost use Rattle.headers_items.{specs.Answers.{GoesByItems, SurvivesCuts}, specs.Merge.merge, specs.Places.comma};
ghost use Rattle.headers_core.specs.EntityTagRange.{range_of};
ghost use Rattle.headers_core.specs.declared.entity_tag_range.EntityTagRange.TheVariants.{Tags};
ghost use Rattle.headers_conditional.specs.IfMatch.{MatchPasses};

use crate::etag::{ETag, tag_of};
use crate::tag_condition::TagCondition;
use headers_core::{FormHeader, NamedField};
use http_header::{HeaderName, IF_MATCH};

/// The header `If-Match`: a request is to be performed only if the target has one of these entity
/// tags (RFC 9110, section 13.1.1).
///
/// All field lines are joined by a comma and a space, and none are rejected: `decode` fails only if
/// an allocation fails. `*` alone is any tag. In a list, items that are no entity tag are ignored.
/// Headers are compared by their encoding.
pub type IfMatch = TagCondition<IfMatchField>;

/// The field name of `IfMatch`.
#[derive(Debug, PartialEq)]
pub struct IfMatchField;

impl NamedField for IfMatchField {
    ghost use Rattle.std.specs.Prelude.{codes};

    ghost NAME = { codes "if-match" };

    const NAME: HeaderName = IF_MATCH;
}

impl TagCondition<IfMatchField> {
    /// Returns whether the condition is `*`, or has an entity tag that is strongly equal to this
    /// one.
    pub fn precondition_passes(&self, etag: &ETag) -> bool
        ensures answer { IsTrue result ↔ MatchPasses self.now etag.now.bytes }
        ensures cuts { SurvivesCuts comma
            (λ lines passes. IsTrue passes ↔ MatchPasses (range_of (merge comma lines)) etag.now.bytes) }
        ensures by_items { GoesByItems comma
            (λ tags passes. IsTrue passes ↔ MatchPasses (Tags tags) etag.now.bytes) }
    {
        self.as_form().matches_strong(tag_of(etag))
    }
}

/// Theorem: which tags pass an `If-Match` that is made of one entity tag. If the entity tag is
/// ASCII text, exactly the strongly equal tags pass; so the tag itself passes exactly if it isn't
/// weak. If it has a byte outside ASCII, no tag passes.
pub fn if_match_of_own_tag()
    ensures text { (bytes : List ℕ) (parts : TagParts) → IsTag bytes parts → is_text bytes ≡ true
        → (MatchPasses (Tags bytes) bytes ↔ (parts.is_weak ≡ false)) }
    ensures others { (bytes tag : List ℕ) (parts others : TagParts) → IsTag bytes parts
        → IsTag tag others → is_text bytes ≡ true
        → (MatchPasses (Tags bytes) tag ↔ StronglyEqual parts others) }
    ensures no_text { (bytes tag : List ℕ) (parts : TagParts) → IsTag bytes parts
        → is_text bytes ≡ false → ¬ (MatchPasses (Tags bytes) tag) }
{}
