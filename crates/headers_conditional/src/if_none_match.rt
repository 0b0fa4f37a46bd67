//! The header `if-none-match`.
ghost use Rattle.std.specs.Prelude.{◌≡◌, ◌↔◌, List, ℕ, true, false, IsTrue};
ghost use Rattle.headers_syntax.{specs.EntityTag.{IsTag, TagParts, WeaklyEqual}, specs.Text.is_text};
ghost use Rattle.headers_items.{specs.Answers.{GoesByItems, SurvivesCuts}, specs.Merge.merge, specs.Places.comma};
ghost use Rattle.headers_core.specs.EntityTagRange.{range_of};
ghost use Rattle.headers_core.specs.declared.entity_tag_range.EntityTagRange.TheVariants.{Tags};
ghost use Rattle.headers_conditional.specs.IfNoneMatch.{NoneMatchPasses};

use crate::etag::{ETag, tag_of};
use crate::tag_condition::TagCondition;
use headers_core::{FormHeader, NamedField};
use http_header::{HeaderName, IF_NONE_MATCH};

/// The header `If-None-Match`: a request is to be performed only if the target has none of these
/// entity tags (RFC 9110, section 13.1.2).
///
/// All field lines are joined by a comma and a space, and none are rejected: `decode` fails only if
/// an allocation fails. `*` alone is any tag. In a list, items that are no entity tag are ignored.
/// Headers are compared by their encoding.
pub type IfNoneMatch = TagCondition<IfNoneMatchField>;

/// The field name of `IfNoneMatch`.
#[derive(Debug, PartialEq)]
pub struct IfNoneMatchField;

impl NamedField for IfNoneMatchField {
    ghost use Rattle.std.specs.Prelude.{codes};

    ghost NAME = { codes "if-none-match" };

    const NAME: HeaderName = IF_NONE_MATCH;
}

impl TagCondition<IfNoneMatchField> {
    /// Returns whether the condition isn't `*`, and has no entity tag that is weakly equal to this
    /// one.
    pub fn precondition_passes(&self, etag: &ETag) -> bool
        ensures answer { IsTrue result ↔ NoneMatchPasses self.now etag.now.bytes }
        ensures cuts { SurvivesCuts comma
            (λ lines passes. IsTrue passes ↔ NoneMatchPasses (range_of (merge comma lines)) etag.now.bytes) }
        ensures by_items { GoesByItems comma
            (λ tags passes. IsTrue passes ↔ NoneMatchPasses (Tags tags) etag.now.bytes) }
    {
        !self.as_form().matches_weak(tag_of(etag))
    }
}

/// Theorem: which tags pass an `If-None-Match` that is made of one entity tag. If the entity tag is
/// ASCII text, exactly the tags pass that aren't weakly equal; so the tag itself never passes. If
/// it has a byte outside ASCII, every tag passes.
pub fn if_none_match_of_own_tag()
    ensures text { (bytes : List ℕ) (parts : TagParts) → IsTag bytes parts → is_text bytes ≡ true
        → ¬ (NoneMatchPasses (Tags bytes) bytes) }
    ensures others { (bytes tag : List ℕ) (parts others : TagParts) → IsTag bytes parts
        → IsTag tag others → is_text bytes ≡ true
        → (NoneMatchPasses (Tags bytes) tag ↔ (¬ (WeaklyEqual parts others))) }
    ensures no_text { (bytes tag : List ℕ) (parts : TagParts) → IsTag bytes parts
        → is_text bytes ≡ false → NoneMatchPasses (Tags bytes) tag }
{}
