//! Conditions on the entity tags of the target.
ghost use Rattle.std.specs.Prelude.{◌≡◌, ◌↔◌, List, IsTrue, IfOk};
ghost use Rattle.headers_syntax.{specs.HeaderLaws.ReadsBy, specs.Lines.Line};
ghost use Rattle.headers_items.{specs.Merge.merge, specs.Places.comma};
ghost use Rattle.headers_core.specs.EntityTagRange.{range_of, tags_grammar};
ghost use Rattle.headers_core.specs.declared.entity_tag_range.EntityTagRange.TheVariants.{Any};

use crate::etag::{ETag, into_tag};
use headers_core::{EntityTagRange, FlatCsv, FormHeader, NamedField};
use http_header::HeaderName;
use std::alloc::{AllocError, Global};
use std::marker::{Model, PhantomData};

/// A condition on entity tags: `*`, or a list of tags (RFC 9110, sections 13.1.1 and 13.1.2). All
/// field lines are joined by a comma and a space, and none are rejected: `decode` fails only if an
/// allocation fails. In a list, items that are no entity tag are ignored. Conditions are compared
/// by their encoding.
#[derive(Debug, Drop, PartialEq)]
pub struct TagCondition<N: NamedField> {
    tags: EntityTagRange,
    of: PhantomData<N>,
}

impl<N: NamedField> Model for TagCondition<N> {
    ghost use Rattle.headers_core.specs.declared.entity_tag_range.EntityTagRange.{EntityTagRange};

    ghost Value = { EntityTagRange };

    ghost view = { λ header. header.tags };

    ghost inverse = { λ value. record { tags = value; of = record {} } };
}

impl<N: NamedField> TagCondition<N> {
    /// Makes the condition `*`, which is any entity tag.
    pub fn any() -> TagCondition<N>
        ensures { result ≡ Any }
    {
        TagCondition::from_form(EntityTagRange::Any)
    }

    /// Returns whether the condition is `*`.
    pub fn is_any(&self) -> bool
        ensures { IsTrue result ↔ (self.now ≡ Any) }
    {
        self.tags == EntityTagRange::Any
    }

    /// Copies the condition. Fails only if an allocation fails.
    pub fn clone(&self, alloc: Global) -> Result<TagCondition<N>, AllocError>
        ensures { IfOk result (λ copy. copy ≡ self.now) }
    {
        Ok(TagCondition::from_form(self.tags.clone(alloc)?))
    }
}

impl<N: NamedField> From<ETag> for TagCondition<N> {
    ghost use Rattle.std.specs.Prelude.{◌≡◌};
    ghost use Rattle.headers_core.specs.declared.entity_tag_range.EntityTagRange.TheVariants.{Tags};

    ghost from_gives = { λ etag header. header ≡ Tags etag.bytes };

    fn from(etag: ETag) -> TagCondition<N> {
        let line = into_tag(etag).into_value();
        TagCondition::from_form(EntityTagRange::Tags(FlatCsv::from_value(line)))
    }
}

impl<N: NamedField> FormHeader for TagCondition<N> {
    type Form = EntityTagRange;

    ghost NAME = { N.NAME };

    const NAME: HeaderName = N::NAME;

    ghost form = { λ header. header };

    fn from_form(tags: EntityTagRange) -> TagCondition<N> {
        TagCondition {
            tags,
            of: PhantomData,
        }
    }

    fn as_form(&self) -> &EntityTagRange {
        &self.tags
    }
}

/// Theorem: every list of field lines decodes to a condition on entity tags; never to `Invalid`.
pub fn tag_conditions_read_all()
    ensures { (lines : List Line) → ReadsBy tags_grammar lines (range_of (merge comma lines)) }
{}
