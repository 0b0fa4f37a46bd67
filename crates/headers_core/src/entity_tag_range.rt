//! The entity tags in a condition, or `*`.
ghost use Rattle.std.{specs.Prelude.{◌≡◌, ◌≢◌, ◌↔◌, IsTrue, IfOk}, specs.Iterator.IsFinite};
ghost use Rattle.headers_syntax.{specs.OfLines.OfLines, specs.EntityTag.{AreTags, StronglyEqual, WeaklyEqual}};
ghost use Rattle.headers_syntax.specs.HeaderLaws.{ReadsBy, written_by};
ghost use Rattle.headers_items.{specs.Merge.merge, specs.Places.comma};
ghost use Rattle.headers_core.specs.EntityTagRange.{Matches, range_of, range_text, star, tags_grammar};
ghost use Rattle.headers_core.specs.declared.entity_tag_range.EntityTagRange.{EntityTagRange as Range};
ghost use Rattle.headers_core.specs.declared.entity_tag_range.EntityTagRange.TheVariants.{Tags};

use crate::field_form::FieldForm;
use headers_items::{Comma, FlatCsv};
use headers_syntax::{AsHeaderValue, EntityTag, Error, Refused};
use http_header::HeaderValue;
use std::alloc::{AllocError, Global};

/// The entity tags in a condition, or `*` for any tag (RFC 9110, sections 13.1.1 and 13.1.2).
#[derive(Debug, Drop, PartialEq)]
pub enum EntityTagRange {
    /// `*`: any entity tag.
    Any,
    /// The entity tags in a list; items that are no entity tag are ignored.
    Tags(FlatCsv<Comma>),
}

// Whether an item of a list is an entity tag that is strongly equal.
fn is_strongly_equal(item: &str, tag: &EntityTag) -> bool
    ensures { IsTrue result ↔ AreTags StronglyEqual item.now tag.now.bytes }
{
    tag.strong_eq_bytes(item.as_bytes())
}

// Whether an item of a list is an entity tag that is weakly equal.
fn is_weakly_equal(item: &str, tag: &EntityTag) -> bool
    ensures { IsTrue result ↔ AreTags WeaklyEqual item.now tag.now.bytes }
{
    tag.weak_eq_bytes(item.as_bytes())
}

impl EntityTagRange {
    /// Joins field lines by a comma and a space: `Any` if the result is `*`, else the tags in the
    /// list. Fails only if an allocation fails.
    pub fn from_lines<I: Iterator>(
        alloc: Global,
        lines: &mut I,
    ) -> Result<EntityTagRange, AllocError>
    where
        I::Item: AsHeaderValue,
        requires can { I.can_next lines.old }
        requires ends { IsFinite (I.remaining lines.old) }
        ensures { OfLines I.Item.shown I.next_gives lines.old lines.new
            (λ ls. IfOk result (λ range. range ≡ range_of (merge comma ls))) }
    {
        let tags: FlatCsv<Comma> = FlatCsv::from_lines(alloc, lines)?;
        if tags.as_bytes() == b"*".as_slice() {
            Ok(EntityTagRange::Any)
        } else {
            Ok(EntityTagRange::Tags(tags))
        }
    }

    /// Encodes the range as a header value: `*`, or the joined list. Fails only if an allocation
    /// fails.
    pub fn to_value(&self, alloc: Global) -> Result<HeaderValue, AllocError>
        ensures { IfOk result (λ value. value.bytes ≡ range_text self.now) }
    {
        match self {
            EntityTagRange::Any => Ok(HeaderValue::from_static("*")),
            EntityTagRange::Tags(tags) => tags.to_value(alloc),
        }
    }

    /// Copies the range. Fails only if an allocation fails.
    pub fn clone(&self, alloc: Global) -> Result<EntityTagRange, AllocError>
        ensures { IfOk result (λ range. range ≡ self.now) }
    {
        match self {
            EntityTagRange::Any => Ok(EntityTagRange::Any),
            EntityTagRange::Tags(tags) => Ok(EntityTagRange::Tags(tags.clone(alloc)?)),
        }
    }

    /// Returns whether the range is `*`, or has a tag that is strongly equal to this tag.
    pub fn matches_strong(&self, tag: &EntityTag) -> bool
        ensures { IsTrue result ↔ Matches StronglyEqual self.now tag.now.bytes }
    {
        match self {
            EntityTagRange::Any => true,
            EntityTagRange::Tags(tags) => tags.iter().any(|item| is_strongly_equal(item, tag)),
        }
    }

    /// Returns whether the range is `*`, or has a tag that is weakly equal to this tag.
    pub fn matches_weak(&self, tag: &EntityTag) -> bool
        ensures { IsTrue result ↔ Matches WeaklyEqual self.now tag.now.bytes }
    {
        match self {
            EntityTagRange::Any => true,
            EntityTagRange::Tags(tags) => tags.iter().any(|item| is_weakly_equal(item, tag)),
        }
    }
}

impl FieldForm for EntityTagRange {
    ghost use Rattle.std.specs.Prelude.{false};
    ghost use Rattle.headers_core.specs.EntityTagRangeLaws.{range_back};

    ghost free = { false };

    ghost Kept = { Range };

    ghost grammar = { tags_grammar };

    ghost reads_back = { range_back };

    fn read_lines<I: Iterator>(
        alloc: Global,
        lines: &mut I,
    ) -> Result<EntityTagRange, Refused<Error>>
    where
        I::Item: AsHeaderValue,
    {
        Ok(EntityTagRange::from_lines(alloc, lines)?)
    }

    fn write_lines(&self, alloc: Global, values: &mut Vec<HeaderValue>) -> Result<(), AllocError> {
        values.push(self.to_value(alloc)?)?;
        Ok(())
    }
}

/// Theorem: every range survives a round trip, unless it is a list whose only byte is `*`.
#[tactic(auto, using(crate::specs::EntityTagRangeLaws::built_back))]
pub fn tag_ranges_read_back()
    ensures { (range : Range) → ReadsBy tags_grammar (written_by tags_grammar range) range ↔ range ≢ Tags star }
{}
