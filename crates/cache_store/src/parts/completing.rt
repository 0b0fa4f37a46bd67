//! How a cache asks for what a stored part lacks.
ghost use Rattle.std.specs.Prelude.{[], ◌<◌, ◌∷◌, ◌≡◌, codes, IfOk, IsSome, OnErr, option_map, Some};
ghost use Rattle.headers.specs.{ByteRanges.bytes_from_to, LineMap.{field_of, lines_at}};
ghost use Rattle.cache_store.specs.Parts.{Completing.{IsCompletedBy, lacking}, Extents.strong_tag};

use crate::parts::extent::{Extent, strong_tag};
use headers::{Encoded, HeaderMap, Range, Refused, encoding};
use http_header::IF_RANGE;
use std::alloc::{AllocError, Global};
use std::ops::Bound;

/// What a part lacks of the whole, if it lacks something (RFC 9111, section 3.3): what stands before it,
/// or else what stands after it. Both aren't asked for at once, since several ranges would come as one
/// response with several parts.
pub fn lacking(extent: &Extent) -> Option<Extent>
    requires { extent.now.last < extent.now.len }
    ensures { result ≡ lacking extent.now }
{
    if 0 < extent.first {
        Some(Extent {
            first: 0,
            last: extent.first - 1,
            len: extent.len,
        })
    } else if extent.last + 1 < extent.len {
        Some(Extent {
            first: extent.last + 1,
            last: extent.len - 1,
            len: extent.len,
        })
    } else {
        None
    }
}

// Range with this part.
fn range_field(alloc: Global, part: &Extent) -> Result<Encoded, AllocError>
    ensures { IfOk result (λ field. field_of field
        ≡ (codes "range", bytes_from_to part.now.first (Some part.now.last) ∷ [])) }
{
    let bounds = (Bound::Included(part.first), Bound::Included(part.last));
    match Range::bytes(alloc, bounds) {
        Ok(range) => encoding(alloc, &range),
        Err(Refused::Memory(refused)) => Err(refused),
        Err(Refused::Invalid(_)) => unreachable!(),
    }
}

/// The fields by which the origin is asked for a part that a stored one lacks, for `set_all` on the
/// request's own (RFC 9111, section 3.3): Range with the part, and If-Range with the entity tag of the
/// stored response. So a 206 to it can be combined with the stored part, and if the representation has
/// changed a 200 has all of the new one (RFC 9110, section 13.1.5).
///
/// `None` if the stored response has no strong validator.
pub fn completing_fields(
    alloc: Global,
    stored: &HeaderMap,
    part: &Extent,
) -> Result<Option<Vec<Encoded>>, AllocError>
    ensures fields { IfOk result (λ found.
        IsCompletedBy (lines_at stored.now) part.now (option_map (λ v. v.items) found)) }
    ensures memory { OnErr result (IsSome (strong_tag (lines_at stored.now))) }
{
    let Some(tag) = strong_tag(stored) else {
        return Ok(None);
    };
    let range = range_field(alloc, part)?;
    let if_range = Encoded {
        name: IF_RANGE,
        lines: vec![in alloc; tag.clone()?]?,
    };
    Ok(Some(vec![in alloc; range, if_range]?))
}
