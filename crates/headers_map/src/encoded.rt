//! A field as data: its name and its field lines.
ghost use Rattle.std.specs.Prelude.{◌≡◌, IsTrue, IfOk};
ghost use Rattle.headers_syntax.{specs.Lines.lines_of, specs.Refusal.NeverMemory};
ghost use Rattle.headers_map.{specs.LineMap.lines_at, specs.Typed.ReadsNothing, specs.Canonical.IsCanonicalRead};

use crate::ext::HeaderMapExt;
use headers_core::{Error, Header, Refused};
use http_header::{HeaderMap, HeaderName, HeaderValue};
use std::alloc::{AllocError, Global};

/// A field as data: a field name, and the field lines for it.
#[derive(Debug, Drop)]
pub struct Encoded {
    /// The field name.
    pub name: HeaderName,
    /// The field lines, in order.
    pub lines: Vec<HeaderValue>,
}

/// Encodes a header as data: its field name, and the field lines that encode it. Fails only if an
/// allocation fails.
pub fn encoding<H: Header>(alloc: Global, header: &H) -> Result<Encoded, AllocError>
    ensures name { IfOk result (λ e. e.name ≡ H.field_name) }
    ensures lines { IfOk result (λ e. lines_of e.lines.items ≡ H.writes header.now) }
{
    let mut lines = Vec::new(alloc);
    header.encode(alloc, &mut lines)?;
    Ok(Encoded {
        name: H::name(),
        lines,
    })
}

/// Decodes a header from a map, and encodes it again. `Ok(None)` if the map has no line of the
/// field, `Invalid` if the lines encode no value, `Memory` if an allocation fails.
pub fn canonical<H: Header>(
    alloc: Global,
    map: &HeaderMap,
) -> Result<Option<Encoded>, Refused<Error>>
    ensures value { IsCanonicalRead H.field_name H.reads H.writes (lines_at map.now H.field_name) result }
    ensures memory { IsTrue H.free → ReadsNothing H.reads (lines_at map.now H.field_name)
        → NeverMemory result }
{
    match map.typed_try_get::<H>(alloc) {
        Ok(Some(value)) => Ok(Some(encoding(alloc, &value)?)),
        Ok(None) => Ok(None),
        Err(refused) => Err(refused),
    }
}
