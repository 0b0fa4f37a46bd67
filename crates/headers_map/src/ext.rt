//! Typed reads and inserts as methods of a header map.
ghost use Rattle.std.specs.Prelude.{◌≡◌, ◌≢◌, ℕ, List, IsTrue, OnOk, IfErr, IfSome, IfNone};
ghost use Rattle.http_header.{specs.FieldValue.FieldValue, specs.HeaderMap.{Entries, get_all}};
ghost use Rattle.headers_syntax.specs.Refusal.{NeverMemory};
ghost use Rattle.headers_map.{specs.LineMap.{lines_at, put}, specs.InsertErrors.IsRefusedPut, specs.Typed.HasLine};
ghost use Rattle.headers_map.specs.Typed.{IsTypedRead, ReadsNothing};

use crate::encoded::{Encoded, encoding};
use crate::insert::{InsertError, put_lines};
use headers_core::{Error, Header, Refused};
use http_header::HeaderMap;
use std::alloc::Global;

mod sealed {
    pub trait Sealed {}

    impl Sealed for http_header::HeaderMap {}
}

/// Typed reads and inserts as methods of a header map.
pub trait HeaderMapExt: sealed::Sealed {
    // The names of the map, each with its values.
    ghost entries: { Self → Entries FieldValue };

    /// Replaces all field lines of a header in the map by the encoding of this one. If the encoding
    /// has no line, the map is unchanged. The errors are `Memory` and `Full`; then the field has
    /// its old lines, or a beginning of the new ones. Other fields never change.
    fn typed_insert<H: Header>(&mut self, alloc: Global, header: H) -> Result<(), InsertError>
        ensures ok { OnOk result ((name : List ℕ) → lines_at (entries self.new) name
            ≡ put (lines_at (entries self.old)) H.field_name (H.writes header) name) }
        ensures others { (name : List ℕ) → H.field_name ≢ name
            → get_all (entries self.new) name ≡ get_all (entries self.old) name }
        ensures err { IfErr result
            (IsRefusedPut (entries self.old) (entries self.new) H.field_name (H.writes header)) };

    /// Decodes a header from the map. `None` if the map has no line of the field, if the lines
    /// encode no value, or if an allocation fails. `typed_try_get` tells these apart.
    fn typed_get<H: Header>(&self, alloc: Global) -> Option<H>
        ensures some { IfSome result (λ value. HasLine (lines_at (entries self.now) H.field_name)
            × H.reads (lines_at (entries self.now) H.field_name) value) }
        ensures none { IsTrue H.free → IfNone result
            (ReadsNothing H.reads (lines_at (entries self.now) H.field_name)) };

    /// Decodes a header from the map: `Ok(None)` if the map has no line of the field. `Invalid` if
    /// the lines encode no value, `Memory` if an allocation fails.
    fn typed_try_get<H: Header>(&self, alloc: Global) -> Result<Option<H>, Refused<Error>>
        ensures value { IsTypedRead H.reads (lines_at (entries self.now) H.field_name) result }
        ensures memory { IsTrue H.free → NeverMemory result };
}

impl HeaderMapExt for HeaderMap {
    ghost entries = { λ map. map };

    fn typed_insert<H: Header>(&mut self, alloc: Global, header: H) -> Result<(), InsertError> {
        let Encoded { name, lines } = encoding(alloc, &header)?;
        put_lines(self, &name, lines)
    }

    fn typed_get<H: Header>(&self, alloc: Global) -> Option<H> {
        self.typed_try_get(alloc).ok()?
    }

    fn typed_try_get<H: Header>(&self, alloc: Global) -> Result<Option<H>, Refused<Error>> {
        let all = self.get_all(H::name());
        if all.iter().next().is_none() {
            return Ok(None);
        }
        match H::decode(alloc, &mut all.iter()) {
            Ok(value) => Ok(Some(value)),
            Err(refused) => Err(refused),
        }
    }
}
