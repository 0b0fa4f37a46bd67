//! Theorems for every header, from the laws of `Header` alone.
ghost use Rattle.std.specs.Prelude.{◌≡◌, ◌↔◌, List, IsTrue};
ghost use Rattle.headers_syntax.{specs.Lines.{Line, lines_of}, specs.DecodesTo.DecodesTo, specs.Refusal.NeverMemory};

use crate::header::Header;
use headers_syntax::{Error, Refused};
use http_header::HeaderValue;
use std::alloc::Global;

/// Decodes a slice of field lines: `Invalid` if they encode no value, `Memory` if an allocation
/// fails.
pub fn decode_values<H: Header>(alloc: Global, values: &[HeaderValue]) -> Result<H, Refused<Error>>
    ensures value { DecodesTo H.reads (lines_of values.now) result }
    ensures memory { IsTrue H.free → NeverMemory result }
{
    H::decode(alloc, &mut values.iter())
}

/// Theorem: two decoded values are the same exactly if their encodings are equal.
pub fn same_by_writes<H: Header>()
    ensures { (lines others : List Line) (v w : H) → H.reads lines v → H.reads others w
        → (H.same v w ↔ (H.writes v ≡ H.writes w)) }
{}

/// Theorem: encoding a decoded value again changes nothing. The encoding decodes to the same value,
/// and any value that it decodes to has this encoding.
pub fn encodes_as_before<H: Header>()
    ensures reads { (lines : List Line) (v : H) → H.reads lines v → H.reads (H.writes v) v }
    ensures writes { (lines : List Line) (v w : H) → H.reads lines v → H.reads (H.writes v) w
        → H.writes w ≡ H.writes v }
{}
