//! Theorems about typed reads and inserts for every header, from the laws of `Header` alone.
ghost use Rattle.std.specs.Prelude.{◌≡◌, ℕ, List, Option, Result};
ghost use Rattle.headers_syntax.specs.Lines.{Line};
ghost use Rattle.headers_map.{specs.LineMap.{LineMap, put, run, last, last_step}, specs.Typed.{HasLine, IsTypedRead}};
ghost use Rattle.headers_map.{specs.Canonical.IsCanonicalRead, specs.LastRead.{GivesSame, IsLastRead, IsLastCanonical}};

use crate::encoded::Encoded;
use crate::steps::Step;
use headers_core::{Error, Header, Refused};

/// Theorem: after any list of steps, a typed read decodes the lines that were put last. Those are
/// the last lines, at least one, that were put for the field; if none were put, the lines from
/// before the steps. If they encode a decoded value, the read returns that value, and `canonical`
/// the same lines.
pub fn reads_the_last_put<H: Header>()
    ensures lines { (map : LineMap) (steps : List Step) (name : List ℕ)
        → run map steps name ≡ last map steps name }
    ensures typed { (map : LineMap) (steps : List Step) (read : Result (Option H) (Refused Error))
        → IsTypedRead H.reads (run map steps H.field_name) read
        → IsLastRead H.same H.reads H.writes (map H.field_name) (last_step steps H.field_name) read }
    ensures canonical { (map : LineMap) (steps : List Step) (read : Result (Option Encoded) (Refused Error))
        → IsCanonicalRead H.field_name H.reads H.writes (run map steps H.field_name) read
        → IsLastCanonical H.field_name H.reads H.writes (map H.field_name)
        (last_step steps H.field_name) read }
{}

/// Theorem: after a typed insert of a decoded value, a typed read returns that value. The encoding
/// of the value must have at least one line.
pub fn reads_the_inserted<H: Header>()
    ensures { (map : LineMap) (from : List Line) (v : H) (read : Result (Option H) (Refused Error))
        → H.reads from v → HasLine (H.writes v)
        → IsTypedRead H.reads (put map H.field_name (H.writes v) H.field_name) read
        → GivesSame H.same v read }
{}
