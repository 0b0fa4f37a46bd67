//! Field lines put into a header map.
ghost use Rattle.std.specs.Prelude.{◌≡◌, ◌≢◌, ◌<◌, ◌≤◌, ℕ, List, length, IsOk, OnOk, OnErr, IsErrOf};
ghost use Rattle.http_header.specs.HeaderMap.{get_all, RefusesAppend};
ghost use Rattle.headers_syntax.specs.Lines.{lines_of};
ghost use Rattle.headers_map.{specs.LineMap.{lines_at, put}, specs.InsertErrors.KeepsOrBegins};

use http_header::{HeaderMap, HeaderMapError, HeaderName, HeaderValue};
use std::alloc::AllocError;
use std::error::Error;
use std::fmt;

/// Why field lines could not be put into a header map.
#[derive(Clone, Copy, Debug, PartialEq, Eq)]
pub enum InsertError {
    /// Out of memory: an allocation failed.
    Memory,
    /// The map has no room for the lines: it has as many names or values as it can hold.
    Full,
}

impl fmt::Display for InsertError {
    ghost use Rattle.std.specs.Prelude.{Some};
    ghost use Rattle.headers_map.specs.InsertErrors.{insert_error_text};

    ghost output = { λ e. Some (insert_error_text e) };

    fn fmt<W: fmt::Write>(&self, f: &mut fmt::Formatter<W>) -> fmt::Result {
        f.write_str(match self {
            InsertError::Memory => "out of memory",
            InsertError::Full => "max size reached",
        })
    }
}

impl Error for InsertError {}

impl From<AllocError> for InsertError {
    ghost use Rattle.headers_map.specs.declared.insert.InsertError.TheVariants.{Memory};

    ghost from_gives = { λ _ e. e ≡ Memory };

    fn from(_error: AllocError) -> InsertError {
        InsertError::Memory
    }
}

impl From<HeaderMapError> for InsertError {
    ghost use Rattle.headers_map.specs.InsertErrors.{insert_error_of};

    ghost from_gives = { λ e r. r ≡ insert_error_of e };

    fn from(error: HeaderMapError) -> InsertError {
        match error {
            HeaderMapError::MaxSizeReached => InsertError::Full,
            HeaderMapError::OutOfMemory => InsertError::Memory,
        }
    }
}

// Replaces all lines under the name by these. Without a line the map stays as it was.
pub(crate) fn put_lines(
    map: &mut HeaderMap,
    name: &HeaderName,
    lines: Vec<HeaderValue>,
) -> Result<(), InsertError>
    ensures ok { OnOk result ((other : List ℕ)
        → lines_at map.new other ≡ put (lines_at map.old) name.now (lines_of lines.items) other) }
    ensures others { (other : List ℕ) → name.now ≢ other → get_all map.new other ≡ get_all map.old other }
    ensures left { OnErr result (KeepsOrBegins map.old map.new name.now (lines_of lines.items)) }
    ensures full { IsErrOf result InsertError.Full → RefusesAppend map.new name.now }
    ensures replaces { 0 < length (get_all map.old name.now) → length lines.items ≤ 1 → IsOk result }
{
    let mut left = lines.into_iter();
    let Some(first) = left.next() else {
        return Ok(());
    };
    map.insert(name, first)?;
    while let Some(line) = left.next() {
        map.append(name, line)?;
    }
    Ok(())
}
