//! Flags of `cache-control` that the header has no call for.
ghost use Rattle.std.specs.Prelude.{◌≡◌};
ghost use Rattle.headers.{specs.CacheControl.is_set, specs.Lines.lines_of};
ghost use Rattle.headers_items.specs.Entries.{entries, line_entries};

use headers::HeaderValue;
use headers_core::{Entries, same_but_for_case};

// Whether an entry of the line is the flag.
fn is_set_in(line: &HeaderValue, flag: &str) -> bool
    ensures { result ≡ is_set flag.now (line_entries line.now.bytes) }
{
    Entries::new(line).any(|entry| same_but_for_case(entry, flag))
}

/// Whether an entry of some line is the flag, ignoring the case of ASCII letters (RFC 9111, section
/// 5.2).
pub fn has_flag(lines: &[HeaderValue], flag: &str) -> bool
    ensures { result ≡ is_set flag.now (entries (lines_of lines.now)) }
{
    lines.iter().any(|line| is_set_in(line, flag))
}
