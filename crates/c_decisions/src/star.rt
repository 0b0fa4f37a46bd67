//! Lists of values, where a star means any.
ghost use Rattle.std.specs.Prelude.{◌≡◌};
ghost use Rattle.headers.specs.Lines.{lines_of};
ghost use Rattle.c_decisions.specs.Star.{is_any};

use headers::HeaderValue;

/// Returns whether the only line is a star.
pub fn is_any(lines: &[HeaderValue]) -> bool
    ensures { result ≡ is_any (lines_of lines.now) }
{
    match lines {
        [line] => line.as_bytes() == b"*".as_slice(),
        _ => false,
    }
}
