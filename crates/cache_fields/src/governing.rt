//! The directives that govern a response.
ghost use Rattle.std.specs.Prelude.{◌≡◌};
ghost use Rattle.headers_map.specs.LineMap.{lines_at};
ghost use Rattle.cache_fields.{specs.Freshness.by_itself, specs.Targets.governing};

use crate::directives::{Directives, read_directives};
use crate::targets::told;
use http_header::{HeaderMap, HeaderName};

/// What governs a response in a cache: its Cache-Control and Expires, or a targeted field instead
/// of them (RFC 9213, section 2.2).
#[derive(Clone, Copy, Debug)]
pub struct Governing {
    /// The directives.
    pub directives: Directives,
    /// Whether Expires counts, since no targeted field replaces it.
    pub by_expires: bool,
}

fn by_itself(response: &HeaderMap) -> Governing
    ensures { result ≡ by_itself (lines_at response.now) }
{
    Governing {
        directives: read_directives(response),
        by_expires: true,
    }
}

/// What governs a response in a cache with these targeted fields, the most applicable first: the first
/// one that the response has, valid and not empty, or else its Cache-Control and Expires (RFC 9213,
/// section 2.2).
pub fn read_governing(targets: &[HeaderName], response: &HeaderMap) -> Governing
    ensures { result ≡ governing targets.now (lines_at response.now) }
{
    match told(targets, response) {
        Some(directives) => Governing {
            directives,
            by_expires: false,
        },
        None => by_itself(response),
    }
}
