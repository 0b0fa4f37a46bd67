//! How often a request may still be forwarded.
ghost use Rattle.std.specs.Prelude.{◌≡◌, ◌+◌, IfOk, MatchOption, OnErr, Some, option_map};
ghost use Rattle.headers.specs.LineMap.{lines_at};
ghost use Rattle.gateway_messages.specs.Hops.{HasHops, HasInvalidHops, counts_hops};

use headers::HeaderMap;
use http::Method;
use http_header::MAX_FORWARDS;
use rfc_fields::{Malformed, number};

// Whether Max-Forwards counts for the method.
fn counts_hops(method: &Method) -> bool
    ensures { result ≡ counts_hops method.now }
{
    let method = method.as_str();
    method == "OPTIONS" || method == "TRACE"
}

/// The number in Max-Forwards of a request once it is forwarded, or `None` if it may be forwarded no
/// more.
pub(crate) fn one_less(hops: Option<u64>) -> Option<Option<u64>>
    ensures { MatchOption result (hops ≡ Some 0) (λ left. hops ≡ option_map (λ n. n + 1) left) }
{
    match hops {
        None => Some(None),
        Some(0) => None,
        Some(hops) => Some(Some(hops - 1)),
    }
}

/// The number in Max-Forwards, if it counts and is there.
pub(crate) fn hops_of(method: &Method, fields: &HeaderMap) -> Result<Option<u64>, Malformed>
    ensures ok { IfOk result (HasHops method.now (lines_at fields.now)) }
    ensures err { OnErr result (HasInvalidHops method.now (lines_at fields.now)) }
{
    if !counts_hops(method) {
        return Ok(None);
    }
    let mut lines = fields.get_all(MAX_FORWARDS).iter();
    let Some(line) = lines.next() else {
        return Ok(None);
    };
    if lines.next().is_some() {
        return Err(Malformed);
    }
    match number(line.as_bytes()) {
        Some(hops) => Ok(Some(hops)),
        None => Err(Malformed),
    }
}
