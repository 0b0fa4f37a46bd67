//! Which requests invalidate stored responses.
ghost use Rattle.std.specs.Bool.{MatchBool};
ghost use Rattle.cache_rules.specs.Invalidation.{Invalidates};

use http::{Method, StatusCode};

/// Returns whether the response to a request invalidates what is stored for its target (RFC 9111,
/// section 4.4): the method isn't known to be safe, and the status is 2xx or 3xx.
pub fn invalidates(method: &Method, status: StatusCode) -> bool
    ensures { MatchBool result (Invalidates method.now status) (¬ (Invalidates method.now status)) }
{
    let code = status.as_u16();
    !method.is_safe() && 200 <= code && code < 400
}
