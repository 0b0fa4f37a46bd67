//! What a cache does if the origin fails.
ghost use Rattle.std.specs.Bool.{MatchBool};
ghost use Rattle.cache_rules.specs.Errors.{Failed, ServesOnError};

use cache_policy::Decision;
use http::StatusCode;

/// Returns whether a stored response answers the request although the origin was to be asked,
/// because that failed (RFC 5861, section 4). `decision` is the decision at the time of the
/// failure, which is `RevalidateOrServe`, and the origin sent no response, or one with 500, 502,
/// 503 or 504.
pub fn serves_on_error(decision: Decision, status: Option<StatusCode>) -> bool
    ensures { MatchBool result (ServesOnError decision status) (¬ (ServesOnError decision status)) }
{
    decision == Decision::RevalidateOrServe && has_failed(status)
}

// Whether the origin failed.
fn has_failed(status: Option<StatusCode>) -> bool
    ensures { MatchBool result (Failed status) (¬ (Failed status)) }
{
    match status {
        Some(status) => {
            let code = status.as_u16();
            code == 500 || code == 502 || code == 503 || code == 504
        }
        None => true,
    }
}
