//! The methods of requests.
ghost use Rattle.std.specs.Bool.{MatchBool};
ghost use Rattle.cache_policy.specs.Requests.{AllowsMethod, IsSafe};

use decide_preconditions::is_get_or_head;
use http::Method;

// Whether a response to the stored method may answer a request with the other one.
pub(crate) fn allows_method(stored: &Method, method: &Method) -> bool
    ensures { MatchBool result (AllowsMethod stored.now method.now) (¬ (AllowsMethod stored.now method.now)) }
{
    (*stored == Method::GET && is_get_or_head(method))
        || (*stored == Method::HEAD && *method == Method::HEAD)
}

// Whether the method is safe.
pub(crate) fn is_safe(method: &Method) -> bool
    ensures { MatchBool result (IsSafe method.now) (¬ (IsSafe method.now)) }
{
    method.is_safe()
}
