//! What a policy answers a request from another origin.
ghost use Rattle.c_handles.{specs.Handles.{policy_in, section_in}, specs.Policies.{SharesBetween, SharesOf}};
ghost use Rattle.c_handles.specs.Views.{IsSame};

use crate::view::{Lent, View};
use c_decisions::{PolicyAnswer, read_method, show_shared};
use c_parts::{Failure, HashKeys, read_map};
use decide_cors::{CorsPolicy, RequestHead};
use headers::HeaderMap;
use std::alloc::Global;

/// The method of a request from another origin, and the response to it, as C passes them in.
#[repr(C)]
#[derive(Clone, Copy)]
pub struct CorsExchange<'a> {
    /// The method of the request.
    pub method: &'a [u8],
    /// The header section of the response.
    pub response: &'a [u8],
}

fn answer_of(
    alloc: Global,
    policy: &CorsPolicy,
    fields: &HeaderMap,
    exchange: &CorsExchange<'_>,
    keys: &HashKeys,
) -> Result<PolicyAnswer, Failure>
    ensures { SharesOf exchange.now policy.now fields.now result }
{
    let method = read_method(alloc, exchange.method)?;
    let response = read_map(alloc, exchange.response, keys)?;
    let request = RequestHead {
        method: &method,
        fields,
    };
    let answer = policy.answer(alloc, &request, &response)?;
    Ok(show_shared(alloc, &answer)?)
}

fn answer_in(
    alloc: Global,
    policy: &Lent,
    request: &Lent,
    exchange: &CorsExchange<'_>,
    keys: &HashKeys,
) -> Result<PolicyAnswer, Failure>
    ensures { SharesBetween exchange.now (policy_in policy.now.loan.held) (section_in request.now.loan.held) result }
{
    let Some(policy) = policy.policy() else {
        return Err(Failure::Absent);
    };
    match request.section() {
        Some(fields) => answer_of(alloc, policy, fields, exchange, keys),
        None => Err(Failure::Absent),
    }
}

/// The answer of a policy to a cross-origin request with these fields (Fetch standard, "CORS
/// protocol"), for a response with these.
pub fn answer_cross_origin(
    alloc: Global,
    policy: &mut View,
    request: &mut View,
    exchange: &CorsExchange<'_>,
    keys: &HashKeys,
) -> Result<PolicyAnswer, Failure>
    ensures same_policy { IsSame policy.old policy.new }
    ensures same_request { IsSame request.old request.new }
    ensures answer { SharesBetween exchange.now (policy_in policy.old.held) (section_in request.old.held) result }
{
    let by = policy.take();
    let asked = request.take();
    let answer = answer_in(alloc, &by, &asked, exchange, keys);
    policy.put(by);
    request.put(asked);
    answer
}
