//! A server's answer to a cross-origin request.
ghost use Rattle.std.specs.Prelude.{◌≡◌, IfOk};
ghost use Rattle.c_decisions.specs.Cors.{IsShownAnswer, Shares, SharesBy, kind_number};

use crate::field_lines::fields_text;
use crate::flag::flag_of;
use crate::method::read_method;
use crate::request::RequestTexts;
use crate::rules::{Rules, read_policy};
use c_parts::{Failure, HashKeys, read_map};
use decide_cors::{CorsAnswer, CorsKind, CorsPolicy, RequestHead};
use std::alloc::{AllocError, Global};

/// The answer of a policy to a request, as numbers.
#[repr(C)]
#[derive(Clone, Copy)]
pub struct CorsFacts {
    /// 0 if the request has no `Origin`; 2 if it is a preflight; else 1.
    pub kind: u8,
    /// 1 if the policy allows its origin, or if it has none, else 0.
    pub is_allowed: u8,
}

/// The answer of a policy to a request, and the field lines for the response.
#[derive(Drop)]
pub struct PolicyAnswer {
    pub facts: CorsFacts,
    pub text: Vec<u8>,
}

/// The answer of the policy of these rules to a cross-origin request (Fetch standard, "CORS protocol"), for a
/// response with these fields.
pub fn answer_by_rules(
    alloc: Global,
    rules: &Rules<'_>,
    request: &RequestTexts<'_>,
    response: &[u8],
    keys: &HashKeys,
) -> Result<PolicyAnswer, Failure>
    ensures { Shares rules.now request.now response.now result }
{
    let policy = read_policy(alloc, rules)?;
    answer_by(alloc, &policy, request, response, keys)
}

// The same of a policy, which is borrowed: dropped at each `?`, it would split the goals that follow.
fn answer_by(
    alloc: Global,
    policy: &CorsPolicy,
    request: &RequestTexts<'_>,
    response: &[u8],
    keys: &HashKeys,
) -> Result<PolicyAnswer, Failure>
    ensures { SharesBy policy.now request.now response.now result }
{
    let method = read_method(alloc, request.method)?;
    let fields = read_map(alloc, request.section, keys)?;
    let response = read_map(alloc, response, keys)?;
    let head = RequestHead {
        method: &method,
        fields: &fields,
    };
    let answer = policy.answer(alloc, &head, &response)?;
    Ok(show_shared(alloc, &answer)?)
}

/// What an answer says of its request, and its field lines.
pub fn show_shared(alloc: Global, answer: &CorsAnswer) -> Result<PolicyAnswer, AllocError>
    ensures { IfOk result (IsShownAnswer answer.now) }
{
    let facts = CorsFacts {
        kind: kind_number(answer.kind),
        is_allowed: flag_of(answer.is_allowed),
    };
    let text = fields_text(alloc, answer.fields.as_slice())?;
    Ok(PolicyAnswer { facts, text })
}

fn kind_number(kind: CorsKind) -> u8
    ensures { result ≡ kind_number kind }
{
    match kind {
        CorsKind::NoOrigin => 0,
        CorsKind::Plain => 1,
        CorsKind::Preflight => 2,
    }
}
