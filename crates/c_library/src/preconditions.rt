//! The preconditions of a request.
ghost use Rattle.c_parts.specs.Endings.{Gives};
ghost use Rattle.c_decisions.specs.Evaluations.{Evaluates};

use crate::giving::give;
use c_decisions::{RequestTexts, TargetFacts, evaluate_request};
use c_parts::HashKeys;
use std::alloc::Global;

/// Evaluates the preconditions of a request (RFC 9110, section 13.2.2): 0 if the method is
/// performed, 304 or 412.
#[unsafe(no_mangle)]
pub extern "C" fn typed_headers_evaluate(
    alloc: Global,
    request: &RequestTexts<'_>,
    keys: &HashKeys,
    target: &TargetFacts<'_>,
    answer: &mut u16,
) -> u8
    ensures { Gives (Evaluates request.now target.now) answer.old answer.new result }
{
    give(evaluate_request(alloc, request, keys, target), answer)
}
