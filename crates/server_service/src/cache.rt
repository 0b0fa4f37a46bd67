//! Cache-Control of an answer.
ghost use Rattle.std.specs.Prelude.{◌≡◌, ◌++◌, OnOk};
ghost use Rattle.server_service.specs.Answer.{cache_fields, cache_sent, is_reusable, is_stored};
ghost use Rattle.server_service.specs.Response.{fields_of};

use decide_preconditions::Plan;
use decide_resource::Sends;
use headers::HeaderValue;
use http_header::CACHE_CONTROL;
use server_connection::ResponsePlan as Response;
use std::alloc::AllocError;

// Whether a cache may use the answer again.
fn is_reusable(plan: &Plan) -> bool
    ensures { result ≡ is_reusable plan.now }
{
    match plan {
        Plan::Full | Plan::Single(_) | Plan::Multiple(_) | Plan::NotModified => true,
        Plan::Failed | Plan::Unsatisfiable => false,
    }
}

fn put_value(value: &Option<HeaderValue>, response: &mut Response) -> Result<(), AllocError>
    ensures headers { OnOk result (fields_of response.new ≡ fields_of response.old ++ cache_fields value.now) }
    ensures pieces { response.new.pieces.items ≡ response.old.pieces.items }
{
    match value {
        Some(value) => response.add_header(CACHE_CONTROL, value.clone()?),
        None => Ok(()),
    }
}

// Whether a cache may use what is sent again.
fn is_stored(sends: &Sends) -> bool
    ensures { result ≡ is_stored sends.now }
{
    match sends {
        Sends::Planned(_, plan) => is_reusable(plan),
        Sends::Nothing | Sends::Alternatives | Sends::Perform => false,
    }
}

/// Adds Cache-Control, if it is asked for, to an answer that a cache may use again.
pub(crate) fn put_cache_control(
    value: &Option<HeaderValue>,
    sends: &Sends,
    response: &mut Response,
) -> Result<(), AllocError>
    ensures headers { OnOk result (fields_of response.new
        ≡ fields_of response.old ++ cache_sent sends.now value.now) }
    ensures pieces { response.new.pieces.items ≡ response.old.pieces.items }
{
    if !is_stored(sends) {
        return Ok(());
    }
    put_value(value, response)
}
