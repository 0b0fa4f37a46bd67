//! Policies and resources that are made once, behind handles.
ghost use Rattle.std.specs.Prelude.{◌≡◌, None};
ghost use Rattle.c_decisions.specs.Cors.{WritesShared};
ghost use Rattle.c_handles.{specs.Handles.{Opens, policy_in, resource_in, section_in}, specs.Policies.IsPolicyHeld};
ghost use Rattle.c_handles.specs.Views.{IsSame};
ghost use Rattle.c_handles.{specs.Policies.SharesBetween, specs.Resources.{AnswersBetween, IsResourceHeld}};
ghost use Rattle.c_library.{specs.CacheStore.Ends, specs.Responses.WritesAnswer};

use crate::response::worse;
use crate::store::ended;
use c_decisions::{BytesRange, CorsFacts, Rules};
use c_handles::{
    CorsExchange, Handle, View, answer_as_resource, answer_cross_origin, close, open_policy,
    open_resource,
};
use c_parts::{DONE, HashKeys, copy_into};
use c_resource::{AnswerFacts, DenialParts, RepresentationParts, RequestParts, ResourceParts};
use std::alloc::Global;

/// Opens a closed handle with the policy of these rules. Rejected also if the handle is open.
#[unsafe(no_mangle)]
pub extern "C" fn typed_headers_cors_policy_new(
    alloc: Global,
    policy: &mut Handle,
    rules: &Rules<'_>,
) -> u8
    ensures { Ends (Opens (IsPolicyHeld rules.entry.now) policy.old.held policy.new.held) result }
{
    ended(open_policy(alloc, policy, rules))
}

/// Closes the handle of a policy, and frees what it has.
#[unsafe(no_mangle)]
pub extern "C" fn typed_headers_cors_policy_free(alloc: Global, policy: &mut Handle) -> u8
    ensures { (result ≡ 0) × (policy.new.held ≡ None) }
{
    close(alloc, policy);
    DONE
}

/// Gives the field lines with which a policy answers a cross-origin request with these fields (Fetch
/// standard, "CORS protocol"), for a response with these.
#[unsafe(no_mangle)]
pub extern "C" fn typed_headers_cors_policy_answer(
    alloc: Global,
    policy: &mut View,
    fields: &mut View,
    exchange: &CorsExchange<'_>,
    keys: &HashKeys,
    facts: &mut CorsFacts,
    room: &mut [u8],
    written: &mut usize,
) -> u8
    ensures same_policy { IsSame policy.old policy.new }
    ensures same_fields { IsSame fields.old fields.new }
    ensures answer { WritesShared
        (SharesBetween exchange.now (policy_in policy.old.held) (section_in fields.old.held))
        facts.old facts.new room.old room.new written.old written.new result }
{
    match answer_cross_origin(alloc, policy, fields, exchange, keys) {
        Ok(shared) => {
            *facts = shared.facts;
            copy_into(shared.text.as_slice(), DONE, room, written)
        }
        Err(failure) => failure.status(),
    }
}

/// Opens a closed handle with what a server knows of a target. Rejected also if the handle is open.
#[unsafe(no_mangle)]
pub extern "C" fn typed_headers_resource_handle_new(
    alloc: Global,
    handle: &mut Handle,
    resource: &ResourceParts<'_>,
    representations: &[RepresentationParts],
    rules: &Rules<'_>,
) -> u8
    ensures { Ends (Opens (IsResourceHeld resource.entry.now representations.now rules.entry.now)
        handle.old.held handle.new.held) result }
{
    ended(open_resource(alloc, handle, resource, representations, rules))
}

/// Closes the handle of a resource, and frees what it has.
#[unsafe(no_mangle)]
pub extern "C" fn typed_headers_resource_handle_free(alloc: Global, handle: &mut Handle) -> u8
    ensures { (result ≡ 0) × (handle.new.held ≡ None) }
{
    close(alloc, handle);
    DONE
}

/// The whole answer of a resource to a request with these fields (RFC 9110, sections 7.4 to 15): its
/// status, what it sends, and its field lines.
#[unsafe(no_mangle)]
pub extern "C" fn typed_headers_resource_handle_answer(
    alloc: Global,
    handle: &mut View,
    fields: &mut View,
    request: &RequestParts<'_>,
    denial: &DenialParts<'_>,
    facts: &mut AnswerFacts,
    parts: &mut [BytesRange],
    parts_written: &mut usize,
    room: &mut [u8],
    written: &mut usize,
) -> u8
    ensures same_resource { IsSame handle.old handle.new }
    ensures same_fields { IsSame fields.old fields.new }
    ensures answer { WritesAnswer
        (AnswersBetween request.now denial.now (resource_in handle.old.held) (section_in fields.old.held))
        facts.old facts.new parts.old parts.new parts_written.old parts_written.new
        room.old room.new written.old written.new result }
{
    match answer_as_resource(alloc, handle, fields, request, denial) {
        Ok(answered) => {
            *facts = answered.facts;
            let one = copy_into(answered.parts.as_slice(), DONE, parts, parts_written);
            let other = copy_into(answered.text.as_slice(), DONE, room, written);
            worse(one, other)
        }
        Err(failure) => failure.status(),
    }
}
