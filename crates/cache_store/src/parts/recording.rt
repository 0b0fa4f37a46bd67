//! How a part is stored.
ghost use Rattle.std.specs.Prelude.{◌<◌, ◌≡◌, IfOk, IsErrOf};
ghost use Rattle.cache_rules.specs.Fields.{IsTooSmallFor};
ghost use Rattle.cache_store.specs.Parts.{Extents.extent_fields, Received.IsRecorded};

use crate::parts::extent::Extent;
use cache_rules::{StoredResponse, set_fields};
use headers::InsertError;
use http::StatusCode;
use std::alloc::Global;

/// A part as it is stored: as a 200 that isn't complete (RFC 9111, section 3.3). Its Content-Range says
/// which part it is, and its Content-Length how long the whole is.
///
/// Fails only if an allocation fails, or with `InsertError::Full` if the map of the response has no
/// room for these fields.
pub fn record(
    alloc: Global,
    came: StoredResponse,
    extent: Extent,
) -> Result<StoredResponse, InsertError>
    requires { extent.last < extent.len }
    ensures recorded { IfOk result (IsRecorded came extent) }
    ensures full { IsErrOf result InsertError.Full → IsTooSmallFor came.response (extent_fields extent) }
{
    let fields = extent.fields(alloc)?;
    let mut part = came;
    set_fields(&mut part.response, fields)?;
    part.status = StatusCode::OK;
    Ok(part)
}
