//! The validation of what was served stale.
ghost use Rattle.std.specs.Prelude.{[], ◌≡◌, IfOk, IsErrOf};
ghost use Rattle.{cache_rules.specs.Fields.IsTooSmallFor, headers.specs.LineMap.{field_of, fields_of, lines_at}};
ghost use Rattle.cache_pass.specs.Validation.{control_line, fields_alone, IsValidationOf};

use crate::pass::Pass;
use cache_policy::read_directives;
use cache_rules::set_fields;
use headers::{Encoded, HeaderMap, HeaderName, HeaderValue, InsertError};
use http_header::{
    CACHE_CONTROL, IF_MATCH, IF_MODIFIED_SINCE, IF_NONE_MATCH, IF_RANGE, IF_UNMODIFIED_SINCE, RANGE,
};
use std::alloc::{AllocError, Global};

// What Cache-Control is in place of the client's.
fn control_line(client: &HeaderMap) -> HeaderValue
    ensures { result.bytes ≡ control_line (lines_at client.now) }
{
    if read_directives(client).no_store {
        HeaderValue::from_static("no-cache, no-store")
    } else {
        HeaderValue::from_static("no-cache")
    }
}

// The field of this name without field lines.
fn absent(alloc: Global, name: HeaderName) -> Encoded
    ensures { field_of result ≡ (name, []) }
{
    Encoded {
        name,
        lines: Vec::new(alloc),
    }
}

// The fields in place of the client's.
fn fields_alone(alloc: Global, client: &HeaderMap) -> Result<Vec<Encoded>, AllocError>
    ensures { IfOk result (λ fields. fields_of fields.items ≡ fields_alone (lines_at client.now)) }
{
    let control = Encoded {
        name: CACHE_CONTROL,
        lines: vec![in alloc; control_line(client)]?,
    };
    Ok(vec![in alloc;
        control,
        absent(alloc, IF_MATCH),
        absent(alloc, IF_MODIFIED_SINCE),
        absent(alloc, IF_NONE_MATCH),
        absent(alloc, IF_RANGE),
        absent(alloc, IF_UNMODIFIED_SINCE),
        absent(alloc, RANGE),
    ]?)
}

impl Pass {
    /// The pass by which what this one has sent stale is validated for nobody (RFC 5861, section 3): its request is
    /// the client's with `no-cache` alone, and `no-store` if the client's has it, and without conditions and range.
    /// It has to be forwarded as it is then. `Full` only if the client's has as many names as a map can hold.
    pub fn validation(&self, alloc: Global) -> Result<Pass, InsertError>
        ensures ok { IfOk result (IsValidationOf self.now) }
        ensures full { IsErrOf result InsertError.Full
            → IsTooSmallFor self.now.request (fields_alone (lines_at self.now.request)) }
    {
        let fields = fields_alone(alloc, &self.request)?;
        let mut request = self.request.clone()?;
        set_fields(&mut request, fields)?;
        let (key, method) = (self.key.clone()?, self.method.clone()?);
        Ok(Pass::new(key, method, request))
    }
}
