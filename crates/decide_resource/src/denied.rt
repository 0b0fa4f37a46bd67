//! Requests that a server denies.
ghost use Rattle.std.specs.Prelude.{◌≡◌, [], ◌++◌, ◌∷◌, IfOk, OnOk, codes, option_copied};
ghost use Rattle.headers.specs.LineMap.{field_of, fields_of};
ghost use Rattle.decide_resource.specs.Fields.{denied_fields, denied_status, retry_field, retry_fields, status_denied};

use headers::{Encoded, HeaderValue};
use http::StatusCode;
use http_header::{RETRY_AFTER, WWW_AUTHENTICATE};
use std::alloc::{AllocError, Global};

/// Why a server denies a request, whatever the state of the resource: by its credentials, or by the
/// load. The answer says nothing of the resource.
#[derive(Debug, Drop)]
pub enum Denied {
    /// 401: the request has no valid credentials. The challenges, as the value of WWW-Authenticate
    /// (RFC 9110, section 11.6.1).
    Unauthenticated(HeaderValue),
    /// 403: the credentials don't suffice, or none do (section 15.5.4).
    Forbidden,
    /// 429: the client sends too many requests. After how many seconds it may send another one, as
    /// Retry-After, if that is known (RFC 6585, section 4).
    TooManyRequests(Option<u64>),
    /// 503: the server can't handle the request now. After how many seconds the client may try again,
    /// as Retry-After, if that is known (RFC 9110, section 15.6.4).
    Unavailable(Option<u64>),
}

fn status_denied(denied: &Denied) -> StatusCode
    ensures { result ≡ status_denied denied.now }
{
    match denied {
        Denied::Unauthenticated(_) => StatusCode::UNAUTHORIZED,
        Denied::Forbidden => StatusCode::FORBIDDEN,
        Denied::TooManyRequests(_) => StatusCode::TOO_MANY_REQUESTS,
        Denied::Unavailable(_) => StatusCode::SERVICE_UNAVAILABLE,
    }
}

/// The status of a request that may be denied.
pub(crate) fn denied_status(denied: Option<&Denied>) -> StatusCode
    ensures { result ≡ denied_status (option_copied denied.entry) }
{
    match denied {
        Some(denied) => status_denied(denied),
        None => StatusCode::OK,
    }
}

fn retry_field(alloc: Global, seconds: u64) -> Result<Encoded, AllocError>
    ensures { IfOk result (λ field. field_of field ≡ retry_field seconds) }
{
    let mut lines = Vec::new(alloc);
    lines.push(HeaderValue::from_u64(alloc, seconds)?)?;
    Ok(Encoded {
        name: RETRY_AFTER,
        lines,
    })
}

fn push_retry(
    alloc: Global,
    fields: &mut Vec<Encoded>,
    seconds: Option<u64>,
) -> Result<(), AllocError>
    ensures { OnOk result (fields_of fields.new.items ≡ fields_of fields.old.items ++ retry_fields seconds) }
{
    let Some(seconds) = seconds else {
        return Ok(());
    };
    let field = retry_field(alloc, seconds)?;
    Ok(fields.push(field)?)
}

fn push_challenge(
    alloc: Global,
    fields: &mut Vec<Encoded>,
    challenge: &HeaderValue,
) -> Result<(), AllocError>
    ensures { OnOk result (fields_of fields.new.items
        ≡ fields_of fields.old.items ++ (codes "www-authenticate", challenge.now.bytes ∷ []) ∷ []) }
{
    let mut lines = Vec::new(alloc);
    lines.push(challenge.clone()?)?;
    Ok(fields.push(Encoded {
        name: WWW_AUTHENTICATE,
        lines,
    })?)
}

/// Appends the fields that say why a request is denied.
pub(crate) fn push_denied(
    alloc: Global,
    fields: &mut Vec<Encoded>,
    denied: Option<&Denied>,
) -> Result<(), AllocError>
    ensures { OnOk result (fields_of fields.new.items
        ≡ fields_of fields.old.items ++ denied_fields (option_copied denied.entry)) }
{
    match denied {
        Some(Denied::Unauthenticated(challenge)) => push_challenge(alloc, fields, challenge),
        Some(Denied::TooManyRequests(seconds) | Denied::Unavailable(seconds)) => {
            push_retry(alloc, fields, *seconds)
        }
        Some(Denied::Forbidden) | None => Ok(()),
    }
}
