//! The next connection.
ghost use Rattle.std.specs.Prelude.{◌≡◌, ◌∷◌, [], ◌++◌, IfOk, OnOk, codes, option_map, option_to_list, if◌then◌else◌};
ghost use Rattle.headers.specs.LineMap.{fields_of};
ghost use Rattle.gateway_hops.specs.Connections.{connection_fields, connection_parts, option_lines, option_text};

use headers::{Encoded, HeaderName, HeaderValue};
use http_header::{CONNECTION, TE, UPGRADE};
use std::alloc::{AllocError, Global};

/// What a gateway says about its next connection, instead of what it received about the last one.
#[derive(Clone, Copy)]
pub struct NextConnection<'a> {
    /// Whether it closes the connection after this message (RFC 9112, section 9.6).
    pub closes: bool,
    /// Whether it accepts trailer fields, for itself and for all clients behind it (RFC 9110, section
    /// 10.1.4).
    pub accepts_trailers: bool,
    /// The protocols to which it offers to switch, as Upgrade lists them (RFC 9110, section 7.8).
    pub upgrade: Option<&'a HeaderValue>,
}

// The connection options: Connection names each field that is meant for this connection.
fn options(closes: bool, accepts_trailers: bool, upgrades: bool) -> Option<HeaderValue>
    ensures { option_to_list (option_map (λ line. line.bytes) result)
        ≡ option_lines (option_text closes accepts_trailers upgrades) }
{
    match (closes, accepts_trailers, upgrades) {
        (false, false, false) => None,
        (true, false, false) => Some(HeaderValue::from_static("close")),
        (false, true, false) => Some(HeaderValue::from_static("te")),
        (true, true, false) => Some(HeaderValue::from_static("close, te")),
        (false, false, true) => Some(HeaderValue::from_static("upgrade")),
        (true, false, true) => Some(HeaderValue::from_static("close, upgrade")),
        (false, true, true) => Some(HeaderValue::from_static("te, upgrade")),
        (true, true, true) => Some(HeaderValue::from_static("close, te, upgrade")),
    }
}

fn trailers(accepts_trailers: bool) -> Option<HeaderValue>
    ensures { option_to_list (option_map (λ line. line.bytes) result)
        ≡ (if accepts_trailers then codes "trailers" ∷ [] else []) }
{
    if accepts_trailers {
        Some(HeaderValue::from_static("trailers"))
    } else {
        None
    }
}

fn copied(value: Option<&HeaderValue>) -> Result<Option<HeaderValue>, AllocError>
    ensures { IfOk result (λ copy. option_map (λ line. line.bytes) copy
        ≡ option_map (λ line. line.now.bytes) value.entry) }
{
    match value {
        Some(value) => Ok(Some(value.clone()?)),
        None => Ok(None),
    }
}

// The field lines of a field that has at most one.
fn push_optional(
    alloc: Global,
    fields: &mut Vec<Encoded>,
    name: HeaderName,
    value: Option<HeaderValue>,
) -> Result<(), AllocError>
    ensures { OnOk result (fields_of fields.new.items ≡ fields_of fields.old.items
        ++ (name, option_to_list (option_map (λ line. line.bytes) value)) ∷ []) }
{
    let mut lines = Vec::new(alloc);
    if let Some(value) = value {
        lines.push(value)?;
    }
    fields.push(Encoded { name, lines })?;
    Ok(())
}

impl<'a> NextConnection<'a> {
    /// Returns the fields Connection, TE and Upgrade for the next connection; one without lines is
    /// absent.
    pub fn fields(&self, alloc: Global) -> Result<Vec<Encoded>, AllocError>
        ensures { IfOk result (λ fields. fields_of fields.items ≡ connection_fields (connection_parts self.now)) }
    {
        let mut fields = Vec::new(alloc);
        let options = options(self.closes, self.accepts_trailers, self.upgrade.is_some());
        push_optional(alloc, &mut fields, CONNECTION, options)?;
        push_optional(alloc, &mut fields, TE, trailers(self.accepts_trailers))?;
        push_optional(alloc, &mut fields, UPGRADE, copied(self.upgrade)?)?;
        Ok(fields)
    }
}
