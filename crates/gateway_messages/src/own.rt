//! The fields that a gateway writes itself.
ghost use Rattle.std.specs.Prelude.{◌≡◌, ◌∷◌, [], ◌++◌, OnOk, codes, decimal, option_map};
ghost use Rattle.headers.specs.Date.{fixdate};
ghost use Rattle.gateway_messages.specs.{FieldLines.fields_of, Forwarding.{field_if, own_fields}, Framing.coding_line};
ghost use Rattle.gateway_messages.specs.{Framing.length_line, Messages.message_of};

use crate::field_line::FieldLine;
use crate::framing::Framing;
use crate::protocol::Protocol;
use crate::via::Pseudonym;
use headers::{Date, HeaderName, HeaderValue};
use headers_syntax::Date1;
use http_header::{CONTENT_LENGTH, DATE, HOST, MAX_FORWARDS, TRANSFER_ENCODING, VIA};
use std::alloc::{AllocError, Global};

/// What a gateway says itself in the message that it sends.
#[derive(Clone, Copy)]
pub(crate) struct Own<'a> {
    /// The version in which the message was received.
    pub(crate) protocol: Protocol,
    /// The Host that takes the place of the received one.
    pub(crate) host: Option<&'a HeaderValue>,
    /// The Date that the message lacks.
    pub(crate) date: Option<Date>,
    /// How often the message may still be forwarded.
    pub(crate) hops: Option<u64>,
    /// What is stated about the content.
    pub(crate) framing: Framing,
}

fn push_field(
    fields: &mut Vec<FieldLine>,
    name: HeaderName,
    value: HeaderValue,
) -> Result<(), AllocError>
    ensures { OnOk result (fields_of fields.new.items
        ≡ fields_of fields.old.items ++ (name, value.bytes) ∷ []) }
{
    fields.push(FieldLine { name, value })?;
    Ok(())
}

fn push_host(host: Option<&HeaderValue>, fields: &mut Vec<FieldLine>) -> Result<(), AllocError>
    ensures { OnOk result (fields_of fields.new.items ≡ fields_of fields.old.items
        ++ field_if (codes "host") (option_map (λ value. value.now.bytes) host.entry)) }
{
    match host {
        Some(host) => push_field(fields, HOST, host.clone()?),
        None => Ok(()),
    }
}

fn push_date(
    alloc: Global,
    date: Option<Date>,
    fields: &mut Vec<FieldLine>,
) -> Result<(), AllocError>
    ensures { OnOk result (fields_of fields.new.items ≡ fields_of fields.old.items
        ++ field_if (codes "date") (option_map fixdate date)) }
{
    match date {
        Some(date) => {
            let date = Date1::from_unix_secs(date.unix_secs());
            push_field(fields, DATE, date.to_value(alloc)?)
        }
        None => Ok(()),
    }
}

fn push_hops(
    alloc: Global,
    hops: Option<u64>,
    fields: &mut Vec<FieldLine>,
) -> Result<(), AllocError>
    ensures { OnOk result (fields_of fields.new.items ≡ fields_of fields.old.items
        ++ field_if (codes "max-forwards") (option_map decimal hops)) }
{
    match hops {
        Some(hops) => push_field(fields, MAX_FORWARDS, HeaderValue::from_u64(alloc, hops)?),
        None => Ok(()),
    }
}

fn push_framing(
    alloc: Global,
    framing: Framing,
    fields: &mut Vec<FieldLine>,
) -> Result<(), AllocError>
    ensures { OnOk result (fields_of fields.new.items ≡ fields_of fields.old.items
        ++ (field_if (codes "content-length") (length_line framing)
        ++ field_if (codes "transfer-encoding") (coding_line framing))) }
{
    match framing {
        Framing::Unstated => Ok(()),
        Framing::Length(len) => {
            push_field(fields, CONTENT_LENGTH, HeaderValue::from_u64(alloc, len)?)
        }
        Framing::Chunked => {
            let chunked = HeaderValue::from_static("chunked");
            push_field(fields, TRANSFER_ENCODING, chunked)
        }
    }
}

/// Appends the fields that the gateway writes itself.
pub(crate) fn push_own(
    alloc: Global,
    pseudonym: &Pseudonym,
    own: &Own<'_>,
    fields: &mut Vec<FieldLine>,
) -> Result<(), AllocError>
    ensures { OnOk result (fields_of fields.new.items
        ≡ fields_of fields.old.items ++ own_fields pseudonym.now (message_of own.now)) }
{
    push_field(fields, VIA, pseudonym.line(alloc, own.protocol)?)?;
    push_host(own.host, fields)?;
    push_date(alloc, own.date, fields)?;
    push_hops(alloc, own.hops, fields)?;
    push_framing(alloc, own.framing, fields)
}
