//! The field Date.
ghost use Rattle.std.specs.Prelude.{◌≡◌, [], IfOk, IfSome, IsSome, OnErr, OnOk, Some};
ghost use Rattle.headers.specs.LineMap.{field_of};
ghost use Rattle.server_service.specs.Answer.{date_fields, date_of};
ghost use Rattle.server_service.specs.Response.{fields_of, lines_under};

use crate::fields::add_copy;
use headers::{Date, Encoded, encoding};
use server_connection::ResponsePlan as Response;
use std::alloc::{AllocError, Global};

/// A date, and the field that says it.
#[derive(Drop)]
pub struct KnownDate {
    date: Date,
    field: Encoded,
    ghost is_field: { lines_under (field_of field) ≡ date_fields (Some date) },
}

impl KnownDate {
    fn new(alloc: Global, date: Date) -> Result<KnownDate, AllocError>
        ensures { IfOk result (λ made. made.date ≡ date) }
    {
        let field = encoding(alloc, &date)?;
        Ok(KnownDate { date, field })
    }
}

/// The date of a time, if there is a clock and its year has four digits.
pub(crate) fn date_of(now: Option<u64>) -> Option<Date>
    ensures { result ≡ date_of now }
{
    match now {
        Some(seconds) if seconds < 253_402_300_800 => Some(Date::from_unix_secs(seconds)),
        _ => None,
    }
}

// The field of the last date, if that is in the same second.
fn known_field(last: &Option<KnownDate>, date: Date) -> Option<&Encoded>
    ensures { IfSome result (λ field. lines_under (field_of field.now) ≡ date_fields (Some date)) }
{
    match last {
        Some(last) if last.date.unix_secs() == date.unix_secs() => Some(&last.field),
        _ => None,
    }
}

// Adds a date: by the field of the last one, if that says it too.
fn put(
    alloc: Global,
    last: &mut Option<KnownDate>,
    response: &mut Response,
    date: Date,
) -> Result<(), AllocError>
    requires { fields_of response.old ≡ [] }
    ensures headers { OnOk result (fields_of response.new ≡ date_fields (Some date)) }
    ensures pieces { response.new.pieces.items ≡ response.old.pieces.items }
{
    if let Some(field) = known_field(last, date) {
        return add_copy(response, field);
    }
    let made = KnownDate::new(alloc, date)?;
    add_copy(response, &made.field)?;
    *last = Some(made);
    Ok(())
}

/// Adds a date. Without one it never fails. The field of the last response is used again within its second.
pub(crate) fn put_date(
    alloc: Global,
    last: &mut Option<KnownDate>,
    response: &mut Response,
    date: &Option<Date>,
) -> Result<(), AllocError>
    requires { fields_of response.old ≡ [] }
    ensures headers { OnOk result (fields_of response.new ≡ date_fields date.now) }
    ensures memory { OnErr result (IsSome date.now) }
    ensures pieces { response.new.pieces.items ≡ response.old.pieces.items }
{
    match date {
        Some(date) => put(alloc, last, response, *date),
        None => Ok(()),
    }
}
