//! Calls that make the plan of a response.
ghost use Rattle.server_connection.specs.declared.piece.Piece.TheVariants.{Literal, Range};
ghost use Rattle.c_connection.{specs.Calls.OnConnection, specs.Plans.{AddsField, AddsPiece, Begins, IsValueOf}};

use crate::calling::change;
use bytes::Bytes;
use c_handles::{Handle, HeldConnection};
use c_parts::{Failure, read_name};
use http::{HeaderValue, StatusCode};
use http_header::HeaderValueError;
use server_connection::{OpenRange, Piece};
use std::alloc::Global;

fn begin_in(held: &mut HeldConnection, status: u16) -> Result<(), Failure>
    ensures { Begins status held.old held.new result }
{
    let Ok(status) = StatusCode::from_u16(status) else {
        return Err(Failure::Refused);
    };
    held.plan.clear();
    held.plan.status = status;
    Ok(())
}

/// Begins the plan again: with this status, and without fields and content. Rejected if the status is no number from
/// 100 to 999.
pub fn begin(alloc: Global, handle: &mut Handle, status: u16) -> Result<(), Failure>
    ensures { OnConnection (Begins status) handle.old.held handle.new.held result }
{
    change(alloc, handle, |held| begin_in(held, status))
}

fn value_of(alloc: Global, value: &[u8]) -> Result<HeaderValue, Failure>
    ensures { IsValueOf value.now result }
{
    match HeaderValue::from_bytes(alloc, value) {
        Ok(value) => Ok(value),
        Err(HeaderValueError::Invalid) => Err(Failure::Refused),
        Err(HeaderValueError::OutOfMemory) => Err(Failure::Memory),
    }
}

fn add_field_in(
    alloc: Global,
    held: &mut HeldConnection,
    name: &[u8],
    value: &[u8],
) -> Result<(), Failure>
    ensures { AddsField name.now value.now held.old held.new result }
{
    let name = read_name(alloc, name)?;
    let value = value_of(alloc, value)?;
    Ok(held.plan.add_header(name, value)?)
}

/// Adds a field line to the plan. Rejected if the name is no field name, or the value is none.
pub fn add_field(
    alloc: Global,
    handle: &mut Handle,
    name: &[u8],
    value: &[u8],
) -> Result<(), Failure>
    ensures { OnConnection (AddsField name.now value.now) handle.old.held handle.new.held result }
{
    change(alloc, handle, |held| add_field_in(alloc, held, name, value))
}

fn add_bytes_in(alloc: Global, held: &mut HeldConnection, content: &[u8]) -> Result<(), Failure>
    ensures { AddsPiece (Literal content.now) held.old held.new result }
{
    let content = Bytes::copy_from_slice(alloc, content)?;
    Ok(held.plan.push(Piece::Literal(content))?)
}

/// Adds bytes to the content of the plan. Fails only if an allocation fails, or if the content would have 2^64 bytes
/// or more.
pub fn add_bytes(alloc: Global, handle: &mut Handle, content: &[u8]) -> Result<(), Failure>
    ensures { OnConnection (AddsPiece (Literal content.now)) handle.old.held handle.new.held result }
{
    change(alloc, handle, |held| add_bytes_in(alloc, held, content))
}

fn add_range_in(held: &mut HeldConnection, start: u64, length: u64) -> Result<(), Failure>
    ensures { AddsPiece (Range (record { start = start; len = length })) held.old held.new result }
{
    let extent = OpenRange { start, len: length };
    Ok(held.plan.push(Piece::Range(extent))?)
}

/// Adds bytes of what the host has open to the content of the plan. Fails in the same way.
pub fn add_range(alloc: Global, handle: &mut Handle, start: u64, length: u64) -> Result<(), Failure>
    ensures { OnConnection (AddsPiece (Range (record { start = start; len = length })))
        handle.old.held handle.new.held result }
{
    change(alloc, handle, |held| add_range_in(held, start, length))
}
