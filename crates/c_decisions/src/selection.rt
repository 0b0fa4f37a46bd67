//! Which part of a representation a request selects.
ghost use Rattle.std.specs.Prelude.{◌≡◌, IfOk, IsErr, map};
ghost use Rattle.c_decisions.specs.Selection.{ArePartsOf, IsShown, Selects, range_of};

use crate::method::read_method;
use crate::request::RequestTexts;
use crate::target::{TargetFacts, read_resource};
use c_parts::{Failure, HashKeys, read_map};
use decide_preconditions::{
    Part, RangeFacts, RangeLimits, RequestHead, Selection, TargetState, select,
};
use std::alloc::{AllocError, Global};

/// A range of bytes: its first and its last position, both included.
#[repr(C)]
#[derive(Clone, Copy)]
pub struct BytesRange {
    pub first: u64,
    pub last: u64,
}

/// The status of the response, and the ranges that it sends.
#[derive(Drop)]
pub struct Selected {
    pub code: u16,
    pub ranges: Vec<BytesRange>,
}

/// Which part of a representation of `length` bytes a request selects (RFC 9110, sections 13.2.2 and
/// 14.2): all of it (200), ranges of it (206) or none (416).
pub fn select_ranges(
    alloc: Global,
    request: &RequestTexts<'_>,
    keys: &HashKeys,
    target: &TargetFacts<'_>,
    length: u64,
) -> Result<Selected, Failure>
    ensures { Selects request.now target.now length result }
{
    let method = read_method(alloc, request.method)?;
    let TargetState::Current(current) = read_resource(alloc, target)? else {
        return Err(Failure::Absent);
    };
    let fields = read_map(alloc, request.section, keys)?;
    let head = RequestHead {
        method: &method,
        fields: &fields,
    };
    let limits = RangeLimits::usual();
    let facts = RangeFacts {
        present: target.present,
        len: length,
        limits,
    };
    let selection = select(alloc, &head, &current, &facts)?;
    Ok(show_selection(alloc, &selection)?)
}

/// The status of a selection, and its ranges. Out of memory only if there are parts.
pub fn show_selection(alloc: Global, selection: &Selection) -> Result<Selected, AllocError>
    ensures shown { IfOk result (λ selected. IsShown selection.now selected.code selected.ranges.items) }
    ensures memory { IsErr result → ArePartsOf selection.now }
{
    match selection {
        Selection::Whole => Ok(Selected {
            code: 200,
            ranges: Vec::new(alloc),
        }),
        Selection::Unsatisfiable => Ok(Selected {
            code: 416,
            ranges: Vec::new(alloc),
        }),
        Selection::Parts(parts) => Ok(Selected {
            code: 206,
            ranges: ranges_of(alloc, parts.as_slice())?,
        }),
    }
}

/// The ranges of parts.
pub(crate) fn ranges_of(alloc: Global, parts: &[Part]) -> Result<Vec<BytesRange>, AllocError>
    ensures { IfOk result (λ ranges. ranges.items ≡ map range_of parts.now) }
{
    parts.iter().map(range_of).collect(alloc)
}

/// The range of a part.
pub(crate) fn range_of(part: &Part) -> BytesRange
    ensures { result ≡ range_of part.now }
{
    BytesRange {
        first: part.first,
        last: part.last,
    }
}
