//! Ranges of `content-range`, and kinds of `content-disposition`.
ghost use Rattle.std.specs.Prelude.{◌≡◌};
ghost use Rattle.headers.{specs.ContentRange.content_range_grammar, specs.HeaderLaws.ReadsBy};
ghost use Rattle.c_typed.specs.Contents.{ShowsContentRange, ShowsDisposition, parts_of, reads_disposition};
ghost use Rattle.c_typed.specs.Shown.{FieldShows};

use c_decisions::flag_of;
use c_parts::{ContentRangeParts, Failure, read_field};
use headers::{ContentDisposition, ContentRange};
use std::alloc::Global;

/// Decodes the field lines of `content-range` to the range and the complete length (RFC 9110,
/// section 14.4).
pub fn read_content_range(alloc: Global, lines: &[u8]) -> Result<ContentRangeParts, Failure>
    ensures { FieldShows (ReadsBy content_range_grammar) ShowsContentRange lines.now result }
{
    match read_field::<ContentRange>(alloc, lines) {
        Ok(range) => Ok(parts_of(&range)),
        Err(failure) => Err(failure),
    }
}

// The numbers of a content range. Those that aren't there are 0.
fn parts_of(range: &ContentRange) -> ContentRangeParts
    ensures { result ≡ parts_of range.now }
{
    let (first, last) = range.bytes_range().unwrap_or((0, 0));
    ContentRangeParts {
        first,
        last,
        length: range.bytes_len().unwrap_or(0),
        has_range: flag_of(range.bytes_range().is_some()),
        has_length: flag_of(range.bytes_len().is_some()),
    }
}

/// Decodes the field lines of `content-disposition` to the kind of the disposition (RFC 6266, section
/// 4.2, and RFC 7578, section 4.2): 1 for `inline`, 2 for `attachment`, 3 for `form-data`, else 0.
pub fn read_disposition(alloc: Global, lines: &[u8]) -> Result<u8, Failure>
    ensures { FieldShows reads_disposition ShowsDisposition lines.now result }
{
    match read_field::<ContentDisposition>(alloc, lines) {
        Ok(disposition) => Ok(kind_of(&disposition)),
        Err(failure) => Err(failure),
    }
}

fn kind_of(disposition: &ContentDisposition) -> u8
    ensures { ShowsDisposition disposition.now result }
{
    if disposition.is_inline() {
        1
    } else if disposition.is_attachment() {
        2
    } else if disposition.is_form_data() {
        3
    } else {
        0
    }
}
