//! What is sent of a stored response.
ghost use Rattle.std.specs.Prelude.{◌≡◌, ◌++◌, IfOk, OnOk};
ghost use Rattle.headers.specs.LineMap.{field_of, fields_of};
ghost use Rattle.c_pass.specs.Sending.{fields_added, is_content, is_partial, is_sent, lines_kept};
ghost use Rattle.c_pass.specs.Sending.{part_sent, range_field, size_of, status_sent, text_sent};

use c_decisions::fields_text;
use cache_rules::{StoredAnswer, StoredResponse, age_field};
use decide_preconditions::Part;
use headers::{ContentLength, ContentRange, Encoded, HeaderMap, encoding};
use headers_section::print_lines;
use std::alloc::{AllocError, Global};

// A 304 says nothing of the content (RFC 9110, section 15.4.5).
fn is_content(name: &str) -> bool
    ensures { result ≡ is_content name.now }
{
    name == "content-encoding"
        || name == "content-length"
        || name == "content-range"
        || name == "content-type"
}

// A part has these fields of its own, or none: a digest is that of the whole (RFC 9110, section 15.3.7).
fn is_partial(name: &str) -> bool
    ensures { result ≡ is_partial name.now }
{
    name == "content-length"
        || name == "content-range"
        || name == "content-digest"
        || name == "content-md5"
}

// Whether the stored field lines with a name are sent.
fn is_sent(answer: StoredAnswer, name: &str) -> bool
    ensures { result ≡ is_sent answer name.now }
{
    match answer {
        StoredAnswer::Whole | StoredAnswer::Forward => name != "age",
        StoredAnswer::Part(_) => name != "age" && !is_partial(name),
        StoredAnswer::NotModified => name != "age" && !is_content(name),
        StoredAnswer::Unsatisfiable => name == "date",
    }
}

// Prints the field lines of a map that are sent.
fn print_map(text: &mut Vec<u8>, answer: StoredAnswer, map: &HeaderMap) -> Result<(), AllocError>
    ensures { OnOk result (text.new.items ≡ text.old.items ++ lines_kept answer map.now) }
{
    for (name, value) in map.iter() {
        if is_sent(answer, name.as_str()) {
            print_lines(text, name, std::slice::from_ref(value))?;
        }
    }
    Ok(())
}

fn size_of(part: &Part) -> u64
    ensures { result ≡ size_of part.now }
{
    part.last.saturating_sub(part.first).saturating_add(1)
}

fn range_field(alloc: Global, range: ContentRange) -> Result<Encoded, AllocError>
    ensures { IfOk result (λ field. field_of field ≡ range_field range) }
{
    encoding(alloc, &range)
}

// The fields that are sent beside the stored ones.
fn fields_added(
    alloc: Global,
    stored: &StoredResponse,
    answer: StoredAnswer,
    now: u64,
) -> Result<Vec<Encoded>, AllocError>
    ensures { IfOk result (λ fields. fields_of fields.items ≡ fields_added stored.now answer now) }
{
    let length = stored.content.len() as u64;
    match answer {
        StoredAnswer::Part(part) => {
            let age = age_field(alloc, &stored.response, stored.times(now))?;
            let range = range_field(alloc, part.content_range(length))?;
            let size = encoding(alloc, &ContentLength(size_of(&part)))?;
            Ok(vec![in alloc; age, range, size]?)
        }
        StoredAnswer::Unsatisfiable => {
            let range = range_field(alloc, ContentRange::unsatisfied_bytes(length))?;
            let size = encoding(alloc, &ContentLength(0))?;
            Ok(vec![in alloc; range, size]?)
        }
        _ => {
            let age = age_field(alloc, &stored.response, stored.times(now))?;
            Ok(vec![in alloc; age]?)
        }
    }
}

/// The field lines that are sent of a stored response that answers so, at a present.
pub(crate) fn text_sent(
    alloc: Global,
    stored: &StoredResponse,
    answer: StoredAnswer,
    now: u64,
) -> Result<Vec<u8>, AllocError>
    ensures { IfOk result (λ text. text.items ≡ text_sent stored.now answer now) }
{
    let mut text = Vec::new(alloc);
    print_map(&mut text, answer, &stored.response)?;
    let added = fields_added(alloc, stored, answer, now)?;
    text.extend_from_slice(fields_text(alloc, added.as_slice())?.as_slice())?;
    Ok(text)
}

/// The status that is sent.
pub(crate) fn status_sent(stored: &StoredResponse, answer: StoredAnswer) -> u16
    ensures { result ≡ status_sent stored.now answer }
{
    match answer {
        StoredAnswer::Whole | StoredAnswer::Forward => stored.status.as_u16(),
        StoredAnswer::Part(_) => 206,
        StoredAnswer::NotModified => 304,
        StoredAnswer::Unsatisfiable => 416,
    }
}

/// The first position of the content that is sent, and how many bytes are sent.
pub(crate) fn part_sent(stored: &StoredResponse, answer: StoredAnswer, is_head: bool) -> (u64, u64)
    ensures { result ≡ part_sent stored.now answer is_head }
{
    match answer {
        _ if is_head => (0, 0),
        StoredAnswer::Whole | StoredAnswer::Forward => (0, stored.content.len() as u64),
        StoredAnswer::Part(part) => (part.first, size_of(&part)),
        StoredAnswer::NotModified | StoredAnswer::Unsatisfiable => (0, 0),
    }
}
