//! Entity tags, compared.
ghost use Rattle.std.specs.Prelude.{◌≡◌};
ghost use Rattle.headers.specs.EntityTag.{StronglyEqual, WeaklyEqual};
ghost use Rattle.c_parts.{specs.Endings.Gives, specs.FieldText.FieldDecodes};
ghost use Rattle.c_library.specs.Tags.{Compares, quoted_part};
ghost use Rattle.c_decisions.specs.Targets.{reads_etag};

use c_parts::{DONE, Failure, read_field};
use headers::{ETag, HeaderValue, IfRange, encoding};
use std::alloc::Global;

/// Whether two entity tags are strongly equal: 1 if they are, 0 if not (RFC 9110, section 8.8.3.2).
#[unsafe(no_mangle)]
pub extern "C" fn typed_headers_strong_eq(
    alloc: Global,
    one: &[u8],
    other: &[u8],
    equal: &mut u8,
) -> u8
    ensures { Gives (Compares StronglyEqual one.now other.now) equal.old equal.new result }
{
    match are_strongly_equal(alloc, one, other) {
        Ok(answer) => {
            *equal = answer;
            DONE
        }
        Err(failure) => failure.status(),
    }
}

fn are_strongly_equal(alloc: Global, one: &[u8], other: &[u8]) -> Result<u8, Failure>
    ensures { Compares StronglyEqual one.now other.now result }
{
    let one = read_field::<ETag>(alloc, one)?;
    let other = read_field::<ETag>(alloc, other)?;
    if IfRange::etag(one).matches(Some(&other), None) {
        Ok(1)
    } else {
        Ok(0)
    }
}

/// Whether two entity tags are weakly equal: 1 if they are, 0 if not (RFC 9110, section 8.8.3.2).
#[unsafe(no_mangle)]
pub extern "C" fn typed_headers_weak_eq(
    alloc: Global,
    one: &[u8],
    other: &[u8],
    equal: &mut u8,
) -> u8
    ensures { Gives (Compares WeaklyEqual one.now other.now) equal.old equal.new result }
{
    match are_weakly_equal(alloc, one, other) {
        Ok(answer) => {
            *equal = answer;
            DONE
        }
        Err(failure) => failure.status(),
    }
}

fn are_weakly_equal(alloc: Global, one: &[u8], other: &[u8]) -> Result<u8, Failure>
    ensures { Compares WeaklyEqual one.now other.now result }
{
    let one = read_tag_line(alloc, one)?;
    let other = read_tag_line(alloc, other)?;
    if quoted_part(one.as_bytes()) == quoted_part(other.as_bytes()) {
        Ok(1)
    } else {
        Ok(0)
    }
}

// The line of an entity tag.
fn read_tag_line(alloc: Global, text: &[u8]) -> Result<HeaderValue, Failure>
    ensures { FieldDecodes reads_etag text.now result }
{
    let tag = read_field::<ETag>(alloc, text)?;
    let mut written = encoding(alloc, &tag)?.lines;
    match written.pop() {
        Some(line) => Ok(line),
        None => unreachable!(),
    }
}

// The opaque part of a tag in its quotes.
fn quoted_part(tag: &[u8]) -> &[u8]
    ensures { result.now ≡ quoted_part tag.now }
{
    match tag {
        [b'W', b'/', quoted @ ..] => quoted,
        _ => tag,
    }
}
