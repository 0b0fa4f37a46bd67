//! Fields that are one number or one date.
ghost use Rattle.c_parts.{specs.Endings.Gives, specs.FieldText.FieldDecodes};
ghost use Rattle.c_library.specs.Fields.{reads_date, reads_length, reads_number};

use c_parts::{DONE, read_field};
use headers::{Age, ContentLength, Date, Expires, LastModified};
use std::alloc::Global;

/// Decodes the field lines of `age` to seconds (RFC 9111, section 5.1).
#[unsafe(no_mangle)]
pub extern "C" fn typed_headers_age(alloc: Global, lines: &[u8], seconds: &mut u64) -> u8
    ensures { Gives (FieldDecodes reads_number lines.now) seconds.old seconds.new result }
{
    match read_field::<Age>(alloc, lines) {
        Ok(age) => {
            *seconds = age.as_secs();
            DONE
        }
        Err(failure) => failure.status(),
    }
}

/// Decodes the field lines of `content-length` to a number of bytes (RFC 9110, section 8.6).
#[unsafe(no_mangle)]
pub extern "C" fn typed_headers_content_length(alloc: Global, lines: &[u8], length: &mut u64) -> u8
    ensures { Gives (FieldDecodes reads_length lines.now) length.old length.new result }
{
    match read_field::<ContentLength>(alloc, lines) {
        Ok(read) => {
            *length = read.0;
            DONE
        }
        Err(failure) => failure.status(),
    }
}

/// Decodes the field lines of `date` to seconds since 1970 (RFC 9110, section 6.6.1).
#[unsafe(no_mangle)]
pub extern "C" fn typed_headers_date(alloc: Global, lines: &[u8], second: &mut u64) -> u8
    ensures { Gives (FieldDecodes reads_date lines.now) second.old second.new result }
{
    match read_field::<Date>(alloc, lines) {
        Ok(date) => {
            *second = date.unix_secs();
            DONE
        }
        Err(failure) => failure.status(),
    }
}

/// Decodes the field lines of `expires` to seconds since 1970 (RFC 9111, section 5.3).
#[unsafe(no_mangle)]
pub extern "C" fn typed_headers_expires(alloc: Global, lines: &[u8], second: &mut u64) -> u8
    ensures { Gives (FieldDecodes reads_date lines.now) second.old second.new result }
{
    match read_field::<Expires>(alloc, lines) {
        Ok(expires) => {
            *second = expires.unix_secs();
            DONE
        }
        Err(failure) => failure.status(),
    }
}

/// Decodes the field lines of `last-modified` to seconds since 1970 (RFC 9110, section 8.8.2).
#[unsafe(no_mangle)]
pub extern "C" fn typed_headers_last_modified(alloc: Global, lines: &[u8], second: &mut u64) -> u8
    ensures { Gives (FieldDecodes reads_date lines.now) second.old second.new result }
{
    match read_field::<LastModified>(alloc, lines) {
        Ok(modified) => {
            *second = modified.unix_secs();
            DONE
        }
        Err(failure) => failure.status(),
    }
}
