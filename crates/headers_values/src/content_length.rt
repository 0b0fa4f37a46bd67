//! The header `content-length`.

use headers_core::{AsHeaderValue, Error, Header, Refused, read_number};
use http_header::{CONTENT_LENGTH, HeaderName, HeaderValue};
use std::alloc::{AllocError, Global};

/// The header `Content-Length`: the length of the content in bytes, below 2^64 (RFC 9110, section
/// 8.6). All field lines are decoded, and must be the same number. `decode` rejects any other
/// lines, and never allocates.
#[derive(Clone, Copy, Debug, PartialEq)]
pub struct ContentLength(pub u64);

impl Header for ContentLength {
    ghost use Rattle.std.specs.Prelude.{true, codes};
    ghost use Rattle.headers_values.specs.ContentLength.{content_length_same, content_length_reads};
    ghost use Rattle.headers_values.specs.ContentLength.{content_length_writes};
    ghost use Rattle.headers_values.specs.ContentLengthLaws.{content_length_laws};

    ghost field_name = { codes "content-length" };

    ghost free = { true };

    ghost same = { content_length_same };

    ghost reads = { content_length_reads };

    ghost writes = { content_length_writes };

    ghost laws = { content_length_laws };

    fn name() -> HeaderName {
        CONTENT_LENGTH
    }

    fn decode<I: Iterator>(_alloc: Global, values: &mut I) -> Result<ContentLength, Refused<Error>>
    where
        I::Item: AsHeaderValue,
    {
        let mut length: Option<u64> = None;
        while let Some(item) = values.next() {
            let Some(next) = read_number(item.as_header_value()) else {
                return Err(Refused::Invalid(Error::invalid()));
            };
            match length {
                None => length = Some(next),
                Some(before) => {
                    if before != next {
                        return Err(Refused::Invalid(Error::invalid()));
                    }
                }
            }
        }
        Ok(ContentLength(length.ok_or(Error::invalid())?))
    }

    fn encode(&self, alloc: Global, values: &mut Vec<HeaderValue>) -> Result<(), AllocError> {
        let value = HeaderValue::from_u64(alloc, self.0)?;
        values.push(value)?;
        Ok(())
    }
}
