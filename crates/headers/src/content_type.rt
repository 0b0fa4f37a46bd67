//! The header `content-type`.
ghost use Rattle.std.{specs.Prelude.{◌≡◌, Some, codes, IfOk}, specs.Fmt.padded};
ghost use Rattle.headers_mime.specs.MimeText.{ReadsMime};
ghost use Rattle.headers.specs.ContentType.{ReadsType, type_line};

use headers_core::{AsHeaderValue, Error, Header, Refused, first, read_text};
use headers_mime::Mime;
use http_header::{CONTENT_TYPE, HeaderName, HeaderValue};
use std::alloc::{AllocError, Global};
use std::fmt;
use std::marker::Model;

/// The header `Content-Type`: the media type of the content (RFC 9110, section 8.3). The first
/// field line is decoded, and its canonical text is the encoding. `decode` rejects a value that is
/// no media type, and may run out of memory. Headers are compared by the canonical text.
#[derive(Debug, Drop, PartialEq)]
pub struct ContentType {
    mime: Mime,
}

impl Model for ContentType {
    ghost use Rattle.std.specs.Prelude.{List, ℕ};

    ghost Value = { List ℕ };

    ghost view = { λ header. header.mime };

    ghost inverse = { λ mime. record { mime = mime } };
}

impl ContentType {
    /// Makes the header `application/json`.
    pub fn json() -> ContentType
        ensures { result ≡ codes "application/json" }
    {
        ContentType::from(Mime::APPLICATION_JSON)
    }

    /// Makes the header `text/plain`.
    pub fn text() -> ContentType
        ensures { result ≡ codes "text/plain" }
    {
        ContentType::from(Mime::TEXT_PLAIN)
    }

    /// Makes the header `text/plain; charset=utf-8`.
    pub fn text_utf8() -> ContentType
        ensures { result ≡ codes "text/plain; charset=utf-8" }
    {
        ContentType::from(Mime::TEXT_PLAIN_UTF_8)
    }

    /// Makes the header `text/html`.
    pub fn html() -> ContentType
        ensures { result ≡ codes "text/html" }
    {
        ContentType::from(Mime::TEXT_HTML)
    }

    /// Makes the header `text/xml`.
    pub fn xml() -> ContentType
        ensures { result ≡ codes "text/xml" }
    {
        ContentType::from(Mime::TEXT_XML)
    }

    /// Makes the header `application/x-www-form-urlencoded`.
    pub fn form_url_encoded() -> ContentType
        ensures { result ≡ codes "application/x-www-form-urlencoded" }
    {
        ContentType::from(Mime::APPLICATION_WWW_FORM_URLENCODED)
    }

    /// Makes the header `image/jpeg`.
    pub fn jpeg() -> ContentType
        ensures { result ≡ codes "image/jpeg" }
    {
        ContentType::from(Mime::IMAGE_JPEG)
    }

    /// Makes the header `image/png`.
    pub fn png() -> ContentType
        ensures { result ≡ codes "image/png" }
    {
        ContentType::from(Mime::IMAGE_PNG)
    }

    /// Makes the header `application/octet-stream`.
    pub fn octet_stream() -> ContentType
        ensures { result ≡ codes "application/octet-stream" }
    {
        ContentType::from(Mime::APPLICATION_OCTET_STREAM)
    }

    /// Parses a media type. `Invalid` if the text is no media type, `Memory` if an allocation
    /// fails.
    pub fn from_str(alloc: Global, text: &str) -> Result<ContentType, Refused<Error>>
        ensures { ReadsMime text.now result }
    {
        match Mime::parse(alloc, text) {
            Ok(mime) => Ok(ContentType { mime }),
            Err(refused) => Err(refused),
        }
    }

    /// Copies the header. Fails only if an allocation fails.
    pub fn clone(&self, alloc: Global) -> Result<ContentType, AllocError>
        ensures { IfOk result (λ copy. copy ≡ self.now) }
    {
        Ok(ContentType {
            mime: self.mime.clone(alloc)?,
        })
    }
}

impl From<Mime> for ContentType {
    ghost use Rattle.std.specs.Prelude.{◌≡◌};

    ghost from_gives = { λ mime header. header ≡ mime };

    fn from(mime: Mime) -> ContentType {
        ContentType { mime }
    }
}

impl From<ContentType> for Mime {
    ghost use Rattle.std.specs.Prelude.{◌≡◌};

    ghost from_gives = { λ header mime. mime ≡ header };

    fn from(header: ContentType) -> Mime {
        header.mime
    }
}

impl fmt::Display for ContentType {
    ghost output = { λ header. Some header };

    ghost styled_output = { λ header spec. Some (padded spec header) };

    fn fmt<W: fmt::Write>(&self, f: &mut fmt::Formatter<W>) -> fmt::Result {
        f.pad(self.mime.as_str())
    }
}

impl Header for ContentType {
    ghost use Rattle.std.specs.Prelude.{◌≡◌, false, codes};
    ghost use Rattle.headers.specs.ContentType.{ReadsType, type_line};
    ghost use Rattle.headers.specs.ContentTypeLaws.{content_type_laws};

    ghost field_name = { codes "content-type" };

    ghost free = { false };

    ghost same = { λ v w. v ≡ w };

    ghost reads = { ReadsType };

    ghost writes = { type_line };

    ghost laws = { content_type_laws };

    fn name() -> HeaderName {
        CONTENT_TYPE
    }

    fn decode<I: Iterator>(alloc: Global, values: &mut I) -> Result<ContentType, Refused<Error>>
    where
        I::Item: AsHeaderValue,
    {
        let line = first(values).ok_or(Error::invalid())?;
        let text = read_text(line.as_header_value()).ok_or(Error::invalid())?;
        ContentType::from_str(alloc, text)
    }

    fn encode(&self, alloc: Global, values: &mut Vec<HeaderValue>) -> Result<(), AllocError> {
        let value = self.mime.to_value(alloc)?;
        values.push(value)?;
        Ok(())
    }
}

/// Theorem: every value of `ContentType` survives a round trip.
pub fn content_type_reads_back(header: &ContentType)
    ensures { ReadsType (type_line header.now) header.now }
{
    let _text = header.mime.as_str();
}
