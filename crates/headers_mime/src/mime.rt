//! Media types.
ghost use Rattle.std.{specs.Prelude.{◌≡◌, List, ℕ, IsTrue, IfOk, IfSome, Some}, specs.Fmt.padded};
ghost use Rattle.headers_mime.specs.MediaType.{MediaType, IsMediaType, IsCanonical, canonical, canonical_parts};
ghost use Rattle.headers_mime.specs.MimeText.{ReadsMime, is_known, known_texts};

use crate::writing::canonical_text;
use bytes::Bytes;
use headers_syntax::{Error, Refused, read_text};
use http_header::HeaderValue;
use std::alloc::{AllocError, Global};
use std::fmt;
use std::marker::Model;

#[derive(Drop)]
enum Text {
    Known(&'static str),
    Read(HeaderValue),
}

/// A media type, stored as its canonical text (RFC 9110, section 8.3.1). In the canonical text the
/// type, the subtype and the names of parameters are in lower case, and each parameter follows a
/// semicolon and a space. Media types are compared by this text.
///
/// A contract sees the canonical text.
#[derive(Drop)]
pub struct Mime {
    text: Text,
}

impl Model for Mime {
    ghost use Rattle.std.specs.Prelude.{List, ℕ};
    ghost use Rattle.headers_mime.specs.MimeText.{text_bytes, IsMimeText};

    ghost Value = { List ℕ };

    ghost view = { λ mime. text_bytes mime.text };

    ghost invariant = { λ mime. IsMimeText mime.text };
}

impl Mime {
    /// The media type `application/json`.
    pub const APPLICATION_JSON: Mime = Mime {
        text: Text::Known("application/json"),
    };

    /// The media type `text/plain`.
    pub const TEXT_PLAIN: Mime = Mime {
        text: Text::Known("text/plain"),
    };

    /// The media type `text/plain; charset=utf-8`.
    pub const TEXT_PLAIN_UTF_8: Mime = Mime {
        text: Text::Known("text/plain; charset=utf-8"),
    };

    /// The media type `text/html`.
    pub const TEXT_HTML: Mime = Mime {
        text: Text::Known("text/html"),
    };

    /// The media type `text/xml`.
    pub const TEXT_XML: Mime = Mime {
        text: Text::Known("text/xml"),
    };

    /// The media type `application/x-www-form-urlencoded`.
    pub const APPLICATION_WWW_FORM_URLENCODED: Mime = Mime {
        text: Text::Known("application/x-www-form-urlencoded"),
    };

    /// The media type `image/jpeg`.
    pub const IMAGE_JPEG: Mime = Mime {
        text: Text::Known("image/jpeg"),
    };

    /// The media type `image/png`.
    pub const IMAGE_PNG: Mime = Mime {
        text: Text::Known("image/png"),
    };

    /// The media type `application/octet-stream`.
    pub const APPLICATION_OCTET_STREAM: Mime = Mime {
        text: Text::Known("application/octet-stream"),
    };

    /// Returns the nine constants, each of which has the text that its name says.
    pub fn all() -> [Mime; 9]
        ensures { result ≡ known_texts }
    {
        [
            Mime::APPLICATION_JSON,
            Mime::TEXT_PLAIN,
            Mime::TEXT_PLAIN_UTF_8,
            Mime::TEXT_HTML,
            Mime::TEXT_XML,
            Mime::APPLICATION_WWW_FORM_URLENCODED,
            Mime::IMAGE_JPEG,
            Mime::IMAGE_PNG,
            Mime::APPLICATION_OCTET_STREAM,
        ]
    }

    // The constant of a text, without allocation. `None` if there is none.
    fn known(text: &str) -> Option<Mime>
        ensures same { IfSome result (λ mime. mime ≡ text.now) }
        ensures known { IfSome result (λ _. IsTrue (is_known text.now)) }
    {
        match text {
            "application/json" => Some(Mime::APPLICATION_JSON),
            "text/plain" => Some(Mime::TEXT_PLAIN),
            "text/plain; charset=utf-8" => Some(Mime::TEXT_PLAIN_UTF_8),
            "text/html" => Some(Mime::TEXT_HTML),
            "text/xml" => Some(Mime::TEXT_XML),
            "application/x-www-form-urlencoded" => Some(Mime::APPLICATION_WWW_FORM_URLENCODED),
            "image/jpeg" => Some(Mime::IMAGE_JPEG),
            "image/png" => Some(Mime::IMAGE_PNG),
            "application/octet-stream" => Some(Mime::APPLICATION_OCTET_STREAM),
            _ => None,
        }
    }

    // The media type of a canonical text.
    fn from_canonical(text: Vec<u8>) -> Result<Mime, AllocError>
        requires { IsCanonical text.items }
        ensures { IfOk result (λ mime. mime ≡ text.items) }
    {
        Ok(Mime {
            text: Text::Read(HeaderValue::from_known_valid(Bytes::from_vec(text)?)),
        })
    }

    /// Parses a media type, and stores its canonical text (RFC 9110, section 8.3.1). Spaces and
    /// tabs are allowed at both ends and around a semicolon, and nowhere else outside quotes. A
    /// semicolon needs no parameter after it. `Invalid` if the text is no media type, `Memory` if
    /// an allocation fails.
    pub fn parse(alloc: Global, text: &str) -> Result<Mime, Refused<Error>>
        ensures { ReadsMime text.now result }
    {
        if let Some(mime) = Mime::known(text) {
            return Ok(mime);
        }
        match canonical_text(alloc, text.as_bytes()) {
            Ok(text) => Ok(Mime::from_canonical(text)?),
            Err(refused) => Err(refused),
        }
    }

    /// Returns the canonical text of the media type.
    pub fn as_str(&self) -> &str
        ensures text { result.now ≡ self.now }
        ensures canonical { IsCanonical self.now }
    {
        match &self.text {
            Text::Known(text) => text,
            Text::Read(value) => read_text(value).unwrap(),
        }
    }

    /// Returns the canonical text as a header value. Fails only if an allocation fails.
    pub fn to_value(&self, _alloc: Global) -> Result<HeaderValue, AllocError>
        ensures { IfOk result (λ value. value.bytes ≡ self.now) }
    {
        match &self.text {
            Text::Known(text) => Ok(HeaderValue::from_static(text)),
            Text::Read(value) => value.clone(),
        }
    }

    /// Copies the media type. Fails only if an allocation fails.
    pub fn clone(&self, _alloc: Global) -> Result<Mime, AllocError>
        ensures { IfOk result (λ copy. copy ≡ self.now) }
    {
        let text = match &self.text {
            Text::Known(text) => Text::Known(text),
            Text::Read(value) => Text::Read(value.clone()?),
        };
        Ok(Mime { text })
    }
}

impl PartialEq for Mime {
    ghost use Rattle.std.{specs.Prelude.nat_eq, specs.Cmp.Lexicographic.{pointwise, nat_list_eq_equiv}};
    ghost use Rattle.std.specs.Cmp.{partial_equiv_from_equiv};

    ghost eq = { pointwise nat_eq };

    ghost laws = { partial_equiv_from_equiv nat_list_eq_equiv };

    fn eq(&self, other: &Mime) -> bool {
        self.as_str() == other.as_str()
    }
}

impl fmt::Display for Mime {
    ghost output = { λ mime. Some mime };

    ghost styled_output = { λ mime spec. Some (padded spec mime) };

    fn fmt<W: fmt::Write>(&self, f: &mut fmt::Formatter<W>) -> fmt::Result {
        f.pad(self.as_str())
    }
}

impl fmt::Debug for Mime {
    fn fmt<W: fmt::Write>(&self, f: &mut fmt::Formatter<W>) -> fmt::Result {
        self.as_str().fmt(f)
    }
}

/// Theorem: a text parses as at most one media type, and canonical text is stable. The canonical
/// text parses as the parts in canonical form, and its canonical text is itself.
pub fn media_types_are_read_once()
    ensures once { (text : List ℕ) (m n : MediaType) → IsMediaType text m → IsMediaType text n → m ≡ n }
    ensures back { (text : List ℕ) (m : MediaType) → IsMediaType text m
        → IsMediaType (canonical m) (canonical_parts m) }
    ensures stable { (m : MediaType) → canonical (canonical_parts m) ≡ canonical m }
{}
