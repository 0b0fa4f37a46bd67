//! Codings of contents.
ghost use Rattle.std.specs.Prelude.{◌≡◌};
ghost use Rattle.http_header.specs.FieldValue.{plain_value};
ghost use Rattle.server_files.specs.Codings.{coding_name, coding_suffix, is_encoded};

use headers::HeaderValue;

/// The coding of a content (RFC 9110, section 8.4.1).
#[derive(Clone, Copy, Debug, PartialEq, Eq)]
pub enum Coding {
    /// The content as it is.
    Identity,
    /// Brotli (RFC 7932), in a file whose name has `.br` at its end.
    Brotli,
    /// The format of gzip (RFC 1952), in a file whose name has `.gz` at its end.
    Gzip,
}

impl Coding {
    /// Its name, as a value of Content-Encoding.
    pub fn name(self) -> HeaderValue
        ensures { result ≡ plain_value (coding_name self) }
    {
        match self {
            Coding::Identity => HeaderValue::from_static("identity"),
            Coding::Brotli => HeaderValue::from_static("br"),
            Coding::Gzip => HeaderValue::from_static("gzip"),
        }
    }

    /// What is appended to the name of a file.
    pub fn suffix(self) -> &'static str
        ensures { result.now ≡ coding_suffix self }
    {
        match self {
            Coding::Identity => "",
            Coding::Brotli => ".br",
            Coding::Gzip => ".gz",
        }
    }

    /// Whether it changes a content.
    pub fn is_encoded(self) -> bool
        ensures { result ≡ is_encoded self }
    {
        match self {
            Coding::Identity => false,
            Coding::Brotli | Coding::Gzip => true,
        }
    }
}
