//! The header `content-encoding`.
ghost use Rattle.std.specs.Prelude.{◌≡◌, ◌↔◌, Contains, IsTrue, IfOk, codes, List, ℕ};
ghost use Rattle.headers_items.{specs.Answers.{GoesByItems, SurvivesCuts}, specs.Merge.merge, specs.Places.comma};
ghost use Rattle.headers_items.specs.Places.{items};

use headers_core::{Comma, FlatCsv, FormHeader};
use http_header::{CONTENT_ENCODING, HeaderName};
use std::alloc::{AllocError, Global};
use std::marker::Model;

/// The header `Content-Encoding`: the codings that were applied to the content, in order (RFC 9110,
/// section 8.4). All field lines are joined by a comma and a space, and none are rejected: `decode`
/// fails only if an allocation fails.
#[derive(Debug, Drop)]
pub struct ContentEncoding {
    codings: FlatCsv<Comma>,
}

impl Model for ContentEncoding {
    ghost Value = { List ℕ };

    ghost view = { λ v. v.codings };

    ghost inverse = { λ bytes. record { codings = bytes } };
}

impl ContentEncoding {
    /// Makes the header `gzip`.
    pub fn gzip() -> ContentEncoding
        ensures { result ≡ codes "gzip" }
    {
        ContentEncoding::from_form(FlatCsv::from_word("gzip"))
    }

    /// Makes the header `br`, which is Brotli.
    pub fn brotli() -> ContentEncoding
        ensures { result ≡ codes "br" }
    {
        ContentEncoding::from_form(FlatCsv::from_word("br"))
    }

    /// Makes the header `zstd`, which is Zstandard.
    pub fn zstd() -> ContentEncoding
        ensures { result ≡ codes "zstd" }
    {
        ContentEncoding::from_form(FlatCsv::from_word("zstd"))
    }

    /// Returns whether some item is the coding, byte for byte.
    pub fn contains(&self, coding: &str) -> bool
        ensures answer { IsTrue result ↔ Contains (items comma self.now) coding.now }
        ensures cuts { SurvivesCuts comma
            (λ lines has. IsTrue has ↔ Contains (items comma (merge comma lines)) coding.now) }
        ensures by_items { GoesByItems comma (λ value has. IsTrue has ↔ Contains (items comma value) coding.now) }
    {
        self.codings.iter().any(|item| item == coding)
    }

    /// Copies the header. Fails only if an allocation fails.
    pub fn clone(&self, alloc: Global) -> Result<ContentEncoding, AllocError>
        ensures { IfOk result (λ copy. copy ≡ self.now) }
    {
        Ok(ContentEncoding::from_form(self.codings.clone(alloc)?))
    }
}

impl FormHeader for ContentEncoding {
    type Form = FlatCsv<Comma>;

    ghost NAME = { codes "content-encoding" };

    const NAME: HeaderName = CONTENT_ENCODING;

    ghost form = { λ header. header };

    fn from_form(codings: FlatCsv<Comma>) -> ContentEncoding {
        ContentEncoding { codings }
    }

    fn as_form(&self) -> &FlatCsv<Comma> {
        &self.codings
    }
}
