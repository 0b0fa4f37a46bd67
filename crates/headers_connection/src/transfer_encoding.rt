//! The header `transfer-encoding`.
ghost use Rattle.std.{specs.Prelude.{◌≡◌, ◌↔◌, IsTrue, IfOk, List, codes, ℕ}, specs.List.after_last};
ghost use Rattle.headers_syntax.specs.Text.{trim};
ghost use Rattle.headers_items.{specs.Answers.{GoesByItems, SurvivesCuts}, specs.Merge.merge, specs.Places.comma};
ghost use Rattle.headers_items.specs.Places.{items};
ghost use Rattle.headers_connection.specs.Chunked.{IsChunked, is_comma};

use headers_core::{Comma, FlatCsv, FormHeader, trim};
use headers_syntax::after_last;
use http_header::{HeaderName, TRANSFER_ENCODING};
use std::alloc::{AllocError, Global};
use std::marker::Model;

/// The header `Transfer-Encoding`: the transfer codings that form the message body, in order (RFC
/// 9112, section 6.1). All field lines are joined by a comma and a space, and none are rejected:
/// `decode` fails only if an allocation fails.
#[derive(Debug, Drop)]
pub struct TransferEncoding {
    codings: FlatCsv<Comma>,
}

impl Model for TransferEncoding {
    ghost Value = { List ℕ };

    ghost view = { λ v. v.codings };

    ghost inverse = { λ bytes. record { codings = bytes } };
}

// Whether what follows the last comma is the word, trimmed.
fn ends_in_chunked(text: &str) -> bool
    ensures { IsTrue result ↔ (trim (after_last is_comma text.now) ≡ codes "chunked") }
{
    trim(after_last(text.as_bytes(), b',')) == b"chunked".as_slice()
}

impl TransferEncoding {
    /// Makes the header `chunked`.
    pub fn chunked() -> TransferEncoding
        ensures { result ≡ codes "chunked" }
    {
        TransferEncoding::from_form(FlatCsv::from_word("chunked"))
    }

    /// Returns whether the list ends in `chunked`. The last item, or what follows its last comma if
    /// it has one, is that word when trimmed. A value that isn't text isn't chunked.
    pub fn is_chunked(&self) -> bool
        ensures answer { IsTrue result ↔ IsChunked (items comma self.now) }
        ensures cuts { SurvivesCuts comma
            (λ lines chunked. IsTrue chunked ↔ IsChunked (items comma (merge comma lines))) }
        ensures by_items { GoesByItems comma (λ value chunked. IsTrue chunked ↔ IsChunked (items comma value)) }
    {
        self.codings.as_text().is_some_and(ends_in_chunked)
    }

    /// Copies the header. Fails only if an allocation fails.
    pub fn clone(&self, alloc: Global) -> Result<TransferEncoding, AllocError>
        ensures { IfOk result (λ copy. copy ≡ self.now) }
    {
        Ok(TransferEncoding::from_form(self.codings.clone(alloc)?))
    }
}

impl FormHeader for TransferEncoding {
    type Form = FlatCsv<Comma>;

    ghost NAME = { codes "transfer-encoding" };

    const NAME: HeaderName = TRANSFER_ENCODING;

    ghost form = { λ header. header };

    fn from_form(codings: FlatCsv<Comma>) -> TransferEncoding {
        TransferEncoding { codings }
    }

    fn as_form(&self) -> &FlatCsv<Comma> {
        &self.codings
    }
}
