//! The header `expect`.

use headers_core::{AsHeaderValue, Error, Header, Refused, only_word};
use http_header::{EXPECT, HeaderName, HeaderValue};
use std::alloc::{AllocError, Global};

/// The header `Expect`: the client expects a response before it sends the content (RFC 9110,
/// section 10.1.1). The only field line is `100-continue`. `decode` rejects any other value, and no
/// or several lines, and never allocates.
#[derive(Clone, Debug, Drop, PartialEq)]
pub struct Expect {
    _priv: (),
}

impl Expect {
    /// `100-continue`: the client waits for an interim response before it sends the content.
    pub const CONTINUE: Expect = Expect { _priv: () };
}

impl Header for Expect {
    ghost use Rattle.std.specs.Prelude.{true, codes};
    ghost use Rattle.headers_syntax.{specs.HeaderLaws.{SameBy, ReadsBy, written_by}, proofs.ShapeLemmas.only_word_laws};
    ghost use Rattle.headers_connection.specs.Expect.{expect_grammar};

    ghost field_name = { codes "expect" };

    ghost free = { true };

    ghost same = { SameBy expect_grammar };

    ghost reads = { ReadsBy expect_grammar };

    ghost writes = { written_by expect_grammar };

    ghost laws = { only_word_laws (codes "100-continue") expect_grammar.kept };

    fn name() -> HeaderName {
        EXPECT
    }

    fn decode<I: Iterator>(_alloc: Global, values: &mut I) -> Result<Expect, Refused<Error>>
    where
        I::Item: AsHeaderValue,
    {
        if only_word(values, "100-continue") {
            Ok(Expect::CONTINUE)
        } else {
            Err(Refused::Invalid(Error::invalid()))
        }
    }

    fn encode(&self, _alloc: Global, values: &mut Vec<HeaderValue>) -> Result<(), AllocError> {
        values.push(HeaderValue::from_static("100-continue"))?;
        Ok(())
    }
}
