//! The header `set-cookie`.
ghost use Rattle.std.specs.Prelude.{◌≡◌, IfOk};

use headers_core::{AsHeaderValue, Error, Header, Refused, push_clone};
use http_header::{HeaderName, HeaderValue, SET_COOKIE};
use std::alloc::{AllocError, Global};
use std::marker::Model;

/// The header `Set-Cookie`: the cookies that a user agent is to store, one a field line (RFC 6265,
/// section 4.1). All field lines are stored, whatever they are, and never joined or cut. `decode`
/// rejects only a field without a line, and may run out of memory.
#[derive(Debug, Drop)]
pub struct SetCookie {
    lines: Vec<HeaderValue>,
}

impl Model for SetCookie {
    ghost use Rattle.std.{specs.Prelude.List, specs.Coded.coded_list};
    ghost use Rattle.http_header.specs.FieldValue.{FieldValue, field_value_code};

    ghost Value = { List FieldValue };

    ghost coded = { coded_list field_value_code };

    ghost view = { λ cookies. cookies.lines.items };
}

impl SetCookie {
    /// Copies the header. Each line is sensitive exactly if the original is. Fails only if an
    /// allocation fails.
    pub fn clone(&self, alloc: Global) -> Result<SetCookie, AllocError>
        ensures { IfOk result (λ copy. copy ≡ self.now) }
    {
        let mut lines = Vec::new(alloc);
        for line in &self.lines {
            push_clone(&mut lines, line)?;
        }
        Ok(SetCookie { lines })
    }
}

impl Header for SetCookie {
    ghost use Rattle.std.specs.Prelude.{false, codes};
    ghost use Rattle.headers_syntax.{specs.HeaderLaws.{SameBy, ReadsBy, written_by}, proofs.ShapeLemmas.all_kept_laws};
    ghost use Rattle.headers_values.specs.SetCookie.{set_cookie_grammar};

    ghost field_name = { codes "set-cookie" };

    ghost free = { false };

    ghost same = { SameBy set_cookie_grammar };

    ghost reads = { ReadsBy set_cookie_grammar };

    ghost writes = { written_by set_cookie_grammar };

    ghost laws = { all_kept_laws set_cookie_grammar.kept };

    fn name() -> HeaderName {
        SET_COOKIE
    }

    fn decode<I: Iterator>(alloc: Global, values: &mut I) -> Result<SetCookie, Refused<Error>>
    where
        I::Item: AsHeaderValue,
    {
        // No hint is read; with room for eight, a list of twenty grows twice and not four times.
        let mut lines = Vec::with_capacity(alloc, 8)?;
        while let Some(line) = values.next() {
            push_clone(&mut lines, line.as_header_value())?;
        }
        if lines.is_empty() {
            return Err(Refused::Invalid(Error::invalid()));
        }
        Ok(SetCookie { lines })
    }

    fn encode(&self, _alloc: Global, values: &mut Vec<HeaderValue>) -> Result<(), AllocError> {
        let before = values.len();
        for line in &self.lines {
            if let Err(refused) = push_clone(values, line) {
                values.truncate(before);
                return Err(refused);
            }
        }
        Ok(())
    }
}
