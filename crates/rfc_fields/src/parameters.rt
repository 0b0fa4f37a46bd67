//! A value and its parameters (RFC 9110, section 5.6.6).
ghost use Rattle.std.specs.Prelude.{◌≡◌, ◌≢◌, ◌∷◌, ℕ, List, true, MatchResult};
ghost use Rattle.rfc_fields.specs.{Directives.HasParameters, Grammar.semicolon, Members.members_left, Scan.Member};
ghost use Rattle.rfc_fields.specs.{Scan.pieces, Scan.Member.Whole, declared.scan.State.TheVariants.Outside};

use crate::error::Malformed;
use crate::members::Members;
use headers_syntax::trim;

/// An element with parameters, such as `text/html; charset=utf-8` (RFC 9110, section 5.6.6).
#[derive(Drop)]
pub struct Parameterized<'a> {
    /// What is before the first semicolon, without blanks around it. It may be empty.
    pub value: &'a [u8],
    /// The parameters, each a slice of the element, which `read_directive` parses. Empty ones are
    /// skipped.
    pub parameters: Members<'a>,
}

impl<'a> Parameterized<'a> {
    /// Splits an element into its value and its parameters (RFC 9110, section 5.6.6). `Malformed`
    /// if a quote before the first semicolon has no end; no member of a list has such a quote.
    pub fn read(element: &'a [u8]) -> Result<Parameterized<'a>, Malformed>
        ensures { MatchResult result
            (λ p. HasParameters element.now p.value.now (members_left p.parameters))
            (λ _. (first : List ℕ) (others : List Member)
            → pieces semicolon true Outside element.now ≢ Whole first ∷ others) }
    {
        let mut parameters = Members::between_semicolons(element);
        match parameters.next_piece() {
            Some(Ok(first)) => Ok(Parameterized {
                value: trim(first),
                parameters,
            }),
            _ => Err(Malformed),
        }
    }
}
