//! Theorems about the definitions alone. To cite one in a proof, call it.
ghost use Rattle.rfc_lists.specs.Laws.{ExtendedReadsBack, FirstIsAtItsPlace, ParametersReadBack, ValueCharsAreSuch};
ghost use Rattle.rfc_lists.specs.Laws.{ValueCharsParse};

use rfc_fields::laws::quoted_strings_parse;

/// Theorem: value-chars by the grammar are decoded to the octet of each (RFC 8187, section 3.2.1).
pub fn value_chars_parse()
    ensures { ValueCharsParse }
{}

/// Theorem: a text that is decoded as value-chars is value-chars by the grammar.
#[tactic(auto, using(crate::proofs::ExtendedLaws::value_chars_are_such))]
pub fn value_chars_are_such()
    ensures { ValueCharsAreSuch }
{}

/// Theorem: a text in UTF-8 that is written as the value of an extended parameter decodes to the same text.
#[tactic(auto, using(crate::proofs::ExtendedLaws::extended_reads_back))]
pub fn extended_texts_read_back()
    ensures { ExtendedReadsBack }
{}

/// Theorem: a text of bytes that a field may have, if it is written as a parameter that isn't extended, under a name
/// that is a token, is that parameter's value (RFC 9110, section 5.6.6).
pub fn parameters_read_back()
    ensures { ParametersReadBack }
{
    quoted_strings_parse();
}

/// Theorem: the first of some parameters that has a name is at the place of that name among the names of all.
#[tactic(auto, using(crate::proofs::NamedLemmas::first_is_at_its_place))]
pub fn first_is_at_its_place()
    ensures { FirstIsAtItsPlace }
{}
