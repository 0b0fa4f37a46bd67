//! Parameters (RFC 9110, section 5.6.6).
ghost use Rattle.std.specs.Prelude.{◌≡◌, option_map};
ghost use Rattle.rfc_fields.specs.{Directives.directive_parts, Members.member_of, Values.value_parts};
ghost use Rattle.decide_negotiation.specs.Parameters.{is_same_parameter, is_same_value, is_weight, parameter_of};
ghost use Rattle.decide_negotiation.specs.Parameters.{parameter_parts, with_value};

use rfc_fields::{Directive, Malformed, Value, directive_in};

/// A parameter: a name and a value.
#[derive(Clone, Copy)]
pub(crate) struct Parameter<'a> {
    pub(crate) name: &'a [u8],
    pub(crate) value: Value<'a>,
}

// The parameter that a directive is. A name alone is none.
fn with_value(directive: Directive<'_>) -> Option<Parameter<'_>>
    ensures { option_map parameter_parts result ≡ with_value (directive_parts directive.entry) }
{
    match directive.argument {
        Some(value) => Some(Parameter {
            name: directive.name,
            value,
        }),
        None => None,
    }
}

/// Parses a member of an element as a parameter.
pub(crate) fn parameter_of<'a>(member: Result<&'a [u8], Malformed>) -> Option<Parameter<'a>>
    ensures { option_map parameter_parts result ≡ parameter_of (member_of member.entry) }
{
    match member {
        Ok(text) => match directive_in(text) {
            Some(directive) => with_value(directive),
            None => None,
        },
        Err(Malformed) => None,
    }
}

// Whether both values mean the same octets, as tokens or as quoted-strings, ignoring case.
fn is_same_value(one: &Value<'_>, other: &Value<'_>) -> bool
    ensures { result ≡ is_same_value (value_parts one.now) (value_parts other.now) }
{
    let mut others = other.octets();
    for octet in one.octets() {
        match others.next() {
            Some(theirs) if theirs.eq_ignore_ascii_case(&octet) => {}
            _ => return false,
        }
    }
    others.next().is_none()
}

impl<'a> Parameter<'a> {
    /// Returns whether the parameter is a weight (RFC 9110, section 12.4.2).
    pub(crate) fn is_weight(&self) -> bool
        ensures { result ≡ is_weight (parameter_parts self.now) }
    {
        self.name.eq_ignore_ascii_case(b"q")
    }

    /// Returns whether name and value are equal, ignoring case.
    pub(crate) fn is_same(&self, other: &Parameter<'_>) -> bool
        ensures { result ≡ is_same_parameter (parameter_parts self.now) (parameter_parts other.now) }
    {
        self.name.eq_ignore_ascii_case(other.name) && is_same_value(&self.value, &other.value)
    }
}
