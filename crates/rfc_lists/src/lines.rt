//! Lines of text.
ghost use Rattle.std.specs.{Prelude.{◌≡◌, ◌++◌, ◌∷◌, [], OnOk, IfOk, is_some}, Option.option_map_or};
ghost use Rattle.rfc_fields.{specs.Directives.{directive_in, directive_parts}, specs.Members.member_of};
ghost use Rattle.rfc_fields.specs.Values.{octets_of, value_parts};
ghost use Rattle.rfc_lists.specs.Lines.{directive_line, line, member_line, parameter_in, parameter_line, squeezed};
ghost use Rattle.rfc_lists.specs.Lines.{text_line, valued_line};

use headers_syntax::trim;
use rfc_fields::{Directive, Malformed, Value, cut, directive_in};
use std::alloc::{AllocError, Global};

/// Appends a line: a letter and a text.
pub(crate) fn push_line(text: &mut Vec<u8>, letter: u8, bytes: &[u8]) -> Result<(), AllocError>
    ensures { OnOk result (text.new.items ≡ text.old.items ++ line letter bytes.now) }
{
    text.push(letter)?;
    text.extend_from_slice(bytes)?;
    text.push(b'\n')?;
    Ok(())
}

/// Appends a line: a letter, a name, `=` and a text.
pub(crate) fn push_valued(
    text: &mut Vec<u8>,
    letter: u8,
    name: &[u8],
    value: &[u8],
) -> Result<(), AllocError>
    ensures { OnOk result (text.new.items ≡ text.old.items ++ valued_line letter name.now value.now) }
{
    text.push(letter)?;
    text.extend_from_slice(name)?;
    push_line(text, b'=', value)
}

/// Appends what a value means, and a byte 10 behind it.
pub fn push_octets(text: &mut Vec<u8>, value: &Value<'_>) -> Result<(), AllocError>
    ensures { OnOk result (text.new.items ≡ text.old.items ++ octets_of (value_parts value.now) ++ 10 ∷ []) }
{
    for octet in value.octets() {
        text.push(octet)?;
    }
    text.push(b'\n')?;
    Ok(())
}

/// Appends the line of a directive.
pub(crate) fn push_directive(
    text: &mut Vec<u8>,
    directive: &Directive<'_>,
) -> Result<(), AllocError>
    ensures { OnOk result (text.new.items ≡ text.old.items ++ directive_line (directive_parts directive.now)) }
{
    match &directive.argument {
        None => push_line(text, b'n', directive.name),
        Some(value) => {
            text.push(b'p')?;
            text.extend_from_slice(directive.name)?;
            text.push(b'=')?;
            push_octets(text, value)
        }
    }
}

/// Appends the line of a text: as a directive, if it is one.
pub(crate) fn push_text(text: &mut Vec<u8>, piece: &[u8]) -> Result<(), AllocError>
    ensures { OnOk result (text.new.items ≡ text.old.items ++ text_line piece.now) }
{
    match directive_in(piece) {
        Some(directive) => push_directive(text, &directive),
        None => push_line(text, b'v', piece),
    }
}

/// Appends the line of a member of a list.
pub(crate) fn push_member(
    text: &mut Vec<u8>,
    member: Result<&[u8], Malformed>,
) -> Result<(), AllocError>
    ensures { OnOk result (text.new.items ≡ text.old.items ++ member_line (member_of member.entry)) }
{
    match member {
        Ok(piece) => push_text(text, piece),
        Err(Malformed) => push_malformed(text),
    }
}

/// Appends the line of what is malformed.
pub(crate) fn push_malformed(text: &mut Vec<u8>) -> Result<(), AllocError>
    ensures { OnOk result (text.new.items ≡ text.old.items ++ 33 ∷ 10 ∷ []) }
{
    text.extend_from_slice(b"!\n")?;
    Ok(())
}

/// Returns a text without the blanks beside its first `=`, which a recipient removes (RFC 9110, section 5.6.3).
pub(crate) fn squeezed(alloc: Global, piece: &[u8]) -> Result<Vec<u8>, AllocError>
    ensures { IfOk result (λ text. text.items ≡ squeezed piece.now) }
{
    let Some((name, value)) = cut(b'=', piece) else {
        return Vec::from_slice(alloc, piece);
    };
    let mut text = Vec::with_capacity(alloc, piece.len())?;
    text.extend_from_slice(trim(name))?;
    text.push(b'=')?;
    text.extend_from_slice(trim(value))?;
    Ok(text)
}

/// Appends the line of a text, if it is a parameter, and returns whether it is one.
pub(crate) fn push_parameter(
    alloc: Global,
    text: &mut Vec<u8>,
    piece: &[u8],
) -> Result<bool, AllocError>
    ensures { IfOk result (λ pushed. (pushed ≡ is_some (parameter_in piece.now))
        × (text.new.items ≡ text.old.items ++ option_map_or directive_line (parameter_in piece.now) [])) }
{
    let plain = squeezed(alloc, piece)?;
    match directive_in(plain.as_slice()) {
        Some(directive) if directive.argument.is_some() => {
            push_directive(text, &directive)?;
            Ok(true)
        }
        _ => Ok(false),
    }
}

/// Appends the line of a parameter, which may have blanks beside its `=`, if it is to be shown, or of a text that is
/// none.
pub(crate) fn push_spaced_member(
    alloc: Global,
    text: &mut Vec<u8>,
    shown: bool,
    parameter: Result<&[u8], Malformed>,
) -> Result<(), AllocError>
    ensures { OnOk result (text.new.items ≡ text.old.items ++ parameter_line shown (member_of parameter.entry)) }
{
    let Ok(piece) = parameter else {
        return push_malformed(text);
    };
    let plain = squeezed(alloc, piece)?;
    match directive_in(plain.as_slice()) {
        Some(directive) if shown => push_directive(text, &directive),
        Some(_) => Ok(()),
        None => push_line(text, b'v', piece),
    }
}
