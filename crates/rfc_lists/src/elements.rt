//! Elements with parameters.
ghost use Rattle.std.specs.Prelude.{◌≡◌, ◌++◌, ◌∷◌, [], ◌&&◌, List, map, option_map, IfOk, OnOk};
ghost use Rattle.std.specs.List.{list_any};
ghost use Rattle.headers_syntax.specs.{AsciiCase.same_name, Lines.lines_of};
ghost use Rattle.rfc_fields.specs.{Members.member_of, Scan.Member};
ghost use Rattle.rfc_lists.specs.Elements.{are_pairs, attachment_line, element_text, elements_text, first_line};
ghost use Rattle.rfc_lists.specs.Elements.{is_attachment, is_hop, is_new, is_other};
ghost use Rattle.rfc_lists.specs.Elements.{pair_name, part_line, parts_text, shown_element, type_line, values_text};
ghost use Rattle.rfc_lists.specs.Elements.{with_first};

use crate::attributes::push_lowercase;
use crate::caches;
use crate::lines::{push_malformed, push_member, push_spaced_member, push_text};
use crate::named::{push_named, with_name};
use http_header::{GetAll, HeaderValue};
use rfc_fields::{FieldMembers, Malformed, Parameterized, directive_in, is_token};
use std::alloc::{AllocError, Global};

/// What elements are.
#[derive(Clone, Copy)]
pub enum Form {
    /// Any with parameters, as of `accept` and `te` (RFC 9110, section 5.6.6).
    Element,
    /// As of `content-disposition` (RFC 6266, section 4.1).
    Disposition,
    /// As of `forwarded` (RFC 7239, section 4).
    Hop,
    /// As of `cache-status` (RFC 9211, section 2).
    Cache,
}

/// Returns the elements of all field lines in order (RFC 9110, sections 5.6.1 and 5.6.6): for each the line of what is
/// before its first semicolon, that of each parameter after it, and an empty line. A hop is malformed unless it has
/// pairs alone, each name once, in any case, and 100 pairs at most. A cache has only parameters that RFC 9211, section
/// 2, defines, each once and with its type. Fails only if an allocation fails.
pub fn elements_text(
    alloc: Global,
    form: Form,
    field: &GetAll<'_, HeaderValue>,
) -> Result<Vec<u8>, AllocError>
    ensures { IfOk result (λ text. text.items ≡ elements_text form (lines_of field.now)) }
{
    let mut text = Vec::new(alloc);
    for member in FieldMembers::new(field) {
        push_shown(alloc, form, &mut text, member)?;
    }
    Ok(text)
}

/// Returns the values of all field lines in order, each as an element: a comma separates nothing. A disposition has `a`
/// behind its type if the content is to be saved (RFC 6266, section 4.2), and the name of its file behind its other
/// parameters (section 4.3). Fails only if an allocation fails.
pub fn values_text(
    alloc: Global,
    form: Form,
    field: &GetAll<'_, HeaderValue>,
) -> Result<Vec<u8>, AllocError>
    ensures { IfOk result (λ text. text.items ≡ values_text form (lines_of field.now)) }
{
    let mut text = Vec::new(alloc);
    for value in field.iter() {
        push_shown(alloc, form, &mut text, Ok(value.as_bytes()))?;
    }
    Ok(text)
}

fn push_shown(
    alloc: Global,
    form: Form,
    text: &mut Vec<u8>,
    member: Result<&[u8], Malformed>,
) -> Result<(), AllocError>
    ensures { OnOk result (text.new.items ≡ text.old.items ++ shown_element form (member_of member.entry)) }
{
    match member {
        Ok(element) => push_element(alloc, form, text, element)?,
        Err(Malformed) => push_malformed(text)?,
    }
    text.push(b'\n')?;
    Ok(())
}

// Appends the lines of an element, but for the empty one.
fn push_element(
    alloc: Global,
    form: Form,
    text: &mut Vec<u8>,
    element: &[u8],
) -> Result<(), AllocError>
    ensures { OnOk result (text.new.items ≡ text.old.items ++ element_text form element.now) }
{
    if matches!(form, Form::Hop) && !is_hop(alloc, element)? {
        push_malformed(text)
    } else {
        push_parts(alloc, form, text, element)
    }
}

fn push_parts(
    alloc: Global,
    form: Form,
    text: &mut Vec<u8>,
    element: &[u8],
) -> Result<(), AllocError>
    ensures { OnOk result (text.new.items ≡ text.old.items ++ parts_text form element.now) }
{
    let parts = match Parameterized::read(element) {
        Ok(parts) => parts,
        Err(Malformed) => return push_malformed(text),
    };
    push_first(alloc, form, text, parts.value)?;
    for parameter in parts.parameters {
        push_part(alloc, form, text, parameter)?;
    }
    match form {
        Form::Element | Form::Hop => Ok(()),
        Form::Disposition => push_named(alloc, text, b"filename", b"filename*", element),
        Form::Cache => caches::push_status(text, element),
    }
}

fn push_first(alloc: Global, form: Form, text: &mut Vec<u8>, first: &[u8]) -> Result<(), AllocError>
    ensures { OnOk result (text.new.items ≡ text.old.items ++ first_line form first.now) }
{
    match form {
        Form::Element | Form::Hop => push_text(text, first),
        Form::Disposition => push_type(text, first),
        Form::Cache => caches::push_name(alloc, text, first),
    }
}

fn push_type(text: &mut Vec<u8>, first: &[u8]) -> Result<(), AllocError>
    ensures { OnOk result (text.new.items ≡ text.old.items ++ type_line first.now) }
{
    if !is_token(first) {
        return push_malformed(text);
    }
    text.push(b'n')?;
    push_lowercase(text, first)?;
    text.push(b'\n')?;
    push_attachment(text, first)
}

// Whether a disposition of this type says that the content is to be saved.
fn is_attachment(type_name: &[u8]) -> bool
    ensures { result ≡ is_attachment type_name.now }
{
    !type_name.eq_ignore_ascii_case(b"inline")
}

fn push_attachment(text: &mut Vec<u8>, type_name: &[u8]) -> Result<(), AllocError>
    ensures { OnOk result (text.new.items ≡ text.old.items ++ attachment_line type_name.now) }
{
    if is_attachment(type_name) {
        text.extend_from_slice(b"a\n")?;
    }
    Ok(())
}

fn push_part(
    alloc: Global,
    form: Form,
    text: &mut Vec<u8>,
    parameter: Result<&[u8], Malformed>,
) -> Result<(), AllocError>
    ensures { OnOk result (text.new.items ≡ text.old.items ++ part_line form (member_of parameter.entry)) }
{
    match form {
        Form::Element | Form::Hop => push_member(text, parameter),
        Form::Disposition => push_spaced_member(alloc, text, is_other(parameter), parameter),
        Form::Cache => caches::push_malformed_item(text, parameter),
    }
}

// Whether a parameter has another name than that of a file.
fn is_other(parameter: Result<&[u8], Malformed>) -> bool
    ensures { result ≡ is_other (member_of parameter.entry) }
{
    with_name(b"filename", parameter).is_none() && with_name(b"filename*", parameter).is_none()
}

// Whether an element has pairs alone, each name once.
fn is_hop(alloc: Global, element: &[u8]) -> Result<bool, AllocError>
    ensures { IfOk result (λ is. is ≡ is_hop element.now) }
{
    let parts = match Parameterized::read(element) {
        Ok(parts) => parts,
        Err(Malformed) => return Ok(false),
    };
    let mut names = Vec::new(alloc);
    if !push_first_new(&mut names, parts.value)? {
        return Ok(false);
    }
    for parameter in parts.parameters {
        if !push_new(&mut names, parameter)? {
            return Ok(false);
        }
    }
    Ok(true)
}

fn push_first_new<'a>(names: &mut Vec<&'a [u8]>, first: &'a [u8]) -> Result<bool, AllocError>
    ensures { IfOk result (λ new. (members : List Member)
        → are_pairs (map (λ name. name.now) names.old.items) (with_first first.now members)
        ≡ (new && are_pairs (map (λ name. name.now) names.new.items) members)) }
{
    if first.is_empty() {
        Ok(true)
    } else {
        push_new(names, Ok(first))
    }
}

// Appends the name of a pair to others, and returns whether it is new.
fn push_new<'a>(
    names: &mut Vec<&'a [u8]>,
    member: Result<&'a [u8], Malformed>,
) -> Result<bool, AllocError>
    ensures { IfOk result (λ new. (members : List Member)
        → are_pairs (map (λ name. name.now) names.old.items) (member_of member.entry ∷ members)
        ≡ (new && are_pairs (map (λ name. name.now) names.new.items) members)) }
{
    match pair_name(member) {
        Some(name) if is_new(names.as_slice(), name) => {
            names.push(name)?;
            Ok(true)
        }
        _ => Ok(false),
    }
}

fn pair_name(member: Result<&[u8], Malformed>) -> Option<&[u8]>
    ensures { option_map (λ name. name.now) result ≡ pair_name (member_of member.entry) }
{
    let Ok(text) = member else {
        return None;
    };
    match directive_in(text) {
        Some(directive) if directive.argument.is_some() => Some(directive.name),
        _ => None,
    }
}

fn is_new(names: &[&[u8]], name: &[u8]) -> bool
    ensures { result ≡ is_new (map (λ name. name.now) names.now) name.now }
{
    names.len() < 100 && !has_name(names, name)
}

fn has_name(names: &[&[u8]], name: &[u8]) -> bool
    ensures { result ≡ list_any (λ other. same_name name.now other.now) names.now }
{
    names.iter().any(|other| name.eq_ignore_ascii_case(other))
}
