//! Links.
ghost use Rattle.std.specs.Prelude.{◌≡◌, ◌≤◌, ◌++◌, length, option_map, IfOk, OnOk};
ghost use Rattle.headers_syntax.specs.Lines.{lines_of};
ghost use Rattle.rfc_lists.specs.declared.links.Place.TheVariants.{Outside};
ghost use Rattle.rfc_lists.specs.Links.{after, cut_link, link_len, link_text, line_text, links_text};
ghost use Rattle.rfc_lists.specs.Links.{parameters_text, relation_line, relation_lines, separates};

use crate::attributes::push_lowercase;
use crate::lines::{push_line, push_malformed, push_spaced_member};
use crate::named::{first_octets, push_named};
use headers_syntax::trim;
use http_header::{GetAll, HeaderValue};
use rfc_fields::{Parameterized, cut};
use std::alloc::{AllocError, Global};

/// Where a byte of a line is.
#[derive(Clone, Copy)]
pub(crate) enum Place {
    /// In neither of the others.
    Outside,
    /// Between `<` and `>`.
    Bracketed,
    /// Between quotes.
    Quoted,
    /// After a backslash between quotes.
    Escaped,
}

/// Returns the links of all field lines in order (RFC 8288, section 3), as of `link`: for each the line of its
/// target, as it is in the field line, that of each parameter, `l` and each relation type of the first `rel` in lower
/// case (section 3.3), its title (section 3.4.1), and an empty line. Fails only if an allocation fails.
pub fn links_text(alloc: Global, field: &GetAll<'_, HeaderValue>) -> Result<Vec<u8>, AllocError>
    ensures { IfOk result (λ text. text.items ≡ links_text (lines_of field.now)) }
{
    let mut text = Vec::new(alloc);
    for value in field.iter() {
        push_links(alloc, &mut text, value.as_bytes())?;
    }
    Ok(text)
}

fn push_links(alloc: Global, text: &mut Vec<u8>, line: &[u8]) -> Result<(), AllocError>
    ensures { OnOk result (text.new.items ≡ text.old.items ++ line_text line.now) }
{
    let mut left = line;
    while let Some((link, others)) = cut_link(left) {
        push_link(alloc, text, trim(link))?;
        left = others;
    }
    push_link(alloc, text, trim(left))
}

// Cuts a text at the first comma that separates links.
fn cut_link(text: &[u8]) -> Option<(&[u8], &[u8])>
    ensures { option_map (λ sides. (sides.0.now, sides.1.now)) result ≡ cut_link text.now }
{
    let end = link_len(text);
    if end < text.len() {
        Some((&text[..end], &text[end + 1..]))
    } else {
        None
    }
}

// How many bytes are before the first comma that separates links.
fn link_len(text: &[u8]) -> usize
    ensures within { result ≤ length text.now }
    ensures len { result ≡ link_len Outside text.now }
{
    let mut place = Place::Outside;
    for index in 0..text.len() {
        let byte = text[index];
        if separates(place, byte) {
            return index;
        }
        place = after(place, byte);
    }
    text.len()
}

// Whether a byte at this place is a comma between links.
fn separates(place: Place, byte: u8) -> bool
    ensures { result ≡ separates place byte }
{
    byte == b',' && matches!(place, Place::Outside)
}

fn after(place: Place, byte: u8) -> Place
    ensures { result ≡ after place byte }
{
    match (place, byte) {
        (Place::Outside, b'<') => Place::Bracketed,
        (Place::Outside, b'"') => Place::Quoted,
        (Place::Bracketed, b'>') => Place::Outside,
        (Place::Quoted, b'"') => Place::Outside,
        (Place::Quoted, b'\\') => Place::Escaped,
        (Place::Escaped, _) => Place::Quoted,
        _ => place,
    }
}

// Appends the lines of a link: none if its text is empty.
fn push_link(alloc: Global, text: &mut Vec<u8>, link: &[u8]) -> Result<(), AllocError>
    ensures { OnOk result (text.new.items ≡ text.old.items ++ link_text link.now) }
{
    let Some((first, rest)) = link.split_first() else {
        return Ok(());
    };
    match cut(b'>', rest) {
        Some((target, parameters)) if *first == b'<' => {
            push_line(text, b'v', target)?;
            push_parameters(alloc, text, parameters)?;
        }
        _ => push_malformed(text)?,
    }
    text.push(b'\n')?;
    Ok(())
}

// Appends the lines of what follows a target.
fn push_parameters(alloc: Global, text: &mut Vec<u8>, rest: &[u8]) -> Result<(), AllocError>
    ensures { OnOk result (text.new.items ≡ text.old.items ++ parameters_text rest.now) }
{
    let parts = match Parameterized::read(rest) {
        Ok(parts) if parts.value.is_empty() => parts,
        _ => return push_malformed(text),
    };
    for parameter in parts.parameters {
        push_spaced_member(alloc, text, true, parameter)?;
    }
    if let Some(relations) = first_octets(alloc, b"rel", rest)? {
        push_relations(text, relations.as_slice())?;
    }
    push_named(alloc, text, b"title", b"title*", rest)
}

fn push_relations(text: &mut Vec<u8>, relations: &[u8]) -> Result<(), AllocError>
    ensures { OnOk result (text.new.items ≡ text.old.items ++ relation_lines relations.now) }
{
    let mut left = relations;
    while let Some((relation, others)) = cut(b' ', left) {
        push_relation(text, relation)?;
        left = others;
    }
    push_relation(text, left)
}

fn push_relation(text: &mut Vec<u8>, relation: &[u8]) -> Result<(), AllocError>
    ensures { OnOk result (text.new.items ≡ text.old.items ++ relation_line relation.now) }
{
    if relation.is_empty() {
        return Ok(());
    }
    text.push(b'l')?;
    push_lowercase(text, relation)?;
    text.push(b'\n')?;
    Ok(())
}
