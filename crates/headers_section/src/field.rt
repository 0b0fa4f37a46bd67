//! The fields of an input.
ghost use Rattle.std.specs.Prelude.{◌≡◌, ◌<◌, ◌≤◌, ◌∷◌, ◌++◌, [], length, take, drop, Err, OnOk, IfOk, IfSome, IfNone};
ghost use Rattle.std.specs.Prelude.{MatchBool, take_while};
ghost use Rattle.http_header.specs.{FieldName.IsFieldName, Token.lowercase};
ghost use Rattle.http_header.specs.HeaderMap.{append, ContainsKey, RefusesAppend};
ghost use Rattle.headers_section.specs.Section.{without_return, is_filled, input_lines, section, IsField, IsNoField};
ghost use Rattle.headers_section.specs.Section.{HasOnlyFields, HasNoField, HasTooManyFields, Holds};
ghost use Rattle.headers_section.specs.CanonicalText.{ListsNames};

use bytes::Bytes;
use headers::{HeaderMap, HeaderName, HeaderValue, trimmed};
use http_header::{HeaderMapError, HeaderNameError};
use memchr::memchr;
use std::alloc::{AllocError, Global};
use std::hash::RandomState;

// A name and a value.
type Field = (HeaderName, HeaderValue);

// Where a line ends, without its byte 13 and its byte 10, and where the next one begins.
#[derive(Clone, Copy)]
struct Cut {
    end: usize,
    next: usize,
}

// The line without the byte 13 at its end, if one is there.
fn without_return(line: &[u8]) -> &[u8]
    ensures { result.now ≡ without_return line.now }
{
    match line {
        [before @ .., b'\r'] => before,
        _ => line,
    }
}

// The place of the first byte 10, and the one after it. Both are the length if there is none.
fn line_end(rest: &[u8]) -> (usize, usize)
    ensures order { (result.0 ≤ result.1) × (result.1 ≤ length rest.now) }
    ensures first { section rest.now
        ≡ take_while is_filled (without_return (take result.0 rest.now) ∷ input_lines (drop result.1 rest.now)) }
{
    match memchr(b'\n', rest) {
        Some(place) => (place, place + 1),
        None => (rest.len(), rest.len()),
    }
}

// Cuts the first line from a section. `None` if the section has no line.
fn first_line(rest: &[u8]) -> Option<Cut>
    ensures none { IfNone result (section rest.now ≡ []) }
    ensures some { IfSome result (λ cut.
        section rest.now ≡ take cut.end rest.now ∷ section (drop cut.next rest.now)) }
    ensures order { IfSome result (λ cut.
        (cut.end ≤ length rest.now) × (0 < cut.next) × (cut.next ≤ length rest.now)) }
{
    let (stop, next) = line_end(rest);
    let line = without_return(&rest[..stop]);
    if line.is_empty() {
        return None;
    }
    Some(Cut {
        end: line.len(),
        next,
    })
}

// Reads a field name, which is the first bytes of a section. It may be the name before it, and
// then nothing is looked up. A standard name shares no bytes.
fn read_name(
    alloc: Global,
    before: Option<&HeaderName>,
    rest: &Bytes,
    end: usize,
) -> Result<HeaderName, HeaderNameError>
    requires { end ≤ length rest.now }
    ensures ok { IfOk result (λ name. name ≡ lowercase (take end rest.now)) }
    ensures valid { OnOk result (IsFieldName (take end rest.now)) }
    ensures invalid { result ≡ Err HeaderNameError.Invalid → ¬ (IsFieldName (take end rest.now)) }
{
    let bytes = &rest.as_slice()[..end];
    if let Some(name) = before
        && name.as_bytes() == bytes
    {
        return Ok(name.clone()?);
    }
    match HeaderName::standard(bytes) {
        Some(name) => Ok(name),
        None => HeaderName::from_shared(alloc, rest.slice(0..end)?),
    }
}

// Reads a field from the first bytes of a section, which are a line. `None` if the line is no
// field. The field shares the bytes of the section.
fn read_field(
    alloc: Global,
    before: Option<&HeaderName>,
    rest: &Bytes,
    end: usize,
) -> Result<Option<Field>, AllocError>
    requires { end ≤ length rest.now }
    ensures some { IfOk result (λ found. IfSome found (IsField (take end rest.now))) }
    ensures none { IfOk result (λ found. IfNone found (IsNoField (take end rest.now))) }
{
    let bytes = rest.as_slice();
    let Some(colon) = memchr(b':', &bytes[..end]) else {
        return Ok(None);
    };
    let name = match read_name(alloc, before, rest, colon) {
        Ok(name) => name,
        Err(HeaderNameError::Invalid) => return Ok(None),
        Err(HeaderNameError::OutOfMemory) => return Err(AllocError),
    };
    let (start, stop) = trimmed(bytes, colon + 1, end);
    match HeaderValue::from_shared(rest.slice(start..stop)?) {
        Ok(value) => Ok(Some((name, value))),
        Err(_) => Ok(None),
    }
}

// Whether each line of a section is a field.
fn has_only_fields(alloc: Global, input: Bytes) -> Result<bool, AllocError>
    ensures { IfOk result (λ all. MatchBool all (HasOnlyFields (section input)) (HasNoField (section input))) }
{
    let mut rest = input;
    while let Some(cut) = first_line(rest.as_slice()) {
        if read_field(alloc, None, &rest, cut.end)?.is_none() {
            return Ok(false);
        }
        rest.advance(cut.next);
    }
    Ok(true)
}

/// An empty map, which hashes with the keys where names collide.
pub fn empty_map(alloc: Global, keys: Option<RandomState>) -> HeaderMap
    ensures { result ≡ [] }
{
    match keys {
        Some(keys) => HeaderMap::with_hasher(alloc, keys),
        None => HeaderMap::new(alloc),
    }
}

/// The fields of a header section in a map, and their names in the order of their first appearance.
#[derive(Drop)]
pub struct Fields {
    /// The map of the fields.
    pub map: HeaderMap,
    /// The names of the fields, each once, in the order of their first appearance.
    pub names: Vec<HeaderName>,
}

impl Fields {
    // Appends a field to the map, and its name to the list if the map did not have it yet.
    fn append(&mut self, name: HeaderName, value: HeaderValue) -> Result<(), HeaderMapError>
        ensures held { OnOk result (self.new.map ≡ append self.old.map name value) }
        ensures again { ContainsKey self.old.map name → OnOk result (self.new.names.items ≡ self.old.names.items) }
        ensures new { ¬ (ContainsKey self.old.map name)
            → OnOk result (self.new.names.items ≡ self.old.names.items ++ name ∷ []) }
        ensures room { OnOk result (¬ (RefusesAppend self.old.map name)) }
        ensures full { result ≡ Err HeaderMapError.MaxSizeReached → RefusesAppend self.old.map name }
    {
        let found = self.map.append(&name, value)?;
        if found {
            return Ok(());
        }
        match self.names.push(name) {
            Ok(()) => Ok(()),
            Err(_) => Err(HeaderMapError::OutOfMemory),
        }
    }
}

/// Parses the fields before the first empty line, with the order of their names (RFC 9112, sections
/// 2.1 and 5). `None` if a line before the empty one is no field; `MaxSizeReached` if all are
/// fields and a map has no room for them; `OutOfMemory` if an allocation fails. The map hashes with
/// the keys if names collide. The values share the bytes of the input.
pub fn read_fields(
    alloc: Global,
    keys: Option<RandomState>,
    input: Bytes,
) -> Result<Option<Fields>, HeaderMapError>
    ensures held { IfOk result (λ found. IfSome found (λ fields. Holds input fields.map)) }
    ensures order { IfOk result (λ found. IfSome found (λ fields. ListsNames input fields.names.items)) }
    ensures fits { IfOk result (λ found. IfSome found (λ _. ¬ (HasTooManyFields input))) }
    ensures none { IfOk result (λ found. IfNone found (HasNoField (section input))) }
    ensures full { result ≡ Err HeaderMapError.MaxSizeReached → HasTooManyFields input }
{
    let mut fields = Fields {
        map: empty_map(alloc, keys),
        names: Vec::new(alloc),
    };
    let mut rest = input;
    while let Some(cut) = first_line(rest.as_slice()) {
        let Some((name, value)) = read_field(alloc, fields.names.last(), &rest, cut.end)? else {
            return Ok(None);
        };
        rest.advance(cut.next);
        match fields.append(name, value) {
            Ok(()) => {}
            Err(HeaderMapError::OutOfMemory) => return Err(HeaderMapError::OutOfMemory),
            Err(HeaderMapError::MaxSizeReached) => {
                // A line that is no field comes before a full map, wherever it stands.
                if has_only_fields(alloc, rest)? {
                    return Err(HeaderMapError::MaxSizeReached);
                }
                return Ok(None);
            }
        }
    }
    Ok(Some(fields))
}

/// Parses the fields before the first empty line to a map (RFC 9112, sections 2.1 and 5). `None` if
/// a line before the empty one is no field; `MaxSizeReached` if all are fields and a map has no
/// room for them; `OutOfMemory` if an allocation fails. The map hashes with the keys if names
/// collide. The values share the bytes of the input.
pub fn read_map(
    alloc: Global,
    keys: Option<RandomState>,
    input: Bytes,
) -> Result<Option<HeaderMap>, HeaderMapError>
    ensures some { IfOk result (λ found. IfSome found (Holds input)) }
    ensures fits { IfOk result (λ found. IfSome found (λ _. ¬ (HasTooManyFields input))) }
    ensures none { IfOk result (λ found. IfNone found (HasNoField (section input))) }
    ensures full { result ≡ Err HeaderMapError.MaxSizeReached → HasTooManyFields input }
{
    match read_fields(alloc, keys, input)? {
        Some(fields) => Ok(Some(fields.map)),
        None => Ok(None),
    }
}
