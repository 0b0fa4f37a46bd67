//! Paths of a store.
ghost use Rattle.std.specs.Prelude.{◌≡◌, ◌==◌, true, false, IfOk, MatchOption, OnErr, drop, option_map, slice_index};
ghost use Rattle.std.{specs.Prelude.string_bytes, specs.List.list_all};
ghost use Rattle.percent_encoding.specs.Percent.{percent_decode};
ghost use Rattle.server_files.specs.Path.{IsDecoded, IsFolderOf, Names, ends_in_slash, is_first_name, is_name};
ghost use Rattle.server_files.specs.Path.{is_name_byte, is_plain, names_folder, with_index};

use percent_encoding::percent_decode_str;
use std::alloc::{AllocError, Global};
use std::borrow::CowSlice;

fn is_name_byte(byte: u8) -> bool
    ensures { result ≡ is_name_byte byte }
{
    byte != 0 && byte != b'\\'
}

fn are_name_bytes(name: &[u8]) -> bool
    ensures { result ≡ list_all is_name_byte name.now }
{
    name.iter().all(|byte| is_name_byte(*byte))
}

// Whether a store may have the name: it isn't hidden, and is no way up.
pub(crate) fn is_name(name: &[u8]) -> bool
    ensures { result ≡ is_name name.now }
{
    !name.is_empty() && name[0] != b'.' && are_name_bytes(name)
}

// Whether it may be the first name of a path: it is that of a store, or `.well-known`.
fn is_first_name(name: &[u8]) -> bool
    ensures { result ≡ is_first_name name.now }
{
    is_name(name) || name == b".well-known".as_slice()
}

/// Whether a path is plain: names with a slash between them, of which none is empty, begins with a
/// dot, or holds a NUL or a backslash. The first may be `.well-known` (RFC 8615, section 3).
pub fn is_plain(path: &str) -> bool
    ensures { result ≡ is_plain path.now }
{
    let mut names = path.as_bytes().split(|byte| *byte == b'/');
    match names.next() {
        Some(first) => is_first_name(first) && names.all(|name| is_name(name)),
        None => false,
    }
}

/// Whether the last byte of a path is a slash.
pub fn ends_in_slash(path: &[u8]) -> bool
    ensures { result ≡ ends_in_slash path.now }
{
    !path.is_empty() && path[path.len() - 1] == b'/'
}

fn names_folder(path: &[u8]) -> bool
    ensures { result ≡ names_folder path.now }
{
    path.is_empty() || ends_in_slash(path)
}

// A text, percent-decoded. `None` if that isn't UTF-8. One without escapes is UTF-8 as it is.
fn decoded(alloc: Global, encoded: &str) -> Result<Option<String>, AllocError>
    ensures { IfOk result (λ text. IsDecoded encoded.now (option_map string_bytes text)) }
{
    match percent_decode_str(encoded).into_cow(alloc)? {
        CowSlice::Borrowed(_) => Ok(Some(String::from_str(alloc, encoded)?)),
        CowSlice::Owned(bytes) => match String::from_utf8(bytes) {
            Ok(text) => Ok(Some(text)),
            Err(_) => Ok(None),
        },
    }
}

// The path of a file: that of a folder has `index.html` appended.
fn with_index(mut path: String) -> Result<String, AllocError>
    ensures { IfOk result (λ file. string_bytes file ≡ with_index (string_bytes path)) }
{
    if names_folder(path.as_bytes()) {
        path.push_str("index.html")?;
    }
    Ok(path)
}

/// The folder whose index a path of a store names: it is empty or ends in a slash. `None` if the path is
/// another one.
pub fn folder_of(path: &str) -> Option<&str>
    ensures { IsFolderOf path.now (option_map (λ folder. folder.now) result) }
{
    match path.strip_suffix("index.html") {
        Some(folder) => folder_if_named(folder),
        None => None,
    }
}

fn folder_if_named(folder: &str) -> Option<&str>
    ensures { MatchOption result (names_folder folder.now ≡ false)
        (λ named. (names_folder folder.now ≡ true) × (named.now ≡ folder.now)) }
{
    if names_folder(folder.as_bytes()) {
        Some(folder)
    } else {
        None
    }
}

/// The path in a store that the path of a URI names: what follows its first slash,
/// percent-decoded, with `index.html` appended if it is empty or ends in a slash. `None` if it
/// doesn't begin with a slash, if it isn't UTF-8, or if that path isn't plain. Fails only if it begins
/// with a slash and an allocation fails.
pub fn store_path(alloc: Global, path: &str) -> Result<Option<String>, AllocError>
    ensures named { IfOk result (λ named. Names path.now (option_map string_bytes named)) }
    ensures memory { OnErr result (slice_index path.now 0 ≡ 47) }
{
    let Some(encoded) = path.strip_prefix('/') else {
        return Ok(None);
    };
    let Some(text) = decoded(alloc, encoded)? else {
        return Ok(None);
    };
    let named = with_index(text)?;
    if !is_plain(named.as_str()) {
        return Ok(None);
    }
    Ok(Some(named))
}
