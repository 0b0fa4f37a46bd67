//! Bytes as words. Printable ASCII is itself, any other byte is `%` and two hexadecimal digits. A
//! word in parentheses never means bytes, except `()`.
use crate::failure::CaseFailure;
use percent_encoding::{CONTROLS, PercentEncode, percent_decode_str, percent_encode};
use std::alloc::Global;
use std::fmt;

/// The word of an absent argument or answer, `(none)`.
pub const NONE: &str = "(none)";

/// Bytes that are printed as a word.
#[derive(Clone, Copy)]
pub struct Word<'a>(pub &'a [u8]);

// Bytes past ASCII are escaped too.
fn escape(bytes: &[u8]) -> PercentEncode<'_> {
    percent_encode(bytes, CONTROLS.add(b' ').add(b'%'))
}

impl fmt::Display for Word<'_> {
    fn fmt<W: fmt::Write>(&self, f: &mut fmt::Formatter<W>) -> fmt::Result {
        match self.0 {
            [] => f.write_str("()"),
            b"=" => f.write_str("%3D"),
            b"!" => f.write_str("%21"),
            [b'(', others @ ..] => write!(f, "%28{}", escape(others)),
            bytes => write!(f, "{}", escape(bytes)),
        }
    }
}

/// Returns the bytes that a word means. `NoCall` if it means none.
pub fn read_bytes(alloc: Global, word: &str) -> Result<Vec<u8>, CaseFailure> {
    let mut bytes = Vec::new(alloc);
    if word == "()" {
        return Ok(bytes);
    }
    if word.starts_with('(') {
        return Err(CaseFailure::NoCall);
    }
    percent_decode_str(word).append_to(&mut bytes)?;
    Ok(bytes)
}
