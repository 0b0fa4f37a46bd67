//! The program, over a reader and a writer.
ghost use Rattle.std.specs.Prelude.{◌≡◌, Err, IfErr};
ghost use Rattle.headers_section.specs.Answer.{IsRun};

use crate::input::read_input;
use crate::output::write_text;
use crate::status::{Outcome, RunError};
use crate::text::canonical_text;
use bytes::Bytes;
use std::alloc::Global;
use std::hash::RandomState;
use std::io::{self, Read, Write};

/// Reads a header section, and writes its canonical text (RFC 9112, section 2.1). The input has at
/// most 8,388,608 bytes. The text has each name at its first appearance, with its field lines; it
/// is complete before the first write, and no failed call is tried again. After `Memory`, after
/// `Io`, and if the input is too long, it is open how much was read.
///
/// This is `run_with_keys` without keys. The map then hashes with fixed keys, so an attacker can
/// choose names that make it slow.
pub fn run<R: Read, W: Write>(
    alloc: Global,
    reader: &mut R,
    writer: &mut W,
) -> Result<Outcome, RunError>
    ensures { IsRun (R.remaining reader.old) (R.remaining reader.new)
        (W.contents writer.old) (W.contents writer.new) result }
{
    run_with_keys(alloc, None, reader, writer)
}

/// Does the same as `run`, with a map that hashes with these keys if names collide.
pub fn run_with_keys<R: Read, W: Write>(
    alloc: Global,
    keys: Option<RandomState>,
    reader: &mut R,
    writer: &mut W,
) -> Result<Outcome, RunError>
    ensures { IsRun (R.remaining reader.old) (R.remaining reader.new)
        (W.contents writer.old) (W.contents writer.new) result }
{
    let input = read_input(alloc, reader)?;
    let Some(text) = canonical_text(alloc, keys, Bytes::from_vec(input)?)? else {
        return Ok(Outcome::NotAField);
    };
    write_text(writer, text.bytes.as_slice())?;
    if text.some_refused {
        Ok(Outcome::SomeRefused)
    } else {
        Ok(Outcome::Clean)
    }
}

/// Does the same as `run`, with keys from the system. If the system gives no keys, the result is
/// `Io`, and nothing was read or written.
pub fn run_with_system_keys<R: Read, W: Write>(
    alloc: Global,
    keys: io::Result<RandomState>,
    reader: &mut R,
    writer: &mut W,
) -> Result<Outcome, RunError>
    ensures run { IsRun (R.remaining reader.old) (R.remaining reader.new)
        (W.contents writer.old) (W.contents writer.new) result }
    ensures no_keys { IfErr keys (λ _. result ≡ Err RunError.Io) }
    ensures untouched { IfErr keys (λ _. (reader.new ≡ reader.old) × (writer.new ≡ writer.old)) }
{
    run_with_keys(alloc, Some(keys?), reader, writer)
}
