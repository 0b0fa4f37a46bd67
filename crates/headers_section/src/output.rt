//! The output of the program.
ghost use Rattle.std.{specs.Prelude.{◌≡◌, ℕ, List, ◌++◌, OnOk, IfErr, OnErr}, specs.Io.KnownBytes.Appends};

use crate::status::RunError;
use std::io::Write;

/// Writes the text, and then flushes. `Io` at the first failure, or if a write takes no byte;
/// nothing is tried again.
pub fn write_text<W: Write>(writer: &mut W, text: &[u8]) -> Result<(), RunError>
    ensures ok { OnOk result (Appends (W.contents writer.old) (W.contents writer.new) text.now) }
    ensures err { OnErr result ((begun rest : List ℕ) × (text.now ≡ begun ++ rest)
        × Appends (W.contents writer.old) (W.contents writer.new) begun) }
    ensures error { IfErr result (λ e. e ≡ RunError.Io) }
{
    let mut rest = text;
    while !rest.is_empty() {
        let count = writer.write(rest)?;
        if count == 0 {
            return Err(RunError::Io);
        }
        rest = &rest[count..];
    }
    writer.flush()?;
    Ok(())
}
