//! The input of the program.
ghost use Rattle.std.{specs.Prelude.{◌≡◌, ◌<◌, ◌≤◌, length, IfOk, IfSome}, specs.Io.KnownBytes.{Consumes, IsAtEnd}};
ghost use Rattle.headers_section.specs.Section.{input_limit};

use crate::status::RunError;
use std::alloc::Global;
use std::io::Read;

/// The greatest length of an input, in bytes.
const INPUT_LIMIT: usize = 8_388_608;

/// Reads the whole input. `Room` as soon as it is longer than the limit; then no more is read. `Io`
/// if a read fails, `Memory` if an allocation fails.
pub fn read_input<R: Read>(alloc: Global, reader: &mut R) -> Result<Vec<u8>, RunError>
    ensures limit { IfOk result (λ input. length input.items ≤ input_limit) }
    ensures read { IfOk result
        (λ input. Consumes (R.remaining reader.old) (R.remaining reader.new) input.items) }
    ensures end { IfOk result (λ _. IsAtEnd (R.remaining reader.new)) }
    ensures room { result ≡ Err RunError.Room
        → IfSome (R.remaining reader.old) (λ input. input_limit < length input) }
{
    let mut input = Vec::new(alloc);
    let mut buffer = [0; 8192];
    while input.len() <= INPUT_LIMIT {
        let count = reader.read(&mut buffer)?;
        if count == 0 {
            return Ok(input);
        }
        input.extend_from_slice(&buffer[..count])?;
    }
    Err(RunError::Room)
}
