//! The pieces of a response's content.
ghost use Rattle.std.specs.Prelude.{◌≡◌};
ghost use Rattle.server_connection.specs.Pieces.{piece_len};

use bytes::Bytes;

/// Consecutive bytes of what an application has open.
#[derive(Clone, Copy, Debug, PartialEq, Eq)]
pub struct OpenRange {
    /// The position of the first byte.
    pub start: u64,
    /// The number of bytes.
    pub len: u64,
}

/// A piece of a response's content.
#[derive(Debug, Drop)]
pub enum Piece {
    /// Literal bytes.
    Literal(Bytes),
    /// Bytes of what the application has open, which the host sends by itself.
    Range(OpenRange),
}

impl Piece {
    /// Returns the number of bytes that the piece sends.
    pub fn len(&self) -> u64
        ensures { result ≡ piece_len self.now }
    {
        match self {
            Piece::Literal(bytes) => bytes.len() as u64,
            Piece::Range(extent) => extent.len,
        }
    }
}
