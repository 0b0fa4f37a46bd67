//! The parts of a response.
ghost use Rattle.std.specs.Prelude.{◌≡◌};
ghost use Rattle.server_connection.specs.Pieces.{total_len};

use crate::piece::Piece;
use http::{HeaderName, HeaderValue, StatusCode};
use std::alloc::{AllocError, Global};
use std::collections::VecDeque;

/// So many field lines have room without another allocation.
const USUAL_LINES: usize = 8;

/// A response: its status, its field lines, and the pieces of its content in order.
///
/// The connection adds Content-Length and Connection where they are needed. A response to HEAD has the
/// plan of a GET, and its content isn't sent.
#[derive(Debug, Drop)]
pub struct ResponsePlan {
    /// The status code.
    pub status: StatusCode,
    /// The field lines, in order.
    pub headers: Vec<(HeaderName, HeaderValue)>,
    /// The pieces of the content, in order.
    pub pieces: VecDeque<Piece>,
    /// The number of bytes that the pieces send.
    pub len: u64,
    ghost is_len: { len ≡ total_len pieces.items },
}

impl ResponsePlan {
    ghost use Rattle.std.specs.Prelude.{[], ◌∷◌, ◌++◌, OnOk, OnErr};
    ghost use Rattle.http_server.specs.Response.{fields};
    ghost use Rattle.server_connection.specs.Plan.{IsBlank};

    /// Makes a plan without field lines and content. It never allocates.
    pub fn new(alloc: Global) -> ResponsePlan
        ensures { IsBlank result }
    {
        ResponsePlan {
            status: StatusCode::OK,
            headers: Vec::new(alloc),
            pieces: VecDeque::new(alloc),
            len: 0,
        }
    }

    /// Removes all field lines and pieces, as in a new plan.
    pub fn clear(&mut self)
        ensures { IsBlank self.new }
    {
        self.status = StatusCode::OK;
        self.headers.clear();
        self.pieces.clear();
        self.len = 0;
    }

    /// Appends a field line. Fails only if an allocation fails.
    pub fn add_header(&mut self, name: HeaderName, value: HeaderValue) -> Result<(), AllocError>
        ensures headers { OnOk result
            (fields self.new.headers.items ≡ fields self.old.headers.items ++ (name, value.bytes) ∷ []) }
        ensures kept { OnErr result (fields self.new.headers.items ≡ fields self.old.headers.items) }
        ensures status { self.new.status ≡ self.old.status }
        ensures pieces { self.new.pieces.items ≡ self.old.pieces.items }
    {
        if self.headers.is_empty() {
            self.headers.reserve(USUAL_LINES)?;
        }
        Ok(self.headers.push((name, value))?)
    }

    /// Appends a piece. Fails if an allocation fails, or if the content would have 2^64 bytes or
    /// more.
    pub fn push(&mut self, piece: Piece) -> Result<(), AllocError>
        ensures pieces { OnOk result (self.new.pieces.items ≡ self.old.pieces.items ++ piece ∷ []) }
        ensures kept { OnErr result (self.new.pieces.items ≡ self.old.pieces.items) }
        ensures status { self.new.status ≡ self.old.status }
        ensures headers { self.new.headers ≡ self.old.headers }
    {
        let Some(len) = self.len.checked_add(piece.len()) else {
            return Err(AllocError);
        };
        self.pieces.push_back(piece)?;
        self.len = len;
        Ok(())
    }

    // Its pieces alone.
    pub(crate) fn into_pieces(self) -> VecDeque<Piece>
        ensures { result.items ≡ self.pieces.items }
    {
        let ResponsePlan { pieces, .. } = self;
        pieces
    }
}
