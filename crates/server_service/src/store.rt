//! Where files come from.
ghost use Rattle.std.specs.Prelude.{◌≡◌, ℕ, true, List, Option, IfOk};
ghost use Rattle.server_files.specs.Path.{is_plain};
ghost use Rattle.server_service.{specs.Stores.ListsOwn, specs.declared.file.Entry.Entry};

use crate::file::Entry;
use bytes::Bytes;
use http::{Request, StatusCode};
use server_connection::ResponsePlan as Response;
use std::alloc::{AllocError, Global};

/// Files by paths: names with a slash between them.
pub trait FileStore {
    // What the store may have at a path.
    ghost has: { Self → List ℕ → Entry → Type 0 };

    // What the clock of the store may tell.
    ghost tells: { Self → Option ℕ → Type 0 };

    /// The entry at a path. The error is for memory alone. The path is plain: no name in it is empty or
    /// begins with a dot, but for `.well-known` as the first, and none holds a NUL or a backslash. So it
    /// stays below the root of the store.
    fn find(&self, alloc: Global, path: &str) -> Result<Entry, AllocError>
        requires { is_plain path.now ≡ true }
        ensures entry { IfOk result (has self.now path.now) }
        ensures listed { IfOk result (ListsOwn path.now) };

    /// The seconds since the start of 1970, if there is a clock.
    fn now(&self) -> Option<u64>
        ensures { tells self.now result };

    /// Is told each request and its response before that is sent, as for a log.
    fn note(&self, request: &Request<Bytes>, response: &Response);

    /// Is told the status by which a connection rejects what came, before that is sent, as for a log.
    fn note_rejection(&self, _status: StatusCode) {}
}
