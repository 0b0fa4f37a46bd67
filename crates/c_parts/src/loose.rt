//! The pointer of a handle.
ghost use Rattle.std.specs.Prelude.{◌≡◌, ◌≢◌, Option, Some, None};
ghost use Rattle.c_parts.specs.Ownership.{handle_owns};

use crate::raw_box::RawBox;
use std::alloc::Global;
use std::marker::Model;

/// The pointer of a handle for C, which is closed or open. Dropping it frees nothing, so it is dropped only if the
/// handle was closed.
#[derive(Drop)]
pub struct Loose<T> {
    pub at: *mut T,
    pub ghost held: { Option T },
}

impl<T> Model for Loose<T> {
    ghost also_owns = { λ loose. handle_owns T.row loose.at loose.held };
}

impl<T> Loose<T> {
    /// Makes the box of an open handle again, as its pointer.
    pub fn into_raw_box(self, alloc: Global) -> RawBox<T, Global>
        requires { self.held ≢ None }
        ensures { self.held ≡ Some result.value }
    {
        let Loose { at } = self;
        RawBox { at, alloc }
    }
}
