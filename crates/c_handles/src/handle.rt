//! A handle, as C has it.
ghost use Rattle.std.specs.Prelude.{◌≡◌, Option, Some, None, is_some, true, false, MatchOption};
ghost use Rattle.c_handles.{specs.Ownership.held_owns, specs.declared.held.Held.Held};

use crate::held::Held;
use c_parts::{Loose, RawBox};
use std::alloc::Global;
use std::marker::{Model, Send};
use std::mem::replace;
use std::ptr::null_mut;

/// A handle: closed, or open. C has it by value, and passes a pointer to it. Zero bytes are a closed one. C neither
/// copies an open one nor changes its fields.
#[repr(C)]
pub struct Handle {
    at: *mut u8,
    is_open: bool,
    pub ghost held: { Option Held },
    pub ghost opened: { is_open ≡ is_some held },
}

impl Model for Handle {
    ghost also_owns = { λ handle. held_owns handle.at handle.held };
}

// C may pass it to another thread, if the calls on it are ordered.
unsafe impl Send for Handle {}

impl Handle {
    /// A closed handle.
    pub fn closed() -> Handle
        ensures { result.held ≡ None }
    {
        Handle {
            at: null_mut(),
            is_open: false,
        }
    }

    fn of_raw_box(raw: RawBox<Held, Global>) -> Handle
        ensures { result.held ≡ Some raw.value }
    {
        let RawBox { at, alloc: _ } = raw;
        Handle {
            at: at as *mut u8,
            is_open: true,
        }
    }

    fn into_loose(self) -> (bool, Loose<Held>)
        ensures { (result.0 ≡ is_some self.held) × (result.1.held ≡ self.held) }
    {
        let Handle { at, is_open } = self;
        (
            is_open,
            Loose {
                at: at as *mut Held,
            },
        )
    }

    /// Takes out what the handle has. It is closed then.
    pub fn take(&mut self, alloc: Global) -> Option<Box<Held>>
        ensures taken { MatchOption result (self.old.held ≡ None) (λ held. self.old.held ≡ Some held.value) }
        ensures closed { self.new.held ≡ None }
    {
        let (is_open, loose) = replace(self, Handle::closed()).into_loose();
        if is_open {
            Some(loose.into_raw_box(alloc).into_box())
        } else {
            None
        }
    }

    /// Opens a closed handle.
    pub fn put(&mut self, held: Box<Held>)
        requires { self.old.held ≡ None }
        ensures { self.new.held ≡ Some held.value }
    {
        let (_, _closed) = replace(self, Handle::of_raw_box(RawBox::of(held))).into_loose();
    }
}
