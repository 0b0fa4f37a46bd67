//! A handle, as the calls have it that only read.
ghost use Rattle.std.specs.Prelude.{◌≡◌, ℕ, Option, Some, None, is_some, MatchOption, true, false};
ghost use Rattle.c_handles.{specs.Ownership.loan_owns, specs.declared.held.Held.Held};

use crate::held::Held;
use crate::loan::Loan;
use std::marker::{Model, Send};
use std::mem::replace;
use std::ptr::null_mut;

/// A copy of a handle's fields, for a call that only reads what the handle has. Such calls may overlap, each with a
/// copy of its own.
#[repr(C)]
pub struct View {
    at: *mut u8,
    is_open: bool,
    pub ghost held: { Option Held },
    pub ghost opened: { is_open ≡ is_some held },
    pub ghost life: { ℕ },
    pub ghost parts: { ℕ },
}

// C may pass a copy to another thread: what is lent may be read from any.
unsafe impl Send for View {}

impl Model for View {
    ghost also_owns = { λ view. loan_owns view.at view.held view.life view.parts };
}

/// What a view has.
#[derive(Drop)]
pub struct Lent {
    pub(crate) is_open: bool,
    pub loan: Loan,
    pub ghost opened: { is_open ≡ is_some loan.held },
}

impl View {
    fn closed() -> View
        ensures { result.held ≡ None }
    {
        View {
            at: null_mut(),
            is_open: false,
        }
    }

    fn of_loan(is_open: bool, loan: Loan) -> View
        requires { is_open ≡ is_some loan.held }
        ensures { (result.held ≡ loan.held) × (result.life ≡ loan.life) × (result.parts ≡ loan.parts) }
    {
        let Loan { at } = loan;
        View { at, is_open }
    }

    fn into_loan(self) -> (bool, Loan)
        ensures is_open { result.0 ≡ is_some self.held }
        ensures loan { (result.1.held ≡ self.held) × (result.1.life ≡ self.life) × (result.1.parts ≡ self.parts) }
    {
        let View { at, is_open } = self;
        (is_open, Loan { at })
    }

    /// Takes out what the view has. It is closed then.
    pub fn take(&mut self) -> Lent
        ensures held { result.loan.held ≡ self.old.held }
        ensures right { (result.loan.life ≡ self.old.life) × (result.loan.parts ≡ self.old.parts) }
        ensures closed { self.new.held ≡ None }
    {
        let (is_open, loan) = replace(self, View::closed()).into_loan();
        Lent { is_open, loan }
    }

    /// Puts it back into a closed view.
    pub fn put(&mut self, lent: Lent)
        requires { self.old.held ≡ None }
        ensures held { self.new.held ≡ lent.loan.held }
        ensures right { (self.new.life ≡ lent.loan.life) × (self.new.parts ≡ lent.loan.parts) }
    {
        let Lent { is_open, loan } = lent;
        let (_, _closed) = replace(self, View::of_loan(is_open, loan)).into_loan();
    }
}

impl Lent {
    /// What the handle has, or nothing if it is closed.
    pub fn get(&self) -> Option<&Held>
        ensures { MatchOption result (self.now.loan.held ≡ None) (λ held. self.now.loan.held ≡ Some held.now) }
    {
        if self.is_open {
            Some(self.loan.get())
        } else {
            None
        }
    }
}
