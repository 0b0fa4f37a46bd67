//! The right to read what an open handle has.
ghost use Rattle.std.specs.Prelude.{◌≡◌, ◌≢◌, ℕ, Option, Some, None};
ghost use Rattle.c_handles.{specs.Ownership.{loan_owns, loan_shares}, specs.declared.held.Held.Held};

use crate::held::Held;
use std::marker::Model;

/// The pointer of a handle, for a time in which nobody changes what the handle has.
#[derive(Drop)]
pub struct Loan {
    pub(crate) at: *mut u8,
    pub ghost held: { Option Held },
    pub ghost life: { ℕ },
    pub ghost parts: { ℕ },
}

impl Model for Loan {
    ghost also_owns = { λ loan. loan_owns loan.at loan.held loan.life loan.parts };

    ghost also_shares = { λ loan _ κ. loan_shares loan.at loan.held loan.life κ };
}

impl Loan {
    /// What an open handle has.
    pub(crate) fn get(&self) -> &Held
        requires { self.now.held ≢ None }
        ensures { self.now.held ≡ Some result.now }
    {
        unsafe { &*(self.at as *const Held) }
    }
}
