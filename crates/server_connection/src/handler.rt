//! What an application gives to a connection.
ghost use Rattle.std.{specs.Prelude.{◌≡◌, ℕ, List, take, OnOk, IfOk}, specs.Io.ReadsAtMost};
ghost use Rattle.http.specs.declared.request.Request.{Request};
ghost use Rattle.server_connection.{specs.declared.plan.ResponsePlan.ResponsePlan, specs.Plan.IsBlank};

use crate::ResponsePlan;
use bytes::Bytes;
use http::{Request, StatusCode};
use std::alloc::AllocError;
use std::io;

/// An application: it answers a request with a plan, and gives the bytes of the plan's ranges.
pub trait Handler {
    // From the first state, the plan answers the request and leaves the second state.
    ghost plans: { Self → Request (List ℕ) → ResponsePlan → Self → Type 0 };

    // What the handler has open may give these bytes from this place on.
    ghost gives: { Self → ℕ → List ℕ → Type 0 };

    /// Makes the plan of a response, which is a 200 without field lines and content before, and
    /// opens what its ranges name. It stays open until the next call.
    ///
    /// Fails only if an allocation fails, which ends the connection. Answer any other fault with a
    /// status.
    fn plan(&mut self, request: &Request<Bytes>, plan: &mut ResponsePlan) -> Result<(), AllocError>
        requires { IsBlank plan.old }
        ensures { OnOk result (plans self.old request.now plan.new self.new) };

    /// Reads bytes of what is open, from a position on. No byte means that it ends there.
    fn read(&self, start: u64, buffer: &mut [u8]) -> io::Result<usize>
        ensures bound { ReadsAtMost result buffer.new }
        ensures bytes { IfOk result (λ count. gives self.now start (take count buffer.new)) };

    /// Is told the status by which the connection rejects what came, before that is sent, as for a log.
    fn note_rejection(&self, _status: StatusCode) {}
}
