//! What the contracts of a connection know of the application.
ghost use Rattle.std.specs.Prelude.{ℕ, List};
ghost use Rattle.http.specs.declared.request.Request.{Request};
ghost use Rattle.server_connection.specs.declared.plan.ResponsePlan.{ResponsePlan};

use crate::handler::Handler;

/// What an application answers, and what it has open. It is read by contracts alone: the application answers by
/// `respond`, and its host sends the ranges of what is open.
pub trait Application {
    // From the first state, the plan answers the request and leaves the second state.
    ghost plans: { Self → Request (List ℕ) → ResponsePlan → Self → Type 0 };

    // What the application has open may give these bytes from this place on.
    ghost gives: { Self → ℕ → List ℕ → Type 0 };
}

impl<H: Handler> Application for H {
    ghost plans = { H.plans };

    ghost gives = { H.gives };
}
