//! The host in C, as an application.
ghost use Rattle.std.{specs.Prelude.{ℕ, List}, specs.Borrow.ftrue};
ghost use Rattle.http.specs.declared.request.Request.{Request};
ghost use Rattle.server_connection.specs.declared.plan.ResponsePlan.{ResponsePlan};

use server_connection::Application;
use std::marker::Model;

/// The host in C: each request that it answered, and the plan. Contracts alone speak of it.
pub struct HostHistory {
    pub ghost given: { List (Request (List ℕ) × ResponsePlan) },
}

impl Model for HostHistory {
    ghost also_owns = { λ _. ftrue };
}

impl Application for HostHistory {
    ghost use Rattle.c_connection.specs.Calls.{host_gives, host_plans};

    ghost plans = { host_plans };

    ghost gives = { host_gives };
}
